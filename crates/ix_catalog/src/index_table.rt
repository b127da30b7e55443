//! The indexes of a store as it keeps them in memory. The store copies them for a command, and
//! takes the copy once the command is accepted.

ghost use Rattle.std.specs.Prelude.{◌≡◌, ◌<◌, length, IfOk, IfSome};
ghost use Rattle.std.specs.List.{position};
ghost use Rattle.std.specs.Str.{bytes_eq};
ghost use Rattle.ix_life.specs.declared.views.IndexView.{IndexView};

use ix_base::NoMemory;
use ix_life::{IndexView, IndexViewList, copy_indexes};
use std::alloc::Global;

/// The indexes with their buckets, the counts of events, and the number of the next file; what is
/// seen of a store but its ledger.
#[derive(Drop)]
pub struct IndexTable {
    /// The indexes that are configured or have ever had a bucket, in the order of the bytes of
    /// their names.
    pub indexes: IndexViewList,
    /// How many events were settled.
    pub settled: u64,
    /// How many of them went to the null queue.
    pub nulled: u64,
    /// How many of them had no index to go to.
    pub dropped: u64,
    /// How many of them were placed in buckets.
    pub placed: u64,
    /// The number that the next file has.
    pub next_file: u64,
}

/// The place of the index of this name in a list.
pub fn place_of(indexes: &[IndexView], name: &[u8]) -> Option<usize>
    ensures value { result ≡ position (λ (v : IndexView). bytes_eq v.name name.now) indexes.now }
    ensures within { IfSome result (λ k. k < length indexes.now) }
{
    indexes.iter().position(|view| view.name.as_slice() == name)
}

impl IndexTable {
    /// A copy of them.
    pub fn copy(&self, alloc: Global) -> Result<IndexTable, NoMemory>
        ensures { IfOk result (λ copy. copy ≡ self.now) }
    {
        Ok(IndexTable {
            indexes: copy_indexes(alloc, self.indexes.as_slice())?,
            settled: self.settled,
            nulled: self.nulled,
            dropped: self.dropped,
            placed: self.placed,
            next_file: self.next_file,
        })
    }
}
