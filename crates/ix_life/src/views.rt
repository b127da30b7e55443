//! What a store holds, as its callers see it.

use crate::limits::Limits;
use ix_base::{Bytes, Sequence};
use ix_items::{Bucket, Entry};

/// Buckets of one index.
pub type BucketList = Sequence<Bucket>;

/// Entries of the ledger of frozen buckets.
pub type EntryList = Sequence<Entry>;

/// An index as it stands.
#[derive(Drop)]
pub struct IndexView {
    pub name: Bytes,
    pub limits: Limits,
    /// Its buckets, by their numbers upwards.
    pub buckets: BucketList,
}

/// Indexes.
pub type IndexViewList = Sequence<IndexView>;

/// What a store holds.
#[derive(Drop)]
pub struct View {
    /// The indexes, in the order of the bytes of their names.
    pub indexes: IndexViewList,
    /// The buckets that were frozen: by the moment at which they froze, then by the bytes of the
    /// index's name, by the rule, by the newest time and by the number of the bucket.
    pub ledger: EntryList,
    /// How many events were settled, by all commands so far.
    pub settled: u64,
    /// How many of them went to the null queue.
    pub nulled: u64,
    /// How many of them had no index to go to.
    pub dropped: u64,
}
