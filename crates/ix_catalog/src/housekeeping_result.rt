//! Turns of housekeeping. The store calls `turn_all` for a Tick.

ghost use Rattle.std.specs.Prelude.{◌≡◌, ◌<◌, ◌^◌, ◌++◌, ◌∷◌, [], IfOk, OnOk, option_to_list};
ghost use Rattle.ix_catalog.specs.Shelves.{with_buckets};
ghost use Rattle.ix_catalog.specs.Carried as carrying;
ghost use Rattle.ix_catalog.specs.Turning as defs;

use crate::housekeeping::{Housekeeping, cooled, is_live, rolled};
use crate::index_table::IndexTable;
use ix_base::{NoMemory, Sequence};
use ix_commit::{CopyTarget, FileCopy};
use ix_items::{Bucket, FileList, Rule};
use ix_life::{BucketList, EntryList, IndexView, IndexViewList};
use std::alloc::Global;

/// What a turn of housekeeping leaves.
#[derive(Drop)]
pub struct HousekeepingResult {
    pub indexes: IndexViewList,
    /// The number that the next file has.
    pub next_file: u64,
    /// The entries of the buckets that freeze, in the order in which they do.
    pub entries: EntryList,
    /// What is to be copied: buckets that move to cold, and archives.
    pub copies: Sequence<FileCopy>,
    /// The files that are done with.
    pub files: FileList,
}

/// A bucket with the number of the file that it takes, where it takes one.
type Numbered = (Bucket, u64);

/// What is left of the buckets of an index.
#[derive(Drop)]
struct Remains {
    /// The buckets that stay.
    buckets: BucketList,
    /// Each bucket as it was.
    numbered: Vec<Numbered>,
}

/// The bucket of this number that is under the rules of housekeeping.
fn numbered_id(numbered: &[Numbered], id: u64) -> Option<Numbered>
    ensures { result ≡ defs.numbered_id id numbered.now }
{
    for i in 0..numbered.len() {
        let (bucket, _) = numbered[i];
        if is_live(&bucket) && bucket.id == id {
            return Some(numbered[i]);
        }
    }
    None
}

/// Adds a bucket, where there is one.
fn add(buckets: &mut BucketList, more: Option<Bucket>) -> Result<(), NoMemory>
    ensures { OnOk result (buckets.new ≡ buckets.old ++ option_to_list more) }
{
    if let Some(bucket) = more {
        buckets.push(bucket)?;
    }
    Ok(())
}

/// Adds an index with other buckets.
fn add_view(
    view: &IndexView,
    buckets: BucketList,
    indexes: &mut IndexViewList,
) -> Result<(), NoMemory>
    ensures { OnOk result (indexes.new ≡ indexes.old ++ with_buckets buckets view.now ∷ []) }
{
    let name = view.name.copy()?;
    indexes.push(IndexView {
        name,
        limits: view.limits,
        buckets,
    })
}

impl HousekeepingResult {
    /// No index yet.
    fn untouched(alloc: Global, next_file: u64) -> Self
        ensures { result ≡ defs.untouched next_file }
    {
        HousekeepingResult {
            indexes: Sequence::new(alloc),
            next_file,
            entries: Sequence::new(alloc),
            copies: Sequence::new(alloc),
            files: Sequence::new(alloc),
        }
    }

    /// The bucket is copied into the next file, and its own is done with.
    fn copy_out(&mut self, place: CopyTarget, bucket: &Bucket) -> Result<(), NoMemory>
        requires { carrying.IsCounted self.old }
        ensures { OnOk result (self.new ≡ carrying.copied_out place bucket.now self.old) }
    {
        // Each number that a turn takes has a copy in this list, so that the numbers do not run
        // out.
        let few = self.copies.as_slice().len() < usize::MAX / 2;
        prove!(few);
        let from = bucket.file;
        self.copies.push(FileCopy {
            from,
            place,
            number: self.next_file,
            len: bucket.bytes,
        })?;
        self.files.push(from)?;
        self.next_file += 1;
        Ok(())
    }

    /// The bucket freezes: it is copied where archives are kept, and its file is done with.
    fn freeze(&mut self, archives: bool, bucket: &Bucket) -> Result<(), NoMemory>
        requires { carrying.IsCounted self.old }
        ensures { OnOk result (self.new ≡ carrying.frozen_out archives bucket.now self.old) }
    {
        if archives {
            self.copy_out(CopyTarget::Frozen, bucket)?;
        } else {
            self.files.push(bucket.file)?;
        }
        Ok(())
    }

    /// One bucket of an index has its turn. The answer is what stays of it: none where it freezes.
    fn carry_out(
        &mut self,
        turn: &Housekeeping,
        bucket: &Bucket,
    ) -> Result<Option<Bucket>, NoMemory>
        requires { carrying.IsCounted self.old }
        ensures stays { IfOk result (λ left. option_to_list left ≡ defs.stays turn.now (bucket.now, self.old.next_file)) }
        ensures made { OnOk result (self.new ≡ carrying.carried turn.now bucket.now self.old) }
        ensures counted { OnOk result (carrying.IsCounted self.new) }
    {
        let file = self.next_file;
        if turn.freezes_by(bucket).is_some() {
            self.freeze(turn.archives(), bucket)?;
            Ok(None)
        } else if turn.cools(bucket) {
            self.copy_out(CopyTarget::Cold, bucket)?;
            Ok(Some(cooled(file, *bucket)))
        } else if turn.warms(bucket) {
            Ok(Some(rolled(*bucket)))
        } else {
            Ok(Some(*bucket))
        }
    }

    /// All buckets of an index have their turn.
    fn carry_out_all(
        &mut self,
        alloc: Global,
        turn: &Housekeeping,
        buckets: &[Bucket],
    ) -> Result<Remains, NoMemory>
        requires { carrying.IsCounted self.old }
        ensures buckets { IfOk result (λ left. left.buckets ≡ defs.turned turn.now self.old.next_file buckets.now) }
        ensures numbered { IfOk result (λ left. left.numbered.items ≡ defs.numbered turn.now self.old.next_file buckets.now) }
        ensures made { OnOk result (self.new ≡ carrying.all_carried turn.now buckets.now self.old) }
        ensures counted { OnOk result (carrying.IsCounted self.new) }
    {
        let mut stay = Sequence::new(alloc);
        let mut numbered = Vec::new(alloc);
        for i in 0..buckets.len() {
            numbered.push((buckets[i], self.next_file))?;
            let left = self.carry_out(turn, &buckets[i])?;
            add(&mut stay, left)?;
        }
        Ok(Remains {
            buckets: stay,
            numbered,
        })
    }

    /// Adds the entry of the bucket of this number, which freezes by the rule.
    fn add_entry(
        &mut self,
        turn: &Housekeeping,
        id: u64,
        rule: Rule,
        numbered: &[Numbered],
    ) -> Result<(), NoMemory>
        ensures { OnOk result (self.new ≡ carrying.with_entries (defs.entry_by turn.now rule (defs.numbered_id id numbered.now)) self.old) }
    {
        if let Some((bucket, file)) = numbered_id(numbered, id) {
            self.entries.push(turn.entry(file, rule, &bucket)?)?;
        }
        Ok(())
    }

    /// Adds the entries of the buckets that freeze.
    fn add_entries(&mut self, turn: &Housekeeping, numbered: &[Numbered]) -> Result<(), NoMemory>
        ensures { OnOk result (self.new ≡ carrying.with_entries (carrying.entries_of turn.now numbered.now turn.now.moves.frozen) self.old) }
    {
        let frozen = turn.frozen();
        for i in 0..frozen.len() {
            let (id, rule) = frozen[i];
            self.add_entry(turn, id, rule, numbered)?;
        }
        Ok(())
    }

    /// One index has its turn.
    fn turn_index(&mut self, alloc: Global, moment: i64, view: &IndexView) -> Result<(), NoMemory>
        requires { carrying.IsCounted self.old }
        ensures made { OnOk result (self.new ≡ defs.turn_index moment self.old view.now) }
        ensures counted { OnOk result (carrying.IsCounted self.new) }
    {
        let turn = Housekeeping::of(alloc, moment, view)?;
        let left = self.carry_out_all(alloc, &turn, view.buckets.as_slice())?;
        self.add_entries(&turn, &left.numbered)?;
        add_view(view, left.buckets, &mut self.indexes)
    }
}

/// What a turn of housekeeping at a moment, in microseconds since 1970-01-01T00:00:00Z, leaves of
/// all indexes. They have their turns one after the other, as `housekeep` says. Each bucket that
/// moves to cold, and each that freezes while its index keeps archives, takes the number of the
/// next file, in the order of the numbers of the buckets; it is copied into that file, and the file
/// that it had is done with. The file of a bucket that freezes without an archive is done with too.
/// Each bucket that freezes gets its entry, in the order in which housekeeping freezes them, and
/// leaves its index.
pub fn turn_all(
    alloc: Global,
    moment: i64,
    shelves: &IndexTable,
) -> Result<HousekeepingResult, NoMemory>
    requires { shelves.now.next_file < 2 ^ 63 }
    ensures { IfOk result (λ made. made ≡ defs.turn_all moment shelves.now) }
{
    let mut made = HousekeepingResult::untouched(alloc, shelves.next_file);
    let indexes = shelves.indexes.as_slice();
    for i in 0..indexes.len() {
        made.turn_index(alloc, moment, &indexes[i])?;
    }
    Ok(made)
}
