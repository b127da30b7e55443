//! What the commands since the last commit come to. The store keeps one.

ghost use Rattle.std.specs.Prelude.{◌≡◌, ◌++◌, ◌∷◌, ◌+◌, [], true, false, IfOk, OnOk, ◌||◌};
ghost use Rattle.ix_items.specs.Spelling.{HasSpelling};
ghost use Rattle.ix_items.specs.declared.items.Item.TheVariants as items;
ghost use Rattle.ix_store.specs.Counting.{capped};
ghost use Rattle.ix_store.specs.Filing.{AreNumbered};

use ix_base::{File, NoMemory, Sequence};
use ix_items::{FileList, Item};
use std::alloc::Global;

/// What the commands since the last commit come to.
#[derive(Drop)]
pub(crate) struct CommitGroup {
    /// The files that they are done with.
    pub(crate) done_with: FileList,
    /// How many bytes they brought; the count stands still at its end.
    pub(crate) weight: u64,
    /// Whether one of them is a Tick or a Configure.
    pub(crate) turned: bool,
    /// Whether there is one.
    pub(crate) waiting: bool,
}

/// Adds a file behind the others.
fn push_file(list: &mut FileList, file: File) -> Result<(), NoMemory>
    ensures ok { OnOk result (list.new ≡ list.old ++ file ∷ []) }
    ensures numbered { AreNumbered list.old → OnOk result (AreNumbered list.new) }
{
    list.push(file)?;
    Ok(())
}

/// Adds files behind the others.
fn append(list: &mut FileList, files: &[File]) -> Result<(), NoMemory>
    ensures ok { OnOk result (list.new ≡ list.old ++ files.now) }
    ensures numbered { AreNumbered list.old → OnOk result (AreNumbered list.new) }
{
    for file in files {
        push_file(list, *file)?;
    }
    Ok(())
}

impl CommitGroup {
    /// No command.
    pub(crate) fn none(alloc: Global) -> CommitGroup
        ensures done { result.done_with ≡ [] }
        ensures weight { result.weight ≡ 0 }
        ensures turned { result.turned ≡ false }
        ensures waiting { result.waiting ≡ false }
    {
        CommitGroup {
            done_with: Sequence::new(alloc),
            weight: 0,
            turned: false,
            waiting: false,
        }
    }

    /// The item that names the files for removal. Where there are 2^32 of them or more, there is no
    /// room for it.
    pub(crate) fn removals(&self, alloc: Global) -> Result<Item, NoMemory>
        ensures item { IfOk result (λ item. item ≡ items.Removals self.now.done_with) }
        ensures proper { IfOk result (λ item. HasSpelling item) }
    {
        let mut files = Sequence::new(alloc);
        append(&mut files, self.done_with.as_slice())?;
        if files.len() >= 1 << 32 {
            return Err(NoMemory);
        }
        Ok(Item::Removals { files })
    }

    /// With a further command.
    pub(crate) fn with(
        &self,
        alloc: Global,
        files: &[File],
        weight: u64,
        turned: bool,
    ) -> Result<CommitGroup, NoMemory>
        ensures done { IfOk result (λ group. group.done_with ≡ self.now.done_with ++ files.now) }
        ensures weight { IfOk result (λ group. group.weight ≡ capped (self.now.weight + weight)) }
        ensures turned { IfOk result (λ group. group.turned ≡ (self.now.turned || turned)) }
        ensures waiting { IfOk result (λ group. group.waiting ≡ true) }
    {
        let mut done_with = Sequence::new(alloc);
        append(&mut done_with, self.done_with.as_slice())?;
        append(&mut done_with, files)?;
        Ok(CommitGroup {
            done_with,
            weight: self.weight.saturating_add(weight),
            turned: self.turned || turned,
            waiting: true,
        })
    }

    /// With a further command, and the item that names the files for removal then.
    pub(crate) fn with_removals(
        &self,
        alloc: Global,
        files: &[File],
        weight: u64,
        turned: bool,
    ) -> Result<(CommitGroup, Item), NoMemory>
        ensures done { IfOk result (λ both. both.0.done_with ≡ self.now.done_with ++ files.now) }
        ensures weight { IfOk result (λ both. both.0.weight ≡ capped (self.now.weight + weight)) }
        ensures turned { IfOk result (λ both. both.0.turned ≡ (self.now.turned || turned)) }
        ensures waiting { IfOk result (λ both. both.0.waiting ≡ true) }
        ensures item { IfOk result (λ both. both.1 ≡ items.Removals (self.now.done_with ++ files.now)) }
        ensures proper { IfOk result (λ both. HasSpelling both.1) }
    {
        let group = self.with(alloc, files, weight, turned)?;
        let last = group.removals(alloc)?;
        Ok((group, last))
    }
}
