//! The numbers of the files of items, as these come and go. A mount asks it behind each body, in
//! place of a sort of all.

ghost use Rattle.std.specs.Prelude.{◌≡◌, ◌∷◌, [], List, All, true, IfOk};
ghost use Rattle.std.specs.List.{sum_by};
ghost use Rattle.ix_base.specs.declared.files.File.{File};
ghost use Rattle.ix_items.specs.declared.items.Item.{Item};
ghost use Rattle.ix_replay.specs.Amounts.{uses};
ghost use Rattle.ix_replay.specs.Bounds.{AreApart, IsSpared};
ghost use Rattle.ix_replay.specs.Covering.{CoversFiles, Holds};

use crate::files::file_in;
use ix_base::{File, NoMemory};
use ix_items::Item;
use std::alloc::Global;
use std::collections::BTreeSet;

/// Numbers among which are those of the files of items, each of which has one of its own.
#[derive(Drop)]
pub struct FileNumbers {
    held: BTreeSet<u64>,
    /// A number above all of them.
    next: u64,
}

impl FileNumbers {
    /// Those of no items.
    pub fn none(alloc: Global) -> FileNumbers
        ensures { CoversFiles result [] }
    {
        FileNumbers {
            held: BTreeSet::new(alloc),
            next: 1,
        }
    }

    /// Holds a further number. Answers false where it is held already, or is that of no file.
    fn hold(&mut self, number: u64) -> Result<bool, NoMemory>
        ensures { IfOk result (λ done. done ≡ true → Holds number self.old self.new) }
    {
        if number == 0 {
            return Ok(false);
        }
        if number == u64::MAX {
            return Ok(false);
        }
        let added = self.held.insert(number)?;
        self.next = self.next.max(number + 1);
        Ok(added)
    }

    /// Takes the file of a further item in. Answers false where its number cannot be held.
    pub fn add(&mut self, item: &Item) -> Result<bool, NoMemory>
        ensures { IfOk result (λ done. done ≡ true → (items : List Item) → CoversFiles self.old items → CoversFiles self.new
            (item.now ∷ items)) }
    {
        match file_in(item) {
            Some(file) => self.hold(file.number),
            None => Ok(true),
        }
    }

    /// Lets the file of one of the items go.
    pub fn remove(&mut self, item: &Item)
        ensures { (items : List Item) → CoversFiles self.old (item.now ∷ items) → CoversFiles self.new items }
    {
        let Some(file) = file_in(item) else {
            return;
        };
        self.held.remove(&file.number);
    }

    /// Whether none of these files has a number that is held; then none is that of an item.
    pub fn spare(&self, removed: &[File]) -> bool
        ensures { result ≡ true → (items : List Item) → CoversFiles self.now items → All (IsSpared removed.now) items }
    {
        for file in removed {
            if self.held.contains(&file.number) {
                return false;
            }
        }
        true
    }

    /// Whether all are below a number; then the files of the items are, and differ.
    pub fn are_below(&self, next: u64) -> bool
        ensures { result ≡ true → (items : List Item) → CoversFiles self.now items → AreApart (λ n. sum_by (uses n) items) next }
    {
        self.next <= next
    }
}
