//! What is known of all items without going over them. The replayed state keeps one, so that it
//! judges a body by what that has changed.

ghost use Rattle.std.specs.Prelude.{◌≡◌, ◌∷◌, [], List, true, IfOk};
ghost use Rattle.ix_items.specs.declared.items.Item.{Item};
ghost use Rattle.ix_manifest.specs.Book.{empty, replay, removals_in};
ghost use Rattle.ix_replay.specs.Amounts.{next_in};
ghost use Rattle.ix_replay.specs.Bounds.{KeepsBounds};
ghost use Rattle.ix_replay.specs.Covering.{Covers};

use crate::file_numbers::FileNumbers;
use crate::ranges::is_within;
use crate::totals::Totals;
use ix_base::{File, NoMemory};
use ix_items::Item;
use std::alloc::Global;

/// Bounds, from above, of what items count for. Each of the items is in its range.
#[derive(Drop)]
pub struct Tally {
    totals: Totals,
    files: FileNumbers,
}

impl Tally {
    /// That of no items. It takes no memory.
    pub fn none(alloc: Global) -> Tally
        ensures { Covers result [] }
    {
        Tally {
            totals: Totals::none(),
            files: FileNumbers::none(alloc),
        }
    }

    /// Takes a further item in. Answers false where it is out of range, has the file of another, or
    /// a sum has no room; the tally is of no use then.
    pub fn add(&mut self, item: &Item) -> Result<bool, NoMemory>
        ensures { IfOk result (λ done. done ≡ true → (items : List Item) → Covers self.old items → Covers self.new (item.now ∷ items)) }
    {
        if !is_within(item) {
            return Ok(false);
        }
        let totals = self.totals.plus(item);
        if !totals.have_room() {
            return Ok(false);
        }
        self.totals = totals;
        self.files.add(item)
    }

    /// Lets one of the items go.
    pub fn remove(&mut self, item: &Item)
        ensures { (items : List Item) → Covers self.old (item.now ∷ items) → Covers self.new items }
    {
        self.totals = self.totals.minus(item);
        self.files.remove(item);
    }

    /// Whether the items keep the bounds by what is known of them, with these removals and this
    /// next file. Where it answers false they may still do.
    pub fn keeps(&self, removed: &[File], next: u64) -> bool
        ensures { result ≡ true → (items : List Item) → Covers self.now items → removals_in (replay items empty) ≡ removed.now →
            next_in (replay items empty) ≡ next → KeepsBounds items }
    {
        if !self.totals.are_within() {
            return false;
        }
        if !self.files.are_below(next) {
            return false;
        }
        self.files.spare(removed)
    }
}
