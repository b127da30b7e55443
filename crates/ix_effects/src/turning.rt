//! Turns of housekeeping. The store's memory calls `turn` for a Tick.

ghost use Rattle.std.specs.Prelude.{◌≡◌, ◌<◌, ◌^◌, ◌++◌, Some, IfOk, IsErrOf};
ghost use Rattle.std.specs.List.{AllByRecursion};
ghost use Rattle.ix_items.specs.Spelling.{HasSpelling};
ghost use Rattle.ix_effects.specs.Moving.{Moves, IsOver, turns};
ghost use Rattle.ix_effects.specs.Working as defs;
ghost use Rattle.ix_effects.specs.Working.{CanBeSaid};
ghost use Rattle.ix_catalog.specs.Changes.{changes};
ghost use Rattle.ix_catalog.specs.Shelves as shelves;

use crate::catalog_effect::{Base, CatalogEffect, MoveFault};
use crate::guards::LIMIT;
use ix_base::Sequence;
use ix_catalog::{HousekeepingResult, IndexTable, turn_all};
use ix_items::{Entry, Item};
use ix_life::{EntryList, IndexViewList};
use ix_state::{CatalogState, ranked};

/// A ledger with new entries, where there are any, and the items of what changed with it.
#[derive(Drop)]
struct Said {
    ledger: Option<EntryList>,
    items: Sequence<Item>,
}

impl Base<'_> {
    /// The shelves with other indexes.
    fn with_indexes(&self, indexes: IndexViewList, next_file: u64) -> IndexTable
        ensures { result ≡ shelves.with_indexes indexes next_file (defs.shelves_in self.now) }
    {
        let old = &self.storage.shelves;
        IndexTable {
            indexes,
            settled: old.settled,
            nulled: old.nulled,
            dropped: old.dropped,
            placed: old.placed,
            next_file,
        }
    }

    /// The ledger with new entries, in the order in which it is seen, and the items of what
    /// changed.
    fn say(&self, more: &[Entry], new: &IndexTable) -> Result<Said, MoveFault>
        ensures ledger { IfOk result (λ said. said.ledger ≡ defs.ledger_behind self.now more.now) }
        ensures done { IfOk result (λ said. said.items ≡ changes (defs.here self.now
            ++ more.now) more.now (defs.shelves_in self.now) new.now) }
        ensures proper { IfOk result (λ said. AllByRecursion HasSpelling said.items) }
        ensures full { IsErrOf result MoveFault.Full → CanBeSaid more.now (defs.shelves_in self.now) new.now → ⊥ }
    {
        if more.is_empty() {
            let items = self.items(self.here(), more, new)?;
            let ledger = self.same_ledger()?;
            return Ok(Said { ledger, items });
        }
        let ledger = self.longer_ledger(more)?;
        let items = self.items(ledger.as_slice(), more, new)?;
        Ok(Said {
            ledger: Some(ranked(ledger)?),
            items,
        })
    }

    /// What a turn leaves, put together.
    fn turned(&self, made: HousekeepingResult) -> Result<CatalogEffect, MoveFault>
        ensures done { IfOk result (λ moved. moved ≡ defs.turned self.now made) }
        ensures proper { IfOk result (λ moved. AllByRecursion HasSpelling moved.items) }
        ensures full { IsErrOf result MoveFault.Full → CanBeSaid made.entries (defs.shelves_in self.now)
            (defs.turned_shelves self.now made) → ⊥ }
    {
        let shelves = self.with_indexes(made.indexes, made.next_file);
        let said = self.say(made.entries.as_slice(), &shelves)?;
        Ok(CatalogEffect {
            storage: CatalogState {
                shelves,
                ledger: said.ledger,
                last: self.moment,
                tick: self.moment,
            },
            pieces: Sequence::new(self.alloc),
            copies: made.copies,
            items: said.items,
            done_with: made.files,
            moved: made.entries.len() as u64,
        })
    }

    /// A turn in all indexes, as it is put together.
    fn turn_out(&self) -> Result<CatalogEffect, MoveFault>
        ensures done { IfOk result (λ moved. moved ≡ defs.turned self.now (defs.made self.now)) }
        ensures proper { IfOk result (λ moved. AllByRecursion HasSpelling moved.items) }
        ensures full { IsErrOf result MoveFault.Full → (defs.shelves_in self.now).next_file < 2 ^ 63 →
            CanBeSaid (defs.made self.now).entries (defs.shelves_in self.now) (defs.turned_shelves self.now (defs.made self.now)) → ⊥ }
    {
        let old = &self.storage.shelves;
        if old.next_file >= LIMIT {
            return Err(MoveFault::Full);
        }
        let made = turn_all(self.alloc, self.moment, old)?;
        self.turned(made)
    }

    /// A turn of housekeeping in all indexes: buckets move to cold, and others freeze, with their
    /// entries in the ledger. It is `Full` only where the store would not keep its bounds.
    pub fn turn(&self) -> Result<CatalogEffect, MoveFault>
        ensures done { IfOk result (λ moved. Moves turns self.now moved) }
        ensures proper { IfOk result (λ moved. AllByRecursion HasSpelling moved.items) }
        ensures full { IsErrOf result MoveFault.Full → IsOver turns self.now }
    {
        self.turn_out()
    }
}
