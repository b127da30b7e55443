//! What a command leaves, put together: the items of what changed, and the storage. Each command
//! calls it at its end.

ghost use Rattle.std.specs.Prelude.{◌≡◌, ◌↔◌, ◌++◌, [], IfOk, IsErrOf, IsTrue};
ghost use Rattle.std.specs.List.{AllByRecursion};
ghost use Rattle.ix_items.specs.Spelling.{HasSpelling};
ghost use Rattle.ix_effects.specs.Working as defs;
ghost use Rattle.ix_effects.specs.Working.{CanBeSaid};
ghost use Rattle.ix_catalog.specs.Changes.{changes};

use crate::catalog_effect::{Base, CatalogEffect, MoveFault};
use crate::guards::{are_short, are_writable, stand_by_name};
use ix_base::{NoMemory, Sequence};
use ix_catalog::{IndexTable, ascending_differ, put_changes};
use ix_commit::{Append, FileCopy};
use ix_items::{Entry, Item};
use ix_life::EntryList;
use ix_state::CatalogState;
use std::alloc::Global;

/// A copy of entries.
fn copy_of(alloc: Global, entries: &[Entry]) -> Result<EntryList, NoMemory>
    ensures { IfOk result (λ copies. copies ≡ entries.now) }
{
    let mut copies = Sequence::new(alloc);
    for entry in entries {
        copies.push(entry.copy()?)?;
    }
    Ok(copies)
}

/// Whether what changed from the old shelves to the new ones can be written, with new entries of
/// the ledger.
fn can_be_said(more: &[Entry], old: &IndexTable, new: &IndexTable) -> bool
    ensures { IsTrue result ↔ CanBeSaid more.now old.now new.now }
{
    stand_by_name(old.indexes.as_slice()) && are_short(new.indexes.as_slice()) && are_writable(more)
}

impl Base<'_> {
    /// The ledger that holds, with the entries that the commands before have left.
    pub fn here(&self) -> &[Entry]
        ensures { result.now ≡ defs.here self.now }
    {
        match &self.storage.ledger {
            Some(ledger) => ledger.as_slice(),
            None => self.ledger,
        }
    }

    /// The ledger that holds, with more entries behind it.
    pub fn longer_ledger(&self, more: &[Entry]) -> Result<EntryList, NoMemory>
        ensures { IfOk result (λ ledger. ledger ≡ defs.here self.now ++ more.now) }
    {
        let mut ledger = copy_of(self.alloc, self.here())?;
        for entry in more {
            ledger.push(entry.copy()?)?;
        }
        Ok(ledger)
    }

    /// A copy of the ledger where the commands before have left one.
    pub fn same_ledger(&self) -> Result<Option<EntryList>, NoMemory>
        ensures { IfOk result (λ ledger. ledger ≡ self.now.storage.now.ledger) }
    {
        match &self.storage.ledger {
            Some(ledger) => Ok(Some(copy_of(self.alloc, ledger.as_slice())?)),
            None => Ok(None),
        }
    }

    /// The items of what changed. The ledger is the new one, and `more` are its new entries.
    pub fn items(
        &self,
        ledger: &[Entry],
        more: &[Entry],
        new: &IndexTable,
    ) -> Result<Sequence<Item>, MoveFault>
        ensures done { IfOk result (λ items. items ≡ changes ledger.now more.now (defs.shelves_in self.now) new.now) }
        ensures proper { IfOk result (AllByRecursion HasSpelling) }
        ensures full { IsErrOf result MoveFault.Full → CanBeSaid more.now (defs.shelves_in self.now) new.now → ⊥ }
    {
        let old = &self.storage.shelves;
        if !can_be_said(more, old, new) {
            return Err(MoveFault::Full);
        }
        ascending_differ();
        let mut items = Sequence::new(self.alloc);
        put_changes(ledger, more, old, new, &mut items)?;
        Ok(items)
    }

    /// What is left where nothing freezes: these shelves, with what is added to files.
    pub fn leave(
        &self,
        shelves: IndexTable,
        pieces: Sequence<Append>,
        copies: Sequence<FileCopy>,
        moved: u64,
    ) -> Result<CatalogEffect, MoveFault>
        ensures done { IfOk result (λ left. left ≡ defs.left self.now shelves pieces copies moved) }
        ensures proper { IfOk result (λ left. AllByRecursion HasSpelling left.items) }
        ensures full { IsErrOf result MoveFault.Full → CanBeSaid [] (defs.shelves_in self.now) shelves → ⊥ }
    {
        let items = self.items(self.here(), &[], &shelves)?;
        let ledger = self.same_ledger()?;
        Ok(CatalogEffect {
            storage: CatalogState {
                shelves,
                ledger,
                last: self.moment,
                tick: self.storage.tick,
            },
            pieces,
            copies,
            items,
            done_with: Sequence::new(self.alloc),
            moved,
        })
    }
}
