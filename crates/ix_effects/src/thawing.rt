//! Thaws. The store's memory calls `thaw` for the command of that name.

ghost use Rattle.std.specs.Prelude.{◌≡◌, ◌<◌, ◌^◌, ℕ, [], Some, IfOk, IsErrOf};
ghost use Rattle.std.specs.List.{AllByRecursion};
ghost use Rattle.std.specs.Option.{option_copied};
ghost use Rattle.ix_items.specs.Spelling.{HasSpelling};
ghost use Rattle.ix_items.specs.declared.items.Entry as items;
ghost use Rattle.ix_model.specs.Ledger.{is_of};
ghost use Rattle.ix_effects.specs.Moving.{Moves, IsOver, thaws};
ghost use Rattle.ix_effects.specs.Working as defs;
ghost use Rattle.ix_effects.specs.Working.{CanBeSaid};
ghost use Rattle.ix_catalog.specs.Turning as turning;

use crate::catalog_effect::{Base, CatalogEffect, MoveFault};
use crate::guards::LIMIT;
use ix_base::Sequence;
use ix_catalog::{thaw, thaw_copy};
use ix_items::Entry;

/// Whether an entry is that of the bucket of this number in this index.
fn is_of(entry: &Entry, index: &[u8], id: u64) -> bool
    ensures { result ≡ is_of index.now id entry.now }
{
    entry.index.as_slice() == index && entry.id == id
}

/// The entry of a bucket in the ledger.
fn find_entry<'a>(ledger: &'a [Entry], index: &[u8], id: u64) -> Option<&'a Entry>
    ensures { option_copied result ≡ defs.entry_of index.now id ledger.now }
{
    for entry in ledger {
        if is_of(entry, index, id) {
            return Some(entry);
        }
    }
    None
}

impl Base<'_> {
    /// The bucket of an entry is brought back from this archive, as it is put together.
    fn bring_back(&self, entry: &Entry, archive: u64) -> Result<CatalogEffect, MoveFault>
        ensures done { IfOk result (λ moved. moved ≡ defs.thawed self.now entry.now archive) }
        ensures proper { IfOk result (λ moved. AllByRecursion HasSpelling moved.items) }
        ensures full { IsErrOf result MoveFault.Full → (defs.shelves_in self.now).next_file < 2 ^ 63 →
            CanBeSaid [] (defs.shelves_in self.now) (turning.thaw entry.now (defs.shelves_in self.now)) → ⊥ }
    {
        let old = &self.storage.shelves;
        if old.next_file >= LIMIT {
            return Err(MoveFault::Full);
        }
        let mut copies = Sequence::new(self.alloc);
        copies.push(thaw_copy(entry, archive, old.next_file))?;
        let mut shelves = old.copy(self.alloc)?;
        thaw(entry, &mut shelves)?;
        self.leave(shelves, Sequence::new(self.alloc), copies, 1)
    }

    /// A thaw, as it is put together. Without an entry or an archive it is `Full`, which does not
    /// happen in a state whose Thaw is accepted.
    fn thaw_out(&self, index: &[u8], id: u64) -> Result<CatalogEffect, MoveFault>
        ensures done { IfOk result (λ moved. (e : items.Entry) (archive : ℕ) → defs.entry_of index.now id (defs.here self.now) ≡ Some e →
            e.archive ≡ Some archive →
            moved ≡ defs.thawed self.now e archive) }
        ensures proper { IfOk result (λ moved. AllByRecursion HasSpelling moved.items) }
        ensures full { IsErrOf result MoveFault.Full → (e : items.Entry) (archive : ℕ) →
            defs.entry_of index.now id (defs.here self.now) ≡ Some e → e.archive ≡ Some archive →
            (defs.shelves_in self.now).next_file < 2 ^ 63 →
            CanBeSaid [] (defs.shelves_in self.now) (turning.thaw e (defs.shelves_in self.now)) → ⊥ }
    {
        let Some(entry) = find_entry(self.here(), index, id) else {
            return Err(MoveFault::Full);
        };
        match entry.archive {
            Some(archive) => self.bring_back(entry, archive),
            None => Err(MoveFault::Full),
        }
    }

    /// Brings a frozen bucket back from its archive. It is `Full` only where the store would not
    /// keep its bounds.
    pub fn thaw(&self, index: &[u8], id: u64) -> Result<CatalogEffect, MoveFault>
        ensures done { IfOk result (λ moved. Moves (thaws index.now id) self.now moved) }
        ensures proper { IfOk result (λ moved. AllByRecursion HasSpelling moved.items) }
        ensures full { IsErrOf result MoveFault.Full → IsOver (thaws index.now id) self.now }
    {
        self.thaw_out(index, id)
    }
}
