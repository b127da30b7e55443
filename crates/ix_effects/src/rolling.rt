//! Rolls. The store's memory calls `roll` for the command of that name.

ghost use Rattle.std.specs.Prelude.{◌≡◌, [], IfOk, IsErrOf};
ghost use Rattle.std.specs.List.{AllByRecursion};
ghost use Rattle.ix_items.specs.Spelling.{HasSpelling};
ghost use Rattle.ix_effects.specs.Moving.{Moves, IsOver, rolls};
ghost use Rattle.ix_effects.specs.Working as defs;
ghost use Rattle.ix_effects.specs.Working.{CanBeSaid};
ghost use Rattle.ix_catalog.specs.Turning as turning;

use crate::catalog_effect::{Base, CatalogEffect, MoveFault};
use ix_base::Sequence;
use ix_catalog::roll;

impl Base<'_> {
    /// A roll, as it is put together.
    fn roll_out(&self, index: &[u8]) -> Result<CatalogEffect, MoveFault>
        ensures done { IfOk result (λ moved. moved ≡ defs.rolled self.now index.now) }
        ensures proper { IfOk result (λ moved. AllByRecursion HasSpelling moved.items) }
        ensures full { IsErrOf result MoveFault.Full →
            CanBeSaid [] (defs.shelves_in self.now) (turning.roll index.now (defs.shelves_in self.now)) → ⊥ }
    {
        let mut shelves = self.storage.shelves.copy(self.alloc)?;
        let moved = roll(index, &mut shelves);
        self.leave(
            shelves,
            Sequence::new(self.alloc),
            Sequence::new(self.alloc),
            moved,
        )
    }

    /// Rolls the buckets of an index that take events. It is `Full` only where the store would not
    /// keep its bounds.
    pub fn roll(&self, index: &[u8]) -> Result<CatalogEffect, MoveFault>
        ensures done { IfOk result (λ moved. Moves (rolls index.now) self.now moved) }
        ensures proper { IfOk result (λ moved. AllByRecursion HasSpelling moved.items) }
        ensures full { IsErrOf result MoveFault.Full → IsOver (rolls index.now) self.now }
    {
        self.roll_out(index)
    }
}
