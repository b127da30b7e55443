//! Settings change: what comes of the open channels is dealt, and the indexes that are seen are
//! made anew. The store's memory calls `configure` for the command of that name.

ghost use Rattle.std.specs.Prelude.{◌≡◌, List, [], All, IfOk, IsErrOf};
ghost use Rattle.std.specs.List.{AllByRecursion};
ghost use Rattle.ix_items.specs.Spelling.{HasSpelling};
ghost use Rattle.ix_life.specs.declared.views.IndexView as views;
ghost use Rattle.ix_effects.specs.Moving.{Moves, IsOver, Configures};
ghost use Rattle.ix_effects.specs.Working as defs;
ghost use Rattle.ix_effects.specs.Working.{CanBeSaid, Reshelves};
ghost use Rattle.ix_catalog.specs.Numbers.{HasRecord, KeepsNumbers, IsBalanced};

use crate::catalog_effect::{Base, CatalogEffect, MoveFault};
use ix_base::{NoMemory, RoutedList, Sequence};
use ix_bounds::view_indexes_anew;
use ix_catalog::IndexTable;
use ix_life::{IndexViewList, LimitSet};

impl Base<'_> {
    /// The indexes that are seen once other settings hold.
    fn reshelved(&self, next: &LimitSet, old: &IndexTable) -> Result<IndexViewList, NoMemory>
        ensures { IfOk result (λ indexes. (new : List views.IndexView) → Reshelves (defs.here self.now) next.now old.now.indexes new →
            indexes ≡ new) }
    {
        view_indexes_anew(self.alloc, next, old, self.here())
    }

    /// A change of settings, as it is put together.
    fn configure_out(
        &self,
        outcomes: RoutedList,
        next: &LimitSet,
    ) -> Result<CatalogEffect, MoveFault>
        requires { All (HasRecord self.now.set.now) outcomes }
        ensures done { IfOk result (λ moved. (new : List views.IndexView) →
            Reshelves (defs.here self.now) next.now (defs.worked self.now outcomes).shelves.indexes new →
            moved ≡ defs.configured self.now outcomes new) }
        ensures proper { IfOk result (λ moved. AllByRecursion HasSpelling moved.items) }
        ensures full { IsErrOf result MoveFault.Full → (new : List views.IndexView) →
            Reshelves (defs.here self.now) next.now (defs.worked self.now outcomes).shelves.indexes new →
            KeepsNumbers (defs.shelves_in self.now) → IsBalanced (defs.shelves_in self.now) →
            KeepsNumbers (defs.worked self.now outcomes).shelves →
            CanBeSaid [] (defs.shelves_in self.now) (defs.configured_shelves self.now outcomes new) → ⊥ }
    {
        let work = self.work(outcomes)?;
        let indexes = self.reshelved(next, &work.shelves)?;
        let shelves = IndexTable {
            indexes,
            settled: work.shelves.settled,
            nulled: work.shelves.nulled,
            dropped: work.shelves.dropped,
            placed: work.shelves.placed,
            next_file: work.shelves.next_file,
        };
        self.leave(shelves, work.pieces, Sequence::new(self.alloc), 0)
    }

    /// Deals what comes of the open channels as they end, under the old settings, and makes the
    /// indexes anew by the limits of the new ones. It is `Full` only where the store would not keep
    /// its bounds.
    pub fn configure(
        &self,
        outcomes: RoutedList,
        next: &LimitSet,
    ) -> Result<CatalogEffect, MoveFault>
        // Each record has fewer than 2^32 bytes.
        requires { All (HasRecord self.now.set.now) outcomes }
        ensures done { IfOk result (λ moved. Moves (Configures self.now outcomes next.now) self.now moved) }
        ensures proper { IfOk result (λ moved. AllByRecursion HasSpelling moved.items) }
        ensures full { IsErrOf result MoveFault.Full → IsOver (Configures self.now outcomes next.now) self.now }
    {
        self.configure_out(outcomes, next)
    }
}
