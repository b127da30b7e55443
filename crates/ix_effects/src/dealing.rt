//! Events that a command settles are dealt. The store's memory calls `deal` for a Begin, a Block,
//! an End and for events that come already cut.

ghost use Rattle.std.specs.Prelude.{◌≡◌, [], All, IfOk, IsErrOf};
ghost use Rattle.std.specs.List.{AllByRecursion};
ghost use Rattle.ix_items.specs.Spelling.{HasSpelling};
ghost use Rattle.ix_effects.specs.Moving.{Moves, IsOver, deals};
ghost use Rattle.ix_effects.specs.Working as defs;
ghost use Rattle.ix_effects.specs.Working.{CanBeSaid};
ghost use Rattle.ix_catalog.specs.Numbers.{HasRecord, KeepsNumbers, IsBalanced};

use crate::catalog_effect::{Base, CatalogEffect, MoveFault};
use crate::guards::{is_balanced, keeps_numbers};
use ix_base::{RoutedList, Sequence};
use ix_catalog::{Placer, Work};

impl Base<'_> {
    /// The outcomes are dealt on a copy of the shelves.
    pub fn work(&self, outcomes: RoutedList) -> Result<Work, MoveFault>
        requires { All (HasRecord self.now.set.now) outcomes }
        ensures done { IfOk result (λ work. work ≡ defs.worked self.now outcomes) }
        ensures full { IsErrOf result MoveFault.Full → KeepsNumbers (defs.shelves_in self.now) → IsBalanced (defs.shelves_in self.now) →
            KeepsNumbers (defs.worked self.now outcomes).shelves → ⊥ }
    {
        let old = &self.storage.shelves;
        if !keeps_numbers(old) || !is_balanced(old) {
            return Err(MoveFault::Full);
        }
        let mut work = Work {
            shelves: old.copy(self.alloc)?,
            pieces: Sequence::new(self.alloc),
        };
        let dealing = Placer {
            alloc: self.alloc,
            set: self.set,
            ledger: self.here(),
            moment: self.moment,
        };
        dealing.deal_all(outcomes, &mut work)?;
        Ok(work)
    }

    /// Deals outcomes, as they are put together.
    fn deal_out(&self, outcomes: RoutedList) -> Result<CatalogEffect, MoveFault>
        requires { All (HasRecord self.now.set.now) outcomes }
        ensures done { IfOk result (λ moved. moved ≡ defs.dealt self.now outcomes) }
        ensures proper { IfOk result (λ moved. AllByRecursion HasSpelling moved.items) }
        ensures full { IsErrOf result MoveFault.Full → KeepsNumbers (defs.shelves_in self.now) → IsBalanced (defs.shelves_in self.now) →
            KeepsNumbers (defs.worked self.now outcomes).shelves →
            CanBeSaid [] (defs.shelves_in self.now) (defs.worked self.now outcomes).shelves → ⊥ }
    {
        let work = self.work(outcomes)?;
        self.leave(work.shelves, work.pieces, Sequence::new(self.alloc), 0)
    }

    /// Deals what a command settles, which neither moves buckets nor changes settings. It is `Full`
    /// only where the store would not keep its bounds.
    pub fn deal(&self, outcomes: RoutedList) -> Result<CatalogEffect, MoveFault>
        // Each record has fewer than 2^32 bytes.
        requires { All (HasRecord self.now.set.now) outcomes }
        ensures done { IfOk result (λ moved. Moves (deals self.now outcomes) self.now moved) }
        ensures proper { IfOk result (λ moved. AllByRecursion HasSpelling moved.items) }
        ensures full { IsErrOf result MoveFault.Full → IsOver (deals self.now outcomes) self.now }
    {
        self.deal_out(outcomes)
    }
}
