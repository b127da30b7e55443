//! The whole state of a store, item by item: a checkpoint writes it, and whoever keeps the state
//! tells the items.

ghost use Rattle.std.specs.Prelude.{List, IfOk};
ghost use Rattle.ix_items.specs.declared.items.Item.{Item};
ghost use Rattle.ix_manifest.specs.Whole.{HasTold};

use ix_base::NoMemory;
use ix_items::Item;
use std::alloc::Global;

/// A walk over the items of a state. One item at a time is in memory.
pub trait Whole {
    /// The items that are still to come.
    ghost left: { Self → List Item };

    /// The next item, none behind the last one. After a fault the walk is not used again.
    fn next(&mut self, alloc: Global) -> Result<Option<Item>, NoMemory>
        ensures { IfOk result (λ item. HasTold item (left self.old) (left self.new)) };
}
