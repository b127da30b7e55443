//! A walk over a list of items. A state in memory that tells its items as a list begins one for a
//! checkpoint.

ghost use Rattle.std.specs.Prelude.{◌≡◌, true, length};
ghost use Rattle.std.specs.List.{AllByRecursion, list_all};
ghost use Rattle.std.specs.Vec.Iter.{into_iter_items, into_iter_len};
ghost use Rattle.ix_items.specs.Spelling.{HasSpelling};
ghost use Rattle.ix_manifest.specs.Whole.{HasTold};
ghost use Rattle.ix_replay.specs.Writable.{can_write};

use ix_base::{NoMemory, Sequence};
use ix_items::Item;
use ix_manifest::Whole;
use std::alloc::Global;
use std::vec::IntoIter;

/// The items of a list that are still to be told. Each of them can be written.
#[derive(Drop)]
pub struct ItemWalk {
    items: IntoIter<Item>,
    ghost writable: { list_all can_write (into_iter_items items) ≡ true },
    ghost counted: { into_iter_len items ≡ length (into_iter_items items) },
}

impl ItemWalk {
    ghost use Rattle.ix_replay.specs.Walk.{ahead};

    /// A walk over these items, from the first one on. It takes no memory.
    pub fn over(items: Sequence<Item>) -> ItemWalk
        requires { AllByRecursion HasSpelling items }
        ensures { ahead result ≡ items }
    {
        ItemWalk {
            items: items.into_vec().into_iter(),
        }
    }

    /// The next item, none behind the last one. It takes no memory.
    pub fn take_next(&mut self) -> Option<Item>
        ensures { HasTold result (ahead self.old) (ahead self.new) }
    {
        self.items.next()
    }
}

impl Whole for ItemWalk {
    ghost use Rattle.ix_replay.specs.Walk.{ahead};

    ghost left = { ahead };

    fn next(&mut self, _alloc: Global) -> Result<Option<Item>, NoMemory> {
        Ok(self.take_next())
    }
}
