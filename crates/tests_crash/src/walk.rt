//! The whole state of a small life, item by item.

ghost use Rattle.std.specs.Prelude.{◌≡◌};
ghost use Rattle.tests_crash.specs.Walks.{state_of, left_of};

use ix_base::{NoMemory, Sequence};
use ix_items::Item;
use ix_manifest::Whole;
use std::alloc::Global;

/// How far the walk is. Each form has the group that was committed last.
#[derive(Drop)]
pub enum Walk {
    Settings(i64),
    Run(i64),
    Moments(i64),
    End,
}

impl Walk {
    /// A walk over the state behind a group, in the first run.
    pub fn new(group: i64) -> Walk
        ensures { left_of result ≡ state_of group }
    {
        Walk::Settings(group)
    }
}

impl Whole for Walk {
    ghost left = { left_of };

    fn next(&mut self, alloc: Global) -> Result<Option<Item>, NoMemory> {
        match *self {
            Walk::Settings(group) => {
                *self = Walk::Run(group);
                let kept = Sequence::new(alloc);
                Ok(Some(Item::Settings { kept }))
            }
            Walk::Run(group) => {
                *self = Walk::Moments(group);
                Ok(Some(Item::Run { run: 1 }))
            }
            Walk::Moments(last) => {
                *self = Walk::End;
                Ok(Some(Item::Moments { last, tick: 0 }))
            }
            Walk::End => Ok(None),
        }
    }
}
