//! The items of a state in memory, one by one, as a checkpoint asks for them.

ghost use Rattle.std.specs.Prelude.{true};

use crate::state_machine::StateMachine;
use ix_base::NoMemory;
use ix_items::Item;
use ix_recovery::items_of;
use ix_replay::ItemWalk;
use ix_store::{ListFault, Listing};
use std::alloc::Global;

impl Listing for StateMachine {
    ghost use Rattle.ix_replay.specs.Walk.{ahead};
    ghost use Rattle.ix_recovery.proofs.Shortened.{fits_with_log};

    type Walk = ItemWalk;

    ghost ahead = { λ machine walk. ahead walk };

    ghost is_sound = { λ machine walk. true };

    ghost fits_with_log = { fits_with_log };

    fn walk(&self, alloc: Global) -> Result<ItemWalk, ListFault> {
        match items_of(alloc, &self.held, self.fresh) {
            Ok(items) => Ok(ItemWalk::over(items)),
            Err(fault) => Err(fault),
        }
    }

    fn next(&self, _alloc: Global, walk: &mut ItemWalk) -> Result<Option<Item>, NoMemory> {
        Ok(walk.take_next())
    }
}
