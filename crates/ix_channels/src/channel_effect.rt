//! What a command makes of the open channels, and why it is not said.

ghost use Rattle.std.specs.Prelude.{◌≡◌, [], IsErrOf};
ghost use Rattle.ix_channels.specs.declared.change.ChannelChange.TheVariants as changes;
ghost use Rattle.ix_channels.specs.declared.channel_effect.WorkFault.TheVariants as faults;

use crate::change::ChannelChange;
use ix_base::{NoMemory as OutOfMemory, RoutedList, Sequence};
use ix_items::Item;
use std::alloc::Global;
use thiserror::Error;

/// What a command makes of the open channels.
#[derive(Drop)]
pub struct ChannelEffect {
    /// How they change.
    pub change: ChannelChange,
    /// What the events come to that it settles, in order.
    pub outcomes: RoutedList,
    /// What the log says of the change.
    pub items: Sequence<Item>,
}

/// Why it is not said what a command makes of the open channels.
#[derive(Clone, Copy, Debug, PartialEq, Eq, Error)]
pub enum WorkFault {
    /// It would pass the bounds of what a store can keep.
    #[error("the store has no room for it")]
    Full,
    /// There is no room in memory.
    #[error("there was no room in memory")]
    NoMemory,
}

impl From<OutOfMemory> for WorkFault {
    ghost from_gives = { λ _ e. e ≡ faults.NoMemory };

    fn from(_: OutOfMemory) -> WorkFault {
        WorkFault::NoMemory
    }
}

/// What makes nothing of them.
pub(crate) fn nothing(alloc: Global) -> ChannelEffect
    ensures change { result.change ≡ changes.Same }
    ensures outcomes { result.outcomes ≡ [] }
    ensures items { result.items ≡ [] }
{
    ChannelEffect {
        change: ChannelChange::Same,
        outcomes: RoutedList::new(alloc),
        items: Sequence::new(alloc),
    }
}
