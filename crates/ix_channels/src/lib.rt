//! What a command makes of the open channels of a store in memory: how they change, the outcomes
//! that this settles, and the items that say it. The store takes the change once the command
//! stands.
#![tactic(auto)]

mod beginning;
mod change;
mod channel_effect;
mod checks;
mod ending;
mod endings;
mod feeding;
mod items;
mod places;
mod putting;
mod reserved_insert;

pub use beginning::begin;
pub use change::ChannelChange;
pub use channel_effect::{ChannelEffect, WorkFault};
pub use ending::end;
pub use endings::end_all;
pub use feeding::block;
pub use putting::direct;
pub use reserved_insert::ReservedInsert;
