//! The machine of accepted commands: what a store is after each history of commands, why a command
//! is refused, what a history leaves on a disk, and the laws of this. Definitions and laws alone;
//! the store that keeps the machine in memory and on a disk stands above.
#![tactic(auto)]

mod answers;
mod books;
mod commands;
mod laws;
mod on_disk;

pub use answers::{Accepted, Refusal};
pub use books::{books_lead, channels_are_said, says_lead, shelves_are_said, spots_are_said};
pub use commands::{Command, Config, Direct, DirectList, OrderList, TimedCommand};
pub use laws::{
    balance, buckets_are_followed, events_are_dealt, fields_are_sums, files_are_new,
    ledger_is_what_froze, lives_join, moments_never_fall, moves_are_whole, states_are_in_order,
};
pub use on_disk::{
    deals_are_filed, deals_are_shelved, done_is_done, earlier_have_none, prefixes_are_family,
    rolls_are_filed, rolls_are_shelved, thaws_are_copied, thaws_are_shelved, turns_are_copied,
    turns_are_shelved,
};
