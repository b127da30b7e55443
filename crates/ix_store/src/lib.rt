//! A store: the state in memory and what keeps it on a disk, joined. It accepts commands, commits
//! them, and is mounted again behind a stop. The state in memory is given by a trait.
#![tactic(auto)]

mod durable;
mod exporting;
mod fault;
mod faulty_item;
mod finding;
mod group;
mod laws;
mod memory;
mod numbers;
mod shortening;
mod showing;
mod store;

pub use fault::{ExportFault, MountFault};
pub use faulty_item::FaultyItem;
pub use laws::{
    accepted_is_held, fewer_stand, given_are_taken, prefixes_stand, what_is_held_stands,
};
pub use memory::{BookFault, Made, StoreMemory};
pub use shortening::{ListFault, Listing};
pub use store::Store;
