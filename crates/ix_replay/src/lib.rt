//! The items of a log in memory, as a mount reads them, and the bounds of what a store can keep.
//! And a list of items as a checkpoint is told it, one after the other: what keeps the state in
//! memory makes the list.
#![tactic(auto)]

mod amounts;
mod file_numbers;
mod files;
mod item_list;
mod judging;
mod laws;
mod listing;
#[cfg(test)]
mod many;
mod ranges;
mod removed;
mod room;
mod sizes;
mod standing;
mod tally;
mod totals;
mod walk;

pub use item_list::ItemList;
pub use laws::all_keep_bounds;
pub use room::have_room;
pub use walk::ItemWalk;
