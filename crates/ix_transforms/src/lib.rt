//! Changes of events at index time: what SEDCMD does to the raw text, and what transforms do to the
//! fields and to the queue.
#![tactic(auto)]

mod changes;
mod laws;
mod matches;
mod queues;
mod seds;
mod substitution;
mod swapping;
mod transforms;
mod writing;

pub use changes::{Changer, apply};
pub use laws::matches_are_in_turn;
