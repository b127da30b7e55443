//! Runs of a store: commands are given to it one by one, and committed where that is due, and a log
//! that has grown long is made short. The program makes each of its commands of these.
#![tactic(auto)]

mod giving;
mod input;
mod shortening;
mod single;

pub use giving::{GiveFault, commit_all, give};
pub use input::{Arrival, RunFault, store_input};
pub use shortening::shorten;
pub use single::give_last;
