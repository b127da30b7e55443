//! Requests served one behind the other: over one link, by `run_feed`, or over a connection each,
//! by `run_serve`. The program calls both.
#![tactic(auto)]

mod feed;
mod laws;
mod serve;

pub use feed::{Fed, run_feed};
pub use laws::{
    all_is_told_behind_a_commit, an_asked_number_is_told_next, an_ended_run_has_read_all,
    ends_by_what_is_read, what_is_known_lasts, what_is_known_stays_known,
};
pub use serve::{Heard, run_serve};
