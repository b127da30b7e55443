//! The whole of the program over the traits of the outside.
#![tactic(auto)]

mod btool;
mod chain;
mod ends;
mod events;
mod feed;
mod laws;
mod lock;
mod monitor;
mod prepare;
mod preview;
mod program;
mod reading;
mod selftest;
mod serve;
mod status;
mod stored;
mod watching;

pub use chain::{
    an_empty_disk_may_run, an_exit_is_a_stop, runs_keep, runs_leave,
    the_next_run_has_a_greater_number, the_next_run_may_begin,
};
/// What the program's store is over, for callers that open that store themselves.
pub use ix_apply::StateMachine;
pub use laws::blank_disks_are_starts;
pub use program::top;
pub use reading::a_feed_that_is_done_has_read_all;
pub use status::{Status, say};
pub use watching::{monitors_keep, monitors_leave, watched_files_are_read_on};
