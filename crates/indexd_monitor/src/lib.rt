//! The command that monitors files: one pass over the files that inputs have watched, over the
//! store of a disk, and its lines. The program calls `run_monitor`.
#![tactic(auto)]

mod laws;
mod making;
mod monitoring;
mod stops;
mod writing;

pub use laws::runs_read_on;
pub use making::Watch;
pub use monitoring::run_monitor;
