//! The commands of the program that work on a store: it is mounted, the settings of the files are
//! put in force, and the command is carried out and committed.
#![tactic(auto)]

mod export;
mod finish;
mod opening;
mod preview;
mod run;
mod settings;
mod single;
mod stop;
mod task;
mod texts;

pub use finish::{make_short, stop_run};
pub use opening::open;
pub use preview::run_preview;
pub use run::run_task;
pub use single::run_last;
pub use stop::{Stop, of_give};
pub use task::Task;
