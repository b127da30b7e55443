//! The commands of the program that serve requests: the store is opened as for any other command,
//! and requests are served, one behind the other until there are no more, or over a connection
//! each. `indexd_core` calls `run_streams` and `run_serve`.
#![tactic(auto)]

mod end;
mod feed;
mod run;
mod serve;
mod streams;

pub use end::{End, ServeEnd};
pub use feed::run_feed;
pub use run::run_streams;
pub use serve::run_serve;
pub use streams::Streams;
