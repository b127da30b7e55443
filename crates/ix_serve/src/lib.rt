//! Requests served over a store: one request is read from a link, the store accepts its command,
//! and the reply is written. Behind it a long log is made short. Whoever serves links calls
//! `serve_one`.
#![tactic(auto)]

mod bodies;
mod changes;
mod events;
mod faults;
mod keeping;
mod queries;
mod replies;
mod serve;
mod served;

pub use serve::serve_one;
pub use served::{ServeFault, Served, answer_of_fault};
