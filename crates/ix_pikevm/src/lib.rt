//! Searching a text for a pattern, by an ordered list of threads.
#![tactic(auto)]

mod acts;
pub mod ahead;
pub mod attempt;
pub mod cells;
mod chain;
pub mod code;
pub mod compile;
pub mod groups;
pub mod input;
pub mod leaf;
pub mod matcher;
pub mod matcher_ref;
pub mod place;
pub mod plain;
pub mod program;
pub mod run;
mod seek;
mod settle;
mod step;
mod table;
pub mod thread_scratch;
mod tidy;
