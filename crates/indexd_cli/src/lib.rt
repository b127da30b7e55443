//! The words of the command line: which command they name, with its values, or that they name none.
//! `clap` reads them by one table of commands; the program calls `read_words`.
#![tactic(auto)]

mod invocation;
mod parse;
mod plain;
mod table;
mod values;

pub use invocation::{Invocation, Origin, UsageFault};
pub use parse::{lend_words, read_words};
pub use plain::plain_words;
