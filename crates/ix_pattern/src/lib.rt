//! Patterns: their grammar, the tree of their pieces, and what the pieces mean.
#![tactic(auto)]

mod classes;
mod counts;
mod faults;
mod frames;
mod laws;
mod lexer;
mod modifiers;
mod part;
mod parts;
mod pattern;
mod read;
mod reader;
mod reading;
mod sets;
mod steps;
mod tokens;
mod work;

pub use faults::{BreakFault, PatternFault};
pub use laws::{edges_are_replaced, one_syntax};
pub use pattern::{Node, Pattern};
