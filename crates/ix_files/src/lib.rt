//! Which files the inputs have watched. Whoever makes a pass asks for them, and has `ix_pass` visit
//! them.
#![tactic(auto)]

mod paths;
mod seeking;

pub use seeking::watched_files;
