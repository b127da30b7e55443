//! Watched files: which files inputs.conf has watched, and how far a file is read in a pass.
#![tactic(auto)]

mod faults;
mod inputs;
mod paths;
mod steps;
mod watched;

pub use faults::InputFault;
pub use inputs::{Input, Inputs};
pub use steps::{Seen, Step, plan};
pub use watched::Watched;
