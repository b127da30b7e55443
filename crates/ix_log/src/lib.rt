//! A log of bodies in one file of a disk. A body counts once its gate is open, and the gate is
//! opened last: so each crash leaves the old bodies, or these and the new one.
#![tactic(auto)]

mod head;
mod laws;
mod log;
mod window;

pub use laws::one_list;
pub use log::{BeginFault, Log, LogFault};
