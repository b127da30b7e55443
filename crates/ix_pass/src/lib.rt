//! A pass over watched files: each is visited, what is new in it is given to a store, and all that
//! was given is committed. Whoever makes a pass asks `ix_files` for the files.
#![tactic(auto)]

mod committing;
mod fault;
mod filling;
mod giving;
mod laws;
mod lines;
mod looking;
mod opening;
mod passing;
mod reading;
mod visiting;

pub use committing::{Round, pass};
pub use fault::PassFault;
pub use laws::passes_go_on;
