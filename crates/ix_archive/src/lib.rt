//! Archives: copies of the first bytes of files.
#![tactic(auto)]

mod checking;
mod copying;

pub use checking::check;
pub use copying::{CopyFault, copy};
