//! Buckets: the bytes of their events in a file.
#![tactic(auto)]

mod ahead;
mod appending;
mod counting;
mod reading;
mod writing;

pub use ahead::{ReadFault, Reader};
pub use appending::append;
pub use counting::count_records;
pub use reading::{decode, unique_reading};
pub use writing::encode;
