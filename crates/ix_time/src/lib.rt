//! The time of an event: whether a date reads in a text, which instant it comes to, and which time
//! the event takes.
#![tactic(auto)]

mod chosen;
mod instants;
mod laws;
mod read;
mod scan;
mod window;

pub use chosen::{Origin, TimeFound};
pub use laws::{first_match_ends, first_offset_reads};
pub use read::{TimeReader, has_date, time_of};
pub use window::finder_of;
