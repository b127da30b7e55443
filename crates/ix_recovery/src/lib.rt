//! The state of a store from the items of its log, which a mount calls once the log is read, and
//! the whole state in memory as the items of a log, which a checkpoint writes as the one body of a
//! further one. The laws of a state as items are here too.
#![tactic(auto)]

mod channels;
mod faults;
mod gathering;
mod indexes;
mod laws;
mod list_laws;
mod numbers;
mod range_laws;
mod recovered;
mod shelves;
mod sorting;
mod spots;
mod whole;
mod whole_channels;

pub use faults::RecoveryFault;
pub use laws::logs_are_held;
pub use list_laws::{
    fits_with_log, items_have_room, items_lead, items_part, lists_tell, states_are_listed,
    within_fits,
};
pub use range_laws::events_have_records;
pub use recovered::{Recovered, recall};
pub use whole::items_of;
