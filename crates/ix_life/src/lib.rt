//! The life of buckets: which bucket of an index an event goes into, and which buckets roll to
//! warm, move to cold and freeze. Pure rules over lists of buckets; the store keeps the buckets and
//! carries the moves out.
#![tactic(auto)]

mod caps;
mod copies;
mod faults;
mod housekeeping;
mod kinds;
mod limits;
mod moves;
mod order;
mod picks;
mod placing;
mod sets;
mod stanzas;
mod times;
mod views;

pub use caps::one_shortest;
pub use copies::{copy_buckets, copy_indexes};
pub use faults::LimitFault;
pub use housekeeping::housekeep;
pub use limits::Limits;
pub use moves::{FreezeList, IdList, Moves};
pub use placing::{Places, Target, place, place_at};
pub use sets::{IndexLimits, LimitSet, Route, retired_limits};
pub use stanzas::contains;
pub use views::{BucketList, EntryList, IndexView, IndexViewList, View};
