//! The indexes of a store in memory, without the events of their buckets: what placing,
//! housekeeping, rolls and thaws do to them, and what these add to the files of buckets. The store
//! works a command out on copies of them before it takes it.
#![tactic(auto)]

mod buckets;
mod changes;
mod housekeeping;
mod housekeeping_result;
mod index_table;
mod laws;
mod measures;
mod pieces;
mod placer;
mod rolling;
mod thawing;
mod viewing;

pub use changes::{ascending_differ, changed_leads, changes_lead, put_changes, shelves_lead};
pub use housekeeping_result::{HousekeepingResult, turn_all};
pub use index_table::IndexTable;
pub use laws::small_has_record;
pub use measures::{all_bytes, all_events, next_number, shelf_size};
pub use placer::{DealFault, Placer, Work};
pub use rolling::roll;
pub use thawing::{thaw, thaw_copy};
