//! Whether a state keeps the bounds of what a store can keep, seen by what is in memory of it; the
//! store asks before it takes what a command leaves. And the indexes that are seen of a store, with
//! their limits: a mount makes them of the buckets that it finds in the log, and a change of
//! settings makes them anew. The laws of ledgers and of Ticks are what working commands out in
//! memory stands on.
#![tactic(auto)]

mod bounds;
mod index_laws;
mod laws;
mod ledger_laws;
mod reshelving;
mod shelving;
mod tick_laws;
mod totals;

pub use bounds::keeps_bounds;
pub use index_laws::names_are_no_volumes;
pub use laws::bounds_are_seen;
pub use ledger_laws::{changes_are_same, deals_are_same, measures_are_same, numbers_are_same};
pub use reshelving::view_indexes_anew;
pub use shelving::{Bucketed, view_indexes};
pub use tick_laws::ticks_come_first;
pub use totals::{Channels, Spots, channel_size, settings_size, spot_size, spots_of};
