//! What a command makes of the indexes, the files of buckets and the ledger of a store, worked out
//! beside them and not yet taken: events are dealt, buckets have their turn of housekeeping, are
//! rolled or brought back, and settings change. The store's memory calls it for each command and
//! for the Tick before it.
#![tactic(auto)]

mod catalog_effect;
mod configuring;
mod dealing;
mod guards;
mod leaving;
mod rolling;
mod thawing;
mod turning;

pub use catalog_effect::{Base, CatalogEffect, MoveFault};
