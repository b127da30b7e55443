//! Texts about a store: the listing of its indexes, their buckets, and the ledger of frozen ones.
#![tactic(auto)]

mod names;
mod rows;
mod sums;
mod views;

pub use views::listing;
