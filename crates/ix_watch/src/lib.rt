//! What passes over watched files give to a store, and the laws that a file which only grows is
//! taken once and in order. Whoever reasons about a run that watches files cites them.
#![tactic(auto)]

mod laws;
mod visited;

pub use laws::{longer_is_watched, passes_follow, visits_follow, watched_is_read};
pub use visited::Visited;
