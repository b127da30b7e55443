//! Tests of the book and the committer by public calls: what stops, failing calls and damage leave of
//! a store.
#![tactic(auto)]

pub mod counted;
#[cfg(test)]
mod counts;
#[cfg(test)]
mod damage;
#[cfg(test)]
mod said;
#[cfg(test)]
mod script;
pub mod small;
#[cfg(test)]
mod stops;
pub mod walk;
