//! Tests of a store by its public calls.
#![tactic(auto)]

#[cfg(test)]
mod closed;
