//! Searching a text for a pattern at one place, one way after the other, within a budget of steps.
#![tactic(auto)]

mod attempt;
pub mod backtrack_scratch;
mod behind;
mod choice;
pub mod frames;
mod outcome;
mod turn;
