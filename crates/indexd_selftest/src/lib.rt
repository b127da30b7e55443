//! A selftest: commands that a seed fixes go through requests into a store on a disk in memory,
//! which is mounted again and listed. So it is seen that the whole of a store works on a machine.
//! The program calls `selftest`.
#![tactic(auto)]

mod fault;
mod filling;
mod generator;
mod requests;
mod sending;
mod summary;

pub use fault::SelftestFault;
pub use summary::selftest;
