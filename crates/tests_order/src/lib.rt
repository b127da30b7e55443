//! Tests of the order of the calls of the system under the disk of the machine: of calls of the disk, and of a store that a program works on.
#![tactic(auto)]

#[cfg(test)]
mod order;
#[cfg(test)]
mod removed;
#[cfg(test)]
mod said;
#[cfg(test)]
mod stored;
#[cfg(test)]
mod watched;
