//! Tests of the way from bytes to dated and routed events, each crate by its public calls: patterns, lines, merging, times, transforms, the
//! carry of a channel and the channel. Wanted values were worked by hand, or with another calendar.
#![tactic(auto)]

#[cfg(test)]
mod carry;
#[cfg(test)]
mod changes;
#[cfg(test)]
mod limits;
#[cfg(test)]
mod lines;
#[cfg(test)]
mod matching;
#[cfg(test)]
mod merge;
#[cfg(test)]
mod parse;
#[cfg(test)]
mod pattern;
#[cfg(test)]
mod read;
#[cfg(test)]
mod rows;
#[cfg(test)]
mod said;
