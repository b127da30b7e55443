//! Searching a text for a pattern: the first match in a whole text, and attempts at a place of a
//! stream. The search itself is `ix_pikevm`'.
#![tactic(auto)]

mod budget;
mod compiled;
mod few;
mod first;
mod first_pieces;
mod leads;
mod prefilter;
mod regex;
mod scan;
mod scan_given;
mod scan_state;
mod search;
mod starts;

pub use first::{Found, GroupList, find};
pub use regex::Regex;
pub use scan::{Look, REACH, Scan};
pub use starts::others_begin_nothing;
