//! Dates as text: what each piece of a time format reads, and the formats that are tried where none
//! is set. What a text says is kept as fields; which instant they come to is for the crate above.
#![tactic(auto)]

mod clock_laws;
mod digits;
mod directives;
mod fields;
mod front;
mod iso;
mod known;
mod laws;
mod names;
mod picked;
mod wall;
mod year;

pub use clock_laws::compatible_choice;
pub use directives::read_all;
pub use fields::{Fields, Hour};
pub use front::skip_quiet;
pub use known::KnownFormat;
pub use laws::numbers_are_decimal;
pub use picked::{instant, instant_at, instant_by};
pub use wall::{CivilTime, YearDay};
pub use year::instant_in_some_year;
