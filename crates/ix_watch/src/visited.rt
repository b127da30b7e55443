//! What a visit of a watched file comes to. A pass tells it by a line.

/// What a visit of a file has come to.
#[derive(Clone, Copy, Debug, PartialEq, Eq)]
pub enum Visited {
    /// There is no such file.
    Missing,
    /// It has no new bytes.
    Skipped,
    /// It was read on from this place, to that one.
    ReadOn { from: u64, to: u64 },
    /// It was read from its start as another one, to this place.
    ReadAgain { to: u64 },
}
