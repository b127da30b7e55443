//! How far a watched file is read in a pass.

ghost use Rattle.std.specs.Prelude.{◌≡◌};
ghost use Rattle.std.specs.Option.{option_copied};
ghost use Rattle.ix_monitor.specs.Steps as defs;

use ix_base::{Bytes, Spot};

/// A watched file, as a pass finds it.
#[derive(Drop)]
pub struct Seen {
    /// How many bytes it has.
    pub size: u64,
    /// Its first bytes: 256, or all where it has fewer.
    pub head: Bytes,
}

/// What a pass does with a file.
#[derive(Clone, Copy, Debug, PartialEq, Eq)]
pub enum Step {
    /// Nothing: it has no new bytes.
    Skip,
    /// It reads on from this place.
    From(u64),
    /// It reads the file from its start, as another one.
    Again,
}

/// Whether the file goes on from where it was read to.
fn goes_on(file: &Seen, spot: &Spot) -> bool
    ensures { result ≡ defs.goes_on file.now spot.now }
{
    file.head.as_slice().starts_with(spot.head.as_slice()) && spot.offset <= file.size
}

/// Reads the bytes behind a place, where there are any.
fn behind(offset: u64, size: u64) -> Step
    ensures { result ≡ defs.behind offset size }
{
    if offset == size {
        Step::Skip
    } else {
        Step::From(offset)
    }
}

/// What a pass does with a file of which it was kept, or was not, how far it has been read.
///
/// A file of which nothing was kept is read from its start, and passed over where it is empty. One
/// that begins with the head that was kept and has not become shorter than the part that was read
/// goes on from there, and is passed over where it has no more. Any other is another file under the
/// same name, and is read again. It takes no memory.
pub fn plan(file: &Seen, kept: Option<&Spot>) -> Step
    ensures { result ≡ defs.plan file.now (option_copied kept.entry) }
{
    match kept {
        None => behind(0, file.size),
        Some(spot) => {
            if goes_on(file, spot) {
                behind(spot.offset, file.size)
            } else {
                Step::Again
            }
        }
    }
}
