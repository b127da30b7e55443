//! Whether an event's time is within a range. The writer of lines asks it.

ghost use Rattle.std.specs.Prelude.{◌≡◌, ◌*ℤ◌, pos, int_le, int_lt};
ghost use Rattle.ix_base.specs.Lent.{lent_event};
ghost use Rattle.ix_export.specs.Lines as defs;

use ix_base::{EventRef, Range};

/// So many seconds in microseconds, which 64 bits may not hold.
fn micros(seconds: i64) -> i128
    ensures { result ≡ defs.micros seconds }
{
    seconds as i128 * 1_000_000
}

/// Whether a time in microseconds is not before the second.
fn is_from(earliest: Option<i64>, time: i64) -> bool
    ensures { result ≡ defs.is_from earliest time }
{
    match earliest {
        Some(earliest) => micros(earliest) <= time as i128,
        None => true,
    }
}

/// Whether it is before the second.
fn is_before(latest: Option<i64>, time: i64) -> bool
    ensures { result ≡ defs.is_before latest time }
{
    match latest {
        Some(latest) => (time as i128) < micros(latest),
        None => true,
    }
}

/// Whether the event's time is within the range.
pub(crate) fn is_within(range: Range, event: &EventRef) -> bool
    ensures { result ≡ defs.is_within range (lent_event event.now) }
{
    is_from(range.earliest, event.time) && is_before(range.latest, event.time)
}
