//! The instant of a civil time: in a zone, or at an offset that is given.

ghost use Rattle.std.specs.Prelude.{◌≡◌, ◌-ℤ◌};
ghost use Rattle.jiff_core.specs.DateTime.{civil_nanos};
ghost use Rattle.jiff_core.specs.Timestamp.{nanos_of_seconds};
ghost use Rattle.jiff_tz.specs.Ambiguous.{compatible_offset};
ghost use Rattle.jiff_tz.specs.PosixText.{tz_view};
ghost use Rattle.ix_dates.specs.Instant.{instant_at_offset, instant_at_seconds, instant_in, instant_of, truncated};

use crate::CivilTime;
use jiff_core::Offset;
use jiff_core::civil::DateTime;
use jiff_tz::{AmbiguousOffset, posix};

/// The instant of a civil time in a zone, in microseconds since 1970-01-01T00:00:00Z. Where the
/// clocks of the zone pass over the civil time, or show it twice, it is the one by the offset
/// before the change: so an hour later in a gap, and the first of two. `None` where there is no
/// such date or time, or its instant is beyond those that the calendar library holds.
pub fn instant(zone: &posix::TimeZone, civil: CivilTime) -> Option<i64>
    ensures { result ≡ instant_in (tz_view zone.now) civil }
{
    let dt = civil.to_jiff()?;
    let offsets = zone.to_ambiguous_offset(dt);
    micros_at(dt, before(offsets))
}

/// The offset before a gap or a fold.
fn before(offsets: AmbiguousOffset) -> Offset
    ensures { result ≡ compatible_offset offsets }
{
    match offsets {
        AmbiguousOffset::Unambiguous { offset } => offset,
        AmbiguousOffset::Gap { before, .. } => before,
        AmbiguousOffset::Fold { before, .. } => before,
    }
}

/// The instant in whole microseconds, if the calendar library holds it.
fn micros_at(dt: DateTime, offset: Offset) -> Option<i64>
    ensures { result ≡ truncated (civil_nanos dt -ℤ nanos_of_seconds offset.seconds) }
{
    let Ok(timestamp) = offset.to_timestamp(dt) else {
        return None;
    };
    Some((timestamp.nanosecond / 1000) as i64)
}

/// The instant at which a clock so many seconds ahead of UTC shows a civil time. `None` also where
/// the offset is above 25:59:59.
pub fn instant_at(seconds: i32, civil: CivilTime) -> Option<i64>
    ensures { result ≡ instant_at_seconds seconds civil }
{
    if seconds < -93_599 || seconds > 93_599 {
        return None;
    }
    at_offset(Offset { seconds }, civil)
}

/// The instant at which a clock at this offset shows a civil time.
fn at_offset(offset: Offset, civil: CivilTime) -> Option<i64>
    ensures { result ≡ instant_at_offset offset.seconds civil }
{
    let dt = civil.to_jiff()?;
    micros_at(dt, offset)
}

/// The instant at the offset, if one is given, and else in the zone.
pub fn instant_by(zone: &posix::TimeZone, offset: Option<i32>, civil: CivilTime) -> Option<i64>
    ensures { result ≡ instant_of (tz_view zone.now) offset civil }
{
    match offset {
        Some(seconds) => instant_at(seconds, civil),
        None => instant(zone, civil),
    }
}
