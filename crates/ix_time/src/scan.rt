//! The first time in a window, by the four formats that are tried where none is set.

ghost use Rattle.std.specs.Prelude.{◌≡◌, ◌≤ℤ◌, pos};
ghost use Rattle.jiff_tz.specs.PosixText.{tz_view};
ghost use Rattle.ix_time.specs.Scan as Scan;

use crate::instants::by_known;
use ix_dates::{KnownFormat, skip_quiet};
use jiff_tz::posix;

/// The first of the four formats that reads at the front of a text.
#[tactic(auto, unfolding(crate::specs::Scan::at_front))]
fn at_front(zone: &posix::TimeZone, arrival: i64, s: &[u8]) -> Option<i64>
    requires low { pos 0 ≤ℤ arrival }
    requires high { arrival ≤ℤ pos 4_102_444_800_000_000 }
    ensures { result ≡ Scan.at_front (tz_view zone.now) arrival s.now }
{
    if let Some(found) = by_known(zone, arrival, KnownFormat::Iso, s) {
        return Some(found);
    }
    if let Some(found) = by_known(zone, arrival, KnownFormat::Syslog, s) {
        return Some(found);
    }
    if let Some(found) = by_known(zone, arrival, KnownFormat::Access, s) {
        return Some(found);
    }
    by_known(zone, arrival, KnownFormat::American, s)
}

/// What the first offset of a window gives at which one of the formats reads. Most offsets are
/// passed over by a short test.
pub(crate) fn first_time(zone: &posix::TimeZone, arrival: i64, window: &[u8]) -> Option<i64>
    requires low { pos 0 ≤ℤ arrival }
    requires high { arrival ≤ℤ pos 4_102_444_800_000_000 }
    ensures { result ≡ Scan.first_time (tz_view zone.now) arrival window.now }
{
    let mut rest = skip_quiet(window);
    while let [_, next @ ..] = rest {
        if let Some(found) = at_front(zone, arrival, rest) {
            return Some(found);
        }
        rest = skip_quiet(next);
    }
    None
}
