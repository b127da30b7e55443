//! The year of a date that is written without one.

ghost use Rattle.std.specs.Prelude.{◌≡◌, ◌≤◌, ◌<◌, ◌≤ℤ◌, ℕ, ℤ, Option, None, pos};
ghost use Rattle.jiff_tz.specs.PosixText.{tz_view};
ghost use Rattle.ix_dates.specs.declared.wall.CivilTime.{CivilTime as Civil};
ghost use Rattle.ix_dates.specs.Year as Years;

use crate::{CivilTime, instant_by};
use jiff_tz::posix;

/// Microseconds of a day.
const DAY: i64 = 86_400_000_000;

/// The instant of a civil time in the greatest year, from 0 to 9999, in which its date exists and
/// its instant is at most one day after the arrival; `civil.year` is not looked at. `None` where
/// there is no such year. The arrival is a moment from 1970 to 2100.
pub fn instant_in_some_year(
    zone: &posix::TimeZone,
    offset: Option<i32>,
    civil: CivilTime,
    arrival: i64,
) -> Option<i64>
    requires low { pos 0 ≤ℤ arrival }
    requires high { arrival ≤ℤ pos 4_102_444_800_000_000 }
    ensures value { result ≡ Years.instant_in_some_year (tz_view zone.now) offset civil arrival }
    ensures greatest { Years.GivesGreatest (Years.instant_in_year (tz_view zone.now) offset civil arrival) 9999 result }
{
    let mut year = last_year(zone, arrival);
    while year > 0 {
        if let Some(found) = in_year(zone, offset, civil, arrival, year) {
            return Some(found);
        }
        year -= 1;
    }
    in_year(zone, offset, civil, arrival, 0)
}

/// The instant in that year, if it is at most one day after the arrival.
fn in_year(
    zone: &posix::TimeZone,
    offset: Option<i32>,
    civil: CivilTime,
    arrival: i64,
    year: u16,
) -> Option<i64>
    requires low { pos 0 ≤ℤ arrival }
    requires high { arrival ≤ℤ pos 4_102_444_800_000_000 }
    ensures { result ≡ Years.instant_in_year (tz_view zone.now) offset civil arrival year }
{
    let found = instant_by(zone, offset, CivilTime { year, ..civil })?;
    if found > arrival + DAY {
        return None;
    }
    Some(found)
}

/// A year behind which there is no such instant.
fn last_year(zone: &posix::TimeZone, arrival: i64) -> u16
    requires low { pos 0 ≤ℤ arrival }
    requires high { arrival ≤ℤ pos 4_102_444_800_000_000 }
    ensures low { 1970 ≤ result }
    ensures high { result ≤ 9999 }
    ensures enough { (offset : Option ℤ) → (civil : Civil)
        → (y : ℕ) → result < y → Years.instant_in_year (tz_view zone.now) offset civil arrival y ≡ None }
{
    1971 + ((arrival as u64 + 172_800_000_000) / 31_536_000_000_000) as u16
}
