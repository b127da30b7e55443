//! The instant that the fields of a text come to.

ghost use Rattle.std.specs.Prelude.{◌≡◌, ◌≤ℤ◌, pos};
ghost use Rattle.jiff_tz.specs.PosixText.{tz_view};
ghost use Rattle.ix_time.specs.Instants as Instants;

use ix_conf_values::Directive;
use ix_dates::{
    CivilTime, Fields, Hour, KnownFormat, YearDay, instant_by, instant_in_some_year, read_all,
};
use jiff_tz::posix;

/// The instant of the fields of a text. `None` where they name no day, or there is no such date,
/// time or instant. The arrival is a moment from 1970 to 2100.
#[tactic(auto, unfolding(crate::specs::Instants::instant_of_fields))]
fn instant_of_fields(zone: &posix::TimeZone, arrival: i64, fields: Fields) -> Option<i64>
    requires low { pos 0 ≤ℤ arrival }
    requires high { arrival ≤ℤ pos 4_102_444_800_000_000 }
    ensures { result ≡ Instants.instant_of_fields (tz_view zone.now) arrival fields }
{
    if let Some(seconds) = fields.epoch {
        return epoch_instant(seconds, fields.micros.unwrap_or(0));
    }
    let date = date_of(fields)?;
    match fields.year {
        Some(year) => instant_by(zone, fields.offset, civil_of(fields, date, year)),
        None => instant_in_some_year(zone, fields.offset, civil_of(fields, date, 0), arrival),
    }
}

/// The instant that many seconds and microseconds after 1970-01-01T00:00:00Z.
fn epoch_instant(seconds: u64, micros: u32) -> Option<i64>
    ensures { result ≡ Instants.epoch_instant seconds micros }
{
    if seconds > 99_999_999_999 || micros > 999_999 {
        return None;
    }
    Some((seconds * 1_000_000 + micros as u64) as i64)
}

/// The day that the fields name.
fn date_of(fields: Fields) -> Option<YearDay>
    ensures { result ≡ Instants.date_of fields }
{
    if let Some(number) = fields.day_of_year {
        return Some(YearDay::Ordinal(number));
    }
    match (fields.month, fields.day) {
        (Some(month), Some(day)) => Some(YearDay::InMonth { month, day }),
        _ => None,
    }
}

/// The hour from 0 to 23.
fn clock_hour(fields: Fields) -> u8
    ensures { result ≡ Instants.clock_hour fields }
{
    match (fields.hour, fields.afternoon) {
        (None, _) => 0,
        (Some(Hour::OfDay(hour)), _) => hour,
        (Some(Hour::OfHalfDay(hour)), None) => hour,
        (Some(Hour::OfHalfDay(hour)), Some(false)) => hour % 12,
        (Some(Hour::OfHalfDay(hour)), Some(true)) => hour % 12 + 12,
    }
}

/// The civil time of the fields, on that day of that year.
fn civil_of(fields: Fields, date: YearDay, year: u16) -> CivilTime
    ensures { result ≡ Instants.civil_of fields date year }
{
    CivilTime {
        year,
        date,
        hour: clock_hour(fields),
        minute: fields.minute.unwrap_or(0),
        second: fields.second.unwrap_or(0),
        micros: fields.micros.unwrap_or(0),
    }
}

/// What the directives of a format read at the front of a text, as an instant.
#[tactic(auto, unfolding(crate::specs::Instants::by_format))]
pub(crate) fn by_format(
    zone: &posix::TimeZone,
    arrival: i64,
    format: &[Directive],
    s: &[u8],
) -> Option<i64>
    requires low { pos 0 ≤ℤ arrival }
    requires high { arrival ≤ℤ pos 4_102_444_800_000_000 }
    ensures { result ≡ Instants.by_format (tz_view zone.now) arrival format.now s.now }
{
    let (fields, _) = read_all(format, Fields::NONE, s)?;
    instant_of_fields(zone, arrival, fields)
}

/// What one of the formats that are tried reads at the front of a text, as an instant.
#[tactic(auto, unfolding(crate::specs::Instants::by_known))]
pub(crate) fn by_known(
    zone: &posix::TimeZone,
    arrival: i64,
    format: KnownFormat,
    s: &[u8],
) -> Option<i64>
    requires low { pos 0 ≤ℤ arrival }
    requires high { arrival ≤ℤ pos 4_102_444_800_000_000 }
    ensures { result ≡ Instants.by_known (tz_view zone.now) arrival format s.now }
{
    let (fields, _) = format.read(s)?;
    instant_of_fields(zone, arrival, fields)
}
