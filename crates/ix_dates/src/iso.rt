//! The format of dates with hyphens and times with colons, which is tried where no format is set.

ghost use Rattle.std.specs.Prelude.{◌≡◌, ◌≤◌, IfSome};
ghost use Rattle.ix_dates.specs.Iso as Iso;
ghost use Rattle.ix_dates.specs.Text.{read_view};

use crate::digits::{behind, fraction, within};
use crate::directives::{offset, signed_offset};
use crate::fields::{Field, Fields, Hour};

/// A byte and two digits, from `low` to `high`.
#[tactic(auto, unfolding(crate::specs::Iso::two_behind))]
fn two_behind(byte: u8, low: u16, high: u16, s: &[u8]) -> Option<(u16, &[u8])>
    ensures value { read_view result ≡ Iso.two_behind byte low high s.now }
    ensures bound { IfSome result (λ p. p.0 ≤ high) }
{
    within(2, 2, low, high, behind(byte, s)?)
}

#[tactic(auto, unfolding(crate::specs::Iso::date))]
fn date(s: &[u8]) -> Option<(Fields, &[u8])>
    ensures { read_view result ≡ Iso.date s.now }
{
    let (year, s) = within(4, 4, 0, 9999, s)?;
    let (month, s) = two_behind(b'-', 1, 12, s)?;
    let (day, s) = two_behind(b'-', 1, 31, s)?;
    Some((
        Fields {
            year: Some(year),
            month: Some(month as u8),
            day: Some(day as u8),
            ..Fields::NONE
        },
        s,
    ))
}

/// `T` or one space, and a time of day.
#[tactic(auto, unfolding(crate::specs::Iso::clock))]
fn clock(fields: Fields, s: &[u8]) -> Option<(Fields, &[u8])>
    ensures { read_view result ≡ Iso.clock fields s.now }
{
    let s = match behind(b'T', s) {
        Some(rest) => rest,
        None => behind(b' ', s)?,
    };
    let (hour, s) = within(2, 2, 0, 23, s)?;
    let (minute, s) = two_behind(b':', 0, 59, s)?;
    let (second, s) = two_behind(b':', 0, 60, s)?;
    Some((
        Fields {
            hour: Some(Hour::OfDay(hour as u8)),
            minute: Some(minute as u8),
            second: Some(second.min(59) as u8),
            ..fields
        },
        s,
    ))
}

/// `.` or `,` and a fraction.
fn point_fraction(s: &[u8]) -> Option<(u32, &[u8])>
    ensures { read_view result ≡ Iso.point_fraction s.now }
{
    let rest = match behind(b'.', s) {
        Some(rest) => rest,
        None => behind(b',', s)?,
    };
    fraction(1, 9, rest)
}

/// `.` or `,` and a fraction, where they stand.
#[tactic(auto, unfolding(crate::specs::Iso::some_fraction))]
fn some_fraction(fields: Fields, s: &[u8]) -> (Fields, &[u8])
    ensures { (result.0, result.1.now) ≡ Iso.some_fraction fields s.now }
{
    match point_fraction(s) {
        Some((micros, rest)) => (
            Fields {
                micros: Some(micros),
                ..fields
            },
            rest,
        ),
        None => (fields, s),
    }
}

/// A zone; one space may stand before one with a sign.
fn zone(s: &[u8]) -> Option<(Field, &[u8])>
    ensures { read_view result ≡ Iso.zone s.now }
{
    match offset(s) {
        Some(found) => Some(found),
        None => signed_offset(behind(b' ', s)?),
    }
}

/// A zone, where it stands.
#[tactic(auto, unfolding(crate::specs::Iso::some_zone))]
fn some_zone(fields: Fields, s: &[u8]) -> (Fields, &[u8])
    ensures { (result.0, result.1.now) ≡ Iso.some_zone fields s.now }
{
    match zone(s) {
        Some((field, rest)) => (fields.with(field), rest),
        None => (fields, s),
    }
}

/// A date and a time, and a fraction and a zone where they stand.
#[tactic(auto, unfolding(crate::specs::Iso::iso))]
pub(crate) fn iso(s: &[u8]) -> Option<(Fields, &[u8])>
    ensures { read_view result ≡ Iso.iso s.now }
{
    let (fields, s) = date(s)?;
    let (fields, s) = clock(fields, s)?;
    let (fields, s) = some_fraction(fields, s);
    Some(some_zone(fields, s))
}
