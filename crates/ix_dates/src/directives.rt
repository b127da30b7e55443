//! What the directives of a time format read. Formats that are set are read by them, and three of
//! those that are tried where none is set.

ghost use Rattle.std.specs.Prelude.{◌≡◌, ◌<◌, ◌≤◌, IfSome, min};
ghost use Rattle.ix_dates.specs.declared.fields.Field.TheVariants as field;
ghost use Rattle.ix_dates.specs.declared.fields.Hour.TheVariants.{OfDay, OfHalfDay};
ghost use Rattle.ix_dates.specs.Names as Names;
ghost use Rattle.ix_dates.specs.Text as Text;
ghost use Rattle.ix_dates.specs.Text.{read_view, rest_view};
ghost use Rattle.ix_dates.specs.Directives as Directives;

use crate::digits::{behind, fraction, number, skip_space, within};
use crate::fields::{Field, Fields, Hour};
use crate::names::{behind_name, month, weekday};
use ix_conf_values::Directive;

/// What one directive reads at the front of a text, and the text behind it. `None` where it reads
/// nothing there.
#[tactic(auto, unfolding(crate::specs::Directives::read_one))]
fn read_one(directive: Directive, s: &[u8]) -> Option<(Field, &[u8])>
    ensures { read_view result ≡ Directives.read_one directive s.now }
{
    match directive {
        Directive::Year => year(s),
        Directive::YearOfCentury => year_of_century(s),
        Directive::Month => month_number(s),
        Directive::Day | Directive::PaddedDay => day(s),
        Directive::Hour => hour(s),
        Directive::HalfDayHour => half_day_hour(s),
        Directive::Minute => minute(s),
        Directive::Second => second(s),
        Directive::DayOfYear => day_of_year(s),
        Directive::ShortMonthName | Directive::MonthName => month_name(s),
        Directive::ShortWeekdayName | Directive::WeekdayName => weekday_name(s),
        Directive::HalfDay => half_day(s),
        Directive::Epoch => epoch(s),
        Directive::Fraction => micros(1, 9, s),
        Directive::Millis => micros(3, 3, s),
        Directive::Micros => micros(6, 6, s),
        Directive::Nanos => micros(9, 9, s),
        Directive::Offset => offset(s),
        Directive::ZoneName => zone_name(s),
        Directive::Space => Some((Field::Nothing, skip_space(s))),
        Directive::Byte(byte) => Some((Field::Nothing, behind(byte, s)?)),
    }
}

/// What directives read at the front of a text, one behind the other, over the fields so far, and
/// the text behind it.
pub fn read_all<'a>(
    directives: &[Directive],
    fields: Fields,
    s: &'a [u8],
) -> Option<(Fields, &'a [u8])>
    ensures { read_view result ≡ Directives.read_all directives.now fields s.now }
{
    let (mut fields, mut rest) = (fields, s);
    for directive in directives {
        let (field, next) = read_one(*directive, rest)?;
        fields = fields.with(field);
        rest = next;
    }
    Some((fields, rest))
}

fn year(s: &[u8]) -> Option<(Field, &[u8])>
    ensures { read_view result ≡ Directives.gives (Text.within 4 4 0 9999 s.now) field.Year }
{
    let (year, s) = within(4, 4, 0, 9999, s)?;
    Some((Field::Year(year), s))
}

fn year_of_century(s: &[u8]) -> Option<(Field, &[u8])>
    ensures { read_view result ≡ Directives.gives (Text.within 2 2 0 99 s.now) (λ n. field.Year (Directives.year_of_century n)) }
{
    let (short, s) = within(2, 2, 0, 99, s)?;
    let century = if short < 69 { 2000 } else { 1900 };
    Some((Field::Year(century + short), s))
}

fn month_number(s: &[u8]) -> Option<(Field, &[u8])>
    ensures { read_view result ≡ Directives.gives (Text.within 1 2 1 12 s.now) field.Month }
{
    let (month, s) = within(1, 2, 1, 12, s)?;
    Some((Field::Month(month as u8), s))
}

fn day(s: &[u8]) -> Option<(Field, &[u8])>
    ensures { read_view result ≡ Directives.gives (Text.within 1 2 1 31 s.now) field.Day }
{
    let (day, s) = within(1, 2, 1, 31, s)?;
    Some((Field::Day(day as u8), s))
}

fn hour(s: &[u8]) -> Option<(Field, &[u8])>
    ensures { read_view result ≡ Directives.gives (Text.within 1 2 0 23 s.now) (λ n. field.Hour (OfDay n)) }
{
    let (hour, s) = within(1, 2, 0, 23, s)?;
    Some((Field::Hour(Hour::OfDay(hour as u8)), s))
}

fn half_day_hour(s: &[u8]) -> Option<(Field, &[u8])>
    ensures { read_view result ≡ Directives.gives (Text.within 1 2 1 12 s.now) (λ n. field.Hour (OfHalfDay n)) }
{
    let (hour, s) = within(1, 2, 1, 12, s)?;
    Some((Field::Hour(Hour::OfHalfDay(hour as u8)), s))
}

fn minute(s: &[u8]) -> Option<(Field, &[u8])>
    ensures { read_view result ≡ Directives.gives (Text.within 1 2 0 59 s.now) field.Minute }
{
    let (minute, s) = within(1, 2, 0, 59, s)?;
    Some((Field::Minute(minute as u8), s))
}

/// A leap second counts as the one before.
fn second(s: &[u8]) -> Option<(Field, &[u8])>
    ensures { read_view result ≡ Directives.gives (Text.within 1 2 0 60 s.now) (λ n. field.Second (min n 59)) }
{
    let (second, s) = within(1, 2, 0, 60, s)?;
    Some((Field::Second(second.min(59) as u8), s))
}

fn day_of_year(s: &[u8]) -> Option<(Field, &[u8])>
    ensures { read_view result ≡ Directives.gives (Text.within 1 3 1 366 s.now) field.DayOfYear }
{
    let (day, s) = within(1, 3, 1, 366, s)?;
    Some((Field::DayOfYear(day), s))
}

fn month_name(s: &[u8]) -> Option<(Field, &[u8])>
    ensures { read_view result ≡ Directives.gives (Names.month s.now) field.Month }
{
    let (month, s) = month(s)?;
    Some((Field::Month(month), s))
}

/// It is not held against the date.
fn weekday_name(s: &[u8]) -> Option<(Field, &[u8])>
    ensures { read_view result ≡ Directives.gives (Names.weekday s.now) (λ n. field.Nothing) }
{
    let (_, s) = weekday(s)?;
    Some((Field::Nothing, s))
}

#[tactic(auto, unfolding(crate::specs::Directives::half_day))]
fn half_day(s: &[u8]) -> Option<(Field, &[u8])>
    ensures { read_view result ≡ Directives.half_day s.now }
{
    if let Some(s) = behind_name(b"am", s) {
        return Some((Field::Afternoon(false), s));
    }
    let s = behind_name(b"pm", s)?;
    Some((Field::Afternoon(true), s))
}

fn epoch(s: &[u8]) -> Option<(Field, &[u8])>
    ensures value { read_view result ≡ Directives.gives (Text.number 1 11 s.now) field.Epoch }
{
    let (seconds, s) = number(1, 11, s)?;
    Some((Field::Epoch(seconds), s))
}

fn micros(least: u8, most: u8, s: &[u8]) -> Option<(Field, &[u8])>
    requires { most ≤ 9 }
    ensures { read_view result ≡ Directives.gives (Text.fraction least most s.now) field.Micros }
{
    let (micros, s) = fraction(least, most, s)?;
    Some((Field::Micros(micros), s))
}

/// `Z`, or a sign and hours.
#[tactic(auto, unfolding(crate::specs::Directives::offset))]
pub(crate) fn offset(s: &[u8]) -> Option<(Field, &[u8])>
    ensures { read_view result ≡ Directives.offset s.now }
{
    match s {
        [b'Z', rest @ ..] => Some((Field::Offset(0), rest)),
        [_, ..] => signed_offset(s),
        [] => None,
    }
}

/// A sign and hours.
#[tactic(auto, unfolding(crate::specs::Directives::signed_offset))]
pub(crate) fn signed_offset(s: &[u8]) -> Option<(Field, &[u8])>
    ensures { read_view result ≡ Directives.signed_offset s.now }
{
    match s {
        [b'+', rest @ ..] => {
            let (seconds, rest) = hours(rest)?;
            Some((Field::Offset(seconds as i32), rest))
        }
        [b'-', rest @ ..] => {
            let (seconds, rest) = hours(rest)?;
            Some((Field::Offset(-(seconds as i32)), rest))
        }
        _ => None,
    }
}

/// The seconds of two digits up to 23, a colon or none, and two digits up to 59.
#[tactic(auto, unfolding(crate::specs::Directives::hours))]
fn hours(s: &[u8]) -> Option<(u32, &[u8])>
    ensures value { read_view result ≡ Directives.hours s.now }
    ensures bound { IfSome result (λ p. p.0 < 86_400) }
{
    let (hours, s) = within(2, 2, 0, 23, s)?;
    let (minutes, s) = within(2, 2, 0, 59, skip_colon(s))?;
    Some((u32::from(hours) * 3600 + u32::from(minutes) * 60, s))
}

#[tactic(auto, unfolding(crate::specs::Directives::skip_colon))]
fn skip_colon(s: &[u8]) -> &[u8]
    ensures { result.now ≡ Directives.skip_colon s.now }
{
    match s {
        [b':', rest @ ..] => rest,
        _ => s,
    }
}

/// `UTC`, `GMT` or `Z`.
#[tactic(auto, unfolding(crate::specs::Directives::zone_name))]
fn zone_name(s: &[u8]) -> Option<(Field, &[u8])>
    ensures { read_view result ≡ Directives.zone_name s.now }
{
    let rest = match behind_all(b"UTC", s) {
        Some(rest) => rest,
        None => match behind_all(b"GMT", s) {
            Some(rest) => rest,
            None => behind_all(b"Z", s)?,
        },
    };
    Some((Field::Offset(0), rest))
}

/// The text behind these bytes.
#[tactic(auto, unfolding(crate::specs::Directives::behind_all))]
fn behind_all<'a>(bytes: &[u8], s: &'a [u8]) -> Option<&'a [u8]>
    ensures { rest_view result ≡ Directives.behind_all bytes.now s.now }
{
    let [byte, bytes @ ..] = bytes else {
        return Some(s);
    };
    behind_all(bytes, behind(*byte, s)?)
}
