//! Formats of times: what is read, piece by piece, from the left to the right.

ghost use Rattle.std.specs.Prelude.{◌≡◌, ◌++◌, IfOk, IfErr, OnOk, Some, None, is_some};
ghost use Rattle.std.specs.Option.{option_map};
ghost use Rattle.std.specs.List.{list_any};
ghost use Rattle.ix_conf_values.specs.Formats as Formats;
ghost use Rattle.ix_conf_values.specs.Formats.{RefusesFormat};

use ix_base::NoMemory;
use std::alloc::{AllocError, Global};
use std::marker::Model;
use thiserror::Error;

/// One piece of a format, and what it reads. Names are English and read in either case.
#[derive(Clone, Copy, Debug, PartialEq, Eq)]
pub enum Directive {
    /// `%Y`: a year of four digits.
    Year,
    /// `%y`: two digits; 69 to 99 is 19xx, any other 20xx.
    YearOfCentury,
    /// `%m`: a month, one or two digits.
    Month,
    /// `%d`: a day of the month, one or two digits.
    Day,
    /// `%e`: the same.
    PaddedDay,
    /// `%H`: an hour from 0 to 23, one or two digits.
    Hour,
    /// `%I`: an hour from 1 to 12, one or two digits.
    HalfDayHour,
    /// `%M`: a minute, one or two digits.
    Minute,
    /// `%S`: a second from 0 to 60, one or two digits.
    Second,
    /// `%j`: a day of the year, one to three digits.
    DayOfYear,
    /// `%b`: the name of a month, whole or its first three letters.
    ShortMonthName,
    /// `%B`: the same.
    MonthName,
    /// `%a`: the name of a weekday, whole or its first three letters.
    ShortWeekdayName,
    /// `%A`: the same.
    WeekdayName,
    /// `%p`: `AM` or `PM`.
    HalfDay,
    /// `%s`: seconds since 1970, 1 to 11 digits.
    Epoch,
    /// `%N`: a fraction of a second, 1 to 9 digits.
    Fraction,
    /// `%3N`: a fraction of exactly 3 digits.
    Millis,
    /// `%6N`: a fraction of exactly 6 digits.
    Micros,
    /// `%9N`: a fraction of exactly 9 digits.
    Nanos,
    /// `%z`: `Z`, or a sign, two digits of hours, a colon or none, and two of minutes.
    Offset,
    /// `%Z`: `UTC`, `GMT` or `Z`.
    ZoneName,
    /// Any run of white space, also none.
    Space,
    /// This byte.
    Byte(u8),
}

/// Why a text is no format.
#[derive(Clone, Copy, Debug, PartialEq, Eq, Error)]
pub enum FormatFault {
    /// A directive is not known, or the format names no day: it has neither seconds since 1970, nor
    /// a month with a day, nor a day of the year.
    #[error("the text is no format of a time with a day")]
    BadValue,
    /// There was no room in memory.
    #[error("there was no room in memory")]
    NoMemory,
}

impl From<AllocError> for FormatFault {
    ghost use Rattle.std.specs.Prelude.{◌≡◌};
    ghost use Rattle.ix_conf_values.specs.declared.formats.FormatFault.TheVariants.{NoMemory as no_memory};

    ghost from_gives = { λ _ fault. fault ≡ no_memory };

    fn from(_: AllocError) -> FormatFault {
        FormatFault::NoMemory
    }
}

/// Where in a format a reader is: behind what stands there.
#[derive(Clone, Copy)]
pub(crate) enum Place {
    Plain,
    InSpace,
    Percent,
    /// A percent sign and this digit.
    Width(u8),
}

/// What one byte of a format adds.
#[derive(Clone, Copy)]
pub(crate) enum Added {
    Nothing,
    One(Directive),
    Clock,
    Date,
}

/// `%H:%M:%S`
const CLOCK: [Directive; 5] = [
    Directive::Hour,
    Directive::Byte(b':'),
    Directive::Minute,
    Directive::Byte(b':'),
    Directive::Second,
];

/// `%Y-%m-%d`
const DATE: [Directive; 5] = [
    Directive::Year,
    Directive::Byte(b'-'),
    Directive::Month,
    Directive::Byte(b'-'),
    Directive::Day,
];

/// What a byte behind a percent sign stands for.
fn directive_of(byte: u8) -> Option<Added>
    ensures { option_map Formats.added_list result ≡ Formats.directive_of byte }
{
    let directive = match byte {
        b'Y' => Directive::Year,
        b'y' => Directive::YearOfCentury,
        b'm' => Directive::Month,
        b'd' => Directive::Day,
        b'e' => Directive::PaddedDay,
        b'H' => Directive::Hour,
        b'I' => Directive::HalfDayHour,
        b'M' => Directive::Minute,
        b'S' => Directive::Second,
        b'j' => Directive::DayOfYear,
        b'b' => Directive::ShortMonthName,
        b'B' => Directive::MonthName,
        b'a' => Directive::ShortWeekdayName,
        b'A' => Directive::WeekdayName,
        b'p' => Directive::HalfDay,
        b's' => Directive::Epoch,
        b'N' => Directive::Fraction,
        b'z' => Directive::Offset,
        b'Z' => Directive::ZoneName,
        b'%' => Directive::Byte(b'%'),
        b'T' => return Some(Added::Clock),
        b'F' => return Some(Added::Date),
        _ => return None,
    };
    Some(Added::One(directive))
}

fn is_space(byte: u8) -> bool
    ensures { result ≡ Formats.is_space byte }
{
    (9 <= byte && byte <= 13) || byte == b' '
}

fn is_width(byte: u8) -> bool
    ensures { result ≡ Formats.is_width byte }
{
    byte == b'3' || byte == b'6' || byte == b'9'
}

fn fraction(digits: u8) -> Directive
    ensures { result ≡ Formats.fraction digits }
{
    match digits {
        b'3' => Directive::Millis,
        b'6' => Directive::Micros,
        _ => Directive::Nanos,
    }
}

/// What a byte outside a directive adds. White space adds nothing where there is white space before
/// it.
#[tactic(auto, unfolding(crate::specs::Formats::step))]
fn step(place: Place, byte: u8) -> Option<(Place, Added)>
    ensures { option_map (λ s. (s.0, Formats.added_list s.1)) result ≡ Formats.step place byte }
{
    match place {
        Place::Percent if is_width(byte) => Some((Place::Width(byte), Added::Nothing)),
        Place::Percent => Some((Place::Plain, directive_of(byte)?)),
        Place::Width(digits) if byte == b'N' => Some((Place::Plain, Added::One(fraction(digits)))),
        Place::Width(_) => None,
        Place::InSpace if is_space(byte) => Some((Place::InSpace, Added::Nothing)),
        _ if is_space(byte) => Some((Place::InSpace, Added::One(Directive::Space))),
        _ if byte == b'%' => Some((Place::Percent, Added::Nothing)),
        _ => Some((Place::Plain, Added::One(Directive::Byte(byte)))),
    }
}

fn add(found: &mut Vec<Directive>, added: Added) -> Result<(), AllocError>
    ensures { OnOk result (found.new.items ≡ found.old.items ++ Formats.added_list added) }
{
    match added {
        Added::Nothing => {}
        Added::One(directive) => {
            found.push(directive)?;
        }
        Added::Clock => found.extend_from_slice(&CLOCK)?,
        Added::Date => found.extend_from_slice(&DATE)?,
    }
    Ok(())
}

/// Whether a format may end there.
fn is_ended(place: Place) -> bool
    ensures { result ≡ is_some (Formats.at_end place) }
{
    matches!(place, Place::Plain | Place::InSpace)
}

/// The directives of a format.
fn read_directives(alloc: Global, text: &[u8]) -> Result<Vec<Directive>, FormatFault>
    ensures value { IfOk result (λ found. Formats.directives_of text.now ≡ Some found.items) }
    ensures bad { result ≡ Err FormatFault.BadValue → Formats.directives_of text.now ≡ None }
{
    let mut found = Vec::new(alloc);
    let mut place = Place::Plain;
    for byte in text {
        let Some((next, added)) = step(place, *byte) else {
            return Err(FormatFault::BadValue);
        };
        let Ok(()) = add(&mut found, added) else {
            return Err(FormatFault::NoMemory);
        };
        place = next;
    }
    if is_ended(place) {
        Ok(found)
    } else {
        Err(FormatFault::BadValue)
    }
}

fn is_epoch(directive: Directive) -> bool
    ensures { result ≡ Formats.is_epoch directive }
{
    matches!(directive, Directive::Epoch)
}

fn is_day_of_year(directive: Directive) -> bool
    ensures { result ≡ Formats.is_day_of_year directive }
{
    matches!(directive, Directive::DayOfYear)
}

fn is_month(directive: Directive) -> bool
    ensures { result ≡ Formats.is_month directive }
{
    matches!(
        directive,
        Directive::Month | Directive::ShortMonthName | Directive::MonthName
    )
}

fn is_day(directive: Directive) -> bool
    ensures { result ≡ Formats.is_day directive }
{
    matches!(directive, Directive::Day | Directive::PaddedDay)
}

fn has_epoch(found: &[Directive]) -> bool
    ensures { result ≡ list_any Formats.is_epoch found.now }
{
    found.iter().any(|d| is_epoch(*d))
}

fn has_day_of_year(found: &[Directive]) -> bool
    ensures { result ≡ list_any Formats.is_day_of_year found.now }
{
    found.iter().any(|d| is_day_of_year(*d))
}

fn has_month(found: &[Directive]) -> bool
    ensures { result ≡ list_any Formats.is_month found.now }
{
    found.iter().any(|d| is_month(*d))
}

fn has_day(found: &[Directive]) -> bool
    ensures { result ≡ list_any Formats.is_day found.now }
{
    found.iter().any(|d| is_day(*d))
}

/// Whether a format names a day.
fn names_day(found: &[Directive]) -> bool
    ensures { result ≡ Formats.names_day found.now }
{
    has_epoch(found) | has_day_of_year(found) | (has_month(found) & has_day(found))
}

/// A format of times. Contracts see it as the list of its pieces.
#[derive(Drop)]
pub struct TimeFormat {
    directives: Vec<Directive>,
}

impl Model for TimeFormat {
    ghost use Rattle.std.specs.Prelude.{List};
    ghost use Rattle.ix_conf_values.specs.declared.formats.Directive.{Directive as Piece};

    ghost Value = { List Piece };

    ghost view = { λ f. f.directives.items };
}

impl TimeFormat {
    /// Reads a format. `%T` stands for `%H:%M:%S`, `%F` for `%Y-%m-%d`, `%%` for a percent sign.
    ///
    /// `BadValue` comes exactly where a directive is not known, or the format names no day.
    pub fn read(alloc: Global, text: &[u8]) -> Result<TimeFormat, FormatFault>
        ensures ok { IfOk result (λ format. Formats.format text.now ≡ Some format) }
        ensures err { IfErr result (λ fault. RefusesFormat text.now fault) }
    {
        let directives = read_directives(alloc, text)?;
        if names_day(&directives) {
            Ok(TimeFormat { directives })
        } else {
            Err(FormatFault::BadValue)
        }
    }

    /// The pieces, the first one first.
    pub fn as_slice(&self) -> &[Directive]
        ensures { result.now ≡ self.now }
    {
        self.directives.as_slice()
    }

    /// A copy of it.
    pub fn copy(&self) -> Result<TimeFormat, NoMemory>
        ensures { IfOk result (λ copy. copy ≡ self.now) }
    {
        let directives = self.directives.to_vec(*self.directives.allocator())?;
        Ok(TimeFormat { directives })
    }
}
