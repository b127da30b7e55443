//! A date and a time of day on some clock, and the calendar library's form of them. What reads
//! times makes them.

ghost use Rattle.std.specs.Prelude.{◌≡◌, ◌≤◌, ◌*ℤ◌, IsSome, IfSome, ◌↔◌, IsTrue, pos};
ghost use Rattle.jiff_core.specs.Calendar.{days_from_civil};
ghost use Rattle.jiff_core.specs.Date.{epoch_day};
ghost use Rattle.jiff_core.specs.DateTime.{civil_nanos};
ghost use Rattle.ix_dates.specs.Civil.{day_number, exists, has_date, has_day, has_ordinal, ordinal_number, wall_micros};

use jiff_core::civil;

/// A day of a year, as a text may name it. It need not exist.
#[derive(Clone, Copy, Debug, PartialEq, Eq)]
pub enum YearDay {
    /// A month and a day of it, each from 1.
    InMonth { month: u8, day: u8 },
    /// A day of the year, from 1.
    Ordinal(u16),
}

/// A date and a time of day, to the microsecond. It need not exist.
#[derive(Clone, Copy, Debug, PartialEq, Eq)]
pub struct CivilTime {
    /// From 0 to 9999.
    pub year: u16,
    pub date: YearDay,
    /// From 0 to 23.
    pub hour: u8,
    /// From 0 to 59.
    pub minute: u8,
    /// From 0 to 59.
    pub second: u8,
    /// From 0 to 999,999.
    pub micros: u32,
}

/// The date of that day in the year, if there is one.
fn date_in(year: u16, date: YearDay) -> Option<civil::Date>
    ensures there { IsSome result ↔ IsTrue (has_day year date) }
    ensures year { IfSome result (λ d. d.year ≡ pos year) }
    ensures number { IfSome result (λ d. epoch_day d ≡ day_number (pos year) date) }
{
    if year > 9999 {
        return None;
    }
    match date {
        YearDay::InMonth { month, day } => in_month(year, month, day),
        YearDay::Ordinal(number) => on_ordinal(year, number),
    }
}

fn in_month(year: u16, month: u8, day: u8) -> Option<civil::Date>
    requires { year ≤ 9999 }
    ensures there { IsSome result ↔ IsTrue (has_date year month day) }
    ensures year { IfSome result (λ d. d.year ≡ pos year) }
    ensures number { IfSome result (λ d. epoch_day d ≡ days_from_civil (pos year) month day) }
{
    if month < 1 || month > 12 || day < 1 {
        return None;
    }
    let year = year as i16;
    if day > civil::days_in_month(year, month) {
        return None;
    }
    Some(civil::Date { year, month, day })
}

fn on_ordinal(year: u16, number: u16) -> Option<civil::Date>
    requires { year ≤ 9999 }
    ensures there { IsSome result ↔ IsTrue (has_ordinal year number) }
    ensures year { IfSome result (λ d. d.year ≡ pos year) }
    ensures number { IfSome result (λ d. epoch_day d ≡ ordinal_number (pos year) number) }
{
    if number < 1 || number > 366 {
        return None;
    }
    match civil::Date::from_day_of_year(year as i16, number as i16) {
        Ok(date) => Some(date),
        Err(_) => None,
    }
}

impl CivilTime {
    /// The calendar library's form of it, if there are such a date and time.
    pub(crate) fn to_jiff(self) -> Option<civil::DateTime>
        ensures there { IsSome result ↔ IsTrue (exists self) }
        ensures year { IfSome result (λ dt. dt.date.year ≡ pos self.year) }
        ensures nanos { IfSome result (λ dt. civil_nanos dt ≡ wall_micros self *ℤ pos 1000) }
    {
        let date = date_in(self.year, self.date)?;
        if self.hour > 23 || self.minute > 59 || self.second > 59 || self.micros > 999_999 {
            return None;
        }
        let time = civil::Time {
            hour: self.hour,
            minute: self.minute,
            second: self.second,
            subsec_nanosecond: self.micros * 1000,
        };
        Some(civil::DateTime { date, time })
    }
}
