//! What a text says of a time, field by field.

ghost use Rattle.std.specs.Prelude.{◌≡◌};
ghost use Rattle.ix_dates.specs.Fields.{set};

/// An hour, as a text may count it.
#[derive(Clone, Copy, Debug, PartialEq, Eq)]
pub enum Hour {
    /// From 0 to 23.
    OfDay(u8),
    /// From 1 to 12.
    OfHalfDay(u8),
}

/// What one piece of a format reads.
#[derive(Clone, Copy)]
pub(crate) enum Field {
    /// Nothing that counts: white space, a weekday, a byte of the format.
    Nothing,
    /// From 0 to 9999.
    Year(u16),
    /// From 1 to 12.
    Month(u8),
    /// From 1 to 31.
    Day(u8),
    /// From 1 to 366.
    DayOfYear(u16),
    Hour(Hour),
    /// `PM`, and not `AM`.
    Afternoon(bool),
    /// From 0 to 59.
    Minute(u8),
    /// From 0 to 59.
    Second(u8),
    /// The fraction of a second, in microseconds.
    Micros(u32),
    /// Seconds since 1970-01-01T00:00:00Z.
    Epoch(u64),
    /// Seconds by which the clock is ahead of UTC.
    Offset(i32),
}

/// The fields of a text: of each kind the last that was read.
#[derive(Clone, Copy, Debug, PartialEq, Eq)]
pub struct Fields {
    pub year: Option<u16>,
    pub month: Option<u8>,
    pub day: Option<u8>,
    pub day_of_year: Option<u16>,
    pub hour: Option<Hour>,
    pub afternoon: Option<bool>,
    pub minute: Option<u8>,
    pub second: Option<u8>,
    pub micros: Option<u32>,
    pub epoch: Option<u64>,
    pub offset: Option<i32>,
}

impl Fields {
    /// No field yet.
    pub const NONE: Fields = Fields {
        year: None,
        month: None,
        day: None,
        day_of_year: None,
        hour: None,
        afternoon: None,
        minute: None,
        second: None,
        micros: None,
        epoch: None,
        offset: None,
    };

    /// The fields with this one, in place of an earlier one of its kind.
    pub(crate) fn with(mut self, field: Field) -> Fields
        ensures { result ≡ set self field }
    {
        match field {
            Field::Nothing => {}
            Field::Year(year) => self.year = Some(year),
            Field::Month(month) => self.month = Some(month),
            Field::Day(day) => self.day = Some(day),
            Field::DayOfYear(day) => self.day_of_year = Some(day),
            Field::Hour(hour) => self.hour = Some(hour),
            Field::Afternoon(afternoon) => self.afternoon = Some(afternoon),
            Field::Minute(minute) => self.minute = Some(minute),
            Field::Second(second) => self.second = Some(second),
            Field::Micros(micros) => self.micros = Some(micros),
            Field::Epoch(epoch) => self.epoch = Some(epoch),
            Field::Offset(offset) => self.offset = Some(offset),
        }
        self
    }
}
