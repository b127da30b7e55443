//! Whether a text has a date, and the time of an event. A channel makes a reader for the lines and
//! events of a block.

ghost use Rattle.std.specs.Prelude.{◌≡◌, ◌≤ℤ◌, IfOk, IsOk, None, pos, is_some};
ghost use Rattle.jiff_tz.specs.PosixText.{tz_view};
ghost use Rattle.ix_base.specs.Clocks.{clamped as clamped_moment};
ghost use Rattle.ix_time.specs.Times as Times;

use crate::chosen::{TimeFound, settle};
use crate::instants::by_format;
use crate::scan::first_time;
use crate::window::{finder_of, place_of, window};
use ix_base::{NoMemory, clamped};
use ix_match::Regex;
use ix_props::{TimeFormat, TimeSettings};
use jiff_tz::posix;
use std::alloc::Global;
use std::marker::Model;

/// A moment brought between 1970 and 2100.
fn arrival_of(moment: i64) -> i64
    ensures is { result ≡ clamped_moment moment }
    ensures low { pos 0 ≤ℤ result }
    ensures high { result ≤ℤ pos 4_102_444_800_000_000 }
{
    clamped(moment)
}

/// What reads in a window: by the format at its front, or the first time in it.
fn read_in(
    zone: &posix::TimeZone,
    arrival: i64,
    format: &Option<TimeFormat>,
    window: &[u8],
) -> Option<i64>
    requires low { pos 0 ≤ℤ arrival }
    requires high { arrival ≤ℤ pos 4_102_444_800_000_000 }
    ensures { result ≡ Times.read_in (tz_view zone.now) arrival format.now window.now }
{
    match format {
        Some(format) => by_format(zone, arrival, format.as_slice(), window),
        None => first_time(zone, arrival, window),
    }
}

/// Reads dates and times by the settings of a channel. Its prefix is written out once for all
/// texts. Contracts see the settings.
pub struct TimeReader<'a> {
    settings: &'a TimeSettings,
    prefix: Option<Regex>,
}

/// It is written out, so that each place where one is let go is a call of it, which is proved once.
impl Drop for TimeReader<'_> {
    fn drop(self) {
        let TimeReader {
            settings: _,
            prefix: _,
        } = self;
    }
}

impl<'a> Model for TimeReader<'a> {
    ghost use Rattle.std.specs.Prelude.{◌≡◌};
    ghost use Rattle.ix_props.specs.declared.settings.TimeSettings.{TimeSettings};

    ghost Value = { TimeSettings };

    ghost view = { λ r. r.settings.now };

    ghost invariant = { λ r. r.prefix ≡ r.settings.now.prefix };
}

impl<'a> TimeReader<'a> {
    /// A reader by these settings. Only a prefix takes memory.
    pub fn new(alloc: Global, settings: &'a TimeSettings) -> Result<TimeReader<'a>, NoMemory>
        ensures value { IfOk result (λ reader. reader ≡ settings.entry.now) }
        ensures plain { settings.entry.now.prefix ≡ None → IsOk result }
    {
        let prefix = finder_of(alloc, &settings.prefix)?;
        Ok(TimeReader { settings, prefix })
    }

    /// The instant that a text says, for an event that arrived at this moment.
    #[tactic(auto, unfolding(crate::specs::Times::read))]
    fn read(&self, alloc: Global, text: &[u8], moment: i64) -> Result<Option<i64>, NoMemory>
        ensures value { IfOk result (λ time. time ≡ Times.read self.now text.now moment) }
        ensures plain { self.now.prefix ≡ None → IsOk result }
    {
        let Some(place) = place_of(alloc, &self.prefix, text)? else {
            return Ok(None);
        };
        let settings = self.settings;
        let zone = settings.zone.parsed();
        let window = window(settings.lookahead, text, place);
        Ok(read_in(&zone, arrival_of(moment), &settings.format, window))
    }

    /// Whether a date reads in a line that arrived at this moment, which is first brought between
    /// 1970 and 2100. The limits of age are of no account. Only the search for a prefix takes
    /// memory.
    pub fn has_date(&self, alloc: Global, line: &[u8], moment: i64) -> Result<bool, NoMemory>
        ensures value { IfOk result (λ has. has ≡ is_some (Times.read self.now line.now moment)) }
        ensures plain { self.now.prefix ≡ None → IsOk result }
    {
        Ok(self.read(alloc, line, moment)?.is_some())
    }

    /// The time of an event, and where it comes from: the instant that its text says, where that is
    /// at most so many days before and after the arrival as the settings say; else the last one;
    /// else the arrival. `last` is the time of the latest earlier event of the same stream that was
    /// read and accepted. The arrival is first brought between 1970 and 2100. Only the search for a
    /// prefix takes memory.
    #[tactic(auto, unfolding(crate::specs::Times::time))]
    pub fn time_of(
        &self,
        alloc: Global,
        raw: &[u8],
        arrival: i64,
        last: Option<i64>,
    ) -> Result<TimeFound, NoMemory>
        ensures value { IfOk result (λ found. found ≡ Times.time self.now raw.now arrival last) }
        ensures plain { self.now.prefix ≡ None → IsOk result }
    {
        let read = self.read(alloc, raw, arrival)?;
        let arrival = arrival_of(arrival);
        let settings = self.settings;
        Ok(settle(read, arrival, settings.days_ago, settings.days_hence, last))
    }
}

/// Whether a date reads in a line that arrived at this moment, which is first brought between 1970
/// and 2100. The limits of age are of no account. Only the search for a prefix takes memory. Who
/// asks it of many lines makes a `TimeReader`.
pub fn has_date(
    alloc: Global,
    settings: &TimeSettings,
    line: &[u8],
    moment: i64,
) -> Result<bool, NoMemory>
    ensures value { IfOk result (λ has. has ≡ is_some (Times.read settings.now line.now moment)) }
    ensures plain { settings.now.prefix ≡ None → IsOk result }
{
    let reader = TimeReader::new(alloc, settings)?;
    let has = reader.has_date(alloc, line, moment)?;
    Ok(has)
}

/// The time of an event, and where it comes from: the instant that its text says, where that is at
/// most so many days before and after the arrival as the settings say; else the last one; else the
/// arrival. `last` is the time of the latest earlier event of the same stream that was read and
/// accepted. The arrival is first brought between 1970 and 2100. Only the search for a prefix takes
/// memory. Who asks it of many events makes a `TimeReader`.
pub fn time_of(
    alloc: Global,
    settings: &TimeSettings,
    raw: &[u8],
    arrival: i64,
    last: Option<i64>,
) -> Result<TimeFound, NoMemory>
    ensures value { IfOk result (λ found. found ≡ Times.time settings.now raw.now arrival last) }
    ensures plain { settings.now.prefix ≡ None → IsOk result }
{
    let reader = TimeReader::new(alloc, settings)?;
    let found = reader.time_of(alloc, raw, arrival, last)?;
    Ok(found)
}
