//! The settings of one channel.

ghost use Rattle.std.specs.Prelude.{◌≡◌, ◌++◌, None, IfOk, OnOk};
ghost use Rattle.std.specs.Option.{option_copied};

use crate::classes::add_transforms;
use crate::zones::Zone;
use ix_base::{Bytes, NoMemory, Sequence};
use ix_conf_values::{Sed, SedList, TimeFormat, TransformList};
use ix_pattern::Pattern;
use std::alloc::Global;

/// How lines are merged to events.
pub struct MergeSettings {
    /// `SHOULD_LINEMERGE`: lines are merged. Otherwise each line is an event.
    pub on: bool,
    /// `BREAK_ONLY_BEFORE_DATE`: a line with a date starts an event.
    pub before_date: bool,
    /// `BREAK_ONLY_BEFORE`: a line that matches starts an event.
    pub before: Option<Pattern>,
    /// `MUST_BREAK_AFTER`: the line behind one that matches starts an event.
    pub break_after: Option<Pattern>,
    /// `MUST_NOT_BREAK_AFTER`: behind a line that matches no event starts until one that matches
    /// `break_after`.
    pub hold_after: Option<Pattern>,
    /// `MUST_NOT_BREAK_BEFORE`: a line that matches starts no event.
    pub veto: Option<Pattern>,
    /// `MAX_EVENTS`: how many lines an event has at the most, 1 to 1,000,000.
    pub max_lines: u32,
}

impl Drop for MergeSettings {
    fn drop(self) {
        let MergeSettings {
            on: _,
            before_date: _,
            before: _,
            break_after: _,
            hold_after: _,
            veto: _,
            max_lines: _,
        } = self;
    }
}

/// How the time of an event is read.
pub struct TimeSettings {
    /// `TIME_PREFIX`: the time stands behind its first match.
    pub prefix: Option<Pattern>,
    /// `TIME_FORMAT`: how the time is written.
    pub format: Option<TimeFormat>,
    /// `MAX_TIMESTAMP_LOOKAHEAD`: in how many bytes the time is looked for, up to 1,048,576; `None`
    /// for all of them.
    pub lookahead: Option<u32>,
    /// `TZ`: the zone of a time that names none.
    pub zone: Zone,
    /// `MAX_DAYS_AGO`: how many days before the arrival a time may lie, up to 10,951.
    pub days_ago: u32,
    /// `MAX_DAYS_HENCE`: how many days behind the arrival a time may lie, up to 10,950.
    pub days_hence: u32,
}

impl Drop for TimeSettings {
    fn drop(self) {
        let TimeSettings {
            prefix: _,
            format: _,
            lookahead: _,
            zone: _,
            days_ago: _,
            days_hence: _,
        } = self;
    }
}

/// All settings of a channel.
pub struct Settings {
    /// The source type that holds: the stated one, else that of the source's stanzas, else
    /// `unknown`.
    pub sourcetype: Bytes,
    /// `LINE_BREAKER`: what stands between lines. It has a capturing group and takes at least one
    /// byte.
    pub breaker: Pattern,
    /// `TRUNCATE`: how many bytes a line has at the most. 0 stands for no such bound.
    pub truncate: u32,
    pub merge: MergeSettings,
    pub time: TimeSettings,
    /// What the `SEDCMD-` classes change, in the order of the classes.
    pub seds: SedList,
    /// The transforms of the `TRANSFORMS-` classes, in the order of the classes.
    pub transforms: TransformList,
}

/// It is written out, so that each place where one is let go is a call of it, which is proved once.
impl Drop for Settings {
    fn drop(self) {
        let Settings {
            sourcetype: _,
            breaker: _,
            truncate: _,
            merge: _,
            time: _,
            seds: _,
            transforms: _,
        } = self;
    }
}

fn copy_pattern(pattern: Option<&Pattern>) -> Result<Option<Pattern>, NoMemory>
    ensures { IfOk result (λ copy. copy ≡ option_copied pattern.entry) }
{
    match pattern {
        Some(pattern) => Ok(Some(pattern.copy()?)),
        None => Ok(None),
    }
}

fn copy_format(format: Option<&TimeFormat>) -> Result<Option<TimeFormat>, NoMemory>
    ensures { IfOk result (λ copy. copy ≡ option_copied format.entry) }
{
    match format {
        Some(format) => Ok(Some(format.copy()?)),
        None => Ok(None),
    }
}

/// Puts a copy of a pattern there, where there is one.
fn put_pattern(place: &mut Option<Pattern>, pattern: Option<&Pattern>) -> Result<(), NoMemory>
    ensures { OnOk result (place.new ≡ option_copied pattern.entry) }
{
    *place = copy_pattern(pattern)?;
    Ok(())
}

fn put_format(place: &mut Option<TimeFormat>, format: Option<&TimeFormat>) -> Result<(), NoMemory>
    ensures { OnOk result (place.new ≡ option_copied format.entry) }
{
    *place = copy_format(format)?;
    Ok(())
}

fn add_seds(alloc: Global, list: &mut SedList, seds: &[Sed]) -> Result<(), NoMemory>
    ensures { OnOk result (list.new ≡ list.old ++ seds.now) }
{
    for sed in seds {
        list.push(sed.copy(alloc)?)?;
    }
    Ok(())
}

impl MergeSettings {
    /// Settings without a pattern. The patterns are put there one by one, so that what was made so
    /// far is let go by one call.
    pub(crate) fn plain(on: bool, before_date: bool, max_lines: u32) -> MergeSettings
        ensures { result ≡ record {
          on = on;
          before_date = before_date;
          before = None;
          break_after = None;
          hold_after = None;
          veto = None;
          max_lines = max_lines;
        } }
    {
        MergeSettings {
            on,
            before_date,
            before: None,
            break_after: None,
            hold_after: None,
            veto: None,
            max_lines,
        }
    }

    /// Puts copies of the patterns there that there are.
    pub(crate) fn put_patterns(
        &mut self,
        before: Option<&Pattern>,
        break_after: Option<&Pattern>,
        hold_after: Option<&Pattern>,
        veto: Option<&Pattern>,
    ) -> Result<(), NoMemory>
        ensures { OnOk result (self.new ≡ record self.old {
          before = option_copied before.entry;
          break_after = option_copied break_after.entry;
          hold_after = option_copied hold_after.entry;
          veto = option_copied veto.entry;
        }) }
    {
        put_pattern(&mut self.before, before)?;
        put_pattern(&mut self.break_after, break_after)?;
        put_pattern(&mut self.hold_after, hold_after)?;
        put_pattern(&mut self.veto, veto)?;
        Ok(())
    }

    /// A copy of them.
    pub fn copy(&self) -> Result<MergeSettings, NoMemory>
        ensures { IfOk result (λ copy. copy ≡ self.now) }
    {
        let mut copy = MergeSettings::plain(self.on, self.before_date, self.max_lines);
        copy.put_patterns(
            self.before.as_ref(),
            self.break_after.as_ref(),
            self.hold_after.as_ref(),
            self.veto.as_ref(),
        )?;
        Ok(copy)
    }
}

impl TimeSettings {
    /// Puts copies of this pattern and this format there, where there are some.
    pub(crate) fn put_forms(
        &mut self,
        prefix: Option<&Pattern>,
        format: Option<&TimeFormat>,
    ) -> Result<(), NoMemory>
        ensures { OnOk result (self.new ≡ record self.old { prefix = option_copied prefix.entry; format = option_copied format.entry }) }
    {
        put_pattern(&mut self.prefix, prefix)?;
        put_format(&mut self.format, format)?;
        Ok(())
    }

    /// A copy of them.
    pub fn copy(&self) -> Result<TimeSettings, NoMemory>
        ensures { IfOk result (λ copy. copy ≡ self.now) }
    {
        let mut copy = TimeSettings {
            prefix: None,
            format: None,
            lookahead: self.lookahead,
            zone: self.zone.copy()?,
            days_ago: self.days_ago,
            days_hence: self.days_hence,
        };
        copy.put_forms(self.prefix.as_ref(), self.format.as_ref())?;
        Ok(copy)
    }
}

impl Settings {
    /// A copy of them.
    pub fn copy(&self, alloc: Global) -> Result<Settings, NoMemory>
        ensures { IfOk result (λ copy. copy ≡ self.now) }
    {
        let merge = self.merge.copy()?;
        let time = self.time.copy()?;
        let sourcetype = self.sourcetype.copy()?;
        let breaker = self.breaker.copy()?;
        let mut copy = Settings {
            sourcetype,
            breaker,
            truncate: self.truncate,
            merge,
            time,
            seds: Sequence::new(alloc),
            transforms: Sequence::new(alloc),
        };
        add_seds(alloc, &mut copy.seds, self.seds.as_slice())?;
        add_transforms(alloc, &mut copy.transforms, self.transforms.as_slice())?;
        Ok(copy)
    }
}
