//! The way of lines to outcomes: they are merged into events, and each event is dated and changed.
//! A channel calls it for the lines that a block settles, and for those that are left at the end.

ghost use Rattle.std.specs.Prelude.{◌≡◌, [], ◌∷◌, List, IfOk, OnOk, IsFalse, unwrap_or};
ghost use Rattle.std.specs.List.{All, AllByRecursion};
ghost use Rattle.ix_lines.specs.Lines.{IsShort};
ghost use Rattle.ix_merge.specs.Stands.{Holds};
ghost use Rattle.ix_merge.specs.Starts.{MarkedLine};
ghost use Rattle.ix_conf_values.specs.Seds.{IsApplicable};
ghost use Rattle.ix_parse.specs.Finders.{IsEventStageOf, IsLineStageOf};
ghost use Rattle.ix_parse.specs.Limits.{KeepsLimits, IsSmall};
ghost use Rattle.ix_parse.specs.Settled.{event_of, latest_with};
ghost use Rattle.ix_parse.specs.Stage.{with_events, Takes, TakesEnd};

use crate::stages::{EventStage, LineStage};
use ix_base::{Bytes, ChannelMeta, Event, Line, LineList, NoMemory, RoutedList};
use ix_merge::{Merge, Whole};
use ix_props::Settings;
use ix_time::{Origin, TimeFound};
use std::alloc::Global;

/// Whose events they are.
#[derive(Clone, Copy)]
pub struct Owner<'a> {
    pub alloc: Global,
    pub settings: &'a Settings,
    pub meta: &'a ChannelMeta,
}

/// What events came to so far.
#[derive(Drop)]
pub struct Outcomes {
    /// The latest time among them that was read and accepted.
    pub latest: Option<i64>,
    pub routed: RoutedList,
}

/// A copy of these bytes, or none.
fn copy_or_none(alloc: Global, bytes: &Option<Bytes>) -> Result<Bytes, NoMemory>
    ensures { IfOk result (λ copy. copy ≡ unwrap_or bytes.now []) }
{
    match bytes {
        Some(bytes) => bytes.copy(),
        None => Ok(Bytes::new(alloc)),
    }
}

/// The latest accepted time, with this one.
fn latest_with(found: TimeFound, latest: Option<i64>) -> Option<i64>
    ensures { result ≡ latest_with found latest }
{
    match found.origin {
        Origin::Read => Some(found.time),
        Origin::Last | Origin::Arrival => latest,
    }
}

impl Owner<'_> {
    /// An event before changes, at this time.
    fn event(&self, time: i64, event: Whole) -> Result<Event, NoMemory>
        ensures { IfOk result (λ made. made ≡ event_of self.now.settings.now.sourcetype self.now.meta.now time event) }
    {
        Ok(Event {
            time,
            arrival: event.moment,
            index: copy_or_none(self.alloc, &self.meta.index)?,
            host: self.meta.host.copy()?,
            source: self.meta.source.copy()?,
            sourcetype: self.settings.sourcetype.copy()?,
            meta: Bytes::new(self.alloc),
            raw: event.raw,
        })
    }

    /// Dates an event, makes the changes, and adds what it comes to.
    fn settle(
        &self,
        stage: &EventStage<'_>,
        event: Whole,
        outcomes: &mut Outcomes,
    ) -> Result<(), NoMemory>
        requires stage { IsEventStageOf self.now.settings.now stage.now }
        requires seds { AllByRecursion IsApplicable self.now.settings.now.seds }
        ensures added { OnOk result (outcomes.new ≡ with_events self.now.settings.now self.now.meta.now outcomes.old (event ∷ [])) }
        ensures small { OnOk result (KeepsLimits self.now.settings.now self.now.meta.now → All IsSmall outcomes.old.routed →
            All IsSmall outcomes.new.routed) }
    {
        let raw = event.raw.as_slice();
        let arrival = event.moment;
        let found = stage
            .times
            .time_of(self.alloc, raw, arrival, outcomes.latest)?;
        let latest = latest_with(found, outcomes.latest);
        let event = self.event(found.time, event)?;
        let routed = stage.changer.apply(self.alloc, event)?;
        outcomes.latest = latest;
        outcomes.routed.push(routed)
    }

    /// Takes in the next line, and adds what the event comes to that it ends.
    fn take_line(
        &self,
        stage: &LineStage<'_>,
        line: Line,
        merge: &mut Merge,
        outcomes: &mut Outcomes,
    ) -> Result<(), NoMemory>
        requires stage { IsLineStageOf self.now.settings.now stage.now }
        requires short { IsShort line }
        requires seds { AllByRecursion IsApplicable self.now.settings.now.seds }
        ensures takes { OnOk result ((earlier : List MarkedLine) → Holds earlier merge.old →
            Takes self.now.settings.now self.now.meta.now earlier (line ∷ []) merge.old merge.new outcomes.old outcomes.new) }
        ensures small { OnOk result (KeepsLimits self.now.settings.now self.now.meta.now → All IsSmall outcomes.old.routed →
            All IsSmall outcomes.new.routed) }
        ensures whole { OnOk result (IsFalse merge.new.broken) }
        ensures on { merge.new.on ≡ merge.old.on }
        ensures max_lines { merge.new.max_lines ≡ merge.old.max_lines }
    {
        let events = &stage.events;
        let marks = stage.marker.marks_of(self.alloc, &events.times, &line)?;
        match merge.add(line, marks)? {
            Some(event) => self.settle(events, event, outcomes),
            None => Ok(()),
        }
    }

    /// Takes in the next lines, and adds what the events come to that these end.
    pub fn take_lines(
        &self,
        lines: LineList,
        merge: &mut Merge,
        outcomes: &mut Outcomes,
    ) -> Result<(), NoMemory>
        requires short { All IsShort lines }
        requires seds { AllByRecursion IsApplicable self.now.settings.now.seds }
        requires whole { IsFalse merge.old.broken }
        ensures takes { OnOk result ((earlier : List MarkedLine) → Holds earlier merge.old →
            Takes self.now.settings.now self.now.meta.now earlier lines merge.old merge.new outcomes.old outcomes.new) }
        ensures small { OnOk result (KeepsLimits self.now.settings.now self.now.meta.now → All IsSmall outcomes.old.routed →
            All IsSmall outcomes.new.routed) }
        ensures whole { OnOk result (IsFalse merge.new.broken) }
        ensures on { merge.new.on ≡ merge.old.on }
        ensures max_lines { merge.new.max_lines ≡ merge.old.max_lines }
    {
        if lines.is_empty() {
            return Ok(());
        }
        let stage = LineStage::new(self.alloc, self.settings)?;
        for line in lines.into_vec() {
            self.take_line(&stage, line, merge, outcomes)?;
        }
        Ok(())
    }

    /// Takes in the end of the lines, and adds what the event comes to that is open.
    pub fn take_end(&self, merge: Merge, outcomes: &mut Outcomes) -> Result<(), NoMemory>
        requires seds { AllByRecursion IsApplicable self.now.settings.now.seds }
        requires whole { IsFalse merge.broken }
        ensures takes { OnOk result ((lines : List MarkedLine) → Holds lines merge →
            TakesEnd self.now.settings.now self.now.meta.now lines merge outcomes.old outcomes.new) }
        ensures small { OnOk result (KeepsLimits self.now.settings.now self.now.meta.now → All IsSmall outcomes.old.routed →
            All IsSmall outcomes.new.routed) }
    {
        let Some(event) = merge.close() else {
            return Ok(());
        };
        let stage = EventStage::new(self.alloc, self.settings)?;
        self.settle(&stage, event, outcomes)
    }
}
