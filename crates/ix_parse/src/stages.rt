//! What the lines and the events of a block are treated with. It is made once for a block that
//! settles lines, so that each pattern of the settings is written out once for all of them.

ghost use Rattle.std.specs.Prelude.{IfOk};
ghost use Rattle.ix_parse.specs.Finders.{IsEventStageOf, IsLineStageOf};

use crate::marks::LineMarker;
use ix_base::NoMemory;
use ix_props::Settings;
use ix_time::TimeReader;
use ix_transforms::Changer;
use std::alloc::Global;

/// What dates events and changes them.
pub struct EventStage<'a> {
    pub times: TimeReader<'a>,
    pub changer: Changer<'a>,
}

/// It is written out, so that each place where one is let go is a call of it, which is proved once.
impl Drop for EventStage<'_> {
    fn drop(self) {
        let EventStage {
            times: _,
            changer: _,
        } = self;
    }
}

/// What tells which lines begin events, and treats the events that they end.
pub struct LineStage<'a> {
    pub marker: LineMarker<'a>,
    pub events: EventStage<'a>,
}

/// It is written out, so that each place where one is let go is a call of it, which is proved once.
impl Drop for LineStage<'_> {
    fn drop(self) {
        let LineStage {
            marker: _,
            events: _,
        } = self;
    }
}

impl<'a> EventStage<'a> {
    /// For events that are treated by these settings.
    pub fn new(alloc: Global, settings: &'a Settings) -> Result<EventStage<'a>, NoMemory>
        ensures { IfOk result (λ stage. IsEventStageOf settings.entry.now stage) }
    {
        let times = TimeReader::new(alloc, &settings.time)?;
        let changer = Changer::new(alloc, &settings.seds, &settings.transforms)?;
        Ok(EventStage { times, changer })
    }
}

impl<'a> LineStage<'a> {
    /// For lines that are treated by these settings.
    pub fn new(alloc: Global, settings: &'a Settings) -> Result<LineStage<'a>, NoMemory>
        ensures { IfOk result (λ stage. IsLineStageOf settings.entry.now stage) }
    {
        let events = EventStage::new(alloc, settings)?;
        let marker = LineMarker::new(alloc, &settings.merge)?;
        Ok(LineStage { marker, events })
    }
}
