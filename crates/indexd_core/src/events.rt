//! The lines of the events that a preview writes. One that was sent to the null queue, or that no
//! index keeps, has none.

ghost use Rattle.std.specs.Prelude.{◌≡◌, ◌≤◌, ◌++◌, [], ℕ, List, Some, OnOk, IfErr};
ghost use Rattle.std.specs.Option.{option_copied};
ghost use Rattle.ix_base.specs.Faults.{Rose};
ghost use Rattle.ix_base.specs.Told.{HasWritten, HasBegun};
ghost use Rattle.indexd_core.specs.Sides.{side};
ghost use Rattle.indexd_core.specs.Texts.{home, kept_line, routed_line, lines_of};
ghost use Rattle.indexd_core.specs.Stops.{PutStops};

use crate::preview::Stop;
use ix_base::{Event, EventRef, FailPlan, MemSink, NoMemory, Routed, RoutedList, Sink};
use ix_export::LineWriter;
use ix_life::{LimitSet, Route};
use std::alloc::Global;

/// The index that keeps events of this one; `None` where no index does.
fn home<'a>(limits: &'a LimitSet, index: &'a [u8]) -> Option<&'a [u8]>
    ensures { option_copied result ≡ home limits.now index.now }
{
    match limits.route(index) {
        Route::Given => Some(index),
        Route::LastChance => match &limits.last_chance {
            Some(last) => Some(last.as_slice()),
            None => None,
        },
        Route::Nowhere => None,
    }
}

/// Writes events as lines, those of a block in one piece. The text is laid out in memory that is
/// kept from one block to the next.
#[derive(Drop)]
pub struct EventWriter {
    /// The indexes, which say where events are kept.
    pub limits: LimitSet,
    lines: LineWriter,
    text: MemSink,
}

impl EventWriter {
    /// A writer that has laid out nothing yet. It takes no memory.
    pub fn new(alloc: Global, limits: LimitSet) -> Self
        ensures { result.limits ≡ limits }
    {
        EventWriter {
            limits,
            lines: LineWriter::new(alloc),
            text: MemSink::new(alloc, FailPlan::none(alloc)),
        }
    }

    /// Lays out the line of an event in the index that keeps it, behind those that stand there.
    fn add_event(&mut self, event: &Event) -> Result<(), NoMemory>
        ensures line { OnOk result (self.new.text.bytes ≡ self.old.text.bytes
            ++ kept_line event.now (home self.old.limits event.now.index)) }
        ensures limits { self.new.limits ≡ self.old.limits }
    {
        let Some(index) = home(&self.limits, event.index.as_slice()) else {
            return Ok(());
        };
        let stored = EventRef {
            index,
            ..event.lend()
        };
        match self.lines.write(&stored, &mut self.text) {
            Ok(()) => Ok(()),
            Err(_) => Err(NoMemory),
        }
    }

    /// Lays out the line of an event, behind those that stand there. One that goes to the null
    /// queue has none.
    fn add(&mut self, routed: &Routed) -> Result<(), NoMemory>
        ensures line { OnOk result (self.new.text.bytes ≡ self.old.text.bytes ++ routed_line self.old.limits routed.now) }
        ensures limits { self.new.limits ≡ self.old.limits }
    {
        match routed {
            Routed::To(event) => self.add_event(event),
            Routed::Null => Ok(()),
        }
    }

    /// Lays out the lines of these events, and forgets those that stood there.
    fn lay_out(&mut self, routed: &RoutedList) -> Result<(), NoMemory>
        ensures lines { OnOk result (self.new.text.bytes ≡ lines_of self.old.limits routed.now) }
        ensures limits { self.new.limits ≡ self.old.limits }
    {
        self.text.clear();
        for one in routed.as_slice() {
            self.add(one)?;
        }
        Ok(())
    }

    /// Writes the lines of the events in one piece; nothing where there are none.
    pub fn put<W: Sink>(&mut self, routed: &RoutedList, output: &mut W) -> Result<(), Stop>
        ensures written { OnOk result (HasWritten (lines_of self.old.limits routed.now) (W.given output.old) (W.given output.new)) }
        ensures stopped { IfErr result (λ stop. PutStops stop (lines_of self.old.limits routed.now)
            (side (W.faults output.old) (W.given output.old)) (side (W.faults output.new) (W.given output.new))) }
        ensures limits { self.new.limits ≡ self.old.limits }
        ensures later { W.faults output.old ≤ W.faults output.new }
    {
        if routed.is_empty() {
            return Ok(());
        }
        if self.lay_out(routed).is_err() {
            return Err(Stop::Memory);
        }
        match output.put(self.text.bytes()) {
            Ok(()) => Ok(()),
            Err(_) => Err(Stop::Output),
        }
    }
}
