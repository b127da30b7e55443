//! The lines of events within a range are written, and counted. An export calls it for each event.

ghost use Rattle.std.specs.Prelude.{◌≡◌, ◌∷◌, [], OnOk, OnErr};
ghost use Rattle.ix_export.specs.EventLine.{line};
ghost use Rattle.ix_base.specs.Faults.{HasCause};
ghost use Rattle.ix_base.specs.Lent.{lent_event};
ghost use Rattle.ix_base.specs.Told.{HasWritten, HasBegun};
ghost use Rattle.ix_export.specs.Lines.{text, HasExported};

use crate::in_range::is_within;
use crate::line_writer::LineWriter;
use crate::lines::write_line;
use ix_base::{EventRef, FailPlan, Failed, MemSink, Range, Sink};
use std::alloc::Global;

/// Writes the events within a range as lines, each in one piece, and counts these.
#[derive(Drop)]
pub(crate) struct RangeWriter {
    /// The times of the events that are written.
    pub range: Range,
    /// How many lines were written. It stands at 2^64 - 1.
    pub count: u64,
    lines: LineWriter,
    /// Where a line is laid out. Its room is kept for the next one.
    laid_out: MemSink,
}

impl RangeWriter {
    /// A writer that has written nothing yet. It takes no memory.
    pub fn new(alloc: Global, range: Range) -> Self
        ensures range { result.range ≡ range }
        ensures count { result.count ≡ 0 }
    {
        RangeWriter {
            range,
            count: 0,
            lines: LineWriter::new(alloc),
            laid_out: MemSink::new(alloc, FailPlan::none(alloc)),
        }
    }

    /// Writes the event as a line. Where there is no room to lay it out, it is written in several
    /// pieces.
    fn write<W: Sink>(&mut self, event: &EventRef, out: &mut W) -> Result<(), Failed>
        ensures written { OnOk result (HasWritten (line (lent_event event.now)) (W.given out.old) (W.given out.new)) }
        ensures begun { OnErr result (HasBegun (line (lent_event event.now)) (W.given out.old) (W.given out.new)) }
        ensures cause { HasCause (W.faults out.old) (W.faults out.new) result }
        ensures range { self.new.range ≡ self.old.range }
        ensures count { self.new.count ≡ self.old.count }
    {
        self.laid_out.clear();
        match self.lines.write(event, &mut self.laid_out) {
            Ok(()) => out.put(self.laid_out.bytes()),
            Err(_) => write_line(event, out),
        }
    }

    /// Writes the event as a line where it is within the range.
    pub fn put<W: Sink>(&mut self, event: &EventRef, out: &mut W) -> Result<(), Failed>
        ensures exported { OnOk result (HasExported self.old.range (lent_event event.now
            ∷ []) (W.given out.old) self.old.count (W.given out.new) self.new.count) }
        ensures begun { OnErr result (HasBegun (text self.old.range (lent_event event.now ∷ [])) (W.given out.old) (W.given out.new)) }
        ensures cause { HasCause (W.faults out.old) (W.faults out.new) result }
        ensures range { self.new.range ≡ self.old.range }
    {
        if is_within(self.range, event) {
            self.write(event, out)?;
            self.count = self.count.saturating_add(1);
        }
        Ok(())
    }
}
