//! Lines of events that have most of their fields in common, as the events of a stream have.

ghost use Rattle.std.specs.Prelude.{◌≡◌, ◌++◌, ◌∷◌, [], OnOk, OnErr, IfOk, IsTrue};
ghost use Rattle.ix_base.specs.Faults.{HasCause};
ghost use Rattle.ix_base.specs.Told.{HasWritten, HasBegun};
ghost use Rattle.ix_export.specs.EventLine.{field, middle, line, time_text};

use crate::lines::{put_field, put_tabbed, put_tabbed_time, write_line};
use ix_base::{Bytes, EventRef, FailPlan, Failed, MemSink, NoMemory, Sink};
use std::alloc::Global;

/// The fields that an event has in common with others, and their text.
struct Common {
    index: Bytes,
    host: Bytes,
    source: Bytes,
    sourcetype: Bytes,
    meta: Bytes,
    /// The text of the index.
    index_text: Bytes,
    /// The text of the fields between the time and the raw text.
    middle_text: Bytes,
    ghost index_is: { index_text ≡ field index },
    ghost middle_is: { middle_text ≡ middle host source sourcetype meta },
}

/// It is written out, so that each place where one is let go is a call of it, which is proved once.
impl Drop for Common {
    fn drop(self) {
        let Common {
            index: _,
            host: _,
            source: _,
            sourcetype: _,
            meta: _,
            index_text: _,
            middle_text: _,
        } = self;
    }
}

/// The text of a field.
fn field_text(alloc: Global, bytes: &[u8]) -> Result<Bytes, NoMemory>
    ensures { IfOk result (λ text. text ≡ field bytes.now) }
{
    let mut text = MemSink::new(alloc, FailPlan::none(alloc));
    match put_field(bytes, &mut text) {
        Ok(()) => Ok(text.into_bytes()),
        Err(_) => Err(NoMemory),
    }
}

/// Writes the fields between the time and the raw text.
fn put_middle<W: Sink>(event: &EventRef, out: &mut W) -> Result<(), Failed>
    ensures { OnOk result (HasWritten (middle event.now.host.now event.now.source.now event.now.sourcetype.now event.now.meta.now)
        (W.given out.old) (W.given out.new)) }
{
    put_tabbed(event.host, out)?;
    put_tabbed(event.source, out)?;
    put_tabbed(event.sourcetype, out)?;
    put_tabbed(event.meta, out)?;
    out.put(b"\t")?;
    Ok(())
}

/// The text of the fields between the time and the raw text.
fn middle_text(alloc: Global, event: &EventRef) -> Result<Bytes, NoMemory>
    ensures { IfOk result (λ text. text ≡ middle event.now.host.now event.now.source.now event.now.sourcetype.now event.now.meta.now) }
{
    let mut text = MemSink::new(alloc, FailPlan::none(alloc));
    match put_middle(event, &mut text) {
        Ok(()) => Ok(text.into_bytes()),
        Err(_) => Err(NoMemory),
    }
}

/// Writes the line of an event whose text before the time and between the time and the raw text are
/// known.
fn put_parts<W: Sink>(
    index_text: &[u8],
    middle_text: &[u8],
    event: &EventRef,
    out: &mut W,
) -> Result<(), Failed>
    ensures written { OnOk result (HasWritten (index_text.now ++ 9 ∷ time_text event.now.time ++ middle_text.now ++ field event.now.raw.now
        ++ 10 ∷ []) (W.given out.old) (W.given out.new)) }
    ensures begun { OnErr result (HasBegun (index_text.now ++ 9 ∷ time_text event.now.time ++ middle_text.now ++ field event.now.raw.now
        ++ 10 ∷ []) (W.given out.old) (W.given out.new)) }
    ensures cause { HasCause (W.faults out.old) (W.faults out.new) result }
{
    out.put(index_text)?;
    put_tabbed_time(event, out)?;
    out.put(middle_text)?;
    put_field(event.raw, out)?;
    out.put(b"\n")?;
    Ok(())
}

impl Common {
    ghost use Rattle.ix_base.specs.Lent.{lent_event};

    /// The fields of this event.
    fn of(alloc: Global, event: &EventRef) -> Result<Common, NoMemory> {
        let index_text = field_text(alloc, event.index)?;
        let middle_text = middle_text(alloc, event)?;
        Ok(Common {
            index: Bytes::copy_of(alloc, event.index)?,
            host: Bytes::copy_of(alloc, event.host)?,
            source: Bytes::copy_of(alloc, event.source)?,
            sourcetype: Bytes::copy_of(alloc, event.sourcetype)?,
            meta: Bytes::copy_of(alloc, event.meta)?,
            index_text,
            middle_text,
        })
    }

    /// Whether the event has these fields.
    fn is_of(&self, event: &EventRef) -> bool
        ensures index { IsTrue result → self.now.index_text ≡ field event.now.index.now }
        ensures middle { IsTrue result → self.now.middle_text ≡ middle event.now.host.now event.now.source.now event.now.sourcetype.now
            event.now.meta.now }
    {
        self.source.as_slice() == event.source
            && self.host.as_slice() == event.host
            && self.sourcetype.as_slice() == event.sourcetype
            && self.meta.as_slice() == event.meta
            && self.index.as_slice() == event.index
    }

    /// Writes the line of an event that has these fields.
    fn write<W: Sink>(&self, event: &EventRef, out: &mut W) -> Result<(), Failed>
        requires index { self.now.index_text ≡ field event.now.index.now }
        requires middle { self.now.middle_text ≡ middle event.now.host.now event.now.source.now event.now.sourcetype.now event.now.meta.now }
        ensures written { OnOk result (HasWritten (line (lent_event event.now)) (W.given out.old) (W.given out.new)) }
        ensures begun { OnErr result (HasBegun (line (lent_event event.now)) (W.given out.old) (W.given out.new)) }
        ensures cause { HasCause (W.faults out.old) (W.faults out.new) result }
    {
        put_parts(
            self.index_text.as_slice(),
            self.middle_text.as_slice(),
            event,
            out,
        )
    }
}

/// Writes events as lines, and keeps the text of the last event's fields in memory, so that they
/// are not escaped again for the next event that has the same index, host, source, sourcetype and
/// meta.
pub struct LineWriter {
    alloc: Global,
    common: Option<Common>,
}

/// It is written out, so that each place where one is let go is a call of it, which is proved once.
impl Drop for LineWriter {
    fn drop(self) {
        let LineWriter {
            alloc: _,
            common: _,
        } = self;
    }
}

impl LineWriter {
    ghost use Rattle.ix_base.specs.Lent.{lent_event};

    /// A writer that keeps nothing yet. It takes no memory.
    pub fn new(alloc: Global) -> Self {
        LineWriter {
            alloc,
            common: None,
        }
    }

    /// Writes the event as a line, as `write_line` does. Where there is no room to keep the text of
    /// its fields, it is written all the same.
    pub fn write<W: Sink>(&mut self, event: &EventRef, out: &mut W) -> Result<(), Failed>
        ensures written { OnOk result (HasWritten (line (lent_event event.now)) (W.given out.old) (W.given out.new)) }
        ensures begun { OnErr result (HasBegun (line (lent_event event.now)) (W.given out.old) (W.given out.new)) }
        ensures cause { HasCause (W.faults out.old) (W.faults out.new) result }
    {
        if let Some(common) = &self.common {
            if common.is_of(event) {
                return common.write(event, out);
            }
        }
        self.common = Common::of(self.alloc, event).ok();
        write_line(event, out)
    }
}
