//! What the commands over a store write. `run` calls `say` when the command is committed.

ghost use Rattle.std.specs.Prelude.{◌≡◌, ◌++◌, ◌≤◌, ◌⊎◌, false, None, decimal, OnOk, IfOk, IfErr, IsErrOf, List, ℕ};
ghost use Rattle.std.specs.Option.{option_copied};
ghost use Rattle.ix_base.specs.Faults.{Rose};
ghost use Rattle.ix_base.specs.Told.{HasWritten, HasBegun};
ghost use Rattle.ix_report.specs.Names.{seconds, seconds_text, closed_name};
ghost use Rattle.indexd_run.specs.Stops.{is_output};
ghost use Rattle.indexd_run.specs.Tasks as defs;

use crate::stop::Stop;
use crate::task::Task;
use itoa::Buffer;
use ix_base::{Bytes, NoMemory, Sink};
use ix_items::Entry;
use ix_life::View;
use ix_report::listing;
use std::alloc::Global;

fn add_number(text: &mut Bytes, number: u64) -> Result<(), NoMemory>
    ensures { OnOk result (text.new ≡ text.old ++ decimal number) }
{
    let mut buffer = Buffer::new();
    text.extend(buffer.format(number).as_bytes())
}

/// A word with a number behind it, as a line.
fn counted_line(alloc: Global, word: &[u8], count: u64) -> Result<Bytes, NoMemory>
    ensures { IfOk result (λ line. line ≡ defs.counted word.now count) }
{
    let mut line = Bytes::copy_of(alloc, word)?;
    add_number(&mut line, count)?;
    line.extend(b"\n")?;
    Ok(line)
}

/// Whole seconds, rounded down, also before 1970.
fn seconds(micros: i64) -> i64
    ensures { result ≡ seconds micros }
{
    micros.div_euclid(1_000_000)
}

fn add_seconds(text: &mut Bytes, micros: i64) -> Result<(), NoMemory>
    ensures { OnOk result (text.new ≡ text.old ++ seconds_text micros) }
{
    let mut buffer = Buffer::new();
    text.extend(buffer.format(seconds(micros)).as_bytes())
}

/// The name of a frozen bucket.
fn add_name(text: &mut Bytes, entry: &Entry) -> Result<(), NoMemory>
    ensures { OnOk result (text.new ≡ text.old ++ closed_name entry.now.newest entry.now.oldest entry.now.id) }
{
    text.extend(b"db_")?;
    add_seconds(text, entry.newest)?;
    text.extend(b"_")?;
    add_seconds(text, entry.oldest)?;
    text.extend(b"_")?;
    add_number(text, entry.id)
}

fn thawed_line(alloc: Global, entry: &Entry) -> Result<Bytes, NoMemory>
    ensures { IfOk result (λ line. line ≡ defs.thawed entry.now) }
{
    let mut line = Bytes::copy_of(alloc, b"thawed ")?;
    add_name(&mut line, entry)?;
    line.extend(b"\n")?;
    Ok(line)
}

fn is_of(entry: &Entry, index: &[u8], id: u64) -> bool
    ensures { result ≡ defs.is_of index.now id entry.now }
{
    entry.index.as_slice() == index && entry.id == id
}

/// The entry of a bucket.
fn entry_of<'a>(entries: &'a [Entry], index: &[u8], id: u64) -> Option<&'a Entry>
    ensures { option_copied result ≡ defs.entry_of index.now id entries.now }
{
    for entry in entries {
        if is_of(entry, index, id) {
            return Some(entry);
        }
    }
    None
}

/// The line of a bucket that was thawed. The ledger has an entry of it.
fn name_line(alloc: Global, view: &View, index: &[u8], id: u64) -> Result<Bytes, Stop>
    ensures line { IfOk result (λ line. defs.IsThawed (defs.entry_of index.now id view.now.ledger) line) }
    ensures stopped { IfErr result (λ stop. (stop ≡ Stop.Memory)
        ⊎ ((stop ≡ Stop.Inconsistent) × (defs.entry_of index.now id view.now.ledger ≡ None))) }
{
    match entry_of(view.ledger.as_slice(), index, id) {
        Some(entry) => match thawed_line(alloc, entry) {
            Ok(line) => Ok(line),
            Err(_) => Err(Stop::Memory),
        },
        None => Err(Stop::Inconsistent),
    }
}

/// The text of a command that moved so many buckets. The lines of an export are written as they are
/// read, and it has no other text.
fn text_of(alloc: Global, view: &View, task: Task<'_>, count: u64) -> Result<Bytes, Stop>
    ensures text { IfOk result (λ text. defs.IsText task.entry view.now count text) }
    ensures stopped { IfErr result (λ stop. (stop ≡ Stop.Memory) ⊎ ((stop ≡ Stop.Inconsistent) × defs.IsUnnamed task.entry view.now)) }
{
    let made = match task {
        Task::Buckets => listing(alloc, view),
        Task::Roll { .. } => counted_line(alloc, b"rolled ", count),
        Task::Tick => counted_line(alloc, b"frozen ", count),
        Task::Thaw { index, id } => return name_line(alloc, view, index.as_bytes(), id),
        Task::Export { .. } => return Ok(Bytes::new(alloc)),
    };
    match made {
        Ok(text) => Ok(text),
        Err(_) => Err(Stop::Memory),
    }
}

/// Writes the text of a command that moved so many buckets.
pub(crate) fn say<W: Sink>(
    alloc: Global,
    view: &View,
    task: Task<'_>,
    count: u64,
    output: &mut W,
) -> Result<(), Stop>
    ensures written { OnOk result ((text : List ℕ) × defs.IsText task.entry view.now count text
        × HasWritten text (W.given output.old) (W.given output.new)) }
    // Where the output fails a front of it is, and else nothing.
    ensures begun { IsErrOf result Stop.Output → (text : List ℕ) × defs.IsText task.entry view.now count text
        × HasBegun text (W.given output.old) (W.given output.new) }
    ensures quiet { IfErr result (λ stop. is_output stop ≡ false → W.given output.new ≡ W.given output.old) }
    ensures stopped { IfErr result (λ stop. defs.IsUnsaid task.entry view.now stop) }
    ensures later { W.faults output.old ≤ W.faults output.new }
    ensures cause { IsErrOf result Stop.Output → Rose (W.faults output.old) (W.faults output.new) }
{
    let text = text_of(alloc, view, task, count)?;
    match output.put(text.as_slice()) {
        Ok(()) => Ok(()),
        Err(_) => Err(Stop::Output),
    }
}
