//! How a run over a store that stops is told: its status, and its line. None of it takes memory.
//! `stored.rt`, `feed.rt`, `serve.rt` and `monitor.rt` call `say_stop`.

ghost use Rattle.std.specs.Prelude.{◌≡◌, ◌≤◌, ◌++◌, length};
ghost use Rattle.indexd_core.specs.Prepared as prepared;
ghost use Rattle.indexd_core.specs.Sides.{side};
ghost use Rattle.indexd_core.specs.Stored as defs;
ghost use Rattle.indexd_core.specs.Texts.{Said};

use crate::status::{Status, say};
use arrayvec::ArrayString;
use indexd_run::Stop;
use itoa::Buffer;
use ix_base::{Area, File, Sink};

/// What a command over a store names: an index, and perhaps a bucket of it.
#[derive(Clone, Copy)]
pub struct Named<'a> {
    index: &'a [u8],
    id: Option<u64>,
}

impl<'a> Named<'a> {
    /// An index.
    pub fn of_index(index: &'a [u8]) -> Self
        ensures { defs.named_of result ≡ index.now }
    {
        Named { index, id: None }
    }

    /// The bucket of this number.
    pub fn of_bucket(index: &'a [u8], id: u64) -> Self
        ensures { defs.named_of result ≡ defs.named_by index.now (Some id) }
    {
        Named {
            index,
            id: Some(id),
        }
    }
}

/// The status of a run that stops.
fn status_of(stop: Stop) -> Status
    ensures { result ≡ defs.status_of stop }
{
    match stop {
        Stop::Memory => Status::Memory,
        Stop::Disk => Status::DiskFault,
        Stop::Damaged { .. } | Stop::Inconsistent => Status::Damaged,
        Stop::NotFound => Status::NotFound,
        Stop::TooManyChannels => Status::TooManyChannels,
        Stop::Full => Status::Full,
        Stop::Output => Status::Output,
        Stop::Input => Status::Input,
        Stop::Endless => Status::Endless,
    }
}

/// The name of an area's folder.
fn area_name(area: Area) -> &'static str
    ensures name { result.now ≡ defs.area_name area }
    ensures short { length result.now ≤ 6 }
{
    match area {
        Area::Meta => "meta",
        Area::Home => "home",
        Area::Cold => "cold",
        Area::Frozen => "frozen",
        Area::Thawed => "thawed",
    }
}

/// The line of a damaged file.
fn damaged_line(file: File, at: u64) -> ArrayString<80>
    ensures { result.bytes ≡ defs.damaged_line file at }
{
    let mut line = ArrayString::<80>::new();
    line.push_str("indexd: damaged: ");
    line.push_str(area_name(file.area));
    line.push_str("/");
    line.push_str(Buffer::new().format(file.number));
    line.push_str(" at ");
    line.push_str(Buffer::new().format(at));
    line.push_str("\n");
    line
}

/// Writes the line of a damaged file.
pub fn say_damaged<W: Sink>(file: File, at: u64, output: &mut W)
    ensures said { Said (defs.damaged_line file at) (side (W.faults output.old) (W.given output.old))
        (side (W.faults output.new) (W.given output.new)) }
    ensures later { W.faults output.old ≤ W.faults output.new }
{
    let line = damaged_line(file, at);
    let _ = output.put(line.as_str().as_bytes());
}

/// What stands behind the index in the line of what was not found.
fn tail_of(id: Option<u64>) -> ArrayString<24>
    ensures { result.bytes ≡ defs.tail_of id }
{
    let mut tail = ArrayString::<24>::new();
    if let Some(id) = id {
        tail.push_str(" ");
        tail.push_str(Buffer::new().format(id));
    }
    tail.push_str("\n");
    tail
}

/// Writes a piece. Where that fails, no more can be said.
fn put_last<W: Sink>(piece: &[u8], output: &mut W)
    ensures said { Said piece.now (side (W.faults output.old) (W.given output.old)) (side (W.faults output.new) (W.given output.new)) }
    ensures later { W.faults output.old ≤ W.faults output.new }
{
    let _ = output.put(piece);
}

/// Writes a text in three pieces.
fn put_three<W: Sink>(first: &[u8], second: &[u8], third: &[u8], output: &mut W)
    ensures said { Said (first.now ++ second.now ++ third.now) (side (W.faults output.old) (W.given output.old))
        (side (W.faults output.new) (W.given output.new)) }
    ensures later { W.faults output.old ≤ W.faults output.new }
{
    if let Err(_) = output.put(first) {
        return;
    }
    if let Err(_) = output.put(second) {
        return;
    }
    put_last(third, output);
}

/// Writes the line of what was not found.
fn say_missing<W: Sink>(named: Named<'_>, output: &mut W)
    ensures said { Said (prepared.not_found_line (defs.named_of named.entry)) (side (W.faults output.old) (W.given output.old))
        (side (W.faults output.new) (W.given output.new)) }
    ensures later { W.faults output.old ≤ W.faults output.new }
{
    let tail = tail_of(named.id);
    put_three(
        b"indexd: not found: ",
        named.index,
        tail.as_str().as_bytes(),
        output,
    );
}

/// Writes the line of a run that stops, and answers its status. Where the line cannot be written
/// the status stays.
pub fn say_stop<W: Sink>(stop: Stop, named: Named<'_>, output: &mut W) -> Status
    ensures status { result ≡ defs.status_of stop }
    ensures said { Said (defs.line_of (defs.named_of named.entry) stop) (side (W.faults output.old) (W.given output.old))
        (side (W.faults output.new) (W.given output.new)) }
    ensures later { W.faults output.old ≤ W.faults output.new }
{
    let status = status_of(stop);
    match stop {
        Stop::Damaged { file, at } => say_damaged(file, at, output),
        Stop::Inconsistent => say_damaged(FIRST_LOG, 0, output),
        Stop::NotFound => say_missing(named, output),
        _ => say(status, output),
    }
    status
}

/// The file that a store always has. What contradicts itself in memory has no place of its own.
const FIRST_LOG: File = File {
    area: Area::Meta,
    number: 1,
};
