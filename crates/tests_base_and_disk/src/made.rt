//! What tests hand in: bytes, plans of what is to fail, disks in memory, and the records of events.

ghost use Rattle.std.specs.Prelude.{◌<◌, ◌^◌, length, IsTrue};
ghost use Rattle.ix_bucket.specs.Record.{event_bytes};

use ix_base::{Bytes, Event, FailPlan, Failed, File};
use ix_bucket::{append, encode};
use ix_disk::{Disk, MemDisk};
use std::alloc::Global;

pub fn bytes_of(alloc: Global, bytes: &[u8]) -> Bytes {
    Bytes::copy_of(alloc, bytes).unwrap_or(Bytes::new(alloc))
}

/// The plan by which the calls of these numbers fail.
pub fn failing(alloc: Global, numbers: &[u64]) -> FailPlan {
    FailPlan::new(numbers.to_vec(alloc).unwrap_or(Vec::new(alloc)))
}

/// A disk that has nothing, and of which no call fails.
pub fn empty(alloc: Global) -> MemDisk {
    MemDisk::new(alloc, FailPlan::none(alloc))
}

/// When each event arrived whose record is made here.
pub const MOMENT: i64 = 1_700_000_000_000_000;

fn event(alloc: Global, time: i64, raw: &[u8]) -> Event {
    Event {
        time,
        arrival: MOMENT,
        index: bytes_of(alloc, b"main"),
        host: bytes_of(alloc, b"h"),
        source: bytes_of(alloc, b"s"),
        sourcetype: bytes_of(alloc, b"unknown"),
        meta: Bytes::new(alloc),
        raw: bytes_of(alloc, raw),
    }
}

#[tactic(auto, using(ix_bucket::proofs::Sizes::length_fields, ix_bucket::proofs::Sizes::length_event_bytes))]
fn is_small(event: &Event) -> bool
    ensures { IsTrue result → length (event_bytes event.now) < 2 ^ 32 }
{
    let most = 1 << 28;
    event.index.len() < most
        && event.host.len() < most
        && event.source.len() < most
        && event.sourcetype.len() < most
        && event.meta.len() < most
        && event.raw.len() < most
}

/// The record of an event of index main, host h, source s and sourcetype unknown.
pub fn record(alloc: Global, time: i64, raw: &[u8]) -> Bytes {
    let mut out = Bytes::new(alloc);
    let event = event(alloc, time, raw);
    if is_small(&event) {
        let _ = encode(&event, &mut out);
    }
    drop(event);
    out
}

/// Puts bytes at the end of a file of records.
pub fn put<D: Disk>(disk: &mut D, file: File, bytes: &[u8]) -> Result<(), Failed> {
    let at = disk.length(file)?;
    append(disk, file, at, bytes)
}

/// Puts the record of an event there.
pub fn put_record<D: Disk>(
    alloc: Global,
    disk: &mut D,
    file: File,
    time: i64,
    raw: &[u8],
) -> Result<(), Failed> {
    let record = record(alloc, time, raw);
    let done = put(disk, file, record.as_slice());
    drop(record);
    done
}
