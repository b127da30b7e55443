//! Records of events, and readers of them.

use crate::machine::{Work, machine_said, memory_said};
use crate::made::{MOMENT, empty, put, put_record, record};
use crate::said::{compare, note, say, shown};
use ix_base::{Area, EventRef, Failed, File};
use ix_bucket::{Reader, append, count_records, decode, unique_reading};
use ix_disk::{Disk, MemDisk, OneFail, StopDisk};
use std::alloc::Global;

/// The record of an event of index main, host h, source s, sourcetype unknown, no meta and raw text `a`.
static RECORD: [u8; 58] = [
    0, 0, 0, 0x36, 0, 0x06, 0x0A, 0x24, 0x18, 0x1E, 0x40, 0, 0, 0x06, 0x0A, 0x24, 0x18, 0x1E, 0x40,
    0, 0, 0, 0, 4, 0x6D, 0x61, 0x69, 0x6E, 0, 0, 0, 1, 0x68, 0, 0, 0, 1, 0x73, 0, 0, 0, 7, 0x75,
    0x6E, 0x6B, 0x6E, 0x6F, 0x77, 0x6E, 0, 0, 0, 0, 0, 0, 0, 1, 0x61,
];

const HOME: File = File {
    area: Area::Home,
    number: 1,
};

const COLD: File = File {
    area: Area::Cold,
    number: 1,
};

fn note_event(said: &mut String, event: EventRef<'_>) {
    note(said, event.time);
    note(said, event.arrival);
    say(said, shown(event.index));
    say(said, shown(event.host));
    say(said, shown(event.source));
    say(said, shown(event.sourcetype));
    say(said, shown(event.meta));
    say(said, shown(event.raw));
}

/// Writes what the record at the front says, and how many bytes it takes.
fn note_record(said: &mut String, bytes: &[u8]) {
    match decode(bytes) {
        Ok((event, len)) => {
            note_event(said, event);
            note(said, len);
        }
        Err(_) => say(said, "no record"),
    }
}

fn is_record(bytes: &[u8]) -> bool {
    decode(bytes).is_ok()
}

fn record_said(alloc: Global) -> String {
    let mut said = String::new(alloc);
    let out = record(alloc, MOMENT, b"a");
    note(&mut said, out.as_slice() == RECORD.as_slice());
    drop(out);
    note_record(&mut said, &RECORD);
    for cut in 0..58 {
        if is_record(&RECORD[..cut]) {
            note(&mut said, cut);
        }
    }
    said
}

#[test]
fn a_record_is_written_and_read_and_no_prefix_is_one(rt: HostRuntime) {
    unique_reading();
    let wanted = "true 1700000000000000 1700000000000000 main h s unknown  a 58 ";
    compare(&rt, record_said(rt.alloc()), wanted);
}

/// Bytes put in place of others: a length one too long or too short, of the whole, the index and the text, and at last a byte
/// behind the record.
static FORGED: [(usize, u8); 8] = [
    (3, 0x37),
    (3, 0x35),
    (23, 5),
    (23, 3),
    (56, 2),
    (56, 0),
    (0, 1),
    (58, 1),
];

/// The record and a zero behind it, with a byte at a place.
fn forged(place: usize, byte: u8) -> [u8; 59] {
    let mut bytes = [0u8; 59];
    bytes[..58].copy_from_slice(&RECORD);
    if let Some(at) = bytes.get_mut(place) {
        *at = byte;
    }
    bytes
}

fn forged_said(alloc: Global, rows: &[(usize, u8)]) -> String {
    let mut said = String::new(alloc);
    for (place, byte) in rows {
        note(&mut said, is_record(&forged(*place, *byte)));
    }
    said
}

#[test]
fn a_record_with_a_forged_length_is_none(rt: HostRuntime) {
    let wanted = "false false false false false false false true ";
    compare(&rt, forged_said(rt.alloc(), &FORGED), wanted);
}

/// The moment that a record has.
fn time_of(record: &[u8]) -> Option<i64> {
    match decode(record) {
        Ok((event, _)) => Some(event.time),
        Err(_) => None,
    }
}

/// Moments, and their bytes.
static MOMENTS: [(i64, &[u8]); 3] = [
    (-1, b"\xFF\xFF\xFF\xFF\xFF\xFF\xFF\xFF"),
    (i64::MIN, b"\x80\0\0\0\0\0\0\0"),
    (-256, b"\xFF\xFF\xFF\xFF\xFF\xFF\xFF\0"),
];

/// Writes of a record how long it is, whether the moment is in these bytes, and whether it is read.
fn note_moment(said: &mut String, record: &[u8], time: i64, bytes: &[u8]) {
    note(said, record.len());
    note(said, record.get(4..12) == Some(bytes));
    note(said, time_of(record) == Some(time));
}

fn moments_said(alloc: Global, rows: &[(i64, &[u8])]) -> String {
    let mut said = String::new(alloc);
    for (time, bytes) in rows {
        let record = record(alloc, *time, b"");
        note_moment(&mut said, record.as_slice(), *time, bytes);
        drop(record);
    }
    said
}

#[test]
fn moments_before_1970_are_in_twos_complement(rt: HostRuntime) {
    let wanted = "57 true true 57 true true 57 true true ";
    compare(&rt, moments_said(rt.alloc(), &MOMENTS), wanted);
}

/// Puts a record where one stands that is as long.
fn put_over<D: Disk>(disk: &mut D, file: File, at: u64, record: &[u8]) -> Result<(), Failed> {
    if at > disk.length(file)? {
        return Err(Failed);
    }
    append(disk, file, at, record)
}

/// Writes what the reader answers: the text of the event and the place after it, `end`, or the fault.
fn note_next<D: Disk>(said: &mut String, reader: &mut Reader, disk: &mut D, ask: (File, u64, u64)) {
    let (file, at, until) = ask;
    match reader.next(disk, file, at, until) {
        Ok(Some((found, next))) => {
            say(said, shown(found.raw));
            note(said, next);
        }
        Ok(None) => say(said, "end"),
        Err(fault) => note(said, fault),
    }
}

/// Writes what a reader answers that is asked for one record after the other, each in a file from a place on and up to another.
fn note_all<D: Disk>(
    said: &mut String,
    reader: &mut Reader,
    disk: &mut D,
    asks: &[(File, u64, u64)],
) {
    for ask in asks {
        note_next(said, reader, disk, *ask);
    }
}

/// Where records are asked for. In the last six rows the record ends past the place, the place is no record's, is behind the
/// end or the file ends before it.
static ASKED: [(File, u64, u64); 14] = [
    (HOME, 0, 120),
    (HOME, 60, 120),
    (COLD, 0, 60),
    (HOME, 60, 120),
    (HOME, 0, 60),
    (HOME, 120, 120),
    (HOME, 0, 0),
    (COLD, 7, 7),
    (HOME, 0, 59),
    (HOME, 60, 119),
    (HOME, 1, 120),
    (HOME, 120, 60),
    (COLD, 60, 120),
    (COLD, 9, 8),
];

static COUNTED: [(File, u64); 6] = [
    (HOME, 0),
    (HOME, 60),
    (HOME, 120),
    (HOME, 119),
    (HOME, 121),
    (COLD, 60),
];

/// What the files are removed and the records put with, read, not read and counted, and then what is new.
const RUN_SAID: &str = "Ok(()) Ok(()) Ok(()) Ok(()) Ok(()) \
    one 60 two 120 six 60 two 120 one 60 end end end \
    BadRecord { at: 0 } BadRecord { at: 60 } BadRecord { at: 1 } BadRecord { at: 120 } BadRecord { at: 60 } \
    BadRecord { at: 9 } \
    Ok(0) Ok(1) Ok(2) Err(BadRecord { at: 60 }) Err(BadRecord { at: 120 }) Ok(1) \
    Ok(()) ten 180 Ok(()) six 180 ";

/// The text of a record that takes 30,000 bytes.
const TEXT: [u8; 29_943] = [b'x'; 29_943];

/// Puts so many records of 30,000 bytes, and writes where the last one ends.
fn note_long(said: &mut String, alloc: Global, disk: &mut MemDisk, count: usize) {
    for _ in 0..count {
        if put_record(alloc, disk, HOME, MOMENT, &TEXT).is_err() {
            say(said, "not put");
        }
    }
    note(said, disk.length(HOME));
}

/// How many records a reader reads from the front up to a place.
fn read_long(reader: &mut Reader, disk: &mut MemDisk, until: u64) -> usize {
    let mut at = 0;
    for count in 0..1_000 {
        match reader.next(disk, HOME, at, until) {
            Ok(Some((_, next))) => at = next,
            _ => return count,
        }
    }
    1_000
}

fn pieces_said(alloc: Global) -> String {
    let mut said = String::new(alloc);
    let mut disk = empty(alloc);
    note_long(&mut said, alloc, &mut disk, 100);
    let before = disk.asked(HOME);
    if let Ok(mut reader) = Reader::new(alloc) {
        note(&mut said, read_long(&mut reader, &mut disk, 3_000_000));
        drop(reader);
    }
    note(&mut said, disk.asked(HOME).saturating_sub(before));
    drop(disk);
    said
}

#[test]
fn a_bucket_is_read_in_pieces(rt: HostRuntime) {
    // A mebibyte has 34 records whole, and the next piece begins with the one behind them: three pieces. For each of them
    // the length of its first record is read, and the length of the file asked for.
    compare(&rt, pieces_said(rt.alloc()), "Ok(3000000) 100 9 ");
}

/// Writes what a reader answers of a record that is put behind what it holds, and of one that is put over that once it has
/// forgotten.
fn note_new<D: Disk>(said: &mut String, alloc: Global, reader: &mut Reader, disk: &mut D) {
    note(said, put_record(alloc, disk, HOME, MOMENT, b"ten"));
    note_next(said, reader, disk, (HOME, 120, 180));
    let record = record(alloc, MOMENT, b"six");
    note(said, put_over(disk, HOME, 120, record.as_slice()));
    drop(record);
    reader.forget();
    note_next(said, reader, disk, (HOME, 120, 180));
}

/// Puts records of 60 bytes, two in the one file and one in the other, on a disk from which the files are removed first, and writes what
/// that answered.
fn note_records<D: Disk>(said: &mut String, alloc: Global, disk: &mut D) {
    note(said, disk.remove(HOME));
    note(said, disk.remove(COLD));
    note(said, put_record(alloc, disk, HOME, MOMENT, b"one"));
    note(said, put_record(alloc, disk, HOME, MOMENT, b"two"));
    note(said, put_record(alloc, disk, COLD, MOMENT, b"six"));
}

/// Writes how many records a reader counts in a file up to a place.
fn note_counts<D: Disk>(
    said: &mut String,
    reader: &mut Reader,
    disk: &mut D,
    rows: &[(File, u64)],
) {
    for (file, until) in rows {
        note(said, count_records(reader, disk, *file, *until));
    }
}

/// Writes what a reader answers on a disk with these records, and of what is new there.
pub fn note_run<D: Disk>(said: &mut String, alloc: Global, disk: &mut D) {
    note_records(said, alloc, disk);
    if let Ok(mut reader) = Reader::new(alloc) {
        note_all(said, &mut reader, disk, &ASKED);
        note_counts(said, &mut reader, disk, &COUNTED);
        note_new(said, alloc, &mut reader, disk);
        drop(reader);
    }
}

#[test]
fn events_are_read_in_turn_and_anywhere(rt: HostRuntime) {
    let found = memory_said(rt.alloc(), Work::Records);
    compare(&rt, found, RUN_SAID);
}

#[test]
fn events_of_real_files_are_read(rt: HostRuntime) {
    compare(&rt, machine_said(&rt, Work::Records), RUN_SAID);
}

/// How many bytes the long record takes, and where it ends behind one of 60.
const LONG: usize = 1_048_577;

const END: u64 = 60 + 57 + 1_048_577;

/// A disk with one event.
fn with_one(alloc: Global) -> MemDisk {
    let mut disk = empty(alloc);
    let _ = put_record(alloc, &mut disk, HOME, MOMENT, b"one");
    disk
}

/// Puts a long record, and bytes behind it that begin like a longer one still.
fn put_long(alloc: Global, disk: &mut MemDisk) {
    let raw = vec![in alloc; 0x78u8; LONG].unwrap_or(Vec::new(alloc));
    let _ = put_record(alloc, disk, HOME, MOMENT, &raw);
    drop(raw);
    let _ = put(disk, HOME, &[0xFF; 70]);
}

/// Where no record is, or one that ends past the place.
static NO_RECORD: [(File, u64, u64); 3] = [
    (HOME, END, END + 70),
    (HOME, END, u64::MAX),
    (HOME, 60, END - 1),
];

/// What a reader counts there, and answers of what is no record.
fn long_said(alloc: Global) -> String {
    let mut said = String::new(alloc);
    let mut disk = with_one(alloc);
    put_long(alloc, &mut disk);
    if let Ok(mut reader) = Reader::new(alloc) {
        note(&mut said, count_records(&mut reader, &mut disk, HOME, END));
        note_all(&mut said, &mut reader, &mut disk, &NO_RECORD);
        drop(reader);
    }
    drop(disk);
    said
}

#[test]
fn a_record_longer_than_a_piece_is_read_and_a_forged_length_is_not(rt: HostRuntime) {
    let wanted = "Ok(2) BadRecord { at: 1048694 } BadRecord { at: 1048694 } BadRecord { at: 60 } ";
    compare(&rt, long_said(rt.alloc()), wanted);
}

/// Writes what a reader answers that is asked twice for one event, where one call of the disk fails.
fn note_twice(said: &mut String, alloc: Global, number: u64) {
    let mut disk = OneFail::new(with_one(alloc), number);
    if let Ok(mut reader) = Reader::new(alloc) {
        note_all(said, &mut reader, &mut disk, &[(HOME, 0, 60); 2]);
        drop(reader);
    }
    drop(disk);
}

fn fails_said(alloc: Global) -> String {
    let mut said = String::new(alloc);
    for number in 0u64..4 {
        note_twice(&mut said, alloc, number);
    }
    said
}

#[test]
fn a_read_that_fails_is_told_and_done_again(rt: HostRuntime) {
    let wanted = "Disk one 60 Disk one 60 Disk one 60 one 60 one 60 ";
    compare(&rt, fails_said(rt.alloc()), wanted);
}

/// Writes how many records a file has up to a place.
fn note_count<D: Disk>(said: &mut String, alloc: Global, disk: &mut D, until: u64) {
    if let Ok(mut reader) = Reader::new(alloc) {
        note(said, count_records(&mut reader, disk, HOME, until));
        drop(reader);
    }
}

/// Writes how many records a crash leaves where the disk stops before a call of the append of a second one: two where the
/// append was done, and else the one before.
fn note_stop(said: &mut String, alloc: Global, calls: u64, torn: bool) {
    let mut stopped = StopDisk::new(with_one(alloc), calls);
    let done = put_record(alloc, &mut stopped, HOME, MOMENT, b"two");
    let disk = stopped.into_inner();
    if let Ok(mut left) = disk.crash(torn) {
        note_count(said, alloc, &mut left, if done.is_ok() { 120 } else { 60 });
        drop(left);
    }
    drop(disk);
}

fn stops_said(alloc: Global) -> String {
    let mut said = String::new(alloc);
    for calls in 0u64..4 {
        note_stop(&mut said, alloc, calls, false);
        note_stop(&mut said, alloc, calls, true);
    }
    said
}

#[test]
fn an_append_that_stops_leaves_what_stood_before(rt: HostRuntime) {
    let wanted = "Ok(1) Ok(1) Ok(1) Ok(1) Ok(1) Ok(1) Ok(2) Ok(2) ";
    compare(&rt, stops_said(rt.alloc()), wanted);
}
