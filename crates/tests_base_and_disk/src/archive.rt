//! Copies of the first bytes of files.

use crate::machine::{Work, machine_said, memory_said};
use crate::made::empty;
use crate::said::{compare, front, note, say};
use ix_archive::{check, copy};
use ix_base::{Area, Failed, File};
use ix_disk::{Disk, MemDisk, OneFail, StopDisk};
use std::alloc::Global;

const FROM: File = File {
    area: Area::Cold,
    number: 2,
};

const TO: File = File {
    area: Area::Frozen,
    number: 1,
};

const TEXT: &[u8] = b"abcdefghij";

/// Puts bytes at the end of a file, and syncs it.
fn put<D: Disk>(disk: &mut D, file: File, bytes: &[u8]) -> Result<(), Failed> {
    let at = disk.length(file)?;
    disk.write_at(file, at, bytes)?;
    disk.sync(file)
}

/// Writes what the file holds, of 20 bytes at the most.
fn note_held<D: Disk>(text: &mut String, disk: &mut D, file: File) {
    let mut buf = [0u8; 20];
    let count = disk.read(file, 0, &mut buf).unwrap_or(0);
    say(text, front(&buf, count));
}

/// Writes what a copy of so many bytes by pieces of a size answers, 1 to 16, and what the file holds then that it went to.
fn note_copy<D: Disk>(text: &mut String, disk: &mut D, to: File, len: u64, size: usize) {
    let mut buf = [0u8; 16];
    let size = size.max(1).min(16);
    note(text, copy(disk, FROM, to, len, &mut buf[..size]));
    note_held(text, disk, to);
}

/// Files, lengths, and the sizes of the pieces. The last copy goes to its source.
static COPIES: [(File, u64, usize); 9] = [
    (TO, 0, 4),
    (TO, 1, 4),
    (TO, 4, 4),
    (TO, 7, 3),
    (TO, 9, 16),
    (TO, 10, 1),
    (TO, 11, 4),
    (TO, u64::MAX, 4),
    (FROM, 10, 4),
];

const COPIED: &str =
    "Ok(()) Ok(()) Ok(()) Ok(()) Ok(()) 0123456789!? Ok(()) a123456789!? Ok(()) abcd456789!? Ok(()) abcdefg789!? \
    Ok(()) abcdefghi9!? Ok(()) abcdefghij!? Err(Short { at: 10 }) abcdefghij!? Err(Short { at: 10 }) abcdefghij!? \
    Ok(()) abcdefghij Ok(true) Ok(true) Ok(false) Ok(true) Ok(false) ";

static CHECKS: [(File, u64); 5] = [(FROM, 0), (FROM, 10), (FROM, 11), (TO, 12), (TO, u64::MAX)];

/// Removes a file, and puts bytes in its place.
fn note_anew<D: Disk>(text: &mut String, disk: &mut D, file: File, bytes: &[u8]) {
    note(text, disk.remove(file));
    note(text, put(disk, file, bytes));
}

fn note_all_copies<D: Disk>(text: &mut String, disk: &mut D, rows: &[(File, u64, usize)]) {
    for (to, len, size) in rows {
        note_copy(text, disk, *to, *len, *size);
    }
}

fn note_all_checks<D: Disk>(text: &mut String, disk: &mut D, rows: &[(File, u64)]) {
    for (file, len) in rows {
        note(text, check(disk, *file, *len));
    }
}

/// Writes what calls answer on a disk from which the files are removed first.
pub fn note_run<D: Disk>(text: &mut String, disk: &mut D) {
    note_anew(text, disk, FROM, TEXT);
    note_anew(text, disk, TO, b"0123456789!?");
    note_all_copies(text, disk, &COPIES);
    note_all_checks(text, disk, &CHECKS);
}

#[test]
fn the_first_bytes_are_copied(rt: HostRuntime) {
    compare(&rt, memory_said(rt.alloc(), Work::Copies), COPIED);
    compare(&rt, machine_said(&rt, Work::Copies), COPIED);
}

/// A disk with a file to copy.
fn with_text(alloc: Global) -> MemDisk {
    let mut disk = empty(alloc);
    let _ = put(&mut disk, FROM, TEXT);
    disk
}

/// Writes what a crash leaves of a copy before one of whose calls the disk stops, and what the copy answers.
fn note_stop(text: &mut String, alloc: Global, calls: u64, torn: bool) {
    let mut stopped = StopDisk::new(with_text(alloc), calls);
    let done = copy(&mut stopped, FROM, TO, 8, &mut [0u8; 4]);
    let disk = stopped.into_inner();
    if let Ok(mut left) = disk.crash(torn) {
        note_held(text, &mut left, FROM);
        if done.is_ok() {
            note_held(text, &mut left, TO);
        }
        drop(left);
    }
    drop(disk);
    note(text, done);
}

/// The length, two pieces of two calls each, and the sync.
const CALLS: u64 = 6;

fn stops_said(alloc: Global) -> String {
    let mut text = String::new(alloc);
    for calls in 0..=CALLS {
        note_stop(&mut text, alloc, calls, false);
        note_stop(&mut text, alloc, calls, true);
    }
    text
}

#[test]
fn a_copy_that_stops_leaves_the_source(rt: HostRuntime) {
    let wanted =
        "abcdefghij Err(Disk) abcdefghij Err(Disk) abcdefghij Err(Disk) abcdefghij Err(Disk) \
        abcdefghij Err(Disk) abcdefghij Err(Disk) abcdefghij Err(Disk) abcdefghij Err(Disk) \
        abcdefghij Err(Disk) abcdefghij Err(Disk) abcdefghij Err(Disk) abcdefghij Err(Disk) \
        abcdefghij abcdefgh Ok(()) abcdefghij abcdefgh Ok(()) ";
    compare(&rt, stops_said(rt.alloc()), wanted);
}

/// Writes what a copy answers, the same copy again, and what the file holds then.
fn note_copies<D: Disk>(text: &mut String, disk: &mut D) {
    for _ in 0..2 {
        note(text, copy(disk, FROM, TO, 8, &mut [0u8; 4]));
    }
    note_held(text, disk, TO);
}

/// Writes that of a disk of which one call fails.
fn note_fail(text: &mut String, alloc: Global, number: u64) {
    let mut disk = OneFail::new(with_text(alloc), number);
    note_copies(text, &mut disk);
    drop(disk);
}

/// Writes what a check answers whose call fails, and the same check again.
fn note_checks(text: &mut String, alloc: Global) {
    let mut disk = OneFail::new(with_text(alloc), 0);
    for _ in 0..2 {
        note(text, check(&mut disk, FROM, 10));
    }
    drop(disk);
}

fn fails_said(alloc: Global) -> String {
    let mut text = String::new(alloc);
    for number in 0..CALLS {
        note_fail(&mut text, alloc, number);
    }
    note_checks(&mut text, alloc);
    text
}

#[test]
fn a_call_that_fails_is_told(rt: HostRuntime) {
    let wanted = "Err(Disk) Ok(()) abcdefgh Err(Disk) Ok(()) abcdefgh Err(Disk) Ok(()) abcdefgh \
        Err(Disk) Ok(()) abcdefgh Err(Disk) Ok(()) abcdefgh Err(Disk) Ok(()) abcdefgh Err(Failed) Ok(true) ";
    compare(&rt, fails_said(rt.alloc()), wanted);
}
