//! Tests of `ix_disk`. Each test asks a disk for a row of calls, and compares what they answer as one text.

use crate::machine::steps_said;
use crate::made::{empty, failing};
use crate::said::{compare, front, note, shown};
use ix_base::{Area, Failed, File};
use ix_disk::{Disk, HostDisk, LockFiles, MemDisk, OneFail, StopDisk};
use std::alloc::Global;
use std::fmt::Debug;
use std::fs;
use std::process::Abort;
use std::rt::Files;

const LOG: File = File {
    area: Area::Meta,
    number: 1,
};

const NEXT: File = File {
    area: Area::Meta,
    number: 3,
};

const OTHER: File = File {
    area: Area::Cold,
    number: 9,
};

const CUT_ONE: File = File {
    area: Area::Meta,
    number: 4,
};

const EARLY: File = File {
    area: Area::Meta,
    number: 5,
};

const LATER: File = File {
    area: Area::Cold,
    number: 100,
};

const BUCKET: File = File {
    area: Area::Home,
    number: 7,
};

const KEPT: File = File {
    area: Area::Cold,
    number: 7,
};

const GONE: File = File {
    area: Area::Thawed,
    number: 18_446_744_073_709_551_615,
};

const NEVER: File = File {
    area: Area::Frozen,
    number: 0,
};

/// A call of a disk.
#[derive(Clone, Copy)]
pub enum Ask<'a> {
    /// A write, where the place is within the file.
    Write(File, u64, &'a [u8]),
    Sync(File),
    Remove(File),
    Length(File),
    /// A read of three bytes into a buffer of dots, which is shown whole.
    Read(File, u64),
    /// What the file holds, of 16 bytes at the most, and how long it is.
    Held(File),
}

fn write<D: Disk>(disk: &mut D, file: File, at: u64, bytes: &[u8]) -> Result<(), Failed> {
    if at > disk.length(file)? {
        return Err(Failed);
    }
    disk.write_at(file, at, bytes)
}

/// Writes whether a call was done.
fn note_done(text: &mut String, done: Result<(), Failed>) {
    let word = if done.is_ok() { "ok " } else { "failed " };
    let _ = text.push_str(word);
}

/// Writes the number that a call answered.
fn note_number<N: Debug + Drop>(text: &mut String, number: Result<N, Failed>) {
    match number {
        Ok(number) => note(text, number),
        Err(Failed) => note_done(text, Err(Failed)),
    }
}

/// Writes bytes between brackets.
fn note_bytes(text: &mut String, bytes: &[u8]) {
    let _ = text.push('[');
    let _ = text.push_str(shown(bytes));
    let _ = text.push(']');
}

fn note_read<D: Disk>(text: &mut String, disk: &mut D, file: File, at: u64) {
    let mut buf = [b'.'; 3];
    let read = disk.read(file, at, &mut buf);
    note_bytes(text, &buf);
    note_number(text, read);
}

fn note_held<D: Disk>(text: &mut String, disk: &mut D, file: File) {
    let mut buf = [0xEE; 16];
    let read = disk.read(file, 0, &mut buf);
    note_bytes(text, buf.get(..read.unwrap_or(0)).unwrap_or(&[]));
    note_number(text, read);
    note_number(text, disk.length(file));
}

fn note_ask<D: Disk>(text: &mut String, disk: &mut D, ask: Ask<'_>) {
    match ask {
        Ask::Write(file, at, bytes) => note_done(text, write(disk, file, at, bytes)),
        Ask::Sync(file) => note_done(text, disk.sync(file)),
        Ask::Remove(file) => note_done(text, disk.remove(file)),
        Ask::Length(file) => note_number(text, disk.length(file)),
        Ask::Read(file, at) => note_read(text, disk, file, at),
        Ask::Held(file) => note_held(text, disk, file),
    }
}

/// Writes what the calls answer, one behind the other.
fn note_all<D: Disk>(text: &mut String, disk: &mut D, asks: &[Ask<'_>]) {
    for ask in asks {
        note_ask(text, disk, *ask);
    }
}

/// Writes what the calls answer on the disk that a crash leaves.
fn note_left(text: &mut String, disk: &MemDisk, torn: bool, asks: &[Ask<'_>]) {
    if let Ok(mut left) = disk.crash(torn) {
        note_all(text, &mut left, asks);
        drop(left);
    }
}

/// Writes what they answer on the disk that a crash leaves of what a crash left. Both tear the files.
fn note_left_twice(text: &mut String, disk: &MemDisk, asks: &[Ask<'_>]) {
    if let Ok(torn) = disk.crash(true) {
        note_left(text, &torn, true, asks);
        drop(torn);
    }
}

/// Writes how many calls there were, how many asked for the bytes or the length of the log, and how many found no room.
fn note_counts(text: &mut String, disk: &MemDisk) {
    note(text, disk.calls());
    note(text, disk.asked(LOG));
    note(text, disk.shortages());
}

/// What is done with a disk in memory.
#[derive(Clone, Copy)]
enum Part {
    All(&'static [Ask<'static>]),
    /// The calls are counted.
    Counts,
    /// The calls are asked of what a crash leaves, which tears the files or does not.
    Left(bool, &'static [Ask<'static>]),
    /// They are asked of what two crashes leave, one behind the other.
    LeftTwice(&'static [Ask<'static>]),
}

fn note_part(text: &mut String, disk: &mut MemDisk, part: Part) {
    match part {
        Part::All(asks) => note_all(text, disk, asks),
        Part::Counts => note_counts(text, disk),
        Part::Left(torn, asks) => note_left(text, disk, torn, asks),
        Part::LeftTwice(asks) => note_left_twice(text, disk, asks),
    }
}

/// What the parts answer on a disk in memory of which the calls of these numbers fail.
fn parts_said(alloc: Global, numbers: &[u64], parts: &[Part]) -> String {
    let mut text = String::new(alloc);
    let mut disk = MemDisk::new(alloc, failing(alloc, numbers));
    for part in parts {
        note_part(&mut text, &mut disk, *part);
    }
    drop(disk);
    text
}

/// One file with a part written anew and one byte more, one that no sync settled, and two that were removed.
const RUN: &[Ask<'static>] = &[
    Ask::Write(LOG, 0, b"abcdef"),
    Ask::Sync(LOG),
    Ask::Write(LOG, 2, b"XY"),
    Ask::Write(LOG, 6, b"Z"),
    Ask::Write(BUCKET, 0, b"new"),
    Ask::Write(KEPT, 0, b"old"),
    Ask::Sync(KEPT),
    Ask::Remove(KEPT),
    Ask::Write(GONE, 0, b"old"),
    Ask::Sync(GONE),
    Ask::Remove(GONE),
    Ask::Sync(GONE),
];

const ALL: &[Ask<'static>] = &[
    Ask::Held(LOG),
    Ask::Held(BUCKET),
    Ask::Held(KEPT),
    Ask::Held(GONE),
    Ask::Held(NEVER),
];

static CRASHES: [Part; 7] = [
    Part::All(RUN),
    Part::Counts,
    Part::All(ALL),
    Part::Counts,
    Part::Left(false, ALL),
    Part::Left(true, ALL),
    Part::LeftTwice(ALL),
];

/// What the run leaves to be read, before and behind a crash, and then twice what it leaves where a crash tears the files.
const CRASHES_SAID: &str = "ok ok ok ok ok ok ok ok ok ok ok ok 18 3 0 \
    [abXYefZ]7 7 [new]3 3 []0 0 []0 0 []0 0 28 5 0 \
    [abXYefZ]7 7 [new]3 3 []0 0 []0 0 []0 0 \
    [ab\x01\x01ef]6 6 []0 0 [old]3 3 []0 0 []0 0 \
    [ab\x01\x01ef]6 6 []0 0 [old]3 3 []0 0 []0 0 ";

#[test]
fn a_crash_leaves_what_was_read_or_tears_it(rt: HostRuntime) {
    compare(&rt, parts_said(rt.alloc(), &[], &CRASHES), CRASHES_SAID);
}

/// A file that was removed and made anew over the settled one, and then settled.
static ANEW: [Part; 5] = [
    Part::All(RUN),
    Part::All(&[Ask::Write(KEPT, 0, b"now"), Ask::Write(KEPT, 3, b"er")]),
    Part::Left(true, &[Ask::Held(KEPT)]),
    Part::All(&[Ask::Sync(KEPT)]),
    Part::Left(true, &[Ask::Held(KEPT)]),
];

#[test]
fn a_file_that_is_made_anew_is_torn_until_it_is_settled(rt: HostRuntime) {
    let wanted = "ok ok ok ok ok ok ok ok ok ok ok ok ok ok [\x01\x01\x01]3 3 ok [nower]5 5 ";
    compare(&rt, parts_said(rt.alloc(), &[], &ANEW), wanted);
}

/// Calls 0 to 2 make the file; 4 is a write, 7 a sync, 8 a removal, 9 a read.
const WITH_FAULTS: &[Ask<'static>] = &[
    Ask::Write(LOG, 0, b"abcd"),
    Ask::Sync(LOG),
    Ask::Write(LOG, 0, b"X"),
    Ask::Write(LOG, 3, b"YY"),
    Ask::Sync(LOG),
    Ask::Remove(LOG),
    Ask::Length(LOG),
];

/// What is read behind them, and that the file is settled.
const BEHIND_FAULTS: &[Ask<'static>] = &[
    Ask::Sync(LOG),
    Ask::Read(LOG, 0),
    Ask::Read(LOG, 3),
    Ask::Read(LOG, 5),
    Ask::Read(LOG, u64::MAX),
];

static FAULTS: [Part; 6] = [
    Part::All(WITH_FAULTS),
    Part::Counts,
    Part::Left(false, &[Ask::Held(LOG)]),
    Part::Left(true, &[Ask::Held(LOG)]),
    Part::All(BEHIND_FAULTS),
    Part::Left(true, &[Ask::Held(LOG)]),
];

#[test]
fn a_failed_call_counts_as_begun(rt: HostRuntime) {
    let wanted = "ok ok failed ok failed failed failed 10 4 0 [abcYY]5 5 [\x01bc\x01]4 4 \
        ok [abc]3 [YY.]2 [...]0 [...]0 [abcYY]5 5 ";
    compare(&rt, parts_said(rt.alloc(), &[4, 7, 8, 9], &FAULTS), wanted);
}

static STOPPED: [Ask<'static>; 4] = [
    Ask::Write(LOG, 0, b"abcdef"),
    Ask::Sync(LOG),
    Ask::Write(LOG, 2, b"XY"),
    Ask::Remove(LOG),
];

/// The disk stops before the write of the part, and before each call behind it.
fn stop_said(alloc: Global) -> String {
    let mut text = String::new(alloc);
    let mut stopped = StopDisk::new(empty(alloc), 4);
    note_all(&mut text, &mut stopped, &STOPPED);
    note(&mut text, stopped.faults);
    let disk = stopped.into_inner();
    note(&mut text, disk.calls());
    drop(disk);
    text
}

#[test]
fn a_disk_stops_before_a_call(rt: HostRuntime) {
    compare(&rt, stop_said(rt.alloc()), "ok ok failed failed 2 4 ");
}

/// A disk that is lent to the one that stops it goes on behind it.
fn lent_said(alloc: Global) -> String {
    let mut text = String::new(alloc);
    let mut disk = empty(alloc);
    note_all(&mut text, &mut StopDisk::new(&mut disk, 4), &STOPPED);
    note_all(&mut text, &mut disk, &[Ask::Held(LOG), Ask::Sync(LOG)]);
    drop(disk);
    text
}

#[test]
fn a_disk_goes_on_behind_the_one_that_stopped_it(rt: HostRuntime) {
    let wanted = "ok ok failed failed [abcdef]6 6 ok ";
    compare(&rt, lent_said(rt.alloc()), wanted);
}

static ONCE: [Ask<'static>; 3] = [
    Ask::Write(LOG, 0, b"abcd"),
    Ask::Write(LOG, 2, b"12"),
    Ask::Write(LOG, 4, b"34"),
];

/// The second write fails, and nothing else.
fn once_said(alloc: Global) -> String {
    let mut text = String::new(alloc);
    let mut once = OneFail::new(empty(alloc), 3);
    note_all(&mut text, &mut once, &ONCE);
    note(&mut text, once.faults);
    let mut disk = once.into_inner();
    note(&mut text, disk.calls());
    note_held(&mut text, &mut disk, LOG);
    drop(disk);
    text
}

#[test]
fn a_disk_fails_once(rt: HostRuntime) {
    compare(&rt, once_said(rt.alloc()), "ok failed ok 1 5 [abcd34]6 6 ");
}

/// Settles so many blocks, each behind the others.
fn fill<D: Disk>(disk: &mut D, blocks: usize) -> Result<(), Failed> {
    let block = [7; 1024];
    for _ in 0..blocks {
        let length = disk.length(LOG)?;
        write(disk, LOG, length, &block)?;
        disk.sync(LOG)?;
    }
    Ok(())
}

/// How many bytes so many reads of a block get.
fn read_often<D: Disk>(disk: &mut D, times: usize) -> Result<usize, Failed> {
    let mut buf = [0; 1024];
    let mut count = 0usize;
    for _ in 0..times {
        let read = disk.read(LOG, 1_000_000, &mut buf)?;
        count = count.saturating_add(read);
    }
    Ok(count)
}

fn long_said(alloc: Global) -> String {
    let mut text = String::new(alloc);
    let mut disk = empty(alloc);
    note_done(&mut text, fill(&mut disk, 4000));
    note_number(&mut text, read_often(&mut disk, 20_000));
    note_left(&mut text, &disk, true, &[Ask::Length(LOG)]);
    drop(disk);
    text
}

#[test]
fn many_syncs_and_reads_of_a_long_file(rt: HostRuntime) {
    compare(&rt, long_said(rt.alloc()), "ok 20480000 4096000 ");
}

/// What is done with the files of the machine, not by a disk.
#[derive(Clone, Copy)]
pub enum Change {
    /// A file is removed.
    Remove(&'static str),
    /// A folder is made.
    Folder(&'static str),
    /// A file is made that holds nothing.
    Empty(&'static str),
    /// A file or a folder gets another name.
    Move(&'static str, &'static str),
    /// What another test may have left gets another name.
    Clear(&'static str, &'static str),
    /// A folder is kept from being written, unless by the owner of the machine.
    Lock(&'static str),
}

/// Keeps a folder from being written, unless by the owner of the machine.
fn is_locked<R: Files>(rt: &R, path: &str) -> bool {
    match fs::metadata(rt, path) {
        Ok(found) => {
            let mut how = found.permissions();
            how.set_readonly(true);
            fs::set_permissions(rt, path, how).is_ok()
        }
        Err(_) => false,
    }
}

/// Whether the system did what it was asked for.
fn is_changed<R: Files>(rt: &R, change: Change) -> bool {
    match change {
        Change::Remove(path) => fs::remove_file(rt, path).is_ok(),
        Change::Folder(path) => fs::create_dir(rt, path).is_ok(),
        Change::Empty(path) => fs::write(rt, path, "").is_ok(),
        Change::Move(from, to) => fs::rename(rt, from, to).is_ok(),
        Change::Clear(from, to) => {
            let _ = fs::rename(rt, from, to);
            true
        }
        Change::Lock(path) => is_locked(rt, path),
    }
}

/// Says where the system did not do what the test asked it for.
fn note_change<R: Files>(text: &mut String, rt: &R, change: Change) {
    if !is_changed(rt, change) {
        let _ = text.push_str("not made ");
    }
}

/// Writes what a file of the machine holds.
fn note_file<R: Files + AllocGlobal>(text: &mut String, rt: &R, path: &str) {
    if let Ok(file) = fs::read_to_string(rt, path) {
        let _ = text.push_str(file.as_str());
        drop(file);
    }
}

/// What is done with a disk of the machine.
#[derive(Clone, Copy)]
pub enum Step {
    All(&'static [Ask<'static>]),
    /// The calls on one more disk of the machine.
    Beside(&'static [Ask<'static>]),
    /// The disk takes its lock.
    Lock,
    /// The other one does, and how often it was refused is shown.
    LockBeside,
    /// A write of one byte at any place.
    Byte(File, u64),
    /// A write of one byte to each of so many files, whose numbers follow this one's.
    Row(File, u64),
    Change(Change),
    /// What a file of the machine holds is shown.
    Show(&'static str),
}

/// Writes what a lock answers, and how often it was refused where it was.
fn note_lock<R: LockFiles + Drop>(text: &mut String, disk: &mut HostDisk<R>) {
    match disk.lock() {
        Ok(()) => note_done(text, Ok(())),
        Err(fault) => {
            note(text, fault);
            note(text, disk.refused());
        }
    }
}

/// Writes what a write of one byte to each of so many files answers.
fn note_row<D: Disk>(text: &mut String, disk: &mut D, first: File, count: u64) {
    for number in first.number..first.number.saturating_add(count) {
        let file = File {
            area: first.area,
            number,
        };
        note_done(text, disk.write_at(file, 0, b"x"));
    }
}

fn note_step<R: LockFiles + AllocGlobal + Drop>(
    text: &mut String,
    rt: &R,
    disk: &mut HostDisk<R>,
    beside: &mut HostDisk<R>,
    step: Step,
) {
    match step {
        Step::All(asks) => note_all(text, disk, asks),
        Step::Beside(asks) => note_all(text, beside, asks),
        Step::Lock => note_lock(text, disk),
        Step::LockBeside => note_lock(text, beside),
        Step::Byte(file, at) => note_done(text, disk.write_at(file, at, b"x")),
        Step::Row(first, count) => note_row(text, disk, first, count),
        Step::Change(change) => note_change(text, rt, change),
        Step::Show(path) => note_file(text, rt, path),
    }
}

/// Writes what the steps answer, one behind the other.
pub fn note_steps<R: LockFiles + AllocGlobal + Drop>(
    text: &mut String,
    rt: &R,
    disk: &mut HostDisk<R>,
    beside: &mut HostDisk<R>,
    steps: &[Step],
) {
    for step in steps {
        note_step(text, rt, disk, beside, *step);
    }
}

/// Files are kept where a disk of the machine puts them. Another disk of the same files is let in to none of them.
const IN_PLACE: &[Step] = &[
    Step::All(&[Ask::Sync(LOG), Ask::Remove(LOG)]),
    Step::All(RUN),
    Step::All(ALL),
    Step::Lock,
    Step::LockBeside,
    Step::Beside(&[Ask::Length(LOG), Ask::Read(LOG, 0)]),
    Step::Beside(&[Ask::Sync(LOG), Ask::Remove(LOG)]),
    Step::Show("var/meta/1"),
];

const IN_PLACE_SAID: &str = "ok ok ok ok ok ok ok ok ok ok ok ok ok ok \
    [abXYefZ]7 7 [new]3 3 []0 0 []0 0 []0 0 \
    ok InUse 1 failed [...]failed failed failed abXYefZ";

/// The next disk finds them.
const FOUND: &[Step] = &[Step::All(ALL)];

const FOUND_SAID: &str = "[abXYefZ]7 7 [new]3 3 []0 0 []0 0 []0 0 ";

/// A folder in place of a file, and a file in place of a folder; the five calls on a file, each of which fails where a folder
/// is in its place or its folder cannot be; and a write past each file's end.
const NO_FILE: &[Step] = &[
    Step::Change(Change::Remove("var/home/7")),
    Step::Change(Change::Folder("var/home/7")),
    Step::Change(Change::Clear("var/frozen", "var/copies")),
    Step::Change(Change::Empty("var/frozen")),
    Step::All(&[Ask::Length(BUCKET), Ask::Read(BUCKET, 0)]),
    Step::Byte(BUCKET, 0),
    Step::All(&[Ask::Sync(BUCKET), Ask::Remove(BUCKET)]),
    Step::All(&[Ask::Length(NEVER), Ask::Read(NEVER, 0)]),
    Step::Byte(NEVER, 0),
    Step::All(&[Ask::Sync(NEVER), Ask::Remove(NEVER)]),
    Step::Byte(LOG, u64::MAX),
];

const NO_FILE_SAID: &str = "failed [...]failed failed failed failed \
    failed [...]failed failed failed failed failed 11 ";

/// A folder that cannot be written stays empty.
const READ_ONLY: &[Step] = &[
    Step::Change(Change::Lock("var/thawed")),
    Step::Byte(GONE, 0),
    Step::All(&[Ask::Held(GONE)]),
];

/// A file that is taken away behind a write: no call on it is done any more, and no sync of any file.
const TAKEN_AWAY: &[Step] = &[
    Step::All(&[Ask::Write(LOG, 7, b"!"), Ask::Sync(LOG)]),
    Step::Change(Change::Move("var/meta/1", "var/meta/2")),
    Step::All(&[Ask::Length(LOG), Ask::Sync(LOG), Ask::Sync(KEPT)]),
    Step::Byte(LOG, 0),
    Step::Byte(LOG, 8),
    Step::All(&[Ask::Remove(LOG)]),
];

const TAKEN_AWAY_SAID: &str = "ok ok failed failed failed failed failed failed 6 ";

/// Another file comes into the place of one that was written, as long as it.
const REPLACED: &[Step] = &[
    Step::All(&[Ask::Write(NEXT, 0, b"next"), Ask::Sync(NEXT)]),
    Step::All(&[Ask::Write(OTHER, 0, b"next"), Ask::Sync(OTHER)]),
    Step::Change(Change::Move("var/cold/9", "var/meta/3")),
    Step::All(&[Ask::Read(NEXT, 0)]),
    Step::Byte(NEXT, 4),
    Step::All(&[Ask::Sync(NEXT), Ask::Sync(KEPT)]),
];

const REPLACED_SAID: &str = "ok ok ok ok [...]failed failed failed failed 4 ";

/// A file that was written is cut, and one ends before the place of a write.
const CUT: &[Step] = &[
    Step::All(&[Ask::Write(CUT_ONE, 0, b"cut"), Ask::Sync(CUT_ONE)]),
    Step::Byte(CUT_ONE, 4),
    Step::Byte(CUT_ONE, 3),
    Step::Change(Change::Empty("var/meta/4")),
    Step::All(&[Ask::Length(CUT_ONE), Ask::Read(CUT_ONE, 0)]),
    Step::Byte(CUT_ONE, 0),
    Step::All(&[Ask::Sync(CUT_ONE), Ask::Sync(KEPT)]),
];

const CUT_SAID: &str = "ok ok failed ok failed [...]failed failed failed failed 6 ";

/// A file is cut that was written before 17 others.
const CUT_LATER: &[Step] = &[
    Step::All(&[Ask::Write(EARLY, 0, b"early")]),
    Step::Row(LATER, 17),
    Step::Change(Change::Empty("var/meta/5")),
    Step::All(&[Ask::Length(EARLY), Ask::Read(EARLY, 0)]),
    Step::All(&[Ask::Sync(EARLY), Ask::Sync(LATER)]),
];

const CUT_LATER_SAID: &str = "ok ok ok ok ok ok ok ok ok ok ok ok ok ok ok ok ok ok \
    failed [...]failed failed failed 4 ";

const BY_THE_OWNER: &str = "ok [x]1 1 ";

const BY_OTHERS: &str = "failed []0 0 1 ";

fn compare_read_only(rt: &impl Abort, found: String) {
    let is_owner = found.as_str() == BY_THE_OWNER;
    compare(rt, found, if is_owner { BY_THE_OWNER } else { BY_OTHERS });
}

#[test]
fn the_disk_of_the_machine_has_real_files(rt: HostRuntime) {
    compare(&rt, steps_said(&rt, IN_PLACE), IN_PLACE_SAID);
    compare(&rt, steps_said(&rt, FOUND), FOUND_SAID);
    compare(&rt, steps_said(&rt, NO_FILE), NO_FILE_SAID);
    let taken = steps_said(&rt, TAKEN_AWAY);
    compare(&rt, taken, TAKEN_AWAY_SAID);
    compare(&rt, steps_said(&rt, REPLACED), REPLACED_SAID);
    compare(&rt, steps_said(&rt, CUT), CUT_SAID);
    compare(&rt, steps_said(&rt, CUT_LATER), CUT_LATER_SAID);
    compare_read_only(&rt, steps_said(&rt, READ_ONLY));
}
