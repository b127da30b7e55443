//! Scripts: what is done with a store, one step behind the other, and what it then says and holds.

use crate::tests::exchanges::{Exchanges, feeds};
use crate::tests::runs::{Files, PIECE, Run, Task, compare, disk_of, run_of, said, told};
use indexd_core::StateMachine;
use ix_base::{Area, Bytes, File};
use ix_disk::{Disk, MemDisk};
use ix_store::Store;
use std::alloc::Global;
use std::process::Abort;

/// A step over a store.
pub(crate) enum Step {
    /// A run, and what it says.
    Run(Task, &'static str),
    /// Two runs, one behind the other, that say the same and leave these files as they were.
    Refused(Task, &'static str, &'static [File]),
    /// A run at noon whose reading fails where the input ends: its words, its files, its input, and what it says.
    Cut(&'static str, Files<'static>, &'static str, &'static str),
    /// A run of `feed` at noon: its files, its requests with their replies, and the status and the line of its end.
    Feed(Files<'static>, Exchanges<'static>, &'static str, &'static str),
    /// A run of `feed` that begins so many channels and sends the blocks from one number up to another: how many replies are
    /// `201`, `200` and `429`, with a space behind each.
    Send(Files<'static>, usize, (usize, usize), &'static str),
    /// How long a file is.
    Length(File, u64),
    /// What a file holds.
    Holds(File, &'static [u8]),
    /// The numbers of the logs that are there.
    Logs(&'static str),
    /// So many of the first bytes of a file are left.
    Shorten(File, usize),
    /// So many zeros are put behind a file.
    Lengthen(File, usize),
    /// Bytes are put into a file, so far behind the place where others stand first.
    Change(File, &'static [u8], usize, &'static [u8]),
    /// The store is asked for a checkpoint, which leaves its listing as it was.
    Checkpoint,
}

/// Steps over one store.
pub(crate) type Script<'a> = &'a [Step];

/// The root log, which names the log.
pub(crate) const ROOT: File = File {
    area: Area::Meta,
    number: 0,
};

/// The first log.
pub(crate) const LOG: File = File {
    area: Area::Meta,
    number: 1,
};

/// The first bucket.
pub(crate) const BUCKET: File = File {
    area: Area::Home,
    number: 1,
};

/// How long a log has to be for a checkpoint.
pub(crate) const LONG: usize = 8_388_608;

/// What a run says whose reading fails where the input ends.
fn cut_off(alloc: Global, line: &str, files: Files<'_>, input: &str, disk: &mut MemDisk) -> String {
    let reads = [input.len().div_ceil(PIECE) as u64];
    let run = Run {
        reads: &reads,
        ..run_of(line, files, input.as_bytes())
    };
    said(alloc, run, disk)
}

/// Begins the channel with this number.
fn add_begin(alloc: Global, number: usize, input: &mut Bytes) {
    let body = "{\"host\":\"h\",\"source\":\"s\"}";
    let mut text = String::new(alloc);
    let _ = write!(
        text,
        "PUT /channels/c{number} HTTP/1.1\r\nContent-Length: {}\r\n\r\n{body}",
        body.len()
    );
    let _ = input.extend(text.as_bytes());
}

/// A block of the channel `c0`: a mebibyte of one letter, without a line end.
fn add_block(number: usize, input: &mut Bytes) {
    let letter = if number % 2 == 0 { b'x' } else { b'y' };
    let piece = [letter; 1024];
    let _ = input.extend(b"POST /channels/c0/blocks HTTP/1.1\r\nContent-Length: 1048576\r\n\r\n");
    for _ in 0..1024 {
        let _ = input.extend(&piece);
    }
}

/// Channels that are begun, `c0`, `c1` and so on, and the blocks from one number up to another.
fn blocks_of(alloc: Global, begins: usize, (from, until): (usize, usize)) -> Bytes {
    let mut input = Bytes::new(alloc);
    for number in 0..begins {
        add_begin(alloc, number, &mut input);
    }
    for number in from..until {
        add_block(number, &mut input);
    }
    input
}

/// What a run of `feed` over these says.
pub(crate) fn replied<D: Disk>(
    alloc: Global,
    files: Files<'_>,
    begins: usize,
    blocks: (usize, usize),
    disk: &mut D,
) -> String {
    let input = blocks_of(alloc, begins, blocks);
    let run = Run {
        most: 1 << 16,
        ..run_of("feed", files, input.as_slice())
    };
    said(alloc, run, disk)
}

/// How many replies have this status.
fn count_of(replies: &str, status: &str) -> usize {
    let mut count = 0usize;
    for word in replies.split(' ') {
        if word == status {
            count = count.saturating_add(1);
        }
    }
    count
}

fn add_count(counts: &mut String, replies: &str, status: &str) {
    let _ = write!(counts, "{} ", count_of(replies, status));
}

/// How many replies have a status: of those that are created, fine, and too many, with a space behind each.
fn counts_of(alloc: Global, replies: String) -> String {
    let mut counts = String::new(alloc);
    add_count(&mut counts, replies.as_str(), "201");
    add_count(&mut counts, replies.as_str(), "200");
    add_count(&mut counts, replies.as_str(), "429");
    counts
}

/// How long a file is; one that is missing has no bytes.
fn length_of(disk: &mut MemDisk, file: File) -> u64 {
    disk.length(file).unwrap_or(u64::MAX)
}

/// The first 4,096 bytes of a file.
fn read_file(alloc: Global, disk: &mut MemDisk, file: File) -> Vec<u8> {
    let mut bytes = vec![in alloc; 0u8; 4096].unwrap_or(Vec::new(alloc));
    let count = disk.read(file, 0, bytes.as_mut_slice()).unwrap_or(0);
    bytes.truncate(count);
    bytes
}

fn holds(alloc: Global, disk: &mut MemDisk, file: File, bytes: &[u8]) -> bool {
    let found = read_file(alloc, disk, file);
    found.as_slice() == bytes
}

/// The numbers of the logs that are there.
fn logs_of(alloc: Global, disk: &mut MemDisk) -> String {
    let mut text = String::new(alloc);
    for number in 0..5 {
        let log = File {
            area: Area::Meta,
            number,
        };
        if disk.length(log).unwrap_or(0) > 0 {
            let _ = write!(text, "{number}");
        }
    }
    text
}

/// Puts other bytes in place of a file.
fn replace(disk: &mut MemDisk, file: File, bytes: &[u8]) {
    if disk.remove(file).is_ok() {
        let _ = disk.write_at(file, 0, bytes);
    }
}

fn shorten(alloc: Global, disk: &mut MemDisk, file: File, length: usize) {
    let mut bytes = read_file(alloc, disk, file);
    bytes.truncate(length);
    replace(disk, file, bytes.as_slice());
}

/// Writes over what stands in a file from a place on, or behind its end.
fn put_at(disk: &mut MemDisk, file: File, place: u64, bytes: &[u8]) -> bool {
    match disk.length(file) {
        Ok(end) => disk.write_at(file, place.min(end), bytes).is_ok(),
        Err(_) => false,
    }
}

fn lengthen(alloc: Global, disk: &mut MemDisk, file: File, count: usize) -> bool {
    let zeros = vec![in alloc; 0u8; count].unwrap_or(Vec::new(alloc));
    put_at(disk, file, u64::MAX, zeros.as_slice())
}

/// The place at which these bytes stand first, or the end.
fn place_of(bytes: &[u8], sought: &[u8]) -> usize {
    for place in 0..bytes.len() {
        if bytes[place..].starts_with(sought) {
            return place;
        }
    }
    bytes.len()
}

/// Puts bytes so far behind the place where others stand first.
fn change(
    alloc: Global,
    disk: &mut MemDisk,
    file: File,
    (sought, further): (&[u8], usize),
    bytes: &[u8],
) -> bool {
    let held = read_file(alloc, disk, file);
    let place = place_of(held.as_slice(), sought).saturating_add(further);
    put_at(disk, file, place as u64, bytes)
}

fn listing_of(alloc: Global, store: &Store<StateMachine>) -> Bytes {
    ix_report::listing(alloc, store.view()).unwrap_or(Bytes::new(alloc))
}

/// Whether a store makes the checkpoint that it is asked for, and its listing stays as it was.
fn keeps_its_listing(alloc: Global, disk: &mut MemDisk) -> bool {
    let Ok(mut store) = Store::<StateMachine>::mount(alloc, disk) else {
        return false;
    };
    let before = listing_of(alloc, &store);
    let made = store.checkpoint(disk).is_ok();
    let behind = listing_of(alloc, &store);
    drop(store);
    made && !before.is_empty() && before.as_slice() == behind.as_slice()
}

fn sure(rt: &impl Abort, holds: bool, what: &str) {
    assert!(rt; holds, "{what}");
}

/// A run says what is wanted.
fn take_run(rt: &impl Abort, alloc: Global, disk: &mut MemDisk, task: Task, want: &str) {
    compare(rt, task.1, told(alloc, task, disk), want);
}

/// Two runs say what is wanted, and leave a file as it was.
fn take_refused(
    rt: &impl Abort,
    alloc: Global,
    disk: &mut MemDisk,
    (task, want): (Task, &str),
    file: File,
) {
    let before = read_file(alloc, disk, file);
    let length = length_of(disk, file);
    take_run(rt, alloc, disk, task, want);
    take_run(rt, alloc, disk, task, want);
    sure(rt, length_of(disk, file) == length, "a length that stays");
    sure(
        rt,
        holds(alloc, disk, file, before.as_slice()),
        "a file that stays",
    );
}

/// Two runs for each of these files say what is wanted, and leave the file as it was.
fn take_refusals(
    rt: &impl Abort,
    alloc: Global,
    disk: &mut MemDisk,
    (task, want): (Task, &str),
    files: &[File],
) {
    for file in files {
        take_refused(rt, alloc, disk, (task, want), *file);
    }
}

/// A run whose reading fails where the input ends says what is wanted.
fn take_cut(
    rt: &impl Abort,
    alloc: Global,
    disk: &mut MemDisk,
    (line, files, input): (&str, Files<'_>, &str),
    want: &str,
) {
    compare(rt, line, cut_off(alloc, line, files, input, disk), want);
}

/// Of the replies to blocks so many have each status.
fn take_send(
    rt: &impl Abort,
    alloc: Global,
    disk: &mut MemDisk,
    (files, begins, blocks): (Files<'_>, usize, (usize, usize)),
    want: &str,
) {
    let replies = replied(alloc, files, begins, blocks, disk);
    compare(rt, "replies", counts_of(alloc, replies), want);
}

/// What a step finds is what is wanted, or its change is made.
fn take_file(rt: &impl Abort, alloc: Global, disk: &mut MemDisk, step: &Step) {
    match *step {
        Step::Length(file, length) => sure(rt, length_of(disk, file) == length, "a length"),
        Step::Holds(file, bytes) => sure(rt, holds(alloc, disk, file, bytes), "a file"),
        Step::Shorten(file, length) => shorten(alloc, disk, file, length),
        Step::Lengthen(file, count) => sure(rt, lengthen(alloc, disk, file, count), "no room"),
        Step::Change(file, sought, further, bytes) => {
            let is_changed = change(alloc, disk, file, (sought, further), bytes);
            sure(rt, is_changed, "no change");
        }
        _ => sure(rt, keeps_its_listing(alloc, disk), "the listing"),
    }
}

/// Takes a step. What it says or finds is what is wanted.
fn take(rt: &impl Abort, alloc: Global, disk: &mut MemDisk, step: &Step) {
    match *step {
        Step::Run(task, want) => take_run(rt, alloc, disk, task, want),
        Step::Refused(task, want, files) => take_refusals(rt, alloc, disk, (task, want), files),
        Step::Cut(line, files, input, want) => {
            take_cut(rt, alloc, disk, (line, files, input), want)
        }
        Step::Feed(files, exchanges, code, line) => {
            feeds(rt, alloc, disk, (files, exchanges), (code, line))
        }
        Step::Send(files, begins, blocks, want) => {
            take_send(rt, alloc, disk, (files, begins, blocks), want)
        }
        Step::Logs(numbers) => compare(rt, "logs", logs_of(alloc, disk), numbers),
        _ => take_file(rt, alloc, disk, step),
    }
}

/// Takes these steps, one behind the other.
pub(crate) fn take_all(rt: &impl Abort, alloc: Global, disk: &mut MemDisk, script: Script<'_>) {
    for step in script {
        take(rt, alloc, disk, step);
    }
}

/// Takes the steps of a script over a new disk.
pub(crate) fn check(rt: &impl Abort, alloc: Global, script: Script<'_>) {
    let mut disk = disk_of(alloc);
    take_all(rt, alloc, &mut disk, script);
}

/// Takes each script over a disk of its own.
pub(crate) fn check_each(rt: &impl Abort, alloc: Global, scripts: &[Script<'_>]) {
    for &script in scripts {
        check(rt, alloc, script);
    }
}
