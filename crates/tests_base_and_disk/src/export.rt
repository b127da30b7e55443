//! Buckets in memory that are exported: what an export answers, and the texts of the events that it writes.

use crate::made::{empty, failing, put, put_record, record};
use crate::said::{compare, note, shown};
use ix_base::{Area, FailPlan, File, MemSink, Range};
use ix_disk::{Disk, MemDisk, OneFail};
use ix_export::export_buckets;
use ix_items::{Bucket, State};
use std::alloc::Global;
use std::process::Abort;

const HOME: File = File {
    area: Area::Home,
    number: 1,
};

const COLD: File = File {
    area: Area::Cold,
    number: 1,
};

/// The bucket in a file, of which so many bytes count.
fn bucket(file: File, bytes: u64) -> Bucket {
    Bucket {
        id: 0,
        state: State::Warm,
        file,
        bytes,
        count: bytes / 58,
        newest: 0,
        oldest: 0,
        used: 0,
        touched: 0,
    }
}

/// Two buckets. The last event of the second file does not count.
fn two_buckets() -> [Bucket; 2] {
    [bucket(HOME, 116), bucket(COLD, 116)]
}

const WHOLE: &str = "main\t1.000000\th\ts\tunknown\t\ta\nmain\t2.000000\th\ts\tunknown\t\tb\n\
    main\t1.999999\th\ts\tunknown\t\tc\nmain\t-0.000001\th\ts\tunknown\t\td\n";

const ALL: Range = Range {
    earliest: None,
    latest: None,
};

/// A disk with the events of two files. The record of each has 58 bytes.
fn stored(alloc: Global) -> MemDisk {
    let mut disk = empty(alloc);
    let _ = put_record(alloc, &mut disk, HOME, 1_000_000, b"a");
    let _ = put_record(alloc, &mut disk, HOME, 2_000_000, b"b");
    let _ = put_record(alloc, &mut disk, COLD, 1_999_999, b"c");
    let _ = put_record(alloc, &mut disk, COLD, -1, b"d");
    let _ = put_record(alloc, &mut disk, COLD, 3_000_000, b"e");
    disk
}

/// Writes the last letter of each line, which is the text of its event.
fn note_letters(text: &mut String, lines: &[u8]) {
    let mut last = b' ';
    for byte in lines {
        if *byte == b'\n' {
            let _ = text.push(last as char);
        }
        last = *byte;
    }
}

/// What an export answers, and the texts of the events that it writes.
fn exported<D: Disk>(alloc: Global, disk: &mut D, buckets: &[Bucket], range: Range) -> String {
    let mut text = String::new(alloc);
    let mut out = MemSink::new(alloc, FailPlan::none(alloc));
    let done = export_buckets(alloc, disk, buckets, &range, &mut out);
    note(&mut text, done);
    note_letters(&mut text, out.bytes());
    drop(out);
    text
}

fn lines_said(alloc: Global) -> String {
    let mut text = String::new(alloc);
    let mut disk = stored(alloc);
    let mut out = MemSink::new(alloc, FailPlan::none(alloc));
    let done = export_buckets(alloc, &mut disk, &two_buckets(), &ALL, &mut out);
    drop(disk);
    note(&mut text, done);
    note(&mut text, shown(out.bytes()) == WHOLE);
    drop(out);
    text
}

#[test]
fn the_lines_of_two_buckets_are_written_without_what_does_not_count(rt: HostRuntime) {
    compare(&rt, lines_said(rt.alloc()), "Ok(4) true ");
}

/// The first second, the second behind the last one, and what an export answers.
type RangeRow = (Option<i64>, Option<i64>, &'static str);

static RANGES: [RangeRow; 9] = [
    (None, None, "Ok(4) abcd"),
    (Some(2), None, "Ok(1) b"),
    (None, Some(2), "Ok(3) acd"),
    (Some(1), Some(2), "Ok(2) ac"),
    (Some(0), None, "Ok(3) abc"),
    (Some(-1), Some(0), "Ok(1) d"),
    (Some(i64::MIN), Some(i64::MAX), "Ok(4) abcd"),
    (Some(i64::MAX), None, "Ok(0) "),
    (None, Some(i64::MIN), "Ok(0) "),
];

fn range_said(alloc: Global, range: Range) -> String {
    let mut disk = stored(alloc);
    let said = exported(alloc, &mut disk, &two_buckets(), range);
    drop(disk);
    said
}

fn check_range(rt: &impl Abort, alloc: Global, row: RangeRow) {
    let (earliest, latest, wanted) = row;
    let range = Range { earliest, latest };
    compare(rt, range_said(alloc, range), wanted);
}

fn check_ranges(rt: &impl Abort, alloc: Global, rows: &[RangeRow]) {
    for row in rows {
        check_range(rt, alloc, *row);
    }
}

#[test]
fn a_range_has_its_first_second_and_not_its_last(rt: HostRuntime) {
    check_ranges(&rt, rt.alloc(), &RANGES);
}

/// A disk with an event, and the first 42 bytes of a second one's record behind it.
fn cut(alloc: Global) -> MemDisk {
    let mut disk = empty(alloc);
    let _ = put_record(alloc, &mut disk, HOME, 1, b"a");
    let second = record(alloc, 1, b"b");
    let _ = put(&mut disk, HOME, second.as_slice().get(..42).unwrap_or(b""));
    drop(second);
    disk
}

/// Files and the bytes that count in each: a file that is cut, one that is missing, and records that go on behind these bytes.
type CutRow = (&'static [(File, u64)], &'static str);

static CUT: [CutRow; 5] = [
    (
        &[(HOME, 116)],
        "Err(Damaged { file: File { area: Home, number: 1 }, at: 58 }) a",
    ),
    (&[(HOME, 58), (COLD, 0)], "Ok(1) a"),
    (
        &[(HOME, 58), (COLD, 58)],
        "Err(Damaged { file: File { area: Cold, number: 1 }, at: 0 }) a",
    ),
    (
        &[(HOME, 57)],
        "Err(Damaged { file: File { area: Home, number: 1 }, at: 0 }) ",
    ),
    (
        &[(HOME, 59), (COLD, 0)],
        "Err(Damaged { file: File { area: Home, number: 1 }, at: 58 }) a",
    ),
];

fn cut_said(alloc: Global, files: &[(File, u64)]) -> String {
    let mut buckets = Vec::new(alloc);
    for (file, bytes) in files {
        let _ = buckets.push(bucket(*file, *bytes));
    }
    let mut disk = cut(alloc);
    let said = exported(alloc, &mut disk, buckets.as_slice(), ALL);
    drop(disk);
    drop(buckets);
    said
}

fn check_cuts(rt: &impl Abort, alloc: Global, rows: &[CutRow]) {
    for (files, wanted) in rows {
        compare(rt, cut_said(alloc, files), wanted);
    }
}

#[test]
fn what_is_cut_is_told_behind_the_lines_before_it(rt: HostRuntime) {
    check_cuts(&rt, rt.alloc(), &CUT);
}

fn failed_said(alloc: Global, number: u64) -> String {
    let mut disk = OneFail::new(stored(alloc), number);
    let said = exported(alloc, &mut disk, &two_buckets(), ALL);
    drop(disk);
    said
}

/// The export makes three calls for a bucket: one for the length of its file and two reads.
#[test]
fn a_read_that_fails_is_told_behind_the_lines_before_it(rt: HostRuntime) {
    compare(&rt, failed_said(rt.alloc(), 0), "Err(Disk) ");
    compare(&rt, failed_said(rt.alloc(), 2), "Err(Disk) ");
    compare(&rt, failed_said(rt.alloc(), 5), "Err(Disk) ab");
    compare(&rt, failed_said(rt.alloc(), 6), "Ok(4) abcd");
}

/// Whether a front of the lines that is not all of them is left.
fn is_front(left: &[u8]) -> bool {
    WHOLE.as_bytes().starts_with(left) && left.len() < WHOLE.len()
}

/// Writes what an export answers whose write with this number fails, and whether a front of the lines is left. Each line is one
/// write.
fn note_stop(text: &mut String, alloc: Global, number: u64) {
    let mut disk = stored(alloc);
    let mut out = MemSink::new(alloc, failing(alloc, &[number]));
    let done = export_buckets(alloc, &mut disk, &two_buckets(), &ALL, &mut out);
    drop(disk);
    note(text, done);
    note(text, is_front(out.bytes()));
    drop(out);
}

fn writes_said(alloc: Global) -> String {
    let mut text = String::new(alloc);
    for number in 0..4u64 {
        note_stop(&mut text, alloc, number);
    }
    text
}

#[test]
fn a_write_that_fails_leaves_a_front_of_the_lines(rt: HostRuntime) {
    let wanted = "Err(Output) true Err(Output) true Err(Output) true Err(Output) true ";
    compare(&rt, writes_said(rt.alloc()), wanted);
}
