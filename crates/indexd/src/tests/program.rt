//! Tests of `preview`, of the words of the command line, and of the numbers of the statuses.

use crate::tests::runs::{
    Files, NOON, PREVIEW, Run, agree, bytes_of, compare, compare_texts, disk_of, nobody, previewed,
    repeated, run_of, run_top, tree_of, words_of,
};
use indexd_core::Status;
use ix_base::{Clock, FailPlan, Failed, MemClock, MemSink, MemSource, Sink, Source};
use std::alloc::Global;
use std::cell::Cell;
use std::process::Abort;

/// Lines are not merged.
const APART: Files<'static> = "props:[default]\nSHOULD_LINEMERGE = false";

/// What a run says that ends with this status: the lines of events with these raw texts, which stand with `|` between, and what stands
/// behind them.
fn lines_of(alloc: Global, code: u8, raws: &str, end: &str) -> String {
    let mut text = String::new(alloc);
    let _ = write!(text, "{code}: ");
    for raw in raws.split('|') {
        if !raw.is_empty() {
            let _ = write!(text, "main\t1700000000.000000\th\ts\tunknown\t\t{raw}\n");
        }
    }
    let _ = text.push_str(end);
    text
}

/// Previews the input, of which each read takes so many bytes at the most.
fn check_input(rt: &impl Abort, alloc: Global, (input, raws): (&str, &str), most: usize) {
    let run = Run {
        most,
        ..run_of(PREVIEW, APART, input.as_bytes())
    };
    let want = lines_of(alloc, 0, raws, "");
    compare_texts(rt, raws, previewed(alloc, run), want);
}

/// Inputs, and the raw texts of their events with `|` between, a row behind the other.
const LINES: &str = "\
    ¦¶\
    \r\n\r\n¦¶\
    a\r\nb¦a|b¶\
    \n\na\n¦a¶\
    a\\b\tc\x7f\u{e9}¦a\\\\b\\tc\\x7f\\xc3\\xa9¶\
    one\rtwo\nthree¦one|two|three";

/// The input has these events, however it is read.
fn check_lines(rt: &impl Abort, alloc: Global, row: &str) {
    let row = row.split_once('¦').unwrap_or((row, "?"));
    check_input(rt, alloc, row, 1);
    check_input(rt, alloc, row, 2);
    check_input(rt, alloc, row, 1 << 20);
}

fn check_all_lines(rt: &impl Abort, alloc: Global, rows: &str) {
    for row in rows.split('¶') {
        check_lines(rt, alloc, row);
    }
}

#[test]
fn lines_become_events(rt: HostRuntime) {
    check_all_lines(&rt, rt.alloc(), LINES);
}

/// A line has so many letters, this stands behind them, and so many letters are kept.
fn check_long(rt: &impl Abort, alloc: Global, (letters, tail, kept): (usize, &str, usize)) {
    let mut input = repeated(alloc, "x", letters);
    let _ = input.push_str(tail);
    let raw = repeated(alloc, "x", kept);
    check_input(rt, alloc, (input.as_str(), raw.as_str()), 4096);
}

/// Lines are cut at 10,000 bytes, or before a character that would be cut.
#[test]
fn long_lines_are_cut_between_characters(rt: HostRuntime) {
    check_long(&rt, rt.alloc(), (10_000, "", 10_000));
    check_long(&rt, rt.alloc(), (10_001, "", 10_000));
    check_long(&rt, rt.alloc(), (9_998, "\u{20ac}", 9_998));
    check_long(&rt, rt.alloc(), (9_999, "\u{20ac}", 9_999));
}

/// A run whose reads and writes fail at these calls: the number of its status, the raw texts whose lines stand in the output, and what
/// stands behind them.
type Fault<'a> = (&'a [u64], &'a [u64], u8, &'a str, &'a str);

fn check_fault(rt: &impl Abort, alloc: Global, (reads, writes, code, raws, end): Fault<'_>) {
    let run = Run {
        reads,
        writes,
        ..run_of(PREVIEW, APART, b"a\nb\nc")
    };
    let want = lines_of(alloc, code, raws, end);
    compare_texts(rt, end, previewed(alloc, run), want);
}

/// Of each read three bytes are taken, so the first one settles the line of `a` alone.
#[test]
fn faults_end_a_run_behind_its_lines(rt: HostRuntime) {
    let alloc = rt.alloc();
    check_fault(&rt, alloc, (&[0], &[], 4, "", "indexd: input fault\n"));
    check_fault(&rt, alloc, (&[1], &[], 4, "a", "indexd: input fault\n"));
    check_fault(&rt, alloc, (&[1], &[1], 4, "a", "indexd: in"));
    check_fault(&rt, alloc, (&[1], &[0], 7, "", "main\t1700000000.000"));
    check_fault(&rt, alloc, (&[], &[1], 7, "a", "main\t1700000000.000"));
}

/// An object of the outside that notes each of its calls by a digit.
#[derive(Drop)]
struct Watched<'a, T> {
    inner: T,
    calls: &'a Cell<u64>,
}

fn note(calls: &Cell<u64>, digit: u64) {
    calls.set(calls.get().wrapping_mul(10).wrapping_add(digit));
}

impl<T: Clock> Clock for Watched<'_, T> {
    ghost ahead = { λ w. T.ahead w.inner };

    fn now(&mut self) -> i64 {
        note(self.calls, 1);
        self.inner.now()
    }
}

impl<T: Source> Source for Watched<'_, T> {
    ghost left = { λ w. T.left w.inner };

    ghost faults = { λ w. T.faults w.inner };

    fn read(&mut self, buf: &mut [u8]) -> Result<usize, Failed> {
        note(self.calls, 2);
        self.inner.read(buf)
    }
}

impl<T: Sink> Sink for Watched<'_, T> {
    ghost given = { λ w. T.given w.inner };

    ghost faults = { λ w. T.faults w.inner };

    fn put(&mut self, bytes: &[u8]) -> Result<(), Failed> {
        note(self.calls, 3);
        self.inner.put(bytes)
    }
}

/// The number of the status of a run whose calls are noted.
fn code_noted(alloc: Global, calls: &Cell<u64>) -> u8 {
    let words = words_of(alloc, PREVIEW);
    let mut input = Watched {
        inner: MemSource::in_pieces(bytes_of(alloc, b"a\nb\nc"), 3, FailPlan::none(alloc)),
        calls,
    };
    let mut output = Watched {
        inner: MemSink::new(alloc, FailPlan::none(alloc)),
        calls,
    };
    let mut clock = Watched {
        inner: MemClock::new([NOON].to_vec(alloc).unwrap_or(Vec::new(alloc))),
        calls,
    };
    let status = run_top(
        alloc,
        &words,
        &mut input,
        &mut output,
        &mut clock,
        &mut tree_of(alloc, APART),
        &mut disk_of(alloc),
        &mut nobody(alloc),
    );
    status.code()
}

/// The clock is asked first (1), and the lines that a read (2) settles are written (3) before the next read.
#[test]
fn lines_are_written_before_the_next_read(rt: HostRuntime) {
    let calls = Cell::new(0u64);
    assert_eq!(rt; code_noted(rt.alloc(), &calls), 0);
    assert_eq!(rt; calls.get(), 1_232_323);
}

/// What a run says whose clock shows this moment, and then another one.
fn said_then(alloc: Global, moment: i64) -> String {
    let moments = [moment, 5];
    let run = Run {
        moments: &moments,
        ..run_of(PREVIEW, APART, b"a")
    };
    previewed(alloc, run)
}

/// A run whose clock shows this moment first says this first.
fn check_moment(rt: &impl Abort, alloc: Global, (moment, want): (i64, &str)) {
    let text = said_then(alloc, moment);
    let begins = text.as_str().starts_with(want);
    agree(rt, begins, want, text);
}

/// A clock outside the years 1970 to 2100 counts as the nearer end.
#[test]
fn moments_lie_between_1970_and_2100(rt: HostRuntime) {
    check_moment(&rt, rt.alloc(), (-1, "0: main\t0.000000\t"));
    check_moment(&rt, rt.alloc(), (1, "0: main\t0.000001\t"));
    check_moment(&rt, rt.alloc(), (i64::MAX, "0: main\t4102444800.000000\t"));
}

/// Words that are a command which is built, and such as are none, with what is said of each.
const WORDS: &str = "\
    preview --host h --source s¦0: ¶\
    preview --source s --host h¦0: ¶\
    preview --host=h --source=- --index main --sourcetype t¦0: ¶\
    btool transforms¦0: ¶\
    btool indexes¦0: ¶\
    ¦2: indexd: usage\n¶\
    preview --host h¦2: indexd: usage\n¶\
    thaw main¦2: indexd: usage\n¶\
    preview --host  --source s¦2: indexd: usage\n¶\
    btool props.conf¦2: indexd: usage\n¶\
    buckets main¦2: indexd: usage\n¶\
    --help¦2: indexd: usage\n";

/// A run on these words over an empty input, whose clock shows nothing.
fn check_words(rt: &impl Abort, alloc: Global, row: &str) {
    let (line, want) = row.split_once('¦').unwrap_or((row, "?"));
    let run = Run {
        moments: &[],
        ..run_of(line, APART, b"")
    };
    compare(rt, line, previewed(alloc, run), want);
}

fn check_all_words(rt: &impl Abort, alloc: Global, rows: &str) {
    for row in rows.split('¶') {
        check_words(rt, alloc, row);
    }
}

#[test]
fn words_are_those_of_the_commands(rt: HostRuntime) {
    check_all_words(&rt, rt.alloc(), WORDS);
}

static STATUSES: [Status; 15] = [
    Status::Done,
    Status::Memory,
    Status::Usage,
    Status::Configuration,
    Status::Input,
    Status::DiskFault,
    Status::Damaged,
    Status::Output,
    Status::ListenerFault,
    Status::NotFound,
    Status::TooManyChannels,
    Status::Unreadable,
    Status::Endless,
    Status::Full,
    Status::InUse,
];

fn numbers_of(alloc: Global) -> String {
    let mut text = String::new(alloc);
    for status in &STATUSES {
        let _ = write!(text, "{} ", status.code());
    }
    text
}

#[test]
fn statuses_have_their_numbers(rt: HostRuntime) {
    let numbers = numbers_of(rt.alloc());
    compare(
        &rt,
        "the numbers",
        numbers,
        "0 1 2 3 4 5 6 7 9 10 11 12 13 17 18 ",
    );
}
