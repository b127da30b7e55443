//! Carries as bytes and back. The bytes were written by hand; what becomes of the rows of a table is one text.

ghost use Rattle.std.specs.Prelude.{◌≡◌, ◌<◌};

use crate::said::{compare, shown};
use ix_base::{Bytes, LineList, NoMemory, Steps};
use ix_lines::{LineParts, Lines, default_breaker};
use ix_merge::Merge;
use ix_parse::{Carry, CarryRules, ResumeFault, one_carry, read_carry};
use std::alloc::Global;
use std::fmt::Debug;
use std::marker::Brand;
use std::sync::ledger::{Blank, Ledger};

/// Writes what a call answered. Where memory is lacking a text stays too short, and is not what is wanted.
fn note<T: Debug + Drop>(text: &mut String, answer: T) {
    let _ = write!(text, "{answer:?} ");
}

fn say(text: &mut String, word: &str) {
    let _ = write!(text, "{word} ");
}

const MOMENT: i64 = 1_700_000_000_000_000;

/// Behind `ab`, a newline and `cd`, without merging: the byte before the scan place, nothing that waits, the open line, no
/// event, no mark, no time.
const OPEN: &[u8] =
    b"\x01\x64\x00\x00\x00\x00\x01\x00\x06\x0A\x24\x18\x1E\x40\x00\x00\x00\x00\x02\x63\x64\x00\x00\x00\x00";

/// Lines are cut at 4 bytes, and an event has 2 lines at the most.
const MERGING: CarryRules = CarryRules {
    truncate: 4,
    merging: true,
    max_lines: 2,
};

const SINGLE: CarryRules = CarryRules {
    truncate: 4,
    merging: false,
    max_lines: 2,
};

/// The six parts of a carry, and what stands behind them.
type Parts<'a> = [&'a [u8]; 7];

/// A carry that has all of them.
static FULL: Parts<'static> = [
    b"\x01\x0A",
    b"\x00\x00\x00\x02\x00\x06\x0A\x24\x18\x1E\x40\x00\x00\x00\x00\x02ab\x00\x06\x0A\x24\x18\x1E\x40\x01\x00\x00\x00\x01c",
    b"\x01\x00\x06\x0A\x24\x18\x1E\x40\x00\x00\x00\x00\x02de",
    b"\x01\x00\x06\x0A\x24\x18\x1E\x40\x00\x00\x00\x00\x02\x00\x00\x00\x03f\ng",
    b"\x01\x00",
    b"\x01\xFF\xFF\xFF\xFF\xFF\xFF\xFF\xFB",
    b"",
];

/// One that has none.
static BARE: Parts<'static> = [
    b"\x00",
    b"\x00\x00\x00\x00",
    b"\x00",
    b"\x00",
    b"\x00\x00",
    b"\x00",
    b"",
];

/// The bytes of the parts, with one of them in place of another.
fn spelled(alloc: Global, parts: &Parts<'_>, place: usize, part: &[u8]) -> Bytes {
    let mut bytes = Bytes::new(alloc);
    for (number, other) in parts.iter().enumerate() {
        let _ = bytes.extend(if number == place { part } else { *other });
    }
    bytes
}

/// Whether a carry is written so.
fn is_written(alloc: Global, carry: &Carry, bytes: &[u8]) -> bool {
    match carry.write(alloc) {
        Ok(again) => {
            let is_written = again.as_slice() == bytes;
            drop(again);
            is_written
        }
        Err(_) => false,
    }
}

/// A dot where the bytes are a carry, and are written so again, an `x` where they are none.
fn outcome(alloc: Global, rules: CarryRules, bytes: &[u8]) -> char {
    match read_carry(alloc, rules, bytes) {
        Ok(carry) => {
            let is_written = is_written(alloc, &carry, bytes);
            drop(carry);
            if is_written { '.' } else { '?' }
        }
        Err(ResumeFault::BadCarry) => 'x',
        Err(ResumeFault::NoMemory) => 'm',
    }
}

/// Writes what becomes of the parts with one of them in place of another.
fn put_outcome(text: &mut String, alloc: Global, rules: CarryRules, bytes: Bytes) {
    let _ = text.push(outcome(alloc, rules, bytes.as_slice()));
    drop(bytes);
}

/// The lines behind `ab`, a newline and `cd`, as they are carried.
fn fed<L: Ledger>(alloc: Global, blank: Blank) -> Result<LineParts, NoMemory>
    requires name { blank.name ≡ L.name }
    requires parts { blank.parts ≡ L.parts }
    requires some { 0 < blank.parts }
{
    let mut lines = Lines::new(alloc, default_breaker(alloc)?, 10000)?;
    let mut steps = Steps::<L>::new(blank);
    let mut out = LineList::new(alloc);
    let fed = lines.feed(b"ab\ncd", MOMENT, &mut out, &mut steps);
    drop(out);
    match fed {
        Ok(_) => lines.parts(),
        Err(fault) => {
            drop(lines);
            Err(fault)
        }
    }
}

/// The carry of that stream without merging.
fn open_carry(alloc: Global) -> Result<Carry, NoMemory> {
    Ok(Carry {
        lines: fed::<Brand>(alloc, Blank::new(1))?,
        merge: Merge::new(alloc, false, 256).parts()?,
        latest: None,
    })
}

fn open_said(alloc: Global) -> String {
    let mut text = String::new(alloc);
    if let Ok(carry) = open_carry(alloc) {
        note(&mut text, is_written(alloc, &carry, OPEN));
        drop(carry);
    }
    note(&mut text, OPEN.len());
    let _ = text.push(outcome(alloc, SINGLE, OPEN));
    text
}

#[test]
fn an_open_stream_has_a_carry_of_25_bytes(rt: HostRuntime) {
    one_carry();
    compare(&rt, open_said(rt.alloc()), "true 25 .");
}

/// Writes the byte before, and the runs with their moments.
fn note_lines(text: &mut String, lines: &LineParts) {
    note(text, lines.before);
    for run in lines.pending.as_slice() {
        say(text, shown(run.bytes.as_slice()));
        note(text, run.moment);
    }
    if let Some(line) = &lines.line {
        say(text, "line");
        say(text, shown(line.bytes.as_slice()));
        note(text, line.moment);
    }
}

/// Writes what was carried: the byte before, the runs, the line and the event with their moments, the marks, the time.
fn note_carry(text: &mut String, carry: &Carry) {
    note_lines(text, &carry.lines);
    if let Some(event) = &carry.merge.event {
        say(text, "event");
        say(text, shown(event.raw.as_slice()));
        note(text, event.moment);
        note(text, event.lines);
    }
    note(text, carry.merge.held);
    note(text, carry.merge.forced);
    note(text, carry.latest);
}

/// What is carried by the bytes of all parts.
fn full_said(alloc: Global) -> String {
    let mut text = String::new(alloc);
    let bytes = spelled(alloc, &FULL, 6, b"");
    if let Ok(carry) = read_carry(alloc, MERGING, bytes.as_slice()) {
        note_carry(&mut text, &carry);
        drop(carry);
    }
    drop(bytes);
    text
}

#[test]
fn each_part_is_read(rt: HostRuntime) {
    let wanted = "Some(10) ab 1700000000000000 c 1700000000000001 line de 1700000000000000 \
        event f\ng 1700000000000000 2 true false Some(-5) ";
    compare(&rt, full_said(rt.alloc()), wanted);
}

/// The lengths of the fronts that are a carry, and how long the carry is.
fn fronts_said(alloc: Global) -> String {
    let mut text = String::new(alloc);
    let bytes = spelled(alloc, &FULL, 6, b"");
    for cut in 0..bytes.len() {
        if outcome(alloc, MERGING, &bytes.as_slice()[..cut]) != 'x' {
            note(&mut text, cut);
        }
    }
    note(&mut text, bytes.len());
    drop(bytes);
    text
}

#[test]
fn no_front_of_a_carry_is_one(rt: HostRuntime) {
    compare(&rt, fronts_said(rt.alloc()), "79 ");
}

/// Parts put in place of those of a full carry. All of these are carries.
static TAKEN: [(usize, &[u8]); 20] = [
    (6, b""),
    (0, b"\x00"),
    (0, b"\x01\xFF"),
    (1, b"\x00\x00\x00\x00"),
    // the first moment and the last
    (
        1,
        b"\x00\x00\x00\x01\x00\x00\x00\x00\x00\x00\x00\x00\x00\x00\x00\x01a",
    ),
    (
        1,
        b"\x00\x00\x00\x01\x00\x0E\x93\x26\xDD\x03\xC0\x00\x00\x00\x00\x01a",
    ),
    // one moment again, with another between
    (
        1,
        b"\x00\x00\x00\x03\x00\x00\x00\x00\x00\x00\x00\x00\x00\x00\x00\x01a\x00\x00\x00\x00\x00\x00\x00\x01\x00\x00\x00\x01b\x00\x00\x00\x00\x00\x00\x00\x00\x00\x00\x00\x01c",
    ),
    (2, b"\x00"),
    // one byte more than lines are cut at
    (
        2,
        b"\x01\x00\x06\x0A\x24\x18\x1E\x40\x00\x00\x00\x00\x05abcde",
    ),
    (2, b"\x01\x00\x0E\x93\x26\xDD\x03\xC0\x00\x00\x00\x00\x01a"),
    (3, b"\x00"),
    // one empty line
    (
        3,
        b"\x01\x00\x06\x0A\x24\x18\x1E\x40\x00\x00\x00\x00\x01\x00\x00\x00\x00",
    ),
    (
        3,
        b"\x01\x00\x0E\x93\x26\xDD\x03\xC0\x00\x00\x00\x00\x02\x00\x00\x00\x01\n",
    ),
    (4, b"\x00\x00"),
    (4, b"\x00\x01"),
    (4, b"\x01\x01"),
    (5, b"\x00"),
    (5, b"\x01\x00\x00\x00\x00\x00\x00\x00\x00"),
    // 2^62 before and behind 1970
    (5, b"\x01\x40\x00\x00\x00\x00\x00\x00\x00"),
    (5, b"\x01\xC0\x00\x00\x00\x00\x00\x00\x00"),
];

/// Such parts, of which none gives a carry.
static REFUSED: [(usize, &[u8]); 28] = [
    (0, b"\x02\x0A"),
    (0, b""),
    // a run without bytes, and none where one is counted
    (
        1,
        b"\x00\x00\x00\x01\x00\x06\x0A\x24\x18\x1E\x40\x00\x00\x00\x00\x00",
    ),
    (1, b"\x00\x00\x00\x01"),
    (1, b"\xFF\xFF\xFF\xFF"),
    // a run that is not counted
    (
        1,
        b"\x00\x00\x00\x00\x00\x06\x0A\x24\x18\x1E\x40\x00\x00\x00\x00\x01a",
    ),
    // neighbours of one moment
    (
        1,
        b"\x00\x00\x00\x02\x00\x06\x0A\x24\x18\x1E\x40\x00\x00\x00\x00\x01a\x00\x06\x0A\x24\x18\x1E\x40\x00\x00\x00\x00\x01b",
    ),
    // moments before 1970, and in 2100
    (
        1,
        b"\x00\x00\x00\x01\xFF\xFF\xFF\xFF\xFF\xFF\xFF\xFF\x00\x00\x00\x01a",
    ),
    (
        1,
        b"\x00\x00\x00\x01\x00\x0E\x93\x26\xDD\x03\xC0\x01\x00\x00\x00\x01a",
    ),
    (2, b"\x02\x00\x06\x0A\x24\x18\x1E\x40\x00\x00\x00\x00\x01a"),
    // no byte, and two more than lines are cut at
    (2, b"\x01\x00\x06\x0A\x24\x18\x1E\x40\x00\x00\x00\x00\x00"),
    (
        2,
        b"\x01\x00\x06\x0A\x24\x18\x1E\x40\x00\x00\x00\x00\x06abcdef",
    ),
    (2, b"\x01\xFF\xFF\xFF\xFF\xFF\xFF\xFF\xFF\x00\x00\x00\x01a"),
    (2, b"\x01\x00\x0E\x93\x26\xDD\x03\xC0\x01\x00\x00\x00\x01a"),
    (
        3,
        b"\x02\x00\x06\x0A\x24\x18\x1E\x40\x00\x00\x00\x00\x01\x00\x00\x00\x01a",
    ),
    // no line, and one more than an event has
    (
        3,
        b"\x01\x00\x06\x0A\x24\x18\x1E\x40\x00\x00\x00\x00\x00\x00\x00\x00\x01a",
    ),
    (
        3,
        b"\x01\x00\x06\x0A\x24\x18\x1E\x40\x00\x00\x00\x00\x03\x00\x00\x00\x01a",
    ),
    (
        3,
        b"\x01\xFF\xFF\xFF\xFF\xFF\xFF\xFF\xFF\x00\x00\x00\x01\x00\x00\x00\x01a",
    ),
    (
        3,
        b"\x01\x00\x0E\x93\x26\xDD\x03\xC0\x01\x00\x00\x00\x01\x00\x00\x00\x01a",
    ),
    (4, b"\x02\x00"),
    (4, b"\x00\x02"),
    (4, b"\x00"),
    (5, b"\x02"),
    (5, b""),
    (5, b"\x01\x40\x00\x00\x00\x00\x00\x00\x01"),
    (5, b"\x01\xBF\xFF\xFF\xFF\xFF\xFF\xFF\xFF"),
    // bytes behind the carry
    (6, b"\x00"),
    (6, b"\x01\x00"),
];

/// What becomes of the parts with that of each row in place of one of them, a mark each.
fn outcomes(
    alloc: Global,
    rules: CarryRules,
    parts: &Parts<'_>,
    rows: &[(usize, &[u8])],
) -> String {
    let mut marks = String::new(alloc);
    for (place, part) in rows {
        let bytes = spelled(alloc, parts, *place, part);
        put_outcome(&mut marks, alloc, rules, bytes);
    }
    marks
}

#[test]
fn a_part_out_of_form_is_refused(rt: HostRuntime) {
    compare(
        &rt,
        outcomes(rt.alloc(), MERGING, &FULL, &TAKEN),
        "....................",
    );
    compare(
        &rt,
        outcomes(rt.alloc(), MERGING, &FULL, &REFUSED),
        "xxxxxxxxxxxxxxxxxxxxxxxxxxxx",
    );
}

/// Parts in place of those of a bare carry without merging.
static WITHOUT_MERGING: [(usize, &[u8]); 7] = [
    (6, b""),
    (0, b"\x01\x0A"),
    (2, b"\x01\x00\x06\x0A\x24\x18\x1E\x40\x00\x00\x00\x00\x01a"),
    (
        3,
        b"\x01\x00\x06\x0A\x24\x18\x1E\x40\x00\x00\x00\x00\x01\x00\x00\x00\x01a",
    ),
    (4, b"\x01\x00"),
    (4, b"\x00\x01"),
    (5, b"\x01\x00\x00\x00\x00\x00\x00\x00\x00"),
];

#[test]
fn without_merging_there_is_no_event_and_no_mark(rt: HostRuntime) {
    let marks = outcomes(rt.alloc(), SINGLE, &BARE, &WITHOUT_MERGING);
    compare(&rt, marks, "...xxx.");
}

/// A long string in a part: where it stands, what is before it, and its length.
type Long = (usize, &'static [u8], u32);

/// The length may be so and no greater in each second row.
static LONG: [Long; 6] = [
    (
        1,
        b"\x00\x00\x00\x01\x00\x06\x0A\x24\x18\x1E\x40\x00",
        16383,
    ),
    (
        1,
        b"\x00\x00\x00\x01\x00\x06\x0A\x24\x18\x1E\x40\x00",
        16384,
    ),
    (2, b"\x01\x00\x06\x0A\x24\x18\x1E\x40\x00", 1048577),
    (2, b"\x01\x00\x06\x0A\x24\x18\x1E\x40\x00", 1048578),
    (
        3,
        b"\x01\x00\x06\x0A\x24\x18\x1E\x40\x00\x00\x00\x00\x02",
        4194304,
    ),
    (
        3,
        b"\x01\x00\x06\x0A\x24\x18\x1E\x40\x00\x00\x00\x00\x02",
        4194305,
    ),
];

/// A bare carry with a part that has a string of so many equal bytes at its end.
fn with_string(alloc: Global, place: usize, front: &[u8], len: u32) -> Bytes {
    let mut part = Bytes::copy_of(alloc, front).unwrap_or(Bytes::new(alloc));
    let _ = part.extend(&len.to_be_bytes());
    for _ in 0..len {
        let _ = part.push(b'x');
    }
    let bytes = spelled(alloc, &BARE, place, part.as_slice());
    drop(part);
    bytes
}

/// What becomes of the rows, a mark each.
fn long_outcomes(alloc: Global, rules: CarryRules, rows: &[Long]) -> String {
    let mut marks = String::new(alloc);
    for (place, front, len) in rows {
        let bytes = with_string(alloc, *place, front, *len);
        put_outcome(&mut marks, alloc, rules, bytes);
    }
    marks
}

#[test]
fn strings_have_their_greatest_lengths(rt: HostRuntime) {
    let rules = CarryRules {
        truncate: 0,
        merging: true,
        max_lines: 2,
    };
    compare(&rt, long_outcomes(rt.alloc(), rules, &LONG), ".x.x.x");
}

/// A run of a byte at one moment, and where the next one begins at another.
const TWO_RUNS: &[u8] =
    b"\x00\x00\x00\x02\x00\x00\x00\x00\x00\x00\x00\x00\x00\x00\x00\x01a\x00\x00\x00\x00\x00\x00\x00\x01";

/// Two runs that have together so many bytes as may wait, and one more.
static RUNS: [Long; 2] = [(1, TWO_RUNS, 16382), (1, TWO_RUNS, 16383)];

#[test]
fn all_runs_together_have_16383_bytes(rt: HostRuntime) {
    compare(&rt, long_outcomes(rt.alloc(), MERGING, &RUNS), ".x");
}
