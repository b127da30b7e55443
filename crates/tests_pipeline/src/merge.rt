//! Tests of `ix_merge`.

ghost use Rattle.std.specs.Prelude.{◌≡◌, ◌≤◌, length, IsFalse, IfOk, OnOk};

use crate::said::{bytes_of, compare, many, put, put_unlike, shown};
use ix_base::{Bytes, Line, NoMemory};
use ix_merge::{Marks, Merge, Whole};
use std::alloc::Global;

/// What is done with the value behind each line.
#[derive(Clone, Copy)]
enum Between {
    Nothing,
    Copied,
    Resumed,
}

/// Lines with bars between, each behind its marks and a colon: `w` for wanted, `v` for vetoed, `f` for one that forces a break,
/// `h` for one that holds breaks back. The moment of a line is its place. Where there is no colon there is no line.
#[derive(Clone, Copy)]
struct Lines<'a> {
    on: bool,
    max_lines: u32,
    lines: &'a str,
}

fn line_of(bytes: Bytes, moment: i64) -> Result<Line, NoMemory>
    ensures { IfOk result (λ line. length line.bytes ≤ 1048576) }
{
    if bytes.len() > 1_048_576 {
        drop(bytes);
        Err(NoMemory)
    } else {
        Ok(Line { bytes, moment })
    }
}

fn has(letters: &str, letter: u8) -> bool {
    letters.as_bytes().contains(&letter)
}

fn marks_of(letters: &str) -> Marks {
    Marks {
        wanted: has(letters, b'w'),
        vetoed: has(letters, b'v'),
        forces: has(letters, b'f'),
        holds: has(letters, b'h'),
    }
}

/// Writes an event as its moment, the number of its lines and its text, with a bar behind it.
fn note(text: &mut String, ended: Option<Whole>) {
    if let Some(event) = ended {
        let raw = shown(event.raw.as_slice());
        let _ = write!(text, "{}+{}:{raw}|", event.moment, event.lines);
        drop(event);
    }
}

/// Puts a copy in place of a value, or what goes on with what is carried of it.
fn carry_over(
    alloc: Global,
    merge: &mut Merge,
    lines: Lines<'_>,
    between: Between,
) -> Result<(), NoMemory>
    requires some { 1 ≤ lines.max_lines }
    requires whole { IsFalse merge.old.broken }
    requires on { merge.old.on ≡ lines.on }
    requires max_lines { merge.old.max_lines ≡ lines.max_lines }
    ensures whole { OnOk result (IsFalse merge.new.broken) }
    ensures on { OnOk result (merge.new.on ≡ merge.old.on) }
    ensures max_lines { OnOk result (merge.new.max_lines ≡ merge.old.max_lines) }
{
    match between {
        Between::Nothing => Ok(()),
        Between::Copied => {
            *merge = merge.copy()?;
            Ok(())
        }
        Between::Resumed => {
            let parts = merge.parts()?;
            *merge = Merge::resume(alloc, lines.on, lines.max_lines, parts);
            Ok(())
        }
    }
}

/// Takes in the lines, and writes the events that they end.
fn take_in(
    alloc: Global,
    merge: &mut Merge,
    lines: Lines<'_>,
    between: Between,
    text: &mut String,
) -> Result<(), NoMemory>
    requires some { 1 ≤ lines.max_lines }
    requires whole { IsFalse merge.old.broken }
    requires on { merge.old.on ≡ lines.on }
    requires max_lines { merge.old.max_lines ≡ lines.max_lines }
    ensures { OnOk result (IsFalse merge.new.broken) }
{
    let mut place = 0;
    for line in lines.lines.split('|') {
        if let Some((letters, bytes)) = line.split_once(':') {
            let line = line_of(bytes_of(alloc, bytes.as_bytes()), place)?;
            note(text, merge.add(line, marks_of(letters))?);
            carry_over(alloc, merge, lines, between)?;
            place = place.saturating_add(1);
        }
    }
    Ok(())
}

/// The events of the lines.
fn events_of(alloc: Global, lines: Lines<'_>, between: Between) -> String
    requires { 1 ≤ lines.max_lines }
{
    let mut text = String::new(alloc);
    let mut merge = Merge::new(alloc, lines.on, lines.max_lines);
    match take_in(alloc, &mut merge, lines, between, &mut text) {
        Ok(()) => note(&mut text, merge.close()),
        Err(NoMemory) => {
            drop(merge);
            put(&mut text, "no memory");
        }
    }
    text
}

/// Lines by their marks, and the events that they make: the moment and the number of lines of each, and its text.
static BY_MARKS: [(bool, u32, &str, &str); 21] = [
    (true, 256, "", ""),
    (true, 256, ":a", "0+1:a|"),
    (true, 256, ":a|:b", "0+2:a\nb|"),
    (true, 256, "wvfh:a|:b", "0+1:a|1+1:b|"),
    // a wanted line starts an event, unless it is vetoed
    (true, 256, "w:a|:b|w:c", "0+2:a\nb|2+1:c|"),
    (true, 256, "w:a|wv:b|v:c", "0+3:a\nb\nc|"),
    // a line that holds breaks back does so up to the next one that forces a break
    (true, 256, "h:a|w:b|w:c", "0+3:a\nb\nc|"),
    (true, 256, "h:a|f:b|:c|w:d", "0+2:a\nb|2+1:c|3+1:d|"),
    (true, 256, "f:a|h:b|w:c", "0+1:a|1+2:b\nc|"),
    (true, 256, "h:a|h:b|wf:c|w:d", "0+3:a\nb\nc|3+1:d|"),
    // but not the line itself
    (true, 256, ":a|wh:b|w:c", "0+1:a|1+2:b\nc|"),
    // one that forces a break and holds one back forces it
    (true, 256, "fh:a|:b|w:c", "0+1:a|1+1:b|2+1:c|"),
    // no mark of a line keeps it from starting an event behind a forced break
    (true, 256, "f:a|v:b|:c", "0+1:a|1+2:b\nc|"),
    (true, 256, "h:a|f:b|v:c", "0+2:a\nb|2+1:c|"),
    // so many lines at most
    (true, 1, ":a|:b|h:c|w:d", "0+1:a|1+1:b|2+1:c|3+1:d|"),
    (
        true,
        2,
        ":a|:b|:c|w:d|:e|:f",
        "0+2:a\nb|2+1:c|3+2:d\ne|5+1:f|",
    ),
    // a break that the number of lines makes clears no mark
    (true, 2, "h:a|:b|w:c|w:d", "0+2:a\nb|2+2:c\nd|"),
    // a line may be empty, or have newline bytes of its own
    (true, 256, ":|:|:a\nb", "0+3:\n\na\nb|"),
    // without merging
    (false, 256, "", ""),
    (false, 256, ":a|:b", "0+1:a|1+1:b|"),
    (false, 1, "h:a|wf:b|v:c", "0+1:a|1+1:b|2+1:c|"),
];

static BETWEEN: [Between; 3] = [Between::Nothing, Between::Copied, Between::Resumed];

/// Writes the events of the lines, where they are not those that are wanted.
fn note_unlike(unlike: &mut String, alloc: Global, lines: Lines<'_>, wanted: &str) {
    for between in &BETWEEN {
        if lines.max_lines >= 1 {
            let events = events_of(alloc, lines, *between);
            put_unlike(unlike, lines.lines, events, wanted);
        } else {
            put(unlike, "no line\n");
        }
    }
}

fn marks_unlike(alloc: Global) -> String {
    let mut unlike = String::new(alloc);
    for (on, max_lines, lines, wanted) in &BY_MARKS {
        let lines = Lines {
            on: *on,
            max_lines: *max_lines,
            lines,
        };
        note_unlike(&mut unlike, alloc, lines, wanted);
    }
    unlike
}

#[test]
fn lines_make_events_by_their_marks(rt: HostRuntime) {
    compare(&rt, marks_unlike(rt.alloc()), "");
}

/// How many equal lines come one behind the other, their marks, and how many bytes each has.
type Repeated<'a> = (u32, &'a str, usize);

/// Writes an event as the number of its lines and of its bytes, with a bar behind it.
fn note_size(text: &mut String, ended: Option<Whole>) {
    if let Some(event) = ended {
        let _ = write!(text, "{}+{}|", event.lines, event.raw.len());
        drop(event);
    }
}

/// Takes in the lines, and writes the sizes of the events that they end.
fn add_all(
    alloc: Global,
    merge: &mut Merge,
    lines: &[Repeated<'_>],
    text: &mut String,
) -> Result<(), NoMemory>
    requires { IsFalse merge.old.broken }
    ensures { OnOk result (IsFalse merge.new.broken) }
{
    for (count, letters, length) in lines {
        for _ in 0..*count {
            let line = line_of(many(alloc, b'L', *length), 0)?;
            note_size(text, merge.add(line, marks_of(letters))?);
        }
    }
    Ok(())
}

/// The sizes of the events of lines, with at most 256 lines each.
fn sizes_of(alloc: Global, lines: &[Repeated<'_>]) -> String {
    let mut text = String::new(alloc);
    let mut merge = Merge::new(alloc, true, 256);
    match add_all(alloc, &mut merge, lines, &mut text) {
        Ok(()) => note_size(&mut text, merge.close()),
        Err(NoMemory) => {
            drop(merge);
            put(&mut text, "no memory");
        }
    }
    text
}

const MOST: usize = 1_048_576;

static SIZES: [(&[Repeated<'static>], &str); 6] = [
    (&[(1, "h", 5), (256, "w", 1)], "256+515|1+1|"),
    (&[(513, "", 1)], "256+511|256+511|1+1|"),
    (&[(3, "", MOST), (1, "", 1_048_573)], "4+4194304|"),
    (&[(3, "", MOST), (1, "", 1_048_574)], "3+3145730|1+1048574|"),
    (
        &[(3, "", MOST), (1, "", 1_048_573), (2, "", 0)],
        "4+4194304|2+1|",
    ),
    (&[(8, "", MOST)], "3+3145730|3+3145730|2+2097153|"),
];

fn sizes_unlike(alloc: Global) -> String {
    let mut unlike = String::new(alloc);
    for (lines, wanted) in &SIZES {
        put_unlike(&mut unlike, wanted, sizes_of(alloc, lines), wanted);
    }
    unlike
}

#[test]
fn events_have_so_many_lines_and_bytes_at_most(rt: HostRuntime) {
    compare(&rt, sizes_unlike(rt.alloc()), "");
}
