//! Tests of `ix_lines`.

ghost use Rattle.std.specs.Prelude.{◌≡◌, ◌<◌, IfOk};
ghost use Rattle.ix_lines.specs.Parts.{IsBreaker};

use crate::said::{bytes_of, compare, filled, many, put, shown};
use ix_base::{Bytes, NoMemory, Steps};
use ix_lines::{Line, LineList, LineParts, Lines};
use ix_pattern::Pattern;
use std::alloc::Global;
use std::marker::Brand;
use std::sync::ledger::{Blank, Ledger};

const NEWLINES: &[u8] = b"([\\r\\n]+)";

const DATED: &[u8] = b"([\\r\\n]+)(?=\\d{4}-)";

fn breaker_of(alloc: Global, text: &[u8]) -> Result<Pattern, NoMemory>
    ensures { IfOk result (λ p. IsBreaker p) }
{
    match Pattern::for_breaks(alloc, text) {
        Ok(pattern) => Ok(pattern),
        Err(_) => Err(NoMemory),
    }
}

/// A stream in blocks, each with its moment. Behind each block it is taken up again from its parts, where that is wanted.
#[derive(Clone, Copy)]
struct Stream<'a> {
    breaker: &'a [u8],
    truncate: u32,
    blocks: &'a [(&'a [u8], i64)],
    resumed: bool,
}

/// What is known of a stream before it is closed.
#[derive(Drop)]
struct Ran {
    /// How many lines were given out.
    given: usize,
    /// What is carried of it.
    parts: LineParts,
}

/// Lines of the stream with these parts.
fn resumed(alloc: Global, stream: Stream<'_>, parts: LineParts) -> Result<Lines, NoMemory> {
    let breaker = breaker_of(alloc, stream.breaker)?;
    Lines::resume(alloc, breaker, stream.truncate, parts)
}

/// Feeds the blocks.
fn feed_all<L: Ledger>(
    alloc: Global,
    lines: &mut Lines,
    stream: Stream<'_>,
    out: &mut LineList,
    steps: &mut Steps<L>,
) -> Result<(), NoMemory> {
    for (bytes, moment) in stream.blocks {
        lines.feed(bytes, *moment, out, steps)?;
        if stream.resumed {
            *lines = resumed(alloc, stream, lines.parts()?)?;
        }
    }
    Ok(())
}

/// Closes the stream, and answers what was carried of a copy of it before.
fn closed<L: Ledger>(
    lines: Lines,
    out: &mut LineList,
    steps: &mut Steps<L>,
) -> Result<LineParts, NoMemory> {
    let copy = lines.copy()?;
    let parts = copy.parts();
    drop(copy);
    match lines.close(out, steps) {
        Ok(()) => parts,
        Err(NoMemory) => {
            drop(parts);
            Err(NoMemory)
        }
    }
}

fn run_in<L: Ledger>(
    alloc: Global,
    mut lines: Lines,
    stream: Stream<'_>,
    out: &mut LineList,
    blank: Blank,
) -> Result<Ran, NoMemory>
    requires name { blank.name ≡ L.name }
    requires parts { blank.parts ≡ L.parts }
    requires some { 0 < blank.parts }
{
    let mut steps = Steps::<L>::new(blank);
    feed_all(alloc, &mut lines, stream, out, &mut steps)?;
    let given = out.len();
    let parts = closed(lines, out, &mut steps)?;
    Ok(Ran { given, parts })
}

/// Adds the lines of the stream behind the lines of an earlier part.
fn run_from(
    alloc: Global,
    lines: Lines,
    stream: Stream<'_>,
    out: &mut LineList,
) -> Result<Ran, NoMemory> {
    run_in::<Brand>(alloc, lines, stream, out, Blank::new(1))
}

/// Adds the lines of the stream.
fn run(alloc: Global, stream: Stream<'_>, out: &mut LineList) -> Result<Ran, NoMemory> {
    let breaker = breaker_of(alloc, stream.breaker)?;
    let lines = Lines::new(alloc, breaker, stream.truncate)?;
    run_from(alloc, lines, stream, out)
}

/// Writes lines with a bar behind each.
fn join(text: &mut Bytes, lines: &LineList) {
    for line in lines.as_slice() {
        let _ = text.extend(line.bytes.as_slice());
        let _ = text.push(b'|');
    }
}

/// The lines of a stream, with a bar behind each.
fn lines_of(alloc: Global, stream: Stream<'_>) -> Bytes {
    let mut text = Bytes::new(alloc);
    let mut lines = LineList::new(alloc);
    match run(alloc, stream, &mut lines) {
        Ok(ran) => {
            drop(ran);
            join(&mut text, &lines);
        }
        Err(NoMemory) => {
            let _ = text.extend(b"no memory");
        }
    }
    drop(lines);
    text
}

/// The bytes in pieces of this size, each at the moment of its number.
fn pieces(alloc: Global, bytes: &[u8], size: usize) -> Vec<(&[u8], i64)> {
    let mut blocks = Vec::new(alloc);
    let mut rest = bytes;
    for moment in 0..i64::MAX {
        if rest.is_empty() {
            break;
        }
        let n = rest.len().min(size);
        let _ = blocks.push((&rest[..n], moment));
        rest = &rest[n..];
    }
    blocks
}

/// How bytes are cut into lines.
#[derive(Clone, Copy)]
struct Cut<'a> {
    breaker: &'a [u8],
    truncate: u32,
    /// How many bytes each block has.
    size: usize,
    resumed: bool,
}

/// The lines of a stream in pieces, with a bar behind each.
fn cut_up(alloc: Global, bytes: &[u8], cut: Cut<'_>) -> Bytes {
    let blocks = pieces(alloc, bytes, cut.size);
    let stream = Stream {
        breaker: cut.breaker,
        truncate: cut.truncate,
        blocks: blocks.as_slice(),
        resumed: cut.resumed,
    };
    let text = lines_of(alloc, stream);
    drop(blocks);
    text
}

/// Writes the lines of a stream in pieces, where they are not those that are wanted.
fn note_unlike(unlike: &mut String, alloc: Global, bytes: &[u8], cut: Cut<'_>, wanted: &[u8]) {
    let text = cut_up(alloc, bytes, cut);
    if text.as_slice() != wanted {
        put(unlike, shown(cut.breaker));
        put(unlike, " in pieces of ");
        put(unlike, cut.size);
        put(unlike, " but ");
        put(unlike, shown(text.as_slice()));
        put(unlike, "\n");
    }
    drop(text);
}

/// Breakers, how many bytes a line may have, bytes, and their lines with a bar behind each.
static BROKEN: [(&[u8], u32, &[u8], &[u8]); 13] = [
    (NEWLINES, 10000, b"", b""),
    (NEWLINES, 10000, b"\n\r\n\r", b""),
    (NEWLINES, 10000, b"\na", b"a|"),
    (
        NEWLINES,
        10000,
        b"ab\rcd\n\r\n\ne\r\n\r\nfgh\n",
        b"ab|cd|e|fgh|",
    ),
    (
        NEWLINES,
        10000,
        b"\x00\xFF\x0B\x0C\n\x80",
        b"\x00\xFF\x0B\x0C|\x80|",
    ),
    (
        NEWLINES,
        1,
        b"\xE2\x82\xAC\nab\n\xC3\xA9\n\x80\x80",
        b"a|\x80|",
    ),
    (
        b"end(\\n)begin|end2(\\n)begin2|begin3",
        10000,
        b"a end\nbegin b end2\nbegin2 c begin3 d",
        b"a end|begin b end2|begin2 c |begin3 d|",
    ),
    (
        DATED,
        10000,
        b"2024-01-02 03:04:05 x\n at y\n2024-01-03 03:04:06 z\n",
        b"2024-01-02 03:04:05 x\n at y|2024-01-03 03:04:06 z\n|",
    ),
    (b"([,;]+)", 10000, b",a;,b;\n;c", b"a|b|\n|c|"),
    (b"([,;]+?)|(x)", 10000, b"a;;xb", b"a|b|"),
    (b"(;)$|x()", 10000, b"a;b;\nxc;", b"a;b;\nx|c|"),
    (b"\\b(-+)\\b", 10000, b"a-b -c--d", b"a|b -c|d|"),
    (b"(?m)^(#)", 10000, b"#a#b\n#c", b"a#b\n|c|"),
];

/// How many bytes each piece has, and whether the stream is taken up again behind each.
static PIECES: [(usize, bool); 6] = [
    (1, false),
    (1, true),
    (2, false),
    (3, true),
    (7, false),
    (99, true),
];

fn broken_unlike(alloc: Global) -> String {
    let mut unlike = String::new(alloc);
    for (breaker, truncate, bytes, wanted) in &BROKEN {
        for (size, resumed) in &PIECES {
            let cut = Cut {
                breaker,
                truncate: *truncate,
                size: *size,
                resumed: *resumed,
            };
            note_unlike(&mut unlike, alloc, bytes, cut, wanted);
        }
    }
    unlike
}

#[test]
fn lines_end_at_breaks_in_any_pieces(rt: HostRuntime) {
    compare(&rt, broken_unlike(rt.alloc()), "");
}

/// How many bytes a line may have, the byte that it has and how often, others behind it, and how many of them are kept.
static LONG: [(u32, u8, usize, &[u8], usize); 12] = [
    (10000, b'x', 9998, b"\xE2\x82\xAC", 9998),
    (10000, b'x', 9999, b"\xE2\x82\xAC", 9999),
    (10000, b'x', 9997, b"\xE2\x82\xAC", 10000),
    (10000, b'x', 10000, b"", 10000),
    (10000, b'x', 10001, b"", 10000),
    (10000, b'x', 9997, b"\xF0\x9F\x98\x80", 9997),
    (10000, b'x', 9996, b"\x80\x80\x80\x80\x80", 10000),
    (1, 0x80, 6, b"", 1),
    (3, 0x80, 6, b"", 3),
    (4, 0x80, 6, b"", 4),
    (0, b'x', 1048577, b"", 1048576),
    (u32::MAX, b'x', 1048577, b"", 1048576),
];

/// How many bytes the lines have, with one for the bar behind each.
fn kept(alloc: Global, bytes: &[u8], truncate: u32) -> usize {
    let cut = Cut {
        breaker: NEWLINES,
        truncate,
        size: 524288,
        resumed: true,
    };
    let text = cut_up(alloc, bytes, cut);
    let kept = text.len();
    drop(text);
    kept
}

/// Writes how many bytes are kept, with one for the bar behind them, where that is anything else.
fn long_unlike(alloc: Global) -> String {
    let mut unlike = String::new(alloc);
    for (truncate, byte, count, others, wanted) in &LONG {
        if let Ok(line) = filled(alloc, b"", *byte, *count, others) {
            let kept = kept(alloc, line.as_slice(), *truncate);
            if kept.checked_sub(1) != Some(*wanted) {
                put(&mut unlike, *count);
                put(&mut unlike, " bytes at ");
                put(&mut unlike, *truncate);
                put(&mut unlike, " but ");
                put(&mut unlike, kept);
                put(&mut unlike, "\n");
            }
            drop(line);
        } else {
            put(&mut unlike, "no line\n");
        }
    }
    unlike
}

#[test]
fn long_lines_are_cut_between_characters(rt: HostRuntime) {
    compare(&rt, long_unlike(rt.alloc()), "");
}

/// A breaker, some bytes with so many newlines and a `b` behind them, how many bytes each piece has, whether the stream is taken up
/// again behind each, and the lines.
type Run = (
    &'static [u8],
    &'static [u8],
    usize,
    usize,
    bool,
    &'static [u8],
);

fn runs_unlike(alloc: Global, rows: &[Run]) -> String {
    let mut unlike = String::new(alloc);
    for (breaker, before, count, size, resumed, wanted) in rows {
        if let Ok(bytes) = filled(alloc, before, b'\n', *count, b"b") {
            let cut = Cut {
                breaker,
                truncate: 10000,
                size: *size,
                resumed: *resumed,
            };
            note_unlike(&mut unlike, alloc, bytes.as_slice(), cut, wanted);
            drop(bytes);
        } else {
            put(&mut unlike, "no bytes\n");
        }
    }
    unlike
}

static ONE_BREAK: [Run; 2] = [
    (NEWLINES, b"a", 49999, 997, true, b"a|b|"),
    (NEWLINES, b"a", 49999, 16385, true, b"a|b|"),
];

#[test]
fn a_run_of_line_ends_is_one_break(rt: HostRuntime) {
    compare(&rt, runs_unlike(rt.alloc(), &ONE_BREAK), "");
}

/// A match is up to 3,600 newlines and an `x`, or any newlines. An attempt that is begun anew with each byte, or that walks again over
/// what it was given, takes minutes for this.
static FAR: [Run; 1] = [(b"(?:\\n{1,60}){60}x|(\\n+)", b"", 16384, 1, false, b"b|")];

#[test]
fn an_attempt_goes_on_from_byte_to_byte(rt: HostRuntime) {
    compare(&rt, runs_unlike(rt.alloc(), &FAR), "");
}

fn weight_of(alloc: Global, text: &[u8]) -> u64 {
    match breaker_of(alloc, text) {
        Ok(breaker) => {
            let weight = breaker.weight();
            drop(breaker);
            weight
        }
        Err(NoMemory) => 0,
    }
}

static ONE_BY_ONE: [Run; 1] = [(NEWLINES, b"", 10000, 1, false, b"b|")];

/// By the contract of `feed` a call takes no step where bytes waited and the place stays at which a break is sought, and at
/// most 6 * 512 where none did.
#[test]
fn newlines_byte_by_byte_are_one_break(rt: HostRuntime) {
    assert_eq!(rt; weight_of(rt.alloc(), NEWLINES), 6);
    compare(&rt, runs_unlike(rt.alloc(), &ONE_BY_ONE), "");
}

static SEEN: [Run; 4] = [
    (NEWLINES, b"", 16384, 16384, true, b"b|"),
    (b"(\\n+)b", b"", 16383, 16384, true, b"b|"),
    (b"(\\n+)b", b"", 16384, 16384, true, b"\n|b|"),
    (b"(\\n+)$|b()", b"", 16384, 16384, true, b"b|"),
];

#[test]
fn an_attempt_sees_16384_bytes(rt: HostRuntime) {
    compare(&rt, runs_unlike(rt.alloc(), &SEEN), "");
}

/// Writes how many lines of a stream are given out before it is closed.
fn put_given(text: &mut String, alloc: Global, stream: Stream<'_>) {
    let mut lines = LineList::new(alloc);
    match run(alloc, stream, &mut lines) {
        Ok(ran) => {
            put(text, ran.given);
            drop(ran);
        }
        Err(NoMemory) => put(text, "no memory"),
    }
    drop(lines);
}

/// How many lines are given out behind the first byte, two, three and more bytes, a digit each.
fn given(alloc: Global, breaker: &[u8], bytes: &[u8]) -> String {
    let mut digits = String::new(alloc);
    let blocks = pieces(alloc, bytes, 1);
    for count in 1..=blocks.len() {
        let stream = Stream {
            breaker,
            truncate: 10000,
            blocks: blocks.as_slice().get(..count).unwrap_or(&[]),
            resumed: false,
        };
        put_given(&mut digits, alloc, stream);
    }
    drop(blocks);
    digits
}

#[test]
fn a_line_is_settled_once_its_break_is(rt: HostRuntime) {
    compare(&rt, given(rt.alloc(), NEWLINES, b"a\r\nb"), "0001");
    let dated = given(rt.alloc(), DATED, b"x\n at y\n2024-01");
    compare(&rt, dated, "000000000000111");
}

/// Writes a line with its moment.
fn put_line(text: &mut String, line: &Line) {
    put(text, shown(line.bytes.as_slice()));
    put(text, "@");
    put(text, line.moment);
}

fn put_lines(text: &mut String, lines: &LineList) {
    for line in lines.as_slice() {
        put_line(text, line);
    }
}

/// Writes what waited, the byte before that, and the line that was open, with bars between.
fn put_parts(text: &mut String, parts: &LineParts) {
    put_lines(text, &parts.pending);
    put(text, "|");
    put(text, parts.before.unwrap_or(b'?') as char);
    put(text, "|");
    if let Some(line) = &parts.line {
        put_line(text, line);
    }
}

static BLOCKS: [(&[u8], i64); 8] = [
    (b"ab\ncd", 1),
    (b"", 2),
    (b"e\nf\n", 3),
    (b"\n", 3),
    (b"", 4),
    (b"\r", 3),
    (b"\n\n", 5),
    (b"\n", -5),
];

/// The lines of these blocks, and what was carried of them.
fn moments(alloc: Global, resumed: bool) -> String {
    let mut text = String::new(alloc);
    let mut lines = LineList::new(alloc);
    let stream = Stream {
        breaker: NEWLINES,
        truncate: 10000,
        blocks: &BLOCKS,
        resumed,
    };
    if let Ok(ran) = run(alloc, stream, &mut lines) {
        put_lines(&mut text, &lines);
        put(&mut text, "|");
        put_parts(&mut text, &ran.parts);
        drop(ran);
    }
    drop(lines);
    text
}

#[test]
fn a_line_has_the_moment_of_its_first_byte_and_what_waits_has_runs(rt: HostRuntime) {
    let wanted = "ab@1cde@1f@3|\n\n\r@3\n\n@5\n@0|f|f@3";
    compare(&rt, moments(rt.alloc(), false), wanted);
    compare(&rt, moments(rt.alloc(), true), wanted);
}

/// Line ends that wait, each with a moment of its own.
fn waiting(alloc: Global) -> LineList {
    let mut pending = LineList::new(alloc);
    for moment in 10..16010 {
        let bytes = bytes_of(alloc, b"\n");
        let _ = pending.push(Line { bytes, moment });
    }
    pending
}

/// Adds the lines that are given out where many line ends wait, and then a block comes at moment 9.
fn behind_many(alloc: Global, block: &[u8], out: &mut LineList) -> Result<Ran, NoMemory> {
    let stream = Stream {
        breaker: NEWLINES,
        truncate: 10000,
        blocks: &[(block, 9)],
        resumed: false,
    };
    let parts = LineParts {
        before: None,
        pending: waiting(alloc),
        line: None,
    };
    let lines = resumed(alloc, stream, parts)?;
    run_from(alloc, lines, stream, out)
}

/// So many copies of the bytes, with a line end behind each.
fn copies(alloc: Global, bytes: &[u8], count: usize) -> Bytes {
    let mut all = Bytes::new(alloc);
    for _ in 0..count {
        let _ = all.extend(bytes);
        let _ = all.push(b'\n');
    }
    all
}

/// How many of the lines have these bytes and moment 9.
fn count_like(lines: &LineList, bytes: &[u8]) -> usize {
    let mut count: usize = 0;
    for line in lines.as_slice() {
        if line.moment == 9 && line.bytes.as_slice() == bytes {
            count = count.saturating_add(1);
        }
    }
    count
}

/// How many lines of 1,023 bytes are given out before and behind the end, and how many of them are as they came.
fn megabyte(alloc: Global) -> String {
    let mut text = String::new(alloc);
    let mut lines = LineList::new(alloc);
    let line = many(alloc, b'x', 1023);
    let block = copies(alloc, line.as_slice(), 1024);
    if let Ok(ran) = behind_many(alloc, block.as_slice(), &mut lines) {
        put(&mut text, ran.given);
        drop(ran);
    }
    drop(block);
    put(&mut text, " ");
    put(&mut text, lines.len());
    put(&mut text, " ");
    put(&mut text, count_like(&lines, line.as_slice()));
    drop(line);
    drop(lines);
    text
}

#[test]
fn a_megabyte_behind_bytes_of_many_moments_has_its_own(rt: HostRuntime) {
    compare(&rt, megabyte(rt.alloc()), "1023 1024 1024");
}
