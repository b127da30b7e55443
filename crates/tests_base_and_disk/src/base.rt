//! Tests of `ix_base`, `ix_export` and `ix_fs`: the text of an event, and the forms in memory and over the real things.

use crate::made::{bytes_of, failing};
use crate::said::{compare, front, note, say, shown};
use ix_base::{
    Bytes, ChannelMeta, Clock, Event, FailPlan, HostClock, LATEST_MOMENT, MemClock, MemSink,
    MemSource, NoMemory, NumberList, Sink, Source, StdSink, StdSource, Text, clamped,
};
use ix_export::{LineWriter, write_line};
use ix_fs::{HostTree, MemTree, Tree, TreeFile, TreeFileList, names_are_in_order};
use std::alloc::Global;
use std::fs;

fn event(alloc: Global, time: i64, raw: &[u8]) -> Event {
    Event {
        time,
        arrival: 0,
        index: bytes_of(alloc, b"main"),
        host: bytes_of(alloc, b"h"),
        source: bytes_of(alloc, b"/a\tb"),
        sourcetype: bytes_of(alloc, b"x\\y"),
        meta: Bytes::new(alloc),
        raw: bytes_of(alloc, raw),
    }
}

/// Times, raw texts, and their lines.
type LineRow = (i64, &'static [u8], &'static [u8]);

static LINES: [LineRow; 5] = [
    (
        1_700_000_000_000_000,
        b"a",
        b"main\t1700000000.000000\th\t/a\\tb\tx\\\\y\t\ta\n",
    ),
    (-1, b"", b"main\t-0.000001\th\t/a\\tb\tx\\\\y\t\t\n"),
    (
        1_000_001,
        b"\x00 \r\n~\x7f\x80\xff",
        b"main\t1.000001\th\t/a\\tb\tx\\\\y\t\t\\x00 \\r\\n~\\x7f\\x80\\xff\n",
    ),
    (
        i64::MIN,
        b"\\",
        b"main\t-9223372036854.775808\th\t/a\\tb\tx\\\\y\t\t\\\\\n",
    ),
    (
        0,
        b"thirty-two bytes and then a few more\tand a tab behind the first of them all",
        b"main\t0.000000\th\t/a\\tb\tx\\\\y\t\tthirty-two bytes and then a few more\\tand a tab behind the first of them all\n",
    ),
];

/// Whether `write_line` puts this line.
fn is_line(alloc: Global, event: &Event, want: &[u8]) -> bool {
    let mut out = MemSink::new(alloc, FailPlan::none(alloc));
    write_line(&event.lend(), &mut out).is_ok() && out.bytes() == want
}

/// Whether a writer puts this line.
fn is_written(alloc: Global, writer: &mut LineWriter, event: &Event, want: &[u8]) -> bool {
    let mut out = MemSink::new(alloc, FailPlan::none(alloc));
    let wrote = writer.write(&event.lend(), &mut out);
    wrote.is_ok() && out.into_bytes().as_slice() == want
}

/// Writes whether both ways put the line of a row.
fn note_lines(text: &mut String, alloc: Global, writer: &mut LineWriter, row: LineRow) {
    let (time, raw, want) = row;
    let event = event(alloc, time, raw);
    let is_line = is_line(alloc, &event, want);
    let is_written = is_written(alloc, writer, &event, want);
    drop(event);
    note(text, is_line);
    note(text, is_written);
}

/// Whether both ways put the lines of all.
fn lines_put(alloc: Global, rows: &[LineRow]) -> String {
    let mut text = String::new(alloc);
    let mut writer = LineWriter::new(alloc);
    for row in rows {
        note_lines(&mut text, alloc, &mut writer, *row);
    }
    drop(writer);
    text
}

#[test]
fn events_have_lines(rt: HostRuntime) {
    compare(
        &rt,
        lines_put(rt.alloc(), &LINES),
        "true true true true true true true true true true ",
    );
}

/// Writes of a writer that wrote an event, and then writes it again into a sink of which one call fails, whether each did,
/// and whether it left a part of the line there.
fn note_failed(text: &mut String, alloc: Global, event: &Event, line: &[u8], plan: FailPlan) {
    let mut writer = LineWriter::new(alloc);
    note(text, is_written(alloc, &mut writer, event, line));
    let mut out = MemSink::new(alloc, plan);
    note(text, writer.write(&event.lend(), &mut out));
    drop(writer);
    let left = out.bytes();
    note(text, line.starts_with(left) && left.len() < line.len());
    drop(out);
}

fn fronts_left(alloc: Global) -> String {
    let mut text = String::new(alloc);
    let event = event(alloc, 5_000_000, b"raw");
    let line = b"main\t5.000000\th\t/a\\tb\tx\\\\y\t\traw\n";
    for number in 0u64..8 {
        note_failed(&mut text, alloc, &event, line, failing(alloc, &[number]));
    }
    drop(event);
    text
}

#[test]
fn a_put_that_fails_leaves_a_front_of_the_line(rt: HostRuntime) {
    compare(
        &rt,
        fronts_left(rt.alloc()),
        "true Err(Failed) true true Err(Failed) true true Err(Failed) true true Err(Failed) true \
         true Err(Failed) true true Err(Failed) true true Err(Failed) true true Err(Failed) true ",
    );
}

fn sink_cleared(alloc: Global) -> String {
    let mut text = String::new(alloc);
    let mut out = MemSink::new(alloc, FailPlan::none(alloc));
    note(&mut text, out.put(b"abc"));
    out.clear();
    note(&mut text, out.put(b"d"));
    say(&mut text, shown(out.bytes()));
    drop(out);
    text
}

#[test]
fn a_sink_is_cleared(rt: HostRuntime) {
    compare(&rt, sink_cleared(rt.alloc()), "Ok(()) Ok(()) d ");
}

/// Writes what a read of 16 bytes at the most answers, and the bytes.
fn note_read<S: Source>(text: &mut String, source: &mut S) {
    let mut buf = [0u8; 16];
    let read = source.read(&mut buf);
    note(text, read);
    say(text, front(&buf, read.unwrap_or(0)));
}

fn reads(alloc: Global) -> String {
    let mut text = String::new(alloc);
    let mut source = MemSource::in_pieces(bytes_of(alloc, b"abcdef"), 4, failing(alloc, &[1]));
    for _ in 0..4 {
        note_read(&mut text, &mut source);
    }
    drop(source);
    let mut whole = MemSource::new(bytes_of(alloc, b"ghi"), FailPlan::none(alloc));
    note_read(&mut text, &mut whole);
    drop(whole);
    text
}

#[test]
fn a_source_fails_the_reads_of_its_plan(rt: HostRuntime) {
    compare(
        &rt,
        reads(rt.alloc()),
        "Ok(4) abcd Err(Failed)  Ok(2) ef Ok(0)  Ok(3) ghi ",
    );
}

fn moments(rt: &HostRuntime) -> String {
    let mut text = String::new(rt.alloc());
    let mut clock = MemClock::new([3i64, 5].to_vec(rt.alloc()).unwrap_or(Vec::new(rt.alloc())));
    for _ in 0..3 {
        note(&mut text, clock.now());
    }
    drop(clock);
    for moment in [-5, 7, i64::MAX] {
        note(&mut text, clamped(moment));
    }
    let mut machine = HostClock::new(rt);
    let first = machine.now();
    // Between the beginning of 2020 and the last moment that is taken.
    note(&mut text, first > 1_577_836_800_000_000);
    note(&mut text, first < LATEST_MOMENT);
    note(&mut text, machine.now() >= first);
    text
}

#[test]
fn clocks_show_moments(rt: HostRuntime) {
    assert_eq!(rt; LATEST_MOMENT, clamped(i64::MAX));
    compare(
        &rt,
        moments(&rt),
        "3 5 5 0 7 4102444800000000 true true true ",
    );
}

/// Writes a file, and what the puts answered.
fn note_puts(rt: &HostRuntime, text: &mut String) {
    if let Ok(file) = fs::create(rt, "text") {
        let mut sink = StdSink::new(file);
        note(text, sink.put(b"abc"));
        note(text, sink.put(b""));
        note(text, sink.put(b"def"));
        drop(sink);
    }
}

/// Writes what a put into a file that is only read answers, and reads of it.
fn note_reads(rt: &HostRuntime, text: &mut String) {
    if let Ok(file) = fs::open(rt, "text") {
        note(text, StdSink::new(file).put(b"x"));
    }
    if let Ok(file) = fs::open(rt, "text") {
        let mut source = StdSource::new(file);
        for _ in 0..2 {
            note_read(text, &mut source);
        }
        drop(source);
    }
}

fn file_used(rt: &HostRuntime) -> String {
    let mut text = String::new(rt.alloc());
    note_puts(rt, &mut text);
    note_reads(rt, &mut text);
    if let Ok(file) = fs::create(rt, "other") {
        note_read(&mut text, &mut StdSource::new(file));
    }
    text
}

#[test]
fn a_file_is_written_and_read(rt: HostRuntime) {
    compare(
        &rt,
        file_used(&rt),
        "Ok(()) Ok(()) Ok(()) Err(Failed) Ok(6) abcdef Ok(0)  Err(Failed)  ",
    );
}

/// What a channel's metadata come to when they are copied.
fn meta_copied(alloc: Global) -> Result<ChannelMeta, NoMemory> {
    let meta = ChannelMeta {
        host: bytes_of(alloc, b"h"),
        source: bytes_of(alloc, b"s"),
        sourcetype: None,
        index: Some(bytes_of(alloc, b"main")),
    };
    let copied = meta.copy();
    drop(meta);
    copied
}

fn note_meta(text: &mut String, meta: &ChannelMeta) {
    say(text, shown(meta.host.as_slice()));
    say(text, shown(meta.source.as_slice()));
    note(text, meta.sourcetype.is_none());
    if let Some(index) = &meta.index {
        say(text, shown(index.as_slice()));
    }
}

fn copied_meta(alloc: Global) -> String {
    let mut text = String::new(alloc);
    if let Ok(meta) = meta_copied(alloc) {
        note_meta(&mut text, &meta);
        drop(meta);
    }
    text
}

#[test]
fn metadata_are_copied(rt: HostRuntime) {
    compare(&rt, copied_meta(rt.alloc()), "h s true main ");
}

/// The numbers of 1 to 4 without the last two, and what else a list of them said.
fn numbers(alloc: Global) -> String {
    let mut text = String::new(alloc);
    let mut numbers = NumberList::new(alloc);
    for n in 1..5 {
        note(&mut text, numbers.push(n));
    }
    note(&mut text, numbers.pop());
    note(&mut text, numbers.empty().is_empty());
    numbers.truncate(2);
    note(&mut text, numbers.len());
    note(&mut text, numbers.into_vec().as_slice());
    text
}

/// A list that was written over past its end, and in which a byte was put.
fn written_over(alloc: Global) -> String {
    let mut text = String::new(alloc);
    if let Ok(mut bytes) = Bytes::copy_of(alloc, b"abc") {
        note(&mut text, bytes.overwrite(2, b"xyz"));
        bytes.fill(0, 1, b'-');
        say(&mut text, shown(bytes.as_slice()));
        drop(bytes);
    }
    text
}

/// What a text is as a string and as bytes.
fn text_lent(alloc: Global) -> String {
    let mut said = String::new(alloc);
    if let Ok(string) = String::from_str(alloc, "abc") {
        let text = Text::from_string(string);
        say(&mut said, text.as_str());
        say(&mut said, shown(text.as_bytes()));
        drop(text);
    }
    said
}

#[test]
fn lists_are_lists(rt: HostRuntime) {
    compare(
        &rt,
        numbers(rt.alloc()),
        "Ok(()) Ok(()) Ok(()) Ok(()) Some(4) true 2 [1, 2] ",
    );
    compare(&rt, written_over(rt.alloc()), "Ok(()) -bxyz ");
    compare(&rt, text_lent(rt.alloc()), "abc abc ");
}

/// A call of a tree: its path, and the place to read at.
#[derive(Clone, Copy)]
enum Ask<'a> {
    List(&'a [u8]),
    Size(&'a [u8]),
    Read(&'a [u8], u64),
}

/// Writes what `list` answers: the names with spaces behind, or the fault.
fn note_list<T: Tree>(text: &mut String, alloc: Global, tree: &mut T, path: &[u8]) {
    match tree.list(alloc, path) {
        Ok(names) => {
            for name in names.as_slice() {
                say(text, shown(name.as_slice()));
            }
            drop(names);
        }
        Err(fault) => note(text, fault),
    }
}

/// Writes what `read` answers for four bytes at the most, and the bytes.
fn note_piece<T: Tree>(text: &mut String, tree: &mut T, path: &[u8], at: u64) {
    let mut buf = [0u8; 4];
    let read = tree.read(path, at, &mut buf);
    note(text, read);
    say(text, front(&buf, read.unwrap_or(0)));
}

fn answer<T: Tree>(alloc: Global, tree: &mut T, ask: Ask<'_>) -> String {
    let mut text = String::new(alloc);
    match ask {
        Ask::List(path) => note_list(&mut text, alloc, tree, path),
        Ask::Size(path) => note(&mut text, tree.size(path)),
        Ask::Read(path, at) => note_piece(&mut text, tree, path, at),
    }
    text
}

/// Writes the answers that are other than they should be, each behind the one that was wanted.
fn note_unlike<T: Tree>(text: &mut String, alloc: Global, tree: &mut T, asks: &[(Ask<'_>, &str)]) {
    for (ask, want) in asks {
        let found = answer(alloc, tree, *ask);
        if found.as_str() != *want {
            say(text, want);
            say(text, found.as_str());
        }
        drop(found);
    }
}

static FILES: [(&[u8], &[u8]); 6] = [
    (b"etc/apps/9/local/props.conf", b"nine"),
    (b"etc/apps/10/local/props.conf", b"ten ten"),
    (b"etc/apps/10/default/props.conf", b""),
    (b"etc/apps/note", b"plain"),
    (b"etc/appsize", b"no app"),
    (b"etc/apps/note", b"a second one at one path"),
];

/// Calls on a tree of these files, of which the numbers 8, 10 and 11 fail, and what they answer.
static IN_MEMORY: [(Ask<'static>, &str); 14] = [
    (Ask::List(b""), "etc "),
    (Ask::List(b"etc"), "apps appsize "),
    (Ask::List(b"etc/apps"), "10 9 note "),
    (Ask::List(b"etc/apps/10"), "default local "),
    (Ask::List(b"etc/apps/9/local"), "props.conf "),
    (Ask::List(b"etc/app"), "Missing "),
    (Ask::List(b"etc/apps/note"), "Missing "),
    (Ask::Size(b"etc/apps/note"), "Ok(5) "),
    (Ask::List(b"etc"), "Failed "),
    (Ask::Read(b"etc/apps/10/local/props.conf", 4), "Ok(3) ten "),
    (Ask::Size(b"nothing"), "Err(Failed) "),
    (Ask::Read(b"etc/apps/note", 0), "Err(Failed)  "),
    (Ask::Size(b"etc/apps"), "Err(Missing) "),
    (
        Ask::Read(b"etc/apps/10/local/props.conf", 1 << 63),
        "Ok(0)  ",
    ),
];

fn files(alloc: Global, rows: &[(&[u8], &[u8])]) -> TreeFileList {
    let mut list = TreeFileList::new(alloc);
    for (path, bytes) in rows {
        let _ = list.push(TreeFile {
            path: bytes_of(alloc, path),
            bytes: bytes_of(alloc, bytes),
        });
    }
    list
}

fn memory_asked(alloc: Global) -> String {
    let mut text = String::new(alloc);
    let mut tree = MemTree::new(files(alloc, &FILES), failing(alloc, &[8, 10, 11]));
    note_unlike(&mut text, alloc, &mut tree, &IN_MEMORY);
    note(&mut text, tree.plan.faults);
    note(&mut text, tree.missing);
    drop(tree);
    text
}

#[test]
fn a_tree_in_memory_has_folders_and_files(rt: HostRuntime) {
    names_are_in_order();
    compare(&rt, memory_asked(rt.alloc()), "3 3 ");
}

/// Calls on real files, and what they answer.
static REAL: [(Ask<'static>, &str); 10] = [
    (Ask::List(b"real/apps"), "10 9 b "),
    (Ask::List(b"real/none"), ""),
    (Ask::List(b"real/apps/10"), "Missing "),
    (Ask::List(b"real/no"), "Missing "),
    (Ask::Size(b"real/apps/10"), "Ok(7) "),
    (Ask::Read(b"real/apps/10", 4), "Ok(3) ten "),
    (Ask::Read(b"real/apps/10", 1 << 63), "Ok(0)  "),
    (Ask::Size(b"real/apps"), "Err(Missing) "),
    (Ask::Read(b"real/no", 0), "Err(Missing)  "),
    (Ask::Size(b"real/\xFF"), "Err(Failed) "),
];

/// Makes folders and files in them, and writes what that answered.
fn note_making(rt: &HostRuntime, text: &mut String) {
    note(text, fs::create_dir_all(rt, "real/apps/b").is_ok());
    note(text, fs::create_dir_all(rt, "real/none").is_ok());
    note(text, fs::write(rt, "real/apps/10", "ten ten").is_ok());
    note(text, fs::write(rt, "real/apps/9", "").is_ok());
}

fn real_asked(rt: &HostRuntime) -> String {
    let mut text = String::new(rt.alloc());
    note_making(rt, &mut text);
    note_unlike(&mut text, rt.alloc(), &mut HostTree::new(rt), &REAL);
    text
}

/// Calls on real files of which some cannot be read, and what they answer where those are passed
/// over that do not begin with `real/apps/`.
static PASSING: [(Ask<'static>, &str); 6] = [
    (Ask::Size(b"real/apps"), "Err(Missing) "),
    (Ask::Read(b"real/\xFF", 0), "Err(Missing)  "),
    (Ask::Size(b"real/no"), "Err(Missing) "),
    (Ask::Size(b"real/apps/10"), "Ok(7) "),
    (Ask::Size(b"real/apps/b"), "Err(Missing) "),
    (Ask::Size(b"real/apps/\xFF"), "Err(Failed) "),
];

fn passing_asked(rt: &HostRuntime) -> String {
    let mut text = String::new(rt.alloc());
    note_making(rt, &mut text);
    let mut tree = HostTree::passing_over(rt, b"real/apps/");
    note_unlike(&mut text, rt.alloc(), &mut tree, &PASSING);
    note(&mut text, tree.passed_over().len());
    if let Some(first) = tree.passed_over().first() {
        say(&mut text, first.as_str());
    }
    text
}

#[test]
fn the_tree_of_the_system_passes_over_what_cannot_be_read(rt: HostRuntime) {
    let want = "true true true true 2 real/apps: not a plain file ";
    compare(&rt, passing_asked(&rt), want);
}

#[test]
fn the_tree_of_the_system_reads_real_files(rt: HostRuntime) {
    compare(&rt, real_asked(&rt), "true true true true ");
}
