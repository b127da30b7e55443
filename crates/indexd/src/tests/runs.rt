//! Runs of the program: what the other tests share. What a run says is a text, the number of its status and what it writes, and is compared
//! with what was written by hand. Where memory is lacking a text stays too short, and is not what is wanted.

use indexd_core::{Status, top};
use ix_base::{Bytes, Clock, FailPlan, MemClock, MemSink, MemSource, Sink, Source, Text};
use ix_disk::{Disk, MemDisk};
use ix_fs::{MemTree, Tree, TreeFile, TreeFileList};
use ix_net::{Listener, MemLinkList, MemListener};
use std::alloc::Global;
use std::process::Abort;

/// Files of `etc/system/local`, with `§` between: the name of each, a colon, and its text. A name that begins with `/` is the path of
/// another file.
pub(crate) type Files<'a> = &'a str;

/// 2023-11-14T22:13:20Z, in microseconds since 1970.
pub(crate) const NOON: i64 = 1_700_000_000_000_000;

/// 100 seconds later.
pub(crate) const ON_TIME: i64 = 1_700_000_100_000_000;

/// 101 seconds later.
pub(crate) const LATER: i64 = 1_700_000_101_000_000;

pub(crate) const PREVIEW: &str = "preview --host h --source s";

pub(crate) const STORE: &str = "preview --host h --source s --store";

pub(crate) const DEFAULT: Files<'static> = "";

/// Each line is an event of its own.
pub(crate) const PLAIN: Files<'static> = "props:[default]\nSHOULD_LINEMERGE = false\n";

/// What is older than 100 seconds is frozen, and deleted then.
pub(crate) const AGE: Files<'static> = "\
    props:[default]\nSHOULD_LINEMERGE = false\n§\
    indexes:[main]\nfrozenTimePeriodInSecs = 100\n";

/// The same with an archive.
pub(crate) const KEPT: Files<'static> = "\
    props:[default]\nSHOULD_LINEMERGE = false\n§\
    indexes:[main]\nfrozenTimePeriodInSecs = 100\ncoldToFrozenDir = kept\n";

/// A run of the program, beside its disk and its listener.
#[derive(Clone, Copy)]
pub(crate) struct Run<'a> {
    /// Its words, with spaces between.
    pub line: &'a str,
    /// What the clock shows in turn, in microseconds since 1970. It stays at the last one.
    pub moments: &'a [i64],
    pub files: Files<'a>,
    pub input: &'a [u8],
    /// How many bytes of the input a read takes at the most.
    pub most: usize,
    /// Which reads fail, and which writes.
    pub reads: &'a [u64],
    pub writes: &'a [u64],
}

/// How many bytes most runs read at once.
pub(crate) const PIECE: usize = 3;

/// A run at noon for which nothing fails.
pub(crate) fn run_of<'a>(line: &'a str, files: Files<'a>, input: &'a [u8]) -> Run<'a> {
    Run {
        line,
        moments: &[NOON],
        files,
        input,
        most: PIECE,
        reads: &[],
        writes: &[],
    }
}

/// Compares what was found with what is wanted.
pub(crate) fn compare(rt: &impl Abort, what: &str, found: String, want: &str) {
    assert!(rt; found.as_str() == want, "{what}: {found}");
}

/// The same where what is wanted was made.
pub(crate) fn compare_texts(rt: &impl Abort, what: &str, found: String, want: String) {
    compare(rt, what, found, want.as_str());
}

/// Asserts something of what was found.
pub(crate) fn agree(rt: &impl Abort, holds: bool, what: &str, found: String) {
    assert!(rt; holds, "{what}: {found}");
}

pub(crate) fn bytes_of(alloc: Global, bytes: &[u8]) -> Bytes {
    Bytes::copy_of(alloc, bytes).unwrap_or(Bytes::new(alloc))
}

/// A text so many times.
pub(crate) fn repeated(alloc: Global, text: &str, count: usize) -> String {
    text.repeat(alloc, count).unwrap_or(String::new(alloc))
}

/// The calls with these numbers fail.
pub(crate) fn plan_of(alloc: Global, failing: &[u64]) -> FailPlan {
    FailPlan::new(failing.to_vec(alloc).unwrap_or(Vec::new(alloc)))
}

pub(crate) fn disk_of(alloc: Global) -> MemDisk {
    MemDisk::new(alloc, FailPlan::none(alloc))
}

/// How many calls of a disk a run has made, behind which the record was so long: those in the record, and the lock.
pub(crate) fn calls_since(disk: &MemDisk, before: usize) -> u64 {
    let recorded = disk.calls().saturating_sub(before) as u64;
    recorded.saturating_add(1)
}

/// What a crash leaves of a disk.
pub(crate) fn crash_of(alloc: Global, disk: &MemDisk, torn: bool) -> MemDisk {
    disk.crash(torn).unwrap_or(disk_of(alloc))
}

/// A listener at which nobody waits.
pub(crate) fn nobody(alloc: Global) -> MemListener {
    MemListener::new(alloc, MemLinkList::new(alloc), FailPlan::none(alloc))
}

/// The words of a line, which stand with spaces between.
pub(crate) fn words_of(alloc: Global, line: &str) -> Vec<Text> {
    let mut words = Vec::new(alloc);
    for word in line.split(' ') {
        let word = String::from_str(alloc, word).unwrap_or(String::new(alloc));
        let _ = words.push(Text::from_string(word));
    }
    words
}

/// The path of a file of `etc/system/local`, or of one that has a path of its own.
fn path_of(alloc: Global, name: &str) -> Bytes {
    if name.starts_with("/") {
        return bytes_of(alloc, name.as_bytes());
    }
    let mut path = bytes_of(alloc, b"etc/system/local/");
    let _ = path.extend(name.as_bytes());
    let _ = path.extend(b".conf");
    path
}

fn add_file(alloc: Global, files: &mut TreeFileList, path: Bytes, bytes: &[u8]) {
    let bytes = bytes_of(alloc, bytes);
    let _ = files.push(TreeFile { path, bytes });
}

/// The tree that has these files.
pub(crate) fn tree_of(alloc: Global, files: Files<'_>) -> MemTree {
    let mut list = TreeFileList::new(alloc);
    for file in files.split('§') {
        if let Some((name, text)) = file.split_once(':') {
            add_file(alloc, &mut list, path_of(alloc, name), text.as_bytes());
        }
    }
    MemTree::new(list, FailPlan::none(alloc))
}

/// The tree that has files at these paths.
pub(crate) fn tree_at(alloc: Global, files: &[(&str, &[u8])], plan: FailPlan) -> MemTree {
    let mut list = TreeFileList::new(alloc);
    for &(path, bytes) in files {
        add_file(alloc, &mut list, bytes_of(alloc, path.as_bytes()), bytes);
    }
    MemTree::new(list, plan)
}

/// Runs the program. The tests call `top` in this function alone: its contract is long, and each call of it takes long to prove.
pub(crate) fn run_top<S: Source, W: Sink, C: Clock, T: Tree, D: Disk, L: Listener>(
    alloc: Global,
    words: &[Text],
    input: &mut S,
    output: &mut W,
    clock: &mut C,
    tree: &mut T,
    disk: &mut D,
    listener: &mut L,
) -> Status {
    top(alloc, words, input, output, clock, tree, disk, listener)
}

/// The number of the status of a run.
pub(crate) fn code_of<D: Disk, L: Listener>(
    alloc: Global,
    run: Run<'_>,
    output: &mut MemSink,
    disk: &mut D,
    listener: &mut L,
) -> u8 {
    let words = words_of(alloc, run.line);
    let mut tree = tree_of(alloc, run.files);
    let mut clock = MemClock::new(run.moments.to_vec(alloc).unwrap_or(Vec::new(alloc)));
    let bytes = bytes_of(alloc, run.input);
    let mut input = MemSource::in_pieces(bytes, run.most, plan_of(alloc, run.reads));
    let status = run_top(
        alloc, &words, &mut input, output, &mut clock, &mut tree, disk, listener,
    );
    status.code()
}

/// The number of a status, and what was written.
pub(crate) fn text_of(alloc: Global, code: u8, output: &MemSink) -> String {
    let written = str::from_utf8(output.bytes()).unwrap_or("?");
    let mut text = String::new(alloc);
    let _ = write!(text, "{code}: {written}");
    text
}

/// What a run says.
pub(crate) fn said_at<D: Disk, L: Listener>(
    alloc: Global,
    run: Run<'_>,
    disk: &mut D,
    listener: &mut L,
) -> String {
    let mut output = MemSink::new(alloc, plan_of(alloc, run.writes));
    let code = code_of(alloc, run, &mut output, disk, listener);
    text_of(alloc, code, &output)
}

/// What a run says that has nobody to listen to.
pub(crate) fn said<D: Disk>(alloc: Global, run: Run<'_>, disk: &mut D) -> String {
    said_at(alloc, run, disk, &mut nobody(alloc))
}

/// What a run says that has no store.
pub(crate) fn previewed(alloc: Global, run: Run<'_>) -> String {
    said(alloc, run, &mut disk_of(alloc))
}

/// What a run says that exports the events `a`, `b` and `c` of noon.
pub(crate) const A_B_C: &str = "\
    0: main\t1700000000.000000\th\ts\tunknown\t\ta\n\
    main\t1700000000.000000\th\ts\tunknown\t\tb\n\
    main\t1700000000.000000\th\ts\tunknown\t\tc\n";

/// A run by what the clock shows, its words, its files and its input.
pub(crate) type Task = (i64, &'static str, Files<'static>, &'static str);

/// What such a run says.
pub(crate) fn told<D: Disk>(alloc: Global, task: Task, disk: &mut D) -> String {
    let (moment, line, files, input) = task;
    let moments = [moment];
    let run = Run {
        moments: &moments,
        ..run_of(line, files, input.as_bytes())
    };
    said(alloc, run, disk)
}
