//! Passes over watched files that the tree or the output hinders.

use crate::tests::runs::{
    Files, NOON, PLAIN, Run, agree, bytes_of, compare, disk_of, nobody, plan_of, run_of, run_top,
    said, text_of, tree_at, words_of,
};
use crate::tests::steps::{Step, take_all};
use ix_base::{FailPlan, MemClock, MemSink, MemSource};
use ix_disk::MemDisk;
use std::alloc::Global;
use std::process::Abort;

/// A tree with two watched files.
static FILES: [(&str, &[u8]); 4] = [
    (
        "etc/system/local/props.conf",
        b"[default]\nSHOULD_LINEMERGE = false\n",
    ),
    ("etc/system/local/inputs.conf", b"[monitor:///logs/*]\n"),
    ("/logs/a.log", b"one\ntwo\n"),
    ("/logs/b.log", b"six\n"),
];

/// The number of a call that no tree comes to.
const NEVER: u64 = u64::MAX;

/// What a run over these files says of which this call of the tree fails, and how many of its calls
/// it makes.
fn passed(alloc: Global, disk: &mut MemDisk, line: &str, call: u64) -> (String, u64) {
    let words = words_of(alloc, line);
    let mut input = MemSource::new(bytes_of(alloc, b"not read"), FailPlan::none(alloc));
    let mut output = MemSink::new(alloc, FailPlan::none(alloc));
    let mut clock = MemClock::new([NOON].to_vec(alloc).unwrap_or(Vec::new(alloc)));
    let mut tree = tree_at(alloc, &FILES, plan_of(alloc, &[call]));
    let status = run_top(
        alloc,
        &words,
        &mut input,
        &mut output,
        &mut clock,
        &mut tree,
        disk,
        &mut nobody(alloc),
    );
    (text_of(alloc, status.code(), &output), tree.plan.calls)
}

/// How many calls of the tree a pass makes.
fn calls_of(alloc: Global) -> u64 {
    let (_, calls) = passed(alloc, &mut disk_of(alloc), "monitor", NEVER);
    calls
}

/// Both files are read, or the second one alone where the first was read before.
const BOTH: &str = "0: /logs/a.log from 0 to 8\n/logs/b.log from 0 to 4\n";

const SECOND: &str = "0: /logs/a.log skip\n/logs/b.log from 0 to 4\n";

static EACH_ONCE: [Step; 1] = [Step::Run(
    (NOON, "export main", PLAIN, ""),
    "0: main\t1700000000.000000\tlocalhost\t/logs/a.log\tunknown\t\tone\n\
    main\t1700000000.000000\tlocalhost\t/logs/a.log\tunknown\t\ttwo\n\
    main\t1700000000.000000\tlocalhost\t/logs/b.log\tunknown\t\tsix\n",
)];

/// A pass of which this call of the tree fails tells so and nothing else, and the next one reads
/// on. Answers whether the first file was read before.
fn check_call(rt: &impl Abort, alloc: Global, call: u64) -> bool {
    let mut disk = disk_of(alloc);
    let (text, _) = passed(alloc, &mut disk, "monitor", call);
    compare(rt, "a pass", text, "4: indexd: input fault\n");
    let (text, _) = passed(alloc, &mut disk, "monitor --close", NEVER);
    let is_read = text.as_str() == SECOND;
    let is_told = is_read || text.as_str() == BOTH;
    agree(rt, is_told, "the next pass", text);
    take_all(rt, alloc, &mut disk, &EACH_ONCE);
    is_read
}

/// Of how many calls of the tree, which fail in turn, the first file was read before.
fn count_read(rt: &impl Abort, alloc: Global, calls: u64) -> u64 {
    let mut count = 0u64;
    for call in 0..calls {
        if check_call(rt, alloc, call) {
            count = count.saturating_add(1);
        }
    }
    count
}

/// A tree that fails ends the run, and what was read before is stored: so the next pass reads each
/// line that is left, and none twice.
#[test]
fn a_tree_that_fails_loses_nothing(rt: HostRuntime) {
    let calls = calls_of(rt.alloc());
    let count = count_read(&rt, rt.alloc(), calls);
    assert!(rt; count > 0 && count < calls, "{count} of {calls}");
}

/// One watched file.
const WATCHED: Files<'static> =
    "props:[default]\nSHOULD_LINEMERGE = false\n§inputs:[monitor:///logs/app.log]\n§/logs/app.log:one\ntwo\n";

/// What a pass says whose output takes no more than half of its line.
fn cut_short(alloc: Global, disk: &mut MemDisk) -> String {
    let run = Run {
        writes: &[0],
        ..run_of("monitor", WATCHED, b"")
    };
    said(alloc, run, disk)
}

static KEPT: [Step; 2] = [
    Step::Run(
        (NOON, "monitor --close", WATCHED, ""),
        "0: /logs/app.log skip\n",
    ),
    Step::Run(
        (NOON, "export main", WATCHED, ""),
        "0: main\t1700000000.000000\tlocalhost\t/logs/app.log\tunknown\t\tone\n\
        main\t1700000000.000000\tlocalhost\t/logs/app.log\tunknown\t\ttwo\n",
    ),
];

/// Where the lines of a pass cannot be written, what it has read is stored all the same.
#[test]
fn lines_that_are_not_written_lose_nothing(rt: HostRuntime) {
    let mut disk = disk_of(rt.alloc());
    let text = cut_short(rt.alloc(), &mut disk);
    compare(&rt, "a pass", text, "7: /logs/app.log");
    take_all(&rt, rt.alloc(), &mut disk, &KEPT);
}
