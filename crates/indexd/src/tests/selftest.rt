//! The command `selftest`: its worked examples, and that it works over memory and the output alone.

use crate::tests::runs::{Files, Run, agree, compare, disk_of, previewed, run_of, said};
use ix_disk::MemDisk;
use std::alloc::Global;
use std::process::Abort;

/// What 30,000 lines come to: each is an event of 86 bytes, and a bucket rolls at 1,048,576 bytes, so at its 12,193rd. More than two mebibytes
/// are too much.
const REST: &str = "\
    index main stored 17807 bytes 1531402 frozen 12193\n\
    bucket main db_1699944385_1699932193_1 warm 12193 1048598\n\
    bucket main hot_v1_2 hot 5614 482804\n\
    frozen main db_1699932192_1699920000_0 total 1700000100 12193 deleted\n\
    events settled 30000 nulled 0 dropped 0\n";

/// What is said of these words, behind their own line at status 0. `R` stands for the rest of 30,000 lines. 24,385 lines are the most that two
/// mebibytes hold.
const ROWS: &str = "\
    selftest 7 30000¦R¶\
    selftest 0 30000¦R¶\
    selftest 18446744073709551615 30000¦R¶\
    selftest 7 1¦index main stored 1 bytes 86 frozen 0\nbucket main hot_v1_0 hot 1 86\nevents settled 1 nulled 0 dropped 0\n¶\
    selftest 7 24385¦index main stored 24385 bytes 2097110 frozen 0\nbucket main db_1699932192_1699920000_0 warm 12193 1048598\nbucket main hot_v1_1 hot 12192 1048512\nevents settled 24385 nulled 0 dropped 0\n¶\
    selftest 7 24386¦index main stored 12193 bytes 1048598 frozen 12193\nbucket main db_1699944385_1699932193_1 warm 12193 1048598\nfrozen main db_1699932192_1699920000_0 total 1700000100 12193 deleted\nevents settled 24386 nulled 0 dropped 0\n";

/// Settings with a fault, which is not looked at.
const FAULTY: Files<'static> = "props:[x]\nTRUNCATE 5\n";

/// A run whose input cannot be read, and whose clock shows nothing.
fn run_on(line: &str) -> Run<'_> {
    Run {
        moments: &[],
        reads: &[0],
        ..run_of(line, FAULTY, b"a")
    }
}

/// What is wanted of a row.
fn wanted(alloc: Global, line: &str, rest: &str) -> String {
    let mut text = String::new(alloc);
    let rest = if rest == "R" { REST } else { rest };
    let _ = write!(text, "0: {line}\n{rest}");
    text
}

fn check_row(rt: &impl Abort, alloc: Global, row: &str) {
    let (line, rest) = row.split_once('¦').unwrap_or((row, "?"));
    let want = wanted(alloc, line, rest);
    compare(rt, line, previewed(alloc, run_on(line)), want.as_str());
}

#[test]
fn a_selftest_lists_what_it_has_stored(rt: HostRuntime) {
    for row in ROWS.split('¶') {
        check_row(&rt, rt.alloc(), row);
    }
}

/// What a selftest says whose output takes no more than a part of a text.
fn cut_short(alloc: Global, disk: &mut MemDisk) -> String {
    let run = Run {
        writes: &[0],
        ..run_on("selftest 7 1")
    };
    said(alloc, run, disk)
}

/// The disk is not asked for anything, and only the output may fail.
#[test]
fn a_selftest_works_over_memory_and_the_output(rt: HostRuntime) {
    let mut disk = disk_of(rt.alloc());
    let text = cut_short(rt.alloc(), &mut disk);
    let is_cut = text.as_str().starts_with("7: selftest 7 1\nindex main ")
        && !text.as_str().ends_with("dropped 0\n");
    agree(&rt, is_cut, "a part", text);
    assert_eq!(rt; disk.calls(), 0);
}
