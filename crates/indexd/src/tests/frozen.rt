//! The order in which buckets freeze, and in which they are listed then.

use crate::tests::runs::{
    Files, LATER, NOON, Run, STORE, compare, disk_of, repeated, run_of, said,
};
use crate::tests::steps::{Script, Step, check_each, take_all};
use ix_disk::MemDisk;
use std::alloc::Global;
use std::process::Abort;

/// Lines begin with their seconds, and what is older than 100 seconds is frozen.
const DATED: Files<'static> = "\
    props:[default]\nSHOULD_LINEMERGE = false\nTIME_FORMAT = %s\n§\
    indexes:[default]\nfrozenTimePeriodInSecs = 100\n[main]\n[web]\n";

const WEB: &str = "preview --host h --source s --index web --store";

const ROLL: Step = Step::Run((NOON, "roll main", DATED, ""), "0: rolled 1\n");

/// 101 seconds behind `LATER`.
const LAST: i64 = 1_700_000_202_000_000;

static AGED: [Script<'static>; 3] = [
    // of one turn those with older events come first
    &[
        Step::Run((NOON, STORE, DATED, "1700000000 a"), "0: "),
        ROLL,
        Step::Run((NOON, STORE, DATED, "1690000000 b"), "0: "),
        ROLL,
        Step::Run((NOON, STORE, DATED, "1680000000 c"), "0: "),
        ROLL,
        Step::Run((LATER, "tick", DATED, ""), "0: frozen 3\n"),
        Step::Run(
            (LATER, "buckets", DATED, ""),
            "0: index main stored 0 bytes 0 frozen 3\n\
            index web stored 0 bytes 0 frozen 0\n\
            frozen main db_1680000000_1680000000_2 age 1700000101 1 deleted\n\
            frozen main db_1690000000_1690000000_1 age 1700000101 1 deleted\n\
            frozen main db_1700000000_1700000000_0 age 1700000101 1 deleted\n\
            events settled 3 nulled 0 dropped 0\n",
        ),
    ],
    // index by index, and those of one time by their numbers
    &[
        Step::Run((NOON, WEB, DATED, "1680000000 a"), "0: "),
        Step::Run((NOON, "roll web", DATED, ""), "0: rolled 1\n"),
        Step::Run((NOON, STORE, DATED, "1690000000 b"), "0: "),
        ROLL,
        Step::Run((NOON, STORE, DATED, "1690000000 c"), "0: "),
        ROLL,
        Step::Run((LATER, "tick", DATED, ""), "0: frozen 3\n"),
        Step::Run(
            (LATER, "buckets", DATED, ""),
            "0: index main stored 0 bytes 0 frozen 2\n\
            index web stored 0 bytes 0 frozen 1\n\
            frozen main db_1690000000_1690000000_0 age 1700000101 1 deleted\n\
            frozen main db_1690000000_1690000000_1 age 1700000101 1 deleted\n\
            frozen web db_1680000000_1680000000_0 age 1700000101 1 deleted\n\
            events settled 3 nulled 0 dropped 0\n",
        ),
    ],
    // a later turn comes behind, whatever its events and its index
    &[
        Step::Run((NOON, WEB, DATED, "1700000000 a"), "0: "),
        Step::Run((NOON, "roll web", DATED, ""), "0: rolled 1\n"),
        Step::Run((LATER, "tick", DATED, ""), "0: frozen 1\n"),
        Step::Run((LATER, STORE, DATED, "1680000000 b"), "0: "),
        Step::Run((LATER, "roll main", DATED, ""), "0: rolled 1\n"),
        Step::Run((LAST, "tick", DATED, ""), "0: frozen 1\n"),
        Step::Run(
            (LAST, "buckets", DATED, ""),
            "0: index main stored 0 bytes 0 frozen 1\n\
            index web stored 0 bytes 0 frozen 1\n\
            frozen web db_1700000000_1700000000_0 age 1700000101 1 deleted\n\
            frozen main db_1680000000_1680000000_0 age 1700000202 1 deleted\n\
            events settled 2 nulled 0 dropped 0\n",
        ),
    ],
];

/// What was frozen is listed in the order in which it froze: turn by turn, index by index, and then
/// by the newest event and the number.
#[test]
fn old_buckets_are_listed_as_they_freeze(rt: HostRuntime) {
    check_each(&rt, rt.alloc(), &AGED);
}

/// Lines begin with their seconds and are stored whole. One bucket is warm at the most, and a
/// mebibyte is kept.
const LARGE: Files<'static> = "\
    props:[default]\nSHOULD_LINEMERGE = false\nTIME_FORMAT = %s\nTRUNCATE = 0\n§\
    indexes:[main]\nmaxWarmDBCount = 1\nmaxTotalDataSizeMB = 1\n";

/// What a run says that stores a line of this time, and 600,000 letters.
fn stored(alloc: Global, disk: &mut MemDisk, time: &str) -> String {
    let letters = repeated(alloc, "x", 600_000);
    let mut input = String::new(alloc);
    let _ = write!(input, "{time} {letters}");
    let run = Run {
        most: 1 << 16,
        ..run_of(STORE, LARGE, input.as_bytes())
    };
    said(alloc, run, disk)
}

static ROLLED: [Step; 1] = [Step::Run((NOON, "roll main", LARGE, ""), "0: rolled 1\n")];

/// A bucket that has such a line, and is closed.
fn fill(rt: &impl Abort, alloc: Global, disk: &mut MemDisk, time: &str) {
    compare(rt, time, stored(alloc, disk, time), "0: ");
    take_all(rt, alloc, disk, &ROLLED);
}

static SHED: [Step; 2] = [
    Step::Run((LATER, "tick", LARGE, ""), "0: frozen 2\n"),
    Step::Run(
        (LATER, "buckets", LARGE, ""),
        "0: index main stored 1 bytes 600068 frozen 2\n\
        bucket main db_1700000000_1700000000_0 warm 1 600068\n\
        frozen main db_1680000000_1680000000_2 total 1700000101 1 deleted\n\
        frozen main db_1690000000_1690000000_1 total 1700000101 1 deleted\n\
        events settled 3 nulled 0 dropped 0\n",
    ),
];

/// Of three buckets that are too much together the two with the oldest events freeze, the older one
/// first.
#[test]
fn buckets_of_too_many_bytes_are_listed_as_they_freeze(rt: HostRuntime) {
    let mut disk = disk_of(rt.alloc());
    fill(&rt, rt.alloc(), &mut disk, "1700000000");
    fill(&rt, rt.alloc(), &mut disk, "1690000000");
    fill(&rt, rt.alloc(), &mut disk, "1680000000");
    take_all(&rt, rt.alloc(), &mut disk, &SHED);
}
