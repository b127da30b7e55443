//! Logs that grow long while requests are served.

use crate::tests::runs::{Files, NOON, agree, calls_since, crash_of, disk_of};
use crate::tests::steps::{ROOT, Step, check, replied, take_all};
use ix_disk::{MemDisk, StopDisk};
use std::alloc::Global;
use std::process::Abort;

/// No line is cut before a mebibyte, so that each commit writes all of the open line that a block makes longer.
const WIDE: Files<'static> = "props:[default]\nTRUNCATE = 0\n";

/// Seven blocks, all of which are accepted, as the later ones.
const SEVEN: Step = Step::Send(WIDE, 1, (0, 7), "1 7 0 ");

static GROWN: [Step; 5] = [
    SEVEN,
    Step::Logs("1"),
    Step::Send(WIDE, 0, (7, 15), "0 8 0 "),
    Step::Logs("03"),
    // the root log behind two checkpoints
    Step::Holds(
        ROOT,
        b"\x01\0\0\0\x08\0\0\0\0\0\0\0\x02\x01\0\0\0\x08\0\0\0\0\0\0\0\x03\0",
    ),
];

/// The log is long behind the eighth block, and the one that is made then behind the fifteenth: so a run of requests makes logs short while it goes on, and not only at its end.
#[test]
fn a_log_is_made_short_behind_a_reply(rt: HostRuntime) {
    check(&rt, rt.alloc(), &GROWN);
}

static BEFORE: [Step; 2] = [SEVEN, Step::Logs("1")];

static EIGHTH: [Step; 1] = [Step::Send(WIDE, 0, (7, 8), "0 1 0 ")];

static SHORT: [Step; 1] = [Step::Logs("02")];

static NEXT: [Step; 2] = [
    Step::Run(
        (NOON, "buckets", WIDE, ""),
        "0: index main stored 0 bytes 0 frozen 0\nevents settled 0 nulled 0 dropped 0\n",
    ),
    Step::Logs("02"),
];

/// How many calls of the disk the run over the eighth block makes. Behind it there is the second log alone.
fn calls_of_eighth(rt: &impl Abort, alloc: Global, seven: &MemDisk) -> u64 {
    let mut disk = crash_of(alloc, seven, false);
    let before = disk.calls();
    take_all(rt, alloc, &mut disk, &EIGHTH);
    let calls = calls_since(&disk, before);
    take_all(rt, alloc, &mut disk, &SHORT);
    calls
}

/// The block was replied to, and then the disk blamed.
fn check_told(rt: &impl Abort, text: String) {
    let is_told = text.as_str().starts_with("5: HTTP/1.1 200 OK\r\n")
        && text
            .as_str()
            .ends_with("{\"ack\":0,\"run\":2}indexd: disk fault\n");
    agree(rt, is_told, "the eighth block", text);
}

/// A disk that fails within the checkpoint behind the eighth block. The next command makes the log short.
fn check_stop(rt: &impl Abort, alloc: Global, seven: &MemDisk, calls: u64) {
    let mut stopped = StopDisk::new(crash_of(alloc, seven, false), calls);
    check_told(rt, replied(alloc, WIDE, 0, (7, 8), &mut stopped));
    let mut disk = stopped.into_inner();
    take_all(rt, alloc, &mut disk, &NEXT);
}

/// The last call of the run over the eighth block removes the old log, and the ones before it put the number of the new one into the root log.
fn check_stops(rt: &impl Abort, alloc: Global, seven: &mut MemDisk) {
    take_all(rt, alloc, seven, &BEFORE);
    let calls = calls_of_eighth(rt, alloc, seven);
    check_stop(rt, alloc, seven, calls.saturating_sub(1));
    check_stop(rt, alloc, seven, calls.saturating_sub(4));
    check_stop(rt, alloc, seven, calls.saturating_sub(9));
}

#[test]
fn a_checkpoint_that_fails_loses_nothing(rt: HostRuntime) {
    let mut seven = disk_of(rt.alloc());
    check_stops(&rt, rt.alloc(), &mut seven);
}
