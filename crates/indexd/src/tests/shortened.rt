//! Logs that a checkpoint makes short: one that a test asks the store for, and one that a run of the program makes at its end.

use crate::tests::runs::{AGE, LATER, NOON, ON_TIME, STORE};
use crate::tests::steps::{LOG, LONG, ROOT, Step, check};

const LISTED: Step = Step::Run(
    (LATER, "buckets", AGE, ""),
    "0: index main stored 0 bytes 0 frozen 1\nfrozen main db_1700000000_1700000000_0 age 1700000101 1 deleted\nevents settled 1 nulled 0 dropped 0\n",
);

/// A bucket is filled, rolled and frozen.
const FILLED: Step = Step::Run((NOON, STORE, AGE, "a"), "0: ");

const ROLLED: Step = Step::Run((NOON, "roll main", AGE, ""), "0: rolled 1\n");

const WAITING: Step = Step::Run((ON_TIME, "tick", AGE, ""), "0: frozen 0\n");

const FROZEN: Step = Step::Run((LATER, "tick", AGE, ""), "0: frozen 1\n");

/// The root log behind the first checkpoint: it names the second log, which is there then, and the first one is gone.
const NAMES_SECOND: Step = Step::Holds(ROOT, b"\x01\0\0\0\x08\0\0\0\0\0\0\0\x02\0");

const HAS_SECOND: Step = Step::Logs("02");

static ASKED: [Step; 9] = [
    FILLED,
    ROLLED,
    WAITING,
    FROZEN,
    LISTED,
    Step::Checkpoint,
    NAMES_SECOND,
    HAS_SECOND,
    LISTED,
];

/// A checkpoint that the store is asked for leaves the listing as it was, also behind the next mount.
#[test]
fn a_checkpoint_changes_no_listing(rt: HostRuntime) {
    check(&rt, rt.alloc(), &ASKED);
}

static MADE: [Step; 10] = [
    FILLED,
    ROLLED,
    WAITING,
    FROZEN,
    LISTED,
    Step::Lengthen(LOG, LONG),
    LISTED,
    NAMES_SECOND,
    HAS_SECOND,
    LISTED,
];

/// A run makes a log short that has grown long. Here bytes behind its last gate, which mean nothing, make it long.
#[test]
fn a_run_makes_a_long_log_short(rt: HostRuntime) {
    check(&rt, rt.alloc(), &MADE);
}
