//! Files of a store that were cut or changed by somebody else, and what stands in some of them.

use crate::tests::exchanges::Exchanges;
use crate::tests::runs::{A_B_C, AGE, DEFAULT, Files, KEPT, LATER, NOON, PLAIN, STORE, Task};
use crate::tests::steps::{BUCKET, LOG, ROOT, Script, Step, check_each};
use ix_base::{Area, File};

/// The archive of the first bucket.
const ARCHIVE: File = File {
    area: Area::Frozen,
    number: 2,
};

/// The bucket behind it.
const SECOND: File = File {
    area: Area::Home,
    number: 3,
};

/// 101 seconds behind `LATER`.
const LAST: i64 = 1_700_000_202_000_000;

/// The log behind the first checkpoint.
const NEXT_LOG: File = File {
    area: Area::Meta,
    number: 2,
};

/// Two events in one bucket.
const STORED: Step = Step::Run((NOON, STORE, PLAIN, "a\nb"), "0: ");

static CUT: [Script<'static>; 4] = [
    &[
        STORED,
        Step::Length(BUCKET, 116),
        Step::Shorten(BUCKET, 100),
        Step::Run(
            (NOON, "export main", PLAIN, ""),
            "6: main\t1700000000.000000\th\ts\tunknown\t\ta\nindexd: damaged: home/1 at 58\n",
        ),
        Step::Run(
            (NOON, STORE, PLAIN, "c"),
            "6: indexd: damaged: home/1 at 100\n",
        ),
    ],
    // a record that is none, at the front and behind another one
    &[
        STORED,
        Step::Change(BUCKET, b"", 58, b"\xff"),
        Step::Run(
            (NOON, "export main", PLAIN, ""),
            "6: main\t1700000000.000000\th\ts\tunknown\t\ta\nindexd: damaged: home/1 at 58\n",
        ),
        Step::Change(BUCKET, b"", 0, b"\xff"),
        Step::Run(
            (NOON, "export main", PLAIN, ""),
            "6: indexd: damaged: home/1 at 0\n",
        ),
    ],
    // bytes behind those that were committed mean nothing
    &[
        STORED,
        Step::Lengthen(BUCKET, 5),
        Step::Run((NOON, STORE, PLAIN, "c"), "0: "),
        Step::Length(BUCKET, 174),
        Step::Run((NOON, "export main", PLAIN, ""), A_B_C),
    ],
    // a bucket that is cut cannot be archived, nor an archive that is cut be brought back
    &[
        Step::Run((NOON, STORE, KEPT, "a"), "0: "),
        Step::Run((NOON, "roll main", KEPT, ""), "0: rolled 1\n"),
        Step::Run((LATER, "tick", KEPT, ""), "0: frozen 1\n"),
        Step::Length(ARCHIVE, 58),
        Step::Shorten(ARCHIVE, 10),
        Step::Run(
            (LATER, "thaw main 0", KEPT, ""),
            "6: indexd: damaged: frozen/2 at 10\n",
        ),
        Step::Run((LATER, STORE, KEPT, "b"), "0: "),
        Step::Run((LATER, "roll main", KEPT, ""), "0: rolled 1\n"),
        Step::Shorten(SECOND, 10),
        Step::Run(
            (LAST, "tick", KEPT, ""),
            "6: indexd: damaged: home/3 at 10\n",
        ),
    ],
];

/// A bucket or an archive that is shorter than what was committed, or in which no record stands.
#[test]
fn a_bucket_that_is_cut_is_named(rt: HostRuntime) {
    check_each(&rt, rt.alloc(), &CUT);
}

const LISTED: Task = (NOON, "buckets", DEFAULT, "");

/// A new store without settings.
const NEW: Step = Step::Run(
    LISTED,
    "0: index main stored 0 bytes 0 frozen 0\nevents settled 0 nulled 0 dropped 0\n",
);

/// What its log has.
const FIRST_LOG: &[u8] = b"\x01\0\0\0\x0e\x01\0\0\0\0\x02\0\0\0\0\0\0\0\x01\0";

const DAMAGED: Step = Step::Run(LISTED, "6: indexd: damaged: meta/1 at 0\n");

/// The second body of a log is damaged.
const DAMAGED_NEXT: Step = Step::Run(LISTED, "6: indexd: damaged: meta/1 at 19\n");

/// The last run has a number, and no other one.
const SPENT: Step = Step::Change(LOG, b"", 11, b"\x7f\xff\xff\xff\xff\xff\xff\xff");

/// What the log says of the first bucket, up to the area of its file: its index, its number, and
/// that it is hot.
const HOT: &[u8] = b"\x06\0\0\0\x04main\0\0\0\0\0\0\0\0\x01";

static CHANGED: [Script<'static>; 8] = [
    &[
        NEW,
        Step::Holds(LOG, FIRST_LOG),
        Step::Change(LOG, b"", 1, b"\xff"),
        DAMAGED,
        // what is refused does not grow
        DAMAGED,
        Step::Length(LOG, 20),
    ],
    &[NEW, Step::Change(LOG, b"", 5, b"\x0e"), DAMAGED],
    &[NEW, Step::Shorten(LOG, 19), DAMAGED],
    // as many settings as there can be
    &[NEW, Step::Change(LOG, b"", 6, b"\xff\xff\xff\xff"), DAMAGED],
    &[
        NEW,
        SPENT,
        Step::Run(LISTED, "17: indexd: store full\n"),
        Step::Length(LOG, 20),
        // a body that is cut comes before that
        Step::Change(LOG, b"", 19, b"\x01\0\0\0\x09"),
        DAMAGED_NEXT,
    ],
    // the second run has a body of its own, behind the gate at 19
    &[
        NEW,
        NEW,
        Step::Shorten(LOG, 33),
        Step::Run(
            (NOON, "tick", DEFAULT, ""),
            "6: indexd: damaged: meta/1 at 19\n",
        ),
    ],
    // a bucket in the area of the logs, and with a number that no file has
    &[
        STORED,
        Step::Change(LOG, HOT, 18, b"\x01"),
        Step::Run(LISTED, "6: indexd: damaged: meta/1 at 263\n"),
        Step::Change(LOG, HOT, 18, b"\x02\x80"),
        Step::Run(LISTED, "6: indexd: damaged: meta/1 at 263\n"),
    ],
    // the root log
    &[
        STORED,
        Step::Checkpoint,
        Step::Shorten(ROOT, 13),
        Step::Run(LISTED, "6: indexd: damaged: meta/0 at 0\n"),
    ],
];

/// The log of a new store, and what is told of it where it is changed, cut, or spent.
#[test]
fn a_log_that_is_changed_is_named(rt: HostRuntime) {
    check_each(&rt, rt.alloc(), &CHANGED);
}

/// What is carried of an open event of the one line `a`: how many lines it has, its text, its two marks, and that no time was read.
const MARKS: &[u8] = b"\0\0\0\x01\0\0\0\x01a\0\0\0";

/// An event is left open.
const OPEN: Step = Step::Cut(STORE, DEFAULT, "a\nb", "4: indexd: input fault\n");

/// The listing of a store of which the one event was frozen.
const LISTED_FROZEN: Task = (LATER, "buckets", AGE, "");

const FROZEN_LISTING: &str =
    "0: index main stored 0 bytes 0 frozen 1\nfrozen main db_1700000000_1700000000_0 age 1700000101 1 deleted\nevents settled 1 nulled 0 dropped 0\n";

const NO_CARRY: Step = Step::Run(LISTED, "6: indexd: damaged: meta/1 at 128\n");

/// No line, one line more than `MAX_EVENTS`, a text that is longer than the carry, the two marks,
/// and the mark of a time.
static MARKED: [Script<'static>; 6] = [
    &[OPEN, Step::Change(LOG, MARKS, 3, b"\0"), NO_CARRY],
    &[OPEN, Step::Change(LOG, MARKS, 2, b"\x01\x01"), NO_CARRY],
    &[
        OPEN,
        Step::Change(LOG, MARKS, 4, b"\xff\xff\xff\xff"),
        NO_CARRY,
    ],
    &[OPEN, Step::Change(LOG, MARKS, 9, b"\x02"), NO_CARRY],
    &[OPEN, Step::Change(LOG, MARKS, 10, b"\x02"), NO_CARRY],
    &[OPEN, Step::Change(LOG, MARKS, 11, b"\x02"), NO_CARRY],
];

/// What is carried of an open channel and is no carry makes the log damaged, at the gate of the last
/// body that says the channel: behind the first one, and that of the begin, which was committed with
/// the turn of housekeeping before it.
#[test]
fn a_carry_that_is_none_is_named(rt: HostRuntime) {
    check_each(&rt, rt.alloc(), &MARKED);
}

const BROKEN: Files<'static> = "props:[default]\nBREAK_ONLY_BEFORE = ^L\n";

const ZONED: Files<'static> = "props:[default]\nTZ = UTC\n";

const WEB: Files<'static> = "indexes:[web]\n";

static VALUELESS: [Script<'static>; 6] = [
    // a value, a pattern, a zone, and a name that are none
    &[
        Step::Run((NOON, "tick", PLAIN, ""), "0: frozen 0\n"),
        Step::Change(LOG, b"false", 0, b"maybe"),
        DAMAGED_NEXT,
    ],
    &[
        Step::Run((NOON, "tick", BROKEN, ""), "0: frozen 0\n"),
        Step::Change(LOG, b"^L", 1, b"("),
        DAMAGED_NEXT,
    ],
    &[
        Step::Run((NOON, "tick", ZONED, ""), "0: frozen 0\n"),
        Step::Change(LOG, b"UTC", 0, b"X"),
        DAMAGED_NEXT,
    ],
    &[
        Step::Run((NOON, "tick", WEB, ""), "0: frozen 0\n"),
        Step::Change(LOG, b"web", 0, b"_"),
        DAMAGED_NEXT,
    ],
    // a text that is longer than the body
    &[
        Step::Run((NOON, "tick", PLAIN, ""), "0: frozen 0\n"),
        Step::Change(LOG, b"\0\0\0\x07default", 0, b"\xff\xff\xff\xff"),
        DAMAGED_NEXT,
    ],
    // a checkpoint says the settings in its one body
    &[
        Step::Run((NOON, "tick", PLAIN, ""), "0: frozen 0\n"),
        Step::Checkpoint,
        Step::Change(NEXT_LOG, b"false", 0, b"maybe"),
        Step::Run(LISTED, "6: indexd: damaged: meta/2 at 0\n"),
    ],
];

/// Settings that a store keeps, and of which no values come, make the log damaged at the last body
/// that says them. It is never told as a want of memory.
#[test]
fn settings_without_values_are_named(rt: HostRuntime) {
    check_each(&rt, rt.alloc(), &VALUELESS);
}

static REFUSED_FIRST: [Script<'static>; 4] = [
    // settings without values come before a run that has no number
    &[
        Step::Run((NOON, "tick", PLAIN, ""), "0: frozen 0\n"),
        SPENT,
        Step::Refused(LISTED, "17: indexd: store full\n", &[LOG]),
        Step::Change(LOG, b"false", 0, b"maybe"),
        Step::Refused(LISTED, "6: indexd: damaged: meta/1 at 19\n", &[LOG]),
    ],
    // and so does what is carried and is no carry
    &[
        OPEN,
        SPENT,
        Step::Change(LOG, MARKS, 3, b"\0"),
        Step::Refused(LISTED, "6: indexd: damaged: meta/1 at 128\n", &[LOG]),
    ],
    // what the last removals name is removed once more, where the store is not damaged
    &[
        Step::Run((NOON, STORE, AGE, "a"), "0: "),
        Step::Run((NOON, "roll main", AGE, ""), "0: rolled 1\n"),
        Step::Run((LATER, "tick", AGE, ""), "0: frozen 1\n"),
        Step::Length(BUCKET, 0),
        Step::Lengthen(BUCKET, 5),
        Step::Run(LISTED_FROZEN, FROZEN_LISTING),
        Step::Length(BUCKET, 0),
    ],
    &[
        Step::Run((NOON, STORE, AGE, "a"), "0: "),
        Step::Run((NOON, "roll main", AGE, ""), "0: rolled 1\n"),
        Step::Run((LATER, "tick", AGE, ""), "0: frozen 1\n"),
        Step::Lengthen(BUCKET, 5),
        Step::Change(LOG, b"false", 0, b"maybe"),
        Step::Refused(LISTED, "6: indexd: damaged: meta/1 at 19\n", &[LOG, BUCKET]),
        Step::Length(BUCKET, 5),
    ],
];

/// A store that is damaged is left as it was, however often it is tried, and that it is damaged comes
/// before that it is full.
#[test]
fn a_damaged_store_is_left_as_it_was(rt: HostRuntime) {
    check_each(&rt, rt.alloc(), &REFUSED_FIRST);
}

/// The greatest number that there is.
const GREATEST: &[u8] = b"\x7f\xff\xff\xff\xff\xff\xff\xff";

/// The bucket is closed, so that the next event needs another one.
const ROLLED: Step = Step::Run((NOON, "roll main", PLAIN, ""), "0: rolled 1\n");

const NO_ROOM: Step = Step::Run((NOON, STORE, PLAIN, "c"), "17: indexd: store full\n");

const REFUSED: Exchanges<'static> = "\
    PUT /channels/c¦¦{\"host\":\"h\",\"source\":\"s\"}¦201 Created¦{\"channel\":\"c\"}¶\
    POST /channels/c/blocks¦¦x\ny¦507 Insufficient Storage¦{\"error\":\"Full\"}¶\
    POST /channels/c/blocks¦¦x¦200 OK¦{\"ack\":0,\"run\":4}";

static FILLED: [Script<'static>; 6] = [
    // no further file has a number
    &[
        STORED,
        Step::Change(LOG, b"\x0b\0\0\0\0\0\0\0\x02", 1, GREATEST),
        ROLLED,
        NO_ROOM,
        Step::Feed(PLAIN, REFUSED, "0", ""),
        Step::Run(
            (NOON, "buckets", PLAIN, ""),
            "0: index main stored 2 bytes 116 frozen 0\n\
            bucket main db_1700000000_1700000000_0 warm 2 116\n\
            events settled 2 nulled 0 dropped 0\n",
        ),
    ],
    // buckets have no more bytes than that
    &[
        STORED,
        Step::Change(LOG, b"\0\0\0\0\0\0\0\x74\0\0\0\0\0\0\0\x02", 0, GREATEST),
        ROLLED,
        NO_ROOM,
        Step::Feed(PLAIN, REFUSED, "0", ""),
    ],
    // and no more events
    &[
        STORED,
        Step::Change(LOG, b"\0\0\0\0\0\0\0\x74\0\0\0\0\0\0\0\x02", 8, GREATEST),
        ROLLED,
        NO_ROOM,
        Step::Feed(PLAIN, REFUSED, "0", ""),
    ],
    // no more events can be settled
    &[
        STORED,
        Step::Change(LOG, b"\x09\0\0\0\0\0\0\0\x02", 1, GREATEST),
        ROLLED,
        NO_ROOM,
        Step::Run(
            (NOON, "buckets", PLAIN, ""),
            "0: index main stored 2 bytes 116 frozen 0\n\
            bucket main db_1700000000_1700000000_0 warm 2 116\n\
            events settled 9223372036854775807 nulled 0 dropped 0\n",
        ),
    ],
    // no further file has a number, for an archive and for a bucket that is brought back
    &[
        Step::Run((NOON, STORE, KEPT, "a"), "0: "),
        Step::Change(LOG, b"\x0b\0\0\0\0\0\0\0\x02", 1, GREATEST),
        Step::Run((NOON, "roll main", KEPT, ""), "0: rolled 1\n"),
        Step::Run((LATER, "tick", KEPT, ""), "17: indexd: store full\n"),
        Step::Run(
            (LATER, "buckets", KEPT, ""),
            "0: index main stored 1 bytes 58 frozen 0\n\
            bucket main db_1700000000_1700000000_0 warm 1 58\n\
            events settled 1 nulled 0 dropped 0\n",
        ),
    ],
    &[
        Step::Run((NOON, STORE, KEPT, "a"), "0: "),
        Step::Run((NOON, "roll main", KEPT, ""), "0: rolled 1\n"),
        Step::Run((LATER, "tick", KEPT, ""), "0: frozen 1\n"),
        Step::Change(LOG, b"\x0b\0\0\0\0\0\0\0\x03", 1, GREATEST),
        Step::Run((LATER, "thaw main 0", KEPT, ""), "17: indexd: store full\n"),
        Step::Run(
            (LATER, "buckets", KEPT, ""),
            "0: index main stored 0 bytes 0 frozen 1\n\
            frozen main db_1700000000_1700000000_0 age 1700000101 1 archived\n\
            events settled 1 nulled 0 dropped 0\n",
        ),
    ],
];

/// A store that has no room for what comes is full: it says so, and neither that memory is wanting
/// nor that it is damaged. What it has is left as it was.
#[test]
fn a_store_without_room_is_full(rt: HostRuntime) {
    check_each(&rt, rt.alloc(), &FILLED);
}
