//! Worked examples: the runs of each, one behind the other over one disk.

use crate::tests::runs::{A_B_C, AGE, Files, KEPT, LATER, NOON, ON_TIME, PLAIN, STORE};
use crate::tests::steps::{BUCKET, Script, Step, check, check_each};
use ix_base::{Area, File};

const BOTH: Files<'static> = "\
    props:[default]\nSHOULD_LINEMERGE = false\n§\
    indexes:[main]\nfrozenTimePeriodInSecs = 100\n[web]\nfrozenTimePeriodInSecs = 100\n";

const HOT: Files<'static> = "\
    props:[default]\nSHOULD_LINEMERGE = false\nTIME_FORMAT = %s\n§\
    indexes:[main]\nmaxHotBuckets = 2\n";

const COLD: Files<'static> = "\
    props:[default]\nSHOULD_LINEMERGE = false\n§\
    indexes:[main]\nmaxWarmDBCount = 0\n";

const MASKED: Files<'static> = "\
    props:[default]\nSHOULD_LINEMERGE = false\nSEDCMD-mask = s/\\d{4}-(\\d{4})/xxxx-\\1/g\nTRANSFORMS-drop = drop\n§\
    transforms:[drop]\nREGEX = xxxx-4\nDEST_KEY = queue\nFORMAT = nullQueue\n";

const NOWHERE: Files<'static> = "\
    props:[default]\nSHOULD_LINEMERGE = false\nTRANSFORMS-r = toweb\n§\
    transforms:[toweb]\nREGEX = .\nDEST_KEY = _MetaData:Index\nFORMAT = web\n";

const LOST: Files<'static> = "\
    props:[default]\nSHOULD_LINEMERGE = false\nTRANSFORMS-r = toweb\n§\
    transforms:[toweb]\nREGEX = .\nDEST_KEY = _MetaData:Index\nFORMAT = web\n§\
    indexes:[default]\nlastChanceIndex = lost\n[lost]\n";

static STORED: [Script<'static>; 3] = [
    &[
        Step::Run(
            (NOON, "buckets", PLAIN, ""),
            "0: index main stored 0 bytes 0 frozen 0\nevents settled 0 nulled 0 dropped 0\n",
        ),
        Step::Run((NOON, STORE, PLAIN, "a\nb"), "0: "),
        Step::Run(
            (NOON, "export main", PLAIN, ""),
            "0: main\t1700000000.000000\th\ts\tunknown\t\ta\nmain\t1700000000.000000\th\ts\tunknown\t\tb\n",
        ),
        Step::Run(
            (NOON, "export web", PLAIN, ""),
            "10: indexd: not found: web\n",
        ),
        Step::Run(
            (NOON, "roll web", PLAIN, ""),
            "10: indexd: not found: web\n",
        ),
        Step::Run(
            (
                NOON,
                "preview --host h --source s --index web --store",
                PLAIN,
                "c",
            ),
            "10: indexd: not found: web\n",
        ),
        Step::Run((NOON, STORE, PLAIN, "c"), "0: "),
        Step::Run(
            (NOON, "buckets", PLAIN, ""),
            "0: index main stored 3 bytes 174 frozen 0\nbucket main hot_v1_0 hot 3 174\nevents settled 3 nulled 0 dropped 0\n",
        ),
    ],
    // events that lie far apart go to buckets of their own, and the least used one rolls for a third
    &[
        Step::Run(
            (NOON, STORE, HOT, "1700000000 a\n1690000000 b\n1680000000 c"),
            "0: ",
        ),
        Step::Run(
            (NOON, "buckets", HOT, ""),
            "0: index main stored 3 bytes 207 frozen 0\nbucket main db_1700000000_1700000000_0 warm 1 69\nbucket main hot_v1_1 hot 1 69\nbucket main hot_v1_2 hot 1 69\nevents settled 3 nulled 0 dropped 0\n",
        ),
        Step::Run(
            (
                NOON,
                "export main --earliest 1690000000 --latest 1700000000",
                HOT,
                "",
            ),
            "0: main\t1690000000.000000\th\ts\tunknown\t\t1690000000 b\n",
        ),
    ],
    // an input that was cut leaves a line open, which a run with an index that is not there leaves
    // alone, and which the next input settles
    &[
        Step::Cut(STORE, PLAIN, "a\nb", "4: indexd: input fault\n"),
        Step::Run(
            (
                NOON,
                "preview --host h --source s --index web --store",
                PLAIN,
                "c",
            ),
            "10: indexd: not found: web\n",
        ),
        Step::Run(
            (NOON, "buckets", PLAIN, ""),
            "0: index main stored 1 bytes 58 frozen 0\nbucket main hot_v1_0 hot 1 58\n\
            events settled 1 nulled 0 dropped 0\n",
        ),
        Step::Run((NOON, STORE, PLAIN, "c"), "0: "),
        Step::Run((NOON, "export main", PLAIN, ""), A_B_C),
    ],
];

/// What was stored is exported, and buckets are listed.
#[test]
fn stored_events_are_exported_and_listed(rt: HostRuntime) {
    check_each(&rt, rt.alloc(), &STORED);
}

static AGED: [Script<'static>; 2] = [
    &[
        Step::Run((NOON, STORE, AGE, "a"), "0: "),
        Step::Run((NOON, "roll main", AGE, ""), "0: rolled 1\n"),
        Step::Run((ON_TIME, "tick", AGE, ""), "0: frozen 0\n"),
        Step::Run((LATER, "tick", AGE, ""), "0: frozen 1\n"),
        Step::Run(
            (LATER, "buckets", AGE, ""),
            "0: index main stored 0 bytes 0 frozen 1\nfrozen main db_1700000000_1700000000_0 age 1700000101 1 deleted\nevents settled 1 nulled 0 dropped 0\n",
        ),
        Step::Run(
            (LATER, "thaw main 0", AGE, ""),
            "10: indexd: not found: main 0\n",
        ),
    ],
    &[
        Step::Run((NOON, STORE, KEPT, "a"), "0: "),
        Step::Run((NOON, "roll main", KEPT, ""), "0: rolled 1\n"),
        Step::Run((LATER, "tick", KEPT, ""), "0: frozen 1\n"),
        Step::Run((LATER, "export main", KEPT, ""), "0: "),
        Step::Run(
            (LATER, "thaw main 0", KEPT, ""),
            "0: thawed db_1700000000_1700000000_0\n",
        ),
        Step::Run(
            (LATER, "export main", KEPT, ""),
            "0: main\t1700000000.000000\th\ts\tunknown\t\ta\n",
        ),
        Step::Run(
            (LATER, "buckets", KEPT, ""),
            "0: index main stored 0 bytes 0 frozen 1\nbucket main db_1700000000_1700000000_0 thawed 1 58\nfrozen main db_1700000000_1700000000_0 age 1700000101 1 archived\nevents settled 1 nulled 0 dropped 0\n",
        ),
        Step::Run(
            (LATER, "thaw main 0", KEPT, ""),
            "10: indexd: not found: main 0\n",
        ),
    ],
];

/// Buckets roll, cool and freeze, and a frozen one with an archive is brought back.
#[test]
fn buckets_age(rt: HostRuntime) {
    check_each(&rt, rt.alloc(), &AGED);
}

/// The file of the bucket of a second index.
const WEB: File = File {
    area: Area::Home,
    number: 2,
};

static FROZEN: [Step; 10] = [
    Step::Run((NOON, STORE, BOTH, "a"), "0: "),
    Step::Run(
        (
            NOON,
            "preview --host h --source s --index web --store",
            BOTH,
            "b",
        ),
        "0: ",
    ),
    Step::Run((NOON, "roll web", BOTH, ""), "0: rolled 1\n"),
    Step::Run((LATER, "tick", BOTH, ""), "0: frozen 1\n"),
    Step::Length(WEB, 0),
    Step::Length(BUCKET, 58),
    Step::Run((LATER, "roll main", BOTH, ""), "0: rolled 1\n"),
    Step::Run((LATER, "tick", BOTH, ""), "0: frozen 1\n"),
    Step::Length(BUCKET, 0),
    Step::Run(
        (LATER, "buckets", BOTH, ""),
        "0: index main stored 0 bytes 0 frozen 1\nindex web stored 0 bytes 0 frozen 1\nfrozen main db_1700000000_1700000000_0 age 1700000101 1 deleted\nfrozen web db_1700000000_1700000000_0 age 1700000101 1 deleted\nevents settled 2 nulled 0 dropped 0\n",
    ),
];

/// Of two buckets that freeze at one moment the one of the first index is listed first, also where it froze behind the other. With no archive their
/// files go.
#[test]
fn frozen_buckets_stand_by_index(rt: HostRuntime) {
    check(&rt, rt.alloc(), &FROZEN);
}

/// The file that the first bucket is copied to.
const COPY: File = File {
    area: Area::Cold,
    number: 2,
};

static COOLED: [Step; 6] = [
    Step::Run((NOON, STORE, COLD, "a"), "0: "),
    Step::Run((NOON, "roll main", COLD, ""), "0: rolled 1\n"),
    Step::Run((NOON, "tick", COLD, ""), "0: frozen 0\n"),
    Step::Run(
        (NOON, "buckets", COLD, ""),
        "0: index main stored 1 bytes 58 frozen 0\nbucket main db_1700000000_1700000000_0 cold 1 58\nevents settled 1 nulled 0 dropped 0\n",
    ),
    Step::Length(COPY, 58),
    Step::Length(BUCKET, 0),
];

/// A bucket that cools is copied, and its first file goes.
#[test]
fn cold_buckets_are_copied(rt: HostRuntime) {
    check(&rt, rt.alloc(), &COOLED);
}

static ROUTED: [Script<'static>; 3] = [
    &[
        Step::Run(
            (NOON, STORE, MASKED, "card 1234-5678\npay 8765-4321"),
            "0: ",
        ),
        Step::Run(
            (NOON, "buckets", MASKED, ""),
            "0: index main stored 1 bytes 71 frozen 0\nbucket main hot_v1_0 hot 1 71\nevents settled 2 nulled 1 dropped 0\n",
        ),
        Step::Run(
            (NOON, "export main", MASKED, ""),
            "0: main\t1700000000.000000\th\ts\tunknown\t\tcard xxxx-5678\n",
        ),
    ],
    // an event of an index that is not there is dropped, or goes to the last one; that keeps its buckets once it is retired
    &[
        Step::Run((NOON, STORE, NOWHERE, "a"), "0: "),
        Step::Run(
            (NOON, "buckets", NOWHERE, ""),
            "0: index main stored 0 bytes 0 frozen 0\nevents settled 1 nulled 0 dropped 1\n",
        ),
    ],
    &[
        Step::Run((NOON, STORE, LOST, "a"), "0: "),
        Step::Run(
            (NOON, "buckets", LOST, ""),
            "0: index lost stored 1 bytes 58 frozen 0\nbucket lost hot_v1_0 hot 1 58\nindex main stored 0 bytes 0 frozen 0\nevents settled 1 nulled 0 dropped 0\n",
        ),
        Step::Run((NOON, STORE, NOWHERE, "b"), "0: "),
        Step::Run(
            (NOON, "buckets", NOWHERE, ""),
            "0: index lost stored 1 bytes 58 frozen 0\nbucket lost hot_v1_0 hot 1 58\nindex main stored 0 bytes 0 frozen 0\nevents settled 2 nulled 0 dropped 1\n",
        ),
        Step::Run(
            (NOON, "export lost", NOWHERE, ""),
            "0: lost\t1700000000.000000\th\ts\tunknown\t\ta\n",
        ),
        Step::Run(
            (
                NOON,
                "preview --host h --source s --index lost --store",
                NOWHERE,
                "c",
            ),
            "10: indexd: not found: lost\n",
        ),
    ],
];

/// Events are masked, dropped and routed as they are stored, and settings that change hold from then on.
#[test]
fn settings_say_what_is_stored(rt: HostRuntime) {
    check_each(&rt, rt.alloc(), &ROUTED);
}
