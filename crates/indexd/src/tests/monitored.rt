//! Passes over watched files: what each tells, and what is stored of them.

use crate::tests::runs::{NOON, compare, disk_of, run_of, said};
use crate::tests::steps::{BUCKET, LOG, Script, Step, check_each};
use std::alloc::Global;
use std::process::Abort;

/// One file, as it is first.
const FIRST: &str =
    "props:[default]\nSHOULD_LINEMERGE = false\n§inputs:[monitor:///logs/app.log]\n§/logs/app.log:one\ntwo\n";

/// It has grown.
const GROWN: &str =
    "props:[default]\nSHOULD_LINEMERGE = false\n§inputs:[monitor:///logs/app.log]\n§/logs/app.log:one\ntwo\nthree\n";

/// Another one stands in its place.
const OTHER: &str =
    "props:[default]\nSHOULD_LINEMERGE = false\n§inputs:[monitor:///logs/app.log]\n§/logs/app.log:new\n";

/// It was emptied.
const EMPTY: &str =
    "props:[default]\nSHOULD_LINEMERGE = false\n§inputs:[monitor:///logs/app.log]\n§/logs/app.log:";

/// It is gone.
const GONE: &str = "props:[default]\nSHOULD_LINEMERGE = false\n§inputs:[monitor:///logs/app.log]\n";

/// Several files, of which two inputs have one, and one input is not watched.
const SEVERAL: &str = "props:[default]\nSHOULD_LINEMERGE = false\n§\
    inputs:[default]\nhost = web\n[monitor:///logs/*.log]\nsourcetype = t\n[monitor:///logs/b.log]\nhost = late\n\
    [monitor:///off]\ndisabled = yes\n[monitor:///none/*]\n[monitor:///none]\n§\
    /logs/b.log:bee\n§/logs/a.log:ay\n§/logs/c.txt:sea\n§/off:off\n";

/// An index that is not configured, and a path that no files can have.
const BAD_INDEX: &str = "inputs:[monitor:///a]\nindex = web\n§/a:a\n";

const BAD_PATH: &str = "inputs:[monitor:///a*/b]\n§/a:a\n";

static SCRIPTS: [Script<'static>; 5] = [
    &[
        Step::Run(
            (NOON, "monitor", FIRST, ""),
            "0: /logs/app.log from 0 to 8\n",
        ),
        Step::Run(
            (NOON, "export main", FIRST, ""),
            "0: main\t1700000000.000000\tlocalhost\t/logs/app.log\tunknown\t\tone\n",
        ),
        Step::Run(
            (NOON, "monitor", GROWN, ""),
            "0: /logs/app.log from 8 to 14\n",
        ),
        Step::Run(
            (NOON, "export main", GROWN, ""),
            "0: main\t1700000000.000000\tlocalhost\t/logs/app.log\tunknown\t\tone\n\
            main\t1700000000.000000\tlocalhost\t/logs/app.log\tunknown\t\ttwo\n",
        ),
        Step::Run((NOON, "monitor", GROWN, ""), "0: /logs/app.log skip\n"),
        Step::Run(
            (NOON, "monitor", OTHER, ""),
            "0: /logs/app.log again from 0 to 4\n",
        ),
        Step::Run(
            (NOON, "export main", OTHER, ""),
            "0: main\t1700000000.000000\tlocalhost\t/logs/app.log\tunknown\t\tone\n\
            main\t1700000000.000000\tlocalhost\t/logs/app.log\tunknown\t\ttwo\n\
            main\t1700000000.000000\tlocalhost\t/logs/app.log\tunknown\t\tthree\n",
        ),
        Step::Run((NOON, "monitor", GONE, ""), "0: /logs/app.log missing\n"),
    ],
    // the channel is ended behind the file, and so its last line is an event
    &[
        Step::Run(
            (NOON, "monitor --close", FIRST, ""),
            "0: /logs/app.log from 0 to 8\n",
        ),
        Step::Run(
            (NOON, "export main", FIRST, ""),
            "0: main\t1700000000.000000\tlocalhost\t/logs/app.log\tunknown\t\tone\n\
            main\t1700000000.000000\tlocalhost\t/logs/app.log\tunknown\t\ttwo\n",
        ),
        Step::Run((NOON, "monitor", FIRST, ""), "0: /logs/app.log skip\n"),
    ],
    // a file that was emptied is read again, until it has bytes
    &[
        Step::Run((NOON, "monitor", EMPTY, ""), "0: /logs/app.log skip\n"),
        Step::Run(
            (NOON, "monitor", FIRST, ""),
            "0: /logs/app.log from 0 to 8\n",
        ),
        Step::Run(
            (NOON, "monitor", EMPTY, ""),
            "0: /logs/app.log again from 0 to 0\n",
        ),
        Step::Run(
            (NOON, "monitor", EMPTY, ""),
            "0: /logs/app.log again from 0 to 0\n",
        ),
        Step::Run((NOON, "monitor", FIRST, ""), "0: /logs/app.log skip\n"),
    ],
    // each file once, for the first input that has it, in the order of the names
    &[
        Step::Run(
            (NOON, "monitor --close", SEVERAL, ""),
            "0: /logs/a.log from 0 to 3\n/logs/b.log from 0 to 4\n/none missing\n",
        ),
        Step::Run(
            (NOON, "export main", SEVERAL, ""),
            "0: main\t1700000000.000000\tweb\t/logs/a.log\tt\t\tay\nmain\t1700000000.000000\tweb\t/logs/b.log\tt\t\tbee\n",
        ),
    ],
    // faults of inputs.conf are those of this command alone
    &[
        Step::Run(
            (NOON, "monitor", BAD_INDEX, ""),
            "3: indexd: configuration: inputs [monitor:///a] index: BadValue\n",
        ),
        Step::Run(
            (NOON, "monitor", BAD_PATH, ""),
            "3: indexd: configuration: inputs [monitor:///a*/b]: BadStanza\n",
        ),
        Step::Run(
            (NOON, "buckets", BAD_INDEX, ""),
            "0: index main stored 0 bytes 0 frozen 0\nevents settled 0 nulled 0 dropped 0\n",
        ),
    ],
];

/// A file is read from where it was read to, and another one in its place from its start.
#[test]
fn files_are_read_on_and_told(rt: HostRuntime) {
    check_each(&rt, rt.alloc(), &SCRIPTS);
}

/// It has lost its second line.
const SHRUNK: &str =
    "props:[default]\nSHOULD_LINEMERGE = false\n§inputs:[monitor:///logs/app.log]\n§/logs/app.log:one\n";

/// Another one of as many bytes stands in its place.
const AS_LONG: &str =
    "props:[default]\nSHOULD_LINEMERGE = false\n§inputs:[monitor:///logs/app.log]\n§/logs/app.log:six\nten\n";

/// A first line of 260 letters, so of more bytes than a file is known by, and another line.
const WIDE: &str = "\
    props:[default]\nSHOULD_LINEMERGE = false\n§inputs:[monitor:///logs/app.log]\n§/logs/app.log:\
    xxxxxxxxxxxxxxxxxxxxxxxxxxxxxxxxxxxxxxxxxxxxxxxxxxxxxxxxxxxxxxxxxxxxxxxxxxxxxxxxxxxxxxxxxxxxxxxxxxxxxxxxxxxxxxxxxxxxxxxxxxxxxxxxxx\
    xxxxxxxxxxxxxxxxxxxxxxxxxxxxxxxxxxxxxxxxxxxxxxxxxxxxxxxxxxxxxxxxxxxxxxxxxxxxxxxxxxxxxxxxxxxxxxxxxxxxxxxxxxxxxxxxxxxxxxxxxxxxxxxxxx\n\
    two\n";

/// It has lost its second line.
const WIDE_SHRUNK: &str = "\
    props:[default]\nSHOULD_LINEMERGE = false\n§inputs:[monitor:///logs/app.log]\n§/logs/app.log:\
    xxxxxxxxxxxxxxxxxxxxxxxxxxxxxxxxxxxxxxxxxxxxxxxxxxxxxxxxxxxxxxxxxxxxxxxxxxxxxxxxxxxxxxxxxxxxxxxxxxxxxxxxxxxxxxxxxxxxxxxxxxxxxxxxxx\
    xxxxxxxxxxxxxxxxxxxxxxxxxxxxxxxxxxxxxxxxxxxxxxxxxxxxxxxxxxxxxxxxxxxxxxxxxxxxxxxxxxxxxxxxxxxxxxxxxxxxxxxxxxxxxxxxxxxxxxxxxxxxxxxxxx\n";

/// The file is read for the first time.
const READ: Step = Step::Run(
    (NOON, "monitor", FIRST, ""),
    "0: /logs/app.log from 0 to 8\n",
);

static CHANGED: [Script<'static>; 4] = [
    // it has fewer bytes than were read, and others than it was known by
    &[
        READ,
        Step::Run(
            (NOON, "monitor", SHRUNK, ""),
            "0: /logs/app.log again from 0 to 4\n",
        ),
        Step::Run(
            (NOON, "monitor --close", SHRUNK, ""),
            "0: /logs/app.log skip\n",
        ),
        Step::Run(
            (NOON, "export main", SHRUNK, ""),
            "0: main\t1700000000.000000\tlocalhost\t/logs/app.log\tunknown\t\tone\n\
            main\t1700000000.000000\tlocalhost\t/logs/app.log\tunknown\t\ttwo\n\
            main\t1700000000.000000\tlocalhost\t/logs/app.log\tunknown\t\tone\n",
        ),
    ],
    // it has fewer bytes than were read, and begins with all that it was known by
    &[
        Step::Run(
            (NOON, "monitor", WIDE, ""),
            "0: /logs/app.log from 0 to 265\n",
        ),
        Step::Run(
            (NOON, "monitor", WIDE_SHRUNK, ""),
            "0: /logs/app.log again from 0 to 261\n",
        ),
        Step::Run(
            (NOON, "monitor --close", WIDE_SHRUNK, ""),
            "0: /logs/app.log skip\n",
        ),
        Step::Run(
            (NOON, "buckets", WIDE_SHRUNK, ""),
            "0: index main stored 3 bytes 754 frozen 0\n\
            bucket main hot_v1_0 hot 3 754\n\
            events settled 3 nulled 0 dropped 0\n",
        ),
    ],
    // it has as many bytes as were read, and others
    &[
        READ,
        Step::Run(
            (NOON, "monitor", AS_LONG, ""),
            "0: /logs/app.log again from 0 to 8\n",
        ),
        Step::Run(
            (NOON, "export main", AS_LONG, ""),
            "0: main\t1700000000.000000\tlocalhost\t/logs/app.log\tunknown\t\tone\n\
            main\t1700000000.000000\tlocalhost\t/logs/app.log\tunknown\t\ttwo\n\
            main\t1700000000.000000\tlocalhost\t/logs/app.log\tunknown\t\tsix\n",
        ),
    ],
    // it is gone for a while, and then has grown
    &[
        READ,
        Step::Run((NOON, "monitor", GONE, ""), "0: /logs/app.log missing\n"),
        Step::Run(
            (NOON, "monitor", GROWN, ""),
            "0: /logs/app.log from 8 to 14\n",
        ),
    ],
];

/// A file that was cut or replaced is read again from its start, and one that was away is read on.
#[test]
fn files_that_change_are_read_again(rt: HostRuntime) {
    check_each(&rt, rt.alloc(), &CHANGED);
}

/// Inputs that are not as they should be, each with what is wrong with it.
const BAD_SWITCH: &str = "inputs:[monitor:///a]\ndisabled = maybe\nhost = h\n";

const NO_PATH: &str = "inputs:[monitor://]\n[monitor:///a*/b]\n";

const DEEP: &str = "inputs:[monitor:///logs/.../app.log]\n";

const NO_SETTING: &str = "inputs:[monitor:///a]\nhost\n";

/// The name of the index is judged first.
const BAD_NAME: &str = "inputs:[monitor:///a]\nindex = web\n§indexes:[Main]\n";

/// The greatest number that there is.
const GREATEST: &[u8] = b"\x7f\xff\xff\xff\xff\xff\xff\xff";

/// The greatest number of a run.
const SPENT: Step = Step::Change(LOG, b"", 11, GREATEST);

/// No further file has a number.
const NO_FILE: Step = Step::Change(LOG, b"\x0b\0\0\0\0\0\0\0\x02", 1, GREATEST);

const NO_ROOM: Step = Step::Run((NOON, "monitor", GROWN, ""), "17: indexd: store full\n");

const CUT: Step = Step::Run(
    (NOON, "monitor", GROWN, ""),
    "6: indexd: damaged: home/1 at 10\n",
);

static ENDS: [Script<'static>; 6] = [
    // words
    &[
        Step::Run((NOON, "monitor /logs", FIRST, ""), "2: indexd: usage\n"),
        Step::Run(
            (NOON, "monitor --close --close", FIRST, ""),
            "2: indexd: usage\n",
        ),
        Step::Run(
            (NOON, "monitor --close=yes", FIRST, ""),
            "2: indexd: usage\n",
        ),
        Step::Length(LOG, 0),
    ],
    // inputs, which are judged before the store is opened
    &[
        Step::Run(
            (NOON, "monitor", BAD_SWITCH, ""),
            "3: indexd: configuration: inputs [monitor:///a] disabled: BadValue\n",
        ),
        Step::Run(
            (NOON, "monitor", NO_PATH, ""),
            "3: indexd: configuration: inputs [monitor://]: BadStanza\n",
        ),
        Step::Run(
            (NOON, "monitor", DEEP, ""),
            "3: indexd: configuration: inputs [monitor:///logs/.../app.log]: BadStanza\n",
        ),
        Step::Run(
            (NOON, "monitor", NO_SETTING, ""),
            "3: indexd: configuration: etc/system/local/inputs.conf line 2: NoEquals\n",
        ),
        Step::Run(
            (NOON, "monitor", BAD_NAME, ""),
            "3: indexd: configuration: indexes [Main]: BadIndexName\n",
        ),
        Step::Length(LOG, 0),
    ],
    // a log that was changed, which is told behind faults of inputs
    &[
        READ,
        Step::Change(LOG, b"", 1, b"\xff"),
        Step::Refused(
            (NOON, "monitor", FIRST, ""),
            "6: indexd: damaged: meta/1 at 0\n",
            &[LOG],
        ),
        Step::Run(
            (NOON, "monitor", BAD_INDEX, ""),
            "3: indexd: configuration: inputs [monitor:///a] index: BadValue\n",
        ),
    ],
    // a bucket that was cut takes nothing more, and the next pass finds what this one has found
    &[READ, Step::Shorten(BUCKET, 10), CUT, CUT],
    // no further run has a number
    &[
        Step::Run(
            (NOON, "buckets", FIRST, ""),
            "0: index main stored 0 bytes 0 frozen 0\nevents settled 0 nulled 0 dropped 0\n",
        ),
        SPENT,
        Step::Refused(
            (NOON, "monitor", FIRST, ""),
            "17: indexd: store full\n",
            &[LOG],
        ),
    ],
    // no bucket can be made for what is new, so it is not read
    &[
        READ,
        NO_FILE,
        Step::Run((NOON, "roll main", FIRST, ""), "0: rolled 1\n"),
        NO_ROOM,
        NO_ROOM,
        Step::Run(
            (NOON, "export main", FIRST, ""),
            "0: main\t1700000000.000000\tlocalhost\t/logs/app.log\tunknown\t\tone\n",
        ),
    ],
];

/// A pass ends with the status of what has kept it from its end, and writes no line of a file then.
#[test]
fn passes_end_with_their_statuses(rt: HostRuntime) {
    check_each(&rt, rt.alloc(), &ENDS);
}

/// So many watched files of one line each.
fn many_files(alloc: Global, count: usize) -> String {
    let mut files = String::new(alloc);
    let _ = files.push_str("inputs:[monitor:///logs/*]\n");
    for number in 0..count {
        let _ = write!(files, "§/logs/{}:a\n", number.saturating_add(1000));
    }
    files
}

/// The lines of a pass that reads them for the first time.
fn many_lines(alloc: Global, count: usize) -> String {
    let mut lines = String::new(alloc);
    let _ = lines.push_str("0: ");
    for number in 0..count {
        let _ = write!(lines, "/logs/{} from 0 to 2\n", number.saturating_add(1000));
    }
    lines
}

/// What a pass over so many files says, over a new disk.
fn pass_over(alloc: Global, words: &str, count: usize) -> String {
    let mut disk = disk_of(alloc);
    let files = many_files(alloc, count);
    said(alloc, run_of(words, files.as_str(), b""), &mut disk)
}

fn compares(rt: &impl Abort, alloc: Global, words: &str, count: usize, want: &str) {
    compare(rt, words, pass_over(alloc, words, count), want);
}

/// A pass leaves 256 channels open at the most, and ends those of more files behind each.
#[test]
fn more_files_than_channels_are_closed(rt: HostRuntime) {
    let alloc = rt.alloc();
    compares(&rt, alloc, "monitor", 256, many_lines(alloc, 256).as_str());
    compares(
        &rt,
        alloc,
        "monitor",
        257,
        "11: indexd: too many channels\n",
    );
    compares(
        &rt,
        alloc,
        "monitor --close",
        300,
        many_lines(alloc, 300).as_str(),
    );
}
