//! Runs that are stopped at each call of the disk, or for which one call fails.

use crate::tests::exchanges::BEGUN;
use crate::tests::runs::{
    Files, KEPT, LATER, NOON, PLAIN, STORE, Task, calls_since, crash_of, disk_of, told,
};
use crate::tests::steps::{LOG, LONG, Step, take_all};
use ix_base::{Area, File};
use ix_disk::{MemDisk, OneFail, StopDisk};
use std::alloc::Global;
use std::process::Abort;

const CHANGED: Files<'static> = "props:[default]\nSHOULD_LINEMERGE = false\nTRUNCATE = 2\n";

/// A run that is hindered, behind so many others. The store is known by two runs, and by what they say, one behind the other, behind each number
/// of runs, with `¶` between.
#[derive(Clone, Copy)]
struct Trial {
    done: usize,
    task: Task,
    asks: (Task, Task),
    shown: &'static str,
}

/// `X` stands for the three events of the first run.
const X: &str =
    "main\t1700000000.000000\th\ts\tunknown\t\tx\nmain\t1700000000.000000\th\ts\tunknown\t\ty\nmain\t1700000000.000000\th\ts\tunknown\t\tz\n";

const SHOWN: &str = "\
    0: 0: index main stored 0 bytes 0 frozen 0\nevents settled 0 nulled 0 dropped 0\n¶\
    0: X0: index main stored 3 bytes 174 frozen 0\nbucket main hot_v1_0 hot 3 174\nevents settled 3 nulled 0 dropped 0\n¶\
    0: X0: index main stored 3 bytes 174 frozen 0\nbucket main db_1700000000_1700000000_0 warm 3 174\nevents settled 3 nulled 0 dropped 0\n¶\
    0: 0: index main stored 0 bytes 0 frozen 3\nfrozen main db_1700000000_1700000000_0 age 1700000101 3 archived\nevents settled 3 nulled 0 dropped 0\n¶\
    0: X0: index main stored 0 bytes 0 frozen 3\nbucket main db_1700000000_1700000000_0 thawed 3 174\nfrozen main db_1700000000_1700000000_0 age 1700000101 3 archived\nevents settled 3 nulled 0 dropped 0\n¶\
    0: Xmain\t1700000101.000000\th\ts\tunknown\t\tw\n0: index main stored 1 bytes 58 frozen 3\nbucket main db_1700000000_1700000000_0 thawed 3 174\nbucket main hot_v1_1 hot 1 58\nfrozen main db_1700000000_1700000000_0 age 1700000101 3 archived\nevents settled 4 nulled 0 dropped 0\n";

fn add(text: &mut String, more: String) {
    let _ = text.push_str(more.as_str());
}

/// What the two runs say of a store.
fn shown_of(alloc: Global, disk: &mut MemDisk, trial: &Trial) -> String {
    let mut text = told(alloc, trial.asks.0, disk);
    add(&mut text, told(alloc, trial.asks.1, disk));
    text
}

/// Whether a text is what is wanted, in which `X` stands for its events.
fn is_wanted(alloc: Global, text: &str, want: &str) -> bool {
    let want = want.replace(alloc, "X", X).unwrap_or(String::new(alloc));
    want.as_str() == text
}

/// Behind how many runs a store shows this.
fn runs_of(alloc: Global, text: &str, trial: &Trial) -> Option<usize> {
    for (runs, want) in trial.shown.split('¶').enumerate() {
        if is_wanted(alloc, text, want) {
            return Some(runs);
        }
    }
    None
}

fn assert_held(rt: &impl Abort, is_held: bool, (line, calls): (&str, u64), text: String) {
    assert!(rt; is_held, "{line}, {calls}: {text}");
}

/// A disk on which so many calls were hindered holds what the runs before left, or this one too, and this one for sure where it is done.
fn check_held(
    rt: &impl Abort,
    alloc: Global,
    disk: &mut MemDisk,
    trial: &Trial,
    (calls, is_done): (u64, bool),
) {
    let text = shown_of(alloc, disk, trial);
    let runs = runs_of(alloc, text.as_str(), trial);
    let is_held = runs == trial.done.checked_add(1) || (runs == Some(trial.done) && !is_done);
    assert_held(rt, is_held, (trial.task.1, calls), text);
}

/// How many calls of the disk a run makes.
fn calls_of(alloc: Global, base: &MemDisk, trial: &Trial) -> u64 {
    let mut disk = crash_of(alloc, base, false);
    let before = disk.calls();
    drop(told(alloc, trial.task, &mut disk));
    calls_since(&disk, before)
}

/// How many calls of a disk have changed something, of files with these numbers.
fn changes_of(disk: &MemDisk) -> usize {
    let mut asked = 0usize;
    for number in 0..6 {
        for area in [
            Area::Meta,
            Area::Home,
            Area::Cold,
            Area::Frozen,
            Area::Thawed,
        ] {
            asked = asked.saturating_add(disk.asked(File { area, number }));
        }
    }
    disk.calls().saturating_sub(asked)
}

/// Whether what a run did is there for sure: it does not blame the disk, or has told before that a
/// block is stored.
fn is_done(said: String) -> bool {
    let said = said.as_str();
    !said.ends_with("indexd: disk fault\n") || said.contains("{\"acks\":[true]}")
}

/// A run blames the disk, in its status and in its line, where a call has failed, and is done else.
fn check_blame(rt: &impl Abort, line: &str, said: &str, has_failed: bool) {
    let is_right = if has_failed {
        said.starts_with("5: ") && said.ends_with("indexd: disk fault\n")
    } else {
        said.starts_with("0: ")
    };
    assert!(rt; is_right, "{line}: {said}");
}

/// What a run leaves that stops behind so many calls, and what it says.
fn stopped(alloc: Global, base: &MemDisk, trial: &Trial, calls: u64) -> (MemDisk, String) {
    let mut disk = StopDisk::new(crash_of(alloc, base, false), calls);
    let said = told(alloc, trial.task, &mut disk);
    (disk.into_inner(), said)
}

/// A crash of one of the two forms, behind so many calls of a run.
fn check_crash(
    rt: &impl Abort,
    alloc: Global,
    disk: &MemDisk,
    trial: &Trial,
    (torn, calls, is_done): (bool, u64, bool),
) {
    let mut left = crash_of(alloc, disk, torn);
    check_held(rt, alloc, &mut left, trial, (calls, is_done));
}

/// Stops a run behind so many of its calls, and tells how many of them changed something. Where these are as many as before, a crash leaves what it
/// left then.
fn check_stop(
    rt: &impl Abort,
    alloc: Global,
    base: &MemDisk,
    trial: &Trial,
    (calls, total, before): (u64, u64, usize),
) -> usize {
    let (disk, said) = stopped(alloc, base, trial, calls);
    check_blame(rt, trial.task.1, said.as_str(), calls < total);
    let changes = changes_of(&disk);
    let is_done = is_done(said);
    if changes != before || is_done {
        check_crash(rt, alloc, &disk, trial, (false, calls, is_done));
        check_crash(rt, alloc, &disk, trial, (true, calls, is_done));
    }
    changes
}

/// Stops a run behind each of these numbers of calls. In both forms of a crash the disk then holds what so many runs left, or this one too, and behind
/// all of its calls this one for sure.
fn check_stops(
    rt: &impl Abort,
    alloc: Global,
    base: &MemDisk,
    trial: &Trial,
    (first, last): (u64, u64),
) {
    let total = calls_of(alloc, base, trial);
    let mut changes = 0usize;
    for calls in first..=total.min(last) {
        changes = check_stop(rt, alloc, base, trial, (calls, total, changes));
    }
}

/// Fails a call of a run.
fn check_fail(rt: &impl Abort, alloc: Global, base: &MemDisk, trial: &Trial, call: u64) {
    let mut failing = OneFail::new(crash_of(alloc, base, false), call);
    let said = told(alloc, trial.task, &mut failing);
    check_blame(rt, trial.task.1, said.as_str(), true);
    let is_done = is_done(said);
    let mut disk = failing.into_inner();
    check_held(rt, alloc, &mut disk, trial, (call, is_done));
}

/// Fails each call of a run.
fn check_fails(rt: &impl Abort, alloc: Global, base: &MemDisk, trial: &Trial) {
    for call in 0..calls_of(alloc, base, trial) {
        check_fail(rt, alloc, base, trial, call);
    }
}

/// What is done to a run.
#[derive(Clone, Copy)]
enum Hindrance {
    /// It stops behind each of these numbers of calls.
    Stops(u64, u64),
    /// Each of its calls fails once.
    Fails,
}

fn hinder(rt: &impl Abort, alloc: Global, base: &MemDisk, trial: &Trial, hindrance: Hindrance) {
    match hindrance {
        Hindrance::Stops(first, last) => check_stops(rt, alloc, base, trial, (first, last)),
        Hindrance::Fails => check_fails(rt, alloc, base, trial),
    }
}

const SCRIPT_ASKS: (Task, Task) = (
    (LATER, "export main", KEPT, ""),
    (LATER, "buckets", KEPT, ""),
);

/// A bucket is filled, rolled, frozen with an archive, and brought back, and another one is filled.
static SCRIPT: [Task; 5] = [
    (NOON, STORE, KEPT, "x\ny\nz"),
    (NOON, "roll main", KEPT, ""),
    (LATER, "tick", KEPT, ""),
    (LATER, "thaw main 0", KEPT, ""),
    (LATER, STORE, KEPT, "w"),
];

/// A run of the script.
fn trial_of(done: usize, task: Task) -> Trial {
    Trial {
        done,
        task,
        asks: SCRIPT_ASKS,
        shown: SHOWN,
    }
}

/// Does so to these runs of the script, each on what the ones before left.
fn check_tasks(
    rt: &impl Abort,
    alloc: Global,
    tasks: &[Task],
    numbers: &[usize],
    hindrance: Hindrance,
) {
    let mut disk = disk_of(alloc);
    for (done, task) in tasks.iter().enumerate() {
        if numbers.contains(&done) {
            hinder(rt, alloc, &disk, &trial_of(done, *task), hindrance);
        }
        drop(told(alloc, *task, &mut disk));
    }
}

fn check_script(rt: &impl Abort, alloc: Global, numbers: &[usize], hindrance: Hindrance) {
    check_tasks(rt, alloc, &SCRIPT, numbers, hindrance);
}

const ALL: Hindrance = Hindrance::Stops(0, u64::MAX);

/// Half of the calls of a run that stores an input.
const FIRST: Hindrance = Hindrance::Stops(0, 27);

const SECOND: Hindrance = Hindrance::Stops(27, u64::MAX);

/// A new store, and an input that is stored in it.
#[test]
fn a_stop_while_a_store_begins(rt: HostRuntime) {
    check_script(&rt, rt.alloc(), &[0], FIRST);
}

#[test]
fn a_stop_while_first_events_are_stored(rt: HostRuntime) {
    check_script(&rt, rt.alloc(), &[0], SECOND);
}

/// A bucket that rolls, and one that freezes with an archive.
#[test]
fn a_stop_while_a_bucket_freezes(rt: HostRuntime) {
    check_script(&rt, rt.alloc(), &[1, 2], ALL);
}

/// A bucket that is brought back.
#[test]
fn a_stop_while_a_bucket_is_thawed(rt: HostRuntime) {
    check_script(&rt, rt.alloc(), &[3], ALL);
}

/// An input that is stored beside what is there.
#[test]
fn a_stop_while_a_store_is_opened(rt: HostRuntime) {
    check_script(&rt, rt.alloc(), &[4], FIRST);
}

#[test]
fn a_stop_while_more_events_are_stored(rt: HostRuntime) {
    check_script(&rt, rt.alloc(), &[4], SECOND);
}

#[test]
fn a_call_that_fails_while_a_store_begins(rt: HostRuntime) {
    check_script(&rt, rt.alloc(), &[0], Hindrance::Fails);
}

#[test]
fn a_call_that_fails_while_a_bucket_freezes(rt: HostRuntime) {
    check_script(&rt, rt.alloc(), &[1, 2], Hindrance::Fails);
}

#[test]
fn a_call_that_fails_while_a_bucket_is_thawed(rt: HostRuntime) {
    check_script(&rt, rt.alloc(), &[3], Hindrance::Fails);
}

#[test]
fn a_call_that_fails_while_events_are_stored(rt: HostRuntime) {
    check_script(&rt, rt.alloc(), &[4], Hindrance::Fails);
}

/// Two events, of which the second is still open while the first settings are in force.
const OPEN: &str = "\
    0: index main stored 1 bytes 58 frozen 0\nbucket main hot_v1_0 hot 1 58\nevents settled 1 nulled 0 dropped 0\n0: main\t1700000000.000000\th\ts\tunknown\t\tx\nmain\t1700000000.000000\th\ts\tunknown\t\tyyyy\n¶\
    0: index main stored 2 bytes 119 frozen 0\nbucket main hot_v1_0 hot 2 119\nevents settled 2 nulled 0 dropped 0\n0: main\t1700000000.000000\th\ts\tunknown\t\tx\nmain\t1700000000.000000\th\ts\tunknown\t\tyyyy\n";

static OPENED: [Step; 1] = [Step::Cut(STORE, PLAIN, "x\nyyyy", "4: indexd: input fault\n")];

static CHANGE: Trial = Trial {
    done: 0,
    task: (NOON, "buckets", CHANGED, ""),
    asks: (
        (NOON, "buckets", PLAIN, ""),
        (NOON, "export main", CHANGED, ""),
    ),
    shown: OPEN,
};

/// Does so to a run over what these steps leave.
fn check_behind(
    rt: &impl Abort,
    alloc: Global,
    steps: &[Step],
    trial: &Trial,
    hindrance: Hindrance,
) {
    let mut disk = disk_of(alloc);
    take_all(rt, alloc, &mut disk, steps);
    hinder(rt, alloc, &disk, trial, hindrance);
}

/// Other settings are put in force over an open stream. A stop leaves the old ones with the stream open, or the new ones with the events
/// that the old ones settle.
#[test]
fn a_stop_while_settings_change(rt: HostRuntime) {
    check_behind(&rt, rt.alloc(), &OPENED, &CHANGE, ALL);
}

#[test]
fn a_call_that_fails_while_settings_change(rt: HostRuntime) {
    check_behind(&rt, rt.alloc(), &OPENED, &CHANGE, Hindrance::Fails);
}

/// A channel is begun, a block of two whole lines and a begun one is sent, and it is asked twice
/// whether the block is stored: the first question has it stored.
const REQUESTS: &str = "\
    PUT /channels/c HTTP/1.1\r\nContent-Length: 25\r\n\r\n{\"host\":\"h\",\"source\":\"s\"}\
    POST /channels/c/blocks HTTP/1.1\r\nContent-Length: 5\r\n\r\nx\ny\nz\
    POST /acks HTTP/1.1\r\nContent-Length: 20\r\n\r\n{\"run\":1,\"acks\":[0]}\
    POST /acks HTTP/1.1\r\nContent-Length: 20\r\n\r\n{\"run\":1,\"acks\":[0]}";

const SERVED: &str = "\
    0: 0: index main stored 0 bytes 0 frozen 0\nevents settled 0 nulled 0 dropped 0\n¶\
    0: main\t1700000000.000000\th\ts\tunknown\t\tx\nmain\t1700000000.000000\th\ts\tunknown\t\ty\n0: index main stored 2 bytes 116 frozen 0\nbucket main hot_v1_0 hot 2 116\nevents settled 2 nulled 0 dropped 0\n";

static SERVE: Trial = Trial {
    done: 0,
    task: (NOON, "feed", PLAIN, REQUESTS),
    asks: (
        (NOON, "export main", PLAIN, ""),
        (NOON, "buckets", PLAIN, ""),
    ),
    shown: SERVED,
};

/// A stop leaves both events of a block, or none, and both where it was told that they are stored.
#[test]
fn a_stop_while_a_block_is_served(rt: HostRuntime) {
    check_behind(&rt, rt.alloc(), &[], &SERVE, ALL);
}

#[test]
fn a_call_that_fails_while_a_block_is_served(rt: HostRuntime) {
    check_behind(&rt, rt.alloc(), &[], &SERVE, Hindrance::Fails);
}

/// The run before has begun the channel, and has lost the block. So a sender asks for it in vain,
/// sends it again, and asks twice whether that one is stored.
const REQUESTS_AGAIN: &str = "\
    POST /acks HTTP/1.1\r\nContent-Length: 20\r\n\r\n{\"run\":1,\"acks\":[0]}\
    POST /channels/c/blocks HTTP/1.1\r\nContent-Length: 5\r\n\r\nx\ny\nz\
    POST /acks HTTP/1.1\r\nContent-Length: 20\r\n\r\n{\"run\":2,\"acks\":[0]}\
    POST /acks HTTP/1.1\r\nContent-Length: 20\r\n\r\n{\"run\":2,\"acks\":[0]}";

static LOST: [Step; 1] = [Step::Feed(PLAIN, BEGUN, "0", "")];

static SERVE_AGAIN: Trial = Trial {
    done: 0,
    task: (NOON, "feed", PLAIN, REQUESTS_AGAIN),
    asks: (
        (NOON, "export main", PLAIN, ""),
        (NOON, "buckets", PLAIN, ""),
    ),
    shown: SERVED,
};

/// A stop of the next run leaves both events of a block that is sent again, or none of that run.
#[test]
fn a_stop_while_a_block_is_sent_again(rt: HostRuntime) {
    check_behind(&rt, rt.alloc(), &LOST, &SERVE_AGAIN, ALL);
}

#[test]
fn a_call_that_fails_while_a_block_is_sent_again(rt: HostRuntime) {
    check_behind(&rt, rt.alloc(), &LOST, &SERVE_AGAIN, Hindrance::Fails);
}

/// A store with three events whose log is long: bytes behind its last gate, which mean nothing, make it so.
static LONG_LOG: [Step; 2] = [
    Step::Run((NOON, STORE, KEPT, "x\ny\nz"), "0: "),
    Step::Lengthen(LOG, LONG),
];

/// Behind every stop and every fault the store shows the same.
const SHORTENED: &str = "\
    ¶\
    0: X0: index main stored 3 bytes 174 frozen 0\nbucket main hot_v1_0 hot 3 174\nevents settled 3 nulled 0 dropped 0\n";

static SHORTENING: Trial = Trial {
    done: 0,
    task: (NOON, "buckets", KEPT, ""),
    asks: ((NOON, "export main", KEPT, ""), (NOON, "buckets", KEPT, "")),
    shown: SHORTENED,
};

/// A run that makes a long log short. A stop leaves the old log or the new one, with the same state.
#[test]
fn a_stop_while_a_log_is_made_short(rt: HostRuntime) {
    check_behind(&rt, rt.alloc(), &LONG_LOG, &SHORTENING, ALL);
}

#[test]
fn a_call_that_fails_while_a_log_is_made_short(rt: HostRuntime) {
    check_behind(&rt, rt.alloc(), &LONG_LOG, &SHORTENING, Hindrance::Fails);
}

/// A watched file of two lines.
const WATCHED: Files<'static> =
    "props:[default]\nSHOULD_LINEMERGE = false\n§inputs:[monitor:///logs/app.log]\n§/logs/app.log:one\ntwo\n";

/// What the next pass tells, which ends the channel, and what is stored then: each line once.
const READ: &str = "\
    0: /logs/app.log from 0 to 8\n\
    0: main\t1700000000.000000\tlocalhost\t/logs/app.log\tunknown\t\tone\n\
    main\t1700000000.000000\tlocalhost\t/logs/app.log\tunknown\t\ttwo\n¶\
    0: /logs/app.log skip\n\
    0: main\t1700000000.000000\tlocalhost\t/logs/app.log\tunknown\t\tone\n\
    main\t1700000000.000000\tlocalhost\t/logs/app.log\tunknown\t\ttwo\n";

static WATCH: Trial = Trial {
    done: 0,
    task: (NOON, "monitor", WATCHED, ""),
    asks: (
        (NOON, "monitor --close", WATCHED, ""),
        (NOON, "export main", WATCHED, ""),
    ),
    shown: READ,
};

/// A stop of a pass leaves a file that the next pass reads from its start, or one that was read.
#[test]
fn a_stop_while_a_file_is_watched(rt: HostRuntime) {
    check_behind(&rt, rt.alloc(), &[], &WATCH, ALL);
}

#[test]
fn a_call_that_fails_while_a_file_is_watched(rt: HostRuntime) {
    check_behind(&rt, rt.alloc(), &[], &WATCH, Hindrance::Fails);
}

/// The second line is not ended.
const UNENDED: Files<'static> =
    "props:[default]\nSHOULD_LINEMERGE = false\n§inputs:[monitor:///logs/app.log]\n§/logs/app.log:one\ntwo";

/// Another one stands in its place.
const REPLACED: Files<'static> =
    "props:[default]\nSHOULD_LINEMERGE = false\n§inputs:[monitor:///logs/app.log]\n§/logs/app.log:new\n";

static WATCHED_BEFORE: [Step; 1] = [Step::Run(
    (NOON, "monitor", UNENDED, ""),
    "0: /logs/app.log from 0 to 7\n",
)];

/// The same where another file has come in the place of one that was read.
const READ_AGAIN: &str = "\
    0: /logs/app.log again from 0 to 4\n\
    0: main\t1700000000.000000\tlocalhost\t/logs/app.log\tunknown\t\tone\n\
    main\t1700000000.000000\tlocalhost\t/logs/app.log\tunknown\t\ttwo\n\
    main\t1700000101.000000\tlocalhost\t/logs/app.log\tunknown\t\tnew\n¶\
    0: /logs/app.log skip\n\
    0: main\t1700000000.000000\tlocalhost\t/logs/app.log\tunknown\t\tone\n\
    main\t1700000000.000000\tlocalhost\t/logs/app.log\tunknown\t\ttwo\n\
    main\t1700000101.000000\tlocalhost\t/logs/app.log\tunknown\t\tnew\n";

static WATCH_AGAIN: Trial = Trial {
    done: 0,
    task: (LATER, "monitor", REPLACED, ""),
    asks: (
        (LATER, "monitor --close", REPLACED, ""),
        (LATER, "export main", REPLACED, ""),
    ),
    shown: READ_AGAIN,
};

/// The channel of a file is ended and begun anew. A stop between the two, or behind them, leaves a
/// file that the next pass reads again from its start: no line of either is lost, or there twice.
#[test]
fn a_stop_while_a_file_is_read_again(rt: HostRuntime) {
    check_behind(&rt, rt.alloc(), &WATCHED_BEFORE, &WATCH_AGAIN, ALL);
}

#[test]
fn a_call_that_fails_while_a_file_is_read_again(rt: HostRuntime) {
    check_behind(
        &rt,
        rt.alloc(),
        &WATCHED_BEFORE,
        &WATCH_AGAIN,
        Hindrance::Fails,
    );
}
