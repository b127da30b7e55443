//! The order of the calls of the system that a program makes on a store, over files that are watched. The program mounts a store, commits to it,
//! makes a checkpoint and mounts it again, again and again, and each time one more call of the system fails. Where a run is
//! done, all that it wrote is left by a machine that stops then; else it blames the disk, and what it was to commit is
//! there whole or not at all. A gate is opened, and a file removed, only where all that was written before is on the disk.

use crate::said::{compare_none, say};
use crate::watched::{How, Watch, Watching};
use indexd_core::{StateMachine, Status, top};
use ix_base::{Bytes, FailPlan, MemClock, MemSink, MemSource, NoMemory, Text};
use ix_disk::{Disk, HostDisk, LockFiles};
use ix_fs::{MemTree, TreeFileList};
use ix_net::{MemLinkList, MemListener};
use ix_store::Store;
use std::alloc::Global;
use std::{fs, str};

/// 2023-11-14T22:13:20Z, in microseconds since 1970.
const NOON: i64 = 1_700_000_000_000_000;

/// What is done with a store, by a program of its own.
#[derive(Clone, Copy)]
enum Step<'a> {
    /// It stores this event.
    Keep(&'a str),
    /// It makes the log short.
    Shorten,
    /// It lists the buckets.
    List,
}

const STEPS: &[Step<'static>] = &[
    Step::Keep("one"),
    Step::Keep("two"),
    Step::Shorten,
    Step::Keep("three"),
    Step::List,
];

/// The words of a line, which stand with spaces between.
fn words_of(alloc: Global, line: &str) -> Vec<Text> {
    let mut words = Vec::new(alloc);
    for word in line.split(' ') {
        let word = String::from_str(alloc, word).unwrap_or(String::new(alloc));
        let _ = words.push(Text::from_string(word));
    }
    words
}

/// What a run of the program with these words and this input ends with, and what it writes.
fn run<D: Disk>(alloc: Global, line: &str, input: &str, disk: &mut D) -> (Status, Bytes) {
    let words = words_of(alloc, line);
    let bytes = Bytes::copy_of(alloc, input.as_bytes()).unwrap_or(Bytes::new(alloc));
    let mut input = MemSource::new(bytes, FailPlan::none(alloc));
    let mut output = MemSink::new(alloc, FailPlan::none(alloc));
    let mut clock = MemClock::new([NOON].to_vec(alloc).unwrap_or(Vec::new(alloc)));
    let mut tree = MemTree::new(TreeFileList::new(alloc), FailPlan::none(alloc));
    let mut listener = MemListener::new(alloc, MemLinkList::new(alloc), FailPlan::none(alloc));
    let status = top(
        alloc,
        &words,
        &mut input,
        &mut output,
        &mut clock,
        &mut tree,
        disk,
        &mut listener,
    );
    (status, output.into_bytes())
}

/// Makes the log short, and tells whether that was done.
fn shortens<D: Disk>(alloc: Global, disk: &mut D) -> bool {
    let Ok(mut store) = Store::<StateMachine>::mount(alloc, disk) else {
        return false;
    };
    let made = store.checkpoint(disk).is_ok();
    drop(store);
    made
}

/// Takes a step, and tells whether it was done.
fn is_done<D: Disk>(alloc: Global, step: Step<'_>, disk: &mut D) -> bool {
    let (line, input) = match step {
        Step::Keep(event) => ("preview --host h --source s --store", event),
        Step::Shorten => return shortens(alloc, disk),
        Step::List => ("buckets", ""),
    };
    let (status, _) = run(alloc, line, input, disk);
    status == Status::Done
}

/// A folder of the machine, whose calls are watched.
#[derive(Clone, Copy)]
struct Place<'a> {
    alloc: Global,
    /// The folder, with a slash at its end.
    top: &'a str,
    watch: &'a Watch,
}

/// Takes a step on a disk of its own over these files, and writes what is wrong with it. It tells whether the step was done.
fn note_step<F: LockFiles + Drop>(
    text: &mut String,
    files: F,
    place: Place<'_>,
    step: Step<'_>,
) -> bool {
    let mut disk = HostDisk::new(place.alloc, files);
    let is_done = is_done(place.alloc, step, &mut disk);
    if is_done == (disk.faults() > 0) {
        say(text, "another cause");
    }
    drop(disk);
    if is_done && !place.watch.is_all_settled() {
        say(text, "not settled");
    }
    if is_done && place.watch.forgotten() > 0 {
        say(text, "closed unsynced");
    }
    if place.watch.disorders() > 0 {
        say(text, "out of order");
    }
    is_done
}

/// Takes a step in the folder.
fn note_watched<R: LockFiles + Copy + Drop>(
    text: &mut String,
    rt: R,
    place: Place<'_>,
    step: Step<'_>,
) -> bool {
    let files = Watching {
        rt,
        alloc: place.alloc,
        top: place.top,
        watch: place.watch,
    };
    note_step(text, files, place, step)
}

/// Takes the steps until one is not done, and answers how many were.
fn note_steps<R: LockFiles + Copy + Drop>(text: &mut String, rt: R, place: Place<'_>) -> usize {
    for (count, step) in STEPS.iter().enumerate() {
        if !note_watched(text, rt, place, *step) {
            return count;
        }
    }
    STEPS.len()
}

/// How often an event stands in the lines of an export.
fn count_of(lines: &str, event: &str) -> usize {
    lines.lines().filter(|line| line.ends_with(event)).count()
}

/// Writes what is wrong with the events of the store, where so many steps were done: those of these are there once, that of the step which
/// was not is there once or not at all, and no later one is.
fn note_events(text: &mut String, lines: &str, done: usize) {
    for (count, step) in STEPS.iter().enumerate() {
        let Step::Keep(event) = *step else {
            continue;
        };
        let found = count_of(lines, event);
        let is_right = match count {
            count if count < done => found == 1,
            count if count == done => found <= 1,
            _ => found == 0,
        };
        if !is_right {
            let _ = write!(text, "{event} {found} times ");
        }
    }
}

/// Writes what is wrong with the store that was left in the folder of these files.
fn note_left<F: LockFiles + Drop>(text: &mut String, alloc: Global, files: F, done: usize) {
    let mut disk = HostDisk::new(alloc, files);
    let (status, bytes) = run(alloc, "export main", "", &mut disk);
    drop(disk);
    if status != Status::Done {
        let _ = write!(text, "an export ends with {} ", status.code());
    }
    note_events(text, str::from_utf8(bytes.as_slice()).unwrap_or("?"), done);
}

/// Writes what is wrong with the store that was left in this folder, over files of which no call fails.
fn note_after<R: LockFiles + Copy + Drop>(
    text: &mut String,
    (rt, alloc): (R, Global),
    top: &str,
    done: usize,
) {
    let watch = Watch::new(u64::MAX, How::Error);
    let files = Watching {
        rt,
        alloc,
        top,
        watch: &watch,
    };
    note_left(text, alloc, files, done);
}

/// The folder of a life, with a slash at its end. Each has one of its own.
fn folder_of(alloc: Global, due: u64, how: How) -> Result<String, NoMemory> {
    match how {
        How::Error => Ok(format!(in alloc; "stored/{due}/")?),
        How::Short => Ok(format!(in alloc; "short/{due}/")?),
    }
}

/// Makes a new folder and takes the steps in it, of which the call of the system fails that is due. It answers how many calls there were.
fn note_life<R: LockFiles + AllocGlobal + Copy + Drop>(
    text: &mut String,
    (rt, alloc): (R, Global),
    due: u64,
    how: How,
) -> u64 {
    let Ok(top) = folder_of(alloc, due, how) else {
        return 0;
    };
    let _ = fs::remove_dir_all(&rt, top.as_str());
    let _ = fs::create_dir_all(&rt, top.as_str());
    let watch = Watch::new(due, how);
    let place = Place {
        alloc,
        top: top.as_str(),
        watch: &watch,
    };
    let done = note_steps(text, rt, place);
    note_after(text, (rt, alloc), top.as_str(), done);
    watch.calls()
}

/// Fails each call of the system once, of so many parts of them in one part alone, and writes which of them leads to something
/// wrong.
fn note_lives<R: LockFiles + AllocGlobal + Copy + Drop>(
    text: &mut String,
    rt: R,
    how: How,
    (part, parts): (u64, u64),
) {
    let alloc = rt.alloc();
    for turn in 0..2_000u64 {
        let due = turn.saturating_mul(parts).saturating_add(part);
        let before = text.len();
        let calls = note_life(text, (rt, alloc), due, how);
        if text.len() > before {
            let _ = writeln!(text, "behind fault {due} ");
        }
        if due >= calls {
            return;
        }
    }
    say(text, "too many calls");
}

#[test]
fn a_run_that_is_done_is_on_the_disk(rt: HostRuntime) {
    let mut text = String::new(rt.alloc());
    note_lives(&mut text, &rt, How::Error, (0, 4));
    compare_none(&rt, text);
}

#[test]
fn a_run_that_is_done_is_on_the_disk_behind_the_second_call(rt: HostRuntime) {
    let mut text = String::new(rt.alloc());
    note_lives(&mut text, &rt, How::Error, (1, 4));
    compare_none(&rt, text);
}

#[test]
fn a_run_that_is_done_is_on_the_disk_behind_the_third_call(rt: HostRuntime) {
    let mut text = String::new(rt.alloc());
    note_lives(&mut text, &rt, How::Error, (2, 4));
    compare_none(&rt, text);
}

#[test]
fn a_run_that_is_done_is_on_the_disk_behind_the_fourth_call(rt: HostRuntime) {
    let mut text = String::new(rt.alloc());
    note_lives(&mut text, &rt, How::Error, (3, 4));
    compare_none(&rt, text);
}

#[test]
fn a_write_that_is_cut_short_is_gone_on_with(rt: HostRuntime) {
    let mut text = String::new(rt.alloc());
    note_lives(&mut text, &rt, How::Short, (0, 1));
    compare_none(&rt, text);
}
