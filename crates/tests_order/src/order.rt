//! The order of the calls of the system that the disk of the machine makes, over files that are watched. A row of calls that
//! is a commit, a checkpoint and a mount is made again and again, and each time one more call of the system fails. What
//! the disk answers `Ok` has to be so: a write stands in the file whole, and what was synced is left by a machine that
//! stops then. Each error of the system has to show as a fault of the disk.

use crate::said::{compare, compare_none, say};
use crate::watched::{How, Watch, Watching};
use ix_base::{Area, Failed, File};
use ix_disk::{Disk, HostDisk, LockFiles};
use std::alloc::Global;
use std::fs;
use std::io::Read;
use std::rt::Files;

/// A file, and its path.
pub type Named<'a> = (File, &'a str);

const ROOT: Named<'static> = (
    File {
        area: Area::Meta,
        number: 0,
    },
    "var/meta/0",
);

pub const LOG: Named<'static> = (
    File {
        area: Area::Meta,
        number: 1,
    },
    "var/meta/1",
);

const NEXT: Named<'static> = (
    File {
        area: Area::Meta,
        number: 2,
    },
    "var/meta/2",
);

pub const BUCKET: Named<'static> = (
    File {
        area: Area::Home,
        number: 7,
    },
    "var/home/7",
);

/// A call of a disk.
#[derive(Clone, Copy)]
pub enum Call<'a> {
    Lock,
    Write(Named<'a>, u64, &'a [u8]),
    Sync(Named<'a>),
    Remove(Named<'a>),
    Length(Named<'a>),
    Read(Named<'a>),
}

/// A log is made; a commit, whose gate is opened behind its body; one whose bucket is synced behind the log; a checkpoint.
const LIFE: &[Call<'static>] = &[
    Call::Lock,
    Call::Write(LOG, 0, b"log"),
    Call::Sync(LOG),
    Call::Write(BUCKET, 0, b"one"),
    Call::Sync(BUCKET),
    Call::Write(LOG, 3, b"body"),
    Call::Sync(LOG),
    Call::Write(LOG, 3, b"B"),
    Call::Sync(LOG),
    Call::Write(BUCKET, 3, b"two"),
    Call::Write(LOG, 7, b"more"),
    Call::Sync(LOG),
    Call::Sync(BUCKET),
    Call::Write(NEXT, 0, b"whole"),
    Call::Sync(NEXT),
    Call::Write(ROOT, 0, b"2"),
    Call::Sync(ROOT),
    Call::Remove(LOG),
    Call::Sync(LOG),
    Call::Remove(BUCKET),
    Call::Sync(BUCKET),
];

/// A mount of what they leave.
const MOUNT: &[Call<'static>] = &[
    Call::Lock,
    Call::Length(ROOT),
    Call::Read(ROOT),
    Call::Length(NEXT),
    Call::Read(NEXT),
    Call::Sync(NEXT),
    Call::Write(NEXT, 5, b"run"),
    Call::Sync(NEXT),
];

/// Makes a call. It tells whether the disk answered `Ok`.
fn is_done<R: LockFiles + Drop>(disk: &mut HostDisk<R>, call: Call<'_>) -> bool {
    match call {
        Call::Lock => disk.lock().is_ok(),
        Call::Write((file, _), at, bytes) => disk.write_at(file, at, bytes).is_ok(),
        Call::Sync((file, _)) => disk.sync(file).is_ok(),
        Call::Remove((file, _)) => disk.remove(file).is_ok(),
        Call::Length((file, _)) => disk.length(file).is_ok(),
        Call::Read((file, _)) => disk.read(file, 0, &mut [0; 8]).is_ok(),
    }
}

/// Whether the bytes stand in a file of the machine from this place on.
fn stands<R: Files>(rt: &R, path: &str, at: usize, bytes: &[u8]) -> bool {
    let mut all = [0; 32];
    let Ok(mut open) = fs::open(rt, path) else {
        return false;
    };
    let Ok(count) = open.read(&mut all) else {
        return false;
    };
    all.get(..count)
        .and_then(|all| all.get(at..))
        .and_then(|rest| rest.get(..bytes.len()))
        == Some(bytes)
}

/// What a run is made with.
#[derive(Clone, Copy)]
struct Run<'a> {
    alloc: Global,
    /// The folder that it is made in, with a slash at its end.
    top: &'a str,
    watch: &'a Watch,
}

/// Whether what a call answered is so.
fn holds<R: Files>(rt: &R, run: Run<'_>, call: Call<'_>) -> bool {
    match call {
        Call::Write((_, path), at, bytes) => {
            let Ok(mut whole) = String::from_str(run.alloc, run.top) else {
                return false;
            };
            whole.push_str(path).is_ok() && stands(rt, whole.as_str(), at as usize, bytes)
        }
        Call::Sync((_, path)) => run.watch.is_settled(path),
        _ => true,
    }
}

/// Makes the calls, and writes the number of each whose answer is not so.
fn note_calls<F: LockFiles + Drop, R: Files>(
    text: &mut String,
    rt: &R,
    disk: &mut HostDisk<F>,
    run: Run<'_>,
    calls: &[Call<'_>],
) {
    for (number, call) in calls.iter().enumerate() {
        if is_done(disk, *call) && !holds(rt, run, *call) {
            let _ = write!(text, "call {number} ");
        }
    }
}

/// Makes the calls on a new disk over these files.
fn note_disk<F: LockFiles + Drop, R: Files>(
    text: &mut String,
    (files, rt): (F, &R),
    run: Run<'_>,
    calls: &[Call<'_>],
) {
    let mut disk = HostDisk::new(run.alloc, files);
    note_calls(text, rt, &mut disk, run, calls);
    if run.watch.forgotten() > 0 {
        say(text, "closed unsynced");
    }
    if run.watch.is_failed() != (disk.faults() > 0) {
        say(text, "faults");
    }
    drop(disk);
}

/// Makes the calls on a new disk, of which the call of the system fails that is due.
fn note_run<R: LockFiles + Copy + Drop>(
    text: &mut String,
    rt: R,
    run: Run<'_>,
    calls: &[Call<'_>],
) {
    let files = Watching {
        rt,
        alloc: run.alloc,
        top: run.top,
        watch: run.watch,
    };
    note_disk(text, (files, &rt), run, calls);
}

/// Makes the calls of a part in a folder of the machine, of which the call of the system fails that is due. It answers how
/// many calls of the system there were.
pub fn note_part<R: LockFiles + Copy + Drop>(
    text: &mut String,
    (rt, alloc): (R, Global),
    top: &str,
    (due, how): (u64, How),
    calls: &[Call<'_>],
) -> u64 {
    let watch = Watch::new(due, how);
    let run = Run {
        alloc,
        top,
        watch: &watch,
    };
    note_run(text, rt, run, calls);
    watch.calls()
}

/// Makes a new folder, the life in it and then the mount. In the one or the other a call of the system fails.
fn note_lives<R: LockFiles + Copy + Drop>(
    text: &mut String,
    (rt, alloc): (R, Global),
    due: u64,
    how: How,
) -> u64 {
    let Ok(top) = format!(in alloc; "watched/{due}/") else {
        return 0;
    };
    let _ = fs::create_dir_all(&rt, top.as_str());
    let life = note_part(text, (rt, alloc), top.as_str(), (due, how), LIFE);
    if due < life {
        return u64::MAX;
    }
    let mount = note_part(text, (rt, alloc), top.as_str(), (due - life, how), MOUNT);
    life.saturating_add(mount)
}

/// Fails each call of the system once, and writes which of them shows an answer that is not so.
fn note_faults<R: LockFiles + AllocGlobal + Copy + Drop>(text: &mut String, rt: R, how: How) {
    let alloc = rt.alloc();
    let _ = fs::remove_dir_all(&rt, "watched");
    for due in 0..1_000 {
        let before = text.len();
        let calls = note_lives(text, (rt, alloc), due, how);
        if text.len() > before {
            let _ = writeln!(text, "behind fault {due} ");
        }
        if due >= calls {
            return;
        }
    }
    say(text, "too many calls");
}

#[test]
fn a_disk_answers_no_ok_behind_a_fault_that_is_not_so(rt: HostRuntime) {
    let mut text = String::new(rt.alloc());
    note_faults(&mut text, &rt, How::Error);
    note_faults(&mut text, &rt, How::Short);
    compare_none(&rt, text);
}

/// Writes the first fault of a disk over these files.
fn note_fault<F: LockFiles + Drop>(text: &mut String, alloc: Global, files: F) {
    let mut disk = HostDisk::new(alloc, files);
    for call in LIFE {
        let _ = is_done(&mut disk, *call);
    }
    if let Some(fault) = disk.first_fault() {
        let _ = write!(text, "{fault}; ");
    }
    drop(disk);
}

/// Writes the first fault of a disk of which the call of the system fails that is due.
fn note_first<R: LockFiles + Copy + Drop>(
    text: &mut String,
    (rt, alloc): (R, Global),
    top: &str,
    due: u64,
) {
    let watch = Watch::new(due, How::Error);
    let files = Watching {
        rt,
        alloc,
        top,
        watch: &watch,
    };
    note_fault(text, alloc, files);
}

/// The first call makes `var`, and the others make, write and sync the first file, each in a folder of its own.
fn first_faults<R: LockFiles + AllocGlobal + Copy + Drop>(rt: R) -> String {
    let alloc = rt.alloc();
    let mut text = String::new(alloc);
    let _ = fs::remove_dir_all(&rt, "faults");
    for (due, top) in [
        (0, "faults/0/"),
        (9, "faults/9/"),
        (15, "faults/15/"),
        (17, "faults/17/"),
    ] {
        let _ = fs::create_dir_all(&rt, top);
        note_first(&mut text, (rt, alloc), top, due);
    }
    text
}

#[test]
fn the_first_fault_has_its_file_and_its_reason(rt: HostRuntime) {
    let wanted = "var/lock: Input/output error; var/meta/1: Input/output error; \
        var/meta/1: No space left on device; var/meta/1: Input/output error; ";
    compare(&rt, first_faults(&rt), wanted);
}
