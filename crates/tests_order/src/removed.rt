//! A file is removed that has bytes which no sync has put on the disk, over files that are watched. The handle that it was
//! written by is let go only once the system has removed it: where a removal fails, the file is still there, and a sync of it has
//! to learn of each error of its writes.

use crate::order::{BUCKET, Call, LOG, note_part};
use crate::said::{compare_none, say};
use crate::watched::How;
use ix_disk::LockFiles;
use std::alloc::Global;
use std::fs;

/// A log that was written behind its sync is removed, and a bucket of which nothing was synced.
const REMOVALS: &[Call<'static>] = &[
    Call::Lock,
    Call::Write(LOG, 0, b"log"),
    Call::Sync(LOG),
    Call::Write(LOG, 3, b"body"),
    Call::Remove(LOG),
    Call::Sync(LOG),
    Call::Write(BUCKET, 0, b"one"),
    Call::Remove(BUCKET),
    Call::Sync(BUCKET),
];

/// Makes the calls in a new folder, of which the call of the system fails that is due. It answers how many calls of the system
/// there were.
fn note_removals<R: LockFiles + Copy + Drop>(
    text: &mut String,
    (rt, alloc): (R, Global),
    due: u64,
) -> u64 {
    let Ok(top) = format!(in alloc; "removals/{due}/") else {
        return 0;
    };
    let _ = fs::create_dir_all(&rt, top.as_str());
    note_part(text, (rt, alloc), top.as_str(), (due, How::Error), REMOVALS)
}

/// Fails each call of the system once, and writes which of them shows an answer that is not so, or a handle that was let go
/// too early.
fn note_failed_removals<R: LockFiles + AllocGlobal + Copy + Drop>(text: &mut String, rt: R) {
    let alloc = rt.alloc();
    let _ = fs::remove_dir_all(&rt, "removals");
    for due in 0..1_000 {
        let before = text.len();
        let calls = note_removals(text, (rt, alloc), due);
        if text.len() > before {
            let _ = writeln!(text, "behind fault {due} ");
        }
        if due >= calls {
            return;
        }
    }
    say(text, "too many calls");
}

#[test]
fn a_removal_that_fails_lets_no_written_file_go(rt: HostRuntime) {
    let mut text = String::new(rt.alloc());
    note_failed_removals(&mut text, &rt);
    compare_none(&rt, text);
}
