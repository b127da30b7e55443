//! Stops at each call, and each call failing once.

ghost use Rattle.std.specs.Prelude.{◌≤◌};

use crate::said::{compare, note};
use crate::script::{empty, file, has_files, has_no_more, last_of, live};
use ix_base::{Area, NoMemory};
use ix_commit::mount;
use ix_disk::{Disk, MemDisk, OneFail, StopDisk};
use ix_manifest::PlainBook;
use std::alloc::Global;

/// How many calls are stopped at; the whole life takes fewer.
const CALLS: u64 = 130;

/// How many numbers a root log of so many bytes has, at most two.
fn numbers_in(root: &[u8; 27], n: usize) -> u64
    ensures { result ≤ 2 }
{
    if n > 26 && root[0] == 1 && root[13] == 1 {
        2
    } else if n > 13 && root[0] == 1 {
        1
    } else {
        0
    }
}

/// How many numbers the root log of a disk has, at most two, where the log of the last one is
/// there, and, but where a removal may have been undone, none before it.
fn checkpoints<D: Disk>(disk: &mut D, undone: bool) -> Option<i64> {
    let mut root = [0; 27];
    let Ok(n) = disk.read(file(Area::Meta, 0), 0, &mut root) else {
        return None;
    };
    let count = numbers_in(&root, n);
    for number in 1..=count {
        match disk.length(file(Area::Meta, number)) {
            Ok(0) => {}
            Ok(_) if undone => {}
            _ => return None,
        }
    }
    match disk.length(file(Area::Meta, count + 1)) {
        Ok(1..) => Some(count as i64),
        _ => None,
    }
}

/// The last group that a mount of a disk finds, if the mount is Ok.
fn last_found<D: Disk>(alloc: Global, disk: &mut D) -> Option<i64> {
    let mut book = PlainBook::new(alloc);
    let is_mounted = mount(alloc, disk, &mut book).is_ok();
    let group = last_of(&book);
    drop(book);
    if is_mounted { Some(group) } else { None }
}

/// What a mount of a disk finds: how many groups it has, and 10 more for each checkpoint, or a
/// negative number where it is no snapshot of the life.
fn found<D: Disk>(alloc: Global, disk: &mut D, torn: bool) -> i64 {
    let Some(groups) = last_found(alloc, disk) else {
        return -1;
    };
    if !has_files(disk, groups) {
        return -2;
    }
    if !torn && !has_no_more(disk, groups) {
        return -4;
    }
    match checkpoints(disk, torn) {
        Some(count) => groups.saturating_add(count.saturating_mul(10)),
        None => -3,
    }
}

/// What a mount finds of what a crash leaves.
fn left(alloc: Global, disk: &MemDisk, torn: bool) -> i64 {
    match disk.crash(torn) {
        Ok(mut left) => {
            let found = found(alloc, &mut left, torn);
            drop(left);
            found
        }
        Err(NoMemory) => -5,
    }
}

/// How many groups are committed, and how many a mount then finds.
type Groups = (i64, i64);

/// The groups of a life that stops before a call, in the form of crash that is asked for.
fn stopped(alloc: Global, calls: u64, torn: bool) -> Groups {
    let mut disk = StopDisk::new(empty(alloc), calls);
    let done = live(alloc, &mut disk, 4);
    let disk = disk.into_inner();
    let found = left(alloc, &disk, torn);
    drop(disk);
    (done, found)
}

/// The groups of a life in which one call fails.
fn failed(alloc: Global, number: u64, torn: bool) -> Groups {
    let mut disk = OneFail::new(empty(alloc), number);
    let done = live(alloc, &mut disk, 4);
    let disk = disk.into_inner();
    let found = left(alloc, &disk, torn);
    drop(disk);
    (done, found)
}

/// Adds the groups, where these are not those that were added last.
fn note_new(text: &mut String, before: &mut Groups, now: Groups) {
    if now != *before {
        note(text, now);
    }
    *before = now;
}

/// The groups of the lives that stop at each call.
fn stops_said(alloc: Global, torn: bool) -> String {
    let mut text = String::new(alloc);
    let mut before = (-9, -9);
    for calls in 0..CALLS {
        note_new(&mut text, &mut before, stopped(alloc, calls, torn));
    }
    text
}

/// The groups of the lives in which one call fails.
fn fails_said(alloc: Global, torn: bool) -> String {
    let mut text = String::new(alloc);
    let mut before = (-9, -9);
    for number in 0..CALLS {
        note_new(&mut text, &mut before, failed(alloc, number, torn));
    }
    text
}

/// Each group is found whole or not at all, and each that was committed is found. At a checkpoint
/// either log is found.
const EACH: &str =
    "(0, 0) (0, 1) (1, 1) (1, 2) (2, 2) (2, 12) (12, 12) (12, 13) (13, 13) (13, 14) (14, 14) (14, 24) (24, 24) ";

#[test]
fn a_stop_at_any_call_leaves_the_groups_before_or_one_more(rt: HostRuntime) {
    compare(&rt, stops_said(rt.alloc(), false), EACH);
}

#[test]
fn so_does_one_that_tears_what_was_not_settled(rt: HostRuntime) {
    compare(&rt, stops_said(rt.alloc(), true), EACH);
}

#[test]
fn so_does_each_failing_call(rt: HostRuntime) {
    compare(&rt, fails_said(rt.alloc(), false), EACH);
}

#[test]
fn so_does_each_failing_call_with_a_crash_that_tears(rt: HostRuntime) {
    compare(&rt, fails_said(rt.alloc(), true), EACH);
}
