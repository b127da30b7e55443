//! How often a commit asks the disk, and when a checkpoint is wanted.

ghost use Rattle.std.specs.Prelude.{◌≡◌, ◌<◌, IfOk, IsTrue};
ghost use Rattle.std.specs.List.{AllByRecursion};
ghost use Rattle.ix_items.specs.Spelling.{HasSpelling};
ghost use Rattle.ix_commit.specs.Snapshot.{LogsAtEnd, NothingStaged};

use crate::counted::Counted;
use crate::said::{compare, note};
use crate::script::{commit_draft, empty, file, group, items_or_none, shorten};
use ix_base::{Area, Bytes, NoMemory, Sequence, Spot};
use ix_commit::{Committer, WriteBatch, commit, mount};
use ix_disk::{Disk, MemDisk};
use ix_items::Item;
use ix_manifest::PlainBook;
use std::alloc::Global;

/// What was asked since: calls, syncs of logs, and syncs of other files.
fn since(disk: &Counted<MemDisk>, before: (u64, u64, u64)) -> (u64, u64, u64) {
    (
        disk.calls.saturating_sub(before.0),
        disk.meta.saturating_sub(before.1),
        disk.other.saturating_sub(before.2),
    )
}

/// What a commit asks of the disk, whether one behind it with nothing staged is Ok, and what that
/// one asks.
fn commits_said(alloc: Global, committer: &mut Committer, disk: &mut Counted<MemDisk>) -> String
    requires { LogsAtEnd ⟦<Counted<MemDisk> as Disk>⟧ committer.old disk.old }
{
    let mut text = String::new(alloc);
    let before = since(disk, (0, 0, 0));
    if !group(alloc, committer, disk, 1) {
        return text;
    }
    // The bucket's length, its bytes and its sync; the body in five writes, a sync, its gate, and a
    // sync; and how long the log is.
    note(&mut text, since(disk, before));
    let between = since(disk, (0, 0, 0));
    let idle = commit::<Counted<MemDisk>, PlainBook>(committer, disk).is_ok();
    note(&mut text, idle);
    note(&mut text, since(disk, between));
    text
}

/// The same on a disk that has nothing.
fn first_commits_said(alloc: Global) -> String {
    let mut disk = Counted::new(empty(alloc));
    let mut book = PlainBook::new(alloc);
    let text = match mount(alloc, &mut disk, &mut book) {
        Ok(mut committer) => {
            let text = commits_said(alloc, &mut committer, &mut disk);
            drop(committer);
            text
        }
        Err(_) => String::new(alloc),
    };
    drop(book);
    drop(disk);
    text
}

#[test]
fn a_commit_makes_the_syncs_that_it_needs(rt: HostRuntime) {
    let wanted = "(11, 2, 1) true (0, 0, 0) ";
    compare(&rt, first_commits_said(rt.alloc()), wanted);
}

/// An item of somewhat more than a megabyte.
fn large_items(alloc: Global) -> Result<Sequence<Item>, NoMemory>
    ensures { IfOk result (λ items. AllByRecursion HasSpelling items) }
{
    let path = Bytes::copy_of(alloc, b"large")?;
    let head = Bytes::from_vec(vec![in alloc; 7u8; 1 << 20]?);
    let spot = Spot {
        path,
        head,
        offset: 0,
    };
    let mut items = Sequence::new(alloc);
    items.push(Item::Spot { spot })?;
    Ok(items)
}

/// A command that adds such an item.
fn large_draft(alloc: Global) -> WriteBatch
    ensures { AllByRecursion HasSpelling result.items }
{
    WriteBatch {
        pieces: Sequence::new(alloc),
        copies: Sequence::new(alloc),
        items: items_or_none(alloc, large_items(alloc)),
    }
}

/// Commits such items until a checkpoint is wanted, and answers how many were committed, 0 where a
/// commit failed.
fn grow<D: Disk>(alloc: Global, committer: &mut Committer, disk: &mut D) -> u64
    requires { LogsAtEnd D.Disk committer.old disk.old }
    ensures over { 0 < result → LogsAtEnd D.Disk committer.new disk.new }
    ensures idle { 0 < result → NothingStaged committer.new }
{
    for count in 1..20u64 {
        if !commit_draft(alloc, committer, disk, large_draft(alloc)) {
            return 0;
        }
        if committer.wants_checkpoint() {
            return count;
        }
    }
    0
}

/// Writes whether the root log names the second log and no other, and how long both logs are.
fn write_logs(text: &mut String, disk: &mut MemDisk) {
    let mut root = [0; 20];
    let n = disk.read(file(Area::Meta, 0), 0, &mut root).unwrap_or(0);
    let named = root.get(..n)
        == Some(b"\x01\x00\x00\x00\x08\x00\x00\x00\x00\x00\x00\x00\x02\x00".as_slice());
    let old = disk.length(file(Area::Meta, 1)).unwrap_or(u64::MAX);
    let new = disk.length(file(Area::Meta, 2)).unwrap_or(u64::MAX);
    note(text, (named, old, new));
}

/// How many commits make the log long, whether it is made short then, the logs, and whether a
/// checkpoint is still wanted.
fn growth_said(alloc: Global, committer: &mut Committer, disk: &mut MemDisk) -> String
    requires { LogsAtEnd ⟦<MemDisk as Disk>⟧ committer.old disk.old }
{
    let mut text = String::new(alloc);
    let count = grow(alloc, committer, disk);
    if count == 0 {
        return text;
    }
    let shorter = shorten(alloc, committer, disk, 5);
    note(&mut text, (count, shorter));
    write_logs(&mut text, disk);
    note(&mut text, committer.wants_checkpoint());
    text
}

/// The same on a disk that has nothing.
fn first_growth_said(alloc: Global) -> String {
    let mut disk = empty(alloc);
    let mut book = PlainBook::new(alloc);
    let text = match mount(alloc, &mut disk, &mut book) {
        Ok(mut committer) => {
            let text = growth_said(alloc, &mut committer, &mut disk);
            drop(committer);
            text
        }
        Err(_) => String::new(alloc),
    };
    drop(book);
    drop(disk);
    text
}

#[test]
fn a_long_log_becomes_one_of_one_body(rt: HostRuntime) {
    // The body has 5 bytes of settings, 9 of the run, 17 of the moments and 14 of the removal.
    let wanted = "(8, true) (true, 0, 51) false ";
    compare(&rt, first_growth_said(rt.alloc()), wanted);
}
