//! A small life of a store: a mount, four groups and two checkpoints, with a bucket that grows, one
//! that moves, and one that gets bytes and moves in one group.

ghost use Rattle.std.specs.Prelude.{◌≡◌, IfOk, IsTrue};
ghost use Rattle.std.specs.List.{AllByRecursion};
ghost use Rattle.ix_items.specs.Spelling.{HasSpelling};
ghost use Rattle.ix_commit.specs.Snapshot.{LogsAtEnd, NothingStaged};

use crate::walk::Walk;
use ix_base::{Area, Bytes, FailPlan, File, NoMemory, Sequence};
use ix_commit::{
    Append, Committer, CopyTarget, FileCopy, WriteBatch, checkpoint, commit, mount, stage,
};
use ix_disk::{Disk, MemDisk};
use ix_items::Item;
use ix_manifest::PlainBook;
use std::alloc::Global;

/// A file by its area and number.
pub fn file(area: Area, number: u64) -> File {
    File { area, number }
}

/// The file of bucket 1.
const ONE: File = File {
    area: Area::Home,
    number: 1,
};

/// The file of bucket 2.
const TWO: File = File {
    area: Area::Home,
    number: 2,
};

/// The file that bucket 1 moves to.
const THREE: File = File {
    area: Area::Cold,
    number: 3,
};

/// The file that bucket 2 moves to.
const FOUR: File = File {
    area: Area::Cold,
    number: 4,
};

/// A disk that has nothing, and of which no call fails.
pub fn empty(alloc: Global) -> MemDisk {
    MemDisk::new(alloc, FailPlan::none(alloc))
}

/// The items of a group: its number as the last moment, and the file that is done with, where there
/// is one.
fn items(alloc: Global, group: i64, gone: Option<File>) -> Result<Sequence<Item>, NoMemory>
    ensures { IfOk result (λ items. AllByRecursion HasSpelling items) }
{
    let mut items = Sequence::new(alloc);
    items.push(Item::Moments {
        last: group,
        tick: 0,
    })?;
    if let Some(file) = gone {
        let mut files = Sequence::new(alloc);
        files.push(file)?;
        items.push(Item::Removals { files })?;
    }
    Ok(items)
}

/// Adds bytes for a bucket, behind those that it has.
fn add_piece(
    alloc: Global,
    pieces: &mut Sequence<Append>,
    (number, at): (u64, u64),
    bytes: &[u8],
) -> Result<(), NoMemory> {
    let bytes = Bytes::copy_of(alloc, bytes)?;
    pieces.push(Append { number, at, bytes })
}

/// Adds the pieces of a group.
fn add_pieces(alloc: Global, group: i64, pieces: &mut Sequence<Append>) -> Result<(), NoMemory> {
    match group {
        1 => add_piece(alloc, pieces, (1, 0), b"abc"),
        2 => {
            add_piece(alloc, pieces, (1, 3), b"de")?;
            add_piece(alloc, pieces, (2, 0), b"x")
        }
        4 => add_piece(alloc, pieces, (2, 1), b"yz"),
        _ => Ok(()),
    }
}

/// Adds the copy of a group: bucket 1 moves in the third group, bucket 2 in the fourth.
fn add_copies(group: i64, copies: &mut Sequence<FileCopy>) -> Result<(), NoMemory> {
    let (from, number, len) = match group {
        3 => (1, 3, 5),
        4 => (2, 4, 3),
        _ => return Ok(()),
    };
    copies.push(FileCopy {
        from: file(Area::Home, from),
        place: CopyTarget::Cold,
        number,
        len,
    })
}

/// The file that each group is done with.
fn gone(group: i64) -> Option<File> {
    match group {
        3 => Some(ONE),
        4 => Some(TWO),
        _ => None,
    }
}

/// The items, or none where memory is lacking.
pub fn items_or_none(alloc: Global, items: Result<Sequence<Item>, NoMemory>) -> Sequence<Item>
    requires { IfOk items (λ items. AllByRecursion HasSpelling items) }
    ensures { AllByRecursion HasSpelling result }
{
    match items {
        Ok(items) => items,
        Err(NoMemory) => Sequence::new(alloc),
    }
}

/// What a group adds. Where memory is lacking it is less, which is found out by what is committed.
fn draft(alloc: Global, group: i64) -> WriteBatch
    ensures { AllByRecursion HasSpelling result.items }
{
    let mut pieces = Sequence::new(alloc);
    let _ = add_pieces(alloc, group, &mut pieces);
    let mut copies = Sequence::new(alloc);
    let _ = add_copies(group, &mut copies);
    WriteBatch {
        pieces,
        copies,
        items: items_or_none(alloc, items(alloc, group, gone(group))),
    }
}

/// Stages a draft and commits it. It answers whether that was Ok.
pub fn commit_draft<D: Disk>(
    alloc: Global,
    committer: &mut Committer,
    disk: &mut D,
    draft: WriteBatch,
) -> bool
    requires over { LogsAtEnd D.Disk committer.old disk.old }
    requires spelled { AllByRecursion HasSpelling draft.items }
    ensures over { IsTrue result → LogsAtEnd D.Disk committer.new disk.new }
    ensures idle { IsTrue result → NothingStaged committer.new }
{
    if stage(committer, alloc, draft).is_err() {
        return false;
    }
    commit::<D, PlainBook>(committer, disk).is_ok()
}

/// Commits a group. It answers whether that was Ok.
pub fn group<D: Disk>(alloc: Global, committer: &mut Committer, disk: &mut D, group: i64) -> bool
    requires { LogsAtEnd D.Disk committer.old disk.old }
    ensures over { IsTrue result → LogsAtEnd D.Disk committer.new disk.new }
    ensures idle { IsTrue result → NothingStaged committer.new }
{
    commit_draft(alloc, committer, disk, draft(alloc, group))
}

/// Makes a checkpoint behind a group. It answers whether that was Ok.
#[tactic(auto, unfolding(ix_items::specs::Spelling::item_bytes, ix_items::specs::Spelling::field_bytes, ix_items::specs::Spelling::settings_bytes, ix_items::specs::Spelling::files_bytes, ix_coding::specs::Spelling::byte, ix_coding::specs::Spelling::four, ix_coding::specs::Spelling::eight, ix_coding::specs::Spelling::signed))]
pub fn shorten<D: Disk>(alloc: Global, committer: &mut Committer, disk: &mut D, group: i64) -> bool
    requires over { LogsAtEnd D.Disk committer.old disk.old }
    requires idle { NothingStaged committer.old }
    ensures over { IsTrue result → LogsAtEnd D.Disk committer.new disk.new }
    ensures idle { IsTrue result → NothingStaged committer.new }
{
    let mut state = Walk::new(group);
    checkpoint::<D, PlainBook, Walk>(committer, alloc, disk, &mut state).is_ok()
}

/// Commits a group, with a checkpoint behind it where its number is even. It answers how much that
/// adds to the count, 1 for the group and 10 for the checkpoint, and whether all went well.
fn commit_next<D: Disk>(
    alloc: Global,
    committer: &mut Committer,
    disk: &mut D,
    number: i64,
) -> (i64, bool)
    requires { LogsAtEnd D.Disk committer.old disk.old }
    ensures { IsTrue result.1 → LogsAtEnd D.Disk committer.new disk.new }
{
    if !group(alloc, committer, disk, number) {
        return (0, false);
    }
    if number % 2 != 0 {
        return (1, true);
    }
    if shorten(alloc, committer, disk, number) {
        (11, true)
    } else {
        (1, false)
    }
}

/// Commits so many groups, as long as all goes well, with a checkpoint behind each second one. It
/// answers how many were committed, and 10 more for each checkpoint.
fn commit_groups<D: Disk>(
    alloc: Global,
    committer: &mut Committer,
    disk: &mut D,
    groups: i64,
) -> i64
    requires { LogsAtEnd D.Disk committer.old disk.old }
{
    let mut total: i64 = 0;
    for number in 1..=groups {
        let (more, went_well) = commit_next(alloc, committer, disk, number);
        total = total.saturating_add(more);
        if !went_well {
            return total;
        }
    }
    total
}

/// Mounts a store and commits so many groups, as far as that goes.
pub fn live<D: Disk>(alloc: Global, disk: &mut D, groups: i64) -> i64 {
    let mut book = PlainBook::new(alloc);
    let done = match mount(alloc, disk, &mut book) {
        Ok(mut committer) => {
            let done = commit_groups(alloc, &mut committer, disk, groups);
            drop(committer);
            done
        }
        Err(_) => 0,
    };
    drop(book);
    done
}

/// The last moment in a book: the number of the last group that it has.
pub fn last_of(book: &PlainBook) -> i64 {
    let mut group = 0;
    for item in book.items() {
        if let Item::Moments { last, .. } = item {
            group = *last;
        }
    }
    group
}

/// Whether a file begins with these bytes.
fn begins<D: Disk>(disk: &mut D, file: File, bytes: &[u8]) -> bool {
    let mut found = [0; 8];
    match disk.read(file, 0, &mut found) {
        Ok(n) => bytes.len() <= n && &found[..bytes.len()] == bytes,
        Err(_) => false,
    }
}

/// What files begin with after so many groups.
static HELD: [(i64, File, &[u8]); 7] = [
    (1, ONE, b"abc"),
    (2, ONE, b"abcde"),
    (2, TWO, b"x"),
    (3, THREE, b"abcde"),
    (3, TWO, b"x"),
    (4, THREE, b"abcde"),
    (4, FOUR, b"xyz"),
];

/// Whether the files begin with what a store has after so many groups.
pub fn has_files<D: Disk>(disk: &mut D, groups: i64) -> bool {
    for (group, file, bytes) in &HELD {
        if *group == groups && !begins(disk, *file, bytes) {
            return false;
        }
    }
    true
}

/// Whether a file is missing, or empty.
fn is_empty<D: Disk>(disk: &mut D, file: File) -> bool {
    match disk.length(file) {
        Ok(length) => length == 0,
        Err(_) => false,
    }
}

/// Whether the files are gone that a store is done with after so many groups.
pub fn has_no_more<D: Disk>(disk: &mut D, groups: i64) -> bool {
    let one = groups < 3 || is_empty(disk, ONE);
    let two = groups < 4 || is_empty(disk, TWO);
    one && two
}
