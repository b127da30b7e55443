//! A further log, with the whole state as its one body. A checkpoint calls `write_log`.

ghost use Rattle.std.specs.Prelude.{◌≡◌, ◌<◌, ◌≤◌, ◌+◌, ◌^◌, ℕ, List, [], ◌∷◌, ◌++◌, length, true, false, OnOk, IfOk, IsErrOf};
ghost use Rattle.std.specs.List.{AllByRecursion};
ghost use Rattle.ix_base.specs.Faults.{Rose};
ghost use Rattle.ix_base.specs.Told.{Told};
ghost use Rattle.ix_disk.specs.Image.{Apart};
ghost use Rattle.ix_disk.specs.Moments.{ImagesStep};
ghost use Rattle.ix_items.specs.Spelling.{HasSpelling, item_bytes, body_bytes};
ghost use Rattle.ix_log.specs.Log.{IsUsable, IsBegun, IsReady, IsPutting, IsAtEnd, HasNoMore, file_of, put_so_far};
ghost use Rattle.ix_manifest.specs.Book.{IsBody};
ghost use Rattle.ix_manifest.specs.Whole.{HasPut, removal, whole, whole_body};

use crate::fault::CheckpointFault;
use crate::whole::Whole;
use ix_base::{Bytes, File, NoMemory, Sequence};
use ix_disk::Disk;
use ix_items::{Item, write_item};
use ix_log::Log;
use std::alloc::Global;

/// Puts the bytes of an item into the first body of a log.
fn put_item<D: Disk>(
    alloc: Global,
    log: &mut Log,
    disk: &mut D,
    item: Item,
) -> Result<(), CheckpointFault>
    requires proper { HasSpelling item }
    requires usable { IsUsable D.Disk log.old disk.old }
    requires short { put_so_far log.old + length (item_bytes item) < 2 ^ 32 }
    ensures put { (body : List ℕ) → IsReady D.Disk log.old disk.old [] body →
        OnOk result (IsPutting D.Disk log.new disk.new [] (body ++ item_bytes item)) }
    ensures begun { OnOk result (IsBegun D.Disk log.new disk.new) }
    ensures usable_still { OnOk result (IsUsable D.Disk log.new disk.new) }
    ensures counted { OnOk result (put_so_far log.new ≡ put_so_far log.old + length (item_bytes item)) }
    ensures no_more { HasNoMore D.Disk log.old disk.old → OnOk result (HasNoMore D.Disk log.new disk.new) }
    ensures images { ImagesStep D.Disk disk.old disk.new (Apart (file_of log.old)) }
    ensures seen { Told (Apart (file_of log.old)) (D.Disk.seen disk.old) (D.Disk.seen disk.new) }
    ensures file { file_of log.new ≡ file_of log.old }
    ensures later { D.Disk.faults disk.old ≤ D.Disk.faults disk.new }
    ensures cause { IsErrOf result CheckpointFault.Disk → Rose (D.Disk.faults disk.old) (D.Disk.faults disk.new) }
{
    let mut bytes = Bytes::new(alloc);
    let written = write_item(&item, &mut bytes);
    drop(item);
    written?;
    log.put(disk, bytes.as_slice())?;
    Ok(())
}

/// Puts the next item of a state into the first body of a log. Behind the last item it answers
/// false.
fn put_next<D: Disk, W: Whole>(
    alloc: Global,
    log: &mut Log,
    disk: &mut D,
    state: &mut W,
) -> Result<bool, CheckpointFault>
    requires usable { IsUsable D.Disk log.old disk.old }
    requires short { put_so_far log.old + length (body_bytes (W.left state.old)) < 2 ^ 32 }
    ensures put { (body : List ℕ) → IsReady D.Disk log.old disk.old [] body →
        OnOk result (HasPut D.Disk log.new disk.new body (W.left state.old) (W.left state.new)) }
    ensures proper { OnOk result (AllByRecursion HasSpelling (W.left state.new) → AllByRecursion HasSpelling (W.left state.old)) }
    ensures fewer { IfOk result (λ more. more ≡ true → length (W.left state.new) < length (W.left state.old)) }
    ensures end { IfOk result (λ more. more ≡ false → W.left state.new ≡ []) }
    ensures usable_still { OnOk result (IsUsable D.Disk log.new disk.new) }
    ensures counted { OnOk result (put_so_far log.new + length (body_bytes (W.left state.new)) ≡ put_so_far log.old + length
        (body_bytes (W.left state.old))) }
    ensures no_more { HasNoMore D.Disk log.old disk.old → OnOk result (HasNoMore D.Disk log.new disk.new) }
    ensures images { ImagesStep D.Disk disk.old disk.new (Apart (file_of log.old)) }
    ensures seen { Told (Apart (file_of log.old)) (D.Disk.seen disk.old) (D.Disk.seen disk.new) }
    ensures file { file_of log.new ≡ file_of log.old }
    ensures later { D.Disk.faults disk.old ≤ D.Disk.faults disk.new }
    ensures cause { IsErrOf result CheckpointFault.Disk → Rose (D.Disk.faults disk.old) (D.Disk.faults disk.new) }
{
    let next = state.next(alloc)?;
    match next {
        None => Ok(false),
        Some(item) => {
            put_item(alloc, log, disk, item)?;
            Ok(true)
        }
    }
}

/// Puts the items of a state into the first body of a log, one behind the other.
#[tactic(auto, using(ix_disk::proofs::Others::others))]
fn put_items<D: Disk, W: Whole>(
    alloc: Global,
    log: &mut Log,
    disk: &mut D,
    state: &mut W,
) -> Result<(), CheckpointFault>
    requires usable { IsUsable D.Disk log.old disk.old }
    requires short { put_so_far log.old + length (body_bytes (W.left state.old)) < 2 ^ 32 }
    ensures put { (body : List ℕ) → IsReady D.Disk log.old disk.old [] body →
        OnOk result (IsReady D.Disk log.new disk.new [] (body ++ body_bytes (W.left state.old))) }
    ensures proper { OnOk result (AllByRecursion HasSpelling (W.left state.old)) }
    ensures usable_still { OnOk result (IsUsable D.Disk log.new disk.new) }
    ensures counted { OnOk result (put_so_far log.new ≡ put_so_far log.old + length (body_bytes (W.left state.old))) }
    ensures no_more { HasNoMore D.Disk log.old disk.old → OnOk result (HasNoMore D.Disk log.new disk.new) }
    ensures images { ImagesStep D.Disk disk.old disk.new (Apart (file_of log.old)) }
    ensures seen { Told (Apart (file_of log.old)) (D.Disk.seen disk.old) (D.Disk.seen disk.new) }
    ensures file { file_of log.new ≡ file_of log.old }
    ensures later { D.Disk.faults disk.old ≤ D.Disk.faults disk.new }
    ensures cause { IsErrOf result CheckpointFault.Disk → Rose (D.Disk.faults disk.old) (D.Disk.faults disk.new) }
{
    while put_next(alloc, log, disk, state)? {}
    Ok(())
}

/// The item that says that a file is done with.
fn removal(alloc: Global, file: File) -> Result<Item, NoMemory>
    ensures is { IfOk result (λ item. item ≡ removal file) }
    ensures proper { OnOk result (HasSpelling (removal file)) }
{
    let mut files = Sequence::new(alloc);
    files.push(file)?;
    Ok(Item::Removals { files })
}

/// Makes the file a log of one body, whatever it held: the items of a state, and behind them the
/// removal of a file that is done with. One item at a time is in memory.
pub fn write_log<D: Disk, W: Whole>(
    alloc: Global,
    disk: &mut D,
    file: File,
    done: File,
    state: &mut W,
) -> Result<Log, CheckpointFault>
    requires { length (whole_body (W.left state.old) done) < 2 ^ 32 }
    ensures written { IfOk result (λ log. IsAtEnd D.Disk log disk.new (whole_body (W.left state.old) done ∷ [])) }
    ensures body { OnOk result (IsBody (whole (W.left state.old) done) (whole_body (W.left state.old) done)) }
    // Nothing stands behind the gate that follows the body.
    ensures no_more { IfOk result (λ log. HasNoMore D.Disk log disk.new) }
    ensures file { IfOk result (λ log. file_of log ≡ file) }
    // Every image since the start has all other files, and a read of them gives what it gave.
    ensures images { ImagesStep D.Disk disk.old disk.new (Apart file) }
    ensures seen { Told (Apart file) (D.Disk.seen disk.old) (D.Disk.seen disk.new) }
    ensures later { D.Disk.faults disk.old ≤ D.Disk.faults disk.new }
    ensures cause { IsErrOf result CheckpointFault.Disk → Rose (D.Disk.faults disk.old) (D.Disk.faults disk.new) }
{
    let mut log = Log::begin(alloc, disk, file)?;
    put_items(alloc, &mut log, disk, state)?;
    let last = removal(alloc, done)?;
    put_item(alloc, &mut log, disk, last)?;
    log.finish(disk)?;
    Ok(log)
}
