//! A commit: what is staged is made durable, in one body of the log.

ghost use Rattle.std.specs.Prelude.{◌≡◌, ◌≢◌, ◌<◌, ◌≤◌, ◌++◌, ◌∷◌, ℕ, List, [], length, Some, Ok, Err, OnOk, OnErr, IsErrOf, true};
ghost use Rattle.ix_base.specs.Faults.{Rose};
ghost use Rattle.ix_base.specs.Told.{Told};
ghost use Rattle.ix_base.specs.declared.files.Area.TheVariants.{Meta};
ghost use Rattle.ix_base.specs.declared.files.File.{File};
ghost use Rattle.ix_disk.specs.Image.{Image, bytes_in};
ghost use Rattle.ix_disk.specs.Moments.{Always, ImagesStep};
ghost use Rattle.ix_manifest.specs.Book.{empty, replay, removals_in};
ghost use Rattle.ix_manifest.specs.Replaying.{first_after};
ghost use Rattle.ix_manifest.specs.Slots.{bytes_of, items_of};
ghost use Rattle.ix_log.specs.Log.{IsAtEnd};
ghost use Rattle.ix_commit.specs.Committing.{IsShort};
ghost use Rattle.ix_commit.specs.Contents.{Filling, Spares, HoldsFilling, Keeping, Anyhow};
ghost use Rattle.ix_commit.specs.Parts.{AreParts};
ghost use Rattle.ix_commit.specs.Copies.{AreCopies, after_copies};
ghost use Rattle.ix_commit.specs.Reads.{OrGone, IsElsewhere, ReadsNone};
ghost use Rattle.ix_commit.specs.Snapshot.{Snapshot, KeepsEither, Held, LogsAtEnd, NothingStaged, KnowsLogLength, log_of};
ghost use Rattle.ix_commit.specs.declared.fault.CommitFault.{CommitFault};

use crate::committer::Committer;
use crate::copying::copy_all;
use crate::fault::CommitFault;
use crate::file_copy::FileCopy;
use crate::removing::remove_all;
use crate::staged_append::{StagedAppend, settle_all};
use ix_disk::Disk;
use ix_manifest::{ManifestState, last_removals, log_file, put_body};

/// Puts staged bytes where they belong, and then makes the copies.
fn fill<D: Disk>(
    disk: &mut D,
    parts: &[StagedAppend],
    copies: &[FileCopy],
    buf: &mut [u8],
) -> Result<(), CommitFault>
    requires { 0 < length buf.old }
    ensures images { (log : File) (old grown : Filling) → log.area ≡ Meta → AreParts old grown parts.now → AreCopies old grown copies.now →
        ImagesStep D.Disk disk.old disk.new (Spares log old) }
    ensures logs { (log : File) → log.area ≡ Meta → ImagesStep D.Disk disk.old disk.new (Keeping log) }
    ensures filled { (log : File) (old grown : Filling) → log.area ≡ Meta → AreParts old grown parts.now → AreCopies old grown copies.now →
        HoldsFilling D.Disk disk.old old →
        OnOk result (HoldsFilling D.Disk disk.new (after_copies copies.now grown)) }
    ensures seen { (other : File) → IsElsewhere parts.now copies.now other →
        Told (Keeping other) (D.Disk.seen disk.old) (D.Disk.seen disk.new) }
    ensures sound { (log : File) (old grown : Filling) → log.area ≡ Meta → AreParts old grown parts.now → AreCopies old grown copies.now →
        HoldsFilling D.Disk disk.old old →
        (image : Image) → D.Disk.seen disk.old ≡ Some image → (file : File) (at : ℕ) → result ≡ Err (CommitFault.Damaged file at) → ⊥ }
    ensures damaged { (file : File) (at : ℕ) → result ≡ Err (CommitFault.Damaged file at) → IsShort parts.now copies.now file at
        × ((image : Image) → D.Disk.seen disk.new ≡ Some image → at ≡ length (bytes_in image file)) }
    ensures later { D.Disk.faults disk.old ≤ D.Disk.faults disk.new }
    ensures cause { IsErrOf result CommitFault.Disk → Rose (D.Disk.faults disk.old) (D.Disk.faults disk.new) }
{
    settle_all(disk, parts)?;
    copy_all(disk, copies, buf)?;
    Ok(())
}

/// Makes durable what is staged, in the order of `commit`, which asks afterwards how long the log
/// is.
fn commit_staged<D: Disk, B: ManifestState>(
    committer: &mut Committer,
    disk: &mut D,
) -> Result<(), CommitFault>
    requires { LogsAtEnd D.Disk committer.old disk.old }
    ensures images { (old new : Snapshot) → Held D.Disk B.fits committer.old disk.old old new →
        Always D.Disk disk.old disk.new (KeepsEither B.fits old new) }
    ensures done { (old new : Snapshot) → Held D.Disk B.fits committer.old disk.old old new →
        OnOk result (Held D.Disk B.fits committer.new disk.new new new) }
    ensures over { OnOk result (LogsAtEnd D.Disk committer.new disk.new) }
    ensures idle { OnOk result (NothingStaged committer.new) }
    ensures body { (bodies : List (List ℕ)) → IsAtEnd D.Disk committer.old.log disk.old bodies → 0 < length committer.old.slots →
        OnOk result (IsAtEnd D.Disk committer.new.log disk.new (bodies ++ bytes_of committer.old.slots ∷ [])) }
    ensures comes { ImagesStep D.Disk disk.old disk.new Anyhow }
    ensures closed { OnErr result (committer.new.closed ≡ true) }
    ensures file { log_of committer.new ≡ log_of committer.old }
    ensures number { OnOk result (committer.new.number ≡ committer.old.number) }
    ensures seen { (other : File) → IsElsewhere committer.old.parts committer.old.copies other → other ≢ log_of committer.old →
        Told (OrGone other) (D.Disk.seen disk.old) (D.Disk.seen disk.new) }
    ensures removed { OnOk result (ReadsNone D.Disk disk.new (log_of committer.old)
        (removals_in (replay (items_of committer.old.slots) empty))) }
    ensures sound { (old new : Snapshot) → Held D.Disk B.fits committer.old disk.old old new → (image : Image) →
        D.Disk.seen disk.old ≡ Some image →
        (file : File) (at : ℕ) → result ≡ Err (CommitFault.Damaged file at) → ⊥ }
    ensures damaged { (file : File) (at : ℕ) → result ≡ Err (CommitFault.Damaged file at) →
        IsShort committer.old.parts committer.old.copies file at
        × ((image : Image) → D.Disk.seen disk.new ≡ Some image → at ≡ length (bytes_in image file)) }
    ensures later { D.Disk.faults disk.old ≤ D.Disk.faults disk.new }
    ensures cause { IsErrOf result CommitFault.Disk → Rose (D.Disk.faults disk.old) (D.Disk.faults disk.new) }
{
    committer.closed = true;
    fill(
        disk,
        committer.parts.as_slice(),
        committer.copies.as_slice(),
        committer.buffer.as_mut_slice(),
    )?;
    put_body(&mut committer.log, disk, committer.slots.as_slice())?;
    remove_all(
        disk,
        last_removals(committer.slots.as_slice()),
        log_file(committer.number),
    )?;
    committer.first = first_of(committer.first, committer.size);
    committer.parts.clear();
    committer.copies.clear();
    committer.slots.clear();
    committer.size = 0;
    committer.closed = false;
    Ok(())
}

/// How many bytes the first body has, once one of so many bytes is put behind it; 0 stands for
/// none.
fn first_of(first: u64, size: u64) -> u64
    ensures { result ≡ first_after first first size }
{
    if first == 0 { size } else { first }
}

/// Makes durable what is staged: first the bytes and the copies, then the items, and then it
/// removes the files that the staged removals name. It takes no memory. After a fault the committer
/// is closed.
pub fn commit<D: Disk, B: ManifestState>(
    committer: &mut Committer,
    disk: &mut D,
) -> Result<(), CommitFault>
    requires { LogsAtEnd D.Disk committer.old disk.old }
    // Every image since the start keeps the old snapshot or the new one.
    ensures images { (old new : Snapshot) → Held D.Disk B.fits committer.old disk.old old new →
        Always D.Disk disk.old disk.new (KeepsEither B.fits old new) }
    // After Ok all images keep the new one, and nothing is staged.
    ensures done { (old new : Snapshot) → Held D.Disk B.fits committer.old disk.old old new →
        OnOk result (Held D.Disk B.fits committer.new disk.new new new) }
    ensures over { OnOk result (LogsAtEnd D.Disk committer.new disk.new) }
    ensures idle { OnOk result (NothingStaged committer.new) }
    // Where nothing is staged, the disk and the committer are left alone.
    ensures none { NothingStaged committer.old → (result ≡ Ok tt) × ((committer.new ≡ committer.old) × (disk.new ≡ disk.old)) }
    // The committer knows how long the log is.
    ensures measured { (NothingStaged committer.old → KnowsLogLength D.Disk committer.old disk.old) →
        OnOk result (KnowsLogLength D.Disk committer.new disk.new) }
    // Where items are staged, the log has one body more then, of their bytes.
    ensures body { (bodies : List (List ℕ)) → IsAtEnd D.Disk committer.old.log disk.old bodies → 0 < length committer.old.slots →
        OnOk result (IsAtEnd D.Disk committer.new.log disk.new (bodies ++ bytes_of committer.old.slots ∷ [])) }
    // Each image comes from one at the start.
    ensures comes { ImagesStep D.Disk disk.old disk.new Anyhow }
    ensures closed { OnErr result (committer.new.closed ≡ true) }
    ensures file { log_of committer.new ≡ log_of committer.old }
    // A disk that tells what it reads goes on telling, and each other file for which nothing is
    // staged is as it was or removed.
    ensures told { Told Anyhow (D.Disk.seen disk.old) (D.Disk.seen disk.new) }
    ensures seen { (other : File) → IsElsewhere committer.old.parts committer.old.copies other → other ≢ log_of committer.old →
        Told (OrGone other) (D.Disk.seen disk.old) (D.Disk.seen disk.new) }
    // After Ok the files that the staged removals name are gone.
    ensures removed { OnOk result (ReadsNone D.Disk disk.new (log_of committer.old)
        (removals_in (replay (items_of committer.old.slots) empty))) }
    // Where committer and disk hold a snapshot, and the disk tells what it reads, nothing is
    // damaged.
    ensures sound { (old new : Snapshot) → Held D.Disk B.fits committer.old disk.old old new → (image : Image) →
        D.Disk.seen disk.old ≡ Some image →
        (file : File) (at : ℕ) → result ≡ Err (CommitFault.Damaged file at) → ⊥ }
    // The named file has so many bytes, fewer than were committed.
    ensures damaged { (file : File) (at : ℕ) → result ≡ Err (CommitFault.Damaged file at) →
        IsShort committer.old.parts committer.old.copies file at
        × ((image : Image) → D.Disk.seen disk.new ≡ Some image → at ≡ length (bytes_in image file)) }
    ensures later { D.Disk.faults disk.old ≤ D.Disk.faults disk.new }
    ensures cause { IsErrOf result CommitFault.Disk → Rose (D.Disk.faults disk.old) (D.Disk.faults disk.new) }
{
    if !committer.is_staged() {
        return Ok(());
    }
    commit_staged::<D, B>(committer, disk)?;
    committer.measure(disk)?;
    Ok(())
}
