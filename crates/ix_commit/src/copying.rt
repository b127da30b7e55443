//! Staged copies are made, one behind the other. A commit calls it, behind the appends.

ghost use Rattle.std.specs.Prelude.{◌≡◌, ◌≢◌, ◌<◌, ◌≤◌, ℕ, List, length, Some, Err, OnOk, IsErrOf, All, Contains};
ghost use Rattle.ix_base.specs.Faults.{Rose};
ghost use Rattle.ix_base.specs.declared.files.Area.TheVariants.{Meta};
ghost use Rattle.ix_base.specs.declared.files.File.{File};
ghost use Rattle.ix_base.specs.Told.{Told};
ghost use Rattle.ix_disk.specs.Image.{Image, bytes_in, Apart};
ghost use Rattle.ix_disk.specs.Moments.{ImagesStep};
ghost use Rattle.ix_commit.specs.Contents.{Filling, Keeping, Spares, HoldsFilling};
ghost use Rattle.ix_commit.specs.Copies.{AreCopies, IsCopy, target, after_copy, after_copies};
ghost use Rattle.ix_commit.specs.declared.file_copy.FileCopy.{FileCopy};
ghost use Rattle.ix_commit.specs.declared.fault.CommitFault.{CommitFault};

use crate::fault::CommitFault;
use crate::file_copy::FileCopy;
use ix_archive::{CopyFault, copy};
use ix_disk::Disk;

/// Makes one copy. A file is its own copy.
#[tactic(auto, using(ix_disk::proofs::Others::others))]
fn copy_one<D: Disk>(disk: &mut D, copied: FileCopy, buf: &mut [u8]) -> Result<(), CommitFault>
    requires { 0 < length buf.old }
    ensures images { ImagesStep D.Disk disk.old disk.new (Apart (target copied)) }
    ensures copied { (old now : Filling) → IsCopy old now copied → HoldsFilling D.Disk disk.old now →
        OnOk result (HoldsFilling D.Disk disk.new (after_copy copied now)) }
    ensures seen { Told (Apart (target copied)) (D.Disk.seen disk.old) (D.Disk.seen disk.new) }
    ensures sound { (old now : Filling) → IsCopy old now copied → HoldsFilling D.Disk disk.old now → (image : Image) →
        D.Disk.seen disk.old ≡ Some image →
        (file : File) (at : ℕ) → result ≡ Err (CommitFault.Damaged file at) → ⊥ }
    ensures damaged { (file : File) (at : ℕ) → result ≡ Err (CommitFault.Damaged file at) → (file ≡ copied.from) × (at < copied.len)
        × ((image : Image) → D.Disk.seen disk.new ≡ Some image → at ≡ length (bytes_in image file)) }
    ensures later { D.Disk.faults disk.old ≤ D.Disk.faults disk.new }
    ensures cause { IsErrOf result CommitFault.Disk → Rose (D.Disk.faults disk.old) (D.Disk.faults disk.new) }
{
    let to = copied.target();
    if copied.from == to {
        return Ok(());
    }
    match copy(disk, copied.from, to, copied.len, buf) {
        Ok(()) => Ok(()),
        Err(CopyFault::Disk) => Err(CommitFault::Disk),
        Err(CopyFault::Short { at }) => Err(CommitFault::Damaged {
            file: copied.from,
            at,
        }),
    }
}

/// Makes all copies, one behind the other.
pub fn copy_all<D: Disk>(
    disk: &mut D,
    copies: &[FileCopy],
    buf: &mut [u8],
) -> Result<(), CommitFault>
    requires { 0 < length buf.old }
    ensures images { (log : File) (old now : Filling) → log.area ≡ Meta → AreCopies old now copies.now →
        ImagesStep D.Disk disk.old disk.new (Spares log old) }
    ensures logs { (log : File) → log.area ≡ Meta → ImagesStep D.Disk disk.old disk.new (Keeping log) }
    ensures copied { (old now : Filling) → AreCopies old now copies.now → HoldsFilling D.Disk disk.old now →
        OnOk result (HoldsFilling D.Disk disk.new (after_copies copies.now now)) }
    ensures seen { (other : File) → All (λ copied. other ≢ target copied) copies.now →
        Told (Keeping other) (D.Disk.seen disk.old) (D.Disk.seen disk.new) }
    ensures sound { (old now : Filling) → AreCopies old now copies.now → HoldsFilling D.Disk disk.old now → (image : Image) →
        D.Disk.seen disk.old ≡ Some image →
        (file : File) (at : ℕ) → result ≡ Err (CommitFault.Damaged file at) → ⊥ }
    ensures damaged { (file : File) (at : ℕ) → result ≡ Err (CommitFault.Damaged file at) →
        ((copied : FileCopy) × Contains copies.now copied × (file ≡ copied.from) × (at < copied.len))
        × ((image : Image) → D.Disk.seen disk.new ≡ Some image → at ≡ length (bytes_in image file)) }
    ensures later { D.Disk.faults disk.old ≤ D.Disk.faults disk.new }
    ensures cause { IsErrOf result CommitFault.Disk → Rose (D.Disk.faults disk.old) (D.Disk.faults disk.new) }
{
    for one in copies {
        copy_one(disk, *one, buf)?;
    }
    Ok(())
}
