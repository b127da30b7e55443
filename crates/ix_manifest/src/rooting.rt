//! A further number in the root log: with it a further log becomes the current one. A checkpoint
//! calls `put_number`.

ghost use Rattle.std.specs.Prelude.{◌≡◌, ◌+◌, ℕ, OnOk};
ghost use Rattle.ix_base.specs.Faults.{HasCause};
ghost use Rattle.ix_base.specs.Told.{Told};
ghost use Rattle.ix_disk.specs.Image.{Apart};
ghost use Rattle.ix_disk.specs.Moments.{ImagesStep, InFile};
ghost use Rattle.ix_log.specs.Log.{IsAtEnd, file_of};
ghost use Rattle.ix_manifest.specs.Root.{roots};
ghost use Rattle.ix_manifest.specs.Whole.{HasNumbers};

use ix_base::Failed;
use ix_disk::Disk;
use ix_log::Log;

/// Puts the next number behind those of the root log, and makes it count. After `Failed` the root
/// log is not used again.
pub fn put_number<D: Disk>(root: &mut Log, disk: &mut D, number: u64) -> Result<(), Failed>
    requires { (checkpoints : ℕ) × (number ≡ checkpoints + 2) × IsAtEnd D.Disk root.old disk.old (roots checkpoints) }
    ensures finished { (checkpoints : ℕ) → number ≡ checkpoints + 2 → IsAtEnd D.Disk root.old disk.old (roots checkpoints) →
        OnOk result (IsAtEnd D.Disk root.new disk.new (roots (checkpoints + 1))) }
    // Every image since the start has the numbers from before, with this one or without, and all
    // other files.
    ensures images { (checkpoints : ℕ) → number ≡ checkpoints + 2 → IsAtEnd D.Disk root.old disk.old (roots checkpoints) →
        ImagesStep D.Disk disk.old disk.new (InFile (file_of root.old) (HasNumbers checkpoints)) }
    ensures seen { Told (Apart (file_of root.old)) (D.Disk.seen disk.old) (D.Disk.seen disk.new) }
    ensures file { file_of root.new ≡ file_of root.old }
    ensures cause { HasCause (D.Disk.faults disk.old) (D.Disk.faults disk.new) result }
{
    let bytes = number.to_be_bytes();
    root.put(disk, bytes.as_slice())?;
    root.finish(disk)?;
    Ok(())
}
