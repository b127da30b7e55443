//! Bytes put behind those of a file.

ghost use Rattle.std.specs.Prelude.{◌≡◌, ◌≤◌, ℕ, List, length, Some, OnOk};
ghost use Rattle.ix_base.specs.Faults.{HasCause};
ghost use Rattle.ix_base.specs.Told.{Told};
ghost use Rattle.ix_disk.specs.Image.{Image, bytes_in, Apart};
ghost use Rattle.ix_disk.specs.Moments.{ImagesStep, Holds};
ghost use Rattle.ix_bucket.specs.Append.{Behind, HasAt};

use ix_base::{Failed, File};
use ix_disk::Disk;

/// Writes the bytes at a place within the file or at its end, and syncs it. It fails only where the
/// disk does, and takes no memory.
pub fn append<D: Disk>(disk: &mut D, file: File, at: u64, bytes: &[u8]) -> Result<(), Failed>
    requires { (image : Image) → D.Disk.seen disk.old ≡ Some image → at ≤ length (bytes_in image file) }
    // Every image since the start has the bytes before the place, and all other files.
    ensures images { ImagesStep D.Disk disk.old disk.new (Behind file at) }
    // After Ok every image has the new bytes.
    ensures appended { OnOk result (Holds D.Disk disk.new file (HasAt at bytes.now)) }
    // A read of the other files gives what it gave.
    ensures seen { Told (Apart file) (D.Disk.seen disk.old) (D.Disk.seen disk.new) }
    ensures cause { HasCause (D.Disk.faults disk.old) (D.Disk.faults disk.new) result }
{
    disk.write_at(file, at, bytes)?;
    disk.sync(file)?;
    Ok(())
}
