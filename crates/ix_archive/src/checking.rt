//! Whether a file is long enough.

ghost use Rattle.std.specs.Prelude.{◌≡◌, ◌≤◌, ◌↔◌, length, Some, IfOk, IsTrue};
ghost use Rattle.ix_base.specs.Faults.{HasCause};
ghost use Rattle.ix_disk.specs.Image.{Image, bytes_in, Stays};
ghost use Rattle.ix_disk.specs.Moments.{ImagesStep};

use ix_base::{Failed, File};
use ix_disk::Disk;

/// Whether the file has at least so many bytes. It fails only where the disk does, and takes no
/// memory.
pub fn check<D: Disk>(disk: &mut D, file: File, len: u64) -> Result<bool, Failed>
    ensures answer { IfOk result (λ answer. (image : Image) → D.Disk.seen disk.old ≡ Some image →
        IsTrue answer ↔ (len ≤ length (bytes_in image file))) }
    ensures same { D.Disk.seen disk.new ≡ D.Disk.seen disk.old }
    ensures images { ImagesStep D.Disk disk.old disk.new Stays }
    ensures cause { HasCause (D.Disk.faults disk.old) (D.Disk.faults disk.new) result }
{
    let have = disk.length(file)?;
    Ok(len <= have)
}
