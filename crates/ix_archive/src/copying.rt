//! Copies of the first bytes of a file.

ghost use Rattle.std.specs.Prelude.{◌≡◌, ◌≢◌, ◌≤◌, ◌<◌, ◌+◌, ℕ, length, Some, IfOk, IfErr, IsErrOf, OnOk};
ghost use Rattle.ix_base.specs.Faults.{Rose, HasCause};
ghost use Rattle.ix_base.specs.Told.{Told};
ghost use Rattle.ix_disk.specs.Image.{Image, bytes_in, Apart};
ghost use Rattle.ix_disk.specs.Moments.{ImagesStep};
ghost use Rattle.ix_archive.specs.Copies.{HasFirst, HasCopy, OnShort, Moves};

use ix_base::{Failed, File};
use ix_disk::Disk;
use thiserror::Error;

/// Why a file was not copied.
#[derive(Clone, Copy, Debug, PartialEq, Eq, Error)]
pub enum CopyFault {
    /// The disk has failed.
    #[error("the disk failed")]
    Disk,
    /// The file to be copied has fewer bytes: so many.
    #[error("the file to be copied ends at byte {at}")]
    Short { at: u64 },
}

impl From<Failed> for CopyFault {
    ghost use Rattle.ix_archive.specs.declared.copying.CopyFault.TheVariants.{Disk};

    ghost from_gives = { λ _ e. e ≡ Disk };

    fn from(_: Failed) -> CopyFault {
        CopyFault::Disk
    }
}

/// Copies the bytes at a place, as many as the buffer has room for and the file has, and answers
/// how many.
#[tactic(auto, using(ix_disk::proofs::Others::others))]
fn copy_piece<D: Disk>(
    disk: &mut D,
    from: File,
    to: File,
    at: u64,
    buf: &mut [u8],
) -> Result<u64, CopyFault>
    requires apart { from ≢ to }
    requires room { 0 < length buf.old }
    requires within { (image : Image) → D.Disk.seen disk.old ≡ Some image → at ≤ length (bytes_in image to) }
    ensures some { IfOk result (λ n. 0 < n) }
    ensures within { IfOk result (λ n. n ≤ length buf.old) }
    ensures moved { IfOk result (λ n. Told (Moves from to at (at + n)) (D.Disk.seen disk.old) (D.Disk.seen disk.new)) }
    ensures short { IfErr result (λ fault. OnShort fault (λ place. (place ≡ at)
        × ((image : Image) → D.Disk.seen disk.old ≡ Some image → length (bytes_in image from) ≤ at))) }
    ensures images { ImagesStep D.Disk disk.old disk.new (Apart to) }
    ensures seen { Told (Apart to) (D.Disk.seen disk.old) (D.Disk.seen disk.new) }
    ensures cause { IsErrOf result CopyFault.Disk → Rose (D.Disk.faults disk.old) (D.Disk.faults disk.new) }
    ensures later { D.Disk.faults disk.old ≤ D.Disk.faults disk.new }
{
    let n = disk.read(from, at, buf)?;
    if n == 0 {
        return Err(CopyFault::Short { at });
    }
    disk.write_at(to, at, &buf[..n])?;
    Ok(n as u64)
}

/// Copies piece by piece. A file is its own copy.
#[tactic(auto, using(ix_disk::proofs::Others::others))]
fn copy_pieces<D: Disk>(
    disk: &mut D,
    from: File,
    to: File,
    len: u64,
    buf: &mut [u8],
) -> Result<(), CopyFault>
    requires room { 0 < length buf.old }
    requires long { (image : Image) → D.Disk.seen disk.old ≡ Some image → len ≤ length (bytes_in image from) }
    ensures moved { OnOk result (Told (Moves from to 0 len) (D.Disk.seen disk.old) (D.Disk.seen disk.new)) }
    ensures short { IfErr result (λ fault. OnShort fault (λ place. (place < len)
        × ((image : Image) → D.Disk.seen disk.old ≡ Some image → ⊥))) }
    ensures images { ImagesStep D.Disk disk.old disk.new (Apart to) }
    ensures seen { Told (Apart to) (D.Disk.seen disk.old) (D.Disk.seen disk.new) }
    ensures cause { IsErrOf result CopyFault.Disk → Rose (D.Disk.faults disk.old) (D.Disk.faults disk.new) }
    ensures later { D.Disk.faults disk.old ≤ D.Disk.faults disk.new }
{
    if from == to {
        return Ok(());
    }
    let mut at = 0;
    while at < len {
        let most = (len - at).min(buf.len() as u64) as usize;
        at += copy_piece(disk, from, to, at, &mut buf[..most])?;
    }
    Ok(())
}

/// Writes the first bytes of a file at the front of another, piece by piece through the buffer, and
/// syncs the other. `Short` comes where the first file has fewer bytes. It takes no memory.
#[tactic(auto, using(ix_disk::proofs::Others::others))]
pub fn copy<D: Disk>(
    disk: &mut D,
    from: File,
    to: File,
    len: u64,
    buf: &mut [u8],
) -> Result<(), CopyFault>
    requires { 0 < length buf.old }
    // After Ok every image has the bytes at the target.
    ensures copied { OnOk result ((image : Image) → D.Disk.may_leave disk.new image → HasCopy D.Disk disk.old from to len image) }
    ensures long { OnOk result ((image : Image) → D.Disk.seen disk.old ≡ Some image → len ≤ length (bytes_in image from)) }
    ensures short { IfErr result (λ fault. OnShort fault (λ place. place < len)) }
    ensures place { IfErr result (λ fault. OnShort fault (λ place. (image : Image) → D.Disk.seen disk.old ≡ Some image →
        place ≡ length (bytes_in image from))) }
    // Every image since the start has all other files, and a read of them gives what it gave.
    ensures images { ImagesStep D.Disk disk.old disk.new (Apart to) }
    ensures seen { Told (Apart to) (D.Disk.seen disk.old) (D.Disk.seen disk.new) }
    ensures cause { IsErrOf result CopyFault.Disk → Rose (D.Disk.faults disk.old) (D.Disk.faults disk.new) }
    ensures later { D.Disk.faults disk.old ≤ D.Disk.faults disk.new }
{
    let have = disk.length(from)?;
    if have < len {
        return Err(CopyFault::Short { at: have });
    }
    copy_pieces(disk, from, to, len, buf)?;
    disk.sync(to)?;
    Ok(())
}
