//! The root log, which says which log is the current one. Mounting a store reads it, a checkpoint
//! adds to it.

ghost use Rattle.std.specs.Prelude.{◌≡◌, ◌≤◌, ◌<◌, ◌+◌, ◌-◌, ◌^◌, ℕ, [], length, Some, true, IfOk, IsErrOf};
ghost use Rattle.ix_base.specs.Faults.{Rose};
ghost use Rattle.ix_disk.specs.Image.{Image, bytes_in, Stays};
ghost use Rattle.ix_disk.specs.Moments.{ImagesStep};
ghost use Rattle.ix_log.specs.Log.{IsReading, IsMounted, IsAtEnd, OnMore, file_of};
ghost use Rattle.ix_manifest.specs.Replaying.{IsDamaged};
ghost use Rattle.ix_manifest.specs.Root.{roots, log_file, IsBadRoot};

use crate::manifest_state::ReplayFault;
use ix_base::{Area, Bytes, File};
use ix_disk::Disk;
use ix_log::Log;
use std::alloc::Global;

/// The file of the log with this number; the root log has number 0.
pub fn log_file(number: u64) -> File
    ensures { result ≡ log_file number }
{
    File {
        area: Area::Meta,
        number,
    }
}

/// Reads a further number, which is to be the one after `number`. At the end of the root log it
/// answers false.
fn next_number<D: Disk>(
    log: &mut Log,
    disk: &mut D,
    out: &mut Bytes,
    number: u64,
) -> Result<bool, ReplayFault>
    requires mounted { IsMounted D.Disk log.old disk.old }
    requires range { number < 2 ^ 64 - 1 }
    ensures more { (k : ℕ) → number ≡ k + 1 → IsReading D.Disk log.old disk.old (roots k) → IfOk result (λ more.
        OnMore more (IsReading D.Disk log.new disk.new (roots (k + 1))) (IsAtEnd D.Disk log.new disk.new (roots k))) }
    ensures mounted { IfOk result (λ more. more ≡ true → IsMounted D.Disk log.new disk.new) }
    ensures damaged { (k : ℕ) → number ≡ k + 1 → IsReading D.Disk log.old disk.old (roots k) → (at : ℕ) → IsDamaged result at →
        (image : Image) → D.Disk.seen disk.old ≡ Some image → IsBadRoot at (bytes_in image (file_of log.old)) }
    ensures file { file_of log.new ≡ file_of log.old }
    ensures same { D.Disk.seen disk.new ≡ D.Disk.seen disk.old }
    ensures images { ImagesStep D.Disk disk.old disk.new Stays }
    ensures later { D.Disk.faults disk.old ≤ D.Disk.faults disk.new }
    ensures cause { IsErrOf result ReplayFault.Disk → Rose (D.Disk.faults disk.old) (D.Disk.faults disk.new) }
{
    let at = log.place();
    let more = log.next(disk, out)?;
    if !more {
        return Ok(false);
    }
    let next = (number + 1).to_be_bytes();
    if out.as_slice() != next.as_slice() {
        return Err(ReplayFault::Damaged { at });
    }
    Ok(true)
}

/// Reads the root log to its end, and answers the number of the current log. It is `Damaged`
/// exactly where a body is cut or is not the next number, and names the gate of the first such
/// body.
pub fn read_root<D: Disk>(alloc: Global, log: &mut Log, disk: &mut D) -> Result<u64, ReplayFault>
    requires { IsReading D.Disk log.old disk.old [] }
    ensures read { IfOk result (λ number. (1 ≤ number) × IsAtEnd D.Disk log.new disk.new (roots (number - 1))) }
    ensures range { IfOk result (λ number. number < 2 ^ 64 - 1) }
    ensures damaged { (at : ℕ) → IsDamaged result at → (image : Image) → D.Disk.seen disk.old ≡ Some image →
        IsBadRoot at (bytes_in image (file_of log.old)) }
    ensures file { file_of log.new ≡ file_of log.old }
    ensures same { D.Disk.seen disk.new ≡ D.Disk.seen disk.old }
    ensures images { ImagesStep D.Disk disk.old disk.new Stays }
    ensures later { D.Disk.faults disk.old ≤ D.Disk.faults disk.new }
    ensures cause { IsErrOf result ReplayFault.Disk → Rose (D.Disk.faults disk.old) (D.Disk.faults disk.new) }
{
    let mut out = Bytes::new(alloc);
    for number in 1..u64::MAX {
        if !next_number(log, disk, &mut out, number)? {
            return Ok(number);
        }
    }
    Err(ReplayFault::NoMemory)
}
