//! A checkpoint: the whole state is written as the one body of a further log, which then is the
//! current one.

ghost use Rattle.std.specs.Prelude.{◌≡◌, ◌<◌, ◌≤◌, ◌+◌, ◌-◌, ◌^◌, ℕ, [], length, Err, None, Some, true, false, OnOk, OnErr, IsErrOf};
ghost use Rattle.ix_base.specs.Faults.{Rose};
ghost use Rattle.ix_base.specs.Told.{Told};
ghost use Rattle.ix_disk.specs.Image.{Image};
ghost use Rattle.ix_disk.specs.Moments.{ImagesStep, Always};
ghost use Rattle.ix_log.specs.Log.{file_of, place_of};
ghost use Rattle.ix_manifest.specs.Whole.{whole_body};
ghost use Rattle.ix_manifest.specs.declared.fault.CheckpointFault.TheVariants as faults;
ghost use Rattle.ix_commit.specs.Contents.{Anyhow};
ghost use Rattle.ix_commit.specs.Snapshot.{Snapshot, KeepsEither, Held, LogsAtEnd, NothingStaged, KnowsLogLength, log_of};
ghost use Rattle.ix_commit.specs.Shortening.{shortened, Tells, IsShortest};

use crate::committer::Committer;
use ix_disk::Disk;
use ix_log::Log;
use ix_manifest::{CheckpointFault, ManifestState, Whole, log_file, put_number, write_log};
use std::alloc::Global;

/// What becomes of a committer whose checkpoint failed: after a fault of the disk it is closed,
/// else it is as it was.
fn give_up(committer: &mut Committer, fault: CheckpointFault) -> CheckpointFault
    ensures fault { result ≡ fault }
    ensures closed { fault ≡ faults.Disk → committer.new.closed ≡ true }
    ensures same { fault ≡ faults.NoMemory → committer.new ≡ committer.old }
{
    if fault == CheckpointFault::Disk {
        committer.closed = true;
    }
    fault
}

/// The further log becomes the current one of a committer.
fn go_over(committer: &mut Committer, log: Log)
    requires number { committer.old.number < 2 ^ 64 - 1 }
    requires place { 5 ≤ place_of log }
    ensures root { committer.new.root ≡ committer.old.root }
    ensures log { committer.new.log ≡ log }
    ensures number { committer.new.number ≡ committer.old.number + 1 }
    ensures first { committer.new.first ≡ place_of log - 5 }
    ensures bytes { committer.new.bytes ≡ place_of log + 1 }
    ensures closed { committer.new.closed ≡ false }
    ensures parts { committer.new.parts ≡ committer.old.parts }
    ensures copies { committer.new.copies ≡ committer.old.copies }
    ensures slots { committer.new.slots ≡ committer.old.slots }
{
    let place = log.place();
    committer.log = log;
    committer.number += 1;
    committer.first = place - 5;
    committer.bytes = place + 1;
    committer.closed = false;
}

/// Makes the current log short: writes the whole state as the one body of a further log, and behind
/// it the removal of the old log, then adds the further log's number to the root log, and removes
/// the old log. Nothing is staged. After `NoMemory` the committer is as it was, and the old log is
/// the current one. After `Disk` the committer is closed.
pub fn checkpoint<D: Disk, B: ManifestState, W: Whole>(
    committer: &mut Committer,
    alloc: Global,
    disk: &mut D,
    state: &mut W,
) -> Result<(), CheckpointFault>
    requires over { LogsAtEnd D.Disk committer.old disk.old }
    requires idle { NothingStaged committer.old }
    requires short { length (whole_body (W.left state.old) (log_of committer.old)) < 2 ^ 32 }
    // Every image since the start keeps what was kept: in the old log, or in the new one with the
    // old one as the last removal.
    ensures images { (s : Snapshot) → Held D.Disk B.fits committer.old disk.old s s → Tells (W.left state.old) s.book →
        B.fits (shortened (log_of committer.old) s).book →
        Always D.Disk disk.old disk.new (KeepsEither B.fits s (shortened (log_of committer.old) s)) }
    // After Ok committer and disk hold it in the new one.
    ensures done { (s : Snapshot) → Held D.Disk B.fits committer.old disk.old s s → Tells (W.left state.old) s.book →
        B.fits (shortened (log_of committer.old) s).book →
        OnOk result (Held D.Disk B.fits committer.new disk.new (shortened (log_of committer.old) s) (shortened (log_of committer.old) s)) }
    ensures over { OnOk result (LogsAtEnd D.Disk committer.new disk.new) }
    ensures idle { OnOk result (NothingStaged committer.new) }
    // Then the current log has one body, and 6 bytes more than that has.
    ensures shortest { OnOk result (IsShortest D.Disk committer.new disk.new) }
    ensures measured { OnOk result (KnowsLogLength D.Disk committer.new disk.new) }
    ensures number { OnOk result (committer.new.number ≡ committer.old.number + 1) }
    // And the old one is gone, as the disk reads.
    ensures gone { OnOk result ((image : Image) → D.Disk.seen disk.new ≡ Some image → image (log_of committer.old) ≡ None) }
    // A disk that tells what it reads goes on telling.
    ensures told { Told Anyhow (D.Disk.seen disk.old) (D.Disk.seen disk.new) }
    // For want of memory all is as it was.
    ensures memory { IsErrOf result CheckpointFault.NoMemory → committer.new ≡ committer.old }
    ensures held_still { IsErrOf result CheckpointFault.NoMemory → (s : Snapshot) → Held D.Disk B.fits committer.old disk.old s s →
        Held D.Disk B.fits committer.new disk.new s s }
    ensures over_still { IsErrOf result CheckpointFault.NoMemory → LogsAtEnd D.Disk committer.new disk.new }
    ensures measured_still { IsErrOf result CheckpointFault.NoMemory → KnowsLogLength D.Disk committer.old disk.old →
        KnowsLogLength D.Disk committer.new disk.new }
    ensures closed { IsErrOf result CheckpointFault.Disk → committer.new.closed ≡ true }
    // Each image comes from one at the start.
    ensures comes { ImagesStep D.Disk disk.old disk.new Anyhow }
    ensures later { D.Disk.faults disk.old ≤ D.Disk.faults disk.new }
    ensures cause { IsErrOf result CheckpointFault.Disk → Rose (D.Disk.faults disk.old) (D.Disk.faults disk.new) }
{
    let old = log_file(committer.number);
    let log = match write_log(alloc, disk, log_file(committer.number + 1), old, state) {
        Ok(log) => log,
        Err(fault) => return Err(give_up(committer, fault)),
    };
    committer.closed = true;
    put_number(&mut committer.root, disk, committer.number + 1)?;
    disk.remove(old)?;
    go_over(committer, log);
    Ok(())
}
