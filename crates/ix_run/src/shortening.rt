//! The log of a store grows with each commit, and is made short where it is long. A run of the
//! program ends with it.

ghost use Rattle.std.specs.Prelude.{◌≡◌, ◌≤◌, ℕ, List, length, true, false, Ok, OnOk, IsErrOf};
ghost use Rattle.std.specs.List.{AllByRecursion};
ghost use Rattle.ix_base.specs.Faults.{Rose};
ghost use Rattle.ix_base.specs.Told.{Told};
ghost use Rattle.ix_disk.specs.Moments.{Always};
ghost use Rattle.ix_commit.specs.Contents.{Anyhow};
ghost use Rattle.ix_commit.specs.Snapshot.{LogsAtEnd, NothingStaged, KnowsLogLength, IsLong};
ghost use Rattle.ix_model.specs.Given.{Chooser};
ghost use Rattle.ix_model.specs.declared.commands.TimedCommand.{TimedCommand};
ghost use Rattle.ix_run.specs.Resting.{CheckpointReady, ReadsShort, is_failed};
ghost use Rattle.ix_store.specs.Holding.{Represents};
ghost use Rattle.ix_store.specs.Written.{RecoversTo};

use ix_disk::Disk;
use ix_manifest::CheckpointFault;
use ix_store::{Listing, Store};

/// Makes a checkpoint where the current log is long, and else does nothing. All commands are
/// committed before, and none is staged. After `NoMemory` the store is as it was, and the long log
/// stays the current one. After `Disk` the store is closed.
pub fn shorten<M: Listing + Drop, D: Disk>(
    store: &mut Store<M>,
    disk: &mut D,
) -> Result<(), CheckpointFault>
    requires over { LogsAtEnd D.Disk store.old.committer disk.old }
    requires idle { NothingStaged store.old.committer }
    // Every image since the start stands for this run and all commands, also where the disk fails.
    ensures images { (choose : Chooser) (history : List TimedCommand) (base : ℕ) → M.is_chooser choose → AllByRecursion M.takes history →
        Represents D.Disk M.Book.fits M.holds choose history base (length history) store.old disk.old →
        Always D.Disk disk.old disk.new (RecoversTo M.Book.fits store.old.run choose history) }
    // Else store and disk hold them still, all committed,
    ensures held { is_failed result ≡ false → (choose : Chooser) (history : List TimedCommand) (base : ℕ) → M.is_chooser choose →
        AllByRecursion M.takes history →
        Represents D.Disk M.Book.fits M.holds choose history base (length history) store.old disk.old →
        Represents D.Disk M.Book.fits M.holds choose history base (length history) store.new disk.new }
    ensures over { is_failed result ≡ false → LogsAtEnd D.Disk store.new.committer disk.new }
    ensures idle { is_failed result ≡ false → NothingStaged store.new.committer }
    ensures rest { is_failed result ≡ false → CheckpointReady D.Disk store.old.committer disk.old →
        CheckpointReady D.Disk store.new.committer disk.new }
    // and after Ok the current log is not long, as the disk reads.
    ensures short { OnOk result (KnowsLogLength D.Disk store.old.committer disk.old → ReadsShort D.Disk disk.new) }
    // A log that is not long stays.
    ensures none { (IsLong store.old.committer.bytes store.old.committer.first → ⊥) → (result ≡ Ok tt)
        × ((store.new ≡ store.old) × (disk.new ≡ disk.old)) }
    ensures memory { IsErrOf result CheckpointFault.NoMemory → store.new ≡ store.old }
    ensures run { store.new.run ≡ store.old.run }
    ensures closed { IsErrOf result CheckpointFault.Disk → store.new.committer.closed ≡ true }
    // A disk that tells what it reads goes on telling.
    ensures told { Told Anyhow (D.Disk.seen disk.old) (D.Disk.seen disk.new) }
    ensures later { D.Disk.faults disk.old ≤ D.Disk.faults disk.new }
    ensures cause { IsErrOf result CheckpointFault.Disk → Rose (D.Disk.faults disk.old) (D.Disk.faults disk.new) }
{
    let long = store.wants_checkpoint();
    if !long {
        return Ok(());
    }
    store.checkpoint(disk)
}
