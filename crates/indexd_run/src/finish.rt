//! How a run ends that has mounted a store: behind its last commit the log is made short where it
//! is long, whatever the run stops for, and before its text is written. `opening`, `run`, `export`
//! and `preview` call it, and so does every run over a store that another crate makes.

ghost use Rattle.std.specs.Prelude.{◌≡◌, ◌≤◌, ◌⊎◌, ℕ, List, length, true, false, OnOk, IfErr, IsErrOf};
ghost use Rattle.std.specs.List.{AllByRecursion};
ghost use Rattle.ix_base.specs.Faults.{Rose};
ghost use Rattle.ix_base.specs.Told.{Told};
ghost use Rattle.ix_disk.specs.Moments.{Always};
ghost use Rattle.ix_commit.specs.Contents.{Anyhow};
ghost use Rattle.ix_model.specs.Given.{Chooser};
ghost use Rattle.ix_model.specs.declared.commands.TimedCommand.{TimedCommand};
ghost use Rattle.ix_run.specs.Resting.{CheckpointReady, ReadsShort};
ghost use Rattle.ix_store.specs.Holding.{Represents};
ghost use Rattle.ix_store.specs.Written.{RecoversTo};
ghost use Rattle.indexd_run.specs.Shortened.{is_short_at, IsOfCheckpoint};
ghost use Rattle.indexd_run.specs.Stops.{loses, loses_in};

use crate::stop::{Stop, loses, of_checkpoint};
use ix_disk::Disk;
use ix_run::shorten;
use ix_store::{Listing, Store};

/// Makes the log of a store short where it is long. All is committed before, and all is held still,
/// unless the disk fails.
pub fn make_short<M: Listing + Drop, D: Disk>(
    store: &mut Store<M>,
    disk: &mut D,
) -> Result<(), Stop>
    requires { CheckpointReady D.Disk store.old.committer disk.old }
    ensures images { (choose : Chooser) (history : List TimedCommand) (base : ℕ) → M.is_chooser choose → AllByRecursion M.takes history →
        Represents D.Disk M.Book.fits M.holds choose history base (length history) store.old disk.old →
        Always D.Disk disk.old disk.new (RecoversTo M.Book.fits store.old.run choose history) }
    ensures held { loses_in result ≡ false → (choose : Chooser) (history : List TimedCommand) (base : ℕ) → M.is_chooser choose →
        AllByRecursion M.takes history →
        Represents D.Disk M.Book.fits M.holds choose history base (length history) store.old disk.old →
        Represents D.Disk M.Book.fits M.holds choose history base (length history) store.new disk.new }
    ensures run { store.new.run ≡ store.old.run }
    ensures short { OnOk result (ReadsShort D.Disk disk.new) }
    ensures faults { IfErr result IsOfCheckpoint }
    // A disk that tells what it reads goes on telling.
    ensures told { Told Anyhow (D.Disk.seen disk.old) (D.Disk.seen disk.new) }
    ensures later { D.Disk.faults disk.old ≤ D.Disk.faults disk.new }
    ensures cause { IsErrOf result Stop.Disk → Rose (D.Disk.faults disk.old) (D.Disk.faults disk.new) }
{
    match shorten(store, disk) {
        Ok(()) => Ok(()),
        Err(fault) => Err(of_checkpoint(fault)),
    }
}

/// Ends a run that stops for this: makes the log short where it is long, unless the store is
/// closed, and answers why the run stops then. For want of memory, or where the disk fails, it
/// stops for that.
pub fn stop_run<M: Listing + Drop, D: Disk>(store: &mut Store<M>, disk: &mut D, stop: Stop) -> Stop
    requires { loses stop ≡ false → CheckpointReady D.Disk store.old.committer disk.old }
    // Where the store is closed nothing is done.
    ensures closed { loses stop ≡ true → (result ≡ stop) × ((store.new ≡ store.old) × (disk.new ≡ disk.old)) }
    // Else every image since the start stands for all commands, and store and disk hold them still,
    // unless the disk fails.
    ensures images { loses stop ≡ false → (choose : Chooser) (history : List TimedCommand) (base : ℕ) → M.is_chooser choose →
        AllByRecursion M.takes history →
        Represents D.Disk M.Book.fits M.holds choose history base (length history) store.old disk.old →
        Always D.Disk disk.old disk.new (RecoversTo M.Book.fits store.old.run choose history) }
    ensures held { loses stop ≡ false → loses result ≡ false → (choose : Chooser) (history : List TimedCommand) (base : ℕ) →
        M.is_chooser choose → AllByRecursion M.takes history →
        Represents D.Disk M.Book.fits M.holds choose history base (length history) store.old disk.old →
        Represents D.Disk M.Book.fits M.holds choose history base (length history) store.new disk.new }
    ensures run { store.new.run ≡ store.old.run }
    ensures why { (result ≡ stop) ⊎ IsOfCheckpoint result }
    ensures short { is_short_at result ≡ true → ReadsShort D.Disk disk.new }
    // A disk that tells what it reads goes on telling.
    ensures told { Told Anyhow (D.Disk.seen disk.old) (D.Disk.seen disk.new) }
    ensures later { D.Disk.faults disk.old ≤ D.Disk.faults disk.new }
    ensures cause { result ≡ Stop.Disk → (stop ≡ Stop.Disk) ⊎ Rose (D.Disk.faults disk.old) (D.Disk.faults disk.new) }
{
    if loses(stop) {
        return stop;
    }
    match make_short(store, disk) {
        Ok(()) => stop,
        Err(other) => other,
    }
}
