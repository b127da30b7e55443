//! The last command of a run.

ghost use Rattle.std.specs.Prelude.{◌≡◌, ◌≤◌, ◌+◌, ℕ, List, length, false, Some, Err, IfOk, IfErr, OnOk, IsErrOf};
ghost use Rattle.std.specs.List.{AllByRecursion};
ghost use Rattle.ix_base.specs.Faults.{Rose};
ghost use Rattle.ix_base.specs.Told.{Told};
ghost use Rattle.ix_base.specs.declared.files.File.{File};
ghost use Rattle.ix_disk.specs.Image.{Image};
ghost use Rattle.ix_commit.specs.Contents.{Anyhow};
ghost use Rattle.ix_commit.specs.Snapshot.{LogsAtEnd};
ghost use Rattle.ix_model.specs.Given.{Chooser};
ghost use Rattle.ix_model.specs.declared.commands.TimedCommand.{TimedCommand};
ghost use Rattle.ix_run.specs.Resting.{CheckpointReady};
ghost use Rattle.ix_run.specs.Running.{outset};
ghost use Rattle.ix_store.specs.Holding.{Represents, IsAnswer};
ghost use Rattle.indexd_run.specs.Blamed.{ReadsBad};
ghost use Rattle.indexd_run.specs.Ends.{IsLeft, Ends, Only, AtMost};
ghost use Rattle.indexd_run.specs.Stops.{loses, loses_in, is_output, is_input, Caused};

use crate::stop::{Stop, of_give};
use ix_disk::Disk;
use ix_model::{Accepted, Command};
use ix_run::give_last;
use ix_store::{Listing, Store};

/// Gives a command to a store of which all is committed, and commits it.
pub fn run_last<M: Listing + Drop, D: Disk>(
    store: &mut Store<M>,
    disk: &mut D,
    command: Command,
    moment: i64,
) -> Result<Accepted, Stop>
    requires over { LogsAtEnd D.Disk store.old.committer disk.old }
    requires takes { M.takes (record { command = command; moment = moment }) }
    // The command is behind the others, and all are committed.
    ensures left { OnOk result ((choose : Chooser) (history : List TimedCommand) (base : ℕ) → M.is_chooser choose →
        AllByRecursion M.takes history → Represents D.Disk M.Book.fits M.holds choose history base (length history) store.old disk.old →
        IsLeft D.Disk M.Book.fits M.holds (outset choose history base (length history) store.old.run disk.old)
        (Only (record { command = command; moment = moment })) store.new disk.new) }
    ensures answers { IfOk result (λ answer. (choose : Chooser) (history : List TimedCommand) (base : ℕ) → M.is_chooser choose →
        AllByRecursion M.takes history →
        Represents D.Disk M.Book.fits M.holds choose history base (length history) store.old disk.old →
        IsAnswer store.old.run store.old.drawn choose history (record { command = command; moment = moment }) answer) }
    // A stop is the end of a run: what was accepted is committed, unless the disk is at fault. In
    // no case is anything of before lost.
    ensures stopped { IfErr result (λ stop. (choose : Chooser) (history : List TimedCommand) (base : ℕ) → M.is_chooser choose →
        AllByRecursion M.takes history → Represents D.Disk M.Book.fits M.holds choose history base (length history) store.old disk.old →
        Ends (loses stop) D.Disk M.Book.fits M.holds (outset choose history base (length history) store.old.run disk.old)
        (AtMost (record { command = command; moment = moment })) store.new disk.new) }
    // It has a cause.
    ensures caused { IfErr result (λ stop. (choose : Chooser) (history : List TimedCommand) (base : ℕ) → M.is_chooser choose →
        AllByRecursion M.takes history →
        Represents D.Disk M.Book.fits M.holds choose history base (length history) store.old disk.old →
        Caused choose store.old.drawn history (record { command = command; moment = moment }) stop) }
    ensures over { OnOk result (LogsAtEnd D.Disk store.new.committer disk.new) }
    ensures run { store.new.run ≡ store.old.run }
    // What the end of a run asks for, unless the disk is at fault.
    ensures rest { loses_in result ≡ false → CheckpointReady D.Disk store.old.committer disk.old →
        CheckpointReady D.Disk store.new.committer disk.new }
    // A disk that keeps what was committed is not damaged.
    ensures undamaged { (file : File) (at : ℕ) → result ≡ Err (Stop.Damaged file at) →
        (choose : Chooser) (history : List TimedCommand) (base : ℕ) → M.is_chooser choose →
        AllByRecursion M.takes history → Represents D.Disk M.Book.fits M.holds choose history base (length history) store.old disk.old →
        (image : Image) → D.Disk.seen disk.new ≡ Some image → ⊥ }
    // Damage is named as the disk reads, whatever was committed.
    ensures placed { (file : File) (at : ℕ) → result ≡ Err (Stop.Damaged file at) → ReadsBad D.Disk disk.new file at }
    // A disk that tells what it reads goes on telling.
    ensures told { Told Anyhow (D.Disk.seen disk.old) (D.Disk.seen disk.new) }
    ensures later { D.Disk.faults disk.old ≤ D.Disk.faults disk.new }
    ensures cause { IsErrOf result Stop.Disk → Rose (D.Disk.faults disk.old) (D.Disk.faults disk.new) }
    ensures quiet { IfErr result (λ stop. is_output stop ≡ false) }
    ensures unread { IfErr result (λ stop. is_input stop ≡ false) }
{
    match give_last(store, disk, command, moment) {
        Ok(answer) => Ok(answer),
        Err(fault) => Err(of_give(fault)),
    }
}
