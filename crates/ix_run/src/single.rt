//! A command that is the last of its run: `roll`, `tick`, `thaw` and a change of settings give
//! theirs so.

ghost use Rattle.std.specs.Prelude.{◌≡◌, ◌≤◌, ℕ, List, [], ◌∷◌, Some, Err, IfOk, IfErr, OnOk};
ghost use Rattle.std.specs.List.{AllByRecursion};
ghost use Rattle.ix_base.specs.Faults.{Rose};
ghost use Rattle.ix_base.specs.Told.{Told};
ghost use Rattle.ix_base.specs.declared.files.File.{File};
ghost use Rattle.ix_disk.specs.Image.{Image};
ghost use Rattle.ix_commit.specs.Contents.{Anyhow};
ghost use Rattle.ix_commit.specs.Snapshot.{LogsAtEnd, KnowsLogLength};
ghost use Rattle.ix_model.specs.Given.{Chooser};
ghost use Rattle.ix_model.specs.declared.answers.Refusal.{Refusal as Refused};
ghost use Rattle.ix_model.specs.declared.commands.TimedCommand.{TimedCommand};
ghost use Rattle.ix_run.specs.Giving.{IsKept};
ghost use Rattle.ix_run.specs.Placed.{ReadsEnd};
ghost use Rattle.ix_run.specs.Resting.{CheckpointReady};
ghost use Rattle.ix_run.specs.Running.{IsNotGiven, outset};
ghost use Rattle.ix_store.specs.Holding.{Represents, IsUnchanged};

use crate::giving::{GiveFault, commit_all, give};
use ix_commit::CommitFault;
use ix_disk::Disk;
use ix_model::{Accepted, Command};
use ix_store::{Listing, Store};

/// Gives a command to the store, and commits all that is accepted then.
pub fn give_last<M: Listing + Drop, D: Disk>(
    store: &mut Store<M>,
    disk: &mut D,
    command: Command,
    moment: i64,
) -> Result<Accepted, GiveFault>
    requires over { LogsAtEnd D.Disk store.old.committer disk.old }
    requires takes { M.takes (record { command = command; moment = moment }) }
    // The command is behind the others, and all are committed.
    ensures kept { IfOk result (λ answer. (choose : Chooser) (history : List TimedCommand) (base k : ℕ) → M.is_chooser choose →
        AllByRecursion M.takes history →
        Represents D.Disk M.Book.fits M.holds choose history base k store.old disk.old →
        IsKept D.Disk M.Book.fits M.holds (outset choose history base k store.old.run disk.old)
        (record { command = command; moment = moment }) store.old.drawn answer store.new disk.new) }
    ensures fault { IfErr result (λ fault. (choose : Chooser) (history : List TimedCommand) (base k : ℕ) → M.is_chooser choose →
        AllByRecursion M.takes history →
        Represents D.Disk M.Book.fits M.holds choose history base k store.old disk.old →
        IsNotGiven D.Disk M.Book.fits M.holds (outset choose history base k store.old.run disk.old)
        (record { command = command; moment = moment }) store.old.drawn fault store.new disk.new) }
    ensures over { OnOk result (LogsAtEnd D.Disk store.new.committer disk.new) }
    ensures run { store.new.run ≡ store.old.run }
    // What `shorten` asks for. A refused command leaves all as it was.
    ensures rest { KnowsLogLength D.Disk store.old.committer disk.old → OnOk result (CheckpointReady D.Disk store.new.committer disk.new) }
    ensures unchanged { IfErr result (λ fault. (refusal : Refused) → fault ≡ GiveFault.Refused refusal → IsUnchanged store.old store.new
        × (disk.new ≡ disk.old)) }
    // A disk that keeps what was committed is not damaged.
    ensures undamaged { (file : File) (at : ℕ) → result ≡ Err (GiveFault.Commit (CommitFault.Damaged file at)) →
        (choose : Chooser) (history : List TimedCommand) (base k : ℕ) → M.is_chooser choose →
        AllByRecursion M.takes history → Represents D.Disk M.Book.fits M.holds choose history base k store.old disk.old → (image : Image) →
        D.Disk.seen disk.new ≡ Some image → ⊥ }
    // Damage is where the named file ends, as the disk reads, whatever was committed.
    ensures placed { (file : File) (at : ℕ) → result ≡ Err (GiveFault.Commit (CommitFault.Damaged file at)) →
        ReadsEnd D.Disk disk.new file at }
    // A disk that tells what it reads goes on telling.
    ensures told { Told Anyhow (D.Disk.seen disk.old) (D.Disk.seen disk.new) }
    ensures later { D.Disk.faults disk.old ≤ D.Disk.faults disk.new }
    ensures cause { IfErr result (λ fault. fault ≡ GiveFault.Commit CommitFault.Disk →
        Rose (D.Disk.faults disk.old) (D.Disk.faults disk.new)) }
{
    let answer = give(store, disk, command, moment)?;
    match commit_all(store, disk) {
        Ok(()) => Ok(answer),
        Err(fault) => Err(GiveFault::Commit(fault)),
    }
}
