//! Commands are given to a store. Each command of the program gives its own so.

ghost use Rattle.std.specs.Prelude.{◌≡◌, ◌≤◌, ℕ, List, [], length, true, Some, Err, IfOk, IfErr, OnOk, OnErr};
ghost use Rattle.std.specs.List.{AllByRecursion};
ghost use Rattle.ix_base.specs.Faults.{Rose};
ghost use Rattle.ix_base.specs.Told.{Told};
ghost use Rattle.ix_base.specs.declared.files.File.{File};
ghost use Rattle.ix_disk.specs.Image.{Image};
ghost use Rattle.ix_commit.specs.Contents.{Anyhow};
ghost use Rattle.ix_commit.specs.Snapshot.{LogsAtEnd, KnowsLogLength};
ghost use Rattle.ix_model.specs.Given.{Chooser};
ghost use Rattle.ix_model.specs.declared.answers.Refusal.{Refusal as Refused};
ghost use Rattle.ix_model.specs.declared.commands.TimedCommand.{TimedCommand};
ghost use Rattle.ix_run.specs.Placed.{ReadsEnd};
ghost use Rattle.ix_run.specs.Resting.{CheckpointReady};
ghost use Rattle.ix_run.specs.Running.{AlwaysRecoverable, HasSettled, IsGiven, IsNotGiven, outset};
ghost use Rattle.ix_store.specs.Holding.{Represents, IsUnchanged};

use crate::shortening::shorten;
use ix_commit::CommitFault;
use ix_disk::Disk;
use ix_manifest::CheckpointFault;
use ix_model::{Accepted, Command, Refusal};
use ix_store::{Listing, Store, StoreMemory};
use thiserror::Error;

/// Why a command was not given, or was not kept.
#[derive(Clone, Copy, Debug, PartialEq, Eq, Error)]
pub enum GiveFault {
    /// The store refused it; store and disk are as they were.
    #[error("the store refused it: {0}")]
    Refused(Refusal),
    /// The store accepted it, and the disk failed at the commit. The store is closed.
    #[error("the commit failed: {0}")]
    Commit(CommitFault),
}

/// Commits what is accepted, where that is due, and makes the log short then where it is long. If
/// there is no room in memory for that, a later commit or the end of the run does it.
fn commit_due<M: Listing + Drop, D: Disk>(
    store: &mut Store<M>,
    disk: &mut D,
) -> Result<(), CommitFault>
    requires { LogsAtEnd D.Disk store.old.committer disk.old }
    ensures gone { OnOk result ((choose : Chooser) (history : List TimedCommand) (base k : ℕ) → M.is_chooser choose →
        AllByRecursion M.takes history →
        Represents D.Disk M.Book.fits M.holds choose history base k store.old disk.old →
        HasSettled D.Disk M.Book.fits M.holds (outset choose history base k store.old.run disk.old) [] store.new disk.new) }
    ensures stood { (choose : Chooser) (history : List TimedCommand) (base k : ℕ) → M.is_chooser choose → AllByRecursion M.takes history →
        Represents D.Disk M.Book.fits M.holds choose history base k store.old disk.old →
        AlwaysRecoverable D.Disk M.Book.fits store.old.run choose history k disk.old disk.new }
    ensures over { OnOk result (LogsAtEnd D.Disk store.new.committer disk.new) }
    ensures measured { KnowsLogLength D.Disk store.old.committer disk.old →
        OnOk result (KnowsLogLength D.Disk store.new.committer disk.new) }
    ensures closed { OnErr result (store.new.committer.closed ≡ true) }
    ensures run { store.new.run ≡ store.old.run }
    ensures undamaged { (file : File) (at : ℕ) → result ≡ Err (CommitFault.Damaged file at) →
        (choose : Chooser) (history : List TimedCommand) (base k : ℕ) →
        Represents D.Disk M.Book.fits M.holds choose history base k store.old disk.old → (image : Image) →
        D.Disk.seen disk.new ≡ Some image → ⊥ }
    ensures placed { (file : File) (at : ℕ) → result ≡ Err (CommitFault.Damaged file at) → ReadsEnd D.Disk disk.new file at }
    // A disk that tells what it reads goes on telling.
    ensures told { Told Anyhow (D.Disk.seen disk.old) (D.Disk.seen disk.new) }
    ensures later { D.Disk.faults disk.old ≤ D.Disk.faults disk.new }
    ensures cause { IfErr result (λ fault. fault ≡ CommitFault.Disk → Rose (D.Disk.faults disk.old) (D.Disk.faults disk.new)) }
{
    let due = store.due();
    if !due {
        return Ok(());
    }
    store.commit(disk)?;
    match shorten(store, disk) {
        Ok(()) => Ok(()),
        // What is committed stays so, and the long log is still the current one.
        Err(CheckpointFault::NoMemory) => Ok(()),
        Err(CheckpointFault::Disk) => Err(CommitFault::Disk),
    }
}

/// Gives a command to the store, and commits all that is accepted where that is due. Where the log
/// has grown long then, it is made short.
pub fn give<M: Listing + Drop, D: Disk>(
    store: &mut Store<M>,
    disk: &mut D,
    command: Command,
    moment: i64,
) -> Result<Accepted, GiveFault>
    requires over { LogsAtEnd D.Disk store.old.committer disk.old }
    requires takes { M.takes (record { command = command; moment = moment }) }
    // An accepted command is behind the others, what was committed still is, and what is not is not
    // due.
    ensures given { IfOk result (λ answer. (choose : Chooser) (history : List TimedCommand) (base k : ℕ) → M.is_chooser choose →
        AllByRecursion M.takes history →
        Represents D.Disk M.Book.fits M.holds choose history base k store.old disk.old →
        IsGiven D.Disk M.Book.fits M.holds (outset choose history base k store.old.run disk.old)
        (record { command = command; moment = moment }) store.old.drawn answer store.new disk.new) }
    // A refused one has its cause, and leaves all as it was. Where the disk fails every image
    // stands for a prefix.
    ensures fault { IfErr result (λ fault. (choose : Chooser) (history : List TimedCommand) (base k : ℕ) → M.is_chooser choose →
        AllByRecursion M.takes history →
        Represents D.Disk M.Book.fits M.holds choose history base k store.old disk.old →
        IsNotGiven D.Disk M.Book.fits M.holds (outset choose history base k store.old.run disk.old)
        (record { command = command; moment = moment }) store.old.drawn fault store.new disk.new) }
    ensures over { OnOk result (LogsAtEnd D.Disk store.new.committer disk.new) }
    ensures still { IfErr result (λ fault. (refusal : Refused) → fault ≡ GiveFault.Refused refusal →
        LogsAtEnd D.Disk store.new.committer disk.new) }
    ensures unchanged { IfErr result (λ fault. (refusal : Refused) → fault ≡ GiveFault.Refused refusal → IsUnchanged store.old store.new
        × (disk.new ≡ disk.old)) }
    // The run goes on, and the committer goes on to know how long its log is.
    ensures run { store.new.run ≡ store.old.run }
    ensures measured { KnowsLogLength D.Disk store.old.committer disk.old →
        OnOk result (KnowsLogLength D.Disk store.new.committer disk.new) }
    // A disk that keeps what was committed is not damaged.
    ensures undamaged { (file : File) (at : ℕ) → result ≡ Err (GiveFault.Commit (CommitFault.Damaged file at)) →
        (choose : Chooser) (history : List TimedCommand) (base k : ℕ) → M.is_chooser choose →
        AllByRecursion M.takes history → Represents D.Disk M.Book.fits M.holds choose history base k store.old disk.old → (image : Image) →
        D.Disk.seen disk.new ≡ Some image → ⊥ }
    // Damage is where the named file ends, as the disk reads, whatever was committed.
    ensures placed { (file : File) (at : ℕ) → result ≡ Err (GiveFault.Commit (CommitFault.Damaged file at)) →
        ReadsEnd D.Disk disk.new file at }
    // A disk that tells what it reads goes on telling.
    ensures told { Told Anyhow (D.Disk.seen disk.old) (D.Disk.seen disk.new) }
    ensures later { D.Disk.faults disk.old ≤ D.Disk.faults disk.new }
    ensures cause { IfErr result (λ fault. fault ≡ GiveFault.Commit CommitFault.Disk →
        Rose (D.Disk.faults disk.old) (D.Disk.faults disk.new)) }
{
    let answer = match store.accept(command, moment) {
        Ok(answer) => answer,
        Err(refusal) => return Err(GiveFault::Refused(refusal)),
    };
    match commit_due(store, disk) {
        Ok(()) => Ok(answer),
        Err(fault) => Err(GiveFault::Commit(fault)),
    }
}

/// Commits all that is accepted. A run that changes a store ends with it.
pub fn commit_all<M: StoreMemory + Drop, D: Disk>(
    store: &mut Store<M>,
    disk: &mut D,
) -> Result<(), CommitFault>
    requires { LogsAtEnd D.Disk store.old.committer disk.old }
    ensures done { OnOk result ((choose : Chooser) (history : List TimedCommand) (base k : ℕ) →
        Represents D.Disk M.Book.fits M.holds choose history base k store.old disk.old →
        Represents D.Disk M.Book.fits M.holds choose history base (length history) store.new disk.new) }
    ensures stood { (choose : Chooser) (history : List TimedCommand) (base k : ℕ) →
        Represents D.Disk M.Book.fits M.holds choose history base k store.old disk.old →
        AlwaysRecoverable D.Disk M.Book.fits store.old.run choose history k disk.old disk.new }
    ensures over { OnOk result (LogsAtEnd D.Disk store.new.committer disk.new) }
    ensures run { store.new.run ≡ store.old.run }
    // What `shorten` asks for.
    ensures rest { KnowsLogLength D.Disk store.old.committer disk.old → OnOk result (CheckpointReady D.Disk store.new.committer disk.new) }
    // A disk that keeps what was committed is not damaged.
    ensures undamaged { (file : File) (at : ℕ) → result ≡ Err (CommitFault.Damaged file at) →
        (choose : Chooser) (history : List TimedCommand) (base k : ℕ) →
        Represents D.Disk M.Book.fits M.holds choose history base k store.old disk.old → (image : Image) →
        D.Disk.seen disk.new ≡ Some image → ⊥ }
    // Damage is where the named file ends, as the disk reads, whatever was committed.
    ensures placed { (file : File) (at : ℕ) → result ≡ Err (CommitFault.Damaged file at) → ReadsEnd D.Disk disk.new file at }
    // A disk that tells what it reads goes on telling.
    ensures told { Told Anyhow (D.Disk.seen disk.old) (D.Disk.seen disk.new) }
    ensures later { D.Disk.faults disk.old ≤ D.Disk.faults disk.new }
    ensures cause { IfErr result (λ fault. fault ≡ CommitFault.Disk → Rose (D.Disk.faults disk.old) (D.Disk.faults disk.new)) }
{
    store.commit(disk)
}
