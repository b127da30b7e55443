//! Behind a reply what was accepted is made durable, and the log is made short. Those who serve
//! requests call both.

ghost use Rattle.std.specs.Prelude.{◌≡◌, ◌≤◌, ◌⊎◌, ℕ, List, length, nat_lt, true, Some, Err, IfOk, IfErr, OnOk, false, OnErr};
ghost use Rattle.std.specs.List.{AllByRecursion};
ghost use Rattle.ix_base.specs.Faults.{Rose};
ghost use Rattle.ix_base.specs.Told.{Told};
ghost use Rattle.ix_base.specs.declared.files.File.{File};
ghost use Rattle.ix_disk.specs.Image.{Image, bytes_in};
ghost use Rattle.ix_disk.specs.Moments.{Always};
ghost use Rattle.ix_commit.specs.Contents.{Anyhow};
ghost use Rattle.ix_commit.specs.Snapshot.{IsLong, KnowsLogLength, LogsAtEnd};
ghost use Rattle.ix_commit.specs.declared.fault.CommitFault.{CommitFault as CommitFaultOf};
ghost use Rattle.ix_model.specs.Given.{Chooser};
ghost use Rattle.ix_model.specs.declared.commands.TimedCommand.{TimedCommand};
ghost use Rattle.ix_serve.specs.Answer.{answer_of_fault};
ghost use Rattle.ix_serve.specs.Prefixes.{StandsIn};
ghost use Rattle.ix_serve.specs.Serving.{IsOpen, IsPlacedAtEnd, IsShort, IsTold, IsUndamaged, still_open};
ghost use Rattle.ix_store.specs.Holding.{Represents, is_closed};

use crate::served::{ServeFault, Served, answer_of_fault};
use ix_disk::Disk;
use ix_manifest::CheckpointFault;
use ix_store::{Listing, Store, StoreMemory};

/// Makes all accepted commands durable, behind what came of a request.
pub(crate) fn settle<M: StoreMemory + Drop, D: Disk>(
    store: &mut Store<M>,
    disk: &mut D,
    came: Result<Served, ServeFault>,
) -> Result<Served, ServeFault>
    requires over { LogsAtEnd D.Disk store.old.committer disk.old }
    requires open { IsOpen came }
    ensures done { (choose : Chooser) (history : List TimedCommand) (base k : ℕ) →
        Represents D.Disk M.Book.fits M.holds choose history base k store.old disk.old → IsOpen result →
        Represents D.Disk M.Book.fits M.holds choose history base (length history) store.new disk.new }
    ensures images { (choose : Chooser) (history : List TimedCommand) (base k : ℕ) →
        Represents D.Disk M.Book.fits M.holds choose history base k store.old disk.old →
        Always D.Disk disk.old disk.new (StandsIn M.Book.fits store.old.run choose history k) }
    ensures came { (result ≡ came) ⊎ ((cause : CommitFaultOf) × (result ≡ Err (answer_of_fault cause))) }
    ensures measured { KnowsLogLength D.Disk store.old.committer disk.old → IsOpen result →
        KnowsLogLength D.Disk store.new.committer disk.new }
    ensures closed { still_open result ≡ false → is_closed store.new ≡ true }
    ensures placed { IsPlacedAtEnd D.Disk disk.new result }
    ensures run { store.new.run ≡ store.old.run }
    ensures memory { store.new.memory ≡ store.old.memory }
    ensures told { IsTold D.Disk disk.old → IsTold D.Disk disk.new }
    ensures over { IsOpen result → LogsAtEnd D.Disk store.new.committer disk.new }
    ensures later { D.Disk.faults disk.old ≤ D.Disk.faults disk.new }
    ensures failed { result ≡ Err ServeFault.Disk → Rose (D.Disk.faults disk.old) (D.Disk.faults disk.new) }
    ensures undamaged { (choose : Chooser) (history : List TimedCommand) (base k : ℕ) →
        Represents D.Disk M.Book.fits M.holds choose history base k store.old disk.old → IsUndamaged D.Disk disk.new result }
{
    match store.commit(disk) {
        Ok(()) => came,
        Err(cause) => Err(answer_of_fault(cause)),
    }
}

/// Makes the log short by a checkpoint where it is long and nothing is staged. Answers whether it
/// is long still, since there was no room in memory for that.
pub(crate) fn shorten_behind<M: Listing + Drop, D: Disk>(
    store: &mut Store<M>,
    disk: &mut D,
) -> Result<bool, ServeFault>
    requires over { LogsAtEnd D.Disk store.old.committer disk.old }
    ensures images { (choose : Chooser) (history : List TimedCommand) (base k : ℕ) → M.is_chooser choose → AllByRecursion M.takes history →
        Represents D.Disk M.Book.fits M.holds choose history base k store.old disk.old →
        Always D.Disk disk.old disk.new (StandsIn M.Book.fits store.old.run choose history k) }
    ensures held { OnOk result ((choose : Chooser) (history : List TimedCommand) (base k : ℕ) → M.is_chooser choose →
        AllByRecursion M.takes history →
        Represents D.Disk M.Book.fits M.holds choose history base k store.old disk.old →
        Represents D.Disk M.Book.fits M.holds choose history base k store.new disk.new) }
    ensures short { IfOk result (λ unshortened. (choose : Chooser) (history : List TimedCommand) (base k : ℕ) →
        Represents D.Disk M.Book.fits M.holds choose history base k store.new disk.new →
        IsShort (nat_lt k (length history)) store.new.committer unshortened) }
    ensures long { IfOk result (λ unshortened. unshortened ≡ true → IsLong store.new.committer.bytes store.new.committer.first) }
    ensures cause { IfErr result (λ fault. (cause : CommitFaultOf) × (fault ≡ answer_of_fault cause)) }
    // Nothing is staged, so there is nothing in which damage would be met.
    ensures undamaged { IfErr result (λ fault. (choose : Chooser) (history : List TimedCommand) (base k : ℕ) →
        Represents D.Disk M.Book.fits M.holds choose history base k store.old disk.old → fault ≡ ServeFault.Disk) }
    ensures over { OnOk result (LogsAtEnd D.Disk store.new.committer disk.new) }
    ensures measured { KnowsLogLength D.Disk store.old.committer disk.old →
        OnOk result (KnowsLogLength D.Disk store.new.committer disk.new) }
    ensures closed { OnErr result (is_closed store.new ≡ true) }
    ensures placed { IfErr result (λ fault. (file : File) (at : ℕ) → fault ≡ ServeFault.Damaged file at → (image : Image) →
        D.Disk.seen disk.new ≡ Some image → at ≡ length (bytes_in image file)) }
    ensures run { store.new.run ≡ store.old.run }
    ensures memory { store.new.memory ≡ store.old.memory }
    ensures told { Told Anyhow (D.Disk.seen disk.old) (D.Disk.seen disk.new) }
    ensures later { D.Disk.faults disk.old ≤ D.Disk.faults disk.new }
    ensures failed { IfErr result (λ fault. fault ≡ ServeFault.Disk → Rose (D.Disk.faults disk.old) (D.Disk.faults disk.new)) }
{
    if store.staged() {
        return Ok(false);
    }
    let long = store.wants_checkpoint();
    if !long {
        return Ok(false);
    }
    // With nothing staged this does nothing. Behind it a checkpoint may follow.
    match store.commit(disk) {
        Ok(()) => {}
        Err(cause) => return Err(answer_of_fault(cause)),
    }
    match store.checkpoint(disk) {
        // Behind a checkpoint the log is not long,
        Ok(()) => Ok(store.wants_checkpoint()),
        // and where there was no room for one it is as long as it was.
        Err(CheckpointFault::NoMemory) => Ok(store.wants_checkpoint()),
        Err(CheckpointFault::Disk) => Err(ServeFault::Disk),
    }
}
