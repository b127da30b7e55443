//! Laws of stores, without code: each is the contract of a function that does nothing. The program
//! stands on them.

ghost use Rattle.std.specs.Prelude.{◌≤◌, ℕ, List, length, take};
ghost use Rattle.std.specs.List.{AllByRecursion};
ghost use Rattle.ix_disk.specs.Image.{Image};
ghost use Rattle.ix_commit.specs.Undo.{HasSameLogs};
ghost use Rattle.ix_model.specs.Given.{Chooser};
ghost use Rattle.ix_model.specs.declared.commands.TimedCommand.{TimedCommand};
ghost use Rattle.ix_store.specs.Holding.{Represents, RepresentsStaged};
ghost use Rattle.ix_store.specs.Making.{with_order};
ghost use Rattle.ix_store.specs.Written.{RecoversTo, RecoversToPrefix};
ghost use Rattle.ix_store.specs.declared.store.Store.{Store};

use crate::memory::StoreMemory;
use ix_disk::Disk;

/// An image that stands for a run and a prefix is one from which a mount reads a prefix with as
/// many commands, and that run or a later one.
pub fn prefixes_stand<M: StoreMemory>()
    ensures { (run : ℕ) (choose : Chooser) (history : List TimedCommand) (k count : ℕ) (image : Image) → k ≤ count →
        count ≤ length history →
        RecoversTo M.Book.fits run choose (take count history) image → RecoversToPrefix M.Book.fits run choose history k image }
{}

/// What stands for so many commands, and a run or a later one, stands for fewer, and for an earlier
/// run or a later one.
pub fn fewer_stand<M: StoreMemory>()
    ensures { (least run : ℕ) (choose : Chooser) (history : List TimedCommand) (k count : ℕ) (image : Image) → least ≤ run → k ≤ count →
        RecoversToPrefix M.Book.fits run choose history count image → RecoversToPrefix M.Book.fits least choose history k image }
{}

/// Every image of a disk that a store holds a history with stands for the commands that are
/// committed.
pub fn what_is_held_stands<D: Disk, M: StoreMemory + Drop>()
    ensures { (choose : Chooser) (history : List TimedCommand) (base k : ℕ) (store : Store M) (disk : D) →
        Represents D.Disk M.Book.fits M.holds choose history base k store disk →
        (image : Image) → D.Disk.may_leave disk image → RecoversTo M.Book.fits store.run choose (take k history) image }
{}

/// What a store holds with a disk behind an accepted command, of whose answer the disk is no part.
pub fn accepted_is_held<D: Disk, M: StoreMemory + Drop>()
    ensures { (choose : Chooser) (before history : List TimedCommand) (base k : ℕ) (old store : Store M) (disk : D) →
        (hold : Represents D.Disk M.Book.fits M.holds choose before base k old disk) → HasSameLogs old.committer store.committer →
        RepresentsStaged M.Book.fits M.holds choose history base k store hold.old →
        Represents D.Disk M.Book.fits M.holds choose history base k store disk }
{}

/// A history stays one of commands that are taken, with what an accepted one adds.
pub fn given_are_taken<M: StoreMemory>()
    ensures { (choose : Chooser) (history : List TimedCommand) (order : TimedCommand) → AllByRecursion M.takes history → M.takes order →
        AllByRecursion M.takes (with_order choose history order) }
{}
