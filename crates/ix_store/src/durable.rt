//! A store is committed, and mounted again behind a stop. The program calls both.

ghost use Rattle.std.specs.Prelude.{◌≡◌, ◌≤◌, ◌<◌, ◌⊎◌, ℕ, List, length, take, true, false, Some, Ok, Err, IfOk, OnOk, OnErr, IsErrOf};
ghost use Rattle.std.specs.List.{AllByRecursion};
ghost use Rattle.ix_base.specs.Faults.{Rose};
ghost use Rattle.ix_base.specs.Told.{Told};
ghost use Rattle.ix_base.specs.declared.files.File.{File};
ghost use Rattle.ix_disk.specs.Image.{Image, bytes_in, Stays};
ghost use Rattle.ix_disk.specs.Moments.{ImagesStep, Always};
ghost use Rattle.ix_commit.specs.Committing.{IsShort};
ghost use Rattle.ix_commit.specs.Contents.{Anyhow};
ghost use Rattle.ix_manifest.specs.Book.{empty, removals_in, replay};
ghost use Rattle.ix_manifest.specs.Slots.{items_of};
ghost use Rattle.ix_commit.specs.Reads.{HasNoRun, ReadsNone};
ghost use Rattle.ix_commit.specs.Snapshot.{LogsAtEnd, NothingStaged, KnowsLogLength, log_of};
ghost use Rattle.ix_model.specs.Given.{Chooser};
ghost use Rattle.ix_model.specs.Step.{state_after};
ghost use Rattle.ix_model.specs.declared.commands.TimedCommand.{TimedCommand};
ghost use Rattle.ix_store.specs.Finding.{IsBadStore};
ghost use Rattle.ix_store.specs.Remembering.{SaysHistory};
ghost use Rattle.ix_store.specs.Written.{AreGone, IsNextRun, RecoversTo, RecoversToPrefix};

use crate::fault::{MountFault, fault_of};
use crate::finding::blame;
use crate::group::CommitGroup;
use crate::memory::{BookFault, StoreMemory};
use crate::store::Store;
use ix_commit::{CommitFault, commit, finish_mount, prepare_mount};
use ix_disk::Disk;
use ix_manifest::ManifestState;
use std::alloc::Global;

impl<M: StoreMemory + Drop> Store<M> {
    ghost use Rattle.ix_store.specs.Holding.{Represents, IsMounted};

    /// Makes all accepted commands durable. It takes no memory. After a fault the store accepts no
    /// command: it is to be mounted again.
    pub fn commit<D: Disk>(&mut self, disk: &mut D) -> Result<(), CommitFault>
        requires { LogsAtEnd D.Disk self.old.committer disk.old }
        // Every image since the start stands for the committed commands, or for all.
        ensures images { (choose : Chooser) (history : List TimedCommand) (base k : ℕ) →
            Represents D.Disk M.Book.fits M.holds choose history base k self.old disk.old →
            Always D.Disk disk.old disk.new (λ image. RecoversTo M.Book.fits self.old.run choose (take k history) image
            ⊎ RecoversTo M.Book.fits self.old.run choose history image) }
        // After Ok all are committed.
        ensures done { (choose : Chooser) (history : List TimedCommand) (base k : ℕ) →
            Represents D.Disk M.Book.fits M.holds choose history base k self.old disk.old →
            OnOk result (Represents D.Disk M.Book.fits M.holds choose history base (length history) self.new disk.new) }
        // Where nothing is staged, nothing is done.
        ensures none { NothingStaged self.old.committer → (result ≡ Ok tt) × (disk.new ≡ disk.old) }
        // What the next commit and a checkpoint ask for.
        ensures over { OnOk result (LogsAtEnd D.Disk self.new.committer disk.new) }
        ensures idle { OnOk result (NothingStaged self.new.committer) }
        ensures measured { (NothingStaged self.old.committer → KnowsLogLength D.Disk self.old.committer disk.old) →
            OnOk result (KnowsLogLength D.Disk self.new.committer disk.new) }
        // Then the files that were superseded are gone, as the disk reads: those that the staged
        // removals name.
        ensures removed { OnOk result (ReadsNone D.Disk disk.new (log_of self.old.committer)
            (removals_in (replay (items_of self.old.committer.slots) empty))) }
        // They are all that went with these commands: of what a bucket or an archive has no more,
        // nothing is left.
        ensures gone { (choose : Chooser) (history : List TimedCommand) (base k : ℕ) →
            Represents D.Disk M.Book.fits M.holds choose history base k self.old disk.old →
            OnOk result (AreGone D.Disk disk.new (state_after choose (take k history)).catalog (state_after choose history).catalog) }
        ensures run { self.new.run ≡ self.old.run }
        ensures memory { self.new.memory ≡ self.old.memory }
        ensures closed { OnErr result (self.new.committer.closed ≡ true) }
        // The named file, a bucket's or an archive's, has so many bytes, fewer than were committed.
        ensures damaged { (file : File) (at : ℕ) → result ≡ Err (CommitFault.Damaged file at) →
            IsShort self.old.committer.parts self.old.committer.copies file at
            × ((image : Image) → D.Disk.seen disk.new ≡ Some image → at ≡ length (bytes_in image file)) }
        // A disk that keeps what was committed is not damaged.
        ensures undamaged { (file : File) (at : ℕ) → result ≡ Err (CommitFault.Damaged file at) →
            (choose : Chooser) (history : List TimedCommand) (base k : ℕ) →
            Represents D.Disk M.Book.fits M.holds choose history base k self.old disk.old → (image : Image) →
            D.Disk.seen disk.new ≡ Some image → ⊥ }
        // A disk that tells what it reads goes on telling.
        ensures told { Told Anyhow (D.Disk.seen disk.old) (D.Disk.seen disk.new) }
        ensures later { D.Disk.faults disk.old ≤ D.Disk.faults disk.new }
        ensures cause { IsErrOf result CommitFault.Disk → Rose (D.Disk.faults disk.old) (D.Disk.faults disk.new) }
    {
        commit::<D, M::Book>(&mut self.committer, disk)?;
        self.committed = self.drawn;
        self.group = CommitGroup::none(self.alloc);
        Ok(())
    }

    /// Mounts the store that a disk keeps, or begins a new one on an empty disk, and begins the
    /// next run. It reads the log, loads the settings and goes on with the open channels; then it
    /// removes again the files that the last removals name, and then it writes the next run.
    pub fn mount<D: Disk>(alloc: Global, disk: &mut D) -> Result<Store<M>, MountFault>
        // Where every image at the start stands for a prefix with at least k commands, and for this
        // run or a later one, every image since does.
        ensures images { (choose : Chooser) (history : List TimedCommand) (run k : ℕ) →
            ((image : Image) → D.Disk.may_leave disk.old image → RecoversToPrefix M.Book.fits run choose history k image) →
            Always D.Disk disk.old disk.new (RecoversToPrefix M.Book.fits run choose history k) }
        // At Ok store and disk hold the prefix for which the disk's own reading stands, in the run
        // behind the one that was found.
        ensures mounted { IfOk result (λ store. (choose : Chooser) (history : List TimedCommand) (run k : ℕ) → M.is_chooser choose →
            AllByRecursion M.takes history →
            ((image : Image) → D.Disk.may_leave disk.old image → RecoversToPrefix M.Book.fits run choose history k image) →
            (image : Image) → D.Disk.seen disk.old ≡ Some image →
            IsMounted D.Disk M.Book.fits M.holds choose history k image store disk.new) }
        // That is a later run than each of those.
        ensures above { IfOk result (λ store. (choose : Chooser) (history : List TimedCommand) (run k : ℕ) →
            ((image : Image) → D.Disk.may_leave disk.old image → RecoversToPrefix M.Book.fits run choose history k image) →
            (image : Image) → D.Disk.seen disk.old ≡ Some image →
            run < store.run) }
        // The run is the one behind that which the disk's own reading keeps, whatever history that
        // stands for.
        ensures number { IfOk result (λ store. (image : Image) → D.Disk.seen disk.old ≡ Some image →
            IsNextRun M.Book.fits store.run image) }
        // Where the logs say what a history leaves, memory holds that, whatever the files of buckets
        // hold.
        ensures recalled { IfOk result (λ store. (choose : Chooser) (history : List TimedCommand) (image : Image) →
            M.is_chooser choose → AllByRecursion M.takes history → D.Disk.seen disk.old ≡ Some image →
            SaysHistory M.Book.fits choose history image → M.holds choose history store.memory) }
        // What a commit and a checkpoint ask for.
        ensures over { IfOk result (λ store. LogsAtEnd D.Disk store.committer disk.new) }
        ensures idle { IfOk result (λ store. NothingStaged store.committer) }
        ensures measured { IfOk result (λ store. KnowsLogLength D.Disk store.committer disk.new) }
        // A disk that tells what it reads goes on telling.
        ensures told { Told Anyhow (D.Disk.seen disk.old) (D.Disk.seen disk.new) }
        // It names the gate of the first bad body of the root log or the current one, as the disk
        // reads; where all bodies count, that of the last one that says the settings or the channel
        // of which no state comes.
        ensures damaged { (named : File) (at : ℕ) → result ≡ Err (MountFault.Damaged named at) → (image : Image) →
            D.Disk.seen disk.old ≡ Some image →
            IsBadStore M.Book.fits M.gives_none named at image }
        // A disk of whose every image some commands may be read is not damaged.
        ensures undamaged { (named : File) (at : ℕ) → result ≡ Err (MountFault.Damaged named at) →
            (choose : Chooser) (history : List TimedCommand) (run k : ℕ) →
            M.is_chooser choose → AllByRecursion M.takes history →
            ((image : Image) → D.Disk.may_leave disk.old image → RecoversToPrefix M.Book.fits run choose history k image) →
            (image : Image) → D.Disk.seen disk.old ≡ Some image → ⊥ }
        // A store that is damaged is left as it was.
        ensures left { (named : File) (at : ℕ) → result ≡ Err (MountFault.Damaged named at) →
            (D.Disk.seen disk.new ≡ D.Disk.seen disk.old) × ImagesStep D.Disk disk.old disk.new Stays }
        // Full comes exactly where no further run has a number, or there is no room for it, as the
        // disk reads, unless another fault or want of memory comes first.
        ensures full { IsErrOf result MountFault.Full → (image : Image) → D.Disk.seen disk.old ≡ Some image → HasNoRun M.Book.fits image }
        ensures begun { OnOk result ((image : Image) → D.Disk.seen disk.old ≡ Some image → HasNoRun M.Book.fits image → ⊥) }
        // Damage comes before it: a store that is full has none.
        ensures sound { IsErrOf result MountFault.Full → (image : Image) → D.Disk.seen disk.old ≡ Some image → (named : File) (at : ℕ) →
            IsBadStore M.Book.fits M.gives_none named at image → ⊥ }
        ensures later { D.Disk.faults disk.old ≤ D.Disk.faults disk.new }
        ensures cause { IsErrOf result MountFault.Disk → Rose (D.Disk.faults disk.old) (D.Disk.faults disk.new) }
    {
        let mut book = M::blank(alloc);
        let pending = match prepare_mount(alloc, disk, &mut book) {
            Ok(pending) => pending,
            Err(fault) => return Err(fault_of(fault)),
        };
        let run = book.run();
        let memory = match M::from_book(alloc, book) {
            Ok(memory) => memory,
            Err(BookFault::Bad { subject }) => {
                return Err(blame(alloc, disk, pending.current(), &subject));
            }
            Err(BookFault::NoMemory) => return Err(MountFault::NoMemory),
        };
        match finish_mount::<D, M::Book>(pending, disk) {
            Ok(committer) => Ok(Store {
                alloc,
                memory,
                committer,
                run,
                drawn: 0,
                committed: 0,
                group: CommitGroup::none(alloc),
                closed: false,
            }),
            Err(fault) => Err(fault_of(fault)),
        }
    }
}
