//! A checkpoint of a store: its log grows with each commit, and a checkpoint makes it short.
//! Whoever serves requests, or runs a command of the program, makes one where the log is long.

ghost use Rattle.std.specs.Prelude.{◌≡◌, ◌≤◌, ◌<◌, ◌-◌, ◌+◌, ◌^◌, ◌↔◌, ◌++◌, ℕ, Bool, List, [], ◌∷◌, length, Option, Some, IfOk, OnOk};
ghost use Rattle.std.specs.Prelude.{IsErrOf, IsTrue, true};
ghost use Rattle.std.specs.List.{AllByRecursion};
ghost use Rattle.ix_base.specs.Faults.{Rose};
ghost use Rattle.ix_base.specs.Told.{Told};
ghost use Rattle.ix_base.specs.declared.files.Area.TheVariants.{Meta};
ghost use Rattle.ix_base.specs.declared.files.File.{File};
ghost use Rattle.ix_disk.specs.Moments.{Always};
ghost use Rattle.ix_items.specs.Spelling.{body_bytes};
ghost use Rattle.ix_items.specs.declared.items.Item.{Item};
ghost use Rattle.ix_items.specs.declared.items.Item.TheVariants as items;
ghost use Rattle.ix_manifest.specs.Book.{empty, replay};
ghost use Rattle.ix_manifest.specs.Whole.{HasTold};
ghost use Rattle.ix_commit.specs.Contents.{Anyhow};
ghost use Rattle.ix_commit.specs.Shortening.{IsShortest};
ghost use Rattle.ix_commit.specs.Snapshot.{LogsAtEnd, NothingStaged, KnowsLogLength, IsLong};
ghost use Rattle.ix_model.specs.Given.{Chooser};
ghost use Rattle.ix_model.specs.declared.commands.TimedCommand.{TimedCommand};
ghost use Rattle.ix_model.specs.Snap.{snapshot_of};
ghost use Rattle.ix_store.specs.Written.{over, RecoversTo};
ghost use Rattle.ix_store.specs.Telling.{with_run};

use crate::memory::StoreMemory;
use crate::store::Store;
use ix_base::NoMemory;
use ix_commit::checkpoint;
use ix_disk::Disk;
use ix_items::Item;
use ix_manifest::{CheckpointFault, Whole};
use std::alloc::Global;
use thiserror::Error;

/// Why a walk over the items of a state does not begin.
#[derive(Clone, Copy, Debug, PartialEq, Eq, Error)]
pub enum ListFault {
    /// They have no room in one body of a log. Those of a state that commands lead to always have.
    #[error("the items have no room in one body of a log")]
    TooLong,
    /// There was no room in memory.
    #[error("there was no room in memory")]
    NoMemory,
}

/// A state in memory that tells its items, one by one, for a checkpoint.
pub trait Listing: StoreMemory {
    /// How far a walk over the items has come.
    type Walk: Drop;

    /// The items that are still to come.
    ghost ahead: { Self → Self.Walk → List Item };

    /// Whether a walk is one over this state, and each of its items can be written.
    ghost is_sound: { Self → Self.Walk → Bool };

    /// Begins a walk over the items of the state. Nothing is changed.
    fn walk(&self, alloc: Global) -> Result<Self::Walk, ListFault>
        // They lead to what the history has left in the log.
        ensures listed { IfOk result (λ walk. (choose : Chooser) (history : List TimedCommand) → Self.is_chooser choose →
            AllByRecursion Self.takes history → Self.holds choose history self.now →
            replay (ahead self.now walk) empty ≡ (snapshot_of choose history).book) }
        // They have room in one body, with the run and the last removals.
        ensures walks { IfOk result (λ walk. is_sound self.now walk ≡ true) }
        ensures short { IfOk result (λ walk. length (body_bytes (ahead self.now walk)) < 2 ^ 32 - 64) }
        ensures sound { IsErrOf result ListFault.TooLong → (choose : Chooser) (history : List TimedCommand) → Self.is_chooser choose →
            AllByRecursion Self.takes history → Self.holds choose history self.now → ⊥ };

    /// The next item, none behind the last one. After a fault the walk is not used again.
    fn next(&self, alloc: Global, walk: &mut Self::Walk) -> Result<Option<Item>, NoMemory>
        requires { is_sound self.now walk.old ≡ true }
        ensures walks { is_sound self.now walk.new ≡ true }
        ensures told { IfOk result (λ item. HasTold item (ahead self.now walk.old) (ahead self.now walk.new)) };

    /// What fits still does where the one file that is done with is that of a log.
    ghost fits_with_log: { (choose : Chooser) (history : List TimedCommand) (run : ℕ) (removed : Option Item) (log : File) →
        log.area ≡ Meta → log.number < 2 ^ 63 →
        Self.Book.fits (over run removed (snapshot_of choose history).book) →
        Self.Book.fits (over run (Some (items.Removals (log ∷ []))) (snapshot_of choose history).book) };
}

/// A walk over the items of a state, and behind them the run that writes them.
#[derive(Drop)]
struct Telling<'a, M: Listing> {
    memory: &'a M,
    walk: M::Walk,
    /// The run, as long as it was not told.
    run: Option<u64>,
    ghost sound: { M.is_sound memory.now walk ≡ true },
}

impl<M: Listing> Whole for Telling<'_, M> {
    ghost left = { λ telling. with_run telling.run (M.ahead telling.memory.now telling.walk) };

    fn next(&mut self, alloc: Global) -> Result<Option<Item>, NoMemory> {
        if let Some(item) = self.memory.next(alloc, &mut self.walk)? {
            return Ok(Some(item));
        }
        match self.run.take() {
            Some(run) => Ok(Some(Item::Run { run })),
            None => Ok(None),
        }
    }
}

impl<M: Listing + Drop> Store<M> {
    ghost use Rattle.ix_store.specs.Holding.{Represents};

    /// Whether the current log is long: it has at least 8,388,608 bytes, and at least twice those
    /// of its first body. Then a checkpoint makes it shorter.
    pub fn wants_checkpoint(&self) -> bool
        ensures { IsTrue result ↔ IsLong self.now.committer.bytes self.now.committer.first }
    {
        self.committer.wants_checkpoint()
    }

    /// Makes the current log short: writes the whole state as the one body of a further log, which
    /// is the current one from then on, and removes the old one. All commands are committed before,
    /// and none is staged. After `NoMemory` the store is as it was, and the old log is the current
    /// one. After `Disk` the store is closed.
    pub fn checkpoint<D: Disk>(&mut self, disk: &mut D) -> Result<(), CheckpointFault>
        requires over { LogsAtEnd D.Disk self.old.committer disk.old }
        requires idle { NothingStaged self.old.committer }
        // Every image since the start stands for all commands.
        ensures images { (choose : Chooser) (history : List TimedCommand) (base : ℕ) → M.is_chooser choose →
            AllByRecursion M.takes history →
            Represents D.Disk M.Book.fits M.holds choose history base (length history) self.old disk.old →
            Always D.Disk disk.old disk.new (RecoversTo M.Book.fits self.old.run choose history) }
        // After Ok store and disk hold them, in the new log.
        ensures done { (choose : Chooser) (history : List TimedCommand) (base : ℕ) → M.is_chooser choose → AllByRecursion M.takes history →
            Represents D.Disk M.Book.fits M.holds choose history base (length history) self.old disk.old →
            OnOk result (Represents D.Disk M.Book.fits M.holds choose history base (length history) self.new disk.new) }
        // It has one body, and 6 bytes more than that has.
        ensures shortest { OnOk result (IsShortest D.Disk self.new.committer disk.new) }
        // What the next commit and the next checkpoint ask for.
        ensures over { OnOk result (LogsAtEnd D.Disk self.new.committer disk.new) }
        ensures idle { OnOk result (NothingStaged self.new.committer) }
        ensures measured { OnOk result (KnowsLogLength D.Disk self.new.committer disk.new) }
        // For want of memory all is as it was: the store holds what it held, and may go on.
        ensures memory { IsErrOf result CheckpointFault.NoMemory → self.new ≡ self.old }
        ensures held_still { IsErrOf result CheckpointFault.NoMemory → (choose : Chooser) (history : List TimedCommand) (base : ℕ) →
            M.is_chooser choose → AllByRecursion M.takes history →
            Represents D.Disk M.Book.fits M.holds choose history base (length history) self.old disk.old →
            Represents D.Disk M.Book.fits M.holds choose history base (length history) self.new disk.new }
        ensures over_still { IsErrOf result CheckpointFault.NoMemory → LogsAtEnd D.Disk self.new.committer disk.new }
        ensures measured_still { IsErrOf result CheckpointFault.NoMemory → KnowsLogLength D.Disk self.old.committer disk.old →
            KnowsLogLength D.Disk self.new.committer disk.new }
        ensures run { self.new.run ≡ self.old.run }
        ensures kept { self.new.memory ≡ self.old.memory }
        ensures closed { IsErrOf result CheckpointFault.Disk → self.new.committer.closed ≡ true }
        // A disk that tells what it reads goes on telling.
        ensures told { Told Anyhow (D.Disk.seen disk.old) (D.Disk.seen disk.new) }
        ensures later { D.Disk.faults disk.old ≤ D.Disk.faults disk.new }
        ensures cause { IsErrOf result CheckpointFault.Disk → Rose (D.Disk.faults disk.old) (D.Disk.faults disk.new) }
    {
        let walk = match self.memory.walk(self.alloc) {
            Ok(walk) => walk,
            // The items of a state that commands lead to are never too long, so no caller has to
            // tell the two apart: in both the items have no room, and nothing has changed.
            Err(ListFault::TooLong | ListFault::NoMemory) => return Err(CheckpointFault::NoMemory),
        };
        let mut telling = Telling {
            memory: &self.memory,
            walk,
            run: Some(self.run),
        };
        checkpoint::<D, M::Book, Telling<'_, M>>(
            &mut self.committer,
            self.alloc,
            disk,
            &mut telling,
        )
    }
}
