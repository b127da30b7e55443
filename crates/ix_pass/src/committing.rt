//! A pass: watched files are visited, and all that was given is committed.

ghost use Rattle.std.specs.Prelude.{◌≡◌, ◌≤◌, ℕ, List, false, Some, Err, IsErrOf};
ghost use Rattle.std.specs.List.{AllByRecursion};
ghost use Rattle.ix_base.specs.Faults.{Rose};
ghost use Rattle.ix_base.specs.Told.{Told};
ghost use Rattle.ix_base.specs.declared.files.File.{File};
ghost use Rattle.ix_disk.specs.Image.{Image};
ghost use Rattle.ix_commit.specs.Contents.{Anyhow};
ghost use Rattle.ix_commit.specs.Snapshot.{LogsAtEnd, KnowsLogLength};
ghost use Rattle.ix_model.specs.Given.{Chooser};
ghost use Rattle.ix_model.specs.declared.commands.TimedCommand.{TimedCommand};
ghost use Rattle.ix_run.specs.Placed.{ReadsEnd};
ghost use Rattle.ix_run.specs.Resting.{CheckpointReady};
ghost use Rattle.ix_run.specs.Storing.{is_cut};
ghost use Rattle.ix_store.specs.Holding.{Represents};
ghost use Rattle.ix_pass.specs.Filling.{gave_of};
ghost use Rattle.ix_pass.specs.Passing.{HasVisited, IsPass, MayVisit, VisitsAll};
ghost use Rattle.ix_pass.specs.Giving.{kind, change};

use crate::fault::PassFault;
use crate::passing::Turn;
use ix_base::{Bytes, Clock};
use ix_commit::CommitFault;
use ix_disk::Disk;
use ix_fs::Tree;
use ix_monitor::Watched;
use ix_run::{GiveFault, commit_all};
use ix_store::{Listing, Store};
use std::alloc::Global;

/// How many bytes are read at once.
const BLOCK: usize = 1 << 20;

/// What a pass is over.
#[derive(Clone, Copy)]
pub struct Round<'a> {
    /// The files, in the order in which they are visited.
    pub files: &'a [Watched],
    /// Whether the channel of each file that is there is ended behind what is new in it, also where
    /// nothing is.
    pub close: bool,
}

/// Visits the files, and answers their lines.
fn visit_files<M: Listing + Drop, D: Disk, C: Clock, T: Tree>(
    alloc: Global,
    store: &mut Store<M>,
    disk: &mut D,
    clock: &mut C,
    tree: &mut T,
    round: Round<'_>,
) -> Result<Bytes, PassFault>
    requires over { LogsAtEnd D.Disk store.old.committer disk.old }
    requires takes { AllByRecursion (MayVisit M.takes) round.files.now }
    ensures visited { VisitsAll result round.entry.files.now (C.ahead clock.old) (C.ahead clock.new)
        (HasVisited D.Disk (kind M.is_chooser M.takes M.Book.fits M.holds) (T.files tree.old) round.entry.close result
        (change store.old disk.old store.new disk.new)) }
    ensures failed { IsErrOf result PassFault.Input → Rose (T.faults tree.old) (T.faults tree.new) }
    ensures same { T.files tree.new ≡ T.files tree.old }
    ensures later { T.faults tree.old ≤ T.faults tree.new }
    ensures later_missing { T.missing tree.old ≤ T.missing tree.new }
{
    let mut room = match vec![in alloc; 0u8; BLOCK] {
        Ok(room) => room,
        Err(_) => return Err(PassFault::Memory),
    };
    let turn = Turn {
        alloc,
        close: round.close,
    };
    turn.visit_all(store, disk, clock, tree, &mut room, round.files)
}

/// Whether the disk has failed at a commit.
fn is_pass_cut(passed: &Result<Bytes, PassFault>) -> bool
    ensures { result ≡ is_cut (gave_of passed.now) }
{
    match passed {
        Err(PassFault::Given(GiveFault::Commit(_))) => true,
        Err(PassFault::Given(GiveFault::Refused(_))) => false,
        Ok(_) | Err(PassFault::Input | PassFault::Memory) => false,
    }
}

/// Visits watched files one behind the other: reads on in each, or reads it again where it is
/// another one, gives what is new to its channel, and answers the lines. All that the store has
/// accepted is committed then, also behind a fault, but where the disk fails.
pub fn pass<M: Listing + Drop, D: Disk, C: Clock, T: Tree>(
    alloc: Global,
    store: &mut Store<M>,
    disk: &mut D,
    clock: &mut C,
    tree: &mut T,
    round: Round<'_>,
) -> Result<Bytes, PassFault>
    requires over { LogsAtEnd D.Disk store.old.committer disk.old }
    requires takes { AllByRecursion (MayVisit M.takes) round.files.now }
    // The files were visited, all of them where nothing failed; of the commands that were tried all
    // are given, and committed, but at a fault.
    ensures passed { VisitsAll result round.entry.files.now (C.ahead clock.old) (C.ahead clock.new)
        (IsPass D.Disk (kind M.is_chooser M.takes M.Book.fits M.holds) (T.files tree.old) round.entry.close result
        (change store.old disk.old store.new disk.new)) }
    ensures over { is_cut (gave_of result) ≡ false → LogsAtEnd D.Disk store.new.committer disk.new }
    // What `shorten` asks for.
    ensures rest { is_cut (gave_of result) ≡ false → KnowsLogLength D.Disk store.old.committer disk.old →
        CheckpointReady D.Disk store.new.committer disk.new }
    // A disk that keeps what was committed is not damaged.
    ensures undamaged { (file : File) (at : ℕ) → result ≡ Err (PassFault.Given (GiveFault.Commit (CommitFault.Damaged file at))) →
        (choose : Chooser) (history : List TimedCommand) (base k : ℕ) → M.is_chooser choose →
        AllByRecursion M.takes history → Represents D.Disk M.Book.fits M.holds choose history base k store.old disk.old → (image : Image) →
        D.Disk.seen disk.new ≡ Some image → ⊥ }
    // Damage is where the named file ends, as the disk reads, whatever was committed.
    ensures placed { (file : File) (at : ℕ) → result ≡ Err (PassFault.Given (GiveFault.Commit (CommitFault.Damaged file at))) →
        ReadsEnd D.Disk disk.new file at }
    // A disk that tells what it reads goes on telling.
    ensures told { Told Anyhow (D.Disk.seen disk.old) (D.Disk.seen disk.new) }
    ensures later { D.Disk.faults disk.old ≤ D.Disk.faults disk.new }
    ensures cause { IsErrOf result (PassFault.Given (GiveFault.Commit CommitFault.Disk)) →
        Rose (D.Disk.faults disk.old) (D.Disk.faults disk.new) }
    ensures failed { IsErrOf result PassFault.Input → Rose (T.faults tree.old) (T.faults tree.new) }
    ensures same { T.files tree.new ≡ T.files tree.old }
    ensures tree_later { T.faults tree.old ≤ T.faults tree.new }
    ensures tree_missing { T.missing tree.old ≤ T.missing tree.new }
{
    let passed = visit_files(alloc, store, disk, clock, tree, round);
    if is_pass_cut(&passed) {
        return passed;
    }
    match commit_all(store, disk) {
        Ok(()) => passed,
        Err(fault) => Err(PassFault::Given(GiveFault::Commit(fault))),
    }
}
