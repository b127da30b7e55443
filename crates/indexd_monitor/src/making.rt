//! A pass is made over an open store. `monitoring` calls it.

ghost use Rattle.std.specs.Prelude.{◌≡◌, ◌≤◌, ℕ, List, length, true, false, Some, Err, IfErr, IsErrOf};
ghost use Rattle.std.specs.List.{AllByRecursion};
ghost use Rattle.ix_base.specs.Faults.{Rose};
ghost use Rattle.ix_base.specs.Told.{Told};
ghost use Rattle.ix_base.specs.declared.files.File.{File};
ghost use Rattle.ix_disk.specs.Image.{Image};
ghost use Rattle.ix_monitor.specs.declared.watched.Watched.{Watched};
ghost use Rattle.ix_files.specs.Sought.{IsFileOf};
ghost use Rattle.ix_commit.specs.Contents.{Anyhow};
ghost use Rattle.ix_model.specs.Given.{Chooser};
ghost use Rattle.ix_model.specs.declared.commands.TimedCommand.{TimedCommand};
ghost use Rattle.ix_run.specs.Resting.{CheckpointReady, ReadsShort};
ghost use Rattle.ix_run.specs.Running.{outset};
ghost use Rattle.ix_store.specs.Holding.{Represents};
ghost use Rattle.ix_pass.specs.Passing.{MayVisit};
ghost use Rattle.indexd_run.specs.Blamed.{ReadsBad};
ghost use Rattle.indexd_run.specs.Ends.{Ends};
ghost use Rattle.indexd_run.specs.Shortened.{is_short};
ghost use Rattle.indexd_run.specs.Stops.{loses_in, is_output};
ghost use Rattle.indexd_monitor.specs.Monitored.{HasText, HasVisited, AndTaken};

use crate::stops::{of_pass, of_tree};
use indexd_run::{Stop, make_short, stop_run};
use ix_base::{Bytes, Clock};
use ix_disk::Disk;
use ix_files::watched_files;
use ix_fs::Tree;
use ix_monitor::Input;
use ix_pass::{Round, pass};
use ix_store::{Listing, Store};
use std::alloc::Global;

/// Which files a pass is over.
#[derive(Clone, Copy)]
pub struct Watch<'a> {
    /// The inputs, in their order: a file that several have is the first one's.
    pub inputs: &'a [Input],
    /// Whether the channel of each file that is there is ended behind what is new in it, also where
    /// nothing is.
    pub close: bool,
}

/// Finds the files of the inputs, makes a pass over them, and answers its lines. All that the store
/// has accepted is committed then, but where the disk fails.
fn make_pass<M: Listing + Drop, D: Disk, C: Clock, T: Tree>(
    alloc: Global,
    store: &mut Store<M>,
    disk: &mut D,
    clock: &mut C,
    tree: &mut T,
    watch: Watch<'_>,
) -> Result<Bytes, Stop>
    requires rest { CheckpointReady D.Disk store.old.committer disk.old }
    requires files { (file : Watched) → IsFileOf watch.inputs.now file → MayVisit M.takes file }
    ensures rest { loses_in result ≡ false → CheckpointReady D.Disk store.new.committer disk.new }
    ensures ends { (choose : Chooser) (history : List TimedCommand) (base : ℕ) → M.is_chooser choose → AllByRecursion M.takes history →
        Represents D.Disk M.Book.fits M.holds choose history base (length history) store.old disk.old →
        Ends (loses_in result) D.Disk M.Book.fits M.holds (outset choose history base (length history) store.old.run disk.old)
        (AndTaken M.takes (HasVisited choose (T.files tree.old) watch.entry.inputs.now watch.entry.close result (HasText result)
        (C.ahead clock.new)) base (C.ahead clock.old) history) store.new disk.new }
    ensures quiet { IfErr result (λ stop. is_output stop ≡ false) }
    ensures undamaged { (file : File) (at : ℕ) → result ≡ Err (Stop.Damaged file at) →
        (choose : Chooser) (history : List TimedCommand) (base : ℕ) → M.is_chooser choose →
        AllByRecursion M.takes history → Represents D.Disk M.Book.fits M.holds choose history base (length history) store.old disk.old →
        (image : Image) → D.Disk.seen disk.new ≡ Some image → ⊥ }
    ensures placed { (file : File) (at : ℕ) → result ≡ Err (Stop.Damaged file at) → ReadsBad D.Disk disk.new file at }
    ensures told { Told Anyhow (D.Disk.seen disk.old) (D.Disk.seen disk.new) }
    ensures later { D.Disk.faults disk.old ≤ D.Disk.faults disk.new }
    ensures cause { IsErrOf result Stop.Disk → Rose (D.Disk.faults disk.old) (D.Disk.faults disk.new) }
    ensures input { IsErrOf result Stop.Input → Rose (T.faults tree.old) (T.faults tree.new) }
    ensures finite { IsErrOf result Stop.Endless → ⊥ }
    ensures same { T.files tree.new ≡ T.files tree.old }
    ensures tree_later { T.faults tree.old ≤ T.faults tree.new }
    ensures tree_missing { T.missing tree.old ≤ T.missing tree.new }
{
    let files = match watched_files(alloc, tree, watch.inputs) {
        Ok(files) => files,
        Err(fault) => return Err(of_tree(fault)),
    };
    let round = Round {
        files: files.as_slice(),
        close: watch.close,
    };
    match pass(alloc, store, disk, clock, tree, round) {
        Ok(text) => Ok(text),
        Err(fault) => Err(of_pass(fault)),
    }
}

/// Makes a pass over an open store, makes the log short where it is long, and answers the lines.
pub(crate) fn monitor<M: Listing + Drop, D: Disk, C: Clock, T: Tree>(
    alloc: Global,
    store: &mut Store<M>,
    disk: &mut D,
    clock: &mut C,
    tree: &mut T,
    watch: Watch<'_>,
) -> Result<Bytes, Stop>
    requires rest { CheckpointReady D.Disk store.old.committer disk.old }
    requires files { (file : Watched) → IsFileOf watch.inputs.now file → MayVisit M.takes file }
    ensures ends { (choose : Chooser) (history : List TimedCommand) (base : ℕ) → M.is_chooser choose → AllByRecursion M.takes history →
        Represents D.Disk M.Book.fits M.holds choose history base (length history) store.old disk.old →
        Ends (loses_in result) D.Disk M.Book.fits M.holds (outset choose history base (length history) store.old.run disk.old)
        (AndTaken M.takes (HasVisited choose (T.files tree.old) watch.entry.inputs.now watch.entry.close result (HasText result)
        (C.ahead clock.new)) base (C.ahead clock.old) history) store.new disk.new }
    ensures quiet { IfErr result (λ stop. is_output stop ≡ false) }
    ensures short { is_short result ≡ true → ReadsShort D.Disk disk.new }
    ensures undamaged { (file : File) (at : ℕ) → result ≡ Err (Stop.Damaged file at) →
        (choose : Chooser) (history : List TimedCommand) (base : ℕ) → M.is_chooser choose →
        AllByRecursion M.takes history → Represents D.Disk M.Book.fits M.holds choose history base (length history) store.old disk.old →
        (image : Image) → D.Disk.seen disk.new ≡ Some image → ⊥ }
    ensures placed { (file : File) (at : ℕ) → result ≡ Err (Stop.Damaged file at) → ReadsBad D.Disk disk.new file at }
    ensures told { Told Anyhow (D.Disk.seen disk.old) (D.Disk.seen disk.new) }
    ensures later { D.Disk.faults disk.old ≤ D.Disk.faults disk.new }
    ensures cause { IsErrOf result Stop.Disk → Rose (D.Disk.faults disk.old) (D.Disk.faults disk.new) }
    ensures input { IsErrOf result Stop.Input → Rose (T.faults tree.old) (T.faults tree.new) }
    ensures finite { IsErrOf result Stop.Endless → ⊥ }
    ensures same { T.files tree.new ≡ T.files tree.old }
    ensures tree_later { T.faults tree.old ≤ T.faults tree.new }
    ensures tree_missing { T.missing tree.old ≤ T.missing tree.new }
{
    match make_pass(alloc, store, disk, clock, tree, watch) {
        Ok(text) => match make_short(store, disk) {
            Ok(()) => Ok(text),
            Err(stop) => Err(stop),
        },
        Err(stop) => Err(stop_run(store, disk, stop)),
    }
}
