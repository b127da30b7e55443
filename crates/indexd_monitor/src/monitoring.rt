//! A run that monitors files: the store is opened, a pass is made over it and committed, and its
//! lines are written. The program calls `run_monitor`.

ghost use Rattle.std.specs.Prelude.{◌≡◌, ◌≤◌, ℕ, ℤ, List, length, true, false, Some, Err, IfErr, OnOk, IsErrOf};
ghost use Rattle.std.specs.List.{AllByRecursion};
ghost use Rattle.ix_base.specs.Faults.{Rose};
ghost use Rattle.ix_base.specs.Told.{Told};
ghost use Rattle.ix_base.specs.declared.files.File.{File};
ghost use Rattle.ix_disk.specs.Image.{Image};
ghost use Rattle.ix_monitor.specs.declared.watched.Watched.{Watched};
ghost use Rattle.ix_files.specs.Sought.{IsFileOf};
ghost use Rattle.ix_commit.specs.Contents.{Anyhow};
ghost use Rattle.ix_model.specs.Given.{Chooser};
ghost use Rattle.ix_model.specs.declared.commands.TimedCommand.{TimedCommand};
ghost use Rattle.ix_run.specs.Resting.{CheckpointReady, ReadsShort};
ghost use Rattle.ix_run.specs.Running.{outset};
ghost use Rattle.ix_store.specs.Holding.{Represents};
ghost use Rattle.ix_pass.specs.Passing.{MayVisit};
ghost use Rattle.indexd_run.specs.Blamed.{Blames, ReadsBad};
ghost use Rattle.indexd_run.specs.Ends.{Ends};
ghost use Rattle.indexd_run.specs.Opened.{Begins, configuring, WhenOpen, HasRun, HasStopped, Past, course};
ghost use Rattle.indexd_run.specs.Shortened.{is_short, EndsShort};
ghost use Rattle.indexd_run.specs.Stops.{loses_in, is_output};
ghost use Rattle.indexd_monitor.specs.Monitored.{HasMonitored, AndTaken};

use crate::making::{Watch, monitor};
use crate::writing::write_lines;
use indexd_run::{Stop, open};
use ix_base::{Clock, Sink};
use ix_disk::Disk;
use ix_fs::Tree;
use ix_model::Config;
use ix_store::{Listing, Store};
use std::alloc::Global;

/// Makes a pass over an open store, makes the log short where it is long, and writes the lines.
fn monitor_and_write<M: Listing + Drop, D: Disk, C: Clock, T: Tree, W: Sink>(
    alloc: Global,
    store: &mut Store<M>,
    disk: &mut D,
    clock: &mut C,
    tree: &mut T,
    watch: Watch<'_>,
    output: &mut W,
) -> Result<(), Stop>
    requires rest { CheckpointReady D.Disk store.old.committer disk.old }
    requires files { (file : Watched) → IsFileOf watch.inputs.now file → MayVisit M.takes file }
    ensures ends { (choose : Chooser) (history : List TimedCommand) (base : ℕ) → M.is_chooser choose → AllByRecursion M.takes history →
        Represents D.Disk M.Book.fits M.holds choose history base (length history) store.old disk.old →
        Ends (loses_in result) D.Disk M.Book.fits M.holds (outset choose history base (length history) store.old.run disk.old)
        (AndTaken M.takes (HasMonitored choose (T.files tree.old) watch.entry.inputs.now watch.entry.close result (C.ahead clock.new)
        (W.given output.old) (W.given output.new)) base (C.ahead clock.old) history) store.new disk.new }
    ensures quiet { IfErr result (λ stop. is_output stop ≡ false → W.given output.new ≡ W.given output.old) }
    ensures short { is_short result ≡ true → ReadsShort D.Disk disk.new }
    ensures undamaged { (file : File) (at : ℕ) → result ≡ Err (Stop.Damaged file at) →
        (choose : Chooser) (history : List TimedCommand) (base : ℕ) → M.is_chooser choose →
        AllByRecursion M.takes history → Represents D.Disk M.Book.fits M.holds choose history base (length history) store.old disk.old →
        (image : Image) → D.Disk.seen disk.new ≡ Some image → ⊥ }
    ensures placed { (file : File) (at : ℕ) → result ≡ Err (Stop.Damaged file at) → ReadsBad D.Disk disk.new file at }
    ensures told { Told Anyhow (D.Disk.seen disk.old) (D.Disk.seen disk.new) }
    ensures later { D.Disk.faults disk.old ≤ D.Disk.faults disk.new }
    ensures cause { IsErrOf result Stop.Disk → Rose (D.Disk.faults disk.old) (D.Disk.faults disk.new) }
    ensures input { IsErrOf result Stop.Input → Rose (T.faults tree.old) (T.faults tree.new) }
    ensures finite { IsErrOf result Stop.Endless → ⊥ }
    ensures same { T.files tree.new ≡ T.files tree.old }
    ensures tree_later { T.faults tree.old ≤ T.faults tree.new }
    ensures tree_missing { T.missing tree.old ≤ T.missing tree.new }
    ensures grown { W.faults output.old ≤ W.faults output.new }
    ensures output { IsErrOf result Stop.Output → Rose (W.faults output.old) (W.faults output.new) }
{
    match monitor(alloc, store, disk, clock, tree, watch) {
        Ok(text) => write_lines(text.as_slice(), output),
        Err(stop) => Err(stop),
    }
}

/// Opens the store of a disk with these settings, and makes one pass over the files that the inputs
/// have watched: each is visited once, in the order of the inputs and of the names, and what is new
/// in it is given to the store. Then all is committed, also where the run stops, the log is made
/// short where it is long, and the lines of the files are written. The clock is asked once before
/// each command. For want of memory, or where the disk fails, the run stops for that in place of
/// any other end.
pub fn run_monitor<M: Listing + Drop, D: Disk, C: Clock, T: Tree, W: Sink>(
    alloc: Global,
    disk: &mut D,
    clock: &mut C,
    config: Config,
    tree: &mut T,
    watch: Watch<'_>,
    output: &mut W,
) -> Result<(), Stop>
    requires settings { (moment : ℤ) → M.takes (configuring config moment) }
    requires files { (file : Watched) → IsFileOf watch.inputs.now file → MayVisit M.takes file }
    // A run that is done has visited all files, given all the commands of the visits behind the
    // settings, and written the lines; and every image at the exit has all commands.
    ensures done { OnOk result ((past : Past) → M.is_chooser past.choose → AllByRecursion M.takes past.history →
        Begins D.Disk M.Book.fits past disk.old → (image : Image) → D.Disk.seen disk.old ≡ Some image →
        HasRun false D.Disk M.takes M.Book.fits past (WhenOpen past.choose config (C.ahead clock.old)
        (HasMonitored past.choose (T.files tree.old) watch.entry.inputs.now watch.entry.close result (C.ahead clock.new)
        (W.given output.old) (W.given output.new))) disk.old disk.new) }
    // One that stops has a cause. It has visited the first of the files, and given the first of the
    // commands that were tried; nothing of what was mounted is lost, and where the disk is not at
    // fault nothing that was accepted since.
    ensures stopped { IfErr result (λ stop. (past : Past) → M.is_chooser past.choose → AllByRecursion M.takes past.history →
        Begins D.Disk M.Book.fits past disk.old → (image : Image) → D.Disk.seen disk.old ≡ Some image →
        HasStopped stop D.Disk M.takes M.Book.fits past (course config (C.ahead clock.old) (C.ahead clock.new) disk.old disk.new)
        (W.given output.new ≡ W.given output.old)
        (HasMonitored past.choose (T.files tree.old) watch.entry.inputs.now watch.entry.close result (C.ahead clock.new)
        (W.given output.old) (W.given output.new))) }
    // Only an output that fails leaves a part of the lines.
    ensures quiet { IfErr result (λ stop. is_output stop ≡ false → W.given output.new ≡ W.given output.old) }
    // What is on the disk is not damaged where it keeps what was committed and tells what it reads,
    ensures undamaged { (file : File) (at : ℕ) → result ≡ Err (Stop.Damaged file at) → (past : Past) → M.is_chooser past.choose →
        AllByRecursion M.takes past.history → Begins D.Disk M.Book.fits past disk.old → (image : Image) →
        D.Disk.seen disk.old ≡ Some image → ⊥ }
    // and what is in memory contradicts nothing.
    ensures sound { IsErrOf result Stop.Inconsistent → (past : Past) → M.is_chooser past.choose → AllByRecursion M.takes past.history →
        Begins D.Disk M.Book.fits past disk.old → (image : Image) → D.Disk.seen disk.old ≡ Some image → ⊥ }
    // Whatever the disk held, a stop blames what the mount or the mounted store has met.
    ensures blamed { IfErr result (λ stop. Blames stop D.Disk M.Book.fits M.gives_none disk.old disk.new) }
    // Its log is not long then, as the disk reads, whatever it stops for; but where memory was
    // short, or the disk has failed or is not sound.
    ensures short { EndsShort D.Disk M.Book.fits result disk.old disk.new }
    // A disk that tells what it reads goes on telling.
    ensures told { Told Anyhow (D.Disk.seen disk.old) (D.Disk.seen disk.new) }
    ensures later { D.Disk.faults disk.old ≤ D.Disk.faults disk.new }
    ensures cause { IsErrOf result Stop.Disk → Rose (D.Disk.faults disk.old) (D.Disk.faults disk.new) }
    ensures input { IsErrOf result Stop.Input → Rose (T.faults tree.old) (T.faults tree.new) }
    ensures finite { IsErrOf result Stop.Endless → ⊥ }
    ensures same { T.files tree.new ≡ T.files tree.old }
    ensures tree_later { T.faults tree.old ≤ T.faults tree.new }
    ensures tree_missing { T.missing tree.old ≤ T.missing tree.new }
    ensures grown { W.faults output.old ≤ W.faults output.new }
    ensures output { IsErrOf result Stop.Output → Rose (W.faults output.old) (W.faults output.new) }
{
    let mut store = match open::<M, D, C>(alloc, disk, clock, config) {
        Ok(store) => store,
        Err(stop) => return Err(stop),
    };
    monitor_and_write(alloc, &mut store, disk, clock, tree, watch, output)
}
