//! The events of an index are exported from an open store. `run` calls it.

ghost use Rattle.std.specs.Prelude.{◌≡◌, ◌≤◌, ℕ, List, [], length, true, false, Some, Err, OnOk, OnErr, IfErr, IsErrOf};
ghost use Rattle.std.specs.List.{AllByRecursion};
ghost use Rattle.ix_base.specs.Faults.{Rose};
ghost use Rattle.ix_base.specs.Told.{Told, HasWritten, HasBegun};
ghost use Rattle.ix_base.specs.declared.files.File.{File};
ghost use Rattle.ix_disk.specs.Image.{Image};
ghost use Rattle.ix_commit.specs.Contents.{Anyhow};
ghost use Rattle.ix_model.specs.Given.{Chooser};
ghost use Rattle.ix_model.specs.Step.{state_after};
ghost use Rattle.ix_model.specs.declared.commands.TimedCommand.{TimedCommand};
ghost use Rattle.ix_run.specs.Resting.{CheckpointReady, ReadsShort};
ghost use Rattle.ix_run.specs.Running.{outset};
ghost use Rattle.ix_store.specs.Exporting.{is_seen};
ghost use Rattle.ix_store.specs.Holding.{Represents};
ghost use Rattle.indexd_run.specs.Blamed.{ReadsBad};
ghost use Rattle.indexd_run.specs.Ends.{Ends};
ghost use Rattle.indexd_run.specs.Shortened.{is_short};
ghost use Rattle.indexd_run.specs.Stops.{loses_in, is_input};
ghost use Rattle.indexd_run.specs.Tasks.{HasExported, IsUnexported};

use crate::finish::make_short;
use crate::stop::{Stop, of_export};
use ix_base::{Range, Sink};
use ix_disk::Disk;
use ix_store::{Listing, Store, StoreMemory};

/// Writes a line for each event of an index whose time is within the range. Nothing changes on the
/// disk.
fn write_lines<M: StoreMemory + Drop, D: Disk, W: Sink>(
    store: &mut Store<M>,
    disk: &mut D,
    index: &str,
    range: &Range,
    output: &mut W,
) -> Result<(), Stop>
    ensures ends { (choose : Chooser) (history : List TimedCommand) (base : ℕ) →
        Represents D.Disk M.Book.fits M.holds choose history base (length history) store.old disk.old →
        Ends (loses_in result) D.Disk M.Book.fits M.holds (outset choose history base (length history) store.old.run disk.old)
        (λ orders. orders ≡ []) store.new disk.new }
    // An index is exported where it is seen, and missed exactly where it is not.
    ensures fine { OnOk result ((choose : Chooser) (history : List TimedCommand) (base : ℕ) →
        Represents D.Disk M.Book.fits M.holds choose history base (length history) store.old disk.old →
        is_seen (state_after choose history) index.now ≡ true) }
    ensures why { IfErr result (λ stop. (choose : Chooser) (history : List TimedCommand) (base : ℕ) →
        Represents D.Disk M.Book.fits M.holds choose history base (length history) store.old disk.old →
        IsUnexported choose history index.now stop) }
    ensures lines { OnOk result ((choose : Chooser) (history : List TimedCommand) (base : ℕ) → M.is_chooser choose →
        AllByRecursion M.takes history →
        Represents D.Disk M.Book.fits M.holds choose history base (length history) store.old disk.old →
        HasExported HasWritten D.Disk choose history index.now range.now disk.new (W.given output.old) (W.given output.new)) }
    ensures begun { OnErr result ((choose : Chooser) (history : List TimedCommand) (base : ℕ) → M.is_chooser choose →
        AllByRecursion M.takes history →
        Represents D.Disk M.Book.fits M.holds choose history base (length history) store.old disk.old →
        HasExported HasBegun D.Disk choose history index.now range.now disk.new (W.given output.old) (W.given output.new)) }
    // A disk that keeps what was committed is not damaged.
    ensures undamaged { (file : File) (at : ℕ) → result ≡ Err (Stop.Damaged file at) →
        (choose : Chooser) (history : List TimedCommand) (base : ℕ) → M.is_chooser choose →
        AllByRecursion M.takes history → Represents D.Disk M.Book.fits M.holds choose history base (length history) store.old disk.old →
        (image : Image) → D.Disk.seen disk.new ≡ Some image → ⊥ }
    ensures placed { (file : File) (at : ℕ) → result ≡ Err (Stop.Damaged file at) → ReadsBad D.Disk disk.new file at }
    ensures same { D.Disk.seen disk.new ≡ D.Disk.seen disk.old }
    ensures later { D.Disk.faults disk.old ≤ D.Disk.faults disk.new }
    ensures cause { IsErrOf result Stop.Disk → Rose (D.Disk.faults disk.old) (D.Disk.faults disk.new) }
    ensures grown { W.faults output.old ≤ W.faults output.new }
    ensures unread { IfErr result (λ stop. is_input stop ≡ false) }
    ensures output { IsErrOf result Stop.Output → Rose (W.faults output.old) (W.faults output.new) }
{
    match store.export(disk, index.as_bytes(), range, output) {
        Ok(_) => Ok(()),
        Err(fault) => Err(of_export(fault)),
    }
}

/// Makes the log short where it is long, and writes a line for each event of an index whose time is
/// within the range.
pub(crate) fn export<M: Listing + Drop, D: Disk, W: Sink>(
    store: &mut Store<M>,
    disk: &mut D,
    index: &str,
    range: &Range,
    output: &mut W,
) -> Result<(), Stop>
    requires { CheckpointReady D.Disk store.old.committer disk.old }
    ensures ends { (choose : Chooser) (history : List TimedCommand) (base : ℕ) → M.is_chooser choose → AllByRecursion M.takes history →
        Represents D.Disk M.Book.fits M.holds choose history base (length history) store.old disk.old →
        Ends (loses_in result) D.Disk M.Book.fits M.holds (outset choose history base (length history) store.old.run disk.old)
        (λ orders. orders ≡ []) store.new disk.new }
    // An index is exported where it is seen, and missed exactly where it is not.
    ensures fine { OnOk result ((choose : Chooser) (history : List TimedCommand) (base : ℕ) → M.is_chooser choose →
        AllByRecursion M.takes history →
        Represents D.Disk M.Book.fits M.holds choose history base (length history) store.old disk.old →
        is_seen (state_after choose history) index.now ≡ true) }
    ensures why { IfErr result (λ stop. (choose : Chooser) (history : List TimedCommand) (base : ℕ) → M.is_chooser choose →
        AllByRecursion M.takes history →
        Represents D.Disk M.Book.fits M.holds choose history base (length history) store.old disk.old →
        IsUnexported choose history index.now stop) }
    ensures lines { OnOk result ((choose : Chooser) (history : List TimedCommand) (base : ℕ) → M.is_chooser choose →
        AllByRecursion M.takes history →
        Represents D.Disk M.Book.fits M.holds choose history base (length history) store.old disk.old →
        HasExported HasWritten D.Disk choose history index.now range.now disk.new (W.given output.old) (W.given output.new)) }
    ensures begun { OnErr result ((choose : Chooser) (history : List TimedCommand) (base : ℕ) → M.is_chooser choose →
        AllByRecursion M.takes history →
        Represents D.Disk M.Book.fits M.holds choose history base (length history) store.old disk.old →
        HasExported HasBegun D.Disk choose history index.now range.now disk.new (W.given output.old) (W.given output.new)) }
    // A disk that keeps what was committed is not damaged.
    ensures undamaged { (file : File) (at : ℕ) → result ≡ Err (Stop.Damaged file at) →
        (choose : Chooser) (history : List TimedCommand) (base : ℕ) → M.is_chooser choose →
        AllByRecursion M.takes history → Represents D.Disk M.Book.fits M.holds choose history base (length history) store.old disk.old →
        (image : Image) → D.Disk.seen disk.new ≡ Some image → ⊥ }
    ensures placed { (file : File) (at : ℕ) → result ≡ Err (Stop.Damaged file at) → ReadsBad D.Disk disk.new file at }
    ensures short { is_short result ≡ true → ReadsShort D.Disk disk.new }
    ensures told { Told Anyhow (D.Disk.seen disk.old) (D.Disk.seen disk.new) }
    ensures later { D.Disk.faults disk.old ≤ D.Disk.faults disk.new }
    ensures cause { IsErrOf result Stop.Disk → Rose (D.Disk.faults disk.old) (D.Disk.faults disk.new) }
    ensures grown { W.faults output.old ≤ W.faults output.new }
    ensures unread { IfErr result (λ stop. is_input stop ≡ false) }
    ensures output { IsErrOf result Stop.Output → Rose (W.faults output.old) (W.faults output.new) }
{
    match make_short(store, disk) {
        Ok(()) => write_lines(store, disk, index, range, output),
        Err(stop) => Err(stop),
    }
}
