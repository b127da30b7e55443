//! The events of an index are exported. Whoever serves requests, or runs a command of the program,
//! asks for them.

ghost use Rattle.std.specs.Prelude.{◌≡◌, ◌≤◌, ◌||◌, ◌↔◌, ℕ, List, length, true, false, Some, Err, IfOk, OnErr, IsErrOf};
ghost use Rattle.std.specs.List.{AllByRecursion};
ghost use Rattle.std.specs.Option.{option_copied, option_map};
ghost use Rattle.ix_base.specs.Faults.{Rose};
ghost use Rattle.ix_base.specs.Told.{HasWritten, HasBegun};
ghost use Rattle.ix_base.specs.declared.files.File.{File};
ghost use Rattle.ix_disk.specs.Image.{Image, Stays};
ghost use Rattle.ix_disk.specs.Moments.{ImagesStep};
ghost use Rattle.ix_export.specs.Lines.{text, number};
ghost use Rattle.ix_export.specs.Stops.{StopsAt};
ghost use Rattle.ix_commit.specs.Snapshot.{Snapshot, LogsAtEnd, KnowsLogLength};
ghost use Rattle.ix_commit.specs.Undo.{HasSameLogs};
ghost use Rattle.ix_life.specs.declared.views.IndexView.{IndexView};
ghost use Rattle.ix_model.specs.Given.{Chooser};
ghost use Rattle.ix_model.specs.Step.{state_after};
ghost use Rattle.ix_model.specs.declared.commands.TimedCommand.{TimedCommand};
ghost use Rattle.ix_catalog.specs.Lists.{find};
ghost use Rattle.ix_catalog.specs.Shelves.{buckets_in, view_name};
ghost use Rattle.ix_store.specs.Exporting.{HasBadRecord, is_seen, listed_in, exported};
ghost use Rattle.ix_store.specs.Faults.{closes};

use crate::fault::{ExportFault, closes, export_fault_of};
use crate::memory::StoreMemory;
use crate::store::Store;
use ix_base::{Range, Sink};
use ix_disk::Disk;
use ix_export::export_buckets;
use ix_items::Bucket;
use ix_life::{IndexView, View};

/// What is seen of the index of this name.
fn find_index<'a>(indexes: &'a [IndexView], name: &[u8]) -> Option<&'a IndexView>
    ensures { option_copied result ≡ find view_name name.now indexes.now }
{
    for view in indexes {
        if view.name.as_slice() == name {
            return Some(view);
        }
    }
    None
}

/// The buckets of the index of this name, where it is seen.
fn buckets_of<'a>(view: &'a View, index: &[u8]) -> Option<&'a [Bucket]>
    ensures { option_copied result ≡ option_map (λ (seen : IndexView). seen.buckets) (find view_name index.now view.now.indexes) }
{
    let seen = find_index(view.indexes.as_slice(), index)?;
    Some(seen.buckets.as_slice())
}

impl<M: StoreMemory + Drop> Store<M> {
    ghost use Rattle.ix_store.specs.Holding.{Represents, RepresentsStaged, IsUnchanged, is_closed};

    /// Exports as `export` does, and leaves it to that to close the store.
    fn export_lines<D: Disk, W: Sink>(
        &self,
        disk: &mut D,
        index: &[u8],
        range: &Range,
        out: &mut W,
    ) -> Result<u64, ExportFault>
        ensures closed { IsErrOf result ExportFault.Closed ↔ (is_closed self.now ≡ true) }
        ensures unknown { (choose : Chooser) (history : List TimedCommand) (base k : ℕ) (old : Snapshot) →
            RepresentsStaged M.Book.fits M.holds choose history base k self.now old →
            IsErrOf result ExportFault.UnknownIndex ↔ (is_seen (state_after choose history) index.now ≡ false) }
        ensures lines { IfOk result (λ count. (choose : Chooser) (history : List TimedCommand) (base : ℕ) (image : Image) →
            M.is_chooser choose → AllByRecursion M.takes history →
            Represents D.Disk M.Book.fits M.holds choose history base (length history) self.now disk.old →
            D.Disk.seen disk.old ≡ Some image →
            HasWritten (text range.now (exported (state_after choose history) index.now)) (W.given out.old) (W.given out.new)) }
        ensures counted { IfOk result (λ count. (choose : Chooser) (history : List TimedCommand) (base : ℕ) (image : Image) →
            M.is_chooser choose → AllByRecursion M.takes history →
            Represents D.Disk M.Book.fits M.holds choose history base (length history) self.now disk.old →
            D.Disk.seen disk.old ≡ Some image →
            count ≡ number range.now (exported (state_after choose history) index.now)) }
        ensures begun { OnErr result ((choose : Chooser) (history : List TimedCommand) (base : ℕ) (image : Image) → M.is_chooser choose →
            AllByRecursion M.takes history →
            Represents D.Disk M.Book.fits M.holds choose history base (length history) self.now disk.old →
            D.Disk.seen disk.old ≡ Some image →
            HasBegun (text range.now (exported (state_after choose history) index.now)) (W.given out.old) (W.given out.new)) }
        ensures sound { (file : File) (at : ℕ) → result ≡ Err (ExportFault.Damaged file at) →
            (choose : Chooser) (history : List TimedCommand) (base : ℕ) (image : Image) →
            M.is_chooser choose → AllByRecursion M.takes history →
            Represents D.Disk M.Book.fits M.holds choose history base (length history) self.now disk.old →
            D.Disk.seen disk.old ≡ Some image → ⊥ }
        ensures damaged { (file : File) (at : ℕ) → result ≡ Err (ExportFault.Damaged file at) →
            (choose : Chooser) (history : List TimedCommand) (base k : ℕ) (old : Snapshot) (image : Image) →
            RepresentsStaged M.Book.fits M.holds choose history base k self.now old → D.Disk.seen disk.old ≡ Some image →
            StopsAt range.now image (listed_in (state_after choose history) index.now) file at (W.given out.old) (W.given out.new) }
        ensures bad { (file : File) (at : ℕ) → result ≡ Err (ExportFault.Damaged file at) → (image : Image) →
            D.Disk.seen disk.old ≡ Some image →
            HasBadRecord (buckets_in index.now (M.shown self.now.memory).indexes) image file at }
        ensures later { D.Disk.faults disk.old ≤ D.Disk.faults disk.new }
        ensures cause { IsErrOf result ExportFault.Disk → Rose (D.Disk.faults disk.old) (D.Disk.faults disk.new) }
        ensures grown { W.faults out.old ≤ W.faults out.new }
        ensures output { IsErrOf result ExportFault.Output → Rose (W.faults out.old) (W.faults out.new) }
        ensures same { D.Disk.seen disk.new ≡ D.Disk.seen disk.old }
        ensures images { ImagesStep D.Disk disk.old disk.new Stays }
    {
        if self.is_closed() {
            return Err(ExportFault::Closed);
        }
        let Some(buckets) = buckets_of(self.memory.view(), index) else {
            return Err(ExportFault::UnknownIndex);
        };
        match export_buckets(self.alloc, disk, buckets, range, out) {
            Ok(count) => Ok(count),
            Err(fault) => Err(export_fault_of(fault)),
        }
    }

    /// Writes a line for each event of an index whose time is within the range, bucket by bucket in
    /// the order of their numbers, and answers how many lines these are, 2^64 - 1 at most. The
    /// events of commands that are not committed yet are not in the files, so nothing is staged.
    pub fn export<D: Disk, W: Sink>(
        &mut self,
        disk: &mut D,
        index: &[u8],
        range: &Range,
        out: &mut W,
    ) -> Result<u64, ExportFault>
        // A closed store exports nothing,
        ensures closed { IsErrOf result ExportFault.Closed ↔ (is_closed self.old ≡ true) }
        // and an index is unknown exactly where it is neither configured nor ever had a bucket.
        ensures unknown { (choose : Chooser) (history : List TimedCommand) (base k : ℕ) (old : Snapshot) →
            RepresentsStaged M.Book.fits M.holds choose history base k self.old old →
            IsErrOf result ExportFault.UnknownIndex ↔ (is_seen (state_after choose history) index.now ≡ false) }
        // The lines are those of the events that the history put into the index,
        ensures lines { IfOk result (λ count. (choose : Chooser) (history : List TimedCommand) (base : ℕ) (image : Image) →
            M.is_chooser choose → AllByRecursion M.takes history →
            Represents D.Disk M.Book.fits M.holds choose history base (length history) self.old disk.old →
            D.Disk.seen disk.old ≡ Some image →
            HasWritten (text range.now (exported (state_after choose history) index.now)) (W.given out.old) (W.given out.new)) }
        // and are counted.
        ensures counted { IfOk result (λ count. (choose : Chooser) (history : List TimedCommand) (base : ℕ) (image : Image) →
            M.is_chooser choose → AllByRecursion M.takes history →
            Represents D.Disk M.Book.fits M.holds choose history base (length history) self.old disk.old →
            D.Disk.seen disk.old ≡ Some image →
            count ≡ number range.now (exported (state_after choose history) index.now)) }
        // A fault leaves a front of them.
        ensures begun { OnErr result ((choose : Chooser) (history : List TimedCommand) (base : ℕ) (image : Image) → M.is_chooser choose →
            AllByRecursion M.takes history →
            Represents D.Disk M.Book.fits M.holds choose history base (length history) self.old disk.old →
            D.Disk.seen disk.old ≡ Some image →
            HasBegun (text range.now (exported (state_after choose history) index.now)) (W.given out.old) (W.given out.new)) }
        // A disk that keeps what it was given is not damaged.
        ensures sound { (file : File) (at : ℕ) → result ≡ Err (ExportFault.Damaged file at) →
            (choose : Chooser) (history : List TimedCommand) (base : ℕ) (image : Image) →
            M.is_chooser choose → AllByRecursion M.takes history →
            Represents D.Disk M.Book.fits M.holds choose history base (length history) self.old disk.old →
            D.Disk.seen disk.old ≡ Some image → ⊥ }
        // Damaged comes at the first place where no record ends within the bytes of a bucket that
        // count.
        ensures damaged { (file : File) (at : ℕ) → result ≡ Err (ExportFault.Damaged file at) →
            (choose : Chooser) (history : List TimedCommand) (base k : ℕ) (old : Snapshot) (image : Image) →
            RepresentsStaged M.Book.fits M.holds choose history base k self.old old → D.Disk.seen disk.old ≡ Some image →
            StopsAt range.now image (listed_in (state_after choose history) index.now) file at (W.given out.old) (W.given out.new) }
        // So it is of any disk, as it reads, and of a bucket that memory shows of the index, whatever
        // history they stand for.
        ensures bad { (file : File) (at : ℕ) → result ≡ Err (ExportFault.Damaged file at) → (image : Image) →
            D.Disk.seen disk.old ≡ Some image →
            HasBadRecord (buckets_in index.now (M.shown self.old.memory).indexes) image file at }
        // After a fault of the disk, or damage, the store is closed; else it is as it was.
        ensures closes { is_closed self.new ≡ (is_closed self.old || closes result) }
        ensures unchanged { closes result ≡ false → IsUnchanged self.old self.new }
        ensures memory { self.new.memory ≡ self.old.memory }
        ensures logs { HasSameLogs self.old.committer self.new.committer }
        ensures held { closes result ≡ false → (choose : Chooser) (history : List TimedCommand) (base k : ℕ) →
            Represents D.Disk M.Book.fits M.holds choose history base k self.old disk.old →
            Represents D.Disk M.Book.fits M.holds choose history base k self.new disk.new }
        ensures over { LogsAtEnd D.Disk self.old.committer disk.old → LogsAtEnd D.Disk self.new.committer disk.new }
        ensures measured { KnowsLogLength D.Disk self.old.committer disk.old → KnowsLogLength D.Disk self.new.committer disk.new }
        ensures run { self.new.run ≡ self.old.run }
        ensures later { D.Disk.faults disk.old ≤ D.Disk.faults disk.new }
        ensures cause { IsErrOf result ExportFault.Disk → Rose (D.Disk.faults disk.old) (D.Disk.faults disk.new) }
        ensures grown { W.faults out.old ≤ W.faults out.new }
        ensures output { IsErrOf result ExportFault.Output → Rose (W.faults out.old) (W.faults out.new) }
        // Nothing changes on the disk.
        ensures same { D.Disk.seen disk.new ≡ D.Disk.seen disk.old }
        ensures images { ImagesStep D.Disk disk.old disk.new Stays }
    {
        let answer = self.export_lines(disk, index, range, out);
        if closes(&answer) {
            self.closed = true;
        }
        answer
    }
}
