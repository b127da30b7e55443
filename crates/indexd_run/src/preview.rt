//! A preview whose events are stored: the input is given to the store as the stream of a channel.
//! The program calls `run_preview`.

ghost use Rattle.std.specs.Prelude.{◌≡◌, ◌≤◌, ℕ, ℤ, List, length, true, false, Some, Err, IfErr, OnOk, IsErrOf};
ghost use Rattle.std.specs.List.{AllByRecursion};
ghost use Rattle.ix_base.specs.Faults.{Rose};
ghost use Rattle.ix_base.specs.Told.{Told};
ghost use Rattle.ix_base.specs.declared.files.File.{File};
ghost use Rattle.ix_disk.specs.Image.{Image};
ghost use Rattle.ix_commit.specs.Contents.{Anyhow};
ghost use Rattle.ix_model.specs.Given.{Chooser};
ghost use Rattle.ix_model.specs.declared.commands.TimedCommand.{TimedCommand};
ghost use Rattle.ix_run.specs.Storing.{begin_order, block_order, end_order, IsBlock};
ghost use Rattle.ix_run.specs.Resting.{CheckpointReady, ReadsShort};
ghost use Rattle.ix_run.specs.Running.{outset};
ghost use Rattle.ix_store.specs.Holding.{Represents};
ghost use Rattle.indexd_run.specs.Blamed.{Blames, ReadsBad};
ghost use Rattle.indexd_run.specs.Ends.{Ends};
ghost use Rattle.indexd_run.specs.Opened.{Begins, configuring, WhenOpen, HasRun, HasStopped, Past, course};
ghost use Rattle.indexd_run.specs.Previews as defs;
ghost use Rattle.indexd_run.specs.Previews.{HasTaken, Fed, HasFed};
ghost use Rattle.indexd_run.specs.Shortened.{is_short, EndsShort};
ghost use Rattle.indexd_run.specs.Stops.{loses_in, is_output};

use crate::finish::{make_short, stop_run};
use crate::opening::open;
use crate::stop::{Stop, of_run};
use ix_base::{ChannelMeta, Clock, Source};
use ix_disk::Disk;
use ix_life::LimitSet;
use ix_model::Config;
use ix_run::{Arrival, store_input};
use ix_store::{Listing, Store};
use std::alloc::Global;

/// Whether an index is stated that is not configured.
fn is_missing(limits: &LimitSet, origin: &ChannelMeta) -> bool
    ensures { result ≡ defs.is_missing limits.now origin.now }
{
    match &origin.index {
        Some(index) => limits.limits(index.as_slice()).is_none(),
        None => false,
    }
}

/// Stores an input in an open store. An index that is stated and not configured is missed before
/// anything is read.
fn store_all<M: Listing + Drop, D: Disk, S: Source>(
    alloc: Global,
    store: &mut Store<M>,
    disk: &mut D,
    input: &mut S,
    arrival: Arrival,
) -> Result<(), Stop>
    requires rest { CheckpointReady D.Disk store.old.committer disk.old }
    requires ends { M.takes (end_order arrival.moment) }
    requires begins { M.takes (begin_order arrival.origin arrival.moment) }
    requires adds { (bytes : List ℕ) → IsBlock bytes → M.takes (block_order arrival.moment bytes) }
    ensures rest { loses_in result ≡ false → CheckpointReady D.Disk store.new.committer disk.new }
    ensures ends { (choose : Chooser) (history : List TimedCommand) (base : ℕ) → M.is_chooser choose → AllByRecursion M.takes history →
        Represents D.Disk M.Book.fits M.holds choose history base (length history) store.old disk.old →
        Ends (loses_in result) D.Disk M.Book.fits M.holds (outset choose history base (length history) store.old.run disk.old)
        (Fed choose base history arrival.origin arrival.moment result (S.left input.old) (S.left input.new)) store.new disk.new }
    ensures read { HasTaken result (S.left input.old) (S.left input.new) }
    ensures quiet { IfErr result (λ stop. is_output stop ≡ false) }
    ensures undamaged { (file : File) (at : ℕ) → result ≡ Err (Stop.Damaged file at) →
        (choose : Chooser) (history : List TimedCommand) (base : ℕ) → M.is_chooser choose →
        AllByRecursion M.takes history → Represents D.Disk M.Book.fits M.holds choose history base (length history) store.old disk.old →
        (image : Image) → D.Disk.seen disk.new ≡ Some image → ⊥ }
    ensures placed { (file : File) (at : ℕ) → result ≡ Err (Stop.Damaged file at) → ReadsBad D.Disk disk.new file at }
    ensures told { Told Anyhow (D.Disk.seen disk.old) (D.Disk.seen disk.new) }
    ensures later { D.Disk.faults disk.old ≤ D.Disk.faults disk.new }
    ensures cause { IsErrOf result Stop.Disk → Rose (D.Disk.faults disk.old) (D.Disk.faults disk.new) }
    ensures read_later { S.faults input.old ≤ S.faults input.new }
    ensures input { IsErrOf result Stop.Input → Rose (S.faults input.old) (S.faults input.new) }
{
    if is_missing(store.limits(), &arrival.origin) {
        return Err(Stop::NotFound);
    }
    match store_input(alloc, store, disk, input, arrival) {
        Ok(()) => Ok(()),
        Err(fault) => Err(of_run(fault)),
    }
}

/// Stores an input in an open store, and makes the log short where it is long.
fn store_preview<M: Listing + Drop, D: Disk, S: Source>(
    alloc: Global,
    store: &mut Store<M>,
    disk: &mut D,
    input: &mut S,
    arrival: Arrival,
) -> Result<(), Stop>
    requires rest { CheckpointReady D.Disk store.old.committer disk.old }
    requires ends { M.takes (end_order arrival.moment) }
    requires begins { M.takes (begin_order arrival.origin arrival.moment) }
    requires adds { (bytes : List ℕ) → IsBlock bytes → M.takes (block_order arrival.moment bytes) }
    ensures ends { (choose : Chooser) (history : List TimedCommand) (base : ℕ) → M.is_chooser choose → AllByRecursion M.takes history →
        Represents D.Disk M.Book.fits M.holds choose history base (length history) store.old disk.old →
        Ends (loses_in result) D.Disk M.Book.fits M.holds (outset choose history base (length history) store.old.run disk.old)
        (Fed choose base history arrival.origin arrival.moment result (S.left input.old) (S.left input.new)) store.new disk.new }
    ensures read { HasTaken result (S.left input.old) (S.left input.new) }
    ensures quiet { IfErr result (λ stop. is_output stop ≡ false) }
    ensures short { is_short result ≡ true → ReadsShort D.Disk disk.new }
    ensures undamaged { (file : File) (at : ℕ) → result ≡ Err (Stop.Damaged file at) →
        (choose : Chooser) (history : List TimedCommand) (base : ℕ) → M.is_chooser choose →
        AllByRecursion M.takes history → Represents D.Disk M.Book.fits M.holds choose history base (length history) store.old disk.old →
        (image : Image) → D.Disk.seen disk.new ≡ Some image → ⊥ }
    ensures placed { (file : File) (at : ℕ) → result ≡ Err (Stop.Damaged file at) → ReadsBad D.Disk disk.new file at }
    ensures told { Told Anyhow (D.Disk.seen disk.old) (D.Disk.seen disk.new) }
    ensures later { D.Disk.faults disk.old ≤ D.Disk.faults disk.new }
    ensures cause { IsErrOf result Stop.Disk → Rose (D.Disk.faults disk.old) (D.Disk.faults disk.new) }
    ensures read_later { S.faults input.old ≤ S.faults input.new }
    ensures input { IsErrOf result Stop.Input → Rose (S.faults input.old) (S.faults input.new) }
{
    match store_all(alloc, store, disk, input, arrival) {
        Ok(()) => make_short(store, disk),
        Err(stop) => Err(stop_run(store, disk, stop)),
    }
}

/// Opens the store of a disk with these settings, and stores an input in it, whose bytes all arrive
/// at the moment that the clock shows before it is read. Behind the last commit, also where it
/// stops, it makes the log short where that is long: for want of memory, or where the disk fails,
/// it stops for that in place of any other end.
pub fn run_preview<M: Listing + Drop, D: Disk, C: Clock, S: Source>(
    alloc: Global,
    disk: &mut D,
    clock: &mut C,
    config: Config,
    input: &mut S,
    origin: ChannelMeta,
) -> Result<(), Stop>
    requires settings { (moment : ℤ) → M.takes (configuring config moment) }
    requires ends { (moment : ℤ) → M.takes (end_order moment) }
    requires begins { (moment : ℤ) → M.takes (begin_order origin moment) }
    requires adds { (moment : ℤ) (bytes : List ℕ) → IsBlock bytes → M.takes (block_order moment bytes) }
    // A run that is done has given all the commands that store the whole input, and every image at
    // the exit has them.
    ensures done { OnOk result ((past : Past) → M.is_chooser past.choose → AllByRecursion M.takes past.history →
        Begins D.Disk M.Book.fits past disk.old → (image : Image) → D.Disk.seen disk.old ≡ Some image →
        HasRun false D.Disk M.takes M.Book.fits past (WhenOpen past.choose config (C.ahead clock.old)
        (HasFed past.choose origin result (C.ahead clock.new) (S.left input.old) (S.left input.new))) disk.old disk.new) }
    // One that stops has a cause, and has given a front of those that store what it has read.
    ensures stopped { IfErr result (λ stop. (past : Past) → M.is_chooser past.choose → AllByRecursion M.takes past.history →
        Begins D.Disk M.Book.fits past disk.old → (image : Image) → D.Disk.seen disk.old ≡ Some image →
        HasStopped stop D.Disk M.takes M.Book.fits past (course config (C.ahead clock.old) (C.ahead clock.new) disk.old disk.new)
        (S.left input.new ≡ S.left input.old)
        (HasFed past.choose origin result (C.ahead clock.new) (S.left input.old) (S.left input.new))) }
    // What is on the disk is not damaged where it keeps what was committed and tells what it reads,
    ensures undamaged { (file : File) (at : ℕ) → result ≡ Err (Stop.Damaged file at) → (past : Past) → M.is_chooser past.choose →
        AllByRecursion M.takes past.history → Begins D.Disk M.Book.fits past disk.old → (image : Image) →
        D.Disk.seen disk.old ≡ Some image → ⊥ }
    // and what is in memory contradicts nothing.
    ensures sound { IsErrOf result Stop.Inconsistent → (past : Past) → M.is_chooser past.choose → AllByRecursion M.takes past.history →
        Begins D.Disk M.Book.fits past disk.old → (image : Image) → D.Disk.seen disk.old ≡ Some image → ⊥ }
    // Whatever the disk held, a stop blames what the mount or the mounted store has met.
    ensures blamed { IfErr result (λ stop. Blames stop D.Disk M.Book.fits M.gives_none disk.old disk.new) }
    // Its log is not long then, as the disk reads, whatever it stops for; but where memory was
    // short, or the disk has failed or is not sound.
    ensures short { EndsShort D.Disk M.Book.fits result disk.old disk.new }
    ensures read { HasTaken result (S.left input.old) (S.left input.new) }
    ensures quiet { IfErr result (λ stop. is_output stop ≡ false) }
    // A disk that tells what it reads goes on telling.
    ensures told { Told Anyhow (D.Disk.seen disk.old) (D.Disk.seen disk.new) }
    ensures later { D.Disk.faults disk.old ≤ D.Disk.faults disk.new }
    ensures cause { IsErrOf result Stop.Disk → Rose (D.Disk.faults disk.old) (D.Disk.faults disk.new) }
    ensures read_later { S.faults input.old ≤ S.faults input.new }
    ensures input { IsErrOf result Stop.Input → Rose (S.faults input.old) (S.faults input.new) }
{
    let mut store = match open::<M, D, C>(alloc, disk, clock, config) {
        Ok(store) => store,
        Err(stop) => return Err(stop),
    };
    let moment = clock.now();
    store_preview(alloc, &mut store, disk, input, Arrival { origin, moment })
}
