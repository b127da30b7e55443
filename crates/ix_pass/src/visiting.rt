//! A watched file is visited: its channel is opened where it has to be, what is new is added, and
//! the channel is ended where that is asked for.

ghost use Rattle.std.specs.Prelude.{◌≡◌, ◌≤◌, ◌&&◌, ℕ, ℤ, Bool, List, Option, true, length, IfOk, IfErr, IfSome, IsErrOf};
ghost use Rattle.std.specs.Option.{option_map};
ghost use Rattle.ix_base.specs.Faults.{Rose};
ghost use Rattle.ix_base.specs.declared.events.Spot.{Spot as Kept};
ghost use Rattle.ix_fs.specs.Trees.{bytes_at};
ghost use Rattle.ix_commit.specs.Snapshot.{LogsAtEnd, Snapshot};
ghost use Rattle.ix_monitor.specs.Steps.{plan};
ghost use Rattle.ix_model.specs.Given.{Chooser};
ghost use Rattle.ix_model.specs.Judged.{is_begun};
ghost use Rattle.ix_model.specs.Step.{state_after};
ghost use Rattle.ix_model.specs.declared.commands.Command.TheVariants.{Begin, End};
ghost use Rattle.ix_model.specs.declared.commands.TimedCommand.{TimedCommand};
ghost use Rattle.ix_store.specs.Holding.{Represents, RepresentsStaged};
ghost use Rattle.ix_run.specs.declared.giving.GiveFault.{GiveFault as Refused};
ghost use Rattle.ix_watch.specs.Visits.{added, seen_of};
ghost use Rattle.ix_watch.specs.Watching.{channel_of, kept_of};
ghost use Rattle.ix_pass.specs.Filling.{gave_of, Fills};
ghost use Rattle.ix_pass.specs.Giving.{Went, order_at, kind, change};
ghost use Rattle.ix_pass.specs.Passing.{MayVisit};
ghost use Rattle.ix_pass.specs.Visiting.{IsWithin, ReadsOn, Steps, Visits, looked_at, reading_on};

use crate::fault::PassFault;
use crate::filling::Watch;
use crate::looking::look_at;
use crate::opening::{Opening, channel_of, end_if, open};
use ix_base::{Clock, NoMemory};
use ix_disk::Disk;
use ix_fs::Tree;
use ix_monitor::{Seen, Step, Watched, plan};
use ix_store::{Listing, Store};
use ix_watch::Visited;
use std::alloc::Global;

/// A file that is read on in, from a place on.
#[derive(Clone, Copy)]
struct Reading<'a> {
    alloc: Global,
    file: &'a Watched,
    seen: &'a Seen,
    from: u64,
    opening: Opening,
    close: bool,
}

impl Reading<'_> {
    /// Adds the bytes of the file from the place on.
    fn fill<M: Listing + Drop, D: Disk, C: Clock, T: Tree>(
        self,
        store: &mut Store<M>,
        disk: &mut D,
        clock: &mut C,
        tree: &mut T,
        room: &mut [u8],
    ) -> Result<u64, PassFault>
        requires over { LogsAtEnd D.Disk store.old.committer disk.old }
        requires room { length room.old ≡ 1048576 }
        requires from { self.from ≤ self.seen.now.size }
        requires takes { (moment : ℤ) (at : ℕ) (bytes : List ℕ) → length bytes ≤ 1048576 →
            M.takes (order_at (added self.file.now.path self.seen.now.head at bytes) moment) }
        ensures fills { Fills result (T.files tree.old) self.entry.file.now.path self.entry.seen.now.head self.entry.from
            self.entry.seen.now.size (C.ahead clock.old) (C.ahead clock.new)
            (λ orders. Went D.Disk (kind M.is_chooser M.takes M.Book.fits M.holds) (gave_of result) orders
            (change store.old disk.old store.new disk.new)) }
        ensures failed { IsErrOf result PassFault.Input → Rose (T.faults tree.old) (T.faults tree.new) }
        ensures same { T.files tree.new ≡ T.files tree.old }
        ensures later { T.faults tree.old ≤ T.faults tree.new }
        ensures later_missing { T.missing tree.old ≤ T.missing tree.new }
    {
        let watch = Watch {
            alloc: self.alloc,
            path: self.file.path.as_slice(),
            head: self.seen.head.as_slice(),
            size: self.seen.size,
        };
        watch.fill(store, disk, clock, tree, room, self.from)
    }

    /// Opens the channel, adds the bytes of the file from the place on, and ends the channel where
    /// that is asked for. Answers how far the file was read.
    fn run<M: Listing + Drop, D: Disk, C: Clock, T: Tree>(
        self,
        store: &mut Store<M>,
        disk: &mut D,
        clock: &mut C,
        tree: &mut T,
        room: &mut [u8],
    ) -> Result<u64, PassFault>
        requires over { LogsAtEnd D.Disk store.old.committer disk.old }
        requires room { length room.old ≡ 1048576 }
        requires from { self.from ≤ self.seen.now.size }
        requires short { length self.seen.now.head ≤ 256 }
        requires takes { MayVisit M.takes self.file.now }
        ensures reads { ReadsOn result (T.files tree.old)
            (reading_on self.entry.file.now self.entry.seen.now self.entry.from self.entry.opening.is_open self.entry.opening.again
            self.entry.close) (C.ahead clock.old) (C.ahead clock.new)
            (λ orders. Went D.Disk (kind M.is_chooser M.takes M.Book.fits M.holds) (gave_of result) orders
            (change store.old disk.old store.new disk.new)) }
        ensures failed { IsErrOf result PassFault.Input → Rose (T.faults tree.old) (T.faults tree.new) }
        ensures same { T.files tree.new ≡ T.files tree.old }
        ensures later { T.faults tree.old ≤ T.faults tree.new }
        ensures later_missing { T.missing tree.old ≤ T.missing tree.new }
    {
        match open(self.alloc, store, disk, clock, self.file, self.opening) {
            Ok(()) => {}
            Err(fault) => return Err(PassFault::Given(fault)),
        }
        let to = match self.fill(store, disk, clock, tree, room) {
            Ok(to) => to,
            Err(fault) => return Err(fault),
        };
        match end_if(self.alloc, store, disk, clock, self.file, self.close) {
            Ok(()) => Ok(to),
            Err(fault) => Err(PassFault::Given(fault)),
        }
    }
}

/// A file that was looked at.
#[derive(Clone, Copy)]
struct Looked<'a> {
    alloc: Global,
    file: &'a Watched,
    seen: &'a Seen,
    is_open: bool,
    close: bool,
}

impl Looked<'_> {
    /// Takes a step with the file.
    fn take<M: Listing + Drop, D: Disk, C: Clock, T: Tree>(
        self,
        store: &mut Store<M>,
        disk: &mut D,
        clock: &mut C,
        tree: &mut T,
        room: &mut [u8],
        step: Step,
    ) -> Result<Visited, PassFault>
        requires over { LogsAtEnd D.Disk store.old.committer disk.old }
        requires room { length room.old ≡ 1048576 }
        requires within { IsWithin step self.seen.now.size }
        requires short { length self.seen.now.head ≤ 256 }
        requires takes { MayVisit M.takes self.file.now }
        ensures steps { Steps result (T.files tree.old)
            (looked_at self.entry.file.now self.entry.seen.now self.entry.is_open self.entry.close) step (C.ahead clock.old)
            (C.ahead clock.new)
            (λ orders. Went D.Disk (kind M.is_chooser M.takes M.Book.fits M.holds) (gave_of result) orders
            (change store.old disk.old store.new disk.new)) }
        ensures failed { IsErrOf result PassFault.Input → Rose (T.faults tree.old) (T.faults tree.new) }
        ensures same { T.files tree.new ≡ T.files tree.old }
        ensures later { T.faults tree.old ≤ T.faults tree.new }
        ensures later_missing { T.missing tree.old ≤ T.missing tree.new }
    {
        let Looked {
            alloc,
            file,
            seen,
            is_open,
            close,
        } = self;
        let mut reading = Reading {
            alloc,
            file,
            seen,
            from: 0,
            opening: Opening {
                is_open,
                again: true,
            },
            close,
        };
        match step {
            Step::Skip => match end_if(alloc, store, disk, clock, file, is_open && close) {
                Ok(()) => Ok(Visited::Skipped),
                Err(fault) => Err(PassFault::Given(fault)),
            },
            Step::From(from) => {
                reading.from = from;
                reading.opening.again = false;
                match reading.run(store, disk, clock, tree, room) {
                    Ok(to) => Ok(Visited::ReadOn { from, to }),
                    Err(fault) => Err(fault),
                }
            }
            Step::Again => match reading.run(store, disk, clock, tree, room) {
                Ok(to) => Ok(Visited::ReadAgain { to }),
                Err(fault) => Err(fault),
            },
        }
    }
}

/// Whether the channel of a file is open.
fn is_open_in<M: Listing + Drop>(
    alloc: Global,
    store: &Store<M>,
    file: &Watched,
) -> Result<bool, NoMemory>
    ensures { IfOk result (λ is_open. (choose : Chooser) (history : List TimedCommand) (base k : ℕ) (old : Snapshot) →
        RepresentsStaged M.Book.fits M.holds choose history base k store.now old →
        is_open ≡ is_begun (state_after choose history) (channel_of file.now.path)) }
{
    let name = channel_of(alloc, file.path.as_slice())?;
    Ok(store.has_channel(name.as_slice()))
}

/// The step that is to be taken with a file.
fn step_in<M: Listing + Drop>(store: &Store<M>, file: &Watched, seen: &Seen) -> Step
    ensures is { (kept : Option Kept) × (result ≡ plan seen.now kept)
        × ((choose : Chooser) (history : List TimedCommand) (base k : ℕ) (old : Snapshot) →
        RepresentsStaged M.Book.fits M.holds choose history base k store.now old →
        kept ≡ kept_of (state_after choose history) file.now.path) }
    ensures within { IsWithin result seen.now.size }
{
    plan(seen, store.spot(file.path.as_slice()))
}

/// A file that is to be visited.
#[derive(Clone, Copy)]
pub(crate) struct Visitor<'a> {
    pub(crate) alloc: Global,
    pub(crate) file: &'a Watched,
    pub(crate) close: bool,
}

impl Visitor<'_> {
    /// Visits the file: reads on in it, or reads it again where it is another one, and gives what
    /// is new to its channel.
    pub(crate) fn visit<M: Listing + Drop, D: Disk, C: Clock, T: Tree>(
        self,
        store: &mut Store<M>,
        disk: &mut D,
        clock: &mut C,
        tree: &mut T,
        room: &mut [u8],
    ) -> Result<Visited, PassFault>
        requires over { LogsAtEnd D.Disk store.old.committer disk.old }
        requires room { length room.old ≡ 1048576 }
        requires takes { MayVisit M.takes self.file.now }
        ensures visits { Visits result (T.files tree.old) self.entry.file.now self.entry.close (C.ahead clock.old) (C.ahead clock.new)
            (λ kept is_open. (choose : Chooser) (history : List TimedCommand) (base k : ℕ) →
            Represents D.Disk M.Book.fits M.holds choose history base k store.old disk.old →
            (kept ≡ kept_of (state_after choose history) self.entry.file.now.path)
            × (is_open ≡ is_begun (state_after choose history) (channel_of self.entry.file.now.path)))
            (λ orders. Went D.Disk (kind M.is_chooser M.takes M.Book.fits M.holds) (gave_of result) orders
            (change store.old disk.old store.new disk.new)) }
        ensures failed { IsErrOf result PassFault.Input → Rose (T.faults tree.old) (T.faults tree.new) }
        ensures same { T.files tree.new ≡ T.files tree.old }
        ensures later { T.faults tree.old ≤ T.faults tree.new }
        ensures later_missing { T.missing tree.old ≤ T.missing tree.new }
    {
        let file = self.file;
        let seen = match look_at(self.alloc, tree, file) {
            Ok(Some(seen)) => seen,
            Ok(None) => return Ok(Visited::Missing),
            Err(fault) => return Err(fault),
        };
        let is_open = match is_open_in(self.alloc, store, file) {
            Ok(is_open) => is_open,
            Err(_) => return Err(PassFault::Memory),
        };
        let step = step_in(store, file, &seen);
        let looked = Looked {
            alloc: self.alloc,
            file,
            seen: &seen,
            is_open,
            close: self.close,
        };
        looked.take(store, disk, clock, tree, room, step)
    }
}
