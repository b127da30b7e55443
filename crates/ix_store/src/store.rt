//! The store. Whoever serves requests, or runs a command of the program, gives it commands and has
//! it commit them.

ghost use Rattle.std.specs.Prelude.{◌≡◌, ◌≤◌, ◌<◌, ◌+◌, ◌^◌, ◌++◌, ◌||◌, ◌&&◌, ◌⊎◌, ◌==◌, ◌↔◌, ℕ, List, [], ◌∷◌, length, take, true, false};
ghost use Rattle.std.specs.Prelude.{Option, Some, None, Ok, Err, IfOk, IfErr, OnOk, OnErr, IsErrOf, IsTrue, if◌then◌else◌, is_some, nat_lt};
ghost use Rattle.std.specs.Prelude.{nat_le};
ghost use Rattle.std.specs.List.{AllByRecursion};
ghost use Rattle.ix_base.specs.Faults.{Rose};
ghost use Rattle.ix_base.specs.declared.files.File.{File};
ghost use Rattle.ix_disk.specs.Image.{Image, bytes_in};
ghost use Rattle.ix_disk.specs.Moments.{Always};
ghost use Rattle.ix_items.specs.Spelling.{HasSpelling};
ghost use Rattle.ix_items.specs.declared.items.Item.TheVariants as items;
ghost use Rattle.ix_commit.specs.Snapshot.{Snapshot, Stages, LogsAtEnd, NothingStaged};
ghost use Rattle.ix_commit.specs.Undo.{IsSame, HasSameLogs};
ghost use Rattle.ix_model.specs.Bounds.{IsRefused};
ghost use Rattle.ix_model.specs.Given.{Chooser};
ghost use Rattle.ix_model.specs.Judged.{draws};
ghost use Rattle.ix_model.specs.Step.{state_after};
ghost use Rattle.ix_model.specs.declared.commands.TimedCommand.{TimedCommand};
ghost use Rattle.ix_store.specs.Counting.{is_turn, capped};
ghost use Rattle.ix_store.specs.Making.{AreProper, IsProper, LeadsThrough, with_last};
ghost use Rattle.ix_store.specs.Remembering.{Remembers};

use crate::group::CommitGroup;
use crate::memory::{Made, StoreMemory};
use ix_base::NoMemory;
use ix_commit::{Committer, StageFault, WriteBatch, stage, stage_both};
use ix_items::Item;
use ix_model::{Accepted, Command, Refusal, TimedCommand};
use std::alloc::Global;

/// A store: the state in memory, what keeps it on a disk, and the numbers of the run.
pub struct Store<M> {
    pub(crate) alloc: Global,
    pub(crate) memory: M,
    pub(crate) committer: Committer,
    /// The number of the run, which no other run of the disk has.
    pub(crate) run: u64,
    /// How many numbers the run has drawn.
    pub(crate) drawn: u64,
    /// How many of them are committed.
    pub(crate) committed: u64,
    /// What the commands since the last commit come to.
    pub(crate) group: CommitGroup,
    /// Whether an export met a fault of the disk, or damage. The committer says so of a commit.
    pub(crate) closed: bool,
}

/// It is written out, so that each place where one is let go is a call of it, which is proved once.
impl<M: Drop> Drop for Store<M> {
    fn drop(self) {
        let Store {
            alloc: _,
            memory: _,
            committer: _,
            run: _,
            drawn: _,
            committed: _,
            group: _,
            closed: _,
        } = self;
    }
}

/// Whether a command draws a number of the run.
fn draws(command: &Command) -> bool
    ensures { result ≡ draws command.now }
{
    match command {
        Command::Block { .. } | Command::End { .. } | Command::Direct { .. } => true,
        Command::Begin { .. } | Command::Tick | Command::Roll { .. } => false,
        Command::Thaw { .. } | Command::Configure { .. } => false,
    }
}

/// Whether a command is to be committed at once.
fn is_turn(command: &Command) -> bool
    ensures { result ≡ is_turn command.now }
{
    match command {
        Command::Tick | Command::Configure { .. } => true,
        Command::Block { .. } | Command::End { .. } | Command::Direct { .. } => false,
        Command::Begin { .. } | Command::Roll { .. } | Command::Thaw { .. } => false,
    }
}

/// The draft with one item more.
fn with_last(draft: WriteBatch, item: Item) -> Result<WriteBatch, NoMemory>
    requires draft { IsProper draft }
    requires item { HasSpelling item }
    ensures made { IfOk result (λ made. made ≡ with_last item draft) }
    ensures proper { IfOk result (λ made. IsProper made) }
{
    let mut items = draft.items;
    items.push(item)?;
    Ok(WriteBatch {
        pieces: draft.pieces,
        copies: draft.copies,
        items,
    })
}

/// Stages a draft, and one before it where there is one, or nothing.
fn stage_drafts(
    committer: &mut Committer,
    alloc: Global,
    first: Option<WriteBatch>,
    second: WriteBatch,
) -> Result<(), StageFault>
    requires { AreProper first second }
    ensures staged { (old new mid to : Snapshot) → Stages committer.old old new → LeadsThrough first second old new mid to →
        OnOk result (Stages committer.new old to) }
    ensures err { OnErr result (IsSame committer.old committer.new) }
    ensures logs { HasSameLogs committer.old committer.new }
    ensures bytes { committer.new.bytes ≡ committer.old.bytes }
{
    match first {
        None => stage(committer, alloc, second),
        Some(first) => stage_both(committer, alloc, first, second),
    }
}

/// Stages a draft with one item more, and one before it where there is one, or nothing.
fn stage_last(
    committer: &mut Committer,
    alloc: Global,
    first: Option<WriteBatch>,
    second: WriteBatch,
    last: Item,
) -> Result<(), NoMemory>
    requires drafts { AreProper first second }
    requires item { HasSpelling last }
    ensures staged { (old new mid to : Snapshot) → Stages committer.old old new →
        LeadsThrough first (with_last last second) old new mid to →
        OnOk result (Stages committer.new old to) }
    ensures err { OnErr result (IsSame committer.old committer.new) }
    ensures logs { HasSameLogs committer.old committer.new }
    ensures bytes { committer.new.bytes ≡ committer.old.bytes }
{
    let second = with_last(second, last)?;
    match stage_drafts(committer, alloc, first, second) {
        Ok(()) => Ok(()),
        Err(_) => Err(NoMemory),
    }
}

impl<M: StoreMemory + Drop> Store<M> {
    ghost use Rattle.ix_store.specs.Holding.{RepresentsStaged, IsAccepted, IsUnchanged, HasSameRun, holding, is_closed};

    /// Stages what was worked out, and takes it, or does nothing.
    fn take(&mut self, made: Made<M::NextState>, turned: bool) -> Result<(), NoMemory>
        requires proper { AreProper made.first made.second }
        requires room { M.has_room self.old.memory made.next }
        ensures memory { OnOk result ((choose : Chooser) (history : List TimedCommand) → M.ready choose history self.old.memory made.next →
            M.holds choose history self.new.memory) }
        ensures staged { (old new mid to : Snapshot) → Stages self.old.committer old new →
            LeadsThrough made.first (with_last (items.Removals (self.old.group.done_with ++ made.done_with)) made.second) old new mid to →
            OnOk result (Stages self.new.committer old to) }
        ensures done { OnOk result (self.new.group.done_with ≡ self.old.group.done_with ++ made.done_with) }
        ensures weight { OnOk result (self.new.group.weight ≡ capped (self.old.group.weight + made.weight)) }
        ensures turned { OnOk result (self.new.group.turned ≡ (self.old.group.turned || (turned || is_some made.first))) }
        ensures waiting { OnOk result (self.new.group.waiting ≡ true) }
        ensures same { HasSameRun self.old self.new }
        ensures bytes { self.new.committer.bytes ≡ self.old.committer.bytes }
        ensures err { OnErr result (IsUnchanged self.old self.new) }
    {
        let turned = turned || made.first.is_some();
        let files = made.done_with.as_slice();
        match self
            .group
            .with_removals(self.alloc, files, made.weight, turned)
        {
            Ok((group, last)) => self.take_with(made, group, last),
            Err(fault) => {
                // It is let go by a call: where a function ends early with it, each of its fields
                // is let go there.
                drop(made);
                Err(fault)
            }
        }
    }

    /// Stages what was worked out with one item more, and takes it with the group, or does nothing.
    fn take_with(
        &mut self,
        made: Made<M::NextState>,
        group: CommitGroup,
        last: Item,
    ) -> Result<(), NoMemory>
        requires proper { AreProper made.first made.second }
        requires item { HasSpelling last }
        requires room { M.has_room self.old.memory made.next }
        ensures memory { OnOk result ((choose : Chooser) (history : List TimedCommand) → M.ready choose history self.old.memory made.next →
            M.holds choose history self.new.memory) }
        ensures staged { (old new mid to : Snapshot) → Stages self.old.committer old new →
            LeadsThrough made.first (with_last last made.second) old new mid to → OnOk result (Stages self.new.committer old to) }
        ensures group { OnOk result (self.new.group ≡ group) }
        ensures same { HasSameRun self.old self.new }
        ensures bytes { self.new.committer.bytes ≡ self.old.committer.bytes }
        ensures err { OnErr result (IsUnchanged self.old self.new) }
    {
        stage_last(
            &mut self.committer,
            self.alloc,
            made.first,
            made.second,
            last,
        )?;
        self.memory.install(made.next);
        self.group = group;
        Ok(())
    }

    /// Draws the next number, where one is drawn.
    fn draw(&mut self, draws: bool) -> Option<u64>
        ensures number { result ≡ (if draws then Some self.old.drawn else None) }
        ensures drawn { self.new.drawn ≡ (if draws then capped (self.old.drawn + 1) else self.old.drawn) }
        ensures memory { self.new.memory ≡ self.old.memory }
        ensures committer { self.new.committer ≡ self.old.committer }
        ensures run { self.new.run ≡ self.old.run }
        ensures committed { self.new.committed ≡ self.old.committed }
        ensures group { self.new.group ≡ self.old.group }
        ensures closed { self.new.closed ≡ self.old.closed }
    {
        if !draws {
            return None;
        }
        let number = self.drawn;
        self.drawn = number.saturating_add(1);
        Some(number)
    }

    /// Whether an earlier call met a fault of the disk, or damage. A closed store accepts and
    /// exports nothing: it is to be mounted again.
    pub fn is_closed(&self) -> bool
        ensures { result ≡ is_closed self.now }
    {
        self.committer.is_closed() || self.closed
    }

    /// Accepts a command, or leaves all as it was. It makes no call of a disk: the command is
    /// staged for the next commit.
    pub fn accept(&mut self, command: Command, moment: i64) -> Result<Accepted, Refusal>
        requires { M.takes (record { command = command; moment = moment }) }
        // An accepted command is behind the others.
        ensures accepted { IfOk result (λ answer. (choose : Chooser) (history : List TimedCommand) (base k : ℕ) (old : Snapshot) →
            M.is_chooser choose → AllByRecursion M.takes history →
            RepresentsStaged M.Book.fits M.holds choose history base k self.old old →
            IsAccepted M.Book.fits M.holds (holding choose history base k) (record { command = command; moment = moment }) self.old self.new
            old answer) }
        // A refusal has its cause,
        ensures refused { IfErr result (λ refusal. (choose : Chooser) (history : List TimedCommand) (base k : ℕ) (old : Snapshot) →
            M.is_chooser choose → AllByRecursion M.takes history →
            RepresentsStaged M.Book.fits M.holds choose history base k self.old old →
            IsRefused choose false self.old.drawn (state_after choose history) (record { command = command; moment = moment }) refusal) }
        // and leaves all as it was.
        ensures err { OnErr result (IsUnchanged self.old self.new) }
        // After a fault of the disk no command is accepted.
        ensures closed { is_closed self.old ≡ true → result ≡ Err Refusal.Closed }
        // The logs are left alone, and the run goes on.
        ensures logs { HasSameLogs self.old.committer self.new.committer }
        ensures bytes { self.new.committer.bytes ≡ self.old.committer.bytes }
        ensures run { self.new.run ≡ self.old.run }
        // Memory goes on holding what it held, with the command behind it where that is accepted,
        // whatever stands on the disk.
        ensures remembers { Remembers M.is_chooser M.takes M.holds self.old.memory self.new.memory }
    {
        if self.is_closed() {
            drop(command);
            return Err(Refusal::Closed);
        }
        let draws = draws(&command);
        let turned = is_turn(&command);
        let order = TimedCommand { command, moment };
        let made = self.memory.prepare(self.alloc, order, self.drawn)?;
        let moved = made.moved;
        match self.take(made, turned) {
            Ok(()) => {}
            Err(_) => return Err(Refusal::NoMemory),
        }
        let number = self.draw(draws);
        Ok(Accepted {
            run: self.run,
            number,
            moved,
        })
    }
}
