//! An attempt at the first place of a text, kept while bytes come.

ghost use Rattle.std.specs.Prelude.{◌≡◌, [], ◌⊎◌, ◌≤◌, ◌<◌, ℕ, List, Option, None, IfOk, OnOk, length, replicate, slice_get};
ghost use Rattle.ix_pattern.specs.Ways.{ways};
ghost use Rattle.ix_pattern.specs.Rows.{Rows, tree};
ghost use Rattle.ix_pikevm.specs.Leaf.{text_of, at};
ghost use Rattle.ix_pikevm.specs.Acts.{AllKnown};
ghost use Rattle.ix_pikevm.specs.Agrees.{AreEnough};
ghost use Rattle.ix_pikevm.specs.Outcomes.{head_of, Shows};
ghost use Rattle.ix_pikevm.specs.Finders.{IsFinder, HasRoom};
ghost use Rattle.ix_pikevm.specs.Plans.{IsPlan, Knows, IsRoom};
ghost use Rattle.ix_pikevm.specs.Tests.{Counts};
ghost use Rattle.ix_pikevm.specs.Attempts.{so_far, Lasts, IsAttemptOn, IsSettled};
ghost use Rattle.ix_pikevm.specs.declared.program.Program.{Program as Written};

use crate::cells::{Best, Cell, Thread};
use crate::code::Lookahead;
use crate::input::{Input, SIGHT};
use crate::matcher::{Matcher, plan_of};
use crate::matcher_ref::{MatcherRef, Scratch};
use crate::program::Program;
use crate::run::{Outcome, move_on, outcome_of, walk};
use crate::thread_scratch::ThreadScratch;
use ix_base::{NoMemory, Steps};
use ix_pattern::Pattern;
use std::alloc::Global;
use std::mem::swap;
use std::sync::ledger::Ledger;

/// What is kept of an attempt: the place before which all is decided whatever bytes come, and the
/// threads there with what they have come through.
pub struct Attempt {
    pub place: usize,
    pub threads: Vec<Thread>,
    pub cells: Vec<Cell>,
    pub best: Best,
}

/// It is written out, so that each place where one is let go is a call of it, which is proved once.
impl Drop for Attempt {
    fn drop(self) {
        let Attempt {
            place: _,
            threads: _,
            cells: _,
            best: _,
        } = self;
    }
}

impl Attempt {
    /// What an attempt works in, before one was begun. It has no thread and takes no memory.
    pub fn unbegun(alloc: Global) -> Self
        ensures threads { result.threads.items ≡ [] }
        ensures cells { result.cells.items ≡ [] }
    {
        Attempt {
            place: 0,
            threads: Vec::new(alloc),
            cells: Vec::new(alloc),
            best: Best::No,
        }
    }

    /// Makes it an attempt of which no byte has come, in the memory that the one before it worked
    /// in.
    pub fn begin(&mut self, program: &Program) -> Result<(), NoMemory>
        requires { program.now.start < length program.now.code.items }
        ensures { OnOk result ((rows : Rows) (before : Option ℕ) (bytes : List ℕ) →
            IsAttemptOn rows program.entry.now self.new before bytes) }
    {
        self.cells.clear();
        self.threads.clear();
        self.threads.push(Thread {
            pc: program.start,
            trail: 0,
        })?;
        self.place = 0;
        self.best = Best::No;
        Ok(())
    }

    /// A copy of it, which goes on apart from it.
    pub fn copy(&self) -> Result<Attempt, NoMemory>
        ensures { IfOk result (λ a. (rows : Rows) (program : Written) (before : Option ℕ) (bytes : List ℕ) →
            IsAttemptOn rows program self.now before bytes → IsAttemptOn rows program a before bytes) }
    {
        let threads = self.threads.to_vec(*self.threads.allocator())?;
        let cells = self.cells.to_vec(*self.cells.allocator())?;
        Ok(Attempt {
            place: self.place,
            threads,
            cells,
            best: self.best,
        })
    }
}

/// How many bytes from a place on decide what is tested there.
fn enough(asks: &[Lookahead]) -> usize
    ensures { AreEnough asks.now result }
{
    if asks.is_empty() { 2 } else { SIGHT }
}

/// The last place behind which enough bytes have come, or this one where that is later or the text
/// is whole.
fn settled_place(asks: &[Lookahead], input: Input<'_>, place: usize) -> usize
    requires within { place ≤ length input.bytes.now }
    ensures later { place ≤ result }
    ensures within { result ≤ length input.entry.bytes.now }
    ensures settled { (result ≡ place) ⊎ IsSettled asks.now (text_of input.entry) result }
{
    let behind = enough(asks);
    let all = input.bytes.len();
    if input.unfinished && all >= behind && place < all - behind {
        all - behind
    } else {
        place
    }
}

/// Puts the threads of an attempt on the stack. Their cells go there too, in place of what was
/// there.
fn take_up(attempt: &mut Attempt, work: &mut ThreadScratch) -> Result<(), NoMemory>
    ensures stack { OnOk result (work.new.stack.items ≡ attempt.old.threads.items) }
    ensures cells { work.new.cells ≡ attempt.old.cells }
    ensures marks { work.new.marks ≡ work.old.marks }
    ensures stamp { work.new.stamp ≡ work.old.stamp }
    ensures place { attempt.new.place ≡ attempt.old.place }
    ensures threads { attempt.new.threads ≡ attempt.old.threads }
    ensures best { attempt.new.best ≡ attempt.old.best }
{
    swap(&mut work.cells, &mut attempt.cells);
    work.stack.clear();
    work.stack.extend_from_slice(&attempt.threads)?;
    Ok(())
}

/// Moves the threads on the stack on to the settled place, and keeps a copy of them.
fn keep_up<L: Ledger>(
    plan: MatcherRef<'_>,
    input: Input<'_>,
    attempt: &mut Attempt,
    room: &mut Scratch,
    steps: &mut Steps<L>,
) -> Result<(), NoMemory>
    requires plan { IsPlan plan }
    requires room { IsRoom plan room.old }
    requires known { AllKnown (length plan.code.now) (length room.old.main.cells.items) room.old.main.stack.items }
    requires threads { room.old.main.stack.items ≡ attempt.old.threads.items }
    requires within { attempt.old.place ≤ length input.bytes.now }
    ensures lasts { OnOk result ((start : ℕ) →
        Lasts (Knows plan.entry) plan.entry.code.now (so_far input.entry.before input.entry.bytes.now) start attempt.old.place
        room.old.main.cells.items room.old.main.stack.items attempt.old.best →
        Lasts (Knows plan.entry) plan.entry.code.now (so_far input.entry.before input.entry.bytes.now) start attempt.new.place
        room.new.main.cells.items room.new.main.stack.items attempt.new.best) }
    ensures known { OnOk result (AllKnown (length plan.entry.code.now) (length room.new.main.cells.items) room.new.main.stack.items) }
    ensures threads { OnOk result (room.new.main.stack.items ≡ attempt.new.threads.items) }
    ensures within { OnOk result (attempt.new.place ≤ length input.entry.bytes.now) }
    ensures room { OnOk result (IsRoom plan.entry room.new) }
    ensures counts { Counts plan.entry.tests steps.old steps.new }
{
    let to = settled_place(plan.asks, input, attempt.place);
    if to == attempt.place {
        return Ok(());
    }
    let best = move_on(plan, input, attempt.place, to, attempt.best, room, steps)?;
    attempt.best = best;
    attempt.place = to;
    attempt.threads.clear();
    attempt.threads.extend_from_slice(&room.main.stack)?;
    Ok(())
}

/// What an attempt comes to. A copy of its threads walks to the end of what has come, and they stay
/// as they are.
fn looked_at<L: Ledger>(
    alloc: Global,
    plan: MatcherRef<'_>,
    count: usize,
    input: Input<'_>,
    attempt: &mut Attempt,
    room: &mut Scratch,
    steps: &mut Steps<L>,
) -> Result<Outcome, NoMemory>
    requires plan { IsPlan plan }
    requires room { IsRoom plan room.old }
    requires known { AllKnown (length plan.code.now) (length attempt.old.cells.items) attempt.old.threads.items }
    requires within { attempt.old.place ≤ length input.bytes.now }
    ensures head { IfOk result (λ o. (start : ℕ) →
        Lasts (Knows plan.entry) plan.entry.code.now (so_far input.entry.before input.entry.bytes.now) start attempt.old.place
        attempt.old.cells.items attempt.old.threads.items attempt.old.best →
        Shows (Knows plan.entry) plan.entry.code.now (text_of input.entry) start 0 (replicate count None) o) }
    ensures place { attempt.new.place ≡ attempt.old.place }
    ensures cells { OnOk result (attempt.new.cells.items ≡ attempt.old.cells.items) }
    ensures threads { attempt.new.threads ≡ attempt.old.threads }
    ensures best { attempt.new.best ≡ attempt.old.best }
    ensures room { OnOk result (IsRoom plan.entry room.new) }
    ensures counts { Counts plan.entry.tests steps.old steps.new }
{
    take_up(attempt, &mut room.main)?;
    let kept = room.main.cells.len();
    let best = walk(plan, input, attempt.place, attempt.best, room, steps)?;
    let outcome = outcome_of(alloc, best, &room.main.cells, count)?;
    room.main.cells.truncate(kept);
    swap(&mut room.main.cells, &mut attempt.cells);
    Ok(outcome)
}

/// Moves the threads of an attempt on to the settled place, and keeps them there.
fn kept_up<L: Ledger>(
    plan: MatcherRef<'_>,
    input: Input<'_>,
    attempt: &mut Attempt,
    room: &mut Scratch,
    steps: &mut Steps<L>,
) -> Result<(), NoMemory>
    requires plan { IsPlan plan }
    requires room { IsRoom plan room.old }
    requires known { AllKnown (length plan.code.now) (length attempt.old.cells.items) attempt.old.threads.items }
    requires within { attempt.old.place ≤ length input.bytes.now }
    ensures lasts { OnOk result ((start : ℕ) →
        Lasts (Knows plan.entry) plan.entry.code.now (so_far input.entry.before input.entry.bytes.now) start attempt.old.place
        attempt.old.cells.items attempt.old.threads.items attempt.old.best →
        Lasts (Knows plan.entry) plan.entry.code.now (so_far input.entry.before input.entry.bytes.now) start attempt.new.place
        attempt.new.cells.items attempt.new.threads.items attempt.new.best) }
    ensures known { OnOk result (AllKnown (length plan.entry.code.now) (length attempt.new.cells.items) attempt.new.threads.items) }
    ensures within { OnOk result (attempt.new.place ≤ length input.entry.bytes.now) }
    ensures room { OnOk result (IsRoom plan.entry room.new) }
    ensures counts { Counts plan.entry.tests steps.old steps.new }
{
    take_up(attempt, &mut room.main)?;
    keep_up(plan, input, attempt, room, steps)?;
    swap(&mut room.main.cells, &mut attempt.cells);
    Ok(())
}

/// Goes on with an attempt by the plan of its pattern. Its threads move on only where it waits for
/// more bytes: an attempt that has come to its end needs none.
fn advance<L: Ledger>(
    alloc: Global,
    plan: MatcherRef<'_>,
    count: usize,
    input: Input<'_>,
    attempt: &mut Attempt,
    room: &mut Scratch,
    steps: &mut Steps<L>,
) -> Result<Outcome, NoMemory>
    requires plan { IsPlan plan }
    requires room { IsRoom plan room.old }
    requires known { AllKnown (length plan.code.now) (length attempt.old.cells.items) attempt.old.threads.items }
    requires within { attempt.old.place ≤ length input.bytes.now }
    ensures head { IfOk result (λ o. (start : ℕ) →
        Lasts (Knows plan.entry) plan.entry.code.now (so_far input.entry.before input.entry.bytes.now) start attempt.old.place
        attempt.old.cells.items attempt.old.threads.items attempt.old.best →
        Shows (Knows plan.entry) plan.entry.code.now (text_of input.entry) start 0 (replicate count None) o) }
    ensures lasts { OnOk result ((start : ℕ) →
        Lasts (Knows plan.entry) plan.entry.code.now (so_far input.entry.before input.entry.bytes.now) start attempt.old.place
        attempt.old.cells.items attempt.old.threads.items attempt.old.best →
        Lasts (Knows plan.entry) plan.entry.code.now (so_far input.entry.before input.entry.bytes.now) start attempt.new.place
        attempt.new.cells.items attempt.new.threads.items attempt.new.best) }
    ensures known { OnOk result (AllKnown (length plan.entry.code.now) (length attempt.new.cells.items) attempt.new.threads.items) }
    ensures within { OnOk result (attempt.new.place ≤ length input.entry.bytes.now) }
    ensures room { OnOk result (IsRoom plan.entry room.new) }
    ensures counts { Counts plan.entry.tests steps.old steps.new }
{
    let outcome = looked_at(alloc, plan, count, input, attempt, room, steps)?;
    if let Outcome::More = outcome {
        kept_up(plan, input, attempt, room, steps)?;
    }
    Ok(outcome)
}

/// Goes on with an attempt at the first place of a text, of which what came before is seen again
/// with what has come since: the head of the ordered list of ways there, where no group has taken
/// part. Tests that the finder's table does not have count as steps.
pub fn go_on<L: Ledger>(
    alloc: Global,
    p: &Pattern,
    finder: &Matcher,
    input: Input<'_>,
    attempt: &mut Attempt,
    room: &mut Scratch,
    steps: &mut Steps<L>,
) -> Result<Outcome, NoMemory>
    requires finder { IsFinder p.now.rows finder.now }
    requires room { HasRoom finder.now room.old }
    requires stands { IsAttemptOn p.now.rows finder.now.program attempt.old input.before input.bytes.now }
    ensures head { IfOk result (λ o. slice_get (ways (tree p.now.rows) (text_of input.entry) (at 0 (replicate p.now.groups None)))
        0 ≡ head_of o) }
    ensures stands { OnOk result (IsAttemptOn p.now.rows finder.now.program attempt.new input.entry.before input.entry.bytes.now) }
    ensures room { OnOk result (HasRoom finder.now room.new) }
    ensures later { steps.old ≤ steps.new }
    ensures tabled { finder.now.width ≡ length p.now.rows → steps.new ≡ steps.old }
{
    let plan = plan_of(p, finder);
    let outcome = advance(alloc, plan, p.groups(), input, attempt, room, steps)?;
    Ok(outcome)
}
