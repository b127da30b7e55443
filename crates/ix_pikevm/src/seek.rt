//! Whether there is a way at one of many places, by one walk over a text: a thread begins at each
//! of them. `place` asks. That a thread has a way does not depend on what it has come through, so
//! that is forgotten from place to place.

ghost use Rattle.std.specs.Prelude.{◌≡◌, ℕ, ◌+◌, ◌<◌, ◌≤◌, min, false, [], length, map, reverse, IfOk, OnOk, Some, slice_get};
ghost use Rattle.ix_pattern.specs.Ways.{Text};
ghost use Rattle.ix_pikevm.specs.Leaf.{text_of};
ghost use Rattle.ix_pikevm.specs.Acts.{AllKnown};
ghost use Rattle.ix_pikevm.specs.Settled.{AllBytes};
ghost use Rattle.ix_pikevm.specs.Plans.{IsPlan, Knows, IsRoom};
ghost use Rattle.ix_pikevm.specs.Seeks.{Carry, Turned, Sought, is_way, forgotten, begun_at};
ghost use Rattle.ix_pikevm.specs.Tests.{Counts};

use crate::cells::{Best, Thread};
use crate::input::Input;
use crate::matcher_ref::{MatcherRef, Scratch};
use crate::run::round;
use crate::step::step;
use ix_base::{NoMemory, Steps};
use std::sync::ledger::Ledger;

fn is_way(best: Best) -> bool
    ensures { result ≡ is_way best }
{
    match best {
        Best::No => false,
        Best::End { .. } | Best::More => true,
    }
}

/// Begins a thread where the place is before `to`.
fn begin(start: usize, place: usize, to: usize, stack: &mut Vec<Thread>) -> Result<(), NoMemory>
    ensures { OnOk result (stack.new.items ≡ begun_at start place to stack.old.items) }
{
    if place < to {
        stack.push(Thread {
            pc: start,
            trail: 0,
        })?;
    }
    Ok(())
}

/// Forgets what the threads have come through.
fn forget(threads: &mut Vec<Thread>)
    ensures { threads.new.items ≡ map forgotten threads.old.items }
{
    for i in 0..threads.len() {
        threads[i].trail = 0;
    }
}

/// Begins a thread at a place before `to`, and follows all threads there. The answer is whether one
/// has come to a way.
fn turn<L: Ledger>(
    plan: MatcherRef<'_>,
    start: usize,
    input: Input<'_>,
    place: usize,
    to: usize,
    room: &mut Scratch,
    steps: &mut Steps<L>,
) -> Result<bool, NoMemory>
    requires plan { IsPlan plan }
    requires start { start < length plan.code.now }
    requires room { IsRoom plan room.old }
    requires known { AllKnown (length plan.code.now) (length room.old.main.cells.items) room.old.main.stack.items }
    requires within { place ≤ length input.bytes.now }
    ensures turned { IfOk result (λ found. (from : ℕ) → from ≤ place →
        Carry (Knows plan.entry) plan.entry.code.now (text_of input.entry) start from (min place to) place
        (reverse room.old.main.stack.items) →
        Turned (Knows plan.entry) plan.entry.code.now (text_of input.entry) start from (min (place + 1) to) place room.new.main.ready.items
        found) }
    ensures bytes { OnOk result (AllBytes plan.entry.code.now room.new.main.ready.items) }
    ensures known { OnOk result (AllKnown (length plan.entry.code.now) (length room.new.main.cells.items) room.new.main.ready.items) }
    ensures empty { OnOk result (room.new.main.stack.items ≡ []) }
    ensures room { OnOk result (IsRoom plan.entry room.new) }
    ensures counts { Counts plan.entry.tests steps.old steps.new }
{
    begin(start, place, to, &mut room.main.stack)?;
    let best = round(plan, input, place, Best::No, room, steps)?;
    Ok(is_way(best))
}

/// Goes on with the threads that wait to those behind a byte, which have come through nothing.
fn pass<L: Ledger>(
    plan: MatcherRef<'_>,
    byte: u8,
    room: &mut Scratch,
    steps: &mut Steps<L>,
) -> Result<(), NoMemory>
    requires plan { IsPlan plan }
    requires room { IsRoom plan room.old }
    requires bytes { AllBytes plan.code.now room.old.main.ready.items }
    requires known { AllKnown (length plan.code.now) (length room.old.main.cells.items) room.old.main.ready.items }
    requires empty { room.old.main.stack.items ≡ [] }
    ensures passed { OnOk result ((text : Text) (p : ℕ) → slice_get text.bytes p ≡ Some byte → (start from to : ℕ) →
        Carry (Knows plan.entry) plan.entry.code.now text start from to p room.old.main.ready.items →
        Carry (Knows plan.entry) plan.entry.code.now text start from to (p + 1) (reverse room.new.main.stack.items)) }
    ensures known { OnOk result (AllKnown (length plan.entry.code.now) (length room.new.main.cells.items) room.new.main.stack.items) }
    ensures room { OnOk result (IsRoom plan.entry room.new) }
    ensures counts { Counts plan.entry.tests steps.old steps.new }
{
    room.main.cells.clear();
    forget(&mut room.main.ready);
    step(
        plan.code,
        plan.tests,
        byte,
        &room.main.ready,
        &mut room.main.stack,
        steps,
    )?;
    Ok(())
}

/// Whether an instruction has a way at a place of a closed text from `from` on, but before `to`. If
/// so, one of them before the answer has.
pub fn seek<L: Ledger>(
    plan: MatcherRef<'_>,
    start: usize,
    input: Input<'_>,
    from: usize,
    to: usize,
    room: &mut Scratch,
    steps: &mut Steps<L>,
) -> Result<Option<usize>, NoMemory>
    requires plan { IsPlan plan }
    requires start { start < length plan.code.now }
    requires closed { input.unfinished ≡ false }
    requires from { from ≤ length input.bytes.now }
    requires to { to ≤ length input.bytes.now + 1 }
    requires room { IsRoom plan room.old }
    ensures sought { IfOk result (λ end. Sought (Knows plan.entry) plan.entry.code.now (text_of input.entry) start from to end) }
    ensures room { OnOk result (IsRoom plan.entry room.new) }
    ensures counts { Counts plan.entry.tests steps.old steps.new }
{
    room.main.cells.clear();
    room.main.stack.clear();
    let all = input.bytes.len();
    for at in from..all {
        if turn(plan, start, input, at, to, room, steps)? {
            return Ok(Some(to.min(at + 1)));
        }
        if room.main.ready.is_empty() && at + 1 >= to {
            return Ok(None);
        }
        pass(plan, input.bytes[at], room, steps)?;
    }
    if turn(plan, start, input, all, to, room, steps)? {
        return Ok(Some(to));
    }
    Ok(None)
}
