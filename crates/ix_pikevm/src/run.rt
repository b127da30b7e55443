//! All bytes of a text.

ghost use Rattle.std.specs.Prelude.{◌≡◌, ℕ, ◌+◌, ◌<◌, ◌≤◌, List, [], length, Option, IfOk, OnOk, slice_get, replicate, None};
ghost use Rattle.ix_pattern.specs.Ways.{Text};
ghost use Rattle.ix_pikevm.specs.Leaf.{text_of};
ghost use Rattle.ix_pikevm.specs.Code.{best_ways};
ghost use Rattle.ix_pikevm.specs.Agrees.{Agrees, SightsAgree};
ghost use Rattle.ix_pikevm.specs.Acts.{AllKnown};
ghost use Rattle.ix_pikevm.specs.Settled.{AllBytes};
ghost use Rattle.ix_pikevm.specs.Ran.{Rounds, Goes, Ends, Sees, Grown};
ghost use Rattle.ix_pikevm.specs.Plans.{IsPlan, Knows, IsRoom};
ghost use Rattle.ix_pikevm.specs.Outcomes.{head_of};
ghost use Rattle.ix_pikevm.specs.Tests.{Counts};

use crate::ahead::look_all;
use crate::cells::{Best, Cell, Thread};
use crate::groups::groups_of;
use crate::input::Input;
use crate::matcher_ref::{MatcherRef, Scratch};
use crate::step::step;
use crate::thread_scratch::follow;
use crate::tidy::{FEW, keep_short};
use ix_base::{NoMemory, Steps};
use std::alloc::Global;
use std::sync::ledger::Ledger;

/// Follows the threads of a place, behind its lookaheads.
pub fn round<L: Ledger>(
    plan: MatcherRef<'_>,
    input: Input<'_>,
    place: usize,
    best: Best,
    room: &mut Scratch,
    steps: &mut Steps<L>,
) -> Result<Best, NoMemory>
    requires plan { IsPlan plan }
    requires room { IsRoom plan room.old }
    requires known { AllKnown (length plan.code.now) (length room.old.main.cells.items) room.old.main.stack.items }
    requires within { place ≤ length input.bytes.now }
    ensures rounds { IfOk result (λ after. (real : Text) → Agrees (text_of input.entry) real place →
        SightsAgree plan.entry.asks.now (text_of input.entry) real place →
        Rounds (Knows plan.entry) plan.entry.code.now real place room.old.main.cells.items room.old.main.stack.items
        room.new.main.cells.items room.new.main.ready.items best after) }
    ensures bytes { OnOk result (AllBytes plan.entry.code.now room.new.main.ready.items) }
    ensures known { OnOk result (AllKnown (length plan.entry.code.now) (length room.new.main.cells.items) room.new.main.ready.items) }
    ensures empty { OnOk result (room.new.main.stack.items ≡ []) }
    ensures room { OnOk result (IsRoom plan.entry room.new) }
    ensures counts { Counts plan.entry.tests steps.old steps.new }
    ensures grown { OnOk result (Grown room.old.main.cells.items room.new.main.cells.items) }
{
    look_all(
        plan.asks,
        plan.inner,
        plan.tests,
        input,
        place,
        &mut room.inner,
        &mut room.looks,
        steps,
    )?;
    let after = follow(plan.code, &room.looks, input, place, best, &mut room.main)?;
    Ok(after)
}

/// Goes on from the threads of a place to those behind its byte. That holds for each text of which
/// what is seen decides the tests there, and which has that byte.
fn onward<L: Ledger>(
    plan: MatcherRef<'_>,
    input: Input<'_>,
    at: usize,
    best: Best,
    room: &mut Scratch,
    steps: &mut Steps<L>,
) -> Result<Best, NoMemory>
    requires plan { IsPlan plan }
    requires room { IsRoom plan room.old }
    requires known { AllKnown (length plan.code.now) (length room.old.main.cells.items) room.old.main.stack.items }
    requires within { at < length input.bytes.now }
    ensures moves { IfOk result (λ after. (real : Text) → Agrees (text_of input.entry) real at →
        SightsAgree plan.entry.asks.now (text_of input.entry) real at →
        slice_get real.bytes at ≡ slice_get input.entry.bytes.now at → (start place : ℕ) →
        Goes (Knows plan.entry) plan.entry.code.now real start place at room.old.main.cells.items room.old.main.stack.items best →
        Goes (Knows plan.entry) plan.entry.code.now real start place (at + 1) room.new.main.cells.items room.new.main.stack.items after) }
    ensures known { OnOk result (AllKnown (length plan.entry.code.now) (length room.new.main.cells.items) room.new.main.stack.items) }
    ensures room { OnOk result (IsRoom plan.entry room.new) }
    ensures counts { Counts plan.entry.tests steps.old steps.new }
    ensures grown { OnOk result (Grown room.old.main.cells.items room.new.main.cells.items) }
{
    let after = round(plan, input, at, best, room, steps)?;
    step(
        plan.code,
        plan.tests,
        input.bytes[at],
        &room.main.ready,
        &mut room.main.stack,
        steps,
    )?;
    Ok(after)
}

/// Follows the threads at the end of what is seen of a text. Those that wait there for a byte stand
/// for an edge where the text may go on.
fn last_round<L: Ledger>(
    plan: MatcherRef<'_>,
    input: Input<'_>,
    best: Best,
    room: &mut Scratch,
    steps: &mut Steps<L>,
) -> Result<Best, NoMemory>
    requires plan { IsPlan plan }
    requires room { IsRoom plan room.old }
    requires known { AllKnown (length plan.code.now) (length room.old.main.cells.items) room.old.main.stack.items }
    ensures head { IfOk result (λ after. (start place : ℕ) →
        Goes (Knows plan.entry) plan.entry.code.now (text_of input.entry) start place (length input.entry.bytes.now)
        room.old.main.cells.items room.old.main.stack.items best →
        Ends (Knows plan.entry) plan.entry.code.now (text_of input.entry) start place room.new.main.cells.items after) }
    ensures room { OnOk result (IsRoom plan.entry room.new) }
    ensures counts { Counts plan.entry.tests steps.old steps.new }
    ensures grown { OnOk result (Grown room.old.main.cells.items room.new.main.cells.items) }
{
    let after = round(plan, input, input.bytes.len(), best, room, steps)?;
    if input.unfinished && !room.main.ready.is_empty() {
        return Ok(Best::More);
    }
    Ok(after)
}

/// Goes on from the threads of a place to the end of the text. The answer stands for the head of
/// the ways.
pub fn walk<L: Ledger>(
    plan: MatcherRef<'_>,
    input: Input<'_>,
    from: usize,
    first: Best,
    room: &mut Scratch,
    steps: &mut Steps<L>,
) -> Result<Best, NoMemory>
    requires plan { IsPlan plan }
    requires room { IsRoom plan room.old }
    requires known { AllKnown (length plan.code.now) (length room.old.main.cells.items) room.old.main.stack.items }
    requires within { from ≤ length input.bytes.now }
    ensures head { IfOk result (λ best. (start place : ℕ) →
        Goes (Knows plan.entry) plan.entry.code.now (text_of input.entry) start place from room.old.main.cells.items
        room.old.main.stack.items first →
        Ends (Knows plan.entry) plan.entry.code.now (text_of input.entry) start place room.new.main.cells.items best) }
    ensures room { OnOk result (IsRoom plan.entry room.new) }
    ensures counts { Counts plan.entry.tests steps.old steps.new }
    ensures grown { OnOk result (Grown room.old.main.cells.items room.new.main.cells.items) }
{
    let mut best = first;
    for at in from..input.bytes.len() {
        if room.main.stack.is_empty() {
            return Ok(best);
        }
        best = onward(plan, input, at, best, room, steps)?;
    }
    last_round(plan, input, best, room, steps)
}

/// Goes on from the threads of a place to those of a later one. That holds for each text of which
/// what is seen decides the tests before that place.
pub fn move_on<L: Ledger>(
    plan: MatcherRef<'_>,
    input: Input<'_>,
    from: usize,
    to: usize,
    first: Best,
    room: &mut Scratch,
    steps: &mut Steps<L>,
) -> Result<Best, NoMemory>
    requires plan { IsPlan plan }
    requires room { IsRoom plan room.old }
    requires known { AllKnown (length plan.code.now) (length room.old.main.cells.items) room.old.main.stack.items }
    requires order { from ≤ to }
    requires within { to ≤ length input.bytes.now }
    ensures moves { IfOk result (λ best. (real : Text) → Sees plan.entry.asks.now (text_of input.entry) real to → (start place : ℕ) →
        Goes (Knows plan.entry) plan.entry.code.now real start place from room.old.main.cells.items room.old.main.stack.items first →
        Goes (Knows plan.entry) plan.entry.code.now real start place to room.new.main.cells.items room.new.main.stack.items best) }
    ensures known { OnOk result (AllKnown (length plan.entry.code.now) (length room.new.main.cells.items) room.new.main.stack.items) }
    ensures room { OnOk result (IsRoom plan.entry room.new) }
    ensures counts { Counts plan.entry.tests steps.old steps.new }
{
    let mut best = first;
    for at in from..to {
        best = onward(plan, input, at, best, room, steps)?;
    }
    Ok(best)
}

/// The head of a list of ways: an end with its place and groups, nothing where the list is empty,
/// or an edge.
#[derive(Drop)]
pub enum Outcome {
    End {
        place: usize,
        groups: Vec<Option<(usize, usize)>>,
    },
    No,
    More,
}

pub fn outcome_of(
    alloc: Global,
    best: Best,
    cells: &[Cell],
    count: usize,
) -> Result<Outcome, NoMemory>
    ensures { IfOk result (λ o. slice_get (best_ways (replicate count None) cells.now best) 0 ≡ head_of o) }
{
    match best {
        Best::No => Ok(Outcome::No),
        Best::More => Ok(Outcome::More),
        Best::End { place, trail } => {
            let groups = groups_of(alloc, cells, trail, count)?;
            Ok(Outcome::End { place, groups })
        }
    }
}

/// Goes on from the threads of a place to the end of the text, as `walk` does. What the threads
/// have come through is written anew whenever it has become long, so that it takes no more memory
/// for a longer text.
fn sweep<L: Ledger>(
    plan: MatcherRef<'_>,
    input: Input<'_>,
    from: usize,
    first: Best,
    room: &mut Scratch,
    steps: &mut Steps<L>,
) -> Result<Best, NoMemory>
    requires plan { IsPlan plan }
    requires room { IsRoom plan room.old }
    requires known { AllKnown (length plan.code.now) (length room.old.main.cells.items) room.old.main.stack.items }
    requires within { from ≤ length input.bytes.now }
    ensures head { IfOk result (λ best. (start place : ℕ) →
        Goes (Knows plan.entry) plan.entry.code.now (text_of input.entry) start place from room.old.main.cells.items
        room.old.main.stack.items first →
        Ends (Knows plan.entry) plan.entry.code.now (text_of input.entry) start place room.new.main.cells.items best) }
    ensures room { OnOk result (IsRoom plan.entry room.new) }
    ensures counts { Counts plan.entry.tests steps.old steps.new }
{
    let mut best = first;
    let mut limit = FEW;
    for at in from..input.bytes.len() {
        if room.main.stack.is_empty() {
            return Ok(best);
        }
        best = onward(plan, input, at, best, room, steps)?;
        best = keep_short(&mut room.main, best, &mut limit)?;
    }
    last_round(plan, input, best, room, steps)
}

/// The head of the ways of an instruction at a place of a text.
pub fn run<L: Ledger>(
    plan: MatcherRef<'_>,
    start: usize,
    input: Input<'_>,
    place: usize,
    room: &mut Scratch,
    steps: &mut Steps<L>,
) -> Result<Best, NoMemory>
    requires plan { IsPlan plan }
    requires start { start < length plan.code.now }
    requires room { IsRoom plan room.old }
    requires within { place ≤ length input.bytes.now }
    ensures head { IfOk result (λ best. Ends (Knows plan.entry) plan.entry.code.now (text_of input.entry) start place
        room.new.main.cells.items best) }
    ensures room { OnOk result (IsRoom plan.entry room.new) }
    ensures counts { Counts plan.entry.tests steps.old steps.new }
{
    room.main.cells.clear();
    room.main.stack.clear();
    room.main.stack.push(Thread {
        pc: start,
        trail: 0,
    })?;
    sweep(plan, input, place, Best::No, room, steps)
}
