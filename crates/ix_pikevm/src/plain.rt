//! Searching by code without lookaheads.

ghost use Rattle.std.specs.Prelude.{◌≡◌, ℕ, ◌+◌, ◌<◌, ◌≤◌, [], length, IfOk, OnOk};
ghost use Rattle.ix_pattern.specs.Rows.{Rows};
ghost use Rattle.ix_pikevm.specs.Leaf.{text_of};
ghost use Rattle.ix_pikevm.specs.Code.{IsCode, HasSets};
ghost use Rattle.ix_pikevm.specs.Looks.{HasNoLook};
ghost use Rattle.ix_pikevm.specs.Acts.{AllKnown};
ghost use Rattle.ix_pikevm.specs.Agrees.{Agrees};
ghost use Rattle.ix_pikevm.specs.Settled.{AllBytes};
ghost use Rattle.ix_pattern.specs.Ways.{Text};
ghost use Rattle.ix_pikevm.specs.Ran.{IsOf, AreMarks, Rounds, Goes, Ends, Grown};
ghost use Rattle.ix_pikevm.specs.Tests.{AreTests, Counts};

use crate::cells::{Best, Thread};
use crate::code::Instr;
use crate::input::Input;
use crate::step::step;
use crate::table::Tests;
use crate::thread_scratch::{ThreadScratch, follow};
use ix_base::{NoMemory, Steps};
use std::sync::ledger::Ledger;

/// Follows the threads of a place.
fn round(
    code: &[Instr],
    input: Input<'_>,
    place: usize,
    best: Best,
    work: &mut ThreadScratch,
) -> Result<Best, NoMemory>
    requires known { AllKnown (length code.now) (length work.old.cells.items) work.old.stack.items }
    requires code { IsCode code.now }
    requires plain { HasNoLook code.now }
    requires within { place ≤ length input.bytes.now }
    requires marks { AreMarks work.old.marks.items (length code.now) work.old.stamp }
    ensures rounds { IfOk result (λ after. (real : Text) → Agrees (text_of input.entry) real place → (pattern : Rows) →
        Rounds (IsOf pattern) code.now real place work.old.cells.items work.old.stack.items work.new.cells.items work.new.ready.items best
        after) }
    ensures bytes { OnOk result (AllBytes code.now work.new.ready.items) }
    ensures known { OnOk result (AllKnown (length code.now) (length work.new.cells.items) work.new.ready.items) }
    ensures empty { OnOk result (work.new.stack.items ≡ []) }
    ensures marks { OnOk result (AreMarks work.new.marks.items (length code.now) work.new.stamp) }
    ensures grown { OnOk result (Grown work.old.cells.items work.new.cells.items) }
{
    let after = follow(code, &[], input, place, best, work)?;
    Ok(after)
}

/// Goes on from the threads of a place to those behind its byte.
fn onward<L: Ledger>(
    code: &[Instr],
    tests: Tests<'_>,
    input: Input<'_>,
    at: usize,
    best: Best,
    work: &mut ThreadScratch,
    steps: &mut Steps<L>,
) -> Result<Best, NoMemory>
    requires known { AllKnown (length code.now) (length work.old.cells.items) work.old.stack.items }
    requires code { IsCode code.now }
    requires plain { HasNoLook code.now }
    requires sets { HasSets (length tests.pattern.now.rows) code.now }
    requires tests { AreTests tests }
    requires within { at < length input.bytes.now }
    requires marks { AreMarks work.old.marks.items (length code.now) work.old.stamp }
    ensures moves { IfOk result (λ after. (start place : ℕ) →
        Goes (IsOf tests.entry.pattern.now.rows) code.now (text_of input.entry) start place at work.old.cells.items work.old.stack.items
        best →
        Goes (IsOf tests.entry.pattern.now.rows) code.now (text_of input.entry) start place (at + 1) work.new.cells.items
        work.new.stack.items after) }
    ensures known { OnOk result (AllKnown (length code.now) (length work.new.cells.items) work.new.stack.items) }
    ensures marks { OnOk result (AreMarks work.new.marks.items (length code.now) work.new.stamp) }
    ensures grown { OnOk result (Grown work.old.cells.items work.new.cells.items) }
    ensures counts { Counts tests.entry steps.old steps.new }
{
    let after = round(code, input, at, best, work)?;
    step(
        code,
        tests,
        input.bytes[at],
        &work.ready,
        &mut work.stack,
        steps,
    )?;
    Ok(after)
}

/// Follows the threads at the end of what is seen of a text. Those that wait there for a byte stand
/// for an edge where the text may go on.
fn last_round(
    code: &[Instr],
    input: Input<'_>,
    best: Best,
    work: &mut ThreadScratch,
) -> Result<Best, NoMemory>
    requires known { AllKnown (length code.now) (length work.old.cells.items) work.old.stack.items }
    requires code { IsCode code.now }
    requires plain { HasNoLook code.now }
    requires marks { AreMarks work.old.marks.items (length code.now) work.old.stamp }
    ensures head { IfOk result (λ after. (pattern : Rows) (start place : ℕ) →
        Goes (IsOf pattern) code.now (text_of input.entry) start place (length input.entry.bytes.now) work.old.cells.items
        work.old.stack.items best →
        Ends (IsOf pattern) code.now (text_of input.entry) start place work.new.cells.items after) }
    ensures marks { OnOk result (AreMarks work.new.marks.items (length code.now) work.new.stamp) }
    ensures grown { OnOk result (Grown work.old.cells.items work.new.cells.items) }
{
    let after = round(code, input, input.bytes.len(), best, work)?;
    if input.unfinished && !work.ready.is_empty() {
        return Ok(Best::More);
    }
    Ok(after)
}

/// Goes on from the threads of a place to the end of the text. The answer stands for the head of
/// the ways.
pub fn walk<L: Ledger>(
    code: &[Instr],
    tests: Tests<'_>,
    input: Input<'_>,
    from: usize,
    first: Best,
    work: &mut ThreadScratch,
    steps: &mut Steps<L>,
) -> Result<Best, NoMemory>
    requires known { AllKnown (length code.now) (length work.old.cells.items) work.old.stack.items }
    requires code { IsCode code.now }
    requires plain { HasNoLook code.now }
    requires sets { HasSets (length tests.pattern.now.rows) code.now }
    requires tests { AreTests tests }
    requires within { from ≤ length input.bytes.now }
    requires marks { AreMarks work.old.marks.items (length code.now) work.old.stamp }
    ensures head { IfOk result (λ best. (start place : ℕ) →
        Goes (IsOf tests.entry.pattern.now.rows) code.now (text_of input.entry) start place from work.old.cells.items work.old.stack.items
        first →
        Ends (IsOf tests.entry.pattern.now.rows) code.now (text_of input.entry) start place work.new.cells.items best) }
    ensures marks { OnOk result (AreMarks work.new.marks.items (length code.now) work.new.stamp) }
    ensures grown { OnOk result (Grown work.old.cells.items work.new.cells.items) }
    ensures counts { Counts tests.entry steps.old steps.new }
{
    let mut best = first;
    for at in from..input.bytes.len() {
        if work.stack.is_empty() {
            return Ok(best);
        }
        best = onward(code, tests, input, at, best, work, steps)?;
    }
    last_round(code, input, best, work)
}

/// The head of the ways of an instruction at a place of a text.
pub fn run<L: Ledger>(
    code: &[Instr],
    start: usize,
    tests: Tests<'_>,
    input: Input<'_>,
    place: usize,
    work: &mut ThreadScratch,
    steps: &mut Steps<L>,
) -> Result<Best, NoMemory>
    requires start { start < length code.now }
    requires code { IsCode code.now }
    requires plain { HasNoLook code.now }
    requires sets { HasSets (length tests.pattern.now.rows) code.now }
    requires tests { AreTests tests }
    requires within { place ≤ length input.bytes.now }
    requires marks { AreMarks work.old.marks.items (length code.now) work.old.stamp }
    ensures head { IfOk result (λ best. Ends (IsOf tests.entry.pattern.now.rows) code.now (text_of input.entry) start place
        work.new.cells.items best) }
    ensures marks { OnOk result (AreMarks work.new.marks.items (length code.now) work.new.stamp) }
    ensures counts { Counts tests.entry steps.old steps.new }
{
    work.cells.clear();
    work.stack.clear();
    work.stack.push(Thread {
        pc: start,
        trail: 0,
    })?;
    walk(code, tests, input, place, Best::No, work, steps)
}
