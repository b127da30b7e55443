//! What lookaheads come to at a place. The run over a text calls it once a place.

ghost use Rattle.std.specs.Prelude.{◌≡◌, ℕ, ◌≤◌, ◌<◌, List, [], length, Option, Some, IfOk, OnOk, slice_get};
ghost use Rattle.ix_pattern.specs.Ways.{Reached, Way, look, ways};
ghost use Rattle.ix_pattern.specs.Rows.{Rows, piece_at};
ghost use Rattle.ix_pikevm.specs.Leaf.{leaf_ways, text_of, at};
ghost use Rattle.ix_pikevm.specs.Code.{IsCode, HasSets, best_ways};
ghost use Rattle.ix_pikevm.specs.Looks.{IsLook, HasNoLook};
ghost use Rattle.ix_pikevm.specs.Ran.{IsOf, AreMarks};
ghost use Rattle.ix_pikevm.specs.Tests.{AreTests, Counts};
ghost use Rattle.ix_pikevm.specs.Programs.{IsAsk, AreAsks, AsksFit, AllLooked};

use crate::cells::{Best, Cell};
use crate::code::{Instr, Lookahead, ask_at};
use crate::input::{Input, in_sight};
use crate::leaf::Leaf;
use crate::plain::run;
use crate::table::Tests;
use crate::thread_scratch::ThreadScratch;
use ix_base::{NoMemory, Steps};
use std::sync::ledger::Ledger;

/// What a lookahead comes to, by what its inside came to.
fn leaf_of(best: Best, wanted: bool) -> Leaf
    ensures { (r : Reached) (inside : List Way) (blank : List (Option (ℕ × ℕ))) (cells : List Cell) →
        slice_get inside 0 ≡ slice_get (best_ways blank cells best) 0 → look wanted r inside ≡ leaf_ways result r }
{
    match best {
        Best::End { .. } => { if wanted { Leaf::Here } else { Leaf::Never } }
        Best::No => { if wanted { Leaf::Never } else { Leaf::Here } }
        Best::More => Leaf::Edge,
    }
}

/// What one lookahead comes to.
fn look_one<L: Ledger>(
    inner: &[Instr],
    ask: Lookahead,
    tests: Tests<'_>,
    input: Input<'_>,
    place: usize,
    work: &mut ThreadScratch,
    steps: &mut Steps<L>,
) -> Result<Leaf, NoMemory>
    requires start { ask.start < length inner.now }
    requires code { IsCode inner.now }
    requires plain { HasNoLook inner.now }
    requires sets { HasSets (length tests.pattern.now.rows) inner.now }
    requires tests { AreTests tests }
    requires within { place ≤ length input.bytes.now }
    requires marks { AreMarks work.old.marks.items (length inner.now) work.old.stamp }
    ensures same { IfOk result (λ leaf. (rows : Rows) → IsAsk rows inner.now ask → IsOf tests.entry.pattern.now.rows rows →
        leaf_ways leaf (at place []) ≡ ways (piece_at rows ask.piece) (text_of input.entry) (at place [])) }
    ensures marks { OnOk result (AreMarks work.new.marks.items (length inner.now) work.new.stamp) }
    ensures counts { Counts tests.entry steps.old steps.new }
{
    let seen = in_sight(input, place);
    let best = run(inner, ask.start, tests, seen, place, work, steps)?;
    Ok(leaf_of(best, ask.wanted))
}

/// Puts down what each lookahead comes to at a place, by the number of its piece.
pub fn look_all<L: Ledger>(
    asks: &[Lookahead],
    inner: &[Instr],
    tests: Tests<'_>,
    input: Input<'_>,
    place: usize,
    work: &mut ThreadScratch,
    looks: &mut Vec<Leaf>,
    steps: &mut Steps<L>,
) -> Result<(), NoMemory>
    requires fit { AsksFit asks.now (length inner.now) (length looks.old.items) }
    requires code { IsCode inner.now }
    requires plain { HasNoLook inner.now }
    requires sets { HasSets (length tests.pattern.now.rows) inner.now }
    requires tests { AreTests tests }
    requires within { place ≤ length input.bytes.now }
    requires marks { AreMarks work.old.marks.items (length inner.now) work.old.stamp }
    ensures looks { OnOk result ((rows : Rows) → AreAsks rows inner.now asks.now → IsOf tests.entry.pattern.now.rows rows →
        AllLooked (length asks.now) asks.now looks.new.items rows (text_of input.entry) place) }
    ensures all { OnOk result (length looks.new.items ≡ length looks.old.items) }
    ensures marks { OnOk result (AreMarks work.new.marks.items (length inner.now) work.new.stamp) }
    ensures counts { Counts tests.entry steps.old steps.new }
{
    for k in 0..asks.len() {
        let ask = ask_at(asks, k);
        let leaf = look_one(inner, ask, tests, input, place, work, steps)?;
        looks[ask.piece] = leaf;
    }
    Ok(())
}
