//! Attempts at the places of a text, within a budget of turns.

ghost use Rattle.std.specs.Prelude.{◌≡◌, ◌⊎◌, ◌≤◌, [], None, IfOk, IfSome, length, replicate, slice_get};
ghost use Rattle.ix_pattern.specs.Ways.{ways};
ghost use Rattle.ix_pattern.specs.Rows.{tree};
ghost use Rattle.ix_pikevm.specs.Leaf.{text_of, at};
ghost use Rattle.ix_pikevm.specs.Outcomes.{head_of};
ghost use Rattle.ix_pikevm.specs.Finders.{IsFinder};
ghost use Rattle.ix_backtrack.specs.Tried.{IsSpent};

use crate::attempt::attempt;
use crate::frames::Frame;
use crate::outcome::outcome;
use ix_base::{NoMemory, Steps};
use ix_pattern::Pattern;
use ix_pikevm::cells::Cell;
use ix_pikevm::input::Input;
use ix_pikevm::matcher::Matcher;
use ix_pikevm::run::Outcome;
use std::alloc::Global;
use std::sync::ledger::Ledger;

/// How many turns one attempt may take. So what it works in stays below a megabyte.
const MOST: u64 = 16_384;

/// What attempts work in: the frames that are still to be tried, and what they have come through.
/// It is used again from attempt to attempt, and takes memory only once a pattern needs it.
#[derive(Drop)]
pub struct BacktrackScratch {
    pub stack: Vec<Frame>,
    pub cells: Vec<Cell>,
}

impl BacktrackScratch {
    /// For any pattern.
    pub fn new(alloc: Global) -> BacktrackScratch {
        BacktrackScratch {
            stack: Vec::new(alloc),
            cells: Vec::new(alloc),
        }
    }
}

/// The head of the ordered list of ways of the pattern at a place of a text, where no group has
/// taken part: one way after the other is tried. There is no answer where that takes more turns
/// than are left or than one attempt may take, nor for a pattern with a lookahead. What is left
/// falls by the turns that were taken.
pub fn backtracked<L: Ledger>(
    alloc: Global,
    p: &Pattern,
    finder: &Matcher,
    input: Input<'_>,
    place: usize,
    tries: &mut BacktrackScratch,
    left: &mut u64,
    steps: &mut Steps<L>,
) -> Result<Option<Outcome>, NoMemory>
    requires finder { IsFinder p.now.rows finder.now }
    requires within { place ≤ length input.bytes.now }
    ensures head { IfOk result (λ r. IfSome r (λ o. slice_get
        (ways (tree p.now.rows) (text_of input.entry) (at place (replicate p.now.groups None))) 0 ≡ head_of o)) }
    ensures spent { IfOk result (λ r. r ≡ None → IsSpent left.old left.new ⊎ (finder.now.program.asks.items ≡ [] → ⊥)) }
    ensures falls { left.new ≤ left.old }
{
    if !finder.program.asks.is_empty() {
        return Ok(None);
    }
    let limit = (*left).min(MOST);
    let tried = attempt(
        p,
        &finder.program.code,
        finder.program.start,
        input,
        place,
        limit,
        &mut tries.stack,
        &mut tries.cells,
        steps,
    )?;
    *left -= tried.taken;
    let Some(best) = tried.best else {
        return Ok(None);
    };
    let found = outcome(alloc, best, &tries.cells, p.groups())?;
    Ok(Some(found))
}
