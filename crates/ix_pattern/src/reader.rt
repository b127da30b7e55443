//! From tokens to pieces.

ghost use Rattle.std.specs.Prelude.{◌≡◌, ◌+◌, ◌-◌, ◌<◌, ◌≤◌, ℕ, List, Option, length, IfOk, Some, None, unwrap_or};
ghost use Rattle.ix_pattern.specs.Piece.{Piece};
ghost use Rattle.ix_pattern.specs.Syntax.{Syntax, done, bar, leaf, paren, groups, pieces, weights, whole, whole_weight, repeated};
ghost use Rattle.ix_pattern.specs.Syntax.{repeated_weight, joined, is_high, is_high_times, opened, paren_piece, paren_weight};
ghost use Rattle.ix_pattern.specs.Syntax.{is_plain_opening, leaf_piece, alternatives_weight};
ghost use Rattle.ix_pattern.specs.Parts.{IsPart, IsOptional, IsBelow, Grew, GrewBy, Adds};
ghost use Rattle.ix_pattern.specs.Rows.{Rows};
ghost use Rattle.ix_pattern.specs.declared.tokens.Repeat.{Repeat};
ghost use Rattle.ix_pattern.specs.Run.{State};
ghost use Rattle.ix_pattern.specs.Frames.{IsFrame, Holds};

use crate::frames::Frame;
use crate::part::Part;
use crate::parts::{alternatives, counted, first_of, joined, leaf, parenthesis};
use crate::tokens::{Leaf, Opening, Repeat, Times, Token};
use crate::work::Work;
use ix_base::NoMemory;
use std::alloc::Global;

/// What has been read of a pattern's tokens, from the last one on.
#[derive(Drop)]
pub struct Reader {
    /// The pieces made so far.
    pub work: Work,
    /// The innermost level of parentheses.
    pub here: Frame,
    /// The levels around it, the outermost first.
    pub outer: Vec<Frame>,
    /// How many capturing groups open before this place.
    pub opened: usize,
}

fn is_high_times(times: Times) -> bool
    ensures { result ≡ is_high_times times }
{
    match times {
        Times::Maybe => false,
        Times::Limited { least, most } => (1000 < least) | (1000 < most),
        Times::Unlimited { least } => 1000 < least,
    }
}

/// Whether a number of the count is above 1,000.
fn is_high(waiting: Option<Repeat>) -> bool
    ensures { result ≡ is_high waiting }
{
    match waiting {
        None => false,
        Some(repeat) => is_high_times(repeat.times),
    }
}

fn is_plain_opening(opening: Opening) -> bool
    ensures { result ≡ is_plain_opening opening }
{
    match opening {
        Opening::Plain => true,
        Opening::Capture | Opening::Ahead { .. } => false,
    }
}

/// An empty level.
pub fn empty() -> Frame
    ensures { (rows : Rows) → (n : ℕ) → IsFrame rows n result None done }
{
    Frame {
        waiting: None,
        sequence: None,
        others: None,
        plain: true,
        depth: 0,
        high: false,
    }
}

/// A piece with the count that waits for it, before the rest of its sequence.
fn before(work: &mut Work, part: Part, frame: Frame) -> Result<Part, NoMemory>
    requires part { part.piece < length work.old.rows }
    requires holds { Holds work.old.rows frame }
    ensures kept { IfOk result (λ x. Grew work.old work.new × (x.piece < length work.new.rows)) }
    ensures meaning { (p : Piece) → (w : ℕ) → (q : Option Piece) → (v : Option ℕ) → IsPart work.old.rows part p w →
        IsOptional work.old.rows frame.sequence q v →
        IfOk result (λ x. Adds work.old work.new x (joined (repeated p frame.waiting) q) (repeated_weight w frame.waiting + unwrap_or v 0)) }
{
    let part = counted(work, part, frame.waiting)?;
    joined(work, part, frame.sequence)
}

/// All alternatives of a level. What they weigh beside their sum is given: 1, or 0 where others
/// come before them.
pub fn whole(work: &mut Work, frame: Frame, own_weight: u64) -> Result<Part, NoMemory>
    requires holds { Holds work.old.rows frame }
    requires own_weight { own_weight ≤ 1 }
    ensures kept { IfOk result (λ x. Grew work.old work.new × (x.piece < length work.new.rows)) }
    ensures meaning { (n : ℕ) → (s : Syntax) → (times : Option Repeat) → IsFrame work.old.rows n frame times s →
        IfOk result (λ x. Adds work.old work.new x (whole (pieces n s))
        (alternatives_weight (unwrap_or (weights s).first 1) (weights s).others own_weight)) }
{
    let first = first_of(work, frame.sequence)?;
    alternatives(work, first, frame.others, own_weight)
}

/// The level with a `|` before it.
pub fn with_bar(work: &mut Work, here: Frame) -> Result<Frame, NoMemory>
    requires { Holds work.old.rows here }
    ensures kept { IfOk result (λ f. Grew work.old work.new) }
    ensures meaning { (n : ℕ) → (s : Syntax) → IsFrame work.old.rows n here None s →
        IfOk result (λ f. IsFrame work.new.rows n f None (bar s)) }
{
    let others = whole(work, here, 0)?;
    Ok(Frame {
        waiting: None,
        sequence: None,
        others: Some(others),
        plain: here.plain,
        depth: here.depth,
        high: here.high,
    })
}

/// The level with a piece before it that has none inside.
pub fn with_leaf(work: &mut Work, here: Frame, piece: Leaf) -> Result<Frame, NoMemory>
    requires { Holds work.old.rows here }
    ensures kept { IfOk result (λ f. GrewBy 1 work.old work.new) }
    ensures meaning { (n : ℕ) → (times : Option Repeat) → (s : Syntax) → IsFrame work.old.rows n here times s →
        IfOk result (λ f. IsFrame work.new.rows n f None (leaf piece times s)) }
{
    let part = leaf(work, piece)?;
    let part = before(work, part, here)?;
    Ok(Frame {
        waiting: None,
        sequence: Some(part),
        others: here.others,
        plain: here.plain,
        depth: here.depth,
        high: is_high(here.waiting) | here.high,
    })
}

/// The level with parentheses before it.
pub fn with_parentheses(
    work: &mut Work,
    here: Frame,
    opening: Opening,
    number: usize,
    inside: Frame,
) -> Result<Frame, NoMemory>
    requires here { Holds work.old.rows here }
    requires inside { Holds work.old.rows inside }
    requires number { opened opening ≤ number }
    requires known { number ≤ work.old.groups }
    ensures kept { IfOk result (λ f. Grew work.old work.new) }
    ensures meaning { (n : ℕ) → (times : Option Repeat) → (within s : Syntax) → number ≡ n + opened opening →
        IsFrame work.old.rows number inside None within → IsFrame work.old.rows (number + groups within) here times s →
        IfOk result (λ f. IsFrame work.new.rows n f None (paren opening within times s)) }
{
    let part = whole(work, inside, 1)?;
    let part = parenthesis(work, opening, number, part)?;
    let part = before(work, part, here)?;
    Ok(Frame {
        waiting: None,
        sequence: Some(part),
        others: here.others,
        plain: is_plain_opening(opening) & inside.plain & here.plain,
        depth: (inside.depth + 1).max(here.depth).min(65),
        high: is_high(here.waiting) | inside.high | here.high,
    })
}
