//! What a thread does at its instruction.

ghost use Rattle.std.specs.Prelude.{◌≡◌, ℕ, ◌<◌, ◌≤◌, ◌+◌, List, [], ◌∷◌, ◌++◌, length, Bool, Option, Some, IfOk, slice_get};
ghost use Rattle.ix_pattern.specs.Ways.{Text};
ghost use Rattle.ix_pikevm.specs.Leaf.{leaf_ways, text_of, at};
ghost use Rattle.ix_pikevm.specs.Code.{Mean, Meaning, IsCode, tested};
ghost use Rattle.ix_pikevm.specs.Agrees.{Agrees};
ghost use Rattle.ix_pikevm.specs.Looks.{AreLooks};
ghost use Rattle.ix_pattern.specs.Rows.{Rows};
ghost use Rattle.ix_pikevm.specs.Acts.{Does, LeafDoes, Puts, ActKnown, ActBytes, IsKnown};

use crate::cells::{Best, Cell, Event, Thread};
use crate::code::{Instr, instr_at};
use crate::input::{Input, byte_before};
use crate::leaf;
use crate::leaf::Leaf;
use ix_base::NoMemory;

/// What a thread does.
#[derive(Clone, Copy)]
pub enum Act {
    /// It goes on as two, the first preferred.
    Fork { first: Thread, other: Thread },
    /// It goes on at the same place.
    Go(Thread),
    /// It waits for a byte.
    Ready,
    /// It has no way.
    Never,
    /// It ends all later ones.
    Stop(Best),
}

/// Goes on behind a test.
fn behind(leaf: Leaf, thread: Thread, next: usize) -> Act
    ensures ways { (mean : Mean) (blank : List (Option (ℕ × ℕ))) (rank : ℕ → ℕ) (cells : List Cell) (p k : ℕ) → rank next < k →
        LeafDoes mean blank rank cells p k thread next leaf result }
    ensures known { (n c : ℕ) → next < n → IsKnown n c thread → ActKnown n c result }
    ensures bytes { (code : List Instr) (t : Thread) → ActBytes code t result }
{
    match leaf {
        Leaf::Here => Act::Go(Thread {
            pc: next,
            trail: thread.trail,
        }),
        Leaf::Edge => Act::Stop(Best::More),
        Leaf::Never => Act::Never,
    }
}

/// The thread behind an event.
fn with_event(
    event: Event,
    thread: Thread,
    next: usize,
    cells: &mut Vec<Cell>,
) -> Result<Thread, NoMemory>
    ensures pc { IfOk result (λ t. t.pc ≡ next) }
    ensures trail { IfOk result (λ t. t.trail ≡ length cells.old.items + 1) }
    ensures cells { IfOk result (λ t. cells.new.items ≡ cells.old.items ++ record { event = event; earlier = thread.trail } ∷ []) }
{
    let trail = cells.len() + 1;
    cells.push(Cell {
        event,
        earlier: thread.trail,
    })?;
    Ok(Thread { pc: next, trail })
}

/// What stands for a lookahead.
fn look_at(looks: &[Leaf], piece: usize) -> Leaf
    ensures { (leaf : Leaf) → slice_get looks.now piece ≡ Some leaf → result ≡ leaf }
{
    match looks.get(piece) {
        Some(leaf) => *leaf,
        None => Leaf::Never,
    }
}

/// What a thread does at a place. What each lookahead comes to there is known.
pub fn act_at(
    code: &[Instr],
    looks: &[Leaf],
    input: Input<'_>,
    place: usize,
    thread: Thread,
    cells: &mut Vec<Cell>,
) -> Result<Act, NoMemory>
    requires known { IsKnown (length code.now) (length cells.old.items) thread }
    requires code { IsCode code.now }
    requires within { place ≤ length input.bytes.now }
    ensures does { IfOk result (λ a. (real : Text) → Agrees (text_of input.entry) real place →
        (rows : Rows) (blank : List (Option (ℕ × ℕ))) (mean : Mean) (rank : ℕ → ℕ) →
        Meaning code.now rows real blank mean rank → AreLooks code.now looks.now rows real place → (later : List Cell) →
        Does code.now mean blank rank (cells.new.items ++ later) place thread a) }
    ensures known { IfOk result (λ a. ActKnown (length code.now) (length cells.new.items) a) }
    ensures bytes { IfOk result (λ a. ActBytes code.now thread a) }
    ensures grown { IfOk result (λ a. (added : List Cell) × (cells.new.items ≡ cells.old.items ++ added)) }
{
    match instr_at(code, thread.pc) {
        Instr::Match => Ok(Act::Stop(Best::End {
            place,
            trail: thread.trail,
        })),
        Instr::Byte { .. } => Ok(Act::Ready),
        Instr::Split { first, other } => Ok(Act::Fork {
            first: Thread {
                pc: first,
                trail: thread.trail,
            },
            other: Thread {
                pc: other,
                trail: thread.trail,
            },
        }),
        Instr::Jump { next } => Ok(Act::Go(Thread {
            pc: next,
            trail: thread.trail,
        })),
        Instr::Begin { next } => {
            let t = with_event(Event::Began { place }, thread, next, cells)?;
            Ok(Act::Go(t))
        }
        Instr::Finish { number, next } => {
            let t = with_event(Event::Ended { number, place }, thread, next, cells)?;
            Ok(Act::Go(t))
        }
        Instr::TextStart { lines, next } => {
            let leaf = leaf::start(lines, byte_before(input, place));
            Ok(behind(leaf, thread, next))
        }
        Instr::TextEnd { lines, next } => {
            let leaf = leaf::finish(lines, input, place);
            Ok(behind(leaf, thread, next))
        }
        Instr::Word { next } => {
            let leaf = leaf::word(input, place);
            Ok(behind(leaf, thread, next))
        }
        Instr::Look { piece, next } => {
            let leaf = look_at(looks, piece);
            Ok(behind(leaf, thread, next))
        }
    }
}

/// Puts what a thread does into the lists. The answer is what ends all later threads.
pub fn put(
    act: Act,
    thread: Thread,
    stack: &mut Vec<Thread>,
    ready: &mut Vec<Thread>,
) -> Result<Option<Best>, NoMemory>
    ensures { IfOk result (λ o. Puts act thread stack.old.items stack.new.items ready.old.items ready.new.items o) }
{
    match act {
        Act::Fork { first, other } => {
            stack.push(other)?;
            stack.push(first)?;
        }
        Act::Go(next) => stack.push(next)?,
        Act::Ready => ready.push(thread)?,
        Act::Never => {}
        Act::Stop(best) => return Ok(Some(best)),
    }
    Ok(None)
}
