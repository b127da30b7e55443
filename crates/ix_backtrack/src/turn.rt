//! What becomes of a way at its instruction.

ghost use Rattle.std.specs.Prelude.{◌≡◌, ◌+◌, ◌<◌, ◌∷◌, ◌++◌, [], length, IfOk, OnOk};
ghost use Rattle.ix_pikevm.specs.Leaf.{text_of};
ghost use Rattle.ix_pikevm.specs.Ran.{Grown};
ghost use Rattle.ix_backtrack.specs.Frames.{IsFrame, IsTurn, Turns};
ghost use Rattle.ix_backtrack.specs.Tried.{IsPlainCode};

use crate::behind::{behind_byte, behind_leaf};
use crate::choice::choice;
use crate::frames::{Frame, Turn};
use ix_base::{NoMemory, Steps};
use ix_pattern::Pattern;
use ix_pikevm::cells::{Cell, Event};
use ix_pikevm::code::{Instr, instr_at};
use ix_pikevm::input::{Input, byte_before};
use ix_pikevm::leaf;
use std::sync::ledger::Ledger;

/// Room for some cells at once, where there is none yet.
fn with_room(cells: &mut Vec<Cell>) -> Result<(), NoMemory>
    ensures { OnOk result (cells.new.items ≡ cells.old.items) }
{
    if cells.capacity() > 0 {
        return Ok(());
    }
    cells.reserve(16)?;
    Ok(())
}

/// The frame behind an event.
fn behind_event(
    event: Event,
    frame: Frame,
    next: usize,
    cells: &mut Vec<Cell>,
) -> Result<Frame, NoMemory>
    ensures is { IfOk result (λ f. f ≡ record { pc = next; trail = length cells.old.items + 1; place = frame.place }) }
    ensures cells { IfOk result (λ f. cells.new.items ≡ cells.old.items ++ record { event = event; earlier = frame.trail } ∷ []) }
{
    with_room(cells)?;
    let trail = cells.len() + 1;
    cells.push(Cell {
        event,
        earlier: frame.trail,
    })?;
    Ok(Frame {
        pc: next,
        trail,
        place: frame.place,
    })
}

/// What becomes of a way at its instruction.
pub fn turn<L: Ledger>(
    p: &Pattern,
    code: &[Instr],
    input: Input<'_>,
    frame: Frame,
    cells: &mut Vec<Cell>,
    steps: &mut Steps<L>,
) -> Result<Turn, NoMemory>
    requires code { IsPlainCode p.now.rows code.now }
    requires known { IsFrame (length code.now) (length cells.old.items) (length input.bytes.now) frame }
    ensures turns { IfOk result (λ t. Turns code.now p.now.rows (text_of input.entry) cells.new.items frame t) }
    ensures known { IfOk result (λ t. IsTurn (length code.now) (length cells.new.items) (length input.entry.bytes.now) t) }
    ensures grown { IfOk result (λ t. Grown cells.old.items cells.new.items) }
{
    match instr_at(code, frame.pc) {
        Instr::Match => Ok(Turn::End),
        Instr::Byte { set, next } => Ok(behind_byte(p, input, frame, set, next, steps)),
        Instr::Split { first, other } => {
            let preferred = Frame {
                pc: first,
                trail: frame.trail,
                place: frame.place,
            };
            let later = Frame {
                pc: other,
                trail: frame.trail,
                place: frame.place,
            };
            Ok(choice(p, code, input, preferred, later, steps))
        }
        Instr::Jump { next } => Ok(Turn::On(Frame {
            pc: next,
            trail: frame.trail,
            place: frame.place,
        })),
        Instr::Begin { next } => {
            let event = Event::Began { place: frame.place };
            let f = behind_event(event, frame, next, cells)?;
            Ok(Turn::On(f))
        }
        Instr::Finish { number, next } => {
            let event = Event::Ended {
                number,
                place: frame.place,
            };
            let f = behind_event(event, frame, next, cells)?;
            Ok(Turn::On(f))
        }
        Instr::TextStart { lines, next } => {
            let leaf = leaf::start(lines, byte_before(input, frame.place));
            Ok(behind_leaf(leaf, frame, next))
        }
        Instr::TextEnd { lines, next } => {
            let leaf = leaf::finish(lines, input, frame.place);
            Ok(behind_leaf(leaf, frame, next))
        }
        Instr::Word { next } => {
            let leaf = leaf::word(input, frame.place);
            Ok(behind_leaf(leaf, frame, next))
        }
        Instr::Look { .. } => Ok(Turn::Back),
    }
}
