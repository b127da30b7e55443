//! A choice, with a look at the next byte: a part of it that comes to nothing at once is not taken
//! up.

ghost use Rattle.std.specs.Prelude.{◌≡◌, ℕ, ◌+◌, ◌<◌, ◌≤◌, ◌++◌, length, true, List};
ghost use Rattle.ix_pikevm.specs.Leaf.{text_of};
ghost use Rattle.ix_pikevm.specs.declared.cells.Cell.{Cell};
ghost use Rattle.ix_backtrack.specs.Frames.{IsFrame, IsTurn, IsIfSome, Glances, Dies, Chooses};
ghost use Rattle.ix_backtrack.specs.Tried.{IsPlainCode};

use crate::behind::takes;
use crate::frames::{Frame, Turn};
use ix_base::Steps;
use ix_pattern::Pattern;
use ix_pikevm::code::{Instr, instr_at};
use ix_pikevm::input::Input;
use ix_pikevm::leaf;
use ix_pikevm::leaf::Leaf;
use std::sync::ledger::Ledger;

/// The frame, or where it stands before a byte, the one behind that. There is none where it does
/// not take the byte.
fn glance<L: Ledger>(
    p: &Pattern,
    code: &[Instr],
    input: Input<'_>,
    frame: Frame,
    steps: &mut Steps<L>,
) -> Option<Frame>
    requires code { IsPlainCode p.now.rows code.now }
    requires pc { frame.pc < length code.now }
    ensures glances { Glances code.now p.now.rows (text_of input.entry) frame result }
    ensures known { (c : ℕ) → IsFrame (length code.now) c (length input.entry.bytes.now) frame →
        IsIfSome (length code.now) c (length input.entry.bytes.now) result }
{
    let Instr::Byte { set, next } = instr_at(code, frame.pc) else {
        return Some(frame);
    };
    if frame.place >= input.bytes.len() {
        return Some(frame);
    }
    if !takes(p, set, input.bytes[frame.place], steps) {
        return None;
    }
    Some(Frame {
        pc: next,
        trail: frame.trail,
        place: frame.place + 1,
    })
}

/// Whether a way at this instruction comes to nothing at once, as the next byte tells.
fn dies<L: Ledger>(
    p: &Pattern,
    code: &[Instr],
    input: Input<'_>,
    pc: usize,
    place: usize,
    steps: &mut Steps<L>,
) -> bool
    requires code { IsPlainCode p.now.rows code.now }
    requires pc { pc < length code.now }
    requires within { place ≤ length input.bytes.now }
    ensures { result ≡ true → Dies code.now p.now.rows (text_of input.entry) pc place }
{
    match instr_at(code, pc) {
        Instr::Byte { set, .. } => {
            place < input.bytes.len() && !takes(p, set, input.bytes[place], steps)
        }
        Instr::TextEnd { lines, .. } => match leaf::finish(lines, input, place) {
            Leaf::Never => true,
            Leaf::Here | Leaf::Edge => false,
        },
        _ => false,
    }
}

/// The same, also where the end of a group or a jump stands before that.
fn dies_soon<L: Ledger>(
    p: &Pattern,
    code: &[Instr],
    input: Input<'_>,
    pc: usize,
    place: usize,
    steps: &mut Steps<L>,
) -> bool
    requires code { IsPlainCode p.now.rows code.now }
    requires pc { pc < length code.now }
    requires within { place ≤ length input.bytes.now }
    ensures { result ≡ true → Dies code.now p.now.rows (text_of input.entry) pc place }
{
    match instr_at(code, pc) {
        Instr::Finish { next, .. } => dies(p, code, input, next, place, steps),
        Instr::Jump { next } => dies(p, code, input, next, place, steps),
        _ => dies(p, code, input, pc, place, steps),
    }
}

/// What becomes of a way that goes on as two, the first preferred.
pub fn choice<L: Ledger>(
    p: &Pattern,
    code: &[Instr],
    input: Input<'_>,
    first: Frame,
    other: Frame,
    steps: &mut Steps<L>,
) -> Turn
    requires code { IsPlainCode p.now.rows code.now }
    requires first { first.pc < length code.now }
    requires other { other.pc < length code.now }
    requires within { other.place ≤ length input.bytes.now }
    ensures chooses { Chooses code.now p.now.rows (text_of input.entry) first other result }
    ensures known { (c : ℕ) → IsFrame (length code.now) c (length input.entry.bytes.now) first →
        IsFrame (length code.now) c (length input.entry.bytes.now) other →
        IsTurn (length code.now) c (length input.entry.bytes.now) result }
{
    let Some(ahead) = glance(p, code, input, first, steps) else {
        return Turn::On(other);
    };
    if dies_soon(p, code, input, other.pc, other.place, steps) {
        return Turn::On(ahead);
    }
    Turn::Fork {
        first: ahead,
        other,
    }
}
