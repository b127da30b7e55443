//! An attempt at one place: one way after the other.

ghost use Rattle.std.specs.Prelude.{◌≡◌, ◌≤◌, ◌<◌, ◌++◌, ◌∷◌, [], length, IfOk, OnOk, Some, None};
ghost use Rattle.ix_pikevm.specs.Leaf.{text_of};
ghost use Rattle.ix_backtrack.specs.Tried.{IsPlainCode, Settled};

use crate::frames::{Frame, Turn};
use crate::turn::turn;
use ix_base::{NoMemory, Steps};
use ix_pattern::Pattern;
use ix_pikevm::cells::{Best, Cell};
use ix_pikevm::code::Instr;
use ix_pikevm::input::Input;
use std::sync::ledger::Ledger;

/// What an attempt came to, where it was not given up, and how many turns it took.
#[derive(Clone, Copy)]
pub struct BacktrackOutcome {
    pub best: Option<Best>,
    pub taken: u64,
}

/// What an attempt came to after so many turns.
fn came_to(best: Best, taken: u64) -> BacktrackOutcome
    ensures { result ≡ record { best = Some best; taken = taken } }
{
    BacktrackOutcome {
        best: Some(best),
        taken,
    }
}

/// Puts a frame on the stack. Room is made for some at once.
fn put_off(stack: &mut Vec<Frame>, frame: Frame) -> Result<(), NoMemory>
    ensures { OnOk result (stack.new.items ≡ stack.old.items ++ frame ∷ []) }
{
    if stack.capacity() > 0 {
        stack.push(frame)?;
        return Ok(());
    }
    stack.reserve(32)?;
    stack.push(frame)?;
    Ok(())
}

/// What stands for the head of the ways of an instruction at a place of a text. It is given up
/// after so many turns.
pub fn attempt<L: Ledger>(
    p: &Pattern,
    code: &[Instr],
    start: usize,
    input: Input<'_>,
    place: usize,
    limit: u64,
    stack: &mut Vec<Frame>,
    cells: &mut Vec<Cell>,
    steps: &mut Steps<L>,
) -> Result<BacktrackOutcome, NoMemory>
    requires code { IsPlainCode p.now.rows code.now }
    requires start { start < length code.now }
    requires within { place ≤ length input.bytes.now }
    ensures settled { IfOk result (λ t. Settled p.now.rows code.now (text_of input.entry) start place cells.new.items t.best) }
    ensures spent { IfOk result (λ t. t.best ≡ None → t.taken ≡ limit) }
    ensures within { IfOk result (λ t. t.taken ≤ limit) }
{
    stack.clear();
    cells.clear();
    let mut frame = Frame {
        pc: start,
        trail: 0,
        place,
    };
    for taken in 0..limit {
        match turn(p, code, input, frame, cells, steps)? {
            Turn::On(next) => {
                frame = next;
                continue;
            }
            Turn::Fork { first, other } => {
                put_off(stack, other)?;
                frame = first;
                continue;
            }
            Turn::Back => match stack.pop() {
                Some(next) => {
                    frame = next;
                    continue;
                }
                None => return Ok(came_to(Best::No, taken)),
            },
            Turn::End => {
                let Frame { place, trail, .. } = frame;
                return Ok(came_to(Best::End { place, trail }, taken));
            }
            Turn::Edge => return Ok(came_to(Best::More, taken)),
        }
    }
    Ok(BacktrackOutcome {
        best: None,
        taken: limit,
    })
}
