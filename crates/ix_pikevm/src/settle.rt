//! The threads of one place.

ghost use Rattle.std.specs.Prelude.{◌≡◌, ℕ, ◌<◌, ◌≤◌, ◌++◌, List, [], length, Option, IfOk, OnOk, slice_index_or, slice_set, true, false};
ghost use Rattle.ix_pikevm.specs.Leaf.{text_of};
ghost use Rattle.ix_pikevm.specs.Code.{IsCode};
ghost use Rattle.ix_pattern.specs.Ways.{Text};
ghost use Rattle.ix_pikevm.specs.Agrees.{Agrees};
ghost use Rattle.ix_pikevm.specs.Acts.{AllKnown};
ghost use Rattle.ix_pikevm.specs.Settled.{AllBytes, Settles};

use crate::acts::{act_at, put};
use crate::cells::{Best, Cell, Thread};
use crate::code::Instr;
use crate::input::Input;
use crate::leaf::Leaf;
use ix_base::NoMemory;

/// Marks an instruction. The answer is whether it had no mark.
fn mark(marks: &mut [u64], pc: usize, stamp: u64) -> bool
    requires { pc < length marks.old }
    ensures first { result ≡ true → (slice_index_or marks.old pc 0 ≡ stamp → ⊥) × (marks.new ≡ slice_set marks.old pc stamp) }
    ensures again { result ≡ false → (slice_index_or marks.old pc 0 ≡ stamp) × (marks.new ≡ marks.old) }
{
    if marks[pc] == stamp {
        return false;
    }
    marks[pc] = stamp;
    true
}

/// Follows the threads of the stack, the last first, until each waits for a byte. Of those that
/// come to one instruction the first stays. The answer is what ends all later threads.
pub fn settle(
    code: &[Instr],
    looks: &[Leaf],
    input: Input<'_>,
    place: usize,
    stack: &mut Vec<Thread>,
    ready: &mut Vec<Thread>,
    cells: &mut Vec<Cell>,
    marks: &mut [u64],
    stamp: u64,
) -> Result<Option<Best>, NoMemory>
    requires known { AllKnown (length code.now) (length cells.old.items) stack.old.items }
    requires code { IsCode code.now }
    requires within { place ≤ length input.bytes.now }
    requires empty { ready.old.items ≡ [] }
    requires marks { length marks.old ≡ length code.now }
    requires unmarked { (k : ℕ) → slice_index_or marks.old k 0 < stamp }
    ensures settles { IfOk result (λ o. (real : Text) → Agrees (text_of input.entry) real place →
        Settles code.now looks.now real place cells.old.items stack.old.items cells.new.items ready.new.items o) }
    ensures bytes { OnOk result (AllBytes code.now ready.new.items) }
    ensures known { OnOk result (AllKnown (length code.now) (length cells.new.items) ready.new.items) }
    ensures empty { OnOk result (stack.new.items ≡ []) }
    ensures marks { OnOk result (length marks.new ≡ length code.now) }
    ensures stamps { OnOk result ((k : ℕ) → slice_index_or marks.new k 0 ≤ stamp) }
    ensures grown { OnOk result ((added : List Cell) × (cells.new.items ≡ cells.old.items ++ added)) }
{
    while let Some(thread) = stack.pop() {
        if !mark(marks, thread.pc, stamp) {
            continue;
        }
        let act = act_at(code, looks, input, place, thread, cells)?;
        if let Some(best) = put(act, thread, stack, ready)? {
            stack.clear();
            return Ok(Some(best));
        }
    }
    Ok(None)
}
