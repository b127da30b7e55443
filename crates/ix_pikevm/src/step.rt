//! The threads behind a byte.

ghost use Rattle.std.specs.Prelude.{◌≡◌, ℕ, ◌<◌, ◌≤◌, List, [], length, Option, IfOk, OnOk, Some, None, slice_get, slice_index_or, false};
ghost use Rattle.std.specs.Prelude.{if◌then◌else◌};
ghost use Rattle.ix_pikevm.specs.Code.{IsCode, HasSets};
ghost use Rattle.ix_pikevm.specs.Acts.{AllKnown, IsKnown, IsByte};
ghost use Rattle.ix_pikevm.specs.Settled.{AllBytes};
ghost use Rattle.ix_pikevm.specs.Stepped.{Steps};
ghost use Rattle.ix_pikevm.specs.Tests.{answers_to, AreTests, Counts};

use crate::cells::Thread;
use crate::code::{Instr, instr_at};
use crate::table::{Tests, answer};
use ix_base::{NoMemory, Steps as StepCount};
use std::sync::ledger::Ledger;

/// The thread behind a byte, if its piece takes that.
fn behind<L: Ledger>(
    code: &[Instr],
    tests: Tests<'_>,
    byte: u8,
    thread: Thread,
    steps: &mut StepCount<L>,
) -> Option<Thread>
    requires byte { IsByte code.now thread }
    requires sets { HasSets (length tests.pattern.now.rows) code.now }
    requires tests { AreTests tests }
    ensures next { (set next : ℕ) → slice_get code.now thread.pc ≡ Some (Instr.Byte set next) →
        result ≡ (if slice_index_or (answers_to tests.entry.pattern.now.rows byte) set false then Some
        (record { pc = next; trail = thread.trail }) else None) }
    ensures counts { Counts tests.entry steps.old steps.new }
{
    match instr_at(code, thread.pc) {
        Instr::Byte { set, next } => {
            if answer(tests, set, byte, steps) {
                Some(Thread {
                    pc: next,
                    trail: thread.trail,
                })
            } else {
                None
            }
        }
        _ => None,
    }
}

/// The thread with that number.
pub fn thread_at(threads: &[Thread], i: usize) -> Thread
    requires { i < length threads.now }
    ensures { slice_get threads.now i ≡ Some result }
{
    threads[i]
}

/// Puts the threads behind a byte on the stack, the first on top.
pub fn step<L: Ledger>(
    code: &[Instr],
    tests: Tests<'_>,
    byte: u8,
    ready: &[Thread],
    stack: &mut Vec<Thread>,
    steps: &mut StepCount<L>,
) -> Result<(), NoMemory>
    requires bytes { AllBytes code.now ready.now }
    requires code { IsCode code.now }
    requires sets { HasSets (length tests.pattern.now.rows) code.now }
    requires tests { AreTests tests }
    requires empty { stack.old.items ≡ [] }
    ensures steps { OnOk result (Steps code.now (answers_to tests.entry.pattern.now.rows byte) ready.now stack.new.items) }
    ensures counts { Counts tests.entry steps.old steps.new }
    ensures known { OnOk result ((c : ℕ) → AllKnown (length code.now) c ready.now → AllKnown (length code.now) c stack.new.items) }
{
    let mut i = ready.len();
    while i > 0 {
        i -= 1;
        if let Some(next) = behind(code, tests, byte, thread_at(ready, i), steps) {
            stack.push(next)?;
        }
    }
    Ok(())
}
