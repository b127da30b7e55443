//! What a run works in, and the threads of one place.

ghost use Rattle.std.specs.Prelude.{◌≡◌, ℕ, ◌<◌, ◌≤◌, List, [], length, Option, IfOk, OnOk, slice_get, slice_index_or};
ghost use Rattle.ix_pattern.specs.Ways.{Text};
ghost use Rattle.ix_pikevm.specs.Leaf.{text_of};
ghost use Rattle.ix_pikevm.specs.Code.{IsCode};
ghost use Rattle.ix_pikevm.specs.Agrees.{Agrees};
ghost use Rattle.ix_pikevm.specs.Acts.{AllKnown};
ghost use Rattle.ix_pikevm.specs.Settled.{AllBytes, or_best};
ghost use Rattle.ix_pikevm.specs.Ran.{AreMarks, Looked, Rounds, Grown};

use crate::cells::{Best, Cell, Thread};
use crate::code::Instr;
use crate::input::Input;
use crate::leaf::Leaf;
use crate::settle::settle;
use ix_base::NoMemory;
use std::alloc::Global;

/// What a run works in. It is used again.
pub struct ThreadScratch {
    pub stack: Vec<Thread>,
    pub ready: Vec<Thread>,
    pub cells: Vec<Cell>,
    pub marks: Vec<u64>,
    pub stamp: u64,
}

/// It is written out, so that each place where one is let go is a call of it, which is proved once.
impl Drop for ThreadScratch {
    fn drop(self) {
        let ThreadScratch {
            stack: _,
            ready: _,
            cells: _,
            marks: _,
            stamp: _,
        } = self;
    }
}

impl ThreadScratch {
    /// For so many instructions.
    pub fn new(alloc: Global, count: usize) -> Result<ThreadScratch, NoMemory>
        ensures marks { IfOk result (λ w. AreMarks w.marks.items count w.stamp) }
        ensures empty { IfOk result (λ w. w.stack.items ≡ []) }
    {
        Ok(ThreadScratch {
            stack: Vec::new(alloc),
            ready: Vec::new(alloc),
            cells: Vec::new(alloc),
            marks: vec![in alloc; 0; count]?,
            stamp: 0,
        })
    }
}

/// A stamp above all marks.
fn next_stamp(marks: &mut [u64], stamp: u64) -> u64
    requires { (k : ℕ) → slice_index_or marks.old k 0 ≤ stamp }
    ensures above { (k : ℕ) → slice_index_or marks.new k 0 < result }
    ensures all { length marks.new ≡ length marks.old }
{
    if stamp < u64::MAX {
        return stamp + 1;
    }
    marks.fill(0);
    1
}

fn or_best(found: Option<Best>, best: Best) -> Best
    ensures { result ≡ or_best found best }
{
    match found {
        Some(found) => found,
        None => best,
    }
}

/// Follows the threads of a place. What each lookahead comes to there is known.
pub fn follow(
    code: &[Instr],
    looks: &[Leaf],
    input: Input<'_>,
    place: usize,
    best: Best,
    work: &mut ThreadScratch,
) -> Result<Best, NoMemory>
    requires known { AllKnown (length code.now) (length work.old.cells.items) work.old.stack.items }
    requires code { IsCode code.now }
    requires within { place ≤ length input.bytes.now }
    requires marks { AreMarks work.old.marks.items (length code.now) work.old.stamp }
    ensures rounds { IfOk result (λ after. (real : Text) → Agrees (text_of input.entry) real place →
        Rounds (Looked code.now looks.now real place) code.now real place work.old.cells.items work.old.stack.items work.new.cells.items
        work.new.ready.items best after) }
    ensures bytes { OnOk result (AllBytes code.now work.new.ready.items) }
    ensures known { OnOk result (AllKnown (length code.now) (length work.new.cells.items) work.new.ready.items) }
    ensures empty { OnOk result (work.new.stack.items ≡ []) }
    ensures marks { OnOk result (AreMarks work.new.marks.items (length code.now) work.new.stamp) }
    ensures grown { OnOk result (Grown work.old.cells.items work.new.cells.items) }
{
    work.ready.clear();
    work.stamp = next_stamp(&mut work.marks, work.stamp);
    let found = settle(
        code,
        looks,
        input,
        place,
        &mut work.stack,
        &mut work.ready,
        &mut work.cells,
        &mut work.marks,
        work.stamp,
    )?;
    Ok(or_best(found, best))
}
