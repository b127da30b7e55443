//! What a search goes by, and what it works in.

ghost use Rattle.std.specs.Prelude.{◌≡◌, IfOk, length, []};
ghost use Rattle.ix_pikevm.specs.Ran.{AreMarks};

use crate::code::{Instr, Lookahead};
use crate::leaf::Leaf;
use crate::table::Tests;
use crate::thread_scratch::ThreadScratch;
use ix_base::NoMemory;
use std::alloc::Global;

/// The code of a pattern, its lookaheads with the code of their insides, and how bytes are tested.
#[derive(Clone, Copy)]
pub struct MatcherRef<'a> {
    pub code: &'a [Instr],
    pub asks: &'a [Lookahead],
    pub inner: &'a [Instr],
    pub tests: Tests<'a>,
}

/// What a search works in: that of the pattern and that of the insides of its lookaheads, and what
/// each lookahead comes to at a place, by the number of its piece. It is used again.
pub struct Scratch {
    pub main: ThreadScratch,
    pub inner: ThreadScratch,
    pub looks: Vec<Leaf>,
}

/// It is written out, so that each place where one is let go is a call of it, which is proved once.
impl Drop for Scratch {
    fn drop(self) {
        let Scratch {
            main: _,
            inner: _,
            looks: _,
        } = self;
    }
}

impl Scratch {
    /// For so many instructions, and so many of the insides.
    pub fn new(
        alloc: Global,
        count: usize,
        insides: usize,
        looks: Vec<Leaf>,
    ) -> Result<Scratch, NoMemory>
        ensures main { IfOk result (λ r. AreMarks r.main.marks.items count r.main.stamp) }
        ensures inner { IfOk result (λ r. AreMarks r.inner.marks.items insides r.inner.stamp) }
        ensures looks { IfOk result (λ r. r.looks.items ≡ looks.items) }
        ensures empty { IfOk result (λ r. r.main.stack.items ≡ []) }
    {
        Ok(Scratch {
            main: ThreadScratch::new(alloc, count)?,
            inner: ThreadScratch::new(alloc, insides)?,
            looks,
        })
    }

    /// At how many places threads were followed in it so far: what its runs have cost.
    pub fn followed(&self) -> u64
        ensures { result ≡ self.now.main.stamp }
    {
        self.main.stamp
    }
}
