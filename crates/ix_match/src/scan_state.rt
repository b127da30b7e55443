//! What a scan keeps from call to call.

ghost use Rattle.std.specs.Prelude.{◌≡◌, ℕ, ◌<◌, ◌≤◌, ◌+◌, ◌*◌, List, Option, None, true, IfOk, OnOk, length, replicate, slice_get};
ghost use Rattle.ix_pattern.specs.Ways.{ways};
ghost use Rattle.ix_pattern.specs.Rows.{Rows, tree, byte_pieces};
ghost use Rattle.ix_pikevm.specs.Attempts.{IsAttemptOn};
ghost use Rattle.ix_pikevm.specs.Finders.{HasRoom};
ghost use Rattle.ix_pikevm.specs.Leaf.{text_of, at};
ghost use Rattle.ix_pikevm.specs.Outcomes.{head_of};
ghost use Rattle.ix_match.specs.Searches.{IsKept, KeepsFor};

use crate::search::Search;
use ix_base::{NoMemory, Steps};
use ix_pattern::Pattern;
use ix_pikevm::attempt::Attempt;
use ix_pikevm::input::Input;
use ix_pikevm::run::Outcome;
use std::alloc::Global;
use std::sync::ledger::Ledger;

/// The search for the pattern of a scan, whose table has all tests, and an attempt.
pub struct ScanState {
    pub search: Search,
    /// The attempt that was begun. Where none was it is what an earlier one has worked in, which
    /// the next one works in again.
    pub attempt: Attempt,
    pub begun: bool,
}

/// It is written out, so that each place where one is let go is a call of it, which is proved once.
impl Drop for ScanState {
    fn drop(self) {
        let ScanState {
            search: _,
            attempt: _,
            begun: _,
        } = self;
    }
}

impl ScanState {
    /// No attempt, and a pattern each of whose byte pieces is tested now with each byte, and not
    /// again.
    pub fn tabled<L: Ledger>(
        alloc: Global,
        p: &Pattern,
        steps: &mut Steps<L>,
    ) -> Result<ScanState, NoMemory>
        ensures kept { IfOk result (λ k. (before : Option ℕ) (bytes : List ℕ) → KeepsFor p.now.rows k before bytes) }
        ensures counted { OnOk result (steps.new ≤ steps.old + 256 * byte_pieces p.now.rows) }
        ensures later { steps.old ≤ steps.new }
    {
        let search = Search::tabled(alloc, p, steps)?;
        Ok(ScanState {
            search,
            attempt: Attempt::unbegun(alloc),
            begun: false,
        })
    }

    /// The same search, and the attempt only where it goes on.
    pub fn stand(&mut self, goes_on: bool)
        ensures { (rows : Rows) (before : Option ℕ) (bytes : List ℕ) → (goes_on ≡ true → KeepsFor rows self.old before bytes) →
            IsKept rows self.old.search →
            KeepsFor rows self.new before bytes }
    {
        if !goes_on {
            self.begun = false;
        }
    }

    /// Begins an attempt, unless one was begun.
    fn begin(&mut self) -> Result<(), NoMemory>
        requires { self.old.search.finder.program.start < length self.old.search.finder.program.code.items }
        ensures stands { OnOk result ((rows : Rows) (before : Option ℕ) (bytes : List ℕ) →
            (self.old.begun ≡ true → IsAttemptOn rows self.old.search.finder.program self.old.attempt before bytes) →
            IsAttemptOn rows self.old.search.finder.program self.new.attempt before bytes) }
        ensures search { self.new.search ≡ self.old.search }
    {
        if self.begun {
            return Ok(());
        }
        self.attempt.begin(&self.search.finder.program)?;
        self.begun = true;
        Ok(())
    }

    /// Goes on with the attempt, or begins it: the head of the ordered list of ways at the first
    /// place of what is seen, where no group has taken part. It makes no test.
    pub fn go_on<L: Ledger>(
        &mut self,
        p: &Pattern,
        input: Input<'_>,
        steps: &mut Steps<L>,
    ) -> Result<Outcome, NoMemory>
        requires { KeepsFor p.now.rows self.old input.before input.bytes.now }
        ensures head { IfOk result (λ o. slice_get (ways (tree p.now.rows) (text_of input.entry) (at 0 (replicate p.now.groups None)))
            0 ≡ head_of o) }
        ensures kept { OnOk result (KeepsFor p.now.rows self.new input.entry.before input.entry.bytes.now) }
        ensures counted { steps.new ≡ steps.old }
    {
        self.begin()?;
        let outcome = self.search.go_on(p, input, &mut self.attempt, steps)?;
        Ok(outcome)
    }

    /// A copy of it, which goes on apart from it.
    pub fn copy(&self) -> Result<ScanState, NoMemory>
        requires { HasRoom self.now.search.finder self.now.search.room }
        ensures { IfOk result (λ k. (rows : Rows) (before : Option ℕ) (bytes : List ℕ) → KeepsFor rows self.now before bytes →
            KeepsFor rows k before bytes) }
    {
        Ok(ScanState {
            search: self.search.copy()?,
            attempt: self.attempt.copy()?,
            begun: self.begun,
        })
    }
}
