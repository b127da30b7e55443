//! The search for a pattern, and what it works in. `find` makes one for each call, and `Scan` keeps
//! one.

ghost use Rattle.std.specs.Prelude.{◌≡◌, ◌≤◌, ◌+◌, ◌*◌, None, IfOk, OnOk, length, replicate, slice_get};
ghost use Rattle.ix_pattern.specs.Ways.{ways};
ghost use Rattle.ix_pattern.specs.Rows.{Rows, tree, byte_pieces};
ghost use Rattle.ix_pikevm.specs.Leaf.{text_of, at};
ghost use Rattle.ix_pikevm.specs.Outcomes.{head_of};
ghost use Rattle.ix_pikevm.specs.Attempts.{IsAttemptOn};
ghost use Rattle.ix_pikevm.specs.Finders.{HasRoom, IsSameProgram};
ghost use Rattle.ix_pikevm.specs.Places.{IsPlace};
ghost use Rattle.ix_match.specs.Matches.{closed};
ghost use Rattle.ix_match.specs.Searches.{IsSearch, IsKept};

use ix_base::{NoMemory, Steps};
use ix_pattern::Pattern;
use ix_pikevm::attempt::{Attempt, go_on};
use ix_pikevm::input::Input;
use ix_pikevm::matcher::{Matcher, finder_of, head, room_again, room_of, tabled_finder};
use ix_pikevm::matcher_ref::Scratch;
use ix_pikevm::place::first_place;
use ix_pikevm::run::Outcome;
use std::alloc::Global;
use std::sync::ledger::Ledger;

/// A pattern that was written out, and room for the threads. It is used again from place to place
/// and from text to text.
pub struct Search {
    pub alloc: Global,
    pub finder: Matcher,
    pub room: Scratch,
}

/// It is written out, so that each place where one is let go is a call of it, which is proved once.
impl Drop for Search {
    fn drop(self) {
        let Search {
            alloc: _,
            finder: _,
            room: _,
        } = self;
    }
}

impl Search {
    /// For a pattern, whose byte pieces are asked when a byte is met.
    pub fn new(alloc: Global, p: &Pattern) -> Result<Search, NoMemory>
        ensures { IfOk result (λ search. IsSearch p.now.rows search) }
    {
        let finder = finder_of(alloc, p)?;
        let room = room_of(alloc, p, &finder)?;
        Ok(Search {
            alloc,
            finder,
            room,
        })
    }

    /// For a pattern, each of whose byte pieces is tested now with each byte, and not again.
    pub fn tabled<L: Ledger>(
        alloc: Global,
        p: &Pattern,
        steps: &mut Steps<L>,
    ) -> Result<Search, NoMemory>
        ensures search { IfOk result (λ search. IsSearch p.now.rows search) }
        ensures whole { IfOk result (λ search. search.finder.width ≡ length p.now.rows) }
        ensures counted { OnOk result (steps.new ≤ steps.old + 256 * byte_pieces p.now.rows) }
        ensures later { steps.old ≤ steps.new }
    {
        let finder = tabled_finder(alloc, p, steps)?;
        let room = room_of(alloc, p, &finder)?;
        Ok(Search {
            alloc,
            finder,
            room,
        })
    }

    /// The head of the ordered list of ways at a place of a text, where no group has taken part.
    pub fn head<L: Ledger>(
        &mut self,
        p: &Pattern,
        input: Input<'_>,
        place: usize,
        steps: &mut Steps<L>,
    ) -> Result<Outcome, NoMemory>
        requires search { IsSearch p.now.rows self.old }
        requires within { place ≤ length input.bytes.now }
        ensures head { IfOk result (λ o. slice_get (ways (tree p.now.rows) (text_of input.entry) (at place (replicate p.now.groups None)))
            0 ≡ head_of o) }
        ensures search { OnOk result (IsSearch p.now.rows self.new) }
        ensures finder { self.new.finder ≡ self.old.finder }
        ensures later { steps.old ≤ steps.new }
        ensures tabled { self.old.finder.width ≡ length p.now.rows → steps.new ≡ steps.old }
    {
        let outcome = head(
            self.alloc,
            p,
            &self.finder,
            input,
            place,
            &mut self.room,
            steps,
        )?;
        Ok(outcome)
    }

    /// The first place of a whole text from this one on at which the pattern has a way.
    pub fn first_place<L: Ledger>(
        &mut self,
        p: &Pattern,
        text: &[u8],
        from: usize,
        steps: &mut Steps<L>,
    ) -> Result<Option<usize>, NoMemory>
        requires search { IsSearch p.now.rows self.old }
        requires from { from ≤ length text.now }
        ensures place { IfOk result (λ place. IsPlace p.now (closed text.now) from place) }
        ensures search { OnOk result (IsSearch p.now.rows self.new) }
    {
        let place = first_place(p, &self.finder, text, from, &mut self.room, steps)?;
        Ok(place)
    }

    /// Goes on with an attempt at the first place of a text: the head of the ordered list of ways
    /// there, where no group has taken part.
    pub fn go_on<L: Ledger>(
        &mut self,
        p: &Pattern,
        input: Input<'_>,
        attempt: &mut Attempt,
        steps: &mut Steps<L>,
    ) -> Result<Outcome, NoMemory>
        requires search { IsSearch p.now.rows self.old }
        requires stands { IsAttemptOn p.now.rows self.old.finder.program attempt.old input.before input.bytes.now }
        ensures head { IfOk result (λ o. slice_get (ways (tree p.now.rows) (text_of input.entry) (at 0 (replicate p.now.groups None)))
            0 ≡ head_of o) }
        ensures stands { OnOk result (IsAttemptOn p.now.rows self.old.finder.program attempt.new input.entry.before input.entry.bytes.now) }
        ensures search { OnOk result (IsSearch p.now.rows self.new) }
        ensures finder { self.new.finder ≡ self.old.finder }
        ensures later { steps.old ≤ steps.new }
        ensures tabled { self.old.finder.width ≡ length p.now.rows → steps.new ≡ steps.old }
    {
        let outcome = go_on(
            self.alloc,
            p,
            &self.finder,
            input,
            attempt,
            &mut self.room,
            steps,
        )?;
        Ok(outcome)
    }

    /// A copy of it, with its table and with room of its own.
    pub fn copy(&self) -> Result<Search, NoMemory>
        requires { HasRoom self.now.finder self.now.room }
        ensures search { IfOk result (λ search. (rows : Rows) → IsKept rows self.now → IsKept rows search) }
        ensures program { IfOk result (λ search. IsSameProgram self.now.finder.program search.finder.program) }
    {
        let finder = self.finder.copy()?;
        let room = room_again(self.alloc, &finder, &self.room)?;
        Ok(Search {
            alloc: self.alloc,
            finder,
            room,
        })
    }
}
