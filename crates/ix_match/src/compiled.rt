//! A pattern with all that a search for it needs.

ghost use Rattle.std.specs.Prelude.{◌≡◌, ℕ, ◌<◌, ◌≤◌, length, IfOk, OnOk, IfSome};
ghost use Rattle.ix_pattern.specs.Rows.{Rows};
ghost use Rattle.ix_pikevm.specs.Finders.{IsFinder, HasRoom};
ghost use Rattle.ix_match.specs.Fronts.{IsCandidate};
ghost use Rattle.ix_match.specs.Matches.{MatchesAt, IsFirst, LiesIn};
ghost use Rattle.ix_match.specs.Prepared.{IsPrepared};
ghost use Rattle.ix_match.specs.Tries.{IsTriedAt, IsTried, LiesIfFound};

use crate::budget::{is_spent, turns_for};
use crate::first::{Found, GroupList};
use crate::prefilter::Prefilter;
use ix_backtrack::backtrack_scratch::{BacktrackScratch, backtracked};
use ix_base::{NoMemory, Steps};
use ix_pattern::Pattern;
use ix_pikevm::input::Input;
use ix_pikevm::matcher::{Matcher, finder_of, head, room_of};
use ix_pikevm::matcher_ref::Scratch;
use ix_pikevm::place::first_place;
use ix_pikevm::run::Outcome;
use std::alloc::Global;
use std::marker::Brand;
use std::sync::ledger::{Blank, Ledger};

/// A pattern, where its matches may begin, and the pattern written out.
#[derive(Drop)]
pub struct CompiledPattern {
    pub pattern: Pattern,
    pub prefilter: Prefilter,
    pub program: Matcher,
}

/// What trying one way after the other comes to.
#[derive(Drop)]
pub enum TrialOutcome {
    Found(Found),
    No,
    /// It was given up. No match begins before this place.
    From(usize),
}

impl CompiledPattern {
    /// All that a search for this pattern needs.
    pub fn of(alloc: Global, pattern: Pattern) -> Result<CompiledPattern, NoMemory>
        ensures is { IfOk result (λ prepared. prepared.pattern ≡ pattern) }
        ensures prepared { IfOk result IsPrepared }
    {
        let program = finder_of(alloc, &pattern)?;
        let prefilter = Prefilter::of(alloc, &pattern)?;
        Ok(CompiledPattern {
            pattern,
            prefilter,
            program,
        })
    }

    /// The first place from this one on at which a match may begin. There is none where no match
    /// begins from here on.
    fn candidate(&self, text: &[u8], place: usize) -> Option<usize>
        requires prepared { IsPrepared self.now }
        requires place { place ≤ length text.now }
        ensures { IsCandidate self.now.pattern text.now place result }
    {
        self.prefilter.candidate(text, place)
    }

    /// The preferred one of the matches that begin at a place, if there is one.
    fn found_at<L: Ledger>(
        &self,
        alloc: Global,
        room: &mut Scratch,
        text: &[u8],
        place: usize,
        steps: &mut Steps<L>,
    ) -> Result<Option<Found>, NoMemory>
        requires prepared { IsPrepared self.now }
        requires room { HasRoom self.now.program room.old }
        requires place { place ≤ length text.now }
        ensures preferred { IfOk result (λ found. MatchesAt self.now.pattern text.now place found) }
        ensures lies { IfOk result (λ found. IfSome found (λ f. LiesIn text.now place self.now.pattern.groups f)) }
        ensures room { OnOk result (HasRoom self.now.program room.new) }
    {
        let input = Input {
            before: None,
            bytes: text,
            unfinished: false,
        };
        match head(
            alloc,
            &self.pattern,
            &self.program,
            input,
            place,
            room,
            steps,
        )? {
            Outcome::End { place: end, groups } => Ok(Some(Found {
                start: place,
                end,
                groups: GroupList::from_vec(groups),
            })),
            Outcome::No | Outcome::More => Ok(None),
        }
    }

    /// The first match that begins at this place or later, by a walk over the rest of the text.
    fn found_walked<L: Ledger>(
        &self,
        alloc: Global,
        room: &mut Scratch,
        text: &[u8],
        from: usize,
        steps: &mut Steps<L>,
    ) -> Result<Option<Found>, NoMemory>
        requires prepared { IsPrepared self.now }
        requires room { HasRoom self.now.program room.old }
        requires place { from ≤ length text.now }
        ensures first { IfOk result (λ found. IsFirst self.now.pattern text.now from found) }
        ensures lies { IfOk result (λ found. IfSome found (λ f. LiesIn text.now from self.now.pattern.groups f)) }
    {
        let place = first_place(&self.pattern, &self.program, text, from, room, steps)?;
        let Some(at) = place else {
            return Ok(None);
        };
        let found = self.found_at(alloc, room, text, at, steps)?;
        Ok(found)
    }

    /// The first match that begins at this place or later. Where attempts at one place after the
    /// other have cost too much, a walk over the rest of the text tells it.
    fn found_from<L: Ledger>(
        &self,
        alloc: Global,
        room: &mut Scratch,
        text: &[u8],
        from: usize,
        steps: &mut Steps<L>,
    ) -> Result<Option<Found>, NoMemory>
        requires prepared { IsPrepared self.now }
        requires room { HasRoom self.now.program room.old }
        requires place { from ≤ length text.now }
        ensures first { IfOk result (λ found. IsFirst self.now.pattern text.now from found) }
        ensures lies { IfOk result (λ found. IfSome found (λ f. LiesIn text.now from self.now.pattern.groups f)) }
    {
        let mut at = from;
        loop {
            if is_spent(room, text.len() - from) {
                let found = self.found_walked(alloc, room, text, at, steps)?;
                return Ok(found);
            }
            if let Some(found) = self.found_at(alloc, room, text, at, steps)? {
                return Ok(Some(found));
            }
            if at == text.len() {
                return Ok(None);
            }
            let Some(next) = self.candidate(text, at + 1) else {
                return Ok(None);
            };
            at = next;
        }
    }

    /// The preferred one of the matches that begin at a place, if one way after the other is tried
    /// within the turns that are left.
    fn tried_at<L: Ledger>(
        &self,
        alloc: Global,
        tries: &mut BacktrackScratch,
        left: &mut u64,
        text: &[u8],
        place: usize,
        steps: &mut Steps<L>,
    ) -> Result<TrialOutcome, NoMemory>
        requires prepared { IsPrepared self.now }
        requires place { place ≤ length text.now }
        ensures is { IfOk result (λ tried. IsTriedAt self.now.pattern text.now place tried) }
        ensures lies { IfOk result (λ tried. LiesIfFound text.now place self.now.pattern.groups tried) }
    {
        let input = Input {
            before: None,
            bytes: text,
            unfinished: false,
        };
        let tried = backtracked(
            alloc,
            &self.pattern,
            &self.program,
            input,
            place,
            tries,
            left,
            steps,
        )?;
        let Some(outcome) = tried else {
            return Ok(TrialOutcome::From(place));
        };
        match outcome {
            Outcome::End { place: end, groups } => Ok(TrialOutcome::Found(Found {
                start: place,
                end,
                groups: GroupList::from_vec(groups),
            })),
            Outcome::No | Outcome::More => Ok(TrialOutcome::No),
        }
    }

    /// The first match that begins at this place or later, by attempts that try one way after the
    /// other. They are given up where they have taken more turns than the rest of the text is
    /// worth.
    fn tried_from<L: Ledger>(
        &self,
        alloc: Global,
        text: &[u8],
        from: usize,
        steps: &mut Steps<L>,
    ) -> Result<TrialOutcome, NoMemory>
        requires prepared { IsPrepared self.now }
        requires place { from ≤ length text.now }
        ensures is { IfOk result (λ tried. IsTried self.now.pattern text.now from tried) }
        ensures lies { IfOk result (λ tried. LiesIfFound text.now from self.now.pattern.groups tried) }
    {
        let mut tries = BacktrackScratch::new(alloc);
        let mut left = turns_for(text.len() - from);
        let mut at = from;
        loop {
            match self.tried_at(alloc, &mut tries, &mut left, text, at, steps)? {
                TrialOutcome::Found(found) => return Ok(TrialOutcome::Found(found)),
                TrialOutcome::From(place) => return Ok(TrialOutcome::From(place)),
                TrialOutcome::No => {}
            }
            if at == text.len() {
                return Ok(TrialOutcome::No);
            }
            let Some(further) = self.candidate(text, at + 1) else {
                return Ok(TrialOutcome::No);
            };
            at = further;
        }
    }

    /// The first match. Room for the list of threads is made only where trying one way after the
    /// other was given up. Steps are counted in the ledger that the blank one opens, which nobody
    /// reads.
    fn find_uncounted<L: Ledger>(
        &self,
        alloc: Global,
        text: &[u8],
        from: usize,
        blank: Blank,
    ) -> Result<Option<Found>, NoMemory>
        requires prepared { IsPrepared self.now }
        requires place { from ≤ length text.now }
        requires name { blank.name ≡ L.name }
        requires parts { blank.parts ≡ L.parts }
        requires some { 0 < blank.parts }
        ensures first { IfOk result (λ found. IsFirst self.now.pattern text.now from found) }
        ensures lies { IfOk result (λ found. IfSome found (λ f. LiesIn text.now from self.now.pattern.groups f)) }
    {
        let mut steps = Steps::<L>::new(blank);
        let Some(place) = self.candidate(text, from) else {
            return Ok(None);
        };
        match self.tried_from(alloc, text, place, &mut steps)? {
            TrialOutcome::Found(found) => Ok(Some(found)),
            TrialOutcome::No => Ok(None),
            TrialOutcome::From(at) => {
                let mut room = room_of(alloc, &self.pattern, &self.program)?;
                let found = self.found_from(alloc, &mut room, text, at, &mut steps)?;
                Ok(found)
            }
        }
    }

    /// The first match that begins at the place `from` or later.
    pub fn find(&self, alloc: Global, text: &[u8], from: usize) -> Result<Option<Found>, NoMemory>
        requires prepared { IsPrepared self.now }
        requires place { from ≤ length text.now }
        ensures first { IfOk result (λ found. IsFirst self.now.pattern text.now from found) }
        ensures lies { IfOk result (λ found. IfSome found (λ f. LiesIn text.now from self.now.pattern.groups f)) }
    {
        self.find_uncounted::<Brand>(alloc, text, from, Blank::new(1))
    }

    /// A copy of it.
    pub fn copy(&self) -> Result<CompiledPattern, NoMemory>
        requires { IsPrepared self.now }
        ensures is { IfOk result (λ copy. copy.pattern ≡ self.now.pattern) }
        ensures prepared { IfOk result IsPrepared }
    {
        let program = self.program.copy()?;
        let pattern = self.pattern.copy()?;
        let prefilter = self.prefilter.copy()?;
        Ok(CompiledPattern {
            pattern,
            prefilter,
            program,
        })
    }
}
