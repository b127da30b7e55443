//! Breaks between lines.

ghost use Rattle.std.specs.Prelude.{◌≡◌, ℕ, ◌+◌, ◌-◌, ◌*◌, ◌<◌, ◌≤◌, List, length, take, drop, IfOk, OnOk, Option};
ghost use Rattle.ix_pattern.specs.Piece.{least_length};
ghost use Rattle.ix_pattern.specs.Rows.{tree};
ghost use Rattle.ix_match.specs.Attempt.{reach};
ghost use Rattle.ix_match.specs.Scans.{GoesOn, emptied};
ghost use Rattle.ix_lines.specs.Begun.{IsBegun, StopsBegun};
ghost use Rattle.ix_lines.specs.Breaks.{break_of, breaks_by};
ghost use Rattle.ix_lines.specs.Laws.{IsStable};
ghost use Rattle.ix_lines.specs.Seek.{look_of, IsSized, seek, last_byte, IsWithin, end_of, most_looks};

use crate::byte_runs::{is_byte_run, run_at};
use ix_base::{NoMemory, Steps};
use ix_match::{Look, Scan};
use ix_pattern::Pattern;
use std::alloc::Global;
use std::marker::Model;
use std::sync::ledger::{Blank, Ledger};

/// What an attempt at a place comes to. Places count from that place.
#[derive(Clone, Copy)]
pub enum BreakLook {
    /// A break, and the end of the match that gave it.
    Match { from: usize, to: usize, end: usize },
    /// No match begins here.
    No,
    /// It depends on bytes that have not come.
    More,
}

/// What comes first from a place on. Places count from there.
#[derive(Clone, Copy)]
pub enum Found {
    /// A break, and the end of the match that gave it.
    Break { from: usize, to: usize, end: usize },
    /// No break before this place, which is the end, or from which on it depends on bytes that have
    /// not come.
    Stop(usize),
}

/// The first bytes, as many as this at the most.
pub fn first_bytes(bytes: &[u8], n: usize) -> &[u8]
    ensures { result.now ≡ take n bytes.now }
{
    if bytes.len() < n { bytes } else { &bytes[..n] }
}

/// The last of these bytes, or the one before them where there is none.
pub fn last_byte(before: Option<u8>, bytes: &[u8]) -> Option<u8>
    ensures { result ≡ last_byte before bytes.now }
{
    match bytes.len() {
        0 => before,
        n => Some(bytes[n - 1]),
    }
}

/// The span of the first group that took part, or the empty one at the match's start.
fn break_of(groups: &[Option<(usize, usize)>]) -> (usize, usize)
    ensures { result ≡ break_of groups.now }
{
    for group in groups {
        if let Some(span) = group {
            return *span;
        }
    }
    (0, 0)
}

/// A pattern of breaks, with the attempt that goes on while bytes come. Contracts see the pattern,
/// what the attempt is to its callers, and whether one is made at all.
pub struct Breaker {
    pattern: Pattern,
    scan: Scan,
    /// The pattern is a group of one or more bytes of a set: a break is counted, and no attempt is
    /// made.
    counts: bool,
}

/// It is written out, so that each place where one is let go is a call of it, which is proved once.
impl Drop for Breaker {
    fn drop(self) {
        let Breaker {
            pattern: _,
            scan: _,
            counts: _,
        } = self;
    }
}

impl Model for Breaker {
    ghost use Rattle.std.specs.Prelude.{◌≡◌, ◌<◌, true};
    ghost use Rattle.ix_lines.specs.ByteRuns.{IsByteRun};
    ghost use Rattle.ix_pattern.specs.Piece.{IsSound, least_length};
    ghost use Rattle.ix_pattern.specs.Rows.{tree};
    ghost use Rattle.ix_match.specs.Starts.{AreStarts};
    ghost use Rattle.ix_lines.specs.Begun.{Breaking};

    ghost Value = { Breaking };

    ghost view = { λ b. record { pattern = b.pattern; scan = b.scan; counts = b.counts } };

    ghost invariant = { λ b. IsSound (tree b.pattern.rows) × (0 < least_length (tree b.pattern.rows))
        × AreStarts b.pattern b.scan.starts × (b.scan.pattern ≡ b.pattern) × (b.counts ≡ true → IsByteRun b.pattern) };
}

impl Breaker {
    /// A pattern whose matches take at least one byte.
    pub fn new(alloc: Global, pattern: Pattern) -> Result<Breaker, NoMemory>
        requires { 0 < least_length (tree pattern.rows) }
        ensures is { IfOk result (λ breaker. breaker.pattern ≡ pattern) }
        ensures goes_on { IfOk result (λ breaker. (before : Option ℕ) (bytes : List ℕ) → GoesOn breaker.scan before bytes) }
        ensures stable { IfOk result (λ breaker. IsStable (breaks_by breaker.pattern)) }
    {
        let _ = pattern.root();
        let scan = Scan::new(alloc, &pattern)?;
        let counts = is_byte_run(&pattern);
        Ok(Breaker {
            pattern,
            scan,
            counts,
        })
    }

    /// Begins anew where this place is not the first one.
    fn stand(&mut self, place: usize)
        ensures first { place ≡ 0 → self.new ≡ self.old }
        ensures other { 0 < place → self.new.scan ≡ emptied self.old.scan }
        ensures pattern { self.new.pattern ≡ self.old.pattern }
    {
        if place == 0 {
            return;
        }
        self.scan.reset();
    }

    /// The attempt at the first of these bytes. It goes on where they go on from those of the last
    /// look.
    fn look<L: Ledger>(
        &mut self,
        before: Option<u8>,
        bytes: &[u8],
        unfinished: bool,
        steps: &mut Steps<L>,
    ) -> Result<BreakLook, NoMemory>
        requires { GoesOn self.old.scan before bytes.now }
        ensures is { IfOk result (λ l. look_of l ≡ breaks_by self.old.pattern before bytes.now unfinished) }
        ensures sized { IfOk result (λ l. IsSized l (length bytes.now)) }
        ensures pattern { self.new.pattern ≡ self.old.pattern }
        ensures goes_on { OnOk result (GoesOn self.new.scan before bytes.now) }
        ensures begun { OnOk result (0 < length bytes.now → IsBegun self.new) }
        ensures counted { OnOk result (steps.new ≤ steps.old + self.old.pattern.weight * 512) }
        ensures again { IsBegun self.old → steps.new ≡ steps.old }
        ensures later { steps.old ≤ steps.new }
    {
        if self.counts {
            return Ok(run_at(&self.scan, bytes, unfinished));
        }
        match self
            .scan
            .advance(&self.pattern, before, bytes, !unfinished, steps)?
        {
            Look::Found(found) => {
                let (from, to) = break_of(found.groups.as_slice());
                let end = found.end;
                Ok(BreakLook::Match { from, to, end })
            }
            Look::No => Ok(BreakLook::No),
            Look::More => Ok(BreakLook::More),
        }
    }

    /// The first break from the first of these bytes on, which go on from those of the last look.
    /// The bytes with which no match begins are passed over at once.
    pub fn seek<L: Ledger>(
        &mut self,
        before: Option<u8>,
        bytes: &[u8],
        unfinished: bool,
        steps: &mut Steps<L>,
    ) -> Result<Found, NoMemory>
        requires { GoesOn self.old.scan before bytes.now }
        ensures is { IfOk result (λ found. found ≡ seek (breaks_by self.old.pattern) unfinished before bytes.now) }
        ensures within { IfOk result (λ found. IsWithin found (length bytes.now) reach) }
        ensures pattern { self.new.pattern ≡ self.old.pattern }
        ensures goes_on { IfOk result (λ found. GoesOn self.new.scan (last_byte before (take (end_of found) bytes.now))
            (drop (end_of found) bytes.now)) }
        ensures begun { IfOk result (λ found. StopsBegun found (length bytes.now) self.new) }
        ensures counted { IfOk result (λ found. steps.new ≤ steps.old + self.old.pattern.weight * 512 * most_looks found) }
        ensures again { IfOk result (λ found. IsBegun self.old →
            steps.new ≤ steps.old + self.old.pattern.weight * 512 * (most_looks found - 1)) }
        ensures later { steps.old ≤ steps.new }
    {
        let mut at: usize = 0;
        while at < bytes.len() {
            let place = at + self.scan.passed_over(&bytes[at..]);
            self.stand(place);
            if place == bytes.len() {
                return Ok(Found::Stop(place));
            }
            match self.look(
                last_byte(before, &bytes[..place]),
                &bytes[place..],
                unfinished,
                steps,
            )? {
                BreakLook::No => at = place + 1,
                BreakLook::More => return Ok(Found::Stop(place)),
                BreakLook::Match { from, to, end } => {
                    self.stand(place + end);
                    return Ok(Found::Break {
                        from: place + from,
                        to: place + to,
                        end: place + end,
                    });
                }
            }
        }
        self.stand(at);
        Ok(Found::Stop(at))
    }

    /// Brings the attempt up to the end of these bytes. The tests are counted in the ledger that
    /// the blank one opens, which nobody reads.
    pub fn bring_up<L: Ledger>(
        &mut self,
        before: Option<u8>,
        bytes: &[u8],
        blank: Blank,
    ) -> Result<(), NoMemory>
        requires name { blank.name ≡ L.name }
        requires parts { blank.parts ≡ L.parts }
        requires some { 0 < blank.parts }
        requires goes_on { GoesOn self.old.scan before bytes.now }
        ensures pattern { self.new.pattern ≡ self.old.pattern }
        ensures goes_on { OnOk result (GoesOn self.new.scan before bytes.now) }
        ensures begun { OnOk result (0 < length bytes.now → IsBegun self.new) }
    {
        if bytes.is_empty() {
            return Ok(());
        }
        let mut steps = Steps::<L>::new(blank);
        let _ = self.look(before, bytes, true, &mut steps)?;
        Ok(())
    }

    /// A copy of it.
    pub fn copy(&self) -> Result<Breaker, NoMemory>
        ensures { IfOk result (λ copy. copy ≡ self.now) }
    {
        Ok(Breaker {
            pattern: self.pattern.copy()?,
            scan: self.scan.copy()?,
            counts: self.counts,
        })
    }
}
