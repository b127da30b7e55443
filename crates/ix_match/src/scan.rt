//! One attempt at a place of a stream, of which more bytes may come.

ghost use Rattle.std.specs.Prelude.{◌≡◌, ℕ, ◌≤◌, ◌+◌, ◌-◌, ◌*◌, List, [], Option, None, true, not, length, take, take_while, replicate};
ghost use Rattle.std.specs.Prelude.{slice_get, IfSome, IfOk, OnOk, OnErr};
ghost use Rattle.ix_pattern.specs.Piece.{in_set};
ghost use Rattle.ix_pattern.specs.Rows.{Rows, tree, byte_pieces};
ghost use Rattle.ix_pattern.specs.Ways.{sight, ways};
ghost use Rattle.ix_match.specs.Attempt.{reach, attempt};
ghost use Rattle.ix_pikevm.specs.Leaf.{text_of, at};
ghost use Rattle.ix_pikevm.specs.Finders.{HasRoom};
ghost use Rattle.ix_pikevm.specs.Outcomes.{head_of as outcome_head};
ghost use Rattle.ix_match.specs.Starts.{AreStarts};
ghost use Rattle.ix_match.specs.Scans.{GoesOn, emptied, head_of, BeginsAtOnce, LiesInReach};
ghost use Rattle.ix_match.specs.Searches.{IsKept, KeepsFor};

use crate::few;
use crate::few::{Few, few_of};
use crate::first::{Found, GroupList};
use crate::scan_given::ScanGiven;
use crate::scan_state::ScanState;
use crate::starts::starts_of;
use ix_base::{NoMemory, Steps};
use ix_pattern::Pattern;
use ix_pikevm::input::Input;
use ix_pikevm::run::Outcome;
use std::alloc::Global;
use std::marker::Model;
use std::sync::ledger::Ledger;

/// How many bytes an attempt sees, from the place at which it begins.
pub const REACH: usize = 16384;

/// What an attempt comes to.
#[derive(Drop)]
pub enum Look {
    /// A match: the preferred one of those that begin here. Its places count from here.
    Found(Found),
    /// No match begins here.
    No,
    /// It depends on bytes that have not come.
    More,
}

/// One attempt at the first place of a text of which more bytes may come. Contracts see the pattern
/// that it was made for, for each byte whether a match may begin with it, and since it was made or
/// reset the byte before its text and the bytes that were given.
#[derive(Drop)]
pub struct Scan {
    alloc: Global,
    starts: [bool; 256],
    few: Few,
    before: Option<u8>,
    told: ScanGiven,
    /// The search for the pattern, once an attempt was made, and the attempt itself.
    kept: Option<ScanState>,
}

impl Model for Scan {
    ghost use Rattle.std.specs.Prelude.{◌≡◌, [], None, take, IfSome};
    ghost use Rattle.ix_match.specs.Few.{Lists};
    ghost use Rattle.ix_match.specs.Scans.{Scanned};
    ghost use Rattle.ix_match.specs.Searches.{KeepsFor};
    ghost use Rattle.ix_match.specs.Attempt.{reach};

    ghost Value = { Scanned };

    ghost view = { λ s. record { pattern = s.told.pattern; starts = s.starts; before = s.before; given = s.told.bytes } };

    ghost invariant = { λ s. Lists s.few s.starts × IfSome s.kept (λ k. KeepsFor s.told.pattern.rows k s.before (take reach s.told.bytes))
        × (s.kept ≡ None → s.told.bytes ≡ []) };
}

/// What an attempt sees of the bytes that have come.
#[tactic(auto, unfolding(crate::specs::Attempt::reach))]
fn seen(before: Option<u8>, bytes: &[u8], closed: bool) -> Input<'_>
    ensures text { text_of result ≡ sight reach (record { before = before; bytes = bytes.now; unfinished = not closed }) }
    ensures before { result.before ≡ before }
    ensures bytes { result.bytes.now ≡ take reach bytes.now }
{
    if bytes.len() >= REACH {
        Input {
            before,
            bytes: &bytes[..REACH],
            unfinished: false,
        }
    } else {
        Input {
            before,
            bytes,
            unfinished: !closed,
        }
    }
}

/// Whether these are the same byte, or neither is one.
fn is_same(a: Option<u8>, b: Option<u8>) -> bool
    ensures { result ≡ true → a ≡ b }
{
    match a {
        None => b.is_none(),
        Some(first) => match b {
            None => false,
            Some(other) => first == other,
        },
    }
}

/// Goes on with the attempt that is kept, or begins one. Where nothing is kept yet the search is
/// made first.
fn go_on_with<L: Ledger>(
    alloc: Global,
    p: &Pattern,
    kept: &mut Option<ScanState>,
    goes_on: bool,
    input: Input<'_>,
    steps: &mut Steps<L>,
) -> Result<Outcome, NoMemory>
    requires kept { IfSome kept.old (λ k. IsKept p.now.rows k.search) }
    requires goes_on { goes_on ≡ true → IfSome kept.old (λ k. KeepsFor p.now.rows k input.before input.bytes.now) }
    ensures head { IfOk result (λ o. slice_get (ways (tree p.now.rows) (text_of input.entry) (at 0 (replicate p.now.groups None)))
        0 ≡ outcome_head o) }
    ensures kept { OnOk result (IfSome kept.new (λ k. KeepsFor p.now.rows k input.entry.before input.entry.bytes.now)) }
    ensures some { OnOk result (kept.new ≡ None → ⊥) }
    ensures counted { OnOk result (steps.new ≤ steps.old + 256 * byte_pieces p.now.rows) }
    ensures same { (kept.old ≡ None → ⊥) → steps.new ≡ steps.old }
    ensures later { steps.old ≤ steps.new }
{
    match kept {
        Some(kept) => {
            kept.stand(goes_on);
            let outcome = kept.go_on(p, input, steps)?;
            Ok(outcome)
        }
        None => {
            let mut made = ScanState::tabled(alloc, p, steps)?;
            let outcome = made.go_on(p, input, steps)?;
            *kept = Some(made);
            Ok(outcome)
        }
    }
}

/// Of what is kept the attempt no longer counts.
fn forget(kept: &mut Option<ScanState>)
    ensures { (rows : Rows) (before : Option ℕ) (bytes : List ℕ) → IfSome kept.old (λ old. IsKept rows old.search) →
        IfSome kept.new (λ k. KeepsFor rows k before bytes) }
{
    if let Some(kept) = kept {
        kept.stand(false);
    }
}

/// A copy of what was kept.
fn copied(kept: &Option<ScanState>) -> Result<Option<ScanState>, NoMemory>
    requires { IfSome kept.now (λ k. HasRoom k.search.finder k.search.room) }
    ensures kept { IfOk result (λ k. (rows : Rows) (before : Option ℕ) (bytes : List ℕ) →
        IfSome kept.now (λ old. KeepsFor rows old before bytes) → IfSome k (λ new. KeepsFor rows new before bytes)) }
    ensures none { IfOk result (λ k. k ≡ None → kept.now ≡ None) }
{
    match kept {
        Some(kept) => {
            let copy = kept.copy()?;
            Ok(Some(copy))
        }
        None => Ok(None),
    }
}

impl Scan {
    /// An attempt that was given no byte yet.
    pub fn new(alloc: Global, p: &Pattern) -> Result<Scan, NoMemory>
        ensures pattern { IfOk result (λ scan. scan.pattern ≡ p.now) }
        ensures given { IfOk result (λ scan. scan ≡ emptied scan) }
        ensures starts { IfOk result (λ scan. AreStarts p.now scan.starts) }
    {
        let starts = starts_of(alloc, p)?;
        Ok(Scan {
            alloc,
            few: few_of(&starts),
            starts,
            before: None,
            told: ScanGiven::of(p, &[]),
            kept: None,
        })
    }

    /// The attempt at the first of these bytes, by the pattern that the scan was made for. `before`
    /// is the byte before them; there is none at the start of the stream. The bytes go on from
    /// those of the last call since `new` or `reset`, behind the same byte. An attempt sees the
    /// first 16,384 of them; where there are so many, or the stream is `closed`, its text ends
    /// there. Each test of a byte counts as a step; there are at most as many as the pattern's
    /// weight times 512 and the bytes that no call since `new` or `reset` was given. Where a byte
    /// was given before, there are none: the threads go on from the last place of which all is
    /// decided, and each test is made once.
    ///
    /// It is `Found` with the preferred one of the matches that begin here, `No` exactly where none
    /// does, and `More` exactly where that depends on bytes that have not come. After `NoMemory`
    /// the scan is as after `reset`.
    pub fn advance<L: Ledger>(
        &mut self,
        p: &Pattern,
        before: Option<u8>,
        text: &[u8],
        closed: bool,
        steps: &mut Steps<L>,
    ) -> Result<Look, NoMemory>
        requires pattern { p.now ≡ self.old.pattern }
        requires goes_on { GoesOn self.old before text.now }
        ensures head { IfOk result (λ look. slice_get (attempt p.now
            (record { before = before; bytes = text.now; unfinished = not closed })) 0 ≡ head_of look) }
        ensures begins { IfOk result BeginsAtOnce }
        ensures lies { IfOk result (LiesInReach text.now p.now.groups) }
        ensures given { OnOk result (self.new ≡ record self.old { before = before; given = text.now }) }
        ensures reset { OnErr result (self.new ≡ emptied self.old) }
        ensures counted { OnOk result (steps.new ≤ steps.old + p.now.weight * (length text.now - length self.old.given + 512)) }
        ensures few { OnOk result (steps.new ≤ steps.old + p.now.weight * 512) }
        ensures goes_on { (self.old.given ≡ [] → ⊥) → steps.new ≡ steps.old }
        ensures later { steps.old ≤ steps.new }
    {
        let _ = p.weight();
        let goes_on = is_same(self.before, before);
        let input = seen(before, text, closed);
        let came = go_on_with(self.alloc, p, &mut self.kept, goes_on, input, steps);
        let Ok(outcome) = came else {
            self.kept = None;
            self.before = None;
            self.told = self.told.emptied();
            return Err(NoMemory);
        };
        self.before = before;
        self.told = ScanGiven::of(p, text);
        Ok(look_of(outcome))
    }

    /// Begins anew, at another place or in another text. It takes no memory.
    pub fn reset(&mut self)
        ensures { self.new ≡ emptied self.old }
    {
        self.before = None;
        self.told = self.told.emptied();
        forget(&mut self.kept);
    }

    /// Whether a match may begin with the byte.
    pub fn may_begin(&self, byte: u8) -> bool
        ensures { result ≡ in_set self.now.starts byte }
    {
        few::contains(&self.starts, byte)
    }

    /// How many of these bytes stand before the first one with which a match may begin.
    pub fn passed_over(&self, bytes: &[u8]) -> usize
        ensures { result ≡ length (take_while (λ b. not (in_set self.now.starts b)) bytes.now) }
    {
        few::passed_over(&self.starts, self.few, bytes)
    }

    /// A copy of it, which goes on apart from it.
    pub fn copy(&self) -> Result<Scan, NoMemory>
        ensures { IfOk result (λ copy. copy ≡ self.now) }
    {
        Ok(Scan {
            alloc: self.alloc,
            starts: self.starts,
            few: self.few,
            before: self.before,
            told: self.told.again(),
            kept: copied(&self.kept)?,
        })
    }
}

/// The answer that an outcome at the first place stands for.
fn look_of(outcome: Outcome) -> Look
    ensures head { head_of result ≡ outcome_head outcome }
    ensures begins { BeginsAtOnce result }
{
    match outcome {
        Outcome::End { place, groups } => Look::Found(Found {
            start: 0,
            end: place,
            groups: GroupList::from_vec(groups),
        }),
        Outcome::No => Look::No,
        Outcome::More => Look::More,
    }
}
