//! The walk over bytes that have come: each break that they settle ends a line.

ghost use Rattle.std.specs.Prelude.{◌≡◌, ℕ, ◌+◌, ◌-◌, ◌*◌, ◌<◌, ◌≤◌, List, length, take, drop, OnErr, IfOk};
ghost use Rattle.std.specs.List.{All, flat_map};
ghost use Rattle.ix_base.specs.Stream.{Dated};
ghost use Rattle.ix_lines.specs.Walk.{walk};
ghost use Rattle.ix_lines.specs.Lines.{line_of, IsShort};
ghost use Rattle.ix_match.specs.Attempt.{reach};
ghost use Rattle.ix_match.specs.Scans.{GoesOn};
ghost use Rattle.ix_lines.specs.Begun.{IsBegun};
ghost use Rattle.ix_lines.specs.Breaks.{breaks_by};
ghost use Rattle.ix_lines.specs.Laws.{IsStable};
ghost use Rattle.ix_lines.specs.Kept.{Keeps, AddsSome};
ghost use Rattle.ix_lines.specs.Pending.{IsPaired, dated_in};
ghost use Rattle.ix_lines.specs.Seek.{last_byte};
ghost use Rattle.ix_lines.specs.Settle.{Settles};

use crate::breaks::{Breaker, Found, last_byte};
use crate::kept::Kept;
use crate::moments::Cursor;
use crate::pending::Pending;
use ix_base::{LineList, NoMemory, Steps};
use std::alloc::Global;
use std::sync::ledger::Ledger;

/// What cuts a stream into lines.
pub struct Cutter {
    pub alloc: Global,
    pub breaker: Breaker,
    /// The most bytes of a line.
    pub truncate: usize,
    /// The line that is open.
    pub kept: Kept,
}

/// It is written out, so that each place where one is let go is a call of it, which is proved once.
impl Drop for Cutter {
    fn drop(self) {
        let Cutter {
            alloc: _,
            breaker: _,
            truncate: _,
            kept: _,
        } = self;
    }
}

impl Cutter {
    /// Walks the bytes as far as they settle breaks, and adds the lines that these end; how many
    /// bytes it came past.
    pub fn settle<L: Ledger>(
        &mut self,
        pending: &Pending,
        unfinished: bool,
        out: &mut LineList,
        steps: &mut Steps<L>,
    ) -> Result<usize, NoMemory>
        requires stable { IsStable (breaks_by self.old.breaker.pattern) }
        requires paired { IsPaired pending.now }
        requires bound { self.old.truncate ≤ 1048576 }
        requires goes_on { GoesOn self.old.breaker.scan pending.now.before pending.now.bytes }
        ensures walk { IfOk result (λ stop. (stretch : List Dated) → Keeps self.old.truncate stretch self.old.kept →
            Settles self.old.truncate (walk (breaks_by self.old.breaker.pattern) unfinished pending.now.before stretch 0
            (dated_in pending.now))
            (last_byte pending.now.before (take stop pending.now.bytes)) self.new.kept (drop stop (dated_in pending.now)) out.old out.new) }
        ensures within { IfOk result (λ stop. stop ≤ length pending.now.bytes) }
        ensures short { IfOk result (λ stop. length pending.now.bytes < stop + reach) }
        ensures breaker { self.new.breaker.pattern ≡ self.old.breaker.pattern }
        ensures goes_on { IfOk result (λ stop. GoesOn self.new.breaker.scan (last_byte pending.now.before (take stop pending.now.bytes))
            (drop stop pending.now.bytes)) }
        ensures begun { IfOk result (λ stop. stop < length pending.now.bytes → IsBegun self.new.breaker) }
        ensures counted { IfOk result (λ stop. steps.new ≤ steps.old + self.old.breaker.pattern.weight * 512 * (stop + 1)) }
        ensures again { IfOk result (λ stop. IsBegun self.old.breaker →
            steps.new ≤ steps.old + self.old.breaker.pattern.weight * 512 * stop) }
        ensures truncate { self.new.truncate ≡ self.old.truncate }
        ensures later { steps.old ≤ steps.new }
        ensures err { OnErr result ((stretch : List Dated) → Keeps self.old.truncate stretch self.old.kept →
            AddsSome (flat_map (line_of self.old.truncate)
            (walk (breaks_by self.old.breaker.pattern) unfinished pending.now.before stretch 0 (dated_in pending.now)).done) out.old
            out.new) }
        ensures lines { All IsShort out.old → All IsShort out.new }
    {
        let truncate = self.truncate;
        let bytes = pending.bytes.as_slice();
        let runs = pending.runs.as_slice();
        let mut cursor = Cursor::new();
        let mut start: usize = 0;
        let mut at: usize = 0;
        loop {
            let before = last_byte(pending.before, &bytes[..at]);
            let found = self.breaker.seek(before, &bytes[at..], unfinished, steps)?;
            let moment = cursor.moment_at(runs, start);
            match found {
                Found::Stop(n) => {
                    self.kept.add(truncate, &bytes[start..at + n], moment)?;
                    return Ok(at + n);
                }
                Found::Break { from, to, end } => {
                    let part = &bytes[start..at + from];
                    self.kept.end_line(self.alloc, truncate, part, moment, out)?;
                    start = at + to;
                    at += end;
                }
            }
        }
    }
}
