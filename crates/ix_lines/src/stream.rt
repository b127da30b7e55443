//! A stream in blocks. Whoever reads a stream feeds its blocks to `Lines`.

ghost use Rattle.std.specs.Prelude.{◌≡◌, ◌+◌, ◌*◌, ◌<◌, ◌≤◌, List, [], ◌++◌, length, IsTrue, IfOk, OnOk, OnErr, IsErr};
ghost use Rattle.std.specs.List.{All};
ghost use Rattle.ix_base.specs.Clocks.{clamped};
ghost use Rattle.ix_base.specs.Stream.{Dated, dated};
ghost use Rattle.ix_lines.specs.Lines.{effective, IsShort};
ghost use Rattle.ix_match.specs.Attempt.{reach};
ghost use Rattle.ix_pattern.specs.Piece.{least_length};
ghost use Rattle.ix_pattern.specs.Rows.{tree};
ghost use Rattle.ix_lines.specs.Begun.{Attends};
ghost use Rattle.ix_lines.specs.Breaks.{breaks_by};
ghost use Rattle.ix_lines.specs.Laws.{IsStable};
ghost use Rattle.ix_lines.specs.Parts.{Holds, IsBreaker, Adds, AddsPart, Ends, EndsPart, moved};
ghost use Rattle.ix_lines.specs.Carry.{carry_of, dated_of};

use crate::breaks::Breaker;
use crate::carry::LineParts;
use crate::cutter::Cutter;
use crate::kept::Kept;
use crate::moments::Cursor;
use crate::pending::Pending;
use ix_base::{LineList, NoMemory, Steps, clamped};
use ix_pattern::Pattern;
use std::alloc::Global;
use std::marker::{Brand, Model};
use std::sync::ledger::{Blank, Ledger};

/// The lines of a stream that comes in blocks. Whatever the blocks, the lines are those of the
/// whole stream.
///
/// Lines stand between the breaks of a pattern. From the start of the stream on an attempt to match
/// it is made at each place. A match gives a break, whose bytes are dropped: what its first
/// capturing group took in, or of those that took part the one with the least number, or the empty
/// place before the match where none did. The search goes on behind the match. An attempt sees
/// 16,384 bytes.
///
/// At most 16,383 bytes wait for what comes behind them, with their moments; of the line that is
/// open the first bytes are kept, one more than a line may have.
pub struct Lines {
    cutter: Cutter,
    pending: Pending,
    broken: bool,
}

impl Drop for Lines {
    fn drop(self) {
        let Lines {
            cutter: _,
            pending: _,
            broken: _,
        } = self;
    }
}

impl Model for Lines {
    ghost use Rattle.ix_lines.specs.Parts.{Held};
    ghost use Rattle.ix_lines.specs.Breaks.{breaks_by};
    ghost use Rattle.ix_lines.specs.Laws.{IsStable};
    ghost use Rattle.ix_lines.specs.Begun.{Attends};
    ghost use Rattle.ix_lines.specs.Pending.{IsPaired, dated_in};
    ghost use Rattle.std.specs.Prelude.{◌≤◌};
    ghost use Rattle.std.specs.Bool.{OnFalse};

    ghost Value = { Held };

    ghost view = { λ l. record {
      breaker = l.cutter.breaker.pattern;
      parts = record {
        truncate = l.cutter.truncate;
        before = l.pending.before;
        pending = dated_in l.pending;
        kept = l.cutter.kept.bytes;
        moment = l.cutter.kept.moment;
        broken = l.broken;
      };
    } };

    ghost invariant = { λ l. IsStable (breaks_by l.cutter.breaker.pattern) × (l.cutter.truncate ≤ 1048576)
        × OnFalse l.broken (IsPaired l.pending)
        × OnFalse l.broken (Attends l.cutter.breaker l.pending.before l.pending.bytes) };
}

/// The length at which lines are cut, by the setting.
fn effective(truncate: u32) -> usize
    ensures is { result ≡ effective truncate }
    ensures bound { result ≤ 1048576 }
{
    if truncate == 0 || truncate > 1048576 {
        1048576
    } else {
        truncate as usize
    }
}

/// The breaker of this pattern, with the attempt that was given the bytes that wait.
fn brought_up(alloc: Global, pattern: Pattern, pending: &Pending) -> Result<Breaker, NoMemory>
    requires { 0 < least_length (tree pattern.rows) }
    ensures is { IfOk result (λ breaker. breaker.pattern ≡ pattern) }
    ensures stable { IfOk result (λ breaker. IsStable (breaks_by breaker.pattern)) }
    ensures attends { IfOk result (λ breaker. Attends breaker pending.now.before pending.now.bytes) }
{
    let mut breaker = Breaker::new(alloc, pattern)?;
    let waiting = pending.bytes.as_slice();
    breaker.bring_up::<Brand>(pending.before, waiting, Blank::new(1))?;
    Ok(breaker)
}

impl Lines {
    /// The lines of a stream that has no byte yet. The breaker has a capturing group, and a match
    /// of it takes at least one byte. A line of more than `truncate` bytes is cut to that length,
    /// or to up to three bytes fewer, so that no character of UTF-8 is cut; 0 and all above
    /// 1,048,576 count as 1,048,576.
    pub fn new(alloc: Global, breaker: Pattern, truncate: u32) -> Result<Lines, NoMemory>
        requires { IsBreaker breaker }
        ensures breaker { IfOk result (λ lines. lines.breaker ≡ breaker) }
        ensures truncate { IfOk result (λ lines. lines.parts.truncate ≡ effective truncate) }
        ensures stands { IfOk result (λ lines. Holds [] lines) }
    {
        let cutter = Cutter {
            alloc,
            breaker: Breaker::new(alloc, breaker)?,
            truncate: effective(truncate),
            kept: Kept::new(alloc),
        };
        Ok(Lines {
            cutter,
            pending: Pending::new(alloc, None),
            broken: false,
        })
    }

    /// Takes in the next bytes, which came at this moment, in microseconds since
    /// 1970-01-01T00:00:00Z, and adds the lines that they settle. A moment before 1970 counts as 0,
    /// and one after the beginning of 2100 as that. Each test of a byte by an attempt at the
    /// breaker counts as a step: there are at most 512 times the breaker's weight for each byte by
    /// which the place moved on at which a break is still sought, and as many again where no byte
    /// waited there. Where one did, the attempt goes on, and makes no test twice. Where there is no
    /// room in memory the first ones of these lines may have been added, and the value is broken:
    /// it answers `NoMemory` from then on and adds nothing.
    pub fn feed<L: Ledger>(
        &mut self,
        bytes: &[u8],
        moment: i64,
        out: &mut LineList,
        steps: &mut Steps<L>,
    ) -> Result<(), NoMemory>
        ensures ok { OnOk result ((stream : List Dated) → Holds stream self.old →
            Holds (stream ++ dated bytes.now (clamped moment)) self.new
            × Adds (breaks_by self.old.breaker) self.old.parts.truncate stream (dated bytes.now (clamped moment)) out.old out.new) }
        ensures err { OnErr result (IsTrue self.new.parts.broken) }
        ensures added { OnErr result ((stream : List Dated) → Holds stream self.old →
            AddsPart (breaks_by self.old.breaker) self.old.parts.truncate stream (dated bytes.now (clamped moment)) out.old out.new) }
        ensures broken { IsTrue self.old.parts.broken → IsErr result × (out.new ≡ out.old) }
        ensures breaker { self.new.breaker ≡ self.old.breaker }
        ensures truncate { self.new.parts.truncate ≡ self.old.parts.truncate }
        ensures pending { OnOk result (length self.new.parts.pending < reach) }
        ensures short { All IsShort out.old → All IsShort out.new }
        ensures counted { OnOk result (steps.new ≤ steps.old + self.old.breaker.weight * 512 *
            (moved self.old (length bytes.now) self.new + 1)) }
        ensures again { OnOk result (0 < length self.old.parts.pending →
            steps.new ≤ steps.old + self.old.breaker.weight * 512 * moved self.old (length bytes.now) self.new) }
        ensures later { steps.old ≤ steps.new }
    {
        if self.broken {
            return Err(NoMemory);
        }
        self.broken = true;
        self.pending.add(bytes, clamped(moment))?;
        let stop = self.cutter.settle(&self.pending, true, out, steps)?;
        self.pending.drop_first(stop)?;
        self.broken = false;
        Ok(())
    }

    /// Ends the stream, and adds the lines that are left. Where there is no room in memory the
    /// first ones of these may have been added. A broken value answers `NoMemory` and adds nothing.
    pub fn close<L: Ledger>(self, out: &mut LineList, steps: &mut Steps<L>) -> Result<(), NoMemory>
        ensures ok { OnOk result ((stream : List Dated) → Holds stream self →
            Ends (breaks_by self.breaker) self.parts.truncate stream out.old out.new) }
        ensures added { OnErr result ((stream : List Dated) → Holds stream self →
            EndsPart (breaks_by self.breaker) self.parts.truncate stream out.old out.new) }
        ensures broken { IsTrue self.parts.broken → IsErr result × (out.new ≡ out.old) }
        ensures short { All IsShort out.old → All IsShort out.new }
        ensures later { steps.old ≤ steps.new }
    {
        if self.broken {
            return Err(NoMemory);
        }
        let Lines {
            mut cutter,
            pending,
            broken: _,
        } = self;
        let truncate = cutter.truncate;
        let stop = cutter.settle(&pending, false, out, steps)?;
        let bytes = pending.bytes.as_slice();
        let runs = pending.runs.as_slice();
        let moment = Cursor::new().moment_at(runs, stop);
        cutter
            .kept
            .end_line(cutter.alloc, truncate, &bytes[stop..], moment, out)
    }

    /// What is to be carried over a stop: the byte before the scan place, the bytes that wait
    /// there, and the open line. A broken value answers `NoMemory`.
    pub fn parts(&self) -> Result<LineParts, NoMemory>
        ensures carry { IfOk result (λ parts. (stream : List Dated) → Holds stream self.now →
            parts ≡ carry_of (breaks_by self.now.breaker) self.now.parts.truncate stream) }
        ensures pending { IfOk result (λ parts. (stream : List Dated) → Holds stream self.now → length (dated_of parts.pending) < reach) }
        ensures broken { IsTrue self.now.parts.broken → IsErr result }
    {
        if self.broken {
            return Err(NoMemory);
        }
        let before = self.pending.before;
        let pending = self.pending.carried(self.cutter.alloc)?;
        let line = self.cutter.kept.line()?;
        Ok(LineParts {
            before,
            pending,
            line,
        })
    }

    /// The lines of each stream of which these are the parts, by the same breaker and the same
    /// length. The conditions on the breaker are those of `new`.
    pub fn resume(
        alloc: Global,
        breaker: Pattern,
        truncate: u32,
        parts: LineParts,
    ) -> Result<Lines, NoMemory>
        requires { IsBreaker breaker }
        ensures breaker { IfOk result (λ lines. lines.breaker ≡ breaker) }
        ensures truncate { IfOk result (λ lines. lines.parts.truncate ≡ effective truncate) }
        ensures stands { IfOk result (λ lines. (stream : List Dated) → parts ≡ carry_of (breaks_by breaker) (effective truncate) stream →
            Holds stream lines) }
    {
        let pending = Pending::resumed(alloc, parts.before, parts.pending.as_slice())?;
        let breaker = brought_up(alloc, breaker, &pending)?;
        let cutter = Cutter {
            alloc,
            breaker,
            truncate: effective(truncate),
            kept: Kept::of_line(alloc, parts.line),
        };
        Ok(Lines {
            cutter,
            pending,
            broken: false,
        })
    }

    /// A copy, which stands for the same streams.
    pub fn copy(&self) -> Result<Lines, NoMemory>
        ensures { IfOk result (λ copy. copy ≡ self.now) }
    {
        let cutter = Cutter {
            alloc: self.cutter.alloc,
            breaker: self.cutter.breaker.copy()?,
            truncate: self.cutter.truncate,
            kept: self.cutter.kept.copy()?,
        };
        Ok(Lines {
            cutter,
            pending: self.pending.copy()?,
            broken: self.broken,
        })
    }
}
