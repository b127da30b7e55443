//! Lines as they come, and the events that they end.

ghost use Rattle.std.specs.Prelude.{◌≡◌, ◌≤◌, List, [], ◌∷◌, ◌++◌, length, IsTrue, IsFalse, IsErr, IfOk, OnOk, OnErr, None};
ghost use Rattle.std.specs.Option.{ForSome};
ghost use Rattle.ix_merge.specs.Starts.{MarkedLine};
ghost use Rattle.ix_merge.specs.Sizes.{IsSized, HasForm};
ghost use Rattle.ix_merge.specs.Carry.{carry_of};
ghost use Rattle.ix_merge.specs.Stands.{Holds, Adds, Ends};

use crate::carry::MergeParts;
use crate::events::{Marks, Whole};
use ix_base::{Line, NoMemory};
use std::alloc::Global;
use std::marker::Model;

/// The events of lines that come one by one, each with its marks. Whatever was taken in and carried
/// over a stop, the events are those of the whole list of lines.
///
/// The first line starts an event, and so does a line behind one that forces a break, or one that
/// is wanted, not vetoed and not held. A line is held where, of the lines before it that force a
/// break or hold one back, the last does not force one. A line that starts no event joins that of
/// the line before, unless the event would then have more lines than it may have, or more than
/// 4,194,304 bytes: then it starts one all the same.
///
/// Of the lines so far, the event that is open is kept, and two marks.
pub struct Merge {
    alloc: Global,
    on: bool,
    max_lines: u32,
    parts: MergeParts,
    broken: bool,
}

impl Drop for Merge {
    fn drop(self) {
        let Merge {
            alloc: _,
            on: _,
            max_lines: _,
            parts: _,
            broken: _,
        } = self;
    }
}

impl Model for Merge {
    ghost use Rattle.std.specs.Prelude.{◌≤◌};
    ghost use Rattle.std.specs.Bool.{OnFalse};
    ghost use Rattle.ix_merge.specs.Sizes.{HasForm};
    ghost use Rattle.ix_merge.specs.Stands.{Merging};

    ghost Value = { Merging };

    ghost view = { λ m. record { on = m.on; max_lines = m.max_lines; parts = m.parts; broken = m.broken } };

    ghost invariant = { λ m. (1 ≤ m.max_lines) × OnFalse m.broken (HasForm m.on m.max_lines m.parts) };
}

impl Merge {
    /// The events of lines of which none has come yet. Where `on` is false each line is an event by
    /// itself. An event has at most `max_lines` lines. It takes no memory.
    pub fn new(alloc: Global, on: bool, max_lines: u32) -> Merge
        requires { 1 ≤ max_lines }
        ensures on { result.on ≡ on }
        ensures max_lines { result.max_lines ≡ max_lines }
        ensures stands { Holds [] result }
    {
        Merge {
            alloc,
            on,
            max_lines,
            parts: MergeParts::none(),
            broken: false,
        }
    }

    /// Takes in the next line, of at most 1,048,576 bytes, and answers the event that it ends, if
    /// any: the one before it, or where lines are not merged the line itself. Where there is no
    /// room in memory the value is broken: it answers `NoMemory` from then on.
    pub fn add(&mut self, line: Line, marks: Marks) -> Result<Option<Whole>, NoMemory>
        requires { length line.bytes ≤ 1048576 }
        ensures ok { IfOk result (λ ended. (lines : List MarkedLine) → Holds lines self.old →
            Adds lines (record { line = line; marks = marks }) self.old self.new ended) }
        ensures sized { IfOk result (λ ended. ForSome ended (λ event. IsSized self.old.max_lines event)) }
        ensures whole { OnOk result (IsFalse self.new.broken) }
        ensures err { OnErr result (IsTrue self.new.broken) }
        ensures broken { IsTrue self.old.broken → IsErr result }
        ensures on { self.new.on ≡ self.old.on }
        ensures max_lines { self.new.max_lines ≡ self.old.max_lines }
    {
        if self.broken {
            return Err(NoMemory);
        }
        if !self.on {
            return Ok(Some(Whole::of_line(line)));
        }
        self.broken = true;
        let ended = self.parts.take_in(self.max_lines, line, marks)?;
        self.broken = false;
        Ok(ended)
    }

    /// Ends the lines, and answers the event that is open, if any. No `add` has answered
    /// `NoMemory`. It takes no memory.
    pub fn close(self) -> Option<Whole>
        requires { IsFalse self.broken }
        ensures ends { (lines : List MarkedLine) → Holds lines self → Ends lines self result }
        ensures sized { ForSome result (λ event. IsSized self.max_lines event) }
    {
        let Merge {
            alloc: _,
            on: _,
            max_lines: _,
            parts: left,
            broken: _,
        } = self;
        left.event
    }

    /// What is to be carried over a stop: the open event and the two marks. No `add` has answered
    /// `NoMemory`.
    pub fn parts(&self) -> Result<MergeParts, NoMemory>
        requires { IsFalse self.now.broken }
        ensures carry { IfOk result (λ parts. (lines : List MarkedLine) → Holds lines self.now →
            parts ≡ carry_of self.now.on self.now.max_lines lines) }
        ensures form { IfOk result (λ parts. HasForm self.now.on self.now.max_lines parts) }
    {
        self.parts.copy(self.alloc)
    }

    /// The events of each list of lines of which these are the parts, by the same settings. The
    /// parts have no event and no mark where `on` is false, and else an event of 1 to `max_lines`
    /// lines and at most 4,194,304 bytes, or none. It takes no memory.
    pub fn resume(alloc: Global, on: bool, max_lines: u32, parts: MergeParts) -> Merge
        requires some { 1 ≤ max_lines }
        requires form { HasForm on max_lines parts }
        ensures on { result.on ≡ on }
        ensures max_lines { result.max_lines ≡ max_lines }
        ensures whole { IsFalse result.broken }
        ensures stands { (lines : List MarkedLine) → parts ≡ carry_of on max_lines lines → Holds lines result }
    {
        Merge {
            alloc,
            on,
            max_lines,
            parts,
            broken: false,
        }
    }

    /// A copy, which stands for the same lines.
    pub fn copy(&self) -> Result<Merge, NoMemory>
        ensures { IfOk result (λ copy. copy ≡ self.now) }
    {
        Ok(Merge {
            alloc: self.alloc,
            on: self.on,
            max_lines: self.max_lines,
            parts: self.parts.copy(self.alloc)?,
            broken: self.broken,
        })
    }
}
