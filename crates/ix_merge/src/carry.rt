//! What is carried of the lines so far over a stop, and what a further line makes of it.

ghost use Rattle.std.specs.Prelude.{◌≡◌, ◌≤◌, true, List, length, OnOk, IfOk};
ghost use Rattle.std.specs.Option.{ForSome};
ghost use Rattle.ix_merge.specs.Starts.{MarkedLine};
ghost use Rattle.ix_merge.specs.Sizes.{nothing_open, IsSized};
ghost use Rattle.ix_merge.specs.Carry.{carry_of};
ghost use Rattle.ix_merge.specs.Place.{starts_by, passed, Takes};

use crate::events::{Marks, Whole, place};
use ix_base::{Line, NoMemory};
use std::alloc::Global;

/// What is to be carried of the lines so far, to go on with them later. Where lines are not merged
/// there is no event, and both marks are false.
#[derive(Drop)]
pub struct MergeParts {
    /// The event that is open: the last one, which the next line may join. There is none before the
    /// first line.
    pub event: Option<Whole>,
    /// The next line starts no event because it is wanted.
    pub held: bool,
    /// The last line forces a break: the next one starts an event.
    pub forced: bool,
}

impl MergeParts {
    /// Those before the first line.
    pub(crate) fn none() -> MergeParts
        ensures { result ≡ nothing_open }
    {
        MergeParts {
            event: None,
            held: false,
            forced: false,
        }
    }

    /// Whether a line with these marks starts an event because of them.
    pub(crate) fn starts(&self, marks: Marks) -> bool
        ensures { result ≡ starts_by self.now marks }
    {
        self.forced || (marks.wanted && !marks.vetoed && !self.held)
    }

    /// Sets the marks for what stands behind a line.
    pub(crate) fn pass(&mut self, marks: Marks)
        ensures { self.new ≡ passed self.old marks }
    {
        self.held = !marks.forces && (marks.holds || self.held);
        self.forced = marks.forces;
    }

    /// Takes in a line, where lines are merged, and answers the event that it ends.
    pub(crate) fn take_in(
        &mut self,
        max_lines: u32,
        line: Line,
        marks: Marks,
    ) -> Result<Option<Whole>, NoMemory>
        requires some { 1 ≤ max_lines }
        requires few { length line.bytes ≤ 1048576 }
        requires sized { ForSome self.old.event (λ event. IsSized max_lines event) }
        ensures takes { IfOk result (λ ended. (lines : List MarkedLine) → self.old ≡ carry_of true max_lines lines →
            Takes max_lines lines (record { line = line; marks = marks }) self.new ended) }
        ensures sized { OnOk result (ForSome self.new.event (λ event. IsSized max_lines event)) }
        ensures ended { IfOk result (λ ended. ForSome ended (λ event. IsSized max_lines event)) }
    {
        let begins = self.starts(marks);
        let ended = place(&mut self.event, begins, max_lines, line)?;
        self.pass(marks);
        Ok(ended)
    }

    /// A copy of them.
    pub(crate) fn copy(&self, alloc: Global) -> Result<MergeParts, NoMemory>
        ensures { IfOk result (λ copy. copy ≡ self.now) }
    {
        let event = match &self.event {
            Some(event) => Some(event.copy(alloc)?),
            None => None,
        };
        Ok(MergeParts {
            event,
            held: self.held,
            forced: self.forced,
        })
    }
}
