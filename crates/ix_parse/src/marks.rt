//! What a line is found to match. A channel asks it of each line before it hands the line on to be
//! merged.

ghost use Rattle.std.specs.Prelude.{◌≡◌, IfOk};
ghost use Rattle.ix_parse.specs.Marks as Marking;

use ix_base::{Line, NoMemory};
use ix_match::Regex;
use ix_merge::Marks;
use ix_pattern::Pattern;
use ix_props::MergeSettings;
use ix_time::{TimeReader, finder_of};
use std::alloc::Global;
use std::marker::Model;

/// Tells what lines match, by the settings of merging. Each pattern that is set is written out once
/// for all lines, and none where lines are not merged. Contracts see the settings.
pub struct LineMarker<'a> {
    merge: &'a MergeSettings,
    before: Option<Regex>,
    break_after: Option<Regex>,
    hold_after: Option<Regex>,
    veto: Option<Regex>,
}

/// It is written out, so that each place where one is let go is a call of it, which is proved once.
impl Drop for LineMarker<'_> {
    fn drop(self) {
        let LineMarker {
            merge: _,
            before: _,
            break_after: _,
            hold_after: _,
            veto: _,
        } = self;
    }
}

impl<'a> Model for LineMarker<'a> {
    ghost use Rattle.ix_props.specs.declared.settings.MergeSettings.{MergeSettings};

    ghost Value = { MergeSettings };

    ghost use Rattle.ix_parse.specs.Finders.{AreFindersOf};

    ghost view = { λ m. m.merge.now };

    ghost invariant = { λ m. AreFindersOf m.merge.now m };
}

/// Whether a pattern that is set matches somewhere in a text.
fn is_in(alloc: Global, pattern: &Option<Regex>, text: &[u8]) -> Result<bool, NoMemory>
    ensures { IfOk result (λ found. found ≡ Marking.is_in pattern.now text.now) }
{
    let Some(finder) = pattern else {
        return Ok(false);
    };
    let found = finder.find(alloc, text, 0)?;
    ix_time::first_match_ends();
    Ok(found.is_some())
}

/// Finders for two patterns, each where one is set.
fn finders_of(
    alloc: Global,
    one: &Option<Pattern>,
    other: &Option<Pattern>,
) -> Result<(Option<Regex>, Option<Regex>), NoMemory>
    ensures { IfOk result (λ found. (found.0 ≡ one.now) × (found.1 ≡ other.now)) }
{
    let one = finder_of(alloc, one)?;
    let other = finder_of(alloc, other)?;
    Ok((one, other))
}

impl<'a> LineMarker<'a> {
    /// For lines that are merged by these settings.
    pub fn new(alloc: Global, merge: &'a MergeSettings) -> Result<LineMarker<'a>, NoMemory>
        ensures { IfOk result (λ marker. marker ≡ merge.entry.now) }
    {
        if !merge.on {
            return Ok(LineMarker {
                merge,
                before: None,
                break_after: None,
                hold_after: None,
                veto: None,
            });
        }
        let (before, veto) = finders_of(alloc, &merge.before, &merge.veto)?;
        let (break_after, hold_after) = finders_of(alloc, &merge.break_after, &merge.hold_after)?;
        Ok(LineMarker {
            merge,
            before,
            break_after,
            hold_after,
            veto,
        })
    }

    /// Whether the line is wanted as the first one of an event: it matches, or a date reads in it.
    fn is_wanted(
        &self,
        alloc: Global,
        times: &TimeReader<'_>,
        line: &Line,
    ) -> Result<bool, NoMemory>
        ensures { IfOk result (λ wanted. wanted ≡ (Marking.marks_of self.now times.now line.now).wanted) }
    {
        if !self.merge.on {
            return Ok(false);
        }
        if is_in(alloc, &self.before, line.bytes.as_slice())? {
            return Ok(true);
        }
        if !self.merge.before_date {
            return Ok(false);
        }
        times.has_date(alloc, line.bytes.as_slice(), line.moment)
    }

    /// What the line matches, by these settings. Where lines are not merged nothing is looked for.
    pub fn marks_of(
        &self,
        alloc: Global,
        times: &TimeReader<'_>,
        line: &Line,
    ) -> Result<Marks, NoMemory>
        ensures { IfOk result (λ marks. marks ≡ Marking.marks_of self.now times.now line.now) }
    {
        if !self.merge.on {
            return Ok(Marks {
                wanted: false,
                vetoed: false,
                forces: false,
                holds: false,
            });
        }
        let bytes = line.bytes.as_slice();
        Ok(Marks {
            wanted: self.is_wanted(alloc, times, line)?,
            vetoed: is_in(alloc, &self.veto, bytes)?,
            forces: is_in(alloc, &self.break_after, bytes)?,
            holds: is_in(alloc, &self.hold_after, bytes)?,
        })
    }
}
