//! The first place of a whole text at which a pattern has a way. `ix_match` asks for it where
//! attempts at place after place have cost too much.

ghost use Rattle.std.specs.Prelude.{◌≡◌, ◌+◌, ◌≤◌, false, length, IfOk, OnOk};
ghost use Rattle.ix_pikevm.specs.Leaf.{text_of};
ghost use Rattle.ix_pikevm.specs.Finders.{IsFinder, HasRoom};
ghost use Rattle.ix_pikevm.specs.Places.{whole, IsBefore, IsPlace};

use crate::input::Input;
use crate::matcher::{Matcher, plan_of};
use crate::matcher_ref::Scratch;
use crate::seek::seek;
use ix_base::{NoMemory, Steps};
use ix_pattern::Pattern;
use std::sync::ledger::Ledger;

/// Whether the pattern has a way at a place from `from` on, but before `to`. If so, one of them
/// before the answer has.
fn way_before<L: Ledger>(
    p: &Pattern,
    finder: &Matcher,
    input: Input<'_>,
    from: usize,
    to: usize,
    room: &mut Scratch,
    steps: &mut Steps<L>,
) -> Result<Option<usize>, NoMemory>
    requires finder { IsFinder p.now.rows finder.now }
    requires room { HasRoom finder.now room.old }
    requires closed { input.unfinished ≡ false }
    requires from { from ≤ length input.bytes.now }
    requires to { to ≤ length input.bytes.now + 1 }
    ensures before { IfOk result (λ end. IsBefore p.now (text_of input.entry) from to end) }
    ensures room { OnOk result (HasRoom finder.now room.new) }
    ensures later { steps.old ≤ steps.new }
    ensures tabled { finder.now.width ≡ length p.now.rows → steps.new ≡ steps.old }
{
    let plan = plan_of(p, finder);
    let end = seek(plan, finder.program.start, input, from, to, room, steps)?;
    Ok(end)
}

/// The first place of a whole text from `from` on at which the pattern has a way, by halving what
/// is left: one walk over the text for each half. Tests that the finder's table does not have count
/// as steps.
pub fn first_place<L: Ledger>(
    p: &Pattern,
    finder: &Matcher,
    text: &[u8],
    from: usize,
    room: &mut Scratch,
    steps: &mut Steps<L>,
) -> Result<Option<usize>, NoMemory>
    requires finder { IsFinder p.now.rows finder.now }
    requires room { HasRoom finder.now room.old }
    requires from { from ≤ length text.now }
    ensures place { IfOk result (λ place. IsPlace p.now (whole text.now) from place) }
    ensures room { OnOk result (HasRoom finder.now room.new) }
    ensures later { steps.old ≤ steps.new }
    ensures tabled { finder.now.width ≡ length p.now.rows → steps.new ≡ steps.old }
{
    let input = Input {
        before: None,
        bytes: text,
        unfinished: false,
    };
    let all = text.len() + 1;
    let Some(end) = way_before(p, finder, input, from, all, room, steps)? else {
        return Ok(None);
    };
    let mut low = from;
    let mut high = end;
    while high - low > 1 {
        let middle = low + (high - low) / 2;
        match way_before(p, finder, input, low, middle, room, steps)? {
            Some(end) => high = end,
            None => low = middle,
        }
    }
    Ok(Some(low))
}
