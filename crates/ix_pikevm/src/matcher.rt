//! The search of texts for one pattern: what is kept from text to text.

ghost use Rattle.std.specs.Prelude.{◌≡◌, ◌⊎◌, ◌≤◌, ◌+◌, ◌*◌, [], None, IfOk, OnOk, length, replicate, slice_get};
ghost use Rattle.ix_pattern.specs.Ways.{ways};
ghost use Rattle.ix_pattern.specs.Rows.{tree, byte_pieces};
ghost use Rattle.ix_pikevm.specs.Leaf.{text_of, at};
ghost use Rattle.ix_pikevm.specs.Outcomes.{head_of};
ghost use Rattle.ix_pikevm.specs.Finders.{IsFinder, HasRoom, IsSameFinder};
ghost use Rattle.ix_pikevm.specs.Plans.{IsPlan, Knows};

use crate::code::Lookahead;
use crate::input::Input;
use crate::leaf::Leaf;
use crate::matcher_ref::{MatcherRef, Scratch};
use crate::program::{Program, written};
use crate::run::{Outcome, outcome_of, run};
use crate::table::{Tests, table_of};
use ix_base::{NoMemory, Steps};
use ix_pattern::Pattern;
use std::alloc::Global;
use std::sync::ledger::Ledger;

/// A pattern written out, and for each byte in turn what each of the first `width` pieces answers
/// to it. It is used again for each place and each text.
pub struct Matcher {
    pub program: Program,
    pub table: Vec<bool>,
    pub width: usize,
}

/// It is written out, so that each place where one is let go is a call of it, which is proved once.
impl Drop for Matcher {
    fn drop(self) {
        let Matcher {
            program: _,
            table: _,
            width: _,
        } = self;
    }
}

impl Matcher {
    /// A copy of it, with its table.
    pub fn copy(&self) -> Result<Matcher, NoMemory>
        ensures { IfOk result (λ copy. IsSameFinder self.now copy) }
    {
        let program = self.program.copy()?;
        let table = self.table.to_vec(*self.table.allocator())?;
        Ok(Matcher {
            program,
            table,
            width: self.width,
        })
    }
}

/// For a pattern, whose byte pieces are asked when a byte is met.
pub fn finder_of(alloc: Global, p: &Pattern) -> Result<Matcher, NoMemory>
    ensures { IfOk result (λ f. IsFinder p.now.rows f) }
{
    let program = written(alloc, p)?;
    Ok(Matcher {
        program,
        table: Vec::new(alloc),
        width: 0,
    })
}

/// For a pattern, each of whose byte pieces is tested now with each byte, and not again.
pub fn tabled_finder<L: Ledger>(
    alloc: Global,
    p: &Pattern,
    steps: &mut Steps<L>,
) -> Result<Matcher, NoMemory>
    ensures finder { IfOk result (λ f. IsFinder p.now.rows f) }
    ensures whole { IfOk result (λ f. f.width ≡ length p.now.rows) }
    ensures counted { OnOk result (steps.new ≤ steps.old + 256 * byte_pieces p.now.rows) }
    ensures later { steps.old ≤ steps.new }
{
    let program = written(alloc, p)?;
    let table = table_of(alloc, p, steps)?;
    let width = table.len() / 256;
    Ok(Matcher {
        program,
        table,
        width,
    })
}

/// What stands for the lookaheads before any was asked: one for each piece, or none where there are
/// none.
fn looks_for(alloc: Global, p: &Pattern, asks: &[Lookahead]) -> Result<Vec<Leaf>, NoMemory>
    ensures { IfOk result (λ looks. (asks.now ≡ []) ⊎ (length looks.items ≡ length p.now.rows)) }
{
    if asks.is_empty() {
        return Ok(Vec::new(alloc));
    }
    let root = p.root();
    let mut looks = vec![in alloc; Leaf::Never; root]?;
    looks.push(Leaf::Never)?;
    Ok(looks)
}

/// What a search of a pattern works in. It is used again.
pub fn room_of(alloc: Global, p: &Pattern, finder: &Matcher) -> Result<Scratch, NoMemory>
    requires { IsFinder p.now.rows finder.now }
    ensures { IfOk result (λ room. HasRoom finder.now room) }
{
    let looks = looks_for(alloc, p, &finder.program.asks)?;
    let room = Scratch::new(
        alloc,
        finder.program.code.len(),
        finder.program.inner.len(),
        looks,
    )?;
    Ok(room)
}

/// As much room as that.
pub fn room_again(alloc: Global, finder: &Matcher, room: &Scratch) -> Result<Scratch, NoMemory>
    requires { HasRoom finder.now room.now }
    ensures { IfOk result (λ r. HasRoom finder.now r) }
{
    let looks = room.looks.to_vec(*room.looks.allocator())?;
    let room = Scratch::new(
        alloc,
        finder.program.code.len(),
        finder.program.inner.len(),
        looks,
    )?;
    Ok(room)
}

/// The plan of a pattern that was written out.
pub fn plan_of<'a>(p: &'a Pattern, finder: &'a Matcher) -> MatcherRef<'a>
    requires { IsFinder p.now.rows finder.now }
    ensures plan { IsPlan result }
    ensures knows { Knows result p.now.rows }
    ensures code { result.code.now ≡ finder.now.program.code.items }
    ensures inner { result.inner.now ≡ finder.now.program.inner.items }
    ensures asks { result.asks.now ≡ finder.now.program.asks.items }
    ensures pattern { result.tests.pattern.now ≡ p.now }
    ensures width { result.tests.width ≡ finder.now.width }
{
    MatcherRef {
        code: &finder.program.code,
        asks: &finder.program.asks,
        inner: &finder.program.inner,
        tests: Tests {
            pattern: p,
            table: &finder.table,
            width: finder.width,
        },
    }
}

/// The head of the ordered list of ways of the pattern at a place of a text, where no group has
/// taken part. Tests that the finder's table does not have count as steps.
pub fn head<L: Ledger>(
    alloc: Global,
    p: &Pattern,
    finder: &Matcher,
    input: Input<'_>,
    place: usize,
    room: &mut Scratch,
    steps: &mut Steps<L>,
) -> Result<Outcome, NoMemory>
    requires finder { IsFinder p.now.rows finder.now }
    requires room { HasRoom finder.now room.old }
    requires within { place ≤ length input.bytes.now }
    ensures head { IfOk result (λ o. slice_get (ways (tree p.now.rows) (text_of input.entry) (at place (replicate p.now.groups None)))
        0 ≡ head_of o) }
    ensures room { OnOk result (HasRoom finder.now room.new) }
    ensures later { steps.old ≤ steps.new }
    ensures tabled { finder.now.width ≡ length p.now.rows → steps.new ≡ steps.old }
{
    let plan = plan_of(p, finder);
    let best = run(plan, finder.program.start, input, place, room, steps)?;
    let outcome = outcome_of(alloc, best, &room.main.cells, p.groups())?;
    Ok(outcome)
}
