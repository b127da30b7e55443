//! What tells where a match may begin, before any search is made. Places at which none can are
//! passed over many at a time.

ghost use Rattle.std.specs.Prelude.{◌≡◌, ℕ, ◌<◌, ◌≤◌, length, IfOk, IfSome, false, slice_get};
ghost use Rattle.memchr.specs.Find.{FindsNeedle};
ghost use Rattle.ix_pattern.specs.Rows.{Shape, tree};
ghost use Rattle.ix_match.specs.Few.{Lists};
ghost use Rattle.ix_match.specs.Fronts.{fronts, in_one, IsFront, IsCandidate};
ghost use Rattle.ix_match.specs.Leads.{EachBegins};
ghost use Rattle.ix_match.specs.Prefilters.{may_be_first, AreFirst, IsPrefilter};

use crate::few::{Few, few_of, passed_over};
use crate::first_pieces::{FirstPieces, front_of, may_begin};
use crate::leads::lead_of;
use ix_base::{NoMemory, Steps};
use ix_pattern::Pattern;
use memchr::memmem;
use std::alloc::Global;
use std::marker::Brand;
use std::sync::ledger::{Blank, Ledger};

/// What is known of where a match of a pattern may begin.
#[derive(Drop)]
pub struct Prefilter {
    /// The bytes with which every match begins, where two or more are known.
    pub literal: Option<memmem::Finder<'static>>,
    /// For each byte, whether a match may take it as its first one.
    pub first: [bool; 256],
    pub few: Few,
    /// A match may take no byte.
    pub passes: bool,
    /// A match begins at the start of the text alone.
    pub anchored: bool,
}

/// Whether a match may take the byte as its first one.
fn may_be_first<L: Ledger>(p: &Pattern, front: &FirstPieces, byte: u8, steps: &mut Steps<L>) -> bool
    requires { IsFront p.now front.now }
    ensures { result ≡ may_be_first p.now byte }
{
    may_begin(p, front, byte, steps)
}

/// For each byte, whether a match may take it as its first one.
fn first_of<L: Ledger>(p: &Pattern, front: &FirstPieces, steps: &mut Steps<L>) -> [bool; 256]
    requires { IsFront p.now front.now }
    ensures { AreFirst p.now result }
{
    let mut first = [false; 256];
    for byte in 0..=255u8 {
        first[byte as usize] = may_be_first(p, front, byte, steps);
    }
    first
}

/// The search for the bytes with which every match begins. A single byte is found faster by its
/// value.
fn literal_of<L: Ledger>(
    alloc: Global,
    p: &Pattern,
    steps: &mut Steps<L>,
) -> Result<Option<memmem::Finder<'static>>, NoMemory>
    ensures { IfOk result (λ literal. IfSome literal (EachBegins p.now)) }
{
    let lead = lead_of(alloc, p, steps)?;
    if lead.len() < 2 {
        return Ok(None);
    }
    let literal = memmem::Finder::new(&lead).into_owned(alloc)?;
    Ok(Some(literal))
}

/// What is known of where a match may begin. The tests are counted in the ledger that the blank one
/// opens, which nobody reads.
fn prefilter_uncounted<L: Ledger>(
    alloc: Global,
    p: &Pattern,
    blank: Blank,
) -> Result<Prefilter, NoMemory>
    requires name { blank.name ≡ L.name }
    requires parts { blank.parts ≡ L.parts }
    requires some { 0 < blank.parts }
    ensures { IfOk result (λ prefilter. IsPrefilter p.now prefilter) }
{
    let mut steps = Steps::<L>::new(blank);
    let front = front_of(alloc, p)?;
    let first = first_of(p, &front, &mut steps);
    let literal = literal_of(alloc, p, &mut steps)?;
    Ok(Prefilter {
        literal,
        few: few_of(&first),
        first,
        passes: front.passes,
        anchored: front.anchored,
    })
}

/// Where the bytes first stand from this place on.
fn next_literal(literal: &memmem::Finder<'static>, text: &[u8], place: usize) -> Option<usize>
    requires { place ≤ length text.now }
    ensures { FindsNeedle text.now literal.now place result }
{
    match literal.find(&text[place..]) {
        Some(over) => Some(place + over),
        None => None,
    }
}

impl Prefilter {
    /// What is known of where a match of the pattern may begin.
    pub fn of(alloc: Global, p: &Pattern) -> Result<Prefilter, NoMemory>
        ensures { IfOk result (λ prefilter. IsPrefilter p.now prefilter) }
    {
        prefilter_uncounted::<Brand>(alloc, p, Blank::new(1))
    }

    /// The first place from this one on with a byte that a match may take as its first one, or the
    /// text's end.
    fn next_place(&self, text: &[u8], place: usize) -> usize
        requires place { place ≤ length text.now }
        requires few { Lists self.now.few self.now.first }
        ensures later { place ≤ result }
        ensures within { result ≤ length text.now }
        ensures none { (p : Shape) → AreFirst p self.now.first → (k : ℕ) → place ≤ k → k < result →
            in_one (slice_get text.now k) (fronts (tree p.rows)) ≡ false }
    {
        place + passed_over(&self.first, self.few, &text[place..])
    }

    /// The first place from this one on at which a match may begin, but for what is known of the
    /// text's start.
    fn unanchored(&self, text: &[u8], place: usize) -> Option<usize>
        requires place { place ≤ length text.now }
        requires few { Lists self.now.few self.now.first }
        ensures { (p : Shape) → IsPrefilter p self.now → IsCandidate p text.now place result }
    {
        if let Some(literal) = &self.literal {
            return next_literal(literal, text, place);
        }
        if self.passes {
            return Some(place);
        }
        let at = self.next_place(text, place);
        if at < text.len() { Some(at) } else { None }
    }

    /// The first place from this one on at which a match may begin. There is none where no match
    /// begins from here on.
    pub fn candidate(&self, text: &[u8], place: usize) -> Option<usize>
        requires place { place ≤ length text.now }
        requires few { Lists self.now.few self.now.first }
        ensures { (p : Shape) → IsPrefilter p self.now → IsCandidate p text.now place result }
    {
        if self.anchored && place > 0 {
            return None;
        }
        let at = self.unanchored(text, place)?;
        if self.anchored && at > 0 {
            None
        } else {
            Some(at)
        }
    }

    /// A copy of it.
    pub fn copy(&self) -> Result<Prefilter, NoMemory>
        ensures { IfOk result (λ copy. copy ≡ self.now) }
    {
        let literal = match &self.literal {
            Some(literal) => Some(literal.clone()?),
            None => None,
        };
        Ok(Prefilter {
            literal,
            first: self.first,
            few: self.few,
            passes: self.passes,
            anchored: self.anchored,
        })
    }
}
