//! The first match in a text.

ghost use Rattle.std.specs.Prelude.{◌≡◌, ◌≤◌, ◌<◌, length, IfOk, OnOk, IfSome};
ghost use Rattle.ix_match.specs.Matches.{MatchesAt, IsFirst, LiesIn};
ghost use Rattle.ix_match.specs.Fronts.{IsFront};
ghost use Rattle.ix_match.specs.Searches.{IsSearch};

use crate::budget::is_spent;
use crate::first_pieces::{FirstPieces, candidate, front_of};
use crate::search::Search;
use ix_base::{NoMemory, Sequence, Steps};
use ix_pattern::Pattern;
use ix_pikevm::input::Input;
use ix_pikevm::run::Outcome;
use std::alloc::Global;
use std::marker::Brand;
use std::sync::ledger::{Blank, Ledger};

/// For each capturing group of a pattern the span of its last turn, if it took part.
pub type GroupList = Sequence<Option<(usize, usize)>>;

/// A match, as places of the text: its first byte stands at `start`, and `end` is the place behind
/// its last one.
#[derive(Drop)]
pub struct Found {
    pub start: usize,
    pub end: usize,
    /// The spans of the capturing groups, in the order of their numbers.
    pub groups: GroupList,
}

/// The preferred one of the matches that begin at a place, if there is one.
fn find_at<L: Ledger>(
    p: &Pattern,
    search: &mut Search,
    text: &[u8],
    place: usize,
    steps: &mut Steps<L>,
) -> Result<Option<Found>, NoMemory>
    requires search { IsSearch p.now.rows search.old }
    requires place { place ≤ length text.now }
    ensures preferred { IfOk result (λ found. MatchesAt p.now text.now place found) }
    ensures lies { IfOk result (λ found. IfSome found (λ f. LiesIn text.now place p.now.groups f)) }
    ensures search { OnOk result (IsSearch p.now.rows search.new) }
{
    let input = Input {
        before: None,
        bytes: text,
        unfinished: false,
    };
    match search.head(p, input, place, steps)? {
        Outcome::End { place: end, groups } => Ok(Some(Found {
            start: place,
            end,
            groups: GroupList::from_vec(groups),
        })),
        Outcome::No | Outcome::More => Ok(None),
    }
}

/// The first match that begins at this place or later, by a walk over the rest of the text.
fn find_walked<L: Ledger>(
    p: &Pattern,
    search: &mut Search,
    text: &[u8],
    from: usize,
    steps: &mut Steps<L>,
) -> Result<Option<Found>, NoMemory>
    requires search { IsSearch p.now.rows search.old }
    requires place { from ≤ length text.now }
    ensures first { IfOk result (λ found. IsFirst p.now text.now from found) }
    ensures lies { IfOk result (λ found. IfSome found (λ f. LiesIn text.now from p.now.groups f)) }
    ensures search { OnOk result (IsSearch p.now.rows search.new) }
{
    let Some(at) = search.first_place(p, text, from, steps)? else {
        return Ok(None);
    };
    let found = find_at(p, search, text, at, steps)?;
    Ok(found)
}

/// The first match that begins at this place or later. Where attempts at one place after the other
/// have cost too much, a walk over the rest of the text tells it.
fn find_from<L: Ledger>(
    p: &Pattern,
    front: &FirstPieces,
    search: &mut Search,
    text: &[u8],
    from: usize,
    steps: &mut Steps<L>,
) -> Result<Option<Found>, NoMemory>
    requires front { IsFront p.now front.now }
    requires search { IsSearch p.now.rows search.old }
    requires place { from ≤ length text.now }
    ensures first { IfOk result (λ found. IsFirst p.now text.now from found) }
    ensures lies { IfOk result (λ found. IfSome found (λ f. LiesIn text.now from p.now.groups f)) }
    ensures search { OnOk result (IsSearch p.now.rows search.new) }
{
    let mut place = from;
    while let Some(at) = candidate(p, front, text, place, steps) {
        if is_spent(&search.room, text.len() - from) {
            let found = find_walked(p, search, text, at, steps)?;
            return Ok(found);
        }
        if let Some(found) = find_at(p, search, text, at, steps)? {
            return Ok(Some(found));
        }
        if at == text.len() {
            return Ok(None);
        }
        place = at + 1;
    }
    Ok(None)
}

/// The first match. The pattern is written out only where one may begin. Steps are counted in the
/// ledger that the blank one opens, which nobody reads.
fn find_uncounted<L: Ledger>(
    alloc: Global,
    p: &Pattern,
    text: &[u8],
    from: usize,
    blank: Blank,
) -> Result<Option<Found>, NoMemory>
    requires place { from ≤ length text.now }
    requires name { blank.name ≡ L.name }
    requires parts { blank.parts ≡ L.parts }
    requires some { 0 < blank.parts }
    ensures first { IfOk result (λ found. IsFirst p.now text.now from found) }
    ensures lies { IfOk result (λ found. IfSome found (λ f. LiesIn text.now from p.now.groups f)) }
{
    let mut steps = Steps::<L>::new(blank);
    let front = front_of(alloc, p)?;
    let Some(place) = candidate(p, &front, text, from, &mut steps) else {
        return Ok(None);
    };
    let mut search = Search::new(alloc, p)?;
    let found = find_from(p, &front, &mut search, text, place, &mut steps)?;
    Ok(found)
}

/// The first match of a pattern in a whole text that begins at the place `from` or later; of those
/// that begin at the same place, the one that the pattern prefers. There is none exactly where it
/// matches at no place from `from` on, up to and with the text's end.
pub fn find(alloc: Global, p: &Pattern, text: &[u8], from: usize) -> Result<Option<Found>, NoMemory>
    requires { from ≤ length text.now }
    ensures first { IfOk result (λ found. IsFirst p.now text.now from found) }
    ensures lies { IfOk result (λ found. IfSome found (λ f. LiesIn text.now from p.now.groups f)) }
{
    find_uncounted::<Brand>(alloc, p, text, from, Blank::new(1))
}
