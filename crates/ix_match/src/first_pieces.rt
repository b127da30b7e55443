//! Where a match may begin in a whole text. `find` passes over the places at which none can.

ghost use Rattle.std.specs.Prelude.{◌≡◌, ℕ, ◌<◌, ◌≤◌, ◌||◌, length, slice_get, Some, IfOk, false};
ghost use Rattle.ix_pattern.specs.Rows.{piece_at, tree};
ghost use Rattle.ix_match.specs.Fronts.{fronts, anchored, in_one, Came, Opens, IsFront, IsCandidate};

use ix_base::{NoMemory, Steps};
use ix_pattern::{Node, Pattern};
use std::alloc::Global;
use std::sync::ledger::Ledger;

/// What is known of where a match may begin: it takes its first byte at one of the byte pieces with
/// these numbers, or it takes none.
#[derive(Drop)]
pub struct FirstPieces {
    pub pieces: Vec<usize>,
    /// A match may take no byte.
    pub passes: bool,
    /// A match begins at the start of the text alone.
    pub anchored: bool,
}

/// What a piece opens with.
#[derive(Clone, Copy)]
pub enum Opening {
    /// One byte of a set.
    Byte,
    /// Nothing that takes a byte.
    Empty,
    /// The piece with this number, which may also be left out where it is `empty`.
    Inside { inside: usize, empty: bool },
    Sequence { first: usize, rest: usize },
    Choice { first: usize, other: usize },
}

#[tactic(auto, unfolding(crate::specs::Fronts::passes, crate::specs::Fronts::fronts))]
pub fn opens_with(p: &Pattern, piece: usize) -> Opening
    requires { piece < length p.now.rows }
    ensures { Opens p.now.rows piece result }
{
    match p.node(piece) {
        Node::Bytes => Opening::Byte,
        Node::Seq { first, rest } => Opening::Sequence { first, rest },
        Node::Either { first, other } => Opening::Choice { first, other },
        Node::Count { inside, least, .. } => Opening::Inside {
            inside,
            empty: least == 0,
        },
        Node::Group { inside, .. } => Opening::Inside {
            inside,
            empty: false,
        },
        Node::Nothing
        | Node::Start { .. }
        | Node::Finish { .. }
        | Node::Word
        | Node::Ahead { .. } => Opening::Empty,
    }
}

fn or(a: bool, b: bool) -> bool
    ensures { result ≡ (a || b) }
{
    a || b
}

/// Adds the byte pieces at which a match of the piece may take its first byte. The answer is
/// whether it may take none.
#[cycle(fronts)]
fn add_fronts(p: &Pattern, piece: usize, pieces: &mut Vec<usize>) -> Result<bool, NoMemory>
    requires { piece < length p.now.rows }
    ensures { IfOk result (λ empty. Came p.now.rows piece pieces.old.items empty pieces.new.items) }
{
    let mut at = piece;
    let mut passes = false;
    loop {
        match opens_with(p, at) {
            Opening::Byte => {
                pieces.push(at)?;
                return Ok(passes);
            }
            Opening::Empty => return Ok(true),
            Opening::Inside { inside, empty } => {
                passes = or(passes, empty);
                at = inside;
            }
            Opening::Sequence { first, rest } => {
                if !add_fronts(p, first, pieces)? {
                    return Ok(passes);
                }
                at = rest;
            }
            Opening::Choice { first, other } => {
                let empty = add_fronts(p, first, pieces)?;
                passes = or(passes, empty);
                at = other;
            }
        }
    }
}

/// Whether a match of the pattern begins at the start of the text alone, as is seen at its front.
#[tactic(auto, unfolding(crate::specs::Fronts::anchored))]
fn is_anchored(p: &Pattern) -> bool
    ensures { result ≡ anchored (tree p.now.rows) }
{
    let mut at = p.root();
    loop {
        match p.node(at) {
            Node::Start { lines } => return !lines,
            Node::Seq { first, .. } => at = first,
            Node::Group { inside, .. } => at = inside,
            Node::Count { inside, least, .. } => {
                if least == 0 {
                    return false;
                }
                at = inside;
            }
            Node::Nothing
            | Node::Bytes
            | Node::Finish { .. }
            | Node::Word
            | Node::Either { .. }
            | Node::Ahead { .. } => return false,
        }
    }
}

/// Where a match of the pattern may begin.
pub fn front_of(alloc: Global, p: &Pattern) -> Result<FirstPieces, NoMemory>
    ensures { IfOk result (λ front. IsFront p.now front) }
{
    let mut pieces = Vec::new(alloc);
    let passes = add_fronts(p, p.root(), &mut pieces)?;
    let anchored = is_anchored(p);
    Ok(FirstPieces {
        pieces,
        passes,
        anchored,
    })
}

/// Whether one of the byte pieces takes the byte.
pub fn may_begin<L: Ledger>(
    p: &Pattern,
    front: &FirstPieces,
    byte: u8,
    steps: &mut Steps<L>,
) -> bool
    requires { IsFront p.now front.now }
    ensures { result ≡ in_one (Some byte) (fronts (tree p.now.rows)) }
{
    for k in 0..front.pieces.len() {
        if p.accepts(front.pieces[k], byte, steps) {
            return true;
        }
    }
    false
}

/// The first place from this one on whose byte one of the byte pieces takes, or the text's end.
fn next_place<L: Ledger>(
    p: &Pattern,
    front: &FirstPieces,
    text: &[u8],
    place: usize,
    steps: &mut Steps<L>,
) -> usize
    requires front { IsFront p.now front.now }
    requires place { place ≤ length text.now }
    ensures later { place ≤ result }
    ensures within { result ≤ length text.now }
    ensures none { (k : ℕ) → place ≤ k → k < result → in_one (slice_get text.now k) (fronts (tree p.now.rows)) ≡ false }
{
    for at in place..text.len() {
        if may_begin(p, front, text[at], steps) {
            return at;
        }
    }
    text.len()
}

/// The first place from this one on at which a match may begin. There is none where no match begins
/// from here on.
pub fn candidate<L: Ledger>(
    p: &Pattern,
    front: &FirstPieces,
    text: &[u8],
    place: usize,
    steps: &mut Steps<L>,
) -> Option<usize>
    requires front { IsFront p.now front.now }
    requires place { place ≤ length text.now }
    ensures { IsCandidate p.now text.now place result }
{
    if front.anchored && place > 0 {
        return None;
    }
    if front.passes {
        return Some(place);
    }
    let at = next_place(p, front, text, place, steps);
    if at < text.len() { Some(at) } else { None }
}
