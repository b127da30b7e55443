//! The bytes with which a match may begin.

ghost use Rattle.std.specs.Prelude.{◌≡◌, ℕ, ◌<◌, ◌≤◌, ◌+◌, length, IfOk, slice_get, unwrap_or, false};
ghost use Rattle.ix_pattern.specs.Rows.{piece_at, tree};
ghost use Rattle.ix_match.specs.Starts.{may_begin, AreStarts, OthersBeginNothing};

use ix_base::{NoMemory, Steps};
use ix_pattern::{Node, Pattern};
use std::alloc::Global;
use std::marker::Brand;
use std::sync::ledger::{Blank, Ledger};

/// Whether a match of the piece with this number may begin with the byte, by whether those of the
/// pieces below it may.
#[tactic(auto, unfolding(crate::specs::Starts::may_begin))]
fn piece_begins<L: Ledger>(
    p: &Pattern,
    piece: usize,
    below: &[bool],
    byte: u8,
    steps: &mut Steps<L>,
) -> bool
    requires piece { piece < length p.now.rows }
    requires below { piece ≤ length below.now }
    requires known { (k : ℕ) → k < piece → unwrap_or (slice_get below.now k) false ≡ may_begin (piece_at p.now.rows k) byte }
    ensures { result ≡ may_begin (piece_at p.now.rows piece) byte }
{
    match p.node(piece) {
        Node::Bytes => p.accepts(piece, byte, steps),
        Node::Seq { first, .. } => below[first],
        Node::Either { first, other } => below[first] || below[other],
        Node::Count { inside, least, .. } => least == 0 || below[inside],
        Node::Group { inside, .. } => below[inside],
        Node::Nothing
        | Node::Start { .. }
        | Node::Finish { .. }
        | Node::Word
        | Node::Ahead { .. } => true,
    }
}

/// Whether a match may begin with the byte.
fn begins<L: Ledger>(
    alloc: Global,
    p: &Pattern,
    byte: u8,
    steps: &mut Steps<L>,
) -> Result<bool, NoMemory>
    ensures { IfOk result (λ b. b ≡ may_begin (tree p.now.rows) byte) }
{
    let root = p.root();
    let mut below: Vec<bool> = Vec::new(alloc);
    for piece in 0..root {
        let b = piece_begins(p, piece, &below, byte, steps);
        below.push(b)?;
    }
    Ok(piece_begins(p, root, &below, byte, steps))
}

/// For each byte, whether a match may begin with it. The tests are counted in the ledger that the
/// blank one opens, which nobody reads.
fn starts_uncounted<L: Ledger>(
    alloc: Global,
    p: &Pattern,
    blank: Blank,
) -> Result<[bool; 256], NoMemory>
    requires name { blank.name ≡ L.name }
    requires parts { blank.parts ≡ L.parts }
    requires some { 0 < blank.parts }
    ensures { IfOk result (λ starts. AreStarts p.now starts) }
{
    let mut steps = Steps::<L>::new(blank);
    let mut starts = [false; 256];
    for byte in 0..=255u8 {
        starts[byte as usize] = begins(alloc, p, byte, &mut steps)?;
    }
    Ok(starts)
}

/// For each byte, whether a match may begin with it. The tests are no steps of a search.
pub fn starts_of(alloc: Global, p: &Pattern) -> Result<[bool; 256], NoMemory>
    ensures { IfOk result (λ starts. AreStarts p.now starts) }
{
    starts_uncounted::<Brand>(alloc, p, Blank::new(1))
}

/// A law about the definitions, and no code: an attempt before any other byte has neither an end
/// nor an edge.
pub fn others_begin_nothing()
    ensures { OthersBeginNothing }
{}
