//! The parts of long sequences and of many alternatives, in a list. So that writing them out takes
//! no depth.

ghost use Rattle.std.specs.Prelude.{◌≡◌, ◌<◌, ◌≤◌, [], length, max, IfOk, IfSome};
ghost use Rattle.ix_pattern.specs.Piece.{IsSound};
ghost use Rattle.ix_pattern.specs.Rows.{piece_at};
ghost use Rattle.ix_pikevm.specs.Chains.{join, IsChain};

use ix_base::NoMemory;
use ix_pattern::{Node, Pattern};

/// The two parts of a piece, where it is a sequence; or where it is alternatives.
fn parts_of(p: &Pattern, sequence: bool, piece: usize) -> Option<(usize, usize)>
    requires { piece < length p.now.rows }
    ensures is { IfSome result (λ r. piece_at p.now.rows piece ≡ join sequence (piece_at p.now.rows r.0) (piece_at p.now.rows r.1)) }
    ensures below { IfSome result (λ r. (r.0 < piece) × (r.1 < piece)) }
{
    match p.node(piece) {
        Node::Seq { first, rest } => { if sequence { Some((first, rest)) } else { None } }
        Node::Either { first, other } => { if sequence { None } else { Some((first, other)) } }
        _ => None,
    }
}

/// All parts but the last one of a sequence, or of alternatives, that begin with these two. The
/// answer is the last one.
pub fn chain_of(
    p: &Pattern,
    sequence: bool,
    first: usize,
    rest: usize,
    parts: &mut Vec<usize>,
) -> Result<usize, NoMemory>
    requires empty { parts.old.items ≡ [] }
    requires first { (first < length p.now.rows) × IsSound (piece_at p.now.rows first) }
    requires rest { (rest < length p.now.rows) × IsSound (piece_at p.now.rows rest) }
    ensures { IfOk result (λ last. IsChain p.now.rows sequence (max first rest) parts.new.items last
        (join sequence (piece_at p.now.rows first) (piece_at p.now.rows rest))) }
{
    parts.push(first)?;
    let mut last = rest;
    while let Some((part, more)) = parts_of(p, sequence, last) {
        parts.push(part)?;
        last = more;
    }
    Ok(last)
}
