//! The tests of a way: of a byte, and at a place.

ghost use Rattle.std.specs.Prelude.{◌≡◌, ℕ, ◌<◌, ◌≤◌, ◌+◌, List, [], length, Option, slice_get};
ghost use Rattle.ix_pattern.specs.Piece.{in_set};
ghost use Rattle.ix_pattern.specs.Ways.{byte_ways};
ghost use Rattle.ix_pikevm.specs.Code.{Mean, history, set_in, sets_of, tested};
ghost use Rattle.ix_pikevm.specs.Leaf.{leaf_ways, text_of, at};
ghost use Rattle.ix_pikevm.specs.declared.cells.Cell.{Cell};
ghost use Rattle.ix_backtrack.specs.Frames.{turn_ways, IsFrame, IsTurn};

use crate::frames::{Frame, Turn};
use ix_base::Steps;
use ix_pattern::{Node, Pattern};
use ix_pikevm::input::Input;
use ix_pikevm::leaf::Leaf;
use std::sync::ledger::Ledger;

/// Whether a piece takes a byte. One that is no byte piece takes none.
pub fn takes<L: Ledger>(p: &Pattern, piece: usize, byte: u8, steps: &mut Steps<L>) -> bool
    requires { piece < length p.now.rows }
    ensures { result ≡ in_set (set_in (sets_of p.now.rows) piece) byte }
{
    match p.node(piece) {
        Node::Bytes => p.accepts(piece, byte, steps),
        _ => false,
    }
}

/// Goes on behind a byte of the set with that number.
pub fn behind_byte<L: Ledger>(
    p: &Pattern,
    input: Input<'_>,
    frame: Frame,
    set: usize,
    next: usize,
    steps: &mut Steps<L>,
) -> Turn
    requires { set < length p.now.rows }
    ensures ways { (mean : Mean) (blank : List (Option (ℕ × ℕ))) (cells : List Cell) →
        tested (mean next (history cells frame.trail)) (byte_ways (set_in (sets_of p.now.rows) set) (text_of input.entry)
        (at frame.place []) (slice_get input.entry.bytes.now frame.place))
        ≡ turn_ways mean blank cells frame result }
    ensures known { (n c : ℕ) → next < n → IsFrame n c (length input.entry.bytes.now) frame →
        IsTurn n c (length input.entry.bytes.now) result }
{
    if frame.place >= input.bytes.len() {
        return if input.unfinished {
            Turn::Edge
        } else {
            Turn::Back
        };
    }
    if !takes(p, set, input.bytes[frame.place], steps) {
        return Turn::Back;
    }
    Turn::On(Frame {
        pc: next,
        trail: frame.trail,
        place: frame.place + 1,
    })
}

/// Goes on behind a test that takes no byte.
pub fn behind_leaf(leaf: Leaf, frame: Frame, next: usize) -> Turn
    ensures ways { (mean : Mean) (blank : List (Option (ℕ × ℕ))) (cells : List Cell) →
        tested (mean next (history cells frame.trail)) (leaf_ways leaf (at frame.place [])) ≡ turn_ways mean blank cells frame result }
    ensures known { (n c bytes : ℕ) → next < n → IsFrame n c bytes frame → IsTurn n c bytes result }
{
    match leaf {
        Leaf::Here => Turn::On(Frame {
            pc: next,
            trail: frame.trail,
            place: frame.place,
        }),
        Leaf::Edge => Turn::Edge,
        Leaf::Never => Turn::Back,
    }
}
