//! Patterns.

ghost use Rattle.std.specs.Prelude.{◌≡◌, ◌+◌, ◌<◌, ◌≤◌, length, nat_lt, Some, IfOk};
ghost use Rattle.ix_pattern.specs.Piece.{in_set, least_length, IsSound};
ghost use Rattle.ix_pattern.specs.Rows.{pieces, piece_at, node_at, set_at, made, tree, IsInside, IsPattern, rows_of, byte_pieces};

use ix_base::{NoMemory, Steps};
use std::marker::Model;
use std::sync::ledger::Ledger;

/// One piece of a pattern. The numbers in it are those of other pieces, below its own.
#[derive(Clone, Copy, Debug, PartialEq, Eq)]
pub enum Node {
    /// An empty sequence.
    Nothing,
    /// A byte, `.`, a class or a set escape: one byte of a set.
    Bytes,
    /// `^`; with `lines` also behind each newline.
    Start {
        lines: bool,
    },
    /// `$`; with `lines` also before each newline.
    Finish {
        lines: bool,
    },
    /// `\b`.
    Word,
    /// One piece behind the other.
    Seq {
        first: usize,
        rest: usize,
    },
    /// One piece or the other. The first is preferred.
    Either {
        first: usize,
        other: usize,
    },
    /// At least `least` and at most `most` times the piece inside. A lazy one prefers fewer.
    Count {
        inside: usize,
        least: u32,
        most: Option<u32>,
        lazy: bool,
    },
    /// A capturing group. Groups are numbered from 1 by their opening parentheses.
    Group {
        number: usize,
        inside: usize,
    },
    /// `(?=` where `wanted` is true, `(?!` otherwise.
    Ahead {
        inside: usize,
        wanted: bool,
    },
}

/// A piece, and whether it takes each of the 256 bytes.
#[derive(Clone, Copy)]
pub struct Row {
    pub node: Node,
    pub set: [bool; 256],
}

/// A pattern. Contracts see it as its pieces by number, with their sets, the number of its
/// capturing groups, and its weight.
#[derive(Drop)]
pub struct Pattern {
    rows: Vec<Row>,
    groups: usize,
    weight: u64,
    takes: bool,
}

impl Model for Pattern {
    ghost use Rattle.std.specs.Prelude.{◌≡◌, nat_lt};
    ghost use Rattle.ix_pattern.specs.Piece.{least_length};
    ghost use Rattle.ix_pattern.specs.Rows.{Shape, IsPattern, rows_of, tree};

    ghost Value = { Shape };

    ghost view = { λ p. record { rows = rows_of p.rows.items; groups = p.groups; weight = p.weight } };

    ghost invariant = { λ p. IsPattern (record { rows = rows_of p.rows.items; groups = p.groups; weight = p.weight })
        × (p.takes ≡ nat_lt 0 (least_length (tree (rows_of p.rows.items)))) };
}

impl Pattern {
    /// The pattern of these pieces, the last of which is the whole; `takes` tells whether it takes
    /// at least one byte.
    pub(crate) fn from_rows(rows: Vec<Row>, groups: usize, weight: u64, takes: bool) -> Pattern
        requires pattern { IsPattern (record { rows = rows_of rows.items; groups = groups; weight = weight }) }
        requires takes { takes ≡ nat_lt 0 (least_length (tree (rows_of rows.items))) }
        ensures { result ≡ record { rows = rows_of rows.items; groups = groups; weight = weight } }
    {
        Pattern {
            rows,
            groups,
            weight,
            takes,
        }
    }

    /// Whether a match takes at least one byte.
    pub(crate) fn takes(&self) -> bool
        ensures { result ≡ nat_lt 0 (least_length (tree self.now.rows)) }
    {
        self.takes
    }

    /// How many capturing groups it has, at most 32.
    pub fn groups(&self) -> usize
        ensures is { result ≡ self.now.groups }
        ensures few { result ≤ 32 }
    {
        self.groups
    }

    /// Its weight, at most 200,000. It has at most as many byte pieces.
    pub fn weight(&self) -> u64
        ensures is { result ≡ self.now.weight }
        ensures light { result ≤ 200000 }
        ensures bytes { byte_pieces self.now.rows ≤ result }
    {
        self.weight
    }

    /// The number of the whole. All other pieces have lower ones.
    pub fn root(&self) -> usize
        ensures last { result + 1 ≡ length self.now.rows }
        ensures sound { IsSound (tree self.now.rows) }
    {
        self.rows.len() - 1
    }

    /// The piece with this number, which is at most the root's.
    pub fn node(&self, piece: usize) -> Node
        requires { piece < length self.now.rows }
        ensures node { node_at self.now.rows piece ≡ Some result }
        ensures is { piece_at self.now.rows piece ≡ made (pieces self.now.rows) result (set_at self.now.rows piece) }
        ensures inside { IsInside self.now.groups result piece }
    {
        self.rows[piece].node
    }

    /// Whether the byte piece with this number takes the byte. It counts one step.
    pub fn accepts<L: Ledger>(&self, piece: usize, byte: u8, steps: &mut Steps<L>) -> bool
        requires { node_at self.now.rows piece ≡ Some Node.Bytes }
        ensures taken { result ≡ in_set (set_at self.now.rows piece) byte }
        ensures counted { steps.new ≡ steps.old + 1 }
    {
        steps.tick();
        self.rows[piece].set[byte as usize]
    }

    /// A copy of it.
    pub fn copy(&self) -> Result<Pattern, NoMemory>
        ensures { IfOk result (λ copy. copy ≡ self.now) }
    {
        let rows = self.rows.to_vec(*self.rows.allocator())?;
        Ok(Pattern {
            rows,
            groups: self.groups,
            weight: self.weight,
            takes: self.takes,
        })
    }
}
