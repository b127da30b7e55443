//! The pieces of a pattern while it is read.

ghost use Rattle.std.specs.Prelude.{◌≡◌, ◌+◌, ◌<◌, ◌≤◌, length, [], IfOk, OnOk};
ghost use Rattle.ix_pattern.specs.Rows.{pieces, piece_at, made, tree, IsInside, AllInside, rows_of, one_if_bytes, byte_pieces};
ghost use Rattle.ix_pattern.specs.Parts.{GrewBy};

use crate::pattern::{Node, Row};
use crate::sets::ByteSet;
use ix_base::NoMemory;
use std::alloc::Global;
use std::marker::Model;

/// The pieces made so far, and how many capturing groups the pattern has.
#[derive(Drop)]
pub struct Work {
    rows: Vec<Row>,
    groups: usize,
}

impl Model for Work {
    ghost use Rattle.ix_pattern.specs.Rows.{rows_of, AllInside};
    ghost use Rattle.ix_pattern.specs.Made.{Made};

    ghost Value = { Made };

    ghost view = { λ w. record { rows = rows_of w.rows.items; groups = w.groups } };

    ghost invariant = { λ w. AllInside w.groups 0 (rows_of w.rows.items) };
}

impl Work {
    /// No piece yet, of a pattern with so many groups.
    pub fn new(alloc: Global, groups: usize) -> Work
        ensures groups { result.groups ≡ groups }
        ensures none { result.rows ≡ [] }
    {
        Work {
            rows: Vec::new(alloc),
            groups,
        }
    }

    /// Adds a piece, and answers its number.
    pub fn push(&mut self, node: Node, set: ByteSet) -> Result<usize, NoMemory>
        requires { IsInside self.old.groups node (length self.old.rows) }
        ensures number { IfOk result (λ k. (k ≡ length self.old.rows) × (k < length self.new.rows)) }
        ensures made { IfOk result (λ k. piece_at self.new.rows k ≡ made (pieces self.old.rows) node set) }
        ensures grew { OnOk result (GrewBy (one_if_bytes node) self.old self.new) }
    {
        let number = self.rows.len();
        self.rows.push(Row { node, set })?;
        Ok(number)
    }

    /// How many capturing groups the pattern has.
    pub fn groups(&self) -> usize
        ensures { result ≡ self.now.groups }
    {
        self.groups
    }

    /// The pieces up to this one, which is the whole.
    pub fn into_rows(self, root: usize) -> Vec<Row>
        requires { root < length self.rows }
        ensures tree { tree (rows_of result.items) ≡ piece_at self.rows root }
        ensures rooted { 0 < length (rows_of result.items) }
        ensures inside { AllInside self.groups 0 (rows_of result.items) }
        ensures bytes { byte_pieces (rows_of result.items) ≤ byte_pieces self.rows }
    {
        let mut rows = self.rows;
        rows.truncate(root + 1);
        rows
    }
}
