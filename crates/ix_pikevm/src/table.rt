//! What the byte pieces of a pattern answer to each byte. The steps of threads ask it.

ghost use Rattle.std.specs.Prelude.{◌≡◌, ◌+◌, ◌*◌, ◌<◌, ◌≤◌, length, false, IfOk, OnOk, slice_index_or};
ghost use Rattle.ix_pattern.specs.Piece.{in_set};
ghost use Rattle.ix_pattern.specs.Rows.{node_at, byte_pieces};
ghost use Rattle.ix_pikevm.specs.Code.{set_in, sets_of};
ghost use Rattle.ix_pikevm.specs.Ran.{Row};
ghost use Rattle.ix_pikevm.specs.Tests.{answers_to, asked_of, IsTable, AreTests, Counts};

use ix_base::{NoMemory, Steps};
use ix_pattern::{Node, Pattern};
use std::alloc::Global;
use std::sync::ledger::Ledger;

/// How a byte is tested against a piece of a pattern: by a table of `width` pieces, a row a byte,
/// or where that has no such piece by the pattern itself. A table costs all tests once; without one
/// there is nothing to make.
#[derive(Clone, Copy)]
pub struct Tests<'a> {
    pub pattern: &'a Pattern,
    pub table: &'a [bool],
    pub width: usize,
}

/// Whether a piece takes a byte. A test counts as a step where the table does not have it.
pub fn answer<L: Ledger>(tests: Tests<'_>, piece: usize, byte: u8, steps: &mut Steps<L>) -> bool
    requires piece { piece < length tests.pattern.now.rows }
    requires tests { AreTests tests }
    ensures is { result ≡ slice_index_or (answers_to tests.entry.pattern.now.rows byte) piece false }
    ensures counts { Counts tests.entry steps.old steps.new }
{
    if piece < tests.width {
        tests.table[byte as usize * tests.width + piece]
    } else {
        takes(tests.pattern, piece, byte, steps)
    }
}

/// Whether a piece takes a byte. One that is no byte piece takes none.
fn takes<L: Ledger>(p: &Pattern, piece: usize, byte: u8, steps: &mut Steps<L>) -> bool
    requires { piece < length p.now.rows }
    ensures taken { result ≡ in_set (set_in (sets_of p.now.rows) piece) byte }
    ensures counted { steps.new ≤ steps.old + asked_of (node_at p.now.rows piece) }
    ensures later { steps.old ≤ steps.new }
{
    match p.node(piece) {
        Node::Bytes => p.accepts(piece, byte, steps),
        _ => false,
    }
}

/// Adds what each piece answers to a byte. Each byte piece is tested once.
fn push_answers<L: Ledger>(
    p: &Pattern,
    byte: u8,
    answers: &mut Vec<bool>,
    steps: &mut Steps<L>,
) -> Result<(), NoMemory>
    ensures row { OnOk result (Row answers.old.items answers.new.items (length p.now.rows) (sets_of p.now.rows) byte) }
    ensures counted { OnOk result (steps.new ≤ steps.old + byte_pieces p.now.rows) }
    ensures later { steps.old ≤ steps.new }
{
    let root = p.root();
    for piece in 0..root {
        let answer = takes(p, piece, byte, steps);
        answers.push(answer)?;
    }
    let answer = takes(p, root, byte, steps);
    answers.push(answer)?;
    Ok(())
}

/// For each byte in turn, what each piece answers to it. Each byte piece is tested once a byte.
pub fn table_of<L: Ledger>(
    alloc: Global,
    p: &Pattern,
    steps: &mut Steps<L>,
) -> Result<Vec<bool>, NoMemory>
    ensures all { IfOk result (λ table. length table.items ≡ 256 * length p.now.rows) }
    ensures table { IfOk result (λ table. IsTable table.items (length p.now.rows) p.now.rows) }
    ensures counted { OnOk result (steps.new ≤ steps.old + 256 * byte_pieces p.now.rows) }
    ensures later { steps.old ≤ steps.new }
{
    let mut table = Vec::new(alloc);
    for byte in 0..256usize {
        push_answers(p, byte as u8, &mut table, steps)?;
    }
    Ok(table)
}
