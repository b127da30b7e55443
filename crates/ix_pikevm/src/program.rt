//! A pattern, written out to instructions.

ghost use Rattle.std.specs.Prelude.{◌≡◌, ℕ, ◌+◌, ◌<◌, ◌≤◌, ◌∷◌, [], length, Bool, List, Some, true, IfOk, OnOk, slice_get};
ghost use Rattle.ix_pattern.specs.Piece.{Piece, ahead, IsSound, IsPlain};
ghost use Rattle.ix_pattern.specs.Rows.{tree, piece_at};
ghost use Rattle.ix_pikevm.specs.Aims.{HasRow};
ghost use Rattle.ix_pikevm.specs.Programs.{IsProgram, IsAsked};
ghost use Rattle.ix_pikevm.specs.Finders.{IsSameProgram};
ghost use Rattle.ix_pikevm.specs.Written.{Collecting, StillAsked, IsNamed, IsCollected, IsWritten};

use crate::code::{Instr, Lookahead, ask_at, instr_at};
use crate::compile::write_piece;
use ix_base::NoMemory;
use ix_pattern::{Node, Pattern};
use std::alloc::Global;

/// A pattern, written out: its code and where it begins; its lookaheads, and the code of their
/// insides.
pub struct Program {
    pub code: Vec<Instr>,
    pub start: usize,
    pub asks: Vec<Lookahead>,
    pub inner: Vec<Instr>,
}

/// It is written out, so that each place where one is let go is a call of it, which is proved once.
impl Drop for Program {
    fn drop(self) {
        let Program {
            code: _,
            start: _,
            asks: _,
            inner: _,
        } = self;
    }
}

impl Program {
    /// A copy of it.
    pub fn copy(&self) -> Result<Program, NoMemory>
        ensures { IfOk result (λ copy. IsSameProgram self.now copy) }
    {
        let code = self.code.to_vec(*self.code.allocator())?;
        let asks = self.asks.to_vec(*self.asks.allocator())?;
        let inner = self.inner.to_vec(*self.inner.allocator())?;
        Ok(Program {
            code,
            start: self.start,
            asks,
            inner,
        })
    }
}

/// Writes the whole of a pattern. The answer is where it begins.
fn write_whole(p: &Pattern, code: &mut Vec<Instr>) -> Result<usize, NoMemory>
    requires { code.old.items ≡ [] }
    ensures { IfOk result (λ start. IsProgram p.now.rows (tree p.now.rows) code.new.items start) }
{
    code.push(Instr::Match)?;
    let start = write_piece(p, p.root(), 0, code)?;
    Ok(start)
}

/// Whether one of them asks for the piece.
fn is_asked(asks: &[Lookahead], piece: usize) -> bool
    ensures { result ≡ true → IsAsked asks.now piece }
{
    for k in 0..asks.len() {
        if ask_at(asks, k).piece == piece {
            return true;
        }
    }
    false
}

/// The inside of a lookahead, and whether that is wanted.
fn inside_of(p: &Pattern, piece: usize) -> (usize, bool)
    requires below { piece < length p.now.rows }
    requires ahead { (inside : Piece) × (wanted : Bool) × (piece_at p.now.rows piece ≡ ahead inside wanted) }
    ensures is { piece_at p.now.rows piece ≡ ahead (piece_at p.now.rows result.0) result.1 }
    ensures below { result.0 < length p.now.rows }
{
    match p.node(piece) {
        Node::Ahead { inside, wanted } => (inside, wanted),
        _ => (piece, false),
    }
}

/// Writes out what a lookahead asks.
fn add_ask(
    p: &Pattern,
    piece: usize,
    asks: &mut Vec<Lookahead>,
    inner: &mut Vec<Instr>,
) -> Result<(), NoMemory>
    requires row { HasRow p.now.rows (Instr.Look piece 0) }
    requires collecting { Collecting p.now.rows asks.old.items inner.old.items }
    ensures collecting { OnOk result (Collecting p.now.rows asks.new.items inner.new.items) }
    ensures still { OnOk result (StillAsked asks.old.items asks.new.items) }
    ensures asked { OnOk result (IsAsked asks.new.items piece) }
{
    let (inside, wanted) = inside_of(p, piece);
    let start = write_piece(p, inside, 0, inner)?;
    asks.push(Lookahead {
        piece,
        wanted,
        start,
    })?;
    Ok(())
}

/// Writes out what an instruction asks, where it is a lookahead of which that was not done yet.
fn ask(
    p: &Pattern,
    instr: Instr,
    asks: &mut Vec<Lookahead>,
    inner: &mut Vec<Instr>,
) -> Result<(), NoMemory>
    requires row { HasRow p.now.rows instr }
    requires collecting { Collecting p.now.rows asks.old.items inner.old.items }
    ensures collecting { OnOk result (Collecting p.now.rows asks.new.items inner.new.items) }
    ensures still { OnOk result (StillAsked asks.old.items asks.new.items) }
    ensures asked { OnOk result (IsNamed instr asks.new.items) }
{
    match instr {
        Instr::Look { piece, .. } => {
            if is_asked(asks, piece) {
                return Ok(());
            }
            add_ask(p, piece, asks, inner)?;
            Ok(())
        }
        _ => Ok(()),
    }
}

/// Writes out what the lookaheads of the code ask.
fn ask_all(
    p: &Pattern,
    code: &[Instr],
    asks: &mut Vec<Lookahead>,
    inner: &mut Vec<Instr>,
) -> Result<(), NoMemory>
    requires rows { (pc : ℕ) (i : Instr) → slice_get code.now pc ≡ Some i → HasRow p.now.rows i }
    requires none { asks.old.items ≡ [] }
    requires one { inner.old.items ≡ Instr.Match ∷ [] }
    ensures { OnOk result (IsCollected p.now.rows code.now (length code.now) asks.new.items inner.new.items) }
{
    for pc in 0..code.len() {
        ask(p, instr_at(code, pc), asks, inner)?;
    }
    Ok(())
}

/// Writes a pattern out.
pub fn written(alloc: Global, p: &Pattern) -> Result<Program, NoMemory>
    ensures { IfOk result (λ r. IsWritten p.now.rows r) }
{
    let mut code = Vec::new(alloc);
    let start = write_whole(p, &mut code)?;
    let mut asks = Vec::new(alloc);
    let mut inner = Vec::new(alloc);
    inner.push(Instr::Match)?;
    ask_all(p, &code, &mut asks, &mut inner)?;
    Ok(Program {
        code,
        start,
        asks,
        inner,
    })
}
