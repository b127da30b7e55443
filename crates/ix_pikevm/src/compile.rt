//! Writing a pattern out to instructions.

ghost use Rattle.std.specs.Prelude.{◌≡◌, ℕ, ◌+◌, ◌<◌, ◌≤◌, ◌∷◌, ◌++◌, [], length, IfOk, OnOk, Option, Bool};
ghost use Rattle.ix_pattern.specs.Piece.{Piece, seq, either, least_length, IsSound, IsPlain};
ghost use Rattle.ix_pikevm.specs.Looks.{HasNoLook};
ghost use Rattle.ix_pattern.specs.Rows.{piece_at};
ghost use Rattle.ix_pikevm.specs.Aims.{Writes, pre, pre_star, pre_maybe, pre_turns, choice_of};

use crate::chain::chain_of;
use crate::code::Instr;
use ix_base::NoMemory;
use ix_pattern::{Node, Pattern};

/// Puts an instruction behind the others. The answer is its number.
fn emit(code: &mut Vec<Instr>, instr: Instr) -> Result<usize, NoMemory>
    ensures code { OnOk result (code.new.items ≡ code.old.items ++ instr ∷ []) }
    ensures pc { IfOk result (λ pc. pc ≡ length code.old.items) }
{
    let pc = code.len();
    code.push(instr)?;
    Ok(pc)
}

/// The choice between going on and stopping.
fn choice(lazy: bool, more: usize, stop: usize) -> Instr
    ensures { result ≡ choice_of lazy more stop }
{
    if lazy {
        Instr::Split {
            first: stop,
            other: more,
        }
    } else {
        Instr::Split {
            first: more,
            other: stop,
        }
    }
}

/// Writes a piece out, before what comes next. The answer is where it begins.
#[cycle(writing)]
pub fn write_piece(
    p: &Pattern,
    piece: usize,
    next: usize,
    code: &mut Vec<Instr>,
) -> Result<usize, NoMemory>
    requires piece { piece < length p.now.rows }
    requires sound { IsSound (piece_at p.now.rows piece) }
    requires next { next < length code.old.items }
    ensures writes { IfOk result (λ begin. Writes p.now.rows (pre (piece_at p.now.rows piece)) next code.old.items code.new.items begin) }
    ensures within { IfOk result (λ begin. begin < length code.new.items) }
    ensures grown { OnOk result (length code.old.items ≤ length code.new.items) }
    ensures plain { OnOk result (IsPlain (piece_at p.now.rows piece) → HasNoLook code.old.items → HasNoLook code.new.items) }
{
    match p.node(piece) {
        Node::Nothing => Ok(next),
        Node::Bytes => emit(code, Instr::Byte { set: piece, next }),
        Node::Start { lines } => emit(code, Instr::TextStart { lines, next }),
        Node::Finish { lines } => emit(code, Instr::TextEnd { lines, next }),
        Node::Word => emit(code, Instr::Word { next }),
        Node::Seq { first, rest } => write_sequence(p, first, rest, next, code),
        Node::Either { first, other } => write_alternatives(p, first, other, next, code),
        Node::Count {
            inside,
            least,
            most,
            lazy,
        } => match most {
            None => {
                let further = write_star(p, inside, lazy, next, code)?;
                write_turns(p, inside, least, further, code)
            }
            Some(most) => {
                let further = write_maybe(p, inside, most.saturating_sub(least), lazy, next, code)?;
                write_turns(p, inside, least, further, code)
            }
        },
        Node::Group { number, inside } => {
            let end = emit(code, Instr::Finish { number, next })?;
            let start = write_piece(p, inside, end, code)?;
            emit(code, Instr::Begin { next: start })
        }
        Node::Ahead {
            inside: _inside,
            wanted: _wanted,
        } => emit(code, Instr::Look { piece, next }),
    }
}

/// One piece behind the other, the last one written first.
#[cycle(writing)]
fn write_sequence(
    p: &Pattern,
    first: usize,
    rest: usize,
    next: usize,
    code: &mut Vec<Instr>,
) -> Result<usize, NoMemory>
    requires first { (first < length p.now.rows) × IsSound (piece_at p.now.rows first) }
    requires rest { (rest < length p.now.rows) × IsSound (piece_at p.now.rows rest) }
    requires next { next < length code.old.items }
    ensures writes { IfOk result (λ begin. Writes p.now.rows (pre (seq (piece_at p.now.rows first) (piece_at p.now.rows rest))) next
        code.old.items code.new.items begin) }
    ensures within { IfOk result (λ begin. begin < length code.new.items) }
    ensures grown { OnOk result (length code.old.items ≤ length code.new.items) }
    ensures plain { OnOk result (IsPlain (seq (piece_at p.now.rows first) (piece_at p.now.rows rest)) → HasNoLook code.old.items →
        HasNoLook code.new.items) }
{
    let mut parts = Vec::new(*code.allocator());
    let last = chain_of(p, true, first, rest, &mut parts)?;
    let mut now = write_piece(p, last, next, code)?;
    while let Some(part) = parts.pop() {
        now = write_piece(p, part, now, code)?;
    }
    Ok(now)
}

/// One piece or the other, the last one written first.
#[cycle(writing)]
fn write_alternatives(
    p: &Pattern,
    first: usize,
    rest: usize,
    next: usize,
    code: &mut Vec<Instr>,
) -> Result<usize, NoMemory>
    requires first { (first < length p.now.rows) × IsSound (piece_at p.now.rows first) }
    requires rest { (rest < length p.now.rows) × IsSound (piece_at p.now.rows rest) }
    requires next { next < length code.old.items }
    ensures writes { IfOk result (λ begin. Writes p.now.rows (pre (either (piece_at p.now.rows first) (piece_at p.now.rows rest))) next
        code.old.items code.new.items begin) }
    ensures within { IfOk result (λ begin. begin < length code.new.items) }
    ensures grown { OnOk result (length code.old.items ≤ length code.new.items) }
    ensures plain { OnOk result (IsPlain (either (piece_at p.now.rows first) (piece_at p.now.rows rest)) → HasNoLook code.old.items →
        HasNoLook code.new.items) }
{
    let mut parts = Vec::new(*code.allocator());
    let last = chain_of(p, false, first, rest, &mut parts)?;
    let mut now = write_piece(p, last, next, code)?;
    while let Some(part) = parts.pop() {
        let turn = write_piece(p, part, next, code)?;
        now = emit(
            code,
            Instr::Split {
                first: turn,
                other: now,
            },
        )?;
    }
    Ok(now)
}

/// Any number of turns.
#[cycle(writing)]
fn write_star(
    p: &Pattern,
    inside: usize,
    lazy: bool,
    next: usize,
    code: &mut Vec<Instr>,
) -> Result<usize, NoMemory>
    requires piece { inside < length p.now.rows }
    requires sound { IsSound (piece_at p.now.rows inside) }
    requires takes { 0 < least_length (piece_at p.now.rows inside) }
    requires next { next < length code.old.items }
    ensures writes { IfOk result (λ begin. Writes p.now.rows (pre_star (piece_at p.now.rows inside) lazy) next code.old.items code.new.items
        begin) }
    ensures within { IfOk result (λ begin. begin < length code.new.items) }
    ensures grown { OnOk result (length code.old.items ≤ length code.new.items) }
    ensures plain { OnOk result (IsPlain (piece_at p.now.rows inside) → HasNoLook code.old.items → HasNoLook code.new.items) }
{
    let pc = emit(code, Instr::Jump { next })?;
    let turn = write_piece(p, inside, pc, code)?;
    code[pc] = choice(lazy, turn, next);
    Ok(pc)
}

/// At most so many turns.
#[cycle(writing)]
fn write_maybe(
    p: &Pattern,
    inside: usize,
    times: u32,
    lazy: bool,
    next: usize,
    code: &mut Vec<Instr>,
) -> Result<usize, NoMemory>
    requires piece { inside < length p.now.rows }
    requires sound { IsSound (piece_at p.now.rows inside) }
    requires next { next < length code.old.items }
    ensures writes { IfOk result (λ begin. Writes p.now.rows (pre_maybe (piece_at p.now.rows inside) lazy times) next code.old.items
        code.new.items begin) }
    ensures within { IfOk result (λ begin. begin < length code.new.items) }
    ensures grown { OnOk result (length code.old.items ≤ length code.new.items) }
    ensures plain { OnOk result (IsPlain (piece_at p.now.rows inside) → HasNoLook code.old.items → HasNoLook code.new.items) }
{
    let mut now = next;
    for _i in 0..times {
        let turn = write_piece(p, inside, now, code)?;
        now = emit(code, choice(lazy, turn, next))?;
    }
    Ok(now)
}

/// So many turns.
#[cycle(writing)]
fn write_turns(
    p: &Pattern,
    inside: usize,
    times: u32,
    next: usize,
    code: &mut Vec<Instr>,
) -> Result<usize, NoMemory>
    requires piece { inside < length p.now.rows }
    requires sound { IsSound (piece_at p.now.rows inside) }
    requires next { next < length code.old.items }
    ensures writes { IfOk result (λ begin. Writes p.now.rows (pre_turns (piece_at p.now.rows inside) times) next code.old.items
        code.new.items begin) }
    ensures within { IfOk result (λ begin. begin < length code.new.items) }
    ensures grown { OnOk result (length code.old.items ≤ length code.new.items) }
    ensures plain { OnOk result (IsPlain (piece_at p.now.rows inside) → HasNoLook code.old.items → HasNoLook code.new.items) }
{
    let mut now = next;
    for _i in 0..times {
        now = write_piece(p, inside, now, code)?;
    }
    Ok(now)
}
