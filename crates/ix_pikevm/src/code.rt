//! The instructions that a pattern is written out to.

ghost use Rattle.std.specs.Prelude.{◌≡◌, ◌<◌, Some, length, slice_get};

/// One instruction. The numbers in it are those of other instructions.
#[derive(Clone, Copy)]
pub enum Instr {
    /// A way ends here.
    Match,
    /// One byte of the set with this number.
    Byte { set: usize, next: usize },
    /// One way or the other. The first is preferred.
    Split { first: usize, other: usize },
    Jump { next: usize },
    /// A group begins.
    Begin { next: usize },
    /// The group that began last ends.
    Finish { number: usize, next: usize },
    /// `^`, `$` and `\b`.
    TextStart { lines: bool, next: usize },
    TextEnd { lines: bool, next: usize },
    Word { next: usize },
    /// The lookahead that the piece with this number is.
    Look { piece: usize, next: usize },
}

/// A lookahead: the number of its piece, whether what it asks is wanted, and where that begins in
/// code of its own.
#[derive(Clone, Copy)]
pub struct Lookahead {
    pub piece: usize,
    pub wanted: bool,
    pub start: usize,
}

/// The lookahead with this number.
pub fn ask_at(asks: &[Lookahead], k: usize) -> Lookahead
    requires { k < length asks.now }
    ensures { slice_get asks.now k ≡ Some result }
{
    asks[k]
}

/// The instruction with this number.
pub fn instr_at(code: &[Instr], pc: usize) -> Instr
    requires { pc < length code.now }
    ensures { slice_get code.now pc ≡ Some result }
{
    code[pc]
}
