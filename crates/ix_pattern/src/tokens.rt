//! What a pattern's text is made of.

use crate::sets::ByteSet;

/// What the modifiers before a pattern set.
#[derive(Clone, Copy)]
pub struct Flags {
    /// `i`: the cases of letters are not told apart.
    pub fold: bool,
    /// `m`: `^` and `$` stand at each line.
    pub lines: bool,
    /// `s`: `.` takes a newline too.
    pub all: bool,
}

/// A piece that has no pieces inside.
#[derive(Clone, Copy)]
pub enum Leaf {
    Bytes(ByteSet),
    Start { lines: bool },
    Finish { lines: bool },
    Word,
}

/// What an opening parenthesis begins.
#[derive(Clone, Copy)]
pub enum Opening {
    /// `(`: a capturing group.
    Capture,
    /// `(?:`.
    Plain,
    /// `(?=` where `wanted` is true, `(?!` otherwise.
    Ahead { wanted: bool },
}

/// How often a piece comes.
#[derive(Clone, Copy)]
pub enum Times {
    /// `?`.
    Maybe,
    /// `{m}` and `{m,n}`.
    Limited { least: u32, most: u32 },
    /// `*`, `+` and `{m,}`.
    Unlimited { least: u32 },
}

/// A count behind a piece.
#[derive(Clone, Copy)]
pub struct Repeat {
    pub times: Times,
    /// Fewer turns are preferred.
    pub lazy: bool,
}

/// One token of a pattern's text.
#[derive(Clone, Copy)]
pub enum Token {
    Leaf(Leaf),
    Open(Opening),
    Close,
    Bar,
    Count(Repeat),
}
