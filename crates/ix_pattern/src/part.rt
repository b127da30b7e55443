//! What the reader keeps of a piece.

ghost use Rattle.std.specs.Prelude.{◌≤◌};

/// What is known of a piece.
#[derive(Clone, Copy)]
pub struct Part {
    /// Its number.
    pub piece: usize,
    /// Its weight, or one above the limit.
    pub weight: u64,
    /// It takes at least one byte.
    pub takes: bool,
    /// A piece that may take no byte repeats without a limit in it.
    pub repeats_empty: bool,
    ghost light: { weight ≤ 200001 },
}
