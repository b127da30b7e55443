//! What is still to be tried.

/// A way that goes on: its instruction, the trail of what it has come through, and the place of the
/// text at which it stands.
#[derive(Clone, Copy)]
pub struct Frame {
    pub pc: usize,
    pub trail: usize,
    pub place: usize,
}

/// What becomes of a way at its instruction.
#[derive(Clone, Copy)]
pub enum Turn {
    /// It goes on.
    On(Frame),
    /// It goes on as two, the first preferred.
    Fork { first: Frame, other: Frame },
    /// It comes to nothing.
    Back,
    /// It ends here.
    End,
    /// It depends on bytes that have not come.
    Edge,
}
