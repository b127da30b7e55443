//! What stands at a gate.

ghost use Rattle.std.specs.Prelude.{◌≡◌, ◌<◌, ◌++◌, ℕ, List, length, take, min};
ghost use Rattle.ix_log.specs.Head.{IsHead, IsWithin};

/// What stands at a gate.
pub enum Head {
    /// The gate is not open: the list ends.
    End,
    /// The gate is open, and a body of so many bytes stands behind it, with at least one byte more.
    Body(u32),
    /// The gate is open, and no such body stands behind it.
    Cut,
}

/// What stands at a gate, by the first five bytes, of which n stand there, and by how many bytes
/// are left.
pub fn head_of(head: &[u8], n: usize, left: u64) -> Head
    requires { length head.now ≡ 5 }
    ensures within { IsWithin result left }
    ensures head { (rest end : List ℕ) → head.now ≡ take n rest ++ end → n ≡ min 5 (length rest) → left ≡ length rest → 0 < length rest →
        IsHead result rest }
{
    if n > 0 && head[0] != 1 {
        return Head::End;
    }
    if n < 5 {
        return Head::Cut;
    }
    let len = u32::from_be_bytes([head[1], head[2], head[3], head[4]]);
    if left <= 5 + len as u64 {
        return Head::Cut;
    }
    Head::Body(len)
}
