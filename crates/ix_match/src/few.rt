//! Sets of at most three bytes, which are searched for many bytes at a time.

ghost use Rattle.std.specs.Prelude.{◌≡◌, ℕ, ◌<◌, length, take_while, not};
ghost use Rattle.ix_pattern.specs.Piece.{in_set};
ghost use Rattle.ix_match.specs.Few.{is_one_of, Lists};

use memchr::{memchr, memchr2, memchr3};

/// The bytes of a set, where it has one, two or three.
#[derive(Clone, Copy)]
pub enum Few {
    One(u8),
    Two(u8, u8),
    Three(u8, u8, u8),
    /// It has none, or more than three.
    Other,
}

impl Few {
    /// Whether it is one of the bytes.
    fn has(self, byte: usize) -> bool
        ensures { result ≡ is_one_of self byte }
    {
        match self {
            Few::One(a) => byte == usize::from(a),
            Few::Two(a, b) => byte == usize::from(a) || byte == usize::from(b),
            Few::Three(a, b, c) => {
                byte == usize::from(a) || byte == usize::from(b) || byte == usize::from(c)
            }
            Few::Other => false,
        }
    }
}

/// The first bytes of a set, as if it had no others.
fn first_members(set: &[bool; 256]) -> Few {
    let mut members = (0..=255u8).filter(|byte| set[*byte as usize]);
    match (
        members.next(),
        members.next(),
        members.next(),
        members.next(),
    ) {
        (Some(a), None, _, _) => Few::One(a),
        (Some(a), Some(b), None, _) => Few::Two(a, b),
        (Some(a), Some(b), Some(c), None) => Few::Three(a, b, c),
        _ => Few::Other,
    }
}

/// The bytes of a set, where it has one, two or three.
pub fn few_of(set: &[bool; 256]) -> Few
    ensures { Lists result set.now }
{
    let few = first_members(set);
    for byte in 0..256 {
        if set[byte] != few.has(byte) {
            return Few::Other;
        }
    }
    few
}

/// Whether the byte is in the set.
pub fn contains(set: &[bool; 256], byte: u8) -> bool
    ensures { result ≡ in_set set.now byte }
{
    set[byte as usize]
}

/// How many of the bytes stand before the first one of the set.
pub fn passed_over(set: &[bool; 256], few: Few, bytes: &[u8]) -> usize
    requires { Lists few set.now }
    ensures { result ≡ length (take_while (λ b. not (in_set set.now b)) bytes.now) }
{
    match few {
        Few::One(a) => memchr(a, bytes).unwrap_or(bytes.len()),
        Few::Two(a, b) => memchr2(a, b, bytes).unwrap_or(bytes.len()),
        Few::Three(a, b, c) => memchr3(a, b, c, bytes).unwrap_or(bytes.len()),
        Few::Other => bytes.iter().take_while(|b| !contains(set, **b)).count(),
    }
}
