//! Sets of bytes.

ghost use Rattle.std.specs.Prelude.{◌≡◌, ◌+◌, ◌-◌, ◌<◌};
ghost use Rattle.ix_pattern.specs.Sets.{none, with_range, union, other_case, folded, complement, digits, words, spaces};

/// For each byte, whether it is in the set.
pub type ByteSet = [bool; 256];

/// The set without a byte.
#[tactic(auto, unfolding(crate::specs::Sets::none))]
pub fn none() -> ByteSet
    ensures { result ≡ none }
{
    [false; 256]
}

/// The set, and the bytes from low to high.
pub fn with_range(set: ByteSet, low: u8, high: u8) -> ByteSet
    ensures { result ≡ with_range low high set }
{
    let mut all = set;
    for (b, x) in all.iter_mut().enumerate() {
        *x = set[b] | (usize::from(low) <= b) & (b <= usize::from(high));
    }
    all
}

/// The bytes of both.
pub fn union(set: ByteSet, other: ByteSet) -> ByteSet
    ensures { result ≡ union set other }
{
    let mut all = set;
    for (b, x) in all.iter_mut().enumerate() {
        *x = set[b] | other[b];
    }
    all
}

/// All other bytes.
pub fn complement(set: ByteSet) -> ByteSet
    ensures { result ≡ complement set }
{
    let mut all = set;
    for (b, x) in all.iter_mut().enumerate() {
        *x = !set[b];
    }
    all
}

/// An ASCII letter in its other case. Any other number stays.
#[tactic(auto, unfolding(crate::specs::Sets::other_case))]
fn other_case(b: usize) -> usize
    requires { b < 256 }
    ensures value { result ≡ other_case b }
    ensures byte { result < 256 }
{
    match b {
        65..=90 => b + 32,
        97..=122 => b - 32,
        _ => b,
    }
}

/// Where the cases of letters are not told apart: the bytes that stand in the set in either case.
pub fn folded(fold: bool, set: ByteSet) -> ByteSet
    ensures { result ≡ folded fold set }
{
    let mut all = set;
    for (b, x) in all.iter_mut().enumerate() {
        *x = set[b] | fold & set[other_case(b)];
    }
    all
}

/// `0` to `9`.
#[tactic(auto, unfolding(crate::specs::Sets::digits))]
pub fn digits() -> ByteSet
    ensures { result ≡ digits }
{
    with_range(none(), b'0', b'9')
}

/// Letters, digits and `_`.
#[tactic(auto, unfolding(crate::specs::Sets::words))]
pub fn words() -> ByteSet
    ensures { result ≡ words }
{
    let letters = with_range(
        with_range(with_range(none(), b'0', b'9'), b'A', b'Z'),
        b'a',
        b'z',
    );
    with_range(letters, b'_', b'_')
}

/// White space.
#[tactic(auto, unfolding(crate::specs::Sets::spaces))]
pub fn spaces() -> ByteSet
    ensures { result ≡ spaces }
{
    with_range(with_range(none(), 9, 13), b' ', b' ')
}
