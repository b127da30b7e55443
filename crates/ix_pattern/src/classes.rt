//! Escapes and classes.

ghost use Rattle.std.specs.Prelude.{◌≡◌};
ghost use Rattle.std.specs.Option.{option_map};
ghost use Rattle.ix_pattern.specs.Tokens.{hex_digit, hex_byte, escape_of, escape_at, begins_name, single, range_end, range, behind_byte};
ghost use Rattle.ix_pattern.specs.Tokens.{member_from, member, turn, members, class_set, class};

use crate::sets::{ByteSet, complement, digits, folded, none, spaces, union, with_range, words};
use crate::tokens::{Leaf, Token};

/// What an escape stands for.
#[derive(Clone, Copy)]
pub enum Escape {
    Byte(u8),
    Set(ByteSet),
    Word,
}

fn hex_digit(b: u8) -> Option<u8>
    ensures { result ≡ hex_digit b }
{
    match b {
        b'0'..=b'9' => Some(b - 48),
        b'A'..=b'F' => Some(b - 55),
        b'a'..=b'f' => Some(b - 87),
        _ => None,
    }
}

/// The two digits behind `\x`.
#[tactic(auto, unfolding(crate::specs::Tokens::hex_byte))]
fn hex_byte(bytes: &[u8]) -> Option<(Escape, &[u8])>
    ensures { option_map (λ x. (x.0, x.1.now)) result ≡ hex_byte bytes.now }
{
    match bytes {
        [a, b, behind @ ..] => {
            let high = hex_digit(*a)?;
            let low = hex_digit(*b)?;
            Some((Escape::Byte(16 * high + low), behind))
        }
        _ => None,
    }
}

/// The escape of one byte, other than `x`.
fn escape_of(b: u8) -> Option<Escape>
    ensures { result ≡ escape_of b }
{
    match b {
        b'd' => Some(Escape::Set(digits())),
        b'D' => Some(Escape::Set(complement(digits()))),
        b'w' => Some(Escape::Set(words())),
        b'W' => Some(Escape::Set(complement(words()))),
        b's' => Some(Escape::Set(spaces())),
        b'S' => Some(Escape::Set(complement(spaces()))),
        b'b' => Some(Escape::Word),
        b'r' => Some(Escape::Byte(13)),
        b'n' => Some(Escape::Byte(10)),
        b't' => Some(Escape::Byte(9)),
        b'f' => Some(Escape::Byte(12)),
        b'0'..=b'9' | b'A'..=b'Z' | b'a'..=b'z' => None,
        _ => Some(Escape::Byte(b)),
    }
}

/// The escape behind `\`.
#[tactic(auto, unfolding(crate::specs::Tokens::escape_at))]
pub fn escape_at(bytes: &[u8]) -> Option<(Escape, &[u8])>
    ensures { option_map (λ x. (x.0, x.1.now)) result ≡ escape_at bytes.now }
{
    match bytes {
        [] => None,
        [b'x', behind @ ..] => hex_byte(behind),
        [b, behind @ ..] => {
            let escape = escape_of(*b)?;
            Some((escape, behind))
        }
    }
}

/// Whether the byte and the next one are `[:`.
fn begins_name(b: u8, behind: &[u8]) -> bool
    ensures { result ≡ begins_name b behind.now }
{
    match behind {
        [c, ..] => b == b'[' && *c == b':',
        [] => false,
    }
}

/// A single byte of a class, or an escape.
#[tactic(auto, unfolding(crate::specs::Tokens::single))]
fn single(bytes: &[u8]) -> Option<(Escape, &[u8])>
    ensures { option_map (λ x. (x.0, x.1.now)) result ≡ single bytes.now }
{
    match bytes {
        [] => None,
        [b'\\', behind @ ..] => escape_at(behind),
        [b, behind @ ..] => {
            if begins_name(*b, behind) {
                None
            } else {
                Some((Escape::Byte(*b), behind))
            }
        }
    }
}

/// What is behind a `-` that makes a range: one that is not the last byte of its class.
#[tactic(auto, unfolding(crate::specs::Tokens::range_end))]
fn range_end(bytes: &[u8]) -> Option<&[u8]>
    ensures { option_map (λ x. x.now) result ≡ range_end bytes.now }
{
    match bytes {
        [a, behind @ ..] => match behind {
            [b, ..] if *a == b'-' && *b != b']' => Some(behind),
            _ => None,
        },
        [] => None,
    }
}

/// The set with a range, up to a single byte that is not below the first.
#[tactic(auto, unfolding(crate::specs::Tokens::range))]
fn range(set: ByteSet, low: u8, high: Escape, behind: &[u8]) -> Option<(ByteSet, &[u8])>
    ensures { option_map (λ x. (x.0, x.1.now)) result ≡ range set low (high, behind.now) }
{
    match high {
        Escape::Byte(high) if low <= high => Some((with_range(set, low, high), behind)),
        _ => None,
    }
}

/// The set with the member that begins with a single byte.
#[tactic(auto, unfolding(crate::specs::Tokens::behind_byte))]
fn behind_byte(set: ByteSet, low: u8, bytes: &[u8]) -> Option<(ByteSet, &[u8])>
    ensures { option_map (λ x. (x.0, x.1.now)) result ≡ behind_byte set low bytes.now (range_end bytes.now) }
{
    match range_end(bytes) {
        None => Some((with_range(set, low, low), bytes)),
        Some(behind) => {
            let (high, behind) = single(behind)?;
            range(set, low, high, behind)
        }
    }
}

/// The set with the member that begins so.
#[tactic(auto, unfolding(crate::specs::Tokens::member_from))]
fn member_from(set: ByteSet, first: Escape, behind: &[u8]) -> Option<(ByteSet, &[u8])>
    ensures { option_map (λ x. (x.0, x.1.now)) result ≡ member_from set (first, behind.now) }
{
    match first {
        Escape::Byte(low) => behind_byte(set, low, behind),
        Escape::Set(other) => Some((union(set, other), behind)),
        Escape::Word => None,
    }
}

/// The set with one member of a class.
#[tactic(auto, unfolding(crate::specs::Tokens::member))]
fn member(set: ByteSet, bytes: &[u8]) -> Option<(ByteSet, &[u8])>
    ensures { option_map (λ x. (x.0, x.1.now)) result ≡ member set bytes.now }
{
    let (first, behind) = single(bytes)?;
    member_from(set, first, behind)
}

/// The end of a class (true), or one more member.
#[tactic(auto, unfolding(crate::specs::Tokens::turn))]
fn turn(set: ByteSet, bytes: &[u8]) -> Option<(bool, ByteSet, &[u8])>
    ensures { option_map (λ x. (x.0, x.1, x.2.now)) result ≡ turn set bytes.now }
{
    match bytes {
        [] => None,
        [b']', behind @ ..] => Some((true, set, behind)),
        _ => {
            let (more, behind) = member(set, bytes)?;
            Some((false, more, behind))
        }
    }
}

/// The members of a class up to `]`, of which there are at most so many.
#[tactic(auto, using(crate::proofs::LexLemmas::members_turn, crate::proofs::LexLemmas::members_done))]
fn members(most: usize, set: ByteSet, bytes: &[u8]) -> Option<(ByteSet, &[u8])>
    ensures { option_map (λ x. (x.0, x.1.now)) result ≡ members most set bytes.now }
{
    let mut set = set;
    let mut rest = bytes;
    for _ in 0..most {
        let (ended, more, behind) = turn(set, rest)?;
        if ended {
            return Some((more, behind));
        }
        set = more;
        rest = behind;
    }
    None
}

/// What is behind `[` or `[^`: one member, which may be `]`, and the others.
#[tactic(auto, unfolding(crate::specs::Tokens::class_set))]
fn class_set(bytes: &[u8]) -> Option<(ByteSet, &[u8])>
    ensures { option_map (λ x. (x.0, x.1.now)) result ≡ class_set bytes.now }
{
    let (set, behind) = member(none(), bytes)?;
    members(bytes.len(), set, behind)
}

/// The class behind `[`.
#[tactic(auto, unfolding(crate::specs::Tokens::class))]
pub fn class(fold: bool, bytes: &[u8]) -> Option<(Token, &[u8])>
    ensures { option_map (λ x. (x.0, x.1.now)) result ≡ class fold bytes.now }
{
    match bytes {
        [] => None,
        [b'^', behind @ ..] => {
            let (set, behind) = class_set(behind)?;
            Some((
                Token::Leaf(Leaf::Bytes(complement(folded(fold, set)))),
                behind,
            ))
        }
        _ => {
            let (set, behind) = class_set(bytes)?;
            Some((Token::Leaf(Leaf::Bytes(folded(fold, set))), behind))
        }
    }
}
