//! The length of a body that a head declares.

ghost use Rattle.std.specs.Prelude.{◌≡◌, ◌≤◌, ◌<◌, ◌^◌, length, IfSome};
ghost use Rattle.ix_heads.specs.Lengths.{more_digits, ten_digits, declared_length};

use crate::lines::{Found, Head};

/// What a head says of the length of its body.
#[derive(Clone, Copy, Debug, PartialEq, Eq)]
pub enum Declared {
    /// Several lines say it, or one that is not 1 to 10 digits.
    Wrong,
    /// No line says it.
    Missing,
    /// So many bytes.
    Bytes(u64),
}

/// What 1 to 10 decimal digits come to; `None` where another byte stands among them.
fn number_of(text: &[u8]) -> Option<u64>
    requires { length text.now ≤ 10 }
    ensures value { result ≡ more_digits 0 text.now }
    ensures bound { IfSome result (λ n. n < 10 ^ 10) }
{
    let mut number: u64 = 0;
    for byte in text {
        if !byte.is_ascii_digit() {
            return None;
        }
        number = number * 10 + u64::from(*byte - b'0');
    }
    Some(number)
}

/// A number of 1 to 10 digits.
fn ten_digits(text: &[u8]) -> Option<u64>
    ensures { result ≡ ten_digits text.now }
{
    if text.is_empty() || text.len() > 10 {
        return None;
    }
    number_of(text)
}

/// The length that the header lines declare.
pub fn declared_length(head: &Head<'_>) -> Declared
    ensures { result ≡ declared_length head.now.lines }
{
    match head.line(b"content-length") {
        Found::Absent => Declared::Missing,
        Found::Many => Declared::Wrong,
        Found::One(value) => match ten_digits(value) {
            Some(length) => Declared::Bytes(length),
            None => Declared::Wrong,
        },
    }
}
