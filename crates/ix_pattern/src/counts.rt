//! Numbers and counts.

ghost use Rattle.std.specs.Prelude.{◌≡◌, ◌≤◌, ◌<◌, ◌^◌};
ghost use Rattle.std.specs.Option.{option_map};
ghost use Rattle.ix_pattern.specs.Tokens.{number, number_from, closing, upper_limit, limits_from, limits, in_order, count};

use crate::tokens::{Repeat, Times, Token};

/// A number of 1 to 4 digits, of which so many, with this value, have been read, and what is behind
/// it.
fn number_from(seen: u32, value: u32, bytes: &[u8]) -> Option<(u32, &[u8])>
    requires seen { seen ≤ 4 }
    requires value { value < 10 ^ seen }
    ensures { option_map (λ x. (x.0, x.1.now)) result ≡ number_from seen value bytes.now }
{
    match bytes {
        [b, behind @ ..] if b.is_ascii_digit() => {
            if seen == 4 {
                None
            } else {
                number_from(seen + 1, 10 * value + u32::from(*b - b'0'), behind)
            }
        }
        _ => {
            if seen == 0 {
                None
            } else {
                Some((value, bytes))
            }
        }
    }
}

/// A number of 1 to 4 digits, and what is behind it.
#[tactic(auto, unfolding(crate::specs::Tokens::number))]
pub fn number(bytes: &[u8]) -> Option<(u32, &[u8])>
    ensures { option_map (λ x. (x.0, x.1.now)) result ≡ number bytes.now }
{
    number_from(0, 0, bytes)
}

/// `}` behind both numbers.
#[tactic(auto, unfolding(crate::specs::Tokens::closing))]
fn closing(least: u32, most: u32, bytes: &[u8]) -> Option<(Times, &[u8])>
    ensures { option_map (λ x. (x.0, x.1.now)) result ≡ closing least most bytes.now }
{
    match bytes {
        [b'}', behind @ ..] => Some((Times::Limited { least, most }, behind)),
        _ => None,
    }
}

/// What is behind a number and `,`.
#[tactic(auto, unfolding(crate::specs::Tokens::upper_limit))]
fn upper_limit(least: u32, bytes: &[u8]) -> Option<(Times, &[u8])>
    ensures { option_map (λ x. (x.0, x.1.now)) result ≡ upper_limit least bytes.now }
{
    match bytes {
        [] => None,
        [b'}', behind @ ..] => Some((Times::Unlimited { least }, behind)),
        _ => {
            let (most, behind) = number(bytes)?;
            closing(least, most, behind)
        }
    }
}

/// What is behind `{` and a number.
#[tactic(auto, unfolding(crate::specs::Tokens::limits_from))]
fn limits_from(least: u32, bytes: &[u8]) -> Option<(Times, &[u8])>
    ensures { option_map (λ x. (x.0, x.1.now)) result ≡ limits_from least bytes.now }
{
    match bytes {
        [b'}', behind @ ..] => Some((Times::Limited { least, most: least }, behind)),
        [b',', behind @ ..] => upper_limit(least, behind),
        _ => None,
    }
}

/// The limits behind `{`, if they have one of the three forms.
#[tactic(auto, unfolding(crate::specs::Tokens::limits))]
pub fn limits(bytes: &[u8]) -> Option<(Times, &[u8])>
    ensures { option_map (λ x. (x.0, x.1.now)) result ≡ limits bytes.now }
{
    let (least, behind) = number(bytes)?;
    limits_from(least, behind)
}

/// Whether the first limit is not above the second.
pub fn in_order(times: Times) -> bool
    ensures { result ≡ in_order times }
{
    match times {
        Times::Maybe | Times::Unlimited { .. } => true,
        Times::Limited { least, most } => least <= most,
    }
}

/// A count, and the `?` behind it where there is one.
#[tactic(auto, unfolding(crate::specs::Tokens::count))]
pub fn count(times: Times, bytes: &[u8]) -> (Token, &[u8])
    ensures { let x = result in (x.0, x.1.now) ≡ count times bytes.now }
{
    match bytes {
        [b'?', behind @ ..] => (Token::Count(Repeat { times, lazy: true }), behind),
        _ => (Token::Count(Repeat { times, lazy: false }), bytes),
    }
}
