//! Numbers at the front of a text, and single bytes.

ghost use Rattle.std.specs.Prelude.{◌≡◌, ◌<◌, ◌≤◌, ◌^◌, IfSome};
ghost use Rattle.ix_dates.specs.Text as Text;
ghost use Rattle.ix_dates.specs.Text.{read_view, rest_view};

/// The text behind this byte.
#[tactic(auto, unfolding(crate::specs::Text::behind))]
pub(crate) fn behind(byte: u8, s: &[u8]) -> Option<&[u8]>
    ensures { rest_view result ≡ Text.behind byte s.now }
{
    match s {
        [first, rest @ ..] if *first == byte => Some(rest),
        _ => None,
    }
}

/// The text behind its white space.
#[tactic(auto, unfolding(crate::specs::Text::skip_space))]
pub(crate) fn skip_space(s: &[u8]) -> &[u8]
    ensures { result.now ≡ Text.skip_space s.now }
{
    let mut rest = s;
    while let [b'\t'..=b'\r' | b' ', next @ ..] = rest {
        rest = next;
    }
    rest
}

/// The number of the digits at the front, as many as there are up to `most`, how many they are, and
/// the text behind them.
#[tactic(auto, using(crate::proofs::NumberLemmas::one_more, crate::proofs::NumberLemmas::fits), unfolding(crate::specs::Text::digits))]
fn digits(most: u8, s: &[u8]) -> (u64, u8, &[u8])
    requires { most ≤ 11 }
    ensures value { (result.0, result.1, result.2.now) ≡ Text.digits most 0 0 s.now }
    ensures small { result.0 < 10 ^ result.1 }
    ensures few { result.1 ≤ most }
{
    let (mut value, mut count, mut rest) = (0u64, 0u8, s);
    while let [digit @ b'0'..=b'9', next @ ..] = rest {
        if count == most {
            break;
        }
        value = value * 10 + u64::from(*digit - b'0');
        count += 1;
        rest = next;
    }
    (value, count, rest)
}

/// A number of at least `least` and at most `most` digits, as many as there are.
#[tactic(auto, using(crate::proofs::NumberLemmas::power_grows), unfolding(crate::specs::Text::number))]
pub(crate) fn number(least: u8, most: u8, s: &[u8]) -> Option<(u64, &[u8])>
    requires { most ≤ 11 }
    ensures value { read_view result ≡ Text.number least most s.now }
    ensures small { IfSome result (λ p. p.0 < 10 ^ most) }
{
    let (value, count, s) = digits(most, s);
    if count < least {
        return None;
    }
    Some((value, s))
}

/// A number of at least `least` and at most `most` digits that lies from `low` to `high`.
#[tactic(auto, unfolding(crate::specs::Text::within))]
pub(crate) fn within(least: u8, most: u8, low: u16, high: u16, s: &[u8]) -> Option<(u16, &[u8])>
    requires { most ≤ 11 }
    ensures value { read_view result ≡ Text.within least most low high s.now }
    ensures bound { IfSome result (λ p. p.0 ≤ high) }
{
    let (number, s) = number(least, most, s)?;
    if number < u64::from(low) || number > u64::from(high) {
        return None;
    }
    Some((number as u16, s))
}

/// Ten to this power.
fn power_of_ten(exponent: u8) -> u64
    requires { exponent ≤ 9 }
    ensures { result ≡ 10 ^ exponent }
{
    match exponent {
        0 => 1,
        1 => 10,
        2 => 100,
        3 => 1000,
        4 => 10_000,
        5 => 100_000,
        6 => 1_000_000,
        7 => 10_000_000,
        8 => 100_000_000,
        _ => 1_000_000_000,
    }
}

/// A fraction of a second of at least `least` and at most `most` digits, in microseconds.
#[tactic(auto, using(crate::proofs::NumberLemmas::filled_up), unfolding(crate::specs::Text::fraction))]
pub(crate) fn fraction(least: u8, most: u8, s: &[u8]) -> Option<(u32, &[u8])>
    requires { most ≤ 9 }
    ensures { read_view result ≡ Text.fraction least most s.now }
{
    let (value, count, s) = digits(most, s);
    if count < least {
        return None;
    }
    let nanos = value * power_of_ten(9 - count);
    Some(((nanos / 1000) as u32, s))
}
