//! The modifiers at the front of a pattern.

ghost use Rattle.std.specs.Prelude.{◌≡◌};
ghost use Rattle.std.specs.Option.{option_map};
ghost use Rattle.ix_pattern.specs.Tokens.{with_letter, letters, modifier, modifiers};

use crate::tokens::Flags;

fn with_letter(flags: Flags, b: u8) -> Option<Flags>
    ensures { result ≡ with_letter flags b }
{
    match b {
        b'i' => Some(Flags {
            fold: true,
            ..flags
        }),
        b'm' => Some(Flags {
            lines: true,
            ..flags
        }),
        b's' => Some(Flags { all: true, ..flags }),
        _ => None,
    }
}

/// Letters up to `)`.
fn letters(flags: Flags, bytes: &[u8]) -> Option<(Flags, &[u8])>
    ensures { option_map (λ x. (x.0, x.1.now)) result ≡ letters flags bytes.now }
{
    let mut flags = flags;
    let mut rest = bytes;
    while let [b, behind @ ..] = rest {
        if *b == b')' {
            return Some((flags, behind));
        }
        flags = with_letter(flags, *b)?;
        rest = behind;
    }
    None
}

/// `(?`, one or more letters and `)`.
#[tactic(auto, unfolding(crate::specs::Tokens::modifier))]
fn modifier(flags: Flags, bytes: &[u8]) -> Option<(Flags, &[u8])>
    ensures { option_map (λ x. (x.0, x.1.now)) result ≡ modifier flags bytes.now }
{
    match bytes {
        [b'(', b'?', letter, behind @ ..] => {
            let more = with_letter(flags, *letter)?;
            letters(more, behind)
        }
        _ => None,
    }
}

/// All modifiers at the front, of which there are at most so many, and what is behind them.
#[tactic(auto, using(crate::proofs::LexLemmas::modifiers_turn, crate::proofs::LexLemmas::modifiers_done))]
pub fn modifiers(most: usize, flags: Flags, bytes: &[u8]) -> (Flags, &[u8])
    ensures { let x = result in (x.0, x.1.now) ≡ modifiers most flags bytes.now }
{
    let mut flags = flags;
    let mut rest = bytes;
    for _ in 0..most {
        match modifier(flags, rest) {
            None => break,
            Some((more, behind)) => {
                flags = more;
                rest = behind;
            }
        }
    }
    (flags, rest)
}
