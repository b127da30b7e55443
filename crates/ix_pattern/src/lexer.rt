//! The tokens of a pattern's text.

ghost use Rattle.std.specs.Prelude.{◌≡◌, IfOk};
ghost use Rattle.std.specs.Option.{option_map};
ghost use Rattle.ix_pattern.specs.Tokens.{special_opening, opening, brace, escaped, escape_token, literal, dot, token_at, token_front};
ghost use Rattle.ix_pattern.specs.Tokens.{tokens, tokens_of};

use crate::classes::{Escape, class, escape_at};
use crate::counts::{count, in_order, limits};
use crate::modifiers::modifiers;
use crate::sets::{complement, folded, none, with_range};
use crate::tokens::{Flags, Leaf, Opening, Times, Token};
use std::alloc::{AllocError, Global};

/// What is behind `(?`.
#[tactic(auto, unfolding(crate::specs::Tokens::special_opening))]
fn special_opening(bytes: &[u8]) -> Option<(Token, &[u8])>
    ensures { option_map (λ x. (x.0, x.1.now)) result ≡ special_opening bytes.now }
{
    match bytes {
        [b':', behind @ ..] => Some((Token::Open(Opening::Plain), behind)),
        [b'=', behind @ ..] => Some((Token::Open(Opening::Ahead { wanted: true }), behind)),
        [b'!', behind @ ..] => Some((Token::Open(Opening::Ahead { wanted: false }), behind)),
        _ => None,
    }
}

/// What is behind `(`.
#[tactic(auto, unfolding(crate::specs::Tokens::opening))]
fn opening(bytes: &[u8]) -> Option<(Token, &[u8])>
    ensures { option_map (λ x. (x.0, x.1.now)) result ≡ opening bytes.now }
{
    match bytes {
        [b'?', behind @ ..] => special_opening(behind),
        _ => Some((Token::Open(Opening::Capture), bytes)),
    }
}

/// A byte that stands for itself.
fn literal(fold: bool, b: u8) -> Token
    ensures { result ≡ literal fold b }
{
    Token::Leaf(Leaf::Bytes(folded(fold, with_range(none(), b, b))))
}

/// What is behind `{`: a count, or a literal byte.
#[tactic(auto, unfolding(crate::specs::Tokens::brace, crate::specs::Tokens::brace_from))]
fn brace(fold: bool, bytes: &[u8]) -> Option<(Token, &[u8])>
    ensures { option_map (λ x. (x.0, x.1.now)) result ≡ brace fold bytes.now }
{
    match limits(bytes) {
        None => Some((literal(fold, b'{'), bytes)),
        Some((times, behind)) => {
            if in_order(times) {
                Some(count(times, behind))
            } else {
                None
            }
        }
    }
}

fn escape_token(fold: bool, escape: Escape) -> Token
    ensures { result ≡ escape_token fold escape }
{
    match escape {
        Escape::Byte(b) => literal(fold, b),
        Escape::Set(set) => Token::Leaf(Leaf::Bytes(set)),
        Escape::Word => Token::Leaf(Leaf::Word),
    }
}

/// What is behind `\`.
#[tactic(auto, unfolding(crate::specs::Tokens::escaped))]
fn escaped(fold: bool, bytes: &[u8]) -> Option<(Token, &[u8])>
    ensures { option_map (λ x. (x.0, x.1.now)) result ≡ escaped fold bytes.now }
{
    let (escape, behind) = escape_at(bytes)?;
    Some((escape_token(fold, escape), behind))
}

/// `.`
fn dot(all: bool) -> Token
    ensures { result ≡ dot all }
{
    let left_out = if all {
        none()
    } else {
        with_range(none(), 10, 10)
    };
    Token::Leaf(Leaf::Bytes(complement(left_out)))
}

/// The token that begins with this byte, and what is behind it.
#[tactic(auto, unfolding(crate::specs::Tokens::token_at))]
fn token_at(flags: Flags, b: u8, behind: &[u8]) -> Option<(Token, &[u8])>
    ensures { option_map (λ x. (x.0, x.1.now)) result ≡ token_at flags b behind.now }
{
    match b {
        b'\\' => escaped(flags.fold, behind),
        b'^' => Some((Token::Leaf(Leaf::Start { lines: flags.lines }), behind)),
        b'$' => Some((Token::Leaf(Leaf::Finish { lines: flags.lines }), behind)),
        b'.' => Some((dot(flags.all), behind)),
        b'[' => class(flags.fold, behind),
        b'|' => Some((Token::Bar, behind)),
        b'(' => opening(behind),
        b')' => Some((Token::Close, behind)),
        b'*' => Some(count(Times::Unlimited { least: 0 }, behind)),
        b'+' => Some(count(Times::Unlimited { least: 1 }, behind)),
        b'?' => Some(count(Times::Maybe, behind)),
        b'{' => brace(flags.fold, behind),
        _ => Some((literal(flags.fold, b), behind)),
    }
}

/// The token at the front, and what is behind it.
#[tactic(auto, unfolding(crate::specs::Tokens::token_front))]
fn token_front(flags: Flags, bytes: &[u8]) -> Option<(Token, &[u8])>
    ensures { option_map (λ x. (x.0, x.1.now)) result ≡ token_front flags bytes.now }
{
    match bytes {
        [b, behind @ ..] => token_at(flags, *b, behind),
        [] => None,
    }
}

/// All tokens, of which there are at most so many.
fn tokens(
    alloc: Global,
    most: usize,
    flags: Flags,
    bytes: &[u8],
) -> Result<Option<Vec<Token>>, AllocError>
    ensures { IfOk result (λ found. option_map (λ v. v.items) found ≡ tokens most flags bytes.now) }
{
    let mut found = Vec::new(alloc);
    let mut rest = bytes;
    for _ in 0..most {
        if rest.is_empty() {
            return Ok(Some(found));
        }
        let Some((token, behind)) = token_front(flags, rest) else {
            return Ok(None);
        };
        found.push(token)?;
        rest = behind;
    }
    if rest.is_empty() {
        return Ok(Some(found));
    }
    Ok(None)
}

/// The tokens behind the modifiers, under what they set; none where the text has no tokens.
#[tactic(auto, unfolding(crate::specs::Tokens::tokens_of))]
pub fn tokens_of(alloc: Global, text: &[u8]) -> Result<Option<Vec<Token>>, AllocError>
    ensures { IfOk result (λ found. option_map (λ v. v.items) found ≡ tokens_of text.now) }
{
    let no_flags = Flags {
        fold: false,
        lines: false,
        all: false,
    };
    let (flags, behind) = modifiers(text.len(), no_flags, text);
    tokens(alloc, behind.len(), flags, behind)
}
