//! The tokens of a pattern for names.

ghost use Rattle.std.specs.Prelude.{◌≡◌, ◌+◌, ◌<◌, ◌≤◌, ◌∷◌, ◌++◌, [], IfOk, length, drop};
ghost use Rattle.ix_conf.specs.Names.{tokens, token_of, waiting, has_question, are_pattern};

use ix_base::NoMemory;
use std::alloc::Global;
use thiserror::Error;

/// One token of a pattern.
#[derive(Clone, Copy, Debug, PartialEq, Eq)]
pub enum Token {
    /// The byte itself.
    Byte(u8),
    /// Any bytes without `/`.
    Star,
    /// Any bytes.
    Dots,
    /// Another alternative.
    Bar,
    Open,
    Close,
}

/// Why a text is no pattern for names.
#[derive(Clone, Copy, Debug, PartialEq, Eq, Error)]
pub enum NameFault {
    /// Parentheses do not pair, or a `(` is followed by `?`.
    #[error("the name is no pattern")]
    BadPattern,
    /// There was no room in memory.
    #[error("there was no room in memory")]
    NoMemory,
}

impl From<NoMemory> for NameFault {
    ghost use Rattle.std.specs.Prelude.{◌≡◌};
    ghost use Rattle.ix_conf.specs.declared.tokens.NameFault.TheVariants.{NoMemory as no_memory};

    ghost from_gives = { λ _ fault. fault ≡ no_memory };

    fn from(_: NoMemory) -> NameFault {
        NameFault::NoMemory
    }
}

fn token_of(byte: u8) -> Token
    ensures { result ≡ token_of byte }
{
    match byte {
        b'*' => Token::Star,
        b'|' => Token::Bar,
        b'(' => Token::Open,
        b')' => Token::Close,
        _ => Token::Byte(byte),
    }
}

/// The first token of a text, and how many bytes it has.
fn first_token(text: &[u8]) -> (Token, usize)
    requires { 0 < length text.now }
    ensures token { tokens text.now ≡ result.0 ∷ tokens (drop result.1 text.now) }
    ensures some { 0 < result.1 }
    ensures within { result.1 ≤ length text.now }
{
    if text.len() >= 3 && text[0] == b'.' && text[1] == b'.' && text[2] == b'.' {
        return (Token::Dots, 3);
    }
    if text.len() >= 2 && text[0] == b'\\' && text[1] == b'\\' {
        return (Token::Byte(b'\\'), 2);
    }
    (token_of(text[0]), 1)
}

/// The tokens of a pattern.
pub fn read_tokens(alloc: Global, text: &[u8]) -> Result<Vec<Token>, NoMemory>
    ensures { IfOk result (λ found. found.items ≡ tokens text.now) }
{
    let mut found = Vec::new(alloc);
    let mut rest = text;
    while !rest.is_empty() {
        let (token, len) = first_token(rest);
        found.push(token)?;
        rest = &rest[len..];
    }
    Ok(found)
}

/// How many closing parentheses wait for an opening one before them; `None` where an opening one
/// has no closing one.
fn waiting(tokens: &[Token]) -> Option<usize>
    ensures { result ≡ waiting tokens.now }
{
    let mut at = tokens.len();
    let mut count: usize = 0;
    while at > 0 {
        at -= 1;
        match tokens[at] {
            Token::Close => count += 1,
            Token::Open if count == 0 => return None,
            Token::Open => count -= 1,
            _ => {}
        }
    }
    Some(count)
}

fn has_question(tokens: &[Token]) -> bool
    ensures { result ≡ has_question tokens.now }
{
    let mut rest = tokens;
    while rest.len() >= 2 {
        if rest[0] == Token::Open && rest[1] == Token::Byte(b'?') {
            return true;
        }
        rest = &rest[1..];
    }
    false
}

/// Whether parentheses pair, and no opening one is followed by `?`.
pub fn are_pattern(tokens: &[Token]) -> bool
    ensures { result ≡ are_pattern tokens.now }
{
    waiting(tokens) == Some(0) && !has_question(tokens)
}
