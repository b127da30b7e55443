//! All tokens of a pattern, by the grammar.

ghost use Rattle.std.specs.Prelude.{◌≡◌, IfOk, count_by};
ghost use Rattle.ix_pattern.specs.Frames.{captures, is_capture, ReadsAll};

use crate::reader::{Reader, empty};
use crate::tokens::{Opening, Token};
use crate::work::Work;
use ix_base::NoMemory;
use std::alloc::Global;

/// Whether the token opens a capturing group.
fn is_capture(token: &Token) -> bool
    ensures { result ≡ is_capture token.now }
{
    match token {
        Token::Open(Opening::Capture) => true,
        _ => false,
    }
}

/// How many capturing groups the tokens open.
fn captures(tokens: &[Token]) -> usize
    ensures { result ≡ count_by is_capture tokens.now }
{
    tokens.iter().filter(|token| is_capture(token)).count()
}

/// Reads all tokens from the last to the first. There is no answer where that is an error of
/// syntax.
pub fn read_tokens(alloc: Global, mut tokens: Vec<Token>) -> Result<Option<Reader>, NoMemory>
    ensures { IfOk result (λ found. ReadsAll found tokens.items) }
{
    let groups = captures(&tokens);
    let mut reader = Reader {
        work: Work::new(alloc, groups),
        here: empty(),
        outer: Vec::new(alloc),
        opened: groups,
    };
    while let Some(token) = tokens.pop() {
        if !reader.step(token)? {
            return Ok(None);
        }
    }
    Ok(Some(reader))
}
