//! In which part of a text its time is read: behind the prefix, and as far as the lookahead goes.
//! The readers of times call it.

ghost use Rattle.std.specs.Prelude.{◌≡◌, ◌≤◌, IfOk, IfSome, IsOk, None, length, take};
ghost use Rattle.ix_time.specs.Window as Window;

use ix_base::NoMemory;
use ix_match::Regex;
use ix_pattern::Pattern;
use std::alloc::Global;

/// A finder for a pattern, where one is set. Without one nothing is allocated.
pub fn finder_of(alloc: Global, pattern: &Option<Pattern>) -> Result<Option<Regex>, NoMemory>
    ensures value { IfOk result (λ finder. finder ≡ pattern.now) }
    ensures plain { pattern.now ≡ None → IsOk result }
{
    match pattern {
        Some(pattern) => Ok(Some(Regex::new(alloc, pattern.copy()?)?)),
        None => Ok(None),
    }
}

/// The place of the time, if the prefix has a match. Without a prefix nothing is allocated.
pub(crate) fn place_of(
    alloc: Global,
    prefix: &Option<Regex>,
    text: &[u8],
) -> Result<Option<usize>, NoMemory>
    ensures value { IfOk result (λ place. place ≡ Window.place_of prefix.now text.now) }
    ensures within { IfOk result (λ place. IfSome place (λ p. p ≤ length text.now)) }
    ensures plain { prefix.now ≡ None → IsOk result }
{
    let Some(finder) = prefix else {
        return Ok(Some(0));
    };
    match finder.find(alloc, text, 0)? {
        Some(found) => Ok(Some(found.end)),
        None => Ok(None),
    }
}

/// The bytes from a place on, as far as the lookahead goes.
pub(crate) fn window(lookahead: Option<u32>, text: &[u8], place: usize) -> &[u8]
    requires { place ≤ length text.now }
    ensures { result.now ≡ Window.window lookahead text.now place }
{
    let rest = &text[place..];
    match lookahead {
        None | Some(0) => rest,
        Some(most) => first_bytes(most as usize, rest),
    }
}

/// The first so many bytes, or all where there are fewer.
fn first_bytes(most: usize, text: &[u8]) -> &[u8]
    ensures { result.now ≡ take most text.now }
{
    if most < text.len() {
        &text[..most]
    } else {
        text
    }
}
