//! Matches of a pattern in a text, one behind the other from the left. Substitutions and transforms
//! call it.

ghost use Rattle.std.specs.Prelude.{◌≡◌, ◌+◌, ◌-◌, ◌<◌, ◌≤◌, ◌^◌, length, IfOk, IfSome, slice_get};
ghost use Rattle.ix_match.specs.Matches.{LiesIn};
ghost use Rattle.ix_transforms.specs.Matches.{first, behind, matches};

use ix_base::NoMemory;
use ix_match::{Found, Regex};
use std::alloc::Global;

/// Where the search goes on: at the end of a match, or behind the byte at which an empty one
/// stands.
pub fn behind(found: &Found) -> usize
    requires { found.now.start < 2 ^ 63 }
    ensures { result ≡ behind found.now }
{
    found.end.max(found.start + 1)
}

/// The first match that begins at this place or later. There is none behind the text's end.
pub fn next_match(
    alloc: Global,
    pattern: &Regex,
    text: &[u8],
    from: usize,
) -> Result<Option<Found>, NoMemory>
    ensures first { IfOk result (λ found. found ≡ first pattern.now text.now from) }
    ensures lies { IfOk result (λ found. IfSome found (λ f. LiesIn text.now from pattern.now.groups f)) }
{
    if from > text.len() {
        return Ok(None);
    }
    let found = pattern.find(alloc, text, from)?;
    Ok(found)
}

/// The match of this number, counted from 1.
pub fn nth_match(
    alloc: Global,
    pattern: &Regex,
    text: &[u8],
    number: u32,
) -> Result<Option<Found>, NoMemory>
    requires { 0 < number }
    ensures is { IfOk result (λ found. found ≡ slice_get (matches pattern.now text.now 0) (number - 1)) }
    ensures lies { IfOk result (λ found. IfSome found (λ f. LiesIn text.now 0 pattern.now.groups f)) }
{
    let mut from = 0;
    for _turn in 1..number {
        let Some(found) = next_match(alloc, pattern, text, from)? else {
            return Ok(None);
        };
        from = behind(&found);
    }
    let found = next_match(alloc, pattern, text, from)?;
    Ok(found)
}
