//! Reading patterns.

ghost use Rattle.std.specs.Prelude.{◌≡◌, ◌≤◌, ◌<◌, ℕ, true, false, min, IfOk, IsErrOf};
ghost use Rattle.ix_pattern.specs.Piece.{least_length};
ghost use Rattle.ix_pattern.specs.Rows.{tree};
ghost use Rattle.ix_pattern.specs.Syntax.{Syntax, IsSpelledBy, is_too_large, counts_high, depth, groups, weight_of, tree_of, repeats_empty};
ghost use Rattle.ix_pattern.specs.Parsed.{Came, Parses};
ghost use Rattle.ix_pattern.specs.Reads.{IsPatternOf, IsReadAs, IsTooLarge, IsNoPattern, RepeatsEmpty, HasNoGroup, MayMatchEmpty};

use crate::faults::{BreakFault, PatternFault};
use crate::frames::Frame;
use crate::lexer::tokens_of;
use crate::pattern::Pattern;
use crate::reader::{Reader, whole};
use crate::reading::read_tokens;
use ix_base::NoMemory;
use std::alloc::Global;

/// The longest text of a pattern, in bytes.
const MOST_BYTES: usize = 4096;

/// Reads the whole text. There is no answer where it is not in the grammar.
fn parse(alloc: Global, text: &[u8]) -> Result<Option<Reader>, NoMemory>
    ensures { IfOk result (λ found. Parses found text.now) }
{
    let Some(tokens) = tokens_of(alloc, text)? else {
        return Ok(None);
    };
    let Some(reader) = read_tokens(alloc, tokens)? else {
        return Ok(None);
    };
    if reader.here.waiting.is_some() || !reader.outer.is_empty() {
        return Ok(None);
    }
    Ok(Some(reader))
}

/// Whether a limit other than that of the text's length is passed.
fn is_too_large(here: Frame, count: usize, weight: u64) -> bool
    ensures { (s : Syntax) → here.depth ≡ min (depth s) 65 → here.high ≡ counts_high s → count ≡ groups s →
        weight ≡ min (weight_of s) 200001 → result ≡ is_too_large s }
{
    here.high | (32 < count) | (64 < here.depth) | (200_000 < weight)
}

/// The pattern that was read, if it is within the limits and no empty piece repeats.
fn finish(reader: Reader) -> Result<Pattern, PatternFault>
    requires { (s : Syntax) × Came reader s }
    ensures found { IfOk result (λ p. (s : Syntax) → Came reader s → (is_too_large s ≡ false) × (repeats_empty (tree_of s) ≡ false)
        × IsPatternOf s p) }
    ensures too_large { IsErrOf result PatternFault.TooLarge → (s : Syntax) → Came reader s → is_too_large s ≡ true }
    ensures syntax { IsErrOf result PatternFault.Syntax → ⊥ }
    ensures empty_repeat { IsErrOf result PatternFault.EmptyRepeat → (s : Syntax) → Came reader s → (is_too_large s ≡ false)
        × (repeats_empty (tree_of s) ≡ true) }
{
    let Reader {
        mut work,
        here,
        outer: _,
        opened: _,
    } = reader;
    let groups = work.groups();
    let part = whole(&mut work, here, 1)?;
    if is_too_large(here, groups, part.weight) {
        return Err(PatternFault::TooLarge);
    }
    if part.repeats_empty {
        return Err(PatternFault::EmptyRepeat);
    }
    let rows = work.into_rows(part.piece);
    Ok(Pattern::from_rows(rows, groups, part.weight, part.takes))
}

impl Pattern {
    /// Reads the text of a pattern.
    ///
    /// `TooLarge` comes first where the text is longer than 4,096 bytes; then `Syntax` where it is
    /// not in the grammar; then `TooLarge` for the other limits; then `EmptyRepeat`. There is one
    /// syntax of each text (see `one_syntax`), so these exclude each other. `NoMemory` may come at
    /// any time.
    pub fn read(alloc: Global, text: &[u8]) -> Result<Pattern, PatternFault>
        ensures found { IfOk result (λ p. (s : Syntax) × IsReadAs text.now s p) }
        ensures too_large { IsErrOf result PatternFault.TooLarge → IsTooLarge text.now }
        ensures syntax { IsErrOf result PatternFault.Syntax → IsNoPattern text.now }
        ensures empty_repeat { IsErrOf result PatternFault.EmptyRepeat → (s : Syntax) × RepeatsEmpty text.now s }
    {
        if text.len() > MOST_BYTES {
            return Err(PatternFault::TooLarge);
        }
        let Some(reader) = parse(alloc, text)? else {
            return Err(PatternFault::Syntax);
        };
        finish(reader)
    }

    /// Reads the text of a pattern for breaks, which has a capturing group and takes at least one
    /// byte.
    ///
    /// The faults of `read` come first, then `NoGroup`, then `MatchesEmpty`.
    pub fn for_breaks(alloc: Global, text: &[u8]) -> Result<Pattern, BreakFault>
        ensures found { IfOk result (λ p. (s : Syntax) × IsReadAs text.now s p) }
        ensures groups { IfOk result (λ p. 0 < p.groups) }
        ensures takes { IfOk result (λ p. 0 < least_length (tree p.rows)) }
        ensures too_large { IsErrOf result (BreakFault.Pattern PatternFault.TooLarge) → IsTooLarge text.now }
        ensures syntax { IsErrOf result (BreakFault.Pattern PatternFault.Syntax) → IsNoPattern text.now }
        ensures empty_repeat { IsErrOf result (BreakFault.Pattern PatternFault.EmptyRepeat) → (s : Syntax) × RepeatsEmpty text.now s }
        ensures no_group { IsErrOf result BreakFault.NoGroup → (s : Syntax) × HasNoGroup text.now s }
        ensures matches_empty { IsErrOf result BreakFault.MatchesEmpty → (s : Syntax) × MayMatchEmpty text.now s }
    {
        let pattern = match Pattern::read(alloc, text) {
            Ok(pattern) => pattern,
            Err(fault) => return Err(BreakFault::Pattern(fault)),
        };
        if pattern.groups() == 0 {
            return Err(BreakFault::NoGroup);
        }
        if !pattern.takes() {
            return Err(BreakFault::MatchesEmpty);
        }
        Ok(pattern)
    }
}
