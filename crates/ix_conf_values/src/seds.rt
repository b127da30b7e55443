//! SEDCMD: what replaces or swaps bytes of a raw text.

ghost use Rattle.std.specs.Prelude.{◌≡◌, ◌≢◌, IfOk, IfErr, Some, None};
ghost use Rattle.ix_conf_values.specs.Seds.{Form, which, replacement, swapping, bytes_of, form, IsSedOf, RefusesSed, IsApplicable};
ghost use Rattle.ix_conf_values.specs.Patterns.{Refuses};

use crate::escapes::{PartList, copy_parts, cut, plain_bytes, read_parts};
use crate::patterns::read_pattern;
use crate::plain::read_digits;
use ix_base::{Bytes, NoMemory, Sequence};
use ix_pattern::{Pattern, PatternFault};
use std::alloc::Global;
use thiserror::Error;

/// Which matches are replaced.
#[derive(Clone, Copy, Debug, PartialEq, Eq)]
pub enum Which {
    /// The first one.
    First,
    /// All of them.
    All,
    /// The one of this number alone, counted from 1. The number is at most 1,000.
    Nth(u32),
}

/// A change of a raw text.
#[derive(Drop)]
pub enum Sed {
    /// Matches of the pattern are replaced.
    Replace {
        pattern: Pattern,
        /// What is written in place of a match.
        parts: PartList,
        which: Which,
    },
    /// Each byte that stands in `from`, at its first place there, becomes the byte at that place of
    /// `to`. Both have the same length.
    Swap {
        from: Bytes,
        to: Bytes,
    },
}

/// Changes of a raw text, the first one first.
pub type SedList = Sequence<Sed>;

/// Why a text is no change of a raw text.
#[derive(Clone, Copy, Debug, PartialEq, Eq, Error)]
pub enum SedFault {
    /// It has neither the form `s/P/R/F` nor `y/A/B/`. The form is judged before the pattern.
    #[error("the value is neither s/P/R/F nor y/A/B/")]
    BadValue,
    /// It has the form `s/P/R/F`, and P has this fault, which is never want of memory.
    #[error("the value has no pattern: {fault}")]
    BadPattern { fault: PatternFault },
    /// There was no room in memory.
    #[error("there was no room in memory")]
    NoMemory,
}

impl From<NoMemory> for SedFault {
    ghost use Rattle.std.specs.Prelude.{◌≡◌};
    ghost use Rattle.ix_conf_values.specs.declared.seds.SedFault.TheVariants.{NoMemory as no_memory};

    ghost from_gives = { λ _ fault. fault ≡ no_memory };

    fn from(_: NoMemory) -> SedFault {
        SedFault::NoMemory
    }
}

/// Which matches: none written for the first, `g` for all, 1 to 1000 for one of them.
fn read_which(text: &[u8]) -> Option<Which>
    ensures { result ≡ which text.now }
{
    match text {
        [] => Some(Which::First),
        [b'g'] => Some(Which::All),
        _ => {
            let number = read_digits(text, 4)?;
            if 1 <= number && number <= 1000 {
                Some(Which::Nth(number as u32))
            } else {
                None
            }
        }
    }
}

/// Reads what stands behind `s/`.
fn read_replacement(alloc: Global, text: &[u8]) -> Result<Sed, SedFault>
    ensures ok { IfOk result (λ sed. IsSedOf (replacement text.now) sed) }
    ensures applicable { IfOk result (λ sed. IsApplicable sed) }
    ensures err { IfErr result (λ fault. RefusesSed (replacement text.now) fault) }
{
    let Some((pattern, behind)) = cut(text) else {
        return Err(SedFault::BadValue);
    };
    let Some((written, flag)) = cut(behind) else {
        return Err(SedFault::BadValue);
    };
    let Some(parts) = read_parts(alloc, written)? else {
        return Err(SedFault::BadValue);
    };
    let Some(which) = read_which(flag) else {
        return Err(SedFault::BadValue);
    };
    match read_pattern(alloc, pattern) {
        Ok(pattern) => Ok(Sed::Replace {
            pattern,
            parts,
            which,
        }),
        Err(PatternFault::NoMemory) => Err(SedFault::NoMemory),
        Err(fault) => Err(SedFault::BadPattern { fault }),
    }
}

/// The bytes that a text with escapes stands for; `None` where an escape stands for a group or for
/// nothing.
fn read_bytes(alloc: Global, text: &[u8]) -> Result<Option<Bytes>, NoMemory>
    ensures { IfOk result (λ found. found ≡ bytes_of text.now) }
{
    match read_parts(alloc, text)? {
        None => Ok(None),
        Some(parts) => plain_bytes(alloc, parts.as_slice()),
    }
}

/// Reads what stands behind `y/`.
fn read_swapping(alloc: Global, text: &[u8]) -> Result<Sed, SedFault>
    ensures ok { IfOk result (λ sed. IsSedOf (swapping text.now) sed) }
    ensures applicable { IfOk result (λ sed. IsApplicable sed) }
    ensures err { IfErr result (λ fault. RefusesSed (swapping text.now) fault) }
{
    let Some((from, behind)) = cut(text) else {
        return Err(SedFault::BadValue);
    };
    let Some((to, rest)) = cut(behind) else {
        return Err(SedFault::BadValue);
    };
    if !rest.is_empty() {
        return Err(SedFault::BadValue);
    }
    let Some(from) = read_bytes(alloc, from)? else {
        return Err(SedFault::BadValue);
    };
    let Some(to) = read_bytes(alloc, to)? else {
        return Err(SedFault::BadValue);
    };
    if from.len() != to.len() {
        return Err(SedFault::BadValue);
    }
    Ok(Sed::Swap { from, to })
}

impl Sed {
    /// Reads a change of a raw text: `s/P/R/F`, where P is a pattern, R what is written in place of
    /// a match, with `\1` to `\9` for what a group took in, and F which matches are replaced; or
    /// `y/A/B/`, where each byte of A becomes that of B.
    ///
    /// `BadValue` comes exactly where the text has neither form. Then `BadPattern` comes exactly
    /// where P is no pattern.
    pub fn read(alloc: Global, text: &[u8]) -> Result<Sed, SedFault>
        ensures ok { IfOk result (λ sed. IsSedOf (form text.now) sed) }
        ensures applicable { IfOk result (λ sed. IsApplicable sed) }
        ensures err { IfErr result (λ fault. RefusesSed (form text.now) fault) }
    {
        match text {
            [b's', b'/', rest @ ..] => read_replacement(alloc, rest),
            [b'y', b'/', rest @ ..] => read_swapping(alloc, rest),
            _ => Err(SedFault::BadValue),
        }
    }

    /// A copy of it.
    pub fn copy(&self, alloc: Global) -> Result<Sed, NoMemory>
        ensures { IfOk result (λ copy. copy ≡ self.now) }
    {
        match self {
            Sed::Replace {
                pattern,
                parts,
                which,
            } => Ok(Sed::Replace {
                pattern: pattern.copy()?,
                parts: copy_parts(alloc, parts.as_slice())?,
                which: *which,
            }),
            Sed::Swap { from, to } => Ok(Sed::Swap {
                from: from.copy()?,
                to: to.copy()?,
            }),
        }
    }
}
