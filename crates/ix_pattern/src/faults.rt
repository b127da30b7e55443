//! What may be wrong with the text of a pattern.

ghost use Rattle.std.specs.Prelude.{◌≡◌};
ghost use Rattle.ix_pattern.specs.declared.faults.PatternFault.TheVariants as fault;

use ix_base::NoMemory;
use thiserror::Error;

/// Why a text is no pattern.
#[derive(Clone, Copy, Debug, PartialEq, Eq, Error)]
pub enum PatternFault {
    /// The text is not in the grammar.
    #[error("the text is no pattern")]
    Syntax,
    /// The text is longer than 4,096 bytes; or a number of a count is above 1,000, there are more
    /// than 32 capturing groups, parentheses nest deeper than 64, or the weight is above 200,000.
    #[error("the pattern is too large")]
    TooLarge,
    /// A piece that may take no byte has `*`, `+` or `{m,}`.
    #[error("a piece that may match no byte is repeated")]
    EmptyRepeat,
    /// There was no room in memory.
    #[error("there was no room in memory")]
    NoMemory,
}

impl From<NoMemory> for PatternFault {
    ghost from_gives = { λ _ e. e ≡ fault.NoMemory };

    fn from(_: NoMemory) -> PatternFault {
        PatternFault::NoMemory
    }
}

/// Why a text is no pattern for breaks.
#[derive(Clone, Copy, Debug, PartialEq, Eq, Error)]
pub enum BreakFault {
    /// It is no pattern.
    #[error("{0}")]
    Pattern(PatternFault),
    /// It has no capturing group.
    #[error("the pattern has no capturing group")]
    NoGroup,
    /// It may match no byte at all.
    #[error("the pattern may match no byte")]
    MatchesEmpty,
}
