//! What a carry is, and the settings that it is judged by.

ghost use Rattle.std.specs.Prelude.{◌≡◌};
ghost use Rattle.ix_parse.specs.declared.carry.ResumeFault.TheVariants as faults;

use ix_base::NoMemory as OutOfMemory;
use ix_coding::BadField;
use ix_lines::LineParts;
use ix_merge::MergeParts;
use thiserror::Error;

/// What is carried of a channel over a stop, to go on with its stream later.
#[derive(Drop)]
pub struct Carry {
    /// The byte before the scan place, the bytes that wait from there on, and the line that is
    /// open.
    pub lines: LineParts,
    /// The event that is open, and the two marks.
    pub merge: MergeParts,
    /// The latest time that was accepted for an event, in microseconds since 1970-01-01T00:00:00Z,
    /// from -2^62 to 2^62.
    pub latest: Option<i64>,
}

/// The settings of a channel that say what may be carried of it.
#[derive(Clone, Copy, Debug, PartialEq, Eq)]
pub struct CarryRules {
    /// The length in bytes at which lines are cut. 0 and all above 1,048,576 count as 1,048,576.
    pub truncate: u32,
    /// Whether lines are merged. Where they are not, no event is open and no mark is set.
    pub merging: bool,
    /// How many lines an event has at the most.
    pub max_lines: u32,
}

/// Why no carry was read.
#[derive(Clone, Copy, Debug, PartialEq, Eq, Error)]
pub enum ResumeFault {
    /// The bytes are no carry under these settings.
    #[error("the bytes are no carry of a channel under these settings")]
    BadCarry,
    /// There was no room in memory.
    #[error("there was no room in memory")]
    NoMemory,
}

impl From<OutOfMemory> for ResumeFault {
    ghost from_gives = { λ _ e. e ≡ faults.NoMemory };

    fn from(_: OutOfMemory) -> ResumeFault {
        ResumeFault::NoMemory
    }
}

impl From<BadField> for ResumeFault {
    ghost from_gives = { λ _ e. e ≡ faults.BadCarry };

    fn from(_: BadField) -> ResumeFault {
        ResumeFault::BadCarry
    }
}
