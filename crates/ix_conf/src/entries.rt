//! What a .conf text says.

use ix_base::{Bytes, NoMemory, Sequence};
use std::alloc::{AllocError, AllocFailed};
use std::fmt;
use thiserror::Error;

/// One entry of a .conf text.
#[derive(Drop)]
pub enum Entry {
    /// A stanza of this name is opened. A name has 1 to 1,024 bytes.
    Stanza(Bytes),
    /// In this stanza this key, of at least one byte, has this value.
    Pair(Bytes, Bytes, Bytes),
}

/// The entries of one .conf text, in the order in which they stand there.
pub type ConfFile = Sequence<Entry>;

/// Why a .conf text is refused.
#[derive(Clone, Copy, Debug, PartialEq, Eq, Error)]
pub enum ConfFault {
    /// The bytes are not UTF-8. `at` is the place of the first bad one, counted from 0.
    NotUtf8 { at: u64 },
    /// A line that is no stanza has no `=`, or nothing before it. Lines are counted from 1.
    NoEquals { line: u32 },
    /// A line begins with `[` and does not end with `]`, or its name is empty or above 1,024 bytes.
    BadStanza { line: u32 },
    /// The text has more than 1,048,576 bytes.
    TooLong,
    /// There was no room in memory.
    NoMemory,
}

/// What a line on the fault says behind the path of the file.
impl fmt::Display for ConfFault {
    ghost use Rattle.std.specs.Prelude.{Some};
    ghost use Rattle.ix_conf.specs.FaultText.{fault_text};

    ghost output = { λ fault. Some (fault_text fault) };

    fn fmt<W: fmt::Write>(&self, f: &mut fmt::Formatter<W>) -> fmt::Result {
        match self {
            ConfFault::NotUtf8 { at } => write!(f, " at {at}: NotUtf8"),
            ConfFault::NoEquals { line } => write!(f, " line {line}: NoEquals"),
            ConfFault::BadStanza { line } => write!(f, " line {line}: BadStanza"),
            ConfFault::TooLong => write!(f, ": TooLong"),
            ConfFault::NoMemory => write!(f, ": NoMemory"),
        }
    }
}

impl From<NoMemory> for ConfFault {
    ghost use Rattle.std.specs.Prelude.{◌≡◌};
    ghost use Rattle.ix_conf.specs.declared.entries.ConfFault.TheVariants.{NoMemory as no_memory};

    ghost from_gives = { λ _ fault. fault ≡ no_memory };

    fn from(_: NoMemory) -> ConfFault {
        ConfFault::NoMemory
    }
}
