//! What came of a request.

ghost use Rattle.std.specs.Prelude.{◌≡◌};
ghost use Rattle.ix_serve.specs.Answer as defs;

use ix_base::File;
use ix_commit::CommitFault;
use thiserror::Error;

/// What came of a request.
#[derive(Clone, Copy, Debug, PartialEq, Eq)]
pub enum Served {
    /// The link had ended, and there was none.
    Ended,
    /// A reply was written.
    Reply {
        /// Its status.
        status: u16,
        /// Whether it is known where the request ends and all of it was read. Then another one may
        /// follow.
        delimited: bool,
        /// Whether the log is long still, since there was no room in memory for a checkpoint. The
        /// store is as it was before that, and goes on.
        unshortened: bool,
    },
}

/// Why a request was not served, or not wholly.
#[derive(Clone, Copy, Debug, PartialEq, Eq, Error)]
pub enum ServeFault {
    /// The disk has failed. The store is closed.
    #[error("the disk failed")]
    Disk,
    /// This file ends at this place, before what was committed, or no record that counts stands
    /// there. The store is closed.
    #[error("the file {file:?} is damaged at byte {at}")]
    Damaged { file: File, at: u64 },
    /// The link has failed.
    #[error("the link failed")]
    Link,
    /// The link ended inside the request.
    #[error("the link ended inside a request")]
    Cut,
}

/// What a fault of a commit is to whoever serves.
pub fn answer_of_fault(cause: CommitFault) -> ServeFault
    ensures { result ≡ defs.answer_of_fault cause }
{
    match cause {
        CommitFault::Disk => ServeFault::Disk,
        CommitFault::Damaged { file, at } => ServeFault::Damaged { file, at },
    }
}
