//! Why a commit failed.

ghost use Rattle.std.specs.Prelude.{◌≡◌};
ghost use Rattle.ix_commit.specs.declared.fault.CommitFault.TheVariants as faults;

use ix_base::{Failed, File};
use thiserror::Error;

/// Why nothing, or not all, was made durable.
#[derive(Clone, Copy, Debug, PartialEq, Eq, Error)]
pub enum CommitFault {
    /// The disk has failed.
    #[error("the disk failed")]
    Disk,
    /// The file of a bucket or an archive has so many bytes, fewer than were committed.
    #[error("the file {file:?} ends at byte {at}, before what was committed")]
    Damaged { file: File, at: u64 },
}

impl From<Failed> for CommitFault {
    ghost from_gives = { λ _ e. e ≡ faults.Disk };

    fn from(_: Failed) -> Self {
        CommitFault::Disk
    }
}
