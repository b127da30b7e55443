//! Why a checkpoint failed.

ghost use Rattle.std.specs.Prelude.{◌≡◌};
ghost use Rattle.ix_manifest.specs.Whole.{as_checkpoint};
ghost use Rattle.ix_manifest.specs.declared.fault.CheckpointFault.TheVariants as faults;

use ix_base::{Failed, NoMemory as OutOfMemory};
use ix_log::BeginFault;
use thiserror::Error;

/// Why the log was not made shorter.
#[derive(Clone, Copy, Debug, PartialEq, Eq, Error)]
pub enum CheckpointFault {
    /// The disk has failed.
    #[error("the disk failed")]
    Disk,
    /// There was no room in memory. The log from before is still the current one.
    #[error("there was no room in memory")]
    NoMemory,
}

impl From<Failed> for CheckpointFault {
    ghost from_gives = { λ _ e. e ≡ faults.Disk };

    fn from(_: Failed) -> CheckpointFault {
        CheckpointFault::Disk
    }
}

impl From<OutOfMemory> for CheckpointFault {
    ghost from_gives = { λ _ e. e ≡ faults.NoMemory };

    fn from(_: OutOfMemory) -> CheckpointFault {
        CheckpointFault::NoMemory
    }
}

impl From<BeginFault> for CheckpointFault {
    ghost from_gives = { λ fault e. e ≡ as_checkpoint fault };

    fn from(fault: BeginFault) -> CheckpointFault {
        match fault {
            BeginFault::Disk => CheckpointFault::Disk,
            BeginFault::NoMemory => CheckpointFault::NoMemory,
        }
    }
}
