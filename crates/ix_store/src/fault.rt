//! Why a store does not do what it is asked. `Store::mount` and `Store::export` answer it.

ghost use Rattle.std.specs.Prelude.{◌≡◌};
ghost use Rattle.ix_store.specs.Faults as defs;

use ix_base::File;
use ix_commit::MountFault as KeptFault;
use ix_export::BucketFault;
use thiserror::Error;

/// Why no store was mounted.
#[derive(Clone, Copy, Debug, PartialEq, Eq, Error)]
pub enum MountFault {
    /// The disk has failed.
    #[error("the disk failed")]
    Disk,
    /// In this log, behind the gate at this place, stands no body that counts, or one that says
    /// settings or a channel of which no state comes.
    #[error("the log {file:?} is damaged at byte {at}")]
    Damaged { file: File, at: u64 },
    /// No further run has a number, or a new store has no room for its first body.
    #[error("the store has no room for another run")]
    Full,
    /// There was no room in memory.
    #[error("there was no room in memory")]
    NoMemory,
}

/// What a fault of the committer is to a store.
pub(crate) fn fault_of(fault: KeptFault) -> MountFault
    ensures { result ≡ defs.fault_of fault }
{
    match fault {
        KeptFault::Disk => MountFault::Disk,
        KeptFault::Damaged { file, at } => MountFault::Damaged { file, at },
        KeptFault::Full => MountFault::Full,
        KeptFault::NoMemory => MountFault::NoMemory,
    }
}

/// Why the lines of an index were not all written.
#[derive(Clone, Copy, Debug, PartialEq, Eq, Error)]
pub enum ExportFault {
    /// The store is closed: an earlier call met a fault of the disk, or damage.
    #[error("the store is closed behind a fault of its disk")]
    Closed,
    /// No index of this name is configured, and none ever had a bucket.
    #[error("no index has this name")]
    UnknownIndex,
    /// The disk has failed.
    #[error("the disk failed")]
    Disk,
    /// In this file of a bucket no record that counts stands at this place.
    #[error("the file {file:?} of a bucket is damaged at byte {at}")]
    Damaged { file: File, at: u64 },
    /// What the lines are written to has failed. A front of a line may be written.
    #[error("the output failed")]
    Output,
    /// There was no room in memory.
    #[error("there was no room in memory")]
    NoMemory,
}

/// What a fault of an export of buckets is to a store.
pub(crate) fn export_fault_of(fault: BucketFault) -> ExportFault
    ensures { result ≡ defs.export_fault_of fault }
{
    match fault {
        BucketFault::Disk => ExportFault::Disk,
        BucketFault::Damaged { file, at } => ExportFault::Damaged { file, at },
        BucketFault::Output => ExportFault::Output,
        BucketFault::NoMemory => ExportFault::NoMemory,
    }
}

/// Whether the store is closed after such an answer.
pub(crate) fn closes(answer: &Result<u64, ExportFault>) -> bool
    ensures { result ≡ defs.closes answer.now }
{
    match answer {
        Ok(_) => false,
        Err(ExportFault::Disk | ExportFault::Damaged { .. }) => true,
        Err(_) => false,
    }
}
