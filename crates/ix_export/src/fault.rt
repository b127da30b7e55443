//! Why buckets were not exported whole. `export_buckets` answers it.

ghost use Rattle.std.specs.Prelude.{◌≡◌};
ghost use Rattle.ix_export.specs.Faults as defs;

use ix_base::{File, NoMemory};
use ix_bucket::ReadFault;
use thiserror::Error;

/// Why the lines of buckets were not all written.
#[derive(Clone, Copy, Debug, PartialEq, Eq, Error)]
pub enum BucketFault {
    /// The disk has failed.
    #[error("the disk failed")]
    Disk,
    /// A bucket's file has at this place no record that ends within the bytes of the bucket that
    /// count.
    #[error("the file {file:?} of a bucket is damaged at byte {at}")]
    Damaged { file: File, at: u64 },
    /// What the lines are written to has failed. A front of a line may be written.
    #[error("the output failed")]
    Output,
    /// There was no room in memory for the bytes of a record.
    #[error("there was no room in memory")]
    NoMemory,
}

impl From<NoMemory> for BucketFault {
    ghost use Rattle.ix_export.specs.declared.fault.BucketFault.TheVariants as faults;

    ghost from_gives = { λ _ e. e ≡ faults.NoMemory };

    fn from(_: NoMemory) -> BucketFault {
        BucketFault::NoMemory
    }
}

/// The fault of a bucket that was not read from its file.
pub(crate) fn fault_of(file: File, fault: ReadFault) -> BucketFault
    ensures { result ≡ defs.fault_of file fault }
{
    match fault {
        ReadFault::Disk => BucketFault::Disk,
        ReadFault::BadRecord { at } => BucketFault::Damaged { file, at },
        ReadFault::NoMemory => BucketFault::NoMemory,
    }
}
