//! Why a selftest comes to no text. `summary` answers it, and `sending` and `filling` make it of
//! what they meet.

ghost use Rattle.std.specs.Prelude.{◌≡◌};
ghost use Rattle.indexd_selftest.specs.Faults as defs;

use ix_base::NoMemory as OutOfMemory;
use ix_commit::CommitFault;
use ix_model::Refusal;
use ix_run::GiveFault;
use ix_serve::{ServeFault, Served};
use ix_store::MountFault;
use thiserror::Error;

/// Why a selftest comes to no text.
#[derive(Clone, Copy, Debug, PartialEq, Eq, Error)]
pub enum SelftestFault {
    /// There was no room in memory. It is also answered where a reply is 503, and where a call of
    /// the disk or of a link failed: both are in memory, and fail only for want of it.
    #[error("there was no room in memory")]
    NoMemory,
    /// There was no room in the store: a command would lead to a state that does not keep its
    /// bounds, or it has no further run.
    #[error("there was no room in the store")]
    Full,
}

impl From<OutOfMemory> for SelftestFault {
    ghost use Rattle.indexd_selftest.specs.declared.fault.SelftestFault.TheVariants.{NoMemory as no_memory};

    ghost from_gives = { λ _ fault. fault ≡ no_memory };

    fn from(_: OutOfMemory) -> SelftestFault {
        SelftestFault::NoMemory
    }
}

/// Whether a reply with this status was written.
pub(crate) fn is_replied(came: Result<Served, ServeFault>, wanted: u16) -> bool
    ensures { result ≡ defs.is_replied came wanted }
{
    match came {
        Ok(Served::Reply { status, .. }) => status == wanted,
        Ok(Served::Ended) => false,
        Err(_) => false,
    }
}

/// What it is that a request was not replied to as it should be.
pub(crate) fn of_served(came: Result<Served, ServeFault>) -> SelftestFault
    ensures { result ≡ defs.of_served came }
{
    match came {
        Ok(Served::Reply { status, .. }) => {
            if status == 503 {
                SelftestFault::NoMemory
            } else {
                SelftestFault::Full
            }
        }
        Ok(Served::Ended) => SelftestFault::Full,
        Err(ServeFault::Disk | ServeFault::Link) => SelftestFault::NoMemory,
        Err(ServeFault::Damaged { .. } | ServeFault::Cut) => SelftestFault::Full,
    }
}

/// What a refusal is.
fn of_refusal(refusal: Refusal) -> SelftestFault
    ensures { result ≡ defs.of_refusal refusal }
{
    match refusal {
        Refusal::NoMemory => SelftestFault::NoMemory,
        Refusal::Closed | Refusal::NoChannel | Refusal::ChannelOpen => SelftestFault::Full,
        Refusal::UnknownIndex | Refusal::NoBucket => SelftestFault::Full,
        Refusal::NotArchived | Refusal::AlreadyThawed => SelftestFault::Full,
        Refusal::TooManyChannels | Refusal::Full => SelftestFault::Full,
    }
}

/// What a fault of a commit is.
pub(crate) fn of_commit(fault: CommitFault) -> SelftestFault
    ensures { result ≡ defs.of_commit fault }
{
    match fault {
        CommitFault::Disk => SelftestFault::NoMemory,
        CommitFault::Damaged { .. } => SelftestFault::Full,
    }
}

/// What it is that a command was not given.
pub(crate) fn of_give(fault: GiveFault) -> SelftestFault
    ensures { result ≡ defs.of_give fault }
{
    match fault {
        GiveFault::Refused(refusal) => of_refusal(refusal),
        GiveFault::Commit(fault) => of_commit(fault),
    }
}

/// What it is that no store was mounted.
pub(crate) fn of_mount(fault: MountFault) -> SelftestFault
    ensures { result ≡ defs.of_mount fault }
{
    match fault {
        MountFault::Disk | MountFault::NoMemory => SelftestFault::NoMemory,
        MountFault::Damaged { .. } | MountFault::Full => SelftestFault::Full,
    }
}
