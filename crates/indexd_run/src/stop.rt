//! Why a run over a store stops. The program says it with its status.

ghost use Rattle.std.specs.Prelude.{◌≡◌};
ghost use Rattle.indexd_run.specs.Stops as defs;

use ix_base::{File, NoMemory};
use ix_commit::CommitFault;
use ix_manifest::CheckpointFault;
use ix_model::Refusal;
use ix_run::{GiveFault, RunFault};
use ix_store::{ExportFault, MountFault};
use thiserror::Error;

/// Why a run over a store stops before its end.
#[derive(Clone, Copy, Debug, PartialEq, Eq, Error)]
pub enum Stop {
    /// There was no room in memory.
    #[error("there was no room in memory")]
    Memory,
    /// The disk has failed.
    #[error("the disk failed")]
    Disk,
    /// In this file, from this place on, does not stand what was committed.
    #[error("the file {file:?} is damaged at byte {at}")]
    Damaged { file: File, at: u64 },
    /// What is in memory contradicts a command of the run: it is refused in its turn, or lacks what
    /// it was just given for. A run over a disk that stands for a history never stops so (`sound`
    /// of the runs).
    #[error("what is in memory contradicts a command")]
    Inconsistent,
    /// What is named is not there.
    #[error("what is named is not there")]
    NotFound,
    /// 256 channels are open.
    #[error("256 channels are open")]
    TooManyChannels,
    /// The store would come to pass the bounds of what it can keep.
    #[error("the store is full")]
    Full,
    /// What the text is written to has failed. What was to be done to the store is done.
    #[error("writing failed")]
    Output,
    /// Reading the input failed. What was read before is stored.
    #[error("reading failed")]
    Input,
    /// As much of the input was taken as is taken of one, and is stored.
    #[error("the input is too long")]
    Endless,
}

impl From<NoMemory> for Stop {
    ghost use Rattle.indexd_run.specs.declared.stop.Stop.TheVariants.{Memory as memory};

    ghost from_gives = { λ _ stop. stop ≡ memory };

    fn from(_: NoMemory) -> Stop {
        Stop::Memory
    }
}

/// Whether the disk has failed, or did not keep what was committed. The store is closed then.
pub(crate) fn loses(stop: Stop) -> bool
    ensures { result ≡ defs.loses stop }
{
    match stop {
        Stop::Disk | Stop::Damaged { .. } => true,
        Stop::Memory | Stop::Inconsistent | Stop::NotFound => false,
        Stop::TooManyChannels | Stop::Full => false,
        Stop::Output | Stop::Input | Stop::Endless => false,
    }
}

/// Why nothing was mounted.
pub fn of_mount(fault: MountFault) -> Stop
    ensures { result ≡ defs.of_mount fault }
{
    match fault {
        MountFault::Disk => Stop::Disk,
        MountFault::Damaged { file, at } => Stop::Damaged { file, at },
        MountFault::Full => Stop::Full,
        MountFault::NoMemory => Stop::Memory,
    }
}

/// Why a command was refused. A store that was mounted in this run is not closed, and a run begins
/// a channel that is not open, so the first causes do not come.
pub fn of_refusal(refusal: Refusal) -> Stop
    ensures { result ≡ defs.of_refusal refusal }
{
    match refusal {
        Refusal::Closed | Refusal::NoChannel | Refusal::ChannelOpen => Stop::Inconsistent,
        Refusal::UnknownIndex => Stop::NotFound,
        Refusal::NoBucket | Refusal::NotArchived | Refusal::AlreadyThawed => Stop::NotFound,
        Refusal::TooManyChannels => Stop::TooManyChannels,
        Refusal::Full => Stop::Full,
        Refusal::NoMemory => Stop::Memory,
    }
}

/// Why nothing was committed.
pub fn of_commit(fault: CommitFault) -> Stop
    ensures { result ≡ defs.of_commit fault }
{
    match fault {
        CommitFault::Disk => Stop::Disk,
        CommitFault::Damaged { file, at } => Stop::Damaged { file, at },
    }
}

/// Why the log was not made short.
pub fn of_checkpoint(fault: CheckpointFault) -> Stop
    ensures { result ≡ defs.of_checkpoint fault }
{
    match fault {
        CheckpointFault::Disk => Stop::Disk,
        CheckpointFault::NoMemory => Stop::Memory,
    }
}

/// Why a run stops whose command was not given: as for what the store refused it for, or as for what
/// the disk failed at.
pub fn of_give(fault: GiveFault) -> Stop
    ensures { result ≡ defs.of_give fault }
{
    match fault {
        GiveFault::Refused(refusal) => of_refusal(refusal),
        GiveFault::Commit(fault) => of_commit(fault),
    }
}

/// Why an export was not finished.
pub fn of_export(fault: ExportFault) -> Stop
    ensures { result ≡ defs.of_export fault }
{
    match fault {
        ExportFault::Closed => Stop::Inconsistent,
        ExportFault::UnknownIndex => Stop::NotFound,
        ExportFault::Disk => Stop::Disk,
        ExportFault::Damaged { file, at } => Stop::Damaged { file, at },
        ExportFault::Output => Stop::Output,
        ExportFault::NoMemory => Stop::Memory,
    }
}

/// Why an input was not stored.
pub fn of_run(fault: RunFault) -> Stop
    ensures { result ≡ defs.of_run fault }
{
    match fault {
        RunFault::Given(fault) => of_give(fault),
        RunFault::Input => Stop::Input,
        RunFault::Endless => Stop::Endless,
    }
}
