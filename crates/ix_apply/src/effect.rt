//! What one command leads to, and why it is not worked out. `context` makes it; the state machine
//! joins it with that of a Tick.

ghost use Rattle.std.specs.Prelude.{◌≡◌};
ghost use Rattle.ix_apply.specs.Faults.{by_move, by_work, refusal_of};
ghost use Rattle.ix_apply.specs.declared.effect.StepFault.TheVariants as faults;

use crate::next::Next;
use crate::spots::SpotChange;
use ix_base::{NoMemory as OutOfMemory, Sequence};
use ix_channels::WorkFault;
use ix_commit::WriteBatch;
use ix_effects::MoveFault;
use ix_items::{FileList, Item};
use ix_model::{Config, Refusal};
use ix_state::CatalogState;
use thiserror::Error;

/// What becomes of settings and spots.
#[derive(Drop)]
pub(crate) struct Beside {
    pub(crate) config: Option<Config>,
    pub(crate) spot: SpotChange,
    /// What the log says of them.
    pub(crate) items: Sequence<Item>,
}

/// What one command leads to.
#[derive(Drop)]
pub struct Effect {
    /// The state in memory then.
    pub next: Next,
    /// What it adds to the disk.
    pub draft: WriteBatch,
    /// The files that it is done with.
    pub done_with: FileList,
    /// How many buckets it rolls, freezes or thaws.
    pub moved: u64,
}

/// Why a command is not worked out.
#[derive(Clone, Copy, Debug, PartialEq, Eq, Error)]
pub enum StepFault {
    /// It would pass the bounds of what a store can keep.
    #[error("the store has no room for it")]
    Full,
    /// There was no room in memory.
    #[error("there was no room in memory")]
    NoMemory,
}

impl From<OutOfMemory> for StepFault {
    ghost from_gives = { λ _ e. e ≡ faults.NoMemory };

    fn from(_: OutOfMemory) -> StepFault {
        StepFault::NoMemory
    }
}

impl From<WorkFault> for StepFault {
    ghost from_gives = { λ fault e. e ≡ by_work fault };

    fn from(fault: WorkFault) -> StepFault {
        match fault {
            WorkFault::Full => StepFault::Full,
            WorkFault::NoMemory => StepFault::NoMemory,
        }
    }
}

impl From<MoveFault> for StepFault {
    ghost from_gives = { λ fault e. e ≡ by_move fault };

    fn from(fault: MoveFault) -> StepFault {
        match fault {
            MoveFault::Full => StepFault::Full,
            MoveFault::NoMemory => StepFault::NoMemory,
        }
    }
}

/// What a fault is to whoever gives a command.
pub fn refusal_of(fault: StepFault) -> Refusal
    ensures { result ≡ refusal_of fault }
{
    match fault {
        StepFault::Full => Refusal::Full,
        StepFault::NoMemory => Refusal::NoMemory,
    }
}
