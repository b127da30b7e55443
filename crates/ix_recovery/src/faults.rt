//! Why no state is made of the items of a log.

ghost use Rattle.std.specs.Prelude.{◌≡◌};
ghost use Rattle.ix_recovery.specs.Faults.{by_config};
ghost use Rattle.ix_recovery.specs.declared.faults.RecoveryFault.TheVariants as faults;

use ix_base::NoMemory as OutOfMemory;
use ix_state::ConfigFault;
use ix_store::FaultyItem;
use std::alloc::AllocFailed;
use thiserror::Error;

/// Why no state is made of the items of a log.
#[derive(Debug, Drop, Error)]
pub enum RecoveryFault {
    /// None comes of the item of this subject: the settings cannot be loaded, or what is carried of
    /// the channel is no carry.
    #[error("no state of a store comes of the item of {subject:?}")]
    Bad { subject: FaultyItem },
    /// There was no room in memory.
    #[error("there was no room in memory")]
    NoMemory,
}

impl From<OutOfMemory> for RecoveryFault {
    ghost from_gives = { λ _ e. e ≡ faults.NoMemory };

    fn from(_: OutOfMemory) -> RecoveryFault {
        RecoveryFault::NoMemory
    }
}

impl<T: Drop> From<AllocFailed<T>> for RecoveryFault {
    ghost from_gives = { λ _ e. e ≡ faults.NoMemory };

    fn from(_: AllocFailed<T>) -> RecoveryFault {
        RecoveryFault::NoMemory
    }
}

impl From<ConfigFault> for RecoveryFault {
    ghost from_gives = { λ fault e. e ≡ by_config fault };

    fn from(fault: ConfigFault) -> RecoveryFault {
        match fault {
            ConfigFault::Unsound => RecoveryFault::Bad {
                subject: FaultyItem::Settings,
            },
            ConfigFault::NoMemory => RecoveryFault::NoMemory,
        }
    }
}
