//! What a command is worked out from, and what it makes of that. The store's memory puts the first
//! together and takes the second.

ghost use Rattle.std.specs.Prelude.{◌≡◌};
ghost use Rattle.ix_effects.specs.Working.{by_deal};
ghost use Rattle.ix_effects.specs.declared.catalog_effect.MoveFault.TheVariants as faults;

use ix_base::{NoMemory as OutOfMemory, Sequence};
use ix_catalog::DealFault;
use ix_commit::{Append, FileCopy};
use ix_items::{Entry, FileList, Item};
use ix_life::LimitSet;
use ix_state::CatalogState;
use std::alloc::Global;
use thiserror::Error;

/// What a command makes of a state beside its channels, spots and settings.
#[derive(Drop)]
pub struct CatalogEffect {
    /// What is left, not yet taken.
    pub storage: CatalogState,
    /// Bytes for the files of buckets.
    pub pieces: Sequence<Append>,
    /// What is to be copied behind them.
    pub copies: Sequence<FileCopy>,
    /// What changed, for the log.
    pub items: Sequence<Item>,
    /// Files that no bucket has any more.
    pub done_with: FileList,
    /// How many buckets it rolls, freezes or thaws.
    pub moved: u64,
}

/// Why nothing was worked out.
#[derive(Clone, Copy, Debug, PartialEq, Eq, Error)]
pub enum MoveFault {
    /// The state before the command or behind it does not keep the bounds of a store.
    #[error("the store has no room for it")]
    Full,
    /// There was no room in memory.
    #[error("there was no room in memory")]
    NoMemory,
}

impl From<OutOfMemory> for MoveFault {
    ghost from_gives = { λ _ e. e ≡ faults.NoMemory };

    fn from(_: OutOfMemory) -> MoveFault {
        MoveFault::NoMemory
    }
}

impl From<DealFault> for MoveFault {
    ghost from_gives = { λ fault e. e ≡ by_deal fault };

    fn from(fault: DealFault) -> MoveFault {
        match fault {
            DealFault::Full => MoveFault::Full,
            DealFault::NoMemory => MoveFault::NoMemory,
        }
    }
}

/// What a command is worked out from.
#[derive(Drop)]
pub struct Base<'a> {
    /// Where memory is taken from.
    pub alloc: Global,
    /// The limits of the indexes by the settings in force.
    pub set: &'a LimitSet,
    /// The ledger of the state in memory.
    pub ledger: &'a [Entry],
    /// What the commands before have left, with the ledger where entries came to it.
    pub storage: &'a CatalogState,
    /// The moment of the command, in microseconds since 1970-01-01T00:00:00Z, not behind that of
    /// the last one.
    pub moment: i64,
}
