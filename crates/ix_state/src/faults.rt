//! Why kept settings are refused.

use ix_base::NoMemory as OutOfMemory;
use thiserror::Error;

/// Why kept settings give no values.
#[derive(Clone, Copy, Debug, PartialEq, Eq, Error)]
pub enum ConfigFault {
    /// They do not stand in order, or a value is none of its kind: no program has kept them.
    #[error("no program has kept these settings")]
    Unsound,
    /// There was no room in memory.
    #[error("there was no room in memory")]
    NoMemory,
}

impl From<OutOfMemory> for ConfigFault {
    ghost use Rattle.std.specs.Prelude.{◌≡◌};
    ghost use Rattle.ix_state.specs.declared.faults.ConfigFault.TheVariants.{NoMemory as no_memory};

    ghost from_gives = { λ _ fault. fault ≡ no_memory };

    fn from(_: OutOfMemory) -> ConfigFault {
        ConfigFault::NoMemory
    }
}
