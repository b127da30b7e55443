//! Why a pass stops.

use ix_run::GiveFault;
use thiserror::Error;

/// Why a pass over watched files stops before its end.
#[derive(Clone, Copy, Debug, PartialEq, Eq, Error)]
pub enum PassFault {
    /// A command was not given. Where there was no room in memory for it, it is refused as the
    /// store refuses one.
    #[error("{0}")]
    Given(GiveFault),
    /// Reading failed. What was read before is given.
    #[error("reading a watched file failed")]
    Input,
    /// There was no room in memory to read, or for the lines. What was read before is given.
    #[error("there was no room in memory")]
    Memory,
}
