//! What a run is to do to a store. The words of the command line say it.

ghost use Rattle.std.specs.Prelude.{◌≡◌, IfOk};
ghost use Rattle.indexd_run.specs.Tasks as defs;

use ix_base::{Bytes, NoMemory, Range};
use ix_model::Command;
use std::alloc::Global;

/// What a run is to do to a store.
#[derive(Clone, Copy, Debug)]
pub enum Task<'a> {
    /// Lists the indexes and their buckets.
    Buckets,
    /// Writes the events of an index, a line each.
    Export {
        index: &'a str,
        /// The times of the events.
        range: Range,
    },
    /// Rolls the hot buckets of an index.
    Roll {
        index: &'a str,
    },
    /// Brings a frozen bucket back from the archive.
    Thaw {
        index: &'a str,
        /// The bucket's number in its index.
        id: u64,
    },
    /// A turn of housekeeping.
    Tick,
}

/// The command that the store is given, where it is given one.
pub(crate) fn command_of(alloc: Global, task: Task<'_>) -> Result<Option<Command>, NoMemory>
    ensures { IfOk result (λ command. command ≡ defs.command_in task.entry) }
{
    match task {
        Task::Buckets | Task::Export { .. } => Ok(None),
        Task::Roll { index } => {
            let index = Bytes::copy_of(alloc, index.as_bytes())?;
            Ok(Some(Command::Roll { index }))
        }
        Task::Thaw { index, id } => {
            let index = Bytes::copy_of(alloc, index.as_bytes())?;
            Ok(Some(Command::Thaw { index, id }))
        }
        Task::Tick => Ok(Some(Command::Tick)),
    }
}
