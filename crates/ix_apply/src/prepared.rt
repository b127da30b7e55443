//! What a command leads to with the Tick that may come before it. `making` makes it, and
//! `state_machine` hands it on.

use crate::effect::Effect;
use ix_commit::WriteBatch;
use ix_items::FileList;
use ix_state::CatalogState;

/// What a Tick leads to that comes before a command.
#[derive(Drop)]
pub(crate) struct Ticked {
    /// What is left then beside channels, spots and settings.
    pub(crate) storage: CatalogState,
    pub(crate) draft: WriteBatch,
    pub(crate) done_with: FileList,
}

/// What a command leads to with the Tick that may come before it.
#[derive(Drop)]
pub(crate) struct PreparedCommand {
    /// What the Tick adds to the disk, where there is one.
    pub(crate) first: Option<WriteBatch>,
    /// What the command leads to then; it is done with the files of both.
    pub(crate) step: Effect,
}
