//! The crash layer of a store: a snapshot, which is the items of the current log and what the files
//! of buckets begin with, is kept on a disk whatever a stop leaves.
#![tactic(auto)]

mod checkpointing;
mod committer;
mod committing;
mod copying;
mod drafting;
mod fault;
mod file_copy;
mod laws;
mod mounting;
mod removing;
mod staged_append;
mod write_batch;

pub use checkpointing::checkpoint;
pub use committer::{Committer, StageFault};
pub use committing::commit;
pub use drafting::{stage, stage_both};
pub use fault::CommitFault;
pub use file_copy::{CopyTarget, FileCopy};
pub use laws::{
    bad_logs_lead_nowhere, begun_has_run, empty_disk_keeps, forgets, leads_to_one_book,
    same_stages, wants_for_a_long_log,
};
pub use mounting::{MountFault, PendingMount, finish_mount, mount, prepare_mount};
pub use staged_append::StagedAppend;
pub use write_batch::{Append, WriteBatch};
