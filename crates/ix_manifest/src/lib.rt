//! The book of a store: what the items of its log lead to, how staged items are kept and become a
//! further body, and what a checkpoint writes: the whole state of a store as the one body of a
//! further log, and that log's number in the root log. The committer calls it.
#![tactic(auto)]

mod fault;
mod keys;
mod manifest_state;
mod names;
mod plain;
mod putting;
mod repeats;
mod root;
mod rooting;
mod slots;
mod staged_item;
mod whole;
mod writing;

pub use fault::CheckpointFault;
pub use keys::key_of;
pub use manifest_state::{ManifestState, ReplayFault, bad_gate_replays_nothing, replay_log};
pub use names::{is_only, same_name};
pub use plain::PlainBook;
pub use putting::put_body;
pub use root::{log_file, read_root};
pub use rooting::put_number;
pub use slots::{drop_older, last_removals};
pub use staged_item::StagedItem;
pub use whole::Whole;
pub use writing::write_log;
