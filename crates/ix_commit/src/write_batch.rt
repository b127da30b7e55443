//! What a command adds to a store, worked out and not yet staged.

use crate::file_copy::FileCopy;
use ix_base::{Bytes, Sequence};
use ix_items::Item;

/// Bytes for a file, behind those that it has.
#[derive(Drop)]
pub struct Append {
    /// The number of the file, in the area of buckets that take events.
    pub number: u64,
    /// How many bytes the file has.
    pub at: u64,
    pub bytes: Bytes,
}

/// What a command adds: bytes, then copies, then items. Of several items under one name the last
/// counts.
#[derive(Drop)]
pub struct WriteBatch {
    pub pieces: Sequence<Append>,
    pub copies: Sequence<FileCopy>,
    pub items: Sequence<Item>,
}
