//! The names of files of the store.

/// A part of the store: each holds files of its own.
#[derive(Clone, Copy, Debug, PartialEq, Eq)]
pub enum Area {
    /// The logs of the store.
    Meta,
    /// Buckets that take events, and warm ones.
    Home,
    /// Cold buckets.
    Cold,
    /// Archives of frozen buckets.
    Frozen,
    /// Buckets brought back from an archive.
    Thawed,
}

/// A file of the store: its area and its number there.
#[derive(Clone, Copy, Debug, PartialEq, Eq)]
pub struct File {
    pub area: Area,
    pub number: u64,
}
