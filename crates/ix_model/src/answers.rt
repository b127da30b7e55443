//! What a store answers to a command. `ix_store` answers it; whoever gives commands reads it.

use thiserror::Error;

/// A command was accepted.
#[derive(Clone, Copy, Debug, PartialEq, Eq)]
pub struct Accepted {
    /// The number of the run of the store.
    pub run: u64,
    /// The number that the command drew in this run; Block, End and Direct draw one.
    pub number: Option<u64>,
    /// How many buckets it rolled (Roll), froze (Tick) or thawed (Thaw), and 0 for the others.
    pub moved: u64,
}

/// Why a command is refused. Of several causes the first one counts, in the order of the variants.
#[derive(Clone, Copy, Debug, PartialEq, Eq, Error)]
pub enum Refusal {
    /// The store has answered that its disk failed or is damaged.
    #[error("the store is closed behind a fault of its disk")]
    Closed,
    /// The channel of Block or End is not open.
    #[error("the channel is not open")]
    NoChannel,
    /// The channel of Begin is open.
    #[error("the channel is open already")]
    ChannelOpen,
    /// The index of Begin or of an event of Direct is not configured, or that of Roll or Thaw
    /// neither that nor retired.
    #[error("the index is not configured")]
    UnknownIndex,
    /// No bucket of this number was frozen in the index of Thaw.
    #[error("no bucket of this number was frozen")]
    NoBucket,
    /// The bucket was deleted when it was frozen.
    #[error("the bucket was deleted when it was frozen")]
    NotArchived,
    /// The bucket is thawed.
    #[error("the bucket is thawed already")]
    AlreadyThawed,
    /// 256 channels are open.
    #[error("256 channels are open")]
    TooManyChannels,
    /// The store would come to pass the bounds of what it can keep.
    #[error("the store has no room for it")]
    Full,
    /// There is no room in memory. It may come at any time.
    #[error("there was no room in memory")]
    NoMemory,
}
