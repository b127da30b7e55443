//! What an item is.

ghost use Rattle.std.specs.Prelude.{◌≡◌};
ghost use Rattle.ix_items.specs.declared.items.ItemFault.TheVariants as faults;

use ix_base::{Bytes, ChannelMeta, File, NoMemory as OutOfMemory, Sequence, Spot};
use ix_coding::BadField;
use thiserror::Error;

/// What a bucket does: a hot one and a quarantine take events, a warm one and a cold one are kept,
/// a thawed one was brought back from its archive.
#[derive(Clone, Copy, Debug, PartialEq, Eq)]
pub enum State {
    Hot,
    Quarantine,
    Warm,
    Cold,
    Thawed,
}

/// A bucket: a file that begins with records of events. Times are microseconds since
/// 1970-01-01T00:00:00Z.
#[derive(Clone, Copy, Debug, PartialEq, Eq)]
pub struct Bucket {
    /// Its number in its index.
    pub id: u64,
    pub state: State,
    /// Where its records stand.
    pub file: File,
    /// How many bytes of the file are records that count.
    pub bytes: u64,
    /// How many events it has.
    pub count: u64,
    /// The latest time of an event in it.
    pub newest: i64,
    /// The earliest time of an event in it.
    pub oldest: i64,
    /// How many events the store had placed when its last event was, that event included.
    pub used: u64,
    /// The moment of the command that placed its last event.
    pub touched: i64,
}

/// Why a bucket was frozen: the age of its events, the bytes of the cold buckets, or the bytes of
/// all buckets.
#[derive(Clone, Copy, Debug, PartialEq, Eq)]
pub enum Rule {
    Age,
    Cold,
    Total,
}

/// A frozen bucket, as the ledger has it. Times are microseconds since 1970-01-01T00:00:00Z.
#[derive(Drop)]
pub struct Entry {
    pub index: Bytes,
    /// The bucket's number in its index.
    pub id: u64,
    pub rule: Rule,
    /// When it was frozen.
    pub moment: i64,
    /// How many events it had.
    pub count: u64,
    pub newest: i64,
    pub oldest: i64,
    /// How many bytes its records had.
    pub bytes: u64,
    /// The number of the archive's file, or `None` where the bucket was deleted. No archive has the
    /// number 0.
    pub archive: Option<u64>,
}

/// A setting that is kept with the store.
#[derive(Drop)]
pub struct Kept {
    /// The file that it comes from: 1 props, 2 transforms, 3 indexes, 4 zones.
    pub file: u8,
    pub stanza: Bytes,
    pub key: Bytes,
    pub value: Bytes,
}

/// A list of settings.
pub type KeptList = Sequence<Kept>;

/// A list of files.
pub type FileList = Sequence<File>;

/// One change of the store's state. It replaces what stood under its name.
#[derive(Drop)]
pub enum Item {
    /// The settings that the store is kept with.
    Settings {
        kept: KeptList,
    },
    /// The number of the run that writes from here on.
    Run {
        run: u64,
    },
    /// The moments of the last command and of the last Tick, in microseconds since
    /// 1970-01-01T00:00:00Z.
    Moments {
        last: i64,
        tick: i64,
    },
    /// An open channel, with what its stream has left open.
    Channel {
        name: Bytes,
        meta: ChannelMeta,
        carry: Bytes,
    },
    /// A channel that has ended.
    Ended {
        name: Bytes,
    },
    /// A bucket of an index.
    Bucket {
        index: Bytes,
        bucket: Bucket,
    },
    /// A bucket that is gone.
    Gone {
        index: Bytes,
        id: u64,
    },
    /// A bucket that was frozen.
    Ledger {
        entry: Entry,
    },
    /// How many events were settled, nulled, dropped and placed so far.
    Counts {
        settled: u64,
        nulled: u64,
        dropped: u64,
        placed: u64,
    },
    /// How far a watched file was read.
    Spot {
        spot: Spot,
    },
    /// The number of the next file.
    NextFile {
        number: u64,
    },
    /// The files that this commit leaves behind, to be removed after it.
    Removals {
        files: FileList,
    },
    /// The number of the next bucket of an index.
    NextId {
        index: Bytes,
        id: u64,
    },
}

/// Why no item was read.
#[derive(Clone, Copy, Debug, PartialEq, Eq, Error)]
pub enum ItemFault {
    /// No prefix of the bytes is an item.
    #[error("the bytes begin with no item")]
    BadItem,
    /// There was no room in memory.
    #[error("there was no room in memory")]
    NoMemory,
}

impl From<OutOfMemory> for ItemFault {
    ghost from_gives = { λ _ e. e ≡ faults.NoMemory };

    fn from(_: OutOfMemory) -> ItemFault {
        ItemFault::NoMemory
    }
}

impl From<BadField> for ItemFault {
    ghost from_gives = { λ _ e. e ≡ faults.BadItem };

    fn from(_: BadField) -> ItemFault {
        ItemFault::BadItem
    }
}
