//! What a store has in memory. The store keeps one of these; commands are judged by it and worked
//! out from it.

use ix_base::{Bytes, ChannelMeta, Spot};
use ix_catalog::IndexTable;
use ix_life::{EntryList, View};
use ix_model::Config;
use ix_parse::Channel;

/// An open channel.
pub struct OpenChannel {
    pub name: Bytes,
    /// What it states of its events, with the index that holds.
    pub meta: ChannelMeta,
    pub channel: Channel,
}

/// It is written out, so that each place where one is let go is a call of it, which is proved once.
impl Drop for OpenChannel {
    fn drop(self) {
        let OpenChannel {
            name: _,
            meta: _,
            channel: _,
        } = self;
    }
}

/// The state of a store.
pub struct StoreState {
    /// The settings in force.
    pub config: Config,
    /// The open channels, in the order of the bytes of their names.
    pub channels: Vec<OpenChannel>,
    /// How far watched files were read, in the order of the bytes of their paths.
    pub spots: Vec<Spot>,
    /// What is seen of it.
    pub view: View,
    /// How many events were placed.
    pub placed: u64,
    /// The number that the next file has.
    pub next_file: u64,
    /// The moment of the last command, in microseconds since 1970-01-01T00:00:00Z.
    pub last: i64,
    /// The moment of the last Tick.
    pub tick: i64,
}

/// It is written out, so that each place where one is let go is a call of it, which is proved once.
impl Drop for StoreState {
    fn drop(self) {
        let StoreState {
            config: _,
            channels: _,
            spots: _,
            view: _,
            placed: _,
            next_file: _,
            last: _,
            tick: _,
        } = self;
    }
}

/// What a command leaves of a state beside its channels, spots and settings, worked out and not yet
/// taken.
#[derive(Drop)]
pub struct CatalogState {
    /// The indexes, the counts and the number of the next file.
    pub shelves: IndexTable,
    /// The ledger, where entries come to it.
    pub ledger: Option<EntryList>,
    /// The moment of the last command, in microseconds since 1970-01-01T00:00:00Z.
    pub last: i64,
    /// The moment of the last Tick.
    pub tick: i64,
}
