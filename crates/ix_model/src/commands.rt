//! The commands of a store, and the settings that it goes by. Whoever gives a store something to do
//! makes them.

use ix_base::{Bytes, ChannelMeta, Sequence, Spot};
use ix_items::KeptList;
use ix_life::LimitSet;
use ix_props::Props;

/// Settings that a store goes by: `props` and `limits` are what `kept` gives with the built-in time
/// zones.
pub struct Config {
    /// The settings of channels.
    pub props: Props,
    /// The limits of indexes.
    pub limits: LimitSet,
    /// The settings themselves, as they are kept with the store.
    pub kept: KeptList,
}

/// It is written out, so that each place where one is let go is a call of it, which is proved once.
impl Drop for Config {
    fn drop(self) {
        let Config {
            props: _,
            limits: _,
            kept: _,
        } = self;
    }
}

/// An event that comes already cut: no lines are looked for in it, and it is not merged with
/// others.
#[derive(Drop)]
pub struct Direct {
    /// What is known of where it comes from.
    pub meta: ChannelMeta,
    /// When it happened, in microseconds since 1970-01-01T00:00:00Z; `None` is the moment of its
    /// command.
    pub time: Option<i64>,
    /// The text. It is not empty.
    pub raw: Bytes,
}

/// Events that come already cut, the first one first.
pub type DirectList = Sequence<Direct>;

/// What a store is to do.
#[derive(Drop)]
pub enum Command {
    /// Opens a channel.
    Begin {
        /// Its name, at most 4,097 bytes.
        channel: Bytes,
        meta: ChannelMeta,
    },
    /// Adds bytes to the stream of an open channel, and puts the events that this settles.
    Block {
        channel: Bytes,
        /// At most 1,048,576 bytes.
        bytes: Bytes,
        /// How far the watched file was read that the bytes come from.
        spot: Option<Spot>,
    },
    /// Closes the stream of an open channel, puts the events that this settles, and ends the
    /// channel.
    End {
        channel: Bytes,
    },
    /// One turn of housekeeping.
    Tick,
    /// Rolls all hot and quarantine buckets of an index to warm.
    Roll {
        index: Bytes,
    },
    /// Brings a frozen bucket back from its archive.
    Thaw {
        index: Bytes,
        /// The bucket's number in its index.
        id: u64,
    },
    /// Ends all open channels, and puts other settings in force.
    Configure {
        config: Config,
    },
    /// Puts events that are already cut.
    Direct {
        /// At least one; their texts have together at most 1,048,576 bytes.
        events: DirectList,
    },
}

/// A command with the moment at which it is given, in microseconds since 1970-01-01T00:00:00Z.
#[derive(Drop)]
pub struct TimedCommand {
    pub command: Command,
    pub moment: i64,
}

/// Commands, the first one first.
pub type OrderList = Sequence<TimedCommand>;
