//! Lines, events, what an event comes to, and what is known of the channel that it came by.

ghost use Rattle.std.specs.Prelude.{◌≡◌, IfOk};

use crate::faults::NoMemory;
use crate::sequences::{Bytes, Sequence};

/// An event with its fields. `time` and `arrival` are microseconds since 1970-01-01T00:00:00Z.
#[derive(Drop)]
pub struct Event {
    /// When it happened.
    pub time: i64,
    /// When its first byte arrived.
    pub arrival: i64,
    /// The index that it belongs to.
    pub index: Bytes,
    pub host: Bytes,
    pub source: Bytes,
    pub sourcetype: Bytes,
    /// Indexed fields, as `key::value` with spaces between.
    pub meta: Bytes,
    /// The text.
    pub raw: Bytes,
}

/// A line of a stream, without the break that ended it. It is not empty.
#[derive(Drop)]
pub struct Line {
    /// Its bytes.
    pub bytes: Bytes,
    /// When its first byte came, in microseconds since 1970-01-01T00:00:00Z.
    pub moment: i64,
}

/// Lines, the first one first.
pub type LineList = Sequence<Line>;

/// What an event comes to.
#[derive(Drop)]
pub enum Routed {
    /// It goes to the index that it names.
    To(Event),
    /// It goes to the null queue: it is counted and not kept.
    Null,
}

/// What events come to, the first one first.
pub type RoutedList = Sequence<Routed>;

/// An event whose fields are lent.
#[derive(Clone, Copy)]
pub struct EventRef<'a> {
    pub time: i64,
    pub arrival: i64,
    pub index: &'a [u8],
    pub host: &'a [u8],
    pub source: &'a [u8],
    pub sourcetype: &'a [u8],
    pub meta: &'a [u8],
    pub raw: &'a [u8],
}

impl Event {
    ghost use Rattle.ix_base.specs.Lent.{lent_event};

    /// The event with its fields lent.
    pub fn lend(&self) -> EventRef<'_>
        ensures { lent_event result ≡ self.now }
    {
        EventRef {
            time: self.time,
            arrival: self.arrival,
            index: self.index.as_slice(),
            host: self.host.as_slice(),
            source: self.source.as_slice(),
            sourcetype: self.sourcetype.as_slice(),
            meta: self.meta.as_slice(),
            raw: self.raw.as_slice(),
        }
    }
}

/// What a channel states of the events that come by it, 1 to 1,024 bytes each.
#[derive(Drop)]
pub struct ChannelMeta {
    pub host: Bytes,
    pub source: Bytes,
    /// `None` leaves the choice to the settings.
    pub sourcetype: Option<Bytes>,
    /// `None` is the default index.
    pub index: Option<Bytes>,
}

fn copy_some(bytes: &Option<Bytes>) -> Result<Option<Bytes>, NoMemory>
    ensures { IfOk result (λ copy. copy ≡ bytes.now) }
{
    match bytes {
        Some(bytes) => Ok(Some(bytes.copy()?)),
        None => Ok(None),
    }
}

impl ChannelMeta {
    /// A copy of it.
    pub fn copy(&self) -> Result<ChannelMeta, NoMemory>
        ensures { IfOk result (λ copy. copy ≡ self.now) }
    {
        Ok(ChannelMeta {
            host: self.host.copy()?,
            source: self.source.copy()?,
            sourcetype: copy_some(&self.sourcetype)?,
            index: copy_some(&self.index)?,
        })
    }
}

/// How far a watched file has been read.
pub struct Spot {
    pub path: Bytes,
    /// The first bytes of the file, at most 256.
    pub head: Bytes,
    /// How many bytes of it were read.
    pub offset: u64,
}

/// It is written out, so that each place where one is let go is a call of it, which is proved once.
impl Drop for Spot {
    fn drop(self) {
        let Spot {
            path: _,
            head: _,
            offset: _,
        } = self;
    }
}

/// A range of times in whole seconds since 1970: from `earliest` on, and before `latest`.
#[derive(Clone, Copy, Debug, PartialEq, Eq)]
pub struct Range {
    pub earliest: Option<i64>,
    pub latest: Option<i64>,
}
