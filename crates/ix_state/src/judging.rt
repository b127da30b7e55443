//! Why a command is refused, bounds and memory aside, and when a Tick comes before it. The store
//! asks before it works a command out.

ghost use Rattle.std.specs.Prelude.{◌≡◌, ◌+ℤ◌, ◌*◌, pos, List, is_some};
ghost use Rattle.std.specs.List.{list_all};
ghost use Rattle.std.specs.Option.{option_copied};
ghost use Rattle.ix_model.specs.declared.commands.Direct.{Direct};
ghost use Rattle.ix_model.specs.declared.commands.TimedCommand.{TimedCommand};
ghost use Rattle.ix_model.specs.Given.{Chooser};
ghost use Rattle.ix_model.specs.Judged as machine;
ghost use Rattle.ix_model.specs.Ledger.{is_of as ledger_is_of};
ghost use Rattle.ix_model.specs.Step.{state_after, effective};
ghost use Rattle.ix_catalog.specs.Lists.{find};
ghost use Rattle.ix_catalog.specs.Shelves.{view_name, by_id};
ghost use Rattle.ix_state.specs.Causes as defs;
ghost use Rattle.ix_state.specs.Held.{SeesChannels, SeesStorage, shelves_of};

use crate::state::StoreState;
use ix_base::{Bytes, ChannelMeta, clamped};
use ix_items::{Bucket, Entry};
use ix_life::IndexView;
use ix_model::{Command, Direct, Refusal, TimedCommand};

/// How many channels are open at most.
const MOST_CHANNELS: usize = 256;

/// What is seen of the index of this name.
fn find_index<'a>(indexes: &'a [IndexView], name: &[u8]) -> Option<&'a IndexView>
    ensures { option_copied result ≡ find view_name name.now indexes.now }
{
    for view in indexes {
        if view.name.as_slice() == name {
            return Some(view);
        }
    }
    None
}

/// Whether an entry is that of the bucket of this number in this index.
fn is_of(entry: &Entry, index: &[u8], id: u64) -> bool
    ensures { result ≡ ledger_is_of index.now id entry.now }
{
    entry.index.as_slice() == index && entry.id == id
}

/// The entry of a bucket in the ledger.
fn find_entry<'a>(ledger: &'a [Entry], index: &[u8], id: u64) -> Option<&'a Entry>
    ensures { option_copied result ≡ defs.entry_in index.now id ledger.now }
{
    for entry in ledger {
        if is_of(entry, index, id) {
            return Some(entry);
        }
    }
    None
}

/// Whether a bucket of this number is among them.
fn has_bucket(buckets: &[Bucket], id: u64) -> bool
    ensures { result ≡ is_some (by_id id buckets.now) }
{
    for bucket in buckets {
        if bucket.id == id {
            return true;
        }
    }
    false
}

/// Why a frozen bucket cannot be brought back.
fn by_entry(entry: Option<&Entry>, is_seen: bool) -> Option<Refusal>
    ensures { result ≡ defs.by_entry (option_copied entry.entry) is_seen }
{
    let Some(entry) = entry else {
        return Some(Refusal::NoBucket);
    };
    match entry.archive {
        None => Some(Refusal::NotArchived),
        Some(_) => {
            if is_seen {
                Some(Refusal::AlreadyThawed)
            } else {
                None
            }
        }
    }
}

/// The moment so many seconds past a Tick, which 64 bits may not hold.
fn due_from(tick: i64, secs: u64) -> i128
    ensures { result ≡ tick +ℤ pos (secs * 1_000_000) }
{
    tick as i128 + secs as i128 * 1_000_000
}

/// Whether so many seconds or more are past since the last Tick.
fn is_past(moment: i64, tick: i64, secs: u64) -> bool
    ensures { result ≡ defs.is_past moment tick secs }
{
    moment as i128 >= due_from(tick, secs)
}

/// Whether a command is preceded by a Tick where one is due.
fn waits_for_tick(command: &Command) -> bool
    ensures { result ≡ machine.waits_for_tick command.now }
{
    match command {
        Command::Begin { .. } => true,
        Command::Block { .. } => true,
        Command::End { .. } => true,
        Command::Tick => false,
        Command::Roll { .. } => false,
        Command::Thaw { .. } => false,
        Command::Configure { .. } => false,
        Command::Direct { .. } => true,
    }
}

impl StoreState {
    /// Whether the channel of this name is open.
    fn is_open(&self, channel: &[u8]) -> bool
        ensures { result ≡ defs.is_open self.now channel.now }
    {
        self.channels
            .iter()
            .any(|open| open.name.as_slice() == channel)
    }

    /// Whether the index, which is the default one where none is named, is configured.
    fn is_configured(&self, index: &Option<Bytes>) -> bool
        ensures { result ≡ defs.is_configured self.now index.now }
    {
        let limits = &self.config.limits;
        match index {
            Some(index) => limits.limits(index.as_slice()).is_some(),
            None => limits.limits(limits.default_database.as_slice()).is_some(),
        }
    }

    /// Why no channel of this name can be begun.
    fn begin_cause(&self, channel: &[u8], meta: &ChannelMeta) -> Option<Refusal>
        ensures { result ≡ defs.begin_cause self.now channel.now meta.now }
    {
        if self.is_open(channel) {
            Some(Refusal::ChannelOpen)
        } else if !self.is_configured(&meta.index) {
            Some(Refusal::UnknownIndex)
        } else if self.channels.len() >= MOST_CHANNELS {
            Some(Refusal::TooManyChannels)
        } else {
            None
        }
    }

    /// Why a channel of this name takes no bytes and cannot end.
    fn channel_cause(&self, channel: &[u8]) -> Option<Refusal>
        ensures { result ≡ defs.channel_cause self.now channel.now }
    {
        if self.is_open(channel) {
            None
        } else {
            Some(Refusal::NoChannel)
        }
    }

    /// Why the buckets of an index cannot be rolled.
    fn roll_cause(&self, index: &[u8]) -> Option<Refusal>
        ensures { result ≡ defs.roll_cause self.now index.now }
    {
        if find_index(self.view.indexes.as_slice(), index).is_some() {
            None
        } else {
            Some(Refusal::UnknownIndex)
        }
    }

    /// Why a bucket cannot be brought back.
    fn thaw_cause(&self, index: &[u8], id: u64) -> Option<Refusal>
        ensures { result ≡ defs.by_view self.now.view.ledger index.now id (defs.seen self.now index.now) }
    {
        match find_index(self.view.indexes.as_slice(), index) {
            None => Some(Refusal::UnknownIndex),
            Some(view) => by_entry(
                find_entry(self.view.ledger.as_slice(), index, id),
                has_bucket(view.buckets.as_slice(), id),
            ),
        }
    }

    /// Whether the indexes of all events are configured.
    fn all_configured(&self, events: &[Direct]) -> bool
        ensures { result ≡ list_all (λ (d : Direct). defs.is_configured self.now d.meta.index) events.now }
    {
        events
            .iter()
            .all(|event| self.is_configured(&event.meta.index))
    }

    /// Why events that come already cut cannot be put.
    fn direct_cause(&self, events: &[Direct]) -> Option<Refusal>
        ensures { result ≡ defs.direct_cause self.now events.now }
    {
        if self.all_configured(events) {
            None
        } else {
            Some(Refusal::UnknownIndex)
        }
    }

    fn cause(&self, command: &Command) -> Option<Refusal>
        ensures { result ≡ defs.cause self.now command.now }
    {
        match command {
            Command::Begin { channel, meta } => self.begin_cause(channel.as_slice(), meta),
            Command::Block { channel, .. } => self.channel_cause(channel.as_slice()),
            Command::End { channel } => self.channel_cause(channel.as_slice()),
            Command::Tick => None,
            Command::Roll { index } => self.roll_cause(index.as_slice()),
            Command::Thaw { index, id } => self.thaw_cause(index.as_slice(), *id),
            Command::Configure { .. } => None,
            Command::Direct { events } => self.direct_cause(events.as_slice()),
        }
    }

    /// Why a command is refused in this state, bounds and memory aside: the first cause that holds,
    /// or `None` where none does. A store that is closed refuses all of them. It takes no memory.
    pub fn refusal(&self, command: &Command) -> Option<Refusal>
        ensures { (choose : Chooser) (history : List TimedCommand) → SeesChannels (state_after choose history) self.now →
            SeesStorage (state_after choose history) (shelves_of self.now) self.now.view.ledger self.now.last self.now.tick →
            result ≡ machine.judged (state_after choose history) command.now }
    {
        self.cause(command)
    }

    /// The moment that a command has which is given at this one, in microseconds since
    /// 1970-01-01T00:00:00Z: it is in the range of moments, and not behind that of the last
    /// command.
    pub fn effective(&self, moment: i64) -> i64
        ensures own { result ≡ effective self.now.last moment }
        ensures seen { (choose : Chooser) (history : List TimedCommand) →
            SeesStorage (state_after choose history) (shelves_of self.now) self.now.view.ledger self.now.last self.now.tick →
            result ≡ effective (state_after choose history).last moment }
    {
        self.last.max(clamped(moment))
    }

    fn is_due(&self, order: &TimedCommand) -> bool
        ensures { result ≡ defs.needs_tick self.now order.now }
    {
        waits_for_tick(&order.command)
            && is_past(
                self.effective(order.moment),
                self.tick,
                self.config.limits.rotate_secs,
            )
    }

    /// Whether a Tick comes before a command: one that adds to channels or puts events, a rotation
    /// or more past the last Tick. It takes no memory.
    pub fn needs_tick(&self, order: &TimedCommand) -> bool
        ensures { (choose : Chooser) (history : List TimedCommand) → SeesChannels (state_after choose history) self.now →
            SeesStorage (state_after choose history) (shelves_of self.now) self.now.view.ledger self.now.last self.now.tick →
            result ≡ machine.needs_tick (state_after choose history) order.now }
    {
        self.is_due(order)
    }
}
