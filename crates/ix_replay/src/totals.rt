//! What items add up to, as they come and go. A mount asks it behind each body, in place of going
//! over all.

ghost use Rattle.std.specs.Prelude.{◌≡◌, ◌+◌, ◌-◌, ◌^◌, ◌<◌, ◌≤◌, [], true, min};
ghost use Rattle.ix_replay.specs.Amounts.{amount_in, bytes_in, events_in, channels_in, size_in};
ghost use Rattle.ix_replay.specs.Covering.{CoversAmounts};

use crate::amounts::Amount;
use ix_items::Item;

/// Sums over items, none of which is less than the true one.
#[derive(Clone, Copy)]
pub struct Totals {
    bytes: u64,
    events: u64,
    channels: u64,
    size: u64,
}

/// A sum with a further item, 2^64 - 1 at the most.
fn more(amount: Amount, sum: u64, item: &Item) -> u64
    ensures { result ≡ min (sum + amount_in amount item.now) (2 ^ 64 - 1) }
{
    sum.saturating_add(amount.of(item))
}

/// A sum without an item.
fn less(amount: Amount, sum: u64, item: &Item) -> u64
    ensures { result ≡ sum - min (amount_in amount item.now) (2 ^ 64 - 1) }
{
    sum.saturating_sub(amount.of(item))
}

impl Totals {
    /// Those of no items.
    pub fn none() -> Totals
        ensures { CoversAmounts result [] }
    {
        Totals {
            bytes: 0,
            events: 0,
            channels: 0,
            size: 0,
        }
    }

    /// Those with a further item.
    pub fn plus(self, item: &Item) -> Totals
        ensures bytes { result.bytes ≡ min (self.bytes + bytes_in item.now) (2 ^ 64 - 1) }
        ensures events { result.events ≡ min (self.events + events_in item.now) (2 ^ 64 - 1) }
        ensures channels { result.channels ≡ min (self.channels + channels_in item.now) (2 ^ 64 - 1) }
        ensures size { result.size ≡ min (self.size + size_in item.now) (2 ^ 64 - 1) }
    {
        Totals {
            bytes: more(Amount::Bytes, self.bytes, item),
            events: more(Amount::Events, self.events, item),
            channels: more(Amount::Channels, self.channels, item),
            size: more(Amount::Size, self.size, item),
        }
    }

    /// Those without one of the items.
    pub fn minus(self, item: &Item) -> Totals
        ensures bytes { result.bytes ≡ self.bytes - min (bytes_in item.now) (2 ^ 64 - 1) }
        ensures events { result.events ≡ self.events - min (events_in item.now) (2 ^ 64 - 1) }
        ensures channels { result.channels ≡ self.channels - min (channels_in item.now) (2 ^ 64 - 1) }
        ensures size { result.size ≡ self.size - min (size_in item.now) (2 ^ 64 - 1) }
    {
        Totals {
            bytes: less(Amount::Bytes, self.bytes, item),
            events: less(Amount::Events, self.events, item),
            channels: less(Amount::Channels, self.channels, item),
            size: less(Amount::Size, self.size, item),
        }
    }

    /// Whether none of them is the greatest number, which one that has no room comes to.
    pub fn have_room(self) -> bool
        ensures bytes { result ≡ true → self.bytes < 2 ^ 64 - 1 }
        ensures events { result ≡ true → self.events < 2 ^ 64 - 1 }
        ensures channels { result ≡ true → self.channels < 2 ^ 64 - 1 }
        ensures size { result ≡ true → self.size < 2 ^ 64 - 1 }
    {
        self.bytes < u64::MAX
            && self.events < u64::MAX
            && self.channels < u64::MAX
            && self.size < u64::MAX
    }

    /// Whether they stay within the bounds.
    pub fn are_within(self) -> bool
        ensures bytes { result ≡ true → self.bytes < 2 ^ 63 }
        ensures events { result ≡ true → self.events < 2 ^ 63 }
        ensures channels { result ≡ true → self.channels ≤ 256 }
        ensures size { result ≡ true → self.size < 2 ^ 29 }
    {
        self.bytes < 1 << 63 && self.events < 1 << 63 && self.channels <= 256 && self.size < 1 << 29
    }
}
