//! What an item counts for, and sums of it. The judgement of a state asks whether they stay within
//! their bounds.

ghost use Rattle.std.specs.Prelude.{◌≡◌, ◌≤◌, ◌-◌, ◌^◌, ◌↔◌, IsTrue, min};
ghost use Rattle.std.specs.List.{sum_by};
ghost use Rattle.ix_replay.specs.Amounts.{bytes_in, events_in, channels_in, amount_in, most};

use crate::sizes::size_of;
use ix_items::Item;

/// What is added up.
#[derive(Clone, Copy, Debug, PartialEq, Eq)]
pub enum Amount {
    /// The bytes of buckets and frozen buckets.
    Bytes,
    /// Their events.
    Events,
    /// The open channels.
    Channels,
    /// The bytes that the state is written with.
    Size,
}

impl Amount {
    /// The most that it may come to.
    fn most(self) -> u64
        ensures { result ≡ most self }
    {
        match self {
            Amount::Bytes | Amount::Events => (1 << 63) - 1,
            Amount::Channels => 256,
            Amount::Size => (1 << 29) - 1,
        }
    }

    /// What the item counts for, 2^64 - 1 at the most.
    pub fn of(self, item: &Item) -> u64
        ensures { result ≡ min (amount_in self item.now) (2 ^ 64 - 1) }
    {
        match self {
            Amount::Bytes => bytes_in(item),
            Amount::Events => events_in(item),
            Amount::Channels => channels_in(item),
            Amount::Size => size_of(item),
        }
    }

    /// Whether what the items count for adds up to no more than its bound.
    pub fn is_within(self, items: &[Item]) -> bool
        ensures { IsTrue result ↔ (sum_by (amount_in self) items.now ≤ most self) }
    {
        let mut room = self.most();
        for item in items {
            let amount = self.of(item);
            if amount > room {
                return false;
            }
            room -= amount;
        }
        true
    }
}

fn bytes_in(item: &Item) -> u64
    ensures { result ≡ bytes_in item.now }
{
    match item {
        Item::Bucket { bucket, .. } => bucket.bytes,
        Item::Ledger { entry } => entry.bytes,
        _ => 0,
    }
}

fn events_in(item: &Item) -> u64
    ensures { result ≡ events_in item.now }
{
    match item {
        Item::Bucket { bucket, .. } => bucket.count,
        Item::Ledger { entry } => entry.count,
        _ => 0,
    }
}

fn channels_in(item: &Item) -> u64
    ensures { result ≡ channels_in item.now }
{
    match item {
        Item::Channel { .. } => 1,
        _ => 0,
    }
}
