//! The items of a log by what they say: channels with channels, buckets with buckets. `recall`
//! makes a state of them.

ghost use Rattle.std.specs.Prelude.{◌≡◌, OnOk, IfOk};
ghost use Rattle.ix_recovery.specs.Gathered.{nothing, taken, all_taken};

use ix_base::{Bytes, ChannelMeta, Names, NoMemory, Sequence, Spot};
use ix_items::{Bucket, Item, KeptList};
use ix_life::EntryList;
use std::alloc::Global;

/// An open channel, with what is carried of its stream.
#[derive(Drop)]
pub struct Carried {
    pub name: Bytes,
    pub meta: ChannelMeta,
    pub carry: Bytes,
}

/// A bucket of an index.
#[derive(Drop)]
pub struct Placed {
    pub index: Bytes,
    pub bucket: Bucket,
}

/// How many events were settled, and how many of them nulled, dropped and placed.
#[derive(Clone, Copy, Debug, PartialEq, Eq)]
pub struct Counts {
    pub settled: u64,
    pub nulled: u64,
    pub dropped: u64,
    pub placed: u64,
}

/// What items say, each kind in a list of its own.
#[derive(Drop)]
pub struct GatheredItems {
    pub kept: KeptList,
    pub channels: Sequence<Carried>,
    pub buckets: Sequence<Placed>,
    pub entries: EntryList,
    pub spots: Sequence<Spot>,
    /// The names of the indexes that ever had a bucket.
    pub indexes: Names,
    pub counts: Counts,
    pub next_file: u64,
    pub last: i64,
    pub tick: i64,
}

impl GatheredItems {
    /// What no items say: no settings, nothing counted, and the first file still to come.
    fn nothing(alloc: Global) -> GatheredItems
        ensures { result ≡ nothing }
    {
        GatheredItems {
            kept: KeptList::new(alloc),
            channels: Sequence::new(alloc),
            buckets: Sequence::new(alloc),
            entries: EntryList::new(alloc),
            spots: Sequence::new(alloc),
            indexes: Names::new(alloc),
            counts: Counts {
                settled: 0,
                nulled: 0,
                dropped: 0,
                placed: 0,
            },
            next_file: 1,
            last: 0,
            tick: 0,
        }
    }

    /// One item more. Runs and removals say nothing of the state.
    fn take(&mut self, item: Item) -> Result<(), NoMemory>
        ensures { OnOk result (self.new ≡ taken item self.old) }
    {
        match item {
            Item::Settings { kept } => {
                self.kept = kept;
                Ok(())
            }
            Item::Moments { last, tick } => {
                self.last = last;
                self.tick = tick;
                Ok(())
            }
            Item::Channel { name, meta, carry } => {
                self.channels.push(Carried { name, meta, carry })
            }
            Item::Bucket { index, bucket } => self.buckets.push(Placed { index, bucket }),
            Item::Ledger { entry } => self.entries.push(entry),
            Item::Counts {
                settled,
                nulled,
                dropped,
                placed,
            } => {
                self.counts = Counts {
                    settled,
                    nulled,
                    dropped,
                    placed,
                };
                Ok(())
            }
            Item::Spot { spot } => self.spots.push(spot),
            Item::NextFile { number } => {
                self.next_file = number;
                Ok(())
            }
            Item::NextId { index, .. } => self.indexes.push(index),
            Item::Run { .. } | Item::Ended { .. } | Item::Gone { .. } | Item::Removals { .. } => {
                Ok(())
            }
        }
    }
}

/// What the items say. They are taken from the last one on.
pub fn gather(alloc: Global, mut items: Vec<Item>) -> Result<GatheredItems, NoMemory>
    ensures { IfOk result (λ gathered. gathered ≡ all_taken items.items nothing) }
{
    let mut gathered = GatheredItems::nothing(alloc);
    while let Some(item) = items.pop() {
        gathered.take(item)?;
    }
    Ok(gathered)
}
