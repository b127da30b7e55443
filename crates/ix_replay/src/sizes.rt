//! How many bytes an item is written with. The bound of a whole state adds them up.

ghost use Rattle.std.specs.Prelude.{◌≡◌, ◌+◌, ◌-◌, ◌^◌, ◌<◌, [], length, min};
ghost use Rattle.ix_items.specs.declared.items.Bucket.{Bucket};
ghost use Rattle.ix_items.specs.declared.items.Item.TheVariants as items;
ghost use Rattle.ix_items.specs.Spelling.{item_bytes, kept_bytes, meta_bytes};
ghost use Rattle.ix_coding.specs.Spelling.{string, option};
ghost use Rattle.ix_replay.specs.Amounts.{size_in};

use ix_base::{Bytes, ChannelMeta, Spot};
use ix_items::{Entry, Item, Kept};

/// A size as a number of eight bytes; one that has no room there is as good as the greatest.
fn capped(size: u128) -> u64
    ensures { result ≡ min size (2 ^ 64 - 1) }
{
    u64::try_from(size).unwrap_or(u64::MAX)
}

#[tactic(auto, using(crate::proofs::Lengths::length_string))]
fn string_size(text: &Bytes) -> u128
    ensures size { result ≡ length (string text.now) }
    ensures bound { result < 2 ^ 65 }
{
    4 + text.len() as u128
}

#[tactic(auto, using(crate::proofs::Lengths::length_string, crate::proofs::Lengths::length_none, crate::proofs::Lengths::length_some))]
fn option_size(text: &Option<Bytes>) -> u128
    ensures size { result ≡ length (option string text.now) }
    ensures bound { result < 2 ^ 66 }
{
    match text {
        Some(text) => 1 + string_size(text),
        None => 1,
    }
}

#[tactic(auto, using(crate::proofs::Lengths::length_kept))]
fn kept_size(kept: &Kept) -> u64
    ensures { result ≡ min (length (kept_bytes kept.now)) (2 ^ 64 - 1) }
{
    let strings = string_size(&kept.stanza) + string_size(&kept.key) + string_size(&kept.value);
    capped(1 + strings)
}

#[tactic(auto, using(crate::proofs::Lengths::length_settings))]
fn settings_size(kept: &[Kept]) -> u64
    ensures { result ≡ min (length (item_bytes (items.Settings kept.now))) (2 ^ 64 - 1) }
{
    let mut size: u64 = 5;
    for one in kept {
        size = size.saturating_add(kept_size(one));
    }
    size
}

/// The bytes of an open channel, but for those of its carry.
#[tactic(auto, using(crate::proofs::Lengths::length_channel))]
fn channel_size(name: &Bytes, meta: &ChannelMeta) -> u64
    ensures { result ≡ min (length (item_bytes (items.Channel name.now meta.now []))) (2 ^ 64 - 1) }
{
    let strings = string_size(name) + string_size(&meta.host) + string_size(&meta.source);
    let options = option_size(&meta.sourcetype) + option_size(&meta.index);
    capped(5 + strings + options)
}

#[tactic(auto, using(crate::proofs::Lengths::length_bucket))]
fn bucket_size(index: &Bytes) -> u64
    ensures { (bucket : Bucket) → result ≡ min (length (item_bytes (items.Bucket index.now bucket))) (2 ^ 64 - 1) }
{
    capped(67 + string_size(index))
}

#[tactic(auto, using(crate::proofs::Lengths::length_entry))]
fn entry_size(entry: &Entry) -> u64
    ensures { result ≡ min (length (item_bytes (items.Ledger entry.now))) (2 ^ 64 - 1) }
{
    capped(58 + string_size(&entry.index))
}

#[tactic(auto, using(crate::proofs::Lengths::length_spot))]
fn spot_size(spot: &Spot) -> u64
    ensures { result ≡ min (length (item_bytes (items.Spot spot.now))) (2 ^ 64 - 1) }
{
    capped(9 + string_size(&spot.path) + string_size(&spot.head))
}

#[tactic(auto, using(crate::proofs::Lengths::length_next))]
fn next_size(index: &Bytes, id: u64) -> u64
    ensures { result ≡ min (size_in (items.NextId index.now id)) (2 ^ 64 - 1) }
{
    if id == 0 {
        0
    } else {
        capped(9 + string_size(index))
    }
}

/// How many bytes an item has of those that a whole state is written with, 2^64 - 1 at the most.
pub fn size_of(item: &Item) -> u64
    ensures { result ≡ min (size_in item.now) (2 ^ 64 - 1) }
{
    match item {
        Item::Settings { kept } => settings_size(kept.as_slice()),
        Item::Channel { name, meta, .. } => channel_size(name, meta),
        Item::Bucket { index, .. } => bucket_size(index),
        Item::Ledger { entry } => entry_size(entry),
        Item::Spot { spot } => spot_size(spot),
        Item::NextId { index, id } => next_size(index, *id),
        Item::Run { .. }
        | Item::Moments { .. }
        | Item::Ended { .. }
        | Item::Gone { .. }
        | Item::Counts { .. }
        | Item::NextFile { .. }
        | Item::Removals { .. } => 0,
    }
}
