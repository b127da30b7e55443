//! Whether a list of items keeps the bounds of what a store can keep. The replayed state asks it
//! behind each body: what is known of all tells it, and where that does not, all are gone through.

ghost use Rattle.std.specs.Prelude.{◌≡◌, ◌↔◌, ◌<◌, ◌≤◌, ◌^◌, IsTrue, IfOk, IfSome, All, true};
ghost use Rattle.std.specs.List.{sum_by};
ghost use Rattle.ix_manifest.specs.Book.{empty, replay, removals_in};
ghost use Rattle.ix_replay.specs.Amounts.{bytes_in, events_in, channels_in, size_in};
ghost use Rattle.ix_replay.specs.Bounds.{IsWithin, IsSpared, KeepsBounds};
ghost use Rattle.ix_replay.specs.Covering.{Covers};
ghost use Rattle.ix_replay.specs.Known.{AreKnown};
ghost use Rattle.ix_replay.specs.Lists.{AreListed};

use crate::amounts::Amount;
use crate::files::are_apart;
use crate::listing::Places;
use crate::ranges::are_within;
use crate::removed::are_spared;
use crate::standing::{next_file, removals};
use crate::tally::Tally;
use ix_base::NoMemory;
use ix_items::Item;
use std::alloc::Global;

/// Whether what is known of the items tells that they keep the bounds.
fn is_sure(tally: &Option<Tally>, items: &[Item], places: &Places) -> bool
    requires listed { AreListed items.now }
    requires known { AreKnown places.now items.now }
    requires covers { IfSome tally.now (λ t. Covers t items.now) }
    ensures { result ≡ true → KeepsBounds items.now }
{
    match tally {
        Some(tally) => tally.keeps(removals(items, places), next_file(items, places)),
        None => false,
    }
}

/// Whether each item is in its range, and the last removals name no file of one.
fn are_sound(alloc: Global, items: &[Item], places: &Places) -> Result<bool, NoMemory>
    requires listed { AreListed items.now }
    requires known { AreKnown places.now items.now }
    ensures { IfOk result (λ sound. IsTrue sound ↔ (All IsWithin items.now
        × All (IsSpared (removals_in (replay items.now empty))) items.now)) }
{
    if !are_within(items) {
        return Ok(false);
    }
    let spared = are_spared(alloc, removals(items, places), items)?;
    Ok(spared)
}

/// Whether all that they add up to stays within its bounds.
fn add_up(items: &[Item]) -> bool
    ensures { IsTrue result ↔ ((sum_by bytes_in items.now < 2 ^ 63) × (sum_by events_in items.now < 2 ^ 63)
        × (sum_by channels_in items.now ≤ 256) × (sum_by size_in items.now < 2 ^ 29)) }
{
    Amount::Bytes.is_within(items)
        && Amount::Events.is_within(items)
        && Amount::Channels.is_within(items)
        && Amount::Size.is_within(items)
}

/// Whether the items keep the bounds, by going over all. It takes memory for the numbers of their
/// files and of those that are removed, and time for a sort of these.
fn all_keep(alloc: Global, items: &[Item], places: &Places) -> Result<bool, NoMemory>
    requires listed { AreListed items.now }
    requires known { AreKnown places.now items.now }
    ensures { IfOk result (λ keeps. IsTrue keeps ↔ KeepsBounds items.now) }
{
    let sound = are_sound(alloc, items, places)?;
    if !sound || !add_up(items) {
        return Ok(false);
    }
    let apart = are_apart(alloc, items, next_file(items, places))?;
    Ok(apart)
}

/// Whether the items keep the bounds. All are gone through only where the tally does not tell.
pub fn keeps_bounds(
    alloc: Global,
    items: &[Item],
    places: &Places,
    tally: &Option<Tally>,
) -> Result<bool, NoMemory>
    requires listed { AreListed items.now }
    requires known { AreKnown places.now items.now }
    requires covers { IfSome tally.now (λ t. Covers t items.now) }
    ensures { IfOk result (λ keeps. IsTrue keeps ↔ KeepsBounds items.now) }
{
    if is_sure(tally, items, places) {
        return Ok(true);
    }
    all_keep(alloc, items, places)
}
