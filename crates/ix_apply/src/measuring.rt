//! Whether what a command leaves keeps the bounds of what a store can keep. `state_machine` asks
//! before it says what a command leads to.

ghost use Rattle.std.specs.Prelude.{◌≡◌, ◌≤◌, ◌<◌, ◌↔◌, true, length, map};
ghost use Rattle.std.specs.List.{insert, remove};
ghost use Rattle.ix_bounds.specs.Totals.{AreChannels, AreSpots};
ghost use Rattle.ix_bounds.specs.Within.{AreWithin};
ghost use Rattle.ix_channels.specs.Changes.{changed, with_channel, HasRoom as HasChannelRoom};
ghost use Rattle.ix_catalog.specs.Lists.{update};
ghost use Rattle.ix_state.specs.Held.{ledger_of};
ghost use Rattle.ix_apply.specs.Next.{HasRoom};
ghost use Rattle.ix_apply.specs.Seen.{named, parts_of};
ghost use Rattle.ix_apply.specs.Settings.{config_after};
ghost use Rattle.ix_apply.specs.Spots.{placed, put_over, HasRoom as HasSpotRoom};

use crate::next::Next;
use crate::spots::SpotChange;
use ix_base::Spot;
use ix_bounds::{Channels, Spots, keeps_bounds, spots_of};
use ix_channels::ChannelChange;
use ix_items::{Entry, Kept};
use ix_parse::Channel;
use ix_state::{OpenChannel, StoreState};

/// Open channels in sum.
fn sum_of(channels: &[OpenChannel]) -> Channels
    ensures { AreChannels (map named channels.now) result }
{
    let mut sum = Channels::none();
    for one in channels {
        sum = sum.and(Channels::one(one.name.as_slice(), &one.meta));
    }
    sum
}

/// With one more at a place.
fn with_one(channels: &[OpenChannel], at: usize, more: &OpenChannel) -> Channels
    requires { at ≤ length channels.now }
    ensures { AreChannels (map named (insert channels.now at more.now)) result }
{
    let before = sum_of(&channels[..at]);
    let behind = sum_of(&channels[at..]);
    let one = Channels::one(more.name.as_slice(), &more.meta);
    before.and(one.and(behind))
}

/// Without the one at a place.
fn without_one(channels: &[OpenChannel], at: usize) -> Channels
    requires { at < length channels.now }
    ensures { AreChannels (map named (remove channels.now at)) result }
{
    let before = sum_of(&channels[..at]);
    let behind = sum_of(&channels[at + 1..]);
    before.and(behind)
}

/// With one that took bytes in, which changes nothing of what is summed.
fn with_fed(channels: &[OpenChannel], _at: usize, _channel: &Channel) -> Channels
    ensures { AreChannels (map named (update _at (with_channel _channel.now) channels.now)) result }
{
    sum_of(channels)
}

/// The channels behind a change.
fn channels_behind(change: &ChannelChange, channels: &Vec<OpenChannel>) -> Channels
    requires { HasChannelRoom change.now channels.now }
    ensures { AreChannels (map named (changed change.now channels.now.items)) result }
{
    match change {
        ChannelChange::Same => sum_of(channels.as_slice()),
        ChannelChange::Begun(room) => with_one(channels.as_slice(), room.at, &room.value),
        ChannelChange::Fed { at, channel } => with_fed(channels.as_slice(), *at, channel),
        ChannelChange::Ended { at } => without_one(channels.as_slice(), *at),
        ChannelChange::AllEnded => Channels::none(),
    }
}

/// Spots with one more at a place.
fn with_spot(spots: &[Spot], at: usize, spot: &Spot) -> Spots
    requires { at ≤ length spots.now }
    ensures { AreSpots (insert spots.now at spot.now) result }
{
    let before = spots_of(&spots[..at]);
    let behind = spots_of(&spots[at..]);
    let one = Spots::one(spot);
    before.and(one.and(behind))
}

/// Spots with another in place of the one at a place.
fn with_other(spots: &[Spot], at: usize, spot: &Spot) -> Spots
    requires { at < length spots.now }
    ensures { AreSpots (update at (put_over spot.now) spots.now) result }
{
    let before = spots_of(&spots[..at]);
    let behind = spots_of(&spots[at + 1..]);
    let one = Spots::one(spot);
    before.and(one.and(behind))
}

/// The spots behind a change.
fn spots_behind(change: &SpotChange, spots: &Vec<Spot>) -> Spots
    requires { HasSpotRoom change.now spots.now }
    ensures { AreSpots (placed change.now spots.now.items) result }
{
    match change {
        SpotChange::Same => spots_of(spots.as_slice()),
        SpotChange::Put { at, spot } => with_other(spots.as_slice(), *at, spot),
        SpotChange::New(room) => with_spot(spots.as_slice(), room.at, &room.value),
    }
}

/// The settings behind a command.
fn kept_behind<'a>(held: &'a StoreState, next: &'a Next) -> &'a [Kept]
    ensures { result.now ≡ (config_after held.now.config next.now.config).kept }
{
    match &next.config {
        Some(config) => config.kept.as_slice(),
        None => held.config.kept.as_slice(),
    }
}

/// The ledger behind a command.
fn ledger_behind<'a>(held: &'a StoreState, next: &'a Next) -> &'a [Entry]
    ensures { result.now ≡ ledger_of held.now.view.ledger next.now.storage.ledger }
{
    match &next.storage.ledger {
        Some(ledger) => ledger.as_slice(),
        None => held.view.ledger.as_slice(),
    }
}

/// Whether what is left is within the bounds.
pub(crate) fn is_within(held: &StoreState, next: &Next) -> bool
    requires { HasRoom held.now next.now }
    ensures { result ≡ true ↔ AreWithin (parts_of held.now next.now) }
{
    let channels = channels_behind(&next.channels, &held.channels);
    let spots = spots_behind(&next.spot, &held.spots);
    let kept = kept_behind(held, next);
    let ledger = ledger_behind(held, next);
    keeps_bounds(kept, channels, spots, ledger, &next.storage.shelves)
}
