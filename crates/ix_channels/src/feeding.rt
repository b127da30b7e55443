//! Bytes come to an open channel.

ghost use Rattle.std.specs.Prelude.{◌≡◌, ◌<◌, ℕ, ℤ, List, ◌++◌, Option, IfOk, IsErrOf};
ghost use Rattle.std.specs.List.{All, AllByRecursion};
ghost use Rattle.ix_base.specs.Clocks.{clamped};
ghost use Rattle.ix_base.specs.Stream.{Dated, dated};
ghost use Rattle.ix_base.specs.declared.events.ChannelMeta.{ChannelMeta as Stated};
ghost use Rattle.ix_base.specs.declared.events.Spot.{Spot as Watched};
ghost use Rattle.ix_coding.specs.Spelling.{IsShort as IsShortText};
ghost use Rattle.ix_items.specs.Spelling.{HasSpelling, IsMeta};
ghost use Rattle.ix_model.specs.Given.{Chooser};
ghost use Rattle.ix_model.specs.declared.commands.Command.TheVariants as commands;
ghost use Rattle.ix_model.specs.declared.commands.TimedCommand.{TimedCommand};
ghost use Rattle.ix_parse.specs.Carry.{HasMoments};
ghost use Rattle.ix_parse.specs.Limits.{IsSmall, KeepsLimits};
ghost use Rattle.ix_parse.specs.Standing.{StandsFor};
ghost use Rattle.ix_props.specs.declared.settings.Settings.{Settings as Chosen};
ghost use Rattle.ix_catalog.specs.Numbers.{HasRecord};
ghost use Rattle.ix_channels.specs.Changes.{HasRoom};
ghost use Rattle.ix_channels.specs.Sizes.{HasBriefChance};
ghost use Rattle.ix_channels.specs.declared.change.ChannelChange.TheVariants as changes;
ghost use Rattle.ix_channels.specs.Taken.{TakesIn, IsFed};
ghost use Rattle.ix_channels.specs.Working.{MayBeDone, IsWorked, StaysWithin};

use crate::change::ChannelChange;
use crate::channel_effect::{ChannelEffect, WorkFault, nothing};
use crate::checks::have_records;
use crate::items::said_alone;
use crate::places::place_of;
use ix_base::{NoMemory, RoutedList, Sequence, Steps};
use ix_items::Item;
use ix_life::LimitSet;
use ix_parse::Channel;
use ix_state::{OpenChannel, StoreState};
use std::alloc::Global;
use std::marker::Brand;
use std::sync::ledger::{Blank, Ledger};

/// What bytes make of a channel: the channel behind them, what they settle, and what the log says
/// of it.
#[derive(Drop)]
struct Fed {
    channel: Channel,
    outcomes: RoutedList,
    items: Sequence<Item>,
}

impl Fed {
    /// What they make of the channel at this place.
    fn worked(self, at: usize) -> ChannelEffect
        ensures change { result.change ≡ changes.Fed at self.channel }
        ensures outcomes { result.outcomes ≡ self.outcomes }
        ensures items { result.items ≡ self.items }
    {
        let Fed {
            channel,
            outcomes,
            items,
        } = self;
        ChannelEffect {
            change: ChannelChange::Fed { at, channel },
            outcomes,
            items,
        }
    }
}

/// The channel once these bytes have come, and what they settle, counted in the ledger that the
/// blank one opens.
fn counted_feed<L: Ledger>(
    channel: &Channel,
    bytes: &[u8],
    moment: i64,
    blank: Blank,
) -> Result<(Channel, RoutedList), NoMemory>
    requires name { blank.name ≡ L.name }
    requires parts { blank.parts ≡ L.parts }
    requires some { 0 < blank.parts }
    ensures takes { IfOk result (λ fed. (settings : Chosen) (meta : Stated) (stream : List Dated) →
        StandsFor settings meta stream channel.now → TakesIn settings meta stream (dated bytes.now (clamped moment)) fed.0 fed.1) }
    ensures small { IfOk result (λ fed. (settings : Chosen) (meta : Stated) (stream : List Dated) →
        StandsFor settings meta stream channel.now → KeepsLimits settings meta → All IsSmall fed.1) }
{
    let mut steps = Steps::<L>::new(blank);
    let fed = channel.fed(bytes, moment, &mut steps)?;
    Ok(fed)
}

fn feed(channel: &Channel, bytes: &[u8], moment: i64) -> Result<(Channel, RoutedList), NoMemory>
    ensures takes { IfOk result (λ fed. (settings : Chosen) (meta : Stated) (stream : List Dated) →
        StandsFor settings meta stream channel.now → TakesIn settings meta stream (dated bytes.now (clamped moment)) fed.0 fed.1) }
    ensures small { IfOk result (λ fed. (settings : Chosen) (meta : Stated) (stream : List Dated) →
        StandsFor settings meta stream channel.now → KeepsLimits settings meta → All IsSmall fed.1) }
{
    let fed = counted_feed::<Brand>(channel, bytes, moment, Blank::new(1))?;
    Ok(fed)
}

/// The channel once these bytes have come, and what they settle. It is `Full` where an event of
/// these has no record.
fn feed_within(
    limits: &LimitSet,
    channel: &Channel,
    bytes: &[u8],
    moment: i64,
) -> Result<(Channel, RoutedList), WorkFault>
    ensures takes { IfOk result (λ fed. (settings : Chosen) (meta : Stated) (stream : List Dated) →
        StandsFor settings meta stream channel.now → TakesIn settings meta stream (dated bytes.now (clamped moment)) fed.0 fed.1) }
    ensures small { IfOk result (λ fed. All (HasRecord limits.now) fed.1) }
    ensures full { IsErrOf result WorkFault.Full → HasBriefChance limits.now → (settings : Chosen) (meta : Stated) (stream : List Dated) →
        StandsFor settings meta stream channel.now → KeepsLimits settings meta → ⊥ }
{
    let fed = feed(channel, bytes, moment)?;
    if have_records(limits, fed.1.as_slice()) {
        Ok(fed)
    } else {
        Err(WorkFault::Full)
    }
}

/// What bytes make of a channel.
fn feed_open(
    alloc: Global,
    limits: &LimitSet,
    found: &OpenChannel,
    bytes: &[u8],
    moment: i64,
) -> Result<Fed, WorkFault>
    ensures done { IfOk result (λ worked. IsFed found.now bytes.now moment worked) }
    ensures proper { IfOk result (λ worked. AllByRecursion HasSpelling worked.items) }
    ensures small { IfOk result (λ worked. All (HasRecord limits.now) worked.outcomes) }
    ensures full { IsErrOf result WorkFault.Full → HasBriefChance limits.now → (settings : Chosen) (meta : Stated) (stream : List Dated) →
        StandsFor settings meta stream found.now.channel → KeepsLimits settings meta →
        HasMoments (stream ++ dated bytes.now (clamped moment)) →
        IsShortText found.now.name → IsMeta found.now.meta → ⊥ }
{
    let fed = feed_within(limits, &found.channel, bytes, moment)?;
    let items = said_alone(alloc, &found.name, &found.meta, &fed.0)?;
    Ok(Fed {
        channel: fed.0,
        outcomes: fed.1,
        items,
    })
}

/// What a Block makes of the open channels: its channel takes the bytes in at this moment, and what
/// they settle is added. It is `Full` where an item has no spelling or an event no record, which
/// the bounds rule out.
pub fn block(
    alloc: Global,
    held: &StoreState,
    channel: &[u8],
    bytes: &[u8],
    moment: i64,
) -> Result<ChannelEffect, WorkFault>
    ensures done { IfOk result (λ worked. (choose : Chooser) (history : List TimedCommand) (spot : Option Watched) →
        MayBeDone choose history (commands.Block channel.now bytes.now spot) moment held.now →
        IsWorked choose history (commands.Block channel.now bytes.now spot) moment held.now worked) }
    // The change can be made without taking memory.
    ensures room { IfOk result (λ worked. HasRoom worked.change held.now.channels) }
    ensures proper { IfOk result (λ worked. AllByRecursion HasSpelling worked.items) }
    ensures small { IfOk result (λ worked. All (HasRecord held.now.config.limits) worked.outcomes) }
    ensures full { IsErrOf result WorkFault.Full → (choose : Chooser) (history : List TimedCommand) (spot : Option Watched) →
        MayBeDone choose history (commands.Block channel.now bytes.now spot) moment held.now →
        StaysWithin choose history (commands.Block channel.now bytes.now spot) moment → ⊥ }
{
    let Some(at) = place_of(held.channels.as_slice(), channel) else {
        return Ok(nothing(alloc));
    };
    let found = &held.channels[at];
    let fed = feed_open(alloc, &held.config.limits, found, bytes, moment)?;
    Ok(fed.worked(at))
}
