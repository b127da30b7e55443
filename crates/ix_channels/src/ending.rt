//! An open channel ends.

ghost use Rattle.std.specs.Prelude.{◌≡◌, ◌∷◌, [], ℕ, ℤ, List, IfOk, IsErrOf};
ghost use Rattle.std.specs.List.{All, AllByRecursion};
ghost use Rattle.ix_base.specs.Stream.{Dated};
ghost use Rattle.ix_base.specs.declared.events.ChannelMeta.{ChannelMeta as Stated};
ghost use Rattle.ix_coding.specs.Spelling.{IsShort as IsShortText};
ghost use Rattle.ix_items.specs.Spelling.{HasSpelling};
ghost use Rattle.ix_items.specs.declared.items.Item.TheVariants as items;
ghost use Rattle.ix_model.specs.Given.{Chooser};
ghost use Rattle.ix_model.specs.declared.commands.Command.TheVariants as commands;
ghost use Rattle.ix_model.specs.declared.commands.TimedCommand.{TimedCommand};
ghost use Rattle.ix_parse.specs.Limits.{KeepsLimits};
ghost use Rattle.ix_parse.specs.Standing.{StandsFor};
ghost use Rattle.ix_props.specs.declared.settings.Settings.{Settings as Chosen};
ghost use Rattle.ix_catalog.specs.Numbers.{HasRecord};
ghost use Rattle.ix_channels.specs.Changes.{HasRoom};
ghost use Rattle.ix_channels.specs.Sizes.{HasBriefChance};
ghost use Rattle.ix_channels.specs.Taken.{Settles};
ghost use Rattle.ix_channels.specs.declared.change.ChannelChange.TheVariants as changes;
ghost use Rattle.ix_channels.specs.Working.{MayBeDone, IsWorked, StaysWithin};

use crate::change::ChannelChange;
use crate::channel_effect::{ChannelEffect, WorkFault, nothing};
use crate::checks::{ended_item, have_records};
use crate::items::single;
use crate::places::place_of;
use ix_base::{RoutedList, Sequence};
use ix_items::Item;
use ix_life::LimitSet;
use ix_parse::Channel;
use ix_state::{OpenChannel, StoreState};
use std::alloc::Global;

/// What the end of a channel makes of it: what it settles, and what the log says of it.
#[derive(Drop)]
pub(crate) struct Ending {
    pub(crate) outcomes: RoutedList,
    pub(crate) item: Item,
}

impl Ending {
    /// What it makes of the channel at this place.
    fn worked(self, alloc: Global, at: usize) -> Result<ChannelEffect, WorkFault>
        ensures change { IfOk result (λ worked. worked.change ≡ changes.Ended at) }
        ensures outcomes { IfOk result (λ worked. worked.outcomes ≡ self.outcomes) }
        ensures items { IfOk result (λ worked. worked.items ≡ self.item ∷ []) }
        ensures full { IsErrOf result WorkFault.Full → ⊥ }
    {
        let Ending { outcomes, item } = self;
        let items = single(alloc, item)?;
        Ok(ChannelEffect {
            change: ChannelChange::Ended { at },
            outcomes,
            items,
        })
    }
}

/// What the end of a channel settles. It is `Full` where an event of these has no record.
fn end_within(limits: &LimitSet, channel: &Channel) -> Result<RoutedList, WorkFault>
    ensures settles { IfOk result (λ outcomes. Settles channel.now outcomes) }
    ensures small { IfOk result (λ outcomes. All (HasRecord limits.now) outcomes) }
    ensures full { IsErrOf result WorkFault.Full → HasBriefChance limits.now → (settings : Chosen) (meta : Stated) (stream : List Dated) →
        StandsFor settings meta stream channel.now → KeepsLimits settings meta → ⊥ }
{
    let outcomes = channel.ended()?;
    if have_records(limits, outcomes.as_slice()) {
        Ok(outcomes)
    } else {
        Err(WorkFault::Full)
    }
}

/// What the end of an open channel makes of it. It is `Full` where an event that it settles has no
/// record, or its item no spelling.
pub(crate) fn end_open(limits: &LimitSet, found: &OpenChannel) -> Result<Ending, WorkFault>
    ensures settles { IfOk result (λ ending. Settles found.now.channel ending.outcomes) }
    ensures said { IfOk result (λ ending. ending.item ≡ items.Ended found.now.name) }
    ensures proper { IfOk result (λ ending. HasSpelling ending.item) }
    ensures small { IfOk result (λ ending. All (HasRecord limits.now) ending.outcomes) }
    ensures full { IsErrOf result WorkFault.Full → HasBriefChance limits.now → (settings : Chosen) (meta : Stated) (stream : List Dated) →
        StandsFor settings meta stream found.now.channel → KeepsLimits settings meta → IsShortText found.now.name → ⊥ }
{
    let outcomes = end_within(limits, &found.channel)?;
    let item = ended_item(found.name.copy()?)?;
    Ok(Ending { outcomes, item })
}

/// What an End makes of the open channels: its channel is open no more, and what closing its stream
/// settles is added. It is `Full` where its item has no spelling or an event no record, which the
/// bounds rule out.
pub fn end(alloc: Global, held: &StoreState, channel: &[u8]) -> Result<ChannelEffect, WorkFault>
    ensures done { IfOk result (λ worked. (choose : Chooser) (history : List TimedCommand) (moment : ℤ) →
        MayBeDone choose history (commands.End channel.now) moment held.now →
        IsWorked choose history (commands.End channel.now) moment held.now worked) }
    // The change can be made without taking memory.
    ensures room { IfOk result (λ worked. HasRoom worked.change held.now.channels) }
    ensures proper { IfOk result (λ worked. AllByRecursion HasSpelling worked.items) }
    ensures small { IfOk result (λ worked. All (HasRecord held.now.config.limits) worked.outcomes) }
    ensures full { IsErrOf result WorkFault.Full → (choose : Chooser) (history : List TimedCommand) (moment : ℤ) →
        MayBeDone choose history (commands.End channel.now) moment held.now →
        StaysWithin choose history (commands.End channel.now) moment → ⊥ }
{
    let Some(at) = place_of(held.channels.as_slice(), channel) else {
        return Ok(nothing(alloc));
    };
    let found = &held.channels[at];
    let ending = end_open(&held.config.limits, found)?;
    let worked = ending.worked(alloc, at)?;
    Ok(worked)
}
