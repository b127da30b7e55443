//! A channel is begun.

ghost use Rattle.std.specs.Prelude.{◌≡◌, ℕ, ℤ, List, [], IfOk, IsErrOf, IsSome, unwrap_or};
ghost use Rattle.std.specs.List.{All, AllByRecursion, insert};
ghost use Rattle.ix_items.specs.Spelling.{HasSpelling};
ghost use Rattle.ix_model.specs.Given.{Chooser};
ghost use Rattle.ix_model.specs.declared.commands.Command.TheVariants as commands;
ghost use Rattle.ix_model.specs.declared.commands.TimedCommand.{TimedCommand};
ghost use Rattle.ix_catalog.specs.Numbers.{HasRecord};
ghost use Rattle.ix_channels.specs.Begun as defs;
ghost use Rattle.ix_channels.specs.Changes.{HasRoom, changed};
ghost use Rattle.ix_channels.specs.Places.{place_for};
ghost use Rattle.ix_channels.specs.Working.{MayBeDone, IsWorked, StaysWithin};

use crate::change::ChannelChange;
use crate::channel_effect::{ChannelEffect, WorkFault};
use crate::items::said_alone;
use crate::places::place_for;
use crate::reserved_insert::ReservedInsert;
use ix_base::{Bytes, ChannelMeta, NoMemory, RoutedList};
use ix_life::LimitSet;
use ix_parse::Channel;
use ix_props::Props;
use ix_state::{OpenChannel, StoreState};
use std::alloc::Global;

fn index_or_default(limits: &LimitSet, index: Option<Bytes>) -> Result<Bytes, NoMemory>
    ensures { IfOk result (λ whole. whole ≡ unwrap_or index limits.now.default_database) }
{
    match index {
        Some(index) => Ok(index),
        None => limits.default_database.copy(),
    }
}

/// The metadata with the index that holds: the default one where none is stated.
pub(crate) fn resolved(limits: &LimitSet, meta: ChannelMeta) -> Result<ChannelMeta, NoMemory>
    ensures { IfOk result (λ whole. whole ≡ defs.resolved limits.now meta) }
{
    let ChannelMeta {
        host,
        source,
        sourcetype,
        index,
    } = meta;
    let index = Some(index_or_default(limits, index)?);
    Ok(ChannelMeta {
        host,
        source,
        sourcetype,
        index,
    })
}

/// A channel that has no byte yet, by the settings that are chosen for its metadata.
fn started(alloc: Global, props: &Props, meta: &ChannelMeta) -> Result<Channel, NoMemory>
    requires { IsSome meta.now.index }
    ensures { IfOk result (λ channel. defs.IsStarted props.now meta.now channel) }
{
    let settings = props.settings(alloc, meta)?;
    let stated = meta.copy()?;
    Channel::start(alloc, settings, stated)
}

/// An open channel that has no byte yet.
fn opened(
    alloc: Global,
    props: &Props,
    name: Bytes,
    meta: ChannelMeta,
) -> Result<OpenChannel, NoMemory>
    requires { IsSome meta.index }
    ensures { IfOk result (λ begun. defs.IsBegun props.now name meta begun) }
{
    match started(alloc, props, &meta) {
        Ok(channel) => Ok(OpenChannel {
            name,
            meta,
            channel,
        }),
        Err(fault) => {
            drop(name);
            drop(meta);
            Err(fault)
        }
    }
}

/// The change by which the channel is open among the others.
fn opens(
    alloc: Global,
    channels: &Vec<OpenChannel>,
    begun: OpenChannel,
) -> Result<ChannelChange, NoMemory>
    ensures changed { IfOk result (λ change. changed change channels.now.items ≡ insert channels.now.items
        (place_for begun.name channels.now.items) begun) }
    ensures room { IfOk result (λ change. HasRoom change channels.now) }
{
    let at = place_for(channels.as_slice(), begun.name.as_slice());
    let room = ReservedInsert::make(alloc, channels, at, begun)?;
    Ok(ChannelChange::Begun(room))
}

/// What a Begin makes of the open channels: one more is open, under the settings that are chosen
/// for its metadata, and nothing is settled. It is `Full` where the item has no spelling, which the
/// bounds rule out.
pub fn begin(
    alloc: Global,
    held: &StoreState,
    channel: Bytes,
    meta: ChannelMeta,
) -> Result<ChannelEffect, WorkFault>
    ensures done { IfOk result (λ worked. (choose : Chooser) (history : List TimedCommand) (moment : ℤ) →
        MayBeDone choose history (commands.Begin channel meta) moment held.now →
        IsWorked choose history (commands.Begin channel meta) moment held.now worked) }
    // The change can be made without taking memory.
    ensures room { IfOk result (λ worked. HasRoom worked.change held.now.channels) }
    ensures proper { IfOk result (λ worked. AllByRecursion HasSpelling worked.items) }
    ensures small { IfOk result (λ worked. All (HasRecord held.now.config.limits) worked.outcomes) }
    ensures full { IsErrOf result WorkFault.Full → (choose : Chooser) (history : List TimedCommand) (moment : ℤ) →
        MayBeDone choose history (commands.Begin channel meta) moment held.now →
        StaysWithin choose history (commands.Begin channel meta) moment → ⊥ }
{
    let meta = resolved(&held.config.limits, meta)?;
    let begun = opened(alloc, &held.config.props, channel, meta)?;
    let items = said_alone(alloc, &begun.name, &begun.meta, &begun.channel)?;
    let change = opens(alloc, &held.channels, begun)?;
    Ok(ChannelEffect {
        change,
        outcomes: RoutedList::new(alloc),
        items,
    })
}
