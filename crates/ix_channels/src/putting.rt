//! Events come that are already cut.

ghost use Rattle.std.specs.Prelude.{◌≡◌, ℕ, ℤ, List, [], IfOk, IsErrOf, unwrap_or};
ghost use Rattle.std.specs.List.{All, AllByRecursion, AllZip};
ghost use Rattle.ix_items.specs.Spelling.{HasSpelling};
ghost use Rattle.ix_model.specs.Given.{Chooser};
ghost use Rattle.ix_model.specs.Step.{direct_event};
ghost use Rattle.ix_model.specs.declared.commands.Command.TheVariants as commands;
ghost use Rattle.ix_model.specs.declared.commands.Direct.{Direct as Given};
ghost use Rattle.ix_model.specs.declared.commands.TimedCommand.{TimedCommand};
ghost use Rattle.ix_catalog.specs.Numbers.{HasRecord};
ghost use Rattle.ix_channels.specs.Changes.{HasRoom};
ghost use Rattle.ix_channels.specs.Put.{IsPut, ArePut};
ghost use Rattle.ix_channels.specs.Working.{MayBeDone, IsWorked, StaysWithin};

use crate::beginning::resolved;
use crate::change::ChannelChange;
use crate::channel_effect::{ChannelEffect, WorkFault};
use crate::checks::have_records;
use ix_base::{Bytes, ChannelMeta, Event, NoMemory, Routed, RoutedList, Sequence};
use ix_model::{Config, Direct, DirectList};
use ix_props::Settings;
use ix_state::StoreState;
use ix_transforms::apply;
use std::alloc::Global;

/// The index that is named, or else an empty name.
fn named_index(alloc: Global, index: Option<Bytes>) -> Bytes
    ensures { result ≡ unwrap_or index [] }
{
    match index {
        Some(index) => index,
        None => Bytes::new(alloc),
    }
}

/// The event before it is changed. Its metadata name the index that holds.
fn event_of(
    alloc: Global,
    settings: &Settings,
    moment: i64,
    direct: Direct,
) -> Result<Event, NoMemory>
    ensures { IfOk result (λ event. event ≡ direct_event settings.now direct.meta moment direct) }
{
    let Direct { meta, time, raw } = direct;
    let ChannelMeta {
        host,
        source,
        sourcetype: _,
        index,
    } = meta;
    let sourcetype = settings.sourcetype.copy()?;
    Ok(Event {
        time: time.unwrap_or(moment),
        arrival: moment,
        index: named_index(alloc, index),
        host,
        source,
        sourcetype,
        meta: Bytes::new(alloc),
        raw,
    })
}

/// What an event comes to, by the settings that are chosen for its metadata.
fn put(alloc: Global, config: &Config, moment: i64, direct: Direct) -> Result<Routed, NoMemory>
    ensures { IfOk result (λ routed. IsPut config.now.limits config.now.props moment direct routed) }
{
    let Direct { meta, time, raw } = direct;
    let meta = resolved(&config.limits, meta)?;
    let settings = config.props.settings(alloc, &meta)?;
    let event = event_of(alloc, &settings, moment, Direct { meta, time, raw })?;
    let routed = apply(alloc, &settings.seds, &settings.transforms, event)?;
    Ok(routed)
}

/// What events come to, one after the other.
fn put_all(
    alloc: Global,
    config: &Config,
    moment: i64,
    events: DirectList,
) -> Result<RoutedList, NoMemory>
    ensures { IfOk result (λ outcomes. ArePut config.now.limits config.now.props moment events outcomes) }
{
    let mut outcomes = RoutedList::new(alloc);
    for direct in events.into_vec() {
        let routed = put(alloc, config, moment, direct)?;
        outcomes.push(routed)?;
    }
    Ok(outcomes)
}

/// What a Direct makes of the open channels, which is nothing, and what its events come to at this
/// moment. It is `Full` where an event has no record, which the bounds rule out.
pub fn direct(
    alloc: Global,
    held: &StoreState,
    moment: i64,
    events: DirectList,
) -> Result<ChannelEffect, WorkFault>
    ensures done { IfOk result (λ worked. (choose : Chooser) (history : List TimedCommand) →
        MayBeDone choose history (commands.Direct events) moment held.now →
        IsWorked choose history (commands.Direct events) moment held.now worked) }
    // The change can be made without taking memory.
    ensures room { IfOk result (λ worked. HasRoom worked.change held.now.channels) }
    ensures proper { IfOk result (λ worked. AllByRecursion HasSpelling worked.items) }
    ensures small { IfOk result (λ worked. All (HasRecord held.now.config.limits) worked.outcomes) }
    ensures full { IsErrOf result WorkFault.Full → (choose : Chooser) (history : List TimedCommand) →
        MayBeDone choose history (commands.Direct events) moment held.now →
        StaysWithin choose history (commands.Direct events) moment → ⊥ }
{
    let outcomes = put_all(alloc, &held.config, moment, events)?;
    if have_records(&held.config.limits, outcomes.as_slice()) {
        Ok(ChannelEffect {
            change: ChannelChange::Same,
            outcomes,
            items: Sequence::new(alloc),
        })
    } else {
        Err(WorkFault::Full)
    }
}
