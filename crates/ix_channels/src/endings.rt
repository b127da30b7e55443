//! All open channels end.

ghost use Rattle.std.specs.Prelude.{◌≡◌, ◌∷◌, ◌++◌, [], ℕ, ℤ, List, OnOk, OnErr, IfOk, IsErrOf};
ghost use Rattle.std.specs.List.{All, AllByRecursion, AllZip};
ghost use Rattle.ix_items.specs.Spelling.{HasSpelling};
ghost use Rattle.ix_model.specs.Given.{Chooser};
ghost use Rattle.ix_model.specs.State.{ChannelHistory};
ghost use Rattle.ix_model.specs.declared.commands.Command.TheVariants as commands;
ghost use Rattle.ix_model.specs.declared.commands.Config.{Config as Configured};
ghost use Rattle.ix_model.specs.declared.commands.TimedCommand.{TimedCommand};
ghost use Rattle.ix_catalog.specs.Numbers.{HasRecord};
ghost use Rattle.ix_state.specs.Held.{IsOpen};
ghost use Rattle.ix_state.specs.declared.state.OpenChannel.{OpenChannel};
ghost use Rattle.ix_channels.specs.Changes.{HasRoom};
ghost use Rattle.ix_channels.specs.Ended.{AreEnded, HasShortName};
ghost use Rattle.ix_channels.specs.Sizes.{HasBriefChance};
ghost use Rattle.ix_channels.specs.declared.change.ChannelChange.TheVariants as changes;
ghost use Rattle.ix_channels.specs.Working.{MayBeDone, IsWorked, StaysWithin};

use crate::change::ChannelChange;
use crate::channel_effect::{ChannelEffect, WorkFault};
use crate::ending::{Ending, end_open};
use ix_base::{NoMemory, Routed, RoutedList, Sequence};
use ix_items::Item;
use ix_life::LimitSet;
use ix_state::{OpenChannel, StoreState};
use std::alloc::Global;

/// What the ends of channels make of them, one behind the other.
#[derive(Drop)]
struct Endings {
    outcomes: Vec<Routed>,
    items: Vec<Item>,
}

/// Adds what events come to behind the others.
fn add_outcomes(all: &mut Vec<Routed>, more: RoutedList) -> Result<(), NoMemory>
    ensures { OnOk result (all.new.items ≡ all.old.items ++ more) }
{
    let mut more = more.into_vec();
    all.append(&mut more)?;
    Ok(())
}

impl Endings {
    /// Puts the end of one channel behind them.
    fn push(&mut self, ending: Ending) -> Result<(), NoMemory>
        ensures outcomes { OnOk result (self.new.outcomes.items ≡ self.old.outcomes.items ++ ending.outcomes) }
        ensures items { OnOk result (self.new.items.items ≡ self.old.items.items ++ ending.item ∷ []) }
    {
        let Ending { outcomes, item } = ending;
        self.items.push(item)?;
        add_outcomes(&mut self.outcomes, outcomes)
    }

    /// What they make of all channels.
    fn worked(self) -> ChannelEffect
        ensures change { result.change ≡ changes.AllEnded }
        ensures outcomes { result.outcomes ≡ self.outcomes.items }
        ensures items { result.items ≡ self.items.items }
    {
        let Endings { outcomes, items } = self;
        ChannelEffect {
            change: ChannelChange::AllEnded,
            outcomes: Sequence::from_vec(outcomes),
            items: Sequence::from_vec(items),
        }
    }

    /// Ends one channel more.
    fn add(&mut self, limits: &LimitSet, found: &OpenChannel) -> Result<(), WorkFault>
        ensures added { OnOk result ((ended : List OpenChannel) → AreEnded limits.now ended self.old →
            AreEnded limits.now (ended ++ found.now ∷ []) self.new) }
        ensures full { IsErrOf result WorkFault.Full → HasBriefChance limits.now → (life : ChannelHistory) → IsOpen life found.now →
            HasShortName life → ⊥ }
    {
        let ending = end_open(limits, found)?;
        self.push(ending)?;
        Ok(())
    }
}

/// Ends all channels of a list.
fn end_each(
    alloc: Global,
    limits: &LimitSet,
    channels: &[OpenChannel],
) -> Result<Endings, WorkFault>
    ensures ended { IfOk result (λ endings. AreEnded limits.now channels.now endings) }
    ensures full { IsErrOf result WorkFault.Full → HasBriefChance limits.now → (lives : List ChannelHistory) →
        AllZip IsOpen lives channels.now →
        AllByRecursion HasShortName lives → ⊥ }
{
    let mut endings = Endings {
        outcomes: Vec::new(alloc),
        items: Vec::new(alloc),
    };
    for found in channels {
        endings.add(limits, found)?;
    }
    Ok(endings)
}

/// What a Configure makes of the open channels: all of them end, and what closing their streams
/// settles is added. It is `Full` where an item has no spelling or an event no record, which the
/// bounds rule out.
pub fn end_all(alloc: Global, held: &StoreState) -> Result<ChannelEffect, WorkFault>
    ensures done { IfOk result (λ worked. (choose : Chooser) (history : List TimedCommand) (config : Configured) (moment : ℤ) →
        MayBeDone choose history (commands.Configure config) moment held.now →
        IsWorked choose history (commands.Configure config) moment held.now worked) }
    // The change can be made without taking memory.
    ensures room { IfOk result (λ worked. HasRoom worked.change held.now.channels) }
    ensures proper { IfOk result (λ worked. AllByRecursion HasSpelling worked.items) }
    ensures small { IfOk result (λ worked. All (HasRecord held.now.config.limits) worked.outcomes) }
    ensures full { IsErrOf result WorkFault.Full → (choose : Chooser) (history : List TimedCommand) (config : Configured) (moment : ℤ) →
        MayBeDone choose history (commands.Configure config) moment held.now →
        StaysWithin choose history (commands.Configure config) moment → ⊥ }
{
    let endings = end_each(alloc, &held.config.limits, held.channels.as_slice())?;
    Ok(endings.worked())
}
