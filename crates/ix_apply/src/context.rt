//! What each command leads to, worked out beside the state in memory. The state machine calls it,
//! for the Tick before a command too.

ghost use Rattle.std.specs.Prelude.{◌≡◌, ◌++◌, ◌∷◌, [], All, IfOk, IfSome, IsErrOf};
ghost use Rattle.std.specs.List.{AllByRecursion};
ghost use Rattle.ix_channels.specs.Changes.{HasRoom};
ghost use Rattle.ix_items.specs.Spelling.{HasSpelling};
ghost use Rattle.ix_state.specs.Taken.{IsSpot, IsTakenCommand};
ghost use Rattle.ix_model.specs.declared.commands.Command.TheVariants.{Begin, Block, End, Tick, Roll, Thaw, Configure, Direct};
ghost use Rattle.ix_catalog.specs.Numbers.{HasRecord};
ghost use Rattle.ix_channels.specs.declared.change.ChannelChange.TheVariants.{Same};
ghost use Rattle.ix_apply.specs.Dealing.{Deals, CannotDeal, Feeds, CannotFeed, Ends, CannotEnd, Configured};
ghost use Rattle.ix_apply.specs.Steps.{Steps, IsOver, IsUsable, CanBeside, IsBase, moments_of, step_with, no_beside};

use crate::effect::{Beside, Effect, StepFault};
use crate::next::Next;
use ix_base::{Bytes, ChannelMeta, NoMemory, Sequence, Spot};
use ix_channels::{ChannelChange, ChannelEffect, begin, block, direct, end, end_all};
use ix_commit::WriteBatch;
use ix_effects::{Base, CatalogEffect};
use ix_items::Item;
use ix_model::{Command, Config, DirectList};
use ix_state::{CatalogState, StoreState};
use std::alloc::Global;

/// What a command is worked out from.
#[derive(Drop)]
pub struct CommandContext<'a> {
    pub alloc: Global,
    pub held: &'a StoreState,
    /// What the commands before have left beside channels, spots and settings.
    pub storage: &'a CatalogState,
    /// The moment that the command has.
    pub moment: i64,
}

/// What a Configure makes of channels, indexes and files.
#[derive(Drop)]
struct Parts {
    moved: CatalogEffect,
    change: ChannelChange,
    /// What the log says of the channels.
    items: Sequence<Item>,
}

/// One list behind another.
fn joined<T: Drop>(list: Sequence<T>, more: Sequence<T>) -> Result<Sequence<T>, NoMemory>
    ensures { IfOk result (λ both. both ≡ list ++ more) }
{
    let mut all = list.into_vec();
    let mut more = more.into_vec();
    all.append(&mut more)?;
    Ok(Sequence::from_vec(all))
}

/// The items of a command, one kind behind the other.
fn join_items(
    moved: Sequence<Item>,
    said: Sequence<Item>,
    beside: Sequence<Item>,
    storage: &CatalogState,
) -> Result<Sequence<Item>, NoMemory>
    requires moved { AllByRecursion HasSpelling moved }
    requires said { AllByRecursion HasSpelling said }
    requires beside { AllByRecursion HasSpelling beside }
    ensures is { IfOk result (λ list. list ≡ moved ++ (said ++ (beside ++ moments_of storage.now ∷ []))) }
    ensures proper { IfOk result (λ list. AllByRecursion HasSpelling list) }
{
    let last = storage.last;
    let tick = storage.tick;
    let mut behind = beside;
    behind.push(Item::Moments { last, tick })?;
    let behind = joined(said, behind)?;
    let all = joined(moved, behind)?;
    Ok(all)
}

/// A step of what became of indexes and files, of channels, and of settings and spots.
fn join(
    moved: CatalogEffect,
    change: ChannelChange,
    said: Sequence<Item>,
    beside: Beside,
) -> Result<Effect, NoMemory>
    requires moved { AllByRecursion HasSpelling moved.items }
    requires said { AllByRecursion HasSpelling said }
    requires beside { AllByRecursion HasSpelling beside.items }
    ensures is { IfOk result (λ step. step ≡ step_with moved change said beside) }
    ensures proper { IfOk result (λ step. AllByRecursion HasSpelling step.draft.items) }
{
    let next = Next {
        config: beside.config,
        channels: change,
        spot: beside.spot,
        storage: moved.storage,
    };
    match join_items(moved.items, said, beside.items, &next.storage) {
        Ok(items) => {
            let draft = WriteBatch {
                pieces: moved.pieces,
                copies: moved.copies,
                items,
            };
            Ok(Effect {
                next,
                draft,
                done_with: moved.done_with,
                moved: moved.moved,
            })
        }
        Err(fault) => {
            drop(next);
            Err(fault)
        }
    }
}

impl CommandContext<'_> {
    /// What it is for indexes, files and the ledger.
    fn base(&self) -> Base<'_>
        ensures { IsBase self.now result }
    {
        Base {
            alloc: self.alloc,
            set: &self.held.config.limits,
            ledger: self.held.view.ledger.as_slice(),
            storage: self.storage,
            moment: self.moment,
        }
    }

    /// The outcomes are dealt.
    fn dealt(&self, worked: ChannelEffect, beside: Beside) -> Result<Effect, StepFault>
        requires small { All (HasRecord self.now.held.now.config.limits) worked.outcomes }
        requires said { AllByRecursion HasSpelling worked.items }
        requires room { HasRoom worked.change self.now.held.now.channels }
        requires beside { CanBeside self.now.held.now beside }
        ensures done { IfOk result (λ step. Deals self.now worked beside step) }
        ensures usable { IfOk result (λ step. IsUsable self.now.held.now step) }
        ensures full { IsErrOf result StepFault.Full → CannotDeal self.now worked }
    {
        let base = self.base();
        match base.deal(worked.outcomes) {
            Ok(moved) => {
                let step = join(moved, worked.change, worked.items, beside)?;
                Ok(step)
            }
            Err(fault) => {
                drop(worked.change);
                drop(beside);
                Err(StepFault::from(fault))
            }
        }
    }

    /// Nothing becomes of channels, settings and spots.
    fn only_moved(&self, moved: CatalogEffect) -> Result<Effect, NoMemory>
        requires { AllByRecursion HasSpelling moved.items }
        ensures is { IfOk result (λ step. step ≡ step_with moved Same [] no_beside) }
        ensures usable { IfOk result (λ step. IsUsable self.now.held.now step) }
    {
        let beside = Beside::none(self.alloc);
        join(
            moved,
            ChannelChange::Same,
            Sequence::new(self.alloc),
            beside,
        )
    }

    fn begin(&self, channel: Bytes, meta: ChannelMeta) -> Result<Effect, StepFault>
        ensures done { IfOk result (λ step. Steps (Begin channel meta) self.now step) }
        ensures usable { IfOk result (λ step. IsUsable self.now.held.now step) }
        ensures full { IsErrOf result StepFault.Full → IsOver (Begin channel meta) self.now }
    {
        let worked = begin(self.alloc, self.held, channel, meta)?;
        self.dealt(worked, Beside::none(self.alloc))
    }

    /// What a Block makes of the channels.
    fn fed(&self, channel: &[u8], bytes: &[u8]) -> Result<ChannelEffect, StepFault>
        ensures done { IfOk result (λ worked. Feeds channel.now bytes.now self.now worked) }
        ensures room { IfOk result (λ worked. HasRoom worked.change self.now.held.now.channels) }
        ensures said { IfOk result (λ worked. AllByRecursion HasSpelling worked.items) }
        ensures small { IfOk result (λ worked. All (HasRecord self.now.held.now.config.limits) worked.outcomes) }
        ensures full { IsErrOf result StepFault.Full → CannotFeed channel.now bytes.now self.now }
    {
        let worked = block(self.alloc, self.held, channel, bytes, self.moment)?;
        Ok(worked)
    }

    fn block(&self, channel: &[u8], bytes: &[u8], spot: Option<Spot>) -> Result<Effect, StepFault>
        requires { IfSome spot IsSpot }
        ensures done { IfOk result (λ step. Steps (Block channel.now bytes.now spot) self.now step) }
        ensures usable { IfOk result (λ step. IsUsable self.now.held.now step) }
        ensures full { IsErrOf result StepFault.Full → IsOver (Block channel.now bytes.now spot) self.now }
    {
        let worked = self.fed(channel, bytes)?;
        match Beside::with_spot(self.alloc, self.held, spot) {
            Ok(beside) => self.dealt(worked, beside),
            Err(_) => {
                drop(worked);
                Err(StepFault::NoMemory)
            }
        }
    }

    fn end(&self, channel: &[u8]) -> Result<Effect, StepFault>
        ensures done { IfOk result (λ step. Steps (End channel.now) self.now step) }
        ensures usable { IfOk result (λ step. IsUsable self.now.held.now step) }
        ensures full { IsErrOf result StepFault.Full → IsOver (End channel.now) self.now }
    {
        let worked = end(self.alloc, self.held, channel)?;
        self.dealt(worked, Beside::none(self.alloc))
    }

    fn direct(&self, events: DirectList) -> Result<Effect, StepFault>
        ensures done { IfOk result (λ step. Steps (Direct events) self.now step) }
        ensures usable { IfOk result (λ step. IsUsable self.now.held.now step) }
        ensures full { IsErrOf result StepFault.Full → IsOver (Direct events) self.now }
    {
        let worked = direct(self.alloc, self.held, self.moment, events)?;
        self.dealt(worked, Beside::none(self.alloc))
    }

    /// A turn of housekeeping.
    pub fn tick(&self) -> Result<Effect, StepFault>
        ensures done { IfOk result (λ step. Steps Tick self.now step) }
        ensures usable { IfOk result (λ step. IsUsable self.now.held.now step) }
        ensures full { IsErrOf result StepFault.Full → IsOver Tick self.now }
    {
        let base = self.base();
        let moved = base.turn()?;
        let step = self.only_moved(moved)?;
        Ok(step)
    }

    fn roll(&self, index: &[u8]) -> Result<Effect, StepFault>
        ensures done { IfOk result (λ step. Steps (Roll index.now) self.now step) }
        ensures usable { IfOk result (λ step. IsUsable self.now.held.now step) }
        ensures full { IsErrOf result StepFault.Full → IsOver (Roll index.now) self.now }
    {
        let base = self.base();
        let moved = base.roll(index)?;
        let step = self.only_moved(moved)?;
        Ok(step)
    }

    fn thaw(&self, index: &[u8], id: u64) -> Result<Effect, StepFault>
        ensures done { IfOk result (λ step. Steps (Thaw index.now id) self.now step) }
        ensures usable { IfOk result (λ step. IsUsable self.now.held.now step) }
        ensures full { IsErrOf result StepFault.Full → IsOver (Thaw index.now id) self.now }
    {
        let base = self.base();
        let moved = base.thaw(index, id)?;
        let step = self.only_moved(moved)?;
        Ok(step)
    }

    /// All channels end.
    fn ended(&self) -> Result<ChannelEffect, StepFault>
        ensures done { IfOk result (λ worked. Ends self.now worked) }
        ensures room { IfOk result (λ worked. HasRoom worked.change self.now.held.now.channels) }
        ensures said { IfOk result (λ worked. AllByRecursion HasSpelling worked.items) }
        ensures small { IfOk result (λ worked. All (HasRecord self.now.held.now.config.limits) worked.outcomes) }
        ensures full { IsErrOf result StepFault.Full → CannotEnd self.now }
    {
        let worked = end_all(self.alloc, self.held)?;
        Ok(worked)
    }

    /// What a Configure makes of channels, indexes and files.
    fn parts(&self, config: &Config) -> Result<Parts, StepFault>
        ensures done { IfOk result (λ parts. Configured config.now self.now parts) }
        ensures moved { IfOk result (λ parts. AllByRecursion HasSpelling parts.moved.items) }
        ensures said { IfOk result (λ parts. AllByRecursion HasSpelling parts.items) }
        ensures room { IfOk result (λ parts. HasRoom parts.change self.now.held.now.channels) }
        ensures full { IsErrOf result StepFault.Full → IsOver (Configure config.now) self.now }
    {
        let ChannelEffect {
            outcomes,
            change,
            items,
        } = self.ended()?;
        let base = self.base();
        match base.configure(outcomes, &config.limits) {
            Ok(moved) => Ok(Parts {
                moved,
                change,
                items,
            }),
            Err(fault) => {
                drop(change);
                Err(StepFault::from(fault))
            }
        }
    }

    /// All channels end under the settings that were in force, and others come into force.
    fn configure(&self, config: Config) -> Result<Effect, StepFault>
        ensures done { IfOk result (λ step. Steps (Configure config) self.now step) }
        ensures usable { IfOk result (λ step. IsUsable self.now.held.now step) }
        ensures full { IsErrOf result StepFault.Full → IsOver (Configure config) self.now }
    {
        match self.parts(&config) {
            Ok(parts) => match Beside::with_config(self.alloc, config) {
                Ok(beside) => {
                    let step = join(parts.moved, parts.change, parts.items, beside)?;
                    Ok(step)
                }
                Err(fault) => {
                    drop(parts);
                    Err(fault)
                }
            },
            Err(fault) => {
                drop(config);
                Err(fault)
            }
        }
    }

    /// What a command leads to.
    pub fn work(&self, command: Command) -> Result<Effect, StepFault>
        requires { IsTakenCommand command }
        ensures done { IfOk result (λ step. Steps command self.now step) }
        ensures usable { IfOk result (λ step. IsUsable self.now.held.now step) }
        ensures full { IsErrOf result StepFault.Full → IsOver command self.now }
    {
        match command {
            Command::Begin { channel, meta } => self.begin(channel, meta),
            Command::Block {
                channel,
                bytes,
                spot,
            } => self.block(channel.as_slice(), bytes.as_slice(), spot),
            Command::End { channel } => self.end(channel.as_slice()),
            Command::Tick => self.tick(),
            Command::Roll { index } => self.roll(index.as_slice()),
            Command::Thaw { index, id } => self.thaw(index.as_slice(), id),
            Command::Configure { config } => self.configure(config),
            Command::Direct { events } => self.direct(events),
        }
    }
}
