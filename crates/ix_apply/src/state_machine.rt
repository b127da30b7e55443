//! The state of a store in memory, as the store takes it: each command is worked out beside it, and
//! taken once it is staged.

ghost use Rattle.std.specs.Prelude.{◌≡◌, ◌≤◌, ◌&&◌, ◌^◌, not, nat_lt, IfOk, IfErr, IfSome, IfNone};
ghost use Rattle.std.specs.List.{list_any, sum_by};
ghost use Rattle.std.specs.Option.{option_copied};
ghost use Rattle.ix_state.specs.Taken.{IsTakenCommand};
ghost use Rattle.ix_model.specs.Judged.{draws};
ghost use Rattle.ix_model.specs.State.{spot_path};
ghost use Rattle.ix_catalog.specs.Lists.{find};
ghost use Rattle.ix_state.specs.Causes.{has_name};
ghost use Rattle.ix_apply.specs.Next.{HasRoom};
ghost use Rattle.ix_store.specs.Counting.{text_length, weight_of};
ghost use Rattle.ix_store.specs.Making.{AreProper};
ghost use Rattle.ix_apply.specs.Orders.{made_of, HindersOrder, IsFree, MakesOrder, RefusesOrder};

use crate::effect::{Effect, refusal_of};
use crate::making::make_within;
use crate::next::Next;
use crate::prepared::PreparedCommand;
use ix_base::Spot;
use ix_items::KeptList;
use ix_life::{LimitSet, View};
use ix_model::{Command, Direct, Refusal, TimedCommand};
use ix_recovery::{Recovered, RecoveryFault, recall};
use ix_replay::ItemList;
use ix_state::{OpenChannel, StoreState};
use ix_store::{BookFault, Made, StoreMemory};
use std::alloc::Global;

/// The state of a store in memory.
#[derive(Drop)]
pub struct StateMachine {
    pub(crate) held: StoreState,
    /// Whether nothing was accepted yet.
    pub(crate) fresh: bool,
}

/// What the numbers of a run stay below.
const LIMIT: u64 = 1 << 63;

/// Whether a command draws a number of the run.
fn draws(command: &Command) -> bool
    ensures { result ≡ draws command.now }
{
    match command {
        Command::Block { .. } | Command::End { .. } | Command::Direct { .. } => true,
        Command::Begin { .. } | Command::Tick | Command::Roll { .. } => false,
        Command::Thaw { .. } | Command::Configure { .. } => false,
    }
}

/// Whether a command draws a number where the run has no more.
fn is_spent(command: &Command, drawn: u64) -> bool
    ensures { result ≡ (draws command.now && not (nat_lt drawn (2 ^ 63))) }
{
    draws(command) && drawn >= LIMIT
}

/// How many bytes the texts of events have.
fn bytes_in(events: &[Direct]) -> u64
    requires { sum_by text_length events.now ≤ 1048576 }
    ensures { result ≡ sum_by text_length events.now }
{
    let mut total = 0;
    for event in events {
        total += event.raw.len() as u64;
    }
    total
}

/// How many bytes a command brings to be stored.
fn weight_of(command: &Command) -> u64
    requires { IsTakenCommand command.now }
    ensures { result ≡ weight_of command.now }
{
    match command {
        Command::Block { bytes, .. } => bytes.len() as u64,
        Command::Direct { events } => bytes_in(events.as_slice()),
        Command::Begin { .. } | Command::End { .. } | Command::Tick => 0,
        Command::Roll { .. } | Command::Thaw { .. } | Command::Configure { .. } => 0,
    }
}

/// The spot of this path.
fn find_spot<'a>(spots: &'a [Spot], path: &[u8]) -> Option<&'a Spot>
    ensures { option_copied result ≡ find spot_path path.now spots.now }
{
    for spot in spots {
        if spot.path.as_slice() == path {
            return Some(spot);
        }
    }
    None
}

/// Whether a channel of this name is among them.
fn has_open(opens: &[OpenChannel], name: &[u8]) -> bool
    ensures { result ≡ list_any (has_name name.now) opens.now }
{
    opens.iter().any(|open| open.name.as_slice() == name)
}

/// Why a command is refused before it is worked out: a cause that holds, or that the run has no
/// more numbers.
fn hindrance(held: &StoreState, order: &TimedCommand, drawn: u64) -> Option<Refusal>
    ensures refused { IfSome result (λ refusal. HindersOrder order.now drawn held.now refusal) }
    ensures free { IfNone result (IsFree order.now drawn held.now) }
{
    if let Some(refusal) = held.refusal(&order.command) {
        return Some(refusal);
    }
    if is_spent(&order.command, drawn) {
        return Some(Refusal::Full);
    }
    None
}

/// What was worked out, as a store takes it.
fn made_of(pair: PreparedCommand, weight: u64) -> Made<Next>
    ensures { result ≡ made_of pair weight }
{
    let PreparedCommand { first, step } = pair;
    let Effect {
        next,
        draft,
        done_with,
        moved,
    } = step;
    Made {
        next,
        first,
        second: draft,
        done_with,
        moved,
        weight,
    }
}

/// What a command leads to that no cause hinders, in a run that has a number for it.
fn make_order(alloc: Global, held: &StoreState, order: TimedCommand) -> Result<Made<Next>, Refusal>
    requires { IsTakenCommand order.command }
    ensures made { IfOk result (λ made. MakesOrder order held.now made) }
    ensures room { IfOk result (λ made. HasRoom held.now made.next) }
    ensures proper { IfOk result (λ made. AreProper made.first made.second) }
    ensures weight { IfOk result (λ made. made.weight ≡ weight_of order.command) }
    ensures refused { IfErr result (λ refusal. RefusesOrder order held.now refusal) }
{
    let weight = weight_of(&order.command);
    match make_within(alloc, held, order) {
        Ok(pair) => Ok(made_of(pair, weight)),
        Err(fault) => Err(refusal_of(fault)),
    }
}

impl StoreMemory for StateMachine {
    ghost use Rattle.ix_state.specs.Configs.{IsChooser};
    ghost use Rattle.ix_state.specs.Taken.{IsTaken};
    ghost use Rattle.ix_recovery.specs.Recalled.{GivesNone};
    ghost use Rattle.ix_apply.specs.Recorded.{events_have_records};
    ghost use Rattle.ix_apply.specs.Settled.{none_set_is_good};
    ghost use Rattle.ix_apply.specs.Standing.{StateRepresents, WillStand};

    type NextState = Next;

    type Book = ItemList;

    ghost is_chooser = { IsChooser };

    ghost takes = { IsTaken };

    ghost holds = { λ choose history machine. StateRepresents choose history machine.held machine.fresh };

    ghost shown = { λ machine. machine.held.view };

    ghost ready = { λ choose history machine next. WillStand choose history machine.held next };

    ghost has_room = { λ machine next. HasRoom machine.held next };

    ghost gives_none = { GivesNone };

    ghost none_set_is_good = { none_set_is_good };

    ghost ticks_are_taken = { λ moment. tt };

    ghost have_records = { λ choose history machine chooser given stands.
        events_have_records choose history chooser given stands.state.bounds.times };

    fn prepare(
        &self,
        alloc: Global,
        order: TimedCommand,
        drawn: u64,
    ) -> Result<Made<Next>, Refusal> {
        if let Some(refusal) = hindrance(&self.held, &order, drawn) {
            drop(order);
            return Err(refusal);
        }
        make_order(alloc, &self.held, order)
    }

    fn install(&mut self, next: Next) {
        next.install(&mut self.held);
        self.fresh = false;
    }

    fn view(&self) -> &View {
        &self.held.view
    }

    fn spot(&self, path: &[u8]) -> Option<&Spot> {
        find_spot(self.held.spots.as_slice(), path)
    }

    fn has_channel(&self, channel: &[u8]) -> bool {
        has_open(self.held.channels.as_slice(), channel)
    }

    fn kept(&self) -> &KeptList {
        &self.held.config.kept
    }

    fn limits(&self) -> &LimitSet {
        &self.held.config.limits
    }

    fn blank(alloc: Global) -> ItemList {
        ItemList::new(alloc)
    }

    fn from_book(alloc: Global, book: ItemList) -> Result<StateMachine, BookFault> {
        match recall(alloc, book) {
            Ok(Recovered { held, fresh }) => Ok(StateMachine { held, fresh }),
            Err(RecoveryFault::Bad { subject }) => Err(BookFault::Bad { subject }),
            Err(RecoveryFault::NoMemory) => Err(BookFault::NoMemory),
        }
    }
}
