//! What a command leads to, with the Tick that may come before it. `state_machine` calls it.

ghost use Rattle.std.specs.Prelude.{◌≡◌, ◌++◌, true, false, IfOk, OnOk, IsErrOf};
ghost use Rattle.std.specs.List.{AllByRecursion};
ghost use Rattle.ix_items.specs.Spelling.{HasSpelling};
ghost use Rattle.ix_state.specs.Taken.{IsTakenCommand};
ghost use Rattle.ix_state.specs.declared.state.CatalogState.{CatalogState};
ghost use Rattle.ix_apply.specs.Made as defs;
ghost use Rattle.ix_apply.specs.Made.{Pairs, PairsWithin, PairsWhere, IsOver, IsOverWhere, IsUsablePair, GoesOn, TickSteps, TickIsOver};

use crate::context::CommandContext;
use crate::copying::storage_of;
use crate::effect::{Effect, StepFault};
use crate::measuring::is_within;
use crate::prepared::{PreparedCommand, Ticked};
use ix_base::{File, NoMemory};
use ix_items::FileList;
use ix_model::{Command, TimedCommand};
use ix_state::{CatalogState, StoreState};
use std::alloc::Global;

/// Adds files behind the others.
fn add_files(list: &mut FileList, files: &[File]) -> Result<(), NoMemory>
    ensures { OnOk result (list.new ≡ list.old ++ files.now) }
{
    for file in files {
        list.push(*file)?;
    }
    Ok(())
}

/// A step that is done with more files, where there is one.
fn with_files(made: Result<Effect, StepFault>, files: &[File]) -> Result<Effect, StepFault>
    ensures { GoesOn made files.now result }
{
    let mut step = made?;
    match add_files(&mut step.done_with, files) {
        Ok(()) => Ok(step),
        Err(_) => {
            // It is let go by a call, in place of each of its fields here.
            drop(step);
            Err(StepFault::NoMemory)
        }
    }
}

/// What a Tick leads to, but for how many buckets it freezes.
fn tick<'a>(
    alloc: Global,
    held: &'a StoreState,
    begun: &'a CatalogState,
    moment: i64,
) -> Result<Ticked, StepFault>
    ensures done { IfOk result (λ ticked. TickSteps held.now begun.now moment ticked) }
    ensures proper { IfOk result (λ ticked. AllByRecursion HasSpelling ticked.draft.items) }
    ensures full { IsErrOf result StepFault.Full → TickIsOver held.now begun.now moment }
{
    let work = CommandContext {
        alloc,
        held,
        storage: begun,
        moment,
    };
    let step = work.tick()?;
    let next = step.next;
    drop(next.config);
    drop(next.channels);
    drop(next.spot);
    Ok(Ticked {
        storage: next.storage,
        draft: step.draft,
        done_with: step.done_with,
    })
}

/// What a Tick and the command behind it add, where there is a step of the command.
fn paired(first: Ticked, made: Result<Effect, StepFault>) -> Result<PreparedCommand, StepFault>
    ensures { result ≡ defs.paired first.draft made }
{
    match made {
        Ok(step) => Ok(PreparedCommand {
            first: Some(first.draft),
            step,
        }),
        Err(fault) => {
            drop(first);
            Err(fault)
        }
    }
}

/// A command behind a Tick.
fn behind_tick(
    alloc: Global,
    held: &StoreState,
    first: Ticked,
    command: Command,
    moment: i64,
) -> Result<PreparedCommand, StepFault>
    requires { IsTakenCommand command }
    ensures done { (begun : CatalogState) → TickSteps held.now begun moment first →
        IfOk result (λ pair. PairsWhere true command held.now begun moment pair) }
    ensures usable { AllByRecursion HasSpelling first.draft.items → IfOk result (λ pair. IsUsablePair held.now pair) }
    ensures full { (begun : CatalogState) → TickSteps held.now begun moment first → IsErrOf result StepFault.Full →
        IsOverWhere true command held.now begun moment }
{
    let work = CommandContext {
        alloc,
        held,
        storage: &first.storage,
        moment,
    };
    let made = with_files(work.work(command), first.done_with.as_slice());
    paired(first, made)
}

/// A Tick, and a command behind it.
fn with_tick(
    alloc: Global,
    held: &StoreState,
    begun: &CatalogState,
    command: Command,
    moment: i64,
) -> Result<PreparedCommand, StepFault>
    requires { IsTakenCommand command }
    ensures done { IfOk result (λ pair. PairsWhere true command held.now begun.now moment pair) }
    ensures usable { IfOk result (λ pair. IsUsablePair held.now pair) }
    ensures full { IsErrOf result StepFault.Full → IsOverWhere true command held.now begun.now moment }
{
    match tick(alloc, held, begun, moment) {
        Ok(first) => behind_tick(alloc, held, first, command, moment),
        Err(fault) => {
            drop(command);
            Err(fault)
        }
    }
}

/// A command alone.
fn without_tick<'a>(
    alloc: Global,
    held: &'a StoreState,
    begun: &'a CatalogState,
    command: Command,
    moment: i64,
) -> Result<PreparedCommand, StepFault>
    requires { IsTakenCommand command }
    ensures done { IfOk result (λ pair. PairsWhere false command held.now begun.now moment pair) }
    ensures usable { IfOk result (λ pair. IsUsablePair held.now pair) }
    ensures full { IsErrOf result StepFault.Full → IsOverWhere false command held.now begun.now moment }
{
    let work = CommandContext {
        alloc,
        held,
        storage: begun,
        moment,
    };
    let step = work.work(command)?;
    Ok(PreparedCommand { first: None, step })
}

/// What a command leads to.
pub(crate) fn make(
    alloc: Global,
    held: &StoreState,
    order: TimedCommand,
) -> Result<PreparedCommand, StepFault>
    requires { IsTakenCommand order.command }
    ensures done { IfOk result (λ pair. Pairs order held.now pair) }
    ensures usable { IfOk result (λ pair. IsUsablePair held.now pair) }
    ensures full { IsErrOf result StepFault.Full → IsOver order held.now }
{
    let is_due = held.needs_tick(&order);
    let moment = held.effective(order.moment);
    let begun = storage_of(alloc, held)?;
    if is_due {
        with_tick(alloc, held, &begun, order.command, moment)
    } else {
        without_tick(alloc, held, &begun, order.command, moment)
    }
}

/// What a command leads to, where it keeps the bounds of what a store can keep.
pub(crate) fn make_within(
    alloc: Global,
    held: &StoreState,
    order: TimedCommand,
) -> Result<PreparedCommand, StepFault>
    requires { IsTakenCommand order.command }
    ensures done { IfOk result (λ pair. PairsWithin order held.now pair) }
    ensures usable { IfOk result (λ pair. IsUsablePair held.now pair) }
    ensures full { IsErrOf result StepFault.Full → IsOver order held.now }
{
    let pair = make(alloc, held, order)?;
    if is_within(held, &pair.step.next) {
        Ok(pair)
    } else {
        drop(pair);
        Err(StepFault::Full)
    }
}
