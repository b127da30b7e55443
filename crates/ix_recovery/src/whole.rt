//! The items of a state in memory. Whoever keeps the state tells them to a checkpoint, one by one.

ghost use Rattle.std.specs.Prelude.{◌≡◌, ◌<◌, ◌-◌, ◌^◌, List, length, IfOk, OnOk, IsErrOf};
ghost use Rattle.std.specs.List.{AllByRecursion};
ghost use Rattle.ix_manifest.specs.Book.{empty, replay};
ghost use Rattle.ix_items.specs.Spelling.{HasSpelling, body_bytes};
ghost use Rattle.ix_model.specs.Given.{Chooser};
ghost use Rattle.ix_model.specs.Step.{state_after};
ghost use Rattle.ix_model.specs.declared.commands.TimedCommand.{TimedCommand};
ghost use Rattle.ix_model.specs.Snap.{snapshot_of};
ghost use Rattle.ix_state.specs.Held.{Holds};
ghost use Rattle.ix_recovery.specs.Putting.{AreHeld, IsRest};
ghost use Rattle.ix_recovery.specs.First.{is_first};
ghost use Rattle.ix_recovery.specs.Whole.{held_items};

use crate::numbers::{put_counts, put_settings};
use crate::shelves::{put_buckets, put_entries, put_numbers};
use crate::spots::put_spots;
use crate::whole_channels::put_channels;
use ix_base::{NoMemory, Sequence};
use ix_items::{Item, are_writable};
use ix_replay::have_room;
use ix_state::StoreState;
use ix_store::ListFault;
use std::alloc::Global;

/// Puts all of a state that stands behind the settings.
fn put_rest(held: &StoreState, said: &mut Sequence<Item>) -> Result<(), NoMemory>
    ensures { OnOk result (IsRest held.now said.old said.new) }
{
    put_counts(held, said)?;
    put_channels(held.channels.as_slice(), said)?;
    let ledger = held.view.ledger.as_slice();
    let indexes = held.view.indexes.as_slice();
    put_buckets(indexes, said)?;
    put_entries(ledger, said)?;
    put_spots(held.spots.as_slice(), said)?;
    put_numbers(ledger, indexes, said)?;
    Ok(())
}

/// The items of a state. Of a fresh one, which no command led to, there are its settings alone.
fn list(alloc: Global, held: &StoreState, fresh: bool) -> Result<Sequence<Item>, NoMemory>
    ensures { IfOk result (AreHeld fresh held.now) }
{
    let mut said = Sequence::new(alloc);
    put_settings(alloc, held, &mut said)?;
    if fresh {
        return Ok(said);
    }
    put_rest(held, &mut said)?;
    Ok(said)
}

/// The items of a state in memory, one behind the other: the settings, the moments, the counts and
/// the number of the next file, the open channels with what is carried of their streams, the
/// buckets, the ledger in its order, the spots, and the numbers of next buckets. Of a fresh state,
/// which no command led to, there are its settings alone.
pub fn items_of(alloc: Global, held: &StoreState, fresh: bool) -> Result<Sequence<Item>, ListFault>
    ensures said { IfOk result (λ list. (choose : Chooser) (history : List TimedCommand) → Holds choose history held.now →
        is_first history ≡ fresh →
        list ≡ held_items fresh (state_after choose history) held.now.view.ledger) }
    // They lead to what the history has left in the log.
    ensures leads { IfOk result (λ list. (choose : Chooser) (history : List TimedCommand) → Holds choose history held.now →
        is_first history ≡ fresh →
        replay list empty ≡ (snapshot_of choose history).book) }
    // Each can be written, and they have room in one body of a log, with a run and last removals.
    ensures proper { IfOk result (λ list. AllByRecursion HasSpelling list) }
    ensures short { IfOk result (λ list. length (body_bytes list) < 2 ^ 32 - 64) }
    ensures sound { IsErrOf result ListFault.TooLong → (choose : Chooser) (history : List TimedCommand) → Holds choose history held.now →
        is_first history ≡ fresh → ⊥ }
{
    let said = match list(alloc, held, fresh) {
        Ok(said) => said,
        Err(_) => return Err(ListFault::NoMemory),
    };
    if !are_writable(said.as_slice()) {
        return Err(ListFault::TooLong);
    }
    match have_room(alloc, said.as_slice()) {
        Ok(true) => Ok(said),
        Ok(false) => Err(ListFault::TooLong),
        Err(_) => Err(ListFault::NoMemory),
    }
}
