//! The state of a store from the items of its log. A mount calls `recall` once the log is read.

ghost use Rattle.std.specs.Prelude.{◌≡◌, ℕ, List, reverse, Option, Err, IfOk, OnOk};
ghost use Rattle.std.specs.List.{filter_map, list_any};
ghost use Rattle.ix_manifest.specs.Book.{empty, replay};
ghost use Rattle.ix_items.specs.declared.items.Item.{Item as Logged};
ghost use Rattle.ix_state.specs.Configs.{IsChooser};
ghost use Rattle.ix_state.specs.Taken.{AreGiven};
ghost use Rattle.ix_model.specs.Given.{Chooser};
ghost use Rattle.ix_model.specs.Ranked.{ranked};
ghost use Rattle.ix_model.specs.declared.commands.TimedCommand.{TimedCommand};
ghost use Rattle.ix_replay.specs.Fits.{fits};
ghost use Rattle.ix_model.specs.Snap.{snapshot_of};
ghost use Rattle.ix_state.specs.Held.{Holds};
ghost use Rattle.ix_store.specs.Finding.{IsBadIn};
ghost use Rattle.ix_store.specs.Written.{over};
ghost use Rattle.ix_store.specs.declared.faulty_item.FaultyItem.{FaultyItem};
ghost use Rattle.ix_recovery.specs.First.{is_first, is_moments};
ghost use Rattle.ix_recovery.specs.Gathered.{entry_in};
ghost use Rattle.ix_recovery.specs.Recalled.{IsRecalled, IsNoState, GivesNone};

use crate::channels::channels_of;
use crate::faults::RecoveryFault;
use crate::gathering::{GatheredItems, gather};
use crate::indexes::indexes_of;
use crate::sorting::spots_by_path;
use ix_base::{NoMemory, Sequence};
use ix_items::Item;
use ix_life::{EntryList, View};
use ix_replay::ItemList;
use ix_state::{StoreState, choosers_exist, config_of, ranked};
use std::alloc::Global;

/// The state that the items of a log lead to.
#[derive(Drop)]
pub struct Recovered {
    pub held: StoreState,
    /// Whether it is that of a store that has accepted nothing.
    pub fresh: bool,
}

/// The ledger of the entries that were gathered: they come in the order in which they are seen.
fn ledger_of(entries: EntryList) -> Result<EntryList, NoMemory>
    ensures { IfOk result (λ ledger. ledger ≡ ranked (reverse entries)) }
{
    let mut entries = entries.into_vec();
    entries.reverse();
    ranked(Sequence::from_vec(entries))
}

/// The state of what was gathered.
fn hold(alloc: Global, gathered: GatheredItems) -> Result<StoreState, RecoveryFault>
    ensures recalled { IfOk result (λ held. IsRecalled gathered held) }
    ensures bad { (subject : FaultyItem) → result ≡ Err (RecoveryFault.Bad subject) → IsNoState subject gathered }
{
    let GatheredItems {
        kept,
        channels,
        buckets,
        entries,
        spots,
        indexes,
        counts,
        next_file,
        last,
        tick,
    } = gathered;
    let config = config_of(alloc, kept)?;
    let limits = &config.limits;
    let indexes = indexes_of(alloc, limits, indexes.into_vec(), buckets.as_slice())?;
    let channels = channels_of(alloc, &config.props, channels.into_vec())?;
    let ledger = ledger_of(entries)?;
    Ok(StoreState {
        config,
        channels,
        spots: spots_by_path(spots.into_vec()),
        view: View {
            indexes,
            ledger,
            settled: counts.settled,
            nulled: counts.nulled,
            dropped: counts.dropped,
        },
        placed: counts.placed,
        next_file,
        last,
        tick,
    })
}

/// Whether an item says moments, as those of each command do.
fn is_moments(item: &Item) -> bool
    ensures { result ≡ is_moments item.now }
{
    match item {
        Item::Moments { .. } => true,
        Item::Settings { .. }
        | Item::Run { .. }
        | Item::Channel { .. }
        | Item::Ended { .. }
        | Item::Bucket { .. }
        | Item::Gone { .. }
        | Item::Ledger { .. }
        | Item::Counts { .. }
        | Item::Spot { .. }
        | Item::NextFile { .. }
        | Item::Removals { .. }
        | Item::NextId { .. } => false,
    }
}

/// Whether one of them does.
fn say_moments(items: &[Item]) -> bool
    ensures { result ≡ list_any is_moments items.now }
{
    items.iter().any(|item| is_moments(item))
}

/// The state that the history of a log leads to. `Bad` comes of no log that a history leaves: its
/// settings cannot be loaded, or what is carried of a channel is no carry by them.
pub fn recall(alloc: Global, book: ItemList) -> Result<Recovered, RecoveryFault>
    ensures done { IfOk result (λ recalled. (choose : Chooser) (history : List TimedCommand) (run : ℕ) (removed : Option Logged) →
        IsChooser choose → AreGiven history → fits (replay book empty) →
        replay book empty ≡ over run removed (snapshot_of choose history).book →
        Holds choose history recalled.held) }
    ensures fresh { IfOk result (λ recalled. (choose : Chooser) (history : List TimedCommand) (run : ℕ) (removed : Option Logged) →
        replay book empty ≡ over run removed (snapshot_of choose history).book → is_first history ≡ recalled.fresh) }
    // The ledger has the entries of the items, in the order in which they are seen.
    ensures ledger { IfOk result (λ recalled. recalled.held.view.ledger ≡ ranked (filter_map entry_in book)) }
    // Of the item that stands for the subject no state comes,
    ensures bad { (subject : FaultyItem) → result ≡ Err (RecoveryFault.Bad subject) → IsBadIn GivesNone subject (replay book empty) }
    // there is no such item where a state has come,
    ensures good { OnOk result ((subject : FaultyItem) → IsBadIn GivesNone subject (replay book empty) → ⊥) }
    // and no history is written so.
    ensures sound { (subject : FaultyItem) → result ≡ Err (RecoveryFault.Bad subject) →
        (choose : Chooser) (history : List TimedCommand) (run : ℕ) (removed : Option Logged) →
        IsChooser choose → AreGiven history →
        replay book empty ≡ over run removed (snapshot_of choose history).book → ⊥ }
{
    choosers_exist();
    let items = book.into_items();
    let fresh = !say_moments(items.as_slice());
    let gathered = gather(alloc, items)?;
    match hold(alloc, gathered) {
        Ok(held) => Ok(Recovered { held, fresh }),
        Err(fault) => Err(fault),
    }
}
