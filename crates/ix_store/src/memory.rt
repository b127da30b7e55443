//! The state in memory, as a store takes it: the store is generic over it, and the crate of the
//! state implements it.

ghost use Rattle.std.specs.Prelude.{◌≡◌, ℕ, ℤ, List, [], Err, IfOk, IfErr, OnOk, Option, is_some, false};
ghost use Rattle.std.specs.List.{AllByRecursion};
ghost use Rattle.std.specs.Option.{option_copied};
ghost use Rattle.ix_items.specs.declared.items.Item.{Item};
ghost use Rattle.ix_items.specs.declared.items.Item.TheVariants.{Settings};
ghost use Rattle.ix_items.specs.declared.items.Kept.{Kept};
ghost use Rattle.ix_life.specs.declared.views.View.{View};
ghost use Rattle.ix_manifest.specs.Book.{empty};
ghost use Rattle.ix_model.specs.Bounds.{IsRefused};
ghost use Rattle.ix_model.specs.Given.{Chooser};
ghost use Rattle.ix_model.specs.Shown.{view};
ghost use Rattle.ix_model.specs.State.{spot_path, life_in};
ghost use Rattle.ix_model.specs.Step.{state_after};
ghost use Rattle.ix_model.specs.declared.commands.Command.TheVariants.{Tick};
ghost use Rattle.ix_model.specs.declared.commands.TimedCommand.{TimedCommand};
ghost use Rattle.ix_catalog.specs.Lists.{find};
ghost use Rattle.ix_model.specs.Shelved.{IsSet};
ghost use Rattle.ix_model.specs.Snap.{snapshot_of};
ghost use Rattle.ix_store.specs.Counting.{weight_of};
ghost use Rattle.ix_store.specs.Exporting.{HaveRecords};
ghost use Rattle.ix_store.specs.Finding.{IsBadIn};
ghost use Rattle.ix_store.specs.Written.{over};
ghost use Rattle.ix_store.specs.Making.{AreProper, IsMade};
ghost use Rattle.ix_store.specs.declared.faulty_item.FaultyItem.{FaultyItem};

use crate::faulty_item::FaultyItem;
use ix_base::Spot;
use ix_commit::WriteBatch;
use ix_items::{FileList, KeptList};
use ix_life::{LimitSet, View};
use ix_manifest::ManifestState;
use ix_model::{Refusal, TimedCommand};
use std::alloc::Global;
use thiserror::Error;

/// What a command leads to, worked out and not yet taken.
#[derive(Drop)]
pub struct Made<N> {
    /// The state in memory then.
    pub next: N,
    /// What a Tick adds to the disk that comes with the command, where one does.
    pub first: Option<WriteBatch>,
    /// What the command itself adds.
    pub second: WriteBatch,
    /// The files that are done with then: they are removed once the command is committed.
    pub done_with: FileList,
    /// How many buckets the command rolls, freezes or thaws.
    pub moved: u64,
    /// How many bytes it brings to be stored.
    pub weight: u64,
}

/// Why the items of a log give no state.
#[derive(Debug, Drop, Error)]
pub enum BookFault {
    /// None comes of the item of this subject.
    #[error("no state of a store comes of the item of {subject:?}")]
    Bad { subject: FaultyItem },
    /// There was no room in memory.
    #[error("there was no room in memory")]
    NoMemory,
}

/// A state in memory that works a command out before it takes it.
pub trait StoreMemory: Sized {
    /// What a command leaves in memory.
    type NextState: Drop;

    /// What the items of a log lead to.
    type Book: ManifestState + Drop;

    /// Whether this is how the settings of a channel are chosen.
    ghost is_chooser: { Chooser → Type 0 };

    /// What a command may bring.
    ghost takes: { TimedCommand → Type 0 };

    /// Whether the state is that of a history.
    ghost holds: { Chooser → List TimedCommand → Self → Type 0 };

    /// What is shown of the state, whatever history it is of.
    ghost shown: { Self → View };

    /// Whether the state is that of a history once this is taken.
    ghost ready: { Chooser → List TimedCommand → Self → Self.NextState → Type 0 };

    /// Whether this can be taken without memory.
    ghost has_room: { Self → Self.NextState → Type 0 };

    /// Of which items of a log no state comes, by the settings that are kept: of settings, and of
    /// an open channel.
    ghost gives_none: { List Kept → Item → Type 0 };

    /// Works out what a command leads to in a run that has drawn so many numbers, or why it is
    /// refused. Nothing is changed.
    fn prepare(
        &self,
        alloc: Global,
        order: TimedCommand,
        drawn: u64,
    ) -> Result<Made<Self::NextState>, Refusal>
        requires { takes order }
        ensures made { IfOk result (λ made. (choose : Chooser) (history : List TimedCommand) → is_chooser choose →
            AllByRecursion takes history → holds choose history self.now →
            IsMade (λ choose history next. ready choose history self.now next) Self.Book.fits choose history order drawn made) }
        ensures room { IfOk result (λ made. has_room self.now made.next) }
        ensures proper { IfOk result (λ made. AreProper made.first made.second) }
        ensures weight { IfOk result (λ made. made.weight ≡ weight_of order.command) }
        ensures refused { IfErr result (λ refusal. (choose : Chooser) (history : List TimedCommand) → is_chooser choose →
            AllByRecursion takes history → holds choose history self.now →
            IsRefused choose false drawn (state_after choose history) order refusal) };

    /// Takes what was worked out. This cannot fail.
    fn install(&mut self, next: Self::NextState)
        requires { has_room self.old next }
        ensures { (choose : Chooser) (history : List TimedCommand) → ready choose history self.old next → holds choose history self.new };

    /// What is seen of the state. It takes no memory.
    fn view(&self) -> &View
        ensures shows { result.now ≡ shown self.now }
        ensures history { (choose : Chooser) (history : List TimedCommand) → holds choose history self.now →
            result.now ≡ view (state_after choose history) };

    /// How far the file of this path was read, where it is watched.
    fn spot(&self, path: &[u8]) -> Option<&Spot>
        ensures { (choose : Chooser) (history : List TimedCommand) → holds choose history self.now →
            option_copied result ≡ find spot_path path.now (state_after choose history).spots };

    /// Whether a channel of this name is open.
    fn has_channel(&self, channel: &[u8]) -> bool
        ensures { (choose : Chooser) (history : List TimedCommand) → holds choose history self.now →
            result ≡ is_some (life_in (state_after choose history) channel.now) };

    /// The settings in force, as they are kept.
    fn kept(&self) -> &KeptList
        ensures { (choose : Chooser) (history : List TimedCommand) → holds choose history self.now →
            result.now ≡ (state_after choose history).force };

    /// The limits of indexes that these settings give.
    fn limits(&self) -> &LimitSet
        ensures { (choose : Chooser) (history : List TimedCommand) → holds choose history self.now →
            IsSet (state_after choose history).force result.now };

    /// What no items lead to.
    fn blank(alloc: Global) -> Self::Book
        ensures { Self.Book.stands result ≡ empty };

    /// The state of the history that the items of a log were written for.
    fn from_book(alloc: Global, book: Self::Book) -> Result<Self, BookFault>
        ensures held { IfOk result (λ memory. (choose : Chooser) (history : List TimedCommand) (run : ℕ) (removed : Option Item) →
            is_chooser choose → AllByRecursion takes history →
            Self.Book.fits (Self.Book.stands book) → Self.Book.stands book ≡ over run removed (snapshot_of choose history).book →
            holds choose history memory) }
        // Of the item that stands there for the subject no state comes,
        ensures bad { (subject : FaultyItem) → result ≡ Err (BookFault.Bad subject) → IsBadIn gives_none subject (Self.Book.stands book) }
        // there is no such item where a state has come,
        ensures good { OnOk result ((subject : FaultyItem) → IsBadIn gives_none subject (Self.Book.stands book) → ⊥) }
        // and no history is written so.
        ensures sound { (subject : FaultyItem) → result ≡ Err (BookFault.Bad subject) →
            (choose : Chooser) (history : List TimedCommand) (run : ℕ) (removed : Option Item) →
            is_chooser choose → AllByRecursion takes history →
            Self.Book.stands book ≡ over run removed (snapshot_of choose history).book → ⊥ };

    /// Settings that set nothing are no cause that no state comes.
    ghost none_set_is_good: { (force : List Kept) → gives_none force (Settings []) → ⊥ };

    /// An accepted command may bring a Tick, of any moment.
    ghost ticks_are_taken: { (moment : ℤ) → takes (record { command = Tick; moment = moment }) };

    /// Each event that a history puts into an index has a record.
    ghost have_records: { (choose : Chooser) (history : List TimedCommand) (memory : Self) → is_chooser choose →
        AllByRecursion takes history → holds choose history memory →
        HaveRecords (state_after choose history) };
}
