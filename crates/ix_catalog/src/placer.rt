//! Events are placed in the buckets of their indexes. The store calls `Placer::deal_all` for what a
//! command settles.

ghost use Rattle.std.specs.Prelude.{◌≡◌, ◌<◌, ◌≤◌, ◌+◌, ◌^◌, ℕ, List, Some, None, length, IfOk, OnOk, IsErrOf, slice_get};
ghost use Rattle.std.specs.Option.{option_map};
ghost use Rattle.std.specs.List.{All};
ghost use Rattle.ix_life.specs.declared.views.IndexView.{IndexView};
ghost use Rattle.ix_catalog.specs.Buckets.{named, size};
ghost use Rattle.ix_catalog.specs.Dealing as defs;
ghost use Rattle.ix_catalog.specs.Filling.{growth_of, fed, opened, file_behind, one_more, put_there};
ghost use Rattle.ix_catalog.specs.Lists.{find};
ghost use Rattle.ix_catalog.specs.Numbers.{KeepsIndex, KeepsNumbers, IsBalanced, HasRecord, HasRecordIn};
ghost use Rattle.ix_catalog.specs.Shelves.{view_name};
ghost use Rattle.ix_catalog.specs.declared.placer.DealFault.TheVariants as faults;

use crate::buckets::{Growth, LIMIT, begin, by_id, grow_id, roll_some};
use crate::index_table::{IndexTable, place_of};
use crate::measures::next_number;
use crate::pieces::{add_record, spot_of};
use ix_base::{Bytes, Event, NoMemory as OutOfMemory, Routed, RoutedList, Sequence};
use ix_commit::Append;
use ix_items::Entry;
use ix_life::{IndexView, LimitSet, Route, Target, place};
use std::alloc::Global;
use std::mem;
use thiserror::Error;

/// Shelves on which events are placed, with the bytes that these add to the files of buckets.
#[derive(Drop)]
pub struct Work {
    pub shelves: IndexTable,
    /// The bytes, each piece behind what its file has. Neighbours have different files.
    pub pieces: Sequence<Append>,
}

/// Why events were not placed.
#[derive(Clone, Copy, Debug, PartialEq, Eq, Error)]
pub enum DealFault {
    /// A number of the store would come to 2^63: a count of events, the number of a file, or the
    /// bytes of a bucket.
    #[error("the store has no room for it")]
    Full,
    /// There was no room in memory.
    #[error("there was no room in memory")]
    NoMemory,
}

impl From<OutOfMemory> for DealFault {
    ghost from_gives = { λ _ e. e ≡ faults.NoMemory };

    fn from(_: OutOfMemory) -> DealFault {
        DealFault::NoMemory
    }
}

/// What the events of a command are placed by.
#[derive(Drop)]
pub struct Placer<'a> {
    /// Where memory is taken from.
    pub alloc: Global,
    /// The limits of the indexes that are configured.
    pub set: &'a LimitSet,
    /// The buckets that were frozen, of all indexes.
    pub ledger: &'a [Entry],
    /// The moment of the command, in microseconds since 1970-01-01T00:00:00Z.
    pub moment: i64,
}

/// An event that is placed.
#[derive(Drop)]
struct Placement<'a> {
    event: &'a Event,
    /// The number that the next file has.
    file: u64,
    /// How many events the store has placed with it.
    used: u64,
}

/// Counts an event that went to the null queue.
fn count_nulled(shelves: &mut IndexTable) -> Result<(), DealFault>
    requires numbers { KeepsNumbers shelves.old }
    requires balanced { IsBalanced shelves.old }
    ensures done { OnOk result (shelves.new ≡ defs.one_nulled shelves.old) }
    ensures kept { OnOk result (KeepsNumbers shelves.new) }
    ensures balanced { OnOk result (IsBalanced shelves.new) }
    ensures full { IsErrOf result DealFault.Full → KeepsNumbers (defs.one_nulled shelves.old) → ⊥ }
{
    if shelves.settled + 1 >= LIMIT {
        return Err(DealFault::Full);
    }
    shelves.settled += 1;
    shelves.nulled += 1;
    Ok(())
}

/// Counts an event that has no index to go to.
fn count_dropped(shelves: &mut IndexTable) -> Result<(), DealFault>
    requires numbers { KeepsNumbers shelves.old }
    requires balanced { IsBalanced shelves.old }
    ensures done { OnOk result (shelves.new ≡ defs.one_dropped shelves.old) }
    ensures kept { OnOk result (KeepsNumbers shelves.new) }
    ensures balanced { OnOk result (IsBalanced shelves.new) }
    ensures full { IsErrOf result DealFault.Full → KeepsNumbers (defs.one_dropped shelves.old) → ⊥ }
{
    if shelves.settled + 1 >= LIMIT {
        return Err(DealFault::Full);
    }
    shelves.settled += 1;
    shelves.dropped += 1;
    Ok(())
}

/// Counts an event that was placed, in a bucket that was made for it or not.
fn count_placed(shelves: &mut IndexTable, fresh: bool)
    requires settled { shelves.old.settled + 1 < 2 ^ 63 }
    requires placed { shelves.old.placed + 1 < 2 ^ 63 }
    requires next_file { shelves.old.next_file < 2 ^ 63 }
    ensures { shelves.new ≡ one_more shelves.old.indexes fresh shelves.old }
{
    shelves.settled += 1;
    shelves.placed += 1;
    if fresh {
        shelves.next_file += 1;
    }
}

/// The event under the name of another index.
fn rename(event: Event, name: Bytes) -> Event
    ensures { result ≡ named name event }
{
    Event {
        time: event.time,
        arrival: event.arrival,
        index: name,
        host: event.host,
        source: event.source,
        sourcetype: event.sourcetype,
        meta: event.meta,
        raw: event.raw,
    }
}

/// The event under a copy of this name.
fn renamed(event: Event, name: &Bytes) -> Result<Option<Event>, OutOfMemory>
    ensures { IfOk result (λ sent. sent ≡ Some (named name.now event)) }
{
    match name.copy() {
        Ok(name) => Ok(Some(rename(event, name))),
        Err(fault) => {
            // all that an event has is let go in one call, here and below
            drop(event);
            Err(fault)
        }
    }
}

impl Placer<'_> {
    /// The event under the name of the index that it goes to, if there is one.
    fn send(&self, event: Event) -> Result<Option<Event>, OutOfMemory>
        ensures { IfOk result (λ sent. sent ≡ option_map (λ (name : List ℕ). named name event) (defs.home self.now.set.now event.index)) }
    {
        match self.set.route(event.index.as_slice()) {
            Route::Given => Ok(Some(event)),
            Route::LastChance => match &self.set.last_chance {
                Some(name) => renamed(event, name),
                None => {
                    drop(event);
                    Ok(None)
                }
            },
            Route::Nowhere => {
                drop(event);
                Ok(None)
            }
        }
    }

    /// Puts an event into the bucket of this number.
    fn put_into(
        &self,
        id: u64,
        placement: &Placement<'_>,
        view: &mut IndexView,
        pieces: &mut Sequence<Append>,
    ) -> Result<(), DealFault>
        requires small { size placement.now.event.now < 2 ^ 32 }
        requires numbers { KeepsIndex view.old }
        ensures view { OnOk result (view.new ≡ fed self.now.moment id placement.now.event.now placement.now.used view.old) }
        ensures pieces { OnOk result (pieces.new ≡ defs.joined
            (defs.behind placement.now.event.now (defs.found (Some id) view.old.buckets) placement.now.file) pieces.old) }
        ensures kept { OnOk result (KeepsIndex view.new) }
        ensures full { IsErrOf result DealFault.Full → KeepsIndex
            (fed self.now.moment id placement.now.event.now placement.now.used view.old) → ⊥ }
    {
        let spot = spot_of(by_id(view.buckets.as_slice(), id), placement.file);
        let size = add_record(self.alloc, spot, placement.event, pieces)?;
        let growth = self.growth(placement, size);
        grow_id(&mut view.buckets, id, &view.limits, &growth)
    }

    /// What an event adds to its bucket.
    fn growth(&self, placement: &Placement<'_>, size: u64) -> Growth
        ensures { result ≡ growth_of self.now.moment placement.now.event.now placement.now.used size }
    {
        Growth {
            size,
            time: placement.event.time,
            used: placement.used,
            moment: self.moment,
        }
    }

    /// Puts an event into a new bucket.
    fn put_new(
        &self,
        target: Target,
        placement: &Placement<'_>,
        view: &mut IndexView,
        pieces: &mut Sequence<Append>,
    ) -> Result<(), DealFault>
        requires small { size placement.now.event.now < 2 ^ 32 }
        requires numbers { KeepsIndex view.old }
        requires file { placement.now.file < 2 ^ 63 }
        ensures view { OnOk result (view.new ≡ opened self.now.ledger.now self.now.moment placement.now.event.now placement.now.file
            placement.now.used target view.old) }
        ensures pieces { OnOk result (pieces.new ≡ defs.joined (defs.behind placement.now.event.now None placement.now.file) pieces.old) }
        ensures kept { OnOk result (KeepsIndex view.new) }
        ensures file { OnOk result (placement.now.file + 1 < 2 ^ 63) }
        ensures full { IsErrOf result DealFault.Full → 2 ^ 63 ≤ placement.now.file + 1 }
    {
        if placement.file + 1 >= LIMIT {
            return Err(DealFault::Full);
        }
        let id = next_number(&view.name, view.buckets.as_slice(), self.ledger);
        roll_some(&mut view.buckets, target.rolls);
        let spot = spot_of(None, placement.file);
        let size = add_record(self.alloc, spot, placement.event, pieces)?;
        let growth = self.growth(placement, size);
        let bucket = begin(&view.limits, id, target.quarantine, placement.file, &growth);
        view.buckets.push(bucket)?;
        Ok(())
    }

    /// Places an event in an index. Whether a bucket is made for it.
    fn put_in(
        &self,
        placement: &Placement<'_>,
        view: &mut IndexView,
        pieces: &mut Sequence<Append>,
    ) -> Result<bool, DealFault>
        requires small { size placement.now.event.now < 2 ^ 32 }
        requires numbers { KeepsIndex view.old }
        requires file { placement.now.file < 2 ^ 63 }
        ensures view { OnOk result (view.new ≡ defs.filled self.now.ledger.now self.now.moment placement.now.file placement.now.used
            placement.now.event.now view.old) }
        ensures pieces { OnOk result (pieces.new ≡ defs.joined
            (defs.piece view.old.limits placement.now.file placement.now.event.now view.old.buckets) pieces.old) }
        ensures fresh { IfOk result (λ fresh. fresh ≡ defs.is_fresh view.old.limits placement.now.event.now view.old.buckets) }
        ensures kept { OnOk result (KeepsIndex view.new) }
        ensures file { OnOk result (file_behind placement.now.file placement.now.event.now view.old < 2 ^ 63) }
        ensures full { IsErrOf result DealFault.Full →
            KeepsIndex (defs.filled self.now.ledger.now self.now.moment placement.now.file placement.now.used placement.now.event.now
            view.old)
            → file_behind placement.now.file placement.now.event.now view.old < 2 ^ 63 → ⊥ }
    {
        let event = placement.event;
        let target = place(&view.buckets, &view.limits, event.time, event.arrival);
        match target.into {
            Some(id) => {
                self.put_into(id, placement, view, pieces)?;
                Ok(false)
            }
            None => {
                self.put_new(target, placement, view, pieces)?;
                Ok(true)
            }
        }
    }
}

impl Placer<'_> {
    /// Places an event in the index at a place.
    fn put_at(&self, event: &Event, at: usize, work: &mut Work) -> Result<(), DealFault>
        requires small { size event.now < 2 ^ 32 }
        requires numbers { KeepsNumbers work.old.shelves }
        requires balanced { IsBalanced work.old.shelves }
        requires within { at < length work.old.shelves.indexes }
        ensures done { OnOk result ((v : IndexView) → slice_get work.old.shelves.indexes at ≡ Some v →
            work.new ≡ put_there self.now.ledger.now self.now.moment event.now at v work.old) }
        ensures kept { OnOk result (KeepsNumbers work.new.shelves) }
        ensures balanced { OnOk result (IsBalanced work.new.shelves) }
        ensures full { IsErrOf result DealFault.Full → (v : IndexView) → slice_get work.old.shelves.indexes at ≡ Some v →
            KeepsNumbers (put_there self.now.ledger.now self.now.moment event.now at v work.old).shelves → ⊥ }
    {
        if work.shelves.settled + 1 >= LIMIT {
            return Err(DealFault::Full);
        }
        let placement = Placement {
            event,
            file: work.shelves.next_file,
            used: work.shelves.placed + 1,
        };
        let taken = mem::replace(&mut work.shelves.indexes, Sequence::new(self.alloc));
        let mut indexes = taken.into_vec();
        let fresh = self.put_in(&placement, &mut indexes[at], &mut work.pieces)?;
        work.shelves.indexes = Sequence::from_vec(indexes);
        count_placed(&mut work.shelves, fresh);
        Ok(())
    }

    /// Places an event in the index that it names.
    fn put(&self, event: &Event, work: &mut Work) -> Result<(), DealFault>
        requires small { size event.now < 2 ^ 32 }
        requires numbers { KeepsNumbers work.old.shelves }
        requires balanced { IsBalanced work.old.shelves }
        ensures done { OnOk result (work.new ≡ defs.put_in self.now.ledger.now self.now.moment event.now
            (find view_name event.now.index work.old.shelves.indexes) work.old) }
        ensures kept { OnOk result (KeepsNumbers work.new.shelves) }
        ensures balanced { OnOk result (IsBalanced work.new.shelves) }
        ensures full { IsErrOf result DealFault.Full →
            KeepsNumbers (defs.put_in self.now.ledger.now self.now.moment event.now
            (find view_name event.now.index work.old.shelves.indexes) work.old).shelves → ⊥ }
    {
        match place_of(work.shelves.indexes.as_slice(), event.index.as_slice()) {
            Some(at) => self.put_at(event, at, work),
            None => count_dropped(&mut work.shelves),
        }
    }

    /// Places an event in the index that it goes to, or drops it.
    fn deal_event(&self, event: Event, work: &mut Work) -> Result<(), DealFault>
        requires small { HasRecordIn event (defs.home self.now.set.now event.index) }
        requires numbers { KeepsNumbers work.old.shelves }
        requires balanced { IsBalanced work.old.shelves }
        ensures done { OnOk result (work.new ≡ defs.deal_to self.now.ledger.now self.now.moment event
            (defs.home self.now.set.now event.index) work.old) }
        ensures kept { OnOk result (KeepsNumbers work.new.shelves) }
        ensures balanced { OnOk result (IsBalanced work.new.shelves) }
        ensures full { IsErrOf result DealFault.Full →
            KeepsNumbers (defs.deal_to self.now.ledger.now self.now.moment event (defs.home self.now.set.now event.index)
            work.old).shelves → ⊥ }
    {
        match self.send(event)? {
            Some(event) => {
                let done = self.put(&event, work);
                drop(event);
                done
            }
            None => count_dropped(&mut work.shelves),
        }
    }

    /// Deals with what an event comes to.
    fn deal(&self, outcome: Routed, work: &mut Work) -> Result<(), DealFault>
        requires small { HasRecord self.now.set.now outcome }
        requires numbers { KeepsNumbers work.old.shelves }
        requires balanced { IsBalanced work.old.shelves }
        ensures done { OnOk result (work.new ≡ defs.deal self.now.set.now self.now.ledger.now self.now.moment work.old outcome) }
        ensures kept { OnOk result (KeepsNumbers work.new.shelves) }
        ensures balanced { OnOk result (IsBalanced work.new.shelves) }
        ensures full { IsErrOf result DealFault.Full →
            KeepsNumbers (defs.deal self.now.set.now self.now.ledger.now self.now.moment work.old outcome).shelves → ⊥ }
    {
        match outcome {
            Routed::To(event) => self.deal_event(event, work),
            Routed::Null => count_nulled(&mut work.shelves),
        }
    }

    /// Deals with what events come to, the first one first. An event goes into the index that it
    /// names where that is configured, else into the `lastChanceIndex`, else it is dropped; one of
    /// the null queue is counted and not kept. An event that is placed goes into a bucket of its
    /// index, with its record behind those of the bucket. It is `Full` exactly where a number would
    /// come to 2^63. After an error the work is of no use.
    pub fn deal_all(&self, outcomes: RoutedList, work: &mut Work) -> Result<(), DealFault>
        // Each record has fewer than 2^32 bytes.
        requires small { All (HasRecord self.now.set.now) outcomes }
        requires numbers { KeepsNumbers work.old.shelves }
        requires balanced { IsBalanced work.old.shelves }
        ensures done { OnOk result (work.new ≡ defs.deal_all self.now.set.now self.now.ledger.now self.now.moment work.old outcomes) }
        ensures kept { OnOk result (KeepsNumbers work.new.shelves) }
        ensures balanced { OnOk result (IsBalanced work.new.shelves) }
        // It is `Full` only where the whole would not keep the numbers.
        ensures full { IsErrOf result DealFault.Full →
            KeepsNumbers (defs.deal_all self.now.set.now self.now.ledger.now self.now.moment work.old outcomes).shelves → ⊥ }
    {
        for outcome in outcomes.into_vec() {
            self.deal(outcome, work)?;
        }
        Ok(())
    }
}
