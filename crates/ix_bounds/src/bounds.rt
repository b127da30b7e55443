//! Whether the parts of a state that are in memory are within their bounds. The store asks before
//! it takes a state.

ghost use Rattle.std.specs.Prelude.{◌≡◌, ◌↔◌, true};
ghost use Rattle.std.specs.List.{list_all};
ghost use Rattle.ix_bounds.specs.Parts.{Parts};
ghost use Rattle.ix_bounds.specs.Tests as tests;
ghost use Rattle.ix_bounds.specs.Totals.{AreMeasured};
ghost use Rattle.ix_bounds.specs.Within.{AreWithin};

use crate::totals::{Channels, Spots, settings_size};
use ix_catalog::{IndexTable, all_bytes, all_events, shelf_size};
use ix_items::{Bucket, Entry, Kept};
use ix_life::IndexView;

/// How far from 1970 the time of an event is at most, in microseconds.
const FARTHEST: u64 = 1 << 62;

/// The first number that is too large.
const TOO_LARGE: u128 = 1 << 63;

/// How many channels are open at most.
const MOST_CHANNELS: u128 = 256;

/// The first number of bytes of the items of a state that is too large.
const TOO_MANY_BYTES: u128 = 1 << 29;

fn is_time(time: i64) -> bool
    ensures { result ≡ tests.is_time time }
{
    time.unsigned_abs() <= FARTHEST
}

fn has_times(bucket: &Bucket) -> bool
    ensures { result ≡ tests.has_times bucket.now }
{
    is_time(bucket.newest) && is_time(bucket.oldest)
}

fn entry_has_times(entry: &Entry) -> bool
    ensures { result ≡ tests.entry_has_times entry.now }
{
    is_time(entry.newest) && is_time(entry.oldest)
}

fn all_have_times(view: &IndexView) -> bool
    ensures { result ≡ tests.all_have_times view.now }
{
    view.buckets
        .as_slice()
        .iter()
        .all(|bucket| has_times(bucket))
}

/// Whether the times that buckets state are within their bounds.
fn views_have_times(indexes: &[IndexView]) -> bool
    ensures { result ≡ list_all tests.all_have_times indexes.now }
{
    indexes.iter().all(|view| all_have_times(view))
}

/// Whether the times that entries of the ledger state are.
fn entries_have_times(ledger: &[Entry]) -> bool
    ensures { result ≡ list_all tests.entry_has_times ledger.now }
{
    ledger.iter().all(|entry| entry_has_times(entry))
}

/// Whether the counts of files, bytes and events are within their bounds.
fn are_numbers(ledger: &[Entry], shelves: &IndexTable) -> bool
    ensures { result ≡ tests.are_numbers ledger.now shelves.now }
{
    u128::from(shelves.settled) < TOO_LARGE
        && u128::from(shelves.next_file) < TOO_LARGE
        && all_bytes(ledger, shelves) < TOO_LARGE
        && all_events(ledger, shelves) < TOO_LARGE
}

/// Whether the items of a state, of which those of channels and spots have so many bytes, are few
/// enough.
fn are_few(kept: &[Kept], others: u128, ledger: &[Entry], shelves: &IndexTable) -> bool
    ensures { result ≡ tests.are_few kept.now others ledger.now shelves.now }
{
    settings_size(kept)
        .saturating_add(others)
        .saturating_add(shelf_size(ledger, shelves))
        < TOO_MANY_BYTES
}

/// Whether all of these are within their bounds.
fn are_within(
    kept: &[Kept],
    channels: Channels,
    spots: Spots,
    ledger: &[Entry],
    shelves: &IndexTable,
) -> bool
    ensures { result ≡ tests.are_within kept.now channels spots ledger.now shelves.now }
{
    channels.count <= MOST_CHANNELS
        && spots.within
        && are_numbers(ledger, shelves)
        && views_have_times(shelves.indexes.as_slice())
        && entries_have_times(ledger)
        && are_few(
            kept,
            channels.size.saturating_add(spots.size),
            ledger,
            shelves,
        )
}

/// Whether a state with these settings, channels, spots, entries and shelves keeps the bounds of
/// what a store can keep. It takes no memory, and goes over all there is once, and over the ledger
/// once more for each index that has no bucket.
pub fn keeps_bounds(
    kept: &[Kept],
    channels: Channels,
    spots: Spots,
    ledger: &[Entry],
    shelves: &IndexTable,
) -> bool
    ensures { (p : Parts) → AreMeasured p kept.now channels spots shelves.now ledger.now → (result ≡ true ↔ AreWithin p) }
{
    are_within(kept, channels, spots, ledger, shelves)
}
