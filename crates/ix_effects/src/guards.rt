//! What dealing and the items of a command ask of indexes and entries, told by these alone. It
//! holds in every state within its bounds, and is asked again before each command is worked out.

ghost use Rattle.std.specs.Prelude.{◌≡◌, ◌↔◌, ◌<◌, ◌+◌, IsTrue, All};
ghost use Rattle.ix_life.specs.declared.views.IndexView.{IndexView};
ghost use Rattle.ix_effects.specs.Guarding.{HasShortName, IsWritableEntry, Ascends};
ghost use Rattle.ix_catalog.specs.Numbers.{KeepsBucket, KeepsIndex, KeepsNumbers, IsBalanced};
ghost use Rattle.ix_catalog.specs.Lists.{AreAscending};
ghost use Rattle.ix_catalog.specs.Shelves.{view_name};

use ix_catalog::IndexTable;
use ix_items::{Bucket, Entry};
use ix_life::IndexView;
use std::cmp::Ordering;

/// What all numbers of a store stay below.
pub const LIMIT: u64 = 1 << 63;

/// What the lengths of texts in the log stay below.
const LONG: usize = 1 << 32;

/// Whether the bytes and events of a bucket stay below the limit.
fn keeps_bucket(bucket: &Bucket) -> bool
    ensures { IsTrue result ↔ KeepsBucket bucket.now }
{
    bucket.bytes < LIMIT && bucket.count < LIMIT
}

/// Whether those of each bucket do.
fn keeps_buckets(buckets: &[Bucket]) -> bool
    ensures { IsTrue result ↔ All KeepsBucket buckets.now }
{
    for bucket in buckets {
        if !keeps_bucket(bucket) {
            return false;
        }
    }
    true
}

/// Whether those of each bucket of an index do.
fn keeps_index(view: &IndexView) -> bool
    ensures { IsTrue result ↔ KeepsIndex view.now }
{
    keeps_buckets(view.buckets.as_slice())
}

/// Whether those of each bucket of all indexes do.
fn keeps_indexes(indexes: &[IndexView]) -> bool
    ensures { IsTrue result ↔ All KeepsIndex indexes.now }
{
    for view in indexes {
        if !keeps_index(view) {
            return false;
        }
    }
    true
}

/// Whether the numbers of the shelves stay below the limit.
pub fn keeps_numbers(shelves: &IndexTable) -> bool
    ensures { IsTrue result ↔ KeepsNumbers shelves.now }
{
    shelves.settled < LIMIT
        && shelves.next_file < LIMIT
        && keeps_indexes(shelves.indexes.as_slice())
}

fn sum(placed: u64, nulled: u64, dropped: u64) -> u128
    ensures { result ≡ placed + nulled + dropped }
{
    u128::from(placed) + u128::from(nulled) + u128::from(dropped)
}

/// Whether each settled event was placed, went to the null queue, or was dropped.
pub fn is_balanced(shelves: &IndexTable) -> bool
    ensures { IsTrue result ↔ IsBalanced shelves.now }
{
    u128::from(shelves.settled) == sum(shelves.placed, shelves.nulled, shelves.dropped)
}

/// Whether one index stands before another by the bytes of their names.
fn is_before(view: &IndexView, other: &IndexView) -> bool
    ensures { IsTrue result ↔ Ascends view.now other.now }
{
    match view.name.as_slice().cmp(&other.name.as_slice()) {
        Ordering::Less => true,
        Ordering::Equal | Ordering::Greater => false,
    }
}

/// Whether the indexes stand by the bytes of their names.
pub fn stand_by_name(indexes: &[IndexView]) -> bool
    ensures { IsTrue result ↔ AreAscending view_name indexes.now }
{
    for at in 1..indexes.len() {
        if !is_before(&indexes[at - 1], &indexes[at]) {
            return false;
        }
    }
    true
}

/// Whether the names of indexes can be written.
pub fn are_short(indexes: &[IndexView]) -> bool
    ensures { IsTrue result ↔ All HasShortName indexes.now }
{
    for view in indexes {
        if view.name.len() >= LONG {
            return false;
        }
    }
    true
}

/// Whether an entry can be written.
fn is_writable(entry: &Entry) -> bool
    ensures { IsTrue result ↔ IsWritableEntry entry.now }
{
    let archived = match entry.archive {
        Some(number) => number != 0,
        None => true,
    };
    entry.index.len() < LONG && archived
}

/// Whether entries of the ledger can be written.
pub fn are_writable(entries: &[Entry]) -> bool
    ensures { IsTrue result ↔ All IsWritableEntry entries.now }
{
    for entry in entries {
        if !is_writable(entry) {
            return false;
        }
    }
    true
}
