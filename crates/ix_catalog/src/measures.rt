//! How much there is on shelves and in the ledger. The store calls these before it takes a state,
//! which it bounds.

ghost use Rattle.std.specs.Prelude.{◌≡◌, ◌≢◌, ◌+◌, ◌*◌, ◌<◌, ◌^◌, length};
ghost use Rattle.std.specs.List.{count_by, list_any, sum_by, flat_map};
ghost use Rattle.ix_items.specs.Spelling.{item_bytes, body_bytes};
ghost use Rattle.ix_items.specs.declared.items.Item.{Item};
ghost use Rattle.ix_items.specs.declared.items.Bucket.{Bucket};
ghost use Rattle.ix_items.specs.declared.items.Entry.{Entry};
ghost use Rattle.ix_catalog.specs.Measures as defs;
ghost use Rattle.ix_catalog.specs.Measures.{capped};
ghost use Rattle.ix_catalog.specs.Shelves.{is_live, is_of};
ghost use Rattle.ix_catalog.specs.Shelves as shelf;

use crate::housekeeping::is_live;
use crate::index_table::IndexTable;
use ix_base::Bytes;
use ix_items::{Bucket, Entry};
use ix_life::IndexView;

/// Whether an entry is of this index.
fn is_of(index: &Bytes, entry: &Entry) -> bool
    ensures { result ≡ is_of index.now entry.now }
{
    entry.index.as_slice() == index.as_slice()
}

fn live_count(buckets: &[Bucket]) -> usize
    ensures { result ≡ count_by is_live buckets.now }
{
    buckets.iter().filter(|bucket| is_live(bucket)).count()
}

fn frozen_count(index: &Bytes, ledger: &[Entry]) -> usize
    ensures { result ≡ count_by (is_of index.now) ledger.now }
{
    ledger.iter().filter(|entry| is_of(index, entry)).count()
}

/// The number of the next bucket of an index: how many it has had. It goes over the ledger once.
pub fn next_number(index: &Bytes, buckets: &[Bucket], ledger: &[Entry]) -> u64
    ensures { result ≡ shelf.next_number index.now buckets.now ledger.now }
{
    live_count(buckets) as u64 + frozen_count(index, ledger) as u64
}

/// The bytes of buckets.
fn bytes_of(buckets: &[Bucket]) -> u128
    ensures { result ≡ sum_by (λ (b : Bucket). b.bytes) buckets.now }
{
    let mut total = 0;
    for bucket in buckets {
        total += u128::from(bucket.bytes);
    }
    total
}

/// The events of buckets.
fn events_of(buckets: &[Bucket]) -> u128
    ensures { result ≡ sum_by (λ (b : Bucket). b.count) buckets.now }
{
    let mut total = 0;
    for bucket in buckets {
        total += u128::from(bucket.count);
    }
    total
}

/// The bytes of the buckets of indexes.
fn shelf_bytes(indexes: &[IndexView]) -> u128
    ensures { result ≡ capped (sum_by defs.bytes_in indexes.now) }
{
    let mut total: u128 = 0;
    for view in indexes {
        total = total.saturating_add(bytes_of(view.buckets.as_slice()));
    }
    total
}

/// The events of the buckets of indexes.
fn shelf_events(indexes: &[IndexView]) -> u128
    ensures { result ≡ capped (sum_by defs.events_in indexes.now) }
{
    let mut total: u128 = 0;
    for view in indexes {
        total = total.saturating_add(events_of(view.buckets.as_slice()));
    }
    total
}

/// The bytes of entries.
fn ledger_bytes(ledger: &[Entry]) -> u128
    ensures { result ≡ sum_by (λ (e : Entry). e.bytes) ledger.now }
{
    let mut total = 0;
    for entry in ledger {
        total += u128::from(entry.bytes);
    }
    total
}

/// The events of entries.
fn ledger_events(ledger: &[Entry]) -> u128
    ensures { result ≡ sum_by (λ (e : Entry). e.count) ledger.now }
{
    let mut total = 0;
    for entry in ledger {
        total += u128::from(entry.count);
    }
    total
}

/// The bytes of the records of all buckets and of all entries of the ledger, or 2^128 - 1 where
/// there are more. It takes no memory.
pub fn all_bytes(ledger: &[Entry], shelves: &IndexTable) -> u128
    ensures { result ≡ capped (defs.all_bytes ledger.now shelves.now) }
{
    shelf_bytes(shelves.indexes.as_slice()).saturating_add(ledger_bytes(ledger))
}

/// The events of all buckets and of all entries of the ledger, or 2^128 - 1 where there are more.
/// It takes no memory.
pub fn all_events(ledger: &[Entry], shelves: &IndexTable) -> u128
    ensures { result ≡ capped (defs.all_events ledger.now shelves.now) }
{
    shelf_events(shelves.indexes.as_slice()).saturating_add(ledger_events(ledger))
}

/// The bytes of a bucket's item, but for the name of the index.
const BUCKET: u128 = 71;

/// The bytes of a next number's item, but for the name of the index.
const NEXT_ID: u128 = 13;

/// The bytes of an entry's item, but for the name of the index.
const LEDGER: u128 = 62;

/// Whether the ledger has an entry of an index.
fn has_entry(index: &Bytes, ledger: &[Entry]) -> bool
    ensures { result ≡ list_any (is_of index.now) ledger.now }
{
    ledger.iter().any(|entry| is_of(index, entry))
}

/// Whether an index has had a bucket. It goes over the ledger only where there is none now.
fn has_number(ledger: &[Entry], view: &IndexView) -> bool
    ensures { result ≡ defs.has_number ledger.now view.now }
{
    !view.buckets.is_empty() || has_entry(&view.name, ledger)
}

/// How many bytes the items of an index have.
fn index_size(ledger: &[Entry], view: &IndexView) -> u128
    ensures { result ≡ capped (length (body_bytes (defs.index_items ledger.now view.now))) }
{
    let name = view.name.len() as u128;
    let buckets = (view.buckets.len() as u128).saturating_mul(BUCKET + name);
    if has_number(ledger, view) {
        buckets.saturating_add(NEXT_ID + name)
    } else {
        buckets
    }
}

/// How many bytes the items of indexes have.
fn index_sizes(ledger: &[Entry], indexes: &[IndexView]) -> u128
    ensures { result ≡ capped (length (body_bytes (flat_map (defs.index_items ledger.now) indexes.now))) }
{
    let mut total: u128 = 0;
    for view in indexes {
        total = total.saturating_add(index_size(ledger, view));
    }
    total
}

/// How many bytes the items of entries have.
fn ledger_size(ledger: &[Entry]) -> u128
    ensures { result ≡ capped (sum_by (λ (e : Entry). length (item_bytes (Item.Ledger e))) ledger.now) }
{
    let mut total: u128 = 0;
    for entry in ledger {
        total = total.saturating_add(LEDGER + entry.index.len() as u128);
    }
    total
}

/// How many bytes the items of all buckets, of the numbers of next buckets and of the ledger have
/// together, or 2^128 - 1 where there are more. It takes no memory, and goes over the ledger once,
/// and once more for each index that has no bucket.
pub fn shelf_size(ledger: &[Entry], shelves: &IndexTable) -> u128
    ensures { result ≡ capped (defs.shelf_size ledger.now shelves.now) }
{
    index_sizes(ledger, shelves.indexes.as_slice()).saturating_add(ledger_size(ledger))
}
