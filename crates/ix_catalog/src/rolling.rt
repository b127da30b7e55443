//! Rolls. The store calls `roll` for the command of that name.

ghost use Rattle.std.specs.Prelude.{◌≡◌, ◌<◌, length, map, slice_get, slice_set, Some};
ghost use Rattle.std.specs.List.{count_by};
ghost use Rattle.ix_life.specs.Placing as placing;
ghost use Rattle.ix_life.specs.declared.views.IndexView as views;
ghost use Rattle.ix_catalog.specs.Buckets as buckets;
ghost use Rattle.ix_catalog.specs.Lists.{find};
ghost use Rattle.ix_catalog.specs.Shelves.{view_name};
ghost use Rattle.ix_catalog.specs.Turning as defs;

use crate::housekeeping::rolled;
use crate::index_table::IndexTable;
use crate::viewing::{place_of, take_out};
use ix_items::{Bucket, State};
use ix_life::{BucketList, IndexViewList};

/// Whether the bucket takes events.
fn is_open(bucket: &Bucket) -> bool
    ensures { result ≡ placing.is_open bucket.now }
{
    match bucket.state {
        State::Hot | State::Quarantine => true,
        State::Warm | State::Cold | State::Thawed => false,
    }
}

/// The bucket, rolled to warm where it takes events.
fn rolled_if_open(bucket: Bucket) -> Bucket
    ensures { result ≡ buckets.rolled_if_open bucket }
{
    if is_open(&bucket) {
        rolled(bucket)
    } else {
        bucket
    }
}

/// How many buckets take events.
fn open_count(list: &[Bucket]) -> usize
    ensures { result ≡ count_by placing.is_open list.now }
{
    list.iter().filter(|bucket| is_open(bucket)).count()
}

fn bucket_at(list: &BucketList, at: usize) -> Bucket
    requires { at < length list.now }
    ensures { slice_get list.now at ≡ Some result }
{
    list.as_slice()[at]
}

/// Rolls the buckets that take events.
fn roll_buckets(list: &mut BucketList)
    ensures { list.new ≡ map buckets.rolled_if_open list.old }
{
    for at in 0..list.len() {
        let bucket = bucket_at(list, at);
        list.replace(at, rolled_if_open(bucket));
    }
}

/// Rolls the index at a place, and answers how many of its buckets rolled.
fn roll_at(at: usize, indexes: &mut IndexViewList) -> u64
    requires { at < length indexes.old }
    ensures indexes { (v : views.IndexView) → slice_get indexes.old at ≡ Some v →
        indexes.new ≡ slice_set indexes.old at (defs.rolled_index v) }
    ensures count { result ≡ defs.open_in (slice_get indexes.old at) }
{
    let mut view = take_out(at, indexes);
    let count = open_count(view.buckets.as_slice());
    roll_buckets(&mut view.buckets);
    indexes.replace(at, view);
    count as u64
}

/// Rolls all hot and quarantine buckets of an index to warm, and answers how many they were: none
/// where there is no such index. It takes no memory.
pub fn roll(index: &[u8], shelves: &mut IndexTable) -> u64
    ensures shelves { shelves.new ≡ defs.roll index.now shelves.old }
    ensures count { result ≡ defs.open_in (find view_name index.now shelves.old.indexes) }
{
    match place_of(index, shelves.indexes.as_slice()) {
        Some(at) => roll_at(at, &mut shelves.indexes),
        None => 0,
    }
}
