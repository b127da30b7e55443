//! The ranges of the numbers and times of one item. The judgement of a state asks them of each.

ghost use Rattle.std.specs.Prelude.{◌≡◌, ◌↔◌, IsTrue, All};
ghost use Rattle.ix_replay.specs.Bounds.{IsMoment, IsTime, IsFileNumber, IsBucket, IsEntry, IsWithin};

use ix_base::{Area, File, clamped};
use ix_items::{Bucket, Entry, Item};

/// Counts, ids, offsets, runs and numbers of files are below this.
const NUMBERS: u64 = 1 << 63;

/// Times of events are as far from 1970 at the most, in microseconds.
const FARTHEST: u64 = 1 << 62;

fn is_moment(moment: i64) -> bool
    ensures { IsTrue result ↔ IsMoment moment }
{
    clamped(moment) == moment
}

fn is_time(time: i64) -> bool
    ensures { IsTrue result ↔ IsTime time }
{
    time.unsigned_abs() <= FARTHEST
}

fn is_bucket(bucket: &Bucket) -> bool
    ensures { IsTrue result ↔ IsBucket bucket.now }
{
    bucket.file.area != Area::Meta
        && bucket.id < NUMBERS
        && bucket.file.number < NUMBERS
        && is_time(bucket.newest)
        && is_time(bucket.oldest)
        && bucket.used < NUMBERS
        && is_moment(bucket.touched)
}

fn is_entry(entry: &Entry) -> bool
    ensures { IsTrue result ↔ IsEntry entry.now }
{
    entry.id < NUMBERS
        && is_moment(entry.moment)
        && is_time(entry.newest)
        && is_time(entry.oldest)
        && entry.archive.unwrap_or(0) < NUMBERS
}

fn are_numbers(files: &[File]) -> bool
    ensures { IsTrue result ↔ All IsFileNumber files.now }
{
    for file in files {
        if file.number >= NUMBERS {
            return false;
        }
    }
    true
}

/// Whether each number and time of an item is in its range.
pub fn is_within(item: &Item) -> bool
    ensures { IsTrue result ↔ IsWithin item.now }
{
    match item {
        Item::Settings { .. } | Item::Channel { .. } | Item::Ended { .. } => true,
        Item::Run { run } => *run < NUMBERS,
        Item::Moments { last, tick } => is_moment(*last) && is_moment(*tick),
        Item::Bucket { bucket, .. } => is_bucket(bucket),
        Item::Gone { id, .. } => *id < NUMBERS,
        Item::Ledger { entry } => is_entry(entry),
        Item::Counts {
            settled,
            nulled,
            dropped,
            placed,
        } => *settled < NUMBERS && *nulled < NUMBERS && *dropped < NUMBERS && *placed < NUMBERS,
        Item::Spot { spot } => spot.offset < NUMBERS,
        Item::NextFile { number } => *number < NUMBERS,
        Item::Removals { files } => are_numbers(files.as_slice()),
        Item::NextId { id, .. } => *id < NUMBERS,
    }
}

/// Whether that is so of each.
pub fn are_within(items: &[Item]) -> bool
    ensures { IsTrue result ↔ All IsWithin items.now }
{
    for item in items {
        if !is_within(item) {
            return false;
        }
    }
    true
}
