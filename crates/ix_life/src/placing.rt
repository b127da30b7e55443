//! Where an event goes in its index.

ghost use Rattle.std.specs.Prelude.{◌≡◌, ◌<◌, ℕ, length, IfSome};
ghost use Rattle.std.specs.List.{count_by};
ghost use Rattle.ix_life.specs.Placing as defs;

use crate::limits::Limits;
use crate::times::is_longer;
use crate::views::BucketList;
use ix_items::{Bucket, State};

/// Where an event goes, by the numbers of buckets in their index.
#[derive(Clone, Copy, Debug, PartialEq, Eq)]
pub struct Target {
    /// The bucket that it goes into, or `None` where a new one is to be made.
    pub into: Option<u64>,
    /// The bucket that rolls to warm before the new one is made, to make room for it.
    pub rolls: Option<u64>,
    /// Whether it goes into a quarantine bucket, as its time is too far from its arrival.
    pub quarantine: bool,
}

/// Where an event goes, by the places of buckets in the list.
#[derive(Clone, Copy, Debug, PartialEq, Eq)]
pub struct Places {
    /// The bucket that it goes into, or `None` where a new one is to be made.
    pub into: Option<usize>,
    /// The bucket that rolls to warm before the new one is made, to make room for it.
    pub rolls: Option<usize>,
    /// Whether it goes into a quarantine bucket, as its time is too far from its arrival.
    pub quarantine: bool,
}

/// A bucket with its place in the list.
type Numbered = (usize, Bucket);

/// Whether the bucket takes events.
pub fn is_open(bucket: &Bucket) -> bool
    ensures { result ≡ defs.is_open bucket.now }
{
    match bucket.state {
        State::Hot | State::Quarantine => true,
        State::Warm | State::Cold | State::Thawed => false,
    }
}

/// Whether an event of this time is out of range.
fn is_out(limits: &Limits, time: i64, arrival: i64) -> bool
    ensures { result ≡ defs.is_out limits.now time arrival }
{
    is_longer(time, arrival, limits.quarantine_past_secs)
        || is_longer(arrival, time, limits.quarantine_future_secs)
}

/// Whether the span of the bucket with an event of this time stays within the limit.
fn spans(limits: &Limits, time: i64, bucket: &Bucket) -> bool
    ensures { result ≡ defs.spans limits.now time bucket.now }
{
    !is_longer(
        bucket.oldest.min(time),
        bucket.newest.max(time),
        limits.max_hot_span_secs,
    )
}

/// Whether the bucket takes an event of this time, which is out of range or not.
fn takes(limits: &Limits, out: bool, time: i64, bucket: &Bucket) -> bool
    ensures { result ≡ defs.takes limits.now out time bucket.now }
{
    match bucket.state {
        State::Hot => !out && spans(limits, time, bucket),
        State::Quarantine => out,
        State::Warm | State::Cold | State::Thawed => false,
    }
}

/// Of two buckets the one with the lesser number, and the first one where they are equal.
fn by_id(best: Option<Numbered>, other: Numbered) -> Numbered
    ensures { Some result ≡ defs.lesser (λ (x : defs.Numbered). x.1.id) best (Some other) }
{
    match best {
        Some(first) if first.1.id <= other.1.id => first,
        _ => other,
    }
}

/// The bucket that takes an event of this time, the first one by number.
fn into(limits: &Limits, out: bool, time: i64, buckets: &[Bucket]) -> Option<Numbered>
    ensures { result ≡ defs.into limits.now out time buckets.now }
{
    let mut best = None;
    for i in 0..buckets.len() {
        let bucket = buckets[i];
        if takes(limits, out, time, &bucket) {
            best = Some(by_id(best, (i, bucket)));
        }
    }
    best
}

/// How many buckets take events.
fn open_count(buckets: &[Bucket]) -> usize
    ensures { result ≡ count_by defs.is_open buckets.now }
{
    buckets.iter().filter(|bucket| is_open(bucket)).count()
}

/// Of two buckets the one that was used earlier, and the first one where they are equal.
fn by_used(best: Option<Numbered>, other: Numbered) -> Numbered
    ensures { Some result ≡ defs.lesser (λ (x : defs.Numbered). x.1.used) best (Some other) }
{
    match best {
        Some(first) if first.1.used <= other.1.used => first,
        _ => other,
    }
}

/// The bucket that was used the longest ago, among those that take events.
fn least_used(buckets: &[Bucket]) -> Option<Numbered>
    ensures { result ≡ defs.least_used buckets.now }
{
    let mut best = None;
    for i in 0..buckets.len() {
        let bucket = buckets[i];
        if is_open(&bucket) {
            best = Some(by_used(best, (i, bucket)));
        }
    }
    best
}

/// The bucket that makes room for a new one, where one is to be made and there are too many.
fn rolls(limits: &Limits, found: Option<Numbered>, buckets: &[Bucket]) -> Option<Numbered>
    ensures { result ≡ defs.rolls limits.now found buckets.now }
{
    if found.is_none() && limits.max_hot_buckets <= open_count(buckets) as u64 {
        least_used(buckets)
    } else {
        None
    }
}

fn id_of(found: Option<Numbered>) -> Option<u64>
    ensures { result ≡ defs.id_of found }
{
    let (_, bucket) = found?;
    Some(bucket.id)
}

fn place_of(found: Option<Numbered>) -> Option<usize>
    ensures { result ≡ defs.place_of found }
{
    let (at, _) = found?;
    Some(at)
}

/// Where an event of this time and arrival goes among the buckets of its index, by their places in
/// the list. Times are microseconds since 1970-01-01T00:00:00Z. It takes no memory.
pub fn place_at(buckets: &[Bucket], limits: &Limits, time: i64, arrival: i64) -> Places
    ensures { result ≡ defs.places buckets.now limits.now time arrival }
{
    let quarantine = is_out(limits, time, arrival);
    let found = into(limits, quarantine, time, buckets);
    Places {
        into: place_of(found),
        rolls: place_of(rolls(limits, found, buckets)),
        quarantine,
    }
}

/// Where an event of this time and arrival goes among the buckets of its index. Times are
/// microseconds since 1970-01-01T00:00:00Z.
///
/// An event is out of range where its time is more than `quarantine_past_secs` before its arrival,
/// or more than `quarantine_future_secs` after it; it goes into a quarantine bucket. Any other goes
/// into the first hot bucket by number whose span with the event stays within `max_hot_span_secs`.
/// Where there is no such bucket a new one is to be made; where `max_hot_buckets` or more take
/// events already, the one that was used the longest ago rolls first. It takes no memory.
pub fn place(buckets: &BucketList, limits: &Limits, time: i64, arrival: i64) -> Target
    ensures { result ≡ defs.target buckets.now limits.now time arrival }
{
    let buckets = buckets.as_slice();
    let quarantine = is_out(limits, time, arrival);
    let found = into(limits, quarantine, time, buckets);
    Target {
        into: id_of(found),
        rolls: id_of(rolls(limits, found, buckets)),
        quarantine,
    }
}
