//! What dealing does to the buckets of an index: one takes an event, one rolls, one is made.

ghost use Rattle.std.specs.Prelude.{◌≡◌, ◌<◌, ◌+◌, ◌^◌, length, IfOk, IfSome, OnOk, IsErrOf};
ghost use Rattle.std.specs.List.{AllByRecursion};
ghost use Rattle.ix_items.specs.declared.items.Bucket.{Bucket};
ghost use Rattle.ix_catalog.specs.Buckets.{rolled, closed};
ghost use Rattle.ix_catalog.specs.Dealing.{roll_id};
ghost use Rattle.ix_catalog.specs.Filling.{at_id, with_growth, grown, begun};
ghost use Rattle.ix_catalog.specs.Lists.{update};
ghost use Rattle.ix_catalog.specs.Numbers.{KeepsBucket};
ghost use Rattle.ix_catalog.specs.Shelves as defs;

use crate::housekeeping::rolled;
use crate::placer::DealFault;
use ix_base::{Area, File};
use ix_items::{Bucket, State};
use ix_life::{BucketList, Limits};

/// What all numbers of a store stay below.
pub const LIMIT: u64 = 1 << 63;

/// What an event adds to the bucket that takes it.
#[derive(Clone, Copy)]
pub struct Growth {
    /// The bytes of its record.
    pub size: u64,
    /// Its time, in microseconds since 1970-01-01T00:00:00Z, as the moment.
    pub time: i64,
    /// How many events the store has placed with it.
    pub used: u64,
    /// The moment of the command that places it.
    pub moment: i64,
}

/// The bucket of this number.
pub fn by_id(buckets: &[Bucket], id: u64) -> Option<Bucket>
    ensures { result ≡ defs.by_id id buckets.now }
{
    for bucket in buckets {
        if bucket.id == id {
            return Some(*bucket);
        }
    }
    None
}

/// The bucket, rolled to warm where it has the size of the limit.
fn close(limits: &Limits, bucket: Bucket) -> Bucket
    ensures value { result ≡ closed limits.now bucket }
    ensures bytes { result.bytes ≡ bucket.bytes }
    ensures count { result.count ≡ bucket.count }
{
    if u128::from(limits.max_data_mb) * 1_048_576 <= u128::from(bucket.bytes) {
        rolled(bucket)
    } else {
        bucket
    }
}

/// A new bucket with one event.
pub fn begin(limits: &Limits, id: u64, quarantine: bool, file: u64, growth: &Growth) -> Bucket
    ensures value { result ≡ begun limits.now id quarantine file growth.now }
    ensures bytes { result.bytes ≡ growth.now.size }
    ensures count { result.count ≡ 1 }
{
    let state = if quarantine {
        State::Quarantine
    } else {
        State::Hot
    };
    let bucket = Bucket {
        id,
        state,
        file: File {
            area: Area::Home,
            number: file,
        },
        bytes: growth.size,
        count: 1,
        newest: growth.time,
        oldest: growth.time,
        used: growth.used,
        touched: growth.moment,
    };
    close(limits, bucket)
}

/// The bucket with one more event.
fn add(growth: &Growth, bucket: Bucket) -> Bucket
    requires bytes { bucket.bytes + growth.now.size < 2 ^ 64 }
    requires count { bucket.count + 1 < 2 ^ 64 }
    ensures { result ≡ with_growth growth.now bucket }
{
    Bucket {
        bytes: bucket.bytes + growth.size,
        count: bucket.count + 1,
        newest: bucket.newest.max(growth.time),
        oldest: bucket.oldest.min(growth.time),
        used: growth.used,
        touched: growth.moment,
        ..bucket
    }
}

/// The bucket with one more event; `Full` where its bytes or events would come to 2^63.
fn grow(limits: &Limits, growth: &Growth, bucket: Bucket) -> Result<Bucket, DealFault>
    requires numbers { KeepsBucket bucket }
    requires small { growth.now.size < 2 ^ 32 }
    ensures done { IfOk result (λ more. more ≡ grown limits.now growth.now bucket) }
    ensures kept { IfOk result KeepsBucket }
    ensures full { IsErrOf result DealFault.Full → KeepsBucket (grown limits.now growth.now bucket) → ⊥ }
{
    let more = add(growth, bucket);
    if more.bytes >= LIMIT || more.count >= LIMIT {
        return Err(DealFault::Full);
    }
    Ok(close(limits, more))
}

/// Puts an event into the bucket at a place, where that has this number.
fn grow_at(
    buckets: &mut BucketList,
    at: usize,
    id: u64,
    limits: &Limits,
    growth: &Growth,
) -> Result<(), DealFault>
    requires within { at < length buckets.old }
    requires numbers { AllByRecursion KeepsBucket buckets.old }
    requires small { growth.now.size < 2 ^ 32 }
    ensures done { OnOk result (buckets.new ≡ update at (at_id id (grown limits.now growth.now)) buckets.old) }
    ensures kept { OnOk result (AllByRecursion KeepsBucket buckets.new) }
    ensures full { IsErrOf result DealFault.Full → AllByRecursion KeepsBucket
        (update at (at_id id (grown limits.now growth.now)) buckets.old) → ⊥ }
{
    let bucket = buckets.as_slice()[at];
    if bucket.id != id {
        return Ok(());
    }
    let more = grow(limits, growth, bucket)?;
    buckets.replace(at, more);
    Ok(())
}

/// Puts an event into the bucket of this number.
pub fn grow_id(
    buckets: &mut BucketList,
    id: u64,
    limits: &Limits,
    growth: &Growth,
) -> Result<(), DealFault>
    requires numbers { AllByRecursion KeepsBucket buckets.old }
    requires small { growth.now.size < 2 ^ 32 }
    ensures done { OnOk result (buckets.new ≡ defs.change_id id (grown limits.now growth.now) buckets.old) }
    ensures kept { OnOk result (AllByRecursion KeepsBucket buckets.new) }
    ensures full { IsErrOf result DealFault.Full → AllByRecursion KeepsBucket
        (defs.change_id id (grown limits.now growth.now) buckets.old) → ⊥ }
{
    for i in 0..buckets.len() {
        grow_at(buckets, i, id, limits, growth)?;
    }
    Ok(())
}

/// Rolls the bucket at a place to warm, where that has this number.
fn roll_at(buckets: &mut BucketList, at: usize, id: u64)
    requires { at < length buckets.old }
    ensures { buckets.new ≡ update at (at_id id rolled) buckets.old }
{
    let bucket = buckets.as_slice()[at];
    if bucket.id != id {
        return;
    }
    buckets.replace(at, rolled(bucket));
}

/// Rolls the bucket of this number to warm, where one is named.
pub fn roll_some(buckets: &mut BucketList, id: Option<u64>)
    ensures value { buckets.new ≡ roll_id id buckets.old }
    ensures kept { AllByRecursion KeepsBucket buckets.old → AllByRecursion KeepsBucket buckets.new }
{
    if let Some(id) = id {
        roll(buckets, id);
    }
}

/// Rolls the bucket of this number to warm.
fn roll(buckets: &mut BucketList, id: u64)
    ensures { buckets.new ≡ defs.change_id id rolled buckets.old }
{
    for i in 0..buckets.len() {
        roll_at(buckets, i, id);
    }
}
