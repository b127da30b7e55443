//! Which buckets a step of housekeeping takes.

ghost use Rattle.std.specs.Prelude.{◌≡◌, filter, IfOk};
ghost use Rattle.ix_life.specs.Housekeeping as defs;

use crate::limits::Limits;
use crate::placing::is_open;
use crate::times::is_longer;
use ix_base::NoMemory;
use ix_items::{Bucket, State};
use std::alloc::Global;

/// The limits of an index at a moment.
#[derive(Clone, Copy)]
pub struct Policy {
    pub limits: Limits,
    /// In microseconds since 1970-01-01T00:00:00Z.
    pub moment: i64,
}

/// The buckets that a step of housekeeping takes.
#[derive(Clone, Copy)]
pub enum Pick {
    /// The hot and quarantine buckets that are idle.
    Idle,
    /// The hot and quarantine buckets that are not idle.
    StillHot,
    /// The warm buckets, and those that are idle.
    WarmOrIdle,
    /// The cold buckets.
    Cold,
    /// The buckets that are too old.
    Old,
    /// The buckets that are not too old.
    Young,
}

fn is_warm(bucket: &Bucket) -> bool
    ensures { result ≡ defs.is_warm bucket.now }
{
    match bucket.state {
        State::Warm => true,
        State::Hot | State::Quarantine | State::Cold | State::Thawed => false,
    }
}

fn is_cold(bucket: &Bucket) -> bool
    ensures { result ≡ defs.is_cold bucket.now }
{
    match bucket.state {
        State::Cold => true,
        State::Hot | State::Quarantine | State::Warm | State::Thawed => false,
    }
}

/// Whether no event came for too long, where that counts.
fn is_unused(policy: &Policy, bucket: &Bucket) -> bool
    ensures { result ≡ defs.is_unused policy.now bucket.now }
{
    let secs = policy.limits.max_hot_idle_secs;
    0 < secs && is_longer(bucket.touched, policy.moment, secs)
}

fn is_idle(policy: &Policy, bucket: &Bucket) -> bool
    ensures { result ≡ defs.is_idle policy.now bucket.now }
{
    is_open(bucket) && is_unused(policy, bucket)
}

fn stays_hot(policy: &Policy, bucket: &Bucket) -> bool
    ensures { result ≡ defs.stays_hot policy.now bucket.now }
{
    is_open(bucket) && !is_unused(policy, bucket)
}

/// Whether its newest event is too old.
fn is_old(policy: &Policy, bucket: &Bucket) -> bool
    ensures { result ≡ defs.is_old policy.now bucket.now }
{
    is_longer(bucket.newest, policy.moment, policy.limits.frozen_secs)
}

/// Whether a bucket is one of these.
fn is_picked(policy: &Policy, pick: Pick, bucket: &Bucket) -> bool
    ensures { result ≡ defs.is_picked policy.now pick bucket.now }
{
    match pick {
        Pick::Idle => is_idle(policy, bucket),
        Pick::StillHot => stays_hot(policy, bucket),
        Pick::WarmOrIdle => is_warm(bucket) || is_idle(policy, bucket),
        Pick::Cold => is_cold(bucket),
        Pick::Old => is_old(policy, bucket),
        Pick::Young => !is_old(policy, bucket),
    }
}

/// Those of the buckets that a step takes.
pub fn picked(
    alloc: Global,
    policy: &Policy,
    pick: Pick,
    buckets: &[Bucket],
) -> Result<Vec<Bucket>, NoMemory>
    ensures { IfOk result (λ list. list.items ≡ filter (defs.is_picked policy.now pick) buckets.now) }
{
    let list = buckets
        .iter()
        .copied()
        .filter(|bucket| is_picked(policy, pick, bucket))
        .collect(alloc)?;
    Ok(list)
}
