//! The five steps of housekeeping.

ghost use Rattle.std.specs.Prelude.{◌≡◌, ◌++◌, ◌<◌, ◌^◌, filter, IfOk, OnOk};
ghost use Rattle.ix_life.specs.Order.{ordered};
ghost use Rattle.ix_life.specs.Housekeeping as defs;

use crate::caps::{Cap, shortest, sizes};
use crate::limits::Limits;
use crate::moves::{FreezeList, IdList, Moves};
use crate::order::ordered;
use crate::picks::{Pick, Policy, picked};
use crate::views::BucketList;
use ix_base::NoMemory;
use ix_items::{Bucket, Rule};
use std::alloc::Global;

const MEGABYTE: u128 = 1_048_576;

/// 0 megabytes are no limit.
fn limit(mb: u64) -> Option<u128>
    ensures { result ≡ defs.limit mb }
{
    if mb == 0 {
        None
    } else {
        Some(u128::from(mb) * MEGABYTE)
    }
}

fn home_cap(limits: &Limits, hot: u128) -> Cap
    ensures { result ≡ defs.home_cap limits.now hot }
{
    Cap {
        most: Some(limits.max_warm_count),
        beside: hot,
        within: limit(limits.home_max_mb),
    }
}

fn cold_cap(limits: &Limits) -> Cap
    ensures { result ≡ defs.cold_cap limits.now }
{
    Cap {
        most: None,
        beside: 0,
        within: limit(limits.cold_max_mb),
    }
}

fn total_cap(limits: &Limits, hot: u128) -> Cap
    ensures { result ≡ defs.total_cap limits.now hot }
{
    Cap {
        most: None,
        beside: hot,
        within: Some(u128::from(limits.max_total_mb) * MEGABYTE),
    }
}

/// Two lists, one behind the other.
fn joined(alloc: Global, front: &[Bucket], back: &[Bucket]) -> Result<Vec<Bucket>, NoMemory>
    ensures { IfOk result (λ list. list.items ≡ front.now ++ back.now) }
{
    let mut list = Vec::new(alloc);
    list.extend_from_slice(front)?;
    list.extend_from_slice(back)?;
    Ok(list)
}

/// The numbers of the buckets.
fn ids(alloc: Global, buckets: &[Bucket]) -> Result<IdList, NoMemory>
    ensures { IfOk result (λ list. list ≡ defs.ids buckets.now) }
{
    let list = buckets.iter().map(|bucket| bucket.id).collect(alloc)?;
    Ok(IdList::from_vec(list))
}

/// Adds the buckets, as frozen by the rule.
fn freeze(buckets: &[Bucket], rule: Rule, list: &mut Vec<(u64, Rule)>) -> Result<(), NoMemory>
    ensures { OnOk result (list.new.items ≡ list.old.items ++ defs.by_rule rule buckets.now) }
{
    for bucket in buckets {
        list.push((bucket.id, rule))?;
    }
    Ok(())
}

/// Step 3: what is too old freezes.
fn freeze_by_age(
    alloc: Global,
    policy: &Policy,
    cold: &[Bucket],
    warm: &[Bucket],
    list: &mut Vec<(u64, Rule)>,
) -> Result<(), NoMemory>
    ensures { OnOk result (list.new.items ≡ list.old.items ++ defs.frozen_by_age policy.now cold.now warm.now) }
{
    let all = joined(alloc, cold, warm)?;
    let old = ordered(picked(alloc, policy, Pick::Old, &all)?)?;
    freeze(&old, Rule::Age, list)
}

/// Steps 4 and 5: by the bytes of the cold buckets, and by those of all.
fn freeze_by_size(
    alloc: Global,
    policy: &Policy,
    hot: u128,
    cold: &[Bucket],
    warm: &[Bucket],
    list: &mut Vec<(u64, Rule)>,
) -> Result<(), NoMemory>
    requires { hot < 2 ^ 127 }
    ensures { OnOk result (list.new.items ≡ list.old.items ++ defs.frozen_by_size policy.now hot cold.now warm.now) }
{
    let count = shortest(cold, &cold_cap(&policy.limits));
    freeze(&cold[..count], Rule::Cold, list)?;
    let left = joined(alloc, &cold[count..], warm)?;
    let total = shortest(&left, &total_cap(&policy.limits, hot));
    freeze(&left[..total], Rule::Total, list)
}

/// Steps 4 and 5 on those that are not too old.
fn freeze_young(
    alloc: Global,
    policy: &Policy,
    hot: u128,
    cold: &[Bucket],
    warm: &[Bucket],
    list: &mut Vec<(u64, Rule)>,
) -> Result<(), NoMemory>
    requires { hot < 2 ^ 127 }
    ensures { OnOk result (list.new.items ≡ list.old.items
        ++ defs.frozen_by_size policy.now hot (filter (defs.is_young policy.now) cold.now) (filter (defs.is_young policy.now) warm.now)) }
{
    let cold = picked(alloc, policy, Pick::Young, cold)?;
    let warm = picked(alloc, policy, Pick::Young, warm)?;
    freeze_by_size(alloc, policy, hot, &cold, &warm, list)
}

/// Steps 3 to 5.
fn frozen(
    alloc: Global,
    policy: &Policy,
    hot: u128,
    cold: &[Bucket],
    warm: &[Bucket],
) -> Result<FreezeList, NoMemory>
    requires { hot < 2 ^ 127 }
    ensures { IfOk result (λ list. list ≡ defs.frozen policy.now hot cold.now warm.now) }
{
    let mut list = Vec::new(alloc);
    freeze_by_age(alloc, policy, cold, warm, &mut list)?;
    freeze_young(alloc, policy, hot, cold, warm, &mut list)?;
    Ok(FreezeList::from_vec(list))
}

/// The bytes of the hot and quarantine buckets after step 1.
fn hot_bytes(alloc: Global, policy: &Policy, buckets: &[Bucket]) -> Result<u128, NoMemory>
    ensures value { IfOk result (λ n. n ≡ defs.hot_bytes policy.now buckets.now) }
    ensures short { IfOk result (λ n. n < 2 ^ 127) }
{
    let hot = picked(alloc, policy, Pick::StillHot, buckets)?;
    Ok(sizes(&hot))
}

/// The numbers of the buckets that step 1 rolls to warm.
fn warmed(alloc: Global, policy: &Policy, buckets: &[Bucket]) -> Result<IdList, NoMemory>
    ensures { IfOk result (λ list. list ≡ defs.ids (defs.idle policy.now buckets.now)) }
{
    let idle = ordered(picked(alloc, policy, Pick::Idle, buckets)?)?;
    ids(alloc, &idle)
}

/// The cold buckets after step 2, which cools these.
fn cold_then(
    alloc: Global,
    policy: &Policy,
    buckets: &[Bucket],
    cooled: &[Bucket],
) -> Result<Vec<Bucket>, NoMemory>
    ensures { IfOk result (λ list. list.items ≡ ordered (filter defs.is_cold buckets.now ++ cooled.now)) }
{
    let cold = picked(alloc, policy, Pick::Cold, buckets)?;
    ordered(joined(alloc, &cold, cooled)?)
}

/// What steps 3 to 5 freeze, where step 2 cools these buckets and leaves those warm.
fn frozen_then(
    alloc: Global,
    policy: &Policy,
    hot: u128,
    buckets: &[Bucket],
    cooled: &[Bucket],
    left: &[Bucket],
) -> Result<FreezeList, NoMemory>
    requires { hot < 2 ^ 127 }
    ensures { IfOk result (λ list. list
        ≡ defs.frozen policy.now hot (ordered (filter defs.is_cold buckets.now ++ cooled.now)) left.now) }
{
    let cold = cold_then(alloc, policy, buckets, cooled)?;
    frozen(alloc, policy, hot, &cold, left)
}

/// The five steps, where the hot and quarantine buckets that step 1 leaves have so many bytes, and
/// these are the warm ones.
fn moves_with(
    alloc: Global,
    policy: &Policy,
    buckets: &[Bucket],
    hot: u128,
    warm: &[Bucket],
) -> Result<Moves, NoMemory>
    requires { hot < 2 ^ 127 }
    ensures { IfOk result (λ moves. moves ≡ defs.moves_with policy.now buckets.now hot warm.now) }
{
    let count = shortest(warm, &home_cap(&policy.limits, hot));
    let cooled = &warm[..count];
    let left = &warm[count..];
    Ok(Moves {
        warmed: warmed(alloc, policy, buckets)?,
        cooled: ids(alloc, cooled)?,
        frozen: frozen_then(alloc, policy, hot, buckets, cooled, left)?,
    })
}

/// The five steps on the buckets of one index.
fn moves(alloc: Global, policy: &Policy, buckets: &[Bucket]) -> Result<Moves, NoMemory>
    ensures { IfOk result (λ moves. moves ≡ defs.moves policy.now buckets.now) }
{
    let hot = hot_bytes(alloc, policy, buckets)?;
    let warm = ordered(picked(alloc, policy, Pick::WarmOrIdle, buckets)?)?;
    moves_with(alloc, policy, buckets, hot, &warm)
}

/// What housekeeping does at a moment, in microseconds since 1970-01-01T00:00:00Z, to the buckets
/// of one index. Buckets are taken by the newest time and then by the number.
///
/// 1. With `max_hot_idle_secs` above 0, hot and quarantine buckets whose last event came more than
///    so many seconds before roll to warm.
/// 2. Warm buckets move to cold, the fewest after which at most `max_warm_count` are warm and, with
///    `home_max_mb` above 0, the bytes of hot, quarantine and warm buckets are within it.
/// 3. Warm and cold buckets whose newest event is more than `frozen_secs` old freeze, by the rule
///    age.
/// 4. With `cold_max_mb` above 0, cold buckets freeze, the fewest after which their bytes are
///    within it, by the rule cold.
/// 5. Cold buckets and then warm ones freeze, the fewest after which all bytes are within
///    `max_total_mb`, by the rule total.
///
/// Where a limit of size cannot be met, all buckets of its list go. Hot and quarantine buckets
/// never freeze, and thawed ones are under no rule.
pub fn housekeep(
    alloc: Global,
    buckets: &BucketList,
    limits: &Limits,
    moment: i64,
) -> Result<Moves, NoMemory>
    ensures { IfOk result (λ moves. moves ≡ defs.house buckets.now limits.now moment) }
{
    let policy = Policy {
        limits: *limits,
        moment,
    };
    moves(alloc, &policy, buckets.as_slice())
}
