//! The buckets that are seen of each index. `recall` lists them by what the items say.

ghost use Rattle.std.specs.Prelude.{◌≡◌, IfOk};
ghost use Rattle.std.specs.List.{AllZip, filter_map};
ghost use Rattle.std.specs.List.Sorted.{IsPermutation, IsSortedByKey};
ghost use Rattle.std.specs.Ordering.{nat_cmp};
ghost use Rattle.ix_recovery.specs.Recalled.{bucket_of, bucket_id, AreBucketsOf, AreShelved, IsListed};

use crate::gathering::Placed;
use crate::sorting::names_by_bytes;
use ix_base::{Bytes, NoMemory};
use ix_bounds::{Bucketed, view_indexes};
use ix_items::Bucket;
use ix_life::{BucketList, IndexViewList, LimitSet};
use std::alloc::Global;

/// The buckets of an index, as they come.
fn picked(alloc: Global, placed: &[Placed], index: &[u8]) -> Result<Vec<Bucket>, NoMemory>
    ensures { IfOk result (λ buckets. buckets.items ≡ filter_map (bucket_of index.now) placed.now) }
{
    let mut buckets = Vec::new(alloc);
    for one in placed {
        if one.index.as_slice() == index {
            buckets.push(one.bucket)?;
        }
    }
    Ok(buckets)
}

/// The buckets of an index, by their numbers.
fn buckets_of(alloc: Global, placed: &[Placed], index: &[u8]) -> Result<BucketList, NoMemory>
    ensures { IfOk result (λ buckets. AreBucketsOf placed.now index.now buckets) }
{
    let mut buckets = picked(alloc, placed, index)?;
    buckets.sort_unstable_by_key(|bucket| bucket.id);
    Ok(BucketList::from_vec(buckets))
}

fn list_one(alloc: Global, placed: &[Placed], name: &Bytes) -> Result<Bucketed, NoMemory>
    ensures { IfOk result (λ index. IsListed placed.now name.now index) }
{
    Ok(Bucketed {
        name: name.copy()?,
        buckets: buckets_of(alloc, placed, name.as_slice())?,
    })
}

/// Each index with its buckets.
fn list_all(alloc: Global, placed: &[Placed], names: &[Bytes]) -> Result<Vec<Bucketed>, NoMemory>
    ensures { IfOk result (λ indexes. AllZip (IsListed placed.now) names.now indexes.items) }
{
    let mut indexes = Vec::new(alloc);
    for name in names {
        let index = list_one(alloc, placed, name)?;
        indexes.push(index)?;
    }
    Ok(indexes)
}

/// What is seen of the indexes of these names, and of those that are configured.
pub fn indexes_of(
    alloc: Global,
    set: &LimitSet,
    names: Vec<Bytes>,
    placed: &[Placed],
) -> Result<IndexViewList, NoMemory>
    ensures { IfOk result (λ views. AreShelved names.items placed.now set.now views) }
{
    let sorted = names_by_bytes(names);
    let indexes = list_all(alloc, placed, sorted.as_slice())?;
    view_indexes(alloc, set, indexes)
}
