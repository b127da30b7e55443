//! The order in which buckets are retired.

ghost use Rattle.std.specs.Prelude.{◌≡◌, IfOk};
ghost use Rattle.std.specs.List.Sorted.{IsPermutation, IsSortedByKey};
ghost use Rattle.ix_life.specs.Order as defs;

use ix_base::NoMemory;
use ix_items::Bucket;

/// The buckets in order: by the newest time, and then by the number.
pub fn ordered(mut buckets: Vec<Bucket>) -> Result<Vec<Bucket>, NoMemory>
    ensures value { IfOk result (λ list. list.items ≡ defs.ordered buckets.items) }
    ensures same { IfOk result (λ list. IsPermutation buckets.items list.items) }
    ensures rising { IfOk result (λ list. IsSortedByKey defs.key defs.key_cmp list.items) }
{
    buckets.sort_by_key(|bucket| (bucket.newest, bucket.id))?;
    Ok(buckets)
}
