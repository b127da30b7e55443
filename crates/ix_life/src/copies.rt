//! Copies of indexes as they stand, with their buckets. Whoever works a command out does it on such
//! copies. Each fails for want of memory alone.

ghost use Rattle.std.specs.Prelude.{◌≡◌, IfOk};

use crate::views::{BucketList, IndexView, IndexViewList};
use ix_base::{NoMemory, Sequence};
use ix_items::Bucket;
use std::alloc::Global;

/// Copies of buckets, in their order.
pub fn copy_buckets(alloc: Global, buckets: &[Bucket]) -> Result<BucketList, NoMemory>
    ensures { IfOk result (λ copy. copy ≡ buckets.now) }
{
    Ok(Sequence::from_vec(buckets.to_vec(alloc)?))
}

fn copy_index(alloc: Global, view: &IndexView) -> Result<IndexView, NoMemory>
    ensures { IfOk result (λ copy. copy ≡ view.now) }
{
    Ok(IndexView {
        name: view.name.copy()?,
        limits: view.limits,
        buckets: copy_buckets(alloc, view.buckets.as_slice())?,
    })
}

/// Copies of indexes, in their order.
pub fn copy_indexes(alloc: Global, indexes: &[IndexView]) -> Result<IndexViewList, NoMemory>
    ensures { IfOk result (λ copies. copies ≡ indexes.now) }
{
    let mut copies = Sequence::new(alloc);
    for view in indexes {
        copies.push(copy_index(alloc, view)?)?;
    }
    Ok(copies)
}
