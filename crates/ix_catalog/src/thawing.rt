//! Thaws. The store calls `thaw` and `thaw_copy` for the command Thaw.

ghost use Rattle.std.specs.Prelude.{◌≡◌, ◌<◌, ◌≤◌, ◌^◌, ◌++◌, ◌∷◌, length, take, drop, slice_get, slice_set, Some, IfOk, OnOk, OnErr};
ghost use Rattle.ix_items.specs.declared.items.Bucket as items;
ghost use Rattle.ix_life.specs.declared.views.IndexView as views;
ghost use Rattle.ix_catalog.specs.Buckets as buckets;
ghost use Rattle.ix_catalog.specs.Lists.{change};
ghost use Rattle.ix_catalog.specs.Shelves.{view_name, with_buckets};
ghost use Rattle.ix_catalog.specs.Turning as defs;

use crate::index_table::IndexTable;
use crate::viewing::{place_of, take_out};
use ix_base::{Area, File, NoMemory, Sequence};
use ix_commit::{CopyTarget, FileCopy};
use ix_items::{Bucket, Entry, State};
use ix_life::{BucketList, IndexViewList};

/// The bucket of an entry, brought back into this file.
fn thawed(entry: &Entry, file: u64) -> Bucket
    ensures { result ≡ buckets.thawed entry.now file }
{
    Bucket {
        id: entry.id,
        state: State::Thawed,
        file: File {
            area: Area::Thawed,
            number: file,
        },
        bytes: entry.bytes,
        count: entry.count,
        newest: entry.newest,
        oldest: entry.oldest,
        used: 0,
        touched: 0,
    }
}

/// The place of a bucket of this number among buckets in the order of theirs.
fn place_for(id: u64, list: &[Bucket]) -> usize
    ensures within { result ≤ length list.now }
    ensures inserted { (b : items.Bucket) → b.id ≡ id → defs.insert_id b list.now ≡ take result list.now ++ b ∷ drop result list.now }
{
    for at in 0..list.len() {
        if list[at].id >= id {
            return at;
        }
    }
    list.len()
}

/// The buckets with one more, in the order of their numbers.
fn inserted(bucket: Bucket, buckets: &BucketList) -> Result<BucketList, NoMemory>
    ensures { IfOk result (λ list. list ≡ defs.insert_id bucket buckets.now) }
{
    let others = buckets.as_slice();
    let at = place_for(bucket.id, others);
    let mut list = buckets.empty().into_vec();
    list.extend_from_slice(&others[..at])?;
    list.push(bucket)?;
    list.extend_from_slice(&others[at..])?;
    Ok(Sequence::from_vec(list))
}

/// Adds a bucket to the index at a place.
fn insert_at(at: usize, bucket: Bucket, indexes: &mut IndexViewList) -> Result<(), NoMemory>
    requires { at < length indexes.old }
    ensures ok { OnOk result ((v : views.IndexView) → slice_get indexes.old at ≡ Some v
        → indexes.new ≡ slice_set indexes.old at (with_buckets (defs.insert_id bucket v.buckets) v)) }
    ensures err { OnErr result (indexes.new ≡ indexes.old) }
{
    let list = inserted(bucket, &indexes.as_slice()[at].buckets)?;
    let mut view = take_out(at, indexes);
    view.buckets = list;
    indexes.replace(at, view);
    Ok(())
}

/// The bucket of an entry is brought back into its index, with this file.
fn thaw_into(entry: &Entry, file: u64, indexes: &mut IndexViewList) -> Result<(), NoMemory>
    ensures ok { OnOk result (indexes.new ≡ change view_name entry.now.index (defs.thaw_index entry.now file) indexes.old) }
    ensures err { OnErr result (indexes.new ≡ indexes.old) }
{
    match place_of(entry.index.as_slice(), indexes.as_slice()) {
        Some(at) => {
            insert_at(at, thawed(entry, file), indexes)?;
            Ok(())
        }
        None => Ok(()),
    }
}

/// The bucket of an entry is brought back: it stands in its index again under its number, with the
/// next file as its own, whose number is taken. Where there is no such index only the number is
/// taken. Where memory is short nothing changes.
pub fn thaw(entry: &Entry, shelves: &mut IndexTable) -> Result<(), NoMemory>
    requires { shelves.old.next_file < 2 ^ 63 }
    ensures ok { OnOk result (shelves.new ≡ defs.thaw entry.now shelves.old) }
    ensures err { OnErr result (shelves.new ≡ shelves.old) }
{
    thaw_into(entry, shelves.next_file, &mut shelves.indexes)?;
    shelves.next_file += 1;
    Ok(())
}

/// What is to be copied for a thaw: the bytes of the archive of this number, into the new file of
/// that number.
pub fn thaw_copy(entry: &Entry, archive: u64, file: u64) -> FileCopy
    ensures { result ≡ defs.thaw_copy entry.now archive file }
{
    FileCopy {
        from: File {
            area: Area::Frozen,
            number: archive,
        },
        place: CopyTarget::Thawed,
        number: file,
        len: entry.bytes,
    }
}
