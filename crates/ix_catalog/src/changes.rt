//! What changed from shelves to shelves, as items. The store calls `put_changes` for what a command
//! leaves, and writes them into its log.

ghost use Rattle.std.specs.Prelude.{◌≡◌, ◌↔◌, ◌≢◌, ◌<◌, ◌+◌, ◌≤◌, ◌++◌, ◌∷◌, [], IsTrue, OnOk, IfOk, length, drop, map, Some, All};
ghost use Rattle.std.specs.List.{AllByRecursion, flat_map};
ghost use Rattle.ix_coding.specs.Spelling.{IsShort};
ghost use Rattle.ix_items.specs.Spelling.{HasSpelling, IsWritable};
ghost use Rattle.ix_items.specs.declared.items.Item.{Item};
ghost use Rattle.ix_items.specs.declared.items.Entry.{Entry};
ghost use Rattle.ix_life.specs.declared.views.IndexView.{IndexView};
ghost use Rattle.ix_catalog.specs.Changes as defs;
ghost use Rattle.ix_catalog.specs.Changes.{comes_first, HasPut, NamesDiffer, AscendingDiffer, ChangedLeads, ChangesLead, ShelvesLead};
ghost use Rattle.ix_catalog.specs.Shelves.{buckets_in};

use crate::index_table::IndexTable;
use crate::measures::next_number;
use ix_base::{Bytes, NoMemory, Sequence};
use ix_items::{Bucket, Entry, Item};
use ix_life::IndexView;

/// Whether a bucket has not changed.
fn is_same(old: &Bucket, new: &Bucket) -> bool
    ensures { IsTrue result ↔ (old.now ≡ new.now) }
{
    *old == *new
}

/// Whether no bucket of a list has changed.
fn are_same(old: &[Bucket], new: &[Bucket]) -> bool
    ensures { IsTrue result ↔ (old.now ≡ new.now) }
{
    old == new
}

/// The item of a bucket that stands.
fn standing(index: &Bytes, bucket: Bucket) -> Result<Item, NoMemory>
    requires { IsShort index.now }
    ensures value { IfOk result (λ item. item ≡ Item.Bucket index.now bucket) }
    ensures proper { IfOk result HasSpelling }
{
    Ok(Item::Bucket {
        index: index.copy()?,
        bucket,
    })
}

/// The item of a bucket that is gone.
fn gone(index: &Bytes, id: u64) -> Result<Item, NoMemory>
    requires { IsShort index.now }
    ensures value { IfOk result (λ item. item ≡ Item.Gone index.now id) }
    ensures proper { IfOk result HasSpelling }
{
    Ok(Item::Gone {
        index: index.copy()?,
        id,
    })
}

/// Puts the item of a bucket that stands.
fn put_standing(index: &Bytes, bucket: Bucket, items: &mut Sequence<Item>) -> Result<(), NoMemory>
    requires { IsShort index.now }
    ensures put { OnOk result (items.new ≡ items.old ++ Item.Bucket index.now bucket ∷ []) }
    ensures proper { OnOk result (HasSpelling (Item.Bucket index.now bucket)) }
{
    items.push(standing(index, bucket)?)
}

/// Puts the item of a bucket that is gone.
fn put_gone(index: &Bytes, id: u64, items: &mut Sequence<Item>) -> Result<(), NoMemory>
    requires { IsShort index.now }
    ensures put { OnOk result (items.new ≡ items.old ++ Item.Gone index.now id ∷ []) }
    ensures proper { OnOk result (HasSpelling (Item.Gone index.now id)) }
{
    items.push(gone(index, id)?)
}

/// The item of an entry of the ledger.
fn ledger_item(entry: Entry) -> Item
    requires { IsWritable (Item.Ledger entry) }
    ensures value { result ≡ Item.Ledger entry }
    ensures proper { HasSpelling result }
{
    Item::Ledger { entry }
}

/// The item of the number of an index's next bucket.
fn next_id(index: &Bytes, id: u64) -> Result<Item, NoMemory>
    requires { IsShort index.now }
    ensures value { IfOk result (λ item. item ≡ Item.NextId index.now id) }
    ensures proper { IfOk result HasSpelling }
{
    Ok(Item::NextId {
        index: index.copy()?,
        id,
    })
}

/// Whether the first bucket of a list has a lower number than that of the other, or there is no
/// other.
fn comes_first(buckets: &[Bucket], others: &[Bucket]) -> bool
    ensures { result ≡ comes_first buckets.now others.now }
{
    match (buckets.first(), others.first()) {
        (Some(bucket), Some(other)) => bucket.id < other.id,
        (Some(_), None) => true,
        (None, _) => false,
    }
}

/// Puts what became of the bucket of the lowest number, and answers how many buckets of each list
/// this takes.
fn put_next(
    index: &Bytes,
    old: &[Bucket],
    new: &[Bucket],
    items: &mut Sequence<Item>,
) -> Result<(usize, usize), NoMemory>
    requires short { IsShort index.now }
    requires some { 0 < length old.now + length new.now }
    ensures put { IfOk result (λ taken. HasPut index.now old.now new.now (drop taken.0 old.now) (drop taken.1 new.now) items.old items.new) }
    ensures old_taken { IfOk result (λ taken. taken.0 ≤ length old.now) }
    ensures new_taken { IfOk result (λ taken. taken.1 ≤ length new.now) }
    ensures some_taken { IfOk result (λ taken. 0 < taken.0 + taken.1) }
{
    if comes_first(old, new) {
        put_gone(index, old[0].id, items)?;
        return Ok((1, 0));
    }
    if comes_first(new, old) {
        put_standing(index, new[0], items)?;
        return Ok((0, 1));
    }
    if !is_same(&old[0], &new[0]) {
        put_standing(index, new[0], items)?;
    }
    Ok((1, 1))
}

/// Puts what became of the buckets of an index.
fn put_changed(
    index: &Bytes,
    old: &[Bucket],
    new: &[Bucket],
    items: &mut Sequence<Item>,
) -> Result<(), NoMemory>
    requires { IsShort index.now }
    ensures put { OnOk result (items.new ≡ items.old ++ defs.changed index.now old.now new.now) }
    ensures proper { OnOk result (AllByRecursion HasSpelling (defs.changed index.now old.now new.now)) }
{
    let mut olds = old;
    let mut news = new;
    while !olds.is_empty() || !news.is_empty() {
        let (gone, made) = put_next(index, olds, news, items)?;
        olds = &olds[gone..];
        news = &news[made..];
    }
    Ok(())
}

/// The buckets of an index, none where there is no such index.
fn buckets_in<'a>(index: &Bytes, indexes: &'a [IndexView]) -> &'a [Bucket]
    ensures { result.now ≡ buckets_in index.now indexes.now }
{
    for view in indexes {
        if view.name.as_slice() == index.as_slice() {
            return view.buckets.as_slice();
        }
    }
    &[]
}

/// The buckets of an index, none where there is no such index, and the place behind it. It is
/// looked for at a place first, which is its own where both lists of indexes have the same ones.
fn buckets_near<'a>(index: &Bytes, indexes: &'a [IndexView], place: usize) -> (&'a [Bucket], usize)
    requires { NamesDiffer indexes.now }
    ensures { result.0.now ≡ buckets_in index.now indexes.now }
{
    if place < indexes.len() {
        let view = &indexes[place];
        if view.name.as_slice() == index.as_slice() {
            return (view.buckets.as_slice(), place + 1);
        }
    }
    (buckets_in(index, indexes), place)
}

/// Puts what changed in an index that had these buckets before, with the number of its next bucket.
fn put_index(
    ledger: &[Entry],
    before: &[Bucket],
    view: &IndexView,
    items: &mut Sequence<Item>,
) -> Result<(), NoMemory>
    requires { IsShort view.now.name }
    ensures put { OnOk result (items.new ≡ items.old ++ defs.bucket_changes ledger.now before.now view.now) }
    ensures proper { OnOk result (AllByRecursion HasSpelling (defs.bucket_changes ledger.now before.now view.now)) }
{
    let after = view.buckets.as_slice();
    if are_same(before, after) {
        return Ok(());
    }
    let number = next_number(&view.name, after, ledger);
    items.push(next_id(&view.name, number)?)?;
    put_changed(&view.name, before, after, items)?;
    Ok(())
}

/// Puts what changed in all indexes.
fn put_indexes(
    ledger: &[Entry],
    old: &[IndexView],
    new: &[IndexView],
    items: &mut Sequence<Item>,
) -> Result<(), NoMemory>
    requires differ { NamesDiffer old.now }
    requires names { All (λ (v : IndexView). IsShort v.name) new.now }
    ensures put { OnOk result (items.new ≡ items.old ++ flat_map (defs.index_changes ledger.now old.now) new.now) }
    ensures proper { OnOk result (AllByRecursion HasSpelling (flat_map (defs.index_changes ledger.now old.now) new.now)) }
{
    let mut place = 0;
    for view in new {
        let (before, next) = buckets_near(&view.name, old, place);
        put_index(ledger, before, view, items)?;
        place = next;
    }
    Ok(())
}

/// Puts entries of the ledger.
fn put_entries(more: &[Entry], items: &mut Sequence<Item>) -> Result<(), NoMemory>
    requires { All (λ (e : Entry). IsWritable (Item.Ledger e)) more.now }
    ensures put { OnOk result (items.new ≡ items.old ++ map Item.Ledger more.now) }
    ensures proper { OnOk result (AllByRecursion HasSpelling (map Item.Ledger more.now)) }
{
    for entry in more {
        items.push(ledger_item(entry.copy()?))?;
    }
    Ok(())
}

/// The item of the counts of events.
fn counts(settled: u64, nulled: u64, dropped: u64, placed: u64) -> Item
    ensures value { result ≡ Item.Counts settled nulled dropped placed }
    ensures proper { HasSpelling result }
{
    Item::Counts {
        settled,
        nulled,
        dropped,
        placed,
    }
}

/// The item of the number of the next file.
fn next_file(number: u64) -> Item
    ensures value { result ≡ Item.NextFile number }
    ensures proper { HasSpelling result }
{
    Item::NextFile { number }
}

/// Puts the counts of events and the number of the next file.
fn put_numbers(shelves: &IndexTable, items: &mut Sequence<Item>) -> Result<(), NoMemory>
    ensures put { OnOk result (items.new ≡ items.old ++ defs.numbers shelves.now) }
    ensures proper { OnOk result (AllByRecursion HasSpelling (defs.numbers shelves.now)) }
{
    items.push(counts(
        shelves.settled,
        shelves.nulled,
        shelves.dropped,
        shelves.placed,
    ))?;
    items.push(next_file(shelves.next_file))?;
    Ok(())
}

/// Puts what changed from the old shelves to the new ones behind the items: for each index the
/// buckets that are new, changed or gone, and before them the number of its next bucket; the
/// entries that the ledger has more; the counts of events; and the number of the next file. The
/// ledger is that of the new shelves, and `more` are its new entries. The buckets of both shelves
/// stand by their numbers, and no two of the old indexes have one name. Where there is no room, a
/// part of them may stand there. It goes over the buckets once or twice, and over the ledger once
/// for each index in which a bucket has changed.
pub fn put_changes(
    ledger: &[Entry],
    more: &[Entry],
    old: &IndexTable,
    new: &IndexTable,
    items: &mut Sequence<Item>,
) -> Result<(), NoMemory>
    requires differ { NamesDiffer old.now.indexes }
    requires names { All (λ (v : IndexView). IsShort v.name) new.now.indexes }
    requires entries { All (λ (e : Entry). IsWritable (Item.Ledger e)) more.now }
    // All of them stand behind what stood there.
    ensures put { OnOk result (items.new ≡ items.old ++ defs.changes ledger.now more.now old.now new.now) }
    // Each can be written.
    ensures proper { OnOk result (AllByRecursion HasSpelling (defs.changes ledger.now more.now old.now new.now)) }
{
    put_indexes(
        ledger,
        old.indexes.as_slice(),
        new.indexes.as_slice(),
        items,
    )?;
    put_entries(more, items)?;
    put_numbers(new, items)?;
    Ok(())
}

/// No two indexes that stand in the order of the bytes of their names have one name.
pub fn ascending_differ()
    ensures { AscendingDiffer }
{}

/// What became of the buckets of an index leads from a book in which exactly the old ones stand to
/// one in which exactly the new ones do, where both lists rise by their numbers. Nothing else
/// changes.
pub fn changed_leads()
    ensures { ChangedLeads }
{}

/// The same of all indexes, where no two of the new ones have one name, and none that had buckets
/// is lost. The number of an index's next bucket is the new one where a bucket has changed, and no
/// other name changes.
pub fn changes_lead()
    ensures { ChangesLead }
{}

/// The same of all that is put: the counts and the number of the next file are the new ones, the
/// new entries of the ledger stand beside those of before, and nothing else changes.
pub fn shelves_lead()
    ensures { ShelvesLead }
{}
