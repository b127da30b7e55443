//! Buckets, entries of the ledger, and the numbers of next buckets as items.

ghost use Rattle.std.specs.Prelude.{◌≡◌, ◌++◌, IfOk, OnOk};
ghost use Rattle.std.specs.List.{AllByRecursion, flat_map, list_any};
ghost use Rattle.ix_items.specs.Spelling.{IsInRange};
ghost use Rattle.ix_items.specs.declared.items.Item.TheVariants as items;
ghost use Rattle.ix_catalog.specs.Measures.{has_number};
ghost use Rattle.ix_catalog.specs.Shelves.{is_of};
ghost use Rattle.ix_recovery.specs.Putting.{entry_item, number_items, view_items};

use ix_base::{Bytes, NoMemory, Sequence};
use ix_catalog::next_number;
use ix_items::{Bucket, Entry, Item};
use ix_life::IndexView;

/// The item of a bucket.
fn standing(index: &Bytes, bucket: Bucket) -> Result<Item, NoMemory>
    ensures value { IfOk result (λ item. item ≡ items.Bucket index.now bucket) }
    ensures ranged { IfOk result IsInRange }
{
    Ok(Item::Bucket {
        index: index.copy()?,
        bucket,
    })
}

/// Puts the buckets of an index.
fn put_view(view: &IndexView, said: &mut Sequence<Item>) -> Result<(), NoMemory>
    ensures put { OnOk result (said.new ≡ said.old ++ view_items view.now) }
    ensures ranged { OnOk result (AllByRecursion IsInRange (view_items view.now)) }
{
    for bucket in view.buckets.as_slice() {
        said.push(standing(&view.name, *bucket)?)?;
    }
    Ok(())
}

/// Puts the buckets of all indexes.
pub(crate) fn put_buckets(indexes: &[IndexView], said: &mut Sequence<Item>) -> Result<(), NoMemory>
    ensures put { OnOk result (said.new ≡ said.old ++ flat_map view_items indexes.now) }
    ensures ranged { OnOk result (AllByRecursion IsInRange (flat_map view_items indexes.now)) }
{
    for view in indexes {
        put_view(view, said)?;
    }
    Ok(())
}

/// The item of a bucket that was frozen.
fn frozen(entry: Entry) -> Item
    ensures value { result ≡ items.Ledger entry }
    ensures ranged { IsInRange result }
{
    Item::Ledger { entry }
}

/// Puts the entries of the ledger, in their order.
pub(crate) fn put_entries(ledger: &[Entry], said: &mut Sequence<Item>) -> Result<(), NoMemory>
    ensures put { OnOk result (said.new ≡ said.old ++ flat_map entry_item ledger.now) }
    ensures ranged { OnOk result (AllByRecursion IsInRange (flat_map entry_item ledger.now)) }
{
    for entry in ledger {
        said.push(frozen(entry.copy()?))?;
    }
    Ok(())
}

/// Whether the ledger has an entry of an index.
fn has_entry(index: &Bytes, ledger: &[Entry]) -> bool
    ensures { result ≡ list_any (is_of index.now) ledger.now }
{
    ledger
        .iter()
        .any(|entry| entry.index.as_slice() == index.as_slice())
}

/// Whether an index ever had a bucket. It goes over the ledger only where there is none now.
fn has_number(ledger: &[Entry], view: &IndexView) -> bool
    ensures { result ≡ has_number ledger.now view.now }
{
    !view.buckets.is_empty() || has_entry(&view.name, ledger)
}

/// The item of the number of an index's next bucket.
fn number_item(index: &Bytes, id: u64) -> Result<Item, NoMemory>
    ensures value { IfOk result (λ item. item ≡ items.NextId index.now id) }
    ensures ranged { IfOk result IsInRange }
{
    Ok(Item::NextId {
        index: index.copy()?,
        id,
    })
}

/// Puts the number of an index's next bucket, where it ever had one.
fn put_number(ledger: &[Entry], view: &IndexView, said: &mut Sequence<Item>) -> Result<(), NoMemory>
    ensures put { OnOk result (said.new ≡ said.old ++ number_items ledger.now view.now) }
    ensures ranged { OnOk result (AllByRecursion IsInRange (number_items ledger.now view.now)) }
{
    if !has_number(ledger, view) {
        return Ok(());
    }
    let number = next_number(&view.name, view.buckets.as_slice(), ledger);
    said.push(number_item(&view.name, number)?)?;
    Ok(())
}

/// Puts the numbers of the next buckets of all indexes.
pub(crate) fn put_numbers(
    ledger: &[Entry],
    indexes: &[IndexView],
    said: &mut Sequence<Item>,
) -> Result<(), NoMemory>
    ensures put { OnOk result (said.new ≡ said.old ++ flat_map (number_items ledger.now) indexes.now) }
    ensures ranged { OnOk result (AllByRecursion IsInRange (flat_map (number_items ledger.now) indexes.now)) }
{
    for view in indexes {
        put_number(ledger, view, said)?;
    }
    Ok(())
}
