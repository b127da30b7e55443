//! Buckets whose names have one number, and many of them, are found all the same.

ghost use Rattle.ix_items.specs.Spelling.{HasSpelling};

use crate::item_list::ItemList;
use ix_base::{Area, Bytes, File, NoMemory};
use ix_items::{Bucket, Item, State};
use ix_manifest::ManifestState;
use std::alloc::Global;

/// The numbers of the names of buckets 1 and 2^32 + 1 of an index are equal.
const TWIN: u64 = (1 << 32) + 1;

fn bucket_of(alloc: Global, id: u64, bytes: u64) -> Item
    ensures { HasSpelling result }
{
    let bucket = Bucket {
        id,
        state: State::Warm,
        file: File {
            area: Area::Home,
            number: 1,
        },
        bytes,
        count: 1,
        newest: 0,
        oldest: 0,
        used: 1,
        touched: 0,
    };
    Item::Bucket {
        index: Bytes::new(alloc),
        bucket,
    }
}

fn gone(alloc: Global, id: u64) -> Item
    ensures { HasSpelling result }
{
    Item::Gone {
        index: Bytes::new(alloc),
        id,
    }
}

fn say(text: &mut String, item: &Item) {
    if let Item::Bucket { bucket, .. } = item {
        let _ = write!(text, "{}:{} ", bucket.id, bucket.bytes);
    }
}

/// The buckets that stand, each with its bytes. Where memory is lacking the text is too short.
fn said(alloc: Global, state: ItemList) -> String {
    let mut text = String::new(alloc);
    let items = state.into_items();
    for item in items.as_slice() {
        say(&mut text, item);
    }
    text
}

fn put_twins(alloc: Global, state: &mut ItemList) -> Result<(), NoMemory> {
    state.apply(bucket_of(alloc, 1, 1))?;
    state.apply(bucket_of(alloc, TWIN, 2))?;
    state.apply(bucket_of(alloc, 1, 3))?;
    state.apply(bucket_of(alloc, 2, 4))?;
    state.apply(gone(alloc, 1))?;
    state.apply(bucket_of(alloc, TWIN, 5))
}

#[test]
fn names_of_one_number(rt: HostRuntime) {
    let alloc = rt.alloc();
    let mut state = ItemList::new(alloc);
    let _ = put_twins(alloc, &mut state);
    let text = said(alloc, state);
    assert_eq!(rt; text.as_str(), "2:4 4294967297:5 ");
}

fn put_all(alloc: Global, state: &mut ItemList, bytes: u64) -> Result<(), NoMemory> {
    for id in 0..300 {
        state.apply(bucket_of(alloc, id, bytes))?;
    }
    Ok(())
}

fn put_many(alloc: Global, state: &mut ItemList) -> Result<(), NoMemory> {
    put_all(alloc, state, 1)?;
    put_all(alloc, state, 2)?;
    for id in 3..300 {
        state.apply(gone(alloc, id))?;
    }
    Ok(())
}

#[test]
fn many_buckets(rt: HostRuntime) {
    let alloc = rt.alloc();
    let mut state = ItemList::new(alloc);
    let _ = put_many(alloc, &mut state);
    let text = said(alloc, state);
    assert_eq!(rt; text.as_str(), "0:2 1:2 2:2 ");
}
