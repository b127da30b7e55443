//! A list of what stands, one item a name, and what a further item changes there. The replayed
//! state keeps one.

ghost use Rattle.std.specs.Prelude.{◌≡◌, ◌≤◌, ◌<◌, ◌∷◌, if◌then◌else◌, List, length, get_or, true, false};
ghost use Rattle.std.specs.Prelude.{All, IsSome, IfSome, IfOk, OnOk};
ghost use Rattle.std.specs.List.Sorted.{IsPermutation};
ghost use Rattle.std.specs.BTreeMap.{get};
ghost use Rattle.std.specs.Ordering.{nat_cmp};
ghost use Rattle.ix_manifest.specs.Book.{empty, replay, after_item, name_of, is_same, left_by, is_there};
ghost use Rattle.ix_manifest.specs.Keys.{key_in};
ghost use Rattle.ix_items.specs.declared.items.Item.{Item};
ghost use Rattle.ix_replay.specs.Covering.{Covers};
ghost use Rattle.ix_replay.specs.Known.{AreKnown};
ghost use Rattle.ix_replay.specs.Lists.{AreListed};
ghost use Rattle.ix_replay.specs.Putting.{without, with_item};

use crate::tally::Tally;
use ix_base::NoMemory;
use ix_items::Item;
use ix_manifest::{key_of, same_name};
use std::collections::BTreeMap;

/// Where the items of a list are looked for, by the numbers of their names: a hint, which is tested
/// and not trusted. Each item has an entry, so where there is none no item has the name. The place
/// it tells is looked at, and where another item stands there, whose name has the same number, the
/// list is gone through.
pub type Places = BTreeMap<u64, usize>;

/// Whether the item is what stands under its name after it: not the end of a channel, nor a bucket
/// that is gone.
fn stays(item: &Item) -> bool
    ensures { result ≡ is_there (left_by item.now) }
{
    match item {
        Item::Ended { .. } | Item::Gone { .. } => false,
        Item::Settings { .. }
        | Item::Run { .. }
        | Item::Moments { .. }
        | Item::Channel { .. }
        | Item::Bucket { .. }
        | Item::Ledger { .. }
        | Item::Counts { .. }
        | Item::Spot { .. }
        | Item::NextFile { .. }
        | Item::Removals { .. }
        | Item::NextId { .. } => true,
    }
}

/// The place of the item under the name of this one, or the length where there is none. It looks
/// from the end on: most items of a body stand for what has changed a short while ago, and that is
/// at the end.
fn walk_to(items: &[Item], item: &Item) -> usize
    ensures within { result ≤ length items.now }
    ensures found { (d : Item) → result < length items.now → is_same (name_of (get_or items.now result d)) (name_of item.now) ≡ true }
    ensures none { result ≡ length items.now → All (λ x. is_same (name_of x) (name_of item.now) ≡ false) items.now }
{
    let mut at = items.len();
    while at > 0 {
        at -= 1;
        if same_name(&items[at], item) {
            return at;
        }
    }
    items.len()
}

/// The same, by the place that the hint tells.
fn place_of(items: &[Item], places: &Places, item: &Item) -> usize
    requires known { AreKnown places.now items.now }
    ensures within { result ≤ length items.now }
    ensures found { (d : Item) → result < length items.now → is_same (name_of (get_or items.now result d)) (name_of item.now) ≡ true }
    ensures none { result ≡ length items.now → All (λ x. is_same (name_of x) (name_of item.now) ≡ false) items.now }
{
    match places.get(&key_of(item)) {
        Some(at) => {
            if *at < items.len() && same_name(&items[*at], item) {
                *at
            } else {
                walk_to(items, item)
            }
        }
        None => items.len(),
    }
}

/// Puts an item in place of the one of its name at a place.
fn replace(items: &mut Vec<Item>, places: &Places, at: usize, item: Item)
    requires at { at < length items.old.items }
    requires listed { AreListed items.old.items }
    requires known { AreKnown places.now items.old.items }
    requires same { (d : Item) → is_same (name_of (get_or items.old.items at d)) (name_of item) ≡ true }
    requires stays { is_there (left_by item) ≡ true }
    ensures listed { AreListed items.new.items }
    ensures known { AreKnown places.now items.new.items }
    ensures book { replay items.new.items empty ≡ after_item item (replay items.old.items empty) }
    ensures moved { IsPermutation (item ∷ without at items.old.items) items.new.items }
{
    items[at] = item;
}

/// Notes that an item stands at a place.
fn note(places: &mut Places, item: &Item, at: usize) -> Result<(), NoMemory>
    ensures here { OnOk result (IsSome (get nat_cmp places.new (key_in item.now))) }
    ensures known { (items : List Item) → AreKnown places.old items → AreKnown places.new items }
{
    places.insert(key_of(item), at)?;
    Ok(())
}

/// Takes the item at a place out, for one of its name that leaves nothing. The last one takes its
/// place.
fn swap_out(items: &mut Vec<Item>, places: &Places, at: usize, gone: &Item)
    requires at { at < length items.old.items }
    requires listed { AreListed items.old.items }
    requires known { AreKnown places.now items.old.items }
    requires same { (d : Item) → is_same (name_of (get_or items.old.items at d)) (name_of gone.now) ≡ true }
    requires gone { is_there (left_by gone.now) ≡ false }
    ensures listed { AreListed items.new.items }
    ensures known { AreKnown places.now items.new.items }
    ensures book { replay items.new.items empty ≡ after_item gone.now (replay items.old.items empty) }
    ensures moved { IsPermutation (without at items.old.items) items.new.items }
{
    drop(items.swap_remove(at));
}

/// The same, and notes where the last one stands now.
fn take_out(
    items: &mut Vec<Item>,
    places: &mut Places,
    at: usize,
    gone: &Item,
) -> Result<(), NoMemory>
    requires at { at < length items.old.items }
    requires listed { AreListed items.old.items }
    requires known { AreKnown places.old items.old.items }
    requires same { (d : Item) → is_same (name_of (get_or items.old.items at d)) (name_of gone.now) ≡ true }
    requires gone { is_there (left_by gone.now) ≡ false }
    ensures listed { AreListed items.new.items }
    ensures known { AreKnown places.new items.new.items }
    ensures book { replay items.new.items empty ≡ after_item gone.now (replay items.old.items empty) }
    ensures moved { IsPermutation (without at items.old.items) items.new.items }
{
    swap_out(items, places, at, gone);
    if at < items.len() {
        note(places, &items[at], at)?;
    }
    Ok(())
}

/// Adds an item under a name of its own.
fn add(items: &mut Vec<Item>, places: &mut Places, item: Item) -> Result<(), NoMemory>
    requires listed { AreListed items.old.items }
    requires known { AreKnown places.old items.old.items }
    requires none { All (λ x. is_same (name_of x) (name_of item) ≡ false) items.old.items }
    requires stays { is_there (left_by item) ≡ true }
    ensures listed { AreListed items.new.items }
    ensures known { AreKnown places.new items.new.items }
    ensures book { OnOk result (replay items.new.items empty ≡ after_item item (replay items.old.items empty)) }
    ensures moved { OnOk result (IsPermutation (item ∷ items.old.items) items.new.items) }
{
    note(places, &item, items.len())?;
    items.push(item)?;
    Ok(())
}

/// Puts an item in place of the one of its name at a place; behind all, where that is the length.
fn put_staying(
    items: &mut Vec<Item>,
    places: &mut Places,
    at: usize,
    item: Item,
) -> Result<(), NoMemory>
    requires listed { AreListed items.old.items }
    requires known { AreKnown places.old items.old.items }
    requires within { at ≤ length items.old.items }
    requires found { (d : Item) → at < length items.old.items → is_same (name_of (get_or items.old.items at d)) (name_of item) ≡ true }
    requires none { at ≡ length items.old.items → All (λ x. is_same (name_of x) (name_of item) ≡ false) items.old.items }
    requires stays { is_there (left_by item) ≡ true }
    ensures listed { AreListed items.new.items }
    ensures known { AreKnown places.new items.new.items }
    ensures book { OnOk result (replay items.new.items empty ≡ after_item item (replay items.old.items empty)) }
    ensures moved { OnOk result (IsPermutation (item ∷ without at items.old.items) items.new.items) }
{
    if at >= items.len() {
        return add(items, places, item);
    }
    replace(items, places, at, item);
    Ok(())
}

/// Takes the one of its name at a place out, where one stands there.
fn put_leaving(
    items: &mut Vec<Item>,
    places: &mut Places,
    at: usize,
    item: &Item,
) -> Result<(), NoMemory>
    requires listed { AreListed items.old.items }
    requires known { AreKnown places.old items.old.items }
    requires within { at ≤ length items.old.items }
    requires found { (d : Item) → at < length items.old.items → is_same (name_of (get_or items.old.items at d)) (name_of item.now) ≡ true }
    requires none { at ≡ length items.old.items → All (λ x. is_same (name_of x) (name_of item.now) ≡ false) items.old.items }
    requires gone { is_there (left_by item.now) ≡ false }
    ensures listed { AreListed items.new.items }
    ensures known { AreKnown places.new items.new.items }
    ensures book { OnOk result (replay items.new.items empty ≡ after_item item.now (replay items.old.items empty)) }
    ensures moved { OnOk result (IsPermutation (without at items.old.items) items.new.items) }
{
    if at >= items.len() {
        return Ok(());
    }
    take_out(items, places, at, item)
}

/// Puts an item where one of its name stands at a place, or none does and it is the length.
fn put_at(items: &mut Vec<Item>, places: &mut Places, at: usize, item: Item) -> Result<(), NoMemory>
    requires listed { AreListed items.old.items }
    requires known { AreKnown places.old items.old.items }
    requires within { at ≤ length items.old.items }
    requires found { (d : Item) → at < length items.old.items → is_same (name_of (get_or items.old.items at d)) (name_of item) ≡ true }
    requires none { at ≡ length items.old.items → All (λ x. is_same (name_of x) (name_of item) ≡ false) items.old.items }
    ensures listed { AreListed items.new.items }
    ensures known { AreKnown places.new items.new.items }
    ensures book { OnOk result (replay items.new.items empty ≡ after_item item (replay items.old.items empty)) }
    ensures moved { OnOk result (IsPermutation (with_item at item items.old.items) items.new.items) }
{
    if stays(&item) {
        return put_staying(items, places, at, item);
    }
    let done = put_leaving(items, places, at, &item);
    drop(item);
    done
}

/// Lets the item at a place go from a tally, where one stands there.
fn forget(tally: &mut Tally, items: &[Item], at: usize)
    ensures { Covers tally.old items.now → Covers tally.new (without at items.now) }
{
    if at >= items.len() {
        return;
    }
    tally.remove(&items[at]);
}

/// Takes an item into a tally, where it stays.
fn remember(tally: Tally, item: &Item) -> Result<Option<Tally>, NoMemory>
    ensures { (items : List Item) → Covers tally items → IfOk result (λ tally. IfSome tally (λ t. Covers t
        (if is_there (left_by item.now) then item.now ∷ items else items))) }
{
    let mut tally = tally;
    if !stays(item) {
        return Ok(Some(tally));
    }
    let done = tally.add(item)?;
    if !done {
        return Ok(None);
    }
    Ok(Some(tally))
}

/// The tally behind an item that comes in place of the one at a place, where it is known.
fn retally(
    tally: Option<Tally>,
    items: &[Item],
    at: usize,
    item: &Item,
) -> Result<Option<Tally>, NoMemory>
    requires { IfSome tally (λ t. Covers t items.now) }
    ensures { IfOk result (λ tally. IfSome tally (λ t. Covers t (with_item at item.now items.now))) }
{
    match tally {
        Some(tally) => {
            let mut tally = tally;
            forget(&mut tally, items, at);
            remember(tally, item)
        }
        None => Ok(None),
    }
}

/// Puts an item in place of what stands under its name, and answers the tally of the list then,
/// where it is known.
pub fn put(
    items: &mut Vec<Item>,
    places: &mut Places,
    tally: Option<Tally>,
    item: Item,
) -> Result<Option<Tally>, NoMemory>
    requires listed { AreListed items.old.items }
    requires known { AreKnown places.old items.old.items }
    requires covers { IfSome tally (λ t. Covers t items.old.items) }
    ensures listed { AreListed items.new.items }
    ensures known { AreKnown places.new items.new.items }
    ensures book { OnOk result (replay items.new.items empty ≡ after_item item (replay items.old.items empty)) }
    ensures covers { IfOk result (λ tally. IfSome tally (λ t. Covers t items.new.items)) }
{
    let at = place_of(items.as_slice(), places, &item);
    let tally = retally(tally, items.as_slice(), at, &item)?;
    put_at(items, places, at, item)?;
    Ok(tally)
}
