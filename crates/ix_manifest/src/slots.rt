//! The staged items: one slot a name. Staging a draft calls `drop_older`, a commit `last_removals`.

ghost use Rattle.std.specs.Prelude.{◌≡◌, ◌<◌, ◌≤◌, ◌+◌, ℕ, length, get_or, take, true, false, All, IfSome};
ghost use Rattle.std.specs.List.{AllByRecursion};
ghost use Rattle.ix_items.specs.Spelling.{HasSpelling};
ghost use Rattle.ix_manifest.specs.Book.{NamedItems, empty, name_of, is_same, removals_in, replay};
ghost use Rattle.ix_manifest.specs.Repeats.{Tells};
ghost use Rattle.ix_manifest.specs.Slots.{bytes_of, items_of, without, AreOnce, AreRemovals};
ghost use Rattle.ix_manifest.specs.declared.staged_item.StagedItem.{StagedItem};

use crate::names::same_name;
use crate::plain::removals_after;
use crate::repeats::{Repeats, is_single, repeats_of};
use crate::staged_item::StagedItem;
use ix_base::{File, Sequence};
use std::mem;

/// The place of an earlier item under the name of the one at a place, or that place.
fn earlier(slots: &[StagedItem], at: usize) -> usize
    requires { at < length slots.now }
    ensures within { result ≤ at }
    ensures found { (d : StagedItem) → result < at → is_same (name_of (get_or slots.now result d).item)
        (name_of (get_or slots.now at d).item) ≡ true }
    ensures none { (d : StagedItem) → result ≡ at → All (λ slot. is_same (name_of slot.item) (name_of (get_or slots.now at d).item) ≡ false)
        (take at slots.now) }
{
    let item = &slots[at].item;
    let mut k = 0;
    while k < at {
        if same_name(&slots[k].item, item) {
            return k;
        }
        k += 1;
    }
    k
}

/// The same, without a walk where no second item has the number of the name.
fn earlier_by(repeats: &Option<Repeats>, slots: &[StagedItem], at: usize) -> usize
    requires at { at < length slots.now }
    requires tells { IfSome repeats.now (λ seen. Tells seen slots.now) }
    ensures within { result ≤ at }
    ensures found { (d : StagedItem) → result < at → is_same (name_of (get_or slots.now result d).item)
        (name_of (get_or slots.now at d).item) ≡ true }
    ensures none { (d : StagedItem) → result ≡ at → All (λ slot. is_same (name_of slot.item) (name_of (get_or slots.now at d).item) ≡ false)
        (take at slots.now) }
{
    match repeats {
        Some(seen) if is_single(seen, &slots[at].item) => at,
        _ => earlier(slots, at),
    }
}

/// From how many new items on the names of all are numbered. Before that, walks cost less.
const MANY: usize = 32;

/// The numbers of the names, where many items are new and there is room for them.
fn repeats_in(slots: &Vec<StagedItem>, from: usize) -> Option<Repeats>
    requires { from ≤ length slots.now.items }
    ensures { IfSome result (λ seen. Tells seen slots.now.items) }
{
    if slots.len() - from < MANY {
        return None;
    }
    repeats_of(*slots.allocator(), slots.as_slice()).ok()
}

/// How many bytes the item at the place has.
fn size_at(slots: &[StagedItem], at: usize) -> u64
    requires { at < length slots.now }
    ensures { length (bytes_of (without at slots.now)) + result ≡ length (bytes_of slots.now) }
{
    let slot = &slots[at];
    slot.bytes.len() as u64
}

/// Drops each item under whose name a later one stands, from a place on, and answers how many bytes
/// are left.
fn drop_in(slots: &mut Vec<StagedItem>, repeats: &Option<Repeats>, from: usize, size: u64) -> u64
    requires size { size ≡ length (bytes_of slots.old.items) }
    requires from { from ≤ length slots.old.items }
    requires tells { IfSome repeats.now (λ seen. Tells seen slots.old.items) }
    ensures size { result ≡ length (bytes_of slots.new.items) }
    ensures book { (book : NamedItems) → replay (items_of slots.new.items) book ≡ replay (items_of slots.old.items) book }
    ensures proper { AllByRecursion HasSpelling (items_of slots.old.items) → AllByRecursion HasSpelling (items_of slots.new.items) }
    ensures once { AreOnce (items_of (take from slots.old.items)) → AreOnce (items_of slots.new.items) }
    ensures least { length (bytes_of slots.new.items) ≤ length (bytes_of slots.old.items) }
{
    let mut size = size;
    let mut k = from;
    while k < slots.len() {
        let at = earlier_by(repeats, slots.as_slice(), k);
        if at < k {
            size -= size_at(slots.as_slice(), at);
            drop(slots.remove(at));
        } else {
            k += 1;
        }
    }
    size
}

/// Drops each item under whose name a later one stands, where that one stands at `from` or behind,
/// so that each name is there once. It answers how many bytes the items have then. It needs no
/// memory; where many items are new it takes some for the numbers of names, so that it does not
/// hold each item against all others, and does without where there is none.
pub fn drop_older(slots: &mut Sequence<StagedItem>, from: usize, size: u64) -> u64
    requires size { size ≡ length (bytes_of slots.old) }
    requires from { from ≤ length slots.old }
    ensures size { result ≡ length (bytes_of slots.new) }
    ensures book { (book : NamedItems) → replay (items_of slots.new) book ≡ replay (items_of slots.old) book }
    ensures proper { AllByRecursion HasSpelling (items_of slots.old) → AllByRecursion HasSpelling (items_of slots.new) }
    ensures once { AreOnce (items_of (take from slots.old)) → AreOnce (items_of slots.new) }
    ensures least { length (bytes_of slots.new) ≤ length (bytes_of slots.old) }
{
    let own = slots.empty();
    let mut list = mem::replace(slots, own).into_vec();
    let repeats = repeats_in(&list, from);
    let left = drop_in(&mut list, &repeats, from, size);
    *slots = Sequence::from_vec(list);
    left
}

/// The files that the last removals among these items name; none where there are none.
pub fn last_removals(slots: &[StagedItem]) -> &[File]
    ensures are { AreRemovals slots.now result.now }
    ensures last { result.now ≡ removals_in (replay (items_of slots.now) empty) }
{
    let mut files: &[File] = &[];
    for slot in slots {
        files = removals_after(&slot.item, files);
    }
    files
}
