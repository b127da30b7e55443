//! Reading items.

ghost use Rattle.std.specs.Prelude.{◌≡◌, ◌≢◌, ℕ, ◌<◌, ◌≤◌, ◌++◌, List, length, take, IfOk, Err};
ghost use Rattle.ix_coding.specs.Spelling.{eight, string, IsShort, Is64};
ghost use Rattle.std.specs.List.{flat_map, AllByRecursion};
ghost use Rattle.ix_items.specs.declared.items.Item.{Item};
ghost use Rattle.ix_items.specs.declared.items.ItemFault.{ItemFault};
ghost use Rattle.ix_items.specs.Spelling.{item_bytes, kind_byte, field_bytes, file_bytes, kept_bytes, settings_bytes, files_bytes};
ghost use Rattle.ix_items.specs.Spelling.{IsWritable, IsKept, HasSpelling, IsInRange};
ghost use Rattle.ix_items.specs.Reading.{Gives, settings_at, files_at, moments_at, channel_at, counts_at, in_index_at, named_at, fields_at};
ghost use Rattle.ix_items.specs.Reading.{item_at, list_at, kept_at, file_at};

use crate::fields::{
    copy_string, read_bucket, read_entry, read_file, read_kept, read_meta, read_spot,
};
use crate::items::{FileList, Item, ItemFault, KeptList};
use ix_base::{Bytes, Sequence};
use ix_coding::{read_byte, read_i64, read_u32, read_u64};
use std::alloc::Global;

fn read_kept_list(alloc: Global, count: u32, bytes: &[u8]) -> Result<(KeptList, &[u8]), ItemFault>
    ensures gives { Gives (λ x. (x.0, x.1.now)) result (list_at kept_at count bytes.now) }
    ensures found { IfOk result (λ x. (bytes.now ≡ flat_map kept_bytes x.0 ++ x.1.now) × (length x.0 ≡ count) × AllByRecursion IsKept x.0) }
{
    let mut list = Sequence::new(alloc);
    let mut rest = bytes;
    for _ in 0..count {
        let (kept, after) = read_kept(alloc, rest)?;
        list.push(kept)?;
        rest = after;
    }
    Ok((list, rest))
}

fn read_file_list(alloc: Global, count: u32, bytes: &[u8]) -> Result<(FileList, &[u8]), ItemFault>
    ensures gives { Gives (λ x. (x.0, x.1.now)) result (list_at file_at count bytes.now) }
    ensures found { IfOk result (λ x. (bytes.now ≡ flat_map file_bytes x.0 ++ x.1.now) × (length x.0 ≡ count)) }
    ensures ranged { IfOk result (λ x. AllByRecursion (λ f. Is64 f.number) x.0) }
{
    let mut list = Sequence::new(alloc);
    let mut rest = bytes;
    for _ in 0..count {
        let (file, after) = read_file(rest)?;
        list.push(file)?;
        rest = after;
    }
    Ok((list, rest))
}

#[tactic(auto, unfolding(crate::specs::Reading::settings_at, crate::specs::Spelling::settings_bytes))]
fn read_settings(alloc: Global, bytes: &[u8]) -> Result<(KeptList, &[u8]), ItemFault>
    ensures gives { Gives (λ x. (x.0, x.1.now)) result (settings_at bytes.now) }
    ensures found { IfOk result (λ x. (bytes.now ≡ settings_bytes x.0 ++ x.1.now) × IsShort x.0 × AllByRecursion IsKept x.0) }
{
    let (count, rest) = read_u32(bytes)?;
    let (list, rest) = read_kept_list(alloc, count, rest)?;
    Ok((list, rest))
}

#[tactic(auto, unfolding(crate::specs::Reading::files_at, crate::specs::Spelling::files_bytes))]
fn read_files(alloc: Global, bytes: &[u8]) -> Result<(FileList, &[u8]), ItemFault>
    ensures gives { Gives (λ x. (x.0, x.1.now)) result (files_at bytes.now) }
    ensures found { IfOk result (λ x. (bytes.now ≡ files_bytes x.0 ++ x.1.now) × IsShort x.0) }
    ensures ranged { IfOk result (λ x. AllByRecursion (λ f. Is64 f.number) x.0) }
{
    let (count, rest) = read_u32(bytes)?;
    let (list, rest) = read_file_list(alloc, count, rest)?;
    Ok((list, rest))
}

#[tactic(auto, unfolding(crate::specs::Reading::moments_at, crate::specs::Spelling::field_bytes))]
fn read_moments(bytes: &[u8]) -> Result<(Item, &[u8]), ItemFault>
    ensures gives { Gives (λ x. (x.0, x.1.now)) result (moments_at bytes.now) }
    ensures found { IfOk result (λ x. (kind_byte x.0 ≡ 3) × (bytes.now ≡ field_bytes x.0 ++ x.1.now) × IsWritable x.0) }
    ensures ranged { IfOk result (λ x. IsInRange x.0) }
{
    let (last, rest) = read_i64(bytes)?;
    let (tick, rest) = read_i64(rest)?;
    Ok((Item::Moments { last, tick }, rest))
}

#[tactic(auto, unfolding(crate::specs::Reading::channel_at, crate::specs::Spelling::field_bytes))]
fn read_channel(alloc: Global, bytes: &[u8]) -> Result<(Item, &[u8]), ItemFault>
    ensures gives { Gives (λ x. (x.0, x.1.now)) result (channel_at bytes.now) }
    ensures found { IfOk result (λ x. (kind_byte x.0 ≡ 4) × (bytes.now ≡ field_bytes x.0 ++ x.1.now) × IsWritable x.0) }
    ensures ranged { IfOk result (λ x. IsInRange x.0) }
{
    let (name, rest) = copy_string(alloc, bytes)?;
    let (meta, rest) = read_meta(alloc, rest)?;
    let (carry, rest) = copy_string(alloc, rest)?;
    Ok((Item::Channel { name, meta, carry }, rest))
}

#[tactic(auto, unfolding(crate::specs::Reading::in_index_at, crate::specs::Spelling::field_bytes))]
fn read_in_index(alloc: Global, bytes: &[u8]) -> Result<(Item, &[u8]), ItemFault>
    ensures gives { Gives (λ x. (x.0, x.1.now)) result (in_index_at bytes.now) }
    ensures found { IfOk result (λ x. (kind_byte x.0 ≡ 6) × (bytes.now ≡ field_bytes x.0 ++ x.1.now) × IsWritable x.0) }
    ensures ranged { IfOk result (λ x. IsInRange x.0) }
{
    let (index, rest) = copy_string(alloc, bytes)?;
    let (bucket, rest) = read_bucket(rest)?;
    Ok((Item::Bucket { index, bucket }, rest))
}

#[tactic(auto, unfolding(crate::specs::Reading::counts_at, crate::specs::Spelling::field_bytes))]
fn read_counts(bytes: &[u8]) -> Result<(Item, &[u8]), ItemFault>
    ensures gives { Gives (λ x. (x.0, x.1.now)) result (counts_at bytes.now) }
    ensures found { IfOk result (λ x. (kind_byte x.0 ≡ 9) × (bytes.now ≡ field_bytes x.0 ++ x.1.now) × IsWritable x.0) }
    ensures ranged { IfOk result (λ x. IsInRange x.0) }
{
    let (settled, rest) = read_u64(bytes)?;
    let (nulled, rest) = read_u64(rest)?;
    let (dropped, rest) = read_u64(rest)?;
    let (placed, rest) = read_u64(rest)?;
    let counts = Item::Counts {
        settled,
        nulled,
        dropped,
        placed,
    };
    Ok((counts, rest))
}

/// A string and a number: an index, and a bucket's number in it.
#[tactic(auto, unfolding(crate::specs::Reading::named_at))]
fn read_named(alloc: Global, bytes: &[u8]) -> Result<((Bytes, u64), &[u8]), ItemFault>
    ensures gives { Gives (λ x. (x.0, x.1.now)) result (named_at bytes.now) }
    ensures found { IfOk result (λ x. (bytes.now ≡ string x.0.0 ++ eight x.0.1 ++ x.1.now) × IsShort x.0.0) }
    ensures ranged { IfOk result (λ x. Is64 x.0.1) }
{
    let (index, rest) = copy_string(alloc, bytes)?;
    let (id, rest) = read_u64(rest)?;
    Ok(((index, id), rest))
}

/// Reads what stands behind a kind byte.
#[tactic(auto, unfolding(crate::specs::Reading::fields_at, crate::specs::Spelling::field_bytes))]
fn read_fields(alloc: Global, kind: u8, bytes: &[u8]) -> Result<(Item, &[u8]), ItemFault>
    ensures gives { Gives (λ x. (x.0, x.1.now)) result (fields_at kind bytes.now) }
    ensures found { IfOk result (λ x. (kind_byte x.0 ≡ kind) × (bytes.now ≡ field_bytes x.0 ++ x.1.now) × IsWritable x.0) }
    ensures ranged { IfOk result (λ x. IsInRange x.0) }
{
    match kind {
        1 => {
            let (kept, rest) = read_settings(alloc, bytes)?;
            Ok((Item::Settings { kept }, rest))
        }
        2 => {
            let (run, rest) = read_u64(bytes)?;
            Ok((Item::Run { run }, rest))
        }
        3 => read_moments(bytes),
        4 => read_channel(alloc, bytes),
        5 => {
            let (name, rest) = copy_string(alloc, bytes)?;
            Ok((Item::Ended { name }, rest))
        }
        6 => read_in_index(alloc, bytes),
        7 => {
            let ((index, id), rest) = read_named(alloc, bytes)?;
            Ok((Item::Gone { index, id }, rest))
        }
        8 => {
            let (entry, rest) = read_entry(alloc, bytes)?;
            Ok((Item::Ledger { entry }, rest))
        }
        9 => read_counts(bytes),
        10 => {
            let (spot, rest) = read_spot(alloc, bytes)?;
            Ok((Item::Spot { spot }, rest))
        }
        11 => {
            let (number, rest) = read_u64(bytes)?;
            Ok((Item::NextFile { number }, rest))
        }
        12 => {
            let (files, rest) = read_files(alloc, bytes)?;
            Ok((Item::Removals { files }, rest))
        }
        13 => {
            let ((index, id), rest) = read_named(alloc, bytes)?;
            Ok((Item::NextId { index, id }, rest))
        }
        _ => Err(ItemFault::BadItem),
    }
}

#[tactic(auto, unfolding(crate::specs::Reading::item_at, crate::specs::Spelling::item_bytes))]
fn read_front(alloc: Global, bytes: &[u8]) -> Result<(Item, &[u8]), ItemFault>
    ensures gives { Gives (λ x. (x.0, x.1.now)) result (item_at bytes.now) }
    ensures found { IfOk result (λ x. (bytes.now ≡ item_bytes x.0 ++ x.1.now) × IsWritable x.0) }
    ensures ranged { IfOk result (λ x. IsInRange x.0) }
{
    let (kind, rest) = read_byte(bytes)?;
    let (item, rest) = read_fields(alloc, kind, rest)?;
    Ok((item, rest))
}

/// Reads the item at the front of the bytes, and how many bytes it takes. Any bytes may stand
/// behind it. It fails with `BadItem` exactly where no prefix of the bytes is an item. Beside the
/// copies of its strings it takes memory for the values of its list alone.
pub fn read_item(alloc: Global, bytes: &[u8]) -> Result<(Item, usize), ItemFault>
    // So many bytes are the item's.
    ensures found { IfOk result (λ x. (0 < x.1) × (x.1 ≤ length bytes.now) × (take x.1 bytes.now ≡ item_bytes x.0) × HasSpelling x.0) }
    // No prefix is an item.
    ensures none { result ≡ Err ItemFault.BadItem → (item : Item) (rest : List ℕ) → HasSpelling item → bytes.now ≢ item_bytes item ++ rest }
    // The item that stands at the front is read, whatever follows it.
    ensures again { (item : Item) (rest : List ℕ) → HasSpelling item → bytes.now ≡ item_bytes item ++ rest →
        IfOk result (λ x. (x.0 ≡ item) × (x.1 ≡ length (item_bytes item))) }
{
    let (item, rest) = read_front(alloc, bytes)?;
    Ok((item, bytes.len() - rest.len()))
}
