//! Merging layers: halves are merged apart, and then as two ascending lists.

ghost use Rattle.std.specs.Prelude.{◌≡◌, ◌++◌, ◌∷◌, [], List, ℕ, IfOk, OnOk};
ghost use Rattle.std.specs.Option.{option_or};
ghost use Rattle.ix_conf.specs.Value.{entry_at, in_file, in_layers, said_by, own, place, place_cmp, IsAscending};
ghost use Rattle.ix_conf.specs.Merging.{Pops, Takes, fronts_cmp};

use crate::entries::Entry;
use crate::layers::{Layer, MergedEntry};
use ix_base::{Bytes, NoMemory};
use std::alloc::Global;
use std::cmp::Ordering;
use std::collections::VecDeque;

/// Entries that are taken from the front.
type Entries = VecDeque<MergedEntry>;

/// How a stanza and key stand to those of an entry: by the bytes of the stanza, and then by those
/// of the key.
pub fn compare(stanza: &[u8], key: &[u8], entry: &MergedEntry) -> Ordering
    ensures { result ≡ place_cmp (stanza.now, key.now) (place entry.now) }
{
    match stanza.cmp(&entry.stanza.as_slice()) {
        Ordering::Equal => key.cmp(&entry.key.as_slice()),
        other => other,
    }
}

fn pop(entries: &mut Entries) -> Option<MergedEntry>
    ensures { Pops entries.old.items result entries.new.items }
{
    entries.pop_front()
}

fn push(entries: &mut Entries, entry: MergedEntry) -> Result<(), NoMemory>
    ensures { OnOk result (entries.new.items ≡ entries.old.items ++ entry ∷ []) }
{
    match entries.push_back(entry) {
        Ok(()) => Ok(()),
        Err(_) => Err(NoMemory),
    }
}

fn compare_fronts(high: &Entries, low: &Entries) -> Ordering
    ensures { result ≡ fronts_cmp high.now.items low.now.items }
{
    match high.front() {
        None => Ordering::Greater,
        Some(first) => match low.front() {
            None => Ordering::Less,
            Some(other) => compare(first.stanza.as_slice(), first.key.as_slice(), other),
        },
    }
}

/// Takes the earlier of the two first entries. Of two in one place it takes the high one, and drops
/// the other.
fn take_first(high: &mut Entries, low: &mut Entries) -> Option<MergedEntry>
    ensures { Takes (fronts_cmp high.old.items low.old.items) high.old.items low.old.items result high.new.items low.new.items }
{
    match compare_fronts(high, low) {
        Ordering::Less => pop(high),
        Ordering::Equal => {
            drop(pop(low));
            pop(high)
        }
        Ordering::Greater => pop(low),
    }
}

/// The entries of both, where those of `high` come before those of `low` in the same place.
fn combine(alloc: Global, mut high: Entries, mut low: Entries) -> Result<Entries, NoMemory>
    requires high { IsAscending high.items }
    requires low { IsAscending low.items }
    ensures ascending { IfOk result (λ all. IsAscending all.items) }
    ensures entry { IfOk result (λ all. (stanza key : List ℕ) →
        entry_at stanza key all.items ≡ option_or (entry_at stanza key high.items) (entry_at stanza key low.items)) }
{
    let mut all = VecDeque::new(alloc);
    while let Some(entry) = take_first(&mut high, &mut low) {
        push(&mut all, entry)?;
    }
    Ok(all)
}

fn own_entry(alloc: Global, stanza: &[u8]) -> Result<MergedEntry, NoMemory>
    ensures { IfOk result (λ entry. entry ≡ own stanza.now) }
{
    Ok(MergedEntry {
        stanza: Bytes::copy_of(alloc, stanza)?,
        key: Bytes::new(alloc),
        value: Bytes::new(alloc),
        layer: Bytes::new(alloc),
    })
}

/// The entry of a key with a value.
fn setting(
    alloc: Global,
    layer: &[u8],
    stanza: &Bytes,
    key: &Bytes,
    value: &Bytes,
) -> Result<MergedEntry, NoMemory>
    ensures { IfOk result (λ entry. entry ≡ record { stanza = stanza.now; key = key.now; value = value.now; layer = layer.now }) }
{
    Ok(MergedEntry {
        stanza: stanza.copy()?,
        key: key.copy()?,
        value: value.copy()?,
        layer: Bytes::copy_of(alloc, layer)?,
    })
}

/// What a pair of a file says.
fn said_by_pair(
    alloc: Global,
    layer: &[u8],
    stanza: &Bytes,
    key: &Bytes,
    value: &Bytes,
) -> Result<Entries, NoMemory>
    ensures { IfOk result (λ entries. entries.items ≡ said_by layer.now (Entry.Pair stanza.now key.now value.now)) }
{
    let mut entries = VecDeque::new(alloc);
    push(&mut entries, own_entry(alloc, stanza.as_slice())?)?;
    if !key.is_empty() {
        push(&mut entries, setting(alloc, layer, stanza, key, value)?)?;
    }
    Ok(entries)
}

/// What one entry of a file says.
fn said_entries(alloc: Global, layer: &[u8], entry: &Entry) -> Result<Entries, NoMemory>
    ensures { IfOk result (λ entries. entries.items ≡ said_by layer.now entry.now) }
{
    match entry {
        Entry::Stanza(name) => {
            let mut entries = VecDeque::new(alloc);
            push(&mut entries, own_entry(alloc, name.as_slice())?)?;
            Ok(entries)
        }
        Entry::Pair(stanza, key, value) => said_by_pair(alloc, layer, stanza, key, value),
    }
}

/// What the entries of a file say, the last one of a key alone.
fn file_entries(alloc: Global, layer: &[u8], file: &[Entry]) -> Result<Entries, NoMemory>
    ensures ascending { IfOk result (λ all. IsAscending all.items) }
    ensures entry { IfOk result (λ all. (stanza key : List ℕ) → entry_at stanza key all.items ≡ in_file stanza key layer.now file.now) }
{
    match file {
        [] => Ok(VecDeque::new(alloc)),
        [entry] => said_entries(alloc, layer, entry),
        _ => {
            let (first, last) = file.split_at(file.len() / 2);
            let low = file_entries(alloc, layer, first)?;
            let high = file_entries(alloc, layer, last)?;
            combine(alloc, high, low)
        }
    }
}

/// What layers say, the first one that has a key alone.
pub fn layer_entries(alloc: Global, layers: &[Layer]) -> Result<Entries, NoMemory>
    ensures ascending { IfOk result (λ all. IsAscending all.items) }
    ensures entry { IfOk result (λ all. (stanza key : List ℕ) → entry_at stanza key all.items ≡ in_layers stanza key layers.now) }
{
    match layers {
        [] => Ok(VecDeque::new(alloc)),
        [layer] => file_entries(alloc, layer.name.as_slice(), layer.file.as_slice()),
        _ => {
            let (first, last) = layers.split_at(layers.len() / 2);
            let high = layer_entries(alloc, first)?;
            let low = layer_entries(alloc, last)?;
            combine(alloc, high, low)
        }
    }
}
