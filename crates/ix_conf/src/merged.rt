//! Merged settings.

ghost use Rattle.std.specs.Prelude.{◌≡◌, ◌<◌, ◌++◌, [], IfOk, IfSome, OnOk, length, slice_get, is_some};
ghost use Rattle.std.specs.Option.{option_map};
ghost use Rattle.ix_conf.specs.Value.{AreMerged, entry_at, value_at, IsAscending};
ghost use Rattle.ix_conf.specs.Merging.{entry_there};
ghost use Rattle.ix_conf.specs.Listing.{line_of, listing};

use crate::layers::{Layers, MergedEntry};
use crate::merging::{compare, layer_entries};
use ix_base::{Bytes, NoMemory};
use std::alloc::Global;
use std::cmp::Ordering;
use std::marker::Model;

/// A value of a key.
#[derive(Clone, Copy, Debug, PartialEq, Eq)]
pub struct Setting<'a> {
    pub value: &'a [u8],
    /// The name of the layer that the value comes from.
    pub layer: &'a [u8],
}

/// An entry of merged settings, lent. A stanza's own entry has an empty key, value and layer.
#[derive(Clone, Copy, Debug, PartialEq, Eq)]
pub struct Item<'a> {
    pub stanza: &'a [u8],
    pub key: &'a [u8],
    pub value: &'a [u8],
    /// The name of the layer that the value comes from.
    pub layer: &'a [u8],
}

/// The settings of all layers of a file. Contracts see them as the list of their entries, in the
/// order of the bytes of their stanza, and then of their key. Each stanza has an entry of its own,
/// which stands before those of its keys.
#[derive(Drop)]
pub struct Merged {
    entries: Vec<MergedEntry>,
}

impl Model for Merged {
    ghost use Rattle.std.specs.Prelude.{List};
    ghost use Rattle.ix_conf.specs.declared.layers.MergedEntry.{MergedEntry as Entry};
    ghost use Rattle.ix_conf.specs.Value.{IsAscending};

    ghost Value = { List Entry };

    ghost view = { λ m. m.entries.items };

    ghost invariant = { λ m. IsAscending m.entries.items };
}

/// Merges the layers of a file: per stanza and key the value of the first layer that defines it,
/// and within one file the last one. An empty value is a value like any other.
///
/// A pair with an empty key, which `parse` never gives, says no more than that its stanza is there.
pub fn merge(alloc: Global, layers: &Layers) -> Result<Merged, NoMemory>
    ensures { IfOk result (λ merged. AreMerged layers.now merged) }
{
    let entries = layer_entries(alloc, layers.as_slice())?;
    Ok(Merged {
        entries: entries.into_vec(),
    })
}

/// The place of the entry of a stanza and key.
fn find(entries: &[MergedEntry], stanza: &[u8], key: &[u8]) -> Option<usize>
    requires { IsAscending entries.now }
    ensures entry { entry_at stanza.now key.now entries.now ≡ entry_there entries.now result }
    ensures within { IfSome result (λ at. at < length entries.now) }
{
    let mut low = 0;
    let mut high = entries.len();
    while low < high {
        let middle = low + (high - low) / 2;
        match compare(stanza, key, &entries[middle]) {
            Ordering::Less => high = middle,
            Ordering::Equal => return Some(middle),
            Ordering::Greater => low = middle + 1,
        }
    }
    None
}

fn add_line(text: &mut Bytes, entry: &MergedEntry) -> Result<(), NoMemory>
    ensures { OnOk result (text.new ≡ text.old ++ line_of entry.now) }
{
    if entry.key.is_empty() {
        text.extend(b"[")?;
        text.extend(entry.stanza.as_slice())?;
        return text.extend(b"]\n");
    }
    text.extend(entry.layer.as_slice())?;
    text.extend(b" ")?;
    text.extend(entry.key.as_slice())?;
    text.extend(b"=")?;
    text.extend(entry.value.as_slice())?;
    text.extend(b"\n")
}

fn list_entries(alloc: Global, entries: &[MergedEntry]) -> Result<Bytes, NoMemory>
    ensures { IfOk result (λ text. text ≡ listing entries.now) }
{
    let mut text = Bytes::new(alloc);
    for entry in entries {
        add_line(&mut text, entry)?;
    }
    Ok(text)
}

impl Merged {
    ghost use Rattle.ix_conf.specs.Lent.{item_entry};

    /// Whether there is a stanza of this name. It takes no memory.
    pub fn has(&self, stanza: &[u8]) -> bool
        ensures { result ≡ is_some (entry_at stanza.now [] self.now) }
    {
        find(&self.entries, stanza, b"").is_some()
    }

    /// The value of a key in a stanza, and the layer that it comes from. It takes no memory.
    pub fn get(&self, stanza: &[u8], key: &[u8]) -> Option<Setting<'_>>
        ensures { option_map (λ setting. (setting.value.now, setting.layer.now)) result ≡ value_at stanza.now key.now self.now }
    {
        if key.is_empty() {
            return None;
        }
        let at = find(&self.entries, stanza, key)?;
        let entry = self.entries.get(at)?;
        Some(Setting {
            value: entry.value.as_slice(),
            layer: entry.layer.as_slice(),
        })
    }

    /// The entry of this number, from 0; `None` exactly where there are no more. It takes no
    /// memory.
    pub fn item(&self, at: usize) -> Option<Item<'_>>
        ensures { option_map (λ item. item_entry item) result ≡ slice_get self.now at }
    {
        let entry = self.entries.get(at)?;
        Some(Item {
            stanza: entry.stanza.as_slice(),
            key: entry.key.as_slice(),
            value: entry.value.as_slice(),
            layer: entry.layer.as_slice(),
        })
    }

    /// The listing: a line `[stanza]` for each stanza, and behind it a line `layer key=value` for
    /// each of its keys.
    pub fn list(&self, alloc: Global) -> Result<Bytes, NoMemory>
        ensures { IfOk result (λ text. text ≡ listing self.now) }
    {
        list_entries(alloc, &self.entries)
    }
}
