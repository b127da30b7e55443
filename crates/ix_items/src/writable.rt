//! Whether items can be written: no text or list in them is too long for the four bytes of its
//! length, and the numbers of files and archives are such as a log has. Who makes items of what
//! callers send asks these calls first, since `write_item` takes none that cannot be written.

ghost use Rattle.std.specs.Prelude.{◌≡◌, ◌≢◌, ◌↔◌, All, IsTrue, Some};
ghost use Rattle.std.specs.List.{AllByRecursion};
ghost use Rattle.ix_coding.specs.Spelling.{IsShort as IsShortText, IsShortOption};
ghost use Rattle.ix_items.specs.Spelling.{IsKept, IsMeta, IsWritable};
ghost use Rattle.ix_items.specs.declared.items.Item.TheVariants as items;

use crate::items::{Entry, Item, Kept, KeptList};
use ix_base::{Bytes, ChannelMeta};

/// What the lengths of texts and lists in a log stay below.
const LONG: usize = 4_294_967_296;

/// Whether a text can be written: it has fewer than 4,294,967,296 bytes.
pub fn is_short(text: &Bytes) -> bool
    ensures { IsTrue result ↔ IsShortText text.now }
{
    text.len() < LONG
}

fn is_short_option(text: &Option<Bytes>) -> bool
    ensures { IsTrue result ↔ IsShortOption text.now }
{
    match text {
        Some(text) => is_short(text),
        None => true,
    }
}

/// Whether what a channel states of itself can be written: each of its texts is short.
pub fn is_short_meta(meta: &ChannelMeta) -> bool
    ensures { IsTrue result ↔ IsMeta meta.now }
{
    is_short(&meta.host)
        && is_short(&meta.source)
        && is_short_option(&meta.sourcetype)
        && is_short_option(&meta.index)
}

/// Whether a setting can be written: its file is one of the four, and its texts are short.
fn is_kept(kept: &Kept) -> bool
    ensures { IsTrue result ↔ IsKept kept.now }
{
    1 <= kept.file
        && kept.file <= 4
        && is_short(&kept.stanza)
        && is_short(&kept.key)
        && is_short(&kept.value)
}

/// Whether settings can be written, each by itself. A list of them has to be short as well.
pub fn are_kept(kept: &[Kept]) -> bool
    ensures { IsTrue result ↔ All IsKept kept.now }
{
    for one in kept {
        if !is_kept(one) {
            return false;
        }
    }
    true
}

fn are_settings(kept: &KeptList) -> bool
    ensures { IsTrue result ↔ IsWritable (items.Settings kept.now) }
{
    kept.len() < LONG && are_kept(kept.as_slice())
}

fn is_channel(name: &Bytes, meta: &ChannelMeta, carry: &Bytes) -> bool
    ensures { IsTrue result ↔ IsWritable (items.Channel name.now meta.now carry.now) }
{
    is_short(name) && is_short_meta(meta) && is_short(carry)
}

/// Whether the number of an archive is not 0.
fn is_archive(archive: Option<u64>) -> bool
    ensures { IsTrue result ↔ (archive ≢ Some 0) }
{
    match archive {
        Some(number) => number != 0,
        None => true,
    }
}

fn is_entry(entry: &Entry) -> bool
    ensures { IsTrue result ↔ IsWritable (items.Ledger entry.now) }
{
    is_short(&entry.index) && is_archive(entry.archive)
}

/// Whether an item can be written.
fn is_writable(item: &Item) -> bool
    ensures { IsTrue result ↔ IsWritable item.now }
{
    match item {
        Item::Settings { kept } => are_settings(kept),
        Item::Channel { name, meta, carry } => is_channel(name, meta, carry),
        Item::Ended { name } => is_short(name),
        Item::Bucket { index, .. } => is_short(index),
        Item::Gone { index, .. } => is_short(index),
        Item::NextId { index, .. } => is_short(index),
        Item::Ledger { entry } => is_entry(entry),
        Item::Spot { spot } => is_short(&spot.path) && is_short(&spot.head),
        Item::Removals { files } => files.len() < LONG,
        Item::Run { .. } | Item::Moments { .. } => true,
        Item::Counts { .. } | Item::NextFile { .. } => true,
    }
}

/// Whether all of these items can be written.
pub fn are_writable(list: &[Item]) -> bool
    ensures { IsTrue result ↔ All IsWritable list.now }
{
    for item in list {
        if !is_writable(item) {
            return false;
        }
    }
    true
}
