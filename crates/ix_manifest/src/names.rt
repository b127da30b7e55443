//! The names that items stand under. The staged items are compared by them, and so is the list of
//! what a mount has replayed.

ghost use Rattle.std.specs.Prelude.{◌≡◌, []};
ghost use Rattle.ix_manifest.specs.Book.{name_of, named, is_same};

use ix_items::Item;

pub(crate) fn kind(item: &Item) -> u8
    ensures { result ≡ (name_of item.now).kind }
{
    match item {
        Item::Settings { .. } => 1,
        Item::Run { .. } => 2,
        Item::Moments { .. } => 3,
        Item::Channel { .. } | Item::Ended { .. } => 4,
        Item::Bucket { .. } | Item::Gone { .. } => 6,
        Item::Ledger { .. } => 8,
        Item::Counts { .. } => 9,
        Item::Spot { .. } => 10,
        Item::NextFile { .. } => 11,
        Item::Removals { .. } => 12,
        Item::NextId { .. } => 13,
    }
}

pub(crate) fn text(item: &Item) -> &[u8]
    ensures { result.now ≡ (name_of item.now).text }
{
    match item {
        Item::Channel { name, .. } => name.as_slice(),
        Item::Ended { name } => name.as_slice(),
        Item::Bucket { index, .. } => index.as_slice(),
        Item::Gone { index, .. } => index.as_slice(),
        Item::Ledger { entry } => entry.index.as_slice(),
        Item::Spot { spot } => spot.path.as_slice(),
        Item::NextId { index, .. } => index.as_slice(),
        Item::Settings { .. }
        | Item::Run { .. }
        | Item::Moments { .. }
        | Item::Counts { .. }
        | Item::NextFile { .. }
        | Item::Removals { .. } => &[],
    }
}

pub(crate) fn number(item: &Item) -> u64
    ensures { result ≡ (name_of item.now).number }
{
    match item {
        Item::Bucket { bucket, .. } => bucket.id,
        Item::Gone { id, .. } => *id,
        Item::Ledger { entry } => entry.id,
        Item::Settings { .. }
        | Item::Run { .. }
        | Item::Moments { .. }
        | Item::Channel { .. }
        | Item::Ended { .. }
        | Item::Counts { .. }
        | Item::Spot { .. }
        | Item::NextFile { .. }
        | Item::Removals { .. }
        | Item::NextId { .. } => 0,
    }
}

/// Whether the two items stand under one name, so that the later one replaces the other. The
/// numbers are compared first, since they tell most names apart.
pub fn same_name(a: &Item, b: &Item) -> bool
    ensures { result ≡ is_same (name_of a.now) (name_of b.now) }
{
    number(a) == number(b) && kind(a) == kind(b) && text(a) == text(b)
}

/// Whether the item stands under a kind alone, as one does of which a state has one: the settings,
/// the run, the moments, the counts, the number of the next file and the removals.
pub fn is_only(item: &Item, of: u8) -> bool
    ensures { result ≡ is_same (name_of item.now) (named of [] 0) }
{
    kind(item) == of && text(item).is_empty() && number(item) == 0
}
