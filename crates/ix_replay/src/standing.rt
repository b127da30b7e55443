//! The items that stand once: the run, the settings, the next file number and the last removals.

ghost use Rattle.std.specs.Prelude.{◌≡◌, [], Some, IfSome, option_copied};
ghost use Rattle.ix_manifest.specs.Book.{empty, replay, named, run_in, removals_in, has_settings};
ghost use Rattle.ix_manifest.specs.Keys.{key};
ghost use Rattle.ix_replay.specs.Amounts.{next_in};
ghost use Rattle.ix_replay.specs.Known.{AreKnown};
ghost use Rattle.ix_replay.specs.Lists.{AreListed};

use crate::listing::Places;
use ix_base::File;
use ix_items::Item;
use ix_manifest::is_only;

/// The item of a kind of which one stands, by going over all.
fn walk_for(items: &[Item], kind: u8) -> Option<&Item>
    requires { AreListed items.now }
    ensures { option_copied result ≡ replay items.now empty (named kind [] 0) }
{
    for item in items {
        if is_only(item, kind) {
            return Some(item);
        }
    }
    None
}

/// The item at a place, where it is the one of a kind of which one stands.
fn at_place(items: &[Item], at: usize, kind: u8) -> Option<&Item>
    requires { AreListed items.now }
    ensures { IfSome result (λ item. replay items.now empty (named kind [] 0) ≡ Some item.now) }
{
    if at >= items.len() {
        return None;
    }
    let item = &items[at];
    if is_only(item, kind) {
        Some(item)
    } else {
        None
    }
}

/// The number of the name under which the item of such a kind stands.
fn only_key(kind: u8) -> u64
    ensures { result ≡ key (named kind [] 0) }
{
    u64::from(kind) * (1 << 32)
}

/// The item of a kind of which one stands. It is looked for where the number of its name tells, and
/// the list is gone through only where another item stands there.
fn standing<'a>(items: &'a [Item], places: &Places, kind: u8) -> Option<&'a Item>
    requires listed { AreListed items.now }
    requires known { AreKnown places.now items.now }
    ensures { option_copied result ≡ replay items.now empty (named kind [] 0) }
{
    match places.get(&only_key(kind)) {
        Some(at) => match at_place(items, *at, kind) {
            Some(item) => Some(item),
            None => walk_for(items, kind),
        },
        None => None,
    }
}

/// The run that was begun last, 0 where there was none.
pub fn run_of(items: &[Item], places: &Places) -> u64
    requires listed { AreListed items.now }
    requires known { AreKnown places.now items.now }
    ensures { result ≡ run_in (replay items.now empty) }
{
    match standing(items, places, 2) {
        Some(Item::Run { run }) => *run,
        _ => 0,
    }
}

/// Whether settings stand.
pub fn are_settled(items: &[Item], places: &Places) -> bool
    requires listed { AreListed items.now }
    requires known { AreKnown places.now items.now }
    ensures { result ≡ has_settings (replay items.now empty) }
{
    standing(items, places, 1).is_some()
}

/// The number of the next file, 1 where none stands.
pub fn next_file(items: &[Item], places: &Places) -> u64
    requires listed { AreListed items.now }
    requires known { AreKnown places.now items.now }
    ensures { result ≡ next_in (replay items.now empty) }
{
    match standing(items, places, 11) {
        Some(Item::NextFile { number }) => *number,
        _ => 1,
    }
}

/// The files that the last removals name.
pub fn removals<'a>(items: &'a [Item], places: &Places) -> &'a [File]
    requires listed { AreListed items.now }
    requires known { AreKnown places.now items.now }
    ensures { result.now ≡ removals_in (replay items.now empty) }
{
    match standing(items, places, 12) {
        Some(Item::Removals { files }) => files.as_slice(),
        _ => &[],
    }
}
