//! Which names may stand twice among staged items, by the numbers of names. `drop_older` asks where
//! many items are new.

ghost use Rattle.std.specs.Prelude.{◌≡◌, ◌≤◌, ◌∷◌, ◌++◌, List, [], true, IfOk, OnOk};
ghost use Rattle.ix_manifest.specs.Keys.{key_in};
ghost use Rattle.ix_manifest.specs.Repeats.{under, Tells};
ghost use Rattle.ix_manifest.specs.declared.staged_item.StagedItem.{StagedItem};

use crate::keys::key_of;
use crate::staged_item::StagedItem;
use ix_base::NoMemory;
use ix_items::Item;
use std::alloc::Global;
use std::collections::BTreeMap;

/// Numbers of names, and whether a second name has that number. Items may be taken away while it is
/// asked.
pub(crate) type Repeats = BTreeMap<u64, bool>;

fn note(seen: &mut Repeats, slot: &StagedItem) -> Result<(), NoMemory>
    ensures { OnOk result ((before : List StagedItem) → Tells seen.old before → Tells seen.new (before ++ slot.now ∷ [])) }
{
    let number = key_of(&slot.item);
    let again = seen.contains_key(&number);
    seen.insert(number, again)?;
    Ok(())
}

/// The numbers of the names of these items.
pub(crate) fn repeats_of(alloc: Global, slots: &[StagedItem]) -> Result<Repeats, NoMemory>
    ensures { IfOk result (λ seen. Tells seen slots.now) }
{
    let mut seen = BTreeMap::new(alloc);
    for slot in slots {
        note(&mut seen, slot)?;
    }
    Ok(seen)
}

/// Whether no second item has the number of this one's name.
pub(crate) fn is_single(seen: &Repeats, item: &Item) -> bool
    ensures { result ≡ true → (slots : List StagedItem) → Tells seen.now slots → under (key_in item.now) slots ≤ 1 }
{
    match seen.get(&key_of(item)) {
        Some(again) => !*again,
        None => true,
    }
}
