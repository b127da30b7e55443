//! What stands once in a state, as items: the settings, the moments, the counts and the number of
//! the next file.

ghost use Rattle.std.specs.Prelude.{◌≡◌, ◌++◌, ◌∷◌, [], OnOk};
ghost use Rattle.std.specs.List.{AllByRecursion};
ghost use Rattle.ix_items.specs.Spelling.{IsInRange};
ghost use Rattle.ix_items.specs.declared.items.Item.TheVariants as items;
ghost use Rattle.ix_recovery.specs.Putting.{setting_items, count_items};

use ix_base::{NoMemory, Sequence};
use ix_items::{Item, copy_settings};
use ix_state::StoreState;
use std::alloc::Global;

fn moments(last: i64, tick: i64) -> Item
    ensures value { result ≡ items.Moments last tick }
    ensures ranged { IsInRange result }
{
    Item::Moments { last, tick }
}

fn counts(settled: u64, nulled: u64, dropped: u64, placed: u64) -> Item
    ensures value { result ≡ items.Counts settled nulled dropped placed }
    ensures ranged { IsInRange result }
{
    Item::Counts {
        settled,
        nulled,
        dropped,
        placed,
    }
}

fn next_file(number: u64) -> Item
    ensures value { result ≡ items.NextFile number }
    ensures ranged { IsInRange result }
{
    Item::NextFile { number }
}

/// Puts the settings in force.
pub(crate) fn put_settings(
    alloc: Global,
    held: &StoreState,
    said: &mut Sequence<Item>,
) -> Result<(), NoMemory>
    ensures put { OnOk result (said.new ≡ said.old ++ setting_items held.now) }
    ensures ranged { OnOk result (AllByRecursion IsInRange (setting_items held.now)) }
{
    let kept = copy_settings(alloc, held.config.kept.as_slice())?;
    said.push(Item::Settings { kept })?;
    Ok(())
}

/// Puts the moments, the counts and the number of the next file.
pub(crate) fn put_counts(held: &StoreState, said: &mut Sequence<Item>) -> Result<(), NoMemory>
    ensures put { OnOk result (said.new ≡ said.old ++ count_items held.now) }
    ensures ranged { OnOk result (AllByRecursion IsInRange (count_items held.now)) }
{
    said.push(moments(held.last, held.tick))?;
    let view = &held.view;
    said.push(counts(view.settled, view.nulled, view.dropped, held.placed))?;
    said.push(next_file(held.next_file))?;
    Ok(())
}
