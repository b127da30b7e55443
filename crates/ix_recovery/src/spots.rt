//! Spots of watched files as items.

ghost use Rattle.std.specs.Prelude.{◌≡◌, ◌++◌, IfOk, OnOk};
ghost use Rattle.std.specs.List.{AllByRecursion, flat_map};
ghost use Rattle.ix_items.specs.Spelling.{IsInRange};
ghost use Rattle.ix_items.specs.declared.items.Item.TheVariants as items;
ghost use Rattle.ix_recovery.specs.Putting.{spot_item};

use ix_base::{NoMemory, Sequence, Spot};
use ix_items::Item;

fn copied(spot: &Spot) -> Result<Spot, NoMemory>
    ensures { IfOk result (λ copy. copy ≡ spot.now) }
{
    Ok(Spot {
        path: spot.path.copy()?,
        head: spot.head.copy()?,
        offset: spot.offset,
    })
}

fn standing(spot: Spot) -> Item
    ensures value { result ≡ items.Spot spot }
    ensures ranged { IsInRange result }
{
    Item::Spot { spot }
}

/// Puts the spots.
pub(crate) fn put_spots(spots: &[Spot], said: &mut Sequence<Item>) -> Result<(), NoMemory>
    ensures put { OnOk result (said.new ≡ said.old ++ flat_map spot_item spots.now) }
    ensures ranged { OnOk result (AllByRecursion IsInRange (flat_map spot_item spots.now)) }
{
    for spot in spots {
        said.push(standing(copied(spot)?))?;
    }
    Ok(())
}
