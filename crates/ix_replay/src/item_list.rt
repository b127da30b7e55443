//! The state that a log leads to, as the list of its items. Mounting a store replays its log into
//! one.

ghost use Rattle.std.specs.Prelude.{◌≡◌};
ghost use Rattle.ix_manifest.specs.Book.{empty, replay};
ghost use Rattle.ix_replay.specs.Lists.{Lists};

use crate::judging::keeps_bounds;
use crate::listing::{Places, put};
use crate::standing::{are_settled, removals, run_of};
use crate::tally::Tally;
use ix_base::{File, NoMemory};
use ix_items::Item;
use ix_manifest::ManifestState;
use std::alloc::Global;
use std::collections::BTreeMap;
use std::marker::Model;
use std::mem;

/// The items that stand after a log, one a name. Contracts see it as their list.
#[derive(Drop)]
pub struct ItemList {
    items: Vec<Item>,
    /// Where they are looked for.
    places: Places,
    /// What is known of all of them, as long as it is.
    tally: Option<Tally>,
}

impl Model for ItemList {
    ghost use Rattle.std.specs.Prelude.{List, IfSome};
    ghost use Rattle.ix_items.specs.declared.items.Item.{Item};
    ghost use Rattle.ix_replay.specs.Covering.{Covers};
    ghost use Rattle.ix_replay.specs.Known.{AreKnown};
    ghost use Rattle.ix_replay.specs.Lists.{AreListed};

    ghost Value = { List Item };

    ghost view = { λ r. r.items.items };

    ghost invariant = { λ r. AreListed r.items.items × AreKnown r.places r.items.items × IfSome r.tally (λ t. Covers t r.items.items) };
}

impl ItemList {
    /// What stands before a first body: nothing. It takes no memory.
    pub fn new(alloc: Global) -> ItemList
        ensures { replay result empty ≡ empty }
    {
        ItemList {
            items: Vec::new(alloc),
            places: BTreeMap::new(alloc),
            tally: Some(Tally::none(alloc)),
        }
    }

    /// The items that stand, each once. It takes no memory.
    pub fn into_items(self) -> Vec<Item>
        ensures same { result.items ≡ self }
        ensures lists { Lists result.items (replay self empty) }
    {
        self.items
    }
}

impl ManifestState for ItemList {
    ghost use Rattle.ix_manifest.specs.Book.{empty, replay};
    ghost use Rattle.ix_replay.specs.Fits.{fits};

    ghost stands = { λ items. replay items empty };

    ghost fits = { fits };

    fn apply(&mut self, item: Item) -> Result<(), NoMemory> {
        let tally = mem::replace(&mut self.tally, None);
        self.tally = put(&mut self.items, &mut self.places, tally, item)?;
        Ok(())
    }

    fn judge(&mut self) -> Result<bool, NoMemory> {
        let alloc = *self.items.allocator();
        let keeps = keeps_bounds(alloc, self.items.as_slice(), &self.places, &self.tally)?;
        Ok(keeps)
    }

    fn run(&self) -> u64 {
        run_of(self.items.as_slice(), &self.places)
    }

    fn has_settings(&self) -> bool {
        are_settled(self.items.as_slice(), &self.places)
    }

    fn removals(&self) -> &[File] {
        removals(self.items.as_slice(), &self.places)
    }
}
