//! What a command leaves in memory, worked out and not yet taken. The state machine takes it once
//! the command is staged.

ghost use Rattle.std.specs.Prelude.{◌≡◌};
ghost use Rattle.ix_channels.specs.Changes.{changed, HasRoom as HasChannelRoom};
ghost use Rattle.ix_state.specs.Held.{ledger_of, shelves_of};
ghost use Rattle.ix_apply.specs.Next.{HasRoom, IsInstalled};
ghost use Rattle.ix_apply.specs.Settings.{config_after};
ghost use Rattle.ix_apply.specs.Spots.{placed};

use crate::spots::SpotChange;
use ix_catalog::IndexTable;
use ix_channels::ChannelChange;
use ix_items::Entry;
use ix_life::EntryList;
use ix_model::Config;
use ix_state::{CatalogState, StoreState};
use std::mem;

/// What a command leaves in memory.
#[derive(Drop)]
pub struct Next {
    /// Other settings, where it brings them.
    pub config: Option<Config>,
    /// How the open channels change.
    pub channels: ChannelChange,
    /// How the spots change.
    pub spot: SpotChange,
    /// What it leaves beside channels, spots and settings.
    pub storage: CatalogState,
}

/// Other settings, or those that are there.
fn take_config(config: &mut Config, next: Option<Config>)
    ensures { config.new ≡ config_after config.old next }
{
    if let Some(next) = next {
        drop(mem::replace(config, next));
    }
}

/// Another ledger, or the one that is there.
fn take_ledger(ledger: &mut EntryList, next: Option<EntryList>)
    ensures { ledger.new ≡ ledger_of ledger.old next }
{
    if let Some(next) = next {
        *ledger = next;
    }
}

/// Indexes and counts.
fn take_shelves(held: &mut StoreState, shelves: IndexTable)
    ensures shelves { shelves_of held.new ≡ shelves }
    ensures config { held.new.config ≡ held.old.config }
    ensures channels { held.new.channels ≡ held.old.channels }
    ensures spots { held.new.spots ≡ held.old.spots }
    ensures ledger { held.new.view.ledger ≡ held.old.view.ledger }
    ensures last { held.new.last ≡ held.old.last }
    ensures tick { held.new.tick ≡ held.old.tick }
{
    held.view.indexes = shelves.indexes;
    held.view.settled = shelves.settled;
    held.view.nulled = shelves.nulled;
    held.view.dropped = shelves.dropped;
    held.placed = shelves.placed;
    held.next_file = shelves.next_file;
}

impl Next {
    /// Takes it.
    pub fn install(self, held: &mut StoreState)
        requires { HasRoom held.old self }
        ensures { IsInstalled held.old self held.new }
    {
        let Next {
            config,
            channels,
            spot,
            storage,
        } = self;
        channels.install(&mut held.channels);
        spot.install(&mut held.spots);
        take_config(&mut held.config, config);
        take_shelves(held, storage.shelves);
        take_ledger(&mut held.view.ledger, storage.ledger);
        held.last = storage.last;
        held.tick = storage.tick;
    }
}
