//! What stands in memory of indexes and counts, copied for a command to be worked out from.

ghost use Rattle.std.specs.Prelude.{◌≡◌, None, IfOk};
ghost use Rattle.ix_state.specs.Held.{shelves_of};

use ix_base::NoMemory;
use ix_catalog::IndexTable;
use ix_life::copy_indexes;
use ix_state::{CatalogState, StoreState};
use std::alloc::Global;

fn copy_shelves(alloc: Global, held: &StoreState) -> Result<IndexTable, NoMemory>
    ensures { IfOk result (λ shelves. shelves ≡ shelves_of held.now) }
{
    Ok(IndexTable {
        indexes: copy_indexes(alloc, held.view.indexes.as_slice())?,
        settled: held.view.settled,
        nulled: held.view.nulled,
        dropped: held.view.dropped,
        placed: held.placed,
        next_file: held.next_file,
    })
}

/// What a state has beside its channels, spots and settings, with the ledger as it is.
pub(crate) fn storage_of(alloc: Global, held: &StoreState) -> Result<CatalogState, NoMemory>
    ensures shelves { IfOk result (λ storage. storage.shelves ≡ shelves_of held.now) }
    ensures ledger { IfOk result (λ storage. storage.ledger ≡ None) }
    ensures last { IfOk result (λ storage. storage.last ≡ held.now.last) }
    ensures tick { IfOk result (λ storage. storage.tick ≡ held.now.tick) }
{
    Ok(CatalogState {
        shelves: copy_shelves(alloc, held)?,
        ledger: None,
        last: held.last,
        tick: held.tick,
    })
}
