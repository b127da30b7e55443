//! What a change of settings makes of the indexes that are seen. The store calls it for the command
//! Configure.

ghost use Rattle.std.specs.Prelude.{◌≡◌, ◌++◌, ◌∷◌, [], List, IfOk, OnOk};
ghost use Rattle.std.specs.List.{AllByRecursion, list_any};
ghost use Rattle.std.specs.List.Sorted.{IsPermutation};
ghost use Rattle.ix_items.specs.declared.items.Kept.{Kept};
ghost use Rattle.ix_model.specs.Given.{Chooser};
ghost use Rattle.ix_model.specs.Step.{state_after};
ghost use Rattle.ix_model.specs.declared.commands.TimedCommand.{TimedCommand};
ghost use Rattle.ix_catalog.specs.Measures.{has_number};
ghost use Rattle.ix_catalog.specs.Shelves.{is_of};
ghost use Rattle.ix_model.specs.Shelved.{shelved_indexes};
ghost use Rattle.ix_bounds.specs.Names.{BringsLimits};
ghost use Rattle.ix_bounds.specs.Shelving as defs;
ghost use Rattle.ix_bounds.specs.Shelving.{AreSettings};

use crate::shelving::{Bucketed, view_indexes};
use ix_base::{Bytes, NoMemory};
use ix_catalog::IndexTable;
use ix_items::Entry;
use ix_life::{IndexView, IndexViewList, LimitSet, copy_buckets};
use std::alloc::Global;

/// Whether the ledger has an entry of an index.
fn has_entry(index: &Bytes, ledger: &[Entry]) -> bool
    ensures { result ≡ list_any (is_of index.now) ledger.now }
{
    ledger
        .iter()
        .any(|entry| entry.index.as_slice() == index.as_slice())
}

/// Whether an index ever had a bucket. It goes over the ledger only where there is none now.
fn has_number(ledger: &[Entry], view: &IndexView) -> bool
    ensures { result ≡ has_number ledger.now view.now }
{
    !view.buckets.is_empty() || has_entry(&view.name, ledger)
}

fn bucketed_of(alloc: Global, view: &IndexView) -> Result<Bucketed, NoMemory>
    ensures { IfOk result (λ index. index ≡ defs.bucketed_of view.now) }
{
    Ok(Bucketed {
        name: view.name.copy()?,
        buckets: copy_buckets(alloc, view.buckets.as_slice())?,
    })
}

/// Adds an index to those that ever had a bucket, where it had one.
fn add_bucketed(
    alloc: Global,
    ledger: &[Entry],
    view: &IndexView,
    found: &mut Vec<Bucketed>,
) -> Result<(), NoMemory>
    ensures { OnOk result (found.new.items ≡ found.old.items ++ defs.bucketed ledger.now (view.now ∷ [])) }
{
    if has_number(ledger, view) {
        found.push(bucketed_of(alloc, view)?)?;
    }
    Ok(())
}

/// The indexes that ever had a bucket.
fn bucketed(alloc: Global, ledger: &[Entry], list: &[IndexView]) -> Result<Vec<Bucketed>, NoMemory>
    ensures { IfOk result (λ found. found.items ≡ defs.bucketed ledger.now list.now) }
{
    let mut found = Vec::new(alloc);
    for view in list {
        add_bucketed(alloc, ledger, view, &mut found)?;
    }
    Ok(found)
}

/// The indexes that are seen once other settings are in force. Those that are neither configured by
/// them nor ever had a bucket are gone.
pub fn view_indexes_anew(
    alloc: Global,
    set: &LimitSet,
    old: &IndexTable,
    ledger: &[Entry],
) -> Result<IndexViewList, NoMemory>
    ensures { IfOk result (λ list.
        (choose : Chooser) (history : List TimedCommand) (force next : List Kept) → AllByRecursion BringsLimits history →
        AreSettings next set.now →
        old.now.indexes ≡ shelved_indexes force (state_after choose history).catalog.indexes →
        IsPermutation ledger.now (state_after choose history).catalog.ledger →
        list ≡ shelved_indexes next (state_after choose history).catalog.indexes) }
{
    view_indexes(alloc, set, bucketed(alloc, ledger, old.indexes.as_slice())?)
}
