//! The listing of what a store holds.

ghost use Rattle.std.specs.Prelude.{◌≡◌, ◌++◌, OnOk, IfOk};
ghost use Rattle.std.specs.List.{flat_map};
ghost use Rattle.ix_report.specs.Listing as defs;

use crate::rows::{add_bucket_row, add_counts_row, add_frozen_row, add_index_row};
use ix_base::{Bytes, NoMemory};
use ix_items::{Bucket, Entry};
use ix_life::{IndexView, View};
use std::alloc::Global;

fn add_buckets(text: &mut Bytes, index: &[u8], buckets: &[Bucket]) -> Result<(), NoMemory>
    ensures { OnOk result (text.new ≡ text.old ++ flat_map (defs.bucket_row index.now) buckets.now) }
{
    for bucket in buckets {
        add_bucket_row(text, index, bucket)?;
    }
    Ok(())
}

/// An index with its buckets.
fn add_index(text: &mut Bytes, ledger: &[Entry], index: &IndexView) -> Result<(), NoMemory>
    ensures { OnOk result (text.new ≡ text.old ++ defs.index_rows ledger.now index.now) }
{
    add_index_row(text, index, ledger)?;
    add_buckets(text, index.name.as_slice(), index.buckets.as_slice())
}

fn add_indexes(text: &mut Bytes, ledger: &[Entry], indexes: &[IndexView]) -> Result<(), NoMemory>
    ensures { OnOk result (text.new ≡ text.old ++ flat_map (defs.index_rows ledger.now) indexes.now) }
{
    for index in indexes {
        add_index(text, ledger, index)?;
    }
    Ok(())
}

fn add_ledger(text: &mut Bytes, ledger: &[Entry]) -> Result<(), NoMemory>
    ensures { OnOk result (text.new ≡ text.old ++ flat_map defs.frozen_row ledger.now) }
{
    for entry in ledger {
        add_frozen_row(text, entry)?;
    }
    Ok(())
}

/// The listing of what a store holds, in the orders of the view. Numbers are decimal, and times are
/// whole seconds since 1970, rounded down also before it.
///
/// For each index a line `index NAME stored EVENTS bytes BYTES frozen EVENTS`, and behind it for
/// each of its buckets a line `bucket INDEX NAME STATE EVENTS BYTES`. What is stored are the hot,
/// quarantine, warm and cold buckets; what is frozen is summed over the ledger, and a thawed bucket
/// is part of that. Behind all indexes, for each entry of the ledger, a line `frozen INDEX NAME
/// RULE MOMENT EVENTS archived`, or `deleted` at its end. The last line is `events settled N nulled
/// N dropped N`.
///
/// A hot bucket's name is `hot_v1_ID`, a quarantine bucket's `hot_quar_v1_ID`, and that of any
/// other, also of a frozen one, `db_NEWEST_OLDEST_ID`.
pub fn listing(alloc: Global, view: &View) -> Result<Bytes, NoMemory>
    ensures { IfOk result (λ text. text ≡ defs.listing view.now) }
{
    let mut text = Bytes::new(alloc);
    let ledger = view.ledger.as_slice();
    add_indexes(&mut text, ledger, view.indexes.as_slice())?;
    add_ledger(&mut text, ledger)?;
    add_counts_row(&mut text, view)?;
    Ok(text)
}
