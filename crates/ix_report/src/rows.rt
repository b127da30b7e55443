//! The rows of the listing.

ghost use Rattle.std.specs.Prelude.{◌≡◌, ◌++◌, ◌∷◌, [], decimal, OnOk, codes};
ghost use Rattle.ix_report.specs.Listing as defs;
ghost use Rattle.ix_report.specs.Sums.{stored_events, stored_bytes, frozen_events};

use crate::names::{
    add_bucket_name, add_closed_name, add_number, add_numbered, add_seconds, add_sum, fate_text,
    rule_text, state_text,
};
use crate::sums::{frozen_events, stored_bytes, stored_events};
use ix_base::{Bytes, NoMemory};
use ix_items::{Bucket, Entry};
use ix_life::{IndexView, View};

/// The row of an index.
pub fn add_index_row(text: &mut Bytes, index: &IndexView, ledger: &[Entry]) -> Result<(), NoMemory>
    ensures { OnOk result (text.new ≡ text.old ++
        defs.index_row index.now.name (stored_events index.now.buckets) (stored_bytes index.now.buckets)
        (frozen_events index.now.name ledger.now)) }
{
    let name = index.name.as_slice();
    let buckets = index.buckets.as_slice();
    text.extend(b"index ")?;
    text.extend(name)?;
    text.extend(b" stored ")?;
    add_sum(text, stored_events(buckets))?;
    text.extend(b" bytes ")?;
    add_sum(text, stored_bytes(buckets))?;
    text.extend(b" frozen ")?;
    add_sum(text, frozen_events(name, ledger))?;
    text.extend(b"\n")
}

/// The row of a bucket.
pub fn add_bucket_row(text: &mut Bytes, index: &[u8], bucket: &Bucket) -> Result<(), NoMemory>
    ensures { OnOk result (text.new ≡ text.old ++ defs.bucket_row index.now bucket.now) }
{
    text.extend(b"bucket ")?;
    text.extend(index)?;
    text.extend(b" ")?;
    add_bucket_name(text, bucket)?;
    text.extend(b" ")?;
    text.extend(state_text(bucket.state))?;
    text.extend(b" ")?;
    add_number(text, bucket.count)?;
    text.extend(b" ")?;
    add_number(text, bucket.bytes)?;
    text.extend(b"\n")
}

/// What was frozen.
fn add_frozen_name(text: &mut Bytes, entry: &Entry) -> Result<(), NoMemory>
    ensures { OnOk result (text.new ≡ text.old ++ defs.frozen_name entry.now) }
{
    text.extend(b"frozen ")?;
    text.extend(entry.index.as_slice())?;
    text.extend(b" ")?;
    add_closed_name(text, entry.newest, entry.oldest, entry.id)
}

/// By which rule, and when.
fn add_cause(text: &mut Bytes, entry: &Entry) -> Result<(), NoMemory>
    ensures { OnOk result (text.new ≡ text.old ++ defs.cause entry.now) }
{
    text.extend(b" ")?;
    text.extend(rule_text(entry.rule))?;
    text.extend(b" ")?;
    add_seconds(text, entry.moment)
}

/// How many events that were, and what became of them.
fn add_fate(text: &mut Bytes, entry: &Entry) -> Result<(), NoMemory>
    ensures { OnOk result (text.new ≡ text.old ++ defs.fate entry.now) }
{
    add_numbered(text, b" ", entry.count)?;
    text.extend(b" ")?;
    text.extend(fate_text(entry.archive))?;
    text.extend(b"\n")
}

/// The row of an entry of the ledger.
pub fn add_frozen_row(text: &mut Bytes, entry: &Entry) -> Result<(), NoMemory>
    ensures { OnOk result (text.new ≡ text.old ++ defs.frozen_row entry.now) }
{
    add_frozen_name(text, entry)?;
    add_cause(text, entry)?;
    add_fate(text, entry)
}

/// The row of the counts of events.
pub fn add_counts_row(text: &mut Bytes, view: &View) -> Result<(), NoMemory>
    ensures { OnOk result (text.new ≡ text.old ++ defs.counts_row view.now) }
{
    add_numbered(text, b"events settled ", view.settled)?;
    add_numbered(text, b" nulled ", view.nulled)?;
    add_numbered(text, b" dropped ", view.dropped)?;
    text.extend(b"\n")
}
