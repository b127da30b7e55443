//! What an index stores, and what was frozen of it.

ghost use Rattle.std.specs.Prelude.{◌≡◌};
ghost use Rattle.ix_report.specs.Sums as defs;

use ix_items::{Bucket, Entry, State};

/// Whether the bucket counts as stored. What was thawed is in the ledger.
fn counts(state: State) -> bool
    ensures { result ≡ defs.counts state }
{
    match state {
        State::Hot | State::Quarantine | State::Warm | State::Cold => true,
        State::Thawed => false,
    }
}

fn stored_count(bucket: &Bucket) -> u64
    ensures { result ≡ defs.stored_count bucket.now }
{
    if counts(bucket.state) {
        bucket.count
    } else {
        0
    }
}

fn stored_size(bucket: &Bucket) -> u64
    ensures { result ≡ defs.stored_size bucket.now }
{
    if counts(bucket.state) {
        bucket.bytes
    } else {
        0
    }
}

fn frozen_count(index: &[u8], entry: &Entry) -> u64
    ensures { result ≡ defs.frozen_count index.now entry.now }
{
    if entry.index.as_slice() == index {
        entry.count
    } else {
        0
    }
}

/// The events of the buckets that count.
pub fn stored_events(buckets: &[Bucket]) -> u128
    ensures { result ≡ defs.stored_events buckets.now }
{
    let mut total: u128 = 0;
    for bucket in buckets {
        total += u128::from(stored_count(bucket));
    }
    total
}

/// The bytes of the buckets that count.
pub fn stored_bytes(buckets: &[Bucket]) -> u128
    ensures { result ≡ defs.stored_bytes buckets.now }
{
    let mut total: u128 = 0;
    for bucket in buckets {
        total += u128::from(stored_size(bucket));
    }
    total
}

/// The events of this index that the ledger has as frozen.
pub fn frozen_events(index: &[u8], ledger: &[Entry]) -> u128
    ensures { result ≡ defs.frozen_events index.now ledger.now }
{
    let mut total: u128 = 0;
    for entry in ledger {
        total += u128::from(frozen_count(index, entry));
    }
    total
}
