//! The ledger in the order in which it is seen. A mount brings the entries that it read into this
//! order, and a Tick those that it adds.

ghost use Rattle.std.specs.Prelude.{◌≡◌, IfOk};
ghost use Rattle.ix_model.specs.Ranked as defs;

use ix_base::{NoMemory, Sequence};
use ix_items::{Entry, Rule};
use ix_life::EntryList;
use std::cmp::Ordering;

/// The place of a rule in a turn of housekeeping.
fn rule_place(rule: Rule) -> u8
    ensures { result ≡ defs.rule_place rule }
{
    match rule {
        Rule::Age => 1,
        Rule::Cold => 2,
        Rule::Total => 3,
    }
}

/// How two entries stand: by the moment, the index, the rule, the newest time and the number of the
/// bucket.
fn compare(a: &Entry, b: &Entry) -> Ordering
    ensures { result ≡ defs.entry_cmp a.now b.now }
{
    a.moment
        .cmp(&b.moment)
        .then(a.index.as_slice().cmp(b.index.as_slice()))
        .then(rule_place(a.rule).cmp(&rule_place(b.rule)))
        .then(a.newest.cmp(&b.newest))
        .then(a.id.cmp(&b.id))
}

/// The entries of a ledger in the order in which they are seen.
pub fn ranked(entries: EntryList) -> Result<EntryList, NoMemory>
    ensures { IfOk result (λ list. list ≡ defs.ranked entries) }
{
    let mut items = entries.into_vec();
    items.sort_by(|a, b| compare(a, b))?;
    Ok(Sequence::from_vec(items))
}
