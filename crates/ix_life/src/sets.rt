//! The limits of all indexes.

ghost use Rattle.std.specs.Prelude.{◌≡◌, ◌++◌, ◌∷◌, [], None, IfErr, IfOk, OnOk, unwrap_or, codes};
ghost use Rattle.std.specs.Option.{option_copied};
ghost use Rattle.std.specs.List.{flat_map};
ghost use Rattle.ix_conf.specs.Lent.{item_entry};
ghost use Rattle.ix_conf_values.specs.Values.{value_of};
ghost use Rattle.ix_life.specs.Limits as defs;
ghost use Rattle.ix_life.specs.Listed.{listed_at, main_of, listed, named};
ghost use Rattle.ix_life.specs.Retired.{HaveRetiredLimits};

use crate::faults::{LimitFault, judge};
use crate::kinds::{Kind, is_text, read};
use crate::limits::Limits;
use crate::stanzas::{DEFAULT, MAIN, is_index_stanza};
use ix_base::{Bytes, NoMemory, Sequence};
use ix_conf::{Item, Merged};
use ix_conf_values::value_of;
use std::alloc::Global;

/// The limits of one index.
#[derive(Drop)]
pub struct IndexLimits {
    pub name: Bytes,
    pub limits: Limits,
}

/// Limits of indexes.
pub type IndexLimitsList = Sequence<IndexLimits>;

/// The limits of all indexes that are configured, and what `default` says for the whole store.
pub struct LimitSet {
    /// `defaultDatabase`: the index of events for which no other is stated.
    pub default_database: Bytes,
    /// `lastChanceIndex`: the index of events whose own is not configured.
    pub last_chance: Option<Bytes>,
    /// `rotatePeriodInSecs`: the seconds between two turns of housekeeping.
    pub rotate_secs: u64,
    indexes: IndexLimitsList,
    retired: Limits,
}

/// It is written out, so that each place where one is let go is a call of it, which is proved once.
impl Drop for LimitSet {
    fn drop(self) {
        let LimitSet {
            default_database: _,
            last_chance: _,
            rotate_secs: _,
            indexes: _,
            retired: _,
        } = self;
    }
}

/// Where an event of an index goes.
#[derive(Clone, Copy, Debug, PartialEq, Eq)]
pub enum Route {
    /// Into that index, which is configured.
    Given,
    /// Into the `lastChanceIndex`.
    LastChance,
    /// Nowhere: it is dropped.
    Nowhere,
}

/// The number of a key in this stanza, else in `default`, else the built-in one.
fn number(indexes: &Merged, stanza: &[u8], key: &[u8], kind: Kind, builtin: u64) -> u64
    ensures { result ≡ defs.number indexes.now stanza.now key.now kind builtin }
{
    match value_of(indexes, stanza, key) {
        Some(text) => read(kind, text).unwrap_or(builtin),
        None => builtin,
    }
}

/// The limits of an index.
fn limits_of(indexes: &Merged, index: &[u8]) -> Limits
    ensures { result ≡ defs.limits indexes.now index.now }
{
    Limits {
        max_data_mb: number(indexes, index, b"maxDataSize", Kind::Size, 750),
        max_hot_buckets: number(indexes, index, b"maxHotBuckets", Kind::HotBuckets, 3),
        max_hot_span_secs: number(indexes, index, b"maxHotSpanSecs", Kind::Span, 7_776_000),
        max_hot_idle_secs: number(indexes, index, b"maxHotIdleSecs", Kind::FromZero, 0),
        max_warm_count: number(indexes, index, b"maxWarmDBCount", Kind::FromZero, 300),
        frozen_secs: number(
            indexes,
            index,
            b"frozenTimePeriodInSecs",
            Kind::FromOne,
            188_697_600,
        ),
        max_total_mb: number(
            indexes,
            index,
            b"maxTotalDataSizeMB",
            Kind::FromOne,
            500_000,
        ),
        home_max_mb: number(indexes, index, b"homePath.maxDataSizeMB", Kind::FromZero, 0),
        cold_max_mb: number(indexes, index, b"coldPath.maxDataSizeMB", Kind::FromZero, 0),
        quarantine_past_secs: number(
            indexes,
            index,
            b"quarantinePastSecs",
            Kind::FromZero,
            77_760_000,
        ),
        quarantine_future_secs: number(
            indexes,
            index,
            b"quarantineFutureSecs",
            Kind::FromZero,
            2_592_000,
        ),
        archive: value_of(indexes, index, b"coldToFrozenDir").is_some(),
    }
}

fn named(alloc: Global, indexes: &Merged, index: &[u8]) -> Result<IndexLimits, NoMemory>
    ensures { IfOk result (λ limits. limits ≡ named indexes.now index.now) }
{
    Ok(IndexLimits {
        name: Bytes::copy_of(alloc, index)?,
        limits: limits_of(indexes, index),
    })
}

/// Adds an index.
fn add_named(
    alloc: Global,
    indexes: &Merged,
    index: &[u8],
    list: &mut IndexLimitsList,
) -> Result<(), NoMemory>
    ensures { OnOk result (list.new ≡ list.old ++ named indexes.now index.now ∷ []) }
{
    list.push(named(alloc, indexes, index)?)
}

/// Adds the index of an entry, where it is the own entry of one.
fn add_item(
    alloc: Global,
    indexes: &Merged,
    item: &Item<'_>,
    list: &mut IndexLimitsList,
) -> Result<(), NoMemory>
    ensures { OnOk result (list.new ≡ list.old ++ listed_at indexes.now (item_entry item.now)) }
{
    match item.key {
        [] => {
            if is_index_stanza(item.stanza) {
                add_named(alloc, indexes, item.stanza, list)
            } else {
                Ok(())
            }
        }
        [_, ..] => Ok(()),
    }
}

/// Adds `main`, where it has no stanza.
fn add_main(alloc: Global, indexes: &Merged, list: &mut IndexLimitsList) -> Result<(), NoMemory>
    ensures { OnOk result (list.new ≡ list.old ++ main_of indexes.now) }
{
    if indexes.has(MAIN) {
        Ok(())
    } else {
        add_named(alloc, indexes, MAIN, list)
    }
}

/// The indexes that have a stanza.
fn list_stanzas(alloc: Global, indexes: &Merged) -> Result<IndexLimitsList, NoMemory>
    ensures { IfOk result (λ list. list ≡ flat_map (listed_at indexes.now) indexes.now) }
{
    let mut list = Sequence::new(alloc);
    for at in 0..usize::MAX {
        let Some(item) = indexes.item(at) else {
            return Ok(list);
        };
        add_item(alloc, indexes, &item, &mut list)?;
    }
    // no memory holds so many entries
    Err(NoMemory)
}

/// All indexes.
fn list_indexes(alloc: Global, indexes: &Merged) -> Result<IndexLimitsList, NoMemory>
    ensures { IfOk result (λ list. list ≡ listed indexes.now) }
{
    let mut list = list_stanzas(alloc, indexes)?;
    add_main(alloc, indexes, &mut list)?;
    Ok(list)
}

fn copy_or(alloc: Global, value: Option<&[u8]>, other: &[u8]) -> Result<Bytes, NoMemory>
    ensures { IfOk result (λ copy. copy ≡ unwrap_or (option_copied value.entry) other.now) }
{
    match value {
        Some(text) => Bytes::copy_of(alloc, text),
        None => Bytes::copy_of(alloc, other),
    }
}

fn copy_value(alloc: Global, value: Option<&[u8]>) -> Result<Option<Bytes>, NoMemory>
    ensures { IfOk result (λ copy. copy ≡ option_copied value.entry) }
{
    match value {
        Some(text) => Ok(Some(Bytes::copy_of(alloc, text)?)),
        None => Ok(None),
    }
}

/// The limits of an index in a list.
fn find<'a>(indexes: &'a [IndexLimits], index: &[u8]) -> Option<&'a Limits>
    ensures { option_copied result ≡ defs.limits_in index.now indexes.now }
{
    for x in indexes {
        if is_text(index, x.name.as_slice()) {
            return Some(&x.limits);
        }
    }
    None
}

/// The limits of all indexes, and what `default` says for the whole store.
fn read_all(alloc: Global, indexes: &Merged) -> Result<LimitSet, NoMemory>
    ensures { IfOk result (λ set. defs.AreLimits indexes.now set) }
{
    Ok(LimitSet {
        default_database: copy_or(alloc, value_of(indexes, DEFAULT, b"defaultDatabase"), MAIN)?,
        last_chance: copy_value(alloc, value_of(indexes, DEFAULT, b"lastChanceIndex"))?,
        rotate_secs: number(indexes, DEFAULT, b"rotatePeriodInSecs", Kind::FromOne, 60),
        indexes: list_indexes(alloc, indexes)?,
        retired: limits_of(indexes, DEFAULT),
    })
}

impl LimitSet {
    /// Reads the settings of all indexes. An index is each stanza but `default` and those that
    /// begin with `volume:`, and `main`. A value that an index does not have is that of `default`,
    /// else the built-in one; an empty value is the built-in one.
    ///
    /// Every value of an index and of `default` is judged, also one that has no effect.
    /// `defaultDatabase`, `lastChanceIndex` and `rotatePeriodInSecs` mean something in `default`
    /// alone, and are judged there alone. Of several faults the first one in the order of the bytes
    /// of stanza and key is answered.
    pub fn load(alloc: Global, indexes: &Merged) -> Result<LimitSet, LimitFault>
        ensures ok { IfOk result (λ set. defs.AreLimits indexes.now set) }
        ensures sound { OnOk result (defs.first_fault indexes.now ≡ None) }
        ensures err { IfErr result (λ fault. defs.Refuses (defs.first_fault indexes.now) fault) }
    {
        judge(alloc, indexes)?;
        Ok(read_all(alloc, indexes)?)
    }

    /// The indexes that are configured, each with its limits. It takes no memory.
    pub fn indexes(&self) -> &[IndexLimits]
        ensures { result.now ≡ self.now.indexes }
    {
        self.indexes.as_slice()
    }

    /// The limits of an index that is not configured and still has buckets: what `default` and the
    /// built-in values give. It takes no memory.
    pub fn retired(&self) -> &Limits
        ensures { result.now ≡ self.now.retired }
    {
        &self.retired
    }

    /// The limits of an index; `None` exactly where it is not configured. It takes no memory.
    pub fn limits(&self, index: &[u8]) -> Option<&Limits>
        ensures { option_copied result ≡ defs.limits_of self.now index.now }
    {
        find(self.indexes.as_slice(), index)
    }

    /// Where an event of this index goes. It takes no memory.
    pub fn route(&self, index: &[u8]) -> Route
        ensures { result ≡ defs.route self.now index.now }
    {
        if self.limits(index).is_some() {
            Route::Given
        } else if self.last_chance.is_some() {
            Route::LastChance
        } else {
            Route::Nowhere
        }
    }
}

/// A law: the limits that a set has for retired indexes are those of each index that is not
/// configured.
pub fn retired_limits()
    ensures { HaveRetiredLimits }
{}
