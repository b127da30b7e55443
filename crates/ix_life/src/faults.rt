//! What is wrong in indexes.conf.

ghost use Rattle.std.specs.Prelude.{◌≡◌, ◌<◌, None, Some, IfErr, IfOk, OnOk, length, drop, is_some};
ghost use Rattle.ix_conf.specs.Lent.{item_entry};
ghost use Rattle.ix_life.specs.FaultNames.{name_of};
ghost use Rattle.ix_life.specs.Limits as defs;

use crate::kinds::{Kind, is_text, kind_of, read};
use crate::stanzas::{is_default, is_index, is_index_name, is_index_stanza, is_volume};
use ix_base::{Bytes, NoMemory as OutOfMemory};
use ix_conf::{Item, Merged};
use std::alloc::Global;
use std::fmt;
use thiserror::Error;

/// What is wrong in the settings of indexes. The first fault in the order of stanza and key is
/// answered; that of a stanza itself comes before those of its keys.
#[derive(Debug, Drop, Error)]
pub enum LimitFault {
    /// The value of this key is none of its kind, or names no index.
    BadValue { stanza: Bytes, key: Bytes },
    /// An index cannot have this name.
    BadIndexName { stanza: Bytes },
    /// There was no room in memory.
    NoMemory,
}

impl LimitFault {
    /// Its name, as the line of a fault in the settings tells it.
    pub fn name(&self) -> &'static str
        ensures { result.now ≡ name_of self.now }
    {
        match self {
            LimitFault::BadValue { .. } => "BadValue",
            LimitFault::BadIndexName { .. } => "BadIndexName",
            LimitFault::NoMemory => "NoMemory",
        }
    }
}

/// Its name.
impl fmt::Display for LimitFault {
    ghost use Rattle.std.specs.Prelude.{Some};
    ghost use Rattle.ix_life.specs.FaultNames.{name_of};

    ghost output = { λ fault. Some (name_of fault) };

    fn fmt<W: fmt::Write>(&self, f: &mut fmt::Formatter<W>) -> fmt::Result {
        f.write_str(self.name())
    }
}

impl From<OutOfMemory> for LimitFault {
    ghost use Rattle.std.specs.Prelude.{◌≡◌};
    ghost use Rattle.ix_life.specs.declared.faults.LimitFault.TheVariants.{NoMemory as no_memory};

    ghost from_gives = { λ _ fault. fault ≡ no_memory };

    fn from(_: OutOfMemory) -> LimitFault {
        LimitFault::NoMemory
    }
}

/// Whether the number of a setting is of its kind.
fn is_good_number(kind: Option<Kind>, text: &[u8]) -> bool
    ensures { result ≡ defs.is_good_number kind text.now }
{
    match kind {
        Some(kind) => read(kind, text).is_some(),
        None => true,
    }
}

/// Whether the value of a setting of an index names one.
fn names_an_index(key: &[u8]) -> bool
    ensures { result ≡ defs.names_an_index key.now }
{
    is_text(key, b"defaultDatabase") | is_text(key, b"lastChanceIndex")
}

/// Whether the value of a setting is one that `default` may have for it.
fn is_good_default(indexes: &Merged, key: &[u8], text: &[u8]) -> bool
    ensures { result ≡ defs.is_good_default indexes.now key.now text.now }
{
    if names_an_index(key) {
        is_index(indexes, text)
    } else if is_text(key, b"rotatePeriodInSecs") {
        read(Kind::FromOne, text).is_some()
    } else {
        true
    }
}

/// Whether the value of an entry is of its kind.
fn is_good(indexes: &Merged, stanza: &[u8], key: &[u8], value: &[u8]) -> bool
    ensures { result ≡ defs.is_good indexes.now stanza.now key.now value.now }
{
    match value {
        [] => true,
        [_, ..] => {
            is_good_number(kind_of(key), value)
                && (!is_default(stanza) || is_good_default(indexes, key, value))
        }
    }
}

fn bad_value(alloc: Global, item: &Item<'_>) -> Result<LimitFault, OutOfMemory>
    ensures { IfOk result (λ fault. fault ≡ LimitFault.BadValue item.now.stanza.now item.now.key.now) }
{
    Ok(LimitFault::BadValue {
        stanza: Bytes::copy_of(alloc, item.stanza)?,
        key: Bytes::copy_of(alloc, item.key)?,
    })
}

fn judge_stanza(alloc: Global, item: &Item<'_>) -> Result<(), LimitFault>
    ensures ok { OnOk result (defs.stanza_fault item.now.stanza.now ≡ None) }
    ensures err { IfErr result (λ fault. defs.Refuses (defs.stanza_fault item.now.stanza.now) fault) }
{
    if is_index_stanza(item.stanza) && !is_index_name(item.stanza) {
        return Err(LimitFault::BadIndexName {
            stanza: Bytes::copy_of(alloc, item.stanza)?,
        });
    }
    Ok(())
}

fn judge_value(alloc: Global, indexes: &Merged, item: &Item<'_>) -> Result<(), LimitFault>
    ensures ok { OnOk result (defs.value_fault indexes.now (item_entry item.now) ≡ None) }
    ensures err { IfErr result (λ fault. defs.Refuses (defs.value_fault indexes.now (item_entry item.now)) fault) }
{
    if is_volume(item.stanza) || is_good(indexes, item.stanza, item.key, item.value) {
        return Ok(());
    }
    Err(bad_value(alloc, item)?)
}

/// Judges one entry.
fn judge_item(alloc: Global, indexes: &Merged, item: &Item<'_>) -> Result<(), LimitFault>
    ensures ok { OnOk result (defs.fault_at indexes.now (item_entry item.now) ≡ None) }
    ensures err { IfErr result (λ fault. defs.Refuses (defs.fault_at indexes.now (item_entry item.now)) fault) }
{
    match item.key {
        [] => judge_stanza(alloc, item),
        [_, ..] => judge_value(alloc, indexes, item),
    }
}

/// Judges all entries.
pub fn judge(alloc: Global, indexes: &Merged) -> Result<(), LimitFault>
    ensures ok { OnOk result (defs.first_fault indexes.now ≡ None) }
    ensures err { IfErr result (λ fault. defs.Refuses (defs.first_fault indexes.now) fault) }
{
    for at in 0..usize::MAX {
        let Some(item) = indexes.item(at) else {
            return Ok(());
        };
        judge_item(alloc, indexes, &item)?;
    }
    // no memory holds so many entries
    Err(LimitFault::NoMemory)
}
