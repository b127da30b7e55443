//! What is wrong in inputs.conf.

ghost use Rattle.std.specs.Prelude.{◌≡◌, None, Some, IfErr, IfOk, OnOk, bytes_eq};
ghost use Rattle.ix_conf.specs.Lent.{item_entry};
ghost use Rattle.ix_monitor.specs.Inputs as defs;
ghost use Rattle.ix_monitor.specs.Paths.{path_of};

use crate::paths::{is_bad_path, path_of};
use ix_base::{Bytes, NoMemory as OutOfMemory};
use ix_conf::{Item, Merged};
use ix_conf_values::read_boolean;
use ix_life::LimitSet;
use std::alloc::Global;
use thiserror::Error;

/// What is wrong in the settings of inputs. The first fault in the order of stanza and key is
/// answered; that of a stanza itself comes before those of its keys.
#[derive(Debug, Drop, Error)]
pub enum InputFault {
    /// The value of this key is none of its kind, or names no index.
    #[error("[{stanza:?}] has a bad value of {key:?}")]
    BadValue { stanza: Bytes, key: Bytes },
    /// No files can be watched under the path of this stanza: it is empty, has `...`, or a `*` in
    /// another segment than the last.
    #[error("no files can be watched under [{stanza:?}]")]
    BadStanza { stanza: Bytes },
    /// There was no room in memory.
    #[error("there was no room in memory")]
    NoMemory,
}

impl From<OutOfMemory> for InputFault {
    ghost use Rattle.std.specs.Prelude.{◌≡◌};
    ghost use Rattle.ix_monitor.specs.declared.faults.InputFault.TheVariants.{NoMemory as no_memory};

    ghost from_gives = { λ _ fault. fault ≡ no_memory };

    fn from(_: OutOfMemory) -> InputFault {
        InputFault::NoMemory
    }
}

/// The most bytes that a host, a source or a source type has.
const MOST: usize = 1024;

fn is_key(key: &[u8], name: &[u8]) -> bool
    ensures { result ≡ bytes_eq key.now name.now }
{
    key == name
}

fn is_name_key(key: &[u8]) -> bool
    ensures { result ≡ defs.is_name_key key.now }
{
    is_key(key, b"host") | is_key(key, b"source") | is_key(key, b"sourcetype")
}

fn is_good_value(limits: &LimitSet, key: &[u8], text: &[u8]) -> bool
    ensures { result ≡ defs.is_good_value limits.now key.now text.now }
{
    if is_name_key(key) {
        text.len() <= MOST
    } else if is_key(key, b"index") {
        limits.limits(text).is_some()
    } else if is_key(key, b"disabled") {
        read_boolean(text).is_some()
    } else {
        true
    }
}

fn is_good(limits: &LimitSet, key: &[u8], value: &[u8]) -> bool
    ensures { result ≡ defs.is_good limits.now key.now value.now }
{
    match value {
        [] => true,
        [_, ..] => is_good_value(limits, key, value),
    }
}

/// Whether the values of a stanza are judged.
fn is_judged(stanza: &[u8]) -> bool
    ensures { result ≡ defs.is_judged stanza.now }
{
    is_key(stanza, b"default") || path_of(stanza).is_some()
}

fn is_bad_stanza(stanza: &[u8]) -> bool
    ensures { result ≡ defs.is_bad_stanza (path_of stanza.now) }
{
    match path_of(stanza) {
        Some(path) => is_bad_path(path),
        None => false,
    }
}

fn bad_value(alloc: Global, item: &Item<'_>) -> Result<InputFault, OutOfMemory>
    ensures { IfOk result (λ fault. fault ≡ InputFault.BadValue item.now.stanza.now item.now.key.now) }
{
    Ok(InputFault::BadValue {
        stanza: Bytes::copy_of(alloc, item.stanza)?,
        key: Bytes::copy_of(alloc, item.key)?,
    })
}

fn judge_stanza(alloc: Global, item: &Item<'_>) -> Result<(), InputFault>
    ensures ok { OnOk result (defs.stanza_fault item.now.stanza.now ≡ None) }
    ensures err { IfErr result (λ fault. defs.Refuses (defs.stanza_fault item.now.stanza.now) fault) }
{
    if is_bad_stanza(item.stanza) {
        return Err(InputFault::BadStanza {
            stanza: Bytes::copy_of(alloc, item.stanza)?,
        });
    }
    Ok(())
}

fn judge_value(alloc: Global, limits: &LimitSet, item: &Item<'_>) -> Result<(), InputFault>
    ensures ok { OnOk result (defs.value_fault limits.now (item_entry item.now) ≡ None) }
    ensures err { IfErr result (λ fault. defs.Refuses (defs.value_fault limits.now (item_entry item.now)) fault) }
{
    if !is_judged(item.stanza) || is_good(limits, item.key, item.value) {
        return Ok(());
    }
    Err(bad_value(alloc, item)?)
}

/// Judges one entry.
fn judge_item(alloc: Global, limits: &LimitSet, item: &Item<'_>) -> Result<(), InputFault>
    ensures ok { OnOk result (defs.fault_at limits.now (item_entry item.now) ≡ None) }
    ensures err { IfErr result (λ fault. defs.Refuses (defs.fault_at limits.now (item_entry item.now)) fault) }
{
    match item.key {
        [] => judge_stanza(alloc, item),
        [_, ..] => judge_value(alloc, limits, item),
    }
}

/// Judges all entries.
pub fn judge(alloc: Global, inputs: &Merged, limits: &LimitSet) -> Result<(), InputFault>
    ensures ok { OnOk result (defs.first_fault limits.now inputs.now ≡ None) }
    ensures err { IfErr result (λ fault. defs.Refuses (defs.first_fault limits.now inputs.now) fault) }
{
    for at in 0..usize::MAX {
        let Some(item) = inputs.item(at) else {
            return Ok(());
        };
        judge_item(alloc, limits, &item)?;
    }
    // no memory holds so many entries
    Err(InputFault::NoMemory)
}
