//! The inputs: which files are watched, and what is said of their events.

ghost use Rattle.std.specs.Prelude.{◌≡◌, ◌++◌, None, IfErr, IfOk, OnOk, unwrap_or, codes};
ghost use Rattle.std.specs.Option.{option_copied};
ghost use Rattle.std.specs.List.{flat_map, AllByRecursion};
ghost use Rattle.ix_conf.specs.Lent.{item_entry};
ghost use Rattle.ix_conf_values.specs.Values.{value_of};
ghost use Rattle.ix_monitor.specs.Inputs as defs;
ghost use Rattle.ix_monitor.specs.Paths.{path_of};

use crate::faults::{InputFault, judge};
use crate::paths::path_of;
use ix_base::{Bytes, NoMemory, Sequence};
use ix_conf::{Item, Merged};
use ix_conf_values::{read_boolean, value_of};
use ix_life::LimitSet;
use std::alloc::Global;
use std::marker::Model;

/// Files that are watched.
#[derive(Drop)]
pub struct Input {
    /// The path of a file, or of several: in its last segment `*` stands for any bytes but `/`.
    pub path: Bytes,
    pub host: Bytes,
    /// `None` where the source is the path of the file.
    pub source: Option<Bytes>,
    pub sourcetype: Option<Bytes>,
    /// An index that is configured, or `None` where none is stated.
    pub index: Option<Bytes>,
}

/// The inputs that are not disabled, in the order of the bytes of their stanzas. Contracts see them
/// as a list.
#[derive(Drop)]
pub struct Inputs {
    list: Sequence<Input>,
}

impl Model for Inputs {
    ghost use Rattle.std.specs.Prelude.{List};
    ghost use Rattle.ix_monitor.specs.declared.inputs.Input.{Input as Watched};

    ghost Value = { List Watched };

    ghost view = { λ inputs. inputs.list };
}

/// Whether a stanza is not watched.
fn is_disabled(inputs: &Merged, stanza: &[u8]) -> bool
    ensures { result ≡ defs.is_disabled inputs.now stanza.now }
{
    match value_of(inputs, stanza, b"disabled") {
        Some(text) => read_boolean(text).unwrap_or(false),
        None => false,
    }
}

fn copy_value(alloc: Global, value: Option<&[u8]>) -> Result<Option<Bytes>, NoMemory>
    ensures { IfOk result (λ copy. copy ≡ option_copied value.entry) }
{
    match value {
        Some(text) => Ok(Some(Bytes::copy_of(alloc, text)?)),
        None => Ok(None),
    }
}

fn host(alloc: Global, value: Option<&[u8]>) -> Result<Bytes, NoMemory>
    ensures { IfOk result (λ host. host ≡ unwrap_or (option_copied value.entry) (codes "localhost")) }
{
    match value {
        Some(text) => Bytes::copy_of(alloc, text),
        None => Bytes::copy_of(alloc, b"localhost"),
    }
}

fn input_of(alloc: Global, inputs: &Merged, stanza: &[u8], path: &[u8]) -> Result<Input, NoMemory>
    ensures { IfOk result (λ input. input ≡ defs.input inputs.now stanza.now path.now) }
{
    Ok(Input {
        path: Bytes::copy_of(alloc, path)?,
        host: host(alloc, value_of(inputs, stanza, b"host"))?,
        source: copy_value(alloc, value_of(inputs, stanza, b"source"))?,
        sourcetype: copy_value(alloc, value_of(inputs, stanza, b"sourcetype"))?,
        index: copy_value(alloc, value_of(inputs, stanza, b"index"))?,
    })
}

/// Adds what a stanza has watched.
fn add_stanza(
    alloc: Global,
    inputs: &Merged,
    stanza: &[u8],
    list: &mut Sequence<Input>,
) -> Result<(), NoMemory>
    ensures { OnOk result (list.new ≡ list.old ++ defs.watched inputs.now stanza.now (path_of stanza.now)) }
{
    let Some(path) = path_of(stanza) else {
        return Ok(());
    };
    if !is_disabled(inputs, stanza) {
        list.push(input_of(alloc, inputs, stanza, path)?)?;
    }
    Ok(())
}

/// Adds what an entry has watched, where it is the own entry of a stanza.
fn add_item(
    alloc: Global,
    inputs: &Merged,
    item: &Item<'_>,
    list: &mut Sequence<Input>,
) -> Result<(), NoMemory>
    ensures { OnOk result (list.new ≡ list.old ++ defs.watched_at inputs.now (item_entry item.now)) }
{
    match item.key {
        [] => add_stanza(alloc, inputs, item.stanza, list),
        [_, ..] => Ok(()),
    }
}

fn list_inputs(alloc: Global, inputs: &Merged) -> Result<Sequence<Input>, NoMemory>
    ensures { IfOk result (λ list. list ≡ defs.inputs inputs.now) }
{
    let mut list = Sequence::new(alloc);
    for at in 0..usize::MAX {
        let Some(item) = inputs.item(at) else {
            return Ok(list);
        };
        add_item(alloc, inputs, &item, &mut list)?;
    }
    // no memory holds so many entries
    Err(NoMemory)
}

impl Inputs {
    /// Reads the inputs: the stanzas `monitor://PATH`. A value that a stanza does not have is that
    /// of `default`, else the built-in one; an empty value is the built-in one.
    ///
    /// The values of `default` and of all these stanzas are judged, also of those that are
    /// disabled. A host, a source and a source type have 1 to 1,024 bytes, an index is one that is
    /// configured, and `disabled` is a boolean. Of several faults the first one in the order of the
    /// bytes of stanza and key is answered.
    pub fn load(alloc: Global, inputs: &Merged, limits: &LimitSet) -> Result<Inputs, InputFault>
        ensures ok { IfOk result (λ list. list ≡ defs.inputs inputs.now) }
        ensures sound { OnOk result (defs.first_fault limits.now inputs.now ≡ None) }
        // So what each states is short, and its index is configured.
        ensures stated { IfOk result (λ list. AllByRecursion (defs.IsStated limits.now) list) }
        ensures err { IfErr result (λ fault. defs.Refuses (defs.first_fault limits.now inputs.now) fault) }
    {
        judge(alloc, inputs, limits)?;
        Ok(Inputs {
            list: list_inputs(alloc, inputs)?,
        })
    }

    /// The inputs. It takes no memory.
    pub fn as_slice(&self) -> &[Input]
        ensures { result.now ≡ self.now }
    {
        self.list.as_slice()
    }
}
