//! props.conf as a whole, with the transforms and zones that it names.

ghost use Rattle.std.specs.Prelude.{List, ℕ, IfOk, IfErr};
ghost use Rattle.ix_conf.specs.Lent.{item_entry};
ghost use Rattle.ix_props.specs.Kinds.{entry_kind};
ghost use Rattle.ix_props.specs.Choice.{Holds, IsOneChoice};
ghost use Rattle.ix_props.specs.Settings.{AreSettings, AreUsable, origin_of};
ghost use Rattle.ix_props.specs.Props.{IsOfKind, RefusesKind, AreRead, RefusesProps};

use crate::faults::SettingFault;
use crate::kinds::{Kind, entry_kind};
use crate::lists::read_transforms;
use crate::settings::Settings;
use crate::settling::settings_of;
use crate::values::{
    Value, read_breaker, read_change, read_format, read_name, read_plain, read_small, read_stanza,
    read_zone,
};
use ix_base::{Bytes, ChannelMeta, NoMemory, Sequence};
use ix_conf::{Item, Merged};
use std::alloc::Global;
use std::marker::Model;

/// An entry of props.conf with its value. A stanza's own entry has an empty key.
#[derive(Drop)]
pub struct PropsEntry {
    pub stanza: Bytes,
    pub key: Bytes,
    pub value: Value,
}

/// The settings of all channels. Contracts see them as the list of the entries of props.conf, each
/// with the value that was read of its text.
#[derive(Drop)]
pub struct Props {
    entries: Sequence<PropsEntry>,
}

impl Model for Props {
    ghost use Rattle.std.specs.Prelude.{List};
    ghost use Rattle.ix_props.specs.declared.props.PropsEntry.{PropsEntry as Entry};

    ghost Value = { List Entry };

    ghost use Rattle.ix_props.specs.Sound.{AreSound};

    ghost view = { λ p. p.entries };

    ghost invariant = { λ p. AreSound p.entries };
}

/// Reads the value of an entry, by its kind.
fn read_kind(
    alloc: Global,
    kind: Kind,
    item: Item<'_>,
    transforms: &Merged,
    zones: &Merged,
) -> Result<Value, SettingFault>
    ensures ok { IfOk result (λ v. IsOfKind transforms.now zones.now kind (item_entry item.entry) v) }
    ensures err { IfErr result (λ fault. RefusesKind transforms.now zones.now kind (item_entry item.entry) fault) }
{
    match kind {
        Kind::Unread => Ok(Value::Nothing),
        Kind::Stanza => read_stanza(alloc, item),
        Kind::Breaker => read_breaker(alloc, item),
        Kind::Pattern => read_plain(alloc, item),
        Kind::Boolean | Kind::Count { .. } | Kind::Lookahead | Kind::Priority => {
            read_small(alloc, item, kind)
        }
        Kind::Format => read_format(alloc, item),
        Kind::Zone => read_zone(alloc, item, zones),
        Kind::Change => read_change(alloc, item),
        Kind::Transforms => read_transforms(alloc, item, transforms),
        Kind::Name => read_name(alloc, item),
    }
}

fn read_entries(
    alloc: Global,
    props: &Merged,
    transforms: &Merged,
    zones: &Merged,
) -> Result<Sequence<PropsEntry>, SettingFault>
    ensures ok { IfOk result (λ entries. AreRead transforms.now zones.now props.now entries) }
    ensures err { IfErr result (λ fault. RefusesProps transforms.now zones.now props.now fault) }
{
    let mut found = Sequence::new(alloc);
    while let Some(item) = props.item(found.len()) {
        let stanza = Bytes::copy_of(alloc, item.stanza)?;
        let key = Bytes::copy_of(alloc, item.key)?;
        let value = read_kind(alloc, entry_kind(item), item, transforms, zones)?;
        found.push(PropsEntry { stanza, key, value })?;
    }
    Ok(found)
}

impl Props {
    /// Judges the values of all keys of props.conf, in the order of the bytes of stanzas and keys,
    /// and at the place of a value also the transforms and the zone that it names. The first fault
    /// is answered. Transforms and zones that no value names are not judged, nor are stanzas whose
    /// names begin with `rule::` or `delayedrule::`.
    pub fn load(
        alloc: Global,
        props: &Merged,
        transforms: &Merged,
        zones: &Merged,
    ) -> Result<Props, SettingFault>
        ensures ok { IfOk result (λ loaded. AreRead transforms.now zones.now props.now loaded) }
        ensures err { IfErr result (λ fault. RefusesProps transforms.now zones.now props.now fault) }
    {
        let entries = read_entries(alloc, props, transforms, zones)?;
        Ok(Props { entries })
    }

    /// The settings of a channel, each by the nearest stanza that has its key: those whose pattern
    /// its source fits, then those whose pattern its host fits, then that of its source type, then
    /// `default`. An empty value, or none, gives the default of the key.
    pub fn settings(&self, alloc: Global, meta: &ChannelMeta) -> Result<Settings, NoMemory>
        ensures chosen { IfOk result (λ settings. AreSettings self.now meta.now settings) }
        ensures usable { IfOk result (λ settings. AreUsable settings) }
        ensures one_choice { (sourcetype : List ℕ) → IsOneChoice self.now (Holds self.now (origin_of meta.now sourcetype)) }
    {
        settings_of(alloc, self.entries.as_slice(), meta)
    }
}
