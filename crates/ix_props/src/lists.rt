//! The transforms that a value of props.conf names.

ghost use Rattle.std.specs.Prelude.{IfOk, IfErr};
ghost use Rattle.ix_conf.specs.Lent.{item_entry};
ghost use Rattle.ix_props.specs.Names.{names};
ghost use Rattle.ix_props.specs.Lists.{IsTransformNamed, RefusesTransformNamed, RefusesNames, IsTransformList};

use crate::faults::SettingFault;
use crate::names::read_names;
use crate::values::Value;
use ix_base::{Bytes, Sequence};
use ix_conf::{Item, Merged};
use ix_conf_values::{Transform, TransformFault};
use ix_pattern::BreakFault;
use std::alloc::Global;

/// Reads the transform of this name, which the value of the item has.
fn read_transform(
    alloc: Global,
    item: Item<'_>,
    name: &[u8],
    transforms: &Merged,
) -> Result<Transform, SettingFault>
    ensures ok { IfOk result (λ transform. IsTransformNamed transforms.now name.now transform) }
    ensures err { IfErr result (λ fault. RefusesTransformNamed transforms.now (item_entry item.entry) name.now fault) }
{
    if !transforms.has(name) {
        return Err(SettingFault::UnknownTransform {
            stanza: Bytes::copy_of(alloc, item.stanza)?,
            key: Bytes::copy_of(alloc, item.key)?,
            name: Bytes::copy_of(alloc, name)?,
        });
    }
    match Transform::read(alloc, name, transforms) {
        Ok(transform) => Ok(transform),
        Err(TransformFault::BadValue { key }) => Err(SettingFault::BadValue {
            stanza: Bytes::copy_of(alloc, name)?,
            key,
        }),
        Err(TransformFault::BadPattern { key, fault }) => Err(SettingFault::BadPattern {
            stanza: Bytes::copy_of(alloc, name)?,
            key,
            fault: BreakFault::Pattern(fault),
        }),
        Err(TransformFault::NoMemory) => Err(SettingFault::NoMemory),
    }
}

/// Reads the names of transforms, and each transform in turn.
pub(crate) fn read_transforms(
    alloc: Global,
    item: Item<'_>,
    transforms: &Merged,
) -> Result<Value, SettingFault>
    ensures ok { IfOk result (λ v. IsTransformList transforms.now (item_entry item.entry).value v) }
    ensures err { IfErr result (λ fault. RefusesNames transforms.now (item_entry item.entry) (names (item_entry item.entry).value) fault) }
{
    let names = read_names(alloc, item.value)?;
    let mut found = Sequence::new(alloc);
    for name in names.as_slice() {
        let transform = read_transform(alloc, item, name.as_slice(), transforms)?;
        found.push(transform)?;
    }
    Ok(Value::Transforms(found))
}
