//! The classes of changes and of transforms that are set for a channel, in the order of their keys,
//! for `settling`.

ghost use Rattle.std.specs.Prelude.{◌≡◌, ◌++◌, ◌∷◌, [], OnOk, codes};
ghost use Rattle.ix_props.specs.Ranking.{lent, classes_in};
ghost use Rattle.ix_props.specs.Settings.{changes, chain};

use crate::kinds::begins_with;
use crate::props::PropsEntry;
use crate::values::Value;
use ix_base::NoMemory;
use ix_conf_values::{SedList, Transform, TransformList};
use std::alloc::Global;

fn add_change(alloc: Global, seds: &mut SedList, entry: &PropsEntry) -> Result<(), NoMemory>
    ensures { OnOk result (seds.new ≡ seds.old ++ changes (classes_in (codes "SEDCMD-") (entry.now ∷ []))) }
{
    if begins_with(entry.key.as_slice(), b"SEDCMD-") {
        if let Value::Change(sed) = &entry.value {
            return seds.push(sed.copy(alloc)?);
        }
    }
    Ok(())
}

/// Adds what the `SEDCMD-` classes change.
pub(crate) fn add_changes(
    alloc: Global,
    seds: &mut SedList,
    chosen: &[&PropsEntry],
) -> Result<(), NoMemory>
    ensures { OnOk result (seds.new ≡ seds.old ++ changes (classes_in (codes "SEDCMD-") (lent chosen.now))) }
{
    for entry in chosen {
        add_change(alloc, seds, entry)?;
    }
    Ok(())
}

/// Adds copies of transforms.
pub(crate) fn add_transforms(
    alloc: Global,
    list: &mut TransformList,
    transforms: &[Transform],
) -> Result<(), NoMemory>
    ensures { OnOk result (list.new ≡ list.old ++ transforms.now) }
{
    for transform in transforms {
        list.push(transform.copy(alloc)?)?;
    }
    Ok(())
}

fn add_class(alloc: Global, list: &mut TransformList, entry: &PropsEntry) -> Result<(), NoMemory>
    ensures { OnOk result (list.new ≡ list.old ++ chain (classes_in (codes "TRANSFORMS-") (entry.now ∷ []))) }
{
    if begins_with(entry.key.as_slice(), b"TRANSFORMS-") {
        if let Value::Transforms(transforms) = &entry.value {
            return add_transforms(alloc, list, transforms.as_slice());
        }
    }
    Ok(())
}

/// Adds the transforms of the `TRANSFORMS-` classes.
pub(crate) fn add_chain(
    alloc: Global,
    list: &mut TransformList,
    chosen: &[&PropsEntry],
) -> Result<(), NoMemory>
    ensures { OnOk result (list.new ≡ list.old ++ chain (classes_in (codes "TRANSFORMS-") (lent chosen.now))) }
{
    for entry in chosen {
        add_class(alloc, list, entry)?;
    }
    Ok(())
}
