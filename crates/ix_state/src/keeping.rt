//! What is kept of the files of settings. The program keeps it with a store, and compares it with
//! what a store keeps.

ghost use Rattle.std.specs.Prelude.{◌≡◌, ◌++◌, IfOk, OnOk, map};
ghost use Rattle.ix_conf.specs.Lent.{item_entry};
ghost use Rattle.ix_state.specs.Keeping.{kept_as, all_kept, KeptIsConfig, ReadNamesAreShort};

use ix_base::{Bytes, NoMemory, Sequence};
use ix_conf::{Item, Merged};
use ix_items::{Kept, KeptList};
use std::alloc::Global;

/// The merged files of settings that are kept.
#[derive(Clone, Copy)]
pub struct KeptFiles<'a> {
    pub props: &'a Merged,
    pub transforms: &'a Merged,
    pub indexes: &'a Merged,
    /// The zones of the files alone, without those that are built in.
    pub zones: &'a Merged,
}

/// An entry, as it is kept of a file.
fn kept_as(alloc: Global, file: u8, item: &Item<'_>) -> Result<Kept, NoMemory>
    ensures { IfOk result (λ kept. kept ≡ kept_as file (item_entry item.now)) }
{
    Ok(Kept {
        file,
        stanza: Bytes::copy_of(alloc, item.stanza)?,
        key: Bytes::copy_of(alloc, item.key)?,
        value: Bytes::copy_of(alloc, item.value)?,
    })
}

/// Adds what is kept of a file.
fn add_file(alloc: Global, file: u8, merged: &Merged, list: &mut KeptList) -> Result<(), NoMemory>
    ensures { OnOk result (list.new ≡ list.old ++ map (kept_as file) merged.now) }
{
    for at in 0..usize::MAX {
        let Some(item) = merged.item(at) else {
            return Ok(());
        };
        list.push(kept_as(alloc, file, &item)?)?;
    }
    // no memory holds so many entries
    Err(NoMemory)
}

/// What is kept of these files: all their entries, in order, without the names of their layers.
pub fn kept_of(alloc: Global, files: &KeptFiles<'_>) -> Result<KeptList, NoMemory>
    ensures { IfOk result (λ kept. kept ≡ all_kept files.now.props.now files.now.transforms.now files.now.indexes.now files.now.zones.now) }
{
    let mut list = Sequence::new(alloc);
    add_file(alloc, 1, files.props, &mut list)?;
    add_file(alloc, 2, files.transforms, &mut list)?;
    add_file(alloc, 3, files.indexes, &mut list)?;
    add_file(alloc, 4, files.zones, &mut list)?;
    Ok(list)
}

/// A law: the values that were read of files of settings are those that what is kept of them gives.
pub fn kept_is_config()
    ensures { KeptIsConfig }
{}

/// A law: the stanzas of a layer that was read have names within the limit.
pub fn read_names_are_short()
    ensures { ReadNamesAreShort }
{}
