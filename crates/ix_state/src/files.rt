//! What is kept of each file, merged as it is read. `configs` reads the values.

ghost use Rattle.std.specs.Prelude.{◌≡◌, ◌++◌, ◌∷◌, [], Err, IfOk, OnOk, List, map};
ghost use Rattle.ix_conf.specs.Value.{AreMerged};
ghost use Rattle.ix_model.specs.Given.{entry};
ghost use Rattle.ix_state.specs.Configs.{kept_in, said, layer_in, built_in, IsWhole};
ghost use Rattle.ix_state.specs.Files.{kept_at, layer_of, StandWell, AreOrdered, AreFiles};

use crate::checks::{are_kept, stands_well};
use crate::faults::ConfigFault;
use ix_base::{Bytes, NoMemory, Sequence};
use ix_conf::{ConfFile, Entry, Layer, Layers, Merged, built_in_zones, merge};
use ix_items::{Kept, KeptList};
use std::alloc::Global;

/// The four files of settings that are kept, merged; zones with those that are built in.
pub struct Files {
    pub props: Merged,
    pub transforms: Merged,
    pub indexes: Merged,
    pub zones: Merged,
}

/// It is written out, so that each place where one is let go is a call of it, which is proved once.
impl Drop for Files {
    fn drop(self) {
        let Files {
            props: _,
            transforms: _,
            indexes: _,
            zones: _,
        } = self;
    }
}

/// Adds a setting, where it is of the file.
fn add_of(file: u8, kept: &Kept, list: &mut KeptList) -> Result<(), NoMemory>
    ensures { OnOk result (list.new ≡ list.old ++ kept_at file kept.now) }
{
    if kept.file == file {
        list.push(kept.copy()?)?;
    }
    Ok(())
}

/// What is kept of a file.
fn of_file(alloc: Global, kept: &[Kept], file: u8) -> Result<KeptList, NoMemory>
    ensures { IfOk result (λ list. list ≡ kept_in file kept.now) }
{
    let mut list = Sequence::new(alloc);
    for one in kept {
        add_of(file, one, &mut list)?;
    }
    Ok(list)
}

/// What a setting says.
fn said(kept: &Kept) -> Result<Entry, NoMemory>
    ensures { IfOk result (λ entry. entry ≡ said kept.now) }
{
    if kept.key.is_empty() {
        return Ok(Entry::Stanza(kept.stanza.copy()?));
    }
    let stanza = kept.stanza.copy()?;
    let key = kept.key.copy()?;
    let value = kept.value.copy()?;
    Ok(Entry::Pair(stanza, key, value))
}

/// What settings say, as the entries of a file.
fn file_of(alloc: Global, kept: &[Kept]) -> Result<ConfFile, NoMemory>
    ensures { IfOk result (λ file. file ≡ map said kept.now) }
{
    let mut file = Sequence::new(alloc);
    for one in kept {
        file.push(said(one)?)?;
    }
    Ok(file)
}

/// The layer that the settings of a file are.
fn layers_of(alloc: Global, kept: &[Kept]) -> Result<Layers, NoMemory>
    ensures { IfOk result (λ layers. layers ≡ layer_of kept.now ∷ []) }
{
    let mut layers = Sequence::new(alloc);
    layers.push(Layer {
        name: Bytes::new(alloc),
        file: file_of(alloc, kept)?,
    })?;
    Ok(layers)
}

/// The settings of a file, which stand in order.
fn whole_file(alloc: Global, kept: &[Kept]) -> Result<Merged, ConfigFault>
    ensures whole { IfOk result (λ merged. AreMerged (layer_of kept.now ∷ []) (map entry kept.now)) }
    ensures same { IfOk result (λ merged. merged ≡ map entry kept.now) }
    ensures unsound { result ≡ Err ConfigFault.Unsound → AreMerged (layer_of kept.now ∷ []) (map entry kept.now) → ⊥ }
{
    let layers = layers_of(alloc, kept)?;
    let merged = merge(alloc, &layers)?;
    if are_kept(&merged, kept) {
        Ok(merged)
    } else {
        Err(ConfigFault::Unsound)
    }
}

/// What is kept of a file, where it stands in order.
fn read_file(alloc: Global, kept: &[Kept], file: u8) -> Result<Merged, ConfigFault>
    ensures whole { IfOk result (λ merged. IsWhole file kept.now) }
    ensures same { IfOk result (λ merged. merged ≡ map entry (kept_in file kept.now)) }
    ensures unsound { result ≡ Err ConfigFault.Unsound → IsWhole file kept.now → ⊥ }
{
    let own = of_file(alloc, kept, file)?;
    whole_file(alloc, own.as_slice())
}

/// The layer of the zones that are built in.
fn built_in_layer(alloc: Global) -> Result<Layer, NoMemory>
    ensures { IfOk result (λ layer. layer ≡ built_in) }
{
    Ok(Layer {
        name: Bytes::copy_of(alloc, b"built-in")?,
        file: built_in_zones(alloc)?,
    })
}

/// The zones, those that are kept before those that are built in.
fn all_zones(alloc: Global, kept: &[Kept]) -> Result<Merged, NoMemory>
    ensures { IfOk result (λ merged. AreMerged (layer_in 4 kept.now ∷ built_in ∷ []) merged) }
{
    let own = of_file(alloc, kept, 4)?;
    let mut layers = layers_of(alloc, own.as_slice())?;
    layers.push(built_in_layer(alloc)?)?;
    merge(alloc, &layers)
}

/// The zones, where those that are kept stand in order.
fn read_zones(alloc: Global, kept: &[Kept]) -> Result<Merged, ConfigFault>
    ensures whole { IfOk result (λ merged. IsWhole 4 kept.now) }
    ensures merged { IfOk result (λ merged. AreMerged (layer_in 4 kept.now ∷ built_in ∷ []) merged) }
    ensures unsound { result ≡ Err ConfigFault.Unsound → IsWhole 4 kept.now → ⊥ }
{
    read_file(alloc, kept, 4)?;
    Ok(all_zones(alloc, kept)?)
}

/// The names of stanzas are short, and settings stand file by file.
fn stand_well(kept: &[Kept]) -> Result<(), ConfigFault>
    ensures ok { OnOk result (StandWell kept.now) }
    ensures unsound { result ≡ Err ConfigFault.Unsound → StandWell kept.now → ⊥ }
{
    if stands_well(kept) {
        Ok(())
    } else {
        Err(ConfigFault::Unsound)
    }
}

impl Files {
    /// Reads what is kept of all files, where it stands in order.
    pub fn read(alloc: Global, kept: &[Kept]) -> Result<Files, ConfigFault>
        ensures ordered { IfOk result (λ files. AreOrdered kept.now) }
        ensures files { IfOk result (λ files. AreFiles kept.now files) }
        ensures unsound { result ≡ Err ConfigFault.Unsound → AreOrdered kept.now → ⊥ }
    {
        stand_well(kept)?;
        let props = read_file(alloc, kept, 1)?;
        let transforms = read_file(alloc, kept, 2)?;
        let indexes = read_file(alloc, kept, 3)?;
        let zones = read_zones(alloc, kept)?;
        Ok(Files {
            props,
            transforms,
            indexes,
            zones,
        })
    }
}
