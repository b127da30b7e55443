//! The five files of settings, each read in all its layers and merged.

ghost use Rattle.std.specs.Prelude.{◌≡◌, ◌≤◌, IfOk, IfErr, IfSome};
ghost use Rattle.indexd_settings.specs.Layers.{settings, folders_of, LayerStops};
ghost use Rattle.indexd_settings.specs.Merged.{IsMergedOf, AreMergedFiles, AreZonesOf};
ghost use Rattle.indexd_settings.specs.Faults.{StopsIn, Stops, stop_in};

use crate::faults::{ConfigurationFault, ConfigurationStop};
use crate::layers::{LayerStop, SettingsFile, layer_folders};
use ix_base::Names;
use ix_conf::{Merged, merge};
use ix_fs::Tree;
use std::alloc::Global;

/// The merged settings of the five files.
pub struct MergedFiles {
    /// What channels do with their bytes, by host, source and source type.
    pub props: Merged,
    /// The transforms that props.conf names.
    pub transforms: Merged,
    /// The indexes, and how long their buckets are kept.
    pub indexes: Merged,
    /// The files that are watched.
    pub inputs: Merged,
    /// The rules of time zones. The built-in ones are its last layer.
    pub zones: Merged,
    /// The rules of the files alone, without the built-in ones.
    pub own_zones: Merged,
}

/// It is written out, so that each place where one is let go is a call of it, which is proved once.
impl Drop for MergedFiles {
    fn drop(self) {
        let MergedFiles {
            props: _,
            transforms: _,
            indexes: _,
            inputs: _,
            zones: _,
            own_zones: _,
        } = self;
    }
}

/// The rules of time zones.
#[derive(Drop)]
struct ZoneRules {
    /// Those of the files and behind them the built-in ones.
    all: Merged,
    /// Those of the files alone.
    own: Merged,
}

/// Why there are no settings, where the layers of a file were not read.
fn stop_in(file: SettingsFile, stop: LayerStop) -> ConfigurationStop
    ensures { result ≡ stop_in file stop }
{
    match stop {
        LayerStop::Memory => ConfigurationStop::Memory,
        LayerStop::Input => ConfigurationStop::Input,
        LayerStop::Refused(refusal) => {
            ConfigurationStop::Refused(ConfigurationFault::File { file, refusal })
        }
    }
}

/// Reads a file in these layers, and merges them.
fn merge_file<T: Tree>(
    alloc: Global,
    tree: &mut T,
    folders: &Names,
    file: SettingsFile,
) -> Result<Merged, LayerStop>
    ensures ok { IfSome (T.files tree.old) (λ all. folders.now ≡ folders_of all) →
        IfOk result (λ merged. IsMergedOf (T.files tree.old) file merged) }
    ensures stopped { IfSome (T.files tree.old) (λ all. folders.now ≡ folders_of all) →
        IfErr result (λ stop. LayerStops stop (T.faults tree.old) (T.faults tree.new) (T.files tree.old) (λ all. settings all file)) }
    ensures same { T.files tree.new ≡ T.files tree.old }
    ensures later { T.faults tree.old ≤ T.faults tree.new }
    ensures later_missing { T.missing tree.old ≤ T.missing tree.new }
{
    let mut layers = file.read_layers(alloc, tree, folders.as_slice())?;
    file.push_built_in(alloc, &mut layers)?;
    let merged = merge(alloc, &layers)?;
    Ok(merged)
}

/// Reads the zones in these layers, and merges them with and without the built-in ones.
fn merge_zones<T: Tree>(
    alloc: Global,
    tree: &mut T,
    folders: &Names,
) -> Result<ZoneRules, LayerStop>
    ensures ok { IfSome (T.files tree.old) (λ all. folders.now ≡ folders_of all) →
        IfOk result (λ zones. AreZonesOf (T.files tree.old) zones.own zones.all) }
    ensures stopped { IfSome (T.files tree.old) (λ all. folders.now ≡ folders_of all) →
        IfErr result (λ stop. LayerStops stop (T.faults tree.old) (T.faults tree.new) (T.files tree.old)
        (λ all. settings all SettingsFile.Zones)) }
    ensures same { T.files tree.new ≡ T.files tree.old }
    ensures later { T.faults tree.old ≤ T.faults tree.new }
    ensures later_missing { T.missing tree.old ≤ T.missing tree.new }
{
    let mut layers = SettingsFile::Zones.read_layers(alloc, tree, folders.as_slice())?;
    let own = merge(alloc, &layers)?;
    SettingsFile::Zones.push_built_in(alloc, &mut layers)?;
    let all = merge(alloc, &layers)?;
    Ok(ZoneRules { all, own })
}

/// Reads a file in these layers, and merges them. A fault of a layer is one of this file.
fn read_file<T: Tree>(
    alloc: Global,
    tree: &mut T,
    folders: &Names,
    file: SettingsFile,
) -> Result<Merged, ConfigurationStop>
    ensures ok { IfSome (T.files tree.old) (λ all. folders.now ≡ folders_of all) →
        IfOk result (λ merged. IsMergedOf (T.files tree.old) file merged) }
    ensures stopped { IfSome (T.files tree.old) (λ all. folders.now ≡ folders_of all) →
        IfErr result (λ stop. StopsIn file stop (T.faults tree.old) (T.faults tree.new) (T.files tree.old)) }
    ensures same { T.files tree.new ≡ T.files tree.old }
    ensures later { T.faults tree.old ≤ T.faults tree.new }
    ensures later_missing { T.missing tree.old ≤ T.missing tree.new }
{
    match merge_file(alloc, tree, folders, file) {
        Ok(merged) => Ok(merged),
        Err(stop) => Err(stop_in(file, stop)),
    }
}

/// Reads the zones in these layers, and merges them with and without the built-in ones. A fault of
/// a layer is one of this file.
fn read_zones<T: Tree>(
    alloc: Global,
    tree: &mut T,
    folders: &Names,
) -> Result<ZoneRules, ConfigurationStop>
    ensures ok { IfSome (T.files tree.old) (λ all. folders.now ≡ folders_of all) →
        IfOk result (λ zones. AreZonesOf (T.files tree.old) zones.own zones.all) }
    ensures stopped { IfSome (T.files tree.old) (λ all. folders.now ≡ folders_of all) →
        IfErr result (λ stop. StopsIn SettingsFile.Zones stop (T.faults tree.old) (T.faults tree.new) (T.files tree.old)) }
    ensures same { T.files tree.new ≡ T.files tree.old }
    ensures later { T.faults tree.old ≤ T.faults tree.new }
    ensures later_missing { T.missing tree.old ≤ T.missing tree.new }
{
    match merge_zones(alloc, tree, folders) {
        Ok(zones) => Ok(zones),
        Err(stop) => Err(stop_in(SettingsFile::Zones, stop)),
    }
}

impl MergedFiles {
    /// Reads all five files in all layers of the tree. The first fault counts, the files being read
    /// in the order props, transforms, indexes, inputs and zones, and the layers of each from the
    /// highest.
    pub fn read<T: Tree>(alloc: Global, tree: &mut T) -> Result<MergedFiles, ConfigurationStop>
        ensures ok { IfOk result (λ found. AreMergedFiles (T.files tree.old) found) }
        ensures stopped { IfErr result (λ stop. Stops stop (T.faults tree.old) (T.faults tree.new) (T.files tree.old)) }
        ensures same { T.files tree.new ≡ T.files tree.old }
        ensures later { T.faults tree.old ≤ T.faults tree.new }
        ensures later_missing { T.missing tree.old ≤ T.missing tree.new }
    {
        let folders = layer_folders(alloc, tree)?;
        let props = read_file(alloc, tree, &folders, SettingsFile::Props)?;
        let transforms = read_file(alloc, tree, &folders, SettingsFile::Transforms)?;
        let indexes = read_file(alloc, tree, &folders, SettingsFile::Indexes)?;
        let inputs = read_file(alloc, tree, &folders, SettingsFile::Inputs)?;
        let zones = read_zones(alloc, tree, &folders)?;
        Ok(MergedFiles {
            props,
            transforms,
            indexes,
            inputs,
            zones: zones.all,
            own_zones: zones.own,
        })
    }
}
