//! Files of settings, read from the layers of a tree. `btool` reads one, the other commands read
//! all five.

ghost use Rattle.std.specs.Prelude.{◌≡◌, ◌≢◌, ◌≤◌, ◌<◌, ◌+◌, ◌++◌, ◌∷◌, [], ℕ, List, length, take, drop, map, codes, OnOk, OnErr, IfOk};
ghost use Rattle.std.specs.Prelude.{IfErr, IfSome, IfNone, Some, None, Ok, Err, IsErrOf, vec_len};
ghost use Rattle.std.specs.List.{AllByRecursion};
ghost use Rattle.ix_base.specs.Faults.{Rose};
ghost use Rattle.ix_fs.specs.Trees.{bytes_at, names_in, HasSize};
ghost use Rattle.ix_conf.specs.Grammar.{pairs, Gives};
ghost use Rattle.indexd_settings.specs.Layers.{file_name, file_named, path_in, app_layer, layer_names, folders_of, text_at, in_layer};
ghost use Rattle.indexd_settings.specs.Layers.{layer_read, layers_read, built_in, settings, refusal_text, ReadAs, IsOfText, LayerStops};
ghost use Rattle.indexd_settings.specs.Layers.{Reads, IsBegun, IsTextOr, LayerRefused};

use ix_base::{Bytes, Names, NoMemory};
use ix_conf::{ConfFault, ConfFile, Layer, Layers, built_in_zones, parse};
use ix_fs::{Tree, TreeFault};
use std::alloc::Global;
use std::string::ToString;
use thiserror::Error;

/// A file of settings, which stands in each layer under its name and `.conf`.
#[derive(Clone, Copy, Debug)]
pub enum SettingsFile {
    Props,
    Transforms,
    Indexes,
    Inputs,
    Zones,
}

/// The fault of a file, and the layer that it stands in.
#[derive(Debug, Drop, Error)]
#[error("a layer of a settings file is refused{fault}")]
pub struct LayerFault {
    pub layer: Bytes,
    pub fault: ConfFault,
}

/// Why layers were not read.
#[derive(Debug, Drop, Error)]
pub enum LayerStop {
    /// There was no room in memory.
    #[error("there was no room in memory")]
    Memory,
    /// The tree failed.
    #[error("the tree failed")]
    Input,
    /// A file has a fault.
    #[error("{0}")]
    Refused(LayerFault),
}

impl From<NoMemory> for LayerStop {
    ghost use Rattle.indexd_settings.specs.declared.layers.LayerStop.TheVariants.{Memory as memory};

    ghost from_gives = { λ _ stop. stop ≡ memory };

    fn from(_: NoMemory) -> LayerStop {
        LayerStop::Memory
    }
}

impl From<TreeFault> for LayerStop {
    ghost use Rattle.indexd_settings.specs.Layers.{stop_of};

    ghost from_gives = { λ fault stop. stop ≡ stop_of fault };

    fn from(fault: TreeFault) -> LayerStop {
        match fault {
            TreeFault::Failed | TreeFault::Missing => LayerStop::Input,
            TreeFault::NoMemory => LayerStop::Memory,
        }
    }
}

/// How many bytes of a file are read at once.
const BLOCK: usize = 65_536;

/// How many bytes a file has at the most.
const MAX_TEXT: u64 = 1_048_576;

impl SettingsFile {
    /// The file of this name; `None` for any but the five.
    pub fn named(name: &str) -> Option<SettingsFile>
        ensures { result ≡ file_named name.now }
    {
        match name {
            "props" => Some(SettingsFile::Props),
            "transforms" => Some(SettingsFile::Transforms),
            "indexes" => Some(SettingsFile::Indexes),
            "inputs" => Some(SettingsFile::Inputs),
            "zones" => Some(SettingsFile::Zones),
            _ => None,
        }
    }

    /// Its name.
    pub fn name(self) -> &'static [u8]
        ensures { result.now ≡ file_name self }
    {
        match self {
            SettingsFile::Props => b"props",
            SettingsFile::Transforms => b"transforms",
            SettingsFile::Indexes => b"indexes",
            SettingsFile::Inputs => b"inputs",
            SettingsFile::Zones => b"zones",
        }
    }

    /// Where it stands in a layer.
    fn path_in(self, alloc: Global, layer: &[u8]) -> Result<Bytes, NoMemory>
        ensures { IfOk result (λ path. path ≡ path_in layer.now self) }
    {
        let mut path = Bytes::copy_of(alloc, layer)?;
        path.extend(b"/")?;
        path.extend(self.name())?;
        path.extend(b".conf")?;
        Ok(path)
    }
}

impl LayerFault {
    /// The line that tells of the fault in a file.
    pub fn text(&self, alloc: Global, file: SettingsFile) -> Result<Bytes, NoMemory>
        ensures { IfOk result (λ text. text ≡ refusal_text file self.now) }
    {
        let mut text = Bytes::copy_of(alloc, b"indexd: configuration: ")?;
        let path = file.path_in(alloc, self.layer.as_slice())?;
        text.extend(path.as_slice())?;
        let fault = self.fault.to_string(alloc)?;
        text.extend(fault.as_bytes())?;
        text.extend(b"\n")?;
        Ok(text)
    }
}

/// Adds the layers of this kind of the apps.
fn push_apps(alloc: Global, names: &mut Names, apps: &Names, kind: &[u8]) -> Result<(), NoMemory>
    ensures { OnOk result (names.new ≡ names.old ++ map (app_layer kind.now) apps.now) }
{
    for app in apps.as_slice() {
        let mut name = Bytes::copy_of(alloc, b"etc/apps/")?;
        name.extend(app.as_slice())?;
        name.extend(kind)?;
        names.push(name)?;
    }
    Ok(())
}

/// The names of the layers that have a file, highest first.
fn layer_names(alloc: Global, apps: &Names) -> Result<Names, NoMemory>
    ensures { IfOk result (λ names. names ≡ layer_names apps.now) }
{
    let mut names = Names::new(alloc);
    names.push(Bytes::copy_of(alloc, b"etc/system/local")?)?;
    push_apps(alloc, &mut names, apps, b"/local")?;
    push_apps(alloc, &mut names, apps, b"/default")?;
    names.push(Bytes::copy_of(alloc, b"etc/system/default")?)?;
    Ok(names)
}

/// The names of the apps, in ASCII order; none where their folder is missing.
fn read_apps<T: Tree>(alloc: Global, tree: &mut T) -> Result<Names, TreeFault>
    ensures names { IfOk result (λ names. IfSome (T.files tree.old) (λ all. names ≡ names_in all (codes "etc/apps"))) }
    ensures failed { IsErrOf result TreeFault.Failed → Rose (T.faults tree.old) (T.faults tree.new) }
    ensures present { IsErrOf result TreeFault.Missing → ⊥ }
    ensures same { T.files tree.new ≡ T.files tree.old }
    ensures later { T.faults tree.old ≤ T.faults tree.new }
    ensures later_missing { T.missing tree.old ≤ T.missing tree.new }
{
    match tree.list(alloc, b"etc/apps") {
        Err(TreeFault::Missing) => Ok(Names::new(alloc)),
        other => other,
    }
}

/// The folders of all layers, the highest first.
pub fn layer_folders<T: Tree>(alloc: Global, tree: &mut T) -> Result<Names, TreeFault>
    ensures folders { IfOk result (λ names. IfSome (T.files tree.old) (λ all. names ≡ folders_of all)) }
    ensures failed { IsErrOf result TreeFault.Failed → Rose (T.faults tree.old) (T.faults tree.new) }
    ensures present { IsErrOf result TreeFault.Missing → ⊥ }
    ensures same { T.files tree.new ≡ T.files tree.old }
    ensures later { T.faults tree.old ≤ T.faults tree.new }
    ensures later_missing { T.missing tree.old ≤ T.missing tree.new }
{
    let apps = read_apps(alloc, tree)?;
    let names = layer_names(alloc, &apps)?;
    Ok(names)
}

/// Reads the next bytes of a file behind its first ones, and answers how many.
fn read_piece<T: Tree>(
    tree: &mut T,
    path: &[u8],
    text: &mut Bytes,
    block: &mut [u8],
) -> Result<usize, TreeFault>
    requires { 0 < length block.old }
    ensures begun { IfOk result (λ n. IsBegun (T.files tree.old) path.now text.old → IsBegun (T.files tree.old) path.now text.new) }
    ensures end { IfOk result (λ n. n ≡ 0 → IfSome (T.files tree.old) (λ all. length (text_at all path.now) ≤ length text.new)) }
    ensures count { IfOk result (λ n. (n ≤ length block.old) × (length text.new ≡ length text.old + n)) }
    ensures failed { IsErrOf result TreeFault.Failed → Rose (T.faults tree.old) (T.faults tree.new) }
    ensures absent { IsErrOf result TreeFault.Missing → IfSome (T.files tree.old) (λ all. text_at all path.now ≡ []) }
    ensures kept { IsErrOf result TreeFault.Missing → text.new ≡ text.old }
    ensures same { T.files tree.new ≡ T.files tree.old }
    ensures later { T.faults tree.old ≤ T.faults tree.new }
    ensures later_missing { T.missing tree.old ≤ T.missing tree.new }
    ensures room { length block.new ≡ length block.old }
{
    let n = tree.read(path, text.len() as u64, block)?;
    text.extend(&block[..n])?;
    Ok(n)
}

/// Room for the bytes that are read at once.
fn make_block(alloc: Global) -> Result<Vec<u8>, NoMemory>
    ensures { IfOk result (λ block. 0 < vec_len block) }
{
    let block = vec![in alloc; 0u8; BLOCK]?;
    Ok(block)
}

/// Reads a file of so many bytes. One that has become shorter, or is gone, is what was read of it.
fn read_bytes<T: Tree>(
    alloc: Global,
    tree: &mut T,
    path: &[u8],
    size: u64,
) -> Result<Bytes, TreeFault>
    ensures text { IfOk result (λ text. IfSome (T.files tree.old) (λ all. size ≡ length (text_at all path.now) →
        text ≡ text_at all path.now)) }
    ensures failed { IsErrOf result TreeFault.Failed → Rose (T.faults tree.old) (T.faults tree.new) }
    ensures present { IsErrOf result TreeFault.Missing → ⊥ }
    ensures same { T.files tree.new ≡ T.files tree.old }
    ensures later { T.faults tree.old ≤ T.faults tree.new }
    ensures later_missing { T.missing tree.old ≤ T.missing tree.new }
{
    let mut text = Bytes::new(alloc);
    let mut block = make_block(alloc)?;
    while (text.len() as u64) < size {
        match read_piece(tree, path, &mut text, &mut block) {
            Ok(0) => return Ok(text),
            Ok(_) => {}
            Err(TreeFault::Missing) => return Ok(text),
            Err(fault) => return Err(fault),
        }
    }
    Ok(text)
}

/// The size of a file; 0 for one that is missing.
fn size_of<T: Tree>(tree: &mut T, path: &[u8]) -> Result<u64, TreeFault>
    ensures size { IfOk result (λ size. IfSome (T.files tree.old) (λ all. size ≡ length (text_at all path.now))) }
    ensures failed { IsErrOf result TreeFault.Failed → Rose (T.faults tree.old) (T.faults tree.new) }
    ensures present { IsErrOf result TreeFault.Missing → ⊥ }
    ensures same { T.files tree.new ≡ T.files tree.old }
    ensures later { T.faults tree.old ≤ T.faults tree.new }
    ensures later_missing { T.missing tree.old ≤ T.missing tree.new }
{
    match tree.size(path) {
        Err(TreeFault::Missing) => Ok(0),
        other => other,
    }
}

/// The bytes of a file, none where it is missing, or `None` where they are too many.
fn read_text<T: Tree>(alloc: Global, tree: &mut T, path: &[u8]) -> Result<Option<Bytes>, TreeFault>
    ensures text { IfOk result (λ text. IfSome (T.files tree.old) (λ all. IsTextOr text (text_at all path.now))) }
    ensures failed { IsErrOf result TreeFault.Failed → Rose (T.faults tree.old) (T.faults tree.new) }
    ensures present { IsErrOf result TreeFault.Missing → ⊥ }
    ensures same { T.files tree.new ≡ T.files tree.old }
    ensures later { T.faults tree.old ≤ T.faults tree.new }
    ensures later_missing { T.missing tree.old ≤ T.missing tree.new }
{
    let size = size_of(tree, path)?;
    if size > MAX_TEXT {
        return Ok(None);
    }
    let text = read_bytes(alloc, tree, path, size)?;
    Ok(Some(text))
}

/// The entries of a text that is not too long, as `parse` gives them.
fn entries_of(alloc: Global, text: Option<Bytes>) -> Result<ConfFile, ConfFault>
    ensures gives { (bytes : List ℕ) → IsTextOr text bytes → Gives result (pairs bytes) }
    ensures text { IfOk result (λ entries. (bytes : List ℕ) × (pairs bytes ≡ Ok entries)) }
{
    match text {
        Some(text) => parse(alloc, text.as_slice()),
        None => Err(ConfFault::TooLong),
    }
}

/// The layer of these entries, or why there is none.
fn layer_of(
    alloc: Global,
    name: &[u8],
    entries: Result<ConfFile, ConfFault>,
) -> Result<Layer, LayerStop>
    ensures ok { IfOk result (λ layer. (bytes : List ℕ) → Gives entries (pairs bytes) → in_layer name.now (pairs bytes) ≡ Ok layer) }
    ensures err { IfErr result (λ stop. (bytes : List ℕ) → Gives entries (pairs bytes) →
        LayerRefused stop (in_layer name.now (pairs bytes))) }
    ensures file { IfOk result (λ layer. entries ≡ Ok layer.file) }
    ensures no_tree { result ≢ Err LayerStop.Input }
{
    let name = Bytes::copy_of(alloc, name)?;
    match entries {
        Ok(file) => Ok(Layer { name, file }),
        Err(ConfFault::NoMemory) => Err(LayerStop::Memory),
        Err(fault) => Err(LayerStop::Refused(LayerFault { layer: name, fault })),
    }
}

impl SettingsFile {
    /// Reads the file in a layer.
    fn read_layer<T: Tree>(
        self,
        alloc: Global,
        tree: &mut T,
        name: &[u8],
    ) -> Result<Layer, LayerStop>
        ensures reads { Reads result (T.faults tree.old) (T.faults tree.new) (T.files tree.old) (λ all. layer_read all self name.now) }
        ensures text { IfOk result (λ layer. IsOfText layer) }
        ensures same { T.files tree.new ≡ T.files tree.old }
        ensures later { T.faults tree.old ≤ T.faults tree.new }
        ensures later_missing { T.missing tree.old ≤ T.missing tree.new }
    {
        let path = self.path_in(alloc, name)?;
        let text = read_text(alloc, tree, path.as_slice())?;
        layer_of(alloc, name, entries_of(alloc, text))
    }

    /// Reads the file in each of these layers.
    pub(crate) fn read_layers<T: Tree>(
        self,
        alloc: Global,
        tree: &mut T,
        names: &[Bytes],
    ) -> Result<Layers, LayerStop>
        ensures reads { Reads result (T.faults tree.old) (T.faults tree.new) (T.files tree.old) (λ all. layers_read all self names.now) }
        ensures texts { IfOk result (λ layers. AllByRecursion IsOfText layers) }
        ensures same { T.files tree.new ≡ T.files tree.old }
        ensures later { T.faults tree.old ≤ T.faults tree.new }
        ensures later_missing { T.missing tree.old ≤ T.missing tree.new }
    {
        let mut layers = Layers::new(alloc);
        for name in names {
            let layer = self.read_layer(alloc, tree, name.as_slice())?;
            layers.push(layer)?;
        }
        Ok(layers)
    }

    /// Adds what is known of it without any file.
    pub(crate) fn push_built_in(self, alloc: Global, layers: &mut Layers) -> Result<(), NoMemory>
        ensures { OnOk result (layers.new ≡ layers.old ++ built_in self) }
    {
        match self {
            SettingsFile::Zones => {
                let name = Bytes::copy_of(alloc, b"built-in")?;
                let file = built_in_zones(alloc)?;
                layers.push(Layer { name, file })
            }
            _ => Ok(()),
        }
    }

    /// Reads the file in these layers, the highest first, and adds what is known without any file.
    /// The first fault counts.
    pub fn read_in<T: Tree>(
        self,
        alloc: Global,
        tree: &mut T,
        folders: &Names,
    ) -> Result<Layers, LayerStop>
        ensures reads { IfSome (T.files tree.old) (λ all. folders.now ≡ folders_of all) →
            Reads result (T.faults tree.old) (T.faults tree.new) (T.files tree.old) (λ all. settings all self) }
        ensures same { T.files tree.new ≡ T.files tree.old }
        ensures later { T.faults tree.old ≤ T.faults tree.new }
        ensures later_missing { T.missing tree.old ≤ T.missing tree.new }
    {
        let mut layers = self.read_layers(alloc, tree, folders.as_slice())?;
        self.push_built_in(alloc, &mut layers)?;
        Ok(layers)
    }

    /// Reads the file in all layers of the tree, the highest first, and adds what is known without
    /// any file. The first fault counts.
    pub fn read_all<T: Tree>(self, alloc: Global, tree: &mut T) -> Result<Layers, LayerStop>
        ensures reads { Reads result (T.faults tree.old) (T.faults tree.new) (T.files tree.old) (λ all. settings all self) }
        ensures same { T.files tree.new ≡ T.files tree.old }
        ensures later { T.faults tree.old ≤ T.faults tree.new }
        ensures later_missing { T.missing tree.old ≤ T.missing tree.new }
    {
        let folders = layer_folders(alloc, tree)?;
        self.read_in(alloc, tree, &folders)
    }
}
