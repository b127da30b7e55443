//! What may be wrong with the settings of a run, and the line that tells of it.

ghost use Rattle.std.specs.Prelude.{◌≡◌, ◌++◌, [], ◌∷◌, codes, OnOk, IfOk, bytes_eq};
ghost use Rattle.indexd_settings.specs.Layers.{file_name};
ghost use Rattle.indexd_settings.specs.Texts.{is_key_of_change, is_key_of_place, file_of_key, value_line, stanza_line, setting_line};
ghost use Rattle.indexd_settings.specs.Texts.{limit_line, fault_line};

use crate::layers::{LayerFault, SettingsFile};
use ix_base::{Bytes, NoMemory};
use ix_fs::TreeFault;
use ix_life::LimitFault;
use ix_props::SettingFault;
use std::alloc::Global;
use thiserror::Error;

/// The first fault in the settings of a run.
#[derive(Debug, Drop, Error)]
pub enum ConfigurationFault {
    /// A layer of this file is no text of settings.
    #[error("{refusal}")]
    File {
        file: SettingsFile,
        refusal: LayerFault,
    },
    /// All files are texts of settings, and a value of props.conf, or of a transform or zone that
    /// it names, is none of its kind.
    #[error("the settings of channels are refused: {0}")]
    Props(SettingFault),
    /// There is no fault but in a value of indexes.conf or in the name of an index.
    #[error("the settings of indexes are refused: {0}")]
    Indexes(LimitFault),
}

/// Why there are no settings.
#[derive(Debug, Drop, Error)]
pub enum ConfigurationStop {
    /// There was no room in memory.
    #[error("there was no room in memory")]
    Memory,
    /// The tree failed.
    #[error("the tree failed")]
    Input,
    /// The settings have a fault.
    #[error("{0}")]
    Refused(ConfigurationFault),
}

impl From<NoMemory> for ConfigurationStop {
    ghost use Rattle.indexd_settings.specs.declared.faults.ConfigurationStop.TheVariants.{Memory as memory};

    ghost from_gives = { λ _ stop. stop ≡ memory };

    fn from(_: NoMemory) -> ConfigurationStop {
        ConfigurationStop::Memory
    }
}

impl From<TreeFault> for ConfigurationStop {
    ghost use Rattle.indexd_settings.specs.Faults.{stop_of};

    ghost from_gives = { λ fault stop. stop ≡ stop_of fault };

    fn from(fault: TreeFault) -> ConfigurationStop {
        match fault {
            TreeFault::Failed | TreeFault::Missing => ConfigurationStop::Input,
            TreeFault::NoMemory => ConfigurationStop::Memory,
        }
    }
}

fn is_key(key: &[u8], name: &[u8]) -> bool
    ensures { result ≡ bytes_eq key.now name.now }
{
    key == name
}

/// Whether transforms.conf has such a key of how the text is changed.
fn is_key_of_change(key: &[u8]) -> bool
    ensures { result ≡ is_key_of_change key.now }
{
    is_key(key, b"REGEX") | is_key(key, b"FORMAT") | is_key(key, b"DEFAULT_VALUE")
}

/// Whether transforms.conf has such a key of where the text comes from and goes to.
fn is_key_of_place(key: &[u8]) -> bool
    ensures { result ≡ is_key_of_place key.now }
{
    is_key(key, b"DEST_KEY") | is_key(key, b"SOURCE_KEY") | is_key(key, b"WRITE_META")
}

/// The file in which a key of a channel's settings stands. No two files share one.
fn file_of_key(key: &[u8]) -> SettingsFile
    ensures { result ≡ file_of_key key.now }
{
    if is_key_of_change(key) | is_key_of_place(key) | is_key(key, b"LOOKAHEAD") {
        SettingsFile::Transforms
    } else if is_key(key, b"RULE") {
        SettingsFile::Zones
    } else {
        SettingsFile::Props
    }
}

/// Adds the name of a file, and a stanza of it.
fn add_stanza(line: &mut Bytes, file: SettingsFile, stanza: &[u8]) -> Result<(), NoMemory>
    ensures { OnOk result (line.new ≡ line.old ++ file_name file ++ codes " [" ++ stanza.now) }
{
    line.extend(file.name())?;
    line.extend(b" [")?;
    line.extend(stanza)
}

/// Adds the name of a fault behind what stands before it, and ends the line.
fn add_fault(line: &mut Bytes, before: &[u8], fault: &[u8]) -> Result<(), NoMemory>
    ensures { OnOk result (line.new ≡ line.old ++ before.now ++ fault.now ++ codes "\n") }
{
    line.extend(before)?;
    line.extend(fault)?;
    line.extend(b"\n")
}

/// The line of a fault in the name of a stanza.
pub(crate) fn stanza_line(
    alloc: Global,
    file: SettingsFile,
    stanza: &[u8],
    fault: &[u8],
) -> Result<Bytes, NoMemory>
    ensures { IfOk result (λ line. line ≡ stanza_line file stanza.now fault.now) }
{
    let mut line = Bytes::copy_of(alloc, b"indexd: configuration: ")?;
    add_stanza(&mut line, file, stanza)?;
    add_fault(&mut line, b"]: ", fault)?;
    Ok(line)
}

/// The line of a fault in the value of a key.
pub(crate) fn value_line(
    alloc: Global,
    file: SettingsFile,
    stanza: &[u8],
    key: &[u8],
    fault: &[u8],
) -> Result<Bytes, NoMemory>
    ensures { IfOk result (λ line. line ≡ value_line file stanza.now key.now fault.now) }
{
    let mut line = Bytes::copy_of(alloc, b"indexd: configuration: ")?;
    add_stanza(&mut line, file, stanza)?;
    line.extend(b"] ")?;
    line.extend(key)?;
    add_fault(&mut line, b": ", fault)?;
    Ok(line)
}

fn setting_line(alloc: Global, fault: &SettingFault) -> Result<Bytes, NoMemory>
    ensures { IfOk result (λ line. line ≡ setting_line fault.now) }
{
    let name = fault.name().as_bytes();
    match fault {
        SettingFault::BadValue { stanza, key } | SettingFault::BadPattern { stanza, key, .. } => {
            let key = key.as_slice();
            value_line(alloc, file_of_key(key), stanza.as_slice(), key, name)
        }
        SettingFault::UnknownTransform { stanza, key, .. } => {
            let stanza = stanza.as_slice();
            value_line(alloc, SettingsFile::Props, stanza, key.as_slice(), name)
        }
        SettingFault::UnknownZone { stanza, .. } => {
            value_line(alloc, SettingsFile::Props, stanza.as_slice(), b"TZ", name)
        }
        SettingFault::BadStanzaPattern { stanza } => {
            stanza_line(alloc, SettingsFile::Props, stanza.as_slice(), name)
        }
        SettingFault::NoMemory => Err(NoMemory),
    }
}

fn limit_line(alloc: Global, fault: &LimitFault) -> Result<Bytes, NoMemory>
    ensures { IfOk result (λ line. line ≡ limit_line fault.now) }
{
    let name = fault.name().as_bytes();
    match fault {
        LimitFault::BadValue { stanza, key } => {
            let stanza = stanza.as_slice();
            value_line(alloc, SettingsFile::Indexes, stanza, key.as_slice(), name)
        }
        LimitFault::BadIndexName { stanza } => {
            stanza_line(alloc, SettingsFile::Indexes, stanza.as_slice(), name)
        }
        LimitFault::NoMemory => Err(NoMemory),
    }
}

impl ConfigurationFault {
    /// The line that tells of the fault, with its newline: the file with its layer and place, or
    /// the stanza and the key, and the name of the fault.
    pub fn line(&self, alloc: Global) -> Result<Bytes, NoMemory>
        ensures { IfOk result (λ line. line ≡ fault_line self.now) }
    {
        match self {
            ConfigurationFault::File { file, refusal } => refusal.text(alloc, *file),
            ConfigurationFault::Props(fault) => setting_line(alloc, fault),
            ConfigurationFault::Indexes(fault) => limit_line(alloc, fault),
        }
    }
}
