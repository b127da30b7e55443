//! The settings of a run that monitors files: those that a store is to go by, and the inputs. The
//! program reads them for this command alone.

ghost use Rattle.std.specs.Prelude.{◌≡◌, ◌≢◌, ◌≤◌, None, IfOk, IfErr};
ghost use Rattle.std.specs.List.{AllByRecursion};
ghost use Rattle.ix_monitor.specs.Inputs.{first_fault, Refuses, IsStated, inputs as listed};
ghost use Rattle.ix_state.specs.Configs.{IsConfig};
ghost use Rattle.indexd_settings.specs.Given.{IsConfigOf};
ghost use Rattle.indexd_settings.specs.Inputs as defs;

use crate::faults::{ConfigurationStop, stanza_line, value_line};
use crate::layers::SettingsFile;
use crate::merged::MergedFiles;
use crate::reading::config_of;
use ix_base::{Bytes, NoMemory};
use ix_fs::Tree;
use ix_life::LimitSet;
use ix_model::Config;
use ix_monitor::{InputFault, Inputs};
use ix_state::{kept_is_config, read_names_are_short};
use std::alloc::Global;
use thiserror::Error;

/// The settings of a run that monitors files.
#[derive(Drop)]
pub struct Monitored {
    /// What the store is to go by.
    pub config: Config,
    /// Which files are watched.
    pub inputs: Inputs,
}

/// Why there are none.
#[derive(Debug, Drop, Error)]
pub enum MonitorStop {
    /// There are no settings that a store could go by.
    #[error("{0}")]
    Settings(ConfigurationStop),
    /// There are, and inputs.conf has a fault.
    #[error("the settings of inputs are refused: {0}")]
    Inputs(InputFault),
}

/// Why the inputs were not read.
fn stop_of(fault: InputFault) -> MonitorStop
    ensures memory { fault ≡ InputFault.NoMemory → result ≡ MonitorStop.Settings ConfigurationStop.Memory }
    ensures refused { fault ≢ InputFault.NoMemory → result ≡ MonitorStop.Inputs fault }
{
    match fault {
        InputFault::NoMemory => MonitorStop::Settings(ConfigurationStop::Memory),
        fault => MonitorStop::Inputs(fault),
    }
}

/// Reads the inputs, which state indexes of these limits.
fn load_inputs(alloc: Global, found: &MergedFiles, limits: &LimitSet) -> Result<Inputs, MonitorStop>
    ensures sound { IfOk result (λ inputs. (first_fault limits.now found.now.inputs ≡ None) × (inputs ≡ listed found.now.inputs)) }
    ensures stated { IfOk result (λ inputs. AllByRecursion (IsStated limits.now) inputs) }
    ensures stopped { IfErr result (λ stop. defs.StopsInputs found.now.inputs limits.now stop) }
{
    match Inputs::load(alloc, &found.inputs, limits) {
        Ok(inputs) => Ok(inputs),
        Err(fault) => Err(stop_of(fault)),
    }
}

/// Reads the values of the merged files, and the inputs.
fn monitored_of(alloc: Global, found: &MergedFiles) -> Result<Monitored, MonitorStop>
    ensures given { IfOk result (λ read. defs.AreGivenBy found.now read.config read.inputs) }
    ensures stated { IfOk result (λ read. AllByRecursion (IsStated read.config.limits) read.inputs) }
    ensures stopped { IfErr result (λ stop. defs.StopsValues found.now stop) }
{
    let config = match config_of(alloc, found) {
        Ok(config) => config,
        Err(stop) => return Err(MonitorStop::Settings(stop)),
    };
    match load_inputs(alloc, found, &config.limits) {
        Ok(inputs) => Ok(Monitored { config, inputs }),
        Err(stop) => Err(stop),
    }
}

/// Reads the settings that a store is to go by, and the inputs, from the files of settings in all
/// layers of the tree, each layer once. inputs.conf is judged behind all other files. `Input` comes
/// only where the tree has failed, and else the first fault is told.
pub fn read_monitored<T: Tree>(alloc: Global, tree: &mut T) -> Result<Monitored, MonitorStop>
    ensures sound { IfOk result (λ read. IsConfig read.config) }
    ensures of_files { IfOk result (λ read. IsConfigOf (T.files tree.old) read.config) }
    ensures inputs { IfOk result (λ read. defs.AreInputsOf (T.files tree.old) read.config.limits read.inputs) }
    // What they state is short, and their indexes are configured.
    ensures stated { IfOk result (λ read. AllByRecursion (IsStated read.config.limits) read.inputs) }
    ensures stopped { IfErr result (λ stop. defs.StopsMonitor stop (T.faults tree.old) (T.faults tree.new) (T.files tree.old)) }
    ensures same { T.files tree.new ≡ T.files tree.old }
    ensures later { T.faults tree.old ≤ T.faults tree.new }
    ensures later_missing { T.missing tree.old ≤ T.missing tree.new }
{
    // the laws by which the settings are such as a store takes
    kept_is_config();
    read_names_are_short();
    let found = match MergedFiles::read(alloc, tree) {
        Ok(found) => found,
        Err(stop) => return Err(MonitorStop::Settings(stop)),
    };
    monitored_of(alloc, &found)
}

/// The line that tells of a fault of inputs.conf, with its newline: the stanza and the key, and the
/// name of the fault.
pub fn input_line(alloc: Global, fault: &InputFault) -> Result<Bytes, NoMemory>
    ensures { IfOk result (λ line. line ≡ defs.input_line fault.now) }
{
    match fault {
        InputFault::BadValue { stanza, key } => {
            let stanza = stanza.as_slice();
            let key = key.as_slice();
            value_line(alloc, SettingsFile::Inputs, stanza, key, b"BadValue")
        }
        InputFault::BadStanza { stanza } => {
            let stanza = stanza.as_slice();
            stanza_line(alloc, SettingsFile::Inputs, stanza, b"BadStanza")
        }
        InputFault::NoMemory => Err(NoMemory),
    }
}
