//! The settings of a run, read of the five files. Each command but `btool` begins with them.

ghost use Rattle.std.specs.Prelude.{◌≡◌, ◌≢◌, ◌≤◌, None, IfOk, IfErr, OnOk};
ghost use Rattle.indexd_settings.specs.Faults.{StopsAt, StopsAtLimits, Stops};
ghost use Rattle.indexd_settings.specs.Configuration.{IsReadOf, IsConfiguration};
ghost use Rattle.ix_props.specs.Props.{AreRead};
ghost use Rattle.ix_life.specs.Limits.{AreLimits, first_fault};

use crate::faults::{ConfigurationFault, ConfigurationStop};
use crate::merged::MergedFiles;
use ix_fs::Tree;
use ix_life::{LimitFault, LimitSet};
use ix_props::{Props, SettingFault};
use std::alloc::Global;

/// What the settings of a run are read as.
#[derive(Drop)]
pub struct Configuration {
    /// What channels do with their bytes.
    pub props: Props,
    /// The indexes with their limits.
    pub limits: LimitSet,
}

/// Why there are no settings, where the values of props.conf are refused.
fn stop_of(fault: SettingFault) -> ConfigurationStop
    ensures memory { fault ≡ SettingFault.NoMemory → result ≡ ConfigurationStop.Memory }
    ensures refused { fault ≢ SettingFault.NoMemory → result ≡ ConfigurationStop.Refused (ConfigurationFault.Props fault) }
{
    match fault {
        SettingFault::NoMemory => ConfigurationStop::Memory,
        fault => ConfigurationStop::Refused(ConfigurationFault::Props(fault)),
    }
}

fn read_props(alloc: Global, found: &MergedFiles) -> Result<Props, ConfigurationStop>
    ensures ok { IfOk result (λ props. AreRead found.now.transforms found.now.zones found.now.props props) }
    ensures stopped { IfErr result (λ stop. StopsAt found.now stop) }
{
    match Props::load(alloc, &found.props, &found.transforms, &found.zones) {
        Ok(props) => Ok(props),
        Err(fault) => Err(stop_of(fault)),
    }
}

fn read_limits(alloc: Global, found: &MergedFiles) -> Result<LimitSet, ConfigurationStop>
    ensures ok { IfOk result (λ limits. AreLimits found.now.indexes limits) }
    ensures sound { OnOk result (first_fault found.now.indexes ≡ None) }
    ensures stopped { IfErr result (λ stop. StopsAtLimits found.now.indexes stop) }
{
    match LimitSet::load(alloc, &found.indexes) {
        Ok(limits) => Ok(limits),
        Err(LimitFault::NoMemory) => Err(ConfigurationStop::Memory),
        Err(fault) => Err(ConfigurationStop::Refused(ConfigurationFault::Indexes(fault))),
    }
}

impl MergedFiles {
    /// Reads the values of the merged files: those of props.conf with the transforms and zones that
    /// they name, and then those of indexes.conf. The first fault counts.
    pub fn configuration(&self, alloc: Global) -> Result<Configuration, ConfigurationStop>
        ensures ok { IfOk result (λ configuration. IsReadOf self.now configuration) }
        ensures stopped { IfErr result (λ stop. StopsAt self.now stop) }
    {
        let props = read_props(alloc, self)?;
        let limits = read_limits(alloc, self)?;
        Ok(Configuration { props, limits })
    }
}

/// Reads the settings of a run from the five files in all layers of the tree. The grammar of all
/// five is judged before any value. `Input` comes only where the tree has failed, and `Refused` has
/// the first fault.
pub fn read_configuration<T: Tree>(
    alloc: Global,
    tree: &mut T,
) -> Result<Configuration, ConfigurationStop>
    ensures ok { IfOk result (λ configuration. IsConfiguration (T.files tree.old) configuration) }
    ensures stopped { IfErr result (λ stop. Stops stop (T.faults tree.old) (T.faults tree.new) (T.files tree.old)) }
    ensures same { T.files tree.new ≡ T.files tree.old }
    ensures later { T.faults tree.old ≤ T.faults tree.new }
    ensures later_missing { T.missing tree.old ≤ T.missing tree.new }
{
    let found = MergedFiles::read(alloc, tree)?;
    found.configuration(alloc)
}
