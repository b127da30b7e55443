//! The values that kept settings give. The store reads them when it is mounted.

ghost use Rattle.std.specs.Prelude.{◌≡◌, ◌≢◌, List, [], None, Err, IfOk};
ghost use Rattle.ix_life.specs.Limits.{AreLimits, first_fault};
ghost use Rattle.ix_model.specs.declared.commands.Config.{Config};
ghost use Rattle.ix_props.specs.Props.{AreRead};
ghost use Rattle.ix_props.specs.declared.props.PropsEntry.{PropsEntry};
ghost use Rattle.ix_state.specs.Configs.{IsConfig};

use crate::faults::ConfigFault;
use crate::files::Files;
use ix_conf::Merged;
use ix_items::KeptList;
use ix_life::{LimitFault, LimitSet};
use ix_model::Config;
use ix_props::{Props, SettingFault};
use std::alloc::Global;

/// Why settings of channels are refused: for their values, or for want of memory.
fn fault_of(fault: SettingFault) -> ConfigFault
    ensures { result ≡ ConfigFault.Unsound → fault ≢ SettingFault.NoMemory }
{
    match fault {
        SettingFault::NoMemory => ConfigFault::NoMemory,
        _ => ConfigFault::Unsound,
    }
}

fn read_props(alloc: Global, files: &Files) -> Result<Props, ConfigFault>
    ensures ok { IfOk result (λ props. AreRead files.now.transforms files.now.zones files.now.props props) }
    ensures unsound { result ≡ Err ConfigFault.Unsound → (loaded : List PropsEntry) →
        AreRead files.now.transforms files.now.zones files.now.props loaded → ⊥ }
{
    match Props::load(alloc, &files.props, &files.transforms, &files.zones) {
        Ok(props) => Ok(props),
        Err(fault) => Err(fault_of(fault)),
    }
}

/// Why limits are refused: for what `first_fault` finds, or for want of memory.
fn limit_fault_of(fault: LimitFault) -> ConfigFault
    ensures { result ≡ ConfigFault.Unsound → fault ≢ LimitFault.NoMemory }
{
    match fault {
        LimitFault::NoMemory => ConfigFault::NoMemory,
        _ => ConfigFault::Unsound,
    }
}

fn read_limits(alloc: Global, indexes: &Merged) -> Result<LimitSet, ConfigFault>
    ensures limits { IfOk result (λ set. AreLimits indexes.now set) }
    ensures sound { IfOk result (λ set. first_fault indexes.now ≡ None) }
    ensures unsound { result ≡ Err ConfigFault.Unsound → first_fault indexes.now ≡ None → ⊥ }
{
    match LimitSet::load(alloc, indexes) {
        Ok(set) => Ok(set),
        Err(fault) => Err(limit_fault_of(fault)),
    }
}

/// The settings that a store goes by, of those that are kept. `Unsound` comes only where they give
/// none; no settings at all give what is built in.
pub fn config_of(alloc: Global, kept: KeptList) -> Result<Config, ConfigFault>
    ensures ok { IfOk result (λ config. IsConfig config × (config.kept ≡ kept)) }
    ensures unsound { result ≡ Err ConfigFault.Unsound → (config : Config) → IsConfig config → config.kept ≡ kept → ⊥ }
    ensures empty { kept ≡ [] → result ≡ Err ConfigFault.Unsound → ⊥ }
{
    let files = Files::read(alloc, kept.as_slice())?;
    let limits = read_limits(alloc, &files.indexes)?;
    let props = read_props(alloc, &files)?;
    Ok(Config {
        props,
        limits,
        kept,
    })
}
