//! What a store is to go by: the values of the files of settings, and what is kept of them with the
//! store.

ghost use Rattle.std.specs.Prelude.{◌≡◌, ◌≤◌, IfOk, IfErr};
ghost use Rattle.ix_state.specs.Configs.{IsConfig};
ghost use Rattle.ix_state.specs.Keeping.{all_kept};
ghost use Rattle.indexd_settings.specs.Faults.{StopsAt, Stops};
ghost use Rattle.indexd_settings.specs.Given.{ConfigsAreTaken, IsGivenBy, IsConfigOf};

use crate::faults::ConfigurationStop;
use crate::merged::MergedFiles;
use ix_base::NoMemory;
use ix_fs::Tree;
use ix_items::KeptList;
use ix_model::Config;
use ix_state::{KeptFiles, kept_is_config, kept_of, read_names_are_short};
use std::alloc::Global;

/// What is kept of the files; of zones.conf without what is built in.
fn keep(alloc: Global, found: &MergedFiles) -> Result<KeptList, NoMemory>
    ensures { IfOk result (λ kept. kept ≡ all_kept found.now.props found.now.transforms found.now.indexes found.now.own_zones) }
{
    let files = KeptFiles {
        props: &found.props,
        transforms: &found.transforms,
        indexes: &found.indexes,
        zones: &found.own_zones,
    };
    kept_of(alloc, &files)
}

/// Reads the values of the merged files, and keeps what they say.
pub(crate) fn config_of(alloc: Global, found: &MergedFiles) -> Result<Config, ConfigurationStop>
    ensures given { IfOk result (λ config. IsGivenBy found.now config) }
    ensures stopped { IfErr result (λ stop. StopsAt found.now stop) }
{
    let values = found.configuration(alloc)?;
    let kept = keep(alloc, found)?;
    Ok(Config {
        props: values.props,
        limits: values.limits,
        kept,
    })
}

/// Reads the settings that a store is to go by from the files of settings in all layers of the
/// tree, each layer once. The store takes no other settings than such. `Input` comes only where the
/// tree has failed, and `Refused` has the first fault.
pub fn read_config<T: Tree>(alloc: Global, tree: &mut T) -> Result<Config, ConfigurationStop>
    ensures sound { IfOk result (λ config. IsConfig config) }
    ensures of_files { IfOk result (λ config. IsConfigOf (T.files tree.old) config) }
    ensures stopped { IfErr result (λ stop. Stops stop (T.faults tree.old) (T.faults tree.new) (T.files tree.old)) }
    ensures same { T.files tree.new ≡ T.files tree.old }
    ensures later { T.faults tree.old ≤ T.faults tree.new }
    ensures later_missing { T.missing tree.old ≤ T.missing tree.new }
{
    // the laws by which the settings are such as a store takes
    kept_is_config();
    read_names_are_short();
    let found = MergedFiles::read(alloc, tree)?;
    config_of(alloc, &found)
}

/// A law of the settings that the files of a tree give: a change to them is a command that a store
/// takes, at any moment. So a history stays one of such commands where the program gives the
/// settings of its files.
pub fn configs_are_taken()
    ensures { ConfigsAreTaken }
{
    kept_is_config();
    read_names_are_short();
}
