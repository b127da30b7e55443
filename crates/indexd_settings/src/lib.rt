//! The settings of a run: the five files in all layers of the tree, merged, and what their values
//! are read as, or the line that tells of the first fault. The program calls it before it does
//! anything else that depends on settings.
#![tactic(auto)]

mod configuration;
mod faults;
mod inputs;
mod layers;
mod merged;
mod reading;

pub use configuration::{Configuration, read_configuration};
pub use faults::{ConfigurationFault, ConfigurationStop};
pub use inputs::{MonitorStop, Monitored, input_line, read_monitored};
pub use layers::{LayerFault, LayerStop, SettingsFile};
pub use merged::MergedFiles;
pub use reading::{configs_are_taken, read_config};
