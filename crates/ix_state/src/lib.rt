//! The settings that a store keeps, and the values that they give, which the store reads again when
//! it is mounted. And the state of a store in memory: what a command is refused for, and when a
//! Tick comes before it.
#![tactic(auto)]

mod checks;
mod choosers;
mod configs;
mod faults;
mod files;
mod judging;
mod keeping;
mod ranking;
mod state;

pub use choosers::{choosers_exist, chosen_lives_join, settings_exist};
pub use configs::config_of;
pub use faults::ConfigFault;
pub use keeping::{KeptFiles, kept_is_config, kept_of, read_names_are_short};
pub use ranking::ranked;
pub use state::{CatalogState, OpenChannel, StoreState};
