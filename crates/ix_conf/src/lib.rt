//! Settings files: the grammar of a .conf text, the layers in which files stand over one another,
//! and the patterns that stanzas have for names.
#![tactic(auto)]

mod cuts;
mod entries;
mod layers;
mod lines;
mod merged;
mod merging;
mod names;
mod reading;
mod stars;
mod tokens;
mod zones;

pub use entries::{ConfFault, ConfFile, Entry};
pub use layers::{Layer, Layers, MergedEntry};
pub use merged::{Item, Merged, Setting, merge};
pub use names::NamePattern;
pub use reading::parse;
pub use stars::fits_stars;
pub use tokens::NameFault;
pub use zones::built_in_zones;
