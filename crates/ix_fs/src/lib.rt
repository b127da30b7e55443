//! The trait of a tree of files, which is where settings are read from, with its form in memory and
//! the one over the folders of the machine.
#![tactic(auto)]

mod trees;

pub use trees::{HostTree, MemTree, Tree, TreeFault, TreeFile, TreeFileList, names_are_in_order};
