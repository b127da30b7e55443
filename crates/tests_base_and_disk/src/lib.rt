//! Tests of the base and of what is kept on a disk, by public calls: the shared types and the traits of the outside, disks, the log of
//! commits, event records, archives, export, the items of a commit and those that a checkpoint is told.
#![tactic(auto)]

#[cfg(test)]
mod archive;
#[cfg(test)]
mod base;
#[cfg(test)]
mod bucket;
#[cfg(test)]
mod disk;
#[cfg(test)]
mod export;
#[cfg(test)]
mod faults;
#[cfg(test)]
mod items;
#[cfg(test)]
mod log;
#[cfg(test)]
mod machine;
#[cfg(test)]
mod made;
#[cfg(test)]
mod said;
#[cfg(test)]
mod told;
