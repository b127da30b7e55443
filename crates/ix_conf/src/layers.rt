//! Layers of files, and what they say together.

use crate::entries::ConfFile;
use ix_base::{Bytes, Sequence};

/// What one file says in a layer of this name.
#[derive(Drop)]
pub struct Layer {
    pub name: Bytes,
    pub file: ConfFile,
}

/// Layers of a file, the highest first.
pub type Layers = Sequence<Layer>;

/// An entry of merged settings. A stanza's own entry has an empty key, value and layer.
#[derive(Drop)]
pub struct MergedEntry {
    pub stanza: Bytes,
    pub key: Bytes,
    pub value: Bytes,
    /// The name of the layer that the value comes from.
    pub layer: Bytes,
}
