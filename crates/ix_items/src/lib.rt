//! The items of a commit's body: one change of the store's state each, as bytes and back.
#![tactic(auto)]

mod copies;
mod fields;
mod items;
mod laws;
mod puts;
mod reading;
mod writable;
mod writing;

pub use copies::copy_settings;
pub use items::{Bucket, Entry, FileList, Item, ItemFault, Kept, KeptList, Rule, State};
pub use laws::{one_item, one_list};
pub use reading::read_item;
pub use writable::{are_kept, are_writable, is_short, is_short_meta};
pub use writing::write_item;
