//! Values of settings: each kind of value as a type, and the reader that makes one of the text of a
//! setting.
#![tactic(auto)]

mod escapes;
mod formats;
mod patterns;
mod plain;
mod seds;
mod transforms;
mod values;

pub use escapes::{Part, PartList};
pub use formats::{Directive, FormatFault, TimeFormat};
pub use patterns::read_pattern;
pub use plain::{read_boolean, read_count, read_digits, read_number};
pub use seds::{Sed, SedFault, SedList, Which};
pub use transforms::{Key, Transform, TransformFault, TransformList};
pub use values::{own_value, value_of};
