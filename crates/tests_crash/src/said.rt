//! What is found, as a text that is compared once. Where memory is lacking the text stays too
//! short, and is not what is wanted.

use std::fmt::Debug;
use std::process::Abort;

/// Writes what was found.
pub fn note<T: Debug + Drop>(text: &mut String, found: T) {
    let _ = write!(text, "{found:?} ");
}

/// Compares what was found with what is wanted.
pub fn compare(rt: &impl Abort, found: String, wanted: &str) {
    assert_eq!(rt; found.as_str(), wanted);
}
