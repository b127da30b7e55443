//! What calls answer, as a text that is compared once. Where memory is lacking the text stays too short, and is not what is
//! wanted.

use std::fmt::Debug;
use std::process::Abort;
use std::str;

/// Writes what a call answered.
pub fn note<T: Debug + Drop>(text: &mut String, answer: T) {
    let _ = write!(text, "{answer:?} ");
}

/// Writes a word.
pub fn say(text: &mut String, word: &str) {
    let _ = write!(text, "{word} ");
}

/// Compares what calls answered with what they are to answer.
pub fn compare(rt: &impl Abort, found: String, wanted: &str) {
    assert_eq!(rt; found.as_str(), wanted);
}

/// Nothing was found that is unlike what is wanted. A mark that is written behind it tells that there was memory for it.
pub fn compare_none(rt: &impl Abort, mut unlike: String) {
    say(&mut unlike, "no other");
    compare(rt, unlike, "no other ");
}

pub fn shown(bytes: &[u8]) -> &str {
    str::from_utf8(bytes).unwrap_or("?")
}

/// The first bytes, as many as were read.
pub fn front(bytes: &[u8], count: usize) -> &str {
    shown(bytes.get(..count).unwrap_or(&[]))
}
