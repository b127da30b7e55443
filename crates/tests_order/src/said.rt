//! What is found, as a text that is compared once. Where memory is lacking the text stays too short, and is not what is wanted.

use std::process::Abort;

/// Writes a word.
pub fn say(text: &mut String, word: &str) {
    let _ = write!(text, "{word} ");
}

/// Compares what was found with what is wanted.
pub fn compare(rt: &impl Abort, found: String, wanted: &str) {
    assert_eq!(rt; found.as_str(), wanted);
}

/// Nothing was found that is unlike what is wanted. A mark that is written behind it tells that there was memory for it.
pub fn compare_none(rt: &impl Abort, mut unlike: String) {
    say(&mut unlike, "no other");
    compare(rt, unlike, "no other ");
}
