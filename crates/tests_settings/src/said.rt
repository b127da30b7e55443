//! What calls answer, as a text that is compared once. Where memory is lacking the text stays too short, and is not what is
//! wanted.

use ix_base::{Bytes, NoMemory};
use ix_conf::{Layer, Layers, Merged, merge, parse};
use std::alloc::Global;
use std::fmt::Debug;
use std::process::Abort;
use std::str;

/// Writes what a call answered, behind a space.
pub fn note<T: Debug + Drop>(text: &mut String, answer: T) {
    let _ = write!(text, " {answer:?}");
}

/// Writes a word, behind a space.
pub fn say(text: &mut String, word: &str) {
    let _ = write!(text, " {word}");
}

/// A text that has what a call answered.
pub fn noted<T: Debug + Drop>(alloc: Global, answer: T) -> String {
    let mut text = String::new(alloc);
    note(&mut text, answer);
    text
}

/// Compares what calls answered with what they are to answer, without the space in front of the first answer, and says what was
/// asked where that is something else.
pub fn compare_answer(rt: &impl Abort, asked: &str, found: String, wanted: &str) {
    assert!(rt; found.as_str().trim_start() == wanted, "{asked}: {found}");
}

/// The same where it is plain what was asked.
pub fn compare(rt: &impl Abort, found: String, wanted: &str) {
    compare_answer(rt, wanted, found, wanted);
}

pub fn bytes_of(alloc: Global, bytes: &[u8]) -> Bytes {
    Bytes::copy_of(alloc, bytes).unwrap_or(Bytes::new(alloc))
}

/// Writes bytes at the end.
pub fn put(text: &mut String, bytes: &[u8]) {
    let _ = text.push_str(shown(bytes));
}

/// Adds a piece so many times.
pub fn repeat(out: &mut Bytes, piece: &[u8], count: usize) {
    for _ in 0..count {
        let _ = out.extend(piece);
    }
}

pub fn shown(bytes: &[u8]) -> &str {
    str::from_utf8(bytes).unwrap_or("?")
}

/// Adds a layer of this text, unless the text has a fault.
pub fn add_layer(alloc: Global, layers: &mut Layers, name: &[u8], text: &[u8]) -> bool {
    match parse(alloc, text) {
        Ok(file) => {
            let name = bytes_of(alloc, name);
            layers.push(Layer { name, file }).is_ok()
        }
        Err(_) => false,
    }
}

/// The settings of one file, whose text has no fault.
pub fn settings_of(alloc: Global, text: &[u8]) -> Result<Merged, NoMemory> {
    let mut layers = Layers::new(alloc);
    let is_added = add_layer(alloc, &mut layers, b"etc/system/local", text);
    let merged = merge(alloc, &layers);
    drop(layers);
    if is_added {
        merged
    } else {
        drop(merged);
        Err(NoMemory)
    }
}
