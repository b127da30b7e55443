//! What calls answer, as a text that is compared once. Where memory is lacking the text stays too short or says so, and is not what
//! is wanted.

use ix_base::{Bytes, Event, NoMemory};
use ix_conf::{Layer, Layers, Merged, merge, parse};
use std::alloc::Global;
use std::fmt::Display;
use std::process::Abort;
use std::str;

/// Writes a word, a number or a piece of a text.
pub(crate) fn put<T: Display + Drop>(text: &mut String, word: T) {
    let _ = write!(text, "{word}");
}

/// Writes the name of a row with what was found there, where that is not what is wanted.
pub(crate) fn put_unlike(unlike: &mut String, row: &str, found: String, wanted: &str) {
    if found.as_str() != wanted {
        put(unlike, row);
        put(unlike, " but ");
        put(unlike, found.as_str());
        put(unlike, "\n");
    }
    drop(found);
}

/// Compares what was found with what is wanted.
pub(crate) fn compare(rt: &impl Abort, found: String, wanted: &str) {
    assert_eq!(rt; found.as_str(), wanted);
}

/// Nothing was found that is unlike what is wanted. A mark that is written behind it tells that there was memory for it.
pub(crate) fn compare_none(rt: &impl Abort, mut unlike: String) {
    put(&mut unlike, "no other");
    compare(rt, unlike, "no other");
}

/// The bytes as a text.
pub(crate) fn shown(bytes: &[u8]) -> &str {
    str::from_utf8(bytes).unwrap_or("?")
}

/// Writes a field with a mark behind it.
fn put_field(text: &mut String, field: &Bytes, mark: &str) {
    put(text, shown(field.as_slice()));
    put(text, mark);
}

/// Writes the fields of an event with a mark behind each, and its raw text.
pub(crate) fn put_event(text: &mut String, event: &Event, mark: &str) {
    put_field(text, &event.index, mark);
    put_field(text, &event.host, mark);
    put_field(text, &event.source, mark);
    put_field(text, &event.sourcetype, mark);
    put_field(text, &event.meta, mark);
    put(text, shown(event.raw.as_slice()));
}

pub(crate) fn bytes_of(alloc: Global, bytes: &[u8]) -> Bytes {
    Bytes::copy_of(alloc, bytes).unwrap_or(Bytes::new(alloc))
}

/// So many of one byte.
pub(crate) fn many(alloc: Global, byte: u8, count: usize) -> Bytes {
    Bytes::from_vec(vec![in alloc; byte; count].unwrap_or(Vec::new(alloc)))
}

/// Adds one byte so many times, and others behind it.
fn fill(bytes: &mut Bytes, byte: u8, count: usize, behind: &[u8]) -> Result<(), NoMemory> {
    for _ in 0..count {
        bytes.push(byte)?;
    }
    bytes.extend(behind)
}

/// Some bytes, one byte so many times, and others.
pub(crate) fn filled(
    alloc: Global,
    before: &[u8],
    byte: u8,
    count: usize,
    behind: &[u8],
) -> Result<Bytes, NoMemory> {
    let mut bytes = Bytes::copy_of(alloc, before)?;
    match fill(&mut bytes, byte, count, behind) {
        Ok(()) => Ok(bytes),
        Err(NoMemory) => {
            drop(bytes);
            Err(NoMemory)
        }
    }
}

/// Adds a layer of this text, unless the text has a fault of grammar.
fn add_layer(alloc: Global, layers: &mut Layers, text: &str) -> bool {
    match parse(alloc, text.as_bytes()) {
        Ok(file) => {
            let name = bytes_of(alloc, b"local");
            layers.push(Layer { name, file }).is_ok()
        }
        Err(_) => false,
    }
}

/// The settings of a text. No text here has a fault of grammar.
pub(crate) fn merged(alloc: Global, text: &str) -> Result<Merged, NoMemory> {
    let mut layers = Layers::new(alloc);
    let is_added = add_layer(alloc, &mut layers, text);
    let merged = merge(alloc, &layers);
    drop(layers);
    if is_added {
        merged
    } else {
        drop(merged);
        Err(NoMemory)
    }
}
