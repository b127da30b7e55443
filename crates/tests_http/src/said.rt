//! What calls answer, as a text that is compared once. Where memory is lacking the text stays too short, and is not what is
//! wanted.

use ix_base::{Bytes, FailPlan, NoMemory};
use ix_http::{Incoming, LinkFault, Routes, read_request};
use ix_net::Link;
use std::alloc::Global;
use std::fmt::Debug;
use std::process::Abort;
use std::str;

/// Writes what a call answered.
pub fn note<T: Debug + Drop>(text: &mut String, answer: T) {
    let _ = write!(text, "{answer:?} ");
}

/// Writes a word.
pub fn say(text: &mut String, word: &str) {
    let _ = write!(text, "{word} ");
}

/// Compares what calls answered with what they are to answer.
pub fn compare(rt: &impl Abort, found: String, wanted: &str) {
    assert_eq!(rt; found.as_str(), wanted);
}

pub fn bytes_of(alloc: Global, bytes: &[u8]) -> Bytes {
    Bytes::copy_of(alloc, bytes).unwrap_or(Bytes::new(alloc))
}

/// The plan by which the call of this number fails.
pub fn failing(alloc: Global, number: u64) -> FailPlan {
    FailPlan::new([number].to_vec(alloc).unwrap_or(Vec::new(alloc)))
}

pub fn shown(bytes: &[u8]) -> &str {
    str::from_utf8(bytes).unwrap_or("?")
}

/// Reads a request, by routes that are made for it alone.
pub fn read<K: Link>(alloc: Global, link: &mut K) -> Result<Incoming, LinkFault> {
    match Routes::new(alloc) {
        Ok(routes) => read_request(alloc, &routes, link),
        Err(NoMemory) => Err(LinkFault::NoMemory { whole: false }),
    }
}
