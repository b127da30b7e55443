//! What the tests of `preview` share: the lines of the events that a run is to write.

use crate::tests::runs::{Run, compare_texts, previewed};
use std::alloc::Global;
use std::process::Abort;

/// Adds the line of an event that is written as `INDEX TIME HOST SOURCE TYPE RAW`, the time in whole seconds.
fn add_event(event: &str, text: &mut String) {
    for (at, field) in event.splitn(6, ' ').enumerate() {
        let (before, behind) = match at {
            1 => ("", ".000000\t"),
            5 => ("\t", "\n"),
            _ => ("", "\t"),
        };
        let _ = write!(text, "{before}{field}{behind}");
    }
}

/// The status 0 and the lines of events, with `;` behind each.
fn lines_of(alloc: Global, events: &str) -> String {
    let mut text = String::new(alloc);
    let _ = write!(text, "0: ");
    for event in events.split(';') {
        if !event.is_empty() {
            add_event(event, &mut text);
        }
    }
    text
}

/// A run writes the lines of these events.
pub(crate) fn shows(rt: &impl Abort, alloc: Global, run: Run<'_>, events: &str) {
    let want = lines_of(alloc, events);
    compare_texts(rt, run.line, previewed(alloc, run), want);
}
