//! Times as rows of text. Where memory is lacking a text stays too short, and is not what is wanted.

use crate::said::{put, put_unlike};
use ix_base::NoMemory;
use ix_props::{TimeFormat, TimeSettings, Zone};
use ix_time::{Origin, TimeFound, time_of};
use std::alloc::Global;

fn format_of(alloc: Global, format: &str) -> Result<Option<TimeFormat>, NoMemory> {
    if format.is_empty() {
        return Ok(None);
    }
    match TimeFormat::read(alloc, format.as_bytes()) {
        Ok(format) => Ok(Some(format)),
        Err(_) => Err(NoMemory),
    }
}

/// The settings of a format, where there is one, and a rule of a zone, with no limit of age. No text here has a fault.
pub(crate) fn settings(alloc: Global, format: &str, rule: &str) -> Result<TimeSettings, NoMemory> {
    let format = format_of(alloc, format)?;
    match Zone::read(alloc, rule.as_bytes()) {
        Ok(zone) => Ok(TimeSettings {
            prefix: None,
            format,
            lookahead: Some(128),
            zone,
            days_ago: u32::MAX,
            days_hence: u32::MAX,
        }),
        Err(_) => {
            drop(format);
            Err(NoMemory)
        }
    }
}

/// Writes a time and where it is from: the time alone if it was read, and nothing at all for the arrival.
pub(crate) fn put_time(text: &mut String, found: TimeFound) {
    match found.origin {
        Origin::Read => put(text, found.time),
        Origin::Last => {
            put(text, "last ");
            put(text, found.time);
        }
        Origin::Arrival => put(text, "-"),
    }
}

/// The time of a text that arrived at this moment, in microseconds.
fn row_time(alloc: Global, format: &str, rule: &str, text: &str, arrival: i64) -> String {
    let mut said = String::new(alloc);
    if let Ok(settings) = settings(alloc, format, rule) {
        if let Ok(found) = time_of(alloc, &settings, text.as_bytes(), arrival, None) {
            put_time(&mut said, found);
        }
        drop(settings);
    }
    said
}

/// Writes a row whose time is another than the wanted one, with its time behind it.
fn put_wrong(wrong: &mut String, alloc: Global, row: &str, arrival: i64) {
    let mut parts = row.split('|');
    let format = parts.next().unwrap_or("");
    let rule = parts.next().unwrap_or("");
    let text = parts.next().unwrap_or("");
    let wanted = parts.next().unwrap_or("");
    let found = row_time(alloc, format, rule, text, arrival);
    put_unlike(wrong, row, found, wanted);
}

/// The rows whose time is another than the wanted one. A row is `FORMAT|RULE|TEXT|TIME`; an empty format is none.
pub(crate) fn wrong_rows(alloc: Global, rows: &str, arrival: i64) -> String {
    let mut wrong = String::new(alloc);
    for row in rows.lines() {
        put_wrong(&mut wrong, alloc, row, arrival);
    }
    wrong
}
