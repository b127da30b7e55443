//! In which part of a text a time is read, and which time an event takes.

use crate::rows::{put_time, settings};
use crate::said::{compare, compare_none, put, shown};
use ix_base::{Bytes, NoMemory};
use ix_pattern::Pattern;
use ix_props::TimeSettings;
use ix_time::{has_date, time_of};
use std::alloc::Global;

/// 2024-11-03T07:46:40Z.
const MOMENT: i64 = 1_730_620_000_000_000;

/// The settings that props.conf has where it says nothing of limits, with `%s`.
fn by_seconds(alloc: Global) -> Result<TimeSettings, NoMemory> {
    let mut settings = settings(alloc, "%s.%N", "UTC0")?;
    settings.days_ago = 2000;
    settings.days_hence = 2;
    Ok(settings)
}

/// Texts, and the time of the event before.
static AGES: [(&str, Option<i64>); 9] = [
    // 2,001 days before the arrival
    ("1557733600.0", None),
    ("1557733600.0", Some(1_730_000_000_000_000)),
    // 2,000 days before it, and a microsecond more
    ("1557820000.0", Some(5)),
    ("1557819999.999999", Some(5)),
    // 2 days after it, and a microsecond more
    ("1730792800.0", None),
    ("1730792800.000001", None),
    ("1730792800.000001", Some(-5)),
    // nothing reads
    ("x", Some(7)),
    ("x", None),
];

/// Writes the time of a text that arrived at a moment, with a semicolon behind it.
fn put_found(text: &mut String, alloc: Global, line: &[u8], arrival: i64, last: Option<i64>) {
    if let Ok(settings) = by_seconds(alloc) {
        if let Ok(found) = time_of(alloc, &settings, line, arrival, last) {
            put_time(text, found);
            put(text, "; ");
        }
        drop(settings);
    }
}

fn ages_said(alloc: Global, rows: &[(&str, Option<i64>)]) -> String {
    let mut text = String::new(alloc);
    for (line, last) in rows {
        put_found(&mut text, alloc, line.as_bytes(), MOMENT, *last);
    }
    text
}

#[test]
fn ages_have_limits(rt: HostRuntime) {
    let wanted =
        "-; last 1730000000000000; 1557820000000000; last 5; 1730792800000000; -; last -5; last 7; -; ";
    compare(&rt, ages_said(rt.alloc(), &AGES), wanted);
}

/// Writes the moment that the time of a text is, which arrived at this one.
fn put_moment(text: &mut String, alloc: Global, line: &[u8], arrival: i64) {
    if let Ok(settings) = by_seconds(alloc) {
        if let Ok(found) = time_of(alloc, &settings, line, arrival, None) {
            put(text, found.time);
            put(text, "; ");
        }
        drop(settings);
    }
}

fn arrivals_said(alloc: Global) -> String {
    let mut text = String::new(alloc);
    put_moment(&mut text, alloc, b"x", i64::MIN);
    put_moment(&mut text, alloc, b"x", i64::MAX);
    put_moment(&mut text, alloc, b"172800.0", i64::MIN);
    text
}

#[test]
fn an_arrival_is_a_moment_of_a_century(rt: HostRuntime) {
    let wanted = "0; 4102444800000000; 172800000000; ";
    compare(&rt, arrivals_said(rt.alloc()), wanted);
}

fn pattern_of(alloc: Global, text: &str) -> Result<Option<Pattern>, NoMemory> {
    if text.is_empty() {
        return Ok(None);
    }
    match Pattern::read(alloc, text.as_bytes()) {
        Ok(pattern) => Ok(Some(pattern)),
        Err(_) => Err(NoMemory),
    }
}

/// Whether a date reads behind a prefix, so far ahead.
fn dated(
    alloc: Global,
    prefix: &str,
    lookahead: Option<u32>,
    text: &[u8],
) -> Result<bool, NoMemory> {
    let prefix = pattern_of(alloc, prefix)?;
    match settings(alloc, "", "UTC0") {
        Ok(mut settings) => {
            settings.lookahead = lookahead;
            settings.prefix = prefix;
            let dated = has_date(alloc, &settings, text, MOMENT);
            drop(settings);
            dated
        }
        Err(NoMemory) => {
            drop(prefix);
            Err(NoMemory)
        }
    }
}

/// A prefix, how far ahead is looked, a text, and whether a date reads there.
type Window = (&'static str, Option<u32>, &'static [u8], bool);

static WINDOWS: [Window; 13] = [
    ("", Some(19), b"2023-11-14 22:13:20", true),
    ("", Some(18), b"2023-11-14 22:13:20", false),
    ("", Some(20), b" 2023-11-14 22:13:20", true),
    ("", Some(19), b" 2023-11-14 22:13:20", false),
    ("", Some(0), b" 2023-11-14 22:13:20", true),
    ("", None, b" 2023-11-14 22:13:20", true),
    ("", Some(1), b" 2023-11-14 22:13:20", false),
    ("", Some(u32::MAX), b"", false),
    ("at ", Some(19), b"x at 2023-11-14 22:13:20", true),
    ("at ", Some(18), b"x at 2023-11-14 22:13:20", false),
    ("at ", Some(128), b"2023-11-14 22:13:20 at 12", false),
    ("on ", Some(128), b"2023-11-14 22:13:20", false),
    ("$", Some(128), b"2023-11-14 22:13:20", false),
];

/// Writes a text of which something else is found.
fn note_window(unlike: &mut String, alloc: Global, row: Window) {
    let (prefix, lookahead, line, wanted) = row;
    if dated(alloc, prefix, lookahead, line) != Ok(wanted) {
        put(unlike, prefix);
        put(unlike, shown(line));
        put(unlike, "; ");
    }
}

fn windows_unlike(alloc: Global, rows: &[Window]) -> String {
    let mut unlike = String::new(alloc);
    for row in rows {
        note_window(&mut unlike, alloc, *row);
    }
    unlike
}

#[test]
fn windows_bound_the_search(rt: HostRuntime) {
    compare_none(&rt, windows_unlike(rt.alloc(), &WINDOWS));
}

fn put_dated(text: &mut String, alloc: Global, lookahead: Option<u32>, line: &Bytes) {
    match dated(alloc, "", lookahead, line.as_slice()) {
        Ok(dated) => put(text, dated),
        Err(NoMemory) => put(text, "no memory"),
    }
    put(text, "; ");
}

fn long_said(alloc: Global) -> String {
    let mut text = String::new(alloc);
    let mut line = Bytes::new(alloc);
    for _ in 0..1024 {
        let _ = line.extend(b"0123456789012345678901234567890123456789012345678901234567890123");
    }
    put_dated(&mut text, alloc, None, &line);
    let _ = line.extend(b" 2023-11-14 22:13:20");
    put_dated(&mut text, alloc, None, &line);
    put_dated(&mut text, alloc, Some(128), &line);
    drop(line);
    text
}

#[test]
fn long_lines_are_read(rt: HostRuntime) {
    compare(&rt, long_said(rt.alloc()), "false; true; false; ");
}
