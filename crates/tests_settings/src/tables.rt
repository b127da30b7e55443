//! Tables, each of which is one text: its rows stand with `¶` between, and in a row stands what is asked, with the answer that is
//! wanted behind the last `¦`. A row that begins with `//` says something of those behind it.

use crate::said::{compare_answer, noted};
use crate::{conf, props};
use ix_conf_values::{read_boolean, read_number};
use std::alloc::Global;
use std::process::Abort;

/// What a text is asked for.
#[derive(Clone, Copy)]
pub enum Asked {
    Entries,
    Fault,
    Name,
    /// A name whose letters fit in either case.
    Folded,
    /// Whether a pattern is refused.
    Bad,
    Boolean,
    Number,
    Change,
    Format,
    Transform,
    Lookahead,
    Props,
    Rule,
    Settings,
}

/// What stands before the last `¦`, and behind it.
pub fn halves(text: &str) -> (&str, &str) {
    text.rsplit_once('¦').unwrap_or((text, "?"))
}

/// Whether a name fits a pattern.
fn name_said(alloc: Global, text: &str, fold: bool) -> String {
    let (pattern, name) = halves(text);
    noted(
        alloc,
        conf::name_fits(alloc, pattern.as_bytes(), fold, name.as_bytes()),
    )
}

/// What a text of another kind comes to.
fn value_said(alloc: Global, asked: Asked, text: &[u8]) -> String {
    match asked {
        Asked::Boolean => noted(alloc, read_boolean(text)),
        Asked::Number => noted(alloc, read_number(text, -1, 1_048_576)),
        Asked::Change => props::describe_change(alloc, text),
        Asked::Format => props::describe_format(alloc, text),
        Asked::Transform => props::describe_transform(alloc, text),
        Asked::Lookahead => noted(alloc, props::lookahead_in(alloc, text)),
        Asked::Props => props::describe_props(alloc, text),
        Asked::Rule => noted(alloc, props::is_rule(alloc, text)),
        _ => String::new(alloc),
    }
}

/// What a text comes to.
fn answer(alloc: Global, asked: Asked, text: &str) -> String {
    match asked {
        Asked::Entries => conf::entries_of(alloc, text.as_bytes()),
        Asked::Fault => noted(alloc, conf::fault_of(alloc, text.as_bytes())),
        Asked::Name => name_said(alloc, text, false),
        Asked::Folded => name_said(alloc, text, true),
        Asked::Bad => noted(alloc, conf::is_bad(alloc, text.as_bytes())),
        Asked::Settings => props::describe_channel(alloc, text),
        _ => value_said(alloc, asked, text.as_bytes()),
    }
}

fn check_row(rt: &impl Abort, alloc: Global, asked: Asked, row: &str) {
    let (text, wanted) = halves(row);
    compare_answer(rt, text, answer(alloc, asked, text), wanted);
}

/// Each row of the table has the answer that is wanted.
pub fn check_rows(rt: &impl Abort, alloc: Global, asked: Asked, rows: &str) {
    for row in rows.split('¶') {
        if !row.starts_with("//") {
            check_row(rt, alloc, asked, row);
        }
    }
}
