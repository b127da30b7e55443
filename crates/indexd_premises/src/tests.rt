//! First and second runs that come to status 0, of which the clauses of `first_run` and `second_run`
//! speak.

use crate::{first_run, second_run};
use indexd_core::Status;
use ix_base::{Bytes, FailPlan, MemClock, MemSink, MemSource, Text};
use ix_fs::{MemTree, TreeFileList};
use ix_net::{MemLink, MemLinkList, MemListener};
use std::alloc::Global;
use std::process::Abort;

/// 2023-11-14T22:13:20Z, in microseconds since 1970.
const NOON: i64 = 1_700_000_000_000_000;

/// The words of a line, which stand with spaces between.
fn words_of(alloc: Global, line: &str) -> Vec<Text> {
    let mut words = Vec::new(alloc);
    for word in line.split(' ') {
        let word = String::from_str(alloc, word).unwrap_or(String::new(alloc));
        let _ = words.push(Text::from_string(word));
    }
    words
}

/// A peer that asks for the list of buckets.
const ASKED: &[u8] = b"GET /buckets HTTP/1.1\r\n\r\n";

/// A listener at which one peer waits.
fn listener_of(alloc: Global) -> MemListener {
    let bytes = Bytes::copy_of(alloc, ASKED).unwrap_or(Bytes::new(alloc));
    let mut links = MemLinkList::new(alloc);
    let _ = links.push(MemLink::new(alloc, bytes, FailPlan::none(alloc)));
    MemListener::new(alloc, links, FailPlan::none(alloc))
}

/// The number of the status of a first run that has no settings and an empty input, and that one
/// peer calls where it listens.
fn code_of(alloc: Global, line: &str) -> u8 {
    let words = words_of(alloc, line);
    let mut input = MemSource::in_pieces(Bytes::new(alloc), 1, FailPlan::none(alloc));
    let mut output = MemSink::new(alloc, FailPlan::none(alloc));
    let mut clock = MemClock::new([NOON].to_vec(alloc).unwrap_or(Vec::new(alloc)));
    let mut tree = MemTree::new(TreeFileList::new(alloc), FailPlan::none(alloc));
    let mut listener = listener_of(alloc);
    let (status, _disk) = first_run(
        alloc,
        &words,
        &mut input,
        &mut output,
        &mut clock,
        &mut tree,
        &mut listener,
    );
    status.code()
}

fn check(rt: &impl Abort, alloc: Global, line: &str) {
    let code = code_of(alloc, line);
    assert!(rt; code == 0, "{line}: {code}");
}

#[test]
fn first_runs_are_done(rt: HostRuntime) {
    let alloc = rt.alloc();
    check(&rt, alloc, "buckets");
    check(&rt, alloc, "tick");
    check(&rt, alloc, "preview --host h --source s --store");
    check(&rt, alloc, "feed");
    check(&rt, alloc, "serve --port 8089 --requests 1");
    check(&rt, alloc, "monitor --close");
    check(&rt, alloc, "selftest 7 1");
}

/// The number of the status of a second run behind such a first one.
fn code_behind(alloc: Global, line: &str, again: &str) -> u8 {
    let words = words_of(alloc, line);
    let further = words_of(alloc, again);
    let mut input = MemSource::in_pieces(Bytes::new(alloc), 1, FailPlan::none(alloc));
    let mut output = MemSink::new(alloc, FailPlan::none(alloc));
    let mut clock = MemClock::new([NOON].to_vec(alloc).unwrap_or(Vec::new(alloc)));
    let mut tree = MemTree::new(TreeFileList::new(alloc), FailPlan::none(alloc));
    let mut listener = listener_of(alloc);
    let (status, _disk) = second_run(
        alloc,
        &words,
        &further,
        &mut input,
        &mut output,
        &mut clock,
        &mut tree,
        &mut listener,
    );
    status.code()
}

#[test]
fn second_runs_are_done(rt: HostRuntime) {
    let alloc = rt.alloc();
    for line in ["tick", "feed", "serve --port 8089 --requests 1", "monitor"] {
        let code = code_behind(alloc, line, "buckets");
        assert!(rt; code == 0, "{line}: {code}");
    }
}
