//! Requests in memory, with answers worked by hand.

use crate::said::{bytes_of, compare, failing, note, read, say, shown};
use ix_base::{Bytes, ChannelMeta, FailPlan, NoMemory};
use ix_http::{Ask, HttpFault, Incoming, Kind, LinkFault, Routes, read_request, write_reply};
use ix_net::MemLink;
use std::alloc::Global;

/// The bytes of a request: a text, or `front|filler|count|back`, which is a text, then another one so many times, and a third.
fn request_of(alloc: Global, row: &str) -> Bytes {
    let mut parts = row.split('|');
    let mut bytes = bytes_of(alloc, parts.next().unwrap_or("").as_bytes());
    let filler = parts.next().unwrap_or("");
    let count: usize = parts.next().unwrap_or("").parse().unwrap_or(0);
    for _ in 0..count {
        let _ = bytes.extend(filler.as_bytes());
    }
    let _ = bytes.extend(parts.next().unwrap_or("").as_bytes());
    bytes
}

/// Writes a text, or its length where it is long.
fn note_text(text: &mut String, bytes: &Bytes) {
    if bytes.len() > 40 {
        note(text, bytes.len());
    } else {
        say(text, shown(bytes.as_slice()));
    }
}

fn note_text_or_none(text: &mut String, bytes: &Option<Bytes>) {
    match bytes {
        Some(bytes) => note_text(text, bytes),
        None => say(text, "-"),
    }
}

fn note_bound(text: &mut String, bound: Option<i64>) {
    match bound {
        Some(seconds) => note(text, seconds),
        None => say(text, "-"),
    }
}

fn note_meta(text: &mut String, meta: &ChannelMeta) {
    note_text(text, &meta.host);
    note_text(text, &meta.source);
    note_text_or_none(text, &meta.sourcetype);
    note_text_or_none(text, &meta.index);
}

fn note_numbers(text: &mut String, numbers: &[u64]) {
    for number in numbers {
        note(text, *number);
    }
}

fn note_ask(text: &mut String, ask: &Ask) {
    match ask {
        Ask::Begin { channel, meta } => {
            say(text, "Begin");
            note_text(text, channel);
            note_meta(text, meta);
        }
        Ask::Block { channel, bytes } => {
            say(text, "Block");
            note_text(text, channel);
            note_text(text, bytes);
        }
        Ask::End { channel } => {
            say(text, "End");
            note_text(text, channel);
        }
        Ask::Acks { run, numbers } => {
            say(text, "Acks");
            note(text, *run);
            note_numbers(text, numbers.as_slice());
        }
        Ask::Buckets => say(text, "Buckets"),
        Ask::Events { index, range } => {
            say(text, "Events");
            note_text(text, index);
            note_bound(text, range.earliest);
            note_bound(text, range.latest);
        }
    }
}

fn note_incoming(text: &mut String, incoming: &Incoming) {
    match incoming {
        Incoming::Ended => say(text, "Ended"),
        Incoming::Asked { ask } => note_ask(text, ask),
        Incoming::Refused { fault, delimited } => {
            note(text, *fault);
            note(text, *delimited);
        }
    }
}

/// What a link sends, and how many bytes it has left behind that.
fn outcome(alloc: Global, mut link: MemLink) -> String {
    let mut text = String::new(alloc);
    match read(alloc, &mut link) {
        Ok(incoming) => {
            note_incoming(&mut text, &incoming);
            drop(incoming);
        }
        Err(fault) => note(&mut text, fault),
    }
    note(&mut text, link.left().len());
    drop(link);
    let _ = text.push_str("left\n");
    text
}

/// Writes what a request comes to, and also what it comes to in pieces of a byte where that is anything else.
fn note_row(text: &mut String, alloc: Global, row: &str) {
    let whole = outcome(
        alloc,
        MemLink::new(alloc, request_of(alloc, row), FailPlan::none(alloc)),
    );
    let _ = text.push_str(whole.as_str());
    let pieces = outcome(
        alloc,
        MemLink::in_pieces(alloc, request_of(alloc, row), 1, FailPlan::none(alloc)),
    );
    if pieces.as_str() != whole.as_str() {
        let _ = text.push_str(pieces.as_str());
    }
    drop(pieces);
    drop(whole);
}

fn outcomes(alloc: Global, rows: &str) -> String {
    let mut text = String::new(alloc);
    for row in rows.split('~') {
        note_row(&mut text, alloc, row);
    }
    text
}

/// Requests with a `~` between them. The first is empty.
const HEADS: &str = "\
    ~GET /buckets HTTP/1.1\r\n\r\n\
    ~\r\n\nGET /buckets?x=1 HTTP/1.0\nA: b\n\nGET\
    ~GET /buckets HTTP/1.1\r\nContent-Length:  0 \r\n\r\nx\
    ~GET /buckets HTTP/1.1\r\n\
    ~GET /buckets HTTP/2.0\r\n\r\n\
    ~\0\
    ~GET /|x|16380|\
    ~GET /|x|16379|\
    ~GET /|x|16378|\
    ~GET /buckets HTTP/1.1\r\nA: |x|16354|\r\n\r\n\
    ~GET /buckets HTTP/1.1\r\nA: |x|16355|\r\n\r\n\
    ~GET /buckets HTTP/1.1\r\n|A: b\r\n|64|\r\n\
    ~GET /buckets HTTP/1.1\r\n|A: b\r\n|65|\r\nrest\
    ~GET /buckets HTTP/1.1\r\n|A: b\r\n|65|\
    ~G(T /buckets HTTP/1.1\r\n\r\n\
    ~GET  /buckets HTTP/1.1\r\n\r\n\
    ~GET /buckets HTTP/1.1 \r\n\r\n\
    ~GET /buckets HTTP/1.1\rA: b\
    ~GET /buckets HTTP/1.1\r\n: b\r\n\r\n\
    ~GET /buckets HTTP/1.1\r\nA\r\n\r\n\
    ~GET /buckets HTTP/1.1\r\nA : b\r\n\r\n\
    ~GET / HTTP/1.1\r\nBad Name: x\r\n\
    ~EHLO here\r\n\
    ~GET /buckets HTTP/1.1\r\nA: b\r\n c\r\n\r\n\
    ~GET /buckets HTTP/1.1\r\nA: \x01b\r\n\r\n\
    ~GET /buckets HTTP/1.1\r\nA:\tb\u{e9} \r\nA:\r\n\r\n\
    ~GET /nothing HTTP/1.1\r\n\r\n\
    ~DELETE /buckets HTTP/1.1\r\n\r\n\
    ~get /buckets HTTP/1.1\r\n\r\n\
    ~POST /channels/a.B-c_9/end HTTP/1.1\r\n\r\n\
    ~POST /channels/|x|64|/end HTTP/1.1\r\n\r\n\
    ~PUT /channels/|x|65| HTTP/1.1\r\nContent-Length: 0\r\n\r\n\
    ~POST /channels//end HTTP/1.1\r\n\r\n\
    ~POST /channels/c/end/ HTTP/1.1\r\n\r\n\
    ~POST /channels/%41/end HTTP/1.1\r\n\r\n\
    ~POST /channels/end/end HTTP/1.1\r\n\r\n\
    ~GET /indexes/a%2Fb/events HTTP/1.1\r\n\r\n\
    ~GET /indexes//events HTTP/1.1\r\n\r\n\
    ~GET /indexes/a/b/events HTTP/1.1\r\n\r\n\
    ~GET /indexes/main/events?earliest=-5&&%6catest=12345678901 HTTP/1.1\r\n\r\n\
    ~GET /indexes/main/events?earliest=1&earliest=2 HTTP/1.1\r\n\r\n\
    ~GET /indexes/main/events?earliest=+1 HTTP/1.1\r\n\r\n\
    ~GET /indexes/main/events?latest=123456789012 HTTP/1.1\r\n\r\n\
    ~GET /indexes/main/events?earliest=%2d%31& HTTP/1.1\r\n\r\n\
    ~GET /indexes/main/events?earliest= HTTP/1.1\r\n\r\n\
    ~GET /indexes/main/events?latest=1&x HTTP/1.1\r\n\r\n";

const HEADS_SAID: &str = "\
    Ended 0 left\n\
    Buckets 0 left\n\
    Buckets 3 left\n\
    Buckets 1 left\n\
    Cut 0 left\n\
    BadHead false 6 left\n\
    BadHead false 0 left\n\
    BadHead false 1 left\n\
    BadHead false 0 left\n\
    Cut 0 left\n\
    Buckets 0 left\n\
    BadHead false 1 left\n\
    Buckets 0 left\n\
    BadHead false 4 left\n\
    Cut 0 left\n\
    BadHead false 23 left\n\
    BadHead false 21 left\n\
    BadHead false 4 left\n\
    BadHead false 3 left\n\
    BadHead false 6 left\n\
    BadHead false 3 left\n\
    BadHead false 7 left\n\
    BadHead false 9 left\n\
    BadHead false 1 left\n\
    BadHead false 5 left\n\
    BadHead false 5 left\n\
    Buckets 0 left\n\
    NoRoute true 0 left\n\
    WrongMethod true 0 left\n\
    WrongMethod true 0 left\n\
    End a.B-c_9 0 left\n\
    End 64 0 left\n\
    NoRoute true 0 left\n\
    NoRoute true 0 left\n\
    NoRoute true 0 left\n\
    NoRoute true 0 left\n\
    End end 0 left\n\
    Events a%2Fb - - 0 left\n\
    NoRoute true 0 left\n\
    NoRoute true 0 left\n\
    Events main -5 12345678901 0 left\n\
    BadQuery true 0 left\n\
    BadQuery true 0 left\n\
    BadQuery true 0 left\n\
    Events main -1 - 0 left\n\
    BadQuery true 0 left\n\
    BadQuery true 0 left\n";

#[test]
fn heads_and_routes_are_read(rt: HostRuntime) {
    compare(&rt, outcomes(rt.alloc(), HEADS), HEADS_SAID);
}

/// Requests whose targets have bytes above 127, and what they come to. The first one is no UTF-8 and ends in the target, the next one is
/// refused at the space behind it.
static TARGETS: [(&[u8], &str); 3] = [
    (b"GET /indexes/\xff/events", "Cut 0 left\n"),
    (
        b"GET /indexes/\xff/events HTTP/1.1\r\n\r\n",
        "BadHead false 12 left\n",
    ),
    (
        b"GET /indexes/\xc3\xa9/events HTTP/1.1\r\n\r\n",
        "Events \u{e9} - - 0 left\n",
    ),
];

fn targets_said(alloc: Global) -> String {
    let mut text = String::new(alloc);
    for (request, wanted) in &TARGETS {
        let whole = planned(alloc, *request, FailPlan::none(alloc));
        note(&mut text, whole.as_str() == *wanted);
        drop(whole);
    }
    text
}

#[test]
fn targets_are_read_as_utf_8(rt: HostRuntime) {
    compare(&rt, targets_said(rt.alloc()), "true true true ");
}

/// Four requests of one link, of which the last is none, by the same routes.
const SHARED: &[u8] =
    b"GET /buckets HTTP/1.1\r\n\r\nPOST /channels/c/end HTTP/1.1\r\n\r\nGET /x HTTP/1.1\r\n\r\n";

fn note_shared(text: &mut String, alloc: Global, routes: &Routes, link: &mut MemLink) {
    for _ in 0..4 {
        match read_request(alloc, routes, link) {
            Ok(incoming) => {
                note_incoming(text, &incoming);
                drop(incoming);
            }
            Err(fault) => note(text, fault),
        }
    }
}

fn shared_said(alloc: Global) -> String {
    let mut text = String::new(alloc);
    let mut link = MemLink::new(alloc, bytes_of(alloc, SHARED), FailPlan::none(alloc));
    match Routes::new(alloc) {
        Ok(routes) => {
            note_shared(&mut text, alloc, &routes, &mut link);
            drop(routes);
        }
        Err(NoMemory) => say(&mut text, "NoMemory"),
    }
    drop(link);
    text
}

#[test]
fn routes_are_made_once(rt: HostRuntime) {
    let wanted = "Buckets End c NoRoute true Ended ";
    compare(&rt, shared_said(rt.alloc()), wanted);
}

/// A request of each form of path, by a method that none of them has.
const STRAY: &[u8] =
    b"DELETE /channels/c HTTP/1.1\r\n\r\nDELETE /channels/c/blocks HTTP/1.1\r\n\r\n\
    DELETE /channels/c/end HTTP/1.1\r\n\r\nDELETE /acks HTTP/1.1\r\n\r\n\
    DELETE /buckets HTTP/1.1\r\n\r\nDELETE /indexes/i/events HTTP/1.1\r\n\r\n";

/// Whether the path of the next of them is known.
fn is_known(alloc: Global, routes: &Routes, link: &mut MemLink) -> bool {
    match read_request(alloc, routes, link) {
        Ok(Incoming::Refused { fault, .. }) => fault == HttpFault::WrongMethod,
        _ => false,
    }
}

fn are_known(alloc: Global, routes: &Routes, link: &mut MemLink) -> bool {
    let mut known = true;
    for _ in 0..6 {
        if !is_known(alloc, routes, link) {
            known = false;
        }
    }
    known
}

/// Whether routes know each form of path; `None` where there is no room for the routes, or for the requests.
fn are_whole(alloc: Global) -> Option<bool> {
    let bytes = Bytes::copy_of(alloc, STRAY).ok()?;
    let mut link = MemLink::new(alloc, bytes, FailPlan::none(alloc));
    let routes = Routes::new(alloc).ok()?;
    let whole = are_known(alloc, &routes, &mut link);
    drop(routes);
    drop(link);
    Some(whole)
}

/// It passes whichever allocation fails, as `rt try --test --fail-alloc N` makes one fail. Where there was no room, there is at the
/// second attempt.
#[test]
fn routes_are_made_whole_or_not_at_all(rt: HostRuntime) {
    let whole = match are_whole(rt.alloc()) {
        Some(whole) => whole,
        None => are_whole(rt.alloc()) == Some(true),
    };
    assert!(rt; whole);
}

/// Requests with bodies.
const BODIES: &str = "\
    PUT /channels/c HTTP/1.1\r\nContent-Length: 25\r\n\r\n{\"host\":\"h\",\"source\":\"s\"}PUT\
    ~PUT /channels/c HTTP/1.1\r\ncontent-length: 0000000025\r\n\r\n{\"host\":\"h\",\"source\":\"s\"\
    ~PUT /channels/c HTTP/1.1\r\nContent-Length: 53\r\n\r\n{\"host\":\"\",\"source\":\"s\",\"index\":\"i\",\"sourcetype\":\"t\"}x\
    ~PUT /channels/c HTTP/1.1\r\nContent-Length: 65\r\n\r\n{\"host\":\"\",\"source\":\"s\",\"index\":\"i\",\"sourcetype\":\"t\",\"host\":\"h\"}  \
    ~PUT /channels/c HTTP/1.1\r\nContent-Length: 31\r\n\r\n{\"host\":\"h\",\"source\":\"s\",\"a\":1}\
    ~PUT /channels/c HTTP/1.1\r\nContent-Length: 1048\r\n\r\n{\"source\":\"s\",\"host\":\"|x|1024|\"}\
    ~PUT /channels/c HTTP/1.1\r\nContent-Length: 1049\r\n\r\n{\"source\":\"s\",\"host\":\"|x|1025|\"}\
    ~PUT /channels/c HTTP/1.1\r\nContent-Length: 65537\r\n\r\n|x|65537|y\
    ~POST /channels/c/blocks HTTP/1.1\r\nContent-Length: 1048576\r\n\r\n|x|1048576|y\
    ~POST /channels/c/blocks HTTP/1.1\r\nContent-Length: 1048577\r\n\r\n|x|10|\
    ~POST /channels/c/blocks HTTP/1.1\r\nContent-Length: 0\r\n\r\nx\
    ~POST /channels/c/blocks HTTP/1.1\r\n\r\nabc\
    ~POST /channels/c/end HTTP/1.1\r\nContent-Length: 1\r\n\r\nabc\
    ~POST /channels/c/blocks HTTP/1.1\r\nContent-Length: 5\r\nContent-Length: 5\r\n\r\nabcde\
    ~POST /channels/c/blocks HTTP/1.1\r\nContent-Length: 99999999999\r\n\r\nabc\
    ~POST /channels/c/blocks HTTP/1.1\r\nContent-Length: +5\r\n\r\nabcde\
    ~POST /channels/c/end HTTP/1.1\r\nContent-Length:\r\n\r\nabc\
    ~GET /nothing HTTP/1.1\r\nContent-Length: 1\r\nContent-Length: 1\r\n\r\nabc\
    ~GET /nothing HTTP/1.1\r\nContent-Length: 1048577\r\n\r\nabc\
    ~GET /nothing HTTP/1.1\r\nTransfer-Encoding: chunked\r\n\r\nabc\
    ~DELETE /buckets HTTP/1.1\r\nTransfer-Encoding: chunked\r\n\r\nabc\
    ~PUT /channels/c HTTP/1.1\r\nTransfer-Encoding: chunked\r\n\r\nabc\
    ~GET /buckets HTTP/1.1\r\ntransfer-encoding: x\r\nContent-Length: 1\r\n\r\nabc\
    ~POST /channels/c/blocks HTTP/1.1\r\nContent-Encoding: Identity\r\nContent-Length: 2\r\n\r\nabc\
    ~POST /channels/c/blocks HTTP/1.1\r\nContent-Encoding: gzip\r\nContent-Length: 2\r\n\r\nabc\
    ~POST /channels/c/blocks HTTP/1.1\r\nContent-Encoding: identity, identity\r\nContent-Length: 2\r\n\r\nabc\
    ~POST /channels/c/blocks HTTP/1.1\r\nContent-Encoding: identity\r\nContent-Encoding: identity\r\nContent-Length: 2\r\n\r\nabc\
    ~POST /channels/c/blocks HTTP/1.1\r\nContent-Encoding: identity\r\nContent-Encoding: gzip\r\nContent-Length: 2\r\n\r\nabc\
    ~POST /channels/c/blocks HTTP/1.1\r\nContent-Encoding: \r\nContent-Length: 2\r\n\r\nabc\
    ~POST /channels/c/blocks HTTP/1.1\r\nContent-Encoding: gzip\r\nContent-Length: 1048577\r\n\r\nabc\
    ~POST /channels/c/blocks HTTP/1.1\r\nContent-Encoding: gzip\r\n\r\nabc\
    ~POST /channels/c/end HTTP/1.1\r\nContent-Encoding: gzip\r\nContent-Length: 2\r\n\r\nabc\
    ~GET /indexes/main/events?a=1 HTTP/1.1\r\nContent-Length: 2\r\n\r\nabc\
    ~DELETE /channels/c/blocks HTTP/1.1\r\nContent-Length: 2\r\n\r\nabc\
    ~POST /acks HTTP/1.1\r\nContent-Length: 19\r\n\r\n{\"run\":1,\"acks\":[]}\
    ~POST /acks HTTP/1.1\r\nContent-Length: 43\r\n\r\n{\"acks\":[0, 18446744073709551615],\"run\":\n7}\
    ~POST /acks HTTP/1.1\r\nContent-Length: 41\r\n\r\n{\"acks\":[0,18446744073709551616],\"run\":7}\
    ~POST /acks HTTP/1.1\r\nContent-Length: 22\r\n\r\n{\"run\":1.0,\"acks\":[1]}\
    ~POST /acks HTTP/1.1\r\nContent-Length: 9\r\n\r\n{\"run\":1}\
    ~POST /acks HTTP/1.1\r\nContent-Length: 27\r\n\r\n{\"run\":1,\"acks\":[],\"run\":2}\
    ~POST /acks HTTP/1.1\r\nContent-Length: 20\r\n\r\n{\"run\":-0,\"acks\":[]}\
    ~POST /acks HTTP/1.1\r\nContent-Length: 22\r\n\r\n\u{feff}{\"run\":1,\"acks\":[]}\
    ~POST /acks HTTP/1.1\r\nContent-Length: 20\r\n\r\n{\"run\":1,\"acks\":[]}}\
    ~POST /acks HTTP/1.1\r\nContent-Length: 0\r\n\r\n\
    ~PUT /channels/c HTTP/1.1\r\nContent-Length: 30\r\n\r\n{\"host\":\"\\ud800\",\"source\":\"s\"}\
    ~PUT /channels/c HTTP/1.1\r\nContent-Length: 34\r\n\r\n{\"host\":\"h\",\"source\":\"\\u0073\\n\"}  \
    ~PUT /channels/c HTTP/1.1\r\nContent-Length: 26\r\n\r\n{\"host\":null,\"source\":\"s\"}\
    ~PUT /channels/c HTTP/1.1\r\nContent-Length: 36\r\n\r\n{\"host\":\"h\",\"source\":\"s\",\"index\":\"\"}\
    ~POST /acks HTTP/1.1\r\nContent-Length: 400\r\n\r\n[|[|199|]]]]]]]]]]]]]]]]]]]]]]]]]]]]]]]]]]]]]]]]]]]]]]]]]]]]]]]]]]]]]]]]]]]]]]]]]]]]]]]]]]]]]]]]]]]]]]]]]]]]]]]]]]]]]]]]]]]]]]]]]]]]]]]]]]]]]]]]]]]]]]]]]]]]]]]]]]]]]]]]]]]]]]]]]]]]]]]]]]]]]]]]]]]]]]]]]]]]]]]]";

const BODIES_SAID: &str = "\
    Begin c h s - - 3 left\n\
    Cut 0 left\n\
    BadBody true 1 left\n\
    Begin c h s t i 1 left\n\
    BadBody true 0 left\n\
    Begin c 1024 s - - 0 left\n\
    BadBody true 0 left\n\
    TooLong true 1 left\n\
    Block c 1048576 1 left\n\
    TooLong false 10 left\n\
    Block c  1 left\n\
    NoLength true 3 left\n\
    TooLong true 2 left\n\
    BadHead false 5 left\n\
    BadHead false 3 left\n\
    BadHead false 5 left\n\
    BadHead false 3 left\n\
    BadHead false 3 left\n\
    NoRoute false 3 left\n\
    NoRoute false 3 left\n\
    WrongMethod false 3 left\n\
    NoLength false 3 left\n\
    NoLength false 3 left\n\
    Block c ab 1 left\n\
    Encoded true 1 left\n\
    Encoded true 1 left\n\
    Block c ab 1 left\n\
    Encoded true 1 left\n\
    Encoded true 1 left\n\
    Encoded false 3 left\n\
    NoLength true 3 left\n\
    Encoded true 1 left\n\
    TooLong true 1 left\n\
    WrongMethod true 1 left\n\
    Acks 1 0 left\n\
    Acks 7 0 18446744073709551615 0 left\n\
    BadBody true 0 left\n\
    BadBody true 0 left\n\
    BadBody true 0 left\n\
    Acks 2 0 left\n\
    BadBody true 0 left\n\
    BadBody true 0 left\n\
    BadBody true 0 left\n\
    BadBody true 0 left\n\
    BadBody true 0 left\n\
    Begin c h s\n - - 0 left\n\
    BadBody true 0 left\n\
    BadBody true 0 left\n\
    BadBody true 0 left\n";

#[test]
fn lengths_and_bodies_are_read(rt: HostRuntime) {
    compare(&rt, outcomes(rt.alloc(), BODIES), BODIES_SAID);
}

/// Good requests, and what they ask.
static GOOD: [(&str, &str); 3] = [
    (
        "POST /channels/c/blocks HTTP/1.1\r\nContent-Length: 3\r\n\r\nabc",
        "Block c abc 0 left\n",
    ),
    (
        "PUT /channels/c HTTP/1.1\nContent-Length: 25\n\n{\"host\":\"h\",\"source\":\"s\"}",
        "Begin c h s - - 0 left\n",
    ),
    (
        "GET /indexes/main/events?latest=1 HTTP/1.1\r\n\r\n",
        "Events main - 1 0 left\n",
    ),
];

/// What these bytes come to in pieces of a byte, where calls fail by a plan.
fn planned(alloc: Global, bytes: &[u8], plan: FailPlan) -> String {
    outcome(
        alloc,
        MemLink::in_pieces(alloc, bytes_of(alloc, bytes), 1, plan),
    )
}

/// Whether a request is told from one that is cut behind so many bytes, and of which the read behind them fails.
fn is_told(alloc: Global, request: &[u8], count: usize) -> bool {
    let cut = planned(
        alloc,
        request.get(..count).unwrap_or(request),
        FailPlan::none(alloc),
    );
    let wanted = if count == 0 {
        "Ended 0 left\n"
    } else {
        "Cut 0 left\n"
    };
    let is_cut = cut.as_str() == wanted;
    drop(cut);
    let failed = planned(alloc, request, failing(alloc, count as u64));
    let is_failed = failed.as_str().starts_with("Failed ");
    drop(failed);
    is_cut && is_failed
}

/// Writes the places where a cut or a fault in a request is not told.
fn note_untold(text: &mut String, alloc: Global, request: &[u8]) {
    for count in 0..request.len() {
        if !is_told(alloc, request, count) {
            note(text, count);
        }
    }
}

fn good_said(alloc: Global) -> String {
    let mut text = String::new(alloc);
    for (request, wanted) in &GOOD {
        note_untold(&mut text, alloc, request.as_bytes());
        let whole = planned(alloc, request.as_bytes(), FailPlan::none(alloc));
        note(&mut text, whole.as_str() == *wanted);
        drop(whole);
    }
    text
}

#[test]
fn a_cut_and_a_failing_read_are_told(rt: HostRuntime) {
    compare(&rt, good_said(rt.alloc()), "true true true ");
}

const FULL: &[u8] =
    b"HTTP/1.1 507 Insufficient Storage\r\nContent-Length: 16\r\nContent-Type: application/json\r\nConnection: close\r\n\r\n{\"error\":\"Full\"}";

const PLAIN: &str =
    "true HTTP/1.1 200 OK\r\nContent-Length: 0\r\nContent-Type: text/plain\r\nConnection: close\r\n\r\n ";

/// A link that sends nothing, and of which the write with a number fails.
fn given_to(alloc: Global, number: u64) -> MemLink {
    MemLink::new(alloc, Bytes::new(alloc), failing(alloc, number))
}

fn plain_said(alloc: Global) -> String {
    let mut text = String::new(alloc);
    let mut link = given_to(alloc, 99);
    note(
        &mut text,
        write_reply(&mut link, 200, Kind::Plain, b"").is_ok(),
    );
    say(&mut text, shown(link.given()));
    drop(link);
    text
}

/// Whether a reply of which the write with a number fails stands on the link in part, and one that is done whole. It has so many writes.
fn is_given(alloc: Global, number: u64, body: &[u8], writes: u64) -> bool {
    let mut whole = given_to(alloc, 99);
    let _ = write_reply(&mut whole, 507, Kind::Json, body);
    let mut link = given_to(alloc, number);
    let done = write_reply(&mut link, 507, Kind::Json, body).is_ok();
    let is_front = whole.given().starts_with(link.given());
    let is_whole = link.given().len() == whole.given().len();
    drop(link);
    drop(whole);
    is_front && done == is_whole && done == (number >= writes)
}

/// The text of a reply, and the numbers of writes that fail and leave anything else: of short ones, which are one write, and of a long one.
fn replies_said(alloc: Global) -> String {
    let mut text = String::new(alloc);
    let mut link = given_to(alloc, 99);
    let _ = write_reply(&mut link, 507, Kind::Json, b"{\"error\":\"Full\"}");
    note(&mut text, link.given() == FULL);
    drop(link);
    for number in 0..12 {
        if !is_given(alloc, number, b"{\"error\":\"Full\"}", 1) {
            note(&mut text, number);
        }
        if !is_given(alloc, number, &[b'x'; 8000], 1) {
            note(&mut text, number);
        }
        if !is_given(alloc, number, &[b'x'; 8192], 2) {
            note(&mut text, number);
        }
    }
    text
}

#[test]
fn replies_are_written(rt: HostRuntime) {
    compare(&rt, plain_said(rt.alloc()), PLAIN);
    compare(&rt, replies_said(rt.alloc()), "true ");
}
