//! Requests that are not as they should be, and links that are cut or fail inside of one, by `feed`.

use crate::tests::exchanges::{BEGUN, Exchanges, feeds, replies_of, requests_of, write_wanted};
use crate::tests::runs::{
    DEFAULT, NOON, PLAIN, Run, bytes_of, code_of, compare_texts, crash_of, disk_of, nobody,
    plan_of, run_of, said,
};
use crate::tests::steps::{Step, take_all};
use ix_base::MemSink;
use ix_disk::MemDisk;
use std::alloc::Global;
use std::process::Abort;

/// Requests, with `¶` between: how what is said of one begins; a text, another one so many times, and a third, which are the request; and the
/// reply's status and body. The first request has a head of 16,385 bytes without an end. Where one is not delimited the run ends with a line.
const HOSTILE: &str = "\
    12: ¦GET /¦x¦16380¦¦400 Bad Request¦{\"error\":\"BadHead\"}¶\
    12: ¦GET /buckets HTTP/1.1\r\n¦A: b\r\n¦65¦\r\n¦400 Bad Request¦{\"error\":\"BadHead\"}¶\
    12: ¦\x00GET /buckets HTTP/1.1\r\n\r\n¦¦0¦¦400 Bad Request¦{\"error\":\"BadHead\"}¶\
    12: ¦POST /channels/c/blocks HTTP/1.1\r\n¦Content-Length: 5\r\n¦2¦\r\nabcde¦400 Bad Request¦{\"error\":\"BadHead\"}¶\
    12: ¦POST /channels/c/blocks HTTP/1.1\r\nContent-Length: ¦9¦11¦\r\n\r\nabcde¦400 Bad Request¦{\"error\":\"BadHead\"}¶\
    12: ¦PUT /channels/c HTTP/1.1\r\nTransfer-Encoding: chunked\r\n\r\n0\r\n\r\n¦¦0¦¦411 Length Required¦{\"error\":\"NoLength\"}¶\
    0: ¦PUT /channels/¦x¦65¦ HTTP/1.1\r\nContent-Length: 0\r\n\r\n¦404 Not Found¦{\"error\":\"NoRoute\"}¶\
    0: ¦POST /acks HTTP/1.1\r\nContent-Length: 19\r\n\r\n{\"run\":1,\"acks\":[]}¦¦0¦¦200 OK¦{\"acks\":[]}¶\
    0: ¦POST /acks HTTP/1.1\r\nContent-Length: 400\r\n\r\n¦[¦200¦]]]]]]]]]]]]]]]]]]]]]]]]]]]]]]]]]]]]]]]]]]]]]]]]]]]]]]]]]]]]]]]]]]]]]]]]]]]]]]]]]]]]]]]]]]]]]]]]]]]]]]]]]]]]]]]]]]]]]]]]]]]]]]]]]]]]]]]]]]]]]]]]]]]]]]]]]]]]]]]]]]]]]]]]]]]]]]]]]]]]]]]]]]]]]]]]]]]]]]]]¦400 Bad Request¦{\"error\":\"BadBody\"}¶\
    0: ¦PUT /channels/c HTTP/1.1\r\nContent-Length: 24\r\n\r\n{\"host\":\"\",\"source\":\"s\"}¦¦0¦¦400 Bad Request¦{\"error\":\"BadBody\"}¶\
    0: ¦GET /indexes/main/events?earliest=1&earliest=2 HTTP/1.1\r\n\r\n¦¦0¦¦400 Bad Request¦{\"error\":\"BadQuery\"}";

/// A request by its parts: a text, another one so many times, and a third.
fn whole_of(alloc: Global, parts: &str) -> String {
    let mut fields = parts.split('¦');
    let front = fields.next().unwrap_or("");
    let filler = fields.next().unwrap_or("");
    let count: usize = fields.next().unwrap_or("").parse().unwrap_or(0);
    let back = fields.next().unwrap_or("");
    let mut text = String::new(alloc);
    let _ = text.push_str(front);
    for _ in 0..count {
        let _ = text.push_str(filler);
    }
    let _ = text.push_str(back);
    text
}

/// What a run says that begins so and has this reply.
fn answer_of(alloc: Global, begin: &str, reply: &str) -> String {
    let mut text = String::new(alloc);
    let _ = text.push_str(begin);
    write_wanted(&mut text, reply);
    if begin != "0: " {
        let _ = text.push_str("indexd: request 1 cannot be read\n");
    }
    text
}

/// What a run of `feed` over this request says.
fn asked(alloc: Global, disk: &mut MemDisk, parts: &str) -> String {
    let input = whole_of(alloc, parts);
    said(alloc, run_of("feed", DEFAULT, input.as_bytes()), disk)
}

fn check_hostile(rt: &impl Abort, alloc: Global, disk: &mut MemDisk, row: &str) {
    let (begin, parts) = row.split_once('¦').unwrap_or(("", row));
    let want = answer_of(alloc, begin, parts);
    compare_texts(rt, parts, asked(alloc, disk, parts), want);
}

fn check_all_hostile(rt: &impl Abort, alloc: Global, rows: &str) {
    let mut disk = disk_of(alloc);
    for row in rows.split('¶') {
        check_hostile(rt, alloc, &mut disk, row);
    }
}

/// Each request has its reply, and ends the run where it is not known where it ends.
#[test]
fn hostile_requests_are_refused(rt: HostRuntime) {
    check_all_hostile(&rt, rt.alloc(), HOSTILE);
}

/// Settled of it are `a` and `b`.
const SENT: Exchanges<'static> = "POST /channels/c/blocks¦¦a\nb\nc¦200 OK¦{\"ack\":0,\"run\":2}";

static STORED: [Step; 1] = [Step::Run(
    (NOON, "export main", PLAIN, ""),
    "0: main\t1700000000.000000\th\ts\tunknown\t\ta\nmain\t1700000000.000000\th\ts\tunknown\t\tb\n",
)];

/// The requests in which a link is cut or fails, behind `SENT`.
const LATER: Exchanges<'static> = "\
    GET /nothing¦¦¦¦¶\
    POST /channels/c/blocks¦¦d\ne¦¦";

/// A store in which the channel is begun.
fn begun(rt: &impl Abort, alloc: Global) -> MemDisk {
    let mut disk = disk_of(alloc);
    feeds(rt, alloc, &mut disk, (PLAIN, BEGUN), ("0", ""));
    disk
}

/// What a run says over a link that holds `SENT` and then this text, and of which the read with this number behind `SENT` fails.
fn linked(alloc: Global, disk: &mut MemDisk, text: &[u8], call: u64) -> String {
    let sent = requests_of(alloc, SENT);
    let reads = [call.saturating_add(sent.len() as u64)];
    let mut input = bytes_of(alloc, sent.as_bytes());
    let _ = input.extend(text);
    let run = Run {
        most: 1,
        reads: &reads,
        ..run_of("feed", PLAIN, input.as_slice())
    };
    said(alloc, run, disk)
}

/// The run over such a link ends with this status and this line, and what was accepted is stored.
fn check_link(
    rt: &impl Abort,
    alloc: Global,
    begun: &MemDisk,
    (text, call): (&[u8], u64),
    (code, line): (&str, &str),
) {
    let mut disk = crash_of(alloc, begun, false);
    let found = linked(alloc, &mut disk, text, call);
    let what = str::from_utf8(text).unwrap_or("?");
    compare_texts(rt, what, found, replies_of(alloc, code, SENT, line));
    take_all(rt, alloc, &mut disk, &STORED);
}

/// Cuts a link behind each byte of a text, and fails each read of it.
fn check_cuts(rt: &impl Abort, alloc: Global, begun: &MemDisk, text: &[u8]) {
    for count in 0..text.len() {
        let cut = if count == 0 {
            ("0", "")
        } else {
            ("12", "indexd: request 2 cannot be read\n")
        };
        check_link(rt, alloc, begun, (&text[..count], u64::MAX), cut);
        let fault = ("4", "indexd: input fault\n");
        check_link(rt, alloc, begun, (text, count as u64), fault);
    }
}

/// Does so with a request.
fn check_request(rt: &impl Abort, alloc: Global, begun: &MemDisk, exchange: Exchanges<'_>) {
    let text = requests_of(alloc, exchange);
    check_cuts(rt, alloc, begun, text.as_bytes());
}

/// An input that ends inside a request, or fails there, loses nothing that was accepted before, and nothing of that request is stored.
#[test]
fn a_cut_request_loses_nothing(rt: HostRuntime) {
    let begun = begun(&rt, rt.alloc());
    for exchange in LATER.split('¶') {
        check_request(&rt, rt.alloc(), &begun, exchange);
    }
}

/// How many pieces a reply is written in at the most.
const PIECES: u64 = 12;

/// The status of a run whose output fails in this write, and how often it has failed.
fn status_at(alloc: Global, disk: &mut MemDisk, call: u64) -> (u8, u64) {
    let input = requests_of(alloc, SENT);
    let mut output = MemSink::new(alloc, plan_of(alloc, &[call]));
    let run = Run {
        most: usize::MAX,
        ..run_of("feed", PLAIN, input.as_bytes())
    };
    let code = code_of(alloc, run, &mut output, disk, &mut nobody(alloc));
    (code, output.plan.faults)
}

fn check_status(rt: &impl Abort, (code, faults): (u8, u64), call: u64) {
    let want = if faults > 0 || call == 0 { 7 } else { 0 };
    assert!(rt; code == want, "{call}: {code}");
}

/// An output of which this write fails, in the only reply of a run. The block of the run is accepted and stored.
fn check_write(rt: &impl Abort, alloc: Global, begun: &MemDisk, call: u64) {
    let mut disk = crash_of(alloc, begun, false);
    check_status(rt, status_at(alloc, &mut disk, call), call);
    take_all(rt, alloc, &mut disk, &STORED);
}

/// An output that fails anywhere in a reply ends the run and loses nothing.
#[test]
fn a_reply_that_is_not_written_loses_nothing(rt: HostRuntime) {
    let begun = begun(&rt, rt.alloc());
    for call in 0..PIECES {
        check_write(&rt, rt.alloc(), &begun, call);
    }
}
