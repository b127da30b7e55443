//! Requests over a connection each, as `serve` takes them, over links in memory.

use crate::tests::exchanges::{BEGUN, Exchanges, feeds, replies_of, requests_of, write_wanted};
use crate::tests::requests::{CHANNELS, DATED};
use crate::tests::runs::{
    DEFAULT, NOON, PLAIN, Run, agree, bytes_of, compare, compare_texts, disk_of, plan_of, run_of,
    said_at,
};
use crate::tests::steps::{Step, take_all};
use ix_base::FailPlan;
use ix_disk::MemDisk;
use ix_net::{MemLink, MemLinkList, MemListener};
use std::alloc::Global;
use std::process::Abort;

/// Adds a connection with this request.
fn add_link(alloc: Global, links: &mut MemLinkList, exchange: Exchanges<'_>) {
    let text = requests_of(alloc, exchange);
    let bytes = bytes_of(alloc, text.as_bytes());
    let link = MemLink::in_pieces(alloc, bytes, 7, FailPlan::none(alloc));
    let _ = links.push(link);
}

/// A listener at which these requests wait, and of which this call fails.
fn listener_of(alloc: Global, exchanges: Exchanges<'_>, call: u64) -> MemListener {
    let mut links = MemLinkList::new(alloc);
    for exchange in exchanges.split('¶') {
        add_link(alloc, &mut links, exchange);
    }
    MemListener::new(alloc, links, plan_of(alloc, &[call]))
}

/// What was written on the connections, one behind the other.
fn given_of(alloc: Global, listener: &MemListener) -> String {
    let mut text = String::new(alloc);
    let _ = text.push_str("0: ");
    for link in listener.handed() {
        let _ = text.push_str(str::from_utf8(link.given()).unwrap_or("?"));
    }
    text
}

/// What is stored then.
static SERVED: [Step; 1] = [Step::Run((NOON, "export main", DEFAULT, ""), DATED)];

fn check_port(rt: &impl Abort, listener: &MemListener) {
    assert!(rt; listener.port == Some(8089));
}

fn check_served(rt: &impl Abort, alloc: Global, disk: &mut MemDisk, listener: &mut MemListener) {
    let serve = run_of("serve --port 8089 --requests 7", DEFAULT, b"");
    compare(
        rt,
        serve.line,
        said_at(alloc, serve, disk, listener),
        "0: served 7\n",
    );
    check_port(rt, listener);
    let want = replies_of(alloc, "0", CHANNELS, "");
    compare_texts(rt, "the connections", given_of(alloc, listener), want);
    take_all(rt, alloc, disk, &SERVED);
}

/// Each connection has its reply, and behind the last one the output has its line.
#[test]
fn connections_are_served(rt: HostRuntime) {
    let mut disk = disk_of(rt.alloc());
    let mut listener = listener_of(rt.alloc(), CHANNELS, NEVER);
    check_served(&rt, rt.alloc(), &mut disk, &mut listener);
}

const NEVER: u64 = u64::MAX;

/// Connections, with `¶` between: how many bytes of the request come, which call on the link fails, and the request with its reply. Where
/// no number stands all bytes come, and no call fails. Behind the first one there is one that hangs up at once, one behind a byte, one
/// inside the body, and one whose reading fails; then one that does not take its reply, whose block is accepted; and at the end one of which
/// the end is not known.
const PEERS: &str = "\
    ¦¦PUT /channels/c¦¦{\"host\":\"h\",\"source\":\"s\"}¦201 Created¦{\"channel\":\"c\"}¶\
    0¦¦POST /channels/c/blocks¦¦a\nb\nc¦200 OK¦{\"ack\":0,\"run\":1}¶\
    1¦¦POST /channels/c/blocks¦¦a\nb\nc¦200 OK¦{\"ack\":0,\"run\":1}¶\
    58¦¦POST /channels/c/blocks¦¦a\nb\nc¦200 OK¦{\"ack\":0,\"run\":1}¶\
    ¦20¦POST /channels/c/blocks¦¦a\nb\nc¦200 OK¦{\"ack\":0,\"run\":1}¶\
    ¦56¦POST /channels/c/blocks¦¦a\nb\nc¦200 OK¦{\"ack\":0,\"run\":1}¶\
    ¦¦POST /channels/c/blocks¦¦\nd\ne¦200 OK¦{\"ack\":1,\"run\":1}¶\
    ¦¦POST /channels/c/blocks¦Transfer-Encoding: chunked\r\n¦f¦411 Length Required¦{\"error\":\"NoLength\"}";

/// How much of each reply is given: `+` all, `-` a front, `0` nothing.
const MARKS: &str = "+0000-++";

/// Adds a connection with its peer.
fn add_peer(alloc: Global, links: &mut MemLinkList, peer: &str) {
    let (count, behind) = peer.split_once('¦').unwrap_or(("", peer));
    let (call, exchange) = behind.split_once('¦').unwrap_or(("", behind));
    let request = requests_of(alloc, exchange);
    let sent = request.as_bytes();
    let count = count.parse().unwrap_or(sent.len());
    let bytes = bytes_of(alloc, &sent[..count.min(sent.len())]);
    let link = MemLink::new(
        alloc,
        bytes,
        plan_of(alloc, &[call.parse().unwrap_or(NEVER)]),
    );
    let _ = links.push(link);
}

fn peers_of(alloc: Global) -> MemListener {
    let mut links = MemLinkList::new(alloc);
    for peer in PEERS.split('¶') {
        add_peer(alloc, &mut links, peer);
    }
    MemListener::new(alloc, links, FailPlan::none(alloc))
}

/// How much of a reply is given.
fn mark_of(alloc: Global, exchange: &str, given: &[u8]) -> char {
    let mut text = String::new(alloc);
    write_wanted(&mut text, exchange);
    let is_whole = given == text.as_bytes();
    let is_front = text.as_bytes().starts_with(given);
    drop(text);
    if given.is_empty() {
        '0'
    } else if is_whole {
        '+'
    } else if is_front {
        '-'
    } else {
        '?'
    }
}

/// How much of each reply is given.
fn marks_of(alloc: Global, links: &[MemLink]) -> String {
    let mut marks = String::new(alloc);
    let mut peers = PEERS.split('¶');
    for link in links {
        let peer = peers.next().unwrap_or("");
        let _ = marks.push(mark_of(alloc, peer, link.given()));
    }
    marks
}

static ACCEPTED: [Step; 1] = [Step::Run(
    (NOON, "export main", PLAIN, ""),
    "0: main\t1700000000.000000\th\ts\tunknown\t\ta\nmain\t1700000000.000000\th\ts\tunknown\t\tb\nmain\t1700000000.000000\th\ts\tunknown\t\tc\nmain\t1700000000.000000\th\ts\tunknown\t\td\n",
)];

fn check_peers(rt: &impl Abort, alloc: Global, disk: &mut MemDisk, listener: &mut MemListener) {
    let serve = run_of("serve --port 0 --requests 8", PLAIN, b"");
    compare(
        rt,
        serve.line,
        said_at(alloc, serve, disk, listener),
        "0: served 8\n",
    );
    let marks = marks_of(alloc, listener.handed());
    compare(rt, "the marks", marks, MARKS);
    take_all(rt, alloc, disk, &ACCEPTED);
}

/// A connection that is cut or fails is one of those that are counted, and does no harm to the others.
#[test]
fn connections_that_fail_do_no_harm(rt: HostRuntime) {
    let mut disk = disk_of(rt.alloc());
    let mut listener = peers_of(rt.alloc());
    check_peers(&rt, rt.alloc(), &mut disk, &mut listener);
}

const ENDED: Exchanges<'static> = "\
    PUT /channels/c¦¦{\"host\":\"h\",\"source\":\"s\"}¦201 Created¦{\"channel\":\"c\"}¶\
    POST /channels/c/end¦¦¦200 OK¦{\"ack\":0,\"run\":1}";

const OPEN: Exchanges<'static> =
    "PUT /channels/c¦¦{\"host\":\"h\",\"source\":\"s\"}¦409 Conflict¦{\"error\":\"ChannelOpen\"}";

/// The next begin is replied to so.
fn check_next(rt: &impl Abort, alloc: Global, disk: &mut MemDisk, next: Exchanges<'_>) {
    feeds(rt, alloc, disk, (PLAIN, next), ("0", ""));
}

/// A listener of which this call fails, of one that binds and those that accept, ends the run, and the next begin is then replied to so.
fn check_listener(rt: &impl Abort, alloc: Global, call: u64, next: Exchanges<'_>) {
    let mut disk = disk_of(alloc);
    let mut listener = listener_of(alloc, ENDED, call);
    let serve = run_of("serve --port 0 --requests 3", PLAIN, b"");
    let found = said_at(alloc, serve, &mut disk, &mut listener);
    compare(rt, serve.line, found, "9: indexd: listener fault\n");
    check_next(rt, alloc, &mut disk, next);
}

/// A listener that cannot bind or accept ends the run, and what was accepted is stored. The third connection does not come.
#[test]
fn a_listener_that_fails_ends_the_run(rt: HostRuntime) {
    check_listener(&rt, rt.alloc(), 0, BEGUN);
    check_listener(&rt, rt.alloc(), 2, OPEN);
    check_listener(&rt, rt.alloc(), NEVER, BEGUN);
}

/// What a run over one connection says whose output fails.
fn untold(alloc: Global, disk: &mut MemDisk) -> String {
    let mut listener = listener_of(alloc, BEGUN, NEVER);
    let run = Run {
        writes: &[0],
        ..run_of("serve --port 0 --requests 1", PLAIN, b"")
    };
    said_at(alloc, run, disk, &mut listener)
}

fn check_untold(rt: &impl Abort, text: String) {
    let is_told = text.as_str().starts_with("7: ");
    agree(rt, is_told, "a status", text);
}

/// Where the line of the end cannot be written, what was accepted is stored all the same.
#[test]
fn an_output_that_fails_is_told(rt: HostRuntime) {
    let mut disk = disk_of(rt.alloc());
    check_untold(&rt, untold(rt.alloc(), &mut disk));
    check_next(&rt, rt.alloc(), &mut disk, OPEN);
}
