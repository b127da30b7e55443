//! Listeners: one over the system's sockets, and one in memory.

use crate::said::{bytes_of, compare, failing, note, read};
use ix_base::{FailPlan, Failed, MemSink, MemSource};
use ix_http::{Incoming, Kind, write_reply};
use ix_net::{Link, Listener, MemLink, MemLinkList, MemListener, Pair, TcpListen};
use std::alloc::Global;
use std::io::{Read, Write};
use std::net::{Ipv4Addr, SocketAddr, TcpStream};

const ASKED: &[u8] = b"GET /nothing HTTP/1.1\r\n\r\n";

const ANSWERED: &[u8] =
    b"HTTP/1.1 404 Not Found\r\nContent-Length: 19\r\nContent-Type: application/json\r\nConnection: close\r\n\r\n{\"error\":\"NoRoute\"}";

/// Answers 404 where a request is refused, and nothing else.
fn answer<K: Link>(alloc: Global, link: &mut K) -> Result<(), Failed> {
    let came = read(alloc, link);
    let is_refused = matches!(came, Ok(Incoming::Refused { .. }));
    let is_fault = came.is_err();
    drop(came);
    if is_refused {
        write_reply(link, 404, Kind::Json, b"{\"error\":\"NoRoute\"}")
    } else if is_fault {
        Err(Failed)
    } else {
        Ok(())
    }
}

/// Answers the next connection of a listener, and writes what that came to.
fn note_served<L: Listener>(text: &mut String, alloc: Global, listener: &mut L) {
    if let Ok(mut conn) = listener.accept() {
        note(text, answer(alloc, &mut conn));
        listener.done(conn);
    }
}

/// Writes whether this answer stands on a connection up to its end.
fn note_answered(text: &mut String, alloc: Global, client: &mut impl Read) {
    let mut found = Vec::new(alloc);
    note(text, client.read_to_end(&mut found).is_ok());
    note(text, found.as_slice() == ANSWERED);
    drop(found);
}

fn socket_said(rt: &HostRuntime) -> String {
    let mut text = String::new(rt.alloc());
    let mut listener = TcpListen::new(rt.alloc(), rt);
    note(&mut text, listener.accept().is_err());
    note(&mut text, listener.bound().is_none());
    note(&mut text, listener.bind(0));
    let address = SocketAddr::from((Ipv4Addr::LOCALHOST, listener.port()));
    note(&mut text, listener.bound() == Some(address));
    note(&mut text, listener.port() > 0);
    if let Ok(mut client) = TcpStream::connect(rt, address) {
        note(&mut text, client.write_all(ASKED).is_ok());
        note_served(&mut text, rt.alloc(), &mut listener);
        note_answered(&mut text, rt.alloc(), &mut client);
        drop(client);
    }
    drop(listener);
    text
}

#[test]
fn a_socket_is_served(rt: HostRuntime) {
    compare(
        &rt,
        socket_said(&rt),
        "true true Ok(()) true true true Ok(()) true true ",
    );
}

fn link(alloc: Global, bytes: &[u8]) -> MemLink {
    MemLink::new(alloc, bytes_of(alloc, bytes), FailPlan::none(alloc))
}

fn two_links(alloc: Global) -> MemLinkList {
    let mut waiting = MemLinkList::new(alloc);
    let _ = waiting.push(link(alloc, ASKED));
    let _ = waiting.push(link(alloc, b""));
    waiting
}

fn memory_said(alloc: Global) -> String {
    let mut text = String::new(alloc);
    let mut listener = MemListener::new(alloc, two_links(alloc), FailPlan::none(alloc));
    note(&mut text, listener.bind(8080));
    note_served(&mut text, alloc, &mut listener);
    note_served(&mut text, alloc, &mut listener);
    note(&mut text, listener.accept().is_err());
    note(&mut text, listener.port);
    note(&mut text, listener.plan.faults);
    for link in listener.handed() {
        note(&mut text, link.given() == ANSWERED);
        note(&mut text, link.given().len());
    }
    drop(listener);
    text
}

#[test]
fn a_listener_in_memory_is_served(rt: HostRuntime) {
    let wanted = "Ok(()) Ok(()) Ok(()) true Some(8080) 1 true 116 false 0 ";
    compare(&rt, memory_said(rt.alloc()), wanted);
}

/// Writes what a pair answers whose reads and writes fail by plans, which side failed, and whether the answer was given.
fn note_pair(text: &mut String, alloc: Global, reading: FailPlan, writing: FailPlan) {
    let mut source = MemSource::new(bytes_of(alloc, ASKED), reading);
    let mut sink = MemSink::new(alloc, writing);
    let mut pair = Pair::new(&mut source, &mut sink);
    note(text, answer(alloc, &mut pair));
    note(text, pair.failed);
    note(text, sink.bytes() == ANSWERED);
    drop(source);
    drop(sink);
}

fn pairs_said(alloc: Global) -> String {
    let mut text = String::new(alloc);
    note_pair(
        &mut text,
        alloc,
        FailPlan::none(alloc),
        FailPlan::none(alloc),
    );
    note_pair(&mut text, alloc, failing(alloc, 0), failing(alloc, 99));
    note_pair(&mut text, alloc, failing(alloc, 99), failing(alloc, 0));
    text
}

#[test]
fn a_pair_names_the_side_that_failed(rt: HostRuntime) {
    let wanted =
        "Ok(()) None true Err(Failed) Some(Reading) false Err(Failed) Some(Writing) false ";
    compare(&rt, pairs_said(rt.alloc()), wanted);
}
