//! How many calls of the system one request costs, over a network of this test that counts them: a head and a small body that
//! are there are one read, and a reply of up to 8,192 bytes is one write. And which connections are closed at once behind a reply.

ghost use Rattle.std.specs.Prelude.{◌≤◌, length};

use crate::said::{bytes_of, compare, note, read};
use ix_base::Bytes;
use ix_http::{Incoming, Kind, write_reply};
use ix_net::{Listener, TcpListen};
use std::alloc::Global;
use std::cell::Cell;
use std::io::{self, ErrorKind, Read, Write};
use std::net::{Ipv4Addr, Net, OpenListener, OpenStream, Shutdown, SocketAddr};
use std::os::fd::{AsRawFd, RawFd};
use std::time::{Clock, Duration};

/// A request that has no body.
const LISTING: &[u8] = b"GET /buckets HTTP/1.1\r\n\r\n";

/// What was counted on a connection.
#[derive(Drop)]
struct Counts {
    /// How many bytes the peer has sent.
    sent: Cell<usize>,
    /// How many bytes it has taken.
    taken: Cell<usize>,
    /// How many reads there were, but for those that did not wait and found nothing.
    reads: Cell<u64>,
    writes: Cell<u64>,
    /// Whether a read does not wait.
    looks: Cell<bool>,
    has_shut_down: Cell<bool>,
}

fn make_counts() -> Counts {
    Counts {
        sent: Cell::new(0),
        taken: Cell::new(0),
        reads: Cell::new(0),
        writes: Cell::new(0),
        looks: Cell::new(false),
        has_shut_down: Cell::new(false),
    }
}

/// The network, its clock, its listener and its one connection.
#[derive(Clone, Copy)]
struct Line<'a> {
    counts: &'a Counts,
    /// What the peer sends. Then it waits for its reply, and hangs up as soon as a read waits.
    asked: &'a [u8],
    /// It sends so many bytes at a time.
    piece: usize,
}

impl Line<'_> {
    fn has_sent_all(&self) -> bool {
        self.counts.sent.get() >= self.asked.len()
    }

    /// Sends what comes next, and answers how many bytes that are.
    fn send(&self, buf: &mut [u8]) -> usize
        ensures { result ≤ length buf.old }
    {
        let from = self.counts.sent.get().min(self.asked.len());
        let rest = &self.asked[from..];
        let n = buf.len().min(rest.len()).min(self.piece);
        buf[..n].copy_from_slice(&rest[..n]);
        self.counts.sent.set(from + n);
        n
    }
}

/// Counts one more.
fn count(counter: &Cell<u64>) {
    counter.set(counter.get().saturating_add(1));
}

impl Clock for Line<'_> {
    fn monotonic(&self) -> io::Result<Duration> {
        Ok(Duration::ZERO)
    }

    fn since_1970(&self) -> io::Result<Duration> {
        Ok(Duration::ZERO)
    }

    fn sleep(&self, _duration: Duration) {}
}

impl<'a> Net for Line<'a> {
    type Stream = Line<'a>;

    type Listener = Line<'a>;

    fn bind(&self, _addr: SocketAddr) -> io::Result<Line<'a>> {
        Ok(*self)
    }

    fn connect(&self, _addr: SocketAddr) -> io::Result<Line<'a>> {
        Ok(*self)
    }
}

impl AsRawFd for Line<'_> {
    fn as_raw_fd(&self) -> RawFd {
        -1
    }
}

impl<'a> OpenListener for Line<'a> {
    type Stream = Line<'a>;

    fn accept(&self) -> io::Result<(Line<'a>, SocketAddr)> {
        Ok((*self, SocketAddr::from((Ipv4Addr::LOCALHOST, 1))))
    }

    fn local_addr(&self) -> io::Result<SocketAddr> {
        Ok(SocketAddr::from((Ipv4Addr::LOCALHOST, 8089)))
    }

    fn set_nonblocking(&self, _nonblocking: bool) -> io::Result<()> {
        Ok(())
    }
}

impl OpenStream for Line<'_> {
    fn shutdown(&self, how: Shutdown) -> io::Result<()> {
        self.counts.has_shut_down.set(how == Shutdown::Write);
        Ok(())
    }

    fn set_nonblocking(&self, nonblocking: bool) -> io::Result<()> {
        self.counts.looks.set(nonblocking);
        Ok(())
    }

    fn set_read_timeout(&self, _dur: Option<Duration>) -> io::Result<()> {
        Ok(())
    }

    fn set_write_timeout(&self, _dur: Option<Duration>) -> io::Result<()> {
        Ok(())
    }
}

impl Read for Line<'_> {
    fn read(&mut self, buf: &mut [u8]) -> io::Result<usize> {
        if self.counts.looks.get() && self.has_sent_all() {
            return Err(io::Error::from(ErrorKind::WouldBlock));
        }
        count(&self.counts.reads);
        Ok(self.send(buf))
    }
}

impl Write for Line<'_> {
    fn write(&mut self, buf: &[u8]) -> io::Result<usize> {
        count(&self.counts.writes);
        let taken = self.counts.taken.get();
        self.counts.taken.set(taken.saturating_add(buf.len()));
        Ok(buf.len())
    }

    fn flush(&mut self) -> io::Result<()> {
        Ok(())
    }
}

/// Puts so many bytes behind others.
fn add_bytes(bytes: &mut Bytes, count: usize) {
    for _ in 0..count {
        let _ = bytes.push(b'x');
    }
}

/// The head of a block, and so many bytes of it.
fn block_of(alloc: Global, count: usize) -> Bytes {
    let mut bytes = bytes_of(
        alloc,
        b"POST /channels/c/blocks HTTP/1.1\r\nContent-Length: ",
    );
    if let Ok(length) = format!(in alloc; "{count}\r\n\r\n") {
        let _ = bytes.extend(length.as_bytes());
        drop(length);
    }
    add_bytes(&mut bytes, count);
    bytes
}

/// Serves the next connection, and writes whether the request was read, in how many reads, in how many writes its reply goes out,
/// how many bytes they have, how many reads there are with the end of the connection, and whether its peer was told the end first
/// and then listened to.
fn note_served<L: Listener>(
    text: &mut String,
    alloc: Global,
    listener: &mut L,
    counts: &Counts,
    reply: &[u8],
) {
    if let Ok(mut link) = listener.accept() {
        let came = read(alloc, &mut link);
        note(text, matches!(came, Ok(Incoming::Asked { .. })));
        drop(came);
        note(text, counts.reads.get());
        let _ = write_reply(&mut link, 200, Kind::Plain, reply);
        note(text, counts.writes.get());
        note(text, counts.taken.get());
        listener.done(link);
        note(text, counts.reads.get());
        note(text, counts.has_shut_down.get());
    }
}

/// Serves a connection of this network.
fn note_net<R: Net + Clock + Clone + Drop>(
    text: &mut String,
    alloc: Global,
    net: R,
    counts: &Counts,
    reply: &[u8],
) {
    let mut listener = TcpListen::new(alloc, net);
    let _ = listener.bind(0);
    note_served(text, alloc, &mut listener, counts, reply);
    drop(listener);
}

/// What a request costs that comes in pieces of so many bytes, and its reply.
fn note_request(text: &mut String, alloc: Global, asked: &[u8], piece: usize, reply: &[u8]) {
    let counts = make_counts();
    let line = Line {
        counts: &counts,
        asked,
        piece,
    };
    note_net(text, alloc, line, &counts, reply);
}

/// What a block of so many bytes costs that comes in pieces of so many bytes.
fn note_block(text: &mut String, alloc: Global, count: usize, piece: usize) {
    let asked = block_of(alloc, count);
    note_request(text, alloc, asked.as_slice(), piece, b"{}");
    drop(asked);
}

fn reads_said(alloc: Global) -> String {
    let mut text = String::new(alloc);
    note_request(&mut text, alloc, LISTING, usize::MAX, b"{}");
    note_request(&mut text, alloc, LISTING, 13, b"{}");
    note_block(&mut text, alloc, 64, usize::MAX);
    note_block(&mut text, alloc, 1_000, usize::MAX);
    note_block(&mut text, alloc, 1_000, 600);
    note_block(&mut text, alloc, 8_134, usize::MAX);
    note_block(&mut text, alloc, 8_135, usize::MAX);
    note_block(&mut text, alloc, 1_048_576, usize::MAX);
    text
}

/// A head alone, small blocks, and one that has 8,192 bytes with its head are one read each. What comes in two pieces is two, a
/// block with one byte more is two, and so is the longest one, where the system gives all that it is asked for. Behind each reply the
/// connection is closed without a further read that waits.
#[test]
fn a_small_request_is_one_read(rt: HostRuntime) {
    let wanted = "true 1 1 85 1 false true 2 1 85 2 false \
        true 1 1 85 1 false true 1 1 85 1 false true 2 1 85 2 false \
        true 1 1 85 1 false true 2 1 85 2 false true 2 1 85 2 false ";
    compare(&rt, reads_said(rt.alloc()), wanted);
}

/// Requests of which it is known where they end, and of which nothing is left unread: two that are good, and one that is refused.
const WHOLE: &[&[u8]] = &[
    b"\r\nPOST /channels/c/end HTTP/1.1\nHost: x\n\n",
    b"POST /channels/c/blocks HTTP/1.1\r\ncontent-LENGTH:\t 2 \r\nContent-Type: x\r\n\r\nab",
    b"PUT /buckets HTTP/1.1\r\nContent-Length: 2\r\n\r\n{}",
];

/// Requests behind which more may come, or has come already.
const OPEN: &[&[u8]] = &[
    b"POST /channels/c/blocks HTTP/1.1\r\nContent-Length: 2000000\r\n\r\nab",
    b"POST /channels/c/blocks HTTP/1.1\r\nContent-Length: 2\r\nContent-Length: 2\r\n\r\nab",
    b"POST /channels/c/blocks HTTP/1.1\r\nContent-Length: +2\r\n\r\nab",
    b"POST /channels/c/blocks HTTP/1.1\r\nContent-Length: 2 2\r\n\r\nab",
    b"POST /channels/c/blocks HTTP/1.1\r\nContent-Length: 99999999999999999999\r\n\r\nab",
    b"POST /channels/c/blocks HTTP/1.1\r\nTransfer-Encoding: chunked\r\n\r\n0\r\n\r\n",
    b"GET /buckets HTTP/2.0\r\n\r\n",
    b"GET /buckets HTTP/1.1\r\n\r\nG",
];

/// What each of these requests costs, where all of it is there.
fn note_all(text: &mut String, alloc: Global, requests: &[&[u8]]) {
    for asked in requests {
        note_request(text, alloc, asked, usize::MAX, b"{}");
    }
}

fn whole_said(alloc: Global) -> String {
    let mut text = String::new(alloc);
    note_all(&mut text, alloc, WHOLE);
    text
}

/// Where the whole request was read, also where it is refused then, its connection is closed at once.
#[test]
fn a_whole_request_is_not_waited_behind(rt: HostRuntime) {
    let wanted = "true 1 1 85 1 false true 1 1 85 1 false false 1 1 85 1 false ";
    compare(&rt, whole_said(rt.alloc()), wanted);
}

fn open_said(alloc: Global) -> String {
    let mut text = String::new(alloc);
    note_all(&mut text, alloc, OPEN);
    note_request(
        &mut text,
        alloc,
        b"GET /buckets HTTP/1.1\r\n\r\nGET",
        25,
        b"{}",
    );
    text
}

/// Where it is not known where a request ends, where it was not read to its end, and where a byte came behind it, its peer is told
/// the end, and what it sends is read on until it hangs up. The last one sends more behind its request, and that is seen at the end.
#[test]
fn a_peer_that_may_send_more_is_listened_to(rt: HostRuntime) {
    let wanted = "false 1 1 85 2 true false 1 1 85 2 true false 1 1 85 2 true false 1 1 85 2 true \
        false 1 1 85 2 true false 1 1 85 2 true false 1 1 85 2 true \
        true 1 1 85 2 true true 1 1 85 4 true ";
    compare(&rt, open_said(rt.alloc()), wanted);
}

/// What a reply costs whose body has so many bytes.
fn note_reply(text: &mut String, alloc: Global, count: usize) {
    let mut reply = Bytes::new(alloc);
    add_bytes(&mut reply, count);
    note_request(text, alloc, LISTING, usize::MAX, reply.as_slice());
    drop(reply);
}

fn writes_said(alloc: Global) -> String {
    let mut text = String::new(alloc);
    note_reply(&mut text, alloc, 0);
    note_reply(&mut text, alloc, 4_096);
    note_reply(&mut text, alloc, 8_106);
    note_reply(&mut text, alloc, 8_107);
    note_reply(&mut text, alloc, 1_048_576);
    text
}

/// A reply that has 8,192 bytes with its head is one write, and a longer one is two, where the system takes all that it is given.
#[test]
fn a_small_reply_is_one_write(rt: HostRuntime) {
    let wanted = "true 1 1 83 1 false true 1 1 4182 1 false true 1 1 8192 1 false \
        true 1 2 8193 1 false true 1 2 1048665 1 false ";
    compare(&rt, writes_said(rt.alloc()), wanted);
}
