//! Peers that connect and send nothing, or their heads bit by bit, over a network of this test in which time goes on only where
//! a call waits: they wait beside the others, and hold up none of them.

ghost use Rattle.std.specs.Io.{ReadsAtMost};
ghost use Rattle.std.specs.Prelude.{◌≤◌, length};

use crate::said::{compare, note, read};
use ix_net::{Listener, TcpListen};
use std::alloc::Global;
use std::cell::Cell;
use std::io::{self, ErrorKind, Read, Write};
use std::net::{Ipv4Addr, Net, OpenListener, OpenStream, SocketAddr};
use std::os::fd::{AsRawFd, RawFd};
use std::time::{Clock, Duration};

const ASKED: &[u8] = b"GET /buckets HTTP/1.1\r\n\r\n";

/// The first part of it, and the rest.
const FRONT: &[u8] = b"GET /buckets";

const REST: &[u8] = b" HTTP/1.1\r\n\r\n";

/// What is no head, however it goes on.
const STRAY: &[u8] = b"EHLO here\r\n";

/// Nor is this, though each of its lines is whole.
const MISNAMED: &[u8] = b"GET / HTTP/1.1\r\nBad Name: x\r\n";

/// What the peers do, but for the last one, which asks.
#[derive(Clone, Copy, Debug, PartialEq, Eq)]
enum Habit {
    /// They send nothing.
    Silent,
    /// They send a byte whenever they are read from.
    Dripping,
    /// They send what is no head, and go on listening.
    Stray,
    /// They send lines of which one is no header line, and go on listening.
    Misnamed,
    /// They send a half of what they ask, and the other half a second later.
    Halting,
    /// They send a part of what they ask, and then no more.
    Ending,
}

/// Peers that have connected, one behind the other.
#[derive(Drop)]
struct Crowd {
    habit: Habit,
    /// So many have that habit. The last one, behind them, asks.
    many: u64,
    accepted: Cell<u64>,
    milliseconds: Cell<u64>,
    /// How many pieces one of them has sent.
    sent: Cell<u64>,
}

fn make_crowd(habit: Habit, many: u64) -> Crowd {
    Crowd {
        habit,
        many,
        accepted: Cell::new(0),
        milliseconds: Cell::new(0),
        sent: Cell::new(0),
    }
}

impl Crowd {
    /// The number of the next piece, where it is due: a second goes by between two.
    fn next_piece(&self) -> Option<u64> {
        let number = self.sent.get();
        if self.milliseconds.get() < number.saturating_mul(1000) {
            return None;
        }
        self.sent.set(number.saturating_add(1));
        Some(number)
    }
}

/// Copies bytes into the front of a buffer, and answers how many.
fn copy(bytes: &[u8], buf: &mut [u8]) -> usize
    ensures { result ≤ length buf.old }
{
    let n = buf.len().min(bytes.len());
    buf[..n].copy_from_slice(&bytes[..n]);
    n
}

/// The network, its clock and its listener, or one of its connections.
#[derive(Clone, Copy)]
struct Guest<'a> {
    crowd: &'a Crowd,
    number: u64,
}

impl Guest<'_> {
    fn asks(&self) -> bool {
        self.number >= self.crowd.many
    }

    /// What comes of one that has the habit of the crowd.
    fn comes(&self, buf: &mut [u8]) -> io::Result<usize>
        ensures { ReadsAtMost result buf.new }
    {
        match (self.crowd.habit, self.crowd.next_piece()) {
            (Habit::Dripping, _) => Ok(copy(b"G", buf)),
            (Habit::Stray, Some(0)) => Ok(copy(STRAY, buf)),
            (Habit::Misnamed, Some(0)) => Ok(copy(MISNAMED, buf)),
            (Habit::Halting, Some(0)) => Ok(copy(FRONT, buf)),
            (Habit::Halting, Some(1)) => Ok(copy(REST, buf)),
            (Habit::Ending, Some(0)) => Ok(copy(FRONT, buf)),
            (Habit::Ending, _) => Ok(0),
            _ => Err(would_block()),
        }
    }

    fn wait(&self, milliseconds: u64) {
        let now = self.crowd.milliseconds.get();
        self.crowd
            .milliseconds
            .set(now.saturating_add(milliseconds));
    }
}

fn would_block() -> io::Error {
    io::Error::from(ErrorKind::WouldBlock)
}

impl Clock for Guest<'_> {
    fn monotonic(&self) -> io::Result<Duration> {
        Ok(Duration::from_millis(self.crowd.milliseconds.get()))
    }

    fn since_1970(&self) -> io::Result<Duration> {
        Ok(Duration::ZERO)
    }

    fn sleep(&self, duration: Duration) {
        self.wait(duration.subsec_millis() as u64);
    }
}

impl<'a> Net for Guest<'a> {
    type Stream = Guest<'a>;

    type Listener = Guest<'a>;

    fn bind(&self, _addr: SocketAddr) -> io::Result<Guest<'a>> {
        Ok(*self)
    }

    fn connect(&self, _addr: SocketAddr) -> io::Result<Guest<'a>> {
        Ok(*self)
    }
}

impl AsRawFd for Guest<'_> {
    fn as_raw_fd(&self) -> RawFd {
        -1
    }
}

impl<'a> OpenListener for Guest<'a> {
    type Stream = Guest<'a>;

    fn accept(&self) -> io::Result<(Guest<'a>, SocketAddr)> {
        let number = self.crowd.accepted.get();
        if number > self.crowd.many {
            return Err(would_block());
        }
        self.crowd.accepted.set(number.saturating_add(1));
        let crowd = self.crowd;
        Ok((
            Guest { crowd, number },
            SocketAddr::from((Ipv4Addr::LOCALHOST, 1)),
        ))
    }

    fn local_addr(&self) -> io::Result<SocketAddr> {
        Ok(SocketAddr::from((Ipv4Addr::LOCALHOST, 8089)))
    }

    fn set_nonblocking(&self, _nonblocking: bool) -> io::Result<()> {
        Ok(())
    }
}

impl OpenStream for Guest<'_> {
    fn set_nonblocking(&self, _nonblocking: bool) -> io::Result<()> {
        Ok(())
    }

    fn set_read_timeout(&self, _dur: Option<Duration>) -> io::Result<()> {
        Ok(())
    }

    fn set_write_timeout(&self, _dur: Option<Duration>) -> io::Result<()> {
        Ok(())
    }
}

impl Read for Guest<'_> {
    fn read(&mut self, buf: &mut [u8]) -> io::Result<usize> {
        if self.asks() {
            return Ok(copy(ASKED, buf));
        }
        self.comes(buf)
    }
}

impl Write for Guest<'_> {
    fn write(&mut self, buf: &[u8]) -> io::Result<usize> {
        Ok(buf.len())
    }

    fn flush(&mut self) -> io::Result<()> {
        Ok(())
    }
}

/// Takes the next connection, and writes whether its request is read, how many milliseconds have gone by, and how many
/// connections the system has given.
fn note_next<L: Listener>(text: &mut String, alloc: Global, listener: &mut L, crowd: &Crowd) {
    if let Ok(mut link) = listener.accept() {
        note(text, read(alloc, &mut link).is_ok());
        note(text, crowd.milliseconds.get());
        note(text, crowd.accepted.get());
        listener.done(link);
    }
}

/// Takes so many connections.
fn pass_over<L: Listener>(alloc: Global, listener: &mut L, crowd: &Crowd, count: u64) {
    for _ in 0..count {
        let mut text = String::new(alloc);
        note_next(&mut text, alloc, listener, crowd);
    }
}

/// Takes connections of this network, and writes what becomes of so many of them behind those that
/// are passed over.
fn note_net<R: Net + Clock + Clone + Drop>(
    text: &mut String,
    alloc: Global,
    net: R,
    crowd: &Crowd,
    (passed, count): (u64, u64),
) {
    let mut listener = TcpListen::new(alloc, net);
    let _ = listener.bind(0);
    pass_over(alloc, &mut listener, crowd, passed);
    for _ in 0..count {
        note_next(text, alloc, &mut listener, crowd);
    }
    drop(listener);
}

/// What becomes of connections where so many peers have a habit, and one behind them asks.
fn note_crowd(text: &mut String, alloc: Global, (habit, many): (Habit, u64), taken: (u64, u64)) {
    let crowd = make_crowd(habit, many);
    let guest = Guest {
        crowd: &crowd,
        number: 0,
    };
    note_net(text, alloc, guest, &crowd, taken);
}

fn silent_said(alloc: Global) -> String {
    let mut text = String::new(alloc);
    note_crowd(&mut text, alloc, (Habit::Silent, 0), (0, 1));
    note_crowd(&mut text, alloc, (Habit::Silent, 3), (0, 4));
    note_crowd(&mut text, alloc, (Habit::Silent, 600), (0, 1));
    note_crowd(&mut text, alloc, (Habit::Silent, 600), (511, 2));
    text
}

/// The one that asks is served at once. The silent ones are given up together, ten seconds later, and no more than 512 of them wait
/// at a time: behind 600 the one that asks is served once the first 512 are given up.
#[test]
fn silent_peers_hold_up_no_other(rt: HostRuntime) {
    let wanted = "true 0 1 \
        true 0 4 false 10005 4 false 10005 4 false 10005 4 \
        false 10005 512 false 10005 512 true 10005 601 ";
    compare(&rt, silent_said(rt.alloc()), wanted);
}

fn slow_said(alloc: Global) -> String {
    let mut text = String::new(alloc);
    note_crowd(&mut text, alloc, (Habit::Dripping, 3), (0, 4));
    note_crowd(&mut text, alloc, (Habit::Dripping, 400), (0, 2));
    note_crowd(&mut text, alloc, (Habit::Halting, 1), (0, 2));
    note_crowd(&mut text, alloc, (Habit::Stray, 1), (0, 2));
    note_crowd(&mut text, alloc, (Habit::Misnamed, 1), (0, 2));
    note_crowd(&mut text, alloc, (Habit::Ending, 1), (0, 2));
    text
}

/// The one that asks is served at once, also behind 400 that drip. Those are given up after ten seconds, and one whose head comes
/// in two parts is served as soon as it has come. What can be no head is refused at once, and one that is cut is taken at once.
#[test]
fn peers_that_drip_in_the_head_hold_up_no_other(rt: HostRuntime) {
    let wanted = "true 0 4 false 10005 4 false 10005 4 false 10005 4 \
        true 0 401 false 10005 401 \
        true 0 2 true 1000 2 \
        true 0 1 true 0 2 \
        true 0 1 true 0 2 \
        false 0 1 true 0 2 ";
    compare(&rt, slow_said(rt.alloc()), wanted);
}
