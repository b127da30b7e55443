//! Peers that hold a connection up, over a network of this test in which time goes on only where a call waits. It has no
//! connection wait beside others, so that each is waited for at once.

ghost use Rattle.std.specs.Prelude.{◌≤◌, length};

use crate::said::{compare, note, read};
use ix_http::{Kind, write_reply};
use ix_net::{Link, Listener, TcpListen};
use std::alloc::Global;
use std::cell::Cell;
use std::io::{self, ErrorKind, Read, Write};
use std::net::{Ipv4Addr, Net, OpenListener, OpenStream, Shutdown, SocketAddr};
use std::os::fd::{AsRawFd, RawFd};
use std::time::{Clock, Duration};

const ASKED: &[u8] = b"GET /buckets HTTP/1.1\r\n\r\n";

/// What a peer does.
#[derive(Clone, Copy, Debug, PartialEq, Eq)]
enum Peer {
    /// It sends nothing.
    Silent,
    /// It sends a byte each 400 milliseconds.
    Dripping,
    /// It asks, and takes no reply.
    Deaf,
    /// It asks, takes a byte of its reply each 400 milliseconds, and sends no more.
    Slow,
    /// It asks, and goes on to send as long as it is listened to.
    Chatty,
}

/// What has come to pass.
#[derive(Drop)]
struct Scene {
    peer: Peer,
    /// The errors that the next calls of `accept` answer, the last one first.
    refusals: Cell<[i32; 4]>,
    milliseconds: Cell<u64>,
    /// So many milliseconds a read waits at the most.
    patience: Cell<u64>,
    has_asked: Cell<bool>,
    has_shut_down: Cell<bool>,
    drained: Cell<u64>,
}

fn make_scene(peer: Peer, refusals: [i32; 4]) -> Scene {
    Scene {
        peer,
        refusals: Cell::new(refusals),
        milliseconds: Cell::new(0),
        patience: Cell::new(500),
        has_asked: Cell::new(false),
        has_shut_down: Cell::new(false),
        drained: Cell::new(0),
    }
}

impl Scene {
    fn wait(&self, milliseconds: u64) {
        let now = self.milliseconds.get();
        self.milliseconds.set(now.saturating_add(milliseconds));
    }

    /// Lets the time of a wait go by, and answers its error.
    fn refused(&self, milliseconds: u64) -> io::Error {
        self.wait(milliseconds);
        io::Error::from(ErrorKind::WouldBlock)
    }

    /// The same for a read.
    fn read_refused(&self) -> io::Error {
        self.refused(self.patience.get())
    }

    fn ask(&self, buf: &mut [u8]) -> usize
        ensures { result ≤ length buf.old }
    {
        let n = buf.len().min(ASKED.len());
        buf[..n].copy_from_slice(&ASKED[..n]);
        self.has_asked.set(true);
        n
    }
}

/// The network, its clock, its listener and its connections.
#[derive(Clone, Copy)]
struct Stage<'a> {
    scene: &'a Scene,
}

impl Clock for Stage<'_> {
    fn monotonic(&self) -> io::Result<Duration> {
        Ok(Duration::from_millis(self.scene.milliseconds.get()))
    }

    fn since_1970(&self) -> io::Result<Duration> {
        Ok(Duration::ZERO)
    }

    fn sleep(&self, duration: Duration) {
        self.scene.wait(duration.as_secs().saturating_mul(1000));
    }
}

impl<'a> Net for Stage<'a> {
    type Stream = Stage<'a>;

    type Listener = Stage<'a>;

    fn bind(&self, _addr: SocketAddr) -> io::Result<Stage<'a>> {
        Ok(*self)
    }

    fn connect(&self, _addr: SocketAddr) -> io::Result<Stage<'a>> {
        Ok(*self)
    }
}

impl AsRawFd for Stage<'_> {
    fn as_raw_fd(&self) -> RawFd {
        -1
    }
}

impl<'a> OpenListener for Stage<'a> {
    type Stream = Stage<'a>;

    fn accept(&self) -> io::Result<(Stage<'a>, SocketAddr)> {
        let [next, second, third, last] = self.scene.refusals.get();
        self.scene.refusals.set([second, third, last, 0]);
        if next == 0 {
            Ok((*self, SocketAddr::from((Ipv4Addr::LOCALHOST, 1))))
        } else {
            Err(io::Error::from_raw_os_error(next))
        }
    }

    fn local_addr(&self) -> io::Result<SocketAddr> {
        Ok(SocketAddr::from((Ipv4Addr::LOCALHOST, 8089)))
    }
}

impl OpenStream for Stage<'_> {
    fn shutdown(&self, how: Shutdown) -> io::Result<()> {
        self.scene.has_shut_down.set(how == Shutdown::Write);
        Ok(())
    }

    fn set_read_timeout(&self, dur: Option<Duration>) -> io::Result<()> {
        let milliseconds = dur.map_or(0, |dur| dur.subsec_millis() as u64);
        self.scene.patience.set(milliseconds);
        Ok(())
    }

    fn set_write_timeout(&self, _dur: Option<Duration>) -> io::Result<()> {
        Ok(())
    }
}

impl Read for Stage<'_> {
    fn read(&mut self, buf: &mut [u8]) -> io::Result<usize> {
        let scene = self.scene;
        match scene.peer {
            Peer::Dripping if !buf.is_empty() && scene.patience.get() > 400 => {
                scene.wait(400);
                buf[0] = b'G';
                Ok(1)
            }
            Peer::Deaf | Peer::Slow | Peer::Chatty if !scene.has_asked.get() => Ok(scene.ask(buf)),
            Peer::Chatty => {
                scene.wait(1);
                let drained = scene.drained.get();
                scene.drained.set(drained.saturating_add(buf.len() as u64));
                Ok(buf.len())
            }
            _ => Err(scene.read_refused()),
        }
    }
}

impl Write for Stage<'_> {
    fn write(&mut self, buf: &[u8]) -> io::Result<usize> {
        match self.scene.peer {
            Peer::Deaf => Err(self.scene.refused(500)),
            Peer::Slow => {
                self.scene.wait(400);
                Ok(buf.len().min(1))
            }
            _ => Ok(buf.len()),
        }
    }

    fn flush(&mut self) -> io::Result<()> {
        Ok(())
    }
}

/// Serves the next connection, and writes what that comes to, and how many milliseconds it takes: up to the reply, and with
/// the end of the connection.
fn note_served<L: Listener>(text: &mut String, alloc: Global, listener: &mut L, scene: &Scene) {
    if let Ok(mut link) = listener.accept() {
        let is_read = read(alloc, &mut link).is_ok();
        note(text, is_read);
        note(
            text,
            is_read && write_reply(&mut link, 200, Kind::Plain, b"").is_ok(),
        );
        note(text, scene.milliseconds.get());
        listener.done(link);
        note(text, scene.milliseconds.get());
        note(text, scene.has_shut_down.get());
        note(text, scene.drained.get());
    }
}

/// Serves a connection of this network.
fn note_net<R: Net + Clock + Clone + Drop>(
    text: &mut String,
    alloc: Global,
    net: R,
    scene: &Scene,
) {
    let mut listener = TcpListen::new(alloc, net);
    let _ = listener.bind(0);
    note_served(text, alloc, &mut listener, scene);
    drop(listener);
}

/// What serving a peer comes to.
fn note_peer(text: &mut String, alloc: Global, peer: Peer) {
    let scene = make_scene(peer, [0; 4]);
    note_net(text, alloc, Stage { scene: &scene }, &scene);
}

fn peers_said(alloc: Global) -> String {
    let mut text = String::new(alloc);
    note_peer(&mut text, alloc, Peer::Silent);
    note_peer(&mut text, alloc, Peer::Dripping);
    note_peer(&mut text, alloc, Peer::Deaf);
    note_peer(&mut text, alloc, Peer::Slow);
    note_peer(&mut text, alloc, Peer::Chatty);
    text
}

#[test]
fn no_peer_is_waited_for_long(rt: HostRuntime) {
    let wanted = "false false 10505 10505 false 0 \
        false false 10405 10405 false 0 \
        true false 10500 10500 false 0 \
        true false 10400 10400 false 0 \
        true true 0 2001 true 16392192 ";
    compare(&rt, peers_said(rt.alloc()), wanted);
}

/// What `accept` answers behind these errors, and how many milliseconds it takes.
fn note_refusals(text: &mut String, alloc: Global, refusals: [i32; 4]) {
    let scene = make_scene(Peer::Silent, refusals);
    let mut listener = TcpListen::new(alloc, Stage { scene: &scene });
    let _ = listener.bind(0);
    note(text, listener.accept().is_ok());
    note(text, scene.milliseconds.get());
    drop(listener);
}

fn refusals_said(alloc: Global) -> String {
    let mut text = String::new(alloc);
    // ECONNABORTED, EINTR, EPROTO, ECONNRESET
    note_refusals(&mut text, alloc, [103, 4, 71, 104]);
    // EMFILE, ENFILE, ENOBUFS, ENOMEM
    note_refusals(&mut text, alloc, [24, 23, 105, 12]);
    // EBADF, EINVAL
    note_refusals(&mut text, alloc, [9, 0, 0, 0]);
    note_refusals(&mut text, alloc, [103, 22, 0, 0]);
    text
}

#[test]
fn a_connection_that_is_lost_ends_no_listener(rt: HostRuntime) {
    compare(
        &rt,
        refusals_said(rt.alloc()),
        "true 5 true 4005 false 0 false 0 ",
    );
}
