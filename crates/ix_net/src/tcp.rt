//! A listener over the system's sockets. The program hands it to `serve`.

ghost use Rattle.std.specs.Prelude.{◌≡◌, ◌≤◌, ◌+◌, ◌-◌, ℕ, List, [], Option, Some, None, IfSome};
ghost use Rattle.ix_base.specs.Faults.{Rose};
ghost use Rattle.ix_net.specs.Listeners.{Handed, Begins};

use crate::arriving::Arriving;
use crate::link::Link;
use crate::listener::Listener;
use crate::paced::Paced;
use crate::patience::{Patience, look};
use crate::queue::Queue;
use crate::tcp_link::TcpLink;
use ix_base::Failed;
use std::alloc::Global;
use std::io::{self, ErrorKind, Read};
use std::net::{Ipv4Addr, Net, OpenListener, OpenStream, SocketAddr, TcpListener};
use std::time::{Clock, Duration};

/// So many connections one behind the other may end before they are taken; then the listener has
/// failed.
const MOST_LOST: u32 = 100_000;

/// So often it is waited, a second each time, for the system to have room for one more connection.
const MOST_WAITS: u32 = 30;

/// What is done about a connection that could not be taken.
#[derive(Clone, Copy)]
enum Refused {
    /// The next one is taken.
    Lost,
    /// It is tried again, a second later.
    Crowded,
    /// The listener has failed.
    Failed,
}

/// What it means that the system has no connection to give. Errors of the connection itself are
/// told there too.
fn refused_by(fault: &io::Error) -> Refused {
    match fault.kind() {
        ErrorKind::ConnectionAborted
        | ErrorKind::ConnectionReset
        | ErrorKind::Interrupted
        | ErrorKind::WouldBlock
        | ErrorKind::TimedOut
        | ErrorKind::HostUnreachable
        | ErrorKind::NetworkUnreachable
        | ErrorKind::NetworkDown
        | ErrorKind::PermissionDenied => return Refused::Lost,
        ErrorKind::OutOfMemory => return Refused::Crowded,
        _ => {}
    }
    match fault.raw_os_error() {
        // EPROTO, ENONET, ENOPROTOOPT, EHOSTDOWN
        Some(71 | 64 | 92 | 112) => Refused::Lost,
        // ENFILE, EMFILE, ENOBUFS
        Some(23 | 24 | 105) => Refused::Crowded,
        _ => Refused::Failed,
    }
}

/// The next connection that stands, where nobody waits: it is waited for.
fn next_stream<L: OpenListener<Stream: OpenStream + Read>, C: Clock>(
    listener: &L,
    clock: &C,
) -> Option<Paced<L::Stream>> {
    let mut waits = 0;
    for _ in 0..MOST_LOST {
        match listener.accept() {
            Ok((stream, _)) => match Paced::new(stream) {
                Some(paced) => return Some(paced),
                None => {}
            },
            Err(fault) => match refused_by(&fault) {
                Refused::Lost => {}
                Refused::Crowded if waits < MOST_WAITS => {
                    waits += 1;
                    clock.sleep(Duration::from_secs(1));
                }
                _ => return None,
            },
        }
    }
    None
}

/// A further connection, where others wait: it is not waited for.
fn further_stream<L: OpenListener<Stream: OpenStream + Read>>(
    listener: &L,
) -> Result<Option<Paced<L::Stream>>, Failed> {
    match listener.accept() {
        Ok((stream, _)) => Ok(Paced::new(stream)),
        Err(fault) => match refused_by(&fault) {
            Refused::Failed => Err(Failed),
            _ => Ok(None),
        },
    }
}

/// A listener of the system, on 127.0.0.1. It tells nothing of its connections.
///
/// A connection is handed out once the head of its request has come, or the first 8,192 bytes of it,
/// or its peer sends no more, or what came can be no head. Until then it waits beside the others,
/// and holds up none of them. One whose head has not come within ten seconds is handed out then, and
/// fails as soon as more is read of it than has come.
#[derive(Drop)]
pub struct TcpListen<R: Net + Clock + Clone + Drop> {
    alloc: Global,
    rt: R,
    listener: Option<R::Listener>,
    /// Whether the listener waits for the next connection.
    waits: bool,
    queue: Queue<R::Stream>,
    bound: Option<SocketAddr>,
    out: u64,
    faults: u64,
}

impl<R: Net + Clock + Clone + Drop> TcpListen<R> {
    /// A listener by this runtime, which listens nowhere yet.
    pub fn new(alloc: Global, rt: R) -> Self
        ensures { ⟦<TcpListen<R> as Listener>⟧.faults result ≡ 0 }
    {
        TcpListen {
            alloc,
            rt,
            listener: None,
            waits: true,
            queue: Queue::new(alloc),
            bound: None,
            out: 0,
            faults: 0,
        }
    }

    /// The address and the port where it listens, as the system tells them.
    pub fn bound(&self) -> Option<SocketAddr> {
        self.bound
    }

    /// The port that was bound; 0 while none is.
    pub fn port(&self) -> u16 {
        match self.bound {
            Some(bound) => bound.port(),
            None => 0,
        }
    }

    fn fail(&mut self) -> Failed
        ensures rose { Rose self.old.faults self.new.faults }
        ensures later { self.old.faults ≤ self.new.faults }
        ensures out { self.new.out ≡ self.old.out }
    {
        self.faults = self.faults.saturating_add(1);
        Failed
    }

    /// Has the listener wait for the next connection, or not.
    fn set_waits(&mut self, waits: bool) -> Result<(), Failed>
        ensures out { self.new.out ≡ self.old.out }
        ensures faults { self.new.faults ≡ self.old.faults }
    {
        let Some(listener) = &self.listener else {
            return Err(Failed);
        };
        if self.waits != waits && listener.set_nonblocking(!waits).is_err() {
            return Err(Failed);
        }
        self.waits = waits;
        Ok(())
    }

    /// A new connection: the next one where nobody waits, else one that is there.
    fn new_stream(&mut self) -> Result<Option<Paced<R::Stream>>, Failed>
        ensures out { self.new.out ≡ self.old.out }
        ensures faults { self.new.faults ≡ self.old.faults }
    {
        if self.queue.is_full() {
            return Ok(None);
        }
        let alone = self.queue.is_empty();
        self.set_waits(alone)?;
        let Some(listener) = &self.listener else {
            return Err(Failed);
        };
        if !alone {
            return further_stream(listener);
        }
        match next_stream(listener, &self.rt) {
            Some(stream) => Ok(Some(stream)),
            None => Err(Failed),
        }
    }

    /// A new connection, where its head comes at once. Else it has to wait.
    fn greet(&mut self) -> Result<Option<(Arriving<R::Stream>, Patience)>, Failed>
        ensures out { self.new.out ≡ self.old.out }
        ensures faults { self.new.faults ≡ self.old.faults }
    {
        let Some(stream) = self.new_stream()? else {
            self.rt.sleep(look());
            return Ok(None);
        };
        let mut arriving = Arriving::new(self.alloc, stream);
        if let Some(patience) = arriving.read_ahead().patience() {
            return Ok(Some((arriving, patience)));
        }
        match self.queue.push(arriving, &self.rt) {
            Some(arriving) => Ok(Some((arriving, Patience::new()))),
            None => Ok(None),
        }
    }

    /// The next connection whose head need not be waited for, and the patience with its peer.
    fn next_peer(&mut self) -> Option<(Arriving<R::Stream>, Patience)>
        ensures out { self.new.out ≡ self.old.out }
        ensures faults { self.new.faults ≡ self.old.faults }
    {
        for _ in 0..u64::MAX {
            match self.queue.take(&self.rt) {
                Some((mut arriving, patience)) => {
                    if arriving.wait_ticks() {
                        return Some((arriving, patience));
                    }
                }
                None => {}
            }
            match self.greet() {
                Ok(Some(next)) => return Some(next),
                Ok(None) => {}
                Err(_) => return None,
            }
        }
        None
    }

    /// The next connection as a link.
    fn next_link(&mut self) -> Option<TcpLink<R>>
        ensures out { self.new.out ≡ self.old.out }
        ensures faults { self.new.faults ≡ self.old.faults }
        ensures begins { IfSome result (λ link. Begins (⟦<TcpLink<R> as Link>⟧.standing link) None None
            (⟦<TcpLink<R> as Link>⟧.faults link)) }
    {
        let clock = self.rt.clone().ok()?;
        let (arriving, patience) = self.next_peer()?;
        Some(TcpLink::new(arriving, clock, patience))
    }
}

impl<R: Net + Clock + Clone + Drop> Listener for TcpListen<R> {
    type Conn = TcpLink<R>;

    ghost waiting = { λ l. None };

    ghost handed = { λ l. None };

    ghost out = { λ l. l.out };

    ghost faults = { λ l. l.faults };

    fn bind(&mut self, port: u16) -> Result<(), Failed> {
        let address = SocketAddr::from((Ipv4Addr::LOCALHOST, port));
        let Ok(listener) = TcpListener::bind(&self.rt, address) else {
            return Err(self.fail());
        };
        let Ok(bound) = listener.local_addr() else {
            return Err(self.fail());
        };
        self.bound = Some(bound);
        self.listener = Some(listener);
        Ok(())
    }

    /// A connection that ended before it was taken is passed over.
    fn accept(&mut self) -> Result<TcpLink<R>, Failed> {
        let Some(out) = self.out.checked_add(1) else {
            return Err(self.fail());
        };
        let Some(link) = self.next_link() else {
            return Err(self.fail());
        };
        self.out = out;
        Ok(link)
    }

    /// Closes the connection, so that the peer sees its reply.
    fn done(&mut self, mut conn: TcpLink<R>) {
        self.out = self.out.saturating_sub(1);
        conn.finish();
        drop(conn);
    }
}
