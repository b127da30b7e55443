//! `serve` over the system's sockets. The run accepts and this test sends in one thread: as soon as it is bound, the listener dials itself.

ghost use Rattle.std.specs.Prelude.{◌≡◌, None};

use crate::tests::exchanges::{Exchanges, replies_of, requests_of};
use crate::tests::requests::{CHANNELS, DATED};
use crate::tests::runs::{DEFAULT, NOON, compare, compare_texts, disk_of, run_of, said_at};
use crate::tests::steps::{Step, take_all};
use ix_base::Failed;
use ix_disk::MemDisk;
use ix_net::{Listener, TcpLink, TcpListen};
use std::alloc::Global;
use std::io::{Read, Write};
use std::net::{Ipv4Addr, Net, OpenStream, Shutdown, SocketAddr, TcpStream};
use std::process::Abort;
use std::test::Fail;
use std::time::Clock;

/// A listener over sockets that sends itself requests, over a connection each, when it is bound. The system keeps them until they are accepted.
#[derive(Drop)]
struct Dialer<R: Net + Clock + Clone + Drop> {
    rt: R,
    inner: TcpListen<R>,
    requests: Vec<String>,
    /// The other ends of the connections.
    senders: Vec<R::Stream>,
}

/// Sends each request over a connection of its own. One that cannot be sent has no sender.
fn dial<R: Net + Drop>(rt: &R, port: u16, requests: &[String], senders: &mut Vec<R::Stream>) {
    let address = SocketAddr::from((Ipv4Addr::LOCALHOST, port));
    for request in requests {
        if let Ok(mut sender) = TcpStream::connect(rt, address) {
            if sender.write_all(request.as_bytes()).is_ok()
                && sender.shutdown(Shutdown::Write).is_ok()
            {
                let _ = senders.push(sender);
            }
        }
    }
}

impl<R: Net + Clock + Clone + Drop> Listener for Dialer<R> {
    type Conn = TcpLink<R>;

    ghost waiting = { λ l. None };

    ghost handed = { λ l. None };

    ghost out = { λ l. ⟦<TcpListen<R> as Listener>⟧.out l.inner };

    ghost faults = { λ l. ⟦<TcpListen<R> as Listener>⟧.faults l.inner };

    fn bind(&mut self, port: u16) -> Result<(), Failed> {
        self.inner.bind(port)?;
        let bound = self.inner.port();
        dial(&self.rt, bound, self.requests.as_slice(), &mut self.senders);
        Ok(())
    }

    fn accept(&mut self) -> Result<TcpLink<R>, Failed> {
        self.inner.accept()
    }

    fn done(&mut self, conn: TcpLink<R>) {
        self.inner.done(conn);
    }
}

fn texts_of(alloc: Global, exchanges: Exchanges<'_>) -> Vec<String> {
    let mut texts = Vec::new(alloc);
    for exchange in exchanges.split('¶') {
        let _ = texts.push(requests_of(alloc, exchange));
    }
    texts
}

fn dialer_of(rt: &HostRuntime) -> Result<Dialer<HostRuntime>, Fail> {
    Ok(Dialer {
        rt: rt.clone()?,
        inner: TcpListen::new(rt.alloc(), rt.clone()?),
        requests: texts_of(rt.alloc(), CHANNELS),
        senders: Vec::new(rt.alloc()),
    })
}

/// All that the senders receive, one behind the other.
fn received<S: Read>(alloc: Global, senders: &mut [S]) -> String {
    let mut bytes = Vec::new(alloc);
    for sender in senders {
        let _ = sender.read_to_end(&mut bytes);
    }
    let mut text = String::new(alloc);
    let _ = text.push_str("0: ");
    let _ = text.push_str(str::from_utf8(&bytes).unwrap_or("?"));
    text
}

/// The run that serves the requests says so.
fn check_run<R: Net + Clock + Clone + Drop>(
    rt: &impl Abort,
    alloc: Global,
    disk: &mut MemDisk,
    listener: &mut Dialer<R>,
) {
    let serve = run_of("serve --port 0 --requests 7", DEFAULT, b"");
    let found = said_at(alloc, serve, disk, listener);
    compare(rt, serve.line, found, "0: served 7\n");
}

/// Each of the senders has its reply.
fn check_replies<S: Read>(rt: &impl Abort, alloc: Global, senders: &mut [S]) {
    let given = received(alloc, senders);
    let want = replies_of(alloc, "0", CHANNELS, "");
    compare_texts(rt, "the senders", given, want);
}

static STORED: [Step; 1] = [Step::Run((NOON, "export main", DEFAULT, ""), DATED)];

/// Each connection has its reply, and the events are stored.
fn check_dialed<R: Net + Clock + Clone + Drop>(
    rt: &impl Abort,
    alloc: Global,
    listener: &mut Dialer<R>,
) {
    let mut disk = disk_of(alloc);
    check_run(rt, alloc, &mut disk, listener);
    check_replies(rt, alloc, listener.senders.as_mut_slice());
    take_all(rt, alloc, &mut disk, &STORED);
}

#[test]
fn sockets_are_served(rt: HostRuntime) -> Result<(), Fail> {
    let mut listener = dialer_of(&rt)?;
    check_dialed(&rt, rt.alloc(), &mut listener);
    Ok(())
}
