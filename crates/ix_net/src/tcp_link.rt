//! Links over the system's sockets.

ghost use Rattle.std.specs.Prelude.{◌≡◌, ◌≤◌, ◌+◌, ℕ, List, [], Option, Some, None, length, IfSome};
ghost use Rattle.ix_base.specs.Faults.{Rose};
ghost use Rattle.ix_net.specs.Links.{Standing};

use crate::ahead::Ahead;
use crate::arriving::Arriving;
use crate::link::Link;
use crate::paced::Paced;
use crate::patience::Patience;
use ix_base::Failed;
use std::io::{self, ErrorKind, Read, Write};
use std::net::{Net, OpenStream, Shutdown};
use std::time::{Clock, Instant};

/// A connection of the system. It tells nothing of its bytes. A peer that keeps it waiting too long
/// is a failure.
#[derive(Drop)]
pub struct TcpLink<R: Net + Clock + Drop> {
    stream: Paced<R::Stream>,
    clock: R,
    ahead: Ahead,
    patience: Patience,
    /// So many bytes of the request are still to be read; `None` where that is not known.
    rest: Option<u64>,
    /// Whether a piece was written.
    has_written: bool,
    /// Whether the peer sends no more.
    has_ended: bool,
    start: u64,
    faults: u64,
}

/// Whether a call that was refused so is to be made again.
fn is_passing(fault: &io::Error) -> bool {
    matches!(
        fault.kind(),
        ErrorKind::Interrupted | ErrorKind::WouldBlock | ErrorKind::TimedOut
    )
}

/// What is left of a request behind so many bytes more; `None` where they are more than it has.
fn without(rest: Option<u64>, count: usize) -> Option<u64> {
    rest?.checked_sub(count as u64)
}

/// Reads what comes next, as long as the peer is waited for; `None` where the reading failed.
fn read_some<S: Read, C: Clock>(
    stream: &mut S,
    clock: &C,
    patience: &mut Patience,
    buf: &mut [u8],
) -> Option<usize>
    ensures { IfSome result (λ n. n ≤ length buf.old) }
{
    for _ in 0..u64::MAX {
        if patience.is_over() {
            return None;
        }
        let since = Instant::now(clock).ok();
        let answer = stream.read(buf);
        patience.has_waited(clock, since);
        match answer {
            Ok(count) => {
                patience.has_sent(count);
                return Some(count);
            }
            Err(fault) if is_passing(&fault) => {}
            Err(_) => return None,
        }
    }
    None
}

/// Writes a front of the bytes, as long as the peer is waited for, and answers how many; `None`
/// where the writing failed.
fn write_some<S: Write, C: Clock>(
    stream: &mut S,
    clock: &C,
    patience: &mut Patience,
    bytes: &[u8],
) -> Option<usize>
    ensures { IfSome result (λ n. n ≤ length bytes.now) }
{
    for _ in 0..u64::MAX {
        if patience.is_over() {
            return None;
        }
        let since = Instant::now(clock).ok();
        let answer = stream.write(bytes);
        patience.has_waited(clock, since);
        match answer {
            Ok(0) => return None,
            Ok(count) => {
                patience.has_taken(count);
                return Some(count);
            }
            Err(fault) if is_passing(&fault) => {}
            Err(_) => return None,
        }
    }
    None
}

/// Takes what a peer still sends, up to its end or until nothing comes for a while.
fn drain<S: Read, C: Clock>(stream: &mut S, clock: &C, room: &mut [u8]) {
    let mut patience = Patience::new();
    for _ in 0..u64::MAX {
        if patience.has_lingered() {
            return;
        }
        let since = Instant::now(clock).ok();
        let answer = stream.read(room);
        patience.has_waited(clock, since);
        match answer {
            Ok(0) => return,
            Ok(count) => patience.has_sent(count),
            Err(fault) if fault.kind() == ErrorKind::Interrupted => {}
            Err(_) => return,
        }
    }
}

impl<R: Net + Clock + Drop> TcpLink<R> {
    /// A connection, with what was read ahead of it.
    pub(crate) fn new(arriving: Arriving<R::Stream>, clock: R, patience: Patience) -> Self
        ensures start { result.start ≡ 0 }
        ensures faults { result.faults ≡ 0 }
    {
        let (stream, ahead, outline) = arriving.into_parts();
        TcpLink {
            stream,
            clock,
            ahead,
            patience,
            rest: outline.request_length(),
            has_written: false,
            has_ended: false,
            start: 0,
            faults: 0,
        }
    }

    fn fail(&mut self) -> Failed
        ensures rose { Rose self.old.faults self.new.faults }
        ensures later { self.old.faults ≤ self.new.faults }
        ensures start { self.new.start ≡ self.old.start }
    {
        self.faults = self.faults.saturating_add(1);
        Failed
    }

    /// Reads into the front of the buffer where nothing was read ahead; `None` where that failed.
    fn read_on(&mut self, buf: &mut [u8]) -> Option<usize>
        ensures count { IfSome result (λ n. n ≤ length buf.old) }
        ensures faults { self.new.faults ≡ self.old.faults }
        ensures start { self.new.start ≡ self.old.start }
    {
        if !self.stream.wait_ticks() {
            return None;
        }
        let stream = self.stream.stream();
        if self.ahead.is_large(buf.len()) {
            return read_some(stream, &self.clock, &mut self.patience, buf);
        }
        let room = self.ahead.room();
        let count = read_some(stream, &self.clock, &mut self.patience, room)?;
        self.ahead.filled(count);
        Some(self.ahead.take(buf))
    }

    /// Whether the peer has all that it can wait for: its whole request was read, and not a byte
    /// stands behind it.
    fn is_done(&mut self) -> bool {
        self.rest == Some(0) && self.ahead.is_empty() && self.stream.has_nothing()
    }

    /// Ends the connection. A peer that may still be sending is told that nothing more comes, and
    /// what it sends is taken for a while: the system resets a connection that is closed over bytes
    /// that nobody took, and then the peer may lose its reply. One whose request was read to its
    /// end, and that has sent nothing behind it, is not waited for, nor is one that failed.
    pub(crate) fn finish(&mut self) {
        if self.has_ended || self.faults > self.start || self.is_done() {
            return;
        }
        let stream = self.stream.stream();
        if stream.shutdown(Shutdown::Write).is_ok() && self.stream.wait_ticks() {
            self.listen_on();
        }
    }

    /// Takes what the peer still sends; where there is no room to read ahead to, a little at a time.
    fn listen_on(&mut self) {
        let stream = self.stream.stream();
        let room = self.ahead.room();
        if room.is_empty() {
            let mut few = [0u8; 512];
            drain(stream, &self.clock, &mut few);
        } else {
            drain(stream, &self.clock, room);
        }
    }
}

impl<R: Net + Clock + Drop> Link for TcpLink<R> {
    ghost left = { λ s. None };

    ghost given = { λ s. None };

    ghost faults = { λ s. s.faults };

    ghost standing = { λ s. record {
      held = None;
      start = s.start;
      lent = [];
      reading = s.faults;
      writing = s.faults;
      failed = None;
    } };

    fn read(&mut self, buf: &mut [u8]) -> Result<usize, Failed> {
        if !self.ahead.is_empty() || buf.is_empty() {
            let count = self.ahead.take(buf);
            self.rest = without(self.rest, count);
            return Ok(count);
        }
        match self.read_on(buf) {
            Some(count) => {
                self.has_ended = count == 0;
                self.rest = without(self.rest, count);
                Ok(count)
            }
            None => Err(self.fail()),
        }
    }

    fn put(&mut self, bytes: &[u8]) -> Result<(), Failed> {
        if self.has_written {
            // The first piece goes at once. The system would have a further one wait for its receipt.
            let _ = self.stream.stream().set_nodelay(true);
        }
        self.has_written = true;
        let mut rest = bytes;
        for _ in 0..u64::MAX {
            if rest.is_empty() {
                return Ok(());
            }
            let stream = self.stream.stream();
            match write_some(stream, &self.clock, &mut self.patience, rest) {
                Some(count) => rest = &rest[count..],
                None => break,
            }
        }
        Err(self.fail())
    }
}
