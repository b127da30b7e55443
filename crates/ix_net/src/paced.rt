//! A connection of the system, and how long each read of it waits. The system is told that only
//! where it changes. `TcpListen` makes one of each connection, and its link goes on with it.

use crate::patience::{look, tick};
use std::io::{ErrorKind, Read};
use std::net::OpenStream;

/// How long a read waits.
#[derive(Clone, Copy, Debug, PartialEq, Eq)]
enum Wait {
    /// Not at all.
    Never,
    /// As long as a look.
    Look,
    /// As long as a tick.
    Tick,
}

/// A connection, and how long a read of it waits.
pub(crate) struct Paced<S: Drop> {
    stream: S,
    wait: Wait,
}

/// It is written out, so that each place where one is let go is a call of it, which is proved once.
impl<S: Drop> Drop for Paced<S> {
    fn drop(self) {
        let Paced { stream: _, wait: _ } = self;
    }
}

impl<S: Drop> Paced<S> {
    /// The connection, to be read from and written to.
    pub(crate) fn stream(&mut self) -> &mut S {
        &mut self.stream
    }
}

impl<S: OpenStream + Read + Drop> Paced<S> {
    /// A new connection, of which each read waits for a look, and each write for a tick. There is
    /// none where that cannot be had: it could hold up all others.
    pub(crate) fn new(stream: S) -> Option<Self> {
        if stream.set_write_timeout(Some(tick())).is_err()
            || stream.set_read_timeout(Some(look())).is_err()
        {
            return None;
        }
        Some(Paced {
            stream,
            wait: Wait::Look,
        })
    }

    /// Has no read of it wait, and no write. It tells whether that could be done.
    pub(crate) fn wait_never(&mut self) -> bool {
        if self.wait != Wait::Never && self.stream.set_nonblocking(true).is_err() {
            return false;
        }
        self.wait = Wait::Never;
        true
    }

    /// Has each read of it wait for a tick. It tells whether that could be done.
    pub(crate) fn wait_ticks(&mut self) -> bool {
        if self.wait == Wait::Tick {
            return true;
        }
        if self.wait == Wait::Never && self.stream.set_nonblocking(false).is_err() {
            return false;
        }
        self.wait = Wait::Look;
        if self.stream.set_read_timeout(Some(tick())).is_err() {
            return false;
        }
        self.wait = Wait::Tick;
        true
    }

    /// Whether its peer has sent not a byte that was not read. It does not wait for one.
    pub(crate) fn has_nothing(&mut self) -> bool {
        if !self.wait_never() {
            return false;
        }
        let mut room = [0u8; 1];
        match self.stream.read(&mut room) {
            Ok(count) => count == 0,
            Err(fault) => fault.kind() == ErrorKind::WouldBlock,
        }
    }
}
