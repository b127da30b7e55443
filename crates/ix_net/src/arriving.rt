//! A connection that was taken and whose request is still to come: its head is read ahead while it
//! comes, and nobody waits for it. `TcpListen` makes one of each connection, and its queue keeps
//! those of which more has to come.

use crate::ahead::Ahead;
use crate::outline::Outline;
use crate::paced::Paced;
use crate::patience::Patience;
use std::alloc::Global;
use std::io::{ErrorKind, Read};
use std::net::OpenStream;

/// What has come of a head.
#[derive(Clone, Copy, Debug, PartialEq, Eq)]
pub(crate) enum Arrival {
    /// All of it, or as much as is read ahead, or all that the peer sends, or what can be no head.
    Come,
    /// A part, perhaps nothing yet.
    Partly,
    /// The connection is lost.
    Lost,
}

impl Arrival {
    /// The patience with a peer that need not be waited for any more.
    pub(crate) fn patience(self) -> Option<Patience> {
        match self {
            Arrival::Come => Some(Patience::new()),
            Arrival::Partly => None,
            Arrival::Lost => Some(Patience::spent()),
        }
    }
}

/// A connection, and what was read ahead of it.
pub(crate) struct Arriving<S: Drop> {
    stream: Paced<S>,
    ahead: Ahead,
    outline: Outline,
}

/// It is written out, so that each place where one is let go is a call of it, which is proved once.
impl<S: Drop> Drop for Arriving<S> {
    fn drop(self) {
        let Arriving {
            stream: _,
            ahead: _,
            outline: _,
        } = self;
    }
}

impl<S: Drop> Arriving<S> {
    /// Nothing was read of it yet.
    pub(crate) fn new(alloc: Global, stream: Paced<S>) -> Self {
        Arriving {
            stream,
            ahead: Ahead::new(alloc),
            outline: Outline::new(),
        }
    }

    /// The connection, the bytes that were read ahead, and what its head has told.
    pub(crate) fn into_parts(self) -> (Paced<S>, Ahead, Outline) {
        let Arriving {
            stream,
            ahead,
            outline,
        } = self;
        (stream, ahead, outline)
    }
}

impl<S: OpenStream + Read + Drop> Arriving<S> {
    /// Has no read of it wait. It tells whether that could be done.
    pub(crate) fn wait_never(&mut self) -> bool {
        self.stream.wait_never()
    }

    /// Has each read of it wait for a tick. It tells whether that could be done.
    pub(crate) fn wait_ticks(&mut self) -> bool {
        self.stream.wait_ticks()
    }

    /// Reads on ahead.
    pub(crate) fn read_ahead(&mut self) -> Arrival {
        if self.ahead.is_full() {
            return Arrival::Come;
        }
        let room = self.ahead.rest();
        match self.stream.stream().read(room) {
            Ok(0) => Arrival::Come,
            Ok(count) => self.read_so_many(count),
            Err(fault) => match fault.kind() {
                ErrorKind::Interrupted | ErrorKind::WouldBlock | ErrorKind::TimedOut => {
                    Arrival::Partly
                }
                _ => Arrival::Lost,
            },
        }
    }

    /// So many bytes more were read.
    fn read_so_many(&mut self, count: usize) -> Arrival {
        let bytes = self.ahead.add(count);
        self.outline.add(bytes);
        if self.ahead.is_full() || self.outline.is_decided() {
            Arrival::Come
        } else {
            Arrival::Partly
        }
    }
}
