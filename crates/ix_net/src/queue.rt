//! Connections that were taken and whose heads have not come yet. A peer that is silent or drips
//! waits here, where it holds up no other. `TcpListen` has one.

use crate::arriving::Arriving;
use crate::patience::Patience;
use std::alloc::Global;
use std::io::Read;
use std::net::OpenStream;
use std::time::{Clock, Instant};

/// So many wait at once. As a rule the system lets a program have 1,024 files open.
const MOST: usize = 512;

/// A connection whose head has not come.
struct Waiting<S: Drop> {
    arriving: Arriving<S>,
    since: Option<Instant>,
}

/// It is written out, so that each place where one is let go is a call of it, which is proved once.
impl<S: Drop> Drop for Waiting<S> {
    fn drop(self) {
        let Waiting {
            arriving: _,
            since: _,
        } = self;
    }
}

/// Those that wait, the first one first.
#[derive(Drop)]
pub(crate) struct Queue<S: Drop> {
    waiting: Vec<Waiting<S>>,
}

impl<S: OpenStream + Read + Drop> Queue<S> {
    /// Nobody waits.
    pub(crate) fn new(alloc: Global) -> Self {
        Queue {
            waiting: Vec::new(alloc),
        }
    }

    /// Whether nobody waits.
    pub(crate) fn is_empty(&self) -> bool {
        self.waiting.is_empty()
    }

    /// Whether as many wait as can.
    pub(crate) fn is_full(&self) -> bool {
        self.waiting.len() >= MOST
    }

    /// Has a connection wait. One that cannot be had wait is handed back.
    pub(crate) fn push<C: Clock>(
        &mut self,
        mut arriving: Arriving<S>,
        clock: &C,
    ) -> Option<Arriving<S>> {
        if self.waiting.reserve(1).is_err() || !arriving.wait_never() {
            return Some(arriving);
        }
        let since = Instant::now(clock).ok();
        match self.waiting.push(Waiting { arriving, since }) {
            Ok(()) => None,
            Err(refused) => Some(refused.value.into_arriving()),
        }
    }

    /// The place of the first one that need not wait, and the patience with its peer: its head has
    /// come, it is lost, or it was waited for too long.
    fn ready<C: Clock>(&mut self, clock: &C) -> Option<(usize, Patience)> {
        let now = Instant::now(clock).ok();
        for (place, one) in self.waiting.iter_mut().enumerate() {
            if let Some(patience) = one.arriving.read_ahead().patience() {
                return Some((place, patience));
            }
            if Patience::is_over_between(one.since, now) {
                return Some((place, Patience::spent()));
            }
        }
        None
    }

    /// Takes the first one out that need not wait, and what is left of the patience with it.
    pub(crate) fn take<C: Clock>(&mut self, clock: &C) -> Option<(Arriving<S>, Patience)> {
        let (place, patience) = self.ready(clock)?;
        if place >= self.waiting.len() {
            return None;
        }
        let arriving = self.waiting.remove(place).into_arriving();
        Some((arriving, patience))
    }
}

impl<S: Drop> Waiting<S> {
    fn into_arriving(self) -> Arriving<S> {
        let Waiting { arriving, since: _ } = self;
        arriving
    }
}
