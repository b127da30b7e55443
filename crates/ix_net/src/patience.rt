//! How long a peer is waited for. The connections of the system ask it before each wait.

use std::time::{Clock, Duration, Instant};

/// What each peer has, whatever it does: ten seconds in all. A whole head has to come in that time.
const PATIENCE: u64 = 10_000;

/// How many bytes earn a peer one more millisecond where it sends them: a body of 1,048,576 bytes
/// has 16.4 seconds more.
const LEAST_SENT: u64 = 64;

/// The same where it takes them: the longest reply, of 16,777,216 bytes, has 16.4 seconds more.
const LEAST_TAKEN: u64 = 1024;

/// After this many milliseconds each wait ends, so that it can be asked whether there is to be
/// another one.
const TICK: u64 = 500;

/// For so many milliseconds a new connection is listened to at once, and so long is the rest
/// between two looks at those that wait.
const LOOK: u64 = 5;

/// How many milliseconds a peer is listened to that has its reply, so that it can take it before
/// the connection ends.
const LINGER: u64 = 2_000;

/// How many bytes are taken of it meanwhile.
const LINGER_BYTES: u64 = 16_777_216;

/// The longest single wait.
pub(crate) fn tick() -> Duration {
    Duration::from_millis(TICK)
}

/// The wait for a new connection, and the rest between two looks.
pub(crate) fn look() -> Duration {
    Duration::from_millis(LOOK)
}

/// How long a peer was waited for, and what it sent and took.
#[derive(Clone, Copy, Drop)]
pub(crate) struct Patience {
    waited: Duration,
    sent: u64,
    taken: u64,
}

impl Patience {
    /// For a peer that was not waited for.
    pub(crate) fn new() -> Self {
        Patience {
            waited: Duration::ZERO,
            sent: 0,
            taken: 0,
        }
    }

    /// For a peer that is to be waited for no more.
    pub(crate) fn spent() -> Self {
        Patience {
            waited: Duration::MAX,
            sent: 0,
            taken: 0,
        }
    }

    /// Whether a peer whose head has not come was waited for too long between these moments. Where
    /// the machine tells no time it was.
    pub(crate) fn is_over_between(since: Option<Instant>, now: Option<Instant>) -> bool {
        match (since, now) {
            (Some(since), Some(now)) => {
                now.duration_since(since) > Duration::from_millis(PATIENCE)
            }
            _ => true,
        }
    }

    /// The peer has sent so many bytes.
    pub(crate) fn has_sent(&mut self, count: usize) {
        self.sent = self.sent.saturating_add(count as u64);
    }

    /// The peer has taken so many bytes.
    pub(crate) fn has_taken(&mut self, count: usize) {
        self.taken = self.taken.saturating_add(count as u64);
    }

    /// It was waited for since this moment. Where the machine tells no time, that was a whole wait.
    pub(crate) fn has_waited<C: Clock>(&mut self, clock: &C, since: Option<Instant>) {
        let waited = match (since, Instant::now(clock).ok()) {
            (Some(since), Some(now)) => now.duration_since(since),
            _ => tick(),
        };
        self.waited = self.waited.saturating_add(waited);
    }

    /// Whether it is to be waited for no more.
    pub(crate) fn is_over(&self) -> bool {
        let earned = (self.sent / LEAST_SENT).saturating_add(self.taken / LEAST_TAKEN);
        self.waited > Duration::from_millis(PATIENCE.saturating_add(earned))
    }

    /// Whether a peer that has its reply is to be listened to no more.
    pub(crate) fn has_lingered(&self) -> bool {
        self.waited > Duration::from_millis(LINGER) || self.sent > LINGER_BYTES
    }
}
