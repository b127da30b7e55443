//! Clocks, and the range of the moments that are taken from them.

ghost use Rattle.std.specs.Prelude.{◌≡◌, ◌+◌, Some, None, ℕ, Option};
ghost use Rattle.ix_base.specs.Told.{Told};
ghost use Rattle.ix_base.specs.Clocks.{Moments, Answered, moments_from, clamped};

use std::rt::Clock as ReadsClock;
use std::time::{SystemTime, UNIX_EPOCH};

/// The last moment that is taken: the beginning of the year 2100, in microseconds since
/// 1970-01-01T00:00:00Z.
pub const LATEST_MOMENT: i64 = 4_102_444_800_000_000;

/// A moment brought between the beginning of 1970 and that of 2100: a lower one becomes 0, a higher
/// one `LATEST_MOMENT`. Each call that takes a moment from its caller begins with this.
pub fn clamped(moment: i64) -> i64
    ensures { result ≡ clamped moment }
{
    moment.clamp(0, LATEST_MOMENT)
}

/// A clock. It answers any number, in microseconds since 1970-01-01T00:00:00Z.
pub trait Clock {
    /// The moments that it will answer, the next one first, where the clock knows them.
    ghost ahead: { Self → Option Moments };

    /// What the clock shows.
    fn now(&mut self) -> i64
        ensures { Told (Answered result) (ahead self.old) (ahead self.new) };
}

/// A clock that answers the moments of a list in turn. The last one repeats, and an empty list
/// answers 0.
#[derive(Drop)]
pub struct MemClock {
    moments: Vec<i64>,
    at: usize,
}

impl MemClock {
    /// A clock that answers these moments.
    pub fn new(moments: Vec<i64>) -> Self
        ensures { ⟦<MemClock as Clock>⟧.ahead result ≡ Some (moments_from moments.items 0) }
    {
        MemClock { moments, at: 0 }
    }
}

impl Clock for MemClock {
    ghost ahead = { λ c. Some (moments_from c.moments.items c.at) };

    fn now(&mut self) -> i64 {
        let last = self.moments.len().saturating_sub(1);
        let place = self.at.min(last);
        if self.at < last {
            self.at += 1;
        }
        self.moments.get(place).copied().unwrap_or(0)
    }
}

/// The clock of the machine. It tells nothing of the moments to come, and answers 0 where the
/// machine has no time after 1970.
#[derive(Drop)]
pub struct HostClock<R: ReadsClock + Drop> {
    rt: R,
}

impl<R: ReadsClock + Drop> HostClock<R> {
    /// The clock that this runtime reads.
    pub fn new(rt: R) -> Self
        ensures { ⟦<HostClock<R> as Clock>⟧.ahead result ≡ None }
    {
        HostClock { rt }
    }
}

impl<R: ReadsClock + Drop> Clock for HostClock<R> {
    ghost ahead = { λ c. None };

    fn now(&mut self) -> i64 {
        let Ok(time) = SystemTime::now(&self.rt) else {
            return 0;
        };
        match time.duration_since(UNIX_EPOCH) {
            Ok(past) => i64::try_from(past.as_micros()).unwrap_or(i64::MAX),
            Err(_) => 0,
        }
    }
}
