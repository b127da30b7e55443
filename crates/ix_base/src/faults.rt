//! Failures.

ghost use Rattle.std.specs.Prelude.{◌≡◌, ◌≤◌, []};
ghost use Rattle.ix_base.specs.Faults.{Rose};

use std::alloc::{AllocError, AllocFailed, Global};
use thiserror::Error;

/// A call to the outside has failed.
#[derive(Clone, Copy, Debug, PartialEq, Eq, Error)]
#[error("the outside failed")]
pub struct Failed;

/// There was no room in memory.
#[derive(Clone, Copy, Debug, PartialEq, Eq, Error)]
#[error("there was no room in memory")]
pub struct NoMemory;

impl From<AllocError> for NoMemory {
    fn from(_: AllocError) -> NoMemory {
        NoMemory
    }
}

impl<T: Drop> From<AllocFailed<T>> for NoMemory {
    fn from(_: AllocFailed<T>) -> NoMemory {
        NoMemory
    }
}

/// No prefix of the bytes is a record.
#[derive(Clone, Copy, Debug, PartialEq, Eq, Error)]
#[error("the bytes are no record")]
pub struct BadRecord;

/// Which calls of an object in memory are to fail, and how many have failed. Calls are numbered
/// from 0.
pub struct FailPlan {
    /// The number of the next call. It stands at 2^64 - 1.
    pub calls: u64,
    /// The numbers of the calls that are to fail, in any order.
    pub failing: Vec<u64>,
    /// How many calls have failed, those that were not to fail among them. It stands at 2^64 - 1.
    pub faults: u64,
}

/// It is written out, so that each place where one is let go is a call of it, which is proved once.
impl Drop for FailPlan {
    fn drop(self) {
        let FailPlan {
            calls: _,
            failing: _,
            faults: _,
        } = self;
    }
}

impl FailPlan {
    ghost use Rattle.ix_base.specs.Plans.{is_due, counted, CountsCall};

    /// The calls with these numbers are to fail.
    pub fn new(failing: Vec<u64>) -> Self
        ensures first { result.calls ≡ 0 }
        ensures failing { result.failing ≡ failing }
        ensures faults { result.faults ≡ 0 }
    {
        FailPlan {
            calls: 0,
            failing,
            faults: 0,
        }
    }

    /// No call is to fail. It takes no memory.
    pub fn none(alloc: Global) -> Self
        ensures first { result.calls ≡ 0 }
        ensures failing { result.failing.items ≡ [] }
        ensures faults { result.faults ≡ 0 }
    {
        FailPlan::new(Vec::new(alloc))
    }

    /// Counts a call, and tells whether it is to fail.
    pub fn is_due(&mut self) -> bool
        ensures due { result ≡ is_due self.old }
        ensures counted { CountsCall self.old self.new }
        ensures faults { self.new.faults ≡ self.old.faults }
    {
        let number = self.calls;
        self.calls = self.calls.saturating_add(1);
        self.failing.iter().any(|n| *n == number)
    }

    /// Counts a fault.
    pub fn fail(&mut self) -> Failed
        ensures rose { Rose self.old.faults self.new.faults }
        ensures later { self.old.faults ≤ self.new.faults }
        ensures counted { self.new.faults ≡ counted self.old.faults }
        ensures calls { self.new.calls ≡ self.old.calls }
        ensures failing { self.new.failing ≡ self.old.failing }
    {
        self.faults = self.faults.saturating_add(1);
        Failed
    }
}
