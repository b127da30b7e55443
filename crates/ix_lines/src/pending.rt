//! The bytes of a stream from the scan place on, which wait for what comes behind them.

ghost use Rattle.std.specs.Prelude.{◌≡◌, ◌≤◌, ◌++◌, [], length, take, drop, OnOk, IfOk};
ghost use Rattle.ix_base.specs.Stream.{dated};
ghost use Rattle.ix_lines.specs.Carry.{dated_of, runs_of};
ghost use Rattle.ix_lines.specs.Pending.{IsPaired, dated_in};
ghost use Rattle.ix_lines.specs.Seek.{last_byte};

use crate::breaks::last_byte;
use crate::carry::runs_of;
use crate::moments::{Run, add_moments, drop_moments};
use ix_base::{Bytes, Line, LineList, NoMemory};
use std::alloc::Global;

/// The bytes that wait, with their moments.
pub struct Pending {
    /// The byte before the first one. There is none at the stream's start.
    pub before: Option<u8>,
    pub bytes: Bytes,
    /// Their moments.
    pub runs: Vec<Run>,
}

/// It is written out, so that each place where one is let go is a call of it, which is proved once.
impl Drop for Pending {
    fn drop(self) {
        let Pending {
            before: _,
            bytes: _,
            runs: _,
        } = self;
    }
}

impl Pending {
    /// No byte waits. It takes no memory.
    pub fn new(alloc: Global, before: Option<u8>) -> Pending
        ensures before { result.before ≡ before }
        ensures bytes { result.bytes ≡ [] }
        ensures runs { result.runs.items ≡ [] }
    {
        Pending {
            before,
            bytes: Bytes::new(alloc),
            runs: Vec::new(alloc),
        }
    }

    /// Adds bytes that came at one moment.
    pub fn add(&mut self, bytes: &[u8], moment: i64) -> Result<(), NoMemory>
        requires { IsPaired self.old }
        ensures paired { OnOk result (IsPaired self.new) }
        ensures added { OnOk result (dated_in self.new ≡ dated_in self.old ++ dated bytes.now moment) }
        ensures bytes { OnOk result (self.new.bytes ≡ self.old.bytes ++ bytes.now) }
        ensures before { self.new.before ≡ self.old.before }
    {
        add_moments(&mut self.runs, bytes.len(), moment)?;
        self.bytes.extend(bytes)
    }

    /// The first bytes wait no longer. Where there are none of these nothing is copied.
    pub fn drop_first(&mut self, n: usize) -> Result<(), NoMemory>
        requires paired { IsPaired self.old }
        requires within { n ≤ length self.old.bytes }
        ensures paired { OnOk result (IsPaired self.new) }
        ensures left { OnOk result (dated_in self.new ≡ drop n (dated_in self.old)) }
        ensures bytes { OnOk result (self.new.bytes ≡ drop n self.old.bytes) }
        ensures before { OnOk result (self.new.before ≡ last_byte self.old.before (take n self.old.bytes)) }
    {
        if n == 0 {
            return Ok(());
        }
        let bytes = self.bytes.as_slice();
        self.before = last_byte(self.before, &bytes[..n]);
        let mut rest = self.bytes.empty();
        rest.extend(&bytes[n..])?;
        self.bytes = rest;
        drop_moments(&mut self.runs, n);
        Ok(())
    }

    /// The bytes as the longest runs that have one moment.
    pub fn carried(&self, alloc: Global) -> Result<LineList, NoMemory>
        requires { IsPaired self.now }
        ensures { IfOk result (λ runs. runs ≡ runs_of (dated_in self.now)) }
    {
        runs_of(alloc, self.bytes.as_slice(), self.runs.as_slice())
    }

    /// The bytes of runs that were carried.
    pub fn resumed(alloc: Global, before: Option<u8>, runs: &[Line]) -> Result<Pending, NoMemory>
        ensures before { IfOk result (λ pending. pending.before ≡ before) }
        ensures paired { IfOk result (λ pending. IsPaired pending) }
        ensures dated { IfOk result (λ pending. dated_in pending ≡ dated_of runs.now) }
    {
        let mut pending = Pending::new(alloc, before);
        for run in runs {
            pending.add(run.bytes.as_slice(), run.moment)?;
        }
        Ok(pending)
    }

    /// A copy of it.
    pub fn copy(&self) -> Result<Pending, NoMemory>
        ensures before { IfOk result (λ copy. copy.before ≡ self.now.before) }
        ensures bytes { IfOk result (λ copy. copy.bytes ≡ self.now.bytes) }
        ensures runs { IfOk result (λ copy. copy.runs.items ≡ self.now.runs.items) }
    {
        Ok(Pending {
            before: self.before,
            bytes: self.bytes.copy()?,
            runs: self.runs.to_vec(*self.runs.allocator())?,
        })
    }
}
