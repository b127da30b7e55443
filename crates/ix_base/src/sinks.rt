//! What bytes are written to.

ghost use Rattle.std.specs.Prelude.{◌≡◌, ◌≤◌, ◌<◌, ℕ, List, [], ◌++◌, Option, Some, None, length, take, drop, OnOk, OnErr, IsTrue, IsErr};
ghost use Rattle.std.specs.Bool.{OnFalse};
ghost use Rattle.ix_base.specs.Plans.{is_due, CountsCall};
ghost use Rattle.ix_base.specs.Faults.{HasCause, Rose};
ghost use Rattle.ix_base.specs.Told.{Began, HasWritten, HasBegun};

use crate::faults::{FailPlan, Failed};
use crate::sequences::Bytes;
use std::alloc::Global;
use std::io::{ErrorKind, Write};

/// What bytes are written to, one piece behind the other.
pub trait Sink {
    /// The bytes written so far, where the sink knows them.
    ghost given: { Self → Option (List ℕ) };

    /// How often it has failed.
    ghost faults: { Self → ℕ };

    /// Writes the whole piece; where it fails, a front of it.
    fn put(&mut self, bytes: &[u8]) -> Result<(), Failed>
        ensures written { OnOk result (HasWritten bytes.now (given self.old) (given self.new)) }
        ensures begun { OnErr result (HasBegun bytes.now (given self.old) (given self.new)) }
        ensures cause { HasCause (faults self.old) (faults self.new) result };
}

/// A sink that keeps its bytes in memory. It fails where there is no room for them.
#[derive(Drop)]
pub struct MemSink {
    bytes: Bytes,
    /// Which calls of `put` are to fail.
    pub plan: FailPlan,
}

impl MemSink {
    /// An empty sink, whose calls fail by the plan. One that is to fail writes the first half of
    /// its piece.
    pub fn new(alloc: Global, plan: FailPlan) -> Self
        ensures given { ⟦<MemSink as Sink>⟧.given result ≡ Some [] }
        ensures faults { ⟦<MemSink as Sink>⟧.faults result ≡ plan.faults }
        ensures plan { result.plan ≡ plan }
    {
        MemSink {
            bytes: Bytes::new(alloc),
            plan,
        }
    }

    /// The bytes written so far, lent.
    pub fn bytes(&self) -> &[u8]
        ensures { ⟦<MemSink as Sink>⟧.given self.now ≡ Some result.now }
    {
        self.bytes.as_slice()
    }

    /// The bytes written so far. It takes no memory.
    pub fn into_bytes(self) -> Bytes
        ensures { ⟦<MemSink as Sink>⟧.given self ≡ Some result }
    {
        self.bytes
    }

    /// Forgets the bytes written so far.
    pub fn clear(&mut self)
        ensures given { ⟦<MemSink as Sink>⟧.given self.new ≡ Some [] }
        ensures plan { self.new.plan ≡ self.old.plan }
    {
        self.bytes.clear();
    }
}

/// Adds the first half of a piece where there is room for it, and nothing else.
fn begin(bytes: &mut Bytes, piece: &[u8])
    ensures { Began piece.now bytes.old bytes.new }
{
    let half = piece.len() / 2;
    let _ = bytes.extend(&piece[..half]);
}

impl Sink for MemSink {
    ghost given = { λ s. Some s.bytes };

    ghost faults = { λ s. s.plan.faults };

    /// It fails where the plan has this call due. Another call fails only where there is no room,
    /// and writes nothing then.
    fn put(&mut self, bytes: &[u8]) -> Result<(), Failed>
        ensures written { OnOk result (HasWritten bytes.now (Some self.old.bytes) (Some self.new.bytes)) }
        ensures begun { OnErr result (HasBegun bytes.now (Some self.old.bytes) (Some self.new.bytes)) }
        ensures cause { HasCause self.old.plan.faults self.new.plan.faults result }
        ensures due { IsTrue (is_due self.old.plan) → IsErr result }
        ensures full { OnErr result (OnFalse (is_due self.old.plan) (self.new.bytes ≡ self.old.bytes)) }
        ensures counted { CountsCall self.old.plan self.new.plan }
        ensures faults { OnOk result (self.new.plan.faults ≡ self.old.plan.faults) }
    {
        if self.plan.is_due() {
            begin(&mut self.bytes, bytes);
            return Err(self.plan.fail());
        }
        if self.bytes.extend(bytes).is_err() {
            return Err(self.plan.fail());
        }
        Ok(())
    }
}

/// A sink over a writer of the system. It tells nothing of the bytes written.
#[derive(Drop)]
pub struct StdSink<W: Write + Drop> {
    inner: W,
    faults: u64,
}

impl<W: Write + Drop> StdSink<W> {
    /// The sink that writes by the writer, which is to keep nothing back.
    pub fn new(inner: W) -> Self
        ensures { ⟦<StdSink<W> as Sink>⟧.faults result ≡ 0 }
    {
        StdSink { inner, faults: 0 }
    }

    fn fail(&mut self) -> Failed
        ensures rose { Rose self.old.faults self.new.faults }
        ensures later { self.old.faults ≤ self.new.faults }
    {
        self.faults = self.faults.saturating_add(1);
        Failed
    }
}

impl<W: Write + Drop> Sink for StdSink<W> {
    ghost given = { λ s. None };

    ghost faults = { λ s. s.faults };

    fn put(&mut self, bytes: &[u8]) -> Result<(), Failed> {
        let mut rest = bytes;
        for _ in 0..u64::MAX {
            if rest.is_empty() {
                return Ok(());
            }
            match self.inner.write(rest) {
                Ok(0) => break,
                Ok(count) => rest = &rest[count..],
                Err(fault) if fault.kind() == ErrorKind::Interrupted => {}
                Err(_) => break,
            }
        }
        Err(self.fail())
    }
}
