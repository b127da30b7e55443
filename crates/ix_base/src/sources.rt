//! What bytes are read from.

ghost use Rattle.std.specs.Prelude.{◌≡◌, ◌≤◌, ◌<◌, ◌-◌, ◌^◌, ℕ, min, max, List, [], Option, Some, None, length, take, drop, IfOk, IfSome};
ghost use Rattle.std.specs.Prelude.{OnOk, OnErr, is_ok, not};
ghost use Rattle.ix_base.specs.Plans.{is_due, CountsCall};
ghost use Rattle.ix_base.specs.Faults.{HasCause, Rose};
ghost use Rattle.ix_base.specs.Told.{Told, Took};

use crate::faults::{FailPlan, Failed};
use crate::sequences::Bytes;
use std::io::{ErrorKind, Read};

/// Bytes that are read from the front.
pub trait Source {
    /// The bytes that are left, where the source knows them.
    ghost left: { Self → Option (List ℕ) };

    /// How often it has failed.
    ghost faults: { Self → ℕ };

    /// Reads bytes into the front of the buffer, and answers how many; 0 for a buffer that is not
    /// empty is the end. A read that fails takes none.
    fn read(&mut self, buf: &mut [u8]) -> Result<usize, Failed>
        ensures count { IfOk result (λ n. n ≤ length buf.old) }
        ensures bytes { IfOk result (λ n. Told (Took (take n buf.new)) (left self.old) (left self.new)) }
        ensures end { IfOk result (λ n. n ≡ 0 → 0 < length buf.old → IfSome (left self.old) (λ bytes. bytes ≡ [])) }
        ensures failed { OnErr result (left self.new ≡ left self.old) }
        ensures cause { HasCause (faults self.old) (faults self.new) result };
}

/// A source over bytes in memory.
pub struct MemSource {
    bytes: Bytes,
    at: usize,
    most: usize,
    /// Which reads are to fail.
    pub plan: FailPlan,
    ghost within: { at ≤ length bytes },
    ghost moves: { 0 < most },
}

/// It is written out, so that each place where one is let go is a call of it, which is proved once.
impl Drop for MemSource {
    fn drop(self) {
        let MemSource {
            bytes: _,
            at: _,
            most: _,
            plan: _,
        } = self;
    }
}

impl MemSource {
    /// The bytes, as the plan lets them be read.
    pub fn new(bytes: Bytes, plan: FailPlan) -> Self
        ensures left { ⟦<MemSource as Source>⟧.left result ≡ Some bytes }
        ensures faults { ⟦<MemSource as Source>⟧.faults result ≡ plan.faults }
        ensures plan { result.plan ≡ plan }
        ensures whole { result.most ≡ 2 ^ 64 - 1 }
    {
        MemSource::in_pieces(bytes, usize::MAX, plan)
    }

    /// The same, of which each read takes so many bytes at the most, and one at least.
    pub fn in_pieces(bytes: Bytes, most: usize, plan: FailPlan) -> Self
        ensures left { ⟦<MemSource as Source>⟧.left result ≡ Some bytes }
        ensures faults { ⟦<MemSource as Source>⟧.faults result ≡ plan.faults }
        ensures plan { result.plan ≡ plan }
        ensures pieces { result.most ≡ max most 1 }
    {
        MemSource {
            bytes,
            at: 0,
            most: most.max(1),
            plan,
        }
    }
}

/// Copies the first bytes, as many as there is room for and `most` at the most.
fn copy_front(bytes: &[u8], most: usize, buf: &mut [u8]) -> usize
    requires { 0 < most }
    ensures room { result ≤ length buf.old }
    ensures within { result ≤ length bytes.now }
    ensures most { result ≡ min (min (length bytes.now) (length buf.old)) most }
    ensures copied { take result buf.new ≡ take result bytes.now }
    ensures none { result ≡ 0 → 0 < length buf.old → bytes.now ≡ [] }
{
    let n = bytes.len().min(buf.len()).min(most);
    buf[..n].copy_from_slice(&bytes[..n]);
    n
}

impl Source for MemSource {
    ghost left = { λ s. Some (drop s.at s.bytes) };

    ghost faults = { λ s. s.plan.faults };

    /// It fails exactly where the plan has this call due. Else it takes as much as there is, but
    /// for the size of the buffer and of a piece.
    fn read(&mut self, buf: &mut [u8]) -> Result<usize, Failed>
        ensures count { IfOk result (λ n. n ≤ length buf.old) }
        ensures bytes { IfOk result (λ n. Told (Took (take n buf.new)) (Some (drop self.old.at self.old.bytes))
            (Some (drop self.new.at self.new.bytes))) }
        ensures end { IfOk result (λ n. n ≡ 0 → 0 < length buf.old →
            IfSome (Some (drop self.old.at self.old.bytes)) (λ bytes. bytes ≡ [])) }
        ensures failed { OnErr result (Some (drop self.new.at self.new.bytes) ≡ Some (drop self.old.at self.old.bytes)) }
        ensures cause { HasCause self.old.plan.faults self.new.plan.faults result }
        ensures due { is_ok result ≡ not (is_due self.old.plan) }
        ensures counted { CountsCall self.old.plan self.new.plan }
        ensures faults { OnOk result (self.new.plan.faults ≡ self.old.plan.faults) }
        ensures taken { IfOk result (λ n. n ≡ min (min (length self.old.bytes - self.old.at) (length buf.old)) self.old.most) }
        ensures pieces { self.new.most ≡ self.old.most }
    {
        if self.plan.is_due() {
            return Err(self.plan.fail());
        }
        let n = copy_front(&self.bytes.as_slice()[self.at..], self.most, buf);
        self.at += n;
        Ok(n)
    }
}

/// A source over a reader of the system. It tells nothing of the bytes that are left.
#[derive(Drop)]
pub struct StdSource<R: Read + Drop> {
    inner: R,
    faults: u64,
}

impl<R: Read + Drop> StdSource<R> {
    /// The source of what the reader reads.
    pub fn new(inner: R) -> Self
        ensures { ⟦<StdSource<R> as Source>⟧.faults result ≡ 0 }
    {
        StdSource { inner, faults: 0 }
    }
}

impl<R: Read + Drop> Source for StdSource<R> {
    ghost left = { λ s. None };

    ghost faults = { λ s. s.faults };

    fn read(&mut self, buf: &mut [u8]) -> Result<usize, Failed> {
        for _ in 0..u64::MAX {
            match self.inner.read(buf) {
                Ok(count) => return Ok(count),
                Err(fault) if fault.kind() == ErrorKind::Interrupted => {}
                Err(_) => break,
            }
        }
        self.faults = self.faults.saturating_add(1);
        Err(Failed)
    }
}
