//! A link in memory.

ghost use Rattle.std.specs.Prelude.{◌≡◌, ◌≤◌, ◌<◌, ◌-◌, ◌^◌, ℕ, min, max, List, [], Option, Some, None, length, take, drop, IfOk, IfSome};
ghost use Rattle.std.specs.Prelude.{OnOk, OnErr, IsTrue, IsErr, is_ok, not};
ghost use Rattle.std.specs.Bool.{OnFalse};
ghost use Rattle.ix_base.specs.Plans.{is_due, CountsCall};
ghost use Rattle.ix_base.specs.Faults.{HasCause, Rose};
ghost use Rattle.ix_base.specs.Told.{Told, Took, Began, HasWritten, HasBegun};
ghost use Rattle.ix_net.specs.Links.{Standing, LinkStep};
ghost use Rattle.ix_net.specs.Listeners.{Begins};

use crate::link::Link;
use ix_base::{Bytes, FailPlan, Failed};
use std::alloc::Global;

/// A link that holds the bytes of its peer in memory, and keeps there what is written to it. It
/// fails where it finds no room for that.
pub struct MemLink {
    bytes: Bytes,
    at: usize,
    most: usize,
    given: Bytes,
    /// Where it stood when it began.
    from: usize,
    /// Its count of faults then.
    start: u64,
    /// Which calls are to fail, reads and writes counted together.
    pub plan: FailPlan,
    ghost within: { at ≤ length bytes },
    ghost moves: { 0 < most },
}

/// It is written out, so that each place where one is let go is a call of it, which is proved once.
impl Drop for MemLink {
    fn drop(self) {
        let MemLink {
            bytes: _,
            at: _,
            most: _,
            given: _,
            from: _,
            start: _,
            plan: _,
        } = self;
    }
}

impl MemLink {
    /// A link that holds these bytes and on which nothing is written, whose calls fail by the plan.
    /// A write that is to fail writes the first half of its piece.
    pub fn new(alloc: Global, bytes: Bytes, plan: FailPlan) -> Self
        ensures left { ⟦<MemLink as Link>⟧.left result ≡ Some bytes }
        ensures given { ⟦<MemLink as Link>⟧.given result ≡ Some [] }
        ensures faults { ⟦<MemLink as Link>⟧.faults result ≡ plan.faults }
        ensures begins { Begins (⟦<MemLink as Link>⟧.standing result) (Some bytes) (Some []) plan.faults }
        ensures plan { result.plan ≡ plan }
        ensures whole { result.most ≡ 2 ^ 64 - 1 }
    {
        MemLink::in_pieces(alloc, bytes, usize::MAX, plan)
    }

    /// The same, of which each read takes so many bytes at the most, and one at least.
    pub fn in_pieces(alloc: Global, bytes: Bytes, most: usize, plan: FailPlan) -> Self
        ensures left { ⟦<MemLink as Link>⟧.left result ≡ Some bytes }
        ensures given { ⟦<MemLink as Link>⟧.given result ≡ Some [] }
        ensures faults { ⟦<MemLink as Link>⟧.faults result ≡ plan.faults }
        ensures begins { Begins (⟦<MemLink as Link>⟧.standing result) (Some bytes) (Some []) plan.faults }
        ensures plan { result.plan ≡ plan }
        ensures pieces { result.most ≡ max most 1 }
    {
        MemLink {
            bytes,
            at: 0,
            most: most.max(1),
            given: Bytes::new(alloc),
            from: 0,
            start: plan.faults,
            plan,
        }
    }

    /// The bytes written so far, lent.
    pub fn given(&self) -> &[u8]
        ensures { ⟦<MemLink as Link>⟧.given self.now ≡ Some result.now }
    {
        self.given.as_slice()
    }

    /// The bytes that are left to be read, lent.
    pub fn left(&self) -> &[u8]
        ensures { ⟦<MemLink as Link>⟧.left self.now ≡ Some result.now }
    {
        &self.bytes.as_slice()[self.at..]
    }

    /// Begins here: what was written so far is forgotten.
    pub fn begin(&mut self)
        ensures left { ⟦<MemLink as Link>⟧.left self.new ≡ ⟦<MemLink as Link>⟧.left self.old }
        ensures given { ⟦<MemLink as Link>⟧.given self.new ≡ Some [] }
        ensures faults { ⟦<MemLink as Link>⟧.faults self.new ≡ ⟦<MemLink as Link>⟧.faults self.old }
        ensures begins { Begins (⟦<MemLink as Link>⟧.standing self.new) (⟦<MemLink as Link>⟧.left self.new) (Some [])
            (⟦<MemLink as Link>⟧.faults self.new) }
        ensures plan { self.new.plan ≡ self.old.plan }
        ensures bytes { self.new.bytes ≡ self.old.bytes }
        ensures at { self.new.at ≡ self.old.at }
        ensures pieces { self.new.most ≡ self.old.most }
    {
        self.from = self.at;
        self.start = self.plan.faults;
        self.given.clear();
    }
}

/// Copies the first bytes, as many as there is room for and `most` at the most.
fn copy_front(bytes: &[u8], most: usize, buf: &mut [u8]) -> usize
    requires { 0 < most }
    ensures room { result ≤ length buf.old }
    ensures within { result ≤ length bytes.now }
    ensures most { result ≡ min (min (length bytes.now) (length buf.old)) most }
    ensures copied { take result buf.new ≡ take result bytes.now }
    ensures none { result ≡ 0 → 0 < length buf.old → bytes.now ≡ [] }
{
    let n = bytes.len().min(buf.len()).min(most);
    buf[..n].copy_from_slice(&bytes[..n]);
    n
}

/// Adds the first half of a piece where there is room for it, and nothing else.
fn begin(bytes: &mut Bytes, piece: &[u8])
    ensures { Began piece.now bytes.old bytes.new }
{
    let half = piece.len() / 2;
    let _ = bytes.extend(&piece[..half]);
}

impl Link for MemLink {
    ghost use Rattle.std.specs.Prelude.{[]};

    ghost left = { λ s. Some (drop s.at s.bytes) };

    ghost given = { λ s. Some s.given };

    ghost faults = { λ s. s.plan.faults };

    ghost standing = { λ s. record {
      held = Some (drop s.from s.bytes);
      start = s.start;
      lent = [];
      reading = s.plan.faults;
      writing = s.plan.faults;
      failed = None;
    } };

    /// It fails exactly where the plan has this call due. Else it takes as much as there is, but
    /// for the size of the buffer and of a piece.
    fn read(&mut self, buf: &mut [u8]) -> Result<usize, Failed>
        ensures count { IfOk result (λ n. n ≤ length buf.old) }
        ensures bytes { IfOk result (λ n. Told (Took (take n buf.new)) (⟦<MemLink as Link>⟧.left self.old)
            (⟦<MemLink as Link>⟧.left self.new)) }
        ensures end { IfOk result (λ n. n ≡ 0 → 0 < length buf.old → IfSome (⟦<MemLink as Link>⟧.left self.old) (λ bytes. bytes ≡ [])) }
        ensures failed { OnErr result (⟦<MemLink as Link>⟧.left self.new ≡ ⟦<MemLink as Link>⟧.left self.old) }
        ensures given { ⟦<MemLink as Link>⟧.given self.new ≡ ⟦<MemLink as Link>⟧.given self.old }
        ensures goes { LinkStep (⟦<MemLink as Link>⟧.standing self.old) (⟦<MemLink as Link>⟧.standing self.new) }
        ensures cause { HasCause (⟦<MemLink as Link>⟧.faults self.old) (⟦<MemLink as Link>⟧.faults self.new) result }
        ensures due { is_ok result ≡ not (is_due self.old.plan) }
        ensures counted { CountsCall self.old.plan self.new.plan }
        ensures faults { OnOk result (self.new.plan.faults ≡ self.old.plan.faults) }
        ensures taken { IfOk result (λ n. n ≡ min (min (length self.old.bytes - self.old.at) (length buf.old)) self.old.most) }
        ensures pieces { self.new.most ≡ self.old.most }
    {
        if self.plan.is_due() {
            return Err(self.plan.fail());
        }
        let n = copy_front(&self.bytes.as_slice()[self.at..], self.most, buf);
        self.at += n;
        Ok(n)
    }

    /// It fails where the plan has this call due. Another call fails only where there is no room,
    /// and writes nothing then.
    fn put(&mut self, bytes: &[u8]) -> Result<(), Failed>
        ensures written { OnOk result (HasWritten bytes.now (⟦<MemLink as Link>⟧.given self.old) (⟦<MemLink as Link>⟧.given self.new)) }
        ensures begun { OnErr result (HasBegun bytes.now (⟦<MemLink as Link>⟧.given self.old) (⟦<MemLink as Link>⟧.given self.new)) }
        ensures left { ⟦<MemLink as Link>⟧.left self.new ≡ ⟦<MemLink as Link>⟧.left self.old }
        ensures goes { LinkStep (⟦<MemLink as Link>⟧.standing self.old) (⟦<MemLink as Link>⟧.standing self.new) }
        ensures side { OnErr result (Rose (⟦<MemLink as Link>⟧.standing self.old).writing (⟦<MemLink as Link>⟧.standing self.new).writing) }
        ensures cause { HasCause (⟦<MemLink as Link>⟧.faults self.old) (⟦<MemLink as Link>⟧.faults self.new) result }
        ensures due { IsTrue (is_due self.old.plan) → IsErr result }
        ensures full { OnErr result (OnFalse (is_due self.old.plan)
            (⟦<MemLink as Link>⟧.given self.new ≡ ⟦<MemLink as Link>⟧.given self.old)) }
        ensures counted { CountsCall self.old.plan self.new.plan }
        ensures faults { OnOk result (self.new.plan.faults ≡ self.old.plan.faults) }
        ensures pieces { self.new.most ≡ self.old.most }
    {
        if self.plan.is_due() {
            begin(&mut self.given, bytes);
            return Err(self.plan.fail());
        }
        if self.given.extend(bytes).is_err() {
            return Err(self.plan.fail());
        }
        Ok(())
    }
}
