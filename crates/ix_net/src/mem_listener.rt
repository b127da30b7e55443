//! A listener in memory.

ghost use Rattle.std.specs.Prelude.{◌≡◌, ◌≤◌, ◌<◌, ◌+◌, ◌-◌, ℕ, List, [], ◌∷◌, ◌++◌, Option, Some, None, map, IfOk, IfErr, OnOk, OnErr};
ghost use Rattle.std.specs.Prelude.{IsErr, IsTrue, is_ok, not, if◌then◌else◌, vec_len, vec_capacity};
ghost use Rattle.ix_base.specs.Plans.{is_due, CountsCall};
ghost use Rattle.ix_net.specs.Waiting.{IsFirstOf};
ghost use Rattle.ix_base.specs.Faults.{HasCause, Rose};
ghost use Rattle.ix_base.specs.Told.{Told};
ghost use Rattle.ix_net.specs.Listeners.{Handed, handed_back, Begins, TakesFirst, Adds};

use crate::link::Link;
use crate::listener::Listener;
use crate::mem_link::MemLink;
use ix_base::{FailPlan, Failed, Sequence};
use std::alloc::Global;

/// Links in memory, the first one first.
pub type MemLinkList = Sequence<MemLink>;

/// A listener whose connections wait in memory.
pub struct MemListener {
    waiting: Vec<MemLink>,
    handed: Vec<MemLink>,
    out: usize,
    /// The port that was bound last.
    pub port: Option<u16>,
    /// Which calls of `bind` and `accept` are to fail.
    pub plan: FailPlan,
    ghost room: { vec_len handed + out ≤ vec_capacity handed },
}

/// It is written out, so that each place where one is let go is a call of it, which is proved once.
impl Drop for MemListener {
    fn drop(self) {
        let MemListener {
            waiting: _,
            handed: _,
            out: _,
            port: _,
            plan: _,
        } = self;
    }
}

impl MemListener {
    /// A listener with these connections waiting, whose calls fail by the plan.
    pub fn new(alloc: Global, waiting: MemLinkList, plan: FailPlan) -> Self
        ensures waiting { ⟦<MemListener as Listener>⟧.waiting result ≡ Some (map (⟦<MemLink as Link>⟧.left) waiting) }
        ensures handed { ⟦<MemListener as Listener>⟧.handed result ≡ Some [] }
        ensures out { ⟦<MemListener as Listener>⟧.out result ≡ 0 }
        ensures faults { ⟦<MemListener as Listener>⟧.faults result ≡ plan.faults }
        ensures plan { result.plan ≡ plan }
        ensures links { result.waiting.items ≡ waiting }
        ensures port { result.port ≡ None }
    {
        MemListener {
            waiting: waiting.into_vec(),
            handed: Vec::new(alloc),
            out: 0,
            port: None,
            plan,
        }
    }

    /// The connections that were handed back, the first one first.
    pub fn handed(&self) -> &[MemLink]
        ensures { ⟦<MemListener as Listener>⟧.handed self.now ≡ Some
            (map (λ c. handed_back (⟦<MemLink as Link>⟧.standing c) (⟦<MemLink as Link>⟧.given c) (⟦<MemLink as Link>⟧.faults c))
            result.now) }
    {
        self.handed.as_slice()
    }

    /// Counts a fault.
    fn fail(&mut self) -> Failed
        ensures rose { Rose self.old.plan.faults self.new.plan.faults }
        ensures later { self.old.plan.faults ≤ self.new.plan.faults }
        ensures waiting { self.new.waiting ≡ self.old.waiting }
        ensures handed { self.new.handed ≡ self.old.handed }
        ensures out { self.new.out ≡ self.old.out }
        ensures port { self.new.port ≡ self.old.port }
        ensures calls { self.new.plan.calls ≡ self.old.plan.calls }
        ensures failing { self.new.plan.failing ≡ self.old.plan.failing }
    {
        self.plan.fail()
    }
}

impl Listener for MemListener {
    type Conn = MemLink;

    ghost waiting = { λ l. Some (map (⟦<MemLink as Link>⟧.left) l.waiting.items) };

    ghost handed = { λ l. Some (map (λ c. handed_back (⟦<MemLink as Link>⟧.standing c) (⟦<MemLink as Link>⟧.given c)
        (⟦<MemLink as Link>⟧.faults c)) l.handed.items) };

    ghost out = { λ l. l.out };

    ghost faults = { λ l. l.plan.faults };

    /// It fails exactly where the plan has this call due.
    fn bind(&mut self, port: u16) -> Result<(), Failed>
        ensures waiting { ⟦<MemListener as Listener>⟧.waiting self.new ≡ ⟦<MemListener as Listener>⟧.waiting self.old }
        ensures handed { ⟦<MemListener as Listener>⟧.handed self.new ≡ ⟦<MemListener as Listener>⟧.handed self.old }
        ensures out { ⟦<MemListener as Listener>⟧.out self.new ≡ ⟦<MemListener as Listener>⟧.out self.old }
        ensures cause { HasCause (⟦<MemListener as Listener>⟧.faults self.old) (⟦<MemListener as Listener>⟧.faults self.new) result }
        ensures due { is_ok result ≡ not (is_due self.old.plan) }
        ensures counted { CountsCall self.old.plan self.new.plan }
        ensures bound { OnOk result (self.new.port ≡ Some port) }
        ensures unbound { OnErr result (self.new.port ≡ self.old.port) }
    {
        if self.plan.is_due() {
            return Err(self.fail());
        }
        self.port = Some(port);
        Ok(())
    }

    /// It fails where the plan has this call due, where no connection waits, and where there is no
    /// room to take it back.
    fn accept(&mut self) -> Result<MemLink, Failed>
        ensures taken { IfOk result (λ conn. Told (TakesFirst (⟦<MemLink as Link>⟧.left conn))
            (⟦<MemListener as Listener>⟧.waiting self.old) (⟦<MemListener as Listener>⟧.waiting self.new)) }
        ensures begins { IfOk result (λ conn. Begins (⟦<MemLink as Link>⟧.standing conn) (⟦<MemLink as Link>⟧.left conn)
            (⟦<MemLink as Link>⟧.given conn) (⟦<MemLink as Link>⟧.faults conn)) }
        ensures stays { OnErr result (⟦<MemListener as Listener>⟧.waiting self.new ≡ ⟦<MemListener as Listener>⟧.waiting self.old) }
        ensures handed { ⟦<MemListener as Listener>⟧.handed self.new ≡ ⟦<MemListener as Listener>⟧.handed self.old }
        ensures out { ⟦<MemListener as Listener>⟧.out self.new ≡ (if is_ok result then ⟦<MemListener as Listener>⟧.out self.old + 1 else
            ⟦<MemListener as Listener>⟧.out self.old) }
        ensures cause { HasCause (⟦<MemListener as Listener>⟧.faults self.old) (⟦<MemListener as Listener>⟧.faults self.new) result }
        ensures due { IsTrue (is_due self.old.plan) → IsErr result }
        ensures counted { CountsCall self.old.plan self.new.plan }
        ensures first { IfOk result (λ conn. IsFirstOf conn self.old.waiting.items self.new.waiting.items) }
        ensures port { self.new.port ≡ self.old.port }
    {
        if self.plan.is_due() || self.waiting.is_empty() || self.out == usize::MAX {
            return Err(self.fail());
        }
        if self.handed.reserve(self.out + 1).is_err() {
            return Err(self.fail());
        }
        let mut conn = self.waiting.remove(0);
        conn.begin();
        self.out += 1;
        Ok(conn)
    }

    /// It is kept behind those that were handed back before.
    fn done(&mut self, conn: MemLink)
        ensures handed { 0 < ⟦<MemListener as Listener>⟧.out self.old →
            Told (Adds (handed_back (⟦<MemLink as Link>⟧.standing conn) (⟦<MemLink as Link>⟧.given conn) (⟦<MemLink as Link>⟧.faults conn)))
            (⟦<MemListener as Listener>⟧.handed self.old) (⟦<MemListener as Listener>⟧.handed self.new) }
        ensures waiting { ⟦<MemListener as Listener>⟧.waiting self.new ≡ ⟦<MemListener as Listener>⟧.waiting self.old }
        ensures out { ⟦<MemListener as Listener>⟧.out self.new ≡ ⟦<MemListener as Listener>⟧.out self.old - 1 }
        ensures faults { ⟦<MemListener as Listener>⟧.faults self.new ≡ ⟦<MemListener as Listener>⟧.faults self.old }
        ensures kept { 0 < ⟦<MemListener as Listener>⟧.out self.old → self.new.handed.items ≡ self.old.handed.items ++ conn ∷ [] }
        ensures plan { self.new.plan ≡ self.old.plan }
        ensures port { self.new.port ≡ self.old.port }
    {
        if self.out > 0 {
            self.out -= 1;
            let _ = self.handed.push(conn);
        }
    }
}
