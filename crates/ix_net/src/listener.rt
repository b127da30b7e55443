//! What accepts connections.

ghost use Rattle.std.specs.Prelude.{◌≡◌, ◌≤◌, ◌<◌, ◌+◌, ◌-◌, ℕ, List, Option, IfOk, OnErr, is_ok, if◌then◌else◌};
ghost use Rattle.ix_base.specs.Faults.{HasCause};
ghost use Rattle.ix_base.specs.Told.{Told};
ghost use Rattle.ix_net.specs.Listeners.{Handed, handed_back, Begins, TakesFirst, Adds};

use crate::link::Link;
use ix_base::Failed;

/// What accepts connections, one after the other, and takes each one back.
pub trait Listener {
    /// A connection.
    type Conn: Link;

    /// What each connection that waits holds, the first one first, where the listener knows them.
    ghost waiting: { Self → Option (List (Option (List ℕ))) };

    /// The connections that were handed back, the first one first, where the listener knows them.
    ghost handed: { Self → Option (List Handed) };

    /// How many connections are out: accepted, and not handed back yet.
    ghost out: { Self → ℕ };

    /// How often it has failed.
    ghost faults: { Self → ℕ };

    /// Takes this port of the machine itself, 127.0.0.1. With port 0 the system chooses one.
    fn bind(&mut self, port: u16) -> Result<(), Failed>
        ensures waiting { waiting self.new ≡ waiting self.old }
        ensures handed { handed self.new ≡ handed self.old }
        ensures out { out self.new ≡ out self.old }
        ensures cause { HasCause (faults self.old) (faults self.new) result };

    /// The next connection: the first one that waits.
    fn accept(&mut self) -> Result<Self::Conn, Failed>
        ensures taken { IfOk result (λ conn. Told (TakesFirst (Self.Conn.left conn)) (waiting self.old) (waiting self.new)) }
        ensures begins { IfOk result (λ conn. Begins (Self.Conn.standing conn) (Self.Conn.left conn) (Self.Conn.given conn)
            (Self.Conn.faults conn)) }
        ensures stays { OnErr result (waiting self.new ≡ waiting self.old) }
        ensures handed { handed self.new ≡ handed self.old }
        ensures out { out self.new ≡ (if is_ok result then out self.old + 1 else out self.old) }
        ensures cause { HasCause (faults self.old) (faults self.new) result };

    /// Takes a connection back that it had accepted. It ends there.
    fn done(&mut self, conn: Self::Conn)
        ensures handed { 0 < out self.old → Told (Adds (handed_back (Self.Conn.standing conn) (Self.Conn.given conn)
            (Self.Conn.faults conn))) (handed self.old) (handed self.new) }
        ensures waiting { waiting self.new ≡ waiting self.old }
        ensures out { out self.new ≡ out self.old - 1 }
        ensures faults { faults self.new ≡ faults self.old };
}
