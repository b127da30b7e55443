//! What a peer is: bytes come from it, and bytes go to it. Requests are read from links and replies
//! written to them.

ghost use Rattle.std.specs.Prelude.{◌≡◌, ◌≤◌, ◌<◌, ℕ, List, [], Option, take, length, IfOk, IfSome, OnOk, OnErr};
ghost use Rattle.ix_base.specs.Faults.{HasCause, Rose};
ghost use Rattle.ix_base.specs.Told.{Told, Took, HasWritten, HasBegun};
ghost use Rattle.ix_net.specs.Links.{Standing, LinkStep};

use ix_base::Failed;

/// A side of a link.
#[derive(Clone, Copy, Debug, PartialEq, Eq)]
pub enum Side {
    /// The side that is read from.
    Reading,
    /// The side that is written to.
    Writing,
}

/// Both directions of one connection.
pub trait Link {
    /// The bytes that are left to be read, where the link knows them.
    ghost left: { Self → Option (List ℕ) };

    /// The bytes written so far, where the link knows them.
    ghost given: { Self → Option (List ℕ) };

    /// How often it has failed.
    ghost faults: { Self → ℕ };

    /// What it was when it began, and what is known of its two sides.
    ghost standing: { Self → Standing };

    /// Reads bytes into the front of the buffer, and answers how many; 0 for a buffer that is not
    /// empty is the end. A read that fails takes none.
    fn read(&mut self, buf: &mut [u8]) -> Result<usize, Failed>
        ensures count { IfOk result (λ n. n ≤ length buf.old) }
        ensures bytes { IfOk result (λ n. Told (Took (take n buf.new)) (left self.old) (left self.new)) }
        ensures end { IfOk result (λ n. n ≡ 0 → 0 < length buf.old → IfSome (left self.old) (λ bytes. bytes ≡ [])) }
        ensures failed { OnErr result (left self.new ≡ left self.old) }
        ensures given { given self.new ≡ given self.old }
        ensures goes { LinkStep (standing self.old) (standing self.new) }
        ensures cause { HasCause (faults self.old) (faults self.new) result };

    /// Writes the whole piece; where it fails, a front of it, and the count of this side rises.
    fn put(&mut self, bytes: &[u8]) -> Result<(), Failed>
        ensures written { OnOk result (HasWritten bytes.now (given self.old) (given self.new)) }
        ensures begun { OnErr result (HasBegun bytes.now (given self.old) (given self.new)) }
        ensures left { left self.new ≡ left self.old }
        ensures goes { LinkStep (standing self.old) (standing self.new) }
        ensures side { OnErr result (Rose (standing self.old).writing (standing self.new).writing) }
        ensures cause { HasCause (faults self.old) (faults self.new) result };
}
