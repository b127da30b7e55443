//! An input and an output as one link.

ghost use Rattle.std.specs.Prelude.{◌≡◌, ◌≤◌, ◌<◌, ◌+◌, ℕ, List, [], ◌∷◌, Option, None, Some, take, length, IfOk, IfSome, OnOk, OnErr};
ghost use Rattle.std.specs.Prelude.{is_ok, if◌then◌else◌};
ghost use Rattle.ix_base.specs.Faults.{HasCause, Rose};
ghost use Rattle.ix_base.specs.Told.{Told, Took, HasWritten, HasBegun};
ghost use Rattle.ix_net.specs.Links.{Standing, LinkStep};

use crate::link::{Link, Side};
use ix_base::{Failed, Sink, Source};

/// A link whose bytes come from a source and go to a sink, both of them lent. Its count of faults
/// is the sum of theirs.
#[derive(Drop)]
pub struct Pair<'a, S: Source, W: Sink> {
    source: &'a mut S,
    sink: &'a mut W,
    /// The side of the last call that failed; `None` while none has.
    pub failed: Option<Side>,
}

impl<'a, S: Source, W: Sink> Pair<'a, S, W> {
    /// The link that reads from the source and writes to the sink.
    pub fn new(source: &'a mut S, sink: &'a mut W) -> Self
        ensures source { result.source.ghost_name ≡ source.entry.ghost_name }
        ensures sink { result.sink.ghost_name ≡ sink.entry.ghost_name }
        ensures read { result.source.now ≡ source.old }
        ensures written { result.sink.now ≡ sink.old }
        ensures failed { result.failed ≡ None }
    {
        Pair {
            source,
            sink,
            failed: None,
        }
    }
}

impl<'a, S: Source, W: Sink> Link for Pair<'a, S, W> {
    ghost left = { λ p. S.left p.source.now };

    ghost given = { λ p. W.given p.sink.now };

    ghost faults = { λ p. S.faults p.source.now + W.faults p.sink.now };

    ghost standing = { λ p. record {
      held = None;
      start = 0;
      lent = p.source.ghost_name ∷ p.sink.ghost_name ∷ [];
      reading = S.faults p.source.now;
      writing = W.faults p.sink.now;
      failed = p.failed;
    } };

    /// A failure names the side that is read from.
    fn read(&mut self, buf: &mut [u8]) -> Result<usize, Failed>
        ensures count { IfOk result (λ n. n ≤ length buf.old) }
        ensures bytes { IfOk result (λ n. Told (Took (take n buf.new)) (S.left self.old.source.now) (S.left self.new.source.now)) }
        ensures end { IfOk result (λ n. n ≡ 0 → 0 < length buf.old → IfSome (S.left self.old.source.now) (λ bytes. bytes ≡ [])) }
        ensures failed { OnErr result (S.left self.new.source.now ≡ S.left self.old.source.now) }
        ensures given { W.given self.new.sink.now ≡ W.given self.old.sink.now }
        ensures goes { LinkStep (⟦<Pair<'a, S, W> as Link>⟧.standing self.old) (⟦<Pair<'a, S, W> as Link>⟧.standing self.new) }
        ensures cause { HasCause (S.faults self.old.source.now + W.faults self.old.sink.now)
            (S.faults self.new.source.now + W.faults self.new.sink.now) result }
        ensures named { OnErr result (self.new.failed ≡ Some Side.Reading) }
        ensures unnamed { OnOk result (self.new.failed ≡ self.old.failed) }
    {
        match self.source.read(buf) {
            Ok(count) => Ok(count),
            Err(fault) => {
                self.failed = Some(Side::Reading);
                Err(fault)
            }
        }
    }

    /// A failure names the side that is written to.
    fn put(&mut self, bytes: &[u8]) -> Result<(), Failed>
        ensures written { OnOk result (HasWritten bytes.now (W.given self.old.sink.now) (W.given self.new.sink.now)) }
        ensures begun { OnErr result (HasBegun bytes.now (W.given self.old.sink.now) (W.given self.new.sink.now)) }
        ensures left { S.left self.new.source.now ≡ S.left self.old.source.now }
        ensures goes { LinkStep (⟦<Pair<'a, S, W> as Link>⟧.standing self.old) (⟦<Pair<'a, S, W> as Link>⟧.standing self.new) }
        ensures side { OnErr result (Rose (W.faults self.old.sink.now) (W.faults self.new.sink.now)) }
        ensures cause { HasCause (S.faults self.old.source.now + W.faults self.old.sink.now)
            (S.faults self.new.source.now + W.faults self.new.sink.now) result }
        ensures named { OnErr result (self.new.failed ≡ Some Side.Writing) }
        ensures unnamed { OnOk result (self.new.failed ≡ self.old.failed) }
    {
        match self.sink.put(bytes) {
            Ok(()) => Ok(()),
            Err(fault) => {
                self.failed = Some(Side::Writing);
                Err(fault)
            }
        }
    }
}
