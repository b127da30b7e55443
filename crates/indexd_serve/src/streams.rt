//! The input and the output of a run as the link that requests come over. `run` makes one.

ghost use Rattle.std.specs.Prelude.{◌≡◌, [], ◌∷◌, None};
ghost use Rattle.indexd_serve.specs.Sides.{failures};

use ix_base::{Failed, Sink, Source};
use ix_net::{Link, Side};

/// A link whose bytes come from a source and go to a sink, both of them lent. It has failed from
/// the moment on at which one of them has, and knows which.
#[derive(Drop)]
pub struct Streams<'a, S: Source, W: Sink> {
    source: &'a mut S,
    sink: &'a mut W,
    /// The side of the last call that failed; `None` while none has.
    pub failed: Option<Side>,
}

impl<'a, S: Source, W: Sink> Streams<'a, S, W> {
    /// The link that reads from the source and writes to the sink.
    pub fn new(source: &'a mut S, sink: &'a mut W) -> Self
        ensures source { result.source.ghost_name ≡ source.entry.ghost_name }
        ensures sink { result.sink.ghost_name ≡ sink.entry.ghost_name }
        ensures read { result.source.now ≡ source.old }
        ensures written { result.sink.now ≡ sink.old }
        ensures failed { result.failed ≡ None }
    {
        Streams {
            source,
            sink,
            failed: None,
        }
    }
}

impl<S: Source, W: Sink> Link for Streams<'_, S, W> {
    ghost left = { λ s. S.left s.source.now };

    ghost given = { λ s. W.given s.sink.now };

    ghost faults = { λ s. failures s.failed };

    ghost standing = { λ s. record {
      held = None;
      start = 0;
      lent = s.source.ghost_name ∷ s.sink.ghost_name ∷ [];
      reading = S.faults s.source.now;
      writing = W.faults s.sink.now;
      failed = s.failed;
    } };

    fn read(&mut self, buf: &mut [u8]) -> Result<usize, Failed> {
        match self.source.read(buf) {
            Ok(count) => Ok(count),
            Err(fault) => {
                self.failed = Some(Side::Reading);
                Err(fault)
            }
        }
    }

    fn put(&mut self, bytes: &[u8]) -> Result<(), Failed> {
        match self.sink.put(bytes) {
            Ok(()) => Ok(()),
            Err(fault) => {
                self.failed = Some(Side::Writing);
                Err(fault)
            }
        }
    }
}
