//! A link that gathers what is written to it, so that a reply goes out in few writes. `write_reply`
//! makes one of a whole reply, and one of a head.

ghost use Rattle.std.specs.Prelude.{◌≡◌, ◌≤◌, ℕ, List, [], Option, Some, None};
ghost use Rattle.ix_base.specs.Faults.{Rose};
ghost use Rattle.ix_net.specs.Links.{Standing};

use arrayvec::ArrayVec;
use ix_base::Failed;
use ix_net::Link;

/// How many bytes are gathered at the most.
const ROOM: usize = 8192;

/// Bytes that were written. It fails where there is no room for more, and nothing is read from it.
#[derive(Drop)]
pub(crate) struct Gather {
    bytes: ArrayVec<u8, ROOM>,
    faults: u64,
}

impl Gather {
    /// Nothing is written yet.
    pub(crate) fn new() -> Self
        ensures { result.bytes.items ≡ [] }
    {
        Gather {
            bytes: ArrayVec::new(),
            faults: 0,
        }
    }

    /// What was written.
    pub(crate) fn as_slice(&self) -> &[u8]
        ensures { result.now ≡ self.now.bytes.items }
    {
        self.bytes.as_slice()
    }
}

impl Link for Gather {
    ghost left = { λ g. Some [] };

    ghost given = { λ g. Some g.bytes.items };

    ghost faults = { λ g. g.faults };

    ghost standing = { λ g. record {
      held = None;
      start = 0;
      lent = [];
      reading = g.faults;
      writing = g.faults;
      failed = None;
    } };

    fn read(&mut self, _buf: &mut [u8]) -> Result<usize, Failed> {
        Ok(0)
    }

    fn put(&mut self, bytes: &[u8]) -> Result<(), Failed> {
        if self.bytes.try_extend_from_slice(bytes).is_err() {
            self.faults = self.faults.saturating_add(1);
            return Err(Failed);
        }
        Ok(())
    }
}
