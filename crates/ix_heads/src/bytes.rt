//! One byte of a link.

ghost use Rattle.std.specs.Prelude.{◌≡◌, ◌≤◌, ℕ, List, [], ◌∷◌, ◌++◌, Option, Result, Ok, Err, IsErr, OnErr};
ghost use Rattle.ix_base.specs.Faults.{Rose};
ghost use Rattle.ix_base.specs.Told.{Told};
ghost use Rattle.ix_heads.specs.Reads.{OnlyReads, TakesByte};

use ix_base::Failed;
use ix_net::Link;

/// Takes the next byte of a link; `None` at its end.
pub fn read_byte<K: Link>(link: &mut K) -> Result<Option<u8>, Failed>
    ensures taken { Told (TakesByte result) (K.left link.old) (K.left link.new) }
    ensures reads { OnlyReads (K.given link.old) (K.given link.new) (K.standing link.old) (K.standing link.new) (K.faults link.old)
        (K.faults link.new) }
    ensures failed { IsErr result → Rose (K.faults link.old) (K.faults link.new) }
{
    let mut buf = [0u8];
    let count = link.read(&mut buf)?;
    if count == 0 {
        return Ok(None);
    }
    Ok(Some(buf[0]))
}
