//! The bytes behind a head: read into memory, or read over.

ghost use Rattle.std.specs.Prelude.{◌≡◌, ◌≤◌, length, Result, Err, IfOk};
ghost use Rattle.ix_base.specs.Faults.{Rose};
ghost use Rattle.ix_base.specs.Told.{Told};
ghost use Rattle.ix_heads.specs.Reads.{OnlyReads};
ghost use Rattle.ix_http.specs.Behind.{FitsSkip, FitsFill, FitsBody};

use ix_base::Bytes;
use ix_heads::LinkFault;
use ix_net::Link;
use std::alloc::Global;

/// How many bytes are read over at once.
const PIECE: usize = 4096;

/// Reads over so many bytes.
pub(crate) fn skip<K: Link>(link: &mut K, count: usize) -> Result<(), LinkFault>
    ensures read { Told (FitsSkip count result) (K.left link.old) (K.left link.new) }
    ensures reads { OnlyReads (K.given link.old) (K.given link.new) (K.standing link.old) (K.standing link.new) (K.faults link.old)
        (K.faults link.new) }
    ensures failed { result ≡ Err LinkFault.Failed → Rose (K.faults link.old) (K.faults link.new) }
{
    let mut piece = [0u8; PIECE];
    let mut rest = count;
    while rest > 0 {
        let most = rest.min(PIECE);
        match link.read(&mut piece[..most]) {
            Ok(0) => return Err(LinkFault::Cut),
            Ok(taken) => rest -= taken,
            Err(_) => return Err(LinkFault::Failed),
        }
    }
    Ok(())
}

/// Reads as many bytes as the buffer has room for.
fn fill<K: Link>(link: &mut K, buffer: &mut [u8]) -> Result<(), LinkFault>
    ensures read { Told (FitsFill buffer.new result) (K.left link.old) (K.left link.new) }
    ensures reads { OnlyReads (K.given link.old) (K.given link.new) (K.standing link.old) (K.standing link.new) (K.faults link.old)
        (K.faults link.new) }
    ensures failed { result ≡ Err LinkFault.Failed → Rose (K.faults link.old) (K.faults link.new) }
{
    let mut at = 0;
    while at < buffer.len() {
        match link.read(&mut buffer[at..]) {
            Ok(0) => return Err(LinkFault::Cut),
            Ok(taken) => at += taken,
            Err(_) => return Err(LinkFault::Failed),
        }
    }
    Ok(())
}

/// Reads a body of so many bytes. Where there is no room for it, it is read over.
pub(crate) fn read_body<K: Link>(
    alloc: Global,
    link: &mut K,
    count: usize,
) -> Result<Bytes, LinkFault>
    ensures read { Told (FitsBody count result) (K.left link.old) (K.left link.new) }
    ensures sized { IfOk result (λ body. length body ≡ count) }
    ensures reads { OnlyReads (K.given link.old) (K.given link.new) (K.standing link.old) (K.standing link.new) (K.faults link.old)
        (K.faults link.new) }
    ensures failed { result ≡ Err LinkFault.Failed → Rose (K.faults link.old) (K.faults link.new) }
{
    let Ok(mut body) = vec![in alloc; 0u8; count] else {
        skip(link, count)?;
        return Err(LinkFault::NoMemory { whole: true });
    };
    fill(link, &mut body)?;
    Ok(Bytes::from_vec(body))
}
