//! A head is read from a link byte by byte, so that nothing behind it is taken.

ghost use Rattle.std.specs.Prelude.{◌≡◌, ◌≤◌, length, take, Result, Err};
ghost use Rattle.httparse.specs.Grammar.{HasNoRequest};
ghost use Rattle.ix_base.specs.Faults.{Rose};
ghost use Rattle.ix_base.specs.Told.{Told};
ghost use Rattle.ix_heads.specs.Heads.{FitsHead, KeepsWithin, FitsEnd};
ghost use Rattle.ix_heads.specs.Reads.{OnlyReads};

use crate::bytes::read_byte;
use crate::faults::LinkFault;
use crate::judging::{Judged, Look, judge, may_go_on};
use crate::scan::Scan;
use httparse::spans::{HeaderSpan, RequestSpans};
use ix_base::NoMemory;
use ix_net::Link;
use std::alloc::Global;

/// The most bytes that a head may have.
pub const MAX_HEAD: usize = 16384;

/// The most header lines that a good head has.
pub const MAX_LINES: usize = 64;

/// What stands at the front of a link's bytes.
#[derive(Clone, Copy, Debug)]
pub enum HeadRead {
    /// Nothing: the link has ended.
    Ended,
    /// No head, or one with too many header lines.
    Bad,
    /// A head, by the places of its parts.
    Whole(RequestSpans),
}

/// What bytes without a head are, where a link has ended behind them.
fn at_end(alloc: Global, bytes: &[u8], headers: &mut [HeaderSpan]) -> Result<HeadRead, LinkFault>
    requires size { length bytes.now ≤ 16384 }
    requires none { HasNoRequest bytes.now }
    requires room { length headers.old ≡ 64 }
    ensures { FitsEnd bytes.now result }
{
    if bytes.is_empty() {
        return Ok(HeadRead::Ended);
    }
    match may_go_on(alloc, bytes, headers) {
        Ok(Look::Partly) if bytes.len() < MAX_HEAD => Err(LinkFault::Cut),
        Ok(_) => Ok(HeadRead::Bad),
        Err(NoMemory) => Err(LinkFault::NoMemory { whole: false }),
    }
}

/// Reads the head at the front of a link's bytes, and takes just its bytes. The places are those of
/// the front of `bytes`, of as many bytes as the head has.
pub fn read_head<K: Link>(
    alloc: Global,
    link: &mut K,
    bytes: &mut [u8],
    headers: &mut [HeaderSpan],
) -> Result<HeadRead, LinkFault>
    requires bytes { length bytes.old ≡ 16384 }
    requires headers { length headers.old ≡ 64 }
    ensures read { Told (FitsHead bytes.new headers.new result) (K.left link.old) (K.left link.new) }
    ensures within { KeepsWithin bytes.new headers.new result }
    ensures reads { OnlyReads (K.given link.old) (K.given link.new) (K.standing link.old) (K.standing link.new) (K.faults link.old)
        (K.faults link.new) }
    ensures failed { result ≡ Err LinkFault.Failed → Rose (K.faults link.old) (K.faults link.new) }
{
    let mut scan = Scan::new();
    for i in 0..MAX_HEAD {
        let byte = match read_byte(link) {
            Ok(Some(byte)) => byte,
            Ok(None) => return at_end(alloc, &bytes[..i], headers),
            Err(_) => return Err(LinkFault::Failed),
        };
        bytes[i] = byte;
        scan.take(byte);
        match judge(alloc, &bytes[..i + 1], headers, &scan) {
            Ok(Judged::Open) => {}
            Ok(Judged::Bad) => return Ok(HeadRead::Bad),
            Ok(Judged::Whole(spans)) => return Ok(HeadRead::Whole(spans)),
            Err(NoMemory) => return Err(LinkFault::NoMemory { whole: false }),
        }
    }
    Ok(HeadRead::Bad)
}
