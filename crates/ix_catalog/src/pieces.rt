//! The records that are added to the files of buckets. Dealing adds one for each event that it
//! places.

ghost use Rattle.std.specs.Prelude.{◌≡◌, ◌<◌, ◌^◌, ◌++◌, ◌∷◌, [], IfOk, OnOk};
ghost use Rattle.ix_bucket.specs.Record.{event_bytes};
ghost use Rattle.ix_catalog.specs.Buckets.{size};
ghost use Rattle.ix_catalog.specs.Dealing.{joined};
ghost use Rattle.ix_catalog.specs.Filling as defs;

use ix_base::{Event, NoMemory, Sequence};
use ix_bucket::encode;
use ix_commit::Append;
use ix_items::Bucket;
use std::alloc::Global;

/// A place in a file of a bucket that takes events.
#[derive(Clone, Copy)]
pub struct FilePlace {
    /// The number of the file.
    pub number: u64,
    /// How many bytes stand before the place.
    pub at: u64,
}

/// The place behind the records of a bucket; where there is none the beginning of a file of this
/// number.
pub fn spot_of(bucket: Option<Bucket>, file: u64) -> FilePlace
    ensures { result ≡ defs.spot_of bucket file }
{
    match bucket {
        Some(bucket) => FilePlace {
            number: bucket.file.number,
            at: bucket.bytes,
        },
        None => FilePlace {
            number: file,
            at: 0,
        },
    }
}

/// The record of an event, as a piece of its own.
fn begin(alloc: Global, spot: FilePlace, event: &Event) -> Result<Append, NoMemory>
    requires { size event.now < 2 ^ 32 }
    ensures { IfOk result (λ made. made ≡ defs.piece_at spot event.now) }
{
    let mut bytes = Sequence::new(alloc);
    encode(event, &mut bytes)?;
    Ok(Append {
        number: spot.number,
        at: spot.at,
        bytes,
    })
}

/// A piece with the record of an event behind its bytes.
fn extend(piece: Append, event: &Event) -> Result<Append, NoMemory>
    requires { size event.now < 2 ^ 32 }
    ensures number { IfOk result (λ longer. longer.number ≡ piece.number) }
    ensures at { IfOk result (λ longer. longer.at ≡ piece.at) }
    ensures bytes { IfOk result (λ longer. longer.bytes ≡ piece.bytes ++ event_bytes event.now) }
{
    let mut bytes = piece.bytes;
    encode(event, &mut bytes)?;
    Ok(Append {
        number: piece.number,
        at: piece.at,
        bytes,
    })
}

/// Adds the record of an event at its place, to the last piece where that is of the same file. How
/// many bytes the record has.
pub fn add_record(
    alloc: Global,
    spot: FilePlace,
    event: &Event,
    pieces: &mut Sequence<Append>,
) -> Result<u64, NoMemory>
    requires { size event.now < 2 ^ 32 }
    ensures pieces { OnOk result (pieces.new ≡ joined (defs.piece_at spot event.now) pieces.old) }
    ensures size { IfOk result (λ bytes. bytes ≡ size event.now) }
{
    match pieces.pop() {
        Some(last) => {
            if last.number == spot.number {
                let before = last.bytes.len();
                let last = extend(last, event)?;
                let bytes = (last.bytes.len() - before) as u64;
                pieces.push(last)?;
                Ok(bytes)
            } else {
                pieces.push(last)?;
                push_new(alloc, spot, event, pieces)
            }
        }
        None => push_new(alloc, spot, event, pieces),
    }
}

/// Adds the record of an event as a piece of its own. How many bytes the record has.
fn push_new(
    alloc: Global,
    spot: FilePlace,
    event: &Event,
    pieces: &mut Sequence<Append>,
) -> Result<u64, NoMemory>
    requires { size event.now < 2 ^ 32 }
    ensures pieces { OnOk result (pieces.new ≡ pieces.old ++ defs.piece_at spot event.now ∷ []) }
    ensures size { IfOk result (λ bytes. bytes ≡ size event.now) }
{
    let piece = begin(alloc, spot, event)?;
    let bytes = piece.bytes.len() as u64;
    pieces.push(piece)?;
    Ok(bytes)
}
