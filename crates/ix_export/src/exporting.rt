//! Buckets are exported, one behind the other. The store calls it for an index.

ghost use Rattle.std.specs.Prelude.{◌≡◌, ◌≤◌, ℕ, List, Some, IfOk, IfErr, IsErrOf, OnOk, OnErr};
ghost use Rattle.ix_base.specs.Faults.{Rose};
ghost use Rattle.ix_base.specs.Told.{HasWritten, HasBegun};
ghost use Rattle.ix_base.specs.declared.events.Event.{Event};
ghost use Rattle.ix_disk.specs.Image.{Image, Stays};
ghost use Rattle.ix_disk.specs.Moments.{ImagesStep};
ghost use Rattle.ix_export.specs.Lines.{text, number};
ghost use Rattle.ix_export.specs.Stored.{HaveEvents, AreWhole, joined};
ghost use Rattle.ix_export.specs.Faults.{OnDamaged};
ghost use Rattle.ix_export.specs.Stops.{StopsAt, IsOfOne};

use crate::export::Export;
use crate::fault::BucketFault;
use ix_base::{Range, Sink};
use ix_disk::Disk;
use ix_items::Bucket;
use std::alloc::Global;

/// Writes a line for each event of the buckets whose time is within the range, bucket by bucket and
/// in the order of the files, and answers how many lines it wrote, 2^64 - 1 at most. Of a bucket's
/// file it reads the first `bytes` bytes, a piece at a time; what stands behind them means nothing.
/// It takes memory for a piece of a file, a record that is longer, and a line.
pub fn export_buckets<D: Disk, W: Sink>(
    alloc: Global,
    disk: &mut D,
    buckets: &[Bucket],
    range: &Range,
    out: &mut W,
) -> Result<u64, BucketFault>
    // Where the files of the buckets hold the records of some events, it writes the lines of those
    // within the range, and answers their number.
    ensures lines { IfOk result (λ count. (image : Image) (all : List (List Event)) → D.Disk.seen disk.old ≡ Some image →
        HaveEvents image buckets.now all →
        HasWritten (text range.now (joined all)) (W.given out.old) (W.given out.new)) }
    ensures counted { IfOk result (λ count. (image : Image) (all : List (List Event)) → D.Disk.seen disk.old ≡ Some image →
        HaveEvents image buckets.now all →
        count ≡ number range.now (joined all)) }
    // A fault leaves a front of these lines.
    ensures begun { OnErr result ((image : Image) (all : List (List Event)) → D.Disk.seen disk.old ≡ Some image →
        HaveEvents image buckets.now all →
        HasBegun (text range.now (joined all)) (W.given out.old) (W.given out.new)) }
    // And none of these files is damaged.
    ensures sound { IfErr result (λ fault. OnDamaged fault (λ file at. (image : Image) (all : List (List Event)) →
        D.Disk.seen disk.old ≡ Some image → HaveEvents image buckets.now all → ⊥)) }
    // At Ok the files do hold the records of events.
    ensures whole { OnOk result ((image : Image) → D.Disk.seen disk.old ≡ Some image → AreWhole image buckets.now) }
    // Damaged comes at the first place where no record ends within the bytes that count, with all
    // lines before it written.
    ensures damaged { IfErr result (λ fault. OnDamaged fault (λ file at. (image : Image) → D.Disk.seen disk.old ≡ Some image →
        StopsAt range.now image buckets.now file at (W.given out.old) (W.given out.new))) }
    // It names the file of one of the buckets, and a place within the bytes of it that count.
    ensures named { IfErr result (λ fault. OnDamaged fault (λ file at. IsOfOne buckets.now file at)) }
    ensures disk { IsErrOf result BucketFault.Disk → Rose (D.Disk.faults disk.old) (D.Disk.faults disk.new) }
    ensures output { IsErrOf result BucketFault.Output → Rose (W.faults out.old) (W.faults out.new) }
    ensures later { D.Disk.faults disk.old ≤ D.Disk.faults disk.new }
    ensures grown { W.faults out.old ≤ W.faults out.new }
    // Nothing changes on the disk.
    ensures same { D.Disk.seen disk.new ≡ D.Disk.seen disk.old }
    ensures images { ImagesStep D.Disk disk.old disk.new Stays }
{
    let mut export = Export::new(alloc, *range)?;
    for bucket in buckets {
        export.put_bucket(disk, bucket, out)?;
    }
    Ok(export.writer.count)
}
