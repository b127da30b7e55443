//! The records of a file, read to the end.

ghost use Rattle.std.specs.Prelude.{◌≡◌, ◌≤◌, ◌<◌, List, length, Some, IfOk, IfErr, IsErrOf};
ghost use Rattle.ix_base.specs.Faults.{Rose};
ghost use Rattle.ix_base.specs.declared.events.Event.{Event};
ghost use Rattle.ix_disk.specs.Image.{Image, bytes_in, Stays};
ghost use Rattle.ix_disk.specs.Moments.{ImagesStep};
ghost use Rattle.ix_bucket.specs.Ahead.{IsCurrent, HasNoRecord, HasRecord, OnBadRecord};
ghost use Rattle.ix_bucket.specs.Count.{HasRecords};

use crate::ahead::{ReadFault, Reader};
use ix_base::File;
use ix_disk::Disk;

/// The place behind the record at a place.
fn skip<D: Disk>(
    reader: &mut Reader,
    disk: &mut D,
    file: File,
    at: u64,
    until: u64,
) -> Result<u64, ReadFault>
    requires { at < until }
    ensures after { IfOk result (λ next. (at < next) × (next ≤ until)) }
    ensures found { IfOk result (λ next. (image : Image) → D.Disk.seen disk.old ≡ Some image → IsCurrent D.Disk reader.old disk.old →
        HasRecord at next (bytes_in image file)) }
    ensures bad { IfErr result (λ fault. OnBadRecord fault (λ place. (image : Image) → D.Disk.seen disk.old ≡ Some image →
        IsCurrent D.Disk reader.old disk.old → HasNoRecord at until (bytes_in image file))) }
    ensures current { IsCurrent D.Disk reader.old disk.old → IsCurrent D.Disk reader.new disk.new }
    ensures cause { IsErrOf result ReadFault.Disk → Rose (D.Disk.faults disk.old) (D.Disk.faults disk.new) }
    ensures later { D.Disk.faults disk.old ≤ D.Disk.faults disk.new }
    ensures same { D.Disk.seen disk.new ≡ D.Disk.seen disk.old }
    ensures images { ImagesStep D.Disk disk.old disk.new Stays }
{
    match reader.next(disk, file, at, until)? {
        Some((_, next)) => Ok(next),
        None => Ok(until),
    }
}

/// How many records the file begins with, one behind the other, of which the last ends at `until`.
/// The answers are those of the file as a read gives it now, where what the reader holds is so too,
/// as at `Reader::next`.
pub fn count_records<D: Disk>(
    reader: &mut Reader,
    disk: &mut D,
    file: File,
    until: u64,
) -> Result<u64, ReadFault>
    // Where the file begins with the records of some events, up to the place, it answers how many
    // events these are.
    ensures counted { (events : List Event) (image : Image) → D.Disk.seen disk.old ≡ Some image → IsCurrent D.Disk reader.old disk.old →
        HasRecords events until (bytes_in image file) → IfOk result (λ count. count ≡ length events) }
    // And it finds no bad record there.
    ensures bad { (events : List Event) (image : Image) → D.Disk.seen disk.old ≡ Some image → IsCurrent D.Disk reader.old disk.old →
        HasRecords events until (bytes_in image file) → IfErr result (λ fault. OnBadRecord fault (λ at. ⊥)) }
    // What the reader holds stays so.
    ensures current { IsCurrent D.Disk reader.old disk.old → IsCurrent D.Disk reader.new disk.new }
    ensures cause { IsErrOf result ReadFault.Disk → Rose (D.Disk.faults disk.old) (D.Disk.faults disk.new) }
    ensures later { D.Disk.faults disk.old ≤ D.Disk.faults disk.new }
    ensures same { D.Disk.seen disk.new ≡ D.Disk.seen disk.old }
    ensures images { ImagesStep D.Disk disk.old disk.new Stays }
{
    let mut at = 0;
    let mut count = 0;
    while at < until {
        at = skip(reader, disk, file, at, until)?;
        count += 1;
    }
    Ok(count)
}
