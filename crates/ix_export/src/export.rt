//! The events of a bucket are read from its file and exported, one record behind the other. An
//! export of buckets calls it.

ghost use Rattle.std.specs.Prelude.{◌≡◌, ◌≤◌, ◌<◌, ◌-◌, ℕ, List, drop, Some, IfOk, IfErr, IsErrOf, OnOk, OnErr};
ghost use Rattle.ix_base.specs.Faults.{Rose};
ghost use Rattle.ix_base.specs.Told.{HasBegun};
ghost use Rattle.ix_base.specs.declared.events.Event.{Event};
ghost use Rattle.ix_bucket.specs.Ahead.{HoldsNothing, IsCurrent, HasNoRecord};
ghost use Rattle.ix_bucket.specs.Count.{HasRecords};
ghost use Rattle.ix_disk.specs.Image.{Image, bytes_in, Stays};
ghost use Rattle.ix_disk.specs.Moments.{ImagesStep};
ghost use Rattle.ix_export.specs.Lines.{text};
ghost use Rattle.ix_export.specs.Steps.{TakesEvent, TakesBucket};
ghost use Rattle.ix_export.specs.Stored.{HasEvents};
ghost use Rattle.ix_export.specs.Faults.{OnDamaged};
ghost use Rattle.ix_export.specs.Stops.{StopsIn};

use crate::fault::{BucketFault, fault_of};
use crate::writer::RangeWriter;
use ix_base::{NoMemory, Range, Sink};
use ix_bucket::Reader;
use ix_disk::Disk;
use ix_items::Bucket;
use std::alloc::Global;

/// What an export reads with, and what it writes with.
#[derive(Drop)]
pub(crate) struct Export {
    reader: Reader,
    pub writer: RangeWriter,
}

impl Export {
    /// An export that has read and written nothing yet.
    pub fn new(alloc: Global, range: Range) -> Result<Export, NoMemory>
        ensures fresh { IfOk result (λ export. HoldsNothing export.reader) }
        ensures range { IfOk result (λ export. export.writer.range ≡ range) }
        ensures count { IfOk result (λ export. export.writer.count ≡ 0) }
    {
        Ok(Export {
            reader: Reader::new(alloc)?,
            writer: RangeWriter::new(alloc, range),
        })
    }

    /// Exports the event of the record at a place, and answers the place behind the record.
    fn put_event<D: Disk, W: Sink>(
        &mut self,
        disk: &mut D,
        bucket: &Bucket,
        at: u64,
        out: &mut W,
    ) -> Result<u64, BucketFault>
        requires { at < bucket.now.bytes }
        ensures after { IfOk result (λ next. (at < next) × (next ≤ bucket.now.bytes)) }
        ensures taken { IfOk result (λ next. (image : Image) → D.Disk.seen disk.old ≡ Some image →
            IsCurrent D.Disk self.old.reader disk.old →
            TakesEvent self.old.writer.range at next (bytes_in image bucket.now.file) (W.given out.old) self.old.writer.count
            (W.given out.new) self.new.writer.count) }
        ensures begun { OnErr result ((image : Image) (events : List Event) → D.Disk.seen disk.old ≡ Some image →
            IsCurrent D.Disk self.old.reader disk.old →
            HasRecords events (bucket.now.bytes - at) (drop at (bytes_in image bucket.now.file)) →
            HasBegun (text self.old.writer.range events) (W.given out.old) (W.given out.new)) }
        ensures named { IfErr result (λ fault. OnDamaged fault (λ file place. (file ≡ bucket.now.file) × (place ≡ at))) }
        ensures unwritten { IfErr result (λ fault. OnDamaged fault (λ file place. W.given out.new ≡ W.given out.old)) }
        ensures bad { IfErr result (λ fault. OnDamaged fault (λ file place. (image : Image) → D.Disk.seen disk.old ≡ Some image →
            IsCurrent D.Disk self.old.reader disk.old →
            HasNoRecord at bucket.now.bytes (bytes_in image bucket.now.file))) }
        ensures range { self.new.writer.range ≡ self.old.writer.range }
        ensures current { IsCurrent D.Disk self.old.reader disk.old → IsCurrent D.Disk self.new.reader disk.new }
        ensures cause { IsErrOf result BucketFault.Disk → Rose (D.Disk.faults disk.old) (D.Disk.faults disk.new) }
        ensures written { IsErrOf result BucketFault.Output → Rose (W.faults out.old) (W.faults out.new) }
        ensures later { D.Disk.faults disk.old ≤ D.Disk.faults disk.new }
        ensures grown { W.faults out.old ≤ W.faults out.new }
        ensures same { D.Disk.seen disk.new ≡ D.Disk.seen disk.old }
        ensures images { ImagesStep D.Disk disk.old disk.new Stays }
    {
        match self.reader.next(disk, bucket.file, at, bucket.bytes) {
            Ok(Some((event, next))) => match self.writer.put(&event, out) {
                Ok(()) => Ok(next),
                Err(_) => Err(BucketFault::Output),
            },
            Ok(None) => Ok(bucket.bytes),
            Err(fault) => Err(fault_of(bucket.file, fault)),
        }
    }

    /// Exports the events of a bucket.
    pub fn put_bucket<D: Disk, W: Sink>(
        &mut self,
        disk: &mut D,
        bucket: &Bucket,
        out: &mut W,
    ) -> Result<(), BucketFault>
        ensures taken { OnOk result ((image : Image) → D.Disk.seen disk.old ≡ Some image → IsCurrent D.Disk self.old.reader disk.old →
            TakesBucket self.old.writer.range image bucket.now (W.given out.old) self.old.writer.count (W.given out.new)
            self.new.writer.count) }
        ensures begun { OnErr result ((image : Image) (events : List Event) → D.Disk.seen disk.old ≡ Some image →
            IsCurrent D.Disk self.old.reader disk.old →
            HasEvents image bucket.now events → HasBegun (text self.old.writer.range events) (W.given out.old) (W.given out.new)) }
        ensures named { IfErr result (λ fault. OnDamaged fault (λ file place. (file ≡ bucket.now.file) × (place < bucket.now.bytes))) }
        ensures damaged { IfErr result (λ fault. OnDamaged fault (λ file place. (image : Image) → D.Disk.seen disk.old ≡ Some image →
            IsCurrent D.Disk self.old.reader disk.old →
            StopsIn self.old.writer.range image bucket.now place (W.given out.old) (W.given out.new))) }
        ensures range { self.new.writer.range ≡ self.old.writer.range }
        ensures current { IsCurrent D.Disk self.old.reader disk.old → IsCurrent D.Disk self.new.reader disk.new }
        ensures cause { IsErrOf result BucketFault.Disk → Rose (D.Disk.faults disk.old) (D.Disk.faults disk.new) }
        ensures written { IsErrOf result BucketFault.Output → Rose (W.faults out.old) (W.faults out.new) }
        ensures later { D.Disk.faults disk.old ≤ D.Disk.faults disk.new }
        ensures grown { W.faults out.old ≤ W.faults out.new }
        ensures same { D.Disk.seen disk.new ≡ D.Disk.seen disk.old }
        ensures images { ImagesStep D.Disk disk.old disk.new Stays }
    {
        let mut at = 0;
        while at < bucket.bytes {
            at = self.put_event(disk, bucket, at, out)?;
        }
        Ok(())
    }
}
