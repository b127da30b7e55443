//! Records read from files, one behind the other.

ghost use Rattle.std.specs.Prelude.{◌≡◌, ◌≢◌, ◌↔◌, ◌≤◌, ◌<◌, ◌+◌, ◌-◌, ◌==◌, ℕ, List, [], length, take, drop, min, Some, IfOk, IfErr};
ghost use Rattle.std.specs.Prelude.{IfSome, IsNone, IsOkAnd, IsErrOf, IsTrue, OnOk, OnErr, nat_le, ◌&&◌, if◌then◌else◌};
ghost use Rattle.std.specs.Borrow.{sem};
ghost use Rattle.std.specs.Io.BufRead.{Rests};
ghost use Rattle.ix_bucket.specs.contracts.ahead.Reader.{the_row};
ghost use Rattle.ix_base.specs.Faults.{Rose, HasCause};
ghost use Rattle.ix_base.specs.Lent.{lent_event};
ghost use Rattle.ix_disk.specs.Image.{Image, bytes_in, Stays};
ghost use Rattle.ix_disk.specs.Moments.{ImagesStep};
ghost use Rattle.ix_bucket.specs.Record.{event_bytes, IsRecordOf};
ghost use Rattle.ix_bucket.specs.Ahead.{IsCurrent, HoldsNothing, HasNoRecord, between, needed, Shows, view_of, OnBadRecord};

use crate::reading::decode;
use ix_base::{Area, BadRecord, EventRef, Failed, File, NoMemory};
use ix_coding::read_u32;
use ix_disk::Disk;
use std::alloc::{AllocError, Global};
use thiserror::Error;

/// Why no record was read.
#[derive(Clone, Copy, Debug, PartialEq, Eq, Error)]
pub enum ReadFault {
    /// The disk has failed.
    #[error("the disk failed")]
    Disk,
    /// No record begins at this place and ends by the last one.
    #[error("no record that counts stands at byte {at}")]
    BadRecord { at: u64 },
    /// There was no room for the bytes of the record.
    #[error("there was no room in memory")]
    NoMemory,
}

impl From<Failed> for ReadFault {
    ghost use Rattle.ix_bucket.specs.declared.ahead.ReadFault.TheVariants.{Disk};

    ghost from_gives = { λ _ e. e ≡ Disk };

    fn from(_: Failed) -> ReadFault {
        ReadFault::Disk
    }
}

impl From<AllocError> for ReadFault {
    ghost use Rattle.ix_bucket.specs.declared.ahead.ReadFault.TheVariants.{NoMemory};

    ghost from_gives = { λ _ e. e ≡ NoMemory };

    fn from(_: AllocError) -> ReadFault {
        ReadFault::NoMemory
    }
}

/// Reads the records of files. It reads ahead, a mebibyte at a time.
#[derive(Drop)]
pub struct Reader {
    /// The file that the bytes held are of.
    file: File,
    /// The place of the first of them.
    start: u64,
    held: Vec<u8>,
}

/// How many bytes a reader reads at a time, where the file has them.
const PIECE: u64 = 1 << 20;

/// How many bytes the record takes that begins so, by its length; four where the length is not
/// whole.
#[tactic(auto, unfolding(ix_coding::specs::Reading::four_at))]
fn needed(bytes: &[u8]) -> u64
    ensures { result ≡ needed bytes.now }
{
    match read_u32(bytes) {
        Ok((len, _)) => 4 + u64::from(len),
        Err(_) => 4,
    }
}

/// So many bytes from a place on, as many as there are.
fn part(bytes: &[u8], at: u64, len: u64) -> &[u8]
    ensures { result.now ≡ take len (drop at bytes.now) }
{
    if at >= bytes.len() as u64 {
        return &[];
    }
    let rest = &bytes[at as usize..];
    if len < rest.len() as u64 {
        &rest[..len as usize]
    } else {
        rest
    }
}

/// Reads so many bytes of a file, as many as there are, in place of those that were held. A fault
/// leaves none.
fn read_piece<D: Disk>(
    disk: &mut D,
    file: File,
    at: u64,
    len: usize,
    held: &mut Vec<u8>,
) -> Result<(), ReadFault>
    ensures read { OnOk result ((image : Image) → D.Disk.seen disk.old ≡ Some image →
        held.new.items ≡ take len (drop at (bytes_in image file))) }
    ensures none { OnErr result (held.new.items ≡ []) }
    ensures bad { IfErr result (λ fault. OnBadRecord fault (λ place. ⊥)) }
    ensures cause { IsErrOf result ReadFault.Disk → Rose (D.Disk.faults disk.old) (D.Disk.faults disk.new) }
    ensures later { D.Disk.faults disk.old ≤ D.Disk.faults disk.new }
    ensures same { D.Disk.seen disk.new ≡ D.Disk.seen disk.old }
    ensures images { ImagesStep D.Disk disk.old disk.new Stays }
{
    held.clear();
    if held.resize(len, 0).is_err() {
        return Err(ReadFault::NoMemory);
    }
    match disk.read(file, at, held.as_mut_slice()) {
        Ok(n) => {
            held.truncate(n);
            Ok(())
        }
        Err(_) => {
            held.clear();
            Err(ReadFault::Disk)
        }
    }
}

/// How many bytes the record at a place takes, by its length.
fn size_at<D: Disk>(disk: &mut D, file: File, at: u64) -> Result<u64, Failed>
    ensures size { IfOk result (λ n. (image : Image) → D.Disk.seen disk.old ≡ Some image → n ≡ needed (drop at (bytes_in image file))) }
    ensures least { IfOk result (λ n. 4 ≤ n) }
    ensures cause { HasCause (D.Disk.faults disk.old) (D.Disk.faults disk.new) result }
    ensures same { D.Disk.seen disk.new ≡ D.Disk.seen disk.old }
    ensures images { ImagesStep D.Disk disk.old disk.new Stays }
{
    let mut head = [0u8; 4];
    let n = disk.read(file, at, &mut head)?;
    Ok(needed(&head[..n]))
}

/// How many bytes of a file stand between two places.
fn room<D: Disk>(disk: &mut D, file: File, at: u64, until: u64) -> Result<u64, Failed>
    ensures room { IfOk result (λ n. (image : Image) → D.Disk.seen disk.old ≡ Some image →
        n ≡ length (between at until (bytes_in image file))) }
    ensures within { IfOk result (λ n. n ≤ until - at) }
    ensures cause { HasCause (D.Disk.faults disk.old) (D.Disk.faults disk.new) result }
    ensures same { D.Disk.seen disk.new ≡ D.Disk.seen disk.old }
    ensures images { ImagesStep D.Disk disk.old disk.new Stays }
{
    let len = disk.length(file)?;
    Ok(len.min(until).saturating_sub(at))
}

impl Reader {
    /// A reader that holds nothing yet.
    pub fn new(alloc: Global) -> Result<Reader, NoMemory>
        ensures { IfOk result (λ reader. HoldsNothing reader) }
    {
        let held = Vec::with_capacity(alloc, PIECE as usize)?;
        let file = File {
            area: Area::Home,
            number: 0,
        };
        Ok(Reader {
            file,
            start: 0,
            held,
        })
    }

    /// Lets go of what was read ahead, and keeps the room for it. After somebody has changed a
    /// file, the reader reads from the disk again.
    pub fn forget(&mut self)
        ensures { HoldsNothing self.new }
    {
        self.held.clear();
    }

    /// The bytes held from one place to another, from the first one held on.
    fn show(&self, at: u64, until: u64) -> &[u8]
        ensures { result.now ≡ view_of self.now at until }
    {
        part(
            &self.held,
            at.saturating_sub(self.start),
            until.saturating_sub(at),
        )
    }

    /// Whether the bytes held show the record at a place whole, where it ends by another.
    fn has(&self, file: File, at: u64, until: u64) -> bool
        ensures file { IsTrue result → self.now.file ≡ file }
        ensures start { IsTrue result → self.now.start ≤ at }
        ensures enough { IsTrue result → needed (view_of self.now at until) ≤ length (view_of self.now at until) }
    {
        if self.file != file || at < self.start {
            return false;
        }
        let view = self.show(at, until);
        needed(view) <= view.len() as u64
    }

    /// Reads from a place on, so that the bytes held show the record there whole.
    fn fetch<D: Disk>(
        &mut self,
        disk: &mut D,
        file: File,
        at: u64,
        until: u64,
    ) -> Result<(), ReadFault>
        ensures current { IsCurrent D.Disk self.new disk.new }
        ensures file { OnOk result (self.new.file ≡ file) }
        ensures start { OnOk result (self.new.start ≡ at) }
        ensures shown { OnOk result ((image : Image) → D.Disk.seen disk.old ≡ Some image →
            Shows (view_of self.new at until) (between at until (bytes_in image file))) }
        ensures place { IfErr result (λ fault. OnBadRecord fault (λ place. place ≡ at)) }
        ensures bad { IfErr result (λ fault. OnBadRecord fault (λ place. (image : Image) → D.Disk.seen disk.old ≡ Some image →
            HasNoRecord at until (bytes_in image file))) }
        ensures cause { IsErrOf result ReadFault.Disk → Rose (D.Disk.faults disk.old) (D.Disk.faults disk.new) }
        ensures later { D.Disk.faults disk.old ≤ D.Disk.faults disk.new }
        ensures same { D.Disk.seen disk.new ≡ D.Disk.seen disk.old }
        ensures images { ImagesStep D.Disk disk.old disk.new Stays }
    {
        self.held.clear();
        let room = room(disk, file, at, until)?;
        let size = size_at(disk, file, at)?;
        if room < size {
            return Err(ReadFault::BadRecord { at });
        }
        let len = size.max(PIECE).min(room);
        read_piece(disk, file, at, len as usize, &mut self.held)?;
        self.file = file;
        self.start = at;
        Ok(())
    }

    /// Has the bytes at hand that show the record at a place whole.
    fn prepare<D: Disk>(
        &mut self,
        disk: &mut D,
        file: File,
        at: u64,
        until: u64,
    ) -> Result<(), ReadFault>
        ensures current { IsCurrent D.Disk self.old disk.old → IsCurrent D.Disk self.new disk.new }
        ensures start { OnOk result (self.new.start ≤ at) }
        ensures shown { OnOk result ((image : Image) → D.Disk.seen disk.old ≡ Some image → IsCurrent D.Disk self.old disk.old →
            Shows (view_of self.new at until) (between at until (bytes_in image file))) }
        ensures place { IfErr result (λ fault. OnBadRecord fault (λ place. place ≡ at)) }
        ensures bad { IfErr result (λ fault. OnBadRecord fault (λ place. (image : Image) → D.Disk.seen disk.old ≡ Some image →
            HasNoRecord at until (bytes_in image file))) }
        ensures cause { IsErrOf result ReadFault.Disk → Rose (D.Disk.faults disk.old) (D.Disk.faults disk.new) }
        ensures later { D.Disk.faults disk.old ≤ D.Disk.faults disk.new }
        ensures same { D.Disk.seen disk.new ≡ D.Disk.seen disk.old }
        ensures images { ImagesStep D.Disk disk.old disk.new Stays }
    {
        if !self.has(file, at, until) {
            self.fetch(disk, file, at, until)?;
        }
        Ok(())
    }

    /// The event of the record at `at`, with its fields lent from the reader, and the place after
    /// it, by `until` at the latest; `None` where `at` is `until`. The answers are those of the
    /// file as a read gives it now, where what the reader holds is so too: a new reader holds
    /// nothing, as one that forgot, and a call keeps it so as long as nobody changes the file.
    pub fn next<D: Disk>(
        &mut self,
        disk: &mut D,
        file: File,
        at: u64,
        until: u64,
    ) -> Result<Option<(EventRef<'_>, u64)>, ReadFault>
        ensures end { (at ≡ until) ↔ IsOkAnd result (λ answer. IsNone answer) }
        ensures after { IfOk result (λ answer. IfSome answer (λ found. (at < found.1) × (found.1 ≤ until))) }
        // The place after it is that of its record's end, whatever the file holds behind.
        ensures size { IfOk result (λ answer. IfSome answer (λ found. found.1 ≡ at + length (event_bytes (lent_event found.0)))) }
        ensures found { IfOk result (λ answer. IfSome answer (λ found. (image : Image) → D.Disk.seen disk.old ≡ Some image →
            IsCurrent D.Disk self.old disk.old →
            IsRecordOf (between at found.1 (bytes_in image file)) (lent_event found.0))) }
        ensures place { IfErr result (λ fault. OnBadRecord fault (λ place. place ≡ at)) }
        ensures bad { IfErr result (λ fault. OnBadRecord fault (λ place. (image : Image) → D.Disk.seen disk.old ≡ Some image →
            IsCurrent D.Disk self.old disk.old →
            HasNoRecord at until (bytes_in image file))) }
        ensures cause { IsErrOf result ReadFault.Disk → Rose (D.Disk.faults disk.old) (D.Disk.faults disk.new) }
        ensures later { D.Disk.faults disk.old ≤ D.Disk.faults disk.new }
        ensures same { D.Disk.seen disk.new ≡ D.Disk.seen disk.old }
        ensures images { ImagesStep D.Disk disk.old disk.new Stays }
        ensures* current { sem 𝓛 (Rests the_row self.entry (λ new. IsCurrent D.Disk self.old disk.old → IsCurrent D.Disk new disk.new)) }
    {
        if at == until {
            return Ok(None);
        }
        self.prepare(disk, file, at, until)?;
        match decode(self.show(at, until)) {
            Ok((event, len)) => Ok(Some((event, at + len as u64))),
            Err(_) => Err(ReadFault::BadRecord { at }),
        }
    }
}
