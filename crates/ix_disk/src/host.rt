//! The disk of the machine.

ghost use Rattle.std.specs.Prelude.{◌≡◌, ◌≤◌, ◌<◌, ◌+◌, ◌^◌, length, IfOk, OnOk, None};
ghost use Rattle.ix_base.specs.Faults.{Rose};
ghost use Rattle.ix_disk.specs.Locks.{unknown};
ghost use Rattle.ix_disk.specs.Untold.{none_told};

use crate::folders::{Folders, sync_open, sync_path};
use crate::known::{Found, Known};
use crate::machine::{FirstFault, LockFiles, Reason, done, if_there, reason_of};
use crate::paths::{FilePath, LOCK_PATH};
use crate::{Disk, LockFault};
use ix_base::{Failed, File};
use std::alloc::Global;
use std::fs::{self, Metadata, OpenFile, OpenOptions, Permissions};
use std::io::{ErrorKind, Read, Seek, SeekFrom, Write};
use std::os::unix::fs::{MetadataExt, OpenOptionsExt, PermissionsExt};
use std::rt::Files;

/// The disk over the files `var/<area>/<number>` of the current folder. A folder that is missing is
/// made with the first file in it. It tells nothing of what the files hold. It counts each call of
/// the system that failed in the end, and remembers why the first one did. Only the user that the
/// program runs as can read what it makes.
///
/// Of every file that it has written it remembers which one it is and how far it was written, until
/// it removes it. That takes memory: where it lacks, a write of a further file fails, and nothing
/// is written.
///
/// The file that was written last stays open until another is written, so that a sync goes to the
/// handle that was written and learns of each error of its writes. Once the system could not sync,
/// or a file was cut, replaced or removed behind the disk's back, no sync here answers `Ok` any
/// more.
///
/// Its lock is that of the file `var/lock`, which is never removed. The lock ends with the disk,
/// and so with the program. A call that finds it not taken takes it first, and fails where another
/// program has it.
#[derive(Drop)]
pub struct HostDisk<R: LockFiles + Drop> {
    rt: R,
    faults: u64,
    refused: u64,
    first: Option<FirstFault>,
    /// The file whose lock this program has.
    lock: Option<R::File>,
    written: Option<Written<R::File>>,
    known: Known,
    folders: Folders,
    /// A sync of the system failed, or a file is not as it was written, so that bytes may be lost
    /// which a read still gives.
    lost: bool,
}

/// A file that is open for writing.
struct Written<H: Drop> {
    file: File,
    handle: H,
    /// Something was written since its last sync.
    dirty: bool,
}

/// It is written out, so that each place where one is let go is a call of it, which is proved once.
impl<H: Drop> Drop for Written<H> {
    fn drop(self) {
        let Written {
            file: _,
            handle: _,
            dirty: _,
        } = self;
    }
}

/// Whether it is this file that is open for writing.
fn is_of<H: Drop>(written: &Option<Written<H>>, file: File) -> bool {
    match written {
        Some(written) => written.file == file,
        None => false,
    }
}

/// No file gets as long as this.
const MAX_LENGTH: u64 = 1 << 63;

/// Only the user that the program runs as may read or write a file that it makes.
const FILE_MODE: u32 = 0o600;

const TOO_LONG: Reason = Reason::Found("it would be too long");

/// What the system knows of a plain file.
fn found_of(found: &Metadata) -> Found {
    Found {
        length: found.len(),
        node: (found.dev(), found.ino()),
    }
}

/// What the system knows of a file, where it is there. It fails where the path is no plain file.
fn find<R: Files>(rt: &R, path: &str) -> Result<Option<Found>, Reason> {
    let Some(found) = if_there(fs::metadata(rt, path))? else {
        return Ok(None);
    };
    if !found.is_file() {
        return Err(Reason::Found("it is no plain file"));
    }
    Ok(Some(found_of(&found)))
}

/// Reads from a place on until the buffer is full or the file ends.
fn fill<F: Read + Seek>(file: &mut F, at: u64, buf: &mut [u8]) -> Result<usize, Reason>
    ensures { IfOk result (λ n. n ≤ length buf.old) }
{
    done(file.seek(SeekFrom::Start(at)))?;
    let mut filled = 0;
    for _ in 0..u64::MAX {
        if filled == buf.len() {
            break;
        }
        match file.read(&mut buf[filled..]) {
            Ok(0) => break,
            Ok(count) => filled += count,
            Err(fault) if fault.kind() == ErrorKind::Interrupted => {}
            Err(fault) => return Err(reason_of(&fault)),
        }
    }
    Ok(filled)
}

/// Writes all the bytes from a place on.
fn put<F: Write + Seek>(file: &mut F, at: u64, bytes: &[u8]) -> Result<(), Reason> {
    done(file.seek(SeekFrom::Start(at)))?;
    let mut rest = bytes;
    for _ in 0..u64::MAX {
        if rest.is_empty() {
            return Ok(());
        }
        match file.write(rest) {
            Ok(0) => break,
            Ok(count) => rest = &rest[count..],
            Err(fault) if fault.kind() == ErrorKind::Interrupted => {}
            Err(fault) => return Err(reason_of(&fault)),
        }
    }
    Err(Reason::Found("it takes no more bytes"))
}

/// Opens a file for writing that is there.
fn open_there<R: Files>(rt: &R, path: &str) -> Result<R::File, Reason> {
    let mut how = OpenOptions::new();
    how.write(true);
    done(how.open(rt, path))
}

/// Makes a file with the same mode under any mask of the process, and opens it for writing, where
/// its folder is there.
fn open_made<R: Files>(rt: &R, path: &str) -> Result<Option<R::File>, Reason> {
    let mut how = OpenOptions::new();
    how.write(true).create_new(true).mode(FILE_MODE);
    let Some(opened) = if_there(how.open(rt, path))? else {
        return Ok(None);
    };
    done(opened.set_permissions(Permissions::from_mode(FILE_MODE)))?;
    Ok(Some(opened))
}

/// Makes a file and opens it for writing. It makes the folder of its area where that is missing.
fn open_new<R: Files>(
    rt: &R,
    folders: &mut Folders,
    file: File,
    path: &str,
) -> Result<R::File, Reason> {
    folders.change(file.area);
    if let Some(opened) = open_made(rt, path)? {
        return Ok(opened);
    }
    folders.make(rt, file.area)?;
    match open_made(rt, path)? {
        Some(opened) => Ok(opened),
        None => Err(Reason::Found("its folder is gone")),
    }
}

/// Opens the file of the lock for writing. It makes a missing one.
fn open_lock<R: Files>(rt: &R, path: &str) -> Result<R::File, Reason> {
    let is_missing = find(rt, path)?.is_none();
    let mut how = OpenOptions::new();
    how.write(true).create(true).mode(FILE_MODE);
    let opened = done(how.open(rt, path))?;
    if is_missing {
        done(opened.set_permissions(Permissions::from_mode(FILE_MODE)))?;
    }
    Ok(opened)
}

impl<R: LockFiles + Drop> HostDisk<R> {
    /// The disk of the current folder, by this runtime.
    pub fn new(alloc: Global, rt: R) -> Self
        ensures faults { ⟦<HostDisk<R> as Disk>⟧.faults result ≡ 0 }
        ensures refused { ⟦<HostDisk<R> as Disk>⟧.refused result ≡ 0 }
    {
        HostDisk {
            rt,
            faults: 0,
            refused: 0,
            first: None,
            lock: None,
            written: None,
            known: Known::new(alloc),
            folders: Folders::new(),
            lost: false,
        }
    }

    /// How many calls have failed.
    pub fn faults(&self) -> u64
        ensures { result ≡ ⟦<HostDisk<R> as Disk>⟧.faults self.now }
    {
        self.faults
    }

    /// How often it has answered that another program has it.
    pub fn refused(&self) -> u64
        ensures { result ≡ ⟦<HostDisk<R> as Disk>⟧.refused self.now }
    {
        self.refused
    }

    /// The file of the first call that failed, and why it did.
    pub fn first_fault(&self) -> Option<FirstFault> {
        self.first
    }

    /// Counts a fault, and remembers the first.
    fn fail(&mut self, file: Option<File>, reason: Reason) -> Failed
        ensures rose { Rose self.old.faults self.new.faults }
        ensures later { self.old.faults ≤ self.new.faults }
        ensures refused { self.new.refused ≡ self.old.refused }
    {
        if self.first.is_none() {
            self.first = Some(FirstFault { file, reason });
        }
        self.faults = self.faults.saturating_add(1);
        Failed
    }

    /// Takes the lock, and tells whether no other program has it.
    fn take_lock(&mut self) -> Result<bool, Reason>
        ensures faults { self.new.faults ≡ self.old.faults }
        ensures refused { self.new.refused ≡ self.old.refused }
    {
        if self.lock.is_some() {
            return Ok(true);
        }
        self.folders.make_var(&self.rt)?;
        let open = open_lock(&self.rt, LOCK_PATH)?;
        if !done(self.rt.try_lock(&open))? {
            return Ok(false);
        }
        self.lock = Some(open);
        Ok(true)
    }

    /// Takes the lock where this disk has not got it yet: without it no file is read or written.
    fn hold(&mut self) -> Result<(), Reason>
        ensures faults { self.new.faults ≡ self.old.faults }
        ensures refused { self.new.refused ≡ self.old.refused }
    {
        if self.take_lock()? {
            return Ok(());
        }
        Err(Reason::Found("another program has the store"))
    }

    /// What the system knows of a file, where it is there. It fails where the file is not as this
    /// disk has left it, and then bytes are lost.
    fn look(&mut self, file: File) -> Result<Option<Found>, Reason>
        ensures faults { self.new.faults ≡ self.old.faults }
        ensures refused { self.new.refused ≡ self.old.refused }
    {
        self.hold()?;
        let path = FilePath::of(file);
        let found = find(&self.rt, path.as_str())?;
        if let Err(reason) = self.known.judge(file, found) {
            self.lost = true;
            return Err(reason);
        }
        Ok(found)
    }

    /// How many bytes a file has; a missing one has none.
    fn length_of(&mut self, file: File) -> Result<u64, Reason>
        ensures bounded { IfOk result (λ n. n < 2 ^ 63) }
        ensures faults { self.new.faults ≡ self.old.faults }
        ensures refused { self.new.refused ≡ self.old.refused }
    {
        let Some(found) = self.look(file)? else {
            return Ok(0);
        };
        if found.length >= MAX_LENGTH {
            return Err(Reason::Found("it is too long"));
        }
        Ok(found.length)
    }

    fn read_file(&mut self, file: File, at: u64, buf: &mut [u8]) -> Result<usize, Reason>
        ensures count { IfOk result (λ n. n ≤ length buf.old) }
        ensures faults { self.new.faults ≡ self.old.faults }
        ensures refused { self.new.refused ≡ self.old.refused }
    {
        if self.look(file)?.is_none() || at >= MAX_LENGTH {
            return Ok(0);
        }
        let path = FilePath::of(file);
        let mut opened = done(fs::open(&self.rt, path.as_str()))?;
        fill(&mut opened, at, buf)
    }

    /// Closes the file that was written last, and syncs it first where it has to be.
    fn close(&mut self) -> Result<(), Reason>
        ensures faults { self.new.faults ≡ self.old.faults }
        ensures refused { self.new.refused ≡ self.old.refused }
    {
        match self.written.take() {
            Some(written) if written.dirty => sync_open(&written.handle, &mut self.lost),
            _ => Ok(()),
        }
    }

    /// Opens the file for writing, where it is not open yet. It makes a missing one.
    fn open(&mut self, file: File, is_there: bool) -> Result<(), Reason>
        ensures faults { self.new.faults ≡ self.old.faults }
        ensures refused { self.new.refused ≡ self.old.refused }
    {
        if is_of(&self.written, file) {
            return Ok(());
        }
        self.known.make_room()?;
        self.close()?;
        let path = FilePath::of(file);
        let handle = if is_there {
            open_there(&self.rt, path.as_str())?
        } else {
            open_new(&self.rt, &mut self.folders, file, path.as_str())?
        };
        let found = done(handle.metadata())?;
        self.known.keep(file, found_of(&found))?;
        self.written = Some(Written {
            file,
            handle,
            dirty: false,
        });
        Ok(())
    }

    fn write_file(&mut self, file: File, at: u64, bytes: &[u8]) -> Result<(), Reason>
        ensures bounded { OnOk result (at + length bytes.now < 2 ^ 63) }
        ensures faults { self.new.faults ≡ self.old.faults }
        ensures refused { self.new.refused ≡ self.old.refused }
    {
        if at >= MAX_LENGTH || bytes.len() as u64 >= MAX_LENGTH - at {
            return Err(TOO_LONG);
        }
        let found = self.look(file)?;
        if at > found.map_or(0, |found| found.length) {
            return Err(Reason::Found("it ends before the place of a write"));
        }
        self.open(file, found.is_some())?;
        let Some(written) = &mut self.written else {
            return Err(Reason::Found("it is not open"));
        };
        written.dirty = true;
        put(&mut written.handle, at, bytes)?;
        self.known.reach(file, at + bytes.len() as u64);
        Ok(())
    }

    /// Syncs the file, where it is there, and the folders that lead to it, where names in them
    /// changed.
    fn sync_file(&mut self, file: File) -> Result<(), Reason>
        ensures faults { self.new.faults ≡ self.old.faults }
        ensures refused { self.new.refused ≡ self.old.refused }
    {
        if self.lost {
            return Err(Reason::Found("bytes of the store were lost before"));
        }
        self.sync_bytes(file)?;
        self.folders.settle(&self.rt, file.area, &mut self.lost)
    }

    /// Syncs what the file holds, where it is there.
    fn sync_bytes(&mut self, file: File) -> Result<(), Reason>
        ensures faults { self.new.faults ≡ self.old.faults }
        ensures refused { self.new.refused ≡ self.old.refused }
    {
        let found = self.look(file)?;
        if is_of(&self.written, file) {
            return self.sync_written();
        }
        let path = FilePath::of(file);
        match found {
            Some(_) => sync_path(&self.rt, path.as_str(), &mut self.lost),
            None => Ok(()),
        }
    }

    /// Syncs the file that was written last, by the handle that it was written by.
    fn sync_written(&mut self) -> Result<(), Reason>
        ensures faults { self.new.faults ≡ self.old.faults }
        ensures refused { self.new.refused ≡ self.old.refused }
    {
        if let Some(written) = &mut self.written {
            sync_open(&written.handle, &mut self.lost)?;
            written.dirty = false;
        }
        Ok(())
    }

    /// Removes the file. What was written of it is let go only once it is removed.
    fn remove_file(&mut self, file: File) -> Result<(), Reason>
        ensures faults { self.new.faults ≡ self.old.faults }
        ensures refused { self.new.refused ≡ self.old.refused }
    {
        if self.look(file)?.is_none() {
            return Ok(());
        }
        self.folders.change(file.area);
        let path = FilePath::of(file);
        done(fs::remove_file(&self.rt, path.as_str()))?;
        if is_of(&self.written, file) {
            self.written = None;
        }
        self.known.forget(file);
        Ok(())
    }
}

impl<R: LockFiles + Drop> Disk for HostDisk<R> {
    ghost seen = { λ d. None };

    ghost may_leave = { λ d image. ⊥ };

    ghost moment = { λ d. 0 };

    ghost left_since = { λ d t image. ⊥ };

    ghost faults = { λ d. d.faults };

    ghost in_use = { λ d. unknown };

    ghost refused = { λ d. d.refused };

    ghost seen_may_stay = { λ d image is. none_told image is };

    ghost counts_now = { λ d t image le left. left };

    ghost only_now = { λ d image left. left };

    fn lock(&mut self) -> Result<(), LockFault> {
        match self.take_lock() {
            Ok(true) => Ok(()),
            Ok(false) => {
                self.refused = self.refused.saturating_add(1);
                Err(LockFault::InUse)
            }
            Err(reason) => {
                let _ = self.fail(None, reason);
                Err(LockFault::Failed)
            }
        }
    }

    fn length(&mut self, file: File) -> Result<u64, Failed> {
        match self.length_of(file) {
            Ok(length) => Ok(length),
            Err(reason) => Err(self.fail(Some(file), reason)),
        }
    }

    fn read(&mut self, file: File, at: u64, buf: &mut [u8]) -> Result<usize, Failed> {
        match self.read_file(file, at, buf) {
            Ok(count) => Ok(count),
            Err(reason) => Err(self.fail(Some(file), reason)),
        }
    }

    fn write_at(&mut self, file: File, at: u64, bytes: &[u8]) -> Result<(), Failed> {
        match self.write_file(file, at, bytes) {
            Ok(()) => Ok(()),
            Err(reason) => Err(self.fail(Some(file), reason)),
        }
    }

    fn sync(&mut self, file: File) -> Result<(), Failed> {
        match self.sync_file(file) {
            Ok(()) => Ok(()),
            Err(reason) => Err(self.fail(Some(file), reason)),
        }
    }

    fn remove(&mut self, file: File) -> Result<(), Failed> {
        match self.remove_file(file) {
            Ok(()) => Ok(()),
            Err(reason) => Err(self.fail(Some(file), reason)),
        }
    }
}
