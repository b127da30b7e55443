//! The log: reading its bodies, and putting one more.

ghost use Rattle.std.specs.Prelude.{◌≡◌, ◌<◌, ◌≤◌, ◌+◌, ◌^◌, ℕ, List, [], ◌∷◌, ◌++◌, length, true, IfOk, OnOk, OnErr, IsErrOf, take, drop};
ghost use Rattle.std.specs.Prelude.{Some, Err};
ghost use Rattle.ix_base.specs.Faults.{HasCause, Rose};
ghost use Rattle.ix_base.specs.Told.{Told};
ghost use Rattle.ix_disk.specs.Image.{Image, bytes_in, Stays, Apart};
ghost use Rattle.ix_disk.specs.Moments.{ImagesStep, InFile, Holds, Reads};
ghost use Rattle.ix_log.specs.Head.{IsHead, IsWithin};
ghost use Rattle.ix_log.specs.Window.{IsWindowOn};
ghost use Rattle.ix_log.specs.declared.log.BeginFault.TheVariants as begins;
ghost use Rattle.ix_log.specs.declared.log.LogFault.TheVariants as faults;

use crate::head::{Head, head_of};
use crate::window::Window;
use ix_base::{Bytes, Failed, File};
use ix_disk::Disk;
use std::alloc::Global;
use std::mem;
use thiserror::Error;

/// Why no body was read.
#[derive(Clone, Copy, Debug, PartialEq, Eq, Error)]
pub enum LogFault {
    /// The disk has failed.
    #[error("the disk failed")]
    Disk,
    /// The gate at this place is open, and no whole body stands behind it.
    #[error("the log is damaged at byte {at}")]
    Damaged { at: u64 },
    /// There was no room in memory.
    #[error("there was no room in memory")]
    NoMemory,
}

impl From<Failed> for LogFault {
    ghost from_gives = { λ _ e. e ≡ faults.Disk };

    fn from(_: Failed) -> Self {
        LogFault::Disk
    }
}

/// Why no log was begun.
#[derive(Clone, Copy, Debug, PartialEq, Eq, Error)]
pub enum BeginFault {
    /// The disk has failed.
    #[error("the disk failed")]
    Disk,
    /// There was no room in memory.
    #[error("there was no room in memory")]
    NoMemory,
}

impl From<Failed> for BeginFault {
    ghost from_gives = { λ _ e. e ≡ begins.Disk };

    fn from(_: Failed) -> Self {
        BeginFault::Disk
    }
}

/// What stands at a gate behind which so many bytes of the file are left, itself included.
fn head_at<D: Disk>(
    disk: &mut D,
    window: &mut Window,
    file: File,
    at: u64,
    left: u64,
) -> Result<Head, Failed>
    requires { at < 2 ^ 63 }
    ensures head { Reads D.Disk disk.old file (IsWindowOn window.old) → (image : Image) → D.Disk.seen disk.old ≡ Some image →
        left ≡ length (drop at (bytes_in image file)) → 0 < left → IfOk result (λ head. IsHead head (drop at (bytes_in image file))) }
    ensures within { IfOk result (λ head. IsWithin head left) }
    ensures shows { Reads D.Disk disk.old file (IsWindowOn window.old) → OnOk result (Reads D.Disk disk.new file (IsWindowOn window.new)) }
    ensures same { D.Disk.seen disk.new ≡ D.Disk.seen disk.old }
    ensures images { ImagesStep D.Disk disk.old disk.new Stays }
    ensures cause { HasCause (D.Disk.faults disk.old) (D.Disk.faults disk.new) result }
{
    window.reach(disk, file, at, left)?;
    let mut head = [0u8; 5];
    let room = left.min(5) as usize;
    let n = window.read(disk, file, at, &mut head[..room])?;
    Ok(head_of(&head, n, left))
}

/// A log of bodies in a file of a disk. It is mounted, read to its end, and then further bodies are
/// put.
#[derive(Drop)]
pub struct Log {
    file: File,
    /// How many bytes the file had when it was mounted.
    size: u64,
    /// The place of the gate behind the bodies that were read or written.
    at: u64,
    /// How many bytes of the next body were put.
    len: u64,
    /// Whether bytes of the next body were put.
    begun: bool,
    /// Whether a gate stands at the place that is not open.
    closed: bool,
    /// What was read ahead of the file, until the list has ended.
    window: Window,
    ghost in_range: { (at < 2 ^ 63) × (len < 2 ^ 32) × (size < 2 ^ 63) },
}

impl Log {
    ghost use Rattle.ix_log.specs.Log.{OnMore, IsMounted, IsReading, IsUsable, IsBegun, HasBodies, Gated, WithOrWithout, IsAtEnd};
    ghost use Rattle.ix_log.specs.Log.{IsPutting, IsWhole, IsReady, IsCut, HasNoMore, EndsAt, file_of, place_of, put_so_far, blocks};

    /// Settles the file by a sync, and stands before its first body. The bodies are judged by
    /// `next`, so this is never `Damaged`; and it takes no memory.
    pub fn mount<D: Disk>(alloc: Global, disk: &mut D, file: File) -> Result<Log, LogFault>
        ensures reading { IfOk result (λ log. IsReading D.Disk log disk.new []) }
        ensures mounted { IfOk result (λ log. IsMounted D.Disk log disk.new) }
        ensures file { IfOk result (λ log. file_of log ≡ file) }
        ensures counted { IfOk result (λ log. put_so_far log ≡ 0) }
        ensures same { D.Disk.seen disk.new ≡ D.Disk.seen disk.old }
        ensures images { ImagesStep D.Disk disk.old disk.new Stays }
        ensures later { D.Disk.faults disk.old ≤ D.Disk.faults disk.new }
        ensures cause { OnErr result ((result ≡ Err LogFault.Disk) × Rose (D.Disk.faults disk.old) (D.Disk.faults disk.new)) }
    {
        disk.sync(file)?;
        let size = disk.length(file)?;
        Ok(Log {
            file,
            size,
            at: 0,
            len: 0,
            begun: false,
            closed: false,
            window: Window::new(alloc),
        })
    }

    /// Makes the file an empty log, whatever it held: removes it, writes one closed gate, and
    /// syncs. Bytes of a body may be put next. After a fault it is open what the file holds. It
    /// takes no memory.
    pub fn begin<D: Disk>(alloc: Global, disk: &mut D, file: File) -> Result<Log, BeginFault>
        // After Ok the list is empty in every image.
        ensures empty { IfOk result (λ log. IsAtEnd D.Disk log disk.new []) }
        ensures usable { IfOk result (λ log. IsUsable D.Disk log disk.new) }
        ensures file { IfOk result (λ log. file_of log ≡ file) }
        ensures counted { IfOk result (λ log. put_so_far log ≡ 0) }
        // Nothing stands behind the gate.
        ensures alone { IfOk result (λ log. HasNoMore D.Disk log disk.new) }
        // Every image since the start of the call has all other files, and a read of them gives
        // what it gave.
        ensures images { ImagesStep D.Disk disk.old disk.new (Apart file) }
        ensures seen { Told (Apart file) (D.Disk.seen disk.old) (D.Disk.seen disk.new) }
        ensures later { D.Disk.faults disk.old ≤ D.Disk.faults disk.new }
        ensures cause { OnErr result ((result ≡ Err BeginFault.Disk) × Rose (D.Disk.faults disk.old) (D.Disk.faults disk.new)) }
    {
        disk.remove(file)?;
        disk.write_at(file, 0, &[0])?;
        disk.sync(file)?;
        Ok(Log {
            file,
            size: 1,
            at: 0,
            len: 0,
            begun: false,
            closed: true,
            window: Window::new(alloc),
        })
    }

    /// Reads the body of so many bytes at the log's gate into `out`, in place of what stood there.
    fn body<D: Disk>(&self, disk: &mut D, len: u32, out: &mut Bytes) -> Result<(), LogFault>
        ensures read { Reads D.Disk disk.old self.now.file (IsWindowOn self.now.window) → (image : Image) →
            D.Disk.seen disk.old ≡ Some image →
            OnOk result (self.now.at + 5 + len ≤ length (bytes_in image self.now.file) →
            out.new ≡ take len (drop (self.now.at + 5) (bytes_in image self.now.file))) }
        ensures sized { OnOk result (length out.new ≡ len) }
        ensures damaged { Reads D.Disk disk.old self.now.file (IsWindowOn self.now.window) → (image : Image) →
            D.Disk.seen disk.old ≡ Some image →
            (at : ℕ) → result ≡ Err (LogFault.Damaged at) → length (bytes_in image self.now.file) < self.now.at + 5 + len }
        ensures same { D.Disk.seen disk.new ≡ D.Disk.seen disk.old }
        ensures images { ImagesStep D.Disk disk.old disk.new Stays }
        ensures later { D.Disk.faults disk.old ≤ D.Disk.faults disk.new }
        ensures cause { IsErrOf result LogFault.Disk → Rose (D.Disk.faults disk.old) (D.Disk.faults disk.new) }
    {
        let len = len as usize;
        let own = out.empty();
        let mut bytes = mem::replace(out, own).into_vec();
        bytes.clear();
        if bytes.resize(len, 0).is_err() {
            return Err(LogFault::NoMemory);
        }
        let buf = bytes.as_mut_slice();
        let n = self.window.read(disk, self.file, self.at + 5, buf)?;
        if n < len {
            return Err(LogFault::Damaged { at: self.at });
        }
        *out = Bytes::from_vec(bytes);
        Ok(())
    }

    /// Reads the next body into `out`, in place of what stood there, and answers true. At the end
    /// of the list it answers false, and leaves `out` as it was. After a fault it is open what
    /// stands in `out`. It is `Damaged` exactly where an open gate stands, and behind it no whole
    /// body with at least one byte more; `at` is the place of the gate. It takes no more memory
    /// than the body that stands there and a window on what is left of the file, of at most 256
    /// KiB, through which it is read in large pieces. Where there is no room for the window it does
    /// without, and at the end of the list it gives the window back.
    pub fn next<D: Disk>(&mut self, disk: &mut D, out: &mut Bytes) -> Result<bool, LogFault>
        requires { IsMounted D.Disk self.old disk.old }
        ensures mounted { IfOk result (λ more. more ≡ true → IsMounted D.Disk self.new disk.new) }
        ensures usable { IfOk result (λ more. OnMore more (Unit {0}) (IsUsable D.Disk self.new disk.new)) }
        // Where it answers true, the log has read one body more, which stands in `out`; where
        // false, it stands at the end.
        ensures next { (bodies : List (List ℕ)) → IsReading D.Disk self.old disk.old bodies → IfOk result (λ more.
            OnMore more (IsReading D.Disk self.new disk.new (bodies ++ out.new ∷ [])) (IsAtEnd D.Disk self.new disk.new bodies
            × (out.new ≡ out.old))) }
        // No whole body stands behind the open gate at the place that it names.
        ensures damaged { (bodies : List (List ℕ)) → IsReading D.Disk self.old disk.old bodies → (at : ℕ) →
            result ≡ Err (LogFault.Damaged at) →
            (image : Image) → D.Disk.seen disk.old ≡ Some image → (at ≡ length (blocks bodies))
            × IsCut bodies (bytes_in image (file_of self.old)) }
        // For want of memory only where a whole body stands there.
        ensures memory { (bodies : List (List ℕ)) → IsReading D.Disk self.old disk.old bodies → result ≡ Err LogFault.NoMemory →
            (image : Image) → D.Disk.seen disk.old ≡ Some image → IsCut bodies (bytes_in image (file_of self.old)) → ⊥ }
        ensures file { file_of self.new ≡ file_of self.old }
        ensures counted { put_so_far self.new ≡ put_so_far self.old }
        ensures same { D.Disk.seen disk.new ≡ D.Disk.seen disk.old }
        ensures images { ImagesStep D.Disk disk.old disk.new Stays }
        ensures later { D.Disk.faults disk.old ≤ D.Disk.faults disk.new }
        ensures cause { IsErrOf result LogFault.Disk → Rose (D.Disk.faults disk.old) (D.Disk.faults disk.new) }
    {
        if self.size <= 1 {
            return Ok(false);
        }
        let left = self.size.saturating_sub(self.at);
        match head_at(disk, &mut self.window, self.file, self.at, left)? {
            Head::End => {
                self.closed = true;
                self.window.close();
                Ok(false)
            }
            Head::Cut => Err(LogFault::Damaged { at: self.at }),
            Head::Body(len) => {
                self.body(disk, len, out)?;
                self.at += 5 + len as u64;
                Ok(true)
            }
        }
    }

    /// The place of the gate behind the bodies that were read or written: each call that puts a
    /// body writes from there on.
    pub fn place(&self) -> u64
        ensures { result ≡ place_of self.now }
    {
        self.at
    }

    /// Puts a shut gate into a file that has no room for a body yet.
    fn shut<D: Disk>(&mut self, disk: &mut D) -> Result<(), Failed>
        requires { (bodies : List (List ℕ)) × IsAtEnd D.Disk self.old disk.old bodies }
        ensures shut { (bodies : List (List ℕ)) → IsAtEnd D.Disk self.old disk.old bodies →
            OnOk result (IsAtEnd D.Disk self.new disk.new bodies × (self.new.closed ≡ true)) }
        ensures no_more { HasNoMore D.Disk self.old disk.old → OnOk result (HasNoMore D.Disk self.new disk.new) }
        ensures images { (bodies : List (List ℕ)) → IsAtEnd D.Disk self.old disk.old bodies →
            ImagesStep D.Disk disk.old disk.new (InFile (file_of self.old) (HasBodies bodies)) }
        ensures counted { put_so_far self.new ≡ put_so_far self.old }
        ensures file { self.new.file ≡ self.old.file }
        ensures seen { Told (Apart (file_of self.old)) (D.Disk.seen disk.old) (D.Disk.seen disk.new) }
        ensures cause { HasCause (D.Disk.faults disk.old) (D.Disk.faults disk.new) result }
    {
        if self.closed {
            return Ok(());
        }
        let file = self.file;
        disk.write_at(file, self.at, &[0])?;
        disk.sync(file)?;
        self.closed = true;
        Ok(())
    }

    /// Makes room for the length of the next body, whose bytes stand behind it.
    fn start_body<D: Disk>(&mut self, disk: &mut D) -> Result<(), Failed>
        requires { (bodies : List (List ℕ)) × IsAtEnd D.Disk self.old disk.old bodies }
        ensures begun { (bodies : List (List ℕ)) → IsAtEnd D.Disk self.old disk.old bodies →
            OnOk result (IsPutting D.Disk self.new disk.new bodies []) }
        ensures no_more { HasNoMore D.Disk self.old disk.old → OnOk result (HasNoMore D.Disk self.new disk.new) }
        ensures images { (bodies : List (List ℕ)) → IsAtEnd D.Disk self.old disk.old bodies →
            ImagesStep D.Disk disk.old disk.new (InFile (file_of self.old) (HasBodies bodies)) }
        ensures counted { put_so_far self.new ≡ put_so_far self.old }
        ensures file { self.new.file ≡ self.old.file }
        ensures seen { Told (Apart (file_of self.old)) (D.Disk.seen disk.old) (D.Disk.seen disk.new) }
        ensures cause { HasCause (D.Disk.faults disk.old) (D.Disk.faults disk.new) result }
    {
        self.shut(disk)?;
        disk.write_at(self.file, self.at + 1, &[0, 0, 0, 0])?;
        self.begun = true;
        Ok(())
    }

    fn ready<D: Disk>(&mut self, disk: &mut D) -> Result<(), Failed>
        requires { IsUsable D.Disk self.old disk.old }
        ensures begun { (bodies : List (List ℕ)) (body : List ℕ) → IsReady D.Disk self.old disk.old bodies body →
            OnOk result (IsPutting D.Disk self.new disk.new bodies body) }
        ensures no_more { HasNoMore D.Disk self.old disk.old → OnOk result (HasNoMore D.Disk self.new disk.new) }
        ensures images { (bodies : List (List ℕ)) (body : List ℕ) → IsReady D.Disk self.old disk.old bodies body →
            ImagesStep D.Disk disk.old disk.new (InFile (file_of self.old) (HasBodies bodies)) }
        ensures counted { put_so_far self.new ≡ put_so_far self.old }
        ensures file { self.new.file ≡ self.old.file }
        ensures seen { Told (Apart (file_of self.old)) (D.Disk.seen disk.old) (D.Disk.seen disk.new) }
        ensures cause { HasCause (D.Disk.faults disk.old) (D.Disk.faults disk.new) result }
    {
        if self.begun {
            return Ok(());
        }
        self.start_body(disk)?;
        Ok(())
    }

    /// Puts further bytes of the next body. No body counts before `finish`. After `Failed` the log
    /// is not used again.
    pub fn put<D: Disk>(&mut self, disk: &mut D, bytes: &[u8]) -> Result<(), Failed>
        requires usable { IsUsable D.Disk self.old disk.old }
        requires short { put_so_far self.old + length bytes.now < 2 ^ 32 }
        ensures begun { OnOk result (IsBegun D.Disk self.new disk.new) }
        ensures usable_still { OnOk result (IsUsable D.Disk self.new disk.new) }
        ensures counted { OnOk result (put_so_far self.new ≡ put_so_far self.old + length bytes.now) }
        ensures put { (bodies : List (List ℕ)) (body : List ℕ) → IsReady D.Disk self.old disk.old bodies body →
            OnOk result (IsPutting D.Disk self.new disk.new bodies (body ++ bytes.now)) }
        // Where nothing stood behind what was put, nothing does.
        ensures no_more { HasNoMore D.Disk self.old disk.old → OnOk result (HasNoMore D.Disk self.new disk.new) }
        // Every image since the start of the call has the bodies from before, and all other files.
        ensures images { (bodies : List (List ℕ)) (body : List ℕ) → IsReady D.Disk self.old disk.old bodies body →
            ImagesStep D.Disk disk.old disk.new (InFile (file_of self.old) (HasBodies bodies)) }
        ensures file { file_of self.new ≡ file_of self.old }
        ensures seen { Told (Apart (file_of self.old)) (D.Disk.seen disk.old) (D.Disk.seen disk.new) }
        ensures cause { HasCause (D.Disk.faults disk.old) (D.Disk.faults disk.new) result }
    {
        self.ready(disk)?;
        disk.write_at(self.file, self.at + 5 + self.len, bytes)?;
        self.len += bytes.len() as u64;
        Ok(())
    }

    /// Puts the whole block on the disk, but for its gate.
    fn close<D: Disk>(&self, disk: &mut D) -> Result<(), Failed>
        requires { (bodies : List (List ℕ)) × (body : List ℕ) × IsPutting D.Disk self.now disk.old bodies body }
        ensures whole { (bodies : List (List ℕ)) (body : List ℕ) → IsPutting D.Disk self.now disk.old bodies body →
            OnOk result (IsWhole D.Disk self.now disk.new bodies body) }
        ensures no_more { HasNoMore D.Disk self.now disk.old →
            OnOk result (EndsAt D.Disk self.now disk.new (self.now.at + 6 + self.now.len)) }
        ensures images { (bodies : List (List ℕ)) (body : List ℕ) → IsPutting D.Disk self.now disk.old bodies body →
            ImagesStep D.Disk disk.old disk.new (InFile self.now.file (Gated bodies)) }
        ensures bounded { OnOk result (self.now.at + 5 + self.now.len < 2 ^ 63) }
        ensures seen { Told (Apart (file_of self.now)) (D.Disk.seen disk.old) (D.Disk.seen disk.new) }
        ensures cause { HasCause (D.Disk.faults disk.old) (D.Disk.faults disk.new) result }
    {
        let len = (self.len as u32).to_be_bytes();
        disk.write_at(self.file, self.at + 1, &len)?;
        disk.write_at(self.file, self.at + 5 + self.len, &[0])?;
        disk.sync(self.file)?;
        Ok(())
    }

    /// Opens the gate of a block that is on the disk.
    fn open<D: Disk>(&self, disk: &mut D) -> Result<(), Failed>
        requires { (bodies : List (List ℕ)) × (body : List ℕ) × IsWhole D.Disk self.now disk.old bodies body }
        ensures opened { (bodies : List (List ℕ)) (body : List ℕ) → IsWhole D.Disk self.now disk.old bodies body →
            OnOk result (Holds D.Disk disk.new self.now.file (Gated (bodies ++ body ∷ []))) }
        ensures no_more { (end : ℕ) → self.now.at < end → EndsAt D.Disk self.now disk.old end →
            OnOk result (EndsAt D.Disk self.now disk.new end) }
        ensures images { (bodies : List (List ℕ)) (body : List ℕ) → IsWhole D.Disk self.now disk.old bodies body →
            ImagesStep D.Disk disk.old disk.new (InFile self.now.file (WithOrWithout bodies body)) }
        ensures seen { Told (Apart (file_of self.now)) (D.Disk.seen disk.old) (D.Disk.seen disk.new) }
        ensures cause { HasCause (D.Disk.faults disk.old) (D.Disk.faults disk.new) result }
    {
        let log_file = self.file;
        disk.write_at(log_file, self.at, &[1])?;
        disk.sync(log_file)?;
        Ok(())
    }

    /// Makes the body that was put count. After `Failed` the log is not used again.
    pub fn finish<D: Disk>(&mut self, disk: &mut D) -> Result<(), Failed>
        requires { IsBegun D.Disk self.old disk.old }
        ensures usable { OnOk result (IsUsable D.Disk self.new disk.new) }
        ensures counted { OnOk result (put_so_far self.new ≡ 0) }
        ensures finished { (bodies : List (List ℕ)) (body : List ℕ) → IsPutting D.Disk self.old disk.old bodies body →
            OnOk result (IsAtEnd D.Disk self.new disk.new (bodies ++ body ∷ [])) }
        // Where nothing stood behind what was put, nothing stands behind the gate that follows.
        ensures no_more { HasNoMore D.Disk self.old disk.old → OnOk result (HasNoMore D.Disk self.new disk.new) }
        // Every image since the start of the call has the bodies from before, with this one or
        // without, and all other files.
        ensures images { (bodies : List (List ℕ)) (body : List ℕ) → IsPutting D.Disk self.old disk.old bodies body →
            ImagesStep D.Disk disk.old disk.new (InFile (file_of self.old) (WithOrWithout bodies body)) }
        ensures file { file_of self.new ≡ file_of self.old }
        ensures seen { Told (Apart (file_of self.old)) (D.Disk.seen disk.old) (D.Disk.seen disk.new) }
        ensures cause { HasCause (D.Disk.faults disk.old) (D.Disk.faults disk.new) result }
    {
        self.close(disk)?;
        self.open(disk)?;
        self.at += 5 + self.len;
        self.len = 0;
        self.begun = false;
        Ok(())
    }
}
