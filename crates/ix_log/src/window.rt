//! The window of a log that is read: a stretch of its file, read ahead in large pieces. The log
//! reads heads and bodies through it.

ghost use Rattle.std.specs.Prelude.{◌≡◌, ◌≤◌, ◌<◌, ◌+◌, ◌-◌, ◌^◌, ◌++◌, ℕ, List, [], length, take, drop, min, Some, IfOk, OnOk};
ghost use Rattle.ix_base.specs.Faults.{HasCause};
ghost use Rattle.ix_base.specs.Told.{IsFrontOf};
ghost use Rattle.ix_disk.specs.Image.{Image, bytes_in, Stays};
ghost use Rattle.ix_disk.specs.Moments.{ImagesStep, Reads};
ghost use Rattle.ix_log.specs.Window.{IsWindowOn};

use ix_base::{Failed, File};
use ix_disk::Disk;
use std::alloc::Global;

/// How many bytes a window reads at once, where the file has them.
const PIECE: u64 = 256 * 1024;

/// How many bytes it has at hand where a reader asks for them, where the file has them: those of a
/// head.
const HEAD: u64 = 5;

/// A stretch of a file, as a read gave it.
#[derive(Drop)]
pub struct Window {
    /// The place of its first byte.
    start: u64,
    held: Vec<u8>,
}

impl Window {
    /// A window that holds nothing. It takes no memory.
    pub fn new(alloc: Global) -> Window
        ensures { result.held.items ≡ [] }
    {
        Window {
            start: 0,
            held: Vec::new(alloc),
        }
    }

    /// Lets go of what it holds, and gives its memory back.
    pub fn close(&mut self)
        ensures { self.new.held.items ≡ [] }
    {
        self.held = Vec::new(*self.held.allocator());
    }

    /// What it holds from a place on.
    fn ahead(&self, at: u64) -> &[u8]
        ensures { (file : List ℕ) → IsWindowOn self.now file → IsFrontOf result.now (drop at file) }
    {
        if at < self.start || at - self.start >= self.held.len() as u64 {
            return &[];
        }
        &self.held[(at - self.start) as usize..]
    }

    /// Sees that a head's bytes are at hand at a place behind which so many bytes stand, or all of
    /// these if they are fewer: where they are not, it reads a piece from there on. Where there is
    /// no room in memory for that it holds nothing then.
    pub fn reach<D: Disk>(
        &mut self,
        disk: &mut D,
        file: File,
        at: u64,
        left: u64,
    ) -> Result<(), Failed>
        ensures shows { Reads D.Disk disk.old file (IsWindowOn self.old) → OnOk result (Reads D.Disk disk.new file (IsWindowOn self.new)) }
        ensures same { D.Disk.seen disk.new ≡ D.Disk.seen disk.old }
        ensures images { ImagesStep D.Disk disk.old disk.new Stays }
        ensures cause { HasCause (D.Disk.faults disk.old) (D.Disk.faults disk.new) result }
    {
        if self.ahead(at).len() as u64 >= left.min(HEAD) {
            return Ok(());
        }
        self.start = at;
        self.held.clear();
        if self.held.resize(left.min(PIECE) as usize, 0).is_err() {
            return Ok(());
        }
        let n = disk.read(file, at, self.held.as_mut_slice())?;
        self.held.truncate(n);
        Ok(())
    }

    /// Reads as the disk does. What the window holds of it is copied, and only the rest is read
    /// from the disk.
    pub fn read<D: Disk>(
        &self,
        disk: &mut D,
        file: File,
        at: u64,
        buf: &mut [u8],
    ) -> Result<usize, Failed>
        requires { at + length buf.old < 2 ^ 64 }
        ensures count { IfOk result (λ n. n ≤ length buf.old) }
        ensures size { length buf.new ≡ length buf.old }
        ensures bytes { IfOk result (λ n. (image : Image) → D.Disk.seen disk.old ≡ Some image → IsWindowOn self.now (bytes_in image file) →
            (n ≡ min (length buf.old) (length (bytes_in image file) - at))
            × (buf.new ≡ take n (drop at (bytes_in image file)) ++ drop n buf.old)) }
        ensures same { D.Disk.seen disk.new ≡ D.Disk.seen disk.old }
        ensures images { ImagesStep D.Disk disk.old disk.new Stays }
        ensures cause { HasCause (D.Disk.faults disk.old) (D.Disk.faults disk.new) result }
    {
        let ahead = self.ahead(at);
        let n = ahead.len().min(buf.len());
        buf[..n].copy_from_slice(&ahead[..n]);
        if n == buf.len() {
            return Ok(n);
        }
        let more = disk.read(file, at + n as u64, &mut buf[n..])?;
        Ok(n + more)
    }
}
