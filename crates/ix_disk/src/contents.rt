//! The files of a disk in memory, as a read gives them and as the worst crash leaves them.

ghost use Rattle.std.specs.Prelude.{◌≡◌, ◌≤◌, ◌<◌, [], length, Some, None, OnOk, OnErr, IfOk, IfSome, IfNone, position};
ghost use Rattle.ix_disk.specs.Files.{is_same};
ghost use Rattle.ix_disk.specs.Contents.{seen_of, torn_of, left_of, find, present, torn_in, IsFirst, IsAbsent, changed, over, ones_in};
ghost use Rattle.ix_disk.specs.Contents.{become};
ghost use Rattle.ix_disk.specs.Image.{content, bytes_in};

use crate::held::Held;
use ix_base::{File, NoMemory};
use std::alloc::Global;

/// Files with their bytes. One that is not among them is missing.
pub struct Contents {
    alloc: Global,
    files: Vec<Held>,
}

/// It is written out, so that each place where one is let go is a call of it, which is proved once.
impl Drop for Contents {
    fn drop(self) {
        let Contents { alloc: _, files: _ } = self;
    }
}

/// Whether the two are one file.
pub fn is_same_file(a: File, b: File) -> bool
    ensures { result ≡ is_same a b }
{
    a.area as u8 == b.area as u8 && a.number == b.number
}

/// The first place of the file in a list.
fn first_place(files: &[Held], file: File) -> Option<usize>
    ensures { result ≡ position (λ held. is_same file held.file) files.now }
{
    files.iter().position(|held| is_same_file(file, held.file))
}

impl Contents {
    /// No files. It takes no memory.
    pub fn new(alloc: Global) -> Self
        ensures { result.files.items ≡ [] }
    {
        Contents {
            alloc,
            files: Vec::new(alloc),
        }
    }

    /// New files as a crash leaves these where it tears them, or else as a read gives them. A crash
    /// of the new ones leaves what a read of them gives.
    pub fn left(&self, torn: bool) -> Result<Self, NoMemory>
        ensures seen { IfOk result (λ left. (f : File) → present left.files.items f ≡ find (left_of torn) self.now.files.items f) }
        ensures torn { IfOk result (λ left. (f : File) → torn_in left.files.items f ≡ find (left_of torn) self.now.files.items f) }
    {
        let mut files = Vec::new(self.alloc);
        for held in &self.files {
            let bytes = held.left(self.alloc, torn)?;
            files.push(Held::settled(self.alloc, held.file, bytes))?;
        }
        Ok(Contents {
            alloc: self.alloc,
            files,
        })
    }

    /// The place of the file in the list.
    fn place(&self, file: File) -> Option<usize>
        ensures within { IfSome result (λ i. i < length self.now.files.items) }
        ensures found { IfSome result (λ i. IsFirst self.now.files.items file i) }
        ensures missing { IfNone result (IsAbsent self.now.files.items file) }
    {
        first_place(&self.files, file)
    }

    /// The place of the file in the list. It is put there as a missing one where it is not in it.
    fn place_made(&mut self, file: File) -> Result<usize, NoMemory>
        ensures within { IfOk result (λ i. i < length self.new.files.items) }
        ensures found { IfOk result (λ i. IsFirst self.new.files.items file i) }
        ensures seen { (f : File) → present self.new.files.items f ≡ present self.old.files.items f }
        ensures torn { (f : File) → torn_in self.new.files.items f ≡ torn_in self.old.files.items f }
    {
        if let Some(place) = self.place(file) {
            return Ok(place);
        }
        let place = self.files.len();
        self.files.push(Held::missing(file))?;
        Ok(place)
    }

    /// The bytes of the file; a missing one has none.
    pub fn bytes(&self, file: File) -> &[u8]
        ensures { result.now ≡ bytes_in (present self.now.files.items) file }
    {
        let Some(place) = self.place(file) else {
            return &[];
        };
        self.files[place].bytes()
    }

    /// Writes bytes over those of the file, and past its end. It makes a missing file. The worst
    /// crash leaves 1 for each of them, as far as it leaves any.
    pub fn write(&mut self, file: File, at: usize, bytes: &[u8]) -> Result<(), NoMemory>
        requires { at ≤ length (bytes_in (present self.old.files.items) file) }
        ensures seen { OnOk result ((f : File) → present self.new.files.items f ≡ changed file (over at bytes.now) f
            (present self.old.files.items f)) }
        ensures torn { OnOk result ((f : File) → torn_in self.new.files.items f ≡ changed file (ones_in at (length bytes.now)) f
            (torn_in self.old.files.items f)) }
        ensures same_seen { OnErr result ((f : File) → present self.new.files.items f ≡ present self.old.files.items f) }
        ensures same_torn { OnErr result ((f : File) → torn_in self.new.files.items f ≡ torn_in self.old.files.items f) }
    {
        let place = self.place_made(file)?;
        self.files[place].write(self.alloc, at, bytes)?;
        Ok(())
    }

    /// Sets bytes to 1 of what the worst crash leaves of the file, as far as it goes.
    pub fn mark(&mut self, file: File, at: usize, count: usize) -> Result<(), NoMemory>
        ensures seen { (f : File) → present self.new.files.items f ≡ present self.old.files.items f }
        ensures torn { OnOk result ((f : File) → torn_in self.new.files.items f ≡ changed file (ones_in at count) f
            (torn_in self.old.files.items f)) }
        ensures same_torn { OnErr result ((f : File) → torn_in self.new.files.items f ≡ torn_in self.old.files.items f) }
    {
        let Some(place) = self.place(file) else {
            return Ok(());
        };
        self.files[place].mark(self.alloc, at, count)?;
        Ok(())
    }

    /// From now on a crash leaves of the file what a read gives.
    pub fn settle(&mut self, file: File)
        ensures seen { (f : File) → present self.new.files.items f ≡ present self.old.files.items f }
        ensures torn { (f : File) → torn_in self.new.files.items f ≡ changed file (become (present self.old.files.items file)) f
            (torn_in self.old.files.items f) }
    {
        let Some(place) = self.place(file) else {
            return;
        };
        self.files[place].settle(self.alloc);
    }

    /// Removes the file. The worst crash brings it back.
    pub fn remove(&mut self, file: File) -> Result<(), NoMemory>
        ensures seen { OnOk result ((f : File) → present self.new.files.items f ≡ changed file (become None) f
            (present self.old.files.items f)) }
        ensures same_seen { OnErr result ((f : File) → present self.new.files.items f ≡ present self.old.files.items f) }
        ensures torn { (f : File) → torn_in self.new.files.items f ≡ torn_in self.old.files.items f }
    {
        let Some(place) = self.place(file) else {
            return Ok(());
        };
        self.files[place].remove(self.alloc)?;
        Ok(())
    }
}
