//! What the disk of the machine has written, to tell a file that was cut, replaced or removed
//! behind its back. `HostDisk` keeps it.

ghost use Rattle.std.specs.Prelude.{vec_len};
ghost use Rattle.std.specs.List.Sorted.{IsSearchInRange};

use crate::folders::number_of;
use crate::machine::Reason;
use ix_base::File;
use std::alloc::Global;

/// What the system knows of a plain file.
#[derive(Clone, Copy)]
pub struct Found {
    pub length: u64,
    /// The device and the number by which the system knows it.
    pub node: (u64, u64),
}

/// A file that was written, and how long it was then at least.
#[derive(Clone, Copy)]
struct Mark {
    file: File,
    written: Found,
}

/// Every file that was written and not removed since, in the order of areas and numbers.
#[derive(Drop)]
pub struct Known {
    marks: Vec<Mark>,
}

const NO_ROOM: Reason = Reason::Found("there was no room in memory");

/// What files are ordered by.
fn key_of(file: File) -> (usize, u64) {
    (number_of(file.area), file.number)
}

impl Known {
    pub fn new(alloc: Global) -> Self {
        Known {
            marks: Vec::new(alloc),
        }
    }

    /// The place of a file's mark, or the one where it would be put.
    fn place_of(&self, file: File) -> Result<usize, usize>
        ensures { IsSearchInRange result (vec_len self.now.marks) }
    {
        self.marks
            .binary_search_by_key(&key_of(file), |mark| key_of(mark.file))
    }

    /// Whether what the system knows of the file now is what was left of it. It fails where not.
    pub fn judge(&self, file: File, found: Option<Found>) -> Result<(), Reason> {
        let Ok(place) = self.place_of(file) else {
            return Ok(());
        };
        let written = self.marks[place].written;
        match found {
            None => Err(Reason::Found("it is gone")),
            Some(found) if found.node != written.node => {
                Err(Reason::Found("another file is in its place"))
            }
            Some(found) if found.length < written.length => Err(Reason::Found("it was cut")),
            Some(_) => Ok(()),
        }
    }

    /// Makes room for one more file, so that the next one is kept without memory. It fails where
    /// memory lacks.
    pub fn make_room(&mut self) -> Result<(), Reason> {
        match self.marks.reserve(1) {
            Ok(()) => Ok(()),
            Err(_) => Err(NO_ROOM),
        }
    }

    /// Remembers a file as it is now. It fails where no room was made for it and memory lacks.
    pub fn keep(&mut self, file: File, written: Found) -> Result<(), Reason> {
        let mark = Mark { file, written };
        match self.place_of(file) {
            Ok(place) => self.marks[place] = mark,
            Err(place) => {
                if self.marks.insert(place, mark).is_err() {
                    return Err(NO_ROOM);
                }
            }
        }
        Ok(())
    }

    /// Remembers nothing of a file.
    pub fn forget(&mut self, file: File) {
        if let Ok(place) = self.place_of(file) {
            let _ = self.marks.remove(place);
        }
    }

    /// The file was written up to this place.
    pub fn reach(&mut self, file: File, end: u64) {
        if let Ok(place) = self.place_of(file) {
            let written = &mut self.marks[place].written;
            written.length = written.length.max(end);
        }
    }
}
