//! The files of the machine, watched. It counts the calls of the system, fails one of them, and keeps what no sync has put
//! on the disk yet, as a machine would lose it that stops. The tests of the order of calls use it.

use ix_disk::LockFiles;
use std::alloc::{Allocator, Global};
use std::cell::Cell;
use std::fs::{Metadata, OpenFile, OpenOptions, Permissions};
use std::io::{self, Read, Seek, SeekFrom, Write};
use std::rt::Files;

/// The paths that are watched. A path comes behind the folder that it stands in.
const PATHS: [&str; 10] = [
    ".",
    "var",
    "var/lock",
    "var/meta",
    "var/home",
    "var/meta/0",
    "var/meta/1",
    "var/meta/2",
    "var/home/7",
    "var/home/1",
];

/// The place of the folder that each of them stands in. The current folder stands for its own.
const FOLDERS: [usize; 10] = [0, 0, 1, 1, 1, 3, 3, 3, 4, 4];

/// The place of a path.
fn place_of(path: &str) -> usize {
    PATHS.iter().position(|other| *other == path).unwrap_or(0)
}

/// What a machine that stops may lose of a file or a folder.
#[derive(Clone, Copy)]
struct State {
    /// Bytes of the file were changed, or a name was put into the folder, since its last sync.
    changed: bool,
    /// A file was removed from the folder since then. It may come back.
    thinned: bool,
    /// A sync of it failed while it was changed: no later one brings that back.
    lost: bool,
}

/// What is written where a gate of a log is opened.
const OPEN_GATE: &[u8] = &[1];

/// All of it is on the disk.
const SETTLED: State = State {
    changed: false,
    thinned: false,
    lost: false,
};

/// How the call that is due fails.
#[derive(Clone, Copy, PartialEq, Eq)]
pub enum How {
    /// With an error. A write has written a part before.
    Error,
    /// A write writes a part and tells so. Any other call does not fail, and is not counted.
    Short,
}

/// What is known of the calls.
#[derive(Drop)]
pub struct Watch {
    /// The number of the next call.
    calls: Cell<u64>,
    /// The number of the call that fails.
    due: u64,
    how: How,
    states: Cell<[State; 10]>,
    /// How many files were closed with bytes that no sync of the same handle had been tried for.
    forgotten: Cell<u64>,
    /// How often a gate was opened, or a file removed, while something was not on the disk.
    disorders: Cell<u64>,
}

impl Watch {
    pub fn new(due: u64, how: How) -> Self {
        Watch {
            calls: Cell::new(0),
            due,
            how,
            states: Cell::new([SETTLED; 10]),
            forgotten: Cell::new(0),
            disorders: Cell::new(0),
        }
    }

    /// How many calls there were.
    pub fn calls(&self) -> u64 {
        self.calls.get()
    }

    /// Whether a call has failed with an error.
    pub fn is_failed(&self) -> bool {
        self.how == How::Error && self.calls.get() > self.due
    }

    /// How many files were closed with bytes that no sync had been tried for.
    pub fn forgotten(&self) -> u64 {
        self.forgotten.get()
    }

    /// How often a gate was opened, or a file removed, while something was not on the disk.
    pub fn disorders(&self) -> u64 {
        self.disorders.get()
    }

    /// Whether a machine that stops now leaves all as it is, but that files which were removed may be back.
    pub fn is_all_settled(&self) -> bool {
        let states = self.states.get();
        !states.iter().any(|state| state.changed || state.lost)
    }

    /// A gate is opened, or a file removed.
    fn alter(&self) {
        if !self.is_all_settled() {
            self.disorders.set(self.disorders.get().saturating_add(1));
        }
    }

    /// Whether a machine that stops now leaves the file of this path as it is, or as missing as it is.
    pub fn is_settled(&self, path: &str) -> bool {
        let states = self.states.get();
        let mut place = place_of(path);
        for _ in 0..4 {
            let Some(state) = states.get(place) else {
                return false;
            };
            if state.changed || state.thinned || state.lost {
                return false;
            }
            place = FOLDERS.get(place).copied().unwrap_or(0);
        }
        true
    }

    /// Counts a call, and tells whether it is due to fail.
    fn is_due(&self) -> bool {
        let number = self.calls.get();
        self.calls.set(number.saturating_add(1));
        number == self.due
    }

    /// Counts a call that is no write, where one may fail.
    fn begin(&self) -> io::Result<()> {
        if self.how == How::Error && self.is_due() {
            return Err(io::Error::from_raw_os_error(5));
        }
        Ok(())
    }

    fn set(&self, place: usize, state: State) {
        let mut states = self.states.get();
        if let Some(kept) = states.get_mut(place) {
            *kept = state;
        }
        self.states.set(states);
    }

    fn state_of(&self, place: usize) -> State {
        self.states.get().get(place).copied().unwrap_or(SETTLED)
    }

    /// Something was changed in the file, or put into the folder, of this place.
    fn change(&self, place: usize) {
        let mut state = self.state_of(place);
        state.changed = true;
        self.set(place, state);
    }

    /// A name was put into the folder of this path.
    fn change_above(&self, path: &str) {
        let place = place_of(path);
        self.change(FOLDERS.get(place).copied().unwrap_or(0));
    }

    /// The file of this path was removed.
    fn remove(&self, path: &str) {
        let place = place_of(path);
        self.set(place, SETTLED);
        let folder = FOLDERS.get(place).copied().unwrap_or(0);
        let mut state = self.state_of(folder);
        state.thinned = true;
        self.set(folder, state);
    }

    /// A sync of this place was tried.
    fn settle(&self, place: usize, done: bool) {
        let state = self.state_of(place);
        let mut settled = SETTLED;
        settled.lost = state.lost || ((state.changed || state.thinned) && !done);
        self.set(place, settled);
    }
}

/// An open file or folder that is watched.
pub struct Watched<'a, F: Drop> {
    inner: F,
    watch: &'a Watch,
    place: usize,
    /// Something was written by this handle since a sync of it was tried last.
    wrote: Cell<bool>,
}

impl<'a, F: Drop> Drop for Watched<'a, F> {
    fn drop(self) {
        let Watched {
            inner: _,
            watch,
            place,
            wrote,
        } = self;
        let changed = watch
            .states
            .get()
            .get(place)
            .map_or(false, |state| state.changed);
        if wrote.get() && changed {
            watch.forgotten.set(watch.forgotten.get().saturating_add(1));
        }
    }
}

impl<'a, F: Read + Drop> Read for Watched<'a, F> {
    fn read(&mut self, buf: &mut [u8]) -> io::Result<usize> {
        self.watch.begin()?;
        self.inner.read(buf)
    }
}

impl<'a, F: Write + Drop> Write for Watched<'a, F> {
    fn write(&mut self, buf: &[u8]) -> io::Result<usize> {
        if buf == OPEN_GATE {
            self.watch.alter();
        }
        let due = self.watch.is_due();
        self.watch.change(self.place);
        self.wrote.set(true);
        if !due {
            return self.inner.write(buf);
        }
        let (part, _) = buf.split_at(buf.len() / 2 + buf.len() % 2);
        let count = self.inner.write(part)?;
        match self.watch.how {
            How::Short => Ok(count),
            How::Error => Err(io::Error::from_raw_os_error(28)),
        }
    }

    fn flush(&mut self) -> io::Result<()> {
        self.inner.flush()
    }
}

impl<'a, F: Seek + Drop> Seek for Watched<'a, F> {
    fn seek(&mut self, to: SeekFrom) -> io::Result<u64> {
        self.watch.begin()?;
        self.inner.seek(to)
    }
}

impl<'a, F: OpenFile + Drop> OpenFile for Watched<'a, F> {
    fn metadata(&self) -> io::Result<Metadata> {
        self.watch.begin()?;
        self.inner.metadata()
    }

    fn set_len(&self, size: u64) -> io::Result<()> {
        self.inner.set_len(size)
    }

    fn sync_all(&self) -> io::Result<()> {
        let begun = self.watch.begin();
        self.wrote.set(false);
        self.watch.settle(self.place, begun.is_ok());
        begun
    }

    fn sync_data(&self) -> io::Result<()> {
        self.inner.sync_data()
    }

    fn set_permissions(&self, perm: Permissions) -> io::Result<()> {
        self.watch.begin()?;
        self.inner.set_permissions(perm)
    }
}

/// The files of the machine below one folder, watched.
pub struct Watching<'a, R: LockFiles + Drop> {
    pub rt: R,
    pub alloc: Global,
    /// The folder, with a slash at its end.
    pub top: &'a str,
    pub watch: &'a Watch,
}

impl<'a, R: LockFiles + Drop> Drop for Watching<'a, R> {
    fn drop(self) {
        let Watching {
            rt: _,
            alloc: _,
            top: _,
            watch: _,
        } = self;
    }
}

impl<'a, R: LockFiles + Drop> Watching<'a, R> {
    /// The path of the machine.
    fn whole(&self, path: &str) -> io::Result<String> {
        let mut whole = String::from_str(self.alloc, self.top)?;
        whole.push_str(path)?;
        Ok(whole)
    }
}

impl<'a, R: LockFiles + Drop> Files for Watching<'a, R> {
    type File = Watched<'a, R::File>;

    type Dir = R::Dir;

    fn open_file(&self, how: &OpenOptions, path: &str) -> io::Result<Watched<'a, R::File>> {
        self.watch.begin()?;
        let whole = self.whole(path)?;
        let is_new = how.asks_create() && self.rt.metadata(whole.as_str()).is_err();
        let inner = self.rt.open_file(how, whole.as_str())?;
        if how.asks_create_new() || is_new {
            self.watch.change_above(path);
        }
        Ok(Watched {
            inner,
            watch: self.watch,
            place: place_of(path),
            wrote: Cell::new(false),
        })
    }

    fn open_dir(&self, path: &str) -> io::Result<R::Dir> {
        self.rt.open_dir(path)
    }

    fn metadata(&self, path: &str) -> io::Result<Metadata> {
        self.watch.begin()?;
        self.rt.metadata(self.whole(path)?.as_str())
    }

    fn symlink_metadata(&self, path: &str) -> io::Result<Metadata> {
        self.rt.symlink_metadata(path)
    }

    fn copy(&self, from: &str, to: &str) -> io::Result<u64> {
        self.rt.copy(from, to)
    }

    fn rename(&self, from: &str, to: &str) -> io::Result<()> {
        self.rt.rename(from, to)
    }

    fn remove_file(&self, path: &str) -> io::Result<()> {
        self.watch.begin()?;
        self.watch.alter();
        self.rt.remove_file(self.whole(path)?.as_str())?;
        self.watch.remove(path);
        Ok(())
    }

    fn create_dir(&self, path: &str) -> io::Result<()> {
        self.rt.create_dir(path)
    }

    fn remove_dir(&self, path: &str) -> io::Result<()> {
        self.rt.remove_dir(path)
    }

    fn remove_dir_all<B: Allocator>(&self, alloc: B, path: &str) -> io::Result<()> {
        self.rt.remove_dir_all(alloc, path)
    }

    fn set_permissions(&self, path: &str, perm: Permissions) -> io::Result<()> {
        self.watch.begin()?;
        self.rt.set_permissions(self.whole(path)?.as_str(), perm)
    }

    fn create_dir_with_mode(&self, path: &str, mode: u32) -> io::Result<()> {
        self.watch.begin()?;
        self.rt
            .create_dir_with_mode(self.whole(path)?.as_str(), mode)?;
        self.watch.change_above(path);
        Ok(())
    }
}

impl<'a, R: LockFiles + Drop> LockFiles for Watching<'a, R> {
    fn try_lock(&self, open: &Watched<'a, R::File>) -> io::Result<bool> {
        self.watch.begin()?;
        self.rt.try_lock(&open.inner)
    }
}
