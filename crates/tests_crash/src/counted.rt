//! A disk that counts what is asked of it.

ghost use Rattle.std.specs.Prelude.{◌≡◌, ◌≤◌, ◌<◌, ◌+◌, ◌-◌, ◌^◌, ◌++◌, length, take, drop, min, Some, IfOk, OnOk, OnErr};
ghost use Rattle.ix_base.specs.Faults.{HasCause};
ghost use Rattle.ix_base.specs.Told.{Told};
ghost use Rattle.ix_disk.specs.Locks.{KeepsLock};
ghost use Rattle.ix_disk.specs.Image.{Image, bytes_in, MayWrite, Writes, MayRemove, Removes, Stays, Passes};

use ix_base::{Area, Failed, File};
use ix_disk::{Disk, LockFault};

/// A disk, with how often it was asked, and how often for a sync of a log and of another file.
#[derive(Drop)]
pub struct Counted<D: Disk + Drop> {
    pub inner: D,
    pub calls: u64,
    pub meta: u64,
    pub other: u64,
}

impl<D: Disk + Drop> Counted<D> {
    pub fn new(inner: D) -> Self {
        Counted {
            inner,
            calls: 0,
            meta: 0,
            other: 0,
        }
    }
}

impl<D: Disk + Drop> Disk for Counted<D> {
    ghost seen = { λ d. D.Disk.seen d.inner };

    ghost may_leave = { λ d. D.Disk.may_leave d.inner };

    ghost moment = { λ d. D.Disk.moment d.inner };

    ghost left_since = { λ d. D.Disk.left_since d.inner };

    ghost faults = { λ d. D.Disk.faults d.inner };

    ghost in_use = { λ d. D.Disk.in_use d.inner };

    ghost refused = { λ d. D.Disk.refused d.inner };

    ghost seen_may_stay = { λ d image is. D.Disk.seen_may_stay d.inner image is };

    ghost counts_now = { λ d t image le left. D.Disk.counts_now d.inner t image le left };

    ghost only_now = { λ d image left. D.Disk.only_now d.inner image left };

    fn lock(&mut self) -> Result<(), LockFault> {
        self.inner.lock()
    }

    fn length(&mut self, file: File) -> Result<u64, Failed>
        ensures length { IfOk result (λ n. (image : Image) → D.Disk.seen self.old.inner ≡ Some image → n ≡ length (bytes_in image file)) }
        ensures bounded { IfOk result (λ n. n < 2 ^ 63) }
        ensures same { D.Disk.seen self.new.inner ≡ D.Disk.seen self.old.inner }
        ensures images { Passes D.Disk.may_leave D.Disk.moment D.Disk.left_since self.old.inner self.new.inner Stays }
        ensures cause { HasCause (D.Disk.faults self.old.inner) (D.Disk.faults self.new.inner) result }
        ensures lock { KeepsLock (D.Disk.in_use self.old.inner) (D.Disk.in_use self.new.inner) (D.Disk.refused self.old.inner)
            (D.Disk.refused self.new.inner) }
    {
        self.calls = self.calls.saturating_add(1);
        self.inner.length(file)
    }

    fn read(&mut self, file: File, at: u64, buf: &mut [u8]) -> Result<usize, Failed>
        ensures count { IfOk result (λ n. n ≤ length buf.old) }
        ensures bytes { IfOk result (λ n. (image : Image) → D.Disk.seen self.old.inner ≡ Some image →
            (n ≡ min (length buf.old) (length (bytes_in image file) - at))
            × (buf.new ≡ take n (drop at (bytes_in image file)) ++ drop n buf.old)) }
        ensures same { D.Disk.seen self.new.inner ≡ D.Disk.seen self.old.inner }
        ensures images { Passes D.Disk.may_leave D.Disk.moment D.Disk.left_since self.old.inner self.new.inner Stays }
        ensures cause { HasCause (D.Disk.faults self.old.inner) (D.Disk.faults self.new.inner) result }
        ensures lock { KeepsLock (D.Disk.in_use self.old.inner) (D.Disk.in_use self.new.inner) (D.Disk.refused self.old.inner)
            (D.Disk.refused self.new.inner) }
    {
        self.calls = self.calls.saturating_add(1);
        self.inner.read(file, at, buf)
    }

    fn write_at(&mut self, file: File, at: u64, bytes: &[u8]) -> Result<(), Failed>
        requires { (image : Image) → D.Disk.seen self.old.inner ≡ Some image → at ≤ length (bytes_in image file) }
        ensures written { OnOk result (Told (Writes file at bytes.now) (D.Disk.seen self.old.inner) (D.Disk.seen self.new.inner)) }
        ensures begun { OnErr result (Told (MayWrite file at (length bytes.now)) (D.Disk.seen self.old.inner) (D.Disk.seen self.new.inner)) }
        ensures bounded { OnOk result (at + length bytes.now < 2 ^ 63) }
        ensures images { Passes D.Disk.may_leave D.Disk.moment D.Disk.left_since self.old.inner self.new.inner
            (MayWrite file at (length bytes.now)) }
        ensures cause { HasCause (D.Disk.faults self.old.inner) (D.Disk.faults self.new.inner) result }
        ensures lock { KeepsLock (D.Disk.in_use self.old.inner) (D.Disk.in_use self.new.inner) (D.Disk.refused self.old.inner)
            (D.Disk.refused self.new.inner) }
    {
        self.calls = self.calls.saturating_add(1);
        self.inner.write_at(file, at, bytes)
    }

    fn sync(&mut self, file: File) -> Result<(), Failed>
        ensures settled { OnOk result ((image : Image) → D.Disk.may_leave self.new.inner image → (read : Image)
            × (D.Disk.seen self.new.inner ≡ Some read) × (image file ≡ read file)) }
        ensures same { D.Disk.seen self.new.inner ≡ D.Disk.seen self.old.inner }
        ensures images { Passes D.Disk.may_leave D.Disk.moment D.Disk.left_since self.old.inner self.new.inner Stays }
        ensures cause { HasCause (D.Disk.faults self.old.inner) (D.Disk.faults self.new.inner) result }
        ensures lock { KeepsLock (D.Disk.in_use self.old.inner) (D.Disk.in_use self.new.inner) (D.Disk.refused self.old.inner)
            (D.Disk.refused self.new.inner) }
    {
        self.calls = self.calls.saturating_add(1);
        if file.area == Area::Meta {
            self.meta = self.meta.saturating_add(1);
        } else {
            self.other = self.other.saturating_add(1);
        }
        self.inner.sync(file)
    }

    fn remove(&mut self, file: File) -> Result<(), Failed>
        ensures removed { OnOk result (Told (Removes file) (D.Disk.seen self.old.inner) (D.Disk.seen self.new.inner)) }
        ensures begun { OnErr result (Told (MayRemove file) (D.Disk.seen self.old.inner) (D.Disk.seen self.new.inner)) }
        ensures images { Passes D.Disk.may_leave D.Disk.moment D.Disk.left_since self.old.inner self.new.inner (MayRemove file) }
        ensures cause { HasCause (D.Disk.faults self.old.inner) (D.Disk.faults self.new.inner) result }
        ensures lock { KeepsLock (D.Disk.in_use self.old.inner) (D.Disk.in_use self.new.inner) (D.Disk.refused self.old.inner)
            (D.Disk.refused self.new.inner) }
    {
        self.calls = self.calls.saturating_add(1);
        self.inner.remove(file)
    }
}
