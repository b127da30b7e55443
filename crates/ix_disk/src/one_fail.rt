//! A disk that fails once.

ghost use Rattle.std.specs.Prelude.{◌≡◌, ◌≢◌, ◌≤◌, ◌<◌, ◌+◌, ◌-◌, ◌^◌, ◌++◌, length, take, drop, min, true, false, Option, Some, None};
ghost use Rattle.std.specs.Prelude.{IfOk, OnOk, OnErr, IsErrOf};
ghost use Rattle.ix_base.specs.Faults.{HasCause};
ghost use Rattle.ix_base.specs.Told.{Told};
ghost use Rattle.ix_disk.specs.Image.{Image, bytes_in, MayWrite, Writes, MayRemove, Removes, Stays, Passes};
ghost use Rattle.ix_disk.specs.Locks.{unknown, KeepsLock, HasLockCause, LockFailsOne};
ghost use Rattle.ix_disk.specs.Stops.{FailsOne, calls_before};
ghost use Rattle.ix_disk.specs.declared.disk.LockFault.TheVariants.{InUse};

use crate::{Disk, LockFault};
use ix_base::{Failed, File};

/// A disk that fails the one call with a given number, of those from 0 on, and passes each other on
/// to the disk inside. What it tells is what the disk inside tells: the call that it fails does not
/// reach that one.
#[derive(Drop)]
pub struct OneFail<D: Disk + Drop> {
    /// The disk inside.
    pub inner: D,
    /// How many calls come before the one that fails, until that has come.
    pub before: Option<u64>,
    /// How many calls it failed by itself.
    pub faults: u64,
}

impl<D: Disk + Drop> OneFail<D> {
    /// A disk that fails the call with this number.
    pub fn new(inner: D, number: u64) -> Self
        ensures inner { result.inner ≡ inner }
        ensures before { result.before ≡ Some number }
        ensures faults { result.faults ≡ 0 }
    {
        OneFail {
            inner,
            before: Some(number),
            faults: 0,
        }
    }

    /// The disk inside.
    pub fn into_inner(self) -> D
        ensures { result ≡ self.inner }
    {
        self.inner
    }
}

/// Counts a call, which fails where it is the one.
fn pass(before: &mut Option<u64>, faults: &mut u64) -> Result<(), Failed>
    ensures counted { before.new ≡ calls_before before.old }
    ensures passed { OnOk result ((before.old ≢ Some 0) × (faults.new ≡ faults.old)) }
    ensures failed { OnErr result (before.old ≡ Some 0) }
    ensures cause { HasCause faults.old faults.new result }
{
    match *before {
        None => Ok(()),
        Some(0) => {
            *before = None;
            *faults = faults.saturating_add(1);
            Err(Failed)
        }
        Some(n) => {
            *before = Some(n - 1);
            Ok(())
        }
    }
}

impl<D: Disk + Drop> Disk for OneFail<D> {
    ghost seen = { λ d. D.Disk.seen d.inner };

    ghost may_leave = { λ d. D.Disk.may_leave d.inner };

    ghost moment = { λ d. D.Disk.moment d.inner };

    ghost left_since = { λ d. D.Disk.left_since d.inner };

    ghost faults = { λ d. D.Disk.faults d.inner + d.faults };

    ghost in_use = { λ d. unknown };

    ghost refused = { λ d. D.Disk.refused d.inner };

    ghost seen_may_stay = { λ d image is. D.Disk.seen_may_stay d.inner image is };

    ghost counts_now = { λ d t image le left. D.Disk.counts_now d.inner t image le left };

    ghost only_now = { λ d image left. D.Disk.only_now d.inner image left };

    fn lock(&mut self) -> Result<(), LockFault>
        ensures taken { unknown ≡ Some true → IsErrOf result InUse }
        ensures free { IsErrOf result InUse → unknown ≢ Some false }
        ensures use_stays { unknown ≡ unknown }
        ensures same { D.Disk.seen self.new.inner ≡ D.Disk.seen self.old.inner }
        ensures images { Passes D.Disk.may_leave D.Disk.moment D.Disk.left_since self.old.inner self.new.inner Stays }
        ensures cause { HasLockCause (D.Disk.faults self.old.inner + self.old.faults) (D.Disk.faults self.new.inner + self.new.faults)
            (D.Disk.refused self.old.inner) (D.Disk.refused self.new.inner) result }
        ensures fails { LockFailsOne D.Disk.faults D.Disk.refused self.old.before self.new.before self.old.inner self.new.inner result }
    {
        pass(&mut self.before, &mut self.faults)?;
        self.inner.lock()
    }

    fn length(&mut self, file: File) -> Result<u64, Failed>
        ensures length { IfOk result (λ n. (image : Image) → D.Disk.seen self.old.inner ≡ Some image → n ≡ length (bytes_in image file)) }
        ensures bounded { IfOk result (λ n. n < 2 ^ 63) }
        ensures same { D.Disk.seen self.new.inner ≡ D.Disk.seen self.old.inner }
        ensures images { Passes D.Disk.may_leave D.Disk.moment D.Disk.left_since self.old.inner self.new.inner Stays }
        ensures cause { HasCause (D.Disk.faults self.old.inner + self.old.faults) (D.Disk.faults self.new.inner + self.new.faults) result }
        ensures lock { KeepsLock unknown unknown (D.Disk.refused self.old.inner) (D.Disk.refused self.new.inner) }
        ensures fails { FailsOne D.Disk.faults self.old.before self.new.before self.old.inner self.new.inner result }
    {
        pass(&mut self.before, &mut self.faults)?;
        self.inner.length(file)
    }

    fn read(&mut self, file: File, at: u64, buf: &mut [u8]) -> Result<usize, Failed>
        ensures count { IfOk result (λ n. n ≤ length buf.old) }
        ensures bytes { IfOk result (λ n. (image : Image) → D.Disk.seen self.old.inner ≡ Some image →
            (n ≡ min (length buf.old) (length (bytes_in image file) - at))
            × (buf.new ≡ take n (drop at (bytes_in image file)) ++ drop n buf.old)) }
        ensures same { D.Disk.seen self.new.inner ≡ D.Disk.seen self.old.inner }
        ensures images { Passes D.Disk.may_leave D.Disk.moment D.Disk.left_since self.old.inner self.new.inner Stays }
        ensures cause { HasCause (D.Disk.faults self.old.inner + self.old.faults) (D.Disk.faults self.new.inner + self.new.faults) result }
        ensures lock { KeepsLock unknown unknown (D.Disk.refused self.old.inner) (D.Disk.refused self.new.inner) }
        ensures fails { FailsOne D.Disk.faults self.old.before self.new.before self.old.inner self.new.inner result }
    {
        pass(&mut self.before, &mut self.faults)?;
        self.inner.read(file, at, buf)
    }

    fn write_at(&mut self, file: File, at: u64, bytes: &[u8]) -> Result<(), Failed>
        requires { (image : Image) → D.Disk.seen self.old.inner ≡ Some image → at ≤ length (bytes_in image file) }
        ensures written { OnOk result (Told (Writes file at bytes.now) (D.Disk.seen self.old.inner) (D.Disk.seen self.new.inner)) }
        ensures begun { OnErr result (Told (MayWrite file at (length bytes.now)) (D.Disk.seen self.old.inner) (D.Disk.seen self.new.inner)) }
        ensures bounded { OnOk result (at + length bytes.now < 2 ^ 63) }
        ensures images { Passes D.Disk.may_leave D.Disk.moment D.Disk.left_since self.old.inner self.new.inner
            (MayWrite file at (length bytes.now)) }
        ensures cause { HasCause (D.Disk.faults self.old.inner + self.old.faults) (D.Disk.faults self.new.inner + self.new.faults) result }
        ensures lock { KeepsLock unknown unknown (D.Disk.refused self.old.inner) (D.Disk.refused self.new.inner) }
        ensures fails { FailsOne D.Disk.faults self.old.before self.new.before self.old.inner self.new.inner result }
    {
        pass(&mut self.before, &mut self.faults)?;
        self.inner.write_at(file, at, bytes)
    }

    fn sync(&mut self, file: File) -> Result<(), Failed>
        ensures settled { OnOk result ((image : Image) → D.Disk.may_leave self.new.inner image → (read : Image)
            × (D.Disk.seen self.new.inner ≡ Some read) × (image file ≡ read file)) }
        ensures same { D.Disk.seen self.new.inner ≡ D.Disk.seen self.old.inner }
        ensures images { Passes D.Disk.may_leave D.Disk.moment D.Disk.left_since self.old.inner self.new.inner Stays }
        ensures cause { HasCause (D.Disk.faults self.old.inner + self.old.faults) (D.Disk.faults self.new.inner + self.new.faults) result }
        ensures lock { KeepsLock unknown unknown (D.Disk.refused self.old.inner) (D.Disk.refused self.new.inner) }
        ensures fails { FailsOne D.Disk.faults self.old.before self.new.before self.old.inner self.new.inner result }
    {
        pass(&mut self.before, &mut self.faults)?;
        self.inner.sync(file)
    }

    fn remove(&mut self, file: File) -> Result<(), Failed>
        ensures removed { OnOk result (Told (Removes file) (D.Disk.seen self.old.inner) (D.Disk.seen self.new.inner)) }
        ensures begun { OnErr result (Told (MayRemove file) (D.Disk.seen self.old.inner) (D.Disk.seen self.new.inner)) }
        ensures images { Passes D.Disk.may_leave D.Disk.moment D.Disk.left_since self.old.inner self.new.inner (MayRemove file) }
        ensures cause { HasCause (D.Disk.faults self.old.inner + self.old.faults) (D.Disk.faults self.new.inner + self.new.faults) result }
        ensures lock { KeepsLock unknown unknown (D.Disk.refused self.old.inner) (D.Disk.refused self.new.inner) }
        ensures fails { FailsOne D.Disk.faults self.old.before self.new.before self.old.inner self.new.inner result }
    {
        pass(&mut self.before, &mut self.faults)?;
        self.inner.remove(file)
    }
}
