//! A disk that is lent.

ghost use Rattle.std.specs.Prelude.{◌≡◌};

use crate::{Disk, LockFault};
use ix_base::{Failed, File};

impl<D: Disk> Disk for &mut D {
    ghost seen = { λ d. D.Disk.seen d.now };

    ghost may_leave = { λ d. D.Disk.may_leave d.now };

    ghost moment = { λ d. D.Disk.moment d.now };

    ghost left_since = { λ d. D.Disk.left_since d.now };

    ghost faults = { λ d. D.Disk.faults d.now };

    ghost in_use = { λ d. D.Disk.in_use d.now };

    ghost refused = { λ d. D.Disk.refused d.now };

    ghost seen_may_stay = { λ d image is. D.Disk.seen_may_stay d.now image is };

    ghost counts_now = { λ d t image le left. D.Disk.counts_now d.now t image le left };

    ghost only_now = { λ d image left. D.Disk.only_now d.now image left };

    fn lock(&mut self) -> Result<(), LockFault> {
        Disk::lock(&mut **self)
    }

    fn length(&mut self, file: File) -> Result<u64, Failed> {
        Disk::length(&mut **self, file)
    }

    fn read(&mut self, file: File, at: u64, buf: &mut [u8]) -> Result<usize, Failed> {
        Disk::read(&mut **self, file, at, buf)
    }

    fn write_at(&mut self, file: File, at: u64, bytes: &[u8]) -> Result<(), Failed> {
        Disk::write_at(&mut **self, file, at, bytes)
    }

    fn sync(&mut self, file: File) -> Result<(), Failed> {
        Disk::sync(&mut **self, file)
    }

    fn remove(&mut self, file: File) -> Result<(), Failed> {
        Disk::remove(&mut **self, file)
    }
}
