//! A disk in memory, which can crash.

ghost use Rattle.std.specs.Prelude.{◌≡◌, ◌≤◌, ◌<◌, ◌-◌, ◌+◌, ◌^◌, ◌++◌, [], ◌∷◌, ℕ, List, ◌⊎◌, length, take, drop, min, Option, Some, None};
ghost use Rattle.std.specs.Prelude.{true, false, ◌≢◌, ◌↔◌, IfOk, OnOk, OnErr, IsErr, IsErrOf, IsTrue, count_by};
ghost use Rattle.std.proofs.Props.{props};
ghost use Rattle.ix_base.specs.Faults.{HasCause, Rose};
ghost use Rattle.ix_base.specs.Told.{Told};
ghost use Rattle.ix_base.specs.declared.files.File.{File};
ghost use Rattle.ix_disk.specs.Contents.{present, torn_in};
ghost use Rattle.ix_disk.specs.Memory.{seen_after, torn_after};
ghost use Rattle.ix_disk.specs.Locks.{KeepsLock, HasLockCause};
ghost use Rattle.ix_disk.specs.Image.{Image, nothing, bytes_in, MayWrite, Writes, MayRemove, Removes, Stays};

use crate::contents::Contents;
use crate::past::{Call, Past};
use crate::{Disk, LockFault};
use ix_base::{Bytes, FailPlan, Failed, File, NoMemory};
use std::alloc::Global;

/// A disk in memory. It keeps a record of all its calls, by which it tells the images of each
/// moment, and the files as they stand. A call for which it finds no room fails, and is not in the
/// record.
pub struct MemDisk {
    alloc: Global,
    /// The record of its calls, and which are to fail.
    past: Past,
    files: Contents,
    /// Another program has the disk.
    in_use: bool,
    /// How often it has answered so. It stands at 2^64 - 1.
    refused: u64,
    ghost seen_is: { (file : File) → present files.files.items file ≡ seen_after past.calls.items file } by { Prim.hlevel props },
    ghost torn_is: { (file : File) → torn_in files.files.items file ≡ torn_after past.calls.items file } by { Prim.hlevel props },
}

/// It is written out, so that each place where one is let go is a call of it, which is proved once.
impl Drop for MemDisk {
    fn drop(self) {
        let MemDisk {
            alloc: _,
            past: _,
            files: _,
            in_use: _,
            refused: _,
        } = self;
    }
}

const MAX_LENGTH: u64 = 1 << 63;

/// Copies what stands from a place on, as much as there is room for.
fn copy_from(bytes: &[u8], at: u64, buf: &mut [u8]) -> usize
    ensures count { result ≡ min (length buf.old) (length bytes.now - at) }
    ensures copied { buf.new ≡ take result (drop at bytes.now) ++ drop result buf.old }
{
    if at >= bytes.len() as u64 {
        return 0;
    }
    let rest = &bytes[at as usize..];
    let n = rest.len().min(buf.len());
    buf[..n].copy_from_slice(&rest[..n]);
    n
}

impl MemDisk {
    /// An empty disk, whose calls fail by the plan. No other program has it.
    pub fn new(alloc: Global, plan: FailPlan) -> Self
        ensures seen { ⟦<MemDisk as Disk>⟧.seen result ≡ Some nothing }
        ensures left { (image : Image) → ⟦<MemDisk as Disk>⟧.may_leave result image → image ≡ nothing }
        ensures faults { ⟦<MemDisk as Disk>⟧.faults result ≡ plan.faults }
        ensures calls { result.past.calls.items ≡ [] }
        ensures plan { result.past.plan ≡ plan }
        ensures shortages { result.past.shortages ≡ 0 }
        ensures free { ⟦<MemDisk as Disk>⟧.in_use result ≡ Some false }
        ensures refused { ⟦<MemDisk as Disk>⟧.refused result ≡ 0 }
    {
        MemDisk {
            alloc,
            past: Past {
                calls: Vec::new(alloc),
                plan,
                shortages: 0,
            },
            files: Contents::new(alloc),
            in_use: false,
            refused: 0,
        }
    }

    /// Tells the disk whether another program has it.
    pub fn set_in_use(&mut self, in_use: bool)
        ensures told { ⟦<MemDisk as Disk>⟧.in_use self.new ≡ Some in_use }
        ensures past { self.new.past ≡ self.old.past }
        ensures refused { ⟦<MemDisk as Disk>⟧.refused self.new ≡ ⟦<MemDisk as Disk>⟧.refused self.old }
    {
        self.in_use = in_use;
    }

    /// How often the disk has answered that another program has it.
    pub fn refused(&self) -> u64
        ensures { result ≡ ⟦<MemDisk as Disk>⟧.refused self.now }
    {
        self.refused
    }
}

impl MemDisk {
    ghost use Rattle.ix_disk.specs.Memory.{crashed, LeftBy, asks};

    /// How many calls the record has, which is the moment of the disk's clock.
    pub fn calls(&self) -> usize
        ensures { result ≡ ⟦<MemDisk as Disk>⟧.moment self.now }
    {
        self.past.calls.len()
    }

    /// How many calls in the record asked for the length or the bytes of the file.
    pub fn asked(&self, file: File) -> usize
        ensures { result ≡ count_by (asks file) self.now.past.calls.items }
    {
        self.past
            .calls
            .iter()
            .filter(|call| call.asks(file))
            .count()
    }

    /// How many calls found no room for what they had to keep.
    pub fn shortages(&self) -> u64
        ensures { result ≡ self.now.past.shortages }
    {
        self.past.shortages
    }

    /// A new disk as a crash now may leave this one, with no calls that are to fail. Where `torn`
    /// is false it holds what a read gives. Where it is true each file ends where it did at its
    /// last sync, the bytes before that end which were written since, also by a call that failed,
    /// are 1, and each removal since then is undone. It fails where there is no room for the new
    /// disk.
    pub fn crash(&self, torn: bool) -> Result<MemDisk, NoMemory>
        ensures seen { IfOk result (λ disk. ⟦<MemDisk as Disk>⟧.seen disk ≡ Some (crashed torn self.now.past.calls.items)) }
        ensures one { IfOk result (λ disk. (image : Image) → ⟦<MemDisk as Disk>⟧.may_leave disk image →
            ⟦<MemDisk as Disk>⟧.seen disk ≡ Some image) }
        ensures left { IfOk result (λ disk. (image : Image) → ⟦<MemDisk as Disk>⟧.may_leave disk image →
            ⟦<MemDisk as Disk>⟧.may_leave self.now image) }
        ensures plan { IfOk result (λ disk. (disk.past.plan.calls ≡ 0) × (disk.past.plan.failing.items ≡ [])) }
        ensures faults { IfOk result (λ disk. ⟦<MemDisk as Disk>⟧.faults disk ≡ 0) }
        ensures free { IfOk result (λ disk. ⟦<MemDisk as Disk>⟧.in_use disk ≡ Some false) }
    {
        let contents = self.files.left(torn)?;
        let disk = MemDisk::made(self.alloc, contents)?;
        Ok(disk)
    }

    /// A disk with these files and no calls that are to fail.
    fn made(alloc: Global, contents: Contents) -> Result<MemDisk, NoMemory>
        ensures seen { IfOk result (λ disk. (file : File) → seen_after disk.past.calls.items file ≡ present contents.files.items file) }
        ensures one { IfOk result (λ disk. (image : Image) → LeftBy disk.past.calls.items image → (file : File) →
            image file ≡ present contents.files.items file) }
        ensures plan { IfOk result (λ disk. (disk.past.plan.calls ≡ 0) × (disk.past.plan.failing.items ≡ [])) }
        ensures faults { IfOk result (λ disk. disk.past.plan.faults ≡ 0) }
        ensures free { IfOk result (λ disk. disk.in_use ≡ false) }
    {
        let files = contents.left(false)?;
        let mut calls = Vec::new(alloc);
        calls.push(Call::Made { contents })?;
        Ok(MemDisk {
            alloc,
            past: Past {
                calls,
                plan: FailPlan::none(alloc),
                shortages: 0,
            },
            files,
            in_use: false,
            refused: 0,
        })
    }
}

impl MemDisk {
    ghost use Rattle.std.specs.Prelude.{vec_len, vec_capacity};
    ghost use Rattle.ix_disk.specs.declared.past.Call.TheVariants.{Wrote};

    /// Keeps a write that was begun and fails.
    fn begin_write(&mut self, file: File, at: u64, bytes: Bytes) -> Failed
        requires { vec_len self.old.past.calls < vec_capacity self.old.past.calls }
        ensures recorded { (self.new.past.calls.items ≡ self.old.past.calls.items ++ Wrote file at bytes false ∷ [])
            ⊎ (Rose self.old.past.shortages self.new.past.shortages × (self.new.past.calls.items ≡ self.old.past.calls.items)) }
        ensures rose { Rose self.old.past.plan.faults self.new.past.plan.faults }
        ensures later { self.old.past.plan.faults ≤ self.new.past.plan.faults }
        ensures number { self.new.past.plan.calls ≡ self.old.past.plan.calls }
        ensures list { self.new.past.plan.failing ≡ self.old.past.plan.failing }
        ensures lock { KeepsLock (Some self.old.in_use) (Some self.new.in_use) self.old.refused self.new.refused }
    {
        let Ok(()) = self.files.mark(file, at as usize, bytes.len()) else {
            return self.past.run_short();
        };
        self.past.keep(Call::Wrote {
            file,
            at,
            bytes,
            done: false,
        });
        self.past.plan.fail()
    }

    /// Writes, and keeps the write.
    fn write(&mut self, file: File, at: u64, bytes: Bytes) -> Result<(), Failed>
        requires room { vec_len self.old.past.calls < vec_capacity self.old.past.calls }
        requires place { at ≤ length (bytes_in (seen_after self.old.past.calls.items) file) }
        ensures ok { OnOk result (self.new.past.calls.items ≡ self.old.past.calls.items ++ Wrote file at bytes true ∷ []) }
        ensures short { OnErr result (Rose self.old.past.shortages self.new.past.shortages) }
        ensures err { OnErr result (self.new.past.calls.items ≡ self.old.past.calls.items) }
        ensures cause { HasCause self.old.past.plan.faults self.new.past.plan.faults result }
        ensures number { self.new.past.plan.calls ≡ self.old.past.plan.calls }
        ensures list { self.new.past.plan.failing ≡ self.old.past.plan.failing }
        ensures lock { KeepsLock (Some self.old.in_use) (Some self.new.in_use) self.old.refused self.new.refused }
    {
        let Ok(()) = self.files.write(file, at as usize, bytes.as_slice()) else {
            return Err(self.past.run_short());
        };
        self.past.keep(Call::Wrote {
            file,
            at,
            bytes,
            done: true,
        });
        Ok(())
    }
}

impl Disk for MemDisk {
    ghost use Rattle.ix_base.specs.Plans.{is_due, CountsCall};
    ghost use Rattle.ix_disk.specs.Memory.{LeftBy, LeftSince, Grows, memory_seen_stays, memory_counts_now, memory_only_now};
    ghost use Rattle.ix_disk.specs.Recorded.{Recorded};
    ghost use Rattle.ix_disk.specs.declared.disk.LockFault.TheVariants.{InUse};
    ghost use Rattle.ix_disk.specs.declared.past.Call.TheVariants.{Wrote, Settled, Removed, Asked};

    ghost seen = { λ d. Some (seen_after d.past.calls.items) };

    ghost may_leave = { λ d. LeftBy d.past.calls.items };

    ghost moment = { λ d. length d.past.calls.items };

    ghost left_since = { λ d. LeftSince d.past.calls.items };

    ghost faults = { λ d. d.past.plan.faults };

    ghost in_use = { λ d. Some d.in_use };

    ghost refused = { λ d. d.refused };

    ghost seen_may_stay = { λ d image is. memory_seen_stays d.past.calls.items image is };

    ghost counts_now = { λ d t image le left. memory_counts_now d.past.calls.items t image le left };

    ghost only_now = { λ d image left. memory_only_now d.past.calls.items image left };

    /// It is not in the record, which has the calls on files. Where no other program has the disk,
    /// it fails where the call is due to fail.
    fn lock(&mut self) -> Result<(), LockFault>
        ensures taken { Some self.old.in_use ≡ Some true → IsErrOf result InUse }
        ensures free { IsErrOf result InUse → Some self.old.in_use ≢ Some false }
        ensures use_stays { Some self.new.in_use ≡ Some self.old.in_use }
        ensures same { Some (seen_after self.new.past.calls.items) ≡ Some (seen_after self.old.past.calls.items) }
        ensures images { Grows self.old.past.calls.items self.new.past.calls.items Stays }
        ensures cause { HasLockCause self.old.past.plan.faults self.new.past.plan.faults self.old.refused self.new.refused result }
        ensures calls { self.new.past.calls.items ≡ self.old.past.calls.items }
        ensures due { self.old.in_use ≡ false → (IsErr result ↔ IsTrue (is_due self.old.past.plan)) }
    {
        if self.in_use {
            self.refused = self.refused.saturating_add(1);
            return Err(LockFault::InUse);
        }
        if self.past.plan.is_due() {
            let _ = self.past.plan.fail();
            return Err(LockFault::Failed);
        }
        Ok(())
    }

    /// It fails where the call is due to fail, where it finds no room, and where the file has 2^63
    /// bytes.
    fn length(&mut self, file: File) -> Result<u64, Failed>
        ensures length { IfOk result (λ n. (image : Image) → Some (seen_after self.old.past.calls.items) ≡ Some image →
            n ≡ length (bytes_in image file)) }
        ensures bounded { IfOk result (λ n. n < 2 ^ 63) }
        ensures same { Some (seen_after self.new.past.calls.items) ≡ Some (seen_after self.old.past.calls.items) }
        ensures images { Grows self.old.past.calls.items self.new.past.calls.items Stays }
        ensures cause { HasCause self.old.past.plan.faults self.new.past.plan.faults result }
        ensures lock { KeepsLock (Some self.old.in_use) (Some self.new.in_use) self.old.refused self.new.refused }
        ensures recorded { Recorded self.old.past self.new.past (Asked file) (Asked file)
            (2 ^ 63 ≤ length (bytes_in (seen_after self.old.past.calls.items) file)) result }
        ensures counted { CountsCall self.old.past.plan self.new.past.plan }
    {
        self.past.ask(file)?;
        let len = self.files.bytes(file).len() as u64;
        if len >= MAX_LENGTH {
            return Err(self.past.plan.fail());
        }
        Ok(len)
    }

    /// It fails where the call is due to fail, and where it finds no room.
    fn read(&mut self, file: File, at: u64, buf: &mut [u8]) -> Result<usize, Failed>
        ensures count { IfOk result (λ n. n ≤ length buf.old) }
        ensures bytes { IfOk result (λ n. (image : Image) → Some (seen_after self.old.past.calls.items) ≡ Some image →
            (n ≡ min (length buf.old) (length (bytes_in image file) - at))
            × (buf.new ≡ take n (drop at (bytes_in image file)) ++ drop n buf.old)) }
        ensures same { Some (seen_after self.new.past.calls.items) ≡ Some (seen_after self.old.past.calls.items) }
        ensures images { Grows self.old.past.calls.items self.new.past.calls.items Stays }
        ensures cause { HasCause self.old.past.plan.faults self.new.past.plan.faults result }
        ensures lock { KeepsLock (Some self.old.in_use) (Some self.new.in_use) self.old.refused self.new.refused }
        ensures recorded { Recorded self.old.past self.new.past (Asked file) (Asked file) ⊥ result }
        ensures counted { CountsCall self.old.past.plan self.new.past.plan }
    {
        self.past.ask(file)?;
        Ok(copy_from(self.files.bytes(file), at, buf))
    }

    /// It fails where the call is due to fail, where it finds no room, and where the file would
    /// come to 2^63 bytes.
    fn write_at(&mut self, file: File, at: u64, bytes: &[u8]) -> Result<(), Failed>
        requires { (image : Image) → Some (seen_after self.old.past.calls.items) ≡ Some image → at ≤ length (bytes_in image file) }
        ensures written { OnOk result (Told (Writes file at bytes.now) (Some (seen_after self.old.past.calls.items))
            (Some (seen_after self.new.past.calls.items))) }
        ensures begun { OnErr result (Told (MayWrite file at (length bytes.now)) (Some (seen_after self.old.past.calls.items))
            (Some (seen_after self.new.past.calls.items))) }
        ensures bounded { OnOk result (at + length bytes.now < 2 ^ 63) }
        ensures images { Grows self.old.past.calls.items self.new.past.calls.items (MayWrite file at (length bytes.now)) }
        ensures cause { HasCause self.old.past.plan.faults self.new.past.plan.faults result }
        ensures lock { KeepsLock (Some self.old.in_use) (Some self.new.in_use) self.old.refused self.new.refused }
        ensures recorded { Recorded self.old.past self.new.past (Wrote file at bytes.now true) (Wrote file at bytes.now false)
            (2 ^ 63 ≤ at + length bytes.now) result }
        ensures counted { CountsCall self.old.past.plan self.new.past.plan }
    {
        let due = self.past.begin()?;
        let Ok(copy) = Bytes::copy_of(self.alloc, bytes) else {
            return Err(self.past.run_short());
        };
        if due || at >= MAX_LENGTH || bytes.len() as u64 >= MAX_LENGTH - at {
            return Err(self.begin_write(file, at, copy));
        }
        self.write(file, at, copy)?;
        Ok(())
    }

    /// It fails where the call is due to fail, and where it finds no room.
    fn sync(&mut self, file: File) -> Result<(), Failed>
        ensures settled { OnOk result ((image : Image) → LeftBy self.new.past.calls.items image → (read : Image)
            × (Some (seen_after self.new.past.calls.items) ≡ Some read) × (image file ≡ read file)) }
        ensures same { Some (seen_after self.new.past.calls.items) ≡ Some (seen_after self.old.past.calls.items) }
        ensures images { Grows self.old.past.calls.items self.new.past.calls.items Stays }
        ensures cause { HasCause self.old.past.plan.faults self.new.past.plan.faults result }
        ensures lock { KeepsLock (Some self.old.in_use) (Some self.new.in_use) self.old.refused self.new.refused }
        ensures recorded { Recorded self.old.past self.new.past (Settled file true) (Settled file false) ⊥ result }
        ensures counted { CountsCall self.old.past.plan self.new.past.plan }
    {
        let due = self.past.begin()?;
        if due {
            self.past.keep(Call::Settled { file, done: false });
            return Err(self.past.plan.fail());
        }
        self.past.keep(Call::Settled { file, done: true });
        self.files.settle(file);
        Ok(())
    }

    /// It fails where the call is due to fail, and where it finds no room.
    fn remove(&mut self, file: File) -> Result<(), Failed>
        ensures removed { OnOk result (Told (Removes file) (Some (seen_after self.old.past.calls.items))
            (Some (seen_after self.new.past.calls.items))) }
        ensures begun { OnErr result (Told (MayRemove file) (Some (seen_after self.old.past.calls.items))
            (Some (seen_after self.new.past.calls.items))) }
        ensures images { Grows self.old.past.calls.items self.new.past.calls.items (MayRemove file) }
        ensures cause { HasCause self.old.past.plan.faults self.new.past.plan.faults result }
        ensures lock { KeepsLock (Some self.old.in_use) (Some self.new.in_use) self.old.refused self.new.refused }
        ensures recorded { Recorded self.old.past self.new.past (Removed file true) (Removed file false) ⊥ result }
        ensures counted { CountsCall self.old.past.plan self.new.past.plan }
    {
        let due = self.past.begin()?;
        if due {
            self.past.keep(Call::Removed { file, done: false });
            return Err(self.past.plan.fail());
        }
        let Ok(()) = self.files.remove(file) else {
            return Err(self.past.run_short());
        };
        self.past.keep(Call::Removed { file, done: true });
        Ok(())
    }
}
