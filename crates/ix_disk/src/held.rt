//! One file in memory: its bytes, and what the worst crash leaves of it.

ghost use Rattle.std.specs.Prelude.{◌≡◌, ◌≤◌, ◌<◌, ◌+◌, ◌-◌, ◌++◌, [], length, Some, None, OnOk, OnErr, IfOk, true, false};
ghost use Rattle.ix_disk.specs.Image.{content};

use ix_base::{Bytes, File, NoMemory};
use std::alloc::Global;

/// A file, or one that is missing. What the worst crash leaves of it begins as the file does, up to
/// a place, so that only what it leaves behind that place is kept beside it.
pub struct Held {
    pub file: File,
    /// What a read gives.
    bytes: Option<Bytes>,
    /// The place.
    same: usize,
    /// What the worst crash leaves behind the place, or `None` where it leaves no file.
    rest: Option<Bytes>,
    ghost within: { same ≤ length (content bytes) },
}

/// It is written out, so that each place where one is let go is a call of it, which is proved once.
impl Drop for Held {
    fn drop(self) {
        let Held {
            file: _,
            bytes: _,
            same: _,
            rest: _,
        } = self;
    }
}

/// The bytes, or none where they are missing.
fn lend(bytes: &Option<Bytes>) -> &[u8]
    ensures { result.now ≡ content bytes.now }
{
    match bytes {
        Some(bytes) => bytes.as_slice(),
        None => &[],
    }
}

/// Copies bytes where there are any.
fn copy_some(bytes: &Option<Bytes>) -> Result<Option<Bytes>, NoMemory>
    ensures { IfOk result (λ copy. copy ≡ bytes.now) }
{
    match bytes {
        Some(bytes) => Ok(Some(bytes.copy()?)),
        None => Ok(None),
    }
}

/// A copy of some bytes with others behind them.
fn joined(alloc: Global, front: &[u8], back: &[u8]) -> Result<Bytes, NoMemory>
    ensures { IfOk result (λ whole. whole ≡ front.now ++ back.now) }
{
    let mut whole = Bytes::copy_of(alloc, front)?;
    whole.extend(back)?;
    Ok(whole)
}

impl Held {
    ghost use Rattle.ix_disk.specs.Contents.{over, ones_in, with_rest, torn_of, left_of};

    /// A missing file, which no crash brings back.
    pub fn missing(file: File) -> Self
        ensures file { result.file ≡ file }
        ensures seen { result.bytes ≡ None }
        ensures torn { torn_of result ≡ None }
    {
        Held {
            file,
            bytes: None,
            same: 0,
            rest: None,
        }
    }

    /// A file of which a crash leaves what a read gives.
    pub fn settled(alloc: Global, file: File, bytes: Option<Bytes>) -> Self
        ensures file { result.file ≡ file }
        ensures seen { result.bytes ≡ bytes }
        ensures torn { torn_of result ≡ bytes }
    {
        let same = lend(&bytes).len();
        let rest = bytes.is_some().then_some(Bytes::new(alloc));
        Held {
            file,
            bytes,
            same,
            rest,
        }
    }

    /// The bytes; a missing file has none.
    pub fn bytes(&self) -> &[u8]
        ensures { result.now ≡ content self.now.bytes }
    {
        lend(&self.bytes)
    }

    /// A copy of what a crash leaves where it tears the file, or else of what a read gives.
    pub fn left(&self, alloc: Global, torn: bool) -> Result<Option<Bytes>, NoMemory>
        ensures { IfOk result (λ copy. copy ≡ left_of torn self.now) }
    {
        if !torn {
            return copy_some(&self.bytes);
        }
        let Some(rest) = &self.rest else {
            return Ok(None);
        };
        let front = &lend(&self.bytes)[..self.same];
        Ok(Some(joined(alloc, front, rest.as_slice())?))
    }

    /// A copy of what the worst crash leaves from this place on, which is before the other.
    fn rest_from(&self, alloc: Global, at: usize) -> Result<Option<Bytes>, NoMemory>
        requires { at ≤ self.now.same }
        ensures { IfOk result (λ rest. with_rest self.now.bytes at rest ≡ torn_of self.now) }
    {
        let Some(rest) = &self.rest else {
            return Ok(None);
        };
        let between = &lend(&self.bytes)[at..self.same];
        let whole = joined(alloc, between, rest.as_slice())?;
        Ok(Some(whole))
    }

    /// Keeps beside the file what the worst crash leaves from this place on, so that the file may
    /// change there.
    fn part(&mut self, alloc: Global, at: usize) -> Result<(), NoMemory>
        ensures file { self.new.file ≡ self.old.file }
        ensures seen { self.new.bytes ≡ self.old.bytes }
        ensures torn { torn_of self.new ≡ torn_of self.old }
        ensures parted { OnOk result (self.new.same ≤ at) }
    {
        if at >= self.same {
            return Ok(());
        }
        self.rest = self.rest_from(alloc, at)?;
        self.same = at;
        Ok(())
    }

    /// Sets bytes to 1 that the worst crash leaves behind the place.
    fn mark_rest(&mut self, at: usize, count: usize)
        requires { self.old.same ≤ at }
        ensures file { self.new.file ≡ self.old.file }
        ensures seen { self.new.bytes ≡ self.old.bytes }
        ensures torn { torn_of self.new ≡ ones_in at count (torn_of self.old) }
    {
        let behind = at - self.same;
        if let Some(rest) = &mut self.rest {
            rest.fill(behind, count, 1);
        }
    }

    /// Writes bytes over those behind the place, and past the end. A missing file is there then.
    fn write_rest(&mut self, alloc: Global, at: usize, bytes: &[u8]) -> Result<(), NoMemory>
        requires place { at ≤ length (content self.old.bytes) }
        requires parted { self.old.same ≤ at }
        ensures file { self.new.file ≡ self.old.file }
        ensures ok { OnOk result (self.new.bytes ≡ over at bytes.now self.old.bytes) }
        ensures err { OnErr result (self.new.bytes ≡ self.old.bytes) }
        ensures same { self.new.same ≡ self.old.same }
        ensures torn { torn_of self.new ≡ torn_of self.old }
    {
        match &mut self.bytes {
            Some(old) => old.overwrite(at, bytes),
            None => {
                self.bytes = Some(Bytes::copy_of(alloc, bytes)?);
                Ok(())
            }
        }
    }

    /// Sets bytes to 1 of what the worst crash leaves, as far as it goes.
    pub fn mark(&mut self, alloc: Global, at: usize, count: usize) -> Result<(), NoMemory>
        ensures file { self.new.file ≡ self.old.file }
        ensures seen { self.new.bytes ≡ self.old.bytes }
        ensures ok { OnOk result (torn_of self.new ≡ ones_in at count (torn_of self.old)) }
        ensures err { OnErr result (torn_of self.new ≡ torn_of self.old) }
    {
        self.part(alloc, at)?;
        self.mark_rest(at, count);
        Ok(())
    }

    /// Writes bytes over those from a place on, and past the end. A missing file is there then. The
    /// worst crash leaves 1 for each of them, as far as it leaves any.
    pub fn write(&mut self, alloc: Global, at: usize, bytes: &[u8]) -> Result<(), NoMemory>
        requires { at ≤ length (content self.old.bytes) }
        ensures file { self.new.file ≡ self.old.file }
        ensures ok { OnOk result (self.new.bytes ≡ over at bytes.now self.old.bytes) }
        ensures ok_torn { OnOk result (torn_of self.new ≡ ones_in at (length bytes.now) (torn_of self.old)) }
        ensures err { OnErr result (self.new.bytes ≡ self.old.bytes) }
        ensures err_torn { OnErr result (torn_of self.new ≡ torn_of self.old) }
    {
        self.part(alloc, at)?;
        self.write_rest(alloc, at, bytes)?;
        self.mark_rest(at, bytes.len());
        Ok(())
    }

    /// From now on a crash leaves what a read gives.
    pub fn settle(&mut self, alloc: Global)
        ensures file { self.new.file ≡ self.old.file }
        ensures seen { self.new.bytes ≡ self.old.bytes }
        ensures torn { torn_of self.new ≡ self.old.bytes }
    {
        self.same = lend(&self.bytes).len();
        self.rest = self.bytes.is_some().then_some(Bytes::new(alloc));
    }

    /// Removes the file. The worst crash brings it back.
    pub fn remove(&mut self, alloc: Global) -> Result<(), NoMemory>
        ensures file { self.new.file ≡ self.old.file }
        ensures ok { OnOk result (self.new.bytes ≡ None) }
        ensures err { OnErr result (self.new.bytes ≡ self.old.bytes) }
        ensures torn { torn_of self.new ≡ torn_of self.old }
    {
        self.part(alloc, 0)?;
        self.bytes = None;
        Ok(())
    }
}
