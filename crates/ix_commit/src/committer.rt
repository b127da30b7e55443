//! The committer of a store: its logs, and what is staged.

ghost use Rattle.std.specs.Prelude.{◌≡◌, true, ◌<◌, ◌≤◌, ◌+◌, ◌^◌, ◌++◌, ◌∷◌, ℕ, [], length, take, false, IfOk, OnOk, OnErr, IsTrue, ◌↔◌};
ghost use Rattle.std.specs.Prelude.{IsErrOf};
ghost use Rattle.std.specs.List.{AllByRecursion};
ghost use Rattle.ix_manifest.specs.Slots.{bytes_of, items_of, AreOnce};
ghost use Rattle.ix_items.specs.Spelling.{HasSpelling, item_bytes};
ghost use Rattle.ix_commit.specs.declared.committer.StageFault.TheVariants as stages;

use crate::file_copy::FileCopy;
use crate::staged_append::{StagedAppend, cut_parts, extend_part, home, lengths_of, part_of};
use crate::write_batch::Append;
use ix_base::{Bytes, Failed, File, NoMemory as OutOfMemory, Sequence};
use ix_disk::Disk;
use ix_items::{Item, write_item};
use ix_log::Log;
use ix_manifest::{StagedItem, drop_older, log_file};
use std::alloc::Global;
use thiserror::Error;

/// Why nothing was staged.
#[derive(Clone, Copy, Debug, PartialEq, Eq, Error)]
pub enum StageFault {
    /// The staged items and the new ones would have 2^32 bytes or more.
    #[error("the items of one commit would have 2^32 bytes or more")]
    Full,
    /// There was no room in memory.
    #[error("there was no room in memory")]
    NoMemory,
}

impl From<OutOfMemory> for StageFault {
    ghost from_gives = { λ _ e. e ≡ stages.NoMemory };

    fn from(_: OutOfMemory) -> StageFault {
        StageFault::NoMemory
    }
}

/// What is committed on the disk stays there, and what is staged is put behind it by a commit.
pub struct Committer {
    pub(crate) root: Log,
    pub(crate) log: Log,
    /// The number of the log.
    pub(crate) number: u64,
    /// How many bytes its first body has, 0 where it has none.
    pub(crate) first: u64,
    /// How many bytes its file had when it was last asked.
    pub(crate) bytes: u64,
    /// The staged bytes of buckets, one part a file.
    pub(crate) parts: Sequence<StagedAppend>,
    /// The staged copies, made one behind the other.
    pub(crate) copies: Sequence<FileCopy>,
    /// The staged items, one a name.
    pub(crate) slots: Sequence<StagedItem>,
    /// How many bytes these have.
    pub(crate) size: u64,
    /// Room to copy with.
    pub(crate) buffer: Vec<u8>,
    /// Whether a fault of the disk, or damage, was met.
    pub(crate) closed: bool,
    ghost sized: { size ≡ length (bytes_of slots) },
    ghost short: { size < 2 ^ 32 },
    ghost room: { 0 < length buffer.items },
}

/// It is written out, so that each place where one is let go is a call of it, which is proved once.
impl Drop for Committer {
    fn drop(self) {
        let Committer {
            root: _,
            log: _,
            number: _,
            first: _,
            bytes: _,
            parts: _,
            copies: _,
            slots: _,
            size: _,
            buffer: _,
            closed: _,
        } = self;
    }
}

/// What a committer had staged at a moment.
#[derive(Drop)]
pub struct Savepoint {
    lens: Vec<usize>,
    copies: usize,
    slots: usize,
    size: u64,
}

/// How many bytes a long log has at least.
const LONG: u64 = 8_388_608;

/// How many bytes are copied at a time.
const PIECE: usize = 1 << 16;

impl Committer {
    ghost use Rattle.ix_commit.specs.Undo.{GrewTo, IsMarkOf, IsSame, HasSameLogs};
    ghost use Rattle.ix_commit.specs.Drafts.{IsFit, IsFitCopy, with_piece, with_copy};
    ghost use Rattle.ix_commit.specs.declared.committer.Committer.{Committer};
    ghost use Rattle.ix_commit.specs.Snapshot.{Snapshot, Stages, KnowsLogLength, IsLong, with_item};
    ghost use Rattle.ix_log.specs.Log.{file_of};
    ghost use Rattle.ix_manifest.specs.Root.{log_file};
    ghost use Rattle.ix_disk.specs.Image.{Stays};
    ghost use Rattle.ix_disk.specs.Moments.{ImagesStep};
    ghost use Rattle.ix_base.specs.Faults.{HasCause};

    /// A committer that has staged nothing, over logs that were read.
    pub(crate) fn over(
        alloc: Global,
        root: Log,
        log: Log,
        number: u64,
        first: u64,
    ) -> Result<Committer, OutOfMemory>
        ensures root { IfOk result (λ committer. committer.root ≡ root) }
        ensures log { IfOk result (λ committer. committer.log ≡ log) }
        ensures number { IfOk result (λ committer. committer.number ≡ number) }
        ensures first { IfOk result (λ committer. committer.first ≡ first) }
        ensures parts { IfOk result (λ committer. committer.parts ≡ []) }
        ensures copies { IfOk result (λ committer. committer.copies ≡ []) }
        ensures slots { IfOk result (λ committer. committer.slots ≡ []) }
        ensures open { IfOk result (λ committer. committer.closed ≡ false) }
    {
        let buffer = vec![in alloc; 0u8; PIECE]?;
        Ok(Committer {
            root,
            log,
            number,
            first,
            bytes: 0,
            parts: Sequence::new(alloc),
            copies: Sequence::new(alloc),
            slots: Sequence::new(alloc),
            size: 0,
            buffer,
            closed: false,
        })
    }

    /// Whether an earlier call met a fault of the disk, or damage. A closed committer is not used
    /// again: the store is mounted anew.
    pub fn is_closed(&self) -> bool
        ensures { result ≡ self.now.closed }
    {
        self.closed
    }

    /// The file of the current log.
    pub fn current(&self) -> File
        ensures { result ≡ log_file self.now.number }
    {
        log_file(self.number)
    }

    /// Whether something is staged.
    pub fn is_staged(&self) -> bool
        ensures { IsTrue result ↔ (0 < length self.now.parts + length self.now.copies + length self.now.slots) }
    {
        !self.parts.is_empty() || !self.copies.is_empty() || !self.slots.is_empty()
    }

    /// Whether the current log is long: it has at least 8,388,608 bytes, and at least twice those
    /// of its first body. Then a checkpoint makes it shorter.
    pub fn wants_checkpoint(&self) -> bool
        ensures { IsTrue result ↔ IsLong self.now.bytes self.now.first }
    {
        self.bytes >= LONG && self.first <= self.bytes / 2
    }

    /// Asks the disk how long the log is. After `Failed` the committer is closed.
    pub(crate) fn measure<D: Disk>(&mut self, disk: &mut D) -> Result<(), Failed>
        requires { file_of self.old.log ≡ log_file self.old.number }
        ensures measured { OnOk result (KnowsLogLength D.Disk self.new disk.new) }
        ensures logs { OnOk result (HasSameLogs self.old self.new) }
        ensures closed { OnErr result (self.new.closed ≡ true) }
        ensures file { self.new.log ≡ self.old.log }
        ensures parts { self.new.parts ≡ self.old.parts }
        ensures copies { self.new.copies ≡ self.old.copies }
        ensures slots { self.new.slots ≡ self.old.slots }
        ensures same { D.Disk.seen disk.new ≡ D.Disk.seen disk.old }
        ensures images { ImagesStep D.Disk disk.old disk.new Stays }
        ensures cause { HasCause (D.Disk.faults disk.old) (D.Disk.faults disk.new) result }
    {
        match disk.length(log_file(self.number)) {
            Ok(bytes) => {
                self.bytes = bytes;
                Ok(())
            }
            Err(fault) => {
                self.closed = true;
                Err(fault)
            }
        }
    }

    /// Stages an item behind those that are staged.
    pub(crate) fn push_item(&mut self, alloc: Global, item: Item) -> Result<(), StageFault>
        requires { HasSpelling item }
        ensures staged { (old new : Snapshot) → Stages self.old old new → OnOk result (Stages self.new old (with_item item new)) }
        ensures grew { GrewTo self.old self.new }
        ensures parts { self.new.parts ≡ self.old.parts }
        ensures copies { self.new.copies ≡ self.old.copies }
        ensures size { OnOk result (self.new.size ≡ self.old.size + length (item_bytes item)) }
        ensures some { OnOk result (0 < length self.new.slots) }
        ensures items { OnOk result (items_of self.new.slots ≡ items_of self.old.slots ++ item ∷ []) }
        ensures full { IsErrOf result StageFault.Full → 2 ^ 32 ≤ self.old.size + length (item_bytes item) }
    {
        let mut bytes = Bytes::new(alloc);
        if let Err(fault) = write_item(&item, &mut bytes) {
            drop(item);
            return Err(fault.into());
        }
        let size = self.size.saturating_add(bytes.len() as u64);
        if size >= 1 << 32 {
            drop(item);
            return Err(StageFault::Full);
        }
        self.slots.push(StagedItem { item, bytes })?;
        self.size = size;
        Ok(())
    }

    /// Stages a copy behind those that are staged.
    pub(crate) fn push_copy(&mut self, copied: FileCopy) -> Result<(), OutOfMemory>
        ensures staged { (old new : Snapshot) → Stages self.old old new → IsFitCopy old.contents new.contents copied →
            OnOk result (Stages self.new old (record { book = new.book; contents = with_copy copied new.contents })) }
        ensures grew { GrewTo self.old self.new }
        ensures size { self.new.size ≡ self.old.size }
    {
        self.copies.push(copied)?;
        Ok(())
    }

    /// Stages bytes behind those that the file has in the present snapshot.
    pub(crate) fn push_piece(&mut self, alloc: Global, piece: &Append) -> Result<(), OutOfMemory>
        ensures staged { (old new : Snapshot) → Stages self.old old new → IsFit new.contents piece.now →
            OnOk result (Stages self.new old (record { book = new.book; contents = with_piece piece.now new.contents })) }
        ensures grew { GrewTo self.old self.new }
        ensures size { self.new.size ≡ self.old.size }
    {
        let place = part_of(self.parts.as_slice(), home(piece.number));
        if place < self.parts.len() {
            extend_part(&mut self.parts, place, piece.bytes.as_slice())?;
            return Ok(());
        }
        let staged = Bytes::copy_of(alloc, piece.bytes.as_slice())?;
        self.parts.push(StagedAppend {
            number: piece.number,
            committed: piece.at,
            staged,
        })?;
        Ok(())
    }

    /// What is staged now.
    pub(crate) fn mark(&self, alloc: Global) -> Result<Savepoint, OutOfMemory>
        ensures { IfOk result (λ mark. IsMarkOf mark self.now) }
    {
        let lens = lengths_of(alloc, self.parts.as_slice())?;
        Ok(Savepoint {
            lens,
            copies: self.copies.len(),
            slots: self.slots.len(),
            size: self.size,
        })
    }

    /// Takes back what was staged since then.
    pub(crate) fn restore(&mut self, mark: &Savepoint)
        requires { (committer : Committer) × IsMarkOf mark.now committer × GrewTo committer self.old }
        ensures { (committer : Committer) → IsMarkOf mark.now committer → GrewTo committer self.old → IsSame committer self.new }
    {
        cut_parts(&mut self.parts, mark.lens.as_slice());
        self.copies.truncate(mark.copies);
        self.slots.truncate(mark.slots);
        self.size = mark.size;
    }

    /// Drops each staged item under whose name one was staged since then.
    pub(crate) fn drop_older(&mut self, mark: &Savepoint)
        requires { (committer : Committer) × IsMarkOf mark.now committer × GrewTo committer self.old }
        ensures staged { (old new : Snapshot) → Stages self.old old new → Stages self.new old new }
        ensures logs { HasSameLogs self.old self.new }
        ensures bytes { self.new.bytes ≡ self.old.bytes }
        ensures once { (committer : Committer) → IsMarkOf mark.now committer → GrewTo committer self.old →
            AreOnce (items_of committer.slots) →
            AreOnce (items_of self.new.slots) }
    {
        self.size = drop_older(&mut self.slots, mark.slots, self.size);
    }
}
