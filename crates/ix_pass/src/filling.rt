//! The bytes of a watched file are given to its channel in blocks, each with the spot behind it.

ghost use Rattle.std.specs.Prelude.{◌≡◌, ◌≤◌, ◌<◌, ◌+◌, ◌^◌, ◌++◌, [], ◌∷◌, ℕ, ℤ, List, length, true, IfOk, IsErrOf, Some};
ghost use Rattle.ix_base.specs.Faults.{Rose};
ghost use Rattle.ix_commit.specs.Snapshot.{LogsAtEnd};
ghost use Rattle.ix_model.specs.declared.commands.Command.TheVariants.{Block};
ghost use Rattle.ix_model.specs.declared.commands.TimedCommand.{TimedCommand};
ghost use Rattle.ix_pass.specs.Filling.{gave_of, Fills};
ghost use Rattle.ix_pass.specs.Giving.{Tried, Went, order_at, kind, change};
ghost use Rattle.ix_watch.specs.Visits.{added, spot_at};
ghost use Rattle.ix_watch.specs.Watching.{channel_of};

use crate::fault::PassFault;
use crate::giving::give_made;
use crate::opening::channel_of;
use crate::reading::read_piece;
use ix_base::{Bytes, Clock, NoMemory, Spot};
use ix_disk::Disk;
use ix_fs::Tree;
use ix_model::Command;
use ix_run::GiveFault;
use ix_store::{Listing, Store};
use std::alloc::Global;

/// A watched file: its path, and its first bytes and how many it has as the pass found them.
#[derive(Clone, Copy)]
pub(crate) struct Watch<'a> {
    pub(crate) alloc: Global,
    pub(crate) path: &'a [u8],
    pub(crate) head: &'a [u8],
    pub(crate) size: u64,
}

impl Watch<'_> {
    /// How far the file was read.
    fn spot(self, offset: u64) -> Result<Spot, NoMemory>
        ensures { IfOk result (λ spot. spot ≡ spot_at self.entry.path.now self.entry.head.now offset) }
    {
        Ok(Spot {
            path: Bytes::copy_of(self.alloc, self.path)?,
            head: Bytes::copy_of(self.alloc, self.head)?,
            offset,
        })
    }

    /// The command that adds bytes to the stream of the channel.
    fn block(self, bytes: &[u8], offset: u64) -> Result<Command, NoMemory>
        ensures { IfOk result (λ command. command ≡ Block (channel_of self.entry.path.now) bytes.now
            (Some (spot_at self.entry.path.now self.entry.head.now offset))) }
    {
        let spot = Some(self.spot(offset)?);
        let channel = channel_of(self.alloc, self.path)?;
        let bytes = Bytes::copy_of(self.alloc, bytes)?;
        Ok(Command::Block {
            channel,
            bytes,
            spot,
        })
    }

    /// Adds bytes that stand in the file from a place on.
    fn add<M: Listing + Drop, D: Disk, C: Clock>(
        self,
        store: &mut Store<M>,
        disk: &mut D,
        clock: &mut C,
        bytes: &[u8],
        at: u64,
    ) -> Result<(), GiveFault>
        requires over { LogsAtEnd D.Disk store.old.committer disk.old }
        requires fits { at + length bytes.now < 2 ^ 64 }
        requires takes { (moment : ℤ) → M.takes (order_at (added self.path.now self.head.now at bytes.now) moment) }
        ensures { Tried true (added self.entry.path.now self.entry.head.now at bytes.now ∷ []) (C.ahead clock.old) (C.ahead clock.new)
            (λ orders. Went D.Disk (kind M.is_chooser M.takes M.Book.fits M.holds) result orders
            (change store.old disk.old store.new disk.new)) }
    {
        let made = self.block(bytes, at + bytes.len() as u64);
        let moment = clock.now();
        give_made(store, disk, made, moment)
    }

    /// Adds the bytes of the file from a place on, up to its size, or as far as it goes. Answers
    /// how far it was read then.
    pub(crate) fn fill<M: Listing + Drop, D: Disk, C: Clock, T: Tree>(
        self,
        store: &mut Store<M>,
        disk: &mut D,
        clock: &mut C,
        tree: &mut T,
        room: &mut [u8],
        from: u64,
    ) -> Result<u64, PassFault>
        requires over { LogsAtEnd D.Disk store.old.committer disk.old }
        requires room { length room.old ≡ 1048576 }
        requires from { from ≤ self.size }
        requires takes { (moment : ℤ) (at : ℕ) (bytes : List ℕ) → length bytes ≤ 1048576 →
            M.takes (order_at (added self.path.now self.head.now at bytes) moment) }
        ensures fills { Fills result (T.files tree.old) self.entry.path.now self.entry.head.now from self.entry.size (C.ahead clock.old)
            (C.ahead clock.new)
            (λ orders. Went D.Disk (kind M.is_chooser M.takes M.Book.fits M.holds) (gave_of result) orders
            (change store.old disk.old store.new disk.new)) }
        ensures failed { IsErrOf result PassFault.Input → Rose (T.faults tree.old) (T.faults tree.new) }
        ensures same { T.files tree.new ≡ T.files tree.old }
        ensures later { T.faults tree.old ≤ T.faults tree.new }
        ensures later_missing { T.missing tree.old ≤ T.missing tree.new }
    {
        let mut at = from;
        while at < self.size {
            let n = match read_piece(tree, self.path, at, self.size, room) {
                Ok(n) => n,
                Err(fault) => return Err(fault),
            };
            if n == 0 {
                return Ok(at);
            }
            match self.add(store, disk, clock, &room[..n], at) {
                Ok(()) => {}
                Err(fault) => return Err(PassFault::Given(fault)),
            }
            at += n as u64;
            if n < room.len() {
                return Ok(at);
            }
        }
        Ok(at)
    }
}
