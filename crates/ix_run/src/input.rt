//! An input is stored: it is read to its end in blocks, as the stream of a channel. `preview
//! --store` does so.

ghost use Rattle.std.specs.Prelude.{◌≡◌, ◌≤◌, ◌<◌, ℕ, List, [], ◌∷◌, length, map, false, Some, Err, IfOk, IfErr, IsErrOf, vec_len};
ghost use Rattle.std.specs.List.{AllByRecursion};
ghost use Rattle.ix_base.specs.Faults.{Rose};
ghost use Rattle.ix_base.specs.Told.{Told};
ghost use Rattle.ix_base.specs.declared.files.File.{File};
ghost use Rattle.ix_disk.specs.Image.{Image};
ghost use Rattle.ix_commit.specs.Contents.{Anyhow};
ghost use Rattle.ix_commit.specs.Snapshot.{LogsAtEnd, KnowsLogLength};
ghost use Rattle.ix_model.specs.Given.{Chooser};
ghost use Rattle.ix_model.specs.Judged.{is_begun};
ghost use Rattle.ix_model.specs.Step.{state_after};
ghost use Rattle.ix_model.specs.declared.commands.TimedCommand.{TimedCommand};
ghost use Rattle.ix_run.specs.Placed.{ReadsEnd};
ghost use Rattle.ix_run.specs.Resting.{CheckpointReady};
ghost use Rattle.ix_run.specs.Storing.{tilde, begin_order, block_order, end_order, opening, filling, IsBlock, HasRead, Gives, Feeds};
ghost use Rattle.ix_run.specs.Storing.{Stores, is_cut, is_run_cut};
ghost use Rattle.ix_run.specs.Running.{outset};
ghost use Rattle.ix_store.specs.Holding.{Represents};

use crate::giving::{GiveFault, commit_all, give};
use ix_base::{Bytes, ChannelMeta, Source};
use ix_commit::CommitFault;
use ix_disk::Disk;
use ix_model::{Command, Refusal};
use ix_store::{Listing, Store};
use std::alloc::Global;
use thiserror::Error;

/// How many bytes of input are taken at the most.
const INPUT_LIMIT: u64 = 1 << 40;

/// How many bytes are read at once.
const BLOCK: usize = 1 << 20;

/// What is known of an input: where it comes from, and the moment at which all its bytes arrive.
#[derive(Drop)]
pub struct Arrival {
    pub origin: ChannelMeta,
    pub moment: i64,
}

/// Why an input was not stored to its end.
#[derive(Clone, Copy, Debug, PartialEq, Eq, Error)]
pub enum RunFault {
    /// A command was not given. Where there was no room in memory for it, it is refused as the
    /// store refuses one.
    #[error("{0}")]
    Given(GiveFault),
    /// Reading failed. What was read before is stored, and the channel stays open.
    #[error("reading the input failed")]
    Input,
    /// 2^40 bytes were taken, and are stored. The channel stays open.
    #[error("2^40 bytes of input were taken")]
    Endless,
}

/// The stream of the channel `~`, all of whose commands are given at one moment.
#[derive(Clone, Copy)]
struct Stream {
    alloc: Global,
    moment: i64,
}

/// Gives a command to the store, and commits all that is accepted where that is due.
fn give_one<M: Listing + Drop, D: Disk>(
    store: &mut Store<M>,
    disk: &mut D,
    command: Command,
    moment: i64,
) -> Result<(), GiveFault>
    requires over { LogsAtEnd D.Disk store.old.committer disk.old }
    requires takes { M.takes (record { command = command; moment = moment }) }
    ensures given { (choose : Chooser) (history : List TimedCommand) (base k : ℕ) → M.is_chooser choose → AllByRecursion M.takes history →
        Represents D.Disk M.Book.fits M.holds choose history base k store.old disk.old →
        Gives D.Disk M.Book.fits M.holds (outset choose history base k store.old.run disk.old) store.new disk.new result
        (record { command = command; moment = moment } ∷ []) }
    ensures over { is_cut result ≡ false → LogsAtEnd D.Disk store.new.committer disk.new }
    ensures measured { is_cut result ≡ false → KnowsLogLength D.Disk store.old.committer disk.old →
        KnowsLogLength D.Disk store.new.committer disk.new }
    ensures undamaged { (file : File) (at : ℕ) → result ≡ Err (GiveFault.Commit (CommitFault.Damaged file at)) →
        (choose : Chooser) (history : List TimedCommand) (base k : ℕ) → M.is_chooser choose →
        AllByRecursion M.takes history → Represents D.Disk M.Book.fits M.holds choose history base k store.old disk.old → (image : Image) →
        D.Disk.seen disk.new ≡ Some image → ⊥ }
    ensures placed { (file : File) (at : ℕ) → result ≡ Err (GiveFault.Commit (CommitFault.Damaged file at)) →
        ReadsEnd D.Disk disk.new file at }
    ensures told { Told Anyhow (D.Disk.seen disk.old) (D.Disk.seen disk.new) }
    ensures later { D.Disk.faults disk.old ≤ D.Disk.faults disk.new }
    ensures cause { IfErr result (λ fault. fault ≡ GiveFault.Commit CommitFault.Disk →
        Rose (D.Disk.faults disk.old) (D.Disk.faults disk.new)) }
{
    match give(store, disk, command, moment) {
        Ok(_) => Ok(()),
        Err(fault) => Err(fault),
    }
}

/// The name of the channel.
fn name(alloc: Global) -> Result<Bytes, GiveFault>
    ensures name { IfOk result (λ name. name ≡ tilde) }
    ensures refused { IfErr result (λ fault. fault ≡ GiveFault.Refused Refusal.NoMemory) }
{
    match Bytes::copy_of(alloc, b"~") {
        Ok(name) => Ok(name),
        Err(_) => Err(GiveFault::Refused(Refusal::NoMemory)),
    }
}

/// Room for the bytes that are read at once.
fn make_room(alloc: Global) -> Result<Vec<u8>, GiveFault>
    ensures some { IfOk result (λ room. 0 < vec_len room) }
    ensures most { IfOk result (λ room. vec_len room ≤ 1048576) }
    ensures refused { IfErr result (λ fault. fault ≡ GiveFault.Refused Refusal.NoMemory) }
{
    match vec![in alloc; 0u8; BLOCK] {
        Ok(room) => Ok(room),
        Err(_) => Err(GiveFault::Refused(Refusal::NoMemory)),
    }
}

impl Stream {
    /// Ends the channel.
    fn end<M: Listing + Drop, D: Disk>(
        self,
        store: &mut Store<M>,
        disk: &mut D,
    ) -> Result<(), GiveFault>
        requires over { LogsAtEnd D.Disk store.old.committer disk.old }
        requires takes { M.takes (end_order self.moment) }
        ensures given { (choose : Chooser) (history : List TimedCommand) (base k : ℕ) → M.is_chooser choose →
            AllByRecursion M.takes history →
            Represents D.Disk M.Book.fits M.holds choose history base k store.old disk.old →
            Gives D.Disk M.Book.fits M.holds (outset choose history base k store.old.run disk.old) store.new disk.new result
            (end_order self.moment ∷ []) }
        ensures over { is_cut result ≡ false → LogsAtEnd D.Disk store.new.committer disk.new }
        ensures measured { is_cut result ≡ false → KnowsLogLength D.Disk store.old.committer disk.old →
            KnowsLogLength D.Disk store.new.committer disk.new }
        ensures undamaged { (file : File) (at : ℕ) → result ≡ Err (GiveFault.Commit (CommitFault.Damaged file at)) →
            (choose : Chooser) (history : List TimedCommand) (base k : ℕ) → M.is_chooser choose →
            AllByRecursion M.takes history → Represents D.Disk M.Book.fits M.holds choose history base k store.old disk.old →
            (image : Image) → D.Disk.seen disk.new ≡ Some image → ⊥ }
        ensures placed { (file : File) (at : ℕ) → result ≡ Err (GiveFault.Commit (CommitFault.Damaged file at)) →
            ReadsEnd D.Disk disk.new file at }
        ensures told { Told Anyhow (D.Disk.seen disk.old) (D.Disk.seen disk.new) }
        ensures later { D.Disk.faults disk.old ≤ D.Disk.faults disk.new }
        ensures cause { IfErr result (λ fault. fault ≡ GiveFault.Commit CommitFault.Disk →
            Rose (D.Disk.faults disk.old) (D.Disk.faults disk.new)) }
    {
        let channel = match name(self.alloc) {
            Ok(channel) => channel,
            Err(fault) => return Err(fault),
        };
        give_one(store, disk, Command::End { channel }, self.moment)
    }

    /// Begins the channel.
    fn begin<M: Listing + Drop, D: Disk>(
        self,
        store: &mut Store<M>,
        disk: &mut D,
        origin: ChannelMeta,
    ) -> Result<(), GiveFault>
        requires over { LogsAtEnd D.Disk store.old.committer disk.old }
        requires takes { M.takes (begin_order origin self.moment) }
        ensures given { (choose : Chooser) (history : List TimedCommand) (base k : ℕ) → M.is_chooser choose →
            AllByRecursion M.takes history →
            Represents D.Disk M.Book.fits M.holds choose history base k store.old disk.old →
            Gives D.Disk M.Book.fits M.holds (outset choose history base k store.old.run disk.old) store.new disk.new result
            (begin_order origin self.moment ∷ []) }
        ensures over { is_cut result ≡ false → LogsAtEnd D.Disk store.new.committer disk.new }
        ensures measured { is_cut result ≡ false → KnowsLogLength D.Disk store.old.committer disk.old →
            KnowsLogLength D.Disk store.new.committer disk.new }
        ensures undamaged { (file : File) (at : ℕ) → result ≡ Err (GiveFault.Commit (CommitFault.Damaged file at)) →
            (choose : Chooser) (history : List TimedCommand) (base k : ℕ) → M.is_chooser choose →
            AllByRecursion M.takes history → Represents D.Disk M.Book.fits M.holds choose history base k store.old disk.old →
            (image : Image) → D.Disk.seen disk.new ≡ Some image → ⊥ }
        ensures placed { (file : File) (at : ℕ) → result ≡ Err (GiveFault.Commit (CommitFault.Damaged file at)) →
            ReadsEnd D.Disk disk.new file at }
        ensures told { Told Anyhow (D.Disk.seen disk.old) (D.Disk.seen disk.new) }
        ensures later { D.Disk.faults disk.old ≤ D.Disk.faults disk.new }
        ensures cause { IfErr result (λ fault. fault ≡ GiveFault.Commit CommitFault.Disk →
            Rose (D.Disk.faults disk.old) (D.Disk.faults disk.new)) }
    {
        let channel = match name(self.alloc) {
            Ok(channel) => channel,
            Err(fault) => return Err(fault),
        };
        let meta = origin;
        give_one(store, disk, Command::Begin { channel, meta }, self.moment)
    }

    /// Adds bytes to the stream.
    fn add<M: Listing + Drop, D: Disk>(
        self,
        store: &mut Store<M>,
        disk: &mut D,
        bytes: &[u8],
    ) -> Result<(), GiveFault>
        requires over { LogsAtEnd D.Disk store.old.committer disk.old }
        requires takes { M.takes (block_order self.moment bytes.now) }
        ensures given { (choose : Chooser) (history : List TimedCommand) (base k : ℕ) → M.is_chooser choose →
            AllByRecursion M.takes history →
            Represents D.Disk M.Book.fits M.holds choose history base k store.old disk.old →
            Gives D.Disk M.Book.fits M.holds (outset choose history base k store.old.run disk.old) store.new disk.new result
            (block_order self.moment bytes.now ∷ []) }
        ensures over { is_cut result ≡ false → LogsAtEnd D.Disk store.new.committer disk.new }
        ensures measured { is_cut result ≡ false → KnowsLogLength D.Disk store.old.committer disk.old →
            KnowsLogLength D.Disk store.new.committer disk.new }
        ensures undamaged { (file : File) (at : ℕ) → result ≡ Err (GiveFault.Commit (CommitFault.Damaged file at)) →
            (choose : Chooser) (history : List TimedCommand) (base k : ℕ) → M.is_chooser choose →
            AllByRecursion M.takes history → Represents D.Disk M.Book.fits M.holds choose history base k store.old disk.old →
            (image : Image) → D.Disk.seen disk.new ≡ Some image → ⊥ }
        ensures placed { (file : File) (at : ℕ) → result ≡ Err (GiveFault.Commit (CommitFault.Damaged file at)) →
            ReadsEnd D.Disk disk.new file at }
        ensures told { Told Anyhow (D.Disk.seen disk.old) (D.Disk.seen disk.new) }
        ensures later { D.Disk.faults disk.old ≤ D.Disk.faults disk.new }
        ensures cause { IfErr result (λ fault. fault ≡ GiveFault.Commit CommitFault.Disk →
            Rose (D.Disk.faults disk.old) (D.Disk.faults disk.new)) }
    {
        let channel = match name(self.alloc) {
            Ok(channel) => channel,
            Err(fault) => return Err(fault),
        };
        let bytes = match Bytes::copy_of(self.alloc, bytes) {
            Ok(bytes) => bytes,
            Err(_) => return Err(GiveFault::Refused(Refusal::NoMemory)),
        };
        let spot = None;
        give_one(
            store,
            disk,
            Command::Block {
                channel,
                bytes,
                spot,
            },
            self.moment,
        )
    }

    /// Ends the channel where it is open, and begins it.
    fn open<M: Listing + Drop, D: Disk>(
        self,
        store: &mut Store<M>,
        disk: &mut D,
        origin: ChannelMeta,
    ) -> Result<(), GiveFault>
        requires over { LogsAtEnd D.Disk store.old.committer disk.old }
        requires ends { M.takes (end_order self.moment) }
        requires begins { M.takes (begin_order origin self.moment) }
        ensures given { (choose : Chooser) (history : List TimedCommand) (base k : ℕ) → M.is_chooser choose →
            AllByRecursion M.takes history →
            Represents D.Disk M.Book.fits M.holds choose history base k store.old disk.old →
            Gives D.Disk M.Book.fits M.holds (outset choose history base k store.old.run disk.old) store.new disk.new result
            (opening (is_begun (state_after choose history) tilde) origin self.moment) }
        ensures over { is_cut result ≡ false → LogsAtEnd D.Disk store.new.committer disk.new }
        ensures measured { is_cut result ≡ false → KnowsLogLength D.Disk store.old.committer disk.old →
            KnowsLogLength D.Disk store.new.committer disk.new }
        ensures undamaged { (file : File) (at : ℕ) → result ≡ Err (GiveFault.Commit (CommitFault.Damaged file at)) →
            (choose : Chooser) (history : List TimedCommand) (base k : ℕ) → M.is_chooser choose →
            AllByRecursion M.takes history → Represents D.Disk M.Book.fits M.holds choose history base k store.old disk.old →
            (image : Image) → D.Disk.seen disk.new ≡ Some image → ⊥ }
        ensures placed { (file : File) (at : ℕ) → result ≡ Err (GiveFault.Commit (CommitFault.Damaged file at)) →
            ReadsEnd D.Disk disk.new file at }
        ensures told { Told Anyhow (D.Disk.seen disk.old) (D.Disk.seen disk.new) }
        ensures later { D.Disk.faults disk.old ≤ D.Disk.faults disk.new }
        ensures cause { IfErr result (λ fault. fault ≡ GiveFault.Commit CommitFault.Disk →
            Rose (D.Disk.faults disk.old) (D.Disk.faults disk.new)) }
    {
        if !store.has_channel(b"~") {
            return self.begin(store, disk, origin);
        }
        match self.end(store, disk) {
            Ok(()) => self.begin(store, disk, origin),
            Err(fault) => Err(fault),
        }
    }

    /// Adds the bytes of the input to the stream, to its end or up to the limit.
    fn fill<M: Listing + Drop, D: Disk, S: Source>(
        self,
        store: &mut Store<M>,
        disk: &mut D,
        input: &mut S,
        room: &mut [u8],
    ) -> Result<(), RunFault>
        requires over { LogsAtEnd D.Disk store.old.committer disk.old }
        requires some { 0 < length room.old }
        requires most { length room.old ≤ 1048576 }
        requires takes { (bytes : List ℕ) → IsBlock bytes → M.takes (block_order self.moment bytes) }
        ensures read { HasRead result (λ blocks. (choose : Chooser) (history : List TimedCommand) (base k : ℕ) → M.is_chooser choose →
            AllByRecursion M.takes history →
            Represents D.Disk M.Book.fits M.holds choose history base k store.old disk.old →
            Feeds D.Disk M.Book.fits M.holds (outset choose history base k store.old.run disk.old) store.new disk.new result
            (map (block_order self.moment) blocks) [])
            (S.left input.old) (S.left input.new) (S.faults input.old) (S.faults input.new) }
        ensures over { is_run_cut result ≡ false → LogsAtEnd D.Disk store.new.committer disk.new }
        ensures measured { is_run_cut result ≡ false → KnowsLogLength D.Disk store.old.committer disk.old →
            KnowsLogLength D.Disk store.new.committer disk.new }
        ensures undamaged { (file : File) (at : ℕ) → result ≡ Err (RunFault.Given (GiveFault.Commit (CommitFault.Damaged file at))) →
            (choose : Chooser) (history : List TimedCommand) (base k : ℕ) → M.is_chooser choose →
            AllByRecursion M.takes history → Represents D.Disk M.Book.fits M.holds choose history base k store.old disk.old →
            (image : Image) → D.Disk.seen disk.new ≡ Some image → ⊥ }
        ensures placed { (file : File) (at : ℕ) → result ≡ Err (RunFault.Given (GiveFault.Commit (CommitFault.Damaged file at))) →
            ReadsEnd D.Disk disk.new file at }
        ensures told { Told Anyhow (D.Disk.seen disk.old) (D.Disk.seen disk.new) }
        ensures later { D.Disk.faults disk.old ≤ D.Disk.faults disk.new }
        ensures read_later { S.faults input.old ≤ S.faults input.new }
        ensures cause { IsErrOf result (RunFault.Given (GiveFault.Commit CommitFault.Disk)) →
            Rose (D.Disk.faults disk.old) (D.Disk.faults disk.new) }
    {
        let mut taken: u64 = 0;
        while taken < INPUT_LIMIT {
            let most = (INPUT_LIMIT - taken).min(room.len() as u64) as usize;
            let block = &mut room[..most];
            let n = match input.read(block) {
                Ok(n) => n,
                Err(_) => return Err(RunFault::Input),
            };
            if n == 0 {
                return Ok(());
            }
            match self.add(store, disk, &block[..n]) {
                Ok(()) => {}
                Err(fault) => return Err(RunFault::Given(fault)),
            }
            taken += n as u64;
        }
        Err(RunFault::Endless)
    }

    /// Begins the channel, adds the whole input to its stream, and ends it.
    fn run<M: Listing + Drop, D: Disk, S: Source>(
        self,
        store: &mut Store<M>,
        disk: &mut D,
        input: &mut S,
        origin: ChannelMeta,
    ) -> Result<(), RunFault>
        requires over { LogsAtEnd D.Disk store.old.committer disk.old }
        requires ends { M.takes (end_order self.moment) }
        requires begins { M.takes (begin_order origin self.moment) }
        requires adds { (bytes : List ℕ) → IsBlock bytes → M.takes (block_order self.moment bytes) }
        ensures read { HasRead result (λ blocks. (choose : Chooser) (history : List TimedCommand) (base k : ℕ) → M.is_chooser choose →
            AllByRecursion M.takes history →
            Represents D.Disk M.Book.fits M.holds choose history base k store.old disk.old →
            Feeds D.Disk M.Book.fits M.holds (outset choose history base k store.old.run disk.old) store.new disk.new result
            (filling (is_begun (state_after choose history) tilde) origin self.moment blocks) (end_order self.moment ∷ []))
            (S.left input.old) (S.left input.new) (S.faults input.old) (S.faults input.new) }
        ensures over { is_run_cut result ≡ false → LogsAtEnd D.Disk store.new.committer disk.new }
        ensures measured { is_run_cut result ≡ false → KnowsLogLength D.Disk store.old.committer disk.old →
            KnowsLogLength D.Disk store.new.committer disk.new }
        ensures undamaged { (file : File) (at : ℕ) → result ≡ Err (RunFault.Given (GiveFault.Commit (CommitFault.Damaged file at))) →
            (choose : Chooser) (history : List TimedCommand) (base k : ℕ) → M.is_chooser choose →
            AllByRecursion M.takes history → Represents D.Disk M.Book.fits M.holds choose history base k store.old disk.old →
            (image : Image) → D.Disk.seen disk.new ≡ Some image → ⊥ }
        ensures placed { (file : File) (at : ℕ) → result ≡ Err (RunFault.Given (GiveFault.Commit (CommitFault.Damaged file at))) →
            ReadsEnd D.Disk disk.new file at }
        ensures told { Told Anyhow (D.Disk.seen disk.old) (D.Disk.seen disk.new) }
        ensures later { D.Disk.faults disk.old ≤ D.Disk.faults disk.new }
        ensures read_later { S.faults input.old ≤ S.faults input.new }
        ensures cause { IsErrOf result (RunFault.Given (GiveFault.Commit CommitFault.Disk)) →
            Rose (D.Disk.faults disk.old) (D.Disk.faults disk.new) }
    {
        let mut room = match make_room(self.alloc) {
            Ok(room) => room,
            Err(fault) => return Err(RunFault::Given(fault)),
        };
        match self.open(store, disk, origin) {
            Ok(()) => {}
            Err(fault) => return Err(RunFault::Given(fault)),
        }
        match self.fill(store, disk, input, &mut room) {
            Ok(()) => {}
            Err(fault) => return Err(fault),
        }
        match self.end(store, disk) {
            Ok(()) => Ok(()),
            Err(fault) => Err(RunFault::Given(fault)),
        }
    }
}

/// Whether the disk has failed at a commit.
fn is_run_cut(stored: &Result<(), RunFault>) -> bool
    ensures { result ≡ is_run_cut stored.now }
{
    match stored {
        Err(RunFault::Given(GiveFault::Commit(_))) => true,
        Err(RunFault::Given(GiveFault::Refused(_))) => false,
        Ok(()) | Err(RunFault::Input | RunFault::Endless) => false,
    }
}

/// Stores an input: ends the channel `~` where it is still open, begins it, adds the bytes of the
/// input to its stream in blocks, and ends it. All that the store has accepted is committed then,
/// also behind a fault, but where the disk fails.
pub fn store_input<M: Listing + Drop, D: Disk, S: Source>(
    alloc: Global,
    store: &mut Store<M>,
    disk: &mut D,
    input: &mut S,
    arrival: Arrival,
) -> Result<(), RunFault>
    requires over { LogsAtEnd D.Disk store.old.committer disk.old }
    requires ends { M.takes (end_order arrival.moment) }
    requires begins { M.takes (begin_order arrival.origin arrival.moment) }
    requires adds { (bytes : List ℕ) → IsBlock bytes → M.takes (block_order arrival.moment bytes) }
    ensures stored { HasRead result (λ blocks. (choose : Chooser) (history : List TimedCommand) (base k : ℕ) → M.is_chooser choose →
        AllByRecursion M.takes history →
        Represents D.Disk M.Book.fits M.holds choose history base k store.old disk.old →
        Stores D.Disk M.Book.fits M.holds (outset choose history base k store.old.run disk.old) store.new disk.new result
        (filling (is_begun (state_after choose history) tilde) arrival.origin arrival.moment blocks) (end_order arrival.moment ∷ []))
        (S.left input.old) (S.left input.new) (S.faults input.old) (S.faults input.new) }
    ensures over { is_run_cut result ≡ false → LogsAtEnd D.Disk store.new.committer disk.new }
    // What `shorten` asks for.
    ensures rest { is_run_cut result ≡ false → KnowsLogLength D.Disk store.old.committer disk.old →
        CheckpointReady D.Disk store.new.committer disk.new }
    // A disk that keeps what was committed is not damaged.
    ensures undamaged { (file : File) (at : ℕ) → result ≡ Err (RunFault.Given (GiveFault.Commit (CommitFault.Damaged file at))) →
        (choose : Chooser) (history : List TimedCommand) (base k : ℕ) → M.is_chooser choose →
        AllByRecursion M.takes history → Represents D.Disk M.Book.fits M.holds choose history base k store.old disk.old → (image : Image) →
        D.Disk.seen disk.new ≡ Some image → ⊥ }
    // Damage is where the named file ends, as the disk reads, whatever was committed.
    ensures placed { (file : File) (at : ℕ) → result ≡ Err (RunFault.Given (GiveFault.Commit (CommitFault.Damaged file at))) →
        ReadsEnd D.Disk disk.new file at }
    // A disk that tells what it reads goes on telling.
    ensures told { Told Anyhow (D.Disk.seen disk.old) (D.Disk.seen disk.new) }
    ensures later { D.Disk.faults disk.old ≤ D.Disk.faults disk.new }
    ensures read_later { S.faults input.old ≤ S.faults input.new }
    ensures cause { IsErrOf result (RunFault.Given (GiveFault.Commit CommitFault.Disk)) →
        Rose (D.Disk.faults disk.old) (D.Disk.faults disk.new) }
{
    let stream = Stream {
        alloc,
        moment: arrival.moment,
    };
    let stored = stream.run(store, disk, input, arrival.origin);
    if is_run_cut(&stored) {
        return stored;
    }
    match commit_all(store, disk) {
        Ok(()) => stored,
        Err(fault) => Err(RunFault::Given(GiveFault::Commit(fault))),
    }
}
