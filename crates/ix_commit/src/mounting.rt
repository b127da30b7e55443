//! Mounting: the logs are read, the state is replayed, and the next run begins.

ghost use Rattle.std.specs.Prelude.{◌≡◌, ◌≤◌, ◌<◌, ◌+◌, ◌-◌, ◌^◌, ◌++◌, ◌∷◌, ◌⊎◌, ℕ, [], length, Some, Ok, Err, OnOk, OnErr, IfOk};
ghost use Rattle.std.specs.Prelude.{IsErrOf, true, false};
ghost use Rattle.ix_base.specs.Faults.{Rose};
ghost use Rattle.ix_base.specs.Told.{Told};
ghost use Rattle.ix_base.specs.declared.files.File.{File};
ghost use Rattle.ix_items.specs.declared.items.Item.TheVariants as items;
ghost use Rattle.ix_items.specs.Spelling.{HasSpelling};
ghost use Rattle.ix_disk.specs.Image.{Image, bytes_in, Stays};
ghost use Rattle.ix_disk.specs.Moments.{ImagesStep, Always};
ghost use Rattle.ix_log.specs.Log.{IsAtEnd, IsAsRead, file_of};
ghost use Rattle.ix_manifest.specs.Book.{NamedItems, empty, after_item, run_in, removals_in, has_settings};
ghost use Rattle.ix_manifest.specs.Root.{Taken, roots, log_file, IsBadRoot};
ghost use Rattle.ix_manifest.specs.Replaying.{IsReplayed, IsBadGate};
ghost use Rattle.ix_manifest.specs.Slots.{items_of};
ghost use Rattle.ix_commit.specs.Contents.{Anyhow};
ghost use Rattle.ix_commit.specs.Snapshot.{Snapshot, LogsAtEnd, NothingStaged, KnowsLogLength, Stages, log_of};
ghost use Rattle.ix_commit.specs.Snapshot.{with_item, begun};
ghost use Rattle.ix_commit.specs.Growing.{HasGrown};
ghost use Rattle.ix_commit.specs.Reads.{ReadsNone, IsBegunFrom, HasNoRun, first_items};
ghost use Rattle.ix_commit.specs.Undo.{HasSameLogs};
ghost use Rattle.ix_commit.specs.Mounting.{IsRead, IsFamily, AllKeep, KeepsOneOf, IsMountedAt, IsBadMount, IsBadLog, as_mount};
ghost use Rattle.ix_commit.specs.Mounting.{as_mount_too, BeginsRun, HasNoNext, IsPending};

use crate::committer::{Committer, StageFault};
use crate::committing::commit;
use crate::fault::CommitFault;
use crate::removing::remove_all;
use ix_base::{File, NoMemory as OutOfMemory, Sequence};
use ix_disk::Disk;
use ix_items::{FileList, Item};
use ix_log::Log;
use ix_manifest::{ManifestState, ReplayFault, log_file, read_root, replay_log};
use std::alloc::Global;
use thiserror::Error;

/// Why nothing was mounted.
#[derive(Clone, Copy, Debug, PartialEq, Eq, Error)]
pub enum MountFault {
    /// The disk has failed.
    #[error("the disk failed")]
    Disk,
    /// In this log, behind the gate at this place, stands no body that counts.
    #[error("the log {file:?} is damaged at byte {at}")]
    Damaged { file: File, at: u64 },
    /// No further run has a number, or the state above has no room for the first body of a store.
    #[error("the store has no room for another run")]
    Full,
    /// There was no room in memory.
    #[error("there was no room in memory")]
    NoMemory,
}

/// A mount of which the logs are read, and nothing is written yet. What begins the next run is
/// staged, where there is room for it.
#[derive(Drop)]
pub struct PendingMount {
    pub(crate) committer: Committer,
    /// The files that the last removals name.
    pub(crate) removals: FileList,
    /// Whether the next run has a number, and the state above takes what begins it.
    pub(crate) has_room: bool,
}

impl PendingMount {
    /// The file of the current log.
    pub fn current(&self) -> File
        ensures { result ≡ log_file self.now.committer.number }
    {
        self.committer.current()
    }
}

/// What a fault of the log in this file is.
fn as_mount(file: File, fault: ReplayFault) -> MountFault
    ensures { result ≡ as_mount file fault }
{
    match fault {
        ReplayFault::Disk => MountFault::Disk,
        ReplayFault::Damaged { at } => MountFault::Damaged { file, at },
        ReplayFault::NoMemory => MountFault::NoMemory,
    }
}

impl From<CommitFault> for MountFault {
    ghost from_gives = { λ fault e. e ≡ as_mount_too fault };

    fn from(fault: CommitFault) -> MountFault {
        match fault {
            CommitFault::Disk => MountFault::Disk,
            CommitFault::Damaged { file, at } => MountFault::Damaged { file, at },
        }
    }
}

/// Reads the root log: the log, and the number of the current one.
fn read_numbers<D: Disk>(alloc: Global, disk: &mut D) -> Result<(Log, u64), MountFault>
    ensures read { IfOk result (λ found. (1 ≤ found.1) × IsAtEnd D.Disk found.0 disk.new (roots (found.1 - 1))) }
    ensures file { IfOk result (λ found. file_of found.0 ≡ log_file 0) }
    ensures damaged { (named : File) (at : ℕ) → IsBadMount result named at → (named ≡ log_file 0)
        × ((image : Image) → D.Disk.seen disk.old ≡ Some image → IsBadRoot at (bytes_in image (log_file 0))) }
    ensures not_full { IsErrOf result MountFault.Full → ⊥ }
    ensures same { D.Disk.seen disk.new ≡ D.Disk.seen disk.old }
    ensures images { ImagesStep D.Disk disk.old disk.new Stays }
    ensures later { D.Disk.faults disk.old ≤ D.Disk.faults disk.new }
    ensures cause { IsErrOf result MountFault.Disk → Rose (D.Disk.faults disk.old) (D.Disk.faults disk.new) }
{
    let file = log_file(0);
    let Ok(mut log) = Log::mount(alloc, disk, file) else {
        return Err(MountFault::Disk);
    };
    match read_root(alloc, &mut log, disk) {
        Ok(number) => Ok((log, number)),
        Err(fault) => Err(as_mount(file, fault)),
    }
}

/// Reads the current log into the state: the log, and how many bytes its first body has.
fn read_current<D: Disk, B: ManifestState>(
    alloc: Global,
    disk: &mut D,
    file: File,
    state: &mut B,
) -> Result<(Log, u64), MountFault>
    requires { B.stands state.old ≡ empty }
    ensures read { IfOk result (λ found. IsReplayed D.Disk (Taken B.fits file) found.0 disk.new empty (B.stands state.new) found.1) }
    ensures settled { IfOk result (λ found. IsAsRead D.Disk disk.new file) }
    ensures file { IfOk result (λ found. file_of found.0 ≡ file) }
    ensures damaged { (named : File) (at : ℕ) → IsBadMount result named at → (named ≡ file)
        × ((image : Image) → D.Disk.seen disk.old ≡ Some image → IsBadGate (Taken B.fits file) empty at (bytes_in image file)) }
    ensures not_full { IsErrOf result MountFault.Full → ⊥ }
    ensures same { D.Disk.seen disk.new ≡ D.Disk.seen disk.old }
    ensures images { ImagesStep D.Disk disk.old disk.new Stays }
    ensures later { D.Disk.faults disk.old ≤ D.Disk.faults disk.new }
    ensures cause { IsErrOf result MountFault.Disk → Rose (D.Disk.faults disk.old) (D.Disk.faults disk.new) }
{
    let Ok(mut log) = Log::mount(alloc, disk, file) else {
        return Err(MountFault::Disk);
    };
    match replay_log(alloc, &mut log, disk, state, file) {
        Ok(first) => Ok((log, first)),
        Err(fault) => Err(as_mount(file, fault)),
    }
}

/// Reads the logs of a disk: a committer that has staged nothing.
fn read<D: Disk, B: ManifestState>(
    alloc: Global,
    disk: &mut D,
    state: &mut B,
) -> Result<Committer, MountFault>
    requires { B.stands state.old ≡ empty }
    ensures read { IfOk result (λ committer. IsRead D.Disk B.fits committer disk.new (B.stands state.new)) }
    ensures damaged { (named : File) (at : ℕ) → IsBadMount result named at → (image : Image) → D.Disk.seen disk.old ≡ Some image →
        IsBadLog B.fits named at image }
    ensures not_full { IsErrOf result MountFault.Full → ⊥ }
    ensures same { D.Disk.seen disk.new ≡ D.Disk.seen disk.old }
    ensures images { ImagesStep D.Disk disk.old disk.new Stays }
    ensures later { D.Disk.faults disk.old ≤ D.Disk.faults disk.new }
    ensures cause { IsErrOf result MountFault.Disk → Rose (D.Disk.faults disk.old) (D.Disk.faults disk.new) }
{
    let (root, number) = read_numbers(alloc, disk)?;
    let (log, first) = read_current(alloc, disk, log_file(number), state)?;
    match Committer::over(alloc, root, log, number, first) {
        Ok(committer) => Ok(committer),
        Err(_) => Err(MountFault::NoMemory),
    }
}

/// Puts an item into the state and stages it. The two are the same item.
fn enter<B: ManifestState>(
    alloc: Global,
    committer: &mut Committer,
    state: &mut B,
    item: Item,
    again: Item,
) -> Result<(), MountFault>
    requires same { again ≡ item }
    requires proper { HasSpelling item }
    ensures staged { (old new : Snapshot) → Stages committer.old old new → OnOk result (Stages committer.new old (with_item item new)) }
    ensures made { OnOk result (B.stands state.new ≡ after_item item (B.stands state.old)) }
    ensures logs { HasSameLogs committer.old committer.new }
    ensures parts { committer.new.parts ≡ committer.old.parts }
    ensures copies { committer.new.copies ≡ committer.old.copies }
    ensures some { OnOk result (0 < length committer.new.slots) }
    ensures items { OnOk result (items_of committer.new.slots ≡ items_of committer.old.slots ++ item ∷ []) }
    ensures memory { OnErr result (result ≡ Err MountFault.NoMemory) }
{
    if state.apply(item).is_err() {
        drop(again);
        return Err(MountFault::NoMemory);
    }
    if committer.push_item(alloc, again).is_err() {
        return Err(MountFault::NoMemory);
    }
    Ok(())
}

/// Stages what begins a run; in a new store its settings too, none at first.
fn enter_run<B: ManifestState>(
    alloc: Global,
    committer: &mut Committer,
    state: &mut B,
    fresh: bool,
    run: u64,
) -> Result<(), MountFault>
    requires { run < 2 ^ 63 }
    ensures staged { (old new : Snapshot) → Stages committer.old old new → OnOk result (Stages committer.new old (begun fresh run new)) }
    ensures made { (s : Snapshot) → B.stands state.old ≡ s.book → OnOk result (B.stands state.new ≡ (begun fresh run s).book) }
    ensures logs { HasSameLogs committer.old committer.new }
    ensures parts { committer.new.parts ≡ committer.old.parts }
    ensures copies { committer.new.copies ≡ committer.old.copies }
    ensures some { OnOk result (0 < length committer.new.slots) }
    ensures items { OnOk result (items_of committer.new.slots ≡ items_of committer.old.slots ++ first_items fresh run) }
    ensures memory { OnErr result (result ≡ Err MountFault.NoMemory) }
{
    if !fresh {
        enter(
            alloc,
            committer,
            state,
            Item::Run { run },
            Item::Run { run },
        )?;
        return Ok(());
    }
    let kept = Sequence::new(alloc);
    let again = Sequence::new(alloc);
    enter(
        alloc,
        committer,
        state,
        Item::Settings { kept },
        Item::Settings { kept: again },
    )?;
    enter(
        alloc,
        committer,
        state,
        Item::Run { run },
        Item::Run { run },
    )?;
    Ok(())
}

/// Stages what begins the next run, where that has a number: whether it has one, and the state above
/// takes it then.
fn stage_run<B: ManifestState>(
    alloc: Global,
    committer: &mut Committer,
    state: &mut B,
) -> Result<bool, MountFault>
    requires { NothingStaged committer.old }
    ensures begins { result ≡ Ok true → BeginsRun B.fits committer.new (B.stands state.old) (B.stands state.new) }
    ensures none { result ≡ Ok false → HasNoNext B.fits (B.stands state.old) (B.stands state.new) }
    ensures logs { HasSameLogs committer.old committer.new }
    ensures parts { committer.new.parts ≡ committer.old.parts }
    ensures copies { committer.new.copies ≡ committer.old.copies }
    ensures memory { OnErr result (result ≡ Err MountFault.NoMemory) }
{
    let run = state.run();
    if run >= 9_223_372_036_854_775_807 {
        return Ok(false);
    }
    let fresh = !state.has_settings();
    enter_run(alloc, committer, state, fresh, run + 1)?;
    match state.judge() {
        Ok(fits) => Ok(fits),
        Err(_) => Err(MountFault::NoMemory),
    }
}

/// A list of these files.
fn list_of(alloc: Global, files: &[File]) -> Result<FileList, OutOfMemory>
    ensures { IfOk result (λ list. list ≡ files.now) }
{
    let items = files.to_vec(alloc)?;
    Ok(Sequence::from_vec(items))
}

/// Reads the logs of a disk into the state, and stages what begins the next run. Nothing is written
/// and nothing is removed: what comes of the items of the state can be judged before `finish_mount`
/// goes on. The state is that of no items at the start.
pub fn prepare_mount<D: Disk, B: ManifestState>(
    alloc: Global,
    disk: &mut D,
    state: &mut B,
) -> Result<PendingMount, MountFault>
    requires { B.stands state.old ≡ empty }
    ensures pending { IfOk result (λ pending. IsPending D.Disk B.fits pending disk.new (B.stands state.new)) }
    // What going on asks for.
    ensures over { IfOk result (λ pending. LogsAtEnd D.Disk pending.committer disk.new) }
    // It names the gate of the first bad body of the root log or the current one, as the disk
    // reads.
    ensures damaged { (named : File) (at : ℕ) → IsBadMount result named at → (image : Image) → D.Disk.seen disk.old ≡ Some image →
        IsBadLog B.fits named at image }
    ensures not_full { IsErrOf result MountFault.Full → ⊥ }
    // The disk is left as it was.
    ensures same { D.Disk.seen disk.new ≡ D.Disk.seen disk.old }
    ensures images { ImagesStep D.Disk disk.old disk.new Stays }
    ensures later { D.Disk.faults disk.old ≤ D.Disk.faults disk.new }
    ensures cause { IsErrOf result MountFault.Disk → Rose (D.Disk.faults disk.old) (D.Disk.faults disk.new) }
{
    let mut committer = read(alloc, disk, state)?;
    let Ok(removals) = list_of(alloc, state.removals()) else {
        return Err(MountFault::NoMemory);
    };
    let has_room = stage_run(alloc, &mut committer, state)?;
    Ok(PendingMount {
        committer,
        removals,
        has_room,
    })
}

/// Goes on with a mount: removes again the files that the last removals name, and writes the body
/// that begins the next run. It is full where there is no room for that.
pub fn finish_mount<D: Disk, B: ManifestState>(
    pending: PendingMount,
    disk: &mut D,
) -> Result<Committer, MountFault>
    requires { LogsAtEnd D.Disk pending.committer disk.old }
    // Where every image at the start keeps one of a family of snapshots, every image since does.
    ensures images { (now : NamedItems) → IsPending D.Disk B.fits pending disk.old now →
        (family : ℕ → Snapshot) (run from to : ℕ) → IsFamily family from to → AllKeep D.Disk disk.old B.fits run family from to →
        Always D.Disk disk.old disk.new (KeepsOneOf B.fits run family from to) }
    // At Ok disk and committer hold the one that the disk's own reading keeps, with the next run.
    ensures mounted { (now : NamedItems) → IsPending D.Disk B.fits pending disk.old now → IfOk result (λ committer.
        (family : ℕ → Snapshot) (run from to : ℕ) → IsFamily family from to → AllKeep D.Disk disk.old B.fits run family from to →
        (image : Image) → D.Disk.seen disk.old ≡ Some image → IsMountedAt D.Disk B.fits committer disk.new now family from to image) }
    // What a commit asks for.
    ensures over { IfOk result (λ committer. LogsAtEnd D.Disk committer disk.new) }
    ensures idle { IfOk result (λ committer. NothingStaged committer) }
    // And the committer knows how long the log is.
    ensures measured { (now : NamedItems) → IsPending D.Disk B.fits pending disk.old now →
        IfOk result (λ committer. KnowsLogLength D.Disk committer disk.new) }
    // Behind the bodies that were read, the current log has the one that begins the run, and no
    // other.
    ensures grown { (now : NamedItems) → IsPending D.Disk B.fits pending disk.old now → IfOk result (λ committer.
        (first second : Image) → D.Disk.seen disk.old ≡ Some first → D.Disk.seen disk.new ≡ Some second →
        HasGrown B.fits committer.number first second now) }
    // Then the files that the last removals name are gone.
    ensures removed { (now : NamedItems) → IsPending D.Disk B.fits pending disk.old now →
        IfOk result (λ committer. ReadsNone D.Disk disk.new (log_of committer) (removals_in now)) }
    // A disk that tells what it reads goes on telling.
    ensures told { Told Anyhow (D.Disk.seen disk.old) (D.Disk.seen disk.new) }
    // It is full exactly where there is no room, and finds no damage.
    ensures full { IsErrOf result MountFault.Full → pending.has_room ≡ false }
    ensures begun { OnOk result (pending.has_room ≡ true) }
    ensures undamaged { (now : NamedItems) → IsPending D.Disk B.fits pending disk.old now →
        (named : File) (at : ℕ) → IsBadMount result named at → ⊥ }
    ensures later { D.Disk.faults disk.old ≤ D.Disk.faults disk.new }
    ensures cause { IsErrOf result MountFault.Disk → Rose (D.Disk.faults disk.old) (D.Disk.faults disk.new) }
{
    let PendingMount {
        mut committer,
        removals,
        has_room,
    } = pending;
    if remove_all(disk, removals.as_slice(), log_file(committer.number)).is_err() {
        return Err(MountFault::Disk);
    }
    if !has_room {
        return Err(MountFault::Full);
    }
    commit::<D, B>(&mut committer, disk)?;
    Ok(committer)
}

/// Mounts a store: replays its current log into the state, removes again the files that its last
/// removals name, and begins the next run, whose number it writes in a body of its own before it
/// answers. The state is that of no items at the start.
pub fn mount<D: Disk, B: ManifestState>(
    alloc: Global,
    disk: &mut D,
    state: &mut B,
) -> Result<Committer, MountFault>
    requires { B.stands state.old ≡ empty }
    // Where every image at the start keeps one of a family of snapshots, every image since does.
    ensures images { (family : ℕ → Snapshot) (run from to : ℕ) → IsFamily family from to →
        AllKeep D.Disk disk.old B.fits run family from to →
        Always D.Disk disk.old disk.new (KeepsOneOf B.fits run family from to) }
    // At Ok disk and committer hold the one that the disk's own reading keeps, with the next run.
    ensures mounted { IfOk result (λ committer. (family : ℕ → Snapshot) (run from to : ℕ) → IsFamily family from to →
        AllKeep D.Disk disk.old B.fits run family from to →
        (image : Image) → D.Disk.seen disk.old ≡ Some image →
        IsMountedAt D.Disk B.fits committer disk.new (B.stands state.new) family from to image) }
    // What a commit asks for.
    ensures over { IfOk result (λ committer. LogsAtEnd D.Disk committer disk.new) }
    ensures idle { IfOk result (λ committer. NothingStaged committer) }
    // And the committer knows how long the log is.
    ensures measured { IfOk result (λ committer. KnowsLogLength D.Disk committer disk.new) }
    // As the disk reads, its logs lead to a book, and the state stands for that one with the next
    // run begun.
    ensures read { OnOk result ((image : Image) → D.Disk.seen disk.old ≡ Some image → IsBegunFrom B.fits image (B.stands state.new)) }
    // Behind the bodies that it has read then, the current log has the one that begins the run, and
    // no other.
    ensures grown { IfOk result (λ committer. (first second : Image) → D.Disk.seen disk.old ≡ Some first →
        D.Disk.seen disk.new ≡ Some second →
        HasGrown B.fits committer.number first second (B.stands state.new)) }
    // Then the files that the last removals name are gone.
    ensures removed { IfOk result (λ committer. ReadsNone D.Disk disk.new (log_of committer) (removals_in (B.stands state.new))) }
    // A disk that tells what it reads goes on telling.
    ensures told { Told Anyhow (D.Disk.seen disk.old) (D.Disk.seen disk.new) }
    // It names the gate of the first bad body of the root log or the current one, as the disk
    // reads.
    ensures damaged { (named : File) (at : ℕ) → IsBadMount result named at → (image : Image) → D.Disk.seen disk.old ≡ Some image →
        IsBadLog B.fits named at image }
    // It is full exactly where the run that was found is the last, or the state above takes no
    // first body.
    ensures full { IsErrOf result MountFault.Full → (2 ^ 63 - 1 ≤ run_in (B.stands state.new)) ⊎ (B.fits (B.stands state.new) → ⊥) }
    ensures not_full { OnOk result (run_in (B.stands state.new) < 2 ^ 63) }
    // And so it is by the book that the logs lead to, as the disk reads.
    ensures full_as_read { IsErrOf result MountFault.Full → (image : Image) → D.Disk.seen disk.old ≡ Some image → HasNoRun B.fits image }
    ensures later { D.Disk.faults disk.old ≤ D.Disk.faults disk.new }
    ensures cause { IsErrOf result MountFault.Disk → Rose (D.Disk.faults disk.old) (D.Disk.faults disk.new) }
{
    let pending = prepare_mount(alloc, disk, state)?;
    finish_mount::<D, B>(pending, disk)
}
