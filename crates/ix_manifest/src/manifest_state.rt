//! The items of a log, replayed body by body into the state of whoever keeps one. Mounting a store
//! calls `replay_log`.

ghost use Rattle.std.specs.Prelude.{◌≡◌, ◌≤◌, ◌<◌, ◌+◌, ◌↔◌, ℕ, List, [], length, Some, Err, true, OnOk, IfOk, IsErrOf, IsTrue, All};
ghost use Rattle.ix_base.specs.Faults.{Rose};
ghost use Rattle.ix_base.specs.declared.files.File.{File};
ghost use Rattle.ix_disk.specs.Image.{Image, bytes_in, Stays};
ghost use Rattle.ix_disk.specs.Moments.{ImagesStep};
ghost use Rattle.ix_items.specs.declared.items.Item.{Item};
ghost use Rattle.ix_items.specs.Spelling.{HasSpelling};
ghost use Rattle.ix_log.specs.Log.{IsReading, IsMounted, OnMore, HasBodies, file_of};
ghost use Rattle.ix_manifest.specs.Book.{NamedItems, after_item, replay, run_in, removals_in, has_settings, AreItems, IsBody, Replays};
ghost use Rattle.ix_manifest.specs.Root.{Taken, IsNoLog};
ghost use Rattle.ix_manifest.specs.Replaying.{HasApplied, IsReplaying, IsReplayed, IsDamaged, IsBadGate, BadGateReplaysNothing, as_replay};
ghost use Rattle.ix_manifest.specs.Replaying.{first_after};

use crate::root::log_file;
use ix_base::{Bytes, File, NoMemory as OutOfMemory};
use ix_disk::Disk;
use ix_items::{Item, ItemFault, read_item};
use ix_log::{Log, LogFault};
use std::alloc::Global;
use thiserror::Error;

/// What the items of a log make, in memory: the state above, which judges each body by what it
/// leads to.
pub trait ManifestState {
    /// What stands under each name.
    ghost stands: { Self → NamedItems };

    /// Which books the state above takes: its bounds, and what else it asks of its items.
    ghost fits: { NamedItems → Type 0 };

    /// Puts an item in place of what stands under its name. Also an item that leads to no book that
    /// fits is taken: the judgement comes behind its body.
    fn apply(&mut self, item: Item) -> Result<(), OutOfMemory>
        requires { HasSpelling item }
        ensures { OnOk result (stands self.new ≡ after_item item (stands self.old)) };

    /// Whether what stands now fits. It is asked behind each body.
    fn judge(&mut self) -> Result<bool, OutOfMemory>
        ensures same { stands self.new ≡ stands self.old }
        ensures judged { IfOk result (λ fit. IsTrue fit ↔ fits (stands self.old)) };

    /// The run that was last begun, 0 where there was none.
    fn run(&self) -> u64
        ensures { result ≡ run_in (stands self.now) };

    /// Whether settings stand.
    fn has_settings(&self) -> bool
        ensures { result ≡ has_settings (stands self.now) };

    /// The files that the last removals name.
    fn removals(&self) -> &[File]
        ensures { result.now ≡ removals_in (stands self.now) };
}

/// Why a log was not replayed.
#[derive(Clone, Copy, Debug, PartialEq, Eq, Error)]
pub enum ReplayFault {
    /// The disk has failed.
    #[error("the disk failed")]
    Disk,
    /// The body behind the gate at this place does not end in the file, or is not a list of items
    /// that leads to a state that fits.
    #[error("no body that counts stands in the log at byte {at}")]
    Damaged { at: u64 },
    /// There was no room in memory.
    #[error("there was no room in memory")]
    NoMemory,
}

impl From<LogFault> for ReplayFault {
    ghost from_gives = { λ fault e. e ≡ as_replay fault };

    fn from(fault: LogFault) -> ReplayFault {
        match fault {
            LogFault::Disk => ReplayFault::Disk,
            LogFault::Damaged { at } => ReplayFault::Damaged { at },
            LogFault::NoMemory => ReplayFault::NoMemory,
        }
    }
}

/// Replays items. `BadItem` comes exactly where the bytes are not a list of items.
fn apply_all<B: ManifestState>(alloc: Global, state: &mut B, body: &[u8]) -> Result<(), ItemFault>
    ensures replayed { OnOk result (HasApplied body.now (B.stands state.old) (B.stands state.new)) }
    ensures bad { result ≡ Err ItemFault.BadItem → (items : List Item) → AreItems items body.now → ⊥ }
{
    let mut at = 0;
    while at < body.len() {
        let (item, len) = read_item(alloc, &body[at..])?;
        if state.apply(item).is_err() {
            return Err(ItemFault::NoMemory);
        }
        at += len;
    }
    Ok(())
}

/// Whether a file is neither the root log nor the current one.
fn is_no_log(file: File, current: File) -> bool
    ensures { IsTrue result ↔ IsNoLog current file }
{
    file != log_file(0) && file != current
}

/// Whether none of these files is the root log or the current one.
fn spares_logs(files: &[File], current: File) -> bool
    ensures { IsTrue result ↔ All (IsNoLog current) files.now }
{
    for file in files {
        if !is_no_log(*file, current) {
            return false;
        }
    }
    true
}

/// Whether what stands is taken: the state above judges, and the removals name no log that counts.
fn judge<B: ManifestState>(state: &mut B, current: File) -> Result<bool, OutOfMemory>
    ensures same { B.stands state.new ≡ B.stands state.old }
    ensures judged { IfOk result (λ fit. IsTrue fit ↔ Taken B.fits current (B.stands state.old)) }
{
    if !state.judge()? {
        return Ok(false);
    }
    Ok(spares_logs(state.removals(), current))
}

/// Replays a body. `BadItem` comes exactly where it is not at least one item, all of which lead to
/// a state that is taken.
fn take_body<B: ManifestState>(
    alloc: Global,
    state: &mut B,
    body: &[u8],
    current: File,
) -> Result<(), ItemFault>
    ensures replayed { OnOk result (HasApplied body.now (B.stands state.old) (B.stands state.new)) }
    ensures some { OnOk result (0 < length body.now) }
    ensures fits { OnOk result (Taken B.fits current (B.stands state.new)) }
    ensures bad { result ≡ Err ItemFault.BadItem → (items : List Item) → IsBody items body.now →
        Taken B.fits current (replay items (B.stands state.old)) → ⊥ }
{
    if body.is_empty() {
        return Err(ItemFault::BadItem);
    }
    apply_all(alloc, state, body)?;
    match judge(state, current) {
        Ok(true) => Ok(()),
        Ok(false) => Err(ItemFault::BadItem),
        Err(_) => Err(ItemFault::NoMemory),
    }
}

/// Reads the next body into `out` and replays its items. At the end of the log it answers false.
fn replay_next<D: Disk, B: ManifestState>(
    alloc: Global,
    log: &mut Log,
    disk: &mut D,
    out: &mut Bytes,
    state: &mut B,
    current: File,
) -> Result<bool, ReplayFault>
    requires { IsMounted D.Disk log.old disk.old }
    ensures more { (start : NamedItems) (first count : ℕ) →
        IsReplaying D.Disk (Taken B.fits current) log.old disk.old start (B.stands state.old) first count → IfOk result (λ more.
        OnMore more (IsReplaying D.Disk (Taken B.fits current) log.new disk.new start (B.stands state.new)
        (first_after count first (length out.new)) (count + 1))
        (IsReplayed D.Disk (Taken B.fits current) log.new disk.new start (B.stands state.new) first)) }
    ensures mounted { IfOk result (λ more. more ≡ true → IsMounted D.Disk log.new disk.new) }
    ensures damaged { (start : NamedItems) (first count : ℕ) →
        IsReplaying D.Disk (Taken B.fits current) log.old disk.old start (B.stands state.old) first count → (at : ℕ) → IsDamaged result at →
        (image : Image) → D.Disk.seen disk.old ≡ Some image → IsBadGate (Taken B.fits current) start at (bytes_in image (file_of log.old)) }
    ensures file { file_of log.new ≡ file_of log.old }
    ensures same { D.Disk.seen disk.new ≡ D.Disk.seen disk.old }
    ensures images { ImagesStep D.Disk disk.old disk.new Stays }
    ensures later { D.Disk.faults disk.old ≤ D.Disk.faults disk.new }
    ensures cause { IsErrOf result ReplayFault.Disk → Rose (D.Disk.faults disk.old) (D.Disk.faults disk.new) }
{
    let at = log.place();
    let more = log.next(disk, out)?;
    if !more {
        return Ok(false);
    }
    match take_body(alloc, state, out.as_slice(), current) {
        Ok(()) => Ok(true),
        Err(ItemFault::BadItem) => Err(ReplayFault::Damaged { at }),
        Err(ItemFault::NoMemory) => Err(ReplayFault::NoMemory),
    }
}

/// Replays the current log to its end, and answers how many bytes its first body has, 0 where there
/// is none. It is `Damaged` exactly where a body is cut, is not a list of items, or leads to a
/// state that is not taken, and names the gate of the first such body.
pub fn replay_log<D: Disk, B: ManifestState>(
    alloc: Global,
    log: &mut Log,
    disk: &mut D,
    state: &mut B,
    current: File,
) -> Result<u64, ReplayFault>
    requires { IsReading D.Disk log.old disk.old [] }
    ensures replayed { IfOk result (λ first. IsReplayed D.Disk (Taken B.fits current) log.new disk.new (B.stands state.old)
        (B.stands state.new) first) }
    ensures damaged { (at : ℕ) → IsDamaged result at → (image : Image) → D.Disk.seen disk.old ≡ Some image →
        IsBadGate (Taken B.fits current) (B.stands state.old) at (bytes_in image (file_of log.old)) }
    ensures file { file_of log.new ≡ file_of log.old }
    ensures same { D.Disk.seen disk.new ≡ D.Disk.seen disk.old }
    ensures images { ImagesStep D.Disk disk.old disk.new Stays }
    ensures later { D.Disk.faults disk.old ≤ D.Disk.faults disk.new }
    ensures cause { IsErrOf result ReplayFault.Disk → Rose (D.Disk.faults disk.old) (D.Disk.faults disk.new) }
{
    let mut out = Bytes::new(alloc);
    let mut first = 0;
    for i in 0..u64::MAX {
        if !replay_next(alloc, log, disk, &mut out, state, current)? {
            return Ok(first);
        }
        if i == 0 {
            first = out.len() as u64;
        }
    }
    Err(ReplayFault::NoMemory)
}

/// A log with a bad gate keeps nothing: none of its lists of bodies replays.
pub fn bad_gate_replays_nothing<B: ManifestState>()
    ensures { (log : File) → BadGateReplaysNothing (Taken B.fits log) }
{}
