//! The staged bytes of buckets: staging adds to them, a commit puts them behind the committed
//! bytes.

ghost use Rattle.std.specs.Prelude.{◌≡◌, ◌≢◌, ◌<◌, ◌≤◌, ℕ, List, length, get_or, set, take, map, IfOk, Some, Err, OnOk, OnErr, IsErrOf};
ghost use Rattle.std.specs.Prelude.{All, Contains};
ghost use Rattle.ix_base.specs.Faults.{Rose};
ghost use Rattle.ix_base.specs.declared.files.Area.TheVariants.{Meta};
ghost use Rattle.ix_base.specs.declared.files.File.{File};
ghost use Rattle.ix_base.specs.Told.{Told};
ghost use Rattle.ix_disk.specs.Image.{Image, bytes_in, Apart};
ghost use Rattle.ix_disk.specs.Moments.{ImagesStep, Holds};
ghost use Rattle.ix_bucket.specs.Append.{Behind, HasAt};
ghost use Rattle.ix_commit.specs.Contents.{Filling, Keeping, Spares, HoldsFilling};
ghost use Rattle.ix_commit.specs.Parts.{AreParts, file_in, home, more_staged};
ghost use Rattle.ix_commit.specs.Cuts.{len_in, cut_first};
ghost use Rattle.ix_commit.specs.declared.fault.CommitFault.{CommitFault};
ghost use Rattle.ix_commit.specs.declared.staged_append.StagedAppend.{StagedAppend};

use crate::fault::CommitFault;
use ix_base::{Area, Bytes, File, NoMemory, Sequence};
use ix_bucket::append;
use ix_disk::Disk;
use std::alloc::Global;
use std::mem;

/// Bytes that are staged behind those that are committed in a file.
#[derive(Drop)]
pub struct StagedAppend {
    /// The number of the file, in the area of buckets that take events.
    pub number: u64,
    /// How many bytes of the file are committed.
    pub committed: u64,
    pub staged: Bytes,
}

/// A file of the buckets that take events.
pub fn home(number: u64) -> File
    ensures { result ≡ home number }
{
    File {
        area: Area::Home,
        number,
    }
}

/// The place of the part of a file, or behind the last.
pub fn part_of(parts: &[StagedAppend], file: File) -> usize
    ensures within { result ≤ length parts.now }
    ensures found { (d : StagedAppend) → result < length parts.now → file_in (get_or parts.now result d) ≡ file }
    ensures none { result ≡ length parts.now → All (λ part. file_in part ≢ file) parts.now }
{
    let mut at = 0;
    while at < parts.len() {
        if home(parts[at].number) == file {
            return at;
        }
        at += 1;
    }
    at
}

/// Adds bytes to the part at a place.
pub fn extend_part(
    parts: &mut Sequence<StagedAppend>,
    at: usize,
    bytes: &[u8],
) -> Result<(), NoMemory>
    requires { at < length parts.old }
    ensures ok { OnOk result ((d : StagedAppend) → parts.new ≡ set parts.old at (more_staged (get_or parts.old at d) bytes.now)) }
    ensures err { OnErr result (parts.new ≡ parts.old) }
{
    let own = parts.empty();
    let mut list = mem::replace(parts, own).into_vec();
    let done = list[at].staged.extend(bytes);
    *parts = Sequence::from_vec(list);
    done
}

/// Puts staged bytes behind the committed ones.
#[tactic(auto, using(ix_disk::proofs::Others::others))]
fn settle<D: Disk>(disk: &mut D, part: &StagedAppend) -> Result<(), CommitFault>
    ensures images { ImagesStep D.Disk disk.old disk.new (Behind (file_in part.now) part.now.committed) }
    ensures appended { OnOk result (Holds D.Disk disk.new (file_in part.now) (HasAt part.now.committed part.now.staged)) }
    ensures seen { Told (Apart (file_in part.now)) (D.Disk.seen disk.old) (D.Disk.seen disk.new) }
    ensures sound { (image : Image) → D.Disk.seen disk.old ≡ Some image → part.now.committed ≤ length (bytes_in image (file_in part.now)) →
        (file : File) (at : ℕ) → result ≡ Err (CommitFault.Damaged file at) → ⊥ }
    ensures damaged { (file : File) (at : ℕ) → result ≡ Err (CommitFault.Damaged file at) → (file ≡ file_in part.now)
        × (at < part.now.committed)
        × ((image : Image) → D.Disk.seen disk.new ≡ Some image → at ≡ length (bytes_in image file)) }
    ensures later { D.Disk.faults disk.old ≤ D.Disk.faults disk.new }
    ensures cause { IsErrOf result CommitFault.Disk → Rose (D.Disk.faults disk.old) (D.Disk.faults disk.new) }
{
    let file = home(part.number);
    let len = disk.length(file)?;
    if len < part.committed {
        return Err(CommitFault::Damaged { file, at: len });
    }
    append(disk, file, part.committed, part.staged.as_slice())?;
    Ok(())
}

/// Puts all staged bytes behind the committed ones of their files.
pub fn settle_all<D: Disk>(disk: &mut D, parts: &[StagedAppend]) -> Result<(), CommitFault>
    ensures images { (log : File) (old new : Filling) → log.area ≡ Meta → AreParts old new parts.now →
        ImagesStep D.Disk disk.old disk.new (Spares log old) }
    ensures logs { (log : File) → log.area ≡ Meta → ImagesStep D.Disk disk.old disk.new (Keeping log) }
    ensures settled { (log : File) (old new : Filling) → log.area ≡ Meta → AreParts old new parts.now → HoldsFilling D.Disk disk.old old →
        OnOk result (HoldsFilling D.Disk disk.new new) }
    ensures seen { (other : File) → All (λ part. other ≢ file_in part) parts.now →
        Told (Keeping other) (D.Disk.seen disk.old) (D.Disk.seen disk.new) }
    ensures sound { (log : File) (old new : Filling) → log.area ≡ Meta → AreParts old new parts.now → HoldsFilling D.Disk disk.old old →
        (image : Image) → D.Disk.seen disk.old ≡ Some image → (file : File) (at : ℕ) → result ≡ Err (CommitFault.Damaged file at) → ⊥ }
    ensures damaged { (file : File) (at : ℕ) → result ≡ Err (CommitFault.Damaged file at) →
        ((part : StagedAppend) × Contains parts.now part × (file ≡ file_in part) × (at < part.committed))
        × ((image : Image) → D.Disk.seen disk.new ≡ Some image → at ≡ length (bytes_in image file)) }
    ensures later { D.Disk.faults disk.old ≤ D.Disk.faults disk.new }
    ensures cause { IsErrOf result CommitFault.Disk → Rose (D.Disk.faults disk.old) (D.Disk.faults disk.new) }
{
    for part in parts {
        settle(disk, part)?;
    }
    Ok(())
}

/// How many bytes each part has staged.
pub fn lengths_of(alloc: Global, parts: &[StagedAppend]) -> Result<Vec<usize>, NoMemory>
    ensures { IfOk result (λ lens. lens.items ≡ map len_in parts.now) }
{
    let mut lens = Vec::new(alloc);
    for part in parts {
        lens.push(part.staged.len())?;
    }
    Ok(lens)
}

fn cut_all(parts: &mut Vec<StagedAppend>, lens: &[usize])
    requires { length lens.now ≤ length parts.old.items }
    ensures { parts.new.items ≡ cut_first (length lens.now) lens.now (take (length lens.now) parts.old.items) }
{
    parts.truncate(lens.len());
    for i in 0..lens.len() {
        parts[i].staged.truncate(lens[i]);
    }
}

/// Takes back what was staged since the parts had these lengths.
pub fn cut_parts(parts: &mut Sequence<StagedAppend>, lens: &[usize])
    requires { length lens.now ≤ length parts.old }
    ensures { parts.new ≡ cut_first (length lens.now) lens.now (take (length lens.now) parts.old) }
{
    let own = parts.empty();
    let mut list = mem::replace(parts, own).into_vec();
    cut_all(&mut list, lens);
    *parts = Sequence::from_vec(list);
}
