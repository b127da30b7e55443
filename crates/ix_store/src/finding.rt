//! The gate of the body that says an item of which no state comes. `Store::mount` looks for it
//! where all bodies of a log count.

ghost use Rattle.std.specs.Prelude.{◌≡◌, ◌≤◌, ℕ, List, [], Some, Err, IfOk, IsErrOf};
ghost use Rattle.std.specs.List.{list_any};
ghost use Rattle.ix_base.specs.Faults.{Rose};
ghost use Rattle.ix_base.specs.declared.files.File.{File};
ghost use Rattle.ix_disk.specs.Image.{Image, bytes_in, Stays};
ghost use Rattle.ix_disk.specs.Moments.{ImagesStep};
ghost use Rattle.ix_items.specs.declared.items.Item.{Item as Logged};
ghost use Rattle.ix_log.specs.Log.{IsReading, HasBodies, file_of};
ghost use Rattle.ix_manifest.specs.Book.{NamedItems, AreItems, Replays, empty};
ghost use Rattle.ix_manifest.specs.Plain.{AnyBook};
ghost use Rattle.ix_manifest.specs.Replaying.{IsDamaged};
ghost use Rattle.ix_store.specs.Finding.{name_in, is_under, IsFound, IsLastSaid, blamed};

use crate::fault::MountFault;
use crate::faulty_item::FaultyItem;
use ix_base::{Bytes, File};
use ix_disk::Disk;
use ix_items::{Item, ItemFault, read_item};
use ix_log::Log;
use ix_manifest::ReplayFault;
use std::alloc::Global;

/// Whether an item of the body stands under the subject's name.
fn says(alloc: Global, body: &[u8], subject: &FaultyItem) -> Result<bool, ItemFault>
    ensures said { IfOk result (λ says. (items : List Logged) → AreItems items body.now →
        says ≡ list_any (is_under (name_in subject.now)) items) }
    ensures bad { result ≡ Err ItemFault.BadItem → (items : List Logged) → AreItems items body.now → ⊥ }
{
    let mut at = 0;
    let mut found = false;
    while at < body.len() {
        let (item, len) = read_item(alloc, &body[at..])?;
        if stands_for(item, subject) {
            found = true;
        }
        at += len;
    }
    Ok(found)
}

/// Whether the item stands under the subject's name.
fn stands_for(item: Item, subject: &FaultyItem) -> bool
    ensures { result ≡ is_under (name_in subject.now) item }
{
    subject.is_of(&item)
}

/// Reads a log to its end: the gate of the last body of which an item stands under the subject's
/// name, 0 where there is none.
fn find_last<D: Disk>(
    alloc: Global,
    log: &mut Log,
    disk: &mut D,
    subject: &FaultyItem,
) -> Result<u64, ReplayFault>
    requires { IsReading D.Disk log.old disk.old [] }
    ensures found { IfOk result (λ at. (image : Image) → D.Disk.seen disk.old ≡ Some image → (bodies : List (List ℕ)) →
        HasBodies bodies (bytes_in image (file_of log.old)) →
        IsFound (name_in subject.now) at bodies) }
    ensures damaged { (at : ℕ) → IsDamaged result at → (image : Image) → D.Disk.seen disk.old ≡ Some image →
        (bodies : List (List ℕ)) (book : NamedItems) →
        HasBodies bodies (bytes_in image (file_of log.old)) → Replays AnyBook bodies empty book → ⊥ }
    ensures same { D.Disk.seen disk.new ≡ D.Disk.seen disk.old }
    ensures images { ImagesStep D.Disk disk.old disk.new Stays }
    ensures later { D.Disk.faults disk.old ≤ D.Disk.faults disk.new }
    ensures cause { IsErrOf result ReplayFault.Disk → Rose (D.Disk.faults disk.old) (D.Disk.faults disk.new) }
{
    let mut out = Bytes::new(alloc);
    let mut found = 0;
    for _ in 0..u64::MAX {
        let at = log.place();
        if !log.next(disk, &mut out)? {
            return Ok(found);
        }
        let said = match says(alloc, out.as_slice(), subject) {
            Ok(said) => said,
            Err(ItemFault::BadItem) => return Err(ReplayFault::Damaged { at }),
            Err(ItemFault::NoMemory) => return Err(ReplayFault::NoMemory),
        };
        if said {
            found = at;
        }
    }
    Err(ReplayFault::NoMemory)
}

/// Why a store is not mounted whose log has bodies that all count, and of whose item no state
/// comes: `Damaged`, at the gate of the last body that says it, or what comes in the way of finding
/// it. A disk that gives other bytes than it gave before is `Damaged` too, where that shows.
pub(crate) fn blame<D: Disk>(
    alloc: Global,
    disk: &mut D,
    file: File,
    subject: &FaultyItem,
) -> MountFault
    ensures damaged { (named : File) (at : ℕ) → result ≡ MountFault.Damaged named at → (image : Image) → D.Disk.seen disk.old ≡ Some image →
        (bodies : List (List ℕ)) (book : NamedItems) (item : Logged) → HasBodies bodies (bytes_in image file) →
        Replays AnyBook bodies empty book → book (name_in subject.now) ≡ Some item →
        (named ≡ file) × IsLastSaid (name_in subject.now) item at bodies }
    ensures not_full { result ≡ MountFault.Full → ⊥ }
    ensures same { D.Disk.seen disk.new ≡ D.Disk.seen disk.old }
    ensures images { ImagesStep D.Disk disk.old disk.new Stays }
    ensures later { D.Disk.faults disk.old ≤ D.Disk.faults disk.new }
    ensures cause { result ≡ MountFault.Disk → Rose (D.Disk.faults disk.old) (D.Disk.faults disk.new) }
{
    let Ok(mut log) = Log::mount(alloc, disk, file) else {
        return MountFault::Disk;
    };
    match find_last(alloc, &mut log, disk, subject) {
        Ok(at) => MountFault::Damaged { file, at },
        Err(fault) => blamed(file, fault),
    }
}

/// What a fault of the log in this file is.
fn blamed(file: File, fault: ReplayFault) -> MountFault
    ensures { result ≡ blamed file fault }
{
    match fault {
        ReplayFault::Disk => MountFault::Disk,
        ReplayFault::Damaged { at } => MountFault::Damaged { file, at },
        ReplayFault::NoMemory => MountFault::NoMemory,
    }
}
