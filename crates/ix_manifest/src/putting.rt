//! The staged items become a body of the log. A commit and a checkpoint call it.

ghost use Rattle.std.specs.Prelude.{◌≡◌, ◌<◌, ◌≤◌, ◌+◌, ◌^◌, ℕ, List, [], ◌∷◌, ◌++◌, length, OnOk};
ghost use Rattle.ix_base.specs.Faults.{HasCause};
ghost use Rattle.ix_base.specs.Told.{Told};
ghost use Rattle.ix_disk.specs.Image.{Apart};
ghost use Rattle.ix_disk.specs.Moments.{ImagesStep, InFile};
ghost use Rattle.ix_log.specs.Log.{IsUsable, IsBegun, IsReady, IsPutting, IsAtEnd, HasBodies, file_of, put_so_far};
ghost use Rattle.ix_manifest.specs.Slots.{bytes_of, WithBody};

use crate::staged_item::StagedItem;
use ix_base::Failed;
use ix_disk::Disk;
use ix_log::Log;

/// Puts the bytes of all items into a further body of the log.
#[tactic(auto, using(ix_disk::proofs::Others::others))]
fn put_all<D: Disk>(log: &mut Log, disk: &mut D, slots: &[StagedItem]) -> Result<(), Failed>
    requires usable { IsUsable D.Disk log.old disk.old }
    requires short { put_so_far log.old + length (bytes_of slots.now) < 2 ^ 32 }
    ensures begun { OnOk result (0 < length slots.now → IsBegun D.Disk log.new disk.new) }
    ensures put { (bodies : List (List ℕ)) (body : List ℕ) → IsReady D.Disk log.old disk.old bodies body →
        OnOk result (0 < length slots.now → IsPutting D.Disk log.new disk.new bodies (body ++ bytes_of slots.now)) }
    ensures images { (bodies : List (List ℕ)) (body : List ℕ) → IsReady D.Disk log.old disk.old bodies body →
        ImagesStep D.Disk disk.old disk.new (InFile (file_of log.old) (HasBodies bodies)) }
    ensures seen { Told (Apart (file_of log.old)) (D.Disk.seen disk.old) (D.Disk.seen disk.new) }
    ensures file { file_of log.new ≡ file_of log.old }
    ensures cause { HasCause (D.Disk.faults disk.old) (D.Disk.faults disk.new) result }
{
    for slot in slots {
        log.put(disk, slot.bytes.as_slice())?;
    }
    Ok(())
}

/// Puts a body of these items, and makes it count. Where there is no item it does nothing.
#[tactic(auto, using(ix_disk::proofs::Others::others))]
pub fn put_body<D: Disk>(log: &mut Log, disk: &mut D, slots: &[StagedItem]) -> Result<(), Failed>
    requires usable { IsUsable D.Disk log.old disk.old }
    requires short { put_so_far log.old + length (bytes_of slots.now) < 2 ^ 32 }
    ensures finished { (bodies : List (List ℕ)) → IsAtEnd D.Disk log.old disk.old bodies →
        OnOk result (0 < length slots.now → IsAtEnd D.Disk log.new disk.new (bodies ++ bytes_of slots.now ∷ [])) }
    ensures none { (bodies : List (List ℕ)) → IsAtEnd D.Disk log.old disk.old bodies →
        OnOk result (length slots.now ≡ 0 → IsAtEnd D.Disk log.new disk.new bodies) }
    ensures images { (bodies : List (List ℕ)) → IsAtEnd D.Disk log.old disk.old bodies →
        ImagesStep D.Disk disk.old disk.new (InFile (file_of log.old) (WithBody bodies slots.now)) }
    // A read of the other files gives what it gave.
    ensures seen { Told (Apart (file_of log.old)) (D.Disk.seen disk.old) (D.Disk.seen disk.new) }
    ensures file { file_of log.new ≡ file_of log.old }
    ensures cause { HasCause (D.Disk.faults disk.old) (D.Disk.faults disk.new) result }
{
    if slots.is_empty() {
        return Ok(());
    }
    put_all(log, disk, slots)?;
    log.finish(disk)?;
    Ok(())
}
