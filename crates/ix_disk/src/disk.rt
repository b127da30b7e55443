//! The disk, as the layers above see it.

ghost use Rattle.std.specs.Prelude.{◌≡◌, ◌≢◌, ◌≤◌, ◌<◌, ◌+◌, ◌-◌, ◌^◌, ◌++◌, ℕ, List, length, take, drop, min, Bool, true, false, Option};
ghost use Rattle.std.specs.Prelude.{Some, IfOk, OnOk, OnErr, IsErrOf};
ghost use Rattle.ix_disk.specs.Image.{Image, bytes_in, MayWrite, Writes, MayRemove, Removes, Stays, Passes};
ghost use Rattle.ix_base.specs.Told.{Told};
ghost use Rattle.ix_base.specs.Faults.{HasCause};
ghost use Rattle.ix_disk.specs.Locks.{KeepsLock, HasLockCause};
ghost use Rattle.ix_disk.specs.declared.disk.LockFault.TheVariants.{InUse};

use ix_base::{Failed, File};
use thiserror::Error;

/// Why a program does not get a disk for itself.
#[derive(Clone, Copy, Debug, PartialEq, Eq, Error)]
pub enum LockFault {
    /// Another program has it.
    #[error("another program has the store")]
    InUse,
    /// The disk failed.
    #[error("the disk failed")]
    Failed,
}

impl From<Failed> for LockFault {
    ghost use Rattle.ix_disk.specs.declared.disk.LockFault.TheVariants.{Failed as failed};

    ghost from_gives = { λ _ fault. fault ≡ failed };

    fn from(_: Failed) -> LockFault {
        LockFault::Failed
    }
}

/// Files under a name each, and what a crash may leave of them.
///
/// A crash may tear what no sync has settled. Of a file it may leave any bytes in each range that
/// was written since the file's last sync, also by a call that failed, and behind the end that it
/// had then, and end it anywhere from that end to the present one. The other bytes stay. A file
/// that was missing may be missing again, and one that was removed may be back. After a sync that
/// succeeds a crash leaves the file as a read gives it. Files do not depend on each other.
///
/// The ghost members say so of an image, which is what a disk holds: the bytes of each file, or
/// that it is missing. A disk may tell nothing of what its files hold; then it tells no image
/// either, and only its counts are kept.
///
/// One program at a time has a disk for itself, from its `lock` to its end.
pub trait Disk {
    /// What a read gives, where the disk tells it.
    ghost seen: { Self → Option Image };

    /// What a crash now may leave.
    ghost may_leave: { Self → Image → Type 0 };

    /// The disk's clock, which never goes back.
    ghost moment: { Self → ℕ };

    /// What a crash at some moment from that one on might have left, during a call or between two.
    ghost left_since: { Self → ℕ → Image → Type 0 };

    /// How often the disk has failed. A count that has come to 2^64 - 1 may stand there.
    ghost faults: { Self → ℕ };

    /// Whether another program has the disk, where the disk knows.
    ghost in_use: { Self → Option Bool };

    /// How often the disk has answered that another program has it. A count that has come to 2^64 -
    /// 1 may stand there.
    ghost refused: { Self → ℕ };

    /// Takes the disk for this program alone, before anything is read or written, and keeps it.
    /// Where the disk knows whether another program has it, it answers `InUse` exactly where one
    /// has. Nothing that the files hold is read or changed.
    fn lock(&mut self) -> Result<(), LockFault>
        ensures taken { in_use self.old ≡ Some true → IsErrOf result InUse }
        ensures free { IsErrOf result InUse → in_use self.old ≢ Some false }
        ensures use_stays { in_use self.new ≡ in_use self.old }
        ensures same { seen self.new ≡ seen self.old }
        ensures images { Passes may_leave moment left_since self.old self.new Stays }
        ensures cause { HasLockCause (faults self.old) (faults self.new) (refused self.old) (refused self.new) result };

    /// How many bytes the file has, fewer than 2^63; a missing one has none. It answers `Failed`
    /// where the disk failed, as each call here.
    fn length(&mut self, file: File) -> Result<u64, Failed>
        ensures length { IfOk result (λ n. (image : Image) → seen self.old ≡ Some image → n ≡ length (bytes_in image file)) }
        ensures bounded { IfOk result (λ n. n < 2 ^ 63) }
        ensures same { seen self.new ≡ seen self.old }
        ensures images { Passes may_leave moment left_since self.old self.new Stays }
        ensures cause { HasCause (faults self.old) (faults self.new) result }
        ensures lock { KeepsLock (in_use self.old) (in_use self.new) (refused self.old) (refused self.new) };

    /// Reads what stands from the place on into the front of the buffer, as much as there is room
    /// for, and answers how many bytes that are: none where the file is missing or ends before.
    fn read(&mut self, file: File, at: u64, buf: &mut [u8]) -> Result<usize, Failed>
        ensures count { IfOk result (λ n. n ≤ length buf.old) }
        ensures bytes { IfOk result (λ n. (image : Image) → seen self.old ≡ Some image →
            (n ≡ min (length buf.old) (length (bytes_in image file) - at))
            × (buf.new ≡ take n (drop at (bytes_in image file)) ++ drop n buf.old)) }
        ensures same { seen self.new ≡ seen self.old }
        ensures images { Passes may_leave moment left_since self.old self.new Stays }
        ensures cause { HasCause (faults self.old) (faults self.new) result }
        ensures lock { KeepsLock (in_use self.old) (in_use self.new) (refused self.old) (refused self.new) };

    /// Writes over what stands from the place on, and past the end. The place is within the file or
    /// at its end. It makes a missing file. It fails where the file would come to 2^63 bytes. After
    /// `Failed` any part of it may have happened.
    fn write_at(&mut self, file: File, at: u64, bytes: &[u8]) -> Result<(), Failed>
        requires { (image : Image) → seen self.old ≡ Some image → at ≤ length (bytes_in image file) }
        ensures written { OnOk result (Told (Writes file at bytes.now) (seen self.old) (seen self.new)) }
        ensures begun { OnErr result (Told (MayWrite file at (length bytes.now)) (seen self.old) (seen self.new)) }
        ensures bounded { OnOk result (at + length bytes.now < 2 ^ 63) }
        ensures images { Passes may_leave moment left_since self.old self.new (MayWrite file at (length bytes.now)) }
        ensures cause { HasCause (faults self.old) (faults self.new) result }
        ensures lock { KeepsLock (in_use self.old) (in_use self.new) (refused self.old) (refused self.new) };

    /// After it a crash leaves the file as a read gives it, and a missing file is missing. After
    /// `Failed` nothing is settled.
    fn sync(&mut self, file: File) -> Result<(), Failed>
        ensures settled { OnOk result ((image : Image) → may_leave self.new image → (read : Image) × (seen self.new ≡ Some read)
            × (image file ≡ read file)) }
        ensures same { seen self.new ≡ seen self.old }
        ensures images { Passes may_leave moment left_since self.old self.new Stays }
        ensures cause { HasCause (faults self.old) (faults self.new) result }
        ensures lock { KeepsLock (in_use self.old) (in_use self.new) (refused self.old) (refused self.new) };

    /// Removes the file, and leaves a missing one missing. Until a sync of it a crash may bring it
    /// back. After `Failed` it is there or removed.
    fn remove(&mut self, file: File) -> Result<(), Failed>
        ensures removed { OnOk result (Told (Removes file) (seen self.old) (seen self.new)) }
        ensures begun { OnErr result (Told (MayRemove file) (seen self.old) (seen self.new)) }
        ensures images { Passes may_leave moment left_since self.old self.new (MayRemove file) }
        ensures cause { HasCause (faults self.old) (faults self.new) result }
        ensures lock { KeepsLock (in_use self.old) (in_use self.new) (refused self.old) (refused self.new) };

    /// What a read gives is one of the images.
    ghost seen_may_stay: { (disk : Self) (image : Image) → seen disk ≡ Some image → may_leave disk image };

    /// This moment is one of those since an earlier one.
    ghost counts_now: { (disk : Self) (t : ℕ) (image : Image) → t ≤ moment disk → may_leave disk image → left_since disk t image };

    /// Since this moment there is no other.
    ghost only_now: { (disk : Self) (image : Image) → left_since disk (moment disk) image → may_leave disk image };
}
