//! The store of a disk is taken for this program alone, before anything of it is read. `stored.rt`,
//! `feed.rt` and `serve.rt` call it.

ghost use Rattle.std.specs.Prelude.{◌≡◌, ◌≢◌, ◌≤◌, true, None, Some, IfSome};
ghost use Rattle.indexd_core.specs.Locked.{IsLeftAlone, IsLockedOut};
ghost use Rattle.indexd_core.specs.Sides.{side};
ghost use Rattle.indexd_core.specs.Texts.{Said, status_text};

use crate::status::{Status, say};
use ix_base::Sink;
use ix_disk::{Disk, LockFault};
use ix_model::Config;

/// Takes the store of a disk for this program. Where another program has it, or the disk fails, it
/// answers the status of that: then nothing of the store was read or written.
pub fn lock_out<D: Disk>(disk: &mut D) -> Option<Status>
    ensures out { IfSome result (λ status. IsLockedOut status D.Disk disk.old disk.new) }
    // The store is not given where the disk knows that another program has it.
    ensures given { result ≡ None → D.Disk.in_use disk.old ≢ Some true }
    ensures alone { IsLeftAlone D.Disk disk.old disk.new }
    ensures later { D.Disk.faults disk.old ≤ D.Disk.faults disk.new }
{
    match disk.lock() {
        Ok(()) => None,
        Err(LockFault::InUse) => Some(Status::InUse),
        Err(LockFault::Failed) => Some(Status::DiskFault),
    }
}

/// Lets the settings of a run go that is not given the store, writes the line of its status, and
/// answers that. Where the line cannot be written the status stays.
pub fn say_locked_out<W: Sink>(config: Config, status: Status, output: &mut W) -> Status
    ensures status { result ≡ status }
    ensures said { Said (status_text status) (side (W.faults output.old) (W.given output.old))
        (side (W.faults output.new) (W.given output.new)) }
    ensures later { W.faults output.old ≤ W.faults output.new }
{
    drop(config);
    say(status, output);
    status
}
