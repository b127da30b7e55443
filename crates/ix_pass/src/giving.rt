//! Commands are given to a store, each at the moment that the clock tells for it.

ghost use Rattle.std.specs.Prelude.{◌≡◌, [], ◌∷◌, ◌++◌, IfOk, Some};
ghost use Rattle.ix_commit.specs.Snapshot.{LogsAtEnd};
ghost use Rattle.ix_model.specs.declared.commands.Command.{Command as Given};
ghost use Rattle.ix_pass.specs.Giving.{Went, order_at, kind, change};

use ix_base::NoMemory;
use ix_disk::Disk;
use ix_model::{Command, Refusal};
use ix_run::{GiveFault, give};
use ix_store::{Listing, Store};

/// Gives a command to the store, and commits all that is accepted where that is due.
fn give_one<M: Listing + Drop, D: Disk>(
    store: &mut Store<M>,
    disk: &mut D,
    command: Command,
    moment: i64,
) -> Result<(), GiveFault>
    requires over { LogsAtEnd D.Disk store.old.committer disk.old }
    requires takes { M.takes (order_at command moment) }
    ensures { Went D.Disk (kind M.is_chooser M.takes M.Book.fits M.holds) result (order_at command moment ∷ [])
        (change store.old disk.old store.new disk.new) }
{
    match give(store, disk, command, moment) {
        Ok(_) => Ok(()),
        Err(fault) => Err(fault),
    }
}

/// Gives a command that was made for this moment to the store. Where there was no room in memory to
/// make it, it is refused as the store refuses one.
pub(crate) fn give_made<M: Listing + Drop, D: Disk>(
    store: &mut Store<M>,
    disk: &mut D,
    made: Result<Command, NoMemory>,
    moment: i64,
) -> Result<(), GiveFault>
    requires over { LogsAtEnd D.Disk store.old.committer disk.old }
    requires takes { IfOk made (λ command. M.takes (order_at command moment)) }
    ensures { (command : Given) → IfOk made (λ is. is ≡ command) → M.takes (order_at command moment) →
        Went D.Disk (kind M.is_chooser M.takes M.Book.fits M.holds) result (order_at command moment ∷ [])
        (change store.old disk.old store.new disk.new) }
{
    match made {
        Ok(command) => give_one(store, disk, command, moment),
        Err(_) => Err(GiveFault::Refused(Refusal::NoMemory)),
    }
}
