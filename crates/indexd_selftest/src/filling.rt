//! A disk is filled with the commands of a selftest, and a store that is mounted there is listed.
//! `summary` calls both.

ghost use Rattle.std.specs.Prelude.{◌≡◌, ℕ, List, length, None, Some, Err, IfOk, OnOk};
ghost use Rattle.ix_commit.specs.Snapshot.{NothingStaged, LogsAtEnd};
ghost use Rattle.ix_disk.specs.Image.{Image, nothing};
ghost use Rattle.ix_model.specs.Given.{Chooser};
ghost use Rattle.ix_model.specs.Judged.{judged};
ghost use Rattle.ix_model.specs.Shown.{view};
ghost use Rattle.ix_model.specs.Step.{state_after};
ghost use Rattle.ix_model.specs.declared.commands.Command.TheVariants.{Configure};
ghost use Rattle.ix_model.specs.declared.commands.TimedCommand.{TimedCommand};
ghost use Rattle.ix_report.specs.Listing.{listing};
ghost use Rattle.ix_serve.specs.Serving.{IsTold};
ghost use Rattle.ix_serve.specs.Taking.{TakesAsks};
ghost use Rattle.ix_store.specs.Holding.{Represents};
ghost use Rattle.ix_store.specs.Making.{with_order};
ghost use Rattle.indexd_selftest.specs.Full.{HasNoRoom, FirstHasNoRoom, SecondHasNoRun};
ghost use Rattle.indexd_selftest.specs.Given.{AllRecover, IsFilled, RepresentsAll};
ghost use Rattle.indexd_selftest.specs.History as defs;

use crate::fault::{SelftestFault, of_commit, of_give, of_mount};
use crate::sending::{MOMENT, send_all};
use ix_base::Bytes;
use ix_disk::Disk;
use ix_model::{Command, Config};
use ix_report::listing;
use ix_run::give;
use ix_store::{Listing, Store};
use std::alloc::Global;

/// The moment of the turn of housekeeping, 100 seconds behind the requests.
const LATER: i64 = MOMENT + 100_000_000;

/// Gives the store a command, and commits all.
fn give_now<M: Listing + Drop, D: Disk>(
    store: &mut Store<M>,
    disk: &mut D,
    command: Command,
    moment: i64,
) -> Result<(), SelftestFault>
    requires over { LogsAtEnd D.Disk store.old.committer disk.old }
    requires told { IsTold D.Disk disk.old }
    requires takes { M.takes (record { command = command; moment = moment }) }
    ensures given { OnOk result ((choose : Chooser) (history : List TimedCommand) (base : ℕ) → M.is_chooser choose →
        RepresentsAll D.Disk M.takes M.Book.fits M.holds choose history base store.old disk.old →
        Represents D.Disk M.Book.fits M.holds choose (with_order choose history (record { command = command; moment = moment })) base
        (length (with_order choose history (record { command = command; moment = moment }))) store.new disk.new) }
    ensures full { result ≡ Err SelftestFault.Full → (choose : Chooser) (history : List TimedCommand) (base : ℕ) → M.is_chooser choose →
        RepresentsAll D.Disk M.takes M.Book.fits M.holds choose history base store.old disk.old →
        judged (state_after choose history) command ≡ None →
        HasNoRoom choose base history (record { command = command; moment = moment }) }
    ensures over { OnOk result (LogsAtEnd D.Disk store.new.committer disk.new) }
    ensures idle { OnOk result (NothingStaged store.new.committer) }
    ensures run { store.new.run ≡ store.old.run }
    ensures told { IsTold D.Disk disk.new }
{
    match give(store, disk, command, moment) {
        Ok(_) => {}
        Err(fault) => return Err(of_give(fault)),
    }
    match store.commit(disk) {
        Ok(()) => Ok(()),
        Err(fault) => Err(of_commit(fault)),
    }
}

/// Gives the store a turn of housekeeping, and makes its log short.
fn keep_house<M: Listing + Drop, D: Disk>(
    store: &mut Store<M>,
    disk: &mut D,
) -> Result<(), SelftestFault>
    requires over { LogsAtEnd D.Disk store.old.committer disk.old }
    requires told { IsTold D.Disk disk.old }
    ensures stands { OnOk result ((choose : Chooser) (history : List TimedCommand) (base : ℕ) → M.is_chooser choose →
        RepresentsAll D.Disk M.takes M.Book.fits M.holds choose history base store.old disk.old →
        AllRecover D.Disk M.takes M.Book.fits store.old.run choose (with_order choose history defs.turn) disk.new) }
    ensures full { result ≡ Err SelftestFault.Full → (choose : Chooser) (history : List TimedCommand) (base : ℕ) → M.is_chooser choose →
        RepresentsAll D.Disk M.takes M.Book.fits M.holds choose history base store.old disk.old →
        HasNoRoom choose base history defs.turn }
    ensures told { IsTold D.Disk disk.new }
{
    give_now(store, disk, Command::Tick, LATER)?;
    match store.checkpoint(disk) {
        Ok(()) => Ok(()),
        // The disk is in memory too.
        Err(_) => Err(SelftestFault::NoMemory),
    }
}

/// Gives the commands of a selftest to a new store on an empty disk.
pub(crate) fn fill<M: Listing + Drop, D: Disk>(
    alloc: Global,
    disk: &mut D,
    config: Config,
    seed: u64,
    count: u64,
) -> Result<(), SelftestFault>
    requires empty { (image : Image) → D.Disk.may_leave disk.old image → image ≡ nothing }
    requires seen { D.Disk.seen disk.old ≡ Some nothing }
    requires in_force { defs.AreInForce config }
    requires settings { M.takes (defs.sent (Configure config)) }
    requires asks { TakesAsks M.takes }
    ensures filled { OnOk result (IsFilled D.Disk M.is_chooser M.takes M.Book.fits config seed count disk.new) }
    ensures full { result ≡ Err SelftestFault.Full → (choose : Chooser) → M.is_chooser choose →
        FirstHasNoRoom M.Book.fits choose config seed count }
    ensures told { IsTold D.Disk disk.new }
{
    let mut store = match Store::<M>::mount(alloc, disk) {
        Ok(store) => store,
        Err(fault) => return Err(of_mount(fault)),
    };
    give_now(&mut store, disk, Command::Configure { config }, MOMENT)?;
    send_all(alloc, &mut store, disk, seed, count)?;
    keep_house(&mut store, disk)
}

/// Mounts the store that a first run has left on a disk, and lists it.
pub(crate) fn list<M: Listing + Drop, D: Disk>(
    alloc: Global,
    disk: &mut D,
) -> Result<Bytes, SelftestFault>
    requires { IsTold D.Disk disk.old }
    ensures listed { IfOk result (λ text. (choose : Chooser) (history : List TimedCommand) → M.is_chooser choose →
        AllRecover D.Disk M.takes M.Book.fits 1 choose history disk.old → text ≡ listing (view (state_after choose history))) }
    ensures full { result ≡ Err SelftestFault.Full → (choose : Chooser) (history : List TimedCommand) → M.is_chooser choose →
        AllRecover D.Disk M.takes M.Book.fits 1 choose history disk.old → SecondHasNoRun M.Book.fits choose history }
{
    let store = match Store::<M>::mount(alloc, disk) {
        Ok(store) => store,
        Err(fault) => return Err(of_mount(fault)),
    };
    let text = listing(alloc, store.view())?;
    Ok(text)
}
