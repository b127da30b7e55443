//! The channel of a watched file is begun and ended.

ghost use Rattle.std.specs.Prelude.{◌≡◌, [], ◌∷◌, ℤ, List, true, IfOk};
ghost use Rattle.ix_commit.specs.Snapshot.{LogsAtEnd};
ghost use Rattle.ix_model.specs.declared.commands.Command.TheVariants.{Begin, End};
ghost use Rattle.ix_watch.specs.Visits.{begins, begins_anew, ends};
ghost use Rattle.ix_watch.specs.Watching.{channel_of};
ghost use Rattle.ix_pass.specs.Giving.{Tried, Went, order_at, kind, change};
ghost use Rattle.ix_pass.specs.Visiting.{is_whole, opens};

use crate::giving::give_made;
use ix_base::{Bytes, Clock, NoMemory};
use ix_disk::Disk;
use ix_model::Command;
use ix_monitor::Watched;
use ix_run::GiveFault;
use ix_store::{Listing, Store};
use std::alloc::Global;

/// The name of the channel of the file at a path.
pub(crate) fn channel_of(alloc: Global, path: &[u8]) -> Result<Bytes, NoMemory>
    ensures { IfOk result (λ name. name ≡ channel_of path.now) }
{
    let mut name = Bytes::copy_of(alloc, b"~")?;
    name.extend(path)?;
    Ok(name)
}

/// The command that begins the channel.
fn begin_made(alloc: Global, file: &Watched) -> Result<Command, NoMemory>
    ensures { IfOk result (λ command. command ≡ Begin (channel_of file.now.path) file.now.meta) }
{
    let channel = channel_of(alloc, file.path.as_slice())?;
    let meta = file.meta.copy()?;
    Ok(Command::Begin { channel, meta })
}

/// The command that ends it.
fn end_made(alloc: Global, file: &Watched) -> Result<Command, NoMemory>
    ensures { IfOk result (λ command. command ≡ End (channel_of file.now.path)) }
{
    let channel = channel_of(alloc, file.path.as_slice())?;
    Ok(Command::End { channel })
}

/// Begins the channel.
fn begin<M: Listing + Drop, D: Disk, C: Clock>(
    alloc: Global,
    store: &mut Store<M>,
    disk: &mut D,
    clock: &mut C,
    file: &Watched,
) -> Result<(), GiveFault>
    requires over { LogsAtEnd D.Disk store.old.committer disk.old }
    requires takes { (moment : ℤ) → M.takes (order_at (Begin (channel_of file.now.path) file.now.meta) moment) }
    ensures { Tried true (Begin (channel_of file.now.path) file.now.meta ∷ []) (C.ahead clock.old) (C.ahead clock.new)
        (λ orders. Went D.Disk (kind M.is_chooser M.takes M.Book.fits M.holds) result orders
        (change store.old disk.old store.new disk.new)) }
{
    let made = begin_made(alloc, file);
    let moment = clock.now();
    give_made(store, disk, made, moment)
}

/// Ends the channel.
fn end<M: Listing + Drop, D: Disk, C: Clock>(
    alloc: Global,
    store: &mut Store<M>,
    disk: &mut D,
    clock: &mut C,
    file: &Watched,
) -> Result<(), GiveFault>
    requires over { LogsAtEnd D.Disk store.old.committer disk.old }
    requires takes { (moment : ℤ) → M.takes (order_at (End (channel_of file.now.path)) moment) }
    ensures { Tried true (End (channel_of file.now.path) ∷ []) (C.ahead clock.old) (C.ahead clock.new)
        (λ orders. Went D.Disk (kind M.is_chooser M.takes M.Book.fits M.holds) result orders
        (change store.old disk.old store.new disk.new)) }
{
    let made = end_made(alloc, file);
    let moment = clock.now();
    give_made(store, disk, made, moment)
}

/// Ends the channel where that is asked for.
pub(crate) fn end_if<M: Listing + Drop, D: Disk, C: Clock>(
    alloc: Global,
    store: &mut Store<M>,
    disk: &mut D,
    clock: &mut C,
    file: &Watched,
    close: bool,
) -> Result<(), GiveFault>
    requires over { LogsAtEnd D.Disk store.old.committer disk.old }
    requires takes { (moment : ℤ) → M.takes (order_at (End (channel_of file.now.path)) moment) }
    ensures { Tried true (ends file.now close) (C.ahead clock.old) (C.ahead clock.new)
        (λ orders. Went D.Disk (kind M.is_chooser M.takes M.Book.fits M.holds) result orders
        (change store.old disk.old store.new disk.new)) }
{
    if close {
        end(alloc, store, disk, clock, file)
    } else {
        Ok(())
    }
}

/// Begins the channel where it is not open.
fn begin_if<M: Listing + Drop, D: Disk, C: Clock>(
    alloc: Global,
    store: &mut Store<M>,
    disk: &mut D,
    clock: &mut C,
    file: &Watched,
    is_open: bool,
) -> Result<(), GiveFault>
    requires over { LogsAtEnd D.Disk store.old.committer disk.old }
    requires takes { (moment : ℤ) → M.takes (order_at (Begin (channel_of file.now.path) file.now.meta) moment) }
    ensures { Tried true (begins file.now is_open) (C.ahead clock.old) (C.ahead clock.new)
        (λ orders. Went D.Disk (kind M.is_chooser M.takes M.Book.fits M.holds) result orders
        (change store.old disk.old store.new disk.new)) }
{
    if is_open {
        Ok(())
    } else {
        begin(alloc, store, disk, clock, file)
    }
}

/// Ends the channel where it is open, and begins it.
fn begin_anew<M: Listing + Drop, D: Disk, C: Clock>(
    alloc: Global,
    store: &mut Store<M>,
    disk: &mut D,
    clock: &mut C,
    file: &Watched,
    is_open: bool,
) -> Result<(), GiveFault>
    requires over { LogsAtEnd D.Disk store.old.committer disk.old }
    requires begins { (moment : ℤ) → M.takes (order_at (Begin (channel_of file.now.path) file.now.meta) moment) }
    requires ends { (moment : ℤ) → M.takes (order_at (End (channel_of file.now.path)) moment) }
    ensures { Tried (is_whole result) (begins_anew file.now is_open) (C.ahead clock.old) (C.ahead clock.new)
        (λ orders. Went D.Disk (kind M.is_chooser M.takes M.Book.fits M.holds) result orders
        (change store.old disk.old store.new disk.new)) }
{
    if !is_open {
        return begin(alloc, store, disk, clock, file);
    }
    match end(alloc, store, disk, clock, file) {
        Ok(()) => begin(alloc, store, disk, clock, file),
        Err(fault) => Err(fault),
    }
}

/// How the channel of a file is to be opened: whether it is open, and whether it is to be begun
/// anew then.
#[derive(Clone, Copy)]
pub(crate) struct Opening {
    pub(crate) is_open: bool,
    pub(crate) again: bool,
}

/// Opens the channel.
pub(crate) fn open<M: Listing + Drop, D: Disk, C: Clock>(
    alloc: Global,
    store: &mut Store<M>,
    disk: &mut D,
    clock: &mut C,
    file: &Watched,
    opening: Opening,
) -> Result<(), GiveFault>
    requires over { LogsAtEnd D.Disk store.old.committer disk.old }
    requires begins { (moment : ℤ) → M.takes (order_at (Begin (channel_of file.now.path) file.now.meta) moment) }
    requires ends { (moment : ℤ) → M.takes (order_at (End (channel_of file.now.path)) moment) }
    ensures { Tried (is_whole result) (opens opening.again file.now opening.is_open) (C.ahead clock.old) (C.ahead clock.new)
        (λ orders. Went D.Disk (kind M.is_chooser M.takes M.Book.fits M.holds) result orders
        (change store.old disk.old store.new disk.new)) }
{
    if opening.again {
        begin_anew(alloc, store, disk, clock, file, opening.is_open)
    } else {
        begin_if(alloc, store, disk, clock, file, opening.is_open)
    }
}
