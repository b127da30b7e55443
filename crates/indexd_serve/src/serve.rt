//! A run that serves connections: the store is opened, so many connections are served, one request
//! each, and the log is made short where it is long. The program calls `run_serve`.

ghost use Rattle.std.specs.Prelude.{◌≡◌, ◌≤◌, ℕ, ℤ, List, length, true, false, Some, Ok, Err, IfOk, IfErr, OnOk, OnErr, IsErrOf};
ghost use Rattle.std.specs.List.{AllByRecursion};
ghost use Rattle.ix_base.specs.Faults.{Rose};
ghost use Rattle.ix_base.specs.declared.files.File.{File};
ghost use Rattle.ix_disk.specs.Image.{Image};
ghost use Rattle.ix_sessions.specs.Connections.{listened};
ghost use Rattle.ix_sessions.specs.Feeding.{start};
ghost use Rattle.ix_sessions.specs.Reading.{HearsMany};
ghost use Rattle.ix_model.specs.Given.{Chooser};
ghost use Rattle.ix_model.specs.declared.commands.TimedCommand.{TimedCommand};
ghost use Rattle.ix_run.specs.Resting.{CheckpointReady, ReadsShort};
ghost use Rattle.ix_serve.specs.Serving.{IsTold};
ghost use Rattle.ix_serve.specs.Taking.{TakesAsks};
ghost use Rattle.ix_store.specs.Holding.{Represents};
ghost use Rattle.ix_store.specs.Placing as places;
ghost use Rattle.indexd_run.specs.Blamed.{HasMounted, Blames, ReadsBad};
ghost use Rattle.indexd_run.specs.Opened.{Begins, configuring, HasShut, Past, course};
ghost use Rattle.indexd_run.specs.Shortened.{StopsShort};
ghost use Rattle.indexd_run.specs.Stops.{is_output, is_input};
ghost use Rattle.indexd_serve.specs.Ends as ends;
ghost use Rattle.indexd_serve.specs.Serving.{HasServed, Connections, session};

use crate::end::{ServeEnd, heard_behind, heard_end};
use indexd_run::{Stop, open};
use ix_base::Clock;
use ix_disk::Disk;
use ix_http::Routes;
use ix_model::Config;
use ix_net::Listener;
use ix_run::shorten;
use ix_sessions::run_serve as serve_store;
use ix_store::{Listing, Store};
use std::alloc::Global;

/// Serves so many connections over an open store, and makes the log short behind them where it is
/// long, unless the store is closed.
fn serve_open<M: Listing + Drop, D: Disk, C: Clock, L: Listener>(
    alloc: Global,
    routes: &Routes,
    store: &mut Store<M>,
    listener: &mut L,
    requests: u32,
    clock: &mut C,
    disk: &mut D,
) -> ServeEnd
    requires rest { CheckpointReady D.Disk store.old.committer disk.old }
    requires asks { TakesAsks M.takes }
    ensures connections { (choose : Chooser) (history : List TimedCommand) (base : ℕ) → M.is_chooser choose →
        AllByRecursion M.takes history → Represents D.Disk M.Book.fits M.holds choose history base (length history) store.old disk.old →
        (now : List TimedCommand) × (AllByRecursion M.takes now
        × Connections D.Disk M.Book.fits requests result (listened (L.waiting listener.old) (L.handed listener.old))
        (listened (L.waiting listener.new) (L.handed listener.new))
        (session (start choose history base (length history) store.old.run disk.old) (C.ahead clock.old) (C.ahead clock.new) now disk.new)) }
    ensures reads { HearsMany (ends.AsManyServed requests result) (listened (L.waiting listener.old) (L.handed listener.old))
        (listened (L.waiting listener.new) (L.handed listener.new)) }
    ensures unbroken { (file : File) (at : ℕ) → result ≡ ServeEnd.Damaged file at →
        (choose : Chooser) (history : List TimedCommand) (base : ℕ) → M.is_chooser choose →
        AllByRecursion M.takes history → Represents D.Disk M.Book.fits M.holds choose history base (length history) store.old disk.old →
        (image : Image) → D.Disk.seen disk.old ≡ Some image → ⊥ }
    ensures placed { (file : File) (at : ℕ) → result ≡ ServeEnd.Damaged file at →
        places.ReadsBad D.Disk (M.shown store.new.memory) disk.new file at }
    ensures short { ends.is_short_served result ≡ true → ReadsShort D.Disk disk.new }
    ensures told { IsTold D.Disk disk.old → IsTold D.Disk disk.new }
    ensures out { L.out listener.new ≡ L.out listener.old }
    ensures heard_later { L.faults listener.old ≤ L.faults listener.new }
    ensures later { D.Disk.faults disk.old ≤ D.Disk.faults disk.new }
    ensures listener { result ≡ ServeEnd.Listener → Rose (L.faults listener.old) (L.faults listener.new) }
    ensures disk { result ≡ ServeEnd.Disk → Rose (D.Disk.faults disk.old) (D.Disk.faults disk.new) }
{
    let end = serve_store(alloc, routes, store, listener, requests, clock, disk);
    if !end.is_open() {
        return heard_end(end);
    }
    let shortened = shorten(store, disk);
    heard_behind(end, shortened)
}

/// Opens the store of a disk with these settings, and serves so many connections, one request each,
/// until the listener or the disk fails. Each is handed back, also where it was cut or has failed:
/// that ends nothing. All that was accepted is committed at the end, and the log is made short
/// where it is long, unless the disk is at fault: where there is no room in memory for that the end
/// is `Memory` in place of any other, and where the disk fails at it `Disk`. An error is what stops
/// the run before the first connection, and none is taken then.
pub fn run_serve<M: Listing + Drop, D: Disk, C: Clock, L: Listener>(
    alloc: Global,
    disk: &mut D,
    clock: &mut C,
    config: Config,
    listener: &mut L,
    requests: u32,
) -> Result<ServeEnd, Stop>
    requires settings { (moment : ℤ) → M.takes (configuring config moment) }
    requires asks { TakesAsks M.takes }
    // Connections are served over some prefix of what was there, with the settings in force, up to
    // this end.
    ensures served { IfOk result (λ end. (past : Past) → M.is_chooser past.choose → AllByRecursion M.takes past.history →
        Begins D.Disk M.Book.fits past disk.old → (image : Image) → D.Disk.seen disk.old ≡ Some image →
        HasServed D.Disk M.takes M.Book.fits past (course config (C.ahead clock.old) (C.ahead clock.new) disk.old disk.new)
        (Connections D.Disk M.Book.fits requests end (listened (L.waiting listener.old) (L.handed listener.old))
        (listened (L.waiting listener.new) (L.handed listener.new)))) }
    // How many connections were taken, that each request was read of what its connection held, and
    // that each was handed back, holds whatever the disk holds.
    ensures reads { IfOk result (λ end. HearsMany (ends.AsManyServed requests end)
        (listened (L.waiting listener.old) (L.handed listener.old)) (listened (L.waiting listener.new) (L.handed listener.new))) }
    // A run that stops before them has lost nothing, has its cause, and leaves the listener alone.
    ensures shut { IfErr result (λ stop. (past : Past) → M.is_chooser past.choose → AllByRecursion M.takes past.history →
        Begins D.Disk M.Book.fits past disk.old → (image : Image) → D.Disk.seen disk.old ≡ Some image →
        HasShut stop D.Disk M.takes M.Book.fits past (course config (C.ahead clock.old) (C.ahead clock.new) disk.old disk.new)) }
    ensures untouched { OnErr result (listener.new ≡ listener.old) }
    // Behind the run the current log is not long, as the disk reads; but for want of memory, where
    // the disk is at fault, or where nothing was mounted.
    ensures short { IfOk result (λ end. ends.is_short_served end ≡ true → ReadsShort D.Disk disk.new) }
    ensures stopped_short { IfErr result (λ stop. StopsShort D.Disk M.Book.fits stop disk.old disk.new) }
    // Whatever the disk held: connections are served over a store that was mounted, and a stop before
    // them blames what the mount or the mounted store has met.
    ensures mounted { OnOk result (HasMounted D.Disk M.Book.fits disk.old) }
    ensures blamed { IfErr result (λ stop. Blames stop D.Disk M.Book.fits M.gives_none disk.old disk.new) }
    // Damage that ends the connections is named as the disk reads.
    ensures placed { (file : File) (at : ℕ) → result ≡ Ok (ServeEnd.Damaged file at) → ReadsBad D.Disk disk.new file at }
    // What is on the disk is not damaged where it keeps what was committed and tells what it reads,
    ensures undamaged { (file : File) (at : ℕ) → result ≡ Err (Stop.Damaged file at) → (past : Past) → M.is_chooser past.choose →
        AllByRecursion M.takes past.history → Begins D.Disk M.Book.fits past disk.old → (image : Image) →
        D.Disk.seen disk.old ≡ Some image → ⊥ }
    ensures unbroken { (file : File) (at : ℕ) → result ≡ Ok (ServeEnd.Damaged file at) → (past : Past) → M.is_chooser past.choose →
        AllByRecursion M.takes past.history → Begins D.Disk M.Book.fits past disk.old → (image : Image) →
        D.Disk.seen disk.old ≡ Some image → ⊥ }
    // and what is in memory contradicts nothing.
    ensures sound { IsErrOf result Stop.Inconsistent → (past : Past) → M.is_chooser past.choose → AllByRecursion M.takes past.history →
        Begins D.Disk M.Book.fits past disk.old → (image : Image) → D.Disk.seen disk.old ≡ Some image → ⊥ }
    ensures quiet { IfErr result (λ stop. is_output stop ≡ false) }
    ensures still { IfErr result (λ stop. is_input stop ≡ false) }
    // A disk that tells what it reads goes on telling, as many connections are out as before, no
    // count falls, and each fault has its cause.
    ensures told { IsTold D.Disk disk.old → IsTold D.Disk disk.new }
    ensures out { L.out listener.new ≡ L.out listener.old }
    ensures heard_later { L.faults listener.old ≤ L.faults listener.new }
    ensures later { D.Disk.faults disk.old ≤ D.Disk.faults disk.new }
    ensures cause { IsErrOf result Stop.Disk → Rose (D.Disk.faults disk.old) (D.Disk.faults disk.new) }
    ensures disk { result ≡ Ok ServeEnd.Disk → Rose (D.Disk.faults disk.old) (D.Disk.faults disk.new) }
    ensures listener { result ≡ Ok ServeEnd.Listener → Rose (L.faults listener.old) (L.faults listener.new) }
{
    let routes = Routes::new(alloc)?;
    let mut store = match open::<M, D, C>(alloc, disk, clock, config) {
        Ok(store) => store,
        Err(stop) => return Err(stop),
    };
    Ok(serve_open(alloc, &routes, &mut store, listener, requests, clock, disk))
}
