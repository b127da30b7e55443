//! A run that serves requests over a link: the store is opened, the requests are served one behind
//! the other, and the log is made short where it is long. `run` calls it.

ghost use Rattle.std.specs.Prelude.{◌≡◌, ◌≤◌, ℕ, ℤ, List, length, true, false, Some, Ok, Err, IfOk, IfErr, OnOk, OnErr, IsErrOf};
ghost use Rattle.std.specs.List.{AllByRecursion};
ghost use Rattle.ix_base.specs.Faults.{Rose};
ghost use Rattle.ix_base.specs.declared.files.File.{File};
ghost use Rattle.ix_disk.specs.Image.{Image};
ghost use Rattle.ix_sessions.specs.Feeding.{Comes, start};
ghost use Rattle.ix_sessions.specs.Reading.{ReadsTo};
ghost use Rattle.ix_net.specs.Links.{LinkStep};
ghost use Rattle.ix_model.specs.Given.{Chooser};
ghost use Rattle.ix_model.specs.declared.commands.TimedCommand.{TimedCommand};
ghost use Rattle.ix_run.specs.Resting.{CheckpointReady, ReadsShort};
ghost use Rattle.ix_serve.specs.Serving.{IsClean, IsTold};
ghost use Rattle.ix_serve.specs.Taking.{TakesAsks};
ghost use Rattle.ix_store.specs.Holding.{Represents};
ghost use Rattle.ix_store.specs.Placing as places;
ghost use Rattle.indexd_run.specs.Blamed.{HasMounted, Blames, ReadsBad};
ghost use Rattle.indexd_run.specs.Opened.{Begins, configuring, HasShut, Past, course};
ghost use Rattle.indexd_run.specs.Shortened.{StopsShort};
ghost use Rattle.indexd_run.specs.Stops.{is_output, is_input};
ghost use Rattle.indexd_serve.specs.Ends as ends;
ghost use Rattle.indexd_serve.specs.Serving.{HasServed, Requests, session, exchange};

use crate::end::fed_behind;
use indexd_run::{Stop, open};
use ix_base::Clock;
use ix_commit::CommitFault;
use ix_disk::Disk;
use ix_http::Routes;
use ix_model::Config;
use ix_net::Link;
use ix_run::shorten;
use ix_sessions::{Fed, run_feed as feed_store};
use ix_store::{Listing, Store};
use std::alloc::Global;

/// Serves the requests of a link over an open store, and makes the log short behind them where it
/// is long, unless the store is closed.
fn feed_open<M: Listing + Drop, D: Disk, C: Clock, K: Link>(
    alloc: Global,
    routes: &Routes,
    store: &mut Store<M>,
    link: &mut K,
    clock: &mut C,
    disk: &mut D,
) -> Fed
    requires rest { CheckpointReady D.Disk store.old.committer disk.old }
    requires asks { TakesAsks M.takes }
    ensures requests { (choose : Chooser) (history : List TimedCommand) (base : ℕ) → M.is_chooser choose → AllByRecursion M.takes history →
        Represents D.Disk M.Book.fits M.holds choose history base (length history) store.old disk.old → (now : List TimedCommand)
        × (AllByRecursion M.takes now × Requests D.Disk M.Book.fits result
        (IsClean (K.faults link.old) (K.faults link.new) (K.standing link.old) (K.standing link.new))
        (exchange (K.left link.old) (K.left link.new) (K.given link.old) (K.given link.new))
        (session (start choose history base (length history) store.old.run disk.old) (C.ahead clock.old) (C.ahead clock.new) now disk.new)) }
    ensures reads { ReadsTo result (K.left link.old) (K.left link.new) }
    ensures unbroken { (file : File) (at : ℕ) → result ≡ Fed.Broken (CommitFault.Damaged file at) →
        (choose : Chooser) (history : List TimedCommand) (base : ℕ) → M.is_chooser choose →
        AllByRecursion M.takes history → Represents D.Disk M.Book.fits M.holds choose history base (length history) store.old disk.old →
        (image : Image) → D.Disk.seen disk.old ≡ Some image → ⊥ }
    ensures placed { (file : File) (at : ℕ) → result ≡ Fed.Broken (CommitFault.Damaged file at) →
        places.ReadsBad D.Disk (M.shown store.new.memory) disk.new file at }
    ensures short { ends.is_short result ≡ true → ReadsShort D.Disk disk.new }
    ensures goes { LinkStep (K.standing link.old) (K.standing link.new) }
    ensures told { IsTold D.Disk disk.old → IsTold D.Disk disk.new }
    ensures comes { Comes (K.faults link.old) (K.faults link.new) (D.Disk.faults disk.old) (D.Disk.faults disk.new) result }
{
    let end = feed_store(alloc, routes, store, link, clock, disk);
    if !end.is_open() {
        return end;
    }
    let shortened = shorten(store, disk);
    fed_behind(end, shortened)
}

/// Opens the store of a disk with these settings, and serves the requests that come one behind the
/// other over a link, until it ends or one of them ends the run. All that was accepted is committed
/// at the end, and the log is made short where it is long, unless the disk is at fault: where there
/// is no room in memory for that the end is `NoMemory` in place of any other, and where the disk
/// fails at it `Broken`. An error is what stops the run before the first request, and nothing is
/// read or written then.
pub fn run_feed<M: Listing + Drop, D: Disk, C: Clock, K: Link>(
    alloc: Global,
    disk: &mut D,
    clock: &mut C,
    config: Config,
    link: &mut K,
) -> Result<Fed, Stop>
    requires settings { (moment : ℤ) → M.takes (configuring config moment) }
    requires asks { TakesAsks M.takes }
    // Requests are served over some prefix of what was there, with the settings in force, up to
    // this end. All replies are written, unless the count of the link has risen, and that of its
    // writing side.
    ensures served { IfOk result (λ end. (past : Past) → M.is_chooser past.choose → AllByRecursion M.takes past.history →
        Begins D.Disk M.Book.fits past disk.old → (image : Image) → D.Disk.seen disk.old ≡ Some image →
        HasServed D.Disk M.takes M.Book.fits past (course config (C.ahead clock.old) (C.ahead clock.new) disk.old disk.new)
        (Requests D.Disk M.Book.fits end (IsClean (K.faults link.old) (K.faults link.new) (K.standing link.old) (K.standing link.new))
        (exchange (K.left link.old) (K.left link.new) (K.given link.old) (K.given link.new)))) }
    // Which requests were read, and where the run ended by them, goes by the bytes of the link,
    // whatever the disk holds.
    ensures reads { IfOk result (λ end. ReadsTo end (K.left link.old) (K.left link.new)) }
    // A run that stops before them has lost nothing, has its cause, and leaves the link alone.
    ensures shut { IfErr result (λ stop. (past : Past) → M.is_chooser past.choose → AllByRecursion M.takes past.history →
        Begins D.Disk M.Book.fits past disk.old → (image : Image) → D.Disk.seen disk.old ≡ Some image →
        HasShut stop D.Disk M.takes M.Book.fits past (course config (C.ahead clock.old) (C.ahead clock.new) disk.old disk.new)) }
    ensures untouched { OnErr result (link.new ≡ link.old) }
    // Behind the run the current log is not long, as the disk reads; but for want of memory, where
    // the disk is at fault, or where nothing was mounted.
    ensures short { IfOk result (λ end. ends.is_short end ≡ true → ReadsShort D.Disk disk.new) }
    ensures stopped_short { IfErr result (λ stop. StopsShort D.Disk M.Book.fits stop disk.old disk.new) }
    // Whatever the disk held: requests are served over a store that was mounted, and a stop before
    // them blames what the mount or the mounted store has met.
    ensures mounted { OnOk result (HasMounted D.Disk M.Book.fits disk.old) }
    ensures blamed { IfErr result (λ stop. Blames stop D.Disk M.Book.fits M.gives_none disk.old disk.new) }
    // Damage that ends the requests is named as the disk reads.
    ensures placed { (file : File) (at : ℕ) → result ≡ Ok (Fed.Broken (CommitFault.Damaged file at)) → ReadsBad D.Disk disk.new file at }
    // What is on the disk is not damaged where it keeps what was committed and tells what it reads,
    ensures undamaged { (file : File) (at : ℕ) → result ≡ Err (Stop.Damaged file at) → (past : Past) → M.is_chooser past.choose →
        AllByRecursion M.takes past.history → Begins D.Disk M.Book.fits past disk.old → (image : Image) →
        D.Disk.seen disk.old ≡ Some image → ⊥ }
    ensures unbroken { (file : File) (at : ℕ) → result ≡ Ok (Fed.Broken (CommitFault.Damaged file at)) → (past : Past) →
        M.is_chooser past.choose → AllByRecursion M.takes past.history → Begins D.Disk M.Book.fits past disk.old → (image : Image) →
        D.Disk.seen disk.old ≡ Some image → ⊥ }
    // and what is in memory contradicts nothing.
    ensures sound { IsErrOf result Stop.Inconsistent → (past : Past) → M.is_chooser past.choose → AllByRecursion M.takes past.history →
        Begins D.Disk M.Book.fits past disk.old → (image : Image) → D.Disk.seen disk.old ≡ Some image → ⊥ }
    ensures quiet { IfErr result (λ stop. is_output stop ≡ false) }
    ensures still { IfErr result (λ stop. is_input stop ≡ false) }
    // The link is the same still, a disk that tells what it reads goes on telling, and no count
    // falls.
    ensures goes { LinkStep (K.standing link.old) (K.standing link.new) }
    ensures told { IsTold D.Disk disk.old → IsTold D.Disk disk.new }
    ensures link_later { K.faults link.old ≤ K.faults link.new }
    ensures later { D.Disk.faults disk.old ≤ D.Disk.faults disk.new }
    ensures cause { IsErrOf result Stop.Disk → Rose (D.Disk.faults disk.old) (D.Disk.faults disk.new) }
    ensures disk { result ≡ Ok (Fed.Broken CommitFault.Disk) → Rose (D.Disk.faults disk.old) (D.Disk.faults disk.new) }
    ensures link { result ≡ Ok (Fed.Link) → Rose (K.faults link.old) (K.faults link.new) }
{
    let routes = Routes::new(alloc)?;
    let mut store = match open::<M, D, C>(alloc, disk, clock, config) {
        Ok(store) => store,
        Err(stop) => return Err(stop),
    };
    Ok(feed_open(alloc, &routes, &mut store, link, clock, disk))
}
