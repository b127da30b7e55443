//! Requests are served over a connection each. The program calls `run_serve`.

ghost use Rattle.std.specs.Prelude.{◌≡◌, ◌≤◌, ℕ, List, Err, IfOk, OnOk, OnErr, true};
ghost use Rattle.std.specs.List.{AllByRecursion};
ghost use Rattle.ix_base.specs.Faults.{HasCause, Rose};
ghost use Rattle.ix_commit.specs.Snapshot.{NothingStaged, KnowsLogLength, LogsAtEnd};
ghost use Rattle.ix_model.specs.Given.{Chooser};
ghost use Rattle.ix_model.specs.declared.commands.TimedCommand.{TimedCommand};
ghost use Rattle.ix_serve.specs.Answer.{Found};
ghost use Rattle.ix_serve.specs.Serving.{IsOpen, IsPlaced, IsTold};
ghost use Rattle.ix_serve.specs.Taking.{TakesAsks};
ghost use Rattle.ix_sessions.specs.Connections as defs;
ghost use Rattle.ix_sessions.specs.Connections.{Attends, Hears, IsPlacedEnd, Listens, listened, hearing};
ghost use Rattle.ix_serve.specs.Kinds.{kind};
ghost use Rattle.ix_sessions.specs.Feeding.{start};
ghost use Rattle.ix_sessions.specs.Reading.{AsMany, HearsMany, IsHeard};
ghost use Rattle.ix_store.specs.Holding.{Represents};
ghost use Rattle.ix_store.specs.Remembering.{Remembers};

use ix_base::{Clock, Failed};
use ix_commit::CommitFault;
use ix_disk::Disk;
use ix_http::Routes;
use ix_net::Listener;
use ix_serve::{ServeFault, Served, serve_one};
use ix_store::{Listing, Store};
use std::alloc::Global;

/// How a run of connections ended.
#[derive(Clone, Copy, Debug, PartialEq, Eq)]
pub enum Heard {
    /// As many connections were served as were to be.
    Done,
    /// The listener has failed.
    Listener,
    /// The disk has failed, or the store is damaged. The store is closed.
    Broken { cause: CommitFault },
}

impl Heard {
    /// Whether the store is open still.
    pub fn is_open(self) -> bool
        ensures { result ≡ defs.is_open_end self }
    {
        match self {
            Heard::Done | Heard::Listener => true,
            Heard::Broken { .. } => false,
        }
    }
}

/// The fault of the disk that ends a run behind what came of a request.
fn break_of(came: Result<Served, ServeFault>) -> Option<CommitFault>
    ensures { result ≡ defs.break_of came }
{
    match came {
        Err(ServeFault::Disk) => Some(CommitFault::Disk),
        Err(ServeFault::Damaged { file, at }) => Some(CommitFault::Damaged { file, at }),
        Err(ServeFault::Link | ServeFault::Cut) => None,
        Ok(_) => None,
    }
}

/// Accepts a connection, serves the one request on it, and hands it back.
fn serve_next<L: Listener, M: Listing + Drop, C: Clock, D: Disk>(
    alloc: Global,
    routes: &Routes,
    store: &mut Store<M>,
    listener: &mut L,
    clock: &mut C,
    disk: &mut D,
) -> Result<Result<Served, ServeFault>, Failed>
    requires over { LogsAtEnd D.Disk store.old.committer disk.old }
    requires takes { TakesAsks M.takes }
    ensures attends { IfOk result (λ came. (choose : Chooser) (history : List TimedCommand) (base k : ℕ) → M.is_chooser choose →
        AllByRecursion M.takes history → Represents D.Disk M.Book.fits M.holds choose history base k store.old disk.old →
        Attends D.Disk (kind M.takes M.Book.fits M.holds) (start choose history base k store.old.run disk.old) came
        (hearing (listened (L.waiting listener.old) (L.handed listener.old)) (C.ahead clock.old))
        (hearing (listened (L.waiting listener.new) (L.handed listener.new)) (C.ahead clock.new)) store.new disk.new) }
    ensures reads { OnOk result ((read : Found) × IsHeard read (listened (L.waiting listener.old) (L.handed listener.old))
        (listened (L.waiting listener.new) (L.handed listener.new))) }
    ensures placed { IfOk result (λ came. IsPlaced D.Disk (M.shown store.new.memory) disk.new came) }
    ensures over { IfOk result (λ came. IsOpen came → LogsAtEnd D.Disk store.new.committer disk.new) }
    ensures measured { IfOk result (λ came. KnowsLogLength D.Disk store.old.committer disk.old → IsOpen came →
        KnowsLogLength D.Disk store.new.committer disk.new) }
    ensures later { D.Disk.faults disk.old ≤ D.Disk.faults disk.new }
    ensures failed { IfOk result (λ came. came ≡ Err ServeFault.Disk → Rose (D.Disk.faults disk.old) (D.Disk.faults disk.new)) }
    ensures run { store.new.run ≡ store.old.run }
    ensures remembers { Remembers M.is_chooser M.takes M.holds store.old.memory store.new.memory }
    ensures told { IsTold D.Disk disk.old → IsTold D.Disk disk.new }
    ensures out { L.out listener.new ≡ L.out listener.old }
    ensures store { OnErr result (store.new ≡ store.old) }
    ensures left { OnErr result (disk.new ≡ disk.old) }
    ensures unasked { OnErr result (clock.new ≡ clock.old) }
    ensures waiting { OnErr result (L.waiting listener.new ≡ L.waiting listener.old) }
    ensures handed { OnErr result (L.handed listener.new ≡ L.handed listener.old) }
    ensures cause { HasCause (L.faults listener.old) (L.faults listener.new) result }
{
    let mut conn = listener.accept()?;
    let moment = clock.now();
    let came = serve_one(alloc, routes, store, &mut conn, moment, disk);
    listener.done(conn);
    Ok(came)
}

/// Serves so many connections, or until the listener or the disk fails.
fn serve_all<L: Listener, M: Listing + Drop, C: Clock, D: Disk>(
    alloc: Global,
    routes: &Routes,
    store: &mut Store<M>,
    listener: &mut L,
    requests: u32,
    clock: &mut C,
    disk: &mut D,
) -> Heard
    requires over { LogsAtEnd D.Disk store.old.committer disk.old }
    requires takes { TakesAsks M.takes }
    ensures hears { (choose : Chooser) (history : List TimedCommand) (base k : ℕ) → M.is_chooser choose → AllByRecursion M.takes history →
        Represents D.Disk M.Book.fits M.holds choose history base k store.old disk.old →
        Hears D.Disk (kind M.takes M.Book.fits M.holds) (start choose history base k store.old.run disk.old) requests result
        (hearing (listened (L.waiting listener.old) (L.handed listener.old)) (C.ahead clock.old))
        (hearing (listened (L.waiting listener.new) (L.handed listener.new)) (C.ahead clock.new)) store.new disk.new }
    ensures reads { HearsMany (AsMany requests result) (listened (L.waiting listener.old) (L.handed listener.old))
        (listened (L.waiting listener.new) (L.handed listener.new)) }
    ensures placed { IsPlacedEnd D.Disk (M.shown store.new.memory) disk.new result }
    ensures over { defs.is_open_end result ≡ true → LogsAtEnd D.Disk store.new.committer disk.new }
    ensures measured { KnowsLogLength D.Disk store.old.committer disk.old → defs.is_open_end result ≡ true →
        KnowsLogLength D.Disk store.new.committer disk.new }
    ensures run { store.new.run ≡ store.old.run }
    ensures remembers { Remembers M.is_chooser M.takes M.holds store.old.memory store.new.memory }
    ensures told { IsTold D.Disk disk.old → IsTold D.Disk disk.new }
    ensures out { L.out listener.new ≡ L.out listener.old }
    ensures comes { defs.Comes (L.faults listener.old) (L.faults listener.new) (D.Disk.faults disk.old) (D.Disk.faults disk.new) result }
{
    for _served in 0..requests {
        match serve_next(alloc, routes, store, listener, clock, disk) {
            Ok(came) => {
                if let Some(cause) = break_of(came) {
                    return Heard::Broken { cause };
                }
            }
            Err(_) => return Heard::Listener,
        }
    }
    Heard::Done
}

/// Serves so many connections, one request each, and makes all that was accepted durable at the
/// end. The clock is asked once for each, behind its `accept`. Each is handed back, also where it
/// was cut or has failed: that ends nothing. A listener that fails ends the run, and so does a disk
/// that fails or is damaged. Behind a reply the log is made short where it is long and nothing is
/// staged; where there is no room for that the run goes on.
pub fn run_serve<L: Listener, M: Listing + Drop, C: Clock, D: Disk>(
    alloc: Global,
    routes: &Routes,
    store: &mut Store<M>,
    listener: &mut L,
    requests: u32,
    clock: &mut C,
    disk: &mut D,
) -> Heard
    requires over { LogsAtEnd D.Disk store.old.committer disk.old }
    requires takes { TakesAsks M.takes }
    // What is written on each connection is the reply to what it held; every image stands for a
    // prefix of what was there and accepted and has each acknowledged command; and at the end every
    // image has all, unless the disk is at fault.
    ensures listens { (choose : Chooser) (history : List TimedCommand) (base k : ℕ) → M.is_chooser choose → AllByRecursion M.takes history →
        Represents D.Disk M.Book.fits M.holds choose history base k store.old disk.old →
        Listens D.Disk (kind M.takes M.Book.fits M.holds) (start choose history base k store.old.run disk.old) requests result
        (hearing (listened (L.waiting listener.old) (L.handed listener.old)) (C.ahead clock.old))
        (hearing (listened (L.waiting listener.new) (L.handed listener.new)) (C.ahead clock.new)) store.new disk.new }
    // Which connections were taken and handed back, and what was read of each, goes by what they
    // held, also where the disk holds no history.
    ensures reads { HearsMany (AsMany requests result) (listened (L.waiting listener.old) (L.handed listener.old))
        (listened (L.waiting listener.new) (L.handed listener.new)) }
    // Damage is named as the disk reads, whatever it holds: the file ends at the place, or it is
    // that of a bucket which the store shows, of which no record ends behind the place within the
    // bytes that count.
    ensures placed { IsPlacedEnd D.Disk (M.shown store.new.memory) disk.new result }
    // What the next request or a checkpoint asks for.
    ensures over { defs.is_open_end result ≡ true → LogsAtEnd D.Disk store.new.committer disk.new }
    ensures idle { defs.is_open_end result ≡ true → NothingStaged store.new.committer }
    ensures measured { KnowsLogLength D.Disk store.old.committer disk.old → defs.is_open_end result ≡ true →
        KnowsLogLength D.Disk store.new.committer disk.new }
    // Memory goes on holding what it held, with accepted commands behind it, whatever the files of
    // buckets hold.
    ensures remembers { Remembers M.is_chooser M.takes M.holds store.old.memory store.new.memory }
    // The run goes on, a disk that tells what it reads goes on telling, and as many connections are
    // out as before.
    ensures run { store.new.run ≡ store.old.run }
    ensures told { IsTold D.Disk disk.old → IsTold D.Disk disk.new }
    ensures out { L.out listener.new ≡ L.out listener.old }
    // No count falls, and a fault of the listener or the disk comes only where its count rose.
    ensures comes { defs.Comes (L.faults listener.old) (L.faults listener.new) (D.Disk.faults disk.old) (D.Disk.faults disk.new) result }
{
    let end = serve_all(alloc, routes, store, listener, requests, clock, disk);
    if !end.is_open() {
        return end;
    }
    match store.commit(disk) {
        Ok(()) => end,
        Err(cause) => Heard::Broken { cause },
    }
}
