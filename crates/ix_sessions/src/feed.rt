//! Requests are served one behind the other over one link. The program calls `run_feed`.

ghost use Rattle.std.specs.Prelude.{◌≡◌, ℕ, List, true, nat_eq, if◌then◌else◌};
ghost use Rattle.std.specs.List.{AllByRecursion};
ghost use Rattle.ix_commit.specs.Snapshot.{LogsAtEnd, NothingStaged, KnowsLogLength};
ghost use Rattle.ix_model.specs.Given.{Chooser};
ghost use Rattle.ix_model.specs.declared.commands.TimedCommand.{TimedCommand};
ghost use Rattle.ix_sessions.specs.Feeding as defs;
ghost use Rattle.ix_serve.specs.Kinds.{kind};
ghost use Rattle.ix_sessions.specs.Feeding.{Feeds, IsPlacedEnd, Runs, start, coming, talk};
ghost use Rattle.ix_sessions.specs.Reading.{ReadsTo};
ghost use Rattle.ix_net.specs.Links.{LinkStep};
ghost use Rattle.ix_serve.specs.Serving.{IsClean, IsTold};
ghost use Rattle.ix_serve.specs.Taking.{TakesAsks};
ghost use Rattle.ix_store.specs.Holding.{Represents};
ghost use Rattle.ix_store.specs.Remembering.{Remembers};

use ix_base::Clock;
use ix_commit::CommitFault;
use ix_disk::Disk;
use ix_http::Routes;
use ix_net::Link;
use ix_serve::{ServeFault, Served, serve_one};
use ix_store::{Listing, Store};
use std::alloc::Global;

/// The most requests that are served in one run.
const MOST: u64 = 1 << 32;

/// How a run of requests ended.
#[derive(Clone, Copy, Debug, PartialEq, Eq)]
pub enum Fed {
    /// The link had ended behind a request, or before the first.
    Ended,
    /// The link ended inside a request, or where the request ends is not known, so that nothing
    /// behind it can be read.
    Unreadable {
        /// Its number, from 1 on.
        request: u64,
    },
    /// There was no room in memory to read a request, and where it ends is not known.
    NoMemory,
    /// 2^32 requests were served.
    Endless,
    /// The link has failed.
    Link,
    /// The disk has failed, or the store is damaged. The store is closed.
    Broken {
        cause: CommitFault,
    },
}

impl Fed {
    /// Whether the store is open still.
    pub fn is_open(self) -> bool
        ensures { result ≡ defs.is_open_end self }
    {
        match self {
            Fed::Ended | Fed::Unreadable { .. } | Fed::NoMemory | Fed::Endless | Fed::Link => true,
            Fed::Broken { .. } => false,
        }
    }
}

/// The end of a run behind a request that is refused, and of which it is not known where it ends.
fn unread_end(request: u64, status: u16) -> Fed
    ensures { result ≡ (if nat_eq status 503 then Fed.NoMemory else Fed.Unreadable request) }
{
    if status == 503 {
        Fed::NoMemory
    } else {
        Fed::Unreadable { request }
    }
}

/// The end of a run behind what came of a request, where it ends there. A log that stays long,
/// since there was no room to make it short, ends nothing.
fn end_of(request: u64, came: Result<Served, ServeFault>) -> Option<Fed>
    ensures { result ≡ defs.end_of request came }
{
    match came {
        Ok(Served::Ended) => Some(Fed::Ended),
        Ok(
            Served::Reply {
                status,
                delimited,
                ..
            },
        ) => {
            if delimited {
                None
            } else {
                Some(unread_end(request, status))
            }
        }
        Err(ServeFault::Cut) => Some(Fed::Unreadable { request }),
        Err(ServeFault::Link) => Some(Fed::Link),
        Err(ServeFault::Disk) => Some(Fed::Broken {
            cause: CommitFault::Disk,
        }),
        Err(ServeFault::Damaged { file, at }) => Some(Fed::Broken {
            cause: CommitFault::Damaged { file, at },
        }),
    }
}

/// Serves requests until the link ends, or one is not read whole, or the link or the disk fails.
fn feed_all<K: Link, M: Listing + Drop, C: Clock, D: Disk>(
    alloc: Global,
    routes: &Routes,
    store: &mut Store<M>,
    link: &mut K,
    clock: &mut C,
    disk: &mut D,
) -> Fed
    requires over { LogsAtEnd D.Disk store.old.committer disk.old }
    requires takes { TakesAsks M.takes }
    ensures feeds { (choose : Chooser) (history : List TimedCommand) (base k : ℕ) → M.is_chooser choose → AllByRecursion M.takes history →
        Represents D.Disk M.Book.fits M.holds choose history base k store.old disk.old →
        Feeds D.Disk (kind M.takes M.Book.fits M.holds) (start choose history base k store.old.run disk.old) result
        (IsClean (K.faults link.old) (K.faults link.new) (K.standing link.old) (K.standing link.new))
        (talk (coming (K.left link.old) (C.ahead clock.old)) (K.given link.old))
        (talk (coming (K.left link.new) (C.ahead clock.new)) (K.given link.new)) store.new disk.new }
    ensures reads { ReadsTo result (K.left link.old) (K.left link.new) }
    ensures placed { IsPlacedEnd D.Disk (M.shown store.new.memory) disk.new result }
    ensures run { store.new.run ≡ store.old.run }
    ensures remembers { Remembers M.is_chooser M.takes M.holds store.old.memory store.new.memory }
    ensures over { defs.is_open_end result ≡ true → LogsAtEnd D.Disk store.new.committer disk.new }
    ensures measured { KnowsLogLength D.Disk store.old.committer disk.old → defs.is_open_end result ≡ true →
        KnowsLogLength D.Disk store.new.committer disk.new }
    ensures told { IsTold D.Disk disk.old → IsTold D.Disk disk.new }
    ensures goes { LinkStep (K.standing link.old) (K.standing link.new) }
    ensures comes { defs.Comes (K.faults link.old) (K.faults link.new) (D.Disk.faults disk.old) (D.Disk.faults disk.new) result }
{
    for served in 0..MOST {
        let moment = clock.now();
        let came = serve_one(alloc, routes, store, link, moment, disk);
        if let Some(end) = end_of(served + 1, came) {
            return end;
        }
    }
    Fed::Endless
}

/// Serves requests that come one behind the other over one link, and makes all that was accepted
/// durable at the end. The clock is asked once before each. Behind a reply the log is made short
/// where it is long and nothing is staged; where there is no room for that the run goes on.
pub fn run_feed<K: Link, M: Listing + Drop, C: Clock, D: Disk>(
    alloc: Global,
    routes: &Routes,
    store: &mut Store<M>,
    link: &mut K,
    clock: &mut C,
    disk: &mut D,
) -> Fed
    requires over { LogsAtEnd D.Disk store.old.committer disk.old }
    requires takes { TakesAsks M.takes }
    // The replies are those of the requests, one behind the other; every image stands for a prefix
    // of what was there and accepted and has each acknowledged command; and at the end every image
    // has all, unless the disk is at fault.
    ensures runs { (choose : Chooser) (history : List TimedCommand) (base k : ℕ) → M.is_chooser choose → AllByRecursion M.takes history →
        Represents D.Disk M.Book.fits M.holds choose history base k store.old disk.old →
        Runs D.Disk (kind M.takes M.Book.fits M.holds) (start choose history base k store.old.run disk.old) result
        (IsClean (K.faults link.old) (K.faults link.new) (K.standing link.old) (K.standing link.new))
        (talk (coming (K.left link.old) (C.ahead clock.old)) (K.given link.old))
        (talk (coming (K.left link.new) (C.ahead clock.new)) (K.given link.new)) store.new disk.new }
    // Which requests were read, and where the run ended by them, goes by the bytes of the link,
    // also where the disk holds no history.
    ensures reads { ReadsTo result (K.left link.old) (K.left link.new) }
    // Damage is named as the disk reads, whatever it holds: the file ends at the place, or it is
    // that of a bucket which the store shows, of which no record ends behind the place within the
    // bytes that count.
    ensures placed { IsPlacedEnd D.Disk (M.shown store.new.memory) disk.new result }
    // What the next request or a checkpoint asks for.
    ensures over { defs.is_open_end result ≡ true → LogsAtEnd D.Disk store.new.committer disk.new }
    ensures idle { defs.is_open_end result ≡ true → NothingStaged store.new.committer }
    ensures measured { KnowsLogLength D.Disk store.old.committer disk.old → defs.is_open_end result ≡ true →
        KnowsLogLength D.Disk store.new.committer disk.new }
    // Memory goes on holding what it held, with accepted commands behind it, whatever the files of
    // buckets hold.
    ensures remembers { Remembers M.is_chooser M.takes M.holds store.old.memory store.new.memory }
    // The run goes on, a disk that tells what it reads goes on telling, and the link is what it was
    // when it began.
    ensures run { store.new.run ≡ store.old.run }
    ensures told { IsTold D.Disk disk.old → IsTold D.Disk disk.new }
    ensures goes { LinkStep (K.standing link.old) (K.standing link.new) }
    // No count falls, and a fault of the link or the disk comes only where its count rose.
    ensures comes { defs.Comes (K.faults link.old) (K.faults link.new) (D.Disk.faults disk.old) (D.Disk.faults disk.new) result }
{
    let end = feed_all(alloc, routes, store, link, clock, disk);
    let open = end.is_open();
    if !open {
        return end;
    }
    match store.commit(disk) {
        Ok(()) => end,
        Err(cause) => Fed::Broken { cause },
    }
}
