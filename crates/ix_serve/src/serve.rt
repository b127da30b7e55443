//! One request is served. Whoever serves links calls `serve_one`.

ghost use Rattle.std.specs.Prelude.{◌≡◌, ℕ, List, length, nat_lt, true, false};
ghost use Rattle.std.specs.List.{AllByRecursion};
ghost use Rattle.ix_http.specs.Limits.{KeepsLimits};
ghost use Rattle.ix_commit.specs.Snapshot.{KnowsLogLength, LogsAtEnd};
ghost use Rattle.ix_net.specs.Links.{LinkStep};
ghost use Rattle.ix_model.specs.Given.{Chooser};
ghost use Rattle.ix_model.specs.declared.commands.TimedCommand.{TimedCommand};
ghost use Rattle.ix_serve.specs.Answer.{MayBe};
ghost use Rattle.ix_serve.specs.Entries.{entry};
ghost use Rattle.ix_serve.specs.Kinds.{kind};
ghost use Rattle.ix_serve.specs.Serving.{Answers, Comes, IsClean, IsLongStill, IsOpen, IsPlaced, IsReplied, IsShortBehind, IsTold, Reads};
ghost use Rattle.ix_serve.specs.Serving.{Serves, outcome, still_open};
ghost use Rattle.ix_serve.specs.Taking.{TakesAsks};
ghost use Rattle.ix_store.specs.Holding.{Represents, is_closed};
ghost use Rattle.ix_store.specs.Remembering.{Remembers};

use crate::changes::{serve_begin, serve_block, serve_end};
use crate::events::serve_events;
use crate::keeping::shorten_behind;
use crate::queries::{serve_acks, serve_buckets};
use crate::replies::{decline, give_unread};
use crate::served::{ServeFault, Served};
use ix_disk::Disk;
use ix_http::{Ask, Incoming, LinkFault, Routes, read_request};
use ix_net::Link;
use ix_store::{Listing, Store, StoreMemory};
use std::alloc::Global;

/// Serves what is asked.
fn serve_ask<K: Link, M: StoreMemory + Drop, D: Disk>(
    alloc: Global,
    store: &mut Store<M>,
    link: &mut K,
    ask: Ask,
    moment: i64,
    disk: &mut D,
) -> Result<Served, ServeFault>
    requires over { LogsAtEnd D.Disk store.old.committer disk.old }
    requires takes { TakesAsks M.takes }
    requires within { KeepsLimits ask }
    ensures answers { (choose : Chooser) (history : List TimedCommand) (base k : ℕ) → M.is_chooser choose → AllByRecursion M.takes history →
        Represents D.Disk M.Book.fits M.holds choose history base k store.old disk.old →
        Answers D.Disk (kind M.takes M.Book.fits M.holds) (entry choose history base k store.old.run moment)
        (MayBe (entry choose history base k store.old.run moment) (IsTold D.Disk disk.new) ask result) true
        (outcome result (IsClean (K.faults link.old) (K.faults link.new) (K.standing link.old) (K.standing link.new)) (K.given link.old)
        (K.given link.new)) store.new disk.old disk.new }
    ensures left { K.left link.new ≡ K.left link.old }
    ensures over { IsOpen result → LogsAtEnd D.Disk store.new.committer disk.new }
    ensures measured { KnowsLogLength D.Disk store.old.committer disk.old → IsOpen result →
        KnowsLogLength D.Disk store.new.committer disk.new }
    ensures closed { still_open result ≡ false → is_closed store.new ≡ true }
    ensures placed { IsPlaced D.Disk (M.shown store.new.memory) disk.new result }
    ensures replied { IsReplied true result }
    ensures run { store.new.run ≡ store.old.run }
    ensures remembers { Remembers M.is_chooser M.takes M.holds store.old.memory store.new.memory }
    ensures told { IsTold D.Disk disk.old → IsTold D.Disk disk.new }
    ensures goes { LinkStep (K.standing link.old) (K.standing link.new) }
    ensures comes { Comes (K.faults link.old) (K.faults link.new) (D.Disk.faults disk.old) (D.Disk.faults disk.new) result }
{
    match ask {
        Ask::Begin { channel, meta } => serve_begin(
            alloc, store, link, channel, meta, moment, disk,
        ),
        Ask::Block { channel, bytes } => {
            serve_block(alloc, store, link, channel, bytes, moment, disk)
        }
        Ask::End { channel } => serve_end(alloc, store, link, channel, moment, disk),
        Ask::Acks { run, numbers } => serve_acks(alloc, store, link, run, &numbers, moment, disk),
        Ask::Buckets => serve_buckets(alloc, store, link),
        Ask::Events { index, range } => {
            serve_events(alloc, store, link, &index, range, moment, disk)
        }
    }
}

/// Reads a request from the link, serves what it asks, and commits where that is due. The log stays
/// as long as it is.
fn serve_request<K: Link, M: StoreMemory + Drop, D: Disk>(
    alloc: Global,
    routes: &Routes,
    store: &mut Store<M>,
    link: &mut K,
    moment: i64,
    disk: &mut D,
) -> Result<Served, ServeFault>
    requires over { LogsAtEnd D.Disk store.old.committer disk.old }
    requires takes { TakesAsks M.takes }
    ensures serves { (choose : Chooser) (history : List TimedCommand) (base k : ℕ) → M.is_chooser choose → AllByRecursion M.takes history →
        Represents D.Disk M.Book.fits M.holds choose history base k store.old disk.old →
        Serves D.Disk (kind M.takes M.Book.fits M.holds) (entry choose history base k store.old.run moment)
        (outcome result (IsClean (K.faults link.old) (K.faults link.new) (K.standing link.old) (K.standing link.new)) (K.given link.old)
        (K.given link.new)) (K.left link.old) (K.left link.new) store.new disk.old disk.new }
    ensures over { IsOpen result → LogsAtEnd D.Disk store.new.committer disk.new }
    ensures measured { KnowsLogLength D.Disk store.old.committer disk.old → IsOpen result →
        KnowsLogLength D.Disk store.new.committer disk.new }
    ensures closed { still_open result ≡ false → is_closed store.new ≡ true }
    ensures placed { IsPlaced D.Disk (M.shown store.new.memory) disk.new result }
    ensures reads { Reads result (K.left link.old) (K.left link.new) }
    ensures run { store.new.run ≡ store.old.run }
    ensures remembers { Remembers M.is_chooser M.takes M.holds store.old.memory store.new.memory }
    ensures told { IsTold D.Disk disk.old → IsTold D.Disk disk.new }
    ensures goes { LinkStep (K.standing link.old) (K.standing link.new) }
    ensures comes { Comes (K.faults link.old) (K.faults link.new) (D.Disk.faults disk.old) (D.Disk.faults disk.new) result }
{
    match read_request(alloc, routes, link) {
        Ok(Incoming::Ended) => Ok(Served::Ended),
        Ok(Incoming::Asked { ask }) => serve_ask(alloc, store, link, ask, moment, disk),
        Ok(Incoming::Refused { fault, delimited }) => give_unread(link, fault, delimited),
        Err(LinkFault::Failed) => Err(ServeFault::Link),
        Err(LinkFault::Cut) => Err(ServeFault::Cut),
        Err(LinkFault::NoMemory { whole }) => decline(link, whole),
    }
}

/// Serves one request: reads it from the link, has the store accept its command, writes the reply,
/// and then commits where that is due, or where an acknowledgement was asked for that is not there
/// yet. Before the lines of an index all is committed. Want of memory is replied with 503, and
/// changes nothing. A fault of the disk is replied with 500 where no reply was written yet; it
/// closes the store, which is to be mounted again. Last, behind a reply, the log is made short by a
/// checkpoint where it is long and nothing is staged.
pub fn serve_one<K: Link, M: Listing + Drop, D: Disk>(
    alloc: Global,
    routes: &Routes,
    store: &mut Store<M>,
    link: &mut K,
    moment: i64,
    disk: &mut D,
) -> Result<Served, ServeFault>
    requires over { LogsAtEnd D.Disk store.old.committer disk.old }
    // What requests ask for may be given to the store.
    requires takes { TakesAsks M.takes }
    // For every history that store and disk hold, one answer says what is written, what is added
    // and held, and what every image stands for.
    ensures serves { (choose : Chooser) (history : List TimedCommand) (base k : ℕ) → M.is_chooser choose → AllByRecursion M.takes history →
        Represents D.Disk M.Book.fits M.holds choose history base k store.old disk.old →
        Serves D.Disk (kind M.takes M.Book.fits M.holds) (entry choose history base k store.old.run moment)
        (outcome result (IsClean (K.faults link.old) (K.faults link.new) (K.standing link.old) (K.standing link.new)) (K.given link.old)
        (K.given link.new)) (K.left link.old) (K.left link.new) store.new disk.old disk.new }
    // What comes of a request goes by what was read, also where the disk holds no history: where it
    // is cut or refused, and whether another may follow.
    ensures reads { Reads result (K.left link.old) (K.left link.new) }
    // After a fault of the disk, or damage, the store is closed, and damage is named as the disk
    // reads, whatever it stands for: the file ends at the place, or it is that of a bucket which the
    // store shows, of which no record ends behind the place within the bytes that count.
    ensures closed { still_open result ≡ false → is_closed store.new ≡ true }
    ensures placed { IsPlaced D.Disk (M.shown store.new.memory) disk.new result }
    // Behind a reply the log is not long, unless a command is staged, or the reply comes with
    // `unshortened`; and then it is long.
    ensures short { (choose : Chooser) (history : List TimedCommand) (base k : ℕ) →
        Represents D.Disk M.Book.fits M.holds choose history base k store.new disk.new →
        IsShortBehind result (nat_lt k (length history)) store.new.committer }
    ensures long { IsLongStill result store.new.committer }
    // What the next request, and a checkpoint, ask for.
    ensures over { IsOpen result → LogsAtEnd D.Disk store.new.committer disk.new }
    ensures measured { KnowsLogLength D.Disk store.old.committer disk.old → IsOpen result →
        KnowsLogLength D.Disk store.new.committer disk.new }
    // Memory goes on holding what it held, with accepted commands behind it, whatever the files of
    // buckets hold.
    ensures remembers { Remembers M.is_chooser M.takes M.holds store.old.memory store.new.memory }
    // The run goes on, a disk that tells what it reads goes on telling, and the link is what it was
    // when it began.
    ensures run { store.new.run ≡ store.old.run }
    ensures told { IsTold D.Disk disk.old → IsTold D.Disk disk.new }
    ensures goes { LinkStep (K.standing link.old) (K.standing link.new) }
    // No count falls, and a fault of the link or the disk comes only where its count rose.
    ensures comes { Comes (K.faults link.old) (K.faults link.new) (D.Disk.faults disk.old) (D.Disk.faults disk.new) result }
{
    match serve_request(alloc, routes, store, link, moment, disk) {
        Ok(
            Served::Reply {
                status,
                delimited,
                ..
            },
        ) => match shorten_behind(store, disk) {
            Ok(unshortened) => Ok(Served::Reply {
                status,
                delimited,
                unshortened,
            }),
            Err(fault) => Err(fault),
        },
        Ok(Served::Ended) => Ok(Served::Ended),
        Err(fault) => Err(fault),
    }
}
