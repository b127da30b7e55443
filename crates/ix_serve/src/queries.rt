//! Requests that ask: which numbers are committed, and what is stored.

ghost use Rattle.std.specs.Prelude.{◌≡◌, ◌≤◌, ◌&&◌, ℕ, List, map, true, not, IfOk, Err, false};
ghost use Rattle.std.specs.List.{AllByRecursion, list_any};
ghost use Rattle.ix_base.specs.Faults.{Rose};
ghost use Rattle.ix_http.specs.declared.kinds.Ask.TheVariants as asks;
ghost use Rattle.ix_commit.specs.Snapshot.{Snapshot, KnowsLogLength, LogsAtEnd};
ghost use Rattle.ix_net.specs.Links.{LinkStep};
ghost use Rattle.ix_model.specs.Given.{Chooser};
ghost use Rattle.ix_model.specs.declared.commands.TimedCommand.{TimedCommand};
ghost use Rattle.ix_serve.specs.Answer.{MayBe};
ghost use Rattle.ix_serve.specs.Bodies.{acks_body};
ghost use Rattle.ix_serve.specs.Entries.{Entry, IsAt, entry, is_acked, is_pending};
ghost use Rattle.ix_serve.specs.Kinds.{kind};
ghost use Rattle.ix_serve.specs.Serving.{Answers, AreTold, Comes, IsClean, IsListed, IsOpen, IsPlacedAtEnd, IsReplied, IsTold, outcome};
ghost use Rattle.ix_serve.specs.Serving.{still_open};
ghost use Rattle.ix_store.specs.Holding.{Represents, is_closed};

use crate::bodies::add_value;
use crate::keeping::settle;
use crate::replies::{decline, give};
use crate::served::{ServeFault, Served};
use ix_base::{Bytes, NoMemory, NumberList};
use ix_disk::Disk;
use ix_http::Kind;
use ix_net::Link;
use ix_report::listing;
use ix_store::{Store, StoreMemory};
use std::alloc::Global;

/// The body of a reply that tells which of the numbers of a run are committed.
fn acks_body<M: StoreMemory + Drop>(
    alloc: Global,
    store: &Store<M>,
    run: u64,
    numbers: &[u64],
) -> Result<Bytes, NoMemory>
    ensures { IfOk result (λ body. (e : Entry) (old : Snapshot) → IsAt M.Book.fits M.holds e store.now old →
        body ≡ acks_body (map (is_acked e run) numbers.now)) }
{
    let mut body = Bytes::copy_of(alloc, b"{\"acks\":[")?;
    let mut before: &[u8] = b"";
    for number in numbers {
        add_value(&mut body, before, store.acked(run, *number))?;
        before = b",";
    }
    body.extend(b"]}")?;
    Ok(body)
}

/// Whether a number is one of this run that is drawn and not committed.
fn is_waiting(is_own: bool, is_drawn: bool, is_acked: bool) -> bool
    ensures { result ≡ (is_own && (is_drawn && not is_acked)) }
{
    is_own && is_drawn && !is_acked
}

/// Whether this run has drawn the number, and it is not committed.
fn is_pending<M: StoreMemory + Drop>(store: &Store<M>, run: u64, number: u64) -> bool
    ensures { (e : Entry) (old : Snapshot) → IsAt M.Book.fits M.holds e store.now old → result ≡ is_pending e run number }
{
    let own = store.run();
    let drawn = store.drawn();
    let acked = store.acked(run, number);
    is_waiting(run == own, number < drawn, acked)
}

/// Whether this run has drawn one of the numbers, and it is not committed.
fn has_pending<M: StoreMemory + Drop>(store: &Store<M>, run: u64, numbers: &[u64]) -> bool
    ensures { (e : Entry) (old : Snapshot) → IsAt M.Book.fits M.holds e store.now old → result ≡ list_any (is_pending e run) numbers.now }
{
    for number in numbers {
        if is_pending(store, run, *number) {
            return true;
        }
    }
    false
}

/// Answers which numbers are committed, and whether a commit is due behind the reply: where this
/// run has drawn one that is not. It has no disk, so what it replies is what was committed before
/// any call of one.
fn give_acks<K: Link, M: StoreMemory + Drop>(
    alloc: Global,
    store: &Store<M>,
    link: &mut K,
    run: u64,
    numbers: &[u64],
) -> (Result<Served, ServeFault>, bool)
    ensures told { (e : Entry) (old : Snapshot) → IsAt M.Book.fits M.holds e store.now old →
        AreTold e run numbers.now (IsClean (K.faults link.old) (K.faults link.new) (K.standing link.old) (K.standing link.new)) result.0
        result.1 (K.given link.old) (K.given link.new) }
    ensures left { K.left link.new ≡ K.left link.old }
    ensures replied { IsReplied true result.0 }
    ensures open { IsOpen result.0 }
    ensures goes { LinkStep (K.standing link.old) (K.standing link.new) }
    ensures later { K.faults link.old ≤ K.faults link.new }
    ensures failed { result.0 ≡ Err ServeFault.Link → Rose (K.faults link.old) (K.faults link.new) }
{
    let Ok(body) = acks_body(alloc, store, run, numbers) else {
        return (decline(link, true), false);
    };
    let due = has_pending(store, run, numbers);
    (give(link, 200, Kind::Json, body.as_slice(), true), due)
}

/// Answers which numbers are committed, and commits behind the reply where this run has drawn one
/// that is not.
pub(crate) fn serve_acks<K: Link, M: StoreMemory + Drop, D: Disk>(
    alloc: Global,
    store: &mut Store<M>,
    link: &mut K,
    run: u64,
    numbers: &NumberList,
    moment: i64,
    disk: &mut D,
) -> Result<Served, ServeFault>
    requires over { LogsAtEnd D.Disk store.old.committer disk.old }
    ensures answers { (choose : Chooser) (history : List TimedCommand) (base k : ℕ) → M.is_chooser choose → AllByRecursion M.takes history →
        Represents D.Disk M.Book.fits M.holds choose history base k store.old disk.old →
        Answers D.Disk (kind M.takes M.Book.fits M.holds) (entry choose history base k store.old.run moment)
        (MayBe (entry choose history base k store.old.run moment) (IsTold D.Disk disk.new) (asks.Acks run numbers.now) result) true
        (outcome result (IsClean (K.faults link.old) (K.faults link.new) (K.standing link.old) (K.standing link.new)) (K.given link.old)
        (K.given link.new)) store.new disk.old disk.new }
    ensures left { K.left link.new ≡ K.left link.old }
    ensures over { IsOpen result → LogsAtEnd D.Disk store.new.committer disk.new }
    ensures measured { KnowsLogLength D.Disk store.old.committer disk.old → IsOpen result →
        KnowsLogLength D.Disk store.new.committer disk.new }
    ensures closed { still_open result ≡ false → is_closed store.new ≡ true }
    ensures placed { IsPlacedAtEnd D.Disk disk.new result }
    ensures replied { IsReplied true result }
    ensures run { store.new.run ≡ store.old.run }
    ensures memory { store.new.memory ≡ store.old.memory }
    ensures told { IsTold D.Disk disk.old → IsTold D.Disk disk.new }
    ensures goes { LinkStep (K.standing link.old) (K.standing link.new) }
    ensures comes { Comes (K.faults link.old) (K.faults link.new) (D.Disk.faults disk.old) (D.Disk.faults disk.new) result }
{
    let (came, due) = give_acks(alloc, store, link, run, numbers.as_slice());
    if due { settle(store, disk, came) } else { came }
}

/// Answers the listing of the buckets.
pub(crate) fn serve_buckets<K: Link, M: StoreMemory + Drop>(
    alloc: Global,
    store: &Store<M>,
    link: &mut K,
) -> Result<Served, ServeFault>
    ensures lists { (e : Entry) (old : Snapshot) → IsAt M.Book.fits M.holds e store.now old →
        IsListed e (IsClean (K.faults link.old) (K.faults link.new) (K.standing link.old) (K.standing link.new)) result (K.given link.old)
        (K.given link.new) }
    ensures left { K.left link.new ≡ K.left link.old }
    ensures replied { IsReplied true result }
    ensures open { IsOpen result }
    ensures goes { LinkStep (K.standing link.old) (K.standing link.new) }
    ensures later { K.faults link.old ≤ K.faults link.new }
    ensures failed { result ≡ Err ServeFault.Link → Rose (K.faults link.old) (K.faults link.new) }
{
    match listing(alloc, store.view()) {
        Ok(text) => give(link, 200, Kind::Plain, text.as_slice(), true),
        Err(_) => decline(link, true),
    }
}
