//! Requests that change a store: a channel is begun, takes a block, or is ended.

ghost use Rattle.std.specs.Prelude.{◌≡◌, ℕ, List, None, true, false};
ghost use Rattle.std.specs.List.{AllByRecursion};
ghost use Rattle.ix_http.specs.declared.kinds.Ask.TheVariants as asks;
ghost use Rattle.ix_http.specs.declared.kinds.Kind.TheVariants.{Json};
ghost use Rattle.ix_commit.specs.Snapshot.{KnowsLogLength, LogsAtEnd};
ghost use Rattle.ix_net.specs.Links.{LinkStep};
ghost use Rattle.ix_model.specs.Given.{Chooser};
ghost use Rattle.ix_model.specs.declared.commands.Command.TheVariants as commands;
ghost use Rattle.ix_model.specs.declared.commands.TimedCommand.{TimedCommand};
ghost use Rattle.ix_serve.specs.Answer.{MayChange, MayBe};
ghost use Rattle.ix_serve.specs.Entries.{entry};
ghost use Rattle.ix_serve.specs.Kinds.{kind};
ghost use Rattle.ix_serve.specs.Replies.{reply};
ghost use Rattle.ix_serve.specs.Serving.{Answers, Comes, IsClean, IsOpen, IsPlacedAtEnd, IsReplied, IsTold, outcome, still_open};
ghost use Rattle.ix_store.specs.Holding.{Represents, is_closed};
ghost use Rattle.ix_store.specs.Remembering.{Remembers};

use crate::bodies::{acked_body, begun_body};
use crate::keeping::settle;
use crate::replies::{decline, give, give_refusal};
use crate::served::{ServeFault, Served};
use ix_base::{Bytes, ChannelMeta};
use ix_disk::Disk;
use ix_http::Kind;
use ix_model::Command;
use ix_net::Link;
use ix_store::{Store, StoreMemory};
use std::alloc::Global;

/// Has the store accept a command, writes the reply, and commits where the group is due.
fn serve_change<K: Link, M: StoreMemory + Drop, D: Disk>(
    store: &mut Store<M>,
    link: &mut K,
    command: Command,
    status: u16,
    body: &[u8],
    moment: i64,
    disk: &mut D,
) -> Result<Served, ServeFault>
    requires over { LogsAtEnd D.Disk store.old.committer disk.old }
    requires takes { M.takes (record { command = command; moment = moment }) }
    ensures answers { (choose : Chooser) (history : List TimedCommand) (base k : ℕ) → M.is_chooser choose → AllByRecursion M.takes history →
        Represents D.Disk M.Book.fits M.holds choose history base k store.old disk.old →
        Answers D.Disk (kind M.takes M.Book.fits M.holds) (entry choose history base k store.old.run moment)
        (MayChange (entry choose history base k store.old.run moment) command (reply status Json body.now)) true
        (outcome result (IsClean (K.faults link.old) (K.faults link.new) (K.standing link.old) (K.standing link.new)) (K.given link.old)
        (K.given link.new)) store.new disk.old disk.new }
    ensures left { K.left link.new ≡ K.left link.old }
    ensures over { IsOpen result → LogsAtEnd D.Disk store.new.committer disk.new }
    ensures measured { KnowsLogLength D.Disk store.old.committer disk.old → IsOpen result →
        KnowsLogLength D.Disk store.new.committer disk.new }
    ensures closed { still_open result ≡ false → is_closed store.new ≡ true }
    ensures placed { IsPlacedAtEnd D.Disk disk.new result }
    ensures replied { IsReplied true result }
    ensures run { store.new.run ≡ store.old.run }
    ensures remembers { Remembers M.is_chooser M.takes M.holds store.old.memory store.new.memory }
    ensures told { IsTold D.Disk disk.old → IsTold D.Disk disk.new }
    ensures goes { LinkStep (K.standing link.old) (K.standing link.new) }
    ensures comes { Comes (K.faults link.old) (K.faults link.new) (D.Disk.faults disk.old) (D.Disk.faults disk.new) result }
{
    match store.accept(command, moment) {
        Ok(_) => {
            let came = give(link, status, Kind::Json, body, true);
            let due = store.due();
            if due { settle(store, disk, came) } else { came }
        }
        Err(refusal) => give_refusal(link, refusal),
    }
}

/// Begins a channel.
pub(crate) fn serve_begin<K: Link, M: StoreMemory + Drop, D: Disk>(
    alloc: Global,
    store: &mut Store<M>,
    link: &mut K,
    channel: Bytes,
    meta: ChannelMeta,
    moment: i64,
    disk: &mut D,
) -> Result<Served, ServeFault>
    requires over { LogsAtEnd D.Disk store.old.committer disk.old }
    requires takes { M.takes (record { command = commands.Begin channel meta; moment = moment }) }
    ensures answers { (choose : Chooser) (history : List TimedCommand) (base k : ℕ) → M.is_chooser choose → AllByRecursion M.takes history →
        Represents D.Disk M.Book.fits M.holds choose history base k store.old disk.old →
        Answers D.Disk (kind M.takes M.Book.fits M.holds) (entry choose history base k store.old.run moment)
        (MayBe (entry choose history base k store.old.run moment) (IsTold D.Disk disk.new) (asks.Begin channel meta) result) true
        (outcome result (IsClean (K.faults link.old) (K.faults link.new) (K.standing link.old) (K.standing link.new)) (K.given link.old)
        (K.given link.new)) store.new disk.old disk.new }
    ensures left { K.left link.new ≡ K.left link.old }
    ensures over { IsOpen result → LogsAtEnd D.Disk store.new.committer disk.new }
    ensures measured { KnowsLogLength D.Disk store.old.committer disk.old → IsOpen result →
        KnowsLogLength D.Disk store.new.committer disk.new }
    ensures closed { still_open result ≡ false → is_closed store.new ≡ true }
    ensures placed { IsPlacedAtEnd D.Disk disk.new result }
    ensures replied { IsReplied true result }
    ensures run { store.new.run ≡ store.old.run }
    ensures remembers { Remembers M.is_chooser M.takes M.holds store.old.memory store.new.memory }
    ensures told { IsTold D.Disk disk.old → IsTold D.Disk disk.new }
    ensures goes { LinkStep (K.standing link.old) (K.standing link.new) }
    ensures comes { Comes (K.faults link.old) (K.faults link.new) (D.Disk.faults disk.old) (D.Disk.faults disk.new) result }
{
    let Ok(body) = begun_body(alloc, channel.as_slice()) else {
        return decline(link, true);
    };
    let command = Command::Begin { channel, meta };
    serve_change(store, link, command, 201, body.as_slice(), moment, disk)
}

/// Gives a block to a channel.
pub(crate) fn serve_block<K: Link, M: StoreMemory + Drop, D: Disk>(
    alloc: Global,
    store: &mut Store<M>,
    link: &mut K,
    channel: Bytes,
    bytes: Bytes,
    moment: i64,
    disk: &mut D,
) -> Result<Served, ServeFault>
    requires over { LogsAtEnd D.Disk store.old.committer disk.old }
    requires takes { M.takes (record { command = commands.Block channel bytes None; moment = moment }) }
    ensures answers { (choose : Chooser) (history : List TimedCommand) (base k : ℕ) → M.is_chooser choose → AllByRecursion M.takes history →
        Represents D.Disk M.Book.fits M.holds choose history base k store.old disk.old →
        Answers D.Disk (kind M.takes M.Book.fits M.holds) (entry choose history base k store.old.run moment)
        (MayBe (entry choose history base k store.old.run moment) (IsTold D.Disk disk.new) (asks.Block channel bytes) result) true
        (outcome result (IsClean (K.faults link.old) (K.faults link.new) (K.standing link.old) (K.standing link.new)) (K.given link.old)
        (K.given link.new)) store.new disk.old disk.new }
    ensures left { K.left link.new ≡ K.left link.old }
    ensures over { IsOpen result → LogsAtEnd D.Disk store.new.committer disk.new }
    ensures measured { KnowsLogLength D.Disk store.old.committer disk.old → IsOpen result →
        KnowsLogLength D.Disk store.new.committer disk.new }
    ensures closed { still_open result ≡ false → is_closed store.new ≡ true }
    ensures placed { IsPlacedAtEnd D.Disk disk.new result }
    ensures replied { IsReplied true result }
    ensures run { store.new.run ≡ store.old.run }
    ensures remembers { Remembers M.is_chooser M.takes M.holds store.old.memory store.new.memory }
    ensures told { IsTold D.Disk disk.old → IsTold D.Disk disk.new }
    ensures goes { LinkStep (K.standing link.old) (K.standing link.new) }
    ensures comes { Comes (K.faults link.old) (K.faults link.new) (D.Disk.faults disk.old) (D.Disk.faults disk.new) result }
{
    let Ok(body) = acked_body(alloc, store.drawn(), store.run()) else {
        return decline(link, true);
    };
    let command = Command::Block {
        channel,
        bytes,
        spot: None,
    };
    serve_change(store, link, command, 200, body.as_slice(), moment, disk)
}

/// Ends a channel.
pub(crate) fn serve_end<K: Link, M: StoreMemory + Drop, D: Disk>(
    alloc: Global,
    store: &mut Store<M>,
    link: &mut K,
    channel: Bytes,
    moment: i64,
    disk: &mut D,
) -> Result<Served, ServeFault>
    requires over { LogsAtEnd D.Disk store.old.committer disk.old }
    requires takes { M.takes (record { command = commands.End channel; moment = moment }) }
    ensures answers { (choose : Chooser) (history : List TimedCommand) (base k : ℕ) → M.is_chooser choose → AllByRecursion M.takes history →
        Represents D.Disk M.Book.fits M.holds choose history base k store.old disk.old →
        Answers D.Disk (kind M.takes M.Book.fits M.holds) (entry choose history base k store.old.run moment)
        (MayBe (entry choose history base k store.old.run moment) (IsTold D.Disk disk.new) (asks.End channel) result) true
        (outcome result (IsClean (K.faults link.old) (K.faults link.new) (K.standing link.old) (K.standing link.new)) (K.given link.old)
        (K.given link.new)) store.new disk.old disk.new }
    ensures left { K.left link.new ≡ K.left link.old }
    ensures over { IsOpen result → LogsAtEnd D.Disk store.new.committer disk.new }
    ensures measured { KnowsLogLength D.Disk store.old.committer disk.old → IsOpen result →
        KnowsLogLength D.Disk store.new.committer disk.new }
    ensures closed { still_open result ≡ false → is_closed store.new ≡ true }
    ensures placed { IsPlacedAtEnd D.Disk disk.new result }
    ensures replied { IsReplied true result }
    ensures run { store.new.run ≡ store.old.run }
    ensures remembers { Remembers M.is_chooser M.takes M.holds store.old.memory store.new.memory }
    ensures told { IsTold D.Disk disk.old → IsTold D.Disk disk.new }
    ensures goes { LinkStep (K.standing link.old) (K.standing link.new) }
    ensures comes { Comes (K.faults link.old) (K.faults link.new) (D.Disk.faults disk.old) (D.Disk.faults disk.new) result }
{
    let Ok(body) = acked_body(alloc, store.drawn(), store.run()) else {
        return decline(link, true);
    };
    let command = Command::End { channel };
    serve_change(store, link, command, 200, body.as_slice(), moment, disk)
}
