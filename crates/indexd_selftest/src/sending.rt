//! Requests are sent to a store, each over a link of its own. `filling` calls `send_all`.

ghost use Rattle.std.specs.Prelude.{◌≡◌, ◌≤◌, ℕ, List, length, map, true, None, Err, OnOk};
ghost use Rattle.ix_commit.specs.Snapshot.{LogsAtEnd};
ghost use Rattle.ix_model.specs.Given.{Chooser};
ghost use Rattle.ix_model.specs.Judged.{is_begun, judged};
ghost use Rattle.ix_model.specs.Step.{state_after};
ghost use Rattle.ix_model.specs.declared.commands.Command.{Command};
ghost use Rattle.ix_model.specs.declared.commands.Command.TheVariants.{Begin};
ghost use Rattle.ix_model.specs.declared.commands.TimedCommand.{TimedCommand};
ghost use Rattle.ix_run.specs.Giving.{given_all};
ghost use Rattle.ix_serve.specs.Serving.{IsTold};
ghost use Rattle.ix_serve.specs.Taking.{TakesAsks};
ghost use Rattle.ix_store.specs.Making.{with_order};
ghost use Rattle.indexd_selftest.specs.Blocks.{AreCut, left};
ghost use Rattle.indexd_selftest.specs.Full.{HasNoRoom, OneBlockHasNoRoom};
ghost use Rattle.indexd_selftest.specs.Given.{AsksFor, RepresentsAll};
ghost use Rattle.indexd_selftest.specs.History.{channel, meta, sent, sent_all, sent_block};
ghost use Rattle.indexd_selftest.specs.Lines.{stream};

use crate::fault::{SelftestFault, is_replied, of_served};
use crate::generator::Generator;
use crate::requests::{begin_request, block_request, end_request};
use ix_base::{Bytes, FailPlan};
use ix_disk::Disk;
use ix_http::Routes;
use ix_net::MemLink;
use ix_serve::serve_one;
use ix_store::{Listing, Store};
use std::alloc::Global;

/// The moment of all requests: 2023-11-14T22:13:20Z, in microseconds since 1970.
pub(crate) const MOMENT: i64 = 1_700_000_000_000_000;

/// Sends a request, which is to be replied to with this status.
fn send<M: Listing + Drop, D: Disk>(
    alloc: Global,
    routes: &Routes,
    store: &mut Store<M>,
    disk: &mut D,
    request: Bytes,
    wanted: u16,
) -> Result<(), SelftestFault>
    requires over { LogsAtEnd D.Disk store.old.committer disk.old }
    requires told { IsTold D.Disk disk.old }
    requires takes { TakesAsks M.takes }
    // The command that it asks for stands behind the others,
    ensures given { OnOk result ((command : Command) → AsksFor request wanted command →
        (choose : Chooser) (history : List TimedCommand) (base : ℕ) → M.is_chooser choose →
        RepresentsAll D.Disk M.takes M.Book.fits M.holds choose history base store.old disk.old →
        RepresentsAll D.Disk M.takes M.Book.fits M.holds choose (with_order choose history (sent command)) base store.new disk.new) }
    // or else, where it has no other cause to be refused, there is no room for it.
    ensures full { result ≡ Err SelftestFault.Full → (command : Command) → AsksFor request wanted command →
        (choose : Chooser) (history : List TimedCommand) (base : ℕ) → M.is_chooser choose →
        RepresentsAll D.Disk M.takes M.Book.fits M.holds choose history base store.old disk.old →
        judged (state_after choose history) command ≡ None → HasNoRoom choose base history (sent command) }
    ensures over { OnOk result (LogsAtEnd D.Disk store.new.committer disk.new) }
    ensures run { store.new.run ≡ store.old.run }
    ensures told { IsTold D.Disk disk.new }
{
    let mut link = MemLink::new(alloc, request, FailPlan::none(alloc));
    let came = serve_one(alloc, routes, store, &mut link, MOMENT, disk);
    if is_replied(came, wanted) {
        Ok(())
    } else {
        Err(of_served(came))
    }
}

/// Sends a block.
fn send_block<M: Listing + Drop, D: Disk>(
    alloc: Global,
    routes: &Routes,
    store: &mut Store<M>,
    disk: &mut D,
    block: &[u8],
) -> Result<(), SelftestFault>
    requires over { LogsAtEnd D.Disk store.old.committer disk.old }
    requires told { IsTold D.Disk disk.old }
    requires takes { TakesAsks M.takes }
    requires short { length block.now ≤ 4096 }
    ensures given { OnOk result ((choose : Chooser) (history : List TimedCommand) (base : ℕ) → M.is_chooser choose →
        RepresentsAll D.Disk M.takes M.Book.fits M.holds choose history base store.old disk.old →
        RepresentsAll D.Disk M.takes M.Book.fits M.holds choose (with_order choose history (sent_block block.now)) base
        store.new disk.new) }
    ensures full { result ≡ Err SelftestFault.Full → (choose : Chooser) (history : List TimedCommand) (base : ℕ) → M.is_chooser choose →
        RepresentsAll D.Disk M.takes M.Book.fits M.holds choose history base store.old disk.old →
        is_begun (state_after choose history) channel ≡ true → HasNoRoom choose base history (sent_block block.now) }
    ensures over { OnOk result (LogsAtEnd D.Disk store.new.committer disk.new) }
    ensures run { store.new.run ≡ store.old.run }
    ensures told { IsTold D.Disk disk.new }
{
    let request = block_request(alloc, block)?;
    send(alloc, routes, store, disk, request, 200)
}

/// Sends the blocks that the generator cuts.
fn send_blocks<M: Listing + Drop, D: Disk>(
    alloc: Global,
    routes: &Routes,
    store: &mut Store<M>,
    disk: &mut D,
    generator: &mut Generator,
) -> Result<(), SelftestFault>
    requires over { LogsAtEnd D.Disk store.old.committer disk.old }
    requires told { IsTold D.Disk disk.old }
    requires takes { TakesAsks M.takes }
    ensures given { OnOk result ((blocks : List (List ℕ)) × (AreCut generator.old.x (left generator.old) blocks ×
        ((choose : Chooser) (history : List TimedCommand) (base : ℕ) → M.is_chooser choose →
        RepresentsAll D.Disk M.takes M.Book.fits M.holds choose history base store.old disk.old →
        RepresentsAll D.Disk M.takes M.Book.fits M.holds choose (given_all choose history (map sent_block blocks)) base
        store.new disk.new))) }
    ensures full { result ≡ Err SelftestFault.Full → (choose : Chooser) (history : List TimedCommand) (base : ℕ) → M.is_chooser choose →
        RepresentsAll D.Disk M.takes M.Book.fits M.holds choose history base store.old disk.old →
        is_begun (state_after choose history) channel ≡ true →
        OneBlockHasNoRoom choose base history (map sent_block) generator.old.x (left generator.old) }
    ensures over { OnOk result (LogsAtEnd D.Disk store.new.committer disk.new) }
    ensures run { store.new.run ≡ store.old.run }
    ensures told { IsTold D.Disk disk.new }
{
    while let Some(block) = generator.next_block(alloc)? {
        send_block(alloc, routes, store, disk, block.as_slice())?;
    }
    Ok(())
}

/// Begins the channel, sends so many lines as the seed cuts them, and ends it.
pub(crate) fn send_all<M: Listing + Drop, D: Disk>(
    alloc: Global,
    store: &mut Store<M>,
    disk: &mut D,
    seed: u64,
    count: u64,
) -> Result<(), SelftestFault>
    requires over { LogsAtEnd D.Disk store.old.committer disk.old }
    requires told { IsTold D.Disk disk.old }
    requires takes { TakesAsks M.takes }
    ensures given { OnOk result ((blocks : List (List ℕ)) × (AreCut seed (stream count) blocks ×
        ((choose : Chooser) (history : List TimedCommand) (base : ℕ) → M.is_chooser choose →
        RepresentsAll D.Disk M.takes M.Book.fits M.holds choose history base store.old disk.old →
        RepresentsAll D.Disk M.takes M.Book.fits M.holds choose (given_all choose history (sent_all blocks)) base
        store.new disk.new))) }
    ensures full { result ≡ Err SelftestFault.Full → (choose : Chooser) (history : List TimedCommand) (base : ℕ) → M.is_chooser choose →
        RepresentsAll D.Disk M.takes M.Book.fits M.holds choose history base store.old disk.old →
        judged (state_after choose history) (Begin channel meta) ≡ None →
        OneBlockHasNoRoom choose base history sent_all seed (stream count) }
    ensures over { OnOk result (LogsAtEnd D.Disk store.new.committer disk.new) }
    ensures run { store.new.run ≡ store.old.run }
    ensures told { IsTold D.Disk disk.new }
{
    let routes = Routes::new(alloc)?;
    let begin = begin_request(alloc)?;
    send(alloc, &routes, store, disk, begin, 201)?;
    let mut generator = Generator::new(alloc, seed, count);
    send_blocks(alloc, &routes, store, disk, &mut generator)?;
    let end = end_request(alloc)?;
    send(alloc, &routes, store, disk, end, 200)
}
