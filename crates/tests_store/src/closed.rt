//! A store of whose disk one call fails: a mount, a commit or a checkpoint that meets it answers `Disk`, and behind a commit or a checkpoint the
//! store takes no command more and exports nothing. The next mount has what was committed, or what was to be.

ghost use Rattle.std.specs.Prelude.{◌≤◌, length, IfSome};
ghost use Rattle.ix_commit.specs.Snapshot.{LogsAtEnd, NothingStaged};
ghost use Rattle.ix_state.specs.Taken.{IsTakenCommand};

use indexd_settings::read_config;
use ix_apply::StateMachine;
use ix_base::{Bytes, ChannelMeta, FailPlan, MemSink, Range};
use ix_commit::CommitFault;
use ix_disk::{Disk, MemDisk, OneFail};
use ix_fs::{MemTree, TreeFile, TreeFileList};
use ix_model::{Accepted, Command, Refusal};
use ix_report::listing;
use ix_run::{GiveFault, give, give_last};
use ix_store::{ExportFault, MountFault, Store};
use std::alloc::Global;
use std::process::Abort;

/// 2023-11-14T22:13:20Z, in microseconds since 1970.
const NOON: i64 = 1_700_000_000_000_000;

/// 101 seconds later.
const LATER: i64 = 1_700_000_101_000_000;

/// What is done with a store.
#[derive(Clone, Copy, Debug)]
enum Deed {
    /// What is older than 100 seconds is to be frozen, and kept in an archive.
    Set,
    /// An event is stored.
    Fill,
    Roll,
    /// The bucket freezes.
    Tick,
    Thaw,
    Checkpoint,
}

/// The script.
static DEEDS: [Deed; 6] = [
    Deed::Set,
    Deed::Fill,
    Deed::Roll,
    Deed::Tick,
    Deed::Thaw,
    Deed::Checkpoint,
];

/// What is listed before each part of the script, and behind the last one.
static LISTED: [&str; 7] = [
    "index main stored 0 bytes 0 frozen 0\nevents settled 0 nulled 0 dropped 0\n",
    "index main stored 0 bytes 0 frozen 0\nevents settled 0 nulled 0 dropped 0\n",
    "index main stored 1 bytes 62 frozen 0\nbucket main hot_v1_0 hot 1 62\nevents settled 1 nulled 0 dropped 0\n",
    "index main stored 1 bytes 62 frozen 0\nbucket main db_1700000000_1700000000_0 warm 1 62\n\
    events settled 1 nulled 0 dropped 0\n",
    "index main stored 0 bytes 0 frozen 1\nfrozen main db_1700000000_1700000000_0 age 1700000101 1 archived\n\
    events settled 1 nulled 0 dropped 0\n",
    "index main stored 0 bytes 0 frozen 1\nbucket main db_1700000000_1700000000_0 thawed 1 62\n\
    frozen main db_1700000000_1700000000_0 age 1700000101 1 archived\nevents settled 1 nulled 0 dropped 0\n",
    "index main stored 0 bytes 0 frozen 1\nbucket main db_1700000000_1700000000_0 thawed 1 62\n\
    frozen main db_1700000000_1700000000_0 age 1700000101 1 archived\nevents settled 1 nulled 0 dropped 0\n",
];

/// What came of a part of the script.
#[derive(Clone, Copy, Debug, PartialEq, Eq)]
enum Came {
    /// The mount answered `Disk`.
    Unmounted,
    /// A commit or a checkpoint answered `Disk`, and then all was refused as `Closed`.
    Closed,
    /// All is committed.
    Done,
    /// None of these.
    Wrong,
}

/// How a deed ended.
#[derive(Clone, Copy)]
enum End {
    Done,
    /// The disk has failed.
    Failed,
    Refused,
}

/// A short text.
fn bytes_of(alloc: Global, bytes: &[u8]) -> Bytes
    requires { length bytes.now ≤ 256 }
    ensures { length result ≤ 256 }
{
    match Bytes::copy_of(alloc, bytes) {
        Ok(copy) => copy,
        Err(_) => Bytes::new(alloc),
    }
}

fn begin(alloc: Global) -> Command
    ensures { IsTakenCommand result }
{
    Command::Begin {
        channel: bytes_of(alloc, b"c"),
        meta: ChannelMeta {
            host: bytes_of(alloc, b"h"),
            source: bytes_of(alloc, b"s"),
            sourcetype: None,
            index: None,
        },
    }
}

fn block(alloc: Global) -> Command
    ensures { IsTakenCommand result }
{
    Command::Block {
        channel: bytes_of(alloc, b"c"),
        bytes: bytes_of(alloc, b"x\ny\nz"),
        spot: None,
    }
}

fn ending(alloc: Global) -> Command
    ensures { IsTakenCommand result }
{
    Command::End {
        channel: bytes_of(alloc, b"c"),
    }
}

/// The files of settings of a deed.
fn files_of(alloc: Global) -> TreeFileList {
    let mut files = TreeFileList::new(alloc);
    let _ = files.push(TreeFile {
        path: bytes_of(alloc, b"etc/system/local/indexes.conf"),
        bytes: bytes_of(
            alloc,
            b"[main]\nfrozenTimePeriodInSecs = 100\ncoldToFrozenDir = kept\n",
        ),
    });
    files
}

fn change(alloc: Global) -> Option<Command>
    ensures { IfSome result IsTakenCommand }
{
    let mut tree = MemTree::new(files_of(alloc), FailPlan::none(alloc));
    match read_config(alloc, &mut tree) {
        Ok(config) => Some(Command::Configure { config }),
        Err(_) => None,
    }
}

fn roll(alloc: Global) -> Command
    ensures { IsTakenCommand result }
{
    Command::Roll {
        index: bytes_of(alloc, b"main"),
    }
}

fn thaw(alloc: Global) -> Command
    ensures { IsTakenCommand result }
{
    Command::Thaw {
        index: bytes_of(alloc, b"main"),
        id: 0,
    }
}

/// Gives a stream of three lines, of which the last command commits all.
fn give_all<D: Disk>(
    alloc: Global,
    store: &mut Store<StateMachine>,
    disk: &mut D,
) -> Result<Accepted, GiveFault>
    requires { LogsAtEnd D.Disk store.old.committer disk.old }
{
    give(store, disk, begin(alloc), NOON)?;
    give(store, disk, block(alloc), NOON)?;
    give_last(store, disk, ending(alloc), NOON)
}

fn end_of(given: Result<Accepted, GiveFault>) -> End {
    match given {
        Ok(_) => End::Done,
        Err(GiveFault::Commit(CommitFault::Disk)) => End::Failed,
        Err(_) => End::Refused,
    }
}

/// Gives a command, and commits it.
fn give_one<D: Disk>(
    store: &mut Store<StateMachine>,
    disk: &mut D,
    command: Command,
    moment: i64,
) -> End
    requires over { LogsAtEnd D.Disk store.old.committer disk.old }
    requires taken { IsTakenCommand command }
{
    end_of(give_last(store, disk, command, moment))
}

fn give_change<D: Disk>(alloc: Global, store: &mut Store<StateMachine>, disk: &mut D) -> End
    requires { LogsAtEnd D.Disk store.old.committer disk.old }
{
    match change(alloc) {
        Some(command) => give_one(store, disk, command, NOON),
        None => End::Refused,
    }
}

/// Makes the log short. Where memory is lacking the store is not closed, which is found then.
fn shorten<D: Disk>(store: &mut Store<StateMachine>, disk: &mut D) -> End
    requires over { LogsAtEnd D.Disk store.old.committer disk.old }
    requires idle { NothingStaged store.old.committer }
{
    match store.checkpoint(disk) {
        Ok(()) => End::Done,
        Err(_) => End::Failed,
    }
}

fn act<D: Disk>(alloc: Global, store: &mut Store<StateMachine>, disk: &mut D, deed: Deed) -> End
    requires over { LogsAtEnd D.Disk store.old.committer disk.old }
    requires idle { NothingStaged store.old.committer }
{
    match deed {
        Deed::Set => give_change(alloc, store, disk),
        Deed::Fill => end_of(give_all(alloc, store, disk)),
        Deed::Roll => give_one(store, disk, roll(alloc), NOON),
        Deed::Tick => give_one(store, disk, Command::Tick, LATER),
        Deed::Thaw => give_one(store, disk, thaw(alloc), LATER),
        Deed::Checkpoint => shorten(store, disk),
    }
}

/// Whether a command is refused as `Closed`.
fn is_closed_to(store: &mut Store<StateMachine>, command: Command) -> bool
    requires { IsTakenCommand command }
{
    match store.accept(command, NOON) {
        Ok(_) => false,
        Err(refusal) => refusal == Refusal::Closed,
    }
}

/// Whether an export is refused as `Closed`, and writes nothing.
fn exports_nothing<D: Disk>(alloc: Global, store: &mut Store<StateMachine>, disk: &mut D) -> bool {
    let mut out = MemSink::new(alloc, FailPlan::none(alloc));
    let range = Range {
        earliest: None,
        latest: None,
    };
    match store.export(disk, b"main", &range, &mut out) {
        Ok(_) => false,
        Err(fault) => fault == ExportFault::Closed && out.bytes().is_empty(),
    }
}

/// Whether all is refused, whether it has another cause to be refused or not.
fn is_closed<D: Disk>(alloc: Global, store: &mut Store<StateMachine>, disk: &mut D) -> bool {
    is_closed_to(store, Command::Tick)
        && is_closed_to(store, begin(alloc))
        && is_closed_to(store, block(alloc))
        && is_closed_to(store, ending(alloc))
        && is_closed_to(store, roll(alloc))
        && is_closed_to(store, thaw(alloc))
        && exports_nothing(alloc, store, disk)
}

/// What comes of a deed over a mounted store.
fn came_over<D: Disk>(
    alloc: Global,
    store: &mut Store<StateMachine>,
    disk: &mut D,
    deed: Deed,
) -> Came
    requires over { LogsAtEnd D.Disk store.old.committer disk.old }
    requires idle { NothingStaged store.old.committer }
{
    match act(alloc, store, disk, deed) {
        End::Done => Came::Done,
        End::Failed if is_closed(alloc, store, disk) => Came::Closed,
        End::Failed | End::Refused => Came::Wrong,
    }
}

/// What comes of a deed on a disk.
fn came_of<D: Disk>(alloc: Global, disk: &mut D, deed: Deed) -> Came {
    match Store::<StateMachine>::mount(alloc, disk) {
        Ok(mut store) => came_over(alloc, &mut store, disk, deed),
        Err(MountFault::Disk) => Came::Unmounted,
        Err(_) => Came::Wrong,
    }
}

/// What the store of a disk lists that is mounted there.
fn listed(alloc: Global, disk: &mut MemDisk) -> Bytes {
    match Store::<StateMachine>::mount(alloc, disk) {
        Ok(store) => listing(alloc, store.view()).unwrap_or(Bytes::new(alloc)),
        Err(_) => Bytes::new(alloc),
    }
}

/// What is listed before the part of the script with this number.
fn listed_before(number: usize) -> &'static [u8] {
    match LISTED.get(number) {
        Some(text) => text.as_bytes(),
        None => b"",
    }
}

/// Whether a listing is one that may come where this came of the part with this number.
fn is_wanted(came: Came, text: &[u8], number: usize) -> bool {
    let is_before = text == listed_before(number);
    let is_behind = text == listed_before(number.saturating_add(1));
    match came {
        Came::Unmounted => is_before,
        Came::Closed => is_before || is_behind,
        Came::Done => is_behind,
        Came::Wrong => false,
    }
}

fn disk_of(alloc: Global) -> MemDisk {
    MemDisk::new(alloc, FailPlan::none(alloc))
}

/// A disk like this one, of which this call fails.
fn failing_of(alloc: Global, disk: &MemDisk, call: u64) -> OneFail<MemDisk> {
    OneFail::new(disk.crash(false).unwrap_or(disk_of(alloc)), call)
}

/// What comes of a part of the script on a disk like this one, of which this call fails.
fn check(
    rt: &impl Abort,
    alloc: Global,
    before: &MemDisk,
    (number, deed): (usize, Deed),
    call: u64,
) -> Came {
    let mut failing = failing_of(alloc, before, call);
    let came = came_of(alloc, &mut failing, deed);
    let mut disk = failing.into_inner();
    let text = listed(alloc, &mut disk);
    let wanted = is_wanted(came, text.as_slice(), number);
    assert!(rt; wanted, "{deed:?} {call}: {came:?}");
    came
}

/// How many calls there are that fail a mount, and a deed.
fn counts_of(rt: &impl Abort, alloc: Global, before: &MemDisk, part: (usize, Deed)) -> (u64, u64) {
    let mut mounts = 0u64;
    let mut deeds = 0u64;
    for call in 0..1000 {
        match check(rt, alloc, before, part, call) {
            Came::Unmounted => mounts = mounts.saturating_add(1),
            Came::Closed => deeds = deeds.saturating_add(1),
            Came::Done | Came::Wrong => return (mounts, deeds),
        }
    }
    (mounts, deeds)
}

/// Fails each call of a part of the script, and then takes it.
fn check_part(rt: &impl Abort, alloc: Global, disk: &mut MemDisk, part: (usize, Deed)) {
    let (mounts, deeds) = counts_of(rt, alloc, disk, part);
    let deed = part.1;
    assert!(rt; mounts > 0 && deeds > 0, "{deed:?}: {mounts} {deeds}");
    let came = came_of(alloc, disk, deed);
    assert!(rt; came == Came::Done, "{deed:?}: {came:?}");
}

#[test]
fn a_store_is_closed_behind_a_call_that_fails(rt: HostRuntime) {
    let mut disk = disk_of(rt.alloc());
    for (number, deed) in DEEDS.iter().enumerate() {
        check_part(&rt, rt.alloc(), &mut disk, (number, *deed));
    }
}
