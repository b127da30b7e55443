//! The commands over a store: their settings are read, they are run, and the line of their status
//! is written. `top` calls `run_stored` and `store_preview`.

ghost use Rattle.std.specs.Prelude.{◌≡◌, ◌≤◌, ◌⊎◌, ℕ, List, Option, None, Some, true, false, length, Err, IfOk, IfErr, OnOk, IfSome};
ghost use Rattle.std.specs.Prelude.{IsErrOf};
ghost use Rattle.ix_base.specs.Faults.{Rose};
ghost use Rattle.ix_state.specs.Configs.{IsConfig};
ghost use Rattle.ix_state.specs.Taken.{IsTaken};
ghost use Rattle.ix_replay.specs.Fits.{fits};
ghost use Rattle.ix_serve.specs.Serving.{IsTold};
ghost use Rattle.ix_recovery.specs.Recalled.{GivesNone};
ghost use Rattle.indexd_run.specs.Blamed.{Blames};
ghost use Rattle.indexd_run.specs.Opened.{HasRun, HasStopped, WhenOpen, course};
ghost use Rattle.indexd_run.specs.Previews.{HasFed, HasTaken};
ghost use Rattle.indexd_run.specs.Shortened.{EndsShort, StopsShort};
ghost use Rattle.indexd_run.specs.Stops.{is_output, is_input};
ghost use Rattle.indexd_core.specs.Blamed.{NamesDamage, IsFilled};
ghost use Rattle.indexd_core.specs.Locked.{HasRefused, EndsUsed};
ghost use Rattle.indexd_core.specs.Origins.{stated_of};
ghost use Rattle.indexd_core.specs.Prepared.{index_or_default};
ghost use Rattle.indexd_core.specs.Shortened.{LeavesShort};
ghost use Rattle.indexd_core.specs.Sides.{side, Side};
ghost use Rattle.indexd_core.specs.Stored as defs;
ghost use Rattle.indexd_core.specs.Stored.{AreShort, FromStart, InputComes, Silent, Stored, TaskComes, Tasked};
ghost use Rattle.indexd_core.specs.Around.{around};
ghost use Rattle.ix_sessions.specs.Connections.{Listened};

use crate::ends::{Named, say_stop};
use crate::lock::{lock_out, say_locked_out};
use crate::prepare::{index_of, say_unread, stated_meta};
use crate::status::{Status, say};
use indexd_cli::Origin;
use indexd_run::{Stop, Task, open, run_preview, run_task, stop_run};
use indexd_settings::read_config;
use ix_apply::StateMachine;
use ix_base::{Bytes, ChannelMeta, Clock, NoMemory, Sink, Source};
use ix_disk::Disk;
use ix_fs::Tree;
use ix_life::LimitSet;
use ix_model::Config;
use std::alloc::Global;

/// What a task names.
fn named_in<'a>(task: Task<'a>) -> Named<'a>
    ensures { defs.named_of result ≡ defs.named_in task.entry }
{
    match task {
        Task::Buckets | Task::Tick => Named::of_index(b""),
        Task::Export { index, .. } | Task::Roll { index } => Named::of_index(index.as_bytes()),
        Task::Thaw { index, id } => Named::of_bucket(index.as_bytes(), id),
    }
}

/// Runs a task with these settings, and writes the line of its status.
fn run_with<W: Sink, C: Clock, D: Disk>(
    alloc: Global,
    config: Config,
    task: Task<'_>,
    output: &mut W,
    clock: &mut C,
    disk: &mut D,
) -> Status
    requires { IsConfig config }
    ensures comes { TaskComes result D.Disk (course config (C.ahead clock.old) (C.ahead clock.new) disk.old disk.new) task.entry
        (side (W.faults output.old) (W.given output.old)) (side (W.faults output.new) (W.given output.new)) }
    ensures short { LeavesShort result D.Disk disk.old disk.new }
    ensures output { result ≡ Status.Output → Rose (W.faults output.old) (W.faults output.new) }
    ensures input { result ≡ Status.Input → ⊥ }
    ensures written_later { W.faults output.old ≤ W.faults output.new }
    ensures told { IsTold D.Disk disk.old → IsTold D.Disk disk.new }
    ensures disk_later { D.Disk.faults disk.old ≤ D.Disk.faults disk.new }
    ensures disk { result ≡ Status.DiskFault → Rose (D.Disk.faults disk.old) (D.Disk.faults disk.new) }
    ensures undamaged { result ≡ Status.Damaged → FromStart D.Disk disk.old (λ past. ⊥) }
    ensures blamed { result ≡ Status.Damaged → NamesDamage D.Disk disk.old disk.new
        (side (W.faults output.old) (W.given output.old)) (side (W.faults output.new) (W.given output.new)) }
    ensures full { result ≡ Status.Full → IsFilled D.Disk disk.old }
    ensures usage { result ≡ Status.Usage → ⊥ }
    ensures listener { result ≡ Status.ListenerFault → ⊥ }
    ensures in_use { result ≡ Status.InUse → ⊥ }
{
    match run_task::<StateMachine, D, C, W>(alloc, disk, clock, config, task, output) {
        Ok(()) => Status::Done,
        Err(stop) => say_stop(stop, named_in(task), output),
    }
}

/// Runs a task over the store of a disk with the settings of the files, and writes the line of its
/// status.
pub fn run_stored<W: Sink, C: Clock, T: Tree, D: Disk>(
    alloc: Global,
    task: Task<'_>,
    output: &mut W,
    clock: &mut C,
    tree: &mut T,
    disk: &mut D,
) -> Status
    ensures tasked { (input : Side) (heard : Listened) (deaf out : ℕ) → Tasked result task.entry D.Disk
        (around (T.files tree.old) (T.faults tree.old) (T.missing tree.old) (C.ahead clock.old)
        input (side (W.faults output.old) (W.given output.old)) heard deaf out disk.old)
        (around (T.files tree.new) (T.faults tree.new) (T.missing tree.new) (C.ahead clock.new)
        input (side (W.faults output.new) (W.given output.new)) heard deaf out disk.new) }
    ensures short { LeavesShort result D.Disk disk.old disk.new }
    ensures output { result ≡ Status.Output → Rose (W.faults output.old) (W.faults output.new) }
    ensures input { result ≡ Status.Input → Rose (T.faults tree.old) (T.faults tree.new) }
    ensures written_later { W.faults output.old ≤ W.faults output.new }
    ensures told { IsTold D.Disk disk.old → IsTold D.Disk disk.new }
    ensures disk_later { D.Disk.faults disk.old ≤ D.Disk.faults disk.new }
    ensures disk { result ≡ Status.DiskFault → Rose (D.Disk.faults disk.old) (D.Disk.faults disk.new) }
    // A disk that keeps what was committed, and tells what it reads, is never damaged.
    ensures undamaged { result ≡ Status.Damaged → FromStart D.Disk disk.old (λ past. ⊥) }
    ensures blamed { result ≡ Status.Damaged → NamesDamage D.Disk disk.old disk.new
        (side (W.faults output.old) (W.given output.old)) (side (W.faults output.new) (W.given output.new)) }
    ensures full { result ≡ Status.Full → IsFilled D.Disk disk.old }
    ensures usage { result ≡ Status.Usage → ⊥ }
    ensures listener { result ≡ Status.ListenerFault → ⊥ }
    ensures in_use { result ≡ Status.InUse → HasRefused D.Disk disk.old disk.new }
    ensures used { D.Disk.in_use disk.old ≡ Some true → EndsUsed result D.Disk disk.old disk.new }
    ensures same { T.files tree.new ≡ T.files tree.old }
    ensures tree_later { T.faults tree.old ≤ T.faults tree.new }
    ensures missing_later { T.missing tree.old ≤ T.missing tree.new }
{
    match read_config(alloc, tree) {
        Ok(config) => match lock_out(disk) {
            None => run_with(alloc, config, task, output, clock, disk),
            Some(status) => say_locked_out(config, status, output),
        },
        Err(stop) => say_unread(alloc, stop, output),
    }
}

/// No name of an index is longer.
const LONGEST: usize = 1024;

/// Whether an index is stated whose name is too long for one.
fn is_long(origin: &ChannelMeta) -> bool
    ensures { result ≡ defs.is_long origin.now.index }
{
    match &origin.index {
        Some(index) => index.len() > LONGEST,
        None => false,
    }
}

/// Opens the store of a disk with these settings, and misses the stated index, whose name is too
/// long for one. The clock is asked as it is for any input, and the log is made short where it is
/// long.
fn miss<C: Clock, D: Disk>(
    alloc: Global,
    config: Config,
    origin: &ChannelMeta,
    clock: &mut C,
    disk: &mut D,
) -> Stop
    requires settings { IsConfig config }
    requires long { defs.is_long origin.now.index ≡ true }
    ensures stopped { (left : Option (List ℕ)) → FromStart D.Disk disk.old
        (λ past. HasStopped result D.Disk IsTaken fits past (course config (C.ahead clock.old) (C.ahead clock.new) disk.old disk.new)
        (left ≡ left) (HasFed past.choose origin.now (Err result) (C.ahead clock.new) left left)) }
    ensures short { StopsShort D.Disk fits result disk.old disk.new }
    ensures told { IsTold D.Disk disk.old → IsTold D.Disk disk.new }
    ensures later { D.Disk.faults disk.old ≤ D.Disk.faults disk.new }
    ensures cause { result ≡ Stop.Disk → Rose (D.Disk.faults disk.old) (D.Disk.faults disk.new) }
    ensures undamaged { defs.status_of result ≡ Status.Damaged → FromStart D.Disk disk.old (λ past. ⊥) }
    ensures blamed { Blames result D.Disk fits GivesNone disk.old disk.new }
    ensures quiet { is_output result ≡ false }
    ensures unread { is_input result ≡ false }
{
    let mut store = match open::<StateMachine, D, C>(alloc, disk, clock, config) {
        Ok(store) => store,
        Err(stop) => return stop,
    };
    let _moment = clock.now();
    stop_run(&mut store, disk, Stop::NotFound)
}

/// Stores an input in the store of a disk. An index whose name is too long is configured nowhere:
/// it is missed, as others that are not configured, once the store is open.
fn store_input<C: Clock, S: Source, D: Disk>(
    alloc: Global,
    config: Config,
    origin: ChannelMeta,
    input: &mut S,
    clock: &mut C,
    disk: &mut D,
) -> Result<(), Stop>
    requires settings { IsConfig config }
    requires host { length origin.host ≤ 1024 }
    requires source { length origin.source ≤ 1024 }
    requires sourcetype { IfSome origin.sourcetype (λ (name : List ℕ). length name ≤ 1024) }
    ensures done { OnOk result (FromStart D.Disk disk.old (λ past. HasRun false D.Disk IsTaken fits past
        (WhenOpen past.choose config (C.ahead clock.old) (HasFed past.choose origin result (C.ahead clock.new) (S.left input.old)
        (S.left input.new))) disk.old disk.new)) }
    ensures stopped { IfErr result (λ stop. FromStart D.Disk disk.old
        (λ past. HasStopped stop D.Disk IsTaken fits past (course config (C.ahead clock.old) (C.ahead clock.new) disk.old disk.new)
        (S.left input.new ≡ S.left input.old) (HasFed past.choose origin result (C.ahead clock.new) (S.left input.old) (S.left input.new)))) }
    ensures short { EndsShort D.Disk fits result disk.old disk.new }
    ensures told { IsTold D.Disk disk.old → IsTold D.Disk disk.new }
    ensures later { D.Disk.faults disk.old ≤ D.Disk.faults disk.new }
    ensures cause { IsErrOf result Stop.Disk → Rose (D.Disk.faults disk.old) (D.Disk.faults disk.new) }
    ensures read_later { S.faults input.old ≤ S.faults input.new }
    ensures input { IsErrOf result Stop.Input → Rose (S.faults input.old) (S.faults input.new) }
    ensures undamaged { IfErr result (λ stop. defs.status_of stop ≡ Status.Damaged → FromStart D.Disk disk.old (λ past. ⊥)) }
    ensures blamed { IfErr result (λ stop. Blames stop D.Disk fits GivesNone disk.old disk.new) }
    ensures quiet { IfErr result (λ stop. is_output stop ≡ false) }
    ensures read { HasTaken result (S.left input.old) (S.left input.new) }
{
    if is_long(&origin) {
        return Err(miss(alloc, config, &origin, clock, disk));
    }
    run_preview::<StateMachine, D, C, S>(alloc, disk, clock, config, input, origin)
}

/// What is known of the bytes of an input, and the index that is stated, or the default one.
fn stated(
    alloc: Global,
    origin: Origin<'_>,
    limits: &LimitSet,
) -> Result<(ChannelMeta, Bytes), NoMemory>
    ensures meta { IfOk result (λ found. found.0 ≡ defs.stated_meta (stated_of origin.entry)) }
    ensures index { IfOk result (λ found. found.1 ≡ index_or_default (stated_of origin.entry).index limits.now) }
{
    let meta = stated_meta(alloc, origin)?;
    let index = index_of(alloc, origin, limits)?;
    Ok((meta, index))
}

/// Stores an input with these settings, and writes the line of the status.
fn store_with<S: Source, W: Sink, C: Clock, D: Disk>(
    alloc: Global,
    config: Config,
    origin: Origin<'_>,
    input: &mut S,
    output: &mut W,
    clock: &mut C,
    disk: &mut D,
) -> Status
    requires settings { IsConfig config }
    requires short { AreShort (stated_of origin) }
    ensures comes { InputComes result D.Disk (course config (C.ahead clock.old) (C.ahead clock.new) disk.old disk.new)
        (stated_of origin.entry) (side (S.faults input.old) (S.left input.old)) (side (S.faults input.new) (S.left input.new))
        (side (W.faults output.old) (W.given output.old)) (side (W.faults output.new) (W.given output.new)) }
    ensures silent { result ≡ Status.Done → Silent
        (side (S.faults input.old) (S.left input.old)) (side (S.faults input.new) (S.left input.new))
        (side (W.faults output.old) (W.given output.old)) (side (W.faults output.new) (W.given output.new)) }
    ensures short { LeavesShort result D.Disk disk.old disk.new }
    ensures output { result ≡ Status.Output → ⊥ }
    ensures input { result ≡ Status.Input → Rose (S.faults input.old) (S.faults input.new) }
    ensures read_later { S.faults input.old ≤ S.faults input.new }
    ensures written_later { W.faults output.old ≤ W.faults output.new }
    ensures told { IsTold D.Disk disk.old → IsTold D.Disk disk.new }
    ensures disk_later { D.Disk.faults disk.old ≤ D.Disk.faults disk.new }
    ensures disk { result ≡ Status.DiskFault → Rose (D.Disk.faults disk.old) (D.Disk.faults disk.new) }
    ensures undamaged { result ≡ Status.Damaged → FromStart D.Disk disk.old (λ past. ⊥) }
    ensures blamed { result ≡ Status.Damaged → NamesDamage D.Disk disk.old disk.new
        (side (W.faults output.old) (W.given output.old)) (side (W.faults output.new) (W.given output.new)) }
    ensures full { result ≡ Status.Full → IsFilled D.Disk disk.old }
    ensures usage { result ≡ Status.Usage → ⊥ }
    ensures listener { result ≡ Status.ListenerFault → ⊥ }
    ensures in_use { result ≡ Status.InUse → ⊥ }
{
    let Ok((meta, index)) = stated(alloc, origin, &config.limits) else {
        drop(config);
        say(Status::Memory, output);
        return Status::Memory;
    };
    let stop = match store_input(alloc, config, meta, input, clock, disk) {
        Ok(()) => return Status::Done,
        Err(stop) => stop,
    };
    say_stop(stop, Named::of_index(index.as_slice()), output)
}

/// Stores the input in the store of a disk with the settings of the files, and writes the line of
/// the status.
pub fn store_preview<S: Source, W: Sink, C: Clock, T: Tree, D: Disk>(
    alloc: Global,
    origin: Origin<'_>,
    input: &mut S,
    output: &mut W,
    clock: &mut C,
    tree: &mut T,
    disk: &mut D,
) -> Status
    requires { AreShort (stated_of origin) }
    ensures stored { (heard : Listened) (deaf out : ℕ) → Stored result (stated_of origin.entry) D.Disk
        (around (T.files tree.old) (T.faults tree.old) (T.missing tree.old) (C.ahead clock.old)
        (side (S.faults input.old) (S.left input.old)) (side (W.faults output.old) (W.given output.old)) heard deaf out disk.old)
        (around (T.files tree.new) (T.faults tree.new) (T.missing tree.new) (C.ahead clock.new)
        (side (S.faults input.new) (S.left input.new)) (side (W.faults output.new) (W.given output.new)) heard deaf out disk.new) }
    ensures short { LeavesShort result D.Disk disk.old disk.new }
    ensures output { result ≡ Status.Output → ⊥ }
    ensures input { result ≡ Status.Input → Rose (S.faults input.old) (S.faults input.new) ⊎ Rose (T.faults tree.old) (T.faults tree.new) }
    ensures read_later { S.faults input.old ≤ S.faults input.new }
    ensures written_later { W.faults output.old ≤ W.faults output.new }
    ensures told { IsTold D.Disk disk.old → IsTold D.Disk disk.new }
    ensures disk_later { D.Disk.faults disk.old ≤ D.Disk.faults disk.new }
    ensures disk { result ≡ Status.DiskFault → Rose (D.Disk.faults disk.old) (D.Disk.faults disk.new) }
    // A disk that keeps what was committed, and tells what it reads, is never damaged.
    ensures undamaged { result ≡ Status.Damaged → FromStart D.Disk disk.old (λ past. ⊥) }
    ensures blamed { result ≡ Status.Damaged → NamesDamage D.Disk disk.old disk.new
        (side (W.faults output.old) (W.given output.old)) (side (W.faults output.new) (W.given output.new)) }
    ensures full { result ≡ Status.Full → IsFilled D.Disk disk.old }
    ensures usage { result ≡ Status.Usage → ⊥ }
    ensures listener { result ≡ Status.ListenerFault → ⊥ }
    ensures in_use { result ≡ Status.InUse → HasRefused D.Disk disk.old disk.new }
    ensures used { D.Disk.in_use disk.old ≡ Some true → EndsUsed result D.Disk disk.old disk.new }
    ensures same { T.files tree.new ≡ T.files tree.old }
    ensures tree_later { T.faults tree.old ≤ T.faults tree.new }
    ensures missing_later { T.missing tree.old ≤ T.missing tree.new }
{
    match read_config(alloc, tree) {
        Ok(config) => match lock_out(disk) {
            None => store_with(alloc, config, origin, input, output, clock, disk),
            Some(status) => say_locked_out(config, status, output),
        },
        Err(stop) => say_unread(alloc, stop, output),
    }
}
