//! The command `feed`: requests are served from the input to the output, and the line of the status
//! is written behind the replies. `top` calls `feed`.

ghost use Rattle.std.specs.Prelude.{◌≡◌, ◌≤◌, ◌⊎◌, ℕ, true, Some};
ghost use Rattle.ix_base.specs.Faults.{Rose};
ghost use Rattle.ix_state.specs.Configs.{IsConfig};
ghost use Rattle.ix_serve.specs.Serving.{IsTold};
ghost use Rattle.indexd_core.specs.Blamed.{NamesDamage, IsFilled};
ghost use Rattle.indexd_core.specs.Feeds as defs;
ghost use Rattle.indexd_core.specs.Feeds.{FeedComes, Feeds};
ghost use Rattle.indexd_core.specs.Locked.{HasRefused, EndsUsed};
ghost use Rattle.indexd_core.specs.Shortened.{LeavesShort};
ghost use Rattle.indexd_core.specs.Sides.{side};
ghost use Rattle.indexd_core.specs.Stored.{FromStart};
ghost use Rattle.indexd_core.specs.Texts.{Said};
ghost use Rattle.indexd_core.specs.Around.{around};
ghost use Rattle.indexd_run.specs.Opened.{course};
ghost use Rattle.ix_sessions.specs.Connections.{Listened};

use crate::ends::{Named, say_damaged, say_stop};
use crate::lock::{lock_out, say_locked_out};
use crate::prepare::say_unread;
use crate::status::{Status, say};
use arrayvec::ArrayString;
use indexd_serve::{End, run_streams};
use indexd_settings::read_config;
use itoa::Buffer;
use ix_apply::StateMachine;
use ix_base::{Clock, Sink, Source};
use ix_disk::Disk;
use ix_fs::Tree;
use ix_model::Config;
use std::alloc::Global;

/// The status of a run of requests.
fn end_status(end: End) -> Status
    ensures { result ≡ defs.end_status end }
{
    match end {
        End::Ended => Status::Done,
        End::Unreadable { .. } => Status::Unreadable,
        End::Memory => Status::Memory,
        End::Endless => Status::Endless,
        End::Disk => Status::DiskFault,
        End::Damaged { .. } => Status::Damaged,
        End::Input => Status::Input,
        End::Output => Status::Output,
    }
}

/// The line of a request that cannot be read.
fn unreadable_line(request: u64) -> ArrayString<64>
    ensures { result.bytes ≡ defs.unreadable_line request }
{
    let mut line = ArrayString::<64>::new();
    line.push_str("indexd: request ");
    line.push_str(Buffer::new().format(request));
    line.push_str(" cannot be read\n");
    line
}

/// Writes the line of a request that cannot be read.
fn say_unreadable<W: Sink>(request: u64, output: &mut W)
    ensures said { Said (defs.unreadable_line request) (side (W.faults output.old) (W.given output.old))
        (side (W.faults output.new) (W.given output.new)) }
    ensures later { W.faults output.old ≤ W.faults output.new }
{
    let line = unreadable_line(request);
    let _ = output.put(line.as_str().as_bytes());
}

/// Writes the line of a run of requests, and answers its status. Where the line cannot be written
/// the status stays.
fn say_end<W: Sink>(end: End, output: &mut W) -> Status
    ensures status { result ≡ defs.end_status end }
    ensures said { Said (defs.end_line end) (side (W.faults output.old) (W.given output.old))
        (side (W.faults output.new) (W.given output.new)) }
    ensures later { W.faults output.old ≤ W.faults output.new }
{
    let status = end_status(end);
    match end {
        End::Unreadable { request } => say_unreadable(request, output),
        End::Damaged { file, at } => say_damaged(file, at, output),
        _ => say(status, output),
    }
    status
}

/// Serves the requests of the input with these settings, and writes the line of the status.
fn feed_with<S: Source, W: Sink, C: Clock, D: Disk>(
    alloc: Global,
    config: Config,
    input: &mut S,
    output: &mut W,
    clock: &mut C,
    disk: &mut D,
) -> Status
    requires { IsConfig config }
    ensures comes { FeedComes result D.Disk (course config (C.ahead clock.old) (C.ahead clock.new) disk.old disk.new)
        (side (S.faults input.old) (S.left input.old)) (side (S.faults input.new) (S.left input.new))
        (side (W.faults output.old) (W.given output.old)) (side (W.faults output.new) (W.given output.new)) }
    ensures short { LeavesShort result D.Disk disk.old disk.new }
    ensures output { result ≡ Status.Output → Rose (W.faults output.old) (W.faults output.new) }
    ensures input { result ≡ Status.Input → Rose (S.faults input.old) (S.faults input.new) }
    ensures read_later { S.faults input.old ≤ S.faults input.new }
    ensures written_later { W.faults output.old ≤ W.faults output.new }
    ensures told { IsTold D.Disk disk.old → IsTold D.Disk disk.new }
    ensures disk_later { D.Disk.faults disk.old ≤ D.Disk.faults disk.new }
    ensures disk { result ≡ Status.DiskFault → Rose (D.Disk.faults disk.old) (D.Disk.faults disk.new) }
    ensures undamaged { result ≡ Status.Damaged → FromStart D.Disk disk.old (λ past. ⊥) }
    ensures blamed { result ≡ Status.Damaged → NamesDamage D.Disk disk.old disk.new
        (side (W.faults output.old) (W.given output.old)) (side (W.faults output.new) (W.given output.new)) }
    ensures full { result ≡ Status.Full → IsFilled D.Disk disk.old }
    ensures usage { result ≡ Status.Usage → ⊥ }
    ensures listener { result ≡ Status.ListenerFault → ⊥ }
    ensures in_use { result ≡ Status.InUse → ⊥ }
{
    match run_streams::<StateMachine, D, C, S, W>(alloc, disk, clock, config, input, output) {
        Ok(end) => say_end(end, output),
        Err(stop) => say_stop(stop, Named::of_index(b""), output),
    }
}

/// Serves the requests of the input over the store of a disk with the settings of the files, and
/// writes the line of the status behind the replies.
pub fn feed<S: Source, W: Sink, C: Clock, T: Tree, D: Disk>(
    alloc: Global,
    input: &mut S,
    output: &mut W,
    clock: &mut C,
    tree: &mut T,
    disk: &mut D,
) -> Status
    ensures feeds { (heard : Listened) (deaf out : ℕ) → Feeds result D.Disk
        (around (T.files tree.old) (T.faults tree.old) (T.missing tree.old) (C.ahead clock.old)
        (side (S.faults input.old) (S.left input.old)) (side (W.faults output.old) (W.given output.old)) heard deaf out disk.old)
        (around (T.files tree.new) (T.faults tree.new) (T.missing tree.new) (C.ahead clock.new)
        (side (S.faults input.new) (S.left input.new)) (side (W.faults output.new) (W.given output.new)) heard deaf out disk.new) }
    ensures short { LeavesShort result D.Disk disk.old disk.new }
    ensures output { result ≡ Status.Output → Rose (W.faults output.old) (W.faults output.new) }
    ensures input { result ≡ Status.Input → Rose (S.faults input.old) (S.faults input.new) ⊎ Rose (T.faults tree.old) (T.faults tree.new) }
    ensures read_later { S.faults input.old ≤ S.faults input.new }
    ensures written_later { W.faults output.old ≤ W.faults output.new }
    ensures told { IsTold D.Disk disk.old → IsTold D.Disk disk.new }
    ensures disk_later { D.Disk.faults disk.old ≤ D.Disk.faults disk.new }
    ensures disk { result ≡ Status.DiskFault → Rose (D.Disk.faults disk.old) (D.Disk.faults disk.new) }
    // A disk that keeps what was committed, and tells what it reads, is never damaged.
    ensures undamaged { result ≡ Status.Damaged → FromStart D.Disk disk.old (λ past. ⊥) }
    ensures blamed { result ≡ Status.Damaged → NamesDamage D.Disk disk.old disk.new
        (side (W.faults output.old) (W.given output.old)) (side (W.faults output.new) (W.given output.new)) }
    ensures full { result ≡ Status.Full → IsFilled D.Disk disk.old }
    ensures usage { result ≡ Status.Usage → ⊥ }
    ensures listener { result ≡ Status.ListenerFault → ⊥ }
    ensures in_use { result ≡ Status.InUse → HasRefused D.Disk disk.old disk.new }
    ensures used { D.Disk.in_use disk.old ≡ Some true → EndsUsed result D.Disk disk.old disk.new }
    ensures same { T.files tree.new ≡ T.files tree.old }
    ensures tree_later { T.faults tree.old ≤ T.faults tree.new }
    ensures missing_later { T.missing tree.old ≤ T.missing tree.new }
{
    match read_config(alloc, tree) {
        Ok(config) => match lock_out(disk) {
            None => feed_with(alloc, config, input, output, clock, disk),
            Some(status) => say_locked_out(config, status, output),
        },
        Err(stop) => say_unread(alloc, stop, output),
    }
}
