//! The command `serve`: connections are served, one request each, and then it is written how many,
//! or the line of the status. `top` calls `serve`.

ghost use Rattle.std.specs.Prelude.{◌≡◌, ◌≤◌, true, Some};
ghost use Rattle.ix_base.specs.Faults.{Rose};
ghost use Rattle.ix_state.specs.Configs.{IsConfig};
ghost use Rattle.ix_serve.specs.Serving.{IsTold};
ghost use Rattle.indexd_serve.specs.declared.end.ServeEnd.TheVariants as ends;
ghost use Rattle.indexd_core.specs.Blamed.{NamesDamage, IsFilled};
ghost use Rattle.indexd_core.specs.Serves as defs;
ghost use Rattle.ix_sessions.specs.Connections.{listened};
ghost use Rattle.indexd_core.specs.Serves.{EndsServing, ServeComes, Serves};
ghost use Rattle.indexd_core.specs.Locked.{HasRefused, EndsUsed};
ghost use Rattle.indexd_core.specs.Shortened.{LeavesShort};
ghost use Rattle.indexd_core.specs.Sides.{side, Side};
ghost use Rattle.indexd_core.specs.Stored.{FromStart};
ghost use Rattle.indexd_core.specs.Texts.{Said, status_text};
ghost use Rattle.indexd_core.specs.Around.{around};
ghost use Rattle.indexd_run.specs.Opened.{course};

use crate::ends::{Named, say_damaged, say_stop};
use crate::lock::{lock_out, say_locked_out};
use crate::prepare::say_unread;
use crate::status::{Status, say};
use arrayvec::ArrayString;
use indexd_serve::{ServeEnd, run_serve};
use indexd_settings::read_config;
use itoa::Buffer;
use ix_apply::StateMachine;
use ix_base::{Clock, Sink};
use ix_disk::Disk;
use ix_fs::Tree;
use ix_model::Config;
use ix_net::Listener;
use std::alloc::Global;

/// What `serve` is to do.
#[derive(Clone, Copy)]
pub struct Serving {
    /// The port that it takes; with 0 the system chooses one.
    pub port: u16,
    /// How many connections it serves.
    pub requests: u32,
}

/// The text of a run that has served so many connections.
fn served_line(requests: u32) -> ArrayString<32>
    ensures { result.bytes ≡ defs.served_line requests }
{
    let mut line = ArrayString::<32>::new();
    line.push_str("served ");
    line.push_str(Buffer::new().format(requests));
    line.push_str("\n");
    line
}

/// Writes how many connections were served, and answers the status: `Output` where that cannot be
/// written.
fn say_served<W: Sink>(requests: u32, output: &mut W) -> Status
    ensures said { EndsServing result requests ends.Done (side (W.faults output.old) (W.given output.old))
        (side (W.faults output.new) (W.given output.new)) }
    ensures later { W.faults output.old ≤ W.faults output.new }
{
    let line = served_line(requests);
    match output.put(line.as_str().as_bytes()) {
        Ok(()) => Status::Done,
        Err(_) => Status::Output,
    }
}

/// Writes the line of a status, and answers it.
fn say_fault<W: Sink>(status: Status, output: &mut W) -> Status
    ensures status { result ≡ status }
    ensures said { Said (status_text status) (side (W.faults output.old) (W.given output.old))
        (side (W.faults output.new) (W.given output.new)) }
    ensures later { W.faults output.old ≤ W.faults output.new }
{
    say(status, output);
    status
}

/// Writes how many connections were served, or the line of a run that ended otherwise, and answers
/// its status. Where the line cannot be written the status stays.
fn say_end<W: Sink>(end: ServeEnd, requests: u32, output: &mut W) -> Status
    ensures said { EndsServing result requests end (side (W.faults output.old) (W.given output.old))
        (side (W.faults output.new) (W.given output.new)) }
    ensures later { W.faults output.old ≤ W.faults output.new }
{
    match end {
        ServeEnd::Done => say_served(requests, output),
        ServeEnd::Listener => say_fault(Status::ListenerFault, output),
        ServeEnd::Memory => say_fault(Status::Memory, output),
        ServeEnd::Disk => say_fault(Status::DiskFault, output),
        ServeEnd::Damaged { file, at } => {
            say_damaged(file, at, output);
            Status::Damaged
        }
    }
}

/// Takes the port, serves the connections with these settings, and writes how many, or the line of
/// the status.
fn serve_with<W: Sink, C: Clock, D: Disk, L: Listener>(
    alloc: Global,
    config: Config,
    serving: Serving,
    output: &mut W,
    clock: &mut C,
    disk: &mut D,
    listener: &mut L,
) -> Status
    requires { IsConfig config }
    ensures comes { ServeComes result D.Disk (course config (C.ahead clock.old) (C.ahead clock.new) disk.old disk.new) serving.requests
        (listened (L.waiting listener.old) (L.handed listener.old)) (listened (L.waiting listener.new) (L.handed listener.new))
        (side (W.faults output.old) (W.given output.old)) (side (W.faults output.new) (W.given output.new)) }
    ensures short { LeavesShort result D.Disk disk.old disk.new }
    ensures output { result ≡ Status.Output → Rose (W.faults output.old) (W.faults output.new) }
    ensures written_later { W.faults output.old ≤ W.faults output.new }
    ensures told { IsTold D.Disk disk.old → IsTold D.Disk disk.new }
    ensures disk_later { D.Disk.faults disk.old ≤ D.Disk.faults disk.new }
    ensures heard_later { L.faults listener.old ≤ L.faults listener.new }
    ensures disk { result ≡ Status.DiskFault → Rose (D.Disk.faults disk.old) (D.Disk.faults disk.new) }
    ensures listener { result ≡ Status.ListenerFault → Rose (L.faults listener.old) (L.faults listener.new) }
    ensures out { L.out listener.new ≡ L.out listener.old }
    ensures undamaged { result ≡ Status.Damaged → FromStart D.Disk disk.old (λ past. ⊥) }
    ensures blamed { result ≡ Status.Damaged → NamesDamage D.Disk disk.old disk.new
        (side (W.faults output.old) (W.given output.old)) (side (W.faults output.new) (W.given output.new)) }
    ensures full { result ≡ Status.Full → IsFilled D.Disk disk.old }
    ensures input { result ≡ Status.Input → ⊥ }
    ensures usage { result ≡ Status.Usage → ⊥ }
    ensures in_use { result ≡ Status.InUse → HasRefused D.Disk disk.old disk.new }
    ensures used { D.Disk.in_use disk.old ≡ Some true → EndsUsed result D.Disk disk.old disk.new }
{
    if let Err(_) = listener.bind(serving.port) {
        drop(config);
        return say_fault(Status::ListenerFault, output);
    }
    match lock_out(disk) {
        None => {
            match run_serve::<StateMachine, D, C, L>(
                alloc,
                disk,
                clock,
                config,
                listener,
                serving.requests,
            ) {
                Ok(end) => say_end(end, serving.requests, output),
                Err(stop) => say_stop(stop, Named::of_index(b""), output),
            }
        }
        Some(status) => say_locked_out(config, status, output),
    }
}

/// Serves connections over the store of a disk with the settings of the files, one request each,
/// and writes how many, or the line of the status. The port is taken before the store is touched: a
/// second server over the same port stops there. A connection that comes while the store is mounted
/// waits, and nothing was answered on it if it cannot be.
pub fn serve<W: Sink, C: Clock, T: Tree, D: Disk, L: Listener>(
    alloc: Global,
    serving: Serving,
    output: &mut W,
    clock: &mut C,
    tree: &mut T,
    disk: &mut D,
    listener: &mut L,
) -> Status
    ensures serves { (input : Side) → Serves result serving.requests D.Disk
        (around (T.files tree.old) (T.faults tree.old) (T.missing tree.old) (C.ahead clock.old) input
        (side (W.faults output.old) (W.given output.old)) (listened (L.waiting listener.old) (L.handed listener.old))
        (L.faults listener.old) (L.out listener.old) disk.old)
        (around (T.files tree.new) (T.faults tree.new) (T.missing tree.new) (C.ahead clock.new) input
        (side (W.faults output.new) (W.given output.new)) (listened (L.waiting listener.new) (L.handed listener.new))
        (L.faults listener.new) (L.out listener.new) disk.new) }
    ensures short { LeavesShort result D.Disk disk.old disk.new }
    ensures output { result ≡ Status.Output → Rose (W.faults output.old) (W.faults output.new) }
    ensures input { result ≡ Status.Input → Rose (T.faults tree.old) (T.faults tree.new) }
    ensures written_later { W.faults output.old ≤ W.faults output.new }
    ensures told { IsTold D.Disk disk.old → IsTold D.Disk disk.new }
    ensures disk_later { D.Disk.faults disk.old ≤ D.Disk.faults disk.new }
    ensures heard_later { L.faults listener.old ≤ L.faults listener.new }
    ensures disk { result ≡ Status.DiskFault → Rose (D.Disk.faults disk.old) (D.Disk.faults disk.new) }
    ensures listener { result ≡ Status.ListenerFault → Rose (L.faults listener.old) (L.faults listener.new) }
    ensures out { L.out listener.new ≡ L.out listener.old }
    // A disk that keeps what was committed, and tells what it reads, is never damaged.
    ensures undamaged { result ≡ Status.Damaged → FromStart D.Disk disk.old (λ past. ⊥) }
    ensures blamed { result ≡ Status.Damaged → NamesDamage D.Disk disk.old disk.new
        (side (W.faults output.old) (W.given output.old)) (side (W.faults output.new) (W.given output.new)) }
    ensures full { result ≡ Status.Full → IsFilled D.Disk disk.old }
    ensures usage { result ≡ Status.Usage → ⊥ }
    ensures in_use { result ≡ Status.InUse → HasRefused D.Disk disk.old disk.new }
    ensures used { D.Disk.in_use disk.old ≡ Some true → EndsUsed result D.Disk disk.old disk.new }
    ensures same { T.files tree.new ≡ T.files tree.old }
    ensures tree_later { T.faults tree.old ≤ T.faults tree.new }
    ensures missing_later { T.missing tree.old ≤ T.missing tree.new }
{
    match read_config(alloc, tree) {
        Ok(config) => serve_with(alloc, config, serving, output, clock, disk, listener),
        Err(stop) => say_unread(alloc, stop, output),
    }
}
