//! The command that monitors files: the settings and the inputs are read, a pass is made, and the
//! line of the status is written. `top` calls `run_monitored`.

ghost use Rattle.std.specs.Prelude.{◌≡◌, ◌≤◌, ◌⊎◌, ℕ, true, Some};
ghost use Rattle.std.specs.List.{AllByRecursion};
ghost use Rattle.ix_base.specs.Faults.{Rose};
ghost use Rattle.ix_monitor.specs.Inputs.{IsStated};
ghost use Rattle.ix_serve.specs.Serving.{IsTold};
ghost use Rattle.ix_sessions.specs.Connections.{Listened};
ghost use Rattle.ix_state.specs.Configs.{IsConfig};
ghost use Rattle.indexd_run.specs.Opened.{course};
ghost use Rattle.indexd_settings.specs.Inputs.{input_line as line_of_fault};
ghost use Rattle.indexd_core.specs.Around.{around};
ghost use Rattle.indexd_core.specs.Blamed.{NamesDamage, IsFilled};
ghost use Rattle.indexd_core.specs.Locked.{HasRefused, EndsUsed};
ghost use Rattle.indexd_core.specs.Monitors.{MonitorComes, Monitors};
ghost use Rattle.indexd_core.specs.Shortened.{LeavesShort};
ghost use Rattle.indexd_core.specs.Sides.{side, Side};
ghost use Rattle.indexd_core.specs.Stored.{FromStart};
ghost use Rattle.indexd_core.specs.Texts.{Said, status_text};

use crate::ends::{Named, say_stop};
use crate::lock::{lock_out, say_locked_out};
use crate::prepare::{say_line, say_unread};
use crate::status::Status;
use indexd_monitor::{Watch, run_monitor};
use indexd_settings::{MonitorStop, Monitored, input_line, read_monitored};
use ix_apply::StateMachine;
use ix_base::{Clock, Sink};
use ix_disk::Disk;
use ix_fs::Tree;
use ix_monitor::InputFault;
use std::alloc::Global;

/// Makes a pass over the files of these inputs, with these settings, and writes the line of its
/// status.
fn monitor_with<W: Sink, C: Clock, T: Tree, D: Disk>(
    alloc: Global,
    found: Monitored,
    close: bool,
    output: &mut W,
    clock: &mut C,
    tree: &mut T,
    disk: &mut D,
) -> Status
    requires settings { IsConfig found.config }
    requires stated { AllByRecursion (IsStated found.config.limits) found.inputs }
    ensures comes { MonitorComes result D.Disk (course found.config (C.ahead clock.old) (C.ahead clock.new) disk.old disk.new)
        (T.files tree.old) found.inputs close
        (side (W.faults output.old) (W.given output.old)) (side (W.faults output.new) (W.given output.new)) }
    ensures short { LeavesShort result D.Disk disk.old disk.new }
    ensures output { result ≡ Status.Output → Rose (W.faults output.old) (W.faults output.new) }
    ensures input { result ≡ Status.Input → Rose (T.faults tree.old) (T.faults tree.new) }
    ensures written_later { W.faults output.old ≤ W.faults output.new }
    ensures told { IsTold D.Disk disk.old → IsTold D.Disk disk.new }
    ensures disk_later { D.Disk.faults disk.old ≤ D.Disk.faults disk.new }
    ensures disk { result ≡ Status.DiskFault → Rose (D.Disk.faults disk.old) (D.Disk.faults disk.new) }
    ensures undamaged { result ≡ Status.Damaged → FromStart D.Disk disk.old (λ past. ⊥) }
    ensures blamed { result ≡ Status.Damaged → NamesDamage D.Disk disk.old disk.new
        (side (W.faults output.old) (W.given output.old)) (side (W.faults output.new) (W.given output.new)) }
    ensures full { result ≡ Status.Full → IsFilled D.Disk disk.old }
    ensures usage { result ≡ Status.Usage → ⊥ }
    ensures listener { result ≡ Status.ListenerFault → ⊥ }
    ensures in_use { result ≡ Status.InUse → ⊥ }
    ensures same { T.files tree.new ≡ T.files tree.old }
    ensures tree_later { T.faults tree.old ≤ T.faults tree.new }
    ensures missing_later { T.missing tree.old ≤ T.missing tree.new }
{
    let Monitored { config, inputs } = found;
    let watch = Watch {
        inputs: inputs.as_slice(),
        close,
    };
    match run_monitor::<StateMachine, D, C, T, W>(alloc, disk, clock, config, tree, watch, output) {
        Ok(()) => Status::Done,
        Err(stop) => say_stop(stop, Named::of_index(b""), output),
    }
}

/// Writes the line of a fault of inputs.conf.
fn say_fault<W: Sink>(alloc: Global, fault: &InputFault, output: &mut W) -> Status
    ensures said { ((result ≡ Status.Configuration) × Said (line_of_fault fault.now) (side (W.faults output.old) (W.given output.old))
        (side (W.faults output.new) (W.given output.new)))
        ⊎ ((result ≡ Status.Memory) × Said (status_text Status.Memory) (side (W.faults output.old) (W.given output.old))
        (side (W.faults output.new) (W.given output.new))) }
    ensures later { W.faults output.old ≤ W.faults output.new }
{
    let line = input_line(alloc, fault);
    say_line(line, Status::Configuration, output)
}

/// Lets the settings of a run go that is not given the store, and writes the line of its status.
fn say_out<W: Sink>(found: Monitored, status: Status, output: &mut W) -> Status
    ensures status { result ≡ status }
    ensures said { Said (status_text status) (side (W.faults output.old) (W.given output.old))
        (side (W.faults output.new) (W.given output.new)) }
    ensures later { W.faults output.old ≤ W.faults output.new }
{
    let Monitored { config, inputs: _ } = found;
    say_locked_out(config, status, output)
}

/// Makes a pass over the files that the inputs have watched, over the store of a disk, with the
/// settings of the files, and writes the line of its status.
pub fn run_monitored<W: Sink, C: Clock, T: Tree, D: Disk>(
    alloc: Global,
    close: bool,
    output: &mut W,
    clock: &mut C,
    tree: &mut T,
    disk: &mut D,
) -> Status
    ensures monitored { (input : Side) (heard : Listened) (deaf out : ℕ) → Monitors result close D.Disk
        (around (T.files tree.old) (T.faults tree.old) (T.missing tree.old) (C.ahead clock.old)
        input (side (W.faults output.old) (W.given output.old)) heard deaf out disk.old)
        (around (T.files tree.new) (T.faults tree.new) (T.missing tree.new) (C.ahead clock.new)
        input (side (W.faults output.new) (W.given output.new)) heard deaf out disk.new) }
    ensures short { LeavesShort result D.Disk disk.old disk.new }
    ensures output { result ≡ Status.Output → Rose (W.faults output.old) (W.faults output.new) }
    ensures input { result ≡ Status.Input → Rose (T.faults tree.old) (T.faults tree.new) }
    ensures written_later { W.faults output.old ≤ W.faults output.new }
    ensures told { IsTold D.Disk disk.old → IsTold D.Disk disk.new }
    ensures disk_later { D.Disk.faults disk.old ≤ D.Disk.faults disk.new }
    ensures disk { result ≡ Status.DiskFault → Rose (D.Disk.faults disk.old) (D.Disk.faults disk.new) }
    // A disk that keeps what was committed, and tells what it reads, is never damaged.
    ensures undamaged { result ≡ Status.Damaged → FromStart D.Disk disk.old (λ past. ⊥) }
    ensures blamed { result ≡ Status.Damaged → NamesDamage D.Disk disk.old disk.new
        (side (W.faults output.old) (W.given output.old)) (side (W.faults output.new) (W.given output.new)) }
    ensures full { result ≡ Status.Full → IsFilled D.Disk disk.old }
    ensures usage { result ≡ Status.Usage → ⊥ }
    ensures listener { result ≡ Status.ListenerFault → ⊥ }
    ensures in_use { result ≡ Status.InUse → HasRefused D.Disk disk.old disk.new }
    ensures used { D.Disk.in_use disk.old ≡ Some true → EndsUsed result D.Disk disk.old disk.new }
    ensures same { T.files tree.new ≡ T.files tree.old }
    ensures tree_later { T.faults tree.old ≤ T.faults tree.new }
    ensures missing_later { T.missing tree.old ≤ T.missing tree.new }
{
    match read_monitored(alloc, tree) {
        Ok(found) => match lock_out(disk) {
            None => monitor_with(alloc, found, close, output, clock, tree, disk),
            Some(status) => say_out(found, status, output),
        },
        Err(MonitorStop::Settings(stop)) => say_unread(alloc, stop, output),
        Err(MonitorStop::Inputs(fault)) => say_fault(alloc, &fault, output),
    }
}
