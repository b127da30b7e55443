//! A run over a store: it is opened, its task is given to it and committed, and the text is
//! written. The program calls it.

ghost use Rattle.std.specs.Prelude.{◌≡◌, ◌≤◌, ℕ, ℤ, List, length, true, false, Some, Err, IfOk, IfErr, OnOk, IsErrOf};
ghost use Rattle.std.specs.List.{AllByRecursion};
ghost use Rattle.ix_base.specs.Faults.{Rose};
ghost use Rattle.ix_base.specs.Told.{Told, HasWritten, HasBegun};
ghost use Rattle.ix_base.specs.declared.files.File.{File};
ghost use Rattle.ix_disk.specs.Image.{Image};
ghost use Rattle.ix_commit.specs.Contents.{Anyhow};
ghost use Rattle.ix_model.specs.Given.{Chooser};
ghost use Rattle.ix_model.specs.Step.{state_after};
ghost use Rattle.ix_model.specs.declared.commands.TimedCommand.{TimedCommand};
ghost use Rattle.ix_run.specs.Resting.{CheckpointReady, ReadsShort};
ghost use Rattle.ix_run.specs.Running.{outset};
ghost use Rattle.ix_store.specs.Holding.{Represents};
ghost use Rattle.indexd_run.specs.Asked.{Asks};
ghost use Rattle.indexd_run.specs.Blamed.{Blames, ReadsBad};
ghost use Rattle.indexd_run.specs.Ends.{Ends};
ghost use Rattle.indexd_run.specs.Opened.{Begins, configuring, WhenOpen, HasRun, HasStopped, Past, course};
ghost use Rattle.indexd_run.specs.Shortened.{is_short, EndsShort};
ghost use Rattle.indexd_run.specs.Stops.{loses_in, is_output, is_input};
ghost use Rattle.indexd_run.specs.Tasks.{command_in, orders_in, Gave, IsWhy, IsFine, moved_by, is_export, says, HasSaid, HasPrinted};
ghost use Rattle.indexd_run.specs.Tasks.{HasDone, HasHalted};

use crate::export::export;
use crate::finish::{make_short, stop_run};
use crate::opening::open;
use crate::single::run_last;
use crate::stop::Stop;
use crate::task::{Task, command_of};
use crate::texts::say;
use ix_base::{Clock, Sink};
use ix_disk::Disk;
use ix_model::Config;
use ix_store::{Listing, Store};
use std::alloc::Global;

/// The moment of a task's command: the clock is asked for it. Where there is no command it is not
/// asked.
fn moment_of<C: Clock>(task: Task<'_>, clock: &mut C) -> i64
    ensures { Asks (orders_in task.entry result) (C.ahead clock.old) (C.ahead clock.new) }
{
    match task {
        Task::Buckets | Task::Export { .. } => 0,
        Task::Roll { .. } | Task::Thaw { .. } | Task::Tick => clock.now(),
    }
}

/// Gives the store the command of a task, commits it, and answers how many buckets it moved.
fn give_command<M: Listing + Drop, D: Disk>(
    alloc: Global,
    store: &mut Store<M>,
    disk: &mut D,
    task: Task<'_>,
    moment: i64,
) -> Result<u64, Stop>
    requires rest { CheckpointReady D.Disk store.old.committer disk.old }
    requires takes { AllByRecursion M.takes (orders_in task moment) }
    ensures rest { loses_in result ≡ false → CheckpointReady D.Disk store.new.committer disk.new }
    ensures ends { (choose : Chooser) (history : List TimedCommand) (base : ℕ) → M.is_chooser choose → AllByRecursion M.takes history →
        Represents D.Disk M.Book.fits M.holds choose history base (length history) store.old disk.old →
        Ends (loses_in result) D.Disk M.Book.fits M.holds (outset choose history base (length history) store.old.run disk.old)
        (Gave result (orders_in task.entry moment)) store.new disk.new }
    ensures moved { IfOk result (λ count. (choose : Chooser) (history : List TimedCommand) (base : ℕ) → M.is_chooser choose →
        AllByRecursion M.takes history →
        Represents D.Disk M.Book.fits M.holds choose history base (length history) store.old disk.old →
        count ≡ moved_by (state_after choose history) (command_in task.entry) moment) }
    ensures fine { OnOk result (is_export task.entry ≡ false → (choose : Chooser) (history : List TimedCommand) (base : ℕ) →
        M.is_chooser choose → AllByRecursion M.takes history →
        Represents D.Disk M.Book.fits M.holds choose history base (length history) store.old disk.old →
        IsFine choose history task.entry moment) }
    ensures why { IfErr result (λ stop. (choose : Chooser) (history : List TimedCommand) (base : ℕ) → M.is_chooser choose →
        AllByRecursion M.takes history →
        Represents D.Disk M.Book.fits M.holds choose history base (length history) store.old disk.old →
        IsWhy choose history task.entry moment stop) }
    ensures undamaged { (file : File) (at : ℕ) → result ≡ Err (Stop.Damaged file at) →
        (choose : Chooser) (history : List TimedCommand) (base : ℕ) → M.is_chooser choose →
        AllByRecursion M.takes history → Represents D.Disk M.Book.fits M.holds choose history base (length history) store.old disk.old →
        (image : Image) → D.Disk.seen disk.new ≡ Some image → ⊥ }
    ensures placed { (file : File) (at : ℕ) → result ≡ Err (Stop.Damaged file at) → ReadsBad D.Disk disk.new file at }
    ensures told { Told Anyhow (D.Disk.seen disk.old) (D.Disk.seen disk.new) }
    ensures later { D.Disk.faults disk.old ≤ D.Disk.faults disk.new }
    ensures cause { IsErrOf result Stop.Disk → Rose (D.Disk.faults disk.old) (D.Disk.faults disk.new) }
    ensures quiet { IfErr result (λ stop. is_output stop ≡ false) }
    ensures unread { IfErr result (λ stop. is_input stop ≡ false) }
{
    let command = match command_of(alloc, task) {
        Ok(Some(command)) => command,
        Ok(None) => return Ok(0),
        Err(_) => return Err(Stop::Memory),
    };
    match run_last(store, disk, command, moment) {
        Ok(answer) => Ok(answer.moved),
        Err(stop) => Err(stop),
    }
}

/// Gives the store the command of a task, commits it, makes the log short where it is long, and
/// answers how many buckets it moved.
fn give_task<M: Listing + Drop, D: Disk>(
    alloc: Global,
    store: &mut Store<M>,
    disk: &mut D,
    task: Task<'_>,
    moment: i64,
) -> Result<u64, Stop>
    requires rest { CheckpointReady D.Disk store.old.committer disk.old }
    requires takes { AllByRecursion M.takes (orders_in task moment) }
    ensures ends { (choose : Chooser) (history : List TimedCommand) (base : ℕ) → M.is_chooser choose → AllByRecursion M.takes history →
        Represents D.Disk M.Book.fits M.holds choose history base (length history) store.old disk.old →
        Ends (loses_in result) D.Disk M.Book.fits M.holds (outset choose history base (length history) store.old.run disk.old)
        (Gave result (orders_in task.entry moment)) store.new disk.new }
    ensures moved { IfOk result (λ count. (choose : Chooser) (history : List TimedCommand) (base : ℕ) → M.is_chooser choose →
        AllByRecursion M.takes history →
        Represents D.Disk M.Book.fits M.holds choose history base (length history) store.old disk.old →
        count ≡ moved_by (state_after choose history) (command_in task.entry) moment) }
    ensures fine { OnOk result (is_export task.entry ≡ false → (choose : Chooser) (history : List TimedCommand) (base : ℕ) →
        M.is_chooser choose → AllByRecursion M.takes history →
        Represents D.Disk M.Book.fits M.holds choose history base (length history) store.old disk.old →
        IsFine choose history task.entry moment) }
    ensures why { IfErr result (λ stop. (choose : Chooser) (history : List TimedCommand) (base : ℕ) → M.is_chooser choose →
        AllByRecursion M.takes history →
        Represents D.Disk M.Book.fits M.holds choose history base (length history) store.old disk.old →
        IsWhy choose history task.entry moment stop) }
    ensures short { is_short result ≡ true → ReadsShort D.Disk disk.new }
    ensures undamaged { (file : File) (at : ℕ) → result ≡ Err (Stop.Damaged file at) →
        (choose : Chooser) (history : List TimedCommand) (base : ℕ) → M.is_chooser choose →
        AllByRecursion M.takes history → Represents D.Disk M.Book.fits M.holds choose history base (length history) store.old disk.old →
        (image : Image) → D.Disk.seen disk.new ≡ Some image → ⊥ }
    ensures placed { (file : File) (at : ℕ) → result ≡ Err (Stop.Damaged file at) → ReadsBad D.Disk disk.new file at }
    ensures told { Told Anyhow (D.Disk.seen disk.old) (D.Disk.seen disk.new) }
    ensures later { D.Disk.faults disk.old ≤ D.Disk.faults disk.new }
    ensures cause { IsErrOf result Stop.Disk → Rose (D.Disk.faults disk.old) (D.Disk.faults disk.new) }
    ensures quiet { IfErr result (λ stop. is_output stop ≡ false) }
    ensures unread { IfErr result (λ stop. is_input stop ≡ false) }
{
    match give_command(alloc, store, disk, task, moment) {
        Ok(count) => match make_short(store, disk) {
            Ok(()) => Ok(count),
            Err(stop) => Err(stop),
        },
        Err(stop) => Err(stop_run(store, disk, stop)),
    }
}

/// Gives the task to an open store, and writes its text.
fn give_and_say<M: Listing + Drop, D: Disk, W: Sink>(
    alloc: Global,
    store: &mut Store<M>,
    disk: &mut D,
    task: Task<'_>,
    moment: i64,
    output: &mut W,
) -> Result<(), Stop>
    requires rest { CheckpointReady D.Disk store.old.committer disk.old }
    requires other { is_export task ≡ false }
    requires takes { AllByRecursion M.takes (orders_in task moment) }
    ensures ends { (choose : Chooser) (history : List TimedCommand) (base : ℕ) → M.is_chooser choose → AllByRecursion M.takes history →
        Represents D.Disk M.Book.fits M.holds choose history base (length history) store.old disk.old →
        Ends (loses_in result) D.Disk M.Book.fits M.holds (outset choose history base (length history) store.old.run disk.old)
        (Gave result (orders_in task.entry moment)) store.new disk.new }
    ensures printed { OnOk result ((choose : Chooser) (history : List TimedCommand) (base : ℕ) → M.is_chooser choose →
        AllByRecursion M.takes history →
        Represents D.Disk M.Book.fits M.holds choose history base (length history) store.old disk.old →
        HasSaid HasWritten choose history task.entry moment (W.given output.old) (W.given output.new)) }
    ensures fine { OnOk result ((choose : Chooser) (history : List TimedCommand) (base : ℕ) → M.is_chooser choose →
        AllByRecursion M.takes history →
        Represents D.Disk M.Book.fits M.holds choose history base (length history) store.old disk.old →
        IsFine choose history task.entry moment) }
    ensures begun { IsErrOf result Stop.Output → (choose : Chooser) (history : List TimedCommand) (base : ℕ) → M.is_chooser choose →
        AllByRecursion M.takes history →
        Represents D.Disk M.Book.fits M.holds choose history base (length history) store.old disk.old →
        HasSaid HasBegun choose history task.entry moment (W.given output.old) (W.given output.new) }
    ensures quiet { IfErr result (λ stop. is_output stop ≡ false → W.given output.new ≡ W.given output.old) }
    ensures why { IfErr result (λ stop. (choose : Chooser) (history : List TimedCommand) (base : ℕ) → M.is_chooser choose →
        AllByRecursion M.takes history →
        Represents D.Disk M.Book.fits M.holds choose history base (length history) store.old disk.old →
        IsWhy choose history task.entry moment stop) }
    ensures short { is_short result ≡ true → ReadsShort D.Disk disk.new }
    ensures unread { IfErr result (λ stop. is_input stop ≡ false) }
    ensures undamaged { (file : File) (at : ℕ) → result ≡ Err (Stop.Damaged file at) →
        (choose : Chooser) (history : List TimedCommand) (base : ℕ) → M.is_chooser choose →
        AllByRecursion M.takes history → Represents D.Disk M.Book.fits M.holds choose history base (length history) store.old disk.old →
        (image : Image) → D.Disk.seen disk.new ≡ Some image → ⊥ }
    ensures placed { (file : File) (at : ℕ) → result ≡ Err (Stop.Damaged file at) → ReadsBad D.Disk disk.new file at }
    ensures told { Told Anyhow (D.Disk.seen disk.old) (D.Disk.seen disk.new) }
    ensures later { D.Disk.faults disk.old ≤ D.Disk.faults disk.new }
    ensures cause { IsErrOf result Stop.Disk → Rose (D.Disk.faults disk.old) (D.Disk.faults disk.new) }
    ensures grown { W.faults output.old ≤ W.faults output.new }
    ensures output { IsErrOf result Stop.Output → Rose (W.faults output.old) (W.faults output.new) }
{
    match give_task(alloc, store, disk, task, moment) {
        Ok(count) => say(alloc, store.view(), task, count, output),
        Err(stop) => Err(stop),
    }
}

/// Carries a task out over an open store.
fn carry_out<M: Listing + Drop, D: Disk, W: Sink>(
    alloc: Global,
    store: &mut Store<M>,
    disk: &mut D,
    task: Task<'_>,
    moment: i64,
    output: &mut W,
) -> Result<(), Stop>
    requires rest { CheckpointReady D.Disk store.old.committer disk.old }
    requires takes { AllByRecursion M.takes (orders_in task moment) }
    ensures ends { (choose : Chooser) (history : List TimedCommand) (base : ℕ) → M.is_chooser choose → AllByRecursion M.takes history →
        Represents D.Disk M.Book.fits M.holds choose history base (length history) store.old disk.old →
        Ends (loses_in result) D.Disk M.Book.fits M.holds (outset choose history base (length history) store.old.run disk.old)
        (Gave result (orders_in task.entry moment)) store.new disk.new }
    ensures printed { OnOk result ((choose : Chooser) (history : List TimedCommand) (base : ℕ) → M.is_chooser choose →
        AllByRecursion M.takes history →
        Represents D.Disk M.Book.fits M.holds choose history base (length history) store.old disk.old →
        HasPrinted HasWritten D.Disk choose history task.entry moment disk.new (W.given output.old) (W.given output.new)) }
    ensures fine { OnOk result ((choose : Chooser) (history : List TimedCommand) (base : ℕ) → M.is_chooser choose →
        AllByRecursion M.takes history →
        Represents D.Disk M.Book.fits M.holds choose history base (length history) store.old disk.old →
        IsFine choose history task.entry moment) }
    ensures begun { IfErr result (λ stop. says task.entry stop ≡ true → (choose : Chooser) (history : List TimedCommand) (base : ℕ) →
        M.is_chooser choose → AllByRecursion M.takes history →
        Represents D.Disk M.Book.fits M.holds choose history base (length history) store.old disk.old →
        HasPrinted HasBegun D.Disk choose history task.entry moment disk.new (W.given output.old) (W.given output.new)) }
    ensures quiet { IfErr result (λ stop. says task.entry stop ≡ false → W.given output.new ≡ W.given output.old) }
    ensures why { IfErr result (λ stop. (choose : Chooser) (history : List TimedCommand) (base : ℕ) → M.is_chooser choose →
        AllByRecursion M.takes history →
        Represents D.Disk M.Book.fits M.holds choose history base (length history) store.old disk.old →
        IsWhy choose history task.entry moment stop) }
    ensures short { is_short result ≡ true → ReadsShort D.Disk disk.new }
    ensures unread { IfErr result (λ stop. is_input stop ≡ false) }
    ensures undamaged { (file : File) (at : ℕ) → result ≡ Err (Stop.Damaged file at) →
        (choose : Chooser) (history : List TimedCommand) (base : ℕ) → M.is_chooser choose →
        AllByRecursion M.takes history → Represents D.Disk M.Book.fits M.holds choose history base (length history) store.old disk.old →
        (image : Image) → D.Disk.seen disk.new ≡ Some image → ⊥ }
    ensures placed { (file : File) (at : ℕ) → result ≡ Err (Stop.Damaged file at) → ReadsBad D.Disk disk.new file at }
    ensures told { Told Anyhow (D.Disk.seen disk.old) (D.Disk.seen disk.new) }
    ensures later { D.Disk.faults disk.old ≤ D.Disk.faults disk.new }
    ensures cause { IsErrOf result Stop.Disk → Rose (D.Disk.faults disk.old) (D.Disk.faults disk.new) }
    ensures grown { W.faults output.old ≤ W.faults output.new }
    ensures output { IsErrOf result Stop.Output → Rose (W.faults output.old) (W.faults output.new) }
{
    match task {
        Task::Export { index, range } => export(store, disk, index, &range, output),
        _ => give_and_say(alloc, store, disk, task, moment, output),
    }
}

/// Opens the store of a disk with these settings, gives it the task, and writes the text. Before it
/// writes, and also where it stops, it has made the log short where that is long: for want of
/// memory, or where the disk fails, it stops for that in place of any other end.
pub fn run_task<M: Listing + Drop, D: Disk, C: Clock, W: Sink>(
    alloc: Global,
    disk: &mut D,
    clock: &mut C,
    config: Config,
    task: Task<'_>,
    output: &mut W,
) -> Result<(), Stop>
    requires settings { (moment : ℤ) → M.takes (configuring config moment) }
    requires takes { (moment : ℤ) → AllByRecursion M.takes (orders_in task moment) }
    // A run that is done has given the task behind the settings and written its text, and every
    // image at the exit has all.
    ensures done { OnOk result ((past : Past) → M.is_chooser past.choose → AllByRecursion M.takes past.history →
        Begins D.Disk M.Book.fits past disk.old → (image : Image) → D.Disk.seen disk.old ≡ Some image →
        HasRun false D.Disk M.takes M.Book.fits past (WhenOpen past.choose config (C.ahead clock.old)
        (HasDone D.Disk past.choose task.entry (C.ahead clock.new) (W.given output.old) (W.given output.new) disk.new)) disk.old disk.new) }
    // One that stops has a cause. It has lost nothing of what was mounted, and where the disk is
    // not at fault nothing that was accepted since.
    ensures stopped { IfErr result (λ stop. (past : Past) → M.is_chooser past.choose → AllByRecursion M.takes past.history →
        Begins D.Disk M.Book.fits past disk.old → (image : Image) → D.Disk.seen disk.old ≡ Some image →
        HasStopped stop D.Disk M.takes M.Book.fits past (course config (C.ahead clock.old) (C.ahead clock.new) disk.old disk.new)
        (W.given output.new ≡ W.given output.old) (HasHalted D.Disk past.choose task.entry stop (C.ahead clock.new) (W.given output.old)
        (W.given output.new) disk.new)) }
    // Only an export, and an output that fails, leave a part of a text.
    ensures quiet { IfErr result (λ stop. says task.entry stop ≡ false → W.given output.new ≡ W.given output.old) }
    // What is on the disk is not damaged where it keeps what was committed and tells what it reads,
    ensures undamaged { (file : File) (at : ℕ) → result ≡ Err (Stop.Damaged file at) → (past : Past) → M.is_chooser past.choose →
        AllByRecursion M.takes past.history → Begins D.Disk M.Book.fits past disk.old → (image : Image) →
        D.Disk.seen disk.old ≡ Some image → ⊥ }
    // and what is in memory contradicts nothing.
    ensures sound { IsErrOf result Stop.Inconsistent → (past : Past) → M.is_chooser past.choose → AllByRecursion M.takes past.history →
        Begins D.Disk M.Book.fits past disk.old → (image : Image) → D.Disk.seen disk.old ≡ Some image → ⊥ }
    // Whatever the disk held, a stop blames what the mount or the mounted store has met.
    ensures blamed { IfErr result (λ stop. Blames stop D.Disk M.Book.fits M.gives_none disk.old disk.new) }
    // Its log is not long then, as the disk reads, whatever it stops for; but where memory was
    // short, or the disk has failed or is not sound.
    ensures short { EndsShort D.Disk M.Book.fits result disk.old disk.new }
    ensures unread { IfErr result (λ stop. is_input stop ≡ false) }
    // A disk that tells what it reads goes on telling.
    ensures told { Told Anyhow (D.Disk.seen disk.old) (D.Disk.seen disk.new) }
    ensures later { D.Disk.faults disk.old ≤ D.Disk.faults disk.new }
    ensures cause { IsErrOf result Stop.Disk → Rose (D.Disk.faults disk.old) (D.Disk.faults disk.new) }
    ensures grown { W.faults output.old ≤ W.faults output.new }
    ensures output { IsErrOf result Stop.Output → Rose (W.faults output.old) (W.faults output.new) }
{
    let mut store = match open::<M, D, C>(alloc, disk, clock, config) {
        Ok(store) => store,
        Err(stop) => return Err(stop),
    };
    let moment = moment_of(task, clock);
    carry_out(alloc, &mut store, disk, task, moment, output)
}
