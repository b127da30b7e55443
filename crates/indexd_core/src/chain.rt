//! Laws of runs over one disk, without code: each is the contract of a function that does nothing.
//! So what `top` says of one run joins with what it says of the next.

ghost use Rattle.std.specs.Prelude.{◌≡◌, ◌<◌, ℕ, true, false, List, [], length, Option, Some};
ghost use Rattle.ix_disk.specs.Image.{Image, nothing};
ghost use Rattle.ix_sessions.specs.Connections as connections;
ghost use Rattle.ix_sessions.specs.Connections.{Listened, turns_of};
ghost use Rattle.ix_sessions.specs.Feeding as feeding;
ghost use Rattle.ix_sessions.specs.declared.feed.Fed.{Fed};
ghost use Rattle.ix_state.specs.Configs.{IsChooser};
ghost use Rattle.ix_state.specs.Taken.{AreGiven, IsTaken};
ghost use Rattle.ix_model.specs.Given.{Chooser};
ghost use Rattle.ix_model.specs.declared.commands.TimedCommand.{TimedCommand};
ghost use Rattle.ix_replay.specs.Fits.{fits};
ghost use Rattle.indexd_run.specs.Opened.{IsNewRun, Passes, Past, past_of, Course};
ghost use Rattle.indexd_serve.specs.Serving.{HasServed, Requests, Connections, begun_with, Exchange};
ghost use Rattle.indexd_serve.specs.Sides.{IsSound};
ghost use Rattle.indexd_serve.specs.declared.end.ServeEnd.{ServeEnd};
ghost use Rattle.indexd_core.specs.Chain.{MayRun, Leaves, IsLeftOf, IsStopOf, MayGoOn, KeepsAll, EndsKept, KeepsKnown, may_lose};
ghost use Rattle.indexd_core.specs.Feeds.{Feeds};
ghost use Rattle.indexd_core.specs.Prepared.{Stated};
ghost use Rattle.indexd_core.specs.Serves.{Serves};
ghost use Rattle.indexd_core.specs.Sides.{Side};
ghost use Rattle.indexd_core.specs.Stored.{Tasked, Stored};
ghost use Rattle.indexd_core.specs.declared.status.Status.{Status};
ghost use Rattle.indexd_core.specs.Around.{Around};

use indexd_run::Task;
use ix_disk::Disk;

/// A run may begin over an empty disk, with any way to choose the settings of channels.
pub fn an_empty_disk_may_run<D: Disk>()
    ensures { (choose : Chooser) (disk : D) → IsChooser choose → ((image : Image) → D.Disk.may_leave disk image → image ≡ nothing) →
        D.Disk.seen disk ≡ Some nothing → MayRun D.Disk (past_of choose [] 0 0) disk }
{}

/// What each run over a store leaves, wherever it is stopped.
pub fn runs_leave<D: Disk>()
    ensures fed { (past : Past) (status : Status) (from to : Around D) → MayRun D.Disk past from.disk →
        Feeds status D.Disk from to → Leaves D.Disk past from.disk to.disk }
    ensures served { (past : Past) (status : Status) (requests : ℕ) (from to : Around D) → MayRun D.Disk past from.disk →
        Serves status requests D.Disk from to → Leaves D.Disk past from.disk to.disk }
    ensures tasked { (past : Past) (status : Status) (task : Task) (from to : Around D) → MayRun D.Disk past from.disk →
        Tasked status task D.Disk from to → Leaves D.Disk past from.disk to.disk }
    ensures stored { (past : Past) (status : Status) (stated : Stated) (from to : Around D) → MayRun D.Disk past from.disk →
        Stored status stated D.Disk from to → Leaves D.Disk past from.disk to.disk }
{}

/// What a task, and an input that is stored, have committed: all that they have given, unless the
/// disk has failed or a file is damaged, also where they stop before they are done. From the disk
/// behind the last commit on every image has it.
pub fn runs_keep<D: Disk>()
    ensures tasked { (past : Past) (status : Status) (task : Task) (from to : Around D) → MayRun D.Disk past from.disk →
        may_lose status ≡ false → Tasked status task D.Disk from to → EndsKept status D.Disk past from.disk to.disk }
    ensures stored { (past : Past) (status : Status) (stated : Stated) (from to : Around D) → MayRun D.Disk past from.disk →
        may_lose status ≡ false → Stored status stated D.Disk from to → EndsKept status D.Disk past from.disk to.disk }
{}

/// A run that has ended was stopped at its exit.
pub fn an_exit_is_a_stop<D: Disk>()
    ensures { (past : Past) (before disk : D) (leaves : Leaves D.Disk past before disk) →
        IsStopOf D.Disk past before disk leaves D.Disk disk }
{}

/// Wherever a run was stopped, the next one may begin over what it left, on this disk or on
/// another, over a history that begins with all that was sure to be there, and over no earlier run.
/// Where it was stopped from the mount on, that history begins with all that was mounted, and the
/// next run has a greater number than this one. Where a task or an input has made its last commit,
/// it has all of it. Where requests were served, it has all that was known as committed behind any
/// turn before the stop, and so each block that was acknowledged.
pub fn the_next_run_may_begin<D: Disk, E: Disk>()
    ensures anywhere { (past : Past) (before disk : D) (later : E) (image : Image) → MayRun D.Disk past before →
        (leaves : Leaves D.Disk past before disk) → E.Disk.seen later ≡ Some image →
        IsStopOf D.Disk past before disk leaves E.Disk later → MayGoOn E.Disk past later }
    ensures mounted { (past : Past) (now : List TimedCommand) (new_run count : ℕ) (before disk : D) (later : E) (image : Image) →
        MayRun D.Disk past before → AreGiven now → (passes : Passes D.Disk fits past now new_run count before disk) →
        E.Disk.seen later ≡ Some image → IsLeftOf D.Disk passes.mounted disk E.Disk later →
        MayRun E.Disk (past_of past.choose now new_run count) later }
    // Where a task was given or an input stored, that history has all of it, wherever the run was
    // stopped from the disk behind its last commit on.
    ensures done { (past : Past) (before disk : D) (later : E) (image : Image) → MayRun D.Disk past before →
        (keeps : KeepsAll D.Disk past before disk) → E.Disk.seen later ≡ Some image →
        IsLeftOf D.Disk keeps.committed disk E.Disk later →
        MayRun E.Disk (past_of past.choose keeps.now keeps.new_run (length keeps.now)) later }
    // Where requests were served, that history has all that was known as committed behind the turn
    // from whose disk on the run was stopped: so it has each command whose number a reply before
    // told as stored. At the exit it has all that was accepted, unless the disk was at fault.
    ensures fed { (past : Past) (run : Course D) (end : Fed) (failed failed' : ℕ) (link : Exchange) (later : E) (image : Image) →
        MayRun D.Disk past run.before →
        (was : HasServed D.Disk IsTaken fits past run (Requests D.Disk fits end (IsSound failed failed') link)) →
        E.Disk.seen later ≡ Some image →
        KeepsKnown D.Disk E.Disk (begun_with past was.count was.configured was.new_run was.middle) was.served.turns
        (feeding.is_open_end was.served.first ≡ true) was.now run.disk later }
    ensures heard { (past : Past) (run : Course D) (requests : ℕ) (end : ServeEnd) (from to : Listened) (later : E) (image : Image) →
        MayRun D.Disk past run.before →
        (was : HasServed D.Disk IsTaken fits past run (Connections D.Disk fits requests end from to)) →
        E.Disk.seen later ≡ Some image →
        KeepsKnown D.Disk E.Disk (begun_with past was.count was.configured was.new_run was.middle) (turns_of was.served.visits)
        (connections.is_open_end was.served.first ≡ true) was.now run.disk later }
{}

/// No number of a run is used twice: a run that begins over some disk has a greater number than
/// each before it.
pub fn the_next_run_has_a_greater_number<D: Disk>()
    ensures { (past : Past) (next : ℕ) (disk : D) → MayRun D.Disk past disk → IsNewRun D.Disk fits next disk → past.run < next }
{}
