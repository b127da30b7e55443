//! All that the program does.

ghost use Rattle.std.specs.Prelude.{◌≡◌, ◌≢◌, ◌≤◌, ◌⊎◌, ℕ, Bool, List, Some, true, false};
ghost use Rattle.ix_base.specs.Faults.{Rose};
ghost use Rattle.ix_serve.specs.Serving.{IsTold};
ghost use Rattle.indexd_settings.specs.Layers.{file_named};
ghost use Rattle.indexd_settings.specs.declared.layers.SettingsFile.{SettingsFile};
ghost use Rattle.indexd_cli.specs.Orders.{asked};
ghost use Rattle.indexd_cli.specs.Shown.{shown};
ghost use Rattle.indexd_core.specs.Blamed.{NamesDamage};
ghost use Rattle.indexd_core.specs.Btool.{Tells};
ghost use Rattle.indexd_core.specs.Around.{around, around_of, outside_of};
ghost use Rattle.indexd_core.specs.Carried.{Carries};
ghost use Rattle.indexd_core.specs.Commands.{asked_for, is_command, is_stored, is_task, is_heard, AskPreview, AskBtool, AskTask, AskStore};
ghost use Rattle.indexd_core.specs.Commands.{AskFeed, AskServe, AskMonitor, AskSelftest};
ghost use Rattle.indexd_core.specs.Feeds.{Feeds};
ghost use Rattle.indexd_core.specs.Locked.{HasRefused, EndsUsed};
ghost use Rattle.indexd_core.specs.Monitors.{Monitors};
ghost use Rattle.indexd_core.specs.Prepared.{Stated};
ghost use Rattle.indexd_core.specs.Runs.{Previews, Refuses};
ghost use Rattle.ix_sessions.specs.Connections.{Listened, listened};
ghost use Rattle.indexd_core.specs.Selftests.{Tests, OnlyWrites, LacksRoom};
ghost use Rattle.indexd_core.specs.Serves.{Serves};
ghost use Rattle.indexd_core.specs.Shortened.{LeavesShort};
ghost use Rattle.indexd_core.specs.Sides.{Side, side};
ghost use Rattle.indexd_core.specs.Stored.{FromStart, Tasked, Stored};
ghost use Rattle.indexd_core.specs.Texts.{Said, status_text};

use crate::btool::btool;
use crate::feed::feed;
use crate::monitor::run_monitored;
use crate::preview::run_preview;
use crate::selftest::run_selftest;
use crate::serve::{Serving, serve};
use crate::status::{Status, say};
use crate::stored::{run_stored, store_preview};
use indexd_cli::{Invocation, UsageFault, lend_words, read_words};
use indexd_run::Task;
use indexd_settings::SettingsFile;
use ix_base::{Clock, Sink, Source, Text};
use ix_disk::Disk;
use ix_fs::Tree;
use ix_net::Listener;
use std::alloc::Global;

/// Writes the line of a status that comes before any command.
fn stop<W: Sink>(status: Status, output: &mut W) -> Status
    ensures status { result ≡ status }
    ensures line { Said (status_text status) (side (W.faults output.old) (W.given output.old))
        (side (W.faults output.new) (W.given output.new)) }
    ensures later { W.faults output.old ≤ W.faults output.new }
{
    say(status, output);
    status
}

/// Runs a task. Whatever else the program works over, it leaves alone.
fn do_task<W: Sink, C: Clock, T: Tree, D: Disk>(
    alloc: Global,
    task: Task<'_>,
    output: &mut W,
    clock: &mut C,
    tree: &mut T,
    disk: &mut D,
) -> Status
    ensures { (input : Side) (heard : Listened) (deaf left : ℕ) → Carries (Some (asked_for task.entry)) result D.Disk
        (around (T.files tree.old) (T.faults tree.old) (T.missing tree.old) (C.ahead clock.old) input
        (side (W.faults output.old) (W.given output.old)) heard deaf left disk.old)
        (around (T.files tree.new) (T.faults tree.new) (T.missing tree.new) (C.ahead clock.new) input
        (side (W.faults output.new) (W.given output.new)) heard deaf left disk.new) }
{
    run_stored(alloc, task, output, clock, tree, disk)
}

/// Carries out what words ask for.
fn carry_out<S: Source, W: Sink, C: Clock, T: Tree, D: Disk, L: Listener>(
    alloc: Global,
    order: Invocation<'_>,
    input: &mut S,
    output: &mut W,
    clock: &mut C,
    tree: &mut T,
    disk: &mut D,
    listener: &mut L,
) -> Status
    requires { (words : List (List ℕ)) × (asked words ≡ Some (shown order)) }
    ensures carried { Carries (Some (shown order.entry)) result D.Disk
        (around_of S.Source W.Sink C.Clock T.Tree L.Listener input.old output.old clock.old tree.old listener.old disk.old)
        (around_of S.Source W.Sink C.Clock T.Tree L.Listener input.new output.new clock.new tree.new listener.new disk.new) }
    ensures unheard { is_heard (Some (shown order.entry)) ≡ false → listener.new ≡ listener.old }
{
    match order {
        Invocation::Preview { origin, store } => {
            if store {
                store_preview(alloc, origin, input, output, clock, tree, disk)
            } else {
                run_preview(alloc, origin, input, output, clock, tree)
            }
        }
        Invocation::Btool { file } => match SettingsFile::named(file) {
            Some(file) => btool(alloc, file, tree, output),
            None => stop(Status::Usage, output),
        },
        Invocation::Buckets => do_task(alloc, Task::Buckets, output, clock, tree, disk),
        Invocation::Export { index, range } => {
            let task = Task::Export { index, range };
            do_task(alloc, task, output, clock, tree, disk)
        }
        Invocation::Roll { index } => do_task(
            alloc,
            Task::Roll { index },
            output,
            clock,
            tree,
            disk,
        ),
        Invocation::Thaw { index, id } => {
            do_task(alloc, Task::Thaw { index, id }, output, clock, tree, disk)
        }
        Invocation::Tick => do_task(alloc, Task::Tick, output, clock, tree, disk),
        Invocation::Feed => feed(alloc, input, output, clock, tree, disk),
        Invocation::Serve { port, requests } => {
            let serving = Serving { port, requests };
            serve(alloc, serving, output, clock, tree, disk, listener)
        }
        Invocation::Monitor { close } => run_monitored(alloc, close, output, clock, tree, disk),
        Invocation::Selftest { seed, count } => run_selftest(alloc, seed, count, output),
    }
}

/// Does what the words ask for. Its contract says as one fact what the clauses of `top` say one by
/// one, so that they are proved at one place.
fn answer<S: Source, W: Sink, C: Clock, T: Tree, D: Disk, L: Listener>(
    alloc: Global,
    words: &[Text],
    input: &mut S,
    output: &mut W,
    clock: &mut C,
    tree: &mut T,
    disk: &mut D,
    listener: &mut L,
) -> Status
    ensures carried { Carries (asked words.now) result D.Disk
        (around_of S.Source W.Sink C.Clock T.Tree L.Listener input.old output.old clock.old tree.old listener.old disk.old)
        (around_of S.Source W.Sink C.Clock T.Tree L.Listener input.new output.new clock.new tree.new listener.new disk.new) }
    ensures unheard { is_heard (asked words.now) ≡ false → listener.new ≡ listener.old }
{
    let Ok(lent) = lend_words(alloc, words) else {
        return stop(Status::Memory, output);
    };
    match read_words(alloc, &lent) {
        Ok(order) => carry_out(alloc, order, input, output, clock, tree, disk, listener),
        Err(UsageFault::NoMemory) => stop(Status::Memory, output),
        Err(UsageFault::Usage) => stop(Status::Usage, output),
    }
}

/// Does all that the program does, and answers its status. `words` are those of the command line
/// behind the program's name, `input` and `output` its standard input and output, `tree` the files
/// of settings, `disk` the files of the store, and `listener` what accepts connections.
///
/// `preview --host HOST --source SOURCE [--sourcetype TYPE] [--index INDEX]` reads the input as one
/// closed stream and writes its events, a line each, by the settings that the files of the tree
/// have for the host, the source and the source type: lines are merged into events and their dates
/// read unless these settings say otherwise, and events are then changed by `SEDCMD` and
/// transforms. All bytes arrive at the moment that the clock shows before the input is read. An
/// event that is sent to the null queue, or that no index keeps, has no line; any other is shown in
/// the index that keeps it. `btool FILE` writes the settings of all layers of a file.
///
/// The other commands work over the store of the disk. They mount it, put the settings of the files
/// in force where others are, and end with all of their changes committed. `preview .. --store`
/// stores the events of the input and writes nothing. `buckets` lists the indexes and buckets,
/// `export INDEX [--earliest SECONDS] [--latest SECONDS]` writes the events of an index in the
/// range of times, `roll INDEX` rolls its hot buckets, `thaw INDEX ID` brings a frozen bucket back
/// from the archive, and `tick` is a turn of housekeeping. `feed` serves the requests that come one
/// behind the other from the input, and writes the replies. `serve --port PORT --requests COUNT`
/// takes the port of the machine itself, serves so many connections, one request each, whose
/// replies go back on them, and writes `served COUNT`. The port is taken before the store is
/// touched. `monitor [--close]` makes one pass over the files that inputs.conf watches, gives what
/// is new in them to the store, and writes a line for each. Each of these commands takes the store
/// for itself, once it has read the settings and before it reads or writes anything of the store:
/// where another program has it, it does nothing and ends with `InUse`. Once it has mounted the
/// store, it makes the log short where it is long, whatever it ends with, unless the disk has
/// failed or a file is damaged: for want of memory, or where the disk fails at it, it ends with
/// `Memory` or `DiskFault` in place of any other status.
///
/// `selftest SEED COUNT` works over none of this: it makes a store in memory, gives it so many
/// lines of its own through requests, cut into blocks as the seed has it, mounts it again, and
/// writes `selftest SEED COUNT` and the listing of that store.
///
/// A run may be stopped at any moment, and the next one goes on from what the disk has then. What
/// is promised of it speaks of every history of commands of which each image that a crash may leave
/// at its start stands for a first part, with its first k commands at least, and for a run with
/// some least number or a later one, and of a disk that tells what it reads (`MayRun`). Up to the
/// mount each image still does. The number of a run that mounts is one more than the one that the
/// disk reads, and greater than that least one; from the mount on each image stands for a first
/// part of what was mounted and accepted since, with all that was mounted, and for this run or a
/// later one. So no image goes back to an earlier run, whether a run serves, does a task, is
/// stopped or does not mount, and no number of a run is used twice. A number that a reply tells as
/// stored is that of a command of this run which every image has from then on. At the exit every
/// image has all that was accepted, unless the disk has failed or a file is damaged; and where a
/// task or an input has made its last commit, every image from then on has all of it (`runs_keep`).
/// `runs_leave`, `an_exit_is_a_stop` and `the_next_run_may_begin` join one run to the next,
/// `an_empty_disk_may_run` begins them, and `the_next_run_has_a_greater_number` is on their
/// numbers. Of `monitor` the same is said by `monitors_leave` and `monitors_keep`.
///
/// Any other words are `Usage`. `Configuration` comes exactly where the files that the command
/// reads have a fault, and `InUse` exactly where another program has the store. `Input` comes only
/// where the input of `preview` or `feed`, or the tree, has failed, `Output` only where the output
/// has, `DiskFault` only where the disk has, `ListenerFault` only where the listener has, also where
/// it does not get its port, `Unreadable` where a request of `feed` was cut or it is not known where
/// it ends, and `Memory` where there was no room. Where nothing was mounted, the line of `Damaged`
/// names a file and a place where a log was bad as the disk read at the start. Behind a mount it
/// names the end of a file, a place in one where no record of a bucket of some size stands, as the
/// disk reads at the exit, or `meta/1 at 0` where what the store has in memory contradicts itself:
/// that this is the place of the damage is said by `commit` and `export` of the store, and not here.
/// `Full` comes only where the store has had its last run, or behind a mount, or where the store of
/// a selftest has no room. Of a disk that stands for a history it is said too that `NotFound` comes
/// where INDEX is not configured, or the bucket is not in the archive, `TooManyChannels` where 256
/// channels are open, `Full` where the store would pass its bounds or has had its last run, and
/// `Endless` where `preview` took 2^40 bytes or `feed` served 2^32 requests; and `Damaged` never
/// comes where each image stands for such a history. The line of the status stands behind the
/// output.
pub fn top<S: Source, W: Sink, C: Clock, T: Tree, D: Disk, L: Listener>(
    alloc: Global,
    words: &[Text],
    input: &mut S,
    output: &mut W,
    clock: &mut C,
    tree: &mut T,
    disk: &mut D,
    listener: &mut L,
) -> Status
    // Words that are no command are refused. Then nothing is asked or read, and nothing but the
    // line is written.
    ensures usage { result ≡ Status.Usage → is_command words.now ≡ false }
    ensures refused { is_command words.now ≡ false → Refuses result
        (outside_of S.Source W.Sink C.Clock T.Tree input.old output.old clock.old tree.old)
        (outside_of S.Source W.Sink C.Clock T.Tree input.new output.new clock.new tree.new) }

    // At 0 the output is the lines of all events of the whole input, merged, dated and changed by
    // the settings chosen for it; exactly where the files have a fault the status is
    // `Configuration` and the output the line of the first one; at any other status it is known as
    // well.
    ensures preview { (stated : Stated) → AskPreview words.now stated → Previews result stated
        (outside_of S.Source W.Sink C.Clock T.Tree input.old output.old clock.old tree.old)
        (outside_of S.Source W.Sink C.Clock T.Tree input.new output.new clock.new tree.new) }

    // At 0 the output is the listing of the file, and exactly where one of its layers has a fault
    // the status is `Configuration` and the output the line of the first one.
    ensures btool { (name : List ℕ) (file : SettingsFile) → AskBtool words.now name → file_named name ≡ Some file →
        Tells result file (T.files tree.old) (T.faults tree.old) (T.faults tree.new)
        (side (W.faults output.old) (W.given output.old)) (side (W.faults output.new) (W.given output.new)) }

    // A task over a store: at 0 it was given behind what the store had, with the settings of the
    // files in force, its text was written, and every image at the exit has all commands. At any
    // other status no image has lost what was mounted, and the status has its cause and its line.
    // What was given may be given again, so that a further run may begin.
    ensures task { is_task (asked words.now) ≡ true → (task : Task) × AskTask words.now task × Tasked result task D.Disk
        (around_of S.Source W.Sink C.Clock T.Tree L.Listener input.old output.old clock.old tree.old listener.old disk.old)
        (around_of S.Source W.Sink C.Clock T.Tree L.Listener input.new output.new clock.new tree.new listener.new disk.new) }

    // An input that is stored: at 0 all of it was given to the store as the stream of a channel,
    // and every image at the exit has it.
    ensures stored { (stated : Stated) → AskStore words.now stated → Stored result stated D.Disk
        (around_of S.Source W.Sink C.Clock T.Tree L.Listener input.old output.old clock.old tree.old listener.old disk.old)
        (around_of S.Source W.Sink C.Clock T.Tree L.Listener input.new output.new clock.new tree.new listener.new disk.new) }

    // Requests of the input: they were served one behind the other, over what the store had, in a
    // run with a new number, up to where the run ended. Where that was goes by the bytes of the
    // input alone, whatever the disk holds: 0 comes only behind the last byte, and `Unreadable`
    // just where a request is cut, or refused and not delimited, unless there is no room in memory
    // or input, output or disk fails. The replies stand in the output, and then the line of the
    // status. What a reply tells as stored is in every image from then on; at every end but a fault
    // of the disk each image has all commands that were accepted.
    ensures fed { AskFeed words.now → Feeds result D.Disk
        (around_of S.Source W.Sink C.Clock T.Tree L.Listener input.old output.old clock.old tree.old listener.old disk.old)
        (around_of S.Source W.Sink C.Clock T.Tree L.Listener input.new output.new clock.new tree.new listener.new disk.new) }

    // Connections of the listener: so many were served, one request each, over what the store had,
    // in a run with a new number, and at 0 the output tells how many. How many were taken, and that
    // each was handed back, holds whatever the disk holds. On each stands the reply to what it
    // held. What a reply tells as stored is in every image from then on; at every end but a fault
    // of the disk each image has all commands that were accepted.
    ensures served { (port requests : ℕ) → AskServe words.now port requests → Serves result requests D.Disk
        (around_of S.Source W.Sink C.Clock T.Tree L.Listener input.old output.old clock.old tree.old listener.old disk.old)
        (around_of S.Source W.Sink C.Clock T.Tree L.Listener input.new output.new clock.new tree.new listener.new disk.new) }

    // A pass over watched files: at 0 each file of the inputs was visited once, what is new in it
    // was given behind what the store had, as the stream of its channel, every image at the exit
    // has it, and the output tells it by a line for each file. At any other status the first of the
    // files were visited, no image has lost what was mounted, and the status has its cause and its
    // line. `watched_files_are_read_on` says what that is for a file that only grows.
    ensures monitored { (close : Bool) → AskMonitor words.now close → Monitors result close D.Disk
        (around_of S.Source W.Sink C.Clock T.Tree L.Listener input.old output.old clock.old tree.old listener.old disk.old)
        (around_of S.Source W.Sink C.Clock T.Tree L.Listener input.new output.new clock.new tree.new listener.new disk.new) }

    // A selftest: at 0 the output is `selftest SEED COUNT` and the listing of the state that the
    // commands of the selftest lead to, its lines being cut into blocks as the seed has it. `Full`
    // comes only where the store that it makes has no room for one of them or for one of its runs.
    ensures tested { (seed count : ℕ) → AskSelftest words.now seed count → Tests result seed count
        (side (W.faults output.old) (W.given output.old)) (side (W.faults output.new) (W.given output.new)) }

    // `InUse` comes only where another program has the store, which the disk has refused to this
    // one: then nothing of it was changed, and by the clauses above the clock was not asked, the
    // input not read, no connection heard, and nothing but the line written. Where the disk knows
    // that another program has it, a command over the store ends so, unless want of memory, the
    // settings or the port end it before it comes to the store.
    ensures in_use { result ≡ Status.InUse → HasRefused D.Disk disk.old disk.new }
    ensures used { D.Disk.in_use disk.old ≡ Some true → is_stored (asked words.now) ≡ true → EndsUsed result D.Disk disk.old disk.new }

    // Behind a command that has mounted the store the current log is not long, as the disk reads,
    // unless there was no room in memory, or the disk has failed or is damaged.
    ensures short { LeavesShort result D.Disk disk.old disk.new }

    // What a command leaves alone: one that works over no store the disk, a task, `serve` and
    // `monitor` the input, `btool` the input and the clock, `selftest` all but the output, one that
    // hears no listener the listener, and each the files. As many connections are out as before.
    ensures untouched { is_stored (asked words.now) ≡ false → disk.new ≡ disk.old }
    ensures unasked { is_task (asked words.now) ≡ true → (S.left input.new ≡ S.left input.old) × (S.faults input.new ≡ S.faults input.old) }
    ensures unread { (name : List ℕ) → AskBtool words.now name → (S.left input.new ≡ S.left input.old)
        × (S.faults input.new ≡ S.faults input.old)
        × (C.ahead clock.new ≡ C.ahead clock.old) }
    ensures unfed { (port requests : ℕ) → AskServe words.now port requests → (S.left input.new ≡ S.left input.old)
        × (S.faults input.new ≡ S.faults input.old) }
    ensures unmonitored { (close : Bool) → AskMonitor words.now close → (S.left input.new ≡ S.left input.old)
        × (S.faults input.new ≡ S.faults input.old) }
    ensures only_writes { (seed count : ℕ) → AskSelftest words.now seed count → OnlyWrites
        (around_of S.Source W.Sink C.Clock T.Tree L.Listener input.old output.old clock.old tree.old listener.old disk.old)
        (around_of S.Source W.Sink C.Clock T.Tree L.Listener input.new output.new clock.new tree.new listener.new disk.new) }
    ensures out { L.out listener.new ≡ L.out listener.old }
    ensures unheard { is_heard (asked words.now) ≡ false → listener.new ≡ listener.old }
    ensures unchanged { T.files tree.new ≡ T.files tree.old }

    // The causes of the other statuses, and that no count of faults falls.
    ensures input { result ≡ Status.Input → Rose (S.faults input.old) (S.faults input.new) ⊎ Rose (T.faults tree.old) (T.faults tree.new) }
    ensures output { result ≡ Status.Output → Rose (W.faults output.old) (W.faults output.new) }
    ensures disk { result ≡ Status.DiskFault → Rose (D.Disk.faults disk.old) (D.Disk.faults disk.new) }
    ensures listener { result ≡ Status.ListenerFault → Rose (L.faults listener.old) (L.faults listener.new) }
    // A disk that tells what it reads, and whose images at the start stand for some history, is
    // never damaged.
    ensures undamaged { result ≡ Status.Damaged → FromStart D.Disk disk.old (λ past. ⊥) }
    // Whatever the disk held: the line of `Damaged` names a file and a place where, as the disk read
    // at the start, a log was damaged, and nothing was mounted; or where, as it reads at the exit,
    // the file ends or no record of a bucket stands, once a store was mounted; or `meta/1 at 0`,
    // where what a mounted store has in memory contradicts itself. And `Full` comes only where, as
    // the disk read, the store has had its last run; or from one that was mounted; or, of a
    // selftest, where the store that it makes has no room.
    ensures blamed { result ≡ Status.Damaged → NamesDamage D.Disk disk.old disk.new
        (side (W.faults output.old) (W.given output.old)) (side (W.faults output.new) (W.given output.new)) }
    ensures full { result ≡ Status.Full → LacksRoom (asked words.now) D.Disk disk.old }
    // A disk that tells what it reads goes on telling.
    ensures told { IsTold D.Disk disk.old → IsTold D.Disk disk.new }
    ensures disk_later { D.Disk.faults disk.old ≤ D.Disk.faults disk.new }
    ensures heard_later { L.faults listener.old ≤ L.faults listener.new }
    ensures read_later { S.faults input.old ≤ S.faults input.new }
    ensures written_later { W.faults output.old ≤ W.faults output.new }
    ensures tree_later { T.faults tree.old ≤ T.faults tree.new }
    ensures missing_later { T.missing tree.old ≤ T.missing tree.new }
{
    answer(alloc, words, input, output, clock, tree, disk, listener)
}
