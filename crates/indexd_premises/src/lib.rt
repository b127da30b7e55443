//! A guard: a sentence whose premises nobody can meet says nothing, and no wrong body of code shows
//! it. What `top` says of runs over a store has premises: a chooser of settings, a history for
//! which the images at the start stand, a disk that tells what it reads. Here the program runs over
//! an empty disk in memory, which meets them all, and what is said of that run has no premise on
//! histories left. So the gate fails where a definition changes into one that nothing meets.
//! Whoever adds a premise to `MayRun` of `indexd_core` shows here what meets it.
#![tactic(auto)]

ghost use Rattle.std.specs.Prelude.{◌≡◌, ℕ, Bool, [], true};
ghost use Rattle.ix_model.specs.Given.{Chooser};
ghost use Rattle.indexd_run.specs.Opened.{past_of};
ghost use Rattle.indexd_core.specs.Chain.{MayRun};
ghost use Rattle.indexd_core.specs.Commands.{is_task, AskStore, AskFeed, AskServe, AskMonitor, AskSelftest};
ghost use Rattle.indexd_core.specs.Prepared.{Stated};
ghost use Rattle.indexd_core.specs.Starts.{IsBlank, IsStart};
ghost use Rattle.indexd_cli.specs.Orders.{asked};
ghost use Rattle.indexd_premises.specs.Standing.{GoesOn, HasListed, IsLeftOpen, IsOverStore};

#[cfg(test)]
mod tests;

use indexd_core::{
    Status, an_empty_disk_may_run, an_exit_is_a_stop, blank_disks_are_starts, monitors_leave,
    runs_leave, the_next_run_may_begin, top,
};
use ix_base::{Clock, FailPlan, Sink, Source, Text};
use ix_disk::{Disk, MemDisk};
use ix_fs::Tree;
use ix_net::Listener;
use std::alloc::Global;

/// An empty disk in memory. It meets all that the clauses of `top` ask of a start.
pub fn empty_disk(alloc: Global) -> MemDisk
    ensures blank { IsBlank ⟦<MemDisk as Disk>⟧ result }
    ensures begins { (choose : Chooser) × MayRun ⟦<MemDisk as Disk>⟧ (past_of choose [] 0 0) result }
    ensures start { IsStart ⟦<MemDisk as Disk>⟧ result }
{
    ix_state::choosers_exist();
    an_empty_disk_may_run::<MemDisk>();
    blank_disks_are_starts::<MemDisk>();
    MemDisk::new(alloc, FailPlan::none(alloc))
}

/// Runs the program over an empty disk in memory, and answers with its status the disk that it
/// leaves. Nothing is damaged, whatever the status is a second run may begin there, and at 0 every
/// image that a crash may leave stands for all of one history of commands and for a run that was
/// begun, so that the second one has a greater number.
pub fn first_run<S: Source, W: Sink, C: Clock, T: Tree, L: Listener>(
    alloc: Global,
    words: &[Text],
    input: &mut S,
    output: &mut W,
    clock: &mut C,
    tree: &mut T,
    listener: &mut L,
) -> (Status, MemDisk)
    ensures undamaged { result.0 ≡ Status.Damaged → ⊥ }
    ensures task { is_task (asked words.now) ≡ true → GoesOn result.0 ⟦<MemDisk as Disk>⟧ result.1 }
    ensures stored { (stated : Stated) → AskStore words.now stated → GoesOn result.0 ⟦<MemDisk as Disk>⟧ result.1 }
    ensures fed { AskFeed words.now → GoesOn result.0 ⟦<MemDisk as Disk>⟧ result.1 }
    ensures served { (port requests : ℕ) → AskServe words.now port requests → GoesOn result.0 ⟦<MemDisk as Disk>⟧ result.1 }
    ensures monitored { (close : Bool) → AskMonitor words.now close → GoesOn result.0 ⟦<MemDisk as Disk>⟧ result.1 }
    // What a selftest writes is said of every chooser, and so of one that there is.
    ensures tested { (seed count : ℕ) → AskSelftest words.now seed count → result.0 ≡ Status.Done →
        HasListed seed count (W.given output.old) (W.given output.new) }
{
    runs_leave::<MemDisk>();
    monitors_leave::<MemDisk>();
    an_exit_is_a_stop::<MemDisk>();
    the_next_run_may_begin::<MemDisk, MemDisk>();
    let mut disk = empty_disk(alloc);
    let status = top(
        alloc, words, input, output, clock, tree, &mut disk, listener,
    );
    (status, disk)
}

/// Runs the program twice over one disk in memory, which is empty at first: on `words`, and behind
/// that on `again`; and answers with the second status the disk that is left. What the first run
/// leaves meets all that the clauses of `top` ask of a start, whatever its status is. So nothing is
/// damaged in the second one either, and a third may begin behind it.
pub fn second_run<S: Source, W: Sink, C: Clock, T: Tree, L: Listener>(
    alloc: Global,
    words: &[Text],
    again: &[Text],
    input: &mut S,
    output: &mut W,
    clock: &mut C,
    tree: &mut T,
    listener: &mut L,
) -> (Status, MemDisk)
    ensures undamaged { IsOverStore words.now → result.0 ≡ Status.Damaged → ⊥ }
    ensures goes_on { IsOverStore words.now → IsOverStore again.now → IsLeftOpen ⟦<MemDisk as Disk>⟧ result.1 }
{
    runs_leave::<MemDisk>();
    monitors_leave::<MemDisk>();
    an_exit_is_a_stop::<MemDisk>();
    the_next_run_may_begin::<MemDisk, MemDisk>();
    let (_first, mut disk) = first_run(alloc, words, input, output, clock, tree, listener);
    let ended = top(
        alloc, again, input, output, clock, tree, &mut disk, listener,
    );
    (ended, disk)
}
