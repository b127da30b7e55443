//! Disks of the machine, and what is done with disks in memory too. All tests that need a disk of the machine have it from
//! here, since each function that holds one is proved slowly.

use crate::disk::{Step, note_steps};
use crate::made::empty;
use crate::said::note;
use crate::{archive, bucket, log};
use ix_disk::{Disk, HostDisk, LockFiles};
use std::alloc::Global;

/// What is done with any disk.
#[derive(Clone, Copy)]
pub enum Work {
    /// Copies of the first bytes of a file.
    Copies,
    /// Records of events, and readers of them.
    Records,
    /// A log of bodies.
    Bodies,
}

/// What is done with a disk of the machine.
#[derive(Clone, Copy)]
enum MachineWork<'a> {
    Any(Work),
    /// These steps, one behind the other.
    Steps(&'a [Step]),
}

/// Does the work that any disk takes.
fn note_any<D: Disk>(text: &mut String, alloc: Global, disk: &mut D, work: Work) {
    match work {
        Work::Copies => archive::note_run(text, disk),
        Work::Records => bucket::note_run(text, alloc, disk),
        Work::Bodies => log::note_kept(text, alloc, disk),
    }
}

/// What the work answers on a disk in memory.
pub fn memory_said(alloc: Global, work: Work) -> String {
    let mut text = String::new(alloc);
    let mut disk = empty(alloc);
    note_any(&mut text, alloc, &mut disk, work);
    drop(disk);
    text
}

/// Does the work with the first disk. The second one is of the same files.
fn note_work<R: LockFiles + AllocGlobal + Drop>(
    text: &mut String,
    rt: &R,
    disk: &mut HostDisk<R>,
    beside: &mut HostDisk<R>,
    work: MachineWork<'_>,
) {
    match work {
        MachineWork::Steps(steps) => note_steps(text, rt, disk, beside, steps),
        MachineWork::Any(work) => note_any(text, rt.alloc(), disk, work),
    }
}

/// Writes what the work answers on a disk of the machine, and how many calls of that disk failed, where one did.
fn note_machine<R: LockFiles + AllocGlobal + Copy + Drop>(
    text: &mut String,
    rt: R,
    work: MachineWork<'_>,
) {
    let mut disk = HostDisk::new(rt.alloc(), rt);
    let mut beside = HostDisk::new(rt.alloc(), rt);
    note_work(text, &rt, &mut disk, &mut beside, work);
    drop(beside);
    let faults = disk.faults();
    drop(disk);
    if faults > 0 {
        note(text, faults);
    }
}

/// What the work answers on a disk of the machine, and how many calls of that disk failed, where one did.
pub fn machine_said(rt: &HostRuntime, work: Work) -> String {
    let mut text = String::new(rt.alloc());
    note_machine(&mut text, rt, MachineWork::Any(work));
    text
}

/// What the steps answer on a disk of the machine, one behind the other, and how many calls of that disk failed.
pub fn steps_said(rt: &HostRuntime, steps: &[Step]) -> String {
    let mut text = String::new(rt.alloc());
    note_machine(&mut text, rt, MachineWork::Steps(steps));
    text
}
