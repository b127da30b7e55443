//! A log that is cut or changed.

use crate::said::{compare, note};
use crate::script::{empty, file, last_of, live};
use ix_base::{Area, Failed, File};
use ix_commit::{MountFault, mount};
use ix_disk::{Disk, MemDisk};
use ix_manifest::PlainBook;
use std::alloc::Global;

/// The log after a mount and a group, spelled by hand: the settings, of which there are none, with
/// run 1, and the last moment 1. Behind it stands a gate that is not open.
const LOG: &[u8; 42] =
    b"\x01\x00\x00\x00\x0e\x01\x00\x00\x00\x00\x02\x00\x00\x00\x00\x00\x00\x00\x01\x01\x00\x00\x00\x11\x03\x00\x00\x00\x00\x00\x00\x00\x01\x00\x00\x00\x00\x00\x00\x00\x00\x00";

/// Puts bytes at the front of a file.
fn put(disk: &mut MemDisk, file: File, bytes: &[u8]) -> Result<(), Failed> {
    disk.write_at(file, 0, bytes)?;
    disk.sync(file)
}

/// What a mount of a disk says: the place of damage in this log, or the last moment of what it
/// found, with 1000 added, or 2000 where no run has a number, and 500 otherwise.
fn mounted(alloc: Global, disk: &mut MemDisk, log: File) -> u64 {
    let mut book = PlainBook::new(alloc);
    let fault = mount(alloc, disk, &mut book).err();
    let last = last_of(&book).unsigned_abs();
    drop(book);
    match fault {
        None => 1000 + last,
        Some(MountFault::Damaged { file, at }) if file == log => at,
        Some(MountFault::Full) => 2000,
        Some(_) => 500,
    }
}

/// What a mount says of a log.
fn said(alloc: Global, log: &[u8]) -> u64 {
    let mut disk = empty(alloc);
    let name = file(Area::Meta, 1);
    let _ = put(&mut disk, name, log);
    let said = mounted(alloc, &mut disk, name);
    drop(disk);
    said
}

/// Writes what the log holds, of 64 bytes at the most, where it is anything else than this.
fn note_log(text: &mut String, disk: &mut MemDisk, wanted: &[u8]) {
    let mut found = [0; 64];
    let n = disk.read(file(Area::Meta, 1), 0, &mut found).unwrap_or(0);
    let found = found.get(..n).unwrap_or(&[]);
    if found != wanted {
        note(text, found);
    }
}

fn life_said(alloc: Global) -> String {
    let mut text = String::new(alloc);
    let mut disk = empty(alloc);
    note(&mut text, live(alloc, &mut disk, 1));
    note_log(&mut text, &mut disk, LOG);
    drop(disk);
    text
}

#[test]
fn a_log_is_spelled_so(rt: HostRuntime) {
    compare(&rt, life_said(rt.alloc()), "1 ");
}

/// Writes the place, where something else was found there than is wanted.
fn note_unlike(text: &mut String, place: usize, found: u64, wanted: u64) {
    if found != wanted {
        note(text, (place, found));
    }
}

/// How many bytes of the log there are, from and to, and what a mount says then.
static CUT: [(usize, usize, u64); 4] = [(0, 1, 1000), (2, 19, 0), (20, 41, 19), (42, 42, 1001)];

fn cuts_unlike(alloc: Global) -> String {
    let mut text = String::new(alloc);
    for (from, to, wanted) in &CUT {
        for n in *from..=*to {
            let found = said(alloc, LOG.get(..n).unwrap_or(&[]));
            note_unlike(&mut text, n, found, *wanted);
        }
    }
    text
}

/// The first and the last place of each part of the log, and that of the gate in front of it.
static GATES: [(usize, usize, u64); 3] = [(0, 18, 0), (19, 40, 19), (41, 41, 41)];

/// Writes where a mount finds damage elsewhere than at the gate, when a byte of the log is changed.
fn note_changes(text: &mut String, alloc: Global, place: usize, gate: u64) {
    for byte in [0, 1, 2, 255] {
        let mut log = *LOG;
        if let Some(old) = log.get_mut(place) {
            *old = byte;
        }
        let found = said(alloc, &log);
        if found < 1000 {
            note_unlike(text, place, found, gate);
        }
    }
}

fn changes_unlike(alloc: Global) -> String {
    let mut text = String::new(alloc);
    for (from, to, gate) in &GATES {
        for place in *from..=*to {
            note_changes(&mut text, alloc, place, *gate);
        }
    }
    text
}

#[test]
fn a_cut_log_is_an_older_one_or_damage_at_its_gate(rt: HostRuntime) {
    compare(&rt, cuts_unlike(rt.alloc()), "");
    compare(&rt, changes_unlike(rt.alloc()), "");
}

/// The root log after a checkpoint: it names log 2.
const ROOT: &[u8; 14] = b"\x01\x00\x00\x00\x08\x00\x00\x00\x00\x00\x00\x00\x02\x00";

/// What a mount says of a root log beside that log as `meta/2`.
fn said_of_root(alloc: Global, root: &[u8]) -> u64 {
    let mut disk = empty(alloc);
    let name = file(Area::Meta, 0);
    let _ = put(&mut disk, name, root);
    let _ = put(&mut disk, file(Area::Meta, 2), LOG);
    let said = mounted(alloc, &mut disk, name);
    drop(disk);
    said
}

/// How many bytes of the root log there are, from and to, and what a mount says then.
static ROOT_CUT: [(usize, usize, u64); 3] = [(0, 1, 1000), (2, 13, 0), (14, 14, 1001)];

fn root_cuts_unlike(alloc: Global) -> String {
    let mut text = String::new(alloc);
    for (from, to, wanted) in &ROOT_CUT {
        for n in *from..=*to {
            let found = said_of_root(alloc, ROOT.get(..n).unwrap_or(&[]));
            note_unlike(&mut text, n, found, *wanted);
        }
    }
    text
}

/// What a mount says of a root log with a byte in place of this one.
fn wanted_of_root(place: usize, old: u8, byte: u8) -> u64 {
    match place {
        _ if byte == old => 1001,
        0 => 1000,
        1..=12 => 0,
        _ if byte == 1 => 13,
        _ => 1001,
    }
}

fn root_changes_unlike(alloc: Global) -> String {
    let mut text = String::new(alloc);
    for place in 0..14 {
        for byte in [0, 1, 2, 255] {
            let mut root = *ROOT;
            root[place] = byte;
            let wanted = wanted_of_root(place, ROOT[place], byte);
            note_unlike(&mut text, place, said_of_root(alloc, &root), wanted);
        }
    }
    text
}

#[test]
fn a_cut_or_changed_root_log_names_no_log_or_is_damage_at_its_gate(rt: HostRuntime) {
    compare(&rt, root_cuts_unlike(rt.alloc()), "");
    compare(&rt, root_changes_unlike(rt.alloc()), "");
}

/// Writes what two mounts say, and how long the log is behind each.
fn note_mounts(text: &mut String, alloc: Global, disk: &mut MemDisk) {
    for _ in 0..2 {
        let name = file(Area::Meta, 1);
        note(text, mounted(alloc, disk, name));
        note(text, disk.length(name).unwrap_or(0));
    }
}

/// The log after two mounts: each has a body of its own for its run.
const RUNS: &[u8] =
    b"\x01\x00\x00\x00\x0e\x01\x00\x00\x00\x00\x02\x00\x00\x00\x00\x00\x00\x00\x01\x01\x00\x00\x00\x09\x02\x00\x00\x00\x00\x00\x00\x00\x02\x00";

fn runs_said(alloc: Global) -> String {
    let mut text = String::new(alloc);
    let mut disk = empty(alloc);
    note_mounts(&mut text, alloc, &mut disk);
    note_log(&mut text, &mut disk, RUNS);
    drop(disk);
    text
}

#[test]
fn each_mount_writes_its_run_in_a_body_of_its_own(rt: HostRuntime) {
    compare(&rt, runs_said(rt.alloc()), "1000 20 1000 34 ");
}

/// A log of the settings, of which there are none, and the last run but one that has a number.
const LATE: &[u8] =
    b"\x01\x00\x00\x00\x0e\x01\x00\x00\x00\x00\x02\x7f\xff\xff\xff\xff\xff\xff\xfe\x00";

fn last_runs_said(alloc: Global) -> String {
    let mut text = String::new(alloc);
    let mut disk = empty(alloc);
    let _ = put(&mut disk, file(Area::Meta, 1), LATE);
    note_mounts(&mut text, alloc, &mut disk);
    drop(disk);
    text
}

#[test]
fn a_store_is_full_behind_its_last_run(rt: HostRuntime) {
    compare(&rt, last_runs_said(rt.alloc()), "1000 34 2000 34 ");
}
