//! The log of bodies: what it reads of any bytes, and what stops and crashes leave of it. What a log says is one text, and
//! each is compared with one that was written by hand.

ghost use Rattle.std.specs.Prelude.{◌≡◌, ◌<◌, ◌+◌, ◌^◌, IfOk, OnOk, IsTrue, length};
ghost use Rattle.ix_log.specs.Log.{IsMounted, IsUsable, put_so_far};

use crate::machine::{Work, machine_said};
use crate::made::{bytes_of, empty};
use crate::said::{compare, compare_none, note};
use ix_base::{Area, Bytes, Failed, File, NoMemory};
use ix_disk::{Disk, MemDisk, OneFail, StopDisk};
use ix_log::{Log, LogFault, one_list};
use std::alloc::Global;

const LOG: File = File {
    area: Area::Meta,
    number: 1,
};

/// Three bodies, spelled by hand: "ab", none and "c", and a gate that is not open.
const THREE: &[u8] = b"\x01\x00\x00\x00\x02ab\x01\x00\x00\x00\x00\x01\x00\x00\x00\x01c\x00";

const THREE_SAID: &[u8] = b"ab..c. None 18";

/// Writes what was found, with a number, where it is not what is wanted.
fn note_unlike(text: &mut String, number: usize, found: Bytes, wanted: &[u8]) {
    if found.as_slice() != wanted {
        note(text, number);
        note(text, found.as_slice());
    }
    drop(found);
}

/// A disk whose log is this file.
fn disk_of(alloc: Global, file: &[u8]) -> MemDisk {
    let mut disk = empty(alloc);
    let _ = disk.write_at(LOG, 0, file);
    let _ = disk.sync(LOG);
    disk
}

/// Writes a body with a dot behind it.
fn note_body(text: &mut Bytes, body: &[u8]) {
    let _ = text.extend(body);
    let _ = text.push(b'.');
}

/// Writes where damage was found, and where the log stands.
fn note_end(text: &mut Bytes, alloc: Global, damaged: Option<u64>, place: u64) {
    let mut end = String::new(alloc);
    note(&mut end, damaged);
    note(&mut end, place);
    let _ = text.push(b' ');
    let _ = text.extend(end.as_str().trim_end().as_bytes());
    drop(end);
}

/// Writes what is left of a log: its bodies with a dot behind each, where it found damage, and where it stands then.
fn note_log<D: Disk>(text: &mut Bytes, alloc: Global, disk: &mut D, log: &mut Log)
    requires { IsMounted D.Disk log.old disk.old }
{
    let mut out = Bytes::new(alloc);
    for _ in 0..1000 {
        match log.next(disk, &mut out) {
            Ok(true) => note_body(text, out.as_slice()),
            Ok(false) => {
                note_end(text, alloc, None, log.place());
                break;
            }
            Err(LogFault::Damaged { at }) => {
                note_end(text, alloc, Some(at), log.place());
                break;
            }
            Err(_) => break,
        }
    }
    drop(out);
}

/// What the log says.
fn said<D: Disk>(alloc: Global, disk: &mut D) -> Bytes {
    let mut text = Bytes::new(alloc);
    if let Ok(mut log) = Log::mount(alloc, disk, LOG) {
        note_log(&mut text, alloc, disk, &mut log);
        drop(log);
    }
    text
}

/// What the log of a file says.
fn said_of(alloc: Global, file: &[u8]) -> Bytes {
    let mut disk = disk_of(alloc, file);
    let text = said(alloc, &mut disk);
    drop(disk);
    text
}

/// Reads the log to its end.
fn reach_end<D: Disk>(log: &mut Log, disk: &mut D, out: &mut Bytes) -> Result<(), LogFault>
    requires mounted { IsMounted D.Disk log.old disk.old }
    requires none_put { put_so_far log.old ≡ 0 }
    ensures usable { OnOk result (IsUsable D.Disk log.new disk.new) }
    ensures counted { OnOk result (put_so_far log.new ≡ 0) }
{
    for _ in 0..1000 {
        if !log.next(disk, out)? {
            return Ok(());
        }
    }
    Err(LogFault::Disk)
}

/// The log, read to its end.
fn read_to_end<D: Disk>(alloc: Global, disk: &mut D) -> Result<Log, LogFault>
    ensures usable { IfOk result (λ log. IsUsable D.Disk log disk.new) }
    ensures counted { IfOk result (λ log. put_so_far log ≡ 0) }
{
    let mut log = Log::mount(alloc, disk, LOG)?;
    let mut out = Bytes::new(alloc);
    let ended = reach_end(&mut log, disk, &mut out);
    drop(out);
    match ended {
        Ok(()) => Ok(log),
        Err(fault) => {
            drop(log);
            Err(fault)
        }
    }
}

/// Puts a body in two pieces.
fn put_two<D: Disk>(log: &mut Log, disk: &mut D, first: &[u8], second: &[u8]) -> Result<(), Failed>
    requires usable { IsUsable D.Disk log.old disk.old }
    requires none_put { put_so_far log.old ≡ 0 }
    requires first { length first.now < 1000 }
    requires second { length second.now < 1000 }
{
    log.put(disk, first)?;
    log.put(disk, second)?;
    log.finish(disk)
}

/// Adds a body in two pieces.
fn add<D: Disk>(alloc: Global, disk: &mut D, first: &[u8], second: &[u8]) -> Result<(), LogFault>
    requires first { length first.now < 1000 }
    requires second { length second.now < 1000 }
{
    let mut log = read_to_end(alloc, disk)?;
    let put = put_two(&mut log, disk, first, second);
    drop(log);
    Ok(put?)
}

/// Puts the bodies of `THREE` into an empty log, and writes what that answered.
fn note_three<D: Disk>(text: &mut String, alloc: Global, disk: &mut D) {
    note(text, add(alloc, disk, b"a", b"b"));
    note(text, add(alloc, disk, b"", b""));
    note(text, add(alloc, disk, b"", b"c"));
}

/// How many bytes of `THREE` there are, from and to, and what the log says then.
static CUT: [(usize, usize, &[u8]); 5] = [
    (0, 1, b" None 0"),
    (2, 7, b" Some(0) 0"),
    (8, 12, b"ab. Some(7) 7"),
    (13, 18, b"ab.. Some(12) 12"),
    (19, 19, THREE_SAID),
];

fn note_cuts(text: &mut String, alloc: Global, row: (usize, usize, &[u8])) {
    let (from, to, want) = row;
    for n in from..=to {
        let found = said_of(alloc, THREE.get(..n).unwrap_or(THREE));
        note_unlike(text, n, found, want);
    }
}

fn cuts_unlike(alloc: Global, rows: &[(usize, usize, &[u8])]) -> String {
    let mut text = String::new(alloc);
    for row in rows {
        note_cuts(&mut text, alloc, *row);
    }
    text
}

#[test]
fn a_log_that_is_cut_says_what_is_left(rt: HostRuntime) {
    one_list();
    compare_none(&rt, cuts_unlike(rt.alloc(), &CUT));
}

/// The first and the last place of `THREE` where another byte is put, these bytes, and what the log says then.
type Changed = (usize, usize, &'static [u8], &'static [u8]);

static CHANGED: [Changed; 30] = [
    (0, 0, b"\x00\x05\xff", b" None 0"),
    // the length of the first body
    (1, 3, b"\x01\x05\xff", b" Some(0) 0"),
    (4, 4, b"\x00", b". None 5"),
    (4, 4, b"\x01", b"a. None 6"),
    (4, 4, b"\x05", b"ab\x01\x00\x00. None 10"),
    (4, 4, b"\xff", b" Some(0) 0"),
    // its bytes
    (5, 5, b"\x00", b"\x00b..c. None 18"),
    (5, 5, b"\x01", b"\x01b..c. None 18"),
    (5, 5, b"\x05", b"\x05b..c. None 18"),
    (5, 5, b"\xff", b"\xffb..c. None 18"),
    (6, 6, b"\x00", b"a\x00..c. None 18"),
    (6, 6, b"\x01", b"a\x01..c. None 18"),
    (6, 6, b"\x05", b"a\x05..c. None 18"),
    (6, 6, b"\xff", b"a\xff..c. None 18"),
    // the gate and the length of the second one
    (7, 7, b"\x00\x05\xff", b"ab. None 7"),
    (8, 10, b"\x01\x05\xff", b"ab. Some(7) 7"),
    (11, 11, b"\x01", b"ab.\x01. None 13"),
    (11, 11, b"\x05", b"ab.\x01\x00\x00\x00\x01. None 17"),
    (11, 11, b"\xff", b"ab. Some(7) 7"),
    // those of the third one
    (12, 12, b"\x00\x05\xff", b"ab.. None 12"),
    (13, 15, b"\x01\x05\xff", b"ab.. Some(12) 12"),
    (16, 16, b"\x00", b"ab... None 17"),
    (16, 16, b"\x05\xff", b"ab.. Some(12) 12"),
    (17, 17, b"\x00", b"ab..\x00. None 18"),
    (17, 17, b"\x01", b"ab..\x01. None 18"),
    (17, 17, b"\x05", b"ab..\x05. None 18"),
    (17, 17, b"\xff", b"ab..\xff. None 18"),
    // the gate behind them all
    (18, 18, b"\x01", b"ab..c. Some(18) 18"),
    (18, 18, b"\x05\xff", THREE_SAID),
    (19, 19, b"\x00\x01\x05\xff", THREE_SAID),
];

/// What the log of `THREE` says where a byte is put at a place.
fn said_changed(alloc: Global, place: usize, byte: u8) -> Bytes {
    let mut file = [0u8; 19];
    for (at, old) in THREE.iter().enumerate() {
        if let Some(new) = file.get_mut(at) {
            *new = if at == place { byte } else { *old };
        }
    }
    said_of(alloc, &file)
}

/// Writes the places where the log says anything else than this when one of the bytes is put there.
fn note_changes(text: &mut String, alloc: Global, place: usize, bytes: &[u8], want: &[u8]) {
    for byte in bytes {
        note_unlike(text, place, said_changed(alloc, place, *byte), want);
    }
}

fn note_changed(text: &mut String, alloc: Global, row: Changed) {
    let (from, to, bytes, want) = row;
    for place in from..=to {
        note_changes(text, alloc, place, bytes, want);
    }
}

fn changes_unlike(alloc: Global, rows: &[Changed]) -> String {
    let mut text = String::new(alloc);
    for row in rows {
        note_changed(&mut text, alloc, *row);
    }
    text
}

#[test]
fn a_log_that_is_changed_says_what_its_bytes_say(rt: HostRuntime) {
    compare_none(&rt, changes_unlike(rt.alloc(), &CHANGED));
}

/// What logs with lengths that pass the end say otherwise than that this is damage.
fn long_unlike(alloc: Global) -> String {
    let mut text = String::new(alloc);
    let want = b" Some(0) 0";
    note_unlike(
        &mut text,
        0,
        said_of(alloc, b"\x01\xff\xff\xff\xffab\x00"),
        want,
    );
    note_unlike(
        &mut text,
        1,
        said_of(alloc, b"\x01\x00\x00\x00\x03ab\x00"),
        want,
    );
    note_unlike(&mut text, 2, said_of(alloc, b"\x01\xff"), want);
    text
}

#[test]
fn a_length_that_passes_the_end_is_damage(rt: HostRuntime) {
    compare_none(&rt, long_unlike(rt.alloc()));
}

/// The first 24 bytes of the log's file.
fn file_of<D: Disk>(alloc: Global, disk: &mut D) -> Bytes {
    let mut buf = [0xEE; 24];
    let n = disk.read(LOG, 0, &mut buf).unwrap_or(0);
    bytes_of(alloc, buf.get(..n).unwrap_or(&[]))
}

fn put_said(alloc: Global) -> String {
    let mut text = String::new(alloc);
    let mut disk = empty(alloc);
    note_three(&mut text, alloc, &mut disk);
    note_unlike(&mut text, 0, file_of(alloc, &mut disk), THREE);
    drop(disk);
    text
}

#[test]
fn bodies_that_are_put_are_read(rt: HostRuntime) {
    compare(&rt, put_said(rt.alloc()), "Ok(()) Ok(()) Ok(()) ");
}

/// Writes what it answers to put the bodies where no log is left, and what the log says then, if that is anything else.
pub fn note_kept<D: Disk>(text: &mut String, alloc: Global, disk: &mut D) {
    note(text, disk.remove(LOG));
    note_three(text, alloc, disk);
    note_unlike(text, 0, said(alloc, disk), THREE_SAID);
}

#[test]
fn bodies_are_kept_in_a_real_file(rt: HostRuntime) {
    let wanted = "Ok(()) Ok(()) Ok(()) Ok(()) ";
    compare(&rt, machine_said(&rt, Work::Bodies), wanted);
}

/// Sizes of bodies. The log is read in pieces of 262,144 bytes: the first one ends with the third body, the fourth body is
/// longer than one, and the third piece ends within the head behind the sixth body.
static SIZES: [u32; 7] = [0, 5, 262_124, 300_000, 5, 262_126, 7];

/// A body of so many bytes, which tell their places.
fn body_of(alloc: Global, size: u32) -> Result<Bytes, NoMemory>
    ensures { IfOk result (λ body. length body ≡ size) }
{
    let mut body = Bytes::new(alloc);
    for at in 0..size {
        body.push((at % 251) as u8)?;
    }
    Ok(body)
}

/// Puts a body in one piece.
fn put_one<D: Disk>(log: &mut Log, disk: &mut D, body: &[u8]) -> Result<(), Failed>
    requires usable { IsUsable D.Disk log.old disk.old }
    requires short { put_so_far log.old + length body.now < 2 ^ 32 }
{
    log.put(disk, body)?;
    log.finish(disk)
}

/// Writes what it answers to add a body of so many bytes.
fn note_sized<D: Disk>(text: &mut String, alloc: Global, disk: &mut D, size: u32) {
    if let Ok(body) = body_of(alloc, size) {
        if let Ok(mut log) = read_to_end(alloc, disk) {
            note(text, put_one(&mut log, disk, body.as_slice()));
            drop(log);
        }
        drop(body);
    }
}

fn is_body(alloc: Global, bytes: &[u8], size: u32) -> bool {
    match body_of(alloc, size) {
        Ok(body) => {
            let is_body = bytes == body.as_slice();
            drop(body);
            is_body
        }
        Err(NoMemory) => false,
    }
}

/// Whether the next body of the log is that of so many bytes.
fn is_next<D: Disk>(log: &mut Log, disk: &mut D, alloc: Global, size: u32) -> bool
    requires { IsMounted D.Disk log.old disk.old }
    ensures { IsTrue result → IsMounted D.Disk log.new disk.new }
{
    let mut out = Bytes::new(alloc);
    let next = log.next(disk, &mut out);
    let is_body = is_body(alloc, out.as_slice(), size);
    drop(out);
    match next {
        Ok(true) => is_body,
        _ => false,
    }
}

/// Whether the log has bodies of these sizes, and no others.
fn has_sizes<D: Disk>(log: &mut Log, disk: &mut D, alloc: Global) -> bool
    requires { IsMounted D.Disk log.old disk.old }
{
    for size in SIZES {
        if !is_next(log, disk, alloc, size) {
            return false;
        }
    }
    let mut out = Bytes::new(alloc);
    let next = log.next(disk, &mut out);
    drop(out);
    next == Ok(false)
}

fn sizes_said(alloc: Global) -> String {
    let mut text = String::new(alloc);
    let mut disk = empty(alloc);
    for size in SIZES {
        note_sized(&mut text, alloc, &mut disk, size);
    }
    let before = disk.asked(LOG);
    if let Ok(mut log) = Log::mount(alloc, &mut disk, LOG) {
        note(&mut text, has_sizes(&mut log, &mut disk, alloc));
        drop(log);
    }
    note(&mut text, disk.asked(LOG).saturating_sub(before));
    drop(disk);
    text
}

#[test]
fn a_log_is_read_in_pieces(rt: HostRuntime) {
    // Asked for are the length, four pieces, and the rest of the fourth body.
    let wanted = "Ok(()) Ok(()) Ok(()) Ok(()) Ok(()) Ok(()) Ok(()) true 6 ";
    compare(&rt, sizes_said(rt.alloc()), wanted);
}

/// A log of one body, and what an earlier try left behind its gate.
const ONE: &[u8] = b"\x01\x00\x00\x00\x02ab\x00\xEE\xEE";

/// What it says, and what it says with a second body.
const OLD: &[u8] = b"ab. None 7";

const MORE: &[u8] = b"ab.cd. None 14";

/// A sync and the length, one read, three writes of the body, and five calls for its gate.
const CALLS: u64 = 11;

/// What the log says on the disk that a crash leaves.
fn left_said(alloc: Global, disk: &MemDisk, torn: bool) -> Bytes {
    match disk.crash(torn) {
        Ok(mut left) => {
            let text = said(alloc, &mut left);
            drop(left);
            text
        }
        Err(NoMemory) => Bytes::new(alloc),
    }
}

/// Whether a second body is put where the disk stops before none of its calls, and a crash leaves it, or else the old one.
fn is_left(alloc: Global, calls: u64, torn: bool) -> bool {
    let mut stopped = StopDisk::new(disk_of(alloc, ONE), calls);
    let done = add(alloc, &mut stopped, b"c", b"d").is_ok();
    let disk = stopped.into_inner();
    let left = left_said(alloc, &disk, torn);
    drop(disk);
    let is_left = left.as_slice() == MORE || left.as_slice() == OLD && !done;
    drop(left);
    is_left && done == (calls >= CALLS)
}

/// The numbers of calls before which a stop leaves anything else.
fn stops_said(alloc: Global) -> String {
    let mut text = String::new(alloc);
    for calls in 0..20 {
        if !is_left(alloc, calls, false) || !is_left(alloc, calls, true) {
            note(&mut text, calls);
        }
    }
    text
}

#[test]
fn a_stop_leaves_the_old_bodies_or_one_more(rt: HostRuntime) {
    compare_none(&rt, stops_said(rt.alloc()));
}

fn is_old<D: Disk>(alloc: Global, disk: &mut D) -> bool {
    let left = said(alloc, disk);
    let is_old = left.as_slice() == OLD;
    drop(left);
    is_old
}

/// Writes what it answers to put a body. The body can be put then, where it was not.
fn note_put<D: Disk>(text: &mut String, alloc: Global, disk: &mut D) {
    note(text, add(alloc, disk, b"c", b"d"));
    if is_old(alloc, disk) {
        let _ = add(alloc, disk, b"c", b"d");
    }
    note_unlike(text, 0, said(alloc, disk), MORE);
}

/// Writes that of a disk of which one call fails.
fn note_told(text: &mut String, alloc: Global, number: u64) {
    let mut disk = OneFail::new(disk_of(alloc, ONE), number);
    note_put(text, alloc, &mut disk);
    drop(disk);
}

fn faults_said(alloc: Global) -> String {
    let mut text = String::new(alloc);
    for number in 0..=CALLS {
        note_told(&mut text, alloc, number);
    }
    text
}

#[test]
fn a_call_that_fails_is_told_and_done_again(rt: HostRuntime) {
    let wanted =
        "Err(Disk) Err(Disk) Err(Disk) Err(Disk) Err(Disk) Err(Disk) Err(Disk) Err(Disk) Err(Disk) \
        Err(Disk) Err(Disk) Ok(()) ";
    compare(&rt, faults_said(rt.alloc()), wanted);
}

/// Writes what a log that is begun anew answers where one call fails.
fn note_fault(text: &mut String, alloc: Global, number: u64) {
    let mut disk = OneFail::new(disk_of(alloc, THREE), number);
    note(text, Log::begin(alloc, &mut disk, LOG).err());
    drop(disk);
}

/// Begins the log anew, and puts a piece of a body.
fn note_piece<D: Disk>(text: &mut String, alloc: Global, disk: &mut D) {
    if let Ok(mut log) = Log::begin(alloc, disk, LOG) {
        note(text, log.put(disk, b"x"));
        drop(log);
    }
}

/// Begins the log anew, and puts a body.
fn note_one<D: Disk>(text: &mut String, alloc: Global, disk: &mut D) {
    if let Ok(mut log) = Log::begin(alloc, disk, LOG) {
        note(text, put_one(&mut log, disk, b"x"));
        drop(log);
    }
}

/// Writes what a crash leaves of three bodies where the log was begun anew, and what stands there with one put then.
fn note_begun(text: &mut String, alloc: Global, torn: bool) {
    let mut disk = disk_of(alloc, THREE);
    note_piece(text, alloc, &mut disk);
    if let Ok(mut left) = disk.crash(torn) {
        note_unlike(text, 0, said(alloc, &mut left), b" None 0");
        note_one(text, alloc, &mut left);
        note_unlike(text, 1, said(alloc, &mut left), b"x. None 6");
        drop(left);
    }
    drop(disk);
}

fn begun_said(alloc: Global) -> String {
    let mut text = String::new(alloc);
    // The removal, the gate and the sync.
    for number in 0..3 {
        note_fault(&mut text, alloc, number);
    }
    note_begun(&mut text, alloc, false);
    note_begun(&mut text, alloc, true);
    text
}

#[test]
fn a_log_that_is_begun_anew_is_empty(rt: HostRuntime) {
    let wanted = "Some(Disk) Some(Disk) Some(Disk) Ok(()) Ok(()) Ok(()) Ok(()) ";
    compare(&rt, begun_said(rt.alloc()), wanted);
}
