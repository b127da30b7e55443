//! Tests of `preview` from bytes to dated, merged and changed events.

use crate::tests::runs::{Files, PREVIEW, Run, repeated, run_of};
use crate::tests::shows::shows;
use std::alloc::Global;
use std::process::Abort;

/// Words, the moment in seconds, files of settings, input, and the events as `INDEX TIME HOST SOURCE TYPE RAW` with `;` behind each, a row behind
/// the other. A row that begins with `//` says something of those behind it.
const ROWS: &str = "\
    // the default settings: a dated line starts an event, the others go on it, and one that has no date takes the time before it¶\
    preview --host h --source s¦1700000000¦¦no date\n2023-11-14 22:10:01,000 Oops\n\tat a(A.java:1)\n\tat b(B.java:2)\n2023-11-14T22:10:05Z done\n¦main 1700000000 h s unknown no date;main 1699999801 h s unknown 2023-11-14 22:10:01,000 Oops\\n\\tat a(A.java:1)\\n\\tat b(B.java:2);main 1699999805 h s unknown 2023-11-14T22:10:05Z done;¶\
    // breaks stand before years alone¶\
    preview --host h --source s¦1704300000¦props:[default]\nSHOULD_LINEMERGE = false\nLINE_BREAKER = ([\\r\\n]+)(?=\\d{4}-)¦2024-01-02 03:04:05 x\n at y\n2024-01-03 03:04:06 z\n¦main 1704164645 h s unknown 2024-01-02 03:04:05 x\\n at y;main 1704251046 h s unknown 2024-01-03 03:04:06 z\\n;¶\
    // an hour that a zone's clocks pass over, and one that they show twice¶\
    preview --host h --source s¦1730620000¦props:[default]\nSHOULD_LINEMERGE = false\nTZ = US/Eastern\nTIME_FORMAT = %Y-%m-%d %H:%M:%S¦2024-03-10 02:30:00\n2024-11-03 01:30:00¦main 1710055800 h s unknown 2024-03-10 02:30:00;main 1730611800 h s unknown 2024-11-03 01:30:00;¶\
    // 2001 days old, alone and behind an accepted time, and exactly 2000 days old¶\
    preview --host h --source s¦1730620000¦props:[default]\nSHOULD_LINEMERGE = false\nTIME_FORMAT = %s¦1557733600 x¦main 1730620000 h s unknown 1557733600 x;¶\
    preview --host h --source s¦1730620000¦props:[default]\nSHOULD_LINEMERGE = false\nTIME_FORMAT = %s¦1730000000 a\n1557733600 x¦main 1730000000 h s unknown 1730000000 a;main 1730000000 h s unknown 1557733600 x;¶\
    preview --host h --source s¦1730620000¦props:[default]\nSHOULD_LINEMERGE = false\nTIME_FORMAT = %s¦1557820000 y¦main 1557820000 h s unknown 1557820000 y;¶\
    // syslog and an access log by the default settings¶\
    preview --host web1 --source /var/log/messages --sourcetype syslog¦1700000000¦¦Nov 14 22:10:01 web1 sshd[311]: Accepted publickey for ann\nNov 14 22:10:05 web1 kernel: eth0 up\n¦main 1699999801 web1 /var/log/messages syslog Nov 14 22:10:01 web1 sshd[311]: Accepted publickey for ann;main 1699999805 web1 /var/log/messages syslog Nov 14 22:10:05 web1 kernel: eth0 up;¶\
    preview --host web1 --source /var/log/access.log --sourcetype access_combined¦1700000000¦¦10.0.0.7 - - [14/Nov/2023:22:10:03 +0000] \"GET / HTTP/1.1\" 200 512\n¦main 1699999803 web1 /var/log/access.log access_combined 10.0.0.7 - - [14/Nov/2023:22:10:03 +0000] \"GET / HTTP/1.1\" 200 512;¶\
    // a number is masked, and what is masked decides what is dropped¶\
    preview --host h --source s¦1700000000¦props:[default]\nSHOULD_LINEMERGE = false\nSEDCMD-mask = s/\\d{4}-(\\d{4})/xxxx-\\1/g\nTRANSFORMS-drop = drop§transforms:[drop]\nREGEX = xxxx-4\nDEST_KEY = queue\nFORMAT = nullQueue¦card 1234-5678\npay 8765-4321¦main 1700000000 h s unknown card xxxx-5678;¶\
    // an event that is dropped still gives its time to the one behind it¶\
    preview --host h --source s¦1700000000¦props:[default]\nBREAK_ONLY_BEFORE = ^end\nTRANSFORMS-drop = drop§transforms:[drop]\nREGEX = debug\nDEST_KEY = queue\nFORMAT = nullQueue¦2023-11-14 22:10:01 start\n at a\n2023-11-14 22:10:05 debug\n at b\nend\n at c\n¦main 1699999801 h s unknown 2023-11-14 22:10:01 start\\n at a;main 1699999805 h s unknown end\\n at c;¶\
    // an event that is sent to an index which is not configured is not shown, or in the one for such events¶\
    preview --host h --source s¦1700000000¦props:[default]\nTRANSFORMS-r = toweb§transforms:[toweb]\nREGEX = .\nDEST_KEY = _MetaData:Index\nFORMAT = web¦a¦¶\
    preview --host h --source s¦1700000000¦props:[default]\nTRANSFORMS-r = toweb§transforms:[toweb]\nREGEX = .\nDEST_KEY = _MetaData:Index\nFORMAT = web§indexes:[default]\nlastChanceIndex = lost\n[lost]¦a¦lost 1700000000 h s unknown a;¶\
    preview --host h --source s¦1700000000¦props:[default]\nTRANSFORMS-r = toweb§transforms:[toweb]\nREGEX = .\nDEST_KEY = _MetaData:Index\nFORMAT = web§indexes:[web]¦a¦web 1700000000 h s unknown a;¶\
    // lines that do not start an event by a date but by a pattern, no more than two in one¶\
    preview --host h --source s¦1700000000¦props:[default]\nBREAK_ONLY_BEFORE_DATE = false\nBREAK_ONLY_BEFORE = ^#\nMAX_EVENTS = 2¦#1\n2023-11-14 22:10:01\nthird\n#2¦main 1699999801 h s unknown #1\\n2023-11-14 22:10:01;main 1699999801 h s unknown third;main 1699999801 h s unknown #2;";

/// The moment of a row, in microseconds.
fn moment_of(seconds: &str) -> i64 {
    let seconds: i64 = seconds.parse().unwrap_or(0);
    seconds.saturating_mul(1_000_000)
}

/// A row, of which each read takes so many bytes at the most.
fn check_read(rt: &impl Abort, alloc: Global, row: &str, most: usize) {
    let mut fields = row.split('¦');
    let line = fields.next().unwrap_or("");
    let moments = [moment_of(fields.next().unwrap_or(""))];
    let files = fields.next().unwrap_or("");
    let input = fields.next().unwrap_or("");
    let events = fields.next().unwrap_or("?");
    let run = Run {
        moments: &moments,
        most,
        ..run_of(line, files, input.as_bytes())
    };
    shows(rt, alloc, run, events);
}

/// Each row, byte by byte and in one read.
fn check_rows(rt: &impl Abort, alloc: Global, rows: &str) {
    for row in rows.split('¶') {
        if !row.starts_with("//") {
            check_read(rt, alloc, row, 1);
            check_read(rt, alloc, row, 1000);
        }
    }
}

#[test]
fn events_are_merged_dated_and_changed(rt: HostRuntime) {
    check_rows(&rt, rt.alloc(), ROWS);
}

const HELD: Files<'static> =
    "props:[default]\nBREAK_ONLY_BEFORE_DATE = false\nBREAK_ONLY_BEFORE = ^L\nMUST_NOT_BREAK_AFTER = ^BEGIN";

/// The line `BEGIN`, and 256 others.
fn held_lines(alloc: Global) -> String {
    let lines = repeated(alloc, "L\n", 256);
    let mut text = String::new(alloc);
    let _ = write!(text, "BEGIN\n{lines}");
    text
}

/// An event of 256 lines, and one of the last line.
fn held_events(alloc: Global) -> String {
    let lines = repeated(alloc, "\\nL", 255);
    let mut text = String::new(alloc);
    let _ = write!(
        text,
        "main 1700000000 h s unknown BEGIN{lines};main 1700000000 h s unknown L;"
    );
    text
}

/// A run over this input writes the lines of these events.
fn check_held(rt: &impl Abort, alloc: Global, input: String, events: String) {
    let run = Run {
        most: 1000,
        ..run_of(PREVIEW, HELD, input.as_bytes())
    };
    shows(rt, alloc, run, events.as_str());
}

/// A line `BEGIN` holds breaks back, and an event has at most 256 lines.
#[test]
fn held_lines_make_events_of_256_lines(rt: HostRuntime) {
    let alloc = rt.alloc();
    check_held(&rt, alloc, held_lines(alloc), held_events(alloc));
}
