//! Tests of `preview` over files of settings: which settings hold for what is previewed, and the line of each fault.

use crate::tests::runs::{DEFAULT, Files, PREVIEW, Run, compare, compare_texts, previewed, run_of};
use crate::tests::shows::shows;
use std::alloc::Global;
use std::process::Abort;

/// What is wrong with a file of settings, and the file, for each key that has values of a kind, and each file, with `¶` between.
const FAULTS: &str = "\
    etc/system/local/props.conf line 2: NoEquals¦props:[x]\nTRUNCATE 5\n¶\
    etc/system/local/props.conf line 3: BadStanza¦props:# a comment\n\n[x¶\
    etc/system/local/props.conf line 1: BadStanza¦props:[]¶\
    etc/system/local/props.conf line 1: NoEquals¦props:= 1¶\
    props [x] TRUNCATE: BadValue¦props:[x]\nTRUNCATE = -1¶\
    props [x] TRUNCATE: BadValue¦props:[x]\nTRUNCATE = 4294967296¶\
    props [x] TRUNCATE: BadValue¦props:[x]\nTRUNCATE = 1x¶\
    props [x] SHOULD_LINEMERGE: BadValue¦props:[x]\nSHOULD_LINEMERGE = maybe¶\
    props [x] BREAK_ONLY_BEFORE_DATE: BadValue¦props:[x]\nBREAK_ONLY_BEFORE_DATE = 2¶\
    props [x] BREAK_ONLY_BEFORE: BadPattern¦props:[x]\nBREAK_ONLY_BEFORE = (¶\
    props [x] MUST_BREAK_AFTER: BadPattern¦props:[x]\nMUST_BREAK_AFTER = a**¶\
    props [x] MUST_NOT_BREAK_AFTER: BadPattern¦props:[x]\nMUST_NOT_BREAK_AFTER = [b¶\
    props [x] MUST_NOT_BREAK_BEFORE: BadPattern¦props:[x]\nMUST_NOT_BREAK_BEFORE = (a|)*¶\
    props [x] LINE_BREAKER: BadPattern¦props:[x]\nLINE_BREAKER = \\n¶\
    props [x] LINE_BREAKER: BadPattern¦props:[x]\nLINE_BREAKER = (a)?¶\
    props [x] MAX_EVENTS: BadValue¦props:[x]\nMAX_EVENTS = 0¶\
    props [x] MAX_EVENTS: BadValue¦props:[x]\nMAX_EVENTS = 1000001¶\
    props [x] TIME_PREFIX: BadPattern¦props:[x]\nTIME_PREFIX = a{1,1001}¶\
    props [x] TIME_FORMAT: BadValue¦props:[x]\nTIME_FORMAT = %H:%M¶\
    props [x] TIME_FORMAT: BadValue¦props:[x]\nTIME_FORMAT = %Y-%m-%d %Q¶\
    props [x] TIME_FORMAT: BadValue¦props:[x]\nTIME_FORMAT = %Y-%m-%d %¶\
    props [x] MAX_TIMESTAMP_LOOKAHEAD: BadValue¦props:[x]\nMAX_TIMESTAMP_LOOKAHEAD = -2¶\
    props [x] MAX_TIMESTAMP_LOOKAHEAD: BadValue¦props:[x]\nMAX_TIMESTAMP_LOOKAHEAD = 1048577¶\
    props [x] TZ: UnknownZone¦props:[x]\nTZ = No/Where¶\
    props [x] MAX_DAYS_AGO: BadValue¦props:[x]\nMAX_DAYS_AGO = 10952¶\
    props [x] MAX_DAYS_HENCE: BadValue¦props:[x]\nMAX_DAYS_HENCE = 10951¶\
    props [x] SEDCMD-c: BadValue¦props:[x]\nSEDCMD-c = s/a/b¶\
    props [x] SEDCMD-c: BadPattern¦props:[x]\nSEDCMD-c = s/(/b/¶\
    props [x] SEDCMD-c: BadValue¦props:[x]\nSEDCMD-c = s/a/\\q/¶\
    props [x] SEDCMD-c: BadValue¦props:[x]\nSEDCMD-c = s/a/b/0¶\
    props [x] SEDCMD-c: BadValue¦props:[x]\nSEDCMD-c = y/ab/c/¶\
    props [x] SEDCMD-c: BadValue¦props:[x]\nSEDCMD-c = d¶\
    props [x] TRANSFORMS-c: UnknownTransform¦props:[x]\nTRANSFORMS-c = t¶\
    props [x] priority: BadValue¦props:[x]\npriority = 1000001¶\
    props [source::(a]: BadStanzaPattern¦props:[source::(a]¶\
    props [host::(?a)]: BadStanzaPattern¦props:[host::(?a)]\nTRUNCATE = -1¶\
    indexes [Main]: BadIndexName¦indexes:[Main]¶\
    indexes [_i]: BadIndexName¦indexes:[_i]¶\
    indexes [kvstore1]: BadIndexName¦indexes:[kvstore1]¶\
    indexes [i] maxDataSize: BadValue¦indexes:[i]\nmaxDataSize = 0¶\
    indexes [i] maxHotBuckets: BadValue¦indexes:[i]\nmaxHotBuckets = 1001¶\
    indexes [i] frozenTimePeriodInSecs: BadValue¦indexes:[i]\nfrozenTimePeriodInSecs = 0¶\
    indexes [default] lastChanceIndex: BadValue¦indexes:[default]\nlastChanceIndex = lost¶\
    indexes [default] rotatePeriodInSecs: BadValue¦indexes:[default]\nrotatePeriodInSecs = 0¶\
    props [x] SEDCMD-c: BadValue¦props:[y]\nTRUNCATE = -1\nMAX_EVENTS = 0\n[x]\nTZ = No\nSEDCMD-c = d";

/// What is wrong with the first of two files of settings that has a fault, and the files.
const PAIRS: &str = "\
    transforms [t] REGEX: BadValue¦props:[x]\nTRANSFORMS-c = t§transforms:[t]\nDEST_KEY = queue¶\
    transforms [t] REGEX: BadPattern¦props:[x]\nTRANSFORMS-c = t§transforms:[t]\nDEST_KEY = queue\nREGEX = (¶\
    transforms [t] DEST_KEY: BadValue¦props:[x]\nTRANSFORMS-c = t§transforms:[t]\nREGEX = a¶\
    transforms [t] DEST_KEY: BadValue¦props:[x]\nTRANSFORMS-c = t§transforms:[t]\nREGEX = a\nDEST_KEY = nowhere¶\
    transforms [t] SOURCE_KEY: BadValue¦props:[x]\nTRANSFORMS-c = t§transforms:[t]\nREGEX = a\nDEST_KEY = queue\nSOURCE_KEY = raw¶\
    transforms [t] LOOKAHEAD: BadValue¦props:[x]\nTRANSFORMS-c = t§transforms:[t]\nREGEX = a\nDEST_KEY = queue\nLOOKAHEAD = 0¶\
    transforms [t] WRITE_META: BadValue¦props:[x]\nTRANSFORMS-c = t§transforms:[t]\nREGEX = a\nDEST_KEY = queue\nWRITE_META = maybe¶\
    zones [Z] RULE: BadValue¦props:[x]\nTZ = Z§zones:[Z]\nRULE = nonsense¶\
    props [x] TZ: UnknownZone¦props:[x]\nTZ = Z§zones:[Z]¶\
    etc/system/local/zones.conf line 1: NoEquals¦props:[x]\nTRUNCATE = -1§zones:no¶\
    etc/system/local/inputs.conf line 1: NoEquals¦inputs:no§indexes:[Main]¶\
    props [x] TRUNCATE: BadValue¦props:[x]\nTRUNCATE = -1§indexes:[Main]";

/// A preview that reads byte by byte.
fn run_by_bytes<'a>(line: &'a str, files: Files<'a>, input: &'a str) -> Run<'a> {
    Run {
        most: 1,
        ..run_of(line, files, input.as_bytes())
    }
}

/// The line of a fault, behind its status.
fn line_of(alloc: Global, fault: &str) -> String {
    let mut text = String::new(alloc);
    let _ = text.push_str("3: indexd: configuration: ");
    let _ = text.push_str(fault);
    let _ = text.push_str("\n");
    text
}

fn check_fault(rt: &impl Abort, alloc: Global, row: &str) {
    let (fault, files) = row.split_once('¦').unwrap_or((row, ""));
    let found = previewed(alloc, run_by_bytes(PREVIEW, files, "a"));
    compare_texts(rt, fault, found, line_of(alloc, fault));
}

fn check_faults(rt: &impl Abort, alloc: Global, rows: &str) {
    for row in rows.split('¶') {
        check_fault(rt, alloc, row);
    }
}

#[test]
fn each_fault_is_told(rt: HostRuntime) {
    check_faults(&rt, rt.alloc(), FAULTS);
}

/// The grammar of all five files is judged before any value, then props.conf with what it names, and then indexes.conf.
#[test]
fn the_first_fault_is_told(rt: HostRuntime) {
    check_faults(&rt, rt.alloc(), PAIRS);
}

/// Words, a file of settings, input, and the events as `INDEX TIME HOST SOURCE TYPE RAW` with `;` behind each, a row behind the other. A row
/// that begins with `//` says something of those behind it.
const CHOICES: &str = "\
    // of three breakers in one pattern the group that took part is the break¶\
    preview --host h --source s¦props:[default]\nSHOULD_LINEMERGE = false\nLINE_BREAKER = end(\\n)begin|end2(\\n)begin2|begin3¦a end\nbegin b end2\nbegin2 c begin3 d¦main 1700000000 h s unknown a end;main 1700000000 h s unknown begin b end2;main 1700000000 h s unknown begin2 c ;main 1700000000 h s unknown begin3 d;¶\
    // `*` stands before `.` in the order of bytes, and a source's stanza beats a host's¶\
    preview --host web1 --source /a/x¦props:[host::WEB*]\nTRUNCATE = 3\n[source::/a/...]\nTRUNCATE = 4\n[source::/a/*]\nTRUNCATE = 5¦abcdef¦main 1700000000 web1 /a/x unknown abcde;¶\
    // letters of a host's stanza fit in either case¶\
    preview --host web1 --source /b¦props:[host::WEB*]\nTRUNCATE = 3\n[source::/a/...]\nTRUNCATE = 4\n[source::/a/*]\nTRUNCATE = 5¦abcdef¦main 1700000000 web1 /b unknown abc;¶\
    // the greater priority comes first¶\
    preview --host h --source /a/x¦props:[source::/a/...]\nTRUNCATE = 4\npriority = 1\n[source::/a/*]\nTRUNCATE = 5¦abcdef¦main 1700000000 h /a/x unknown abcd;¶\
    // a stanza without pattern characters has priority 100 by itself¶\
    preview --host h --source /a/x¦props:[source::/a/x]\nTRUNCATE = 2\n[source::/a/*]\nTRUNCATE = 5\npriority = 99¦abcdef¦main 1700000000 h /a/x unknown ab;¶\
    // an empty value ends the search and gives the default¶\
    preview --host h --source s¦props:[source::s]\nTRUNCATE =\n[default]\nTRUNCATE = 2¦abcdef¦main 1700000000 h s unknown abcdef;¶\
    // a host's stanza beats that of the source type, and this one `default`¶\
    preview --host h --source s --sourcetype t¦props:[t]\nTRUNCATE = 3\n[host::h]\nTRUNCATE = 2\n[default]\nTRUNCATE = 4¦abcdef¦main 1700000000 h s t ab;¶\
    preview --host h --source s --sourcetype t¦props:[t]\nTRUNCATE = 3\n[T]\nTRUNCATE = 2\n[default]\nTRUNCATE = 4¦abcdef¦main 1700000000 h s t abc;¶\
    // the source type comes from the source's stanzas, and not from a host's¶\
    preview --host h --source s¦props:[source::s]\nsourcetype = t\n[host::h]\nsourcetype = u\n[t]\nTRUNCATE = 3¦abcdef¦main 1700000000 h s t abc;¶\
    preview --host h --source s¦props:[host::h]\nsourcetype = u\n[u]\nTRUNCATE = 3\n[unknown]\nTRUNCATE = 5¦abcdef¦main 1700000000 h s unknown abcde;¶\
    // the stated index, and the default one¶\
    preview --host h --source s --index web¦indexes:[web]¦a¦web 1700000000 h s unknown a;¶\
    preview --host h --source s¦indexes:[default]\ndefaultDatabase = web\n[web]¦a¦web 1700000000 h s unknown a;";

fn check_choice(rt: &impl Abort, alloc: Global, row: &str) {
    let mut fields = row.split('¦');
    let line = fields.next().unwrap_or("");
    let files = fields.next().unwrap_or("");
    let input = fields.next().unwrap_or("");
    let events = fields.next().unwrap_or("?");
    shows(rt, alloc, run_by_bytes(line, files, input), events);
}

fn check_choices(rt: &impl Abort, alloc: Global, rows: &str) {
    for row in rows.split('¶') {
        if !row.starts_with("//") {
            check_choice(rt, alloc, row);
        }
    }
}

/// The nearest stanza that has a value decides.
#[test]
fn settings_are_chosen_by_host_source_and_source_type(rt: HostRuntime) {
    check_choices(&rt, rt.alloc(), CHOICES);
}

/// An index that is stated has to be configured.
#[test]
fn an_unknown_index_is_told(rt: HostRuntime) {
    let line = "preview --host h --source s --index web";
    let found = previewed(rt.alloc(), run_by_bytes(line, DEFAULT, "a"));
    compare(&rt, line, found, "10: indexd: not found: web\n");
}
