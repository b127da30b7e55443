//! Tests of `ix_life`, `ix_report` and `ix_monitor`, with outcomes worked by hand. Settings are texts of indexes.conf, and buckets are written as
//! `ID STATE BYTES OLDEST NEWEST USED`, with `;` between.

use crate::said::{bytes_of, compare, note, say, settings_of, shown};
use ix_base::{Area, Bytes, File, Spot};
use ix_items::{Bucket, Entry, Rule, State};
use ix_life::{
    BucketList, EntryList, IndexView, IndexViewList, LimitFault, LimitSet, Limits, Target, View,
    copy_indexes, housekeep, place,
};
use ix_monitor::{Input, InputFault, Inputs, Seen, Step, plan};
use ix_report::listing;
use std::alloc::Global;
use std::process::Abort;
use std::str::SplitWhitespace;

fn state(word: &str) -> Option<State> {
    match word {
        "hot" => Some(State::Hot),
        "quarantine" => Some(State::Quarantine),
        "warm" => Some(State::Warm),
        "cold" => Some(State::Cold),
        "thawed" => Some(State::Thawed),
        _ => None,
    }
}

/// The next number; 0 where there is none.
fn unsigned(words: &mut SplitWhitespace<'_>) -> u64 {
    words.next().unwrap_or("").parse().unwrap_or(0)
}

/// The next moment; 0 where there is none.
fn signed(words: &mut SplitWhitespace<'_>) -> i64 {
    words.next().unwrap_or("").parse().unwrap_or(0)
}

/// A bucket that was last touched at its newest time. It has as many events as were placed when its last one was.
fn bucket(text: &str) -> Option<Bucket> {
    let mut words = text.split_whitespace();
    let id = unsigned(&mut words);
    let state = state(words.next()?)?;
    let bytes = unsigned(&mut words);
    let oldest = signed(&mut words);
    let newest = signed(&mut words);
    let used = unsigned(&mut words);
    let file = File {
        area: Area::Home,
        number: id,
    };
    Some(Bucket {
        id,
        state,
        file,
        bytes,
        count: used,
        newest,
        oldest,
        used,
        touched: newest,
    })
}

/// The buckets of a text. What is no bucket is left out.
fn buckets(alloc: Global, text: &str) -> BucketList {
    let mut list = BucketList::new(alloc);
    for part in text.split(';') {
        if let Some(bucket) = bucket(part) {
            let _ = list.push(bucket);
        }
    }
    list
}

/// The limits of a text of indexes.conf, which has no fault of grammar.
fn load(alloc: Global, text: &str) -> Result<LimitSet, LimitFault> {
    match settings_of(alloc, text.as_bytes()) {
        Ok(merged) => {
            let set = LimitSet::load(alloc, &merged);
            drop(merged);
            set
        }
        Err(_) => Err(LimitFault::NoMemory),
    }
}

fn note_limits(text: &mut String, limits: &Limits) {
    note(text, limits.max_data_mb);
    note(text, limits.max_hot_buckets);
    note(text, limits.max_hot_span_secs);
    note(text, limits.max_hot_idle_secs);
    note(text, limits.max_warm_count);
    note(text, limits.frozen_secs);
    note(text, limits.max_total_mb);
    note(text, limits.home_max_mb);
    note(text, limits.cold_max_mb);
    note(text, limits.quarantine_past_secs);
    note(text, limits.quarantine_future_secs);
    note(text, limits.archive);
}

fn note_bytes(text: &mut String, bytes: &Bytes) {
    say(text, shown(bytes.as_slice()));
}

fn note_bytes_or_none(text: &mut String, bytes: &Option<Bytes>) {
    match bytes {
        Some(bytes) => note_bytes(text, bytes),
        None => say(text, "-"),
    }
}

/// Writes what a set says: the default index, the last chance, the seconds of a turn, the way of the events of an index, and
/// its limits.
fn note_set(text: &mut String, set: &LimitSet, index: &[u8]) {
    note_bytes(text, &set.default_database);
    note_bytes_or_none(text, &set.last_chance);
    note(text, set.rotate_secs);
    note(text, set.route(index));
    match set.limits(index) {
        Some(limits) => note_limits(text, limits),
        None => say(text, "none"),
    }
}

/// Writes a fault, and what it names.
fn note_limit_fault(text: &mut String, fault: &LimitFault) {
    let _ = write!(text, " {fault}");
    match fault {
        LimitFault::BadValue { stanza, key } => {
            note_bytes(text, stanza);
            note_bytes(text, key);
        }
        LimitFault::BadIndexName { stanza } => note_bytes(text, stanza),
        LimitFault::NoMemory => {}
    }
}

/// What settings come to for an index.
fn outcome(alloc: Global, settings: &str, index: &str) -> String {
    let mut text = String::new(alloc);
    match load(alloc, settings) {
        Ok(set) => {
            note_set(&mut text, &set, index.as_bytes());
            drop(set);
        }
        Err(fault) => {
            note_limit_fault(&mut text, &fault);
            drop(fault);
        }
    }
    text
}

const WHOLE: &str =
    "defaultDatabase = web\nlastChanceIndex = web\nrotatePeriodInSecs = 5\nmaxWarmDBCount = 7\n\
    [web]\n[volume:x]\nmaxDataSize = no\n";

const OWN: &str = "maxHotBuckets = 9\nmaxDataSize = auto_high_volume\nmaxWarmDBCount = 7\n\
    [web]\nmaxHotBuckets =\nmaxDataSize = 2\nmaxHotSpanSecs = 1\ncoldToFrozenDir = /x\n";

const ALL: &str =
    "[web]\nmaxDataSize = 1048576\nmaxHotBuckets = 1000\nmaxHotSpanSecs = 4294967295\nmaxHotIdleSecs = 1\n\
    maxWarmDBCount = 2\nfrozenTimePeriodInSecs = 3\nmaxTotalDataSizeMB = 4\nhomePath.maxDataSizeMB = 5\n\
    coldPath.maxDataSizeMB = 6\nquarantinePastSecs = 7\nquarantineFutureSecs = 8\ncoldToFrozenDir =\n";

const LEAST: &str =
    "[web]\nmaxDataSize = auto\nmaxHotBuckets = auto\nmaxHotSpanSecs = 3601\nmaxHotIdleSecs = -0\n\
    maxWarmDBCount = 00\ndefaultDatabase = none\nrotatePeriodInSecs = 0\nlastChanceIndex = ?\nother = x\n";

static LIMITS: [(&str, &str, &str); 24] = [
    (
        "",
        "main",
        "main - 60 Given 750 3 7776000 0 300 188697600 500000 0 0 77760000 2592000 false",
    ),
    ("", "web", "main - 60 Nowhere none"),
    (
        WHOLE,
        "main",
        "web web 5 Given 750 3 7776000 0 7 188697600 500000 0 0 77760000 2592000 false",
    ),
    (WHOLE, "other", "web web 5 LastChance none"),
    (WHOLE, "default", "web web 5 LastChance none"),
    (WHOLE, "volume:x", "web web 5 LastChance none"),
    (
        OWN,
        "web",
        "main - 60 Given 2 3 3600 0 7 188697600 500000 0 0 77760000 2592000 true",
    ),
    (
        OWN,
        "main",
        "main - 60 Given 10240 9 7776000 0 7 188697600 500000 0 0 77760000 2592000 false",
    ),
    (
        ALL,
        "web",
        "main - 60 Given 1048576 1000 4294967295 1 2 3 4 5 6 7 8 false",
    ),
    (
        LEAST,
        "web",
        "main - 60 Given 750 3 3601 0 0 188697600 500000 0 0 77760000 2592000 false",
    ),
    // a stanza before its keys, and stanzas and keys in the order of their bytes
    ("[Web]\nmaxDataSize = 0\n", "main", "BadIndexName Web"),
    ("defaultDatabase = x\n[Web]\n", "main", "BadIndexName Web"),
    (
        "[b]\nmaxHotBuckets = 0\n[a]\nmaxWarmDBCount = x\n",
        "main",
        "BadValue a maxWarmDBCount",
    ),
    (
        "[a]\nmaxHotBuckets = 0\nfrozenTimePeriodInSecs = 0\n",
        "main",
        "BadValue a frozenTimePeriodInSecs",
    ),
    ("[_web]\n", "main", "BadIndexName _web"),
    ("[-web]\n", "main", "BadIndexName -web"),
    ("[we.b]\n", "main", "BadIndexName we.b"),
    ("[my-kvstore1]\n", "main", "BadIndexName my-kvstore1"),
    (
        "maxDataSize = 1048577\n",
        "main",
        "BadValue default maxDataSize",
    ),
    (
        "[main]\nmaxHotSpanSecs = 0\n",
        "main",
        "BadValue main maxHotSpanSecs",
    ),
    (
        "rotatePeriodInSecs = 0\n",
        "main",
        "BadValue default rotatePeriodInSecs",
    ),
    (
        "defaultDatabase = web\n",
        "main",
        "BadValue default defaultDatabase",
    ),
    (
        "lastChanceIndex = default\n",
        "main",
        "BadValue default lastChanceIndex",
    ),
    (
        "lastChanceIndex = volume:x\n[volume:x]\n",
        "main",
        "BadValue default lastChanceIndex",
    ),
];

fn check_limits(rt: &impl Abort, alloc: Global, rows: &[(&str, &str, &str)]) {
    for row in rows {
        let (settings, index, wanted) = *row;
        compare(rt, outcome(alloc, settings, index), wanted);
    }
}

#[test]
fn settings_give_limits(rt: HostRuntime) {
    check_limits(&rt, rt.alloc(), &LIMITS);
}

/// Two buckets that take events at the most, each over an hour; a quarantine for what is 100 seconds late or 50 early.
const TIGHT: &str =
    "maxHotBuckets = 2\nmaxHotSpanSecs = 1\nquarantinePastSecs = 100\nquarantineFutureSecs = 50\n";

/// The arrival of each event that is placed, and the moment of each turn of housekeeping: 10,000 seconds.
const MOMENT: i64 = 10_000_000_000;

/// The limits of `main` under settings that have no fault.
fn main_limits(alloc: Global, settings: &str) -> Option<Limits> {
    match load(alloc, settings) {
        Ok(set) => {
            let limits = set.limits(b"main").copied();
            drop(set);
            limits
        }
        Err(fault) => {
            drop(fault);
            None
        }
    }
}

/// Where an event goes: the bucket, the one that rolls, and whether into quarantine.
fn placed(alloc: Global, listed: &str, time: i64) -> String {
    let mut text = String::new(alloc);
    if let Some(limits) = main_limits(alloc, TIGHT) {
        let list = buckets(alloc, listed);
        let Target {
            into,
            rolls,
            quarantine,
        } = place(&list, &limits, time, MOMENT);
        drop(list);
        note(&mut text, into);
        note(&mut text, rolls);
        note(&mut text, quarantine);
    }
    text
}

const ONE: &str = "0 hot 1 9000000000 9500000000 1";

const TWO: &str = "4 hot 1 0 6500000000 9; 6 hot 1 0 6500000000 7; 7 warm 1 0 10000000000 1";

const MIXED: &str = "1 warm 1 10000000000 10000000000 1; 2 cold 1 10000000000 10000000000 1; \
    3 thawed 1 10000000000 10000000000 1; 9 hot 1 9000000000 9000000000 5; 8 hot 1 9000000000 9000000000 6; \
    5 quarantine 1 0 0 2";

const FULL: &str = "5 quarantine 1 0 0 2; 6 hot 1 0 0 3";

static PLACED: [(&str, i64, &str); 14] = [
    // nothing there: a new bucket, or a new quarantine
    ("", MOMENT, "None None false"),
    ("", 0, "None None true"),
    (ONE, MOMENT, "Some(0) None false"),
    // a span of an hour exactly, and of a microsecond more
    (
        "4 hot 1 6400000000 6500000000 1",
        MOMENT,
        "Some(4) None false",
    ),
    ("4 hot 1 6399999999 6500000000 1", MOMENT, "None None false"),
    // two take events: the one that was used first makes room
    (TWO, MOMENT, "None Some(6) false"),
    (TWO, 0, "None Some(6) true"),
    // the first by number, whatever their order; warm, cold and thawed ones take nothing
    (MIXED, MOMENT, "Some(8) None false"),
    // 100 seconds before the arrival exactly, and a microsecond more
    (MIXED, 9_900_000_000, "Some(8) None false"),
    (MIXED, 9_899_999_999, "Some(5) None true"),
    // 50 seconds after it exactly, and a microsecond more
    (MIXED, 10_050_000_000, "Some(8) None false"),
    (MIXED, 10_050_000_001, "Some(5) None true"),
    // a quarantine counts as one that takes events, and may be the one that rolls
    (FULL, MOMENT, "None Some(5) false"),
    (FULL, i64::MIN, "Some(5) None true"),
];

fn check_placed(rt: &impl Abort, alloc: Global, rows: &[(&str, i64, &str)]) {
    for row in rows {
        let (listed, time, wanted) = *row;
        compare(rt, placed(alloc, listed, time), wanted);
    }
}

#[test]
fn events_find_their_bucket(rt: HostRuntime) {
    check_placed(&rt, rt.alloc(), &PLACED);
}

/// Writes what housekeeping does under limits.
fn note_moves(text: &mut String, alloc: Global, listed: &str, limits: &Limits, moment: i64) {
    let list = buckets(alloc, listed);
    if let Ok(moves) = housekeep(alloc, &list, limits, moment) {
        note(text, moves.warmed.as_slice());
        note(text, moves.cooled.as_slice());
        note(text, moves.frozen.as_slice());
        drop(moves);
    }
    drop(list);
}

/// What housekeeping does: the buckets that roll to warm, those that move to cold, and those that freeze.
fn moved(alloc: Global, settings: &str, listed: &str, moment: i64) -> String {
    let mut text = String::new(alloc);
    if let Some(limits) = main_limits(alloc, settings) {
        note_moves(&mut text, alloc, listed, &limits, moment);
    }
    text
}

const SILENT: &str =
    "1 hot 1 0 9900000000 1; 2 hot 1 0 9899999999 2; 3 quarantine 1 0 0 3; 4 warm 1 0 0 4; 5 thawed 1 0 0 5";

const WARM: &str =
    "1 warm 1048576 5 5 1; 2 warm 1048576 7 7 2; 3 warm 1 6 6 3; 4 thawed 1048576 0 0 4";

const HOME: &str = "homePath.maxDataSizeMB = 2";

const AGED: &str =
    "1 hot 1 0 0 1; 2 warm 1 0 9000000000 2; 3 warm 1 0 8999999999 3; 4 cold 1 0 8999999998 4; \
    5 cold 1 0 9500000000 5; 6 thawed 1 0 0 6; 7 quarantine 1 0 0 7";

const COOL: &str =
    "1 cold 1048575 7 7 1; 2 cold 1048576 5 5 2; 3 cold 1 6 6 3; 4 warm 1048576 4 4 4";

const TOTAL: &str = "maxTotalDataSizeMB = 1";

const MANY: &str =
    "1 hot 1048576 0 9990000000 1; 2 hot 1048576 0 6000000000 2; 3 warm 1048576 0 9000000000 3; \
    4 cold 1048576 0 4000000000 4; 5 cold 1048576 0 7000000000 5; 6 cold 2097152 0 8000000000 6";

const SMALL: &str =
    "maxHotIdleSecs = 100\nmaxWarmDBCount = 1\nfrozenTimePeriodInSecs = 5000\nmaxTotalDataSizeMB = 3\n\
    coldPath.maxDataSizeMB = 2";

const ENDS: &str =
    "18446744073709551615 hot 18446744073709551615 -9223372036854775808 -9223372036854775808 1; \
    1 warm 18446744073709551615 -9223372036854775808 -9223372036854775808 2; \
    2 cold 18446744073709551615 -9223372036854775808 -9223372036854775808 3; \
    3 cold 18446744073709551615 9223372036854775807 9223372036854775807 4";

static MOVED: [(&str, &str, i64, &str); 17] = [
    // idle: more than 100 seconds without an event
    ("maxHotIdleSecs = 100", SILENT, MOMENT, "[3, 2] [] []"),
    ("", SILENT, MOMENT, "[] [] []"),
    // one warm bucket at the most
    ("maxWarmDBCount = 1", WARM, MOMENT, "[] [1, 3] []"),
    ("", WARM, MOMENT, "[] [] []"),
    // hot, quarantine and warm bytes: the limit exactly, and a byte more
    (
        HOME,
        "1 warm 1048576 5 5 1; 2 hot 1048575 6 6 2; 3 quarantine 1 6 6 3",
        MOMENT,
        "[] [] []",
    ),
    (
        HOME,
        "1 warm 1 5 5 1; 4 warm 1048576 6 6 4; 2 hot 1048575 6 6 2; 3 quarantine 1 6 6 3",
        MOMENT,
        "[] [1] []",
    ),
    // age: 1,000 seconds exactly, and a microsecond more, by the newest event
    (
        "frozenTimePeriodInSecs = 1000",
        AGED,
        MOMENT,
        "[] [] [(4, Age), (3, Age)]",
    ),
    // cold bytes, until the limit exactly
    (
        "coldPath.maxDataSizeMB = 1",
        COOL,
        MOMENT,
        "[] [] [(2, Cold)]",
    ),
    ("", COOL, MOMENT, "[] [] []"),
    // all bytes, until the limit exactly: the older of the cold ones first
    (
        TOTAL,
        "1 warm 600000 1 1 1; 2 cold 448576 9 9 2; 3 cold 448577 8 8 3",
        MOMENT,
        "[] [] [(3, Total)]",
    ),
    (
        TOTAL,
        "1 warm 600000 1 1 1; 2 cold 448576 9 9 2",
        MOMENT,
        "[] [] []",
    ),
    // a byte more: the cold one, though the warm one is older
    (
        TOTAL,
        "1 warm 600000 1 1 1; 3 cold 448577 8 8 3",
        MOMENT,
        "[] [] [(3, Total)]",
    ),
    (TOTAL, "", MOMENT, "[] [] []"),
    // of two that are as new the lesser number goes
    (
        TOTAL,
        "1 warm 600000 50 50 1; 3 warm 600000 50 50 3",
        60,
        "[] [] [(1, Total)]",
    ),
    // what is idle rolls, cools and freezes in one turn, and what froze counts no more
    (
        SMALL,
        MANY,
        MOMENT,
        "[2] [2] [(4, Age), (2, Cold), (5, Cold), (6, Total)]",
    ),
    // hot bytes alone are above the limit: all others go, and the hot ones stay
    (
        TOTAL,
        "1 hot 2097152 9 9 1; 2 warm 1 1 1 2; 3 cold 1 2 2 3",
        MOMENT,
        "[] [] [(3, Total), (2, Total)]",
    ),
    // the ends of the ranges
    ("", ENDS, i64::MAX, "[] [] [(1, Age), (2, Age), (3, Total)]"),
];

fn check_moved(rt: &impl Abort, alloc: Global, rows: &[(&str, &str, i64, &str)]) {
    for row in rows {
        let (settings, listed, moment, wanted) = *row;
        compare(rt, moved(alloc, settings, listed, moment), wanted);
    }
}

#[test]
fn housekeeping_moves_buckets(rt: HostRuntime) {
    check_moved(&rt, rt.alloc(), &MOVED);
}

/// Adds an index under the limits of `main`.
fn add_index(alloc: Global, list: &mut IndexViewList, name: &[u8], listed: &str) {
    if let Some(limits) = main_limits(alloc, "") {
        let _ = list.push(IndexView {
            name: bytes_of(alloc, name),
            limits,
            buckets: buckets(alloc, listed),
        });
    }
}

/// Adds an entry of the ledger that was frozen at a moment, for its bucket.
fn add_frozen(list: &mut EntryList, index: Bytes, listed: &str, fate: (Rule, i64, Option<u64>)) {
    let (rule, moment, archive) = fate;
    match bucket(listed) {
        Some(bucket) => {
            let _ = list.push(Entry {
                index,
                id: bucket.id,
                rule,
                moment,
                count: bucket.count,
                newest: bucket.newest,
                oldest: bucket.oldest,
                bytes: bucket.bytes,
                archive,
            });
        }
        None => drop(index),
    }
}

fn ledger(alloc: Global) -> EntryList {
    let mut list = EntryList::new(alloc);
    add_frozen(
        &mut list,
        bytes_of(alloc, b"main"),
        "4 thawed 13 -1000001 0 9",
        (Rule::Age, 2_999_999, Some(7)),
    );
    add_frozen(
        &mut list,
        bytes_of(alloc, b"web"),
        "0 warm 5 -1 1 2",
        (Rule::Total, -1, None),
    );
    add_frozen(
        &mut list,
        bytes_of(alloc, b"web"),
        "1 cold 5 -9223372036854775808 9223372036854775807 18446744073709551615",
        (Rule::Cold, 1_000_000, None),
    );
    list
}

fn view(alloc: Global) -> View {
    let main =
        "0 warm 120 -1 1500000 3; 1 hot 50 0 0 2; 2 quarantine 7 0 0 1; 3 cold 11 -1000000 -1000000 5; \
        4 thawed 13 -1000001 0 9";
    let mut made = IndexViewList::new(alloc);
    add_index(alloc, &mut made, b"main", main);
    add_index(alloc, &mut made, b"web", "");
    // the listing is that of a copy
    let indexes = copy_indexes(alloc, made.as_slice()).unwrap_or(IndexViewList::new(alloc));
    drop(made);
    View {
        indexes,
        ledger: ledger(alloc),
        settled: 22,
        nulled: 1,
        dropped: 0,
    }
}

fn listing_said(alloc: Global) -> String {
    let mut text = String::new(alloc);
    let view = view(alloc);
    if let Ok(found) = listing(alloc, &view) {
        let _ = text.push_str(shown(found.as_slice()));
        drop(found);
    }
    drop(view);
    text
}

#[test]
fn a_view_is_listed(rt: HostRuntime) {
    let wanted = "index main stored 11 bytes 188 frozen 9\n\
        bucket main db_1_-1_0 warm 3 120\n\
        bucket main hot_v1_1 hot 2 50\n\
        bucket main hot_quar_v1_2 quarantine 1 7\n\
        bucket main db_-1_-1_3 cold 5 11\n\
        bucket main db_0_-2_4 thawed 9 13\n\
        index web stored 0 bytes 0 frozen 18446744073709551617\n\
        frozen main db_0_-2_4 age 2 9 archived\n\
        frozen web db_0_-1_0 total -1 2 deleted\n\
        frozen web db_9223372036854_-9223372036855_1 cold 1 18446744073709551615 deleted\n\
        events settled 22 nulled 1 dropped 0\n";
    compare(&rt, listing_said(rt.alloc()), wanted);
}

fn note_input(text: &mut String, input: &Input) {
    note_bytes(text, &input.path);
    note_bytes(text, &input.host);
    note_bytes_or_none(text, &input.source);
    note_bytes_or_none(text, &input.sourcetype);
    note_bytes_or_none(text, &input.index);
    let _ = text.push(';');
}

fn note_inputs(text: &mut String, inputs: &[Input]) {
    for input in inputs {
        note_input(text, input);
    }
}

fn note_input_fault(text: &mut String, fault: &InputFault) {
    match fault {
        InputFault::BadValue { stanza, key } => {
            say(text, "BadValue");
            note_bytes(text, stanza);
            note_bytes(text, key);
        }
        InputFault::BadStanza { stanza } => {
            say(text, "BadStanza");
            note_bytes(text, stanza);
        }
        InputFault::NoMemory => say(text, "NoMemory"),
    }
}

/// Writes what inputs.conf comes to under limits.
fn note_watched(text: &mut String, alloc: Global, settings: &str, limits: &LimitSet) {
    if let Ok(merged) = settings_of(alloc, settings.as_bytes()) {
        match Inputs::load(alloc, &merged, limits) {
            Ok(inputs) => {
                note_inputs(text, inputs.as_slice());
                drop(inputs);
            }
            Err(fault) => {
                note_input_fault(text, &fault);
                drop(fault);
            }
        }
        drop(merged);
    }
}

/// What inputs.conf comes to, where the indexes are `main` and `web`: path, host, source, source type and index of each input.
fn watched(alloc: Global, settings: &str) -> String {
    let mut text = String::new(alloc);
    match load(alloc, "[web]\n") {
        Ok(limits) => {
            note_watched(&mut text, alloc, settings, &limits);
            drop(limits);
        }
        Err(fault) => {
            say(&mut text, "no limits");
            drop(fault);
        }
    }
    text
}

static WATCHED: [(&str, &str); 13] = [
    ("", ""),
    (
        "[monitor:///b]\n[monitor://a/*.log]\n[tcp://1]\nindex = no\n",
        "/b localhost - - -; a/*.log localhost - - -;",
    ),
    (
        "host = h\nindex = web\n[monitor://a]\nhost =\nsource = s\nsourcetype = t\n",
        "a localhost s t web;",
    ),
    (
        "disabled = 1\n[monitor://a]\n[monitor://b]\ndisabled = No\n",
        "b localhost - - -;",
    ),
    ("[monitor://a]\ndisabled =\n", "a localhost - - -;"),
    ("[monitor://]\nindex = no\n", "BadStanza monitor://"),
    ("[monitor:///a/.../b]\n", "BadStanza monitor:///a/.../b"),
    (
        "[monitor://a*/b]\n[monitor://..]\n",
        "BadStanza monitor://a*/b",
    ),
    (
        "[monitor://b]\nsource = x\nindex = no\n[monitor://a]\ndisabled = 2\n",
        "BadValue monitor://a disabled",
    ),
    (
        "[monitor://a]\ndisabled = true\nindex = no\n",
        "BadValue monitor://a index",
    ),
    ("index = default\n", "BadValue default index"),
    (
        "index = main\ndisabled = maybe\n",
        "BadValue default disabled",
    ),
    ("[monitor://a**]\nindex = main\n", "a** localhost - - main;"),
];

fn check_watched(rt: &impl Abort, alloc: Global, rows: &[(&str, &str)]) {
    for row in rows {
        let (settings, wanted) = *row;
        compare(rt, watched(alloc, settings), wanted);
    }
}

#[test]
fn inputs_are_watched(rt: HostRuntime) {
    check_watched(&rt, rt.alloc(), &WATCHED);
}

/// What a pass does with a file, of which a head and a place was kept.
fn step_from(alloc: Global, file: &Seen, head: &str, offset: u64) -> Step {
    let spot = Spot {
        path: bytes_of(alloc, b"a"),
        head: bytes_of(alloc, head.as_bytes()),
        offset,
    };
    let step = plan(file, Some(&spot));
    drop(spot);
    step
}

/// What a pass does with a file, of which `None`, or a head and a place, was kept.
fn step(alloc: Global, size: u64, head: &str, kept: Option<(&str, u64)>) -> Step {
    let file = Seen {
        size,
        head: bytes_of(alloc, head.as_bytes()),
    };
    let step = match kept {
        None => plan(&file, None),
        Some((head, offset)) => step_from(alloc, &file, head, offset),
    };
    drop(file);
    step
}

/// The size of a file and its head, the head and the place that were kept of it where some were, and the step.
type Passed = (u64, &'static str, Option<(&'static str, u64)>, Step);

static STEPS: [Passed; 9] = [
    (0, "", None, Step::Skip),
    (3, "abc", None, Step::From(0)),
    (3, "abc", Some(("abc", 3)), Step::Skip),
    (5, "abcde", Some(("abc", 3)), Step::From(3)),
    (5, "abcde", Some(("abc", 5)), Step::Skip),
    // another file, a shorter one, and an empty one
    (5, "abxde", Some(("abc", 3)), Step::Again),
    (2, "ab", Some(("abc", 3)), Step::Again),
    (300, "abc", Some(("abc", 301)), Step::Again),
    (0, "", Some(("abc", 3)), Step::Again),
];

fn check_steps(rt: &impl Abort, alloc: Global, rows: &[Passed]) {
    for row in rows {
        let (size, head, kept, wanted) = *row;
        assert!(rt; step(alloc, size, head, kept) == wanted, "{head}");
    }
}

#[test]
fn a_pass_has_its_steps(rt: HostRuntime) {
    check_steps(&rt, rt.alloc(), &STEPS);
}
