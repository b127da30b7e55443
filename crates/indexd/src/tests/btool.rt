//! Tests of `btool`, over files in memory.

use crate::tests::runs::{
    bytes_of, compare, disk_of, nobody, plan_of, run_top, text_of, tree_at, words_of,
};
use ix_base::{FailPlan, MemClock, MemSink, MemSource};
use std::alloc::Global;
use std::process::Abort;

/// Paths, and what stands there.
type Files = &'static [(&'static str, &'static [u8])];

/// What `btool` over these files says, of whose calls some fail. The input is not read, and the clock not asked.
fn listed(alloc: Global, files: Files, failing: &[u64]) -> String {
    let words = words_of(alloc, "btool props");
    let mut input = MemSource::new(bytes_of(alloc, b"not read"), FailPlan::none(alloc));
    let mut output = MemSink::new(alloc, FailPlan::none(alloc));
    let mut clock = MemClock::new(Vec::new(alloc));
    let mut tree = tree_at(alloc, files, plan_of(alloc, failing));
    let mut disk = disk_of(alloc);
    let mut listener = nobody(alloc);
    let status = run_top(
        alloc,
        &words,
        &mut input,
        &mut output,
        &mut clock,
        &mut tree,
        &mut disk,
        &mut listener,
    );
    text_of(alloc, status.code(), &output)
}

const TEN: (&str, &[u8]) = ("etc/apps/10/local/props.conf", b"[default]\nTRUNCATE = 5\n");

const NINE: (&str, &[u8]) = ("etc/apps/9/local/props.conf", b"[default]\nTRUNCATE = 7\n");

/// Files, and what is said of them.
type Row = (Files, &'static str);

fn check(rt: &impl Abort, alloc: Global, (files, want): Row) {
    compare(rt, "btool", listed(alloc, files, &[]), want);
}

fn check_all(rt: &impl Abort, alloc: Global, rows: &[Row]) {
    for row in rows {
        check(rt, alloc, *row);
    }
}

static LAYERS: [Row; 6] = [
    (&[], "0: "),
    (&[("etc/apps/note", b"a plain file")], "0: "),
    (&[NINE, TEN], "0: [default]\netc/apps/10/local TRUNCATE=5\n"),
    (
        &[NINE, TEN, ("etc/system/local/props.conf", b"TRUNCATE =")],
        "0: [default]\netc/system/local TRUNCATE=\n",
    ),
    (
        &[
            ("etc/system/default/props.conf", b"[b]\nk=1\n[a]\nl=2"),
            ("etc/apps/x/default/props.conf", b"[b]\nk=3\n"),
            ("etc/apps/y/local/props.conf", b"[b]\nk=4\n"),
        ],
        "0: [a]\netc/system/default l=2\n[b]\netc/apps/y/local k=4\n",
    ),
    (&[("etc/system/local/inputs.conf", b"k=v")], "0: "),
];

#[test]
fn the_highest_layer_counts(rt: HostRuntime) {
    check_all(&rt, rt.alloc(), &LAYERS);
}

static FAULTS: [Row; 4] = [
    (
        &[("etc/system/local/props.conf", b"[x]\nTRUNCATE 5\n")],
        "3: indexd: configuration: etc/system/local/props.conf line 2: NoEquals\n",
    ),
    (
        &[TEN, ("etc/apps/a/local/props.conf", b"[x\n")],
        "3: indexd: configuration: etc/apps/a/local/props.conf line 1: BadStanza\n",
    ),
    (
        &[("etc/system/default/props.conf", b"k=v\n\xFF"), NINE],
        "3: indexd: configuration: etc/system/default/props.conf at 4: NotUtf8\n",
    ),
    (
        &[
            ("etc/apps/a/default/props.conf", b"no"),
            ("etc/apps/b/local/props.conf", b"[]"),
        ],
        "3: indexd: configuration: etc/apps/b/local/props.conf line 1: BadStanza\n",
    ),
];

#[test]
fn the_first_fault_is_told(rt: HostRuntime) {
    check_all(&rt, rt.alloc(), &FAULTS);
}

static ONE: Files = &[TEN];

#[test]
fn a_failed_call_is_an_input_fault(rt: HostRuntime) {
    // The folder of the apps, the size of the first layer's file, that of the second one, and reading it.
    for call in 0u64..4 {
        let found = listed(rt.alloc(), ONE, &[call]);
        compare(&rt, "btool", found, "4: indexd: input fault\n");
    }
}
