//! A store that another program has. Each command on it ends with the status for that, and asks nothing of the disk.

use crate::tests::runs::{Run, compare, disk_of, run_of, said};
use std::alloc::Global;

/// Every command on a store.
const LINES: &str = "buckets¶export main¶roll main¶thaw main 0¶tick¶feed¶monitor¶monitor --close¶\
    preview --host h --source s --store¶serve --port 0 --requests 1";

/// What a command says where another program has the store, how many calls of the disk there were, and how often it refused.
fn used_said(alloc: Global, line: &str) -> String {
    let mut disk = disk_of(alloc);
    disk.set_in_use(true);
    let run = Run {
        moments: &[],
        ..run_of(line, "", b"")
    };
    let mut text = said(alloc, run, &mut disk);
    let _ = write!(text, "{} {}", disk.calls(), disk.refused());
    drop(disk);
    text
}

#[test]
fn a_store_that_is_in_use_is_left_alone(rt: HostRuntime) {
    for line in LINES.split('¶') {
        let found = used_said(rt.alloc(), line);
        compare(&rt, line, found, "18: indexd: store in use\n0 1");
    }
    let found = used_said(rt.alloc(), "preview --host h --source s");
    compare(&rt, "without a store", found, "0: 0 0");
}
