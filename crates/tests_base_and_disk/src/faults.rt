//! What faults say of themselves as errors: the texts that their derives make, which no clause says.

use crate::said::compare;
use ix_archive::CopyFault;
use ix_base::{Area, BadRecord, Failed, File, NoMemory};
use ix_bucket::ReadFault;
use ix_disk::LockFault;
use ix_export::BucketFault;
use ix_log::{BeginFault, LogFault};
use ix_manifest::{CheckpointFault, ReplayFault};
use std::fmt::Display;

const SHOWN: &str =
    "the outside failed; there was no room in memory; the bytes are no record; another program has the store; \
the disk failed; the log is damaged at byte 7; the disk failed; no record that counts stands at byte 7; \
the file to be copied ends at byte 7; the disk failed; no body that counts stands in the log at byte 7; \
the file File { area: Home, number: 2 } of a bucket is damaged at byte 7; ";

/// Writes what a fault says of itself.
fn show<T: Display + Drop>(text: &mut String, fault: T) {
    let _ = write!(text, "{fault}; ");
}

/// What faults of the outside and of the log say.
fn show_first(text: &mut String) {
    show(text, Failed);
    show(text, NoMemory);
    show(text, BadRecord);
    show(text, LockFault::InUse);
    show(text, LockFault::Failed);
    show(text, LogFault::Damaged { at: 7 });
    show(text, BeginFault::Disk);
}

/// What faults of buckets, archives and lists of items say.
fn show_later(text: &mut String) {
    show(text, ReadFault::BadRecord { at: 7 });
    show(text, CopyFault::Short { at: 7 });
    show(text, CheckpointFault::Disk);
    show(text, ReplayFault::Damaged { at: 7 });
    let file = File {
        area: Area::Home,
        number: 2,
    };
    show(text, BucketFault::Damaged { file, at: 7 });
}

#[test]
fn faults_show_their_texts(rt: HostRuntime) {
    let mut text = String::new(rt.alloc());
    show_first(&mut text);
    show_later(&mut text);
    compare(&rt, text, SHOWN);
}
