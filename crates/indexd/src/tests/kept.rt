//! What a store keeps of the files of a tree.

use crate::tests::runs::{compare, tree_at};
use indexd_settings::read_config;
use ix_base::{Bytes, FailPlan};
use ix_items::{Kept, KeptList};
use std::alloc::Global;

/// The files of a tree, two of them of one app.
static FILES: [(&str, &[u8]); 5] = [
    (
        "etc/system/local/props.conf",
        b"[web]\nTZ = Home\nSHOULD_LINEMERGE = false\n",
    ),
    (
        "etc/apps/a/default/props.conf",
        b"[web]\nTZ = UTC\nTRANSFORMS-a = drop\n",
    ),
    (
        "etc/system/local/transforms.conf",
        b"[drop]\nREGEX = x\nDEST_KEY = queue\nFORMAT = nullQueue\n",
    ),
    (
        "etc/system/local/indexes.conf",
        b"[main]\nmaxDataSize = 5\n",
    ),
    ("etc/apps/a/local/zones.conf", b"[Home]\nRULE = HST10\n"),
];

/// What is kept of them, as `FILE|STANZA|KEY|VALUE`.
const KEPT: &str = "\
1|web||
1|web|SHOULD_LINEMERGE|false
1|web|TRANSFORMS-a|drop
1|web|TZ|Home
2|drop||
2|drop|DEST_KEY|queue
2|drop|FORMAT|nullQueue
2|drop|REGEX|x
3|main||
3|main|maxDataSize|5
4|Home||
4|Home|RULE|HST10
";

fn text_of(bytes: &Bytes) -> &str {
    str::from_utf8(bytes.as_slice()).unwrap_or("?")
}

fn note(text: &mut String, kept: &Kept) {
    let stanza = text_of(&kept.stanza);
    let key = text_of(&kept.key);
    let value = text_of(&kept.value);
    let _ = write!(text, "{}|{stanza}|{key}|{value}\n", kept.file);
}

fn note_all(text: &mut String, kept: &KeptList) {
    for one in kept.as_slice() {
        note(text, one);
    }
}

/// What is kept of the files of the tree. Where there are no settings that is nothing.
fn shown(alloc: Global) -> String {
    let mut text = String::new(alloc);
    let mut tree = tree_at(alloc, &FILES, FailPlan::none(alloc));
    if let Ok(config) = read_config(alloc, &mut tree) {
        note_all(&mut text, &config.kept);
        drop(config);
    }
    text
}

#[test]
fn all_settings_but_the_built_in_zones_are_kept(rt: HostRuntime) {
    compare(&rt, "what is kept", shown(rt.alloc()), KEPT);
}
