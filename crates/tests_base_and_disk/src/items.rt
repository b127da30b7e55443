//! The items of a commit, against bytes that were spelled by hand from the layout.

ghost use Rattle.ix_items.specs.Spelling.{IsWritable};

use crate::made::bytes_of;
use crate::said::{compare, compare_none, note, say, shown};
use ix_base::{Bytes, ChannelMeta, Sequence, Spot};
use ix_items::{
    Entry, Item, ItemFault, Kept, KeptList, are_kept, are_writable, copy_settings, is_short,
    is_short_meta, one_item, one_list, read_item, write_item,
};
use ix_manifest::{is_only, same_name};
use std::alloc::Global;
use std::process::Abort;

/// Items of each kind, and what they say.
static ROWS: [(&[u8], &str); 15] = [
    (b"\x01\x00\x00\x00\x00", "settings 0 "),
    (
        b"\x01\x00\x00\x00\x02\x01\x00\x00\x00\x02s1\x00\x00\x00\x01k\x00\x00\x00\x01v\x04\x00\x00\x00\x00\x00\x00\x00\x00\x00\x00\x00\x00",
        "settings 2 ",
    ),
    (b"\x02\x00\x00\x00\x00\x00\x00\x00\x01", "run 1 "),
    (
        b"\x03\x00\x00\x00\x00\x00\x00\x01\x02\xff\xff\xff\xff\xff\xff\xff\xfe",
        "moments 258 -2 ",
    ),
    (
        b"\x04\x00\x00\x00\x01c\x00\x00\x00\x01h\x00\x00\x00\x01s\x01\x00\x00\x00\x01t\x00\x00\x00\x00\x02ab",
        "channel c host h source s sourcetype t index - carry ab ",
    ),
    (b"\x05\x00\x00\x00\x01c", "ended c "),
    (
        b"\x06\x00\x00\x00\x04main\x00\x00\x00\x00\x00\x00\x00\x07\x03\x02\x00\x00\x00\x00\x00\x00\x00\x03\x00\x00\x00\x00\x00\x00\x00\x04\x00\x00\x00\x00\x00\x00\x00\x05\x00\x00\x00\x00\x00\x00\x00\x06\xff\xff\xff\xff\xff\xff\xff\xff\x00\x00\x00\x00\x00\x00\x00\x08\x00\x00\x00\x00\x00\x00\x00\x09",
        "bucket main Bucket { id: 7, state: Warm, file: File { area: Home, number: 3 }, bytes: 4, count: 5, newest: 6, oldest: -1, used: 8, touched: 9 } ",
    ),
    (
        b"\x07\x00\x00\x00\x04main\x00\x00\x00\x00\x00\x00\x00\x07",
        "gone main 7 ",
    ),
    (
        b"\x08\x00\x00\x00\x04main\x00\x00\x00\x00\x00\x00\x00\x07\x02\x00\x00\x00\x00\x00\x00\x00\x01\x00\x00\x00\x00\x00\x00\x00\x02\x00\x00\x00\x00\x00\x00\x00\x03\x00\x00\x00\x00\x00\x00\x00\x04\x00\x00\x00\x00\x00\x00\x00\x05\x00\x00\x00\x00\x00\x00\x00\x06",
        "frozen main 7 Cold at 1 events 2 from 4 to 3 bytes 5 Some(6) ",
    ),
    (
        b"\x08\x00\x00\x00\x04main\x00\x00\x00\x00\x00\x00\x00\x07\x03\x00\x00\x00\x00\x00\x00\x00\x01\x00\x00\x00\x00\x00\x00\x00\x02\x00\x00\x00\x00\x00\x00\x00\x03\x00\x00\x00\x00\x00\x00\x00\x04\x00\x00\x00\x00\x00\x00\x00\x05\x00\x00\x00\x00\x00\x00\x00\x00",
        "frozen main 7 Total at 1 events 2 from 4 to 3 bytes 5 None ",
    ),
    (
        b"\x09\x00\x00\x00\x00\x00\x00\x00\x01\x00\x00\x00\x00\x00\x00\x00\x02\x00\x00\x00\x00\x00\x00\x00\x03\x00\x00\x00\x00\x00\x01\x00\x00",
        "counts 1 2 3 65536 ",
    ),
    (
        b"\x0a\x00\x00\x00\x02/a\x00\x00\x00\x02xy\x00\x00\x00\x00\x00\x00\x00\x02",
        "spot /a xy 2 ",
    ),
    (
        b"\x0b\x80\x00\x00\x00\x00\x00\x00\x00",
        "next file 9223372036854775808 ",
    ),
    (
        b"\x0c\x00\x00\x00\x02\x03\x00\x00\x00\x00\x00\x00\x00\x01\x05\x00\x00\x00\x00\x00\x00\x00\x02",
        "removals [File { area: Cold, number: 1 }, File { area: Thawed, number: 2 }] ",
    ),
    (
        b"\x0d\x00\x00\x00\x04main\x00\x00\x00\x00\x00\x00\x00\x01",
        "next id main 1 ",
    ),
];

fn shown_or_none(bytes: &Option<Bytes>) -> &str {
    match bytes {
        Some(bytes) => shown(bytes.as_slice()),
        None => "-",
    }
}

fn note_bytes(text: &mut String, word: &str, bytes: &Bytes) {
    say(text, word);
    say(text, shown(bytes.as_slice()));
}

fn note_channel(text: &mut String, name: &Bytes, meta: &ChannelMeta, carry: &Bytes) {
    note_bytes(text, "channel", name);
    note_bytes(text, "host", &meta.host);
    note_bytes(text, "source", &meta.source);
    say(text, "sourcetype");
    say(text, shown_or_none(&meta.sourcetype));
    say(text, "index");
    say(text, shown_or_none(&meta.index));
    note_bytes(text, "carry", carry);
}

fn note_entry(text: &mut String, entry: &Entry) {
    note_bytes(text, "frozen", &entry.index);
    note(text, entry.id);
    note(text, entry.rule);
    say(text, "at");
    note(text, entry.moment);
    say(text, "events");
    note(text, entry.count);
    say(text, "from");
    note(text, entry.oldest);
    say(text, "to");
    note(text, entry.newest);
    say(text, "bytes");
    note(text, entry.bytes);
    note(text, entry.archive);
}

/// Writes what a copy of an entry says.
fn note_copy(text: &mut String, entry: &Entry) {
    if let Ok(copy) = entry.copy() {
        note_entry(text, &copy);
        drop(copy);
    }
}

fn note_spot(text: &mut String, spot: &Spot) {
    note_bytes(text, "spot", &spot.path);
    say(text, shown(spot.head.as_slice()));
    note(text, spot.offset);
}

fn note_counts(text: &mut String, counts: [u64; 4]) {
    say(text, "counts");
    for count in counts {
        note(text, count);
    }
}

/// Writes what an item of the store as a whole says.
fn note_of_store(text: &mut String, item: &Item) {
    match item {
        Item::Settings { kept } => {
            say(text, "settings");
            note(text, kept.len());
        }
        Item::Run { run } => {
            say(text, "run");
            note(text, *run);
        }
        Item::Moments { last, tick } => {
            say(text, "moments");
            note(text, *last);
            note(text, *tick);
        }
        Item::Counts {
            settled,
            nulled,
            dropped,
            placed,
        } => note_counts(text, [*settled, *nulled, *dropped, *placed]),
        Item::NextFile { number } => {
            say(text, "next file");
            note(text, *number);
        }
        Item::Removals { files } => {
            say(text, "removals");
            note(text, files.as_slice());
        }
        _ => say(text, "?"),
    }
}

/// Writes what an item says.
pub fn note_item(text: &mut String, item: &Item) {
    match item {
        Item::Channel { name, meta, carry } => note_channel(text, name, meta, carry),
        Item::Ended { name } => note_bytes(text, "ended", name),
        Item::Bucket { index, bucket } => {
            note_bytes(text, "bucket", index);
            note(text, *bucket);
        }
        Item::Gone { index, id } => {
            note_bytes(text, "gone", index);
            note(text, *id);
        }
        Item::Ledger { entry } => note_copy(text, entry),
        Item::Spot { spot } => note_spot(text, spot),
        Item::NextId { index, id } => {
            note_bytes(text, "next id", index);
            note(text, *id);
        }
        _ => note_of_store(text, item),
    }
}

/// Says what is wrong where something is.
fn note_unless(text: &mut String, is_right: bool, wrong: &str) {
    if !is_right {
        say(text, wrong);
    }
}

fn is_bad(alloc: Global, bytes: &[u8]) -> bool {
    match read_item(alloc, bytes) {
        Ok((item, _)) => {
            drop(item);
            false
        }
        Err(fault) => fault == ItemFault::BadItem,
    }
}

/// Whether no prefix of the bytes is an item.
fn have_no_item(alloc: Global, bytes: &[u8]) -> bool {
    let mut none = true;
    for cut in 0..bytes.len() {
        none = none && is_bad(alloc, &bytes[..cut]);
    }
    none
}

/// Writes what an item says, and where it is written otherwise than as these bytes.
fn note_whole(text: &mut String, alloc: Global, item: &Item, row: &[u8])
    requires { IsWritable item.now }
{
    note_item(text, item);
    let mut out = bytes_of(alloc, b"ab");
    let is_written = write_item(item, &mut out).is_ok()
        && out.as_slice().strip_prefix(b"ab".as_slice()) == Some(row);
    drop(out);
    note_unless(text, is_written, "is written otherwise");
}

/// What is read of the item where one byte more stands behind it, and what of it is not as it should be.
fn item_said(alloc: Global, row: &[u8]) -> String {
    let mut text = String::new(alloc);
    let mut bytes = bytes_of(alloc, row);
    let _ = bytes.push(1);
    let read = read_item(alloc, bytes.as_slice());
    drop(bytes);
    if let Ok((item, len)) = read {
        note_whole(&mut text, alloc, &item, row);
        note_unless(&mut text, len == row.len(), "has another length");
        drop(item);
    }
    note_unless(&mut text, have_no_item(alloc, row), "has an item in front");
    text
}

fn check_items(rt: &impl Abort, alloc: Global, rows: &[(&[u8], &str)]) {
    for (row, wanted) in rows {
        compare(rt, item_said(alloc, row), wanted);
    }
}

#[test]
fn each_kind_is_read_and_written_and_no_prefix_is_an_item(rt: HostRuntime) {
    check_items(&rt, rt.alloc(), &ROWS);
}

/// No prefix of these is an item.
static BAD: [&[u8]; 15] = [
    // no kind
    b"\x00",
    b"\x0e\x00\x00\x00\x00\x00\x00\x00\x00",
    b"\xff",
    // lengths and counts that the bytes cannot hold
    b"\x05\xff\xff\xff\xffc",
    b"\x01\xff\xff\xff\xff\x01\x00\x00\x00\x00\x00\x00\x00\x00\x00\x00\x00\x00",
    b"\x0c\xff\xff\xff\xff\x03\x00\x00\x00\x00\x00\x00\x00\x01",
    // settings of files 0 and 5
    b"\x01\x00\x00\x00\x01\x00\x00\x00\x00\x00\x00\x00\x00\x00\x00\x00\x00\x00",
    b"\x01\x00\x00\x00\x01\x05\x00\x00\x00\x00\x00\x00\x00\x00\x00\x00\x00\x00",
    // an option whose first byte is 2
    b"\x04\x00\x00\x00\x01c\x00\x00\x00\x01h\x00\x00\x00\x01s\x02\x00\x00\x00\x01t\x00\x00\x00\x00\x00",
    // areas 0 and 6
    b"\x0c\x00\x00\x00\x01\x00\x00\x00\x00\x00\x00\x00\x00\x01",
    b"\x0c\x00\x00\x00\x01\x06\x00\x00\x00\x00\x00\x00\x00\x01",
    // states 0 and 6
    b"\x06\x00\x00\x00\x00\x00\x00\x00\x00\x00\x00\x00\x07\x00\x02\x00\x00\x00\x00\x00\x00\x00\x03\x00\x00\x00\x00\x00\x00\x00\x04\x00\x00\x00\x00\x00\x00\x00\x05\x00\x00\x00\x00\x00\x00\x00\x06\xff\xff\xff\xff\xff\xff\xff\xff\x00\x00\x00\x00\x00\x00\x00\x08\x00\x00\x00\x00\x00\x00\x00\x09",
    b"\x06\x00\x00\x00\x00\x00\x00\x00\x00\x00\x00\x00\x07\x06\x02\x00\x00\x00\x00\x00\x00\x00\x03\x00\x00\x00\x00\x00\x00\x00\x04\x00\x00\x00\x00\x00\x00\x00\x05\x00\x00\x00\x00\x00\x00\x00\x06\xff\xff\xff\xff\xff\xff\xff\xff\x00\x00\x00\x00\x00\x00\x00\x08\x00\x00\x00\x00\x00\x00\x00\x09",
    // rules 0 and 4
    b"\x08\x00\x00\x00\x00\x00\x00\x00\x00\x00\x00\x00\x07\x00\x00\x00\x00\x00\x00\x00\x00\x01\x00\x00\x00\x00\x00\x00\x00\x02\x00\x00\x00\x00\x00\x00\x00\x03\x00\x00\x00\x00\x00\x00\x00\x04\x00\x00\x00\x00\x00\x00\x00\x05\x00\x00\x00\x00\x00\x00\x00\x00",
    b"\x08\x00\x00\x00\x00\x00\x00\x00\x00\x00\x00\x00\x07\x04\x00\x00\x00\x00\x00\x00\x00\x01\x00\x00\x00\x00\x00\x00\x00\x02\x00\x00\x00\x00\x00\x00\x00\x03\x00\x00\x00\x00\x00\x00\x00\x04\x00\x00\x00\x00\x00\x00\x00\x05\x00\x00\x00\x00\x00\x00\x00\x00",
];

/// Which of the bytes are an item, counted from 0.
fn items_said(alloc: Global, rows: &[&[u8]]) -> String {
    let mut text = String::new(alloc);
    for (number, bytes) in rows.iter().enumerate() {
        if !is_bad(alloc, bytes) {
            note(&mut text, number);
        }
    }
    text
}

#[test]
fn bytes_that_are_no_item_are_refused(rt: HostRuntime) {
    compare_none(&rt, items_said(rt.alloc(), &BAD));
}

/// What is said of a setting of this file: its copy, and whether it can be written.
fn setting_said(alloc: Global, file: u8) -> String {
    let mut text = String::new(alloc);
    let mut list = KeptList::new(alloc);
    let _ = list.push(Kept {
        file,
        stanza: bytes_of(alloc, b"s1"),
        key: bytes_of(alloc, b"k"),
        value: bytes_of(alloc, b"v"),
    });
    if let Ok(copies) = copy_settings(alloc, list.as_slice()) {
        for one in copies.as_slice() {
            note(&mut text, one.file);
            note_bytes(&mut text, "stanza", &one.stanza);
            note_bytes(&mut text, "key", &one.key);
            note_bytes(&mut text, "value", &one.value);
        }
        note(&mut text, are_kept(copies.as_slice()));
        drop(copies);
    }
    drop(list);
    text
}

#[test]
fn settings_are_copied_and_one_of_file_5_cannot_be_written(rt: HostRuntime) {
    let alloc = rt.alloc();
    compare(
        &rt,
        setting_said(alloc, 4),
        "4 stanza s1 key k value v true ",
    );
    compare(
        &rt,
        setting_said(alloc, 5),
        "5 stanza s1 key k value v false ",
    );
}

/// Whether an item can be written, and for a channel whether its name and what it states are short.
fn writable_said(alloc: Global, row: &[u8]) -> String {
    let mut text = String::new(alloc);
    let mut list = Sequence::new(alloc);
    if let Ok((item, _)) = read_item(alloc, row) {
        let _ = list.push(item);
    }
    note(&mut text, are_writable(list.as_slice()));
    for item in list.as_slice() {
        if let Item::Channel { name, meta, .. } = item {
            note(&mut text, is_short(name) && is_short_meta(meta));
        }
    }
    drop(list);
    text
}

#[test]
fn what_was_read_can_be_written(rt: HostRuntime) {
    let alloc = rt.alloc();
    compare(&rt, writable_said(alloc, ROWS[4].0), "true true ");
    compare(&rt, writable_said(alloc, ROWS[8].0), "true ");
}

/// Whether the items of two rows stand under one name, and whether the first one is what stands once of its kind.
fn names_said(alloc: Global, first: &[u8], second: &[u8], kind: u8) -> String {
    let mut text = String::new(alloc);
    if let Ok((one, _)) = read_item(alloc, first) {
        note(&mut text, is_only(&one, kind));
        if let Ok((other, _)) = read_item(alloc, second) {
            note(&mut text, same_name(&one, &other));
            drop(other);
        }
        drop(one);
    }
    text
}

#[test]
fn an_item_replaces_what_stands_under_its_name(rt: HostRuntime) {
    let alloc = rt.alloc();
    // a channel and its end, a bucket and its going, and that bucket's place in the ledger
    compare(
        &rt,
        names_said(alloc, ROWS[4].0, ROWS[5].0, 4),
        "false true ",
    );
    compare(
        &rt,
        names_said(alloc, ROWS[6].0, ROWS[7].0, 6),
        "false true ",
    );
    compare(
        &rt,
        names_said(alloc, ROWS[7].0, ROWS[8].0, 6),
        "false false ",
    );
    compare(
        &rt,
        names_said(alloc, ROWS[0].0, ROWS[1].0, 1),
        "true true ",
    );
}

fn first_body(alloc: Global) -> String {
    let mut text = String::new(alloc);
    let mut out = Bytes::new(alloc);
    let settings = Item::Settings {
        kept: KeptList::new(alloc),
    };
    note(&mut text, write_item(&settings, &mut out));
    drop(settings);
    let run = Item::Run { run: 1 };
    note(&mut text, write_item(&run, &mut out));
    drop(run);
    note(&mut text, out.as_slice());
    drop(out);
    text
}

#[test]
fn the_first_body_of_a_store(rt: HostRuntime) {
    let wanted = "Ok(()) Ok(()) [1, 0, 0, 0, 0, 2, 0, 0, 0, 0, 0, 0, 0, 1] ";
    compare(&rt, first_body(rt.alloc()), wanted);
    one_item();
    one_list();
}
