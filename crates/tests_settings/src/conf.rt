//! Tests of `ix_conf`: texts, layers and patterns worked by hand.

use crate::said::{add_layer, bytes_of, compare, note, put, repeat, say, shown};
use crate::tables::{Asked, check_rows};
use ix_base::{Bytes, NoMemory};
use ix_conf::{
    ConfFault, Entry, Layer, Layers, Merged, NameFault, NamePattern, built_in_zones, merge, parse,
};
use std::alloc::Global;

/// Writes `[name]` for a stanza, and `stanza|key|value` for a setting.
fn put_entry(out: &mut String, entry: &Entry) {
    match entry {
        Entry::Stanza(name) => {
            put(out, b"[");
            put(out, name.as_slice());
            put(out, b"]\n");
        }
        Entry::Pair(stanza, key, value) => {
            put(out, stanza.as_slice());
            put(out, b"|");
            put(out, key.as_slice());
            put(out, b"|");
            put(out, value.as_slice());
            put(out, b"\n");
        }
    }
}

/// The entries of a text.
pub fn entries_of(alloc: Global, text: &[u8]) -> String {
    let mut out = String::new(alloc);
    match parse(alloc, text) {
        Ok(file) => {
            for entry in file.as_slice() {
                put_entry(&mut out, entry);
            }
            drop(file);
        }
        Err(_) => put(&mut out, b"a fault"),
    }
    out
}

/// Texts, and their entries.
const ENTRIES: &str = "\
    ¦¶\
    \n \t\n\r\n¦¶\
    \u{feff}[a]\nk=v¦[a]\na|k|v\n¶\
    [a]\r\nk = v \r\n¦[a]\na|k|v\n¶\
    \t k \t=\t v w \t¦default|k|v w\n¶\
    k=v\r¦default|k|v\r\n¶\
    k=a\rb\r\r\n¦default|k|a\rb\r\n¶\
    k=a=b\nl=¦default|k|a=b\ndefault|l|\n¶\
    \x20 # [x\n#=\nk=#v¦default|k|#v\n¶\
    k=v\\¦default|k|v\n¶\
    k=v\\\n¦default|k|v\n¶\
    k=a\\\nb\\\r\nc\nl=d¦default|k|abc\ndefault|l|d\n¶\
    k = a \\\n  b¦default|k|a   b\n¶\
    k=a\\\\\n\nl=b¦default|k|a\\\ndefault|l|b\n¶\
    # c\\\nk=v¦default|k|v\n¶\
    \\\n#k=v¦default|#k|v\n¶\
    k=a\\\n# b¦default|k|a# b\n¶\
    [a]b] \nk=1¦[a]b]\na]b|k|1\n¶\
    [ a ]\n[=]\n[[b]¦[ a ]\n[=]\n[[b]\n¶\
    [a]\nK=1\n[b]\nk=2\n[a]\nK=3¦[a]\na|K|1\n[b]\nb|k|2\n[a]\na|K|3\n";

#[test]
fn a_text_has_its_entries(rt: HostRuntime) {
    check_rows(&rt, rt.alloc(), Asked::Entries, ENTRIES);
}

pub fn fault_of(alloc: Global, text: &[u8]) -> Option<ConfFault> {
    match parse(alloc, text) {
        Ok(file) => {
            drop(file);
            None
        }
        Err(fault) => Some(fault),
    }
}

/// Texts, and the fault of each.
const FAULTS: &str = "\
    [¦Some(BadStanza { line: 1 })¶\
    []¦Some(BadStanza { line: 1 })¶\
    \n\n[a]x¦Some(BadStanza { line: 3 })¶\
    \x20\t= x¦Some(NoEquals { line: 1 })¶\
    k=v\nx\\\ny\n[z¦Some(NoEquals { line: 2 })¶\
    k=a\\\nb\nx¦Some(NoEquals { line: 3 })¶\
    # a\n\nx¦Some(NoEquals { line: 3 })¶\
    [a\nx¦Some(BadStanza { line: 1 })¶\
    x\n[a¦Some(NoEquals { line: 1 })";

/// The faults of bytes that are no text.
fn no_text_said(alloc: Global) -> String {
    let mut text = String::new(alloc);
    note(&mut text, fault_of(alloc, b"\xFF"));
    note(&mut text, fault_of(alloc, b"k=v\nab\xC3"));
    note(&mut text, fault_of(alloc, b"\xEF\xBB\xBF\xC3\xA4=\xC0"));
    note(&mut text, fault_of(alloc, b"x\n\xED\xA0\x80"));
    text
}

#[test]
fn the_first_fault_is_answered(rt: HostRuntime) {
    check_rows(&rt, rt.alloc(), Asked::Fault, FAULTS);
    let wanted =
        "Some(NotUtf8 { at: 0 }) Some(NotUtf8 { at: 6 }) Some(NotUtf8 { at: 6 }) Some(NotUtf8 { at: 2 })";
    compare(&rt, no_text_said(rt.alloc()), wanted);
}

/// Writes the fault of a stanza's line with a name of so many bytes.
fn note_stanza(text: &mut String, alloc: Global, len: usize) {
    let mut line = bytes_of(alloc, b"[");
    repeat(&mut line, b"n", len);
    let _ = line.push(b']');
    note(text, fault_of(alloc, line.as_slice()));
    drop(line);
}

fn sizes_said(alloc: Global) -> String {
    let mut text = String::new(alloc);
    note_stanza(&mut text, alloc, 1_024);
    note_stanza(&mut text, alloc, 1_025);
    let mut lines = vec![in alloc; b'\n'; 1_048_576].unwrap_or(Vec::new(alloc));
    note(&mut text, fault_of(alloc, &lines));
    let _ = lines.push(0xFF);
    note(&mut text, fault_of(alloc, &lines));
    drop(lines);
    text
}

#[test]
fn sizes_have_their_limits(rt: HostRuntime) {
    let wanted = "None Some(BadStanza { line: 1 }) None Some(TooLong)";
    compare(&rt, sizes_said(rt.alloc()), wanted);
}

/// Writes a value and the layer that it is from.
fn note_value(text: &mut String, merged: &Merged, stanza: &[u8], key: &[u8]) {
    match merged.get(stanza, key) {
        Some(setting) => {
            say(text, shown(setting.value));
            say(text, shown(setting.layer));
        }
        None => say(text, "none"),
    }
}

/// Writes the stanza, the key and the value of an entry.
fn note_item(text: &mut String, merged: &Merged, at: usize) {
    match merged.item(at) {
        Some(item) => {
            say(text, shown(item.stanza));
            say(text, shown(item.key));
            say(text, shown(item.value));
        }
        None => say(text, "none"),
    }
}

/// How many entries there are, by asking for one after the other.
fn count_items(merged: &Merged) -> usize {
    let mut count = 0;
    for at in 0..100 {
        if merged.item(at).is_some() {
            count = at + 1;
        }
    }
    count
}

fn has_listing(alloc: Global, merged: &Merged, wanted: &[u8]) -> bool {
    match merged.list(alloc) {
        Ok(text) => {
            let is_listed = text.as_slice() == wanted;
            drop(text);
            is_listed
        }
        Err(NoMemory) => false,
    }
}

/// Two apps, of which `10` comes before `9`, below the settings of the system.
fn merge_apps(alloc: Global) -> Result<Merged, NoMemory> {
    let mut layers = Layers::new(alloc);
    let system = b"LINE_BREAKER =\n[web]\npriority=1\npriority=2\n";
    add_layer(alloc, &mut layers, b"etc/system/local", system);
    let ten = b"[web]\nTRUNCATE=5\n[web]\nA=x\n[Alone]\n";
    add_layer(alloc, &mut layers, b"etc/apps/10/local", ten);
    let nine = b"[web]\nTRUNCATE=7\npriority=3\nB=\n[default]\nLINE_BREAKER=(;)\n";
    add_layer(alloc, &mut layers, b"etc/apps/9/local", nine);
    let merged = merge(alloc, &layers);
    drop(layers);
    merged
}

fn values_said(alloc: Global) -> String {
    let mut text = String::new(alloc);
    if let Ok(merged) = merge_apps(alloc) {
        note_value(&mut text, &merged, b"web", b"TRUNCATE");
        note_value(&mut text, &merged, b"web", b"priority");
        note_value(&mut text, &merged, b"default", b"LINE_BREAKER");
        note_value(&mut text, &merged, b"web", b"truncate");
        note(&mut text, merged.has(b"Alone"));
        note(&mut text, merged.has(b"alone"));
        drop(merged);
    }
    text
}

#[test]
fn the_first_layer_counts_and_in_it_the_last_value(rt: HostRuntime) {
    // The last value is empty, and a key in other letters is another one.
    let wanted = "5 etc/apps/10/local 2 etc/system/local  etc/system/local none true false";
    compare(&rt, values_said(rt.alloc()), wanted);
}

const LISTING: &[u8] = b"[Alone]
[default]
etc/system/local LINE_BREAKER=
[web]
etc/apps/10/local A=x
etc/apps/9/local B=
etc/apps/10/local TRUNCATE=5
etc/system/local priority=2
";

fn order_said(alloc: Global) -> String {
    let mut text = String::new(alloc);
    if let Ok(merged) = merge_apps(alloc) {
        note_item(&mut text, &merged, 0);
        note_item(&mut text, &merged, 4);
        note(&mut text, count_items(&merged));
        note(&mut text, has_listing(alloc, &merged, LISTING));
        drop(merged);
    }
    text
}

#[test]
fn entries_are_numbered_and_listed_in_order(rt: HostRuntime) {
    compare(&rt, order_said(rt.alloc()), "Alone   web A x 8 true");
}

/// Whether a name fits; nothing where the text is no pattern.
pub fn name_fits(alloc: Global, text: &[u8], fold: bool, name: &[u8]) -> Option<bool> {
    match NamePattern::read(alloc, text, fold) {
        Ok(pattern) => {
            let fits = pattern.fits(alloc, name);
            drop(pattern);
            fits.ok()
        }
        Err(_) => None,
    }
}

/// Patterns, names, and whether these fit.
const NAMES: &str = "\
    ¦¦Some(true)¶\
    ¦a¦Some(false)¶\
    /var/log/*.log¦/var/log/.log¦Some(true)¶\
    /var/log/*.log¦/var/log/a/b.log¦Some(false)¶\
    /var/.../b.log¦/var/log/a/b.log¦Some(true)¶\
    /var/.../b.log¦/var/b.log¦Some(false)¶\
    ...¦¦Some(true)¶\
    ....¦a¦Some(false)¶\
    ....¦a.¦Some(true)¶\
    ....¦.¦Some(true)¶\
    ..¦ab¦Some(false)¶\
    ..¦..¦Some(true)¶\
    a|b¦a¦Some(true)¶\
    a|b¦b¦Some(true)¶\
    a|b¦ab¦Some(false)¶\
    ab|cd¦abd¦Some(false)¶\
    x(a|bc)y¦xbcy¦Some(true)¶\
    x(a|bc)y¦xy¦Some(false)¶\
    (|a)b|c()¦b¦Some(true)¶\
    (|a)b|c()¦c¦Some(true)¶\
    ((a|b)c|d)*¦bcxx¦Some(true)¶\
    ((a|b)c|d)*¦cxx¦Some(false)¶\
    a\\\\b¦a\\b¦Some(true)¶\
    a\\b¦a\\b¦Some(true)¶\
    a\\\\\\b¦a\\\\b¦Some(true)¶\
    a.c?[d]¦abc?[d]¦Some(false)¶\
    Web*¦wEB01¦Some(false)";

/// The same where letters fit in either case.
const FOLDED: &str = "\
    Web*¦wEB01¦Some(true)¶\
    [¦{¦Some(false)";

#[test]
fn names_fit_their_patterns(rt: HostRuntime) {
    check_rows(&rt, rt.alloc(), Asked::Name, NAMES);
    check_rows(&rt, rt.alloc(), Asked::Folded, FOLDED);
}

pub fn is_bad(alloc: Global, text: &[u8]) -> bool {
    match NamePattern::read(alloc, text, false) {
        Ok(pattern) => {
            drop(pattern);
            false
        }
        Err(fault) => fault == NameFault::BadPattern,
    }
}

/// Patterns of names, and whether they are refused.
const PAIRS: &str = "\
    (¦true¶\
    )¦true¶\
    a)(b¦true¶\
    ((a)¦true¶\
    (?i)a¦true¶\
    a(b|(?c))¦true¶\
    (a?)?¦false¶\
    (|?)¦false¶\
    \\(a)¦false";

#[test]
fn parentheses_pair_and_no_question_follows_them(rt: HostRuntime) {
    check_rows(&rt, rt.alloc(), Asked::Bad, PAIRS);
}

/// Writes whether a long name fits a pattern.
fn note_work(text: &mut String, alloc: Global, pattern: &Bytes) {
    let name = vec![in alloc; b'a'; 4_096].unwrap_or(Vec::new(alloc));
    note(text, name_fits(alloc, pattern.as_slice(), false, &name));
    drop(name);
}

fn note_alternatives(text: &mut String, alloc: Global) {
    let mut pattern = Bytes::new(alloc);
    repeat(&mut pattern, b"(a|a)", 204);
    note_work(text, alloc, &pattern);
    drop(pattern);
}

fn note_nested(text: &mut String, alloc: Global) {
    let mut pattern = Bytes::new(alloc);
    repeat(&mut pattern, b"(", 500);
    let _ = pattern.extend(b"...a");
    repeat(&mut pattern, b")", 500);
    note_work(text, alloc, &pattern);
    drop(pattern);
}

fn note_dots(text: &mut String, alloc: Global) {
    let mut pattern = Bytes::new(alloc);
    repeat(&mut pattern, b"...a", 255);
    note_work(text, alloc, &pattern);
    let _ = pattern.push(b'b');
    note_work(text, alloc, &pattern);
    drop(pattern);
}

fn work_said(alloc: Global) -> String {
    let mut text = String::new(alloc);
    note_alternatives(&mut text, alloc);
    note_nested(&mut text, alloc);
    note_dots(&mut text, alloc);
    text
}

/// Each of these would take longer than the world stands if alternatives or dots were tried one after the other; each token is
/// held once against each place, so they end at once.
#[test]
fn work_grows_with_the_product_of_the_lengths(rt: HostRuntime) {
    let wanted = "Some(false) Some(true) Some(true) Some(false)";
    compare(&rt, work_said(rt.alloc()), wanted);
}

/// The built-in zones below a file that has one of them.
fn merge_zones(alloc: Global) -> Result<Merged, NoMemory> {
    let mut layers = Layers::new(alloc);
    add_layer(
        alloc,
        &mut layers,
        b"etc/system/local",
        b"[Europe/Berlin]\nRULE=X1\n",
    );
    if let Ok(file) = built_in_zones(alloc) {
        let name = bytes_of(alloc, b"built-in");
        let _ = layers.push(Layer { name, file });
    }
    let merged = merge(alloc, &layers);
    drop(layers);
    merged
}

fn zones_said(alloc: Global) -> String {
    let mut text = String::new(alloc);
    if let Ok(merged) = merge_zones(alloc) {
        note_value(&mut text, &merged, b"Europe/Berlin", b"RULE");
        note_value(&mut text, &merged, b"Europe/London", b"RULE");
        note(&mut text, count_items(&merged));
        drop(merged);
    }
    text
}

#[test]
fn zones_are_built_in_below_the_files(rt: HostRuntime) {
    let wanted = "X1 etc/system/local GMT0BST,M3.5.0/1,M10.5.0 built-in 24";
    compare(&rt, zones_said(rt.alloc()), wanted);
}
