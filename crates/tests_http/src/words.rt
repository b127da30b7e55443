//! Words and what they ask for, worked by hand.

use crate::said::{compare, note, say};
use indexd_cli::{UsageFault, lend_words, read_words};
use ix_base::Text;
use std::alloc::Global;

fn add_word(alloc: Global, words: &mut Vec<Text>, word: &str) {
    if let Ok(word) = String::from_str(alloc, word) {
        let _ = words.push(Text::from_string(word));
    }
}

/// The words of a line, which has `|` between them; an empty line has none.
fn words_of(alloc: Global, line: &str) -> Vec<Text> {
    let mut words = Vec::new(alloc);
    if !line.is_empty() {
        for word in line.split('|') {
            add_word(alloc, &mut words, word);
        }
    }
    words
}

/// Writes the order of these words, or why there is none.
fn note_order(text: &mut String, alloc: Global, words: &[&str]) {
    match read_words(alloc, words) {
        Ok(order) => {
            let _ = write!(text, "{order:?}");
        }
        Err(UsageFault::Usage) => {
            let _ = text.push_str("usage");
        }
        Err(UsageFault::NoMemory) => {
            let _ = text.push_str("no memory");
        }
    }
}

/// What the words of a line come to.
fn outcome(alloc: Global, line: &str) -> String {
    let mut text = String::new(alloc);
    let words = words_of(alloc, line);
    if let Ok(lent) = lend_words(alloc, &words) {
        note_order(&mut text, alloc, &lent);
        drop(lent);
    }
    drop(words);
    text
}

/// Lines of words, and what each comes to; options come in any order, some with `=`.
const CASES: &str = "\
    preview|--host|web 1|--source|/var/log/x -> Preview { origin: Origin { host: \"web 1\", source: \"/var/log/x\", sourcetype: None, index: None }, store: false }\n\
    preview|--store|--index=|--source=-|--sourcetype|t|--host=-h -> Preview { origin: Origin { host: \"-h\", source: \"-\", sourcetype: Some(\"t\"), index: Some(\"\") }, store: true }\n\
    preview|--host|-|--source|=|-- -> Preview { origin: Origin { host: \"-\", source: \"=\", sourcetype: None, index: None }, store: false }\n\
    preview|--host|h -> usage\n\
    preview|--source|s -> usage\n\
    preview|--host|h|--source -> usage\n\
    preview|--host|h|--source| -> usage\n\
    preview|--host=|--source|s -> usage\n\
    preview|--host|h|--source|s|--sourcetype= -> usage\n\
    preview|--host|-h|--source|s -> usage\n\
    preview|--host|h|--host|h|--source|s -> usage\n\
    preview|--host|h|--source|s|--store=true -> usage\n\
    preview|--host|h|--source|s|more -> usage\n\
    --host|h|--source|s|preview -> usage\n\
    btool|props -> Btool { file: \"props\" }\n\
    btool|zones -> Btool { file: \"zones\" }\n\
    btool|--|inputs -> Btool { file: \"inputs\" }\n\
    btool|server -> usage\n\
    btool -> usage\n\
    btool|props|list -> usage\n\
    feed -> Feed\n\
    feed|x -> usage\n\
    serve|--port|0|--requests|1 -> Serve { port: 0, requests: 1 }\n\
    serve|--requests=1000000|--port=65535 -> Serve { port: 65535, requests: 1000000 }\n\
    serve|--port|65536|--requests|1 -> usage\n\
    serve|--port|1|--requests|0 -> usage\n\
    serve|--port|1|--requests|1000001 -> usage\n\
    serve|--port|+1|--requests|1 -> usage\n\
    serve|--port|01|--requests|1 -> usage\n\
    serve|--port|1 -> usage\n\
    monitor -> Monitor { close: false }\n\
    monitor|--close -> Monitor { close: true }\n\
    monitor|--closed -> usage\n\
    buckets -> Buckets\n\
    export|main -> Export { index: \"main\", range: Range { earliest: None, latest: None } }\n\
    export|--latest|00000000007|main|--earliest=-99999999999 -> Export { index: \"main\", range: Range { earliest: Some(-99999999999), latest: Some(7) } }\n\
    export|main|--latest=100000000000 -> usage\n\
    export|main|--earliest= -> usage\n\
    export|main|--earliest=- -> usage\n\
    export|main|--earliest|-5 -> usage\n\
    export|main|--latest=1.5 -> usage\n\
    roll| -> Roll { index: \"\" }\n\
    thaw|main|18446744073709551615 -> Thaw { index: \"main\", id: 18446744073709551615 }\n\
    thaw|main|18446744073709551616 -> usage\n\
    tick -> Tick\n\
    selftest|7|30000 -> Selftest { seed: 7, count: 30000 }\n\
    selftest|7|1000001 -> usage\n\
    \x20-> usage\n\
    help -> usage\n\
    --help -> usage\n\
    preview|--help -> usage";

/// Writes a row of which the line comes to anything else than it should, with what it comes to.
fn note_unlike(unlike: &mut String, alloc: Global, row: &str) {
    let (line, wanted) = row.split_once(" -> ").unwrap_or((row, ""));
    let found = outcome(alloc, line);
    if found.as_str() != wanted {
        say(unlike, row);
        say(unlike, "but");
        say(unlike, found.as_str());
    }
    drop(found);
}

fn rows_unlike(alloc: Global, rows: &str) -> String {
    let mut unlike = String::new(alloc);
    for row in rows.lines() {
        note_unlike(&mut unlike, alloc, row);
    }
    unlike
}

#[test]
fn words_ask_for_commands(rt: HostRuntime) {
    compare(&rt, rows_unlike(rt.alloc(), CASES), "");
}

/// Writes whether these names are taken.
fn note_names(text: &mut String, alloc: Global, name: &str, sourcetype: &str) {
    let words = [
        "preview",
        "--host",
        name,
        "--source",
        name,
        "--sourcetype",
        sourcetype,
    ];
    note(text, read_words(alloc, &words).is_ok());
}

fn many(alloc: Global, count: usize) -> String {
    "n".repeat(alloc, count).unwrap_or(String::new(alloc))
}

fn names_said(alloc: Global) -> String {
    let mut text = String::new(alloc);
    let name = many(alloc, 1024);
    let longer = many(alloc, 1025);
    note_names(&mut text, alloc, name.as_str(), name.as_str());
    note_names(&mut text, alloc, name.as_str(), longer.as_str());
    drop(longer);
    drop(name);
    text
}

/// The longest names, and one byte more.
#[test]
fn names_have_their_length(rt: HostRuntime) {
    compare(&rt, names_said(rt.alloc()), "true false ");
}
