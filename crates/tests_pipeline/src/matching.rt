//! Tests of `ix_match`: matches as another engine finds them, and attempts at one place.

ghost use Rattle.std.specs.Prelude.{◌≡◌, ◌<◌, ◌≤◌, [], length, OnOk};

use crate::said::{compare, filled, put, put_unlike};
use ix_base::{NoMemory, Steps};
use ix_match::{Found, Look, Regex, Scan, find};
use ix_pattern::Pattern;
use std::alloc::Global;
use std::marker::Brand;
use std::sync::ledger::{Blank, Ledger};

/// Patterns, texts, places to begin at and the matches there with their groups, with `¦` between, and `¶` between the rows. The
/// matches were made with Python 3.11: `re.compile(pattern).search(text, from)` over bytes. These patterns mean the same in both.
const ROWS: &str = "\
    a¦a¦0¦0-1¶\
    a¦ba¦0¦1-2¶\
    a¦b¦0¦none¶\
    abc¦ababc¦0¦2-5¶\
    a.c¦a\nc¦0¦none¶\
    a.c¦abc¦0¦0-3¶\
    a.c¦ac¦0¦none¶\
    (?s)a.c¦a\nc¦0¦0-3¶\
    ^a¦a¦0¦0-1¶\
    ^a¦ba¦0¦none¶\
    ^a¦b\na¦0¦none¶\
    (?m)^a¦b\na¦0¦2-3¶\
    (?m)^a¦ba¦0¦none¶\
    a$¦a¦0¦0-1¶\
    a$¦a\n¦0¦0-1¶\
    a$¦a\n\n¦0¦none¶\
    a$¦ab¦0¦none¶\
    (?m)a$¦a\nb¦0¦0-1¶\
    (?m)a$¦ab\na¦0¦3-4¶\
    ^$¦¦0¦0-0¶\
    ^$¦\n¦0¦0-0¶\
    ^$¦a¦0¦none¶\
    (?m)^$¦a\n\nb¦0¦2-2¶\
    ^¦abc¦0¦0-0¶\
    $¦abc¦0¦3-3¶\
    $¦abc\n¦0¦3-3¶\
    ^a¦aa¦1¦none¶\
    a¦aba¦1¦2-3¶\
    \\ba¦ba a¦1¦3-4¶\
    $¦ab¦2¦2-2¶\
    [abc]¦xbz¦0¦1-2¶\
    [^abc]¦abcd¦0¦3-4¶\
    [^abc]¦\n¦0¦0-1¶\
    [a-c]+¦xabcd¦0¦1-4¶\
    []a]+¦a]b¦0¦0-2¶\
    [^]a]¦a]b¦0¦2-3¶\
    [a-]+¦-a-b¦0¦0-3¶\
    [-a]+¦-a-b¦0¦0-3¶\
    [\\d-]+¦1-2a¦0¦0-3¶\
    [\\w.]+¦a.b c¦0¦0-3¶\
    [\\s]+¦a \t\nb¦0¦1-4¶\
    [^\\s]+¦ ab ¦0¦1-3¶\
    [\\x41-\\x43]+¦xABCD¦0¦1-4¶\
    [\\]\\\\]+¦a]\\b¦0¦1-3¶\
    [+--]+¦a+,-b¦0¦1-4¶\
    [\\t ]+¦a\t b¦0¦1-3¶\
    [\\D]+¦12ab3¦0¦2-4¶\
    [\\W]+¦ab, cd¦0¦2-4¶\
    [\\S\\n]+¦ a\nb c¦0¦1-4¶\
    \\d+¦a123b¦0¦1-4¶\
    \\D+¦12ab34¦0¦2-4¶\
    \\w+¦-ab_1-¦0¦1-5¶\
    \\W+¦ab, cd¦0¦2-4¶\
    \\s+¦a \r\n\tb¦0¦1-5¶\
    \\S+¦ ab ¦0¦1-3¶\
    \\.¦a.b¦0¦1-2¶\
    \\(\\)¦a()b¦0¦1-3¶\
    \\x61¦xa¦0¦1-2¶\
    \\r\\n¦a\r\n¦0¦1-3¶\
    \\t¦a\tb¦0¦1-2¶\
    \\f¦a\x0cb¦0¦1-2¶\
    \\\\¦a\\b¦0¦1-2¶\
    \\[\\]\\{\\}¦[]{}¦0¦0-4¶\
    \\$\\^\\*\\+\\?\\|¦$^*+?|¦0¦0-6¶\
    \\bab\\b¦cab ab¦0¦4-6¶\
    \\bab\\b¦ab¦0¦0-2¶\
    \\bab\\b¦cabc¦0¦none¶\
    a\\b¦ab a¦0¦3-4¶\
    \\b¦  ab¦0¦2-2¶\
    \\b¦¦0¦none¶\
    \\b¦  ¦0¦none¶\
    a*¦aaab¦0¦0-3¶\
    a*¦baa¦0¦0-0¶\
    a+¦baab¦0¦1-3¶\
    a+¦b¦0¦none¶\
    a?b¦aab¦0¦1-3¶\
    a?b¦b¦0¦0-1¶\
    a{2}¦aaa¦0¦0-2¶\
    a{2}¦a¦0¦none¶\
    a{2,}¦aaaa¦0¦0-4¶\
    a{2,}¦a¦0¦none¶\
    a{1,2}¦aaa¦0¦0-2¶\
    a{0}b¦ab¦0¦1-2¶\
    a{0,1}b¦aab¦0¦1-3¶\
    a*?b¦aab¦0¦0-3¶\
    a+?¦aaa¦0¦0-1¶\
    a??b¦ab¦0¦0-2¶\
    a{1,3}?¦aaa¦0¦0-1¶\
    a{2,}?¦aaaa¦0¦0-2¶\
    a{2}?¦aaaa¦0¦0-2¶\
    <.+>¦<a><b>¦0¦0-6¶\
    <.+?>¦<a><b>¦0¦0-3¶\
    (a+)(a+)¦aaaa¦0¦0-4 0-3 3-4¶\
    (a+?)(a+)¦aaaa¦0¦0-4 0-1 1-4¶\
    (a*)(ab)*(b*)¦abab¦0¦0-2 0-1 - 1-2¶\
    (a{1,2})(a{1,2})¦aaa¦0¦0-3 0-2 2-3¶\
    (?:ab){2,3}¦abababab¦0¦0-6¶\
    (?:a|b){3}¦abab¦0¦0-3¶\
    a{x}¦a{x}¦0¦0-4¶\
    {¦{¦0¦0-1¶\
    a}¦a}¦0¦0-2¶\
    a|b¦cb¦0¦1-2¶\
    a|ab¦ab¦0¦0-1¶\
    ab|a¦ab¦0¦0-2¶\
    (a|ab)(c|bcd)¦abcd¦0¦0-4 0-1 1-4¶\
    |a¦a¦0¦0-0¶\
    a|¦b¦0¦0-0¶\
    (|a)b¦ab¦0¦0-2 0-1¶\
    a||b¦b¦0¦0-0¶\
    (?:a|b)c¦abc¦0¦1-3¶\
    abc|ab|a¦abd¦0¦0-2¶\
    x(a|b|)y¦xy¦0¦0-2 1-1¶\
    x(a|b|)y¦xby¦0¦0-3 1-2¶\
    (a)(b)?¦a¦0¦0-1 0-1 -¶\
    (a)(b)?¦ab¦0¦0-2 0-1 1-2¶\
    (a)|(b)¦b¦0¦0-1 - 0-1¶\
    ((a)(b))¦ab¦0¦0-2 0-2 0-1 1-2¶\
    (a(b)?)+¦aba¦0¦0-3 2-3 1-2¶\
    (?:(a)|(b))+¦ab¦0¦0-2 0-1 1-2¶\
    (?:(a)|(b))+¦ba¦0¦0-2 1-2 0-1¶\
    (a|b)+¦ab¦0¦0-2 1-2¶\
    (\\w+)@(\\w+)\\.com¦me@site.com¦0¦0-11 0-2 3-7¶\
    (?:a)(b)¦ab¦0¦0-2 1-2¶\
    (a*)b¦b¦0¦0-1 0-0¶\
    (a*)b¦aab¦0¦0-3 0-2¶\
    (((a)))¦a¦0¦0-1 0-1 0-1 0-1¶\
    (a)(?:b(c)?)+¦abbc¦0¦0-4 0-1 3-4¶\
    (x)?(y)?z¦xz¦0¦0-2 0-1 -¶\
    (x)?(y)?z¦yz¦0¦0-2 - 0-1¶\
    (x)?(y)?z¦z¦0¦0-1 - -¶\
    a(?=b)¦acab¦0¦2-3¶\
    a(?!b)¦abac¦0¦2-3¶\
    a(?!b)¦ab¦0¦none¶\
    (?=a)a¦ba¦0¦1-2¶\
    (?!a).¦ab¦0¦1-2¶\
    \\w+(?=:)¦key: v¦0¦0-3¶\
    (?=.*b)a¦xab¦0¦1-2¶\
    (?=.*b)a¦xa¦0¦none¶\
    (?!.*b)a¦aab a¦0¦4-5¶\
    a(?=$)¦aa¦0¦1-2¶\
    (?=^)a¦a¦0¦0-1¶\
    (?:(?!ab).)+¦xyab¦0¦0-2¶\
    (?=a|b)\\w¦cb¦0¦1-2¶\
    ([\\r\\n]+)(?=\\d{4}-)¦a\nb\n2024-01¦0¦3-4 3-4¶\
    (?i)abc¦xAbC¦0¦1-4¶\
    (?i)[a-c]+¦xABcd¦0¦1-4¶\
    (?i)[^a]¦Ab¦0¦1-2¶\
    (?im)^a$¦b\nA¦0¦2-3¶\
    (?is)a.b¦A\nB¦0¦0-3¶\
    (?i)\\x41¦a¦0¦0-1¶\
    (?ms)^.+$¦a\nb¦0¦0-3¶\
    (?i)k\\d¦K1¦0¦0-2¶\
    ^(\\S+) (\\S+) (\\S+) \\[([^\\]]+)\\] \"([^\"]*)\" (\\d+) (\\d+)$¦10.0.0.7 - - [14/Nov/2023:22:10:03 +0000] \"GET / HTTP/1.1\" 200 512¦0¦0-66 0-8 9-10 11-12 14-40 43-57 59-62 63-66¶\
    \\d{1,3}(?:\\.\\d{1,3}){3}¦10.0.0.7 - - [14/Nov/2023:22:10:03 +0000] \"GET / HTTP/1.1\" 200 512¦0¦0-8¶\
    \"(GET|POST) (\\S+)¦10.0.0.7 - - [14/Nov/2023:22:10:03 +0000] \"GET / HTTP/1.1\" 200 512¦0¦42-48 43-46 47-48¶\
    (\\d+) (\\d+)$¦10.0.0.7 - - [14/Nov/2023:22:10:03 +0000] \"GET / HTTP/1.1\" 200 512¦0¦59-66 59-62 63-66¶\
    \\[(\\d+)/(\\w+)/(\\d{4})¦10.0.0.7 - - [14/Nov/2023:22:10:03 +0000] \"GET / HTTP/1.1\" 200 512¦0¦13-25 14-16 17-20 21-25¶\
    ([\\r\\n]+)¦a\r\n\nb¦0¦1-4 1-4¶\
    ([\\r\\n]+)¦ab¦0¦none¶\
    end(\\n)begin|end2(\\n)begin2|begin3¦b end2\nbegin2 c¦0¦2-13 - 6-7¶\
    end(\\n)begin|end2(\\n)begin2|begin3¦c begin3 d¦0¦2-8 - -¶\
    (\\w+)=(\"[^\"]*\"|\\S+)¦k=\"v w\" x=1¦0¦0-7 0-1 2-7";

/// Writes two places.
fn put_span(said: &mut String, from: usize, to: usize) {
    put(said, from);
    put(said, "-");
    put(said, to);
}

/// Writes the places of a match and of its groups, in short.
fn note_places(said: &mut String, found: &Found) {
    put_span(said, found.start, found.end);
    for group in found.groups.as_slice() {
        put(said, " ");
        match group {
            Some((from, to)) => put_span(said, *from, *to),
            None => put(said, "-"),
        }
    }
}

/// What a search came to, in short.
fn in_short(alloc: Global, found: Result<Option<Found>, NoMemory>) -> String {
    let mut said = String::new(alloc);
    match found {
        Ok(Some(found)) => {
            note_places(&mut said, &found);
            drop(found);
        }
        Ok(None) => put(&mut said, "none"),
        Err(NoMemory) => put(&mut said, "no memory"),
    }
    said
}

/// A pattern, a text that is searched for it from a place on, and what is to be found there.
#[derive(Clone, Copy)]
struct Sought<'a> {
    pattern: &'a str,
    text: &'a [u8],
    from: usize,
    wanted: &'a str,
}

/// Writes what a finder finds, where that is not what is wanted.
fn note_by(unlike: &mut String, alloc: Global, sought: Sought<'_>, finder: Result<Regex, NoMemory>)
    requires { sought.from ≤ length sought.text.now }
{
    match finder {
        Ok(finder) => {
            let found = finder.find(alloc, sought.text, sought.from);
            drop(finder);
            let found = in_short(alloc, found);
            put_unlike(unlike, sought.pattern, found, sought.wanted);
        }
        Err(NoMemory) => put(unlike, "no finder\n"),
    }
}

/// Writes what is found by `find`, by a finder and by a copy of it, where that is not what is wanted.
fn note_found(unlike: &mut String, alloc: Global, sought: Sought<'_>, p: Pattern)
    requires { sought.from ≤ length sought.text.now }
{
    let found = in_short(alloc, find(alloc, &p, sought.text, sought.from));
    put_unlike(unlike, sought.pattern, found, sought.wanted);
    match Regex::new(alloc, p) {
        Ok(finder) => {
            note_by(unlike, alloc, sought, finder.copy());
            note_by(unlike, alloc, sought, Ok(finder));
        }
        Err(NoMemory) => put(unlike, "no finder\n"),
    }
}

/// The same for the text of a pattern.
fn note_sought(unlike: &mut String, alloc: Global, sought: Sought<'_>) {
    if sought.from > sought.text.len() {
        put(unlike, "no place\n");
    } else if let Ok(p) = Pattern::read(alloc, sought.pattern.as_bytes()) {
        note_found(unlike, alloc, sought, p);
    } else {
        put(unlike, "no pattern\n");
    }
}

/// What a row seeks.
fn sought_of(row: &str) -> Sought<'_> {
    let mut fields = row.split('¦');
    let pattern = fields.next().unwrap_or("");
    let text = fields.next().unwrap_or("").as_bytes();
    let from = fields.next().unwrap_or("");
    let wanted = fields.next().unwrap_or("");
    Sought {
        pattern,
        text,
        from: from.parse().unwrap_or(usize::MAX),
        wanted,
    }
}

fn rows_unlike(alloc: Global) -> String {
    let mut unlike = String::new(alloc);
    for row in ROWS.split('¶') {
        note_sought(&mut unlike, alloc, sought_of(row));
    }
    unlike
}

#[test]
fn finds_what_the_regular_expressions_of_python_find(rt: HostRuntime) {
    compare(&rt, rows_unlike(rt.alloc()), "");
}

/// A pattern, the text, which is some bytes, one byte so many times, and others, and what is to be found from its first place on.
type Filled = (
    &'static str,
    &'static [u8],
    u8,
    usize,
    &'static [u8],
    &'static str,
);

/// A lookahead sees 255 bytes, and the text counts as closed there.
static AHEAD: [Filled; 4] = [
    ("x?(?=a{255})", b"", b'a', 300, b"", "0-0"),
    ("x?(?=a{256})", b"", b'a', 300, b"", "none"),
    ("x?(?=a{255}$)", b"", b'a', 300, b"", "0-0"),
    ("x?(?=a{254}$)", b"", b'a', 300, b"", "46-46"),
];

/// Where an attempt at each place would take long, one walk tells where the match begins, also behind a finder that has given up going back; and a
/// group that turns often is that of its last turn.
static LONG: [Filled; 3] = [
    ("(x+x+)+y", b"", b'x', 3000, b"", "none"),
    ("(x+x+)+y", b"", b'x', 3000, b"zxxxy", "3001-3005 3001-3004"),
    (
        "^(?:(x)|(z))+y",
        b"z",
        b'x',
        3000,
        b"y",
        "0-3002 3000-3001 0-1",
    ),
];

fn filled_unlike(alloc: Global, rows: &[Filled]) -> String {
    let mut unlike = String::new(alloc);
    for (pattern, before, byte, count, behind, wanted) in rows {
        if let Ok(text) = filled(alloc, before, *byte, *count, behind) {
            let sought = Sought {
                pattern,
                text: text.as_slice(),
                from: 0,
                wanted,
            };
            note_sought(&mut unlike, alloc, sought);
            drop(text);
        } else {
            put(&mut unlike, "no text\n");
        }
    }
    unlike
}

#[test]
fn a_lookahead_sees_so_far(rt: HostRuntime) {
    compare(&rt, filled_unlike(rt.alloc(), &AHEAD), "");
}

#[test]
fn long_searches_find_the_same(rt: HostRuntime) {
    compare(&rt, filled_unlike(rt.alloc(), &LONG), "");
}

/// A text at whose first place is looked.
#[derive(Clone, Copy)]
struct Text<'a> {
    /// The byte before.
    before: Option<u8>,
    bytes: &'a [u8],
    closed: bool,
}

/// What the first attempt of a scan comes to.
fn looked<L: Ledger>(
    p: &Pattern,
    mut scan: Scan,
    text: Text<'_>,
    steps: &mut Steps<L>,
) -> Result<Look, NoMemory>
    requires pattern { p.now ≡ scan.pattern }
    requires fresh { scan.given ≡ [] }
{
    let look = scan.advance(p, text.before, text.bytes, text.closed, steps);
    drop(scan);
    look
}

/// What the first attempt with a pattern comes to.
fn attempt_in<L: Ledger>(
    alloc: Global,
    p: &Pattern,
    text: Text<'_>,
    blank: Blank,
) -> Result<Look, NoMemory>
    requires name { blank.name ≡ L.name }
    requires parts { blank.parts ≡ L.parts }
    requires some { 0 < blank.parts }
{
    let scan = Scan::new(alloc, p)?;
    let mut steps = Steps::<L>::new(blank);
    looked(p, scan, text, &mut steps)
}

fn attempt(alloc: Global, p: &Pattern, text: Text<'_>) -> Result<Look, NoMemory> {
    attempt_in::<Brand>(alloc, p, text, Blank::new(1))
}

/// Writes what an attempt came to, in short.
fn note_look(said: &mut String, look: Result<Look, NoMemory>) {
    match look {
        Ok(Look::Found(found)) => {
            note_places(said, &found);
            drop(found);
        }
        Ok(Look::No) => put(said, "none"),
        Ok(Look::More) => put(said, "more"),
        Err(NoMemory) => put(said, "no memory"),
    }
}

/// What the first attempt with a pattern's text comes to, in short; nothing where it is no pattern.
fn attempted(alloc: Global, pattern: &str, text: Text<'_>) -> String {
    let mut said = String::new(alloc);
    if let Ok(p) = Pattern::read(alloc, pattern.as_bytes()) {
        note_look(&mut said, attempt(alloc, &p, text));
        drop(p);
    }
    said
}

/// A pattern, the byte before, what stands in the text and how often, whether the text is closed, and what the attempt comes to.
type Attempt = (
    &'static str,
    Option<u8>,
    &'static str,
    usize,
    bool,
    &'static str,
);

static ATTEMPTS: [Attempt; 44] = [
    ("a", None, "a", 1, false, "0-1"),
    ("a", None, "b", 1, false, "none"),
    ("a", None, "", 1, false, "more"),
    ("a", None, "", 1, true, "none"),
    ("a*", None, "", 1, false, "more"),
    ("a*", None, "", 1, true, "0-0"),
    ("a*?", None, "", 1, false, "0-0"),
    ("a+", None, "aa", 1, false, "more"),
    ("a+", None, "aa", 1, true, "0-2"),
    ("a+", None, "aab", 1, false, "0-2"),
    ("a|ab", None, "a", 1, false, "0-1"),
    ("ab|a", None, "a", 1, false, "more"),
    ("ab|a", None, "a", 1, true, "0-1"),
    ("(a)(b)?", None, "a", 1, false, "more"),
    ("(a)(b)?", None, "a", 1, true, "0-1 0-1 -"),
    ("(a)(b)?", None, "ab", 1, false, "0-2 0-1 1-2"),
    ("^a", None, "a", 1, false, "0-1"),
    ("^a", Some(b'\n'), "a", 1, false, "none"),
    ("(?m)^a", Some(b'\n'), "a", 1, false, "0-1"),
    ("(?m)^a", Some(b'b'), "a", 1, false, "none"),
    ("\\ba", None, "a", 1, false, "0-1"),
    ("\\ba", Some(b' '), "a", 1, false, "0-1"),
    ("\\ba", Some(b'_'), "a", 1, false, "none"),
    ("\\b", Some(b'a'), " ", 1, false, "0-0"),
    ("\\b", Some(b'a'), "", 1, false, "more"),
    ("\\b", Some(b'a'), "", 1, true, "0-0"),
    ("\\b", Some(b' '), "", 1, true, "none"),
    ("a$", None, "a", 1, false, "more"),
    ("a$", None, "a", 1, true, "0-1"),
    ("a$", None, "a\n", 1, false, "more"),
    ("a$", None, "a\n", 1, true, "0-1"),
    ("a$", None, "a\nb", 1, false, "none"),
    ("(?m)a$", None, "a\n", 1, false, "0-1"),
    ("a(?=b)", None, "a", 1, false, "more"),
    ("a(?=b)", None, "a", 1, true, "none"),
    ("a(?=b)", None, "ab", 1, false, "0-1"),
    ("a(?!b)", None, "a", 1, false, "more"),
    ("a(?!b)", None, "a", 1, true, "0-1"),
    ("a(?!a*b)", None, "a", 255, false, "more"),
    ("a(?!a*b)", None, "a", 256, false, "0-1"),
    ("[ab]+", None, "a", 16383, false, "more"),
    ("[ab]+", None, "a", 16383, true, "0-16383"),
    ("[ab]+", None, "a", 16384, false, "0-16384"),
    ("[ab]+$", None, "ab", 8193, false, "0-16384"),
];

fn attempts_unlike(alloc: Global, rows: &[Attempt]) -> String {
    let mut unlike = String::new(alloc);
    for (pattern, before, bytes, times, closed, wanted) in rows {
        if let Ok(bytes) = bytes.repeat(alloc, *times) {
            let text = Text {
                before: *before,
                bytes: bytes.as_bytes(),
                closed: *closed,
            };
            let said = attempted(alloc, pattern, text);
            put_unlike(&mut unlike, pattern, said, wanted);
            drop(bytes);
        } else {
            put(&mut unlike, "no text\n");
        }
    }
    unlike
}

#[test]
fn an_attempt_depends_on_what_is_still_to_come(rt: HostRuntime) {
    compare(&rt, attempts_unlike(rt.alloc(), &ATTEMPTS), "");
}

/// Writes what attempts come to at the first bytes of a text, as many as are told, and then at all of them.
fn note_two<L: Ledger>(
    said: &mut String,
    p: &Pattern,
    scan: &mut Scan,
    text: &[u8],
    first: usize,
    steps: &mut Steps<L>,
) -> Result<(), NoMemory>
    requires first { first ≤ length text.now }
    requires pattern { p.now ≡ scan.old.pattern }
    requires fresh { scan.old.given ≡ [] }
    ensures { OnOk result (scan.new.pattern ≡ scan.old.pattern) }
{
    let before = scan.advance(p, None, &text[..first], false, steps)?;
    note_look(said, Ok(before));
    put(said, " then ");
    let after = scan.advance(p, None, text, false, steps)?;
    note_look(said, Ok(after));
    Ok(())
}

/// Writes what a scan comes to that goes on with more bytes and begins anew with others.
fn note_anew<L: Ledger>(
    said: &mut String,
    p: &Pattern,
    scan: &mut Scan,
    steps: &mut Steps<L>,
) -> Result<(), NoMemory>
    requires pattern { p.now ≡ scan.old.pattern }
    requires fresh { scan.old.given ≡ [] }
{
    note_two(said, p, scan, b"accx", 2, steps)?;
    put(said, ", ");
    scan.reset();
    note_two(said, p, scan, b"bx", 1, steps)
}

/// Writes what a scan comes to, and then a copy of it that was made before and stands apart from it.
fn note_both<L: Ledger>(said: &mut String, p: &Pattern, mut scan: Scan, steps: &mut Steps<L>)
    requires pattern { p.now ≡ scan.pattern }
    requires fresh { scan.given ≡ [] }
{
    let copy = scan.copy();
    let _ = note_anew(said, p, &mut scan, steps);
    drop(scan);
    if let Ok(copy) = copy {
        put(said, ", ");
        let text = Text {
            before: None,
            bytes: b"ac",
            closed: true,
        };
        note_look(said, looked(p, copy, text, steps));
    }
}

/// The same, counted in the ledger that the blank one opens.
fn scanned_in<L: Ledger>(said: &mut String, alloc: Global, p: &Pattern, blank: Blank)
    requires name { blank.name ≡ L.name }
    requires parts { blank.parts ≡ L.parts }
    requires some { 0 < blank.parts }
{
    if let Ok(scan) = Scan::new(alloc, p) {
        let mut steps = Steps::<L>::new(blank);
        note_both(said, p, scan, &mut steps);
    }
}

fn scanned(said: &mut String, alloc: Global, p: &Pattern) {
    scanned_in::<Brand>(said, alloc, p, Blank::new(1));
}

/// What the scan of a pattern and a copy of it come to.
fn scans_said(alloc: Global) -> String {
    let mut said = String::new(alloc);
    if let Ok(p) = Pattern::read(alloc, b"[ab]c+") {
        scanned(&mut said, alloc, &p);
        drop(p);
    }
    said
}

#[test]
fn a_scan_goes_on_begins_anew_and_is_copied(rt: HostRuntime) {
    let wanted = "more then 0-3, more then none, 0-2";
    compare(&rt, scans_said(rt.alloc()), wanted);
}

/// Patterns whose matches begin with no, one, two, three and more bytes, texts, and how many bytes are passed over.
static PASSED: [(&str, &str, usize); 12] = [
    ("a", "", 0),
    ("a", "xya", 2),
    ("a", "xyz", 3),
    ("[ab]c+", "ba", 0),
    ("[ab]c+", "xcca", 3),
    ("[ab]c+", "xyz", 3),
    ("a|b|c", "xyzc", 3),
    ("a|b|c", "xyz", 3),
    ("\\d", "xyz7", 3),
    ("\\d", "xyz", 3),
    ("a*", "xyz", 0),
    ("^a", "xyz", 0),
];

/// How many bytes of a text are passed over by a scan for a pattern.
fn passed_by(alloc: Global, p: &Pattern, text: &str) -> Option<usize> {
    match Scan::new(alloc, p) {
        Ok(scan) => {
            let passed = scan.passed_over(text.as_bytes());
            drop(scan);
            Some(passed)
        }
        Err(NoMemory) => None,
    }
}

/// The same for the text of a pattern.
fn passed_over(alloc: Global, pattern: &str, text: &str) -> Option<usize> {
    match Pattern::read(alloc, pattern.as_bytes()) {
        Ok(p) => {
            let passed = passed_by(alloc, &p, text);
            drop(p);
            passed
        }
        Err(_) => None,
    }
}

fn passed_unlike(alloc: Global, rows: &[(&str, &str, usize)]) -> String {
    let mut unlike = String::new(alloc);
    for (pattern, text, wanted) in rows {
        if passed_over(alloc, pattern, text) != Some(*wanted) {
            put(&mut unlike, *pattern);
            put(&mut unlike, " in ");
            put(&mut unlike, *text);
            put(&mut unlike, "\n");
        }
    }
    unlike
}

#[test]
fn bytes_at_which_no_match_begins_are_passed_over(rt: HostRuntime) {
    compare(&rt, passed_unlike(rt.alloc(), &PASSED), "");
}
