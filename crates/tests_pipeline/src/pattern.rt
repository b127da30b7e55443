//! Tests of `ix_pattern`: texts of patterns, with the tree or the fault of each.

use crate::said::{compare, put, put_unlike};
use ix_pattern::{BreakFault, Node, Pattern, PatternFault};
use std::alloc::{AllocError, Global};
use std::fmt::Display;

/// The text of a piece that stands before this one.
fn text_at(texts: &[String], at: usize) -> &str {
    match texts.get(at) {
        Some(text) => text.as_str(),
        None => "?",
    }
}

/// Writes two pieces with a mark between.
fn put_pair(text: &mut String, texts: &[String], first: usize, mark: &str, second: usize) {
    put(text, "(");
    put(text, text_at(texts, first));
    put(text, mark);
    put(text, text_at(texts, second));
    put(text, ")");
}

/// Writes the bounds of a count.
fn put_count(text: &mut String, least: u32, most: Option<u32>) {
    put(text, "{");
    put(text, least);
    put(text, ",");
    if let Some(most) = most {
        put(text, most);
    }
    put(text, "}");
}

/// Writes a mark, and the piece that it stands before.
fn put_inside<T: Display + Drop>(text: &mut String, mark: T, texts: &[String], inside: usize) {
    put(text, mark);
    put(text, "<");
    put(text, text_at(texts, inside));
    put(text, ">");
}

/// Writes a piece in short, with the texts of those inside.
fn put_node(text: &mut String, node: Node, texts: &[String]) {
    match node {
        Node::Nothing => put(text, "e"),
        Node::Bytes => put(text, "b"),
        Node::Start { lines: true } => put(text, "^m"),
        Node::Start { lines: false } => put(text, "^"),
        Node::Finish { lines: true } => put(text, "$m"),
        Node::Finish { lines: false } => put(text, "$"),
        Node::Word => put(text, "w"),
        Node::Seq { first, rest } => put_pair(text, texts, first, " ", rest),
        Node::Either { first, other } => put_pair(text, texts, first, "|", other),
        Node::Count {
            inside,
            least,
            most,
            lazy,
        } => {
            put(text, text_at(texts, inside));
            put_count(text, least, most);
            if lazy {
                put(text, "?");
            }
        }
        Node::Group { number, inside } => {
            put(text, "g");
            put_inside(text, number, texts, inside);
        }
        Node::Ahead {
            inside,
            wanted: true,
        } => put_inside(text, "=", texts, inside),
        Node::Ahead {
            inside,
            wanted: false,
        } => put_inside(text, "!", texts, inside),
    }
}

/// A piece in short.
fn node_said(alloc: Global, node: Node, texts: &[String]) -> String {
    let mut text = String::new(alloc);
    put_node(&mut text, node, texts);
    text
}

/// Writes the tree of a pattern in short.
fn put_tree(text: &mut String, alloc: Global, p: &Pattern) {
    let root = p.root();
    let mut texts = Vec::new(alloc);
    for k in 0..root {
        let piece = node_said(alloc, p.node(k), &texts);
        let _ = texts.push(piece);
    }
    put_node(text, p.node(root), &texts);
    drop(texts);
}

/// The tree of a text, how many groups it has, and its weight, or its fault.
fn read(alloc: Global, text: &str) -> String {
    let mut said = String::new(alloc);
    match Pattern::read(alloc, text.as_bytes()) {
        Ok(p) => {
            put_tree(&mut said, alloc, &p);
            put(&mut said, " ");
            put(&mut said, p.groups());
            put(&mut said, " ");
            put(&mut said, p.weight());
            drop(p);
        }
        Err(_) => put(&mut said, "no pattern"),
    }
    said
}

static TREES: [(&str, &str); 31] = [
    ("", "e 0 1"),
    ("a", "b 0 1"),
    ("abc", "(b (b b)) 0 3"),
    ("a|b|c", "(b|(b|b)) 0 4"),
    ("a|", "(b|e) 0 3"),
    ("|a", "(e|b) 0 3"),
    ("a|(?:b|c)", "(b|(b|b)) 0 5"),
    ("(a)(?:b)((c)d)", "(g1<b> (b g2<(g3<b> b)>)) 3 10"),
    ("a*", "b{0,} 0 2"),
    ("a+?", "b{1,}? 0 4"),
    ("a?", "b{0,1} 0 2"),
    ("a??", "b{0,1}? 0 2"),
    ("a{0,1}", "b{0,1} 0 3"),
    ("a{3}", "b{3,3} 0 7"),
    ("a{2,}?", "b{2,}? 0 6"),
    ("a{2,5}", "b{2,5} 0 11"),
    ("a{0}", "b{0,0} 0 3"),
    ("a{,5}", "(b (b (b (b b)))) 0 5"),
    ("a{12345}", "(b (b (b (b (b (b (b b))))))) 0 8"),
    ("{", "b 0 1"),
    ("x{y}]", "(b (b (b (b b)))) 0 5"),
    ("^a$", "(^ (b $)) 0 3"),
    ("(?m)^a$", "(^m (b $m)) 0 3"),
    ("(?i)(?ms).", "b 0 1"),
    ("\\b\\d\\D\\w\\W\\s\\S", "(w (b (b (b (b (b b)))))) 0 7"),
    ("\\r\\n\\t\\f\\x41\\.\\_", "(b (b (b (b (b (b b)))))) 0 7"),
    ("a(?=bc)", "(b =<(b b)>) 0 514"),
    ("a(?!b|c)", "(b !<(b|b)>) 0 770"),
    ("(a*)?", "g1<b{0,}>{0,1} 1 5"),
    ("([\\r\\n]+)", "g1<b{1,}> 1 6"),
    (
        "[]a][^]a][a-][-a][\\d-z][+--][:a]",
        "(b (b (b (b (b (b b)))))) 0 7",
    ),
];

fn trees_unlike(alloc: Global, rows: &[(&str, &str)]) -> String {
    let mut unlike = String::new(alloc);
    for (text, wanted) in rows {
        put_unlike(&mut unlike, text, read(alloc, text), wanted);
    }
    unlike
}

#[test]
fn texts_have_these_trees(rt: HostRuntime) {
    compare(&rt, trees_unlike(rt.alloc(), &TREES), "");
}

fn fault_of(alloc: Global, text: &str) -> Option<PatternFault> {
    Pattern::read(alloc, text.as_bytes()).err()
}

static FAULTS: [(Option<PatternFault>, &str); 4] = [
    (
        Some(PatternFault::Syntax),
        "(ab ab) a** *a a|* (*a) a{2,1} {2} a{2}?{3} a??? [a [] [^] [z-a] [a-\\d] [[:] [a[:]b] [\\b] \\q \\1 \\x4 \\xg1 \\ (? (?<a) \
         (?i a(?i) (?) (?x)a (?=(a)) (?=a(?!b)) (?=(?:(a))) a{2000,1000} a{1001}( (?i)* |+",
    ),
    (
        Some(PatternFault::TooLarge),
        "a{1,1001} a{1001} a{1001,} a{9999} (?:){1001,} (?:a{1000}){100} (?=a{391})",
    ),
    (
        Some(PatternFault::EmptyRepeat),
        "(a|)* (?:)* ^* $* \\b+ (?=a)+ (a*)* (a?){2,} (?:a|b*)+ ((a|)*) (?=(?:a*)*)",
    ),
    (
        None,
        "(a*)? (?:a?){3} ^? ^{2} (?=(?:a)) a{1000} (?:a{1000}){99} (?=a{390}) [:a] [--a] [a\\-\\d] \\[: a|| () [a-a] (?s)",
    ),
];

/// Writes a text whose fault is another one than it should be.
fn note_fault(
    unlike: &mut String,
    text: &str,
    fault: Option<PatternFault>,
    wanted: Option<PatternFault>,
) {
    if fault != wanted {
        put(unlike, text);
        put(unlike, "\n");
    }
}

fn faults_unlike(alloc: Global, rows: &[(Option<PatternFault>, &str)]) -> String {
    let mut unlike = String::new(alloc);
    for (wanted, texts) in rows {
        for text in texts.split(' ') {
            note_fault(&mut unlike, text, fault_of(alloc, text), *wanted);
        }
    }
    unlike
}

#[test]
fn texts_have_these_faults(rt: HostRuntime) {
    compare(&rt, faults_unlike(rt.alloc(), &FAULTS), "");
}

/// A text so many times and another one so many times, and their fault.
type Copies = (
    &'static str,
    usize,
    &'static str,
    usize,
    Option<PatternFault>,
);

fn add_copies(text: &mut String, (front, count, back, times, _): Copies) -> Result<(), AllocError> {
    for _ in 0..count {
        text.push_str(front)?;
    }
    for _ in 0..times {
        text.push_str(back)?;
    }
    Ok(())
}

fn fault_of_copies(alloc: Global, copies: Copies) -> Option<PatternFault> {
    let mut text = String::new(alloc);
    let fault = match add_copies(&mut text, copies) {
        Ok(()) => fault_of(alloc, text.as_str()),
        Err(_) => Some(PatternFault::NoMemory),
    };
    drop(text);
    fault
}

/// Long texts, and deep ones.
static COPIES: [Copies; 11] = [
    ("a", 4096, "", 0, None),
    ("a", 4097, "", 0, Some(PatternFault::TooLarge)),
    ("(", 4097, "", 0, Some(PatternFault::TooLarge)),
    ("(", 4096, "", 0, Some(PatternFault::Syntax)),
    ("()", 32, "", 0, None),
    ("()", 33, "", 0, Some(PatternFault::TooLarge)),
    ("()", 33, "(", 1, Some(PatternFault::Syntax)),
    ("|", 4096, "", 0, None),
    ("(?:", 64, ")", 64, None),
    ("(?:", 65, ")", 65, Some(PatternFault::TooLarge)),
    ("(?:", 1000, ")", 1000, Some(PatternFault::TooLarge)),
];

fn copies_unlike(alloc: Global, rows: &[Copies]) -> String {
    let mut unlike = String::new(alloc);
    for copies in rows {
        let fault = fault_of_copies(alloc, *copies);
        note_fault(&mut unlike, copies.0, fault, copies.4);
    }
    unlike
}

#[test]
fn long_and_deep_texts_have_these_faults(rt: HostRuntime) {
    compare(&rt, copies_unlike(rt.alloc(), &COPIES), "");
}

fn break_fault_of(alloc: Global, text: &str) -> Option<BreakFault> {
    Pattern::for_breaks(alloc, text.as_bytes()).err()
}

static BREAKS: [(&str, Option<BreakFault>); 10] = [
    ("([\\r\\n]+)", None),
    ("\\n", Some(BreakFault::NoGroup)),
    ("a*", Some(BreakFault::NoGroup)),
    ("(a)?", Some(BreakFault::MatchesEmpty)),
    ("(a*)", Some(BreakFault::MatchesEmpty)),
    ("(^)", Some(BreakFault::MatchesEmpty)),
    ("(a|b)c?", None),
    ("(a", Some(BreakFault::Pattern(PatternFault::Syntax))),
    (
        "(a|)*",
        Some(BreakFault::Pattern(PatternFault::EmptyRepeat)),
    ),
    (
        "(a{1001})",
        Some(BreakFault::Pattern(PatternFault::TooLarge)),
    ),
];

#[test]
fn breaks_take_a_group_and_a_byte(rt: HostRuntime) {
    for (text, want) in &BREAKS {
        assert!(rt; break_fault_of(rt.alloc(), text) == *want, "of {text}");
    }
}
