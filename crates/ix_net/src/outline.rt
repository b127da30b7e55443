//! What of a head can be told before it is read: whether it has come whole, or can be none. A
//! connection whose peer may have to be waited for keeps one. Which heads are good is judged where
//! they are read; this follows the same lines, so that a bad one is handed out as soon as that sees
//! it too. One thing it does not see: that the bytes above 127 of a target are no UTF-8. Of a head
//! that has come whole it tells how many bytes the request has.

use crate::extent::Extent;

/// The part of a head that its last byte belongs to.
#[derive(Clone, Copy, Debug, PartialEq, Eq)]
enum Part {
    /// Empty lines before the request line.
    Blank,
    /// A carriage return before or among them.
    BlankReturn,
    Method,
    /// The space before a target.
    TargetStart,
    Target,
    /// So many bytes of a version.
    Version(usize),
    /// The end of a line, behind which a header line or the last, empty one begins.
    LineStart,
    /// The carriage return of the empty line.
    LineReturn,
    /// The name of a header line.
    Name,
    /// Its value.
    Value,
    /// A carriage return behind it, or behind a version.
    Return,
    /// Its last line has come.
    Whole,
    /// It has a byte that no head has there.
    Broken,
}

/// A head, as far as it has come.
#[derive(Clone, Copy, Debug)]
pub(crate) struct Outline {
    part: Part,
    /// So many bytes of it have come.
    count: u64,
    extent: Extent,
}

/// What stands before the last digit of a version.
const VERSION: &[u8] = b"HTTP/1.";

/// What a token may have beside letters and digits.
const SIGNS: &[u8] = b"!#$%&'*+-.^_`|~";

/// Whether a byte may stand in a method or in the name of a header line.
fn is_token(byte: u8) -> bool {
    byte.is_ascii_alphanumeric() || SIGNS.iter().any(|sign| *sign == byte)
}

/// Whether a byte may stand in a target.
fn is_target(byte: u8) -> bool {
    byte > b' ' && byte != 127
}

/// Whether a byte may stand in the value of a header line.
fn is_value(byte: u8) -> bool {
    byte == b'\t' || byte >= b' ' && byte != 127
}

/// The part behind a line feed.
fn after_feed(part: Part) -> Part {
    match part {
        Part::Blank | Part::BlankReturn => Part::Blank,
        Part::Value | Part::Return => Part::LineStart,
        Part::Version(count) if count > VERSION.len() => Part::LineStart,
        Part::LineStart | Part::LineReturn => Part::Whole,
        _ => Part::Broken,
    }
}

/// The part behind a carriage return.
fn after_return(part: Part) -> Part {
    match part {
        Part::Blank => Part::BlankReturn,
        Part::LineStart => Part::LineReturn,
        Part::Value => Part::Return,
        Part::Version(count) if count > VERSION.len() => Part::Return,
        _ => Part::Broken,
    }
}

/// The part behind a byte of a version, of which so many have come.
fn after_version(count: usize, byte: u8) -> Part {
    let fits = match VERSION.get(count) {
        Some(wanted) => byte == *wanted,
        None => count == VERSION.len() && (byte == b'0' || byte == b'1'),
    };
    if fits {
        Part::Version(count.saturating_add(1))
    } else {
        Part::Broken
    }
}

/// The part behind another byte.
fn after_other(part: Part, byte: u8) -> Part {
    match part {
        Part::Blank | Part::Method if is_token(byte) => Part::Method,
        Part::Method if byte == b' ' => Part::TargetStart,
        Part::TargetStart | Part::Target if is_target(byte) => Part::Target,
        Part::Target if byte == b' ' => Part::Version(0),
        Part::Version(count) => after_version(count, byte),
        Part::LineStart | Part::Name if is_token(byte) => Part::Name,
        Part::Name if byte == b':' => Part::Value,
        Part::Value if is_value(byte) => Part::Value,
        _ => Part::Broken,
    }
}

impl Outline {
    /// Nothing has come.
    pub(crate) fn new() -> Self {
        Outline {
            part: Part::Blank,
            count: 0,
            extent: Extent::new(),
        }
    }

    /// Whether the head can be judged, whatever comes next.
    pub(crate) fn is_decided(&self) -> bool {
        self.part == Part::Whole || self.part == Part::Broken
    }

    /// How many bytes the request has, its head and its body, where the whole head has come and
    /// tells it.
    pub(crate) fn request_length(&self) -> Option<u64> {
        if self.part != Part::Whole {
            return None;
        }
        self.extent.length()?.checked_add(self.count)
    }

    /// This byte comes next, and belongs to that part.
    fn go_on(&mut self, part: Part, byte: u8) {
        match (self.part, part) {
            (_, Part::Name) => self.extent.add_name(byte),
            (Part::Name, Part::Value) => self.extent.end_name(),
            (Part::Value, Part::Value) => self.extent.add_value(byte),
            (Part::Value, _) => self.extent.end_value(),
            _ => {}
        }
        self.part = part;
        self.count = self.count.saturating_add(1);
    }

    /// These bytes come next. Those behind the head are passed over.
    pub(crate) fn add(&mut self, bytes: &[u8]) {
        for byte in bytes {
            if self.is_decided() {
                return;
            }
            let part = match *byte {
                b'\n' => after_feed(self.part),
                b'\r' => after_return(self.part),
                byte => after_other(self.part, byte),
            };
            self.go_on(part, *byte);
        }
    }
}
