//! What the header lines of a head say.

ghost use Rattle.std.specs.Prelude.{◌≡◌, ◌≤◌, ◌&&◌, length, take, All, map, IsUtf8};
ghost use Rattle.std.specs.List.{list_any};
ghost use Rattle.std.specs.Str.{str_eq_ignore_ascii_case};
ghost use Rattle.httparse.specs.Spans.{IsHeaderWithin, IsRequestWithin, header_bytes, span_bytes};
ghost use Rattle.ix_heads.specs.Lines.{line_of, one_more, seen, has_line, has_other};

use httparse::spans::{HeaderSpan, RequestSpans};
use std::marker::Model;
use std::str;

/// What a head says under one name.
#[derive(Clone, Copy, Debug)]
pub enum Found<'b> {
    /// No line has the name.
    Absent,
    /// One line has it, with this value.
    One(&'b [u8]),
    /// Several lines have it.
    Many,
}

/// A head, lent. Contracts see its method, its target and its header lines.
#[derive(Drop)]
pub struct Head<'b> {
    bytes: &'b [u8],
    headers: &'b [HeaderSpan],
    method: &'b [u8],
    target: &'b str,
}

impl<'b> Model for Head<'b> {
    ghost use Rattle.std.specs.Prelude.{length, map, All};
    ghost use Rattle.httparse.specs.Spans.{IsHeaderWithin, header_bytes};
    ghost use Rattle.ix_heads.specs.Heads.{Heading};

    ghost Value = { Heading };

    ghost view = { λ h. record { method = h.method.now; target = h.target.now; lines = map (header_bytes h.bytes.now) h.headers.now } };

    ghost invariant = { λ h. All (IsHeaderWithin (length h.bytes.now)) h.headers.now };
}

/// Whether two names are one, without regard to ASCII case.
fn is_same(a: &[u8], b: &[u8]) -> bool
    ensures { result ≡ str_eq_ignore_ascii_case a.now b.now }
{
    a.eq_ignore_ascii_case(b)
}

fn one_more<'b>(value: &'b [u8], found: Found<'b>) -> Found<'b>
    ensures { seen result ≡ one_more value.entry.now (seen found.entry) }
{
    match found {
        Found::Absent => Found::One(value),
        _ => Found::Many,
    }
}

/// The line of a name among the headers of a head.
fn find_line<'b>(bytes: &'b [u8], headers: &[HeaderSpan], name: &[u8]) -> Found<'b>
    requires { All (IsHeaderWithin (length bytes.now)) headers.now }
    ensures { seen result ≡ line_of name.now (map (header_bytes bytes.entry.now) headers.now) }
{
    let mut found = Found::Absent;
    for header in headers {
        if is_same(header.name.of(bytes), name) {
            found = one_more(header.value.of(bytes), found);
        }
    }
    found
}

fn has_line(bytes: &[u8], headers: &[HeaderSpan], name: &[u8]) -> bool
    requires { All (IsHeaderWithin (length bytes.now)) headers.now }
    ensures { result ≡ has_line name.now (map (header_bytes bytes.now) headers.now) }
{
    for header in headers {
        if is_same(header.name.of(bytes), name) {
            return true;
        }
    }
    false
}

fn has_other(bytes: &[u8], headers: &[HeaderSpan], name: &[u8], value: &[u8]) -> bool
    requires { All (IsHeaderWithin (length bytes.now)) headers.now }
    ensures { result ≡ has_other name.now value.now (map (header_bytes bytes.now) headers.now) }
{
    for header in headers {
        if is_same(header.name.of(bytes), name) && !is_same(header.value.of(bytes), value) {
            return true;
        }
    }
    false
}

impl<'b> Head<'b> {
    /// The head whose parts these spans cover.
    pub fn new(bytes: &'b [u8], headers: &'b [HeaderSpan], spans: RequestSpans) -> Self
        requires spans { IsRequestWithin bytes.now headers.now spans }
        requires text { IsUtf8 (span_bytes bytes.now spans.path) }
        ensures method { result.method ≡ span_bytes bytes.entry.now spans.method }
        ensures target { result.target ≡ span_bytes bytes.entry.now spans.path }
        ensures lines { result.lines ≡ map (header_bytes bytes.entry.now) (take spans.headers headers.entry.now) }
    {
        Head {
            bytes,
            headers: &headers[..spans.headers],
            method: spans.method.of(bytes),
            target: str::from_utf8(spans.path.of(bytes)).unwrap(),
        }
    }

    /// The method, as it is written.
    pub fn method(&self) -> &'b [u8]
        ensures { result.now ≡ self.now.method }
    {
        self.method
    }

    /// The target: the path, and a query behind a `?`.
    pub fn target(&self) -> &'b str
        ensures { result.now ≡ self.now.target }
    {
        self.target
    }

    /// What the head says under a name.
    pub fn line(&self, name: &[u8]) -> Found<'b>
        ensures { seen result ≡ line_of name.now self.now.lines }
    {
        find_line(self.bytes, self.headers, name)
    }

    /// Whether a line has the name.
    pub fn has_line(&self, name: &[u8]) -> bool
        ensures { result ≡ has_line name.now self.now.lines }
    {
        has_line(self.bytes, self.headers, name)
    }

    /// Whether a line has the name and another value than this one, in any case of its letters.
    pub fn has_other(&self, name: &[u8], value: &[u8]) -> bool
        ensures { result ≡ has_other name.now value.now self.now.lines }
    {
        has_other(self.bytes, self.headers, name, value)
    }
}
