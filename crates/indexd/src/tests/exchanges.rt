//! Requests with their replies, and runs of `feed` over them: what the other tests share.

use crate::tests::runs::{Files, compare_texts, run_of, said};
use ix_disk::Disk;
use std::alloc::Global;
use std::process::Abort;

/// Requests with their replies, with `¶` between. Each has fields with `¦` between: method and path, further lines of its head, its body, and
/// then the status with its words, and the reply's body.
pub(crate) type Exchanges<'a> = &'a str;

/// The channel `c` is begun.
pub(crate) const BEGUN: Exchanges<'static> =
    "PUT /channels/c¦¦{\"host\":\"h\",\"source\":\"s\"}¦201 Created¦{\"channel\":\"c\"}";

/// Adds a request. The length of the body is told where there is one.
fn write_request(text: &mut String, exchange: &str) {
    let mut fields = exchange.split('¦');
    let _ = text.push_str(fields.next().unwrap_or(""));
    let _ = text.push_str(" HTTP/1.1\r\n");
    let _ = text.push_str(fields.next().unwrap_or(""));
    let body = fields.next().unwrap_or("");
    if !body.is_empty() {
        let _ = write!(text, "Content-Length: {}\r\n", body.len());
    }
    let _ = text.push_str("\r\n");
    let _ = text.push_str(body);
}

/// The requests, one behind the other.
pub(crate) fn requests_of(alloc: Global, exchanges: Exchanges<'_>) -> String {
    let mut text = String::new(alloc);
    for exchange in exchanges.split('¶') {
        write_request(&mut text, exchange);
    }
    text
}

/// The reply with this status and this body.
pub(crate) fn write_reply(text: &mut String, status: &str, reply: &str) {
    let kind = if reply.starts_with('{') {
        "application/json"
    } else {
        "text/plain"
    };
    let _ = text.push_str("HTTP/1.1 ");
    let _ = text.push_str(status);
    let _ = write!(text, "\r\nContent-Length: {}\r\n", reply.len());
    let _ = text.push_str("Content-Type: ");
    let _ = text.push_str(kind);
    let _ = text.push_str("\r\nConnection: close\r\n\r\n");
    let _ = text.push_str(reply);
}

/// Adds the reply of an exchange.
pub(crate) fn write_wanted(text: &mut String, exchange: &str) {
    let (front, reply) = exchange.rsplit_once('¦').unwrap_or((exchange, ""));
    let (_, status) = front.rsplit_once('¦').unwrap_or(("", front));
    write_reply(text, status, reply);
}

/// What a run says that replies so, and ends with this status and this line.
pub(crate) fn replies_of(
    alloc: Global,
    code: &str,
    exchanges: Exchanges<'_>,
    line: &str,
) -> String {
    let mut text = String::new(alloc);
    let _ = text.push_str(code);
    let _ = text.push_str(": ");
    for exchange in exchanges.split('¶') {
        write_wanted(&mut text, exchange);
    }
    let _ = text.push_str(line);
    text
}

/// What a run of `feed` over these requests says.
fn fed<D: Disk>(alloc: Global, files: Files<'_>, exchanges: Exchanges<'_>, disk: &mut D) -> String {
    let input = requests_of(alloc, exchanges);
    said(alloc, run_of("feed", files, input.as_bytes()), disk)
}

/// A run of `feed` over these requests replies so, and ends with this status and this line.
pub(crate) fn feeds<D: Disk>(
    rt: &impl Abort,
    alloc: Global,
    disk: &mut D,
    (files, exchanges): (Files<'_>, Exchanges<'_>),
    (code, line): (&str, &str),
) {
    let found = fed(alloc, files, exchanges, disk);
    compare_texts(rt, "feed", found, replies_of(alloc, code, exchanges, line));
}
