//! Whether bytes that come one by one are a head. `read_head` asks it of each byte.

ghost use Rattle.std.specs.Prelude.{◌≡◌, ◌≤◌, ◌<◌, ◌-◌, length, take, IfOk, true, false};
ghost use Rattle.httparse.specs.Grammar.{HasNoRequest};
ghost use Rattle.httparse.specs.Spans.{RequestOverflows};
ghost use Rattle.ix_heads.specs.Fronts.{Fronts};
ghost use Rattle.ix_heads.specs.Judging.{EndsInEmptyLine, IsJudged, KeepsJudged, IsRefused, IsLook, MayGoOn};

use crate::scan::Scan;
use httparse::spans::{EMPTY_HEADER_SPAN, HeaderSpan, RequestSpans, parse_request};
use httparse::{Error, Status};
use ix_base::NoMemory;
use std::alloc::Global;

/// What bytes are of which all but the last one are no head.
#[derive(Clone, Copy, Debug)]
pub(crate) enum Judged {
    /// No head, which may become one.
    Open,
    /// A head with too many header lines, or bytes that never become a head.
    Bad,
    /// A head.
    Whole(RequestSpans),
}

/// What a parse with room for all header lines finds.
#[derive(Clone, Copy, Debug)]
pub(crate) enum Look {
    /// A head.
    Head,
    /// No head, which may become one.
    Partly,
    /// No head, and none to come.
    Never,
}

/// As many header lines as a head of 16,384 bytes can have.
const LINE_ROOM: usize = 5461;

/// Whether an empty line stands at the end, behind another line.
fn ends_in_empty_line(bytes: &[u8]) -> bool
    ensures { EndsInEmptyLine bytes.now → result ≡ true }
{
    bytes.ends_with(b"\n\n") || bytes.ends_with(b"\n\r\n")
}

/// Parses the bytes with room for all header lines.
fn look_at(alloc: Global, bytes: &[u8]) -> Result<Look, NoMemory>
    requires { length bytes.now ≤ 16384 }
    ensures { IfOk result (λ look. IsLook bytes.now look) }
{
    let mut headers = vec![in alloc; EMPTY_HEADER_SPAN; LINE_ROOM]?;
    Ok(look_with(bytes, &mut headers))
}

fn look_with(bytes: &[u8], headers: &mut [HeaderSpan]) -> Look
    requires size { length bytes.now ≤ 16384 }
    requires room { length headers.old ≡ 5461 }
    ensures { IsLook bytes.now result }
{
    match parse_request(bytes, headers) {
        Ok(Status::Complete(_)) => Look::Head,
        Ok(Status::Partial) => Look::Partly,
        Err(_) => Look::Never,
    }
}

/// Whether bytes with more header lines than a good head has are to be refused.
fn is_bad(alloc: Global, bytes: &[u8]) -> Result<bool, NoMemory>
    requires some { 0 < length bytes.now }
    requires size { length bytes.now ≤ 16384 }
    requires before { HasNoRequest (take (length bytes.now - 1) bytes.now) }
    requires many { RequestOverflows 64 bytes.now }
    ensures { IsRefused bytes.now result }
{
    match look_at(alloc, bytes)? {
        Look::Head => Ok(true),
        Look::Partly => Ok(false),
        Look::Never => Ok(true),
    }
}

/// What a parse finds of bytes of which all but the last one are no head.
fn parse(alloc: Global, bytes: &[u8], headers: &mut [HeaderSpan]) -> Result<Judged, NoMemory>
    requires some { 0 < length bytes.now }
    requires size { length bytes.now ≤ 16384 }
    requires before { HasNoRequest (take (length bytes.now - 1) bytes.now) }
    requires room { length headers.old ≡ 64 }
    ensures judged { IsJudged bytes.now headers.new result }
    ensures within { KeepsJudged bytes.now headers.new result }
{
    match parse_request(bytes, headers) {
        Ok(Status::Complete(spans)) => Ok(Judged::Whole(spans)),
        Ok(Status::Partial) => Ok(Judged::Open),
        Err(Error::TooManyHeaders) => {
            if is_bad(alloc, bytes)? {
                return Ok(Judged::Bad);
            }
            Ok(Judged::Open)
        }
        Err(_) => Ok(Judged::Bad),
    }
}

/// What bytes are of which all but the last one are no head. A head ends in an empty line behind
/// another line, so only there they are parsed, and where the scan tells that they are no front of
/// a head: judging all of a head costs no more than its bytes.
pub(crate) fn judge(
    alloc: Global,
    bytes: &[u8],
    headers: &mut [HeaderSpan],
    scan: &Scan,
) -> Result<Judged, NoMemory>
    requires some { 0 < length bytes.now }
    requires size { length bytes.now ≤ 16384 }
    requires before { HasNoRequest (take (length bytes.now - 1) bytes.now) }
    requires fronts { scan.now.due ≡ false → Fronts scan.now.part bytes.now }
    requires room { length headers.old ≡ 64 }
    ensures judged { IsJudged bytes.now headers.new result }
    ensures within { KeepsJudged bytes.now headers.new result }
{
    if scan.is_due() {
        return parse(alloc, bytes, headers);
    }
    if scan.is_blank() {
        return Ok(Judged::Open);
    }
    if !ends_in_empty_line(bytes) {
        return Ok(Judged::Open);
    }
    parse(alloc, bytes, headers)
}

/// Whether bytes that are no head may become one, where a link has ended behind them.
pub(crate) fn may_go_on(
    alloc: Global,
    bytes: &[u8],
    headers: &mut [HeaderSpan],
) -> Result<Look, NoMemory>
    requires size { length bytes.now ≤ 16384 }
    requires none { HasNoRequest bytes.now }
    requires room { length headers.old ≡ 64 }
    ensures { IfOk result (λ look. MayGoOn bytes.now look) }
{
    match parse_request(bytes, headers) {
        Ok(Status::Complete(_)) => Ok(Look::Never),
        Ok(Status::Partial) => Ok(Look::Partly),
        Err(Error::TooManyHeaders) => look_at(alloc, bytes),
        Err(_) => Ok(Look::Never),
    }
}
