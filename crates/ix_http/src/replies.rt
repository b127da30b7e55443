//! A reply is written to a link.

ghost use Rattle.std.specs.Prelude.{◌≡◌, ◌≤◌, ◌<◌, ℕ, [], ◌++◌, length, OnOk, OnErr, decimal, option_map};
ghost use Rattle.ix_base.specs.Faults.{HasCause, Rose};
ghost use Rattle.ix_base.specs.Told.{HasWritten, HasBegun};
ghost use Rattle.ix_net.specs.Links.{LinkStep};
ghost use Rattle.ix_http.specs.Replies.{reason_of, phrase_of, type_of, status_line, header_lines, head_text, reply_text};

use crate::gather::Gather;
use crate::kinds::Kind;
use http::StatusCode;
use itoa::Buffer;
use ix_base::Failed;
use ix_net::Link;

/// The canonical phrase of a status, where it has one.
#[tactic(auto, using(std::proofs::lemmas::Bool::Decides::nat_tests), unfolding(crate::specs::Replies::reason_of))]
fn reason_of(status: u16) -> Option<&'static str>
    ensures { option_map (λ s. s.now) result ≡ reason_of status }
{
    match StatusCode::from_u16(status) {
        Ok(code) => code.canonical_reason(),
        Err(_) => None,
    }
}

/// The canonical phrase of a status; an empty one where it has none.
fn phrase_of(status: u16) -> &'static str
    ensures { result.now ≡ phrase_of status }
{
    match reason_of(status) {
        Some(phrase) => phrase,
        None => "",
    }
}

fn type_of(kind: Kind) -> &'static [u8]
    ensures { result.now ≡ type_of kind }
{
    match kind {
        Kind::Json => b"application/json",
        Kind::Plain => b"text/plain",
    }
}

/// Writes a number.
fn put_number<K: Link>(link: &mut K, number: u64) -> Result<(), Failed>
    ensures written { OnOk result (HasWritten (decimal number) (K.given link.old) (K.given link.new)) }
    ensures begun { OnErr result (HasBegun (decimal number) (K.given link.old) (K.given link.new)) }
    ensures left { K.left link.new ≡ K.left link.old }
    ensures goes { LinkStep (K.standing link.old) (K.standing link.new) }
    ensures side { OnErr result (Rose (K.standing link.old).writing (K.standing link.new).writing) }
    ensures cause { HasCause (K.faults link.old) (K.faults link.new) result }
{
    let mut buffer = Buffer::new();
    link.put(buffer.format(number).as_bytes())
}

/// Writes the digits of a status.
fn put_code<K: Link>(link: &mut K, status: u16) -> Result<(), Failed>
    ensures written { OnOk result (HasWritten (decimal status) (K.given link.old) (K.given link.new)) }
    ensures begun { OnErr result (HasBegun (decimal status) (K.given link.old) (K.given link.new)) }
    ensures left { K.left link.new ≡ K.left link.old }
    ensures goes { LinkStep (K.standing link.old) (K.standing link.new) }
    ensures side { OnErr result (Rose (K.standing link.old).writing (K.standing link.new).writing) }
    ensures cause { HasCause (K.faults link.old) (K.faults link.new) result }
{
    let mut buffer = Buffer::new();
    link.put(buffer.format(status).as_bytes())
}

/// Writes the phrase of a status.
fn put_phrase<K: Link>(link: &mut K, status: u16) -> Result<(), Failed>
    ensures written { OnOk result (HasWritten (phrase_of status) (K.given link.old) (K.given link.new)) }
    ensures begun { OnErr result (HasBegun (phrase_of status) (K.given link.old) (K.given link.new)) }
    ensures left { K.left link.new ≡ K.left link.old }
    ensures goes { LinkStep (K.standing link.old) (K.standing link.new) }
    ensures side { OnErr result (Rose (K.standing link.old).writing (K.standing link.new).writing) }
    ensures cause { HasCause (K.faults link.old) (K.faults link.new) result }
{
    link.put(phrase_of(status).as_bytes())
}

/// Writes the type of a body.
fn put_type<K: Link>(link: &mut K, kind: Kind) -> Result<(), Failed>
    ensures written { OnOk result (HasWritten (type_of kind) (K.given link.old) (K.given link.new)) }
    ensures begun { OnErr result (HasBegun (type_of kind) (K.given link.old) (K.given link.new)) }
    ensures left { K.left link.new ≡ K.left link.old }
    ensures goes { LinkStep (K.standing link.old) (K.standing link.new) }
    ensures side { OnErr result (Rose (K.standing link.old).writing (K.standing link.new).writing) }
    ensures cause { HasCause (K.faults link.old) (K.faults link.new) result }
{
    link.put(type_of(kind))
}

/// Writes the status line.
fn put_status<K: Link>(link: &mut K, status: u16) -> Result<(), Failed>
    ensures written { OnOk result (HasWritten (status_line status) (K.given link.old) (K.given link.new)) }
    ensures begun { OnErr result (HasBegun (status_line status) (K.given link.old) (K.given link.new)) }
    ensures left { K.left link.new ≡ K.left link.old }
    ensures goes { LinkStep (K.standing link.old) (K.standing link.new) }
    ensures side { OnErr result (Rose (K.standing link.old).writing (K.standing link.new).writing) }
    ensures cause { HasCause (K.faults link.old) (K.faults link.new) result }
{
    link.put(b"HTTP/1.1 ")?;
    put_code(link, status)?;
    link.put(b" ")?;
    put_phrase(link, status)?;
    Ok(())
}

/// Writes the header lines and the empty line.
fn put_headers<K: Link>(link: &mut K, length: usize, kind: Kind) -> Result<(), Failed>
    ensures written { OnOk result (HasWritten (header_lines length kind) (K.given link.old) (K.given link.new)) }
    ensures begun { OnErr result (HasBegun (header_lines length kind) (K.given link.old) (K.given link.new)) }
    ensures left { K.left link.new ≡ K.left link.old }
    ensures goes { LinkStep (K.standing link.old) (K.standing link.new) }
    ensures side { OnErr result (Rose (K.standing link.old).writing (K.standing link.new).writing) }
    ensures cause { HasCause (K.faults link.old) (K.faults link.new) result }
{
    link.put(b"\r\nContent-Length: ")?;
    put_number(link, length as u64)?;
    link.put(b"\r\nContent-Type: ")?;
    put_type(link, kind)?;
    link.put(b"\r\nConnection: close\r\n\r\n")?;
    Ok(())
}

/// Writes the head of a reply piece by piece.
fn put_head<K: Link>(link: &mut K, status: u16, kind: Kind, length: usize) -> Result<(), Failed>
    ensures written { OnOk result (HasWritten (head_text status kind length) (K.given link.old) (K.given link.new)) }
    ensures begun { OnErr result (HasBegun (head_text status kind length) (K.given link.old) (K.given link.new)) }
    ensures left { K.left link.new ≡ K.left link.old }
    ensures goes { LinkStep (K.standing link.old) (K.standing link.new) }
    ensures side { OnErr result (Rose (K.standing link.old).writing (K.standing link.new).writing) }
    ensures cause { HasCause (K.faults link.old) (K.faults link.new) result }
{
    put_status(link, status)?;
    put_headers(link, length, kind)?;
    Ok(())
}

/// Writes the head of a reply as one piece.
fn write_head<K: Link>(link: &mut K, status: u16, kind: Kind, length: usize) -> Result<(), Failed>
    ensures written { OnOk result (HasWritten (head_text status kind length) (K.given link.old) (K.given link.new)) }
    ensures begun { OnErr result (HasBegun (head_text status kind length) (K.given link.old) (K.given link.new)) }
    ensures left { K.left link.new ≡ K.left link.old }
    ensures goes { LinkStep (K.standing link.old) (K.standing link.new) }
    ensures side { OnErr result (Rose (K.standing link.old).writing (K.standing link.new).writing) }
    ensures cause { HasCause (K.faults link.old) (K.faults link.new) result }
{
    let mut head = Gather::new();
    match put_head(&mut head, status, kind, length) {
        Ok(()) => link.put(head.as_slice()),
        Err(_) => put_head(link, status, kind, length),
    }
}

/// Writes a reply as two pieces, its head and its body.
fn put_reply<K: Link>(link: &mut K, status: u16, kind: Kind, body: &[u8]) -> Result<(), Failed>
    ensures written { OnOk result (HasWritten (reply_text status kind body.now) (K.given link.old) (K.given link.new)) }
    ensures begun { OnErr result (HasBegun (reply_text status kind body.now) (K.given link.old) (K.given link.new)) }
    ensures left { K.left link.new ≡ K.left link.old }
    ensures goes { LinkStep (K.standing link.old) (K.standing link.new) }
    ensures side { OnErr result (Rose (K.standing link.old).writing (K.standing link.new).writing) }
    ensures cause { HasCause (K.faults link.old) (K.faults link.new) result }
{
    write_head(link, status, kind, body.len())?;
    link.put(body)?;
    Ok(())
}

/// Writes a reply piece by piece.
fn put_pieces<K: Link>(link: &mut K, status: u16, kind: Kind, text: &[u8]) -> Result<(), Failed>
    ensures written { OnOk result (HasWritten (reply_text status kind text.now) (K.given link.old) (K.given link.new)) }
    ensures begun { OnErr result (HasBegun (reply_text status kind text.now) (K.given link.old) (K.given link.new)) }
    ensures left { K.left link.new ≡ K.left link.old }
    ensures goes { LinkStep (K.standing link.old) (K.standing link.new) }
    ensures side { OnErr result (Rose (K.standing link.old).writing (K.standing link.new).writing) }
    ensures cause { HasCause (K.faults link.old) (K.faults link.new) result }
{
    put_head(link, status, kind, text.len())?;
    link.put(text)?;
    Ok(())
}

/// Writes a reply: the status line with the phrase of the status, the length and the type of the
/// body, `Connection: close`, and the body. Up to 8,192 bytes are one piece, and more are two.
/// Where the link fails, a front of it is written. It takes no memory.
pub fn write_reply<K: Link>(
    link: &mut K,
    status: u16,
    kind: Kind,
    body: &[u8],
) -> Result<(), Failed>
    ensures written { OnOk result (HasWritten (reply_text status kind body.now) (K.given link.old) (K.given link.new)) }
    ensures begun { OnErr result (HasBegun (reply_text status kind body.now) (K.given link.old) (K.given link.new)) }
    ensures left { K.left link.new ≡ K.left link.old }
    ensures goes { LinkStep (K.standing link.old) (K.standing link.new) }
    ensures side { OnErr result (Rose (K.standing link.old).writing (K.standing link.new).writing) }
    ensures cause { HasCause (K.faults link.old) (K.faults link.new) result }
{
    let mut whole = Gather::new();
    match put_pieces(&mut whole, status, kind, body) {
        Ok(()) => link.put(whole.as_slice()),
        Err(_) => put_reply(link, status, kind, body),
    }
}
