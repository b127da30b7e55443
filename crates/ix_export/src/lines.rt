//! The text of an event.

ghost use Rattle.std.specs.Prelude.{◌≡◌, ◌≤◌, ◌<◌, ◌-◌, ◌+◌, ◌/◌, ◌%◌, ◌^◌, ℕ, [], ◌∷◌, ◌++◌, length, take, drop, slice_index, OnOk, OnErr};
ghost use Rattle.std.specs.Prelude.{IfOk, IsTrue, false};
ghost use Rattle.ix_base.specs.Faults.{HasCause};
ghost use Rattle.ix_base.specs.Told.{HasWritten, HasBegun};
ghost use Rattle.ix_export.specs.EventLine.{is_plain, escape, escaped, field, line, six_digits, seconds_text, sign_text, time_text};
ghost use Rattle.ix_base.specs.Lent.{lent_event};
ghost use Rattle.std.specs.Prelude.{codes};
ghost use Rattle.std.specs.List.{prefix_len, list_all};
ghost use Rattle.hex.specs.Hex.{encode_lower};

use itoa::Buffer;
use ix_base::{EventRef, Failed, Sink};

/// Writes the event as a line: index, time, host, source, sourcetype, meta and raw text with tabs
/// between, and a newline. The time is in seconds with six digits behind the point. In the other
/// fields a backslash is `\\`, a newline `\n`, a carriage return `\r`, a tab `\t`, and every other
/// byte that is no printing ASCII `\x` and two hexadecimal digits. Where the sink fails, a front of
/// the line is written. It takes no memory.
pub fn write_line<W: Sink>(event: &EventRef, out: &mut W) -> Result<(), Failed>
    ensures written { OnOk result (HasWritten (line (lent_event event.now)) (W.given out.old) (W.given out.new)) }
    ensures begun { OnErr result (HasBegun (line (lent_event event.now)) (W.given out.old) (W.given out.new)) }
    ensures cause { HasCause (W.faults out.old) (W.faults out.new) result }
{
    put_field(event.index, out)?;
    put_tabbed_time(event, out)?;
    put_tabbed(event.host, out)?;
    put_tabbed(event.source, out)?;
    put_tabbed(event.sourcetype, out)?;
    put_tabbed(event.meta, out)?;
    put_tabbed(event.raw, out)?;
    out.put(b"\n")?;
    Ok(())
}

pub(crate) fn put_tabbed_time<W: Sink>(event: &EventRef, out: &mut W) -> Result<(), Failed>
    ensures written { OnOk result (HasWritten (9 ∷ time_text event.now.time) (W.given out.old) (W.given out.new)) }
    ensures begun { OnErr result (HasBegun (9 ∷ time_text event.now.time) (W.given out.old) (W.given out.new)) }
    ensures cause { HasCause (W.faults out.old) (W.faults out.new) result }
{
    let negative = event.time < 0;
    out.put(b"\t")?;
    put_sign(negative, out)?;
    put_seconds(event.time.unsigned_abs(), out)?;
    Ok(())
}

fn put_sign<W: Sink>(negative: bool, out: &mut W) -> Result<(), Failed>
    ensures written { OnOk result (HasWritten (sign_text negative) (W.given out.old) (W.given out.new)) }
    ensures begun { OnErr result (HasBegun (sign_text negative) (W.given out.old) (W.given out.new)) }
    ensures cause { HasCause (W.faults out.old) (W.faults out.new) result }
{
    if negative {
        out.put(b"-")?;
        return Ok(());
    }
    Ok(())
}

/// The digit of this power of ten.
fn digit(n: u64, power: u64) -> u8
    requires { 0 < power }
    ensures { result ≡ 48 + n / power % 10 }
{
    48 + (n / power % 10) as u8
}

fn six_digits(n: u64) -> [u8; 6]
    ensures { result ≡ six_digits n }
{
    [
        digit(n, 100_000),
        digit(n, 10_000),
        digit(n, 1_000),
        digit(n, 100),
        digit(n, 10),
        digit(n, 1),
    ]
}

fn put_seconds<W: Sink>(micros: u64, out: &mut W) -> Result<(), Failed>
    ensures written { OnOk result (HasWritten (seconds_text micros) (W.given out.old) (W.given out.new)) }
    ensures begun { OnErr result (HasBegun (seconds_text micros) (W.given out.old) (W.given out.new)) }
    ensures cause { HasCause (W.faults out.old) (W.faults out.new) result }
{
    let mut buffer = Buffer::new();
    out.put(buffer.format(micros / 1_000_000).as_bytes())?;
    out.put(b".")?;
    out.put(&six_digits(micros % 1_000_000))?;
    Ok(())
}

pub(crate) fn put_tabbed<W: Sink>(bytes: &[u8], out: &mut W) -> Result<(), Failed>
    ensures written { OnOk result (HasWritten (9 ∷ field bytes.now) (W.given out.old) (W.given out.new)) }
    ensures begun { OnErr result (HasBegun (9 ∷ field bytes.now) (W.given out.old) (W.given out.new)) }
    ensures cause { HasCause (W.faults out.old) (W.faults out.new) result }
{
    out.put(b"\t")?;
    put_field(bytes, out)?;
    Ok(())
}

pub(crate) fn put_field<W: Sink>(bytes: &[u8], out: &mut W) -> Result<(), Failed>
    ensures written { OnOk result (HasWritten (field bytes.now) (W.given out.old) (W.given out.new)) }
    ensures begun { OnErr result (HasBegun (field bytes.now) (W.given out.old) (W.given out.new)) }
    ensures cause { HasCause (W.faults out.old) (W.faults out.new) result }
{
    let mut at: usize = 0;
    while at < bytes.len() {
        at += put_front(&bytes[at..], out)?;
    }
    Ok(())
}

fn is_plain(b: u8) -> bool
    ensures { result ≡ is_plain b }
{
    b >= 0x20 && b <= 0x7E && b != b'\\'
}

/// How many bytes are looked at before it is asked whether one of them is not plain.
const CHUNK: usize = 32;

/// Whether all bytes are plain. It looks at each of them, so that they can be compared many at a
/// time.
fn all_plain(bytes: &[u8]) -> bool
    ensures { result ≡ list_all is_plain bytes.now }
{
    let mut all = true;
    for b in bytes {
        all &= is_plain(*b);
    }
    all
}

/// Whether a whole chunk stands at the front whose bytes are plain.
fn has_plain_chunk(bytes: &[u8]) -> bool
    ensures within { IsTrue result → 32 ≤ length bytes.now }
    ensures plain { IsTrue result → prefix_len is_plain bytes.now ≡ 32 + prefix_len is_plain (drop 32 bytes.now) }
{
    bytes.len() >= CHUNK && all_plain(&bytes[..CHUNK])
}

/// The same as `plain_length`, byte by byte.
fn plain_length_by_bytes(bytes: &[u8]) -> usize
    ensures counted { result ≡ prefix_len is_plain bytes.now }
    ensures within { result ≤ length bytes.now }
{
    bytes.iter().take_while(|b| is_plain(**b)).count()
}

/// How many bytes at the front stand in a field as themselves.
fn plain_length(bytes: &[u8]) -> usize
    ensures { result ≡ prefix_len is_plain bytes.now }
{
    let mut at = 0;
    while has_plain_chunk(&bytes[at..]) {
        at += CHUNK;
    }
    at + plain_length_by_bytes(&bytes[at..])
}

/// Writes the first bytes of a field, one at least, and answers how many of them.
fn put_front<W: Sink>(bytes: &[u8], out: &mut W) -> Result<usize, Failed>
    requires { 0 < length bytes.now }
    ensures moves { IfOk result (λ n. 0 < n) }
    ensures within { IfOk result (λ n. n ≤ length bytes.now) }
    ensures written { IfOk result (λ n. HasWritten (field (take n bytes.now)) (W.given out.old) (W.given out.new)) }
    ensures begun { OnErr result (HasBegun (field bytes.now) (W.given out.old) (W.given out.new)) }
    ensures cause { HasCause (W.faults out.old) (W.faults out.new) result }
{
    let plain = plain_length(bytes);
    if plain > 0 {
        out.put(&bytes[..plain])?;
        return Ok(plain);
    }
    put_escape(bytes[0], out)?;
    Ok(1)
}

/// Writes a byte that cannot stand as itself.
fn put_escape<W: Sink>(b: u8, out: &mut W) -> Result<(), Failed>
    ensures written { OnOk result (HasWritten (escape b) (W.given out.old) (W.given out.new)) }
    ensures begun { OnErr result (HasBegun (escape b) (W.given out.old) (W.given out.new)) }
    ensures cause { HasCause (W.faults out.old) (W.faults out.new) result }
{
    match b {
        b'\\' => out.put(b"\\\\"),
        b'\n' => out.put(b"\\n"),
        b'\r' => out.put(b"\\r"),
        b'\t' => out.put(b"\\t"),
        _ => put_hex(b, out),
    }
}

fn put_hex<W: Sink>(b: u8, out: &mut W) -> Result<(), Failed>
    ensures written { OnOk result (HasWritten (codes "\\x" ++ encode_lower (b ∷ [])) (W.given out.old) (W.given out.new)) }
    ensures begun { OnErr result (HasBegun (codes "\\x" ++ encode_lower (b ∷ [])) (W.given out.old) (W.given out.new)) }
    ensures cause { HasCause (W.faults out.old) (W.faults out.new) result }
{
    let byte = [b];
    let mut digits = [0u8; 2];
    let _ = hex::encode_to_slice(byte.as_slice(), &mut digits);
    out.put(b"\\x")?;
    out.put(&digits)?;
    Ok(())
}
