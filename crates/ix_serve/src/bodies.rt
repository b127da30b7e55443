//! The bodies of good replies.

ghost use Rattle.std.specs.Prelude.{◌≡◌, ◌++◌, decimal, IfOk, OnOk};
ghost use Rattle.ix_serve.specs.Bodies as defs;

use itoa::Buffer;
use ix_base::{Bytes, NoMemory};
use std::alloc::Global;

/// The body of the reply to a channel that is begun.
pub(crate) fn begun_body(alloc: Global, channel: &[u8]) -> Result<Bytes, NoMemory>
    ensures { IfOk result (λ body. body ≡ defs.begun_body channel.now) }
{
    let mut body = Bytes::copy_of(alloc, b"{\"channel\":\"")?;
    body.extend(channel)?;
    body.extend(b"\"}")?;
    Ok(body)
}

/// Adds a number.
fn add_number(body: &mut Bytes, number: u64) -> Result<(), NoMemory>
    ensures { OnOk result (body.new ≡ body.old ++ decimal number) }
{
    let mut buffer = Buffer::new();
    body.extend(buffer.format(number).as_bytes())
}

/// The body of the reply to a block or an end: the number that it draws, and the run.
pub(crate) fn acked_body(alloc: Global, number: u64, run: u64) -> Result<Bytes, NoMemory>
    ensures { IfOk result (λ body. body ≡ defs.acked_body number run) }
{
    let mut body = Bytes::copy_of(alloc, b"{\"ack\":")?;
    add_number(&mut body, number)?;
    body.extend(b",\"run\":")?;
    add_number(&mut body, run)?;
    body.extend(b"}")?;
    Ok(body)
}

fn value_text(value: bool) -> &'static [u8]
    ensures { result.now ≡ defs.value_text value }
{
    if value { b"true" } else { b"false" }
}

/// Adds a value, and before it what stands between two.
pub(crate) fn add_value(body: &mut Bytes, before: &[u8], value: bool) -> Result<(), NoMemory>
    ensures { OnOk result (body.new ≡ (body.old ++ before.now) ++ defs.value_text value) }
{
    body.extend(before)?;
    body.extend(value_text(value))
}
