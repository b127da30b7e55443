//! The requests of a selftest. `sending` sends them.

ghost use Rattle.std.specs.Prelude.{◌≡◌, ◌++◌, IfOk, OnOk};
ghost use Rattle.indexd_selftest.specs.Requests as defs;

use crate::generator::digit;
use ix_base::{Bytes, NoMemory};
use std::alloc::Global;

/// The request that begins the channel. It is replied to with 201.
pub(crate) fn begin_request(alloc: Global) -> Result<Bytes, NoMemory>
    ensures { IfOk result (λ text. text ≡ defs.begin_request) }
{
    let mut text = Bytes::copy_of(
        alloc,
        b"PUT /channels/gen HTTP/1.1\r\nContent-Length: 25\r\n\r\n",
    )?;
    text.extend(b"{\"host\":\"h\",\"source\":\"s\"}")?;
    Ok(text)
}

/// Adds a number below 10,000 in four digits.
fn add_four(text: &mut Bytes, number: u64) -> Result<(), NoMemory>
    ensures { OnOk result (text.new ≡ text.old ++ defs.four number) }
{
    text.extend(&[
        digit(1_000, number),
        digit(100, number),
        digit(10, number),
        digit(1, number),
    ])
}

/// The request that adds a block of at most 9,999 bytes. It is replied to with 200.
pub(crate) fn block_request(alloc: Global, block: &[u8]) -> Result<Bytes, NoMemory>
    ensures { IfOk result (λ text. text ≡ defs.block_request block.now) }
{
    let mut text = Bytes::copy_of(
        alloc,
        b"POST /channels/gen/blocks HTTP/1.1\r\nContent-Length: ",
    )?;
    add_four(&mut text, block.len() as u64)?;
    text.extend(b"\r\n\r\n")?;
    text.extend(block)?;
    Ok(text)
}

/// The request that ends the channel. It is replied to with 200.
pub(crate) fn end_request(alloc: Global) -> Result<Bytes, NoMemory>
    ensures { IfOk result (λ text. text ≡ defs.end_request) }
{
    Bytes::copy_of(alloc, b"POST /channels/gen/end HTTP/1.1\r\n\r\n")
}
