//! Records written.

ghost use Rattle.std.specs.Prelude.{◌≡◌, ◌<◌, ◌^◌, ◌++◌, length, OnOk, OnErr};
ghost use Rattle.ix_coding.specs.Spelling.{signed, string, IsShort};
ghost use Rattle.ix_coding.specs.Writing.{Extends};
ghost use Rattle.ix_bucket.specs.Record.{fields, event_bytes};

use ix_base::{Bytes, Event, NoMemory};
use ix_coding::{put_i64, put_string, put_u32};

/// The length of an event's fields.
#[tactic(auto, using(crate::proofs::Sizes::length_fields))]
fn size_of(event: &Event) -> u32
    requires { IsShort (fields event.now) }
    ensures { result ≡ length (fields event.now) }
{
    let names = event.index.len() + event.host.len() + event.source.len() + event.sourcetype.len();
    (40 + names + event.meta.len() + event.raw.len()) as u32
}

/// Puts the moments, the index and the host.
#[tactic(auto, using(crate::proofs::Sizes::length_fields))]
fn put_first_fields(event: &Event, out: &mut Bytes) -> Result<(), NoMemory>
    requires { IsShort (fields event.now) }
    ensures ok { OnOk result (out.new ≡ out.old ++ (signed event.now.time ++ signed event.now.arrival ++ string event.now.index
        ++ string event.now.host)) }
    ensures begun { Extends out.old out.new }
{
    put_i64(event.time, out)?;
    put_i64(event.arrival, out)?;
    put_string(event.index.as_slice(), out)?;
    put_string(event.host.as_slice(), out)?;
    Ok(())
}

/// Puts the other fields.
#[tactic(auto, using(crate::proofs::Sizes::length_fields))]
fn put_last_fields(event: &Event, out: &mut Bytes) -> Result<(), NoMemory>
    requires { IsShort (fields event.now) }
    ensures ok { OnOk result (out.new ≡ out.old ++ (string event.now.source ++ string event.now.sourcetype ++ string event.now.meta
        ++ string event.now.raw)) }
    ensures begun { Extends out.old out.new }
{
    put_string(event.source.as_slice(), out)?;
    put_string(event.sourcetype.as_slice(), out)?;
    put_string(event.meta.as_slice(), out)?;
    put_string(event.raw.as_slice(), out)?;
    Ok(())
}

fn put_record(event: &Event, out: &mut Bytes) -> Result<(), NoMemory>
    requires { IsShort (fields event.now) }
    ensures ok { OnOk result (out.new ≡ out.old ++ event_bytes event.now) }
    ensures begun { Extends out.old out.new }
{
    put_u32(size_of(event), out)?;
    put_first_fields(event, out)?;
    put_last_fields(event, out)?;
    Ok(())
}

/// Adds the event's record at the end, of fewer than 2^32 bytes. Where there is no room for it
/// nothing changes.
#[tactic(auto, using(crate::proofs::Sizes::length_event_bytes))]
pub fn encode(event: &Event, out: &mut Bytes) -> Result<(), NoMemory>
    requires { length (event_bytes event.now) < 2 ^ 32 }
    ensures ok { OnOk result (out.new ≡ out.old ++ event_bytes event.now) }
    ensures err { OnErr result (out.new ≡ out.old) }
{
    let before = out.len();
    let done = put_record(event, out);
    if done.is_err() {
        out.truncate(before);
    }
    done
}
