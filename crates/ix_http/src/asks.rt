//! What a request without a fault of its head asks.

ghost use Rattle.std.specs.Prelude.{◌≡◌, IfOk, option_map, option_and_then};
ghost use Rattle.ix_http.specs.Routes.{seen};
ghost use Rattle.ix_http.specs.Bodies.{json_of, meta_of, acks_of};
ghost use Rattle.ix_http.specs.Ranges.{range_of};
ghost use Rattle.ix_http.specs.Asked.{asked_of, or_refused};

use crate::bodies::{read_acks, read_meta};
use crate::kinds::{Ask, HttpFault, Incoming};
use crate::places::Place;
use crate::ranges::read_range;
use ix_base::{Bytes, NoMemory};
use std::alloc::Global;

fn or_refused(fault: HttpFault, ask: Option<Ask>) -> Incoming
    ensures { result ≡ or_refused fault ask }
{
    match ask {
        Some(ask) => Incoming::Asked { ask },
        None => Incoming::Refused {
            fault,
            delimited: true,
        },
    }
}

fn begin(alloc: Global, name: &[u8], body: &[u8]) -> Result<Option<Ask>, NoMemory>
    ensures { IfOk result (λ ask. ask ≡ option_map (λ meta. Ask.Begin name.now meta) (option_and_then meta_of (json_of body.now))) }
{
    let channel = Bytes::copy_of(alloc, name)?;
    match read_meta(alloc, body)? {
        Some(meta) => Ok(Some(Ask::Begin { channel, meta })),
        None => Ok(None),
    }
}

fn acks(alloc: Global, body: &[u8]) -> Result<Option<Ask>, NoMemory>
    ensures { IfOk result (λ ask. ask ≡ option_map (λ a. Ask.Acks a.0 a.1) (option_and_then acks_of (json_of body.now))) }
{
    match read_acks(alloc, body)? {
        Some((run, numbers)) => Ok(Some(Ask::Acks { run, numbers })),
        None => Ok(None),
    }
}

fn events(alloc: Global, name: &[u8], query: &[u8]) -> Result<Option<Ask>, NoMemory>
    ensures { IfOk result (λ ask. ask ≡ option_map (λ range. Ask.Events name.now range) (range_of query.now)) }
{
    let index = Bytes::copy_of(alloc, name)?;
    match read_range(alloc, query)? {
        Some(range) => Ok(Some(Ask::Events { index, range })),
        None => Ok(None),
    }
}

/// What a request asks, by its place, its query and its body.
#[tactic(auto, unfolding(crate::specs::Asked::asked_of))]
pub(crate) fn asked_of(
    alloc: Global,
    place: Place<'_>,
    query: &[u8],
    body: Bytes,
) -> Result<Incoming, NoMemory>
    ensures { IfOk result (λ incoming. incoming ≡ asked_of (seen place.entry) query.now body) }
{
    match place {
        Place::Channel(name) => {
            let ask = begin(alloc, name, body.as_slice())?;
            Ok(or_refused(HttpFault::BadBody, ask))
        }
        Place::Blocks(name) => {
            let channel = Bytes::copy_of(alloc, name)?;
            let ask = Ask::Block {
                channel,
                bytes: body,
            };
            Ok(Incoming::Asked { ask })
        }
        Place::End(name) => {
            let channel = Bytes::copy_of(alloc, name)?;
            Ok(Incoming::Asked {
                ask: Ask::End { channel },
            })
        }
        Place::Acks => {
            let ask = acks(alloc, body.as_slice())?;
            Ok(or_refused(HttpFault::BadBody, ask))
        }
        Place::Buckets => Ok(Incoming::Asked { ask: Ask::Buckets }),
        Place::Events(name) => {
            let ask = events(alloc, name, query)?;
            Ok(or_refused(HttpFault::BadQuery, ask))
        }
    }
}
