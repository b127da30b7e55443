//! One request is read from a link: its head, and where it is known where it ends, its body.

ghost use Rattle.std.specs.Prelude.{◌≡◌, ◌≤◌, length, Result, Err, Some, None, IfOk};
ghost use Rattle.ix_base.specs.Faults.{Rose};
ghost use Rattle.ix_base.specs.Told.{Told};
ghost use Rattle.ix_heads.specs.Reads.{OnlyReads};
ghost use Rattle.ix_http.specs.Asked.{Fits};
ghost use Rattle.ix_http.specs.Behind.{FitsAsked, FitsBehind};
ghost use Rattle.ix_http.specs.Limits.{IsWithin};
ghost use Rattle.ix_http.specs.Verdicts.{delimited_length, head_fault};

use crate::asks::asked_of;
use crate::kinds::{HttpFault, Incoming};
use crate::places::{path_of, place_of, query_of};
use crate::router::Routes;
use crate::taking::{read_body, skip};
use crate::verdicts::{delimited_length, head_fault, unread_fault};
use ix_base::NoMemory;
use ix_heads::{EMPTY_HEADER_SPAN, Head, HeadRead, LinkFault, MAX_HEAD, MAX_LINES, read_head};
use ix_net::Link;
use std::alloc::Global;

/// Reads the body of a request whose head has no fault, and what it asks.
fn read_asked<K: Link>(
    alloc: Global,
    routes: &Routes,
    link: &mut K,
    head: &Head<'_>,
    count: usize,
) -> Result<Incoming, LinkFault>
    requires fine { head_fault head.now ≡ None }
    requires bound { count ≤ 1048576 }
    ensures read { Told (FitsAsked count head.now result) (K.left link.old) (K.left link.new) }
    ensures within { IfOk result IsWithin }
    ensures reads { OnlyReads (K.given link.old) (K.given link.new) (K.standing link.old) (K.standing link.new) (K.faults link.old)
        (K.faults link.new) }
    ensures failed { result ≡ Err LinkFault.Failed → Rose (K.faults link.old) (K.faults link.new) }
{
    let body = read_body(alloc, link, count)?;
    let target = head.target();
    let Some(place) = place_of(routes, path_of(target)) else {
        return Ok(Incoming::Refused {
            fault: HttpFault::NoRoute,
            delimited: true,
        });
    };
    match asked_of(alloc, place, query_of(target), body) {
        Ok(incoming) => Ok(incoming),
        Err(NoMemory) => Err(LinkFault::NoMemory { whole: true }),
    }
}

/// Reads over the body of a request that is refused.
fn read_refused<K: Link>(
    link: &mut K,
    head: &Head<'_>,
    count: usize,
    fault: HttpFault,
) -> Result<Incoming, LinkFault>
    requires { head_fault head.now ≡ Some fault }
    ensures read { Told (FitsAsked count head.now result) (K.left link.old) (K.left link.new) }
    ensures within { IfOk result IsWithin }
    ensures reads { OnlyReads (K.given link.old) (K.given link.new) (K.standing link.old) (K.standing link.new) (K.faults link.old)
        (K.faults link.new) }
    ensures failed { result ≡ Err LinkFault.Failed → Rose (K.faults link.old) (K.faults link.new) }
{
    skip(link, count)?;
    Ok(Incoming::Refused {
        fault,
        delimited: true,
    })
}

/// Reads what stands behind a head, and judges the request.
fn read_behind<K: Link>(
    alloc: Global,
    routes: &Routes,
    link: &mut K,
    head: &Head<'_>,
) -> Result<Incoming, LinkFault>
    requires { length head.now.lines ≤ 64 }
    ensures read { Told (FitsBehind head.now result) (K.left link.old) (K.left link.new) }
    ensures within { IfOk result IsWithin }
    ensures reads { OnlyReads (K.given link.old) (K.given link.new) (K.standing link.old) (K.standing link.new) (K.faults link.old)
        (K.faults link.new) }
    ensures failed { result ≡ Err LinkFault.Failed → Rose (K.faults link.old) (K.faults link.new) }
{
    let Some(count) = delimited_length(head) else {
        return Ok(Incoming::Refused {
            fault: unread_fault(alloc, routes, head),
            delimited: false,
        });
    };
    match head_fault(alloc, routes, head) {
        Some(fault) => read_refused(link, head, count as usize, fault),
        None => read_asked(alloc, routes, link, head, count as usize),
    }
}

/// Reads one request from a link, and takes just its bytes: the rest is left unread. Where it is
/// known where a request ends, its body is read before it is judged. The faults are judged in the
/// order of `HttpFault`. `Failed` comes only where the link failed, `Cut` exactly where it ended
/// inside a request. What is asked keeps its limits, whatever the link tells.
pub fn read_request<K: Link>(
    alloc: Global,
    routes: &Routes,
    link: &mut K,
) -> Result<Incoming, LinkFault>
    ensures read { Told (Fits result) (K.left link.old) (K.left link.new) }
    ensures within { IfOk result IsWithin }
    ensures reads { OnlyReads (K.given link.old) (K.given link.new) (K.standing link.old) (K.standing link.new) (K.faults link.old)
        (K.faults link.new) }
    ensures failed { result ≡ Err LinkFault.Failed → Rose (K.faults link.old) (K.faults link.new) }
{
    let mut bytes = [0u8; MAX_HEAD];
    let mut headers = [EMPTY_HEADER_SPAN; MAX_LINES];
    match read_head(alloc, link, &mut bytes, &mut headers) {
        Ok(HeadRead::Ended) => Ok(Incoming::Ended),
        Ok(HeadRead::Bad) => Ok(Incoming::Refused {
            fault: HttpFault::BadHead,
            delimited: false,
        }),
        Err(fault) => Err(fault),
        Ok(HeadRead::Whole(spans)) => {
            let head = Head::new(&bytes[..spans.len], &headers, spans);
            read_behind(alloc, routes, link, &head)
        }
    }
}
