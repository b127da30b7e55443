//! What is judged of a request by its head alone.

ghost use Rattle.std.specs.Prelude.{◌≡◌, ◌≤◌, ◌&&◌, length, Some, None, IfSome, bytes_eq};
ghost use Rattle.ix_http.specs.Routes.{seen};
ghost use Rattle.ix_heads.specs.Lengths.{declared_length};
ghost use Rattle.ix_http.specs.Verdicts.{method_of, limit_of, needs_length, length_of, is_missing, is_wrong, is_good, is_chunked};
ghost use Rattle.ix_http.specs.Verdicts.{delimited_length, route_fault, head_fault};

use crate::kinds::HttpFault;
use crate::places::{Place, path_of, place_of};
use crate::router::Routes;
use http::Method;
use ix_heads::{Declared, Head, declared_length};
use std::alloc::Global;

/// The longest body of a request whose end is known.
const MAX_BODY: u64 = 1_048_576;

impl Place<'_> {
    /// Its method.
    fn method(&self) -> Method
        ensures { result ≡ method_of (seen self.now) }
    {
        match self {
            Place::Channel(_) => Method::PUT,
            Place::Blocks(_) | Place::End(_) | Place::Acks => Method::POST,
            Place::Buckets | Place::Events(_) => Method::GET,
        }
    }

    /// The most bytes that a body may have here.
    fn limit(&self) -> u64
        ensures { result ≡ limit_of (seen self.now) }
    {
        match self {
            Place::Channel(_) | Place::Acks => 65_536,
            Place::Blocks(_) => MAX_BODY,
            Place::End(_) | Place::Buckets | Place::Events(_) => 0,
        }
    }

    /// Whether the head has to say how long the body is.
    fn needs_length(&self) -> bool
        ensures { result ≡ needs_length (seen self.now) }
    {
        match self {
            Place::Channel(_) | Place::Blocks(_) | Place::Acks => true,
            Place::End(_) | Place::Buckets | Place::Events(_) => false,
        }
    }
}

/// The length of the body; 0 where the head does not say it.
fn length_of(declared: Declared) -> u64
    ensures { result ≡ length_of declared }
{
    match declared {
        Declared::Bytes(length) => length,
        Declared::Missing | Declared::Wrong => 0,
    }
}

/// Whether the body comes in pieces whose lengths the head does not say.
fn is_chunked(head: &Head<'_>) -> bool
    ensures { result ≡ is_chunked head.now }
{
    head.has_line(b"transfer-encoding")
}

/// How many bytes of body follow a head, where it is known where the request ends.
#[tactic(auto, unfolding(crate::specs::Verdicts::delimited_length))]
pub(crate) fn delimited_length(head: &Head<'_>) -> Option<u64>
    requires { length head.now.lines ≤ 64 }
    ensures value { result ≡ delimited_length head.now }
    ensures bound { IfSome result (λ n. n ≤ 1048576) }
{
    let declared = declared_length(head);
    if declared == Declared::Wrong || is_chunked(head) {
        return None;
    }
    let length = length_of(declared);
    if length > MAX_BODY {
        return None;
    }
    Some(length)
}

/// Whether a head asks for the method of a place.
fn has_method(alloc: Global, head: &Head<'_>, place: Place<'_>) -> bool
    ensures { result ≡ bytes_eq head.now.method (method_of (seen place.entry)) }
{
    match Method::from_bytes(alloc, head.method()) {
        Ok(method) => method == place.method(),
        Err(_) => false,
    }
}

/// What is wrong with a request to a place.
fn place_fault(
    alloc: Global,
    head: &Head<'_>,
    place: Place<'_>,
    declared: Declared,
) -> Option<HttpFault>
    requires { declared ≡ declared_length head.now.lines }
    ensures { result ≡ route_fault head.now (Some (seen place.entry)) }
{
    if !has_method(alloc, head, place) {
        return Some(HttpFault::WrongMethod);
    }
    if is_chunked(head) || place.needs_length() && declared == Declared::Missing {
        return Some(HttpFault::NoLength);
    }
    if head.has_other(b"content-encoding", b"identity") {
        return Some(HttpFault::Encoded);
    }
    if length_of(declared) > place.limit() {
        return Some(HttpFault::TooLong);
    }
    None
}

/// The first fault of a head.
#[tactic(auto, unfolding(crate::specs::Verdicts::head_fault))]
pub(crate) fn head_fault(alloc: Global, routes: &Routes, head: &Head<'_>) -> Option<HttpFault>
    requires { length head.now.lines ≤ 64 }
    ensures { result ≡ head_fault head.now }
{
    let declared = declared_length(head);
    if declared == Declared::Wrong {
        return Some(HttpFault::BadHead);
    }
    match place_of(routes, path_of(head.target())) {
        Some(place) => place_fault(alloc, head, place, declared),
        None => Some(HttpFault::NoRoute),
    }
}

/// The fault of a head that does not say where its request ends.
pub(crate) fn unread_fault(alloc: Global, routes: &Routes, head: &Head<'_>) -> HttpFault
    requires few { length head.now.lines ≤ 64 }
    requires endless { delimited_length head.now ≡ None }
    ensures { head_fault head.now ≡ Some result }
{
    match head_fault(alloc, routes, head) {
        Some(fault) => fault,
        None => HttpFault::BadHead,
    }
}
