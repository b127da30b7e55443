//! The routes: what the path of a target names.

ghost use Rattle.std.specs.Prelude.{◌≡◌, ◌≤◌, ◌==◌, ◌&&◌, length, option_map};
ghost use Rattle.std.specs.List.{list_all, position_or_len};
ghost use Rattle.ix_http.specs.Routes.{seen, path_of, query_of, is_name_byte, is_channel_name, route_of, RoutesAreExact};
ghost use Rattle.ix_http.specs.Table.{named_route};

use crate::router::{Form, Routes};

/// What a path names.
#[derive(Clone, Copy, Debug)]
pub(crate) enum Place<'b> {
    /// A channel, by its name.
    Channel(&'b [u8]),
    /// The blocks of a channel.
    Blocks(&'b [u8]),
    /// The end of a channel.
    End(&'b [u8]),
    /// What is acknowledged.
    Acks,
    /// The buckets.
    Buckets,
    /// The events of an index, by its name.
    Events(&'b [u8]),
}

/// How many bytes stand before the first `?`.
fn path_len(target: &[u8]) -> usize
    ensures value { result ≡ position_or_len (λ b. b == 63) target.now }
    ensures within { result ≤ length target.now }
{
    target.iter().take_while(|b| **b != b'?').count()
}

/// The path of a target: what stands before its first `?`.
pub(crate) fn path_of(target: &str) -> &str
    ensures { result.now ≡ path_of target.now }
{
    let end = path_len(target.as_bytes());
    &target[..end]
}

/// The query of a target: what stands behind its first `?`.
pub(crate) fn query_of(target: &str) -> &[u8]
    ensures { result.now ≡ query_of target.now }
{
    let target = target.as_bytes();
    let end = path_len(target);
    if end < target.len() {
        &target[end + 1..]
    } else {
        &target[end..]
    }
}

fn is_name_byte(b: u8) -> bool
    ensures { result ≡ is_name_byte b }
{
    b.is_ascii_alphanumeric() || b == b'_' || b == b'-' || b == b'.'
}

fn are_name_bytes(name: &[u8]) -> bool
    ensures { result ≡ list_all is_name_byte name.now }
{
    name.iter().all(|b| is_name_byte(*b))
}

/// Whether a channel may have the name: 1 to 64 letters, digits, `_`, `-` or `.`.
#[tactic(auto, using(std::proofs::lemmas::Bool::Decides::nat_tests))]
fn is_channel_name(name: &[u8]) -> bool
    ensures { result ≡ is_channel_name name.now }
{
    1 <= name.len() && name.len() <= 64 && are_name_bytes(name)
}

/// What a form and a name say.
fn named_place(form: Form, name: &[u8]) -> Option<Place<'_>>
    ensures { option_map seen result ≡ named_route form name.now }
{
    match form {
        Form::Channel if is_channel_name(name) => Some(Place::Channel(name)),
        Form::Blocks if is_channel_name(name) => Some(Place::Blocks(name)),
        Form::End if is_channel_name(name) => Some(Place::End(name)),
        Form::Channel | Form::Blocks | Form::End => None,
        Form::Acks => Some(Place::Acks),
        Form::Buckets => Some(Place::Buckets),
        Form::Events => Some(Place::Events(name)),
    }
}

/// What a path names.
pub(crate) fn place_of<'b>(routes: &Routes, path: &'b str) -> Option<Place<'b>>
    ensures { option_map seen result ≡ route_of path.entry.now }
{
    match routes.find(path) {
        Some((form, name)) => named_place(form, name.as_bytes()),
        None => None,
    }
}

/// A law of the routes: a path names a channel, its blocks or its end, the acknowledgements, the
/// buckets or the events of an index exactly where it is spelled as the manual says, with a name of
/// the form.
pub fn routes_are_exact()
    ensures { RoutesAreExact }
{}
