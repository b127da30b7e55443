//! Where a channel stands in memory.

ghost use Rattle.std.specs.Prelude.{◌≡◌, ◌≤◌, ◌<◌, length, not, IfSome};
ghost use Rattle.std.specs.List.{position};
ghost use Rattle.ix_state.specs.Causes.{has_name};
ghost use Rattle.ix_state.specs.declared.state.OpenChannel.{OpenChannel};
ghost use Rattle.ix_channels.specs.Places as defs;

use ix_state::OpenChannel;
use std::cmp::Ordering;

/// The place of the channel of this name.
pub(crate) fn place_of(channels: &[OpenChannel], name: &[u8]) -> Option<usize>
    ensures value { result ≡ position (has_name name.now) channels.now }
    ensures within { IfSome result (λ k. k < length channels.now) }
{
    channels
        .iter()
        .position(|open| open.name.as_slice() == name)
}

/// Whether a channel stands before one of this name.
fn is_before(channel: &OpenChannel, name: &[u8]) -> bool
    ensures { result ≡ defs.is_before name.now channel.now }
{
    match channel.name.as_slice().cmp(&name) {
        Ordering::Less => true,
        Ordering::Equal => false,
        Ordering::Greater => false,
    }
}

/// The first place at which a channel stands that does not stand before one of this name.
fn place_behind(channels: &[OpenChannel], name: &[u8]) -> Option<usize>
    ensures value { result ≡ position (λ (o : OpenChannel). not (defs.is_before name.now o)) channels.now }
    ensures within { IfSome result (λ k. k < length channels.now) }
{
    channels
        .iter()
        .position(|channel| !is_before(channel, name))
}

/// The place at which a channel of this name is to stand.
pub(crate) fn place_for(channels: &[OpenChannel], name: &[u8]) -> usize
    ensures value { result ≡ defs.place_for name.now channels.now }
    ensures within { result ≤ length channels.now }
{
    match place_behind(channels, name) {
        Some(at) => at,
        None => channels.len(),
    }
}
