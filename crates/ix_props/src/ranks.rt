//! How near a stanza of props.conf is to a channel for which it holds. `holding` and `choosing`
//! stand on it.

ghost use Rattle.std.specs.Prelude.{◌≡◌, codes};
ghost use Rattle.ix_props.specs.Choice.{is_wild, has_wildcard, default_priority, names_source_type, step_of, order};
ghost use Rattle.ix_props.specs.Ranking.{plain_rank};

use crate::kinds::{begins_with, is_ignored, is_key};
use std::cmp::Ordering;

/// What a stanza holds for, the nearest first.
#[derive(Clone, Copy)]
pub(crate) enum Nearness {
    /// Sources that fit.
    Source,
    /// Hosts that fit.
    Host,
    /// One source type.
    SourceType,
    /// All channels.
    Everything,
}

/// The rank of a stanza that holds for a channel.
#[derive(Clone, Copy)]
pub(crate) struct Rank {
    pub nearness: Nearness,
    /// Of stanzas that are as near, the one of the greatest priority comes first.
    pub priority: i64,
}

impl Nearness {
    fn step(self) -> u8
        ensures { result ≡ step_of self }
    {
        match self {
            Nearness::Source => 0,
            Nearness::Host => 1,
            Nearness::SourceType => 2,
            Nearness::Everything => 3,
        }
    }
}

/// Which of two stanzas comes first: the nearer one, then that of the greater priority, then that
/// of the lesser name.
pub(crate) fn compare(stanza: &[u8], rank: Rank, other: &[u8], other_rank: Rank) -> Ordering
    ensures { result ≡ order (stanza.now, rank) (other.now, other_rank) }
{
    match rank.nearness.step().cmp(&other_rank.nearness.step()) {
        Ordering::Equal => match other_rank.priority.cmp(&rank.priority) {
            Ordering::Equal => stanza.cmp(&other),
            unequal => unequal,
        },
        unequal => unequal,
    }
}

fn is_wild(byte: u8) -> bool
    ensures { result ≡ is_wild byte }
{
    byte == b'*' || (byte == b'|' || (byte == b'(' || byte == b')'))
}

/// Whether a pattern has a wildcard, an alternative or a group.
fn has_wildcard(text: &[u8]) -> bool
    ensures { result ≡ has_wildcard text.now }
{
    let mut rest = text;
    while !rest.is_empty() {
        if is_wild(rest[0]) || begins_with(rest, b"...") {
            return true;
        }
        rest = &rest[1..];
    }
    false
}

/// The priority of a stanza that states none, by its pattern.
pub(crate) fn default_priority(text: &[u8]) -> i64
    ensures { result ≡ default_priority text.now }
{
    if has_wildcard(text) { 0 } else { 100 }
}

fn names_source_type(stanza: &[u8]) -> bool
    ensures { result ≡ names_source_type stanza.now }
{
    !is_ignored(stanza) && (!begins_with(stanza, b"source::") && !begins_with(stanza, b"host::"))
}

/// The rank of a stanza without a pattern, for a channel of this source type.
pub(crate) fn plain_rank(sourcetype: &[u8], stanza: &[u8]) -> Option<Rank>
    ensures { result ≡ plain_rank sourcetype.now stanza.now }
{
    if is_key(stanza, sourcetype) && names_source_type(stanza) {
        Some(Rank {
            nearness: Nearness::SourceType,
            priority: 0,
        })
    } else if is_key(stanza, b"default") {
        Some(Rank {
            nearness: Nearness::Everything,
            priority: 0,
        })
    } else {
        None
    }
}
