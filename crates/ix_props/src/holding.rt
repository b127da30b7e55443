//! The stanzas of props.conf whose patterns the source or the host of a channel fits, for
//! `settling`.

ghost use Rattle.std.specs.Prelude.{◌≡◌, List, ℕ, Some, [], IfOk, OnOk, codes, bytes_eq};
ghost use Rattle.std.specs.Option.{option_map, option_and_then};
ghost use Rattle.std.specs.Map.{update};
ghost use Rattle.ix_props.specs.Choice.{value_in, number_of, stated_priority, priority_or};
ghost use Rattle.ix_props.specs.Ranking.{found, behind_or, IsRankIf, IsRankBy, AreRanks};
ghost use Rattle.ix_props.specs.Sound.{IsOwnSound, AreSound};

use crate::kinds::{behind, is_key};
use crate::props::PropsEntry;
use crate::ranks::{Nearness, Rank, default_priority};
use crate::values::Value;
use ix_base::NoMemory;
use ix_conf::NamePattern;
use std::alloc::Global;
use std::collections::BTreeMap;

/// The priorities that stanzas state; `None` for an empty one.
type Priorities<'a> = BTreeMap<&'a [u8], Option<i64>>;

/// Ranks of stanzas, by their names.
pub(crate) type Ranks<'a> = BTreeMap<&'a [u8], Rank>;

fn number_of(value: &Value) -> Option<i64>
    ensures { result ≡ number_of value.now }
{
    match value {
        Value::Number(number) => Some(*number),
        _ => None,
    }
}

fn put_priority<'a>(
    priorities: &mut Priorities<'a>,
    stanza: &'a [u8],
    priority: Option<i64>,
) -> Result<(), NoMemory>
    ensures { OnOk result ((name : List ℕ) → found priorities.new name ≡ update bytes_eq (found priorities.old) stanza.now (Some priority)
        name) }
{
    priorities.insert(stanza, priority)?;
    Ok(())
}

/// The priority that each stanza states.
fn read_priorities<'a>(alloc: Global, entries: &'a [PropsEntry]) -> Result<Priorities<'a>, NoMemory>
    ensures { IfOk result (λ priorities. (stanza : List ℕ) →
        found priorities stanza ≡ option_map number_of (value_in stanza (codes "priority") entries.now)) }
{
    let mut priorities = BTreeMap::new(alloc);
    let mut at = entries.len();
    while at > 0 {
        at -= 1;
        let entry = &entries[at];
        if is_key(entry.key.as_slice(), b"priority") {
            let priority = number_of(&entry.value);
            put_priority(&mut priorities, entry.stanza.as_slice(), priority)?;
        }
    }
    Ok(priorities)
}

/// The priority that a stanza states, where it states one.
fn stated<'a>(priorities: &Priorities<'a>, stanza: &'a [u8]) -> Option<i64>
    ensures { result ≡ option_and_then (λ priority. priority) (found priorities.now stanza.now) }
{
    match priorities.get(&stanza) {
        Some(priority) => *priority,
        None => None,
    }
}

/// The priority of a stanza with a pattern: what it states, or else that of the pattern behind the
/// prefix.
fn priority_of(stated: Option<i64>, prefix: &[u8], stanza: &[u8]) -> i64
    ensures { result ≡ priority_or stated (behind_or prefix.now stanza.now) }
{
    match stated {
        Some(priority) => priority,
        None => default_priority(behind(prefix, stanza).unwrap_or(stanza)),
    }
}

fn rank_if(
    alloc: Global,
    nearness: Nearness,
    priority: i64,
    pattern: &NamePattern,
    name: &[u8],
) -> Result<Option<Rank>, NoMemory>
    ensures { IfOk result (λ rank. IsRankIf nearness priority pattern.now name.now rank) }
{
    if pattern.fits(alloc, name)? {
        Ok(Some(Rank { nearness, priority }))
    } else {
        Ok(None)
    }
}

/// The rank of a stanza whose pattern the source or the host fits, by its own entry.
fn rank_of(
    alloc: Global,
    entry: &PropsEntry,
    stated: Option<i64>,
    source: &[u8],
    host: &[u8],
) -> Result<Option<Rank>, NoMemory>
    requires { IsOwnSound entry.now }
    ensures { IfOk result (λ rank. IsRankBy stated source.now host.now entry.now.stanza rank) }
{
    let stanza = entry.stanza.as_slice();
    match &entry.value {
        Value::Source(pattern) => {
            let priority = priority_of(stated, b"source::", stanza);
            rank_if(alloc, Nearness::Source, priority, pattern, source)
        }
        Value::Host(pattern) => {
            let priority = priority_of(stated, b"host::", stanza);
            rank_if(alloc, Nearness::Host, priority, pattern, host)
        }
        _ => Ok(None),
    }
}

fn put_rank<'a>(ranks: &mut Ranks<'a>, stanza: &'a [u8], rank: Rank) -> Result<(), NoMemory>
    ensures { OnOk result ((name : List ℕ) → found ranks.new name ≡ update bytes_eq (found ranks.old) stanza.now (Some rank) name) }
{
    ranks.insert(stanza, rank)?;
    Ok(())
}

/// The stanzas whose patterns the source or the host fits. Each pattern is tried once.
pub(crate) fn rank_patterns<'a>(
    alloc: Global,
    entries: &'a [PropsEntry],
    source: &[u8],
    host: &[u8],
) -> Result<Ranks<'a>, NoMemory>
    requires { AreSound entries.now }
    ensures { IfOk result (λ ranks. AreRanks entries.now entries.now source.now host.now (found ranks)) }
{
    let priorities = read_priorities(alloc, entries)?;
    let mut ranks = BTreeMap::new(alloc);
    let mut at = entries.len();
    while at > 0 {
        at -= 1;
        let entry = &entries[at];
        if entry.key.is_empty() {
            let stanza = entry.stanza.as_slice();
            if let Some(rank) = rank_of(alloc, entry, stated(&priorities, stanza), source, host)? {
                put_rank(&mut ranks, stanza, rank)?;
            }
        }
    }
    Ok(ranks)
}
