//! The value of each key that is the nearest to a channel, for `settling` and for the settings that
//! are read of it.

ghost use Rattle.std.specs.Prelude.{◌≡◌, List, ℕ, Option, Some, IfOk, OnOk, bytes_eq};
ghost use Rattle.std.specs.Option.{option_map, option_copied};
ghost use Rattle.std.specs.Map.{update};
ghost use Rattle.ix_props.specs.Ranking.{found, rank_for, for_source, Ranked, lent_candidate, at_key, gives_way, nearer, nearest, lent};
ghost use Rattle.ix_props.specs.Ranking.{set_in, AreNearest};
ghost use Rattle.ix_props.specs.declared.props.PropsEntry.{PropsEntry};
ghost use Rattle.ix_props.specs.declared.ranks.Rank.{Rank};

use crate::holding::Ranks;
use crate::kinds::is_key;
use crate::props::PropsEntry;
use crate::ranks::{Nearness, Rank, compare, plain_rank};
use crate::values::Value;
use ix_base::NoMemory;
use std::alloc::Global;
use std::collections::BTreeMap;

/// An entry of a stanza that holds.
#[derive(Clone, Copy)]
pub(crate) struct Candidate<'a> {
    pub entry: &'a PropsEntry,
    pub rank: Rank,
}

/// The nearest entry of each key.
type Nearest<'a> = BTreeMap<&'a [u8], Candidate<'a>>;

fn for_source(rank: Option<Rank>) -> Option<Rank>
    ensures { result ≡ for_source rank }
{
    match rank {
        Some(rank) => match rank.nearness {
            Nearness::Source => Some(rank),
            _ => None,
        },
        None => None,
    }
}

/// The rank of a stanza, for a channel of this source type; without one, for its source alone.
fn rank_for<'a>(ranks: &Ranks<'a>, sourcetype: Option<&[u8]>, stanza: &'a [u8]) -> Option<Rank>
    ensures { result ≡ rank_for (found ranks.now) (option_copied sourcetype.entry) stanza.now }
{
    let rank = ranks.get(&stanza).copied();
    match sourcetype {
        None => for_source(rank),
        Some(sourcetype) => rank.or(plain_rank(sourcetype, stanza)),
    }
}

/// Whether an entry gives way to the one that is there for its key.
fn gives_way<'a>(nearest: &Nearest<'a>, candidate: &Candidate<'a>) -> bool
    ensures { result ≡ gives_way (lent_candidate candidate.now)
        (option_map lent_candidate (found nearest.now candidate.now.entry.now.key)) }
{
    let entry = candidate.entry;
    let key = entry.key.as_slice();
    match nearest.get(&key) {
        Some(other) => {
            let order = compare(
                entry.stanza.as_slice(),
                candidate.rank,
                other.entry.stanza.as_slice(),
                other.rank,
            );
            order.is_gt()
        }
        None => false,
    }
}

fn put_candidate<'a>(
    nearest: &mut Nearest<'a>,
    key: &'a [u8],
    candidate: Candidate<'a>,
) -> Result<(), NoMemory>
    ensures { OnOk result ((name : List ℕ) → found nearest.new name ≡ update bytes_eq (found nearest.old) key.now (Some candidate.entry)
        name) }
{
    nearest.insert(key, candidate)?;
    Ok(())
}

/// Puts an entry in place of the one that is there for its key, unless it gives way to it.
fn add_candidate<'a>(nearest: &mut Nearest<'a>, candidate: Candidate<'a>) -> Result<(), NoMemory>
    ensures { OnOk result ((key : List ℕ) → option_map lent_candidate (found nearest.new key)
        ≡ nearer (at_key key (lent_candidate candidate.entry)) (option_map lent_candidate (found nearest.old key))) }
{
    if gives_way(nearest, &candidate) {
        return Ok(());
    }
    put_candidate(nearest, candidate.entry.key.as_slice(), candidate)
}

fn find_nearest<'a>(
    alloc: Global,
    entries: &'a [PropsEntry],
    ranks: &Ranks<'a>,
    sourcetype: Option<&[u8]>,
) -> Result<Nearest<'a>, NoMemory>
    ensures { IfOk result (λ map. (key : List ℕ) → option_map lent_candidate (found map key)
        ≡ nearest (rank_for (found ranks.now) (option_copied sourcetype.entry)) key entries.now) }
{
    let mut nearest = BTreeMap::new(alloc);
    let mut at = entries.len();
    while at > 0 {
        at -= 1;
        let entry = &entries[at];
        if let Some(rank) = rank_for(ranks, sourcetype, entry.stanza.as_slice()) {
            add_candidate(&mut nearest, Candidate { entry, rank })?;
        }
    }
    Ok(nearest)
}

/// The entries that are nearest, in the order of their keys.
fn list_of<'a>(alloc: Global, map: &Nearest<'a>) -> Result<Vec<&'a PropsEntry>, NoMemory>
    ensures { (ranks : List ℕ → Option Rank) (entries : List PropsEntry)
        → ((key : List ℕ) → option_map lent_candidate (found map.now key) ≡ nearest ranks key entries)
        → IfOk result (λ list. AreNearest ranks entries (lent list.items)) }
{
    let mut list = Vec::new(alloc);
    for (_, candidate) in map {
        list.push(candidate.entry)?;
    }
    Ok(list)
}

/// The nearest entry of each key, in the order of the keys, for a channel of this source type;
/// without one, for its source alone.
pub(crate) fn choose<'a>(
    alloc: Global,
    entries: &'a [PropsEntry],
    ranks: &Ranks<'a>,
    sourcetype: Option<&[u8]>,
) -> Result<Vec<&'a PropsEntry>, NoMemory>
    ensures { IfOk result (λ list. AreNearest (rank_for (found ranks.now) (option_copied sourcetype.entry)) entries.now (lent list.items)) }
{
    let map = find_nearest(alloc, entries, ranks, sourcetype)?;
    list_of(alloc, &map)
}

/// The value of a key among entries of different keys.
pub(crate) fn find<'a>(entries: &[&'a PropsEntry], key: &[u8]) -> Option<&'a Value>
    ensures { option_copied result ≡ set_in (lent entries.now) key.now }
{
    for entry in entries {
        let entry: &'a PropsEntry = entry;
        if is_key(key, entry.key.as_slice()) {
            return Some(&entry.value);
        }
    }
    None
}
