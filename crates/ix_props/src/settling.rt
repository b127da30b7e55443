//! The settings of a channel, of the entries that are chosen for it. `Props::settings` calls it.

ghost use Rattle.std.specs.Prelude.{◌≡◌, IfOk, codes};
ghost use Rattle.ix_props.specs.Ranking.{found, lent, set_in, AreRanks, AreSet, IsSmall};
ghost use Rattle.ix_props.specs.Settings.{AreSettings, IsSourceType};
ghost use Rattle.ix_props.specs.Sound.{AreSound};

use crate::choosing::{choose, find};
use crate::classes::{add_chain, add_changes};
use crate::fields::{copy_breaker, copy_name, count_or, merge_settings, time_settings};
use crate::holding::{Ranks, rank_patterns};
use crate::props::PropsEntry;
use crate::settings::Settings;
use ix_base::{Bytes, ChannelMeta, NoMemory, Sequence};
use std::alloc::Global;

/// The source type that a channel states, or else that of the stanzas for its source, or else
/// `unknown`.
fn sourcetype_of<'a>(
    alloc: Global,
    entries: &'a [PropsEntry],
    ranks: &Ranks<'a>,
    meta: &ChannelMeta,
) -> Result<Bytes, NoMemory>
    requires { AreRanks entries.now entries.now meta.now.source meta.now.host (found ranks.now) }
    ensures { IfOk result (λ sourcetype. IsSourceType entries.now meta.now.sourcetype meta.now.source sourcetype) }
{
    match &meta.sourcetype {
        Some(stated) => stated.copy(),
        None => {
            let chosen = choose(alloc, entries, ranks, None)?;
            copy_name(alloc, b"unknown", find(&chosen, b"sourcetype"))
        }
    }
}

fn settle(alloc: Global, chosen: &[&PropsEntry], sourcetype: Bytes) -> Result<Settings, NoMemory>
    requires { IsSmall (set_in (lent chosen.now) (codes "MAX_TIMESTAMP_LOOKAHEAD")) }
    ensures { IfOk result (λ settings. AreSet (lent chosen.now) sourcetype settings) }
{
    let merge = merge_settings(chosen)?;
    let time = time_settings(alloc, chosen)?;
    let breaker = copy_breaker(alloc, find(chosen, b"LINE_BREAKER"))?;
    let mut settings = Settings {
        sourcetype,
        breaker,
        truncate: count_or(10_000, find(chosen, b"TRUNCATE")),
        merge,
        time,
        seds: Sequence::new(alloc),
        transforms: Sequence::new(alloc),
    };
    add_changes(alloc, &mut settings.seds, chosen)?;
    add_chain(alloc, &mut settings.transforms, chosen)?;
    Ok(settings)
}

/// The settings of a channel.
pub(crate) fn settings_of(
    alloc: Global,
    entries: &[PropsEntry],
    meta: &ChannelMeta,
) -> Result<Settings, NoMemory>
    requires { AreSound entries.now }
    ensures { IfOk result (λ settings. AreSettings entries.now meta.now settings) }
{
    let source = meta.source.as_slice();
    let host = meta.host.as_slice();
    let ranks = rank_patterns(alloc, entries, source, host)?;
    let sourcetype = sourcetype_of(alloc, entries, &ranks, meta)?;
    let chosen = choose(alloc, entries, &ranks, Some(sourcetype.as_slice()))?;
    settle(alloc, &chosen, sourcetype)
}
