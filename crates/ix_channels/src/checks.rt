//! Whether items and outcomes are of a size that a log and a bucket take. It is asked of whatever
//! was worked out, before it is said.

ghost use Rattle.std.specs.Prelude.{◌≡◌, ◌<◌, ◌↔◌, ◌^◌, ◌∷◌, [], IfOk, IfSome, IsTrue, IsErrOf, true, false};
ghost use Rattle.std.specs.List.{All};
ghost use Rattle.ix_coding.specs.Spelling.{IsShort as IsShortText};
ghost use Rattle.ix_items.specs.Spelling.{HasSpelling, IsMeta};
ghost use Rattle.ix_items.specs.declared.items.Item.TheVariants as items;
ghost use Rattle.ix_parse.specs.Limits.{IsSmall};
ghost use Rattle.ix_catalog.specs.Numbers.{HasRecord};
ghost use Rattle.ix_channels.specs.Sizes.{AreBriefFields, IsBriefOutcome, HasBriefChance};
ghost use Rattle.ix_channels.specs.declared.channel_effect.WorkFault.TheVariants as faults;

use crate::channel_effect::WorkFault;
use ix_base::{Bytes, ChannelMeta, Event, Routed};
use ix_items::{Item, is_short, is_short_meta};
use ix_life::LimitSet;

/// Fields of an event are shorter.
const BRIEF: usize = 16_777_216;

/// Names of indexes are shorter.
const BRIEF_NAME: usize = 1_073_741_824;

/// The item of an open channel. It is `Full` where it has no spelling.
pub(crate) fn channel_item(name: Bytes, meta: ChannelMeta, carry: Bytes) -> Result<Item, WorkFault>
    ensures item { IfOk result (λ item. item ≡ items.Channel name meta carry) }
    ensures proper { IfOk result (λ item. HasSpelling item) }
    ensures full { IsErrOf result WorkFault.Full → IsShortText name → IsMeta meta → IsShortText carry → ⊥ }
{
    if is_short(&name) && is_short_meta(&meta) && is_short(&carry) {
        Ok(Item::Channel { name, meta, carry })
    } else {
        Err(WorkFault::Full)
    }
}

/// The item of a channel that has ended. It is `Full` where it has no spelling.
pub(crate) fn ended_item(name: Bytes) -> Result<Item, WorkFault>
    ensures item { IfOk result (λ item. item ≡ items.Ended name) }
    ensures proper { IfOk result (λ item. HasSpelling item) }
    ensures full { IsErrOf result WorkFault.Full → IsShortText name → ⊥ }
{
    if is_short(&name) {
        Ok(Item::Ended { name })
    } else {
        Err(WorkFault::Full)
    }
}

/// Whether the fields of an event are brief.
fn has_brief_fields(event: &Event) -> bool
    ensures { IsTrue result ↔ AreBriefFields event.now }
{
    event.index.len() < BRIEF
        && event.host.len() < BRIEF
        && event.source.len() < BRIEF
        && event.sourcetype.len() < BRIEF
        && event.meta.len() < BRIEF
        && event.raw.len() < BRIEF
}

fn is_brief(outcome: &Routed) -> bool
    ensures { IsTrue result ↔ IsBriefOutcome outcome.now }
{
    match outcome {
        Routed::To(event) => has_brief_fields(event),
        Routed::Null => true,
    }
}

fn are_brief(outcomes: &[Routed]) -> bool
    ensures { IsTrue result ↔ All IsBriefOutcome outcomes.now }
{
    outcomes.iter().all(|outcome| is_brief(outcome))
}

/// Whether the `lastChanceIndex`, where there is one, has a brief name.
fn has_brief_chance(limits: &LimitSet) -> bool
    ensures { IsTrue result ↔ HasBriefChance limits.now }
{
    match &limits.last_chance {
        Some(name) => name.len() < BRIEF_NAME,
        None => true,
    }
}

/// Whether each event has a record wherever it goes.
pub(crate) fn have_records(limits: &LimitSet, outcomes: &[Routed]) -> bool
    ensures yes { IsTrue result → All (HasRecord limits.now) outcomes.now }
    ensures no { result ≡ false → HasBriefChance limits.now → All IsSmall outcomes.now → ⊥ }
{
    has_brief_chance(limits) && are_brief(outcomes)
}
