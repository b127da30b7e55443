//! What the log says of an open channel.

ghost use Rattle.std.specs.Prelude.{◌≡◌, List, [], ◌∷◌, IfOk, IsErrOf};
ghost use Rattle.std.specs.List.{AllByRecursion};
ghost use Rattle.ix_base.specs.Stream.{Dated};
ghost use Rattle.ix_base.specs.declared.events.ChannelMeta.{ChannelMeta as Stated};
ghost use Rattle.ix_coding.specs.Spelling.{IsShort as IsShortText};
ghost use Rattle.ix_items.specs.Spelling.{HasSpelling, IsMeta};
ghost use Rattle.ix_parse.specs.Carry.{HasMoments};
ghost use Rattle.ix_parse.specs.Standing.{StandsFor};
ghost use Rattle.ix_props.specs.declared.settings.Settings.{Settings as Chosen};
ghost use Rattle.ix_channels.specs.Taken.{item_of};

use crate::channel_effect::WorkFault;
use crate::checks::channel_item;
use ix_base::{Bytes, ChannelMeta, Sequence};
use ix_items::Item;
use ix_parse::Channel;
use std::alloc::Global;

/// What is said of a channel: its name, its metadata and what is carried of its stream. It is
/// `Full` where this has no spelling.
fn said(name: &Bytes, meta: &ChannelMeta, channel: &Channel) -> Result<Item, WorkFault>
    ensures said { IfOk result (λ item. (settings : Chosen) (stated : Stated) (stream : List Dated) →
        StandsFor settings stated stream channel.now → item ≡ item_of name.now meta.now settings stream) }
    ensures proper { IfOk result (λ item. HasSpelling item) }
    ensures full { IsErrOf result WorkFault.Full → (settings : Chosen) (stated : Stated) (stream : List Dated) →
        StandsFor settings stated stream channel.now → HasMoments stream → IsShortText name.now → IsMeta meta.now → ⊥ }
{
    let carry = channel.carry()?;
    let item = channel_item(name.copy()?, meta.copy()?, carry)?;
    Ok(item)
}

/// A list of one item.
pub(crate) fn single(alloc: Global, item: Item) -> Result<Sequence<Item>, WorkFault>
    ensures items { IfOk result (λ items. items ≡ item ∷ []) }
    ensures full { IsErrOf result WorkFault.Full → ⊥ }
{
    let mut items = Sequence::new(alloc);
    items.push(item)?;
    Ok(items)
}

/// What is said of a channel, alone.
pub(crate) fn said_alone(
    alloc: Global,
    name: &Bytes,
    meta: &ChannelMeta,
    channel: &Channel,
) -> Result<Sequence<Item>, WorkFault>
    ensures said { IfOk result (λ items. (settings : Chosen) (stated : Stated) (stream : List Dated) →
        StandsFor settings stated stream channel.now → items ≡ item_of name.now meta.now settings stream ∷ []) }
    ensures proper { IfOk result (λ items. AllByRecursion HasSpelling items) }
    ensures full { IsErrOf result WorkFault.Full → (settings : Chosen) (stated : Stated) (stream : List Dated) →
        StandsFor settings stated stream channel.now → HasMoments stream → IsShortText name.now → IsMeta meta.now → ⊥ }
{
    let item = said(name, meta, channel)?;
    let items = single(alloc, item)?;
    Ok(items)
}
