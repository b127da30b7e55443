//! What may be bad of a log whose bodies all count. The state in memory says it to a mount, which
//! looks for the body.

ghost use Rattle.std.specs.Prelude.{◌≡◌};
ghost use Rattle.ix_store.specs.Finding.{name_in, is_under, settings_name, channel_name};

use ix_base::Bytes;
use ix_items::Item;

/// Of which item of a log no state comes.
#[derive(Debug, Drop)]
pub enum FaultyItem {
    /// That of the settings.
    Settings,
    /// That of the open channel of this name.
    Channel { name: Bytes },
}

impl FaultyItem {
    /// Whether the item stands under the subject's name.
    pub(crate) fn is_of(&self, item: &Item) -> bool
        ensures { result ≡ is_under (name_in self.now) item.now }
    {
        match self {
            FaultyItem::Settings => is_settings(item),
            FaultyItem::Channel { name } => is_channel(item, name.as_slice()),
        }
    }
}

/// Whether an item stands for settings.
fn is_settings(item: &Item) -> bool
    ensures { result ≡ is_under settings_name item.now }
{
    match item {
        Item::Settings { .. } => true,
        Item::Run { .. }
        | Item::Moments { .. }
        | Item::Channel { .. }
        | Item::Ended { .. }
        | Item::Bucket { .. }
        | Item::Gone { .. }
        | Item::Ledger { .. }
        | Item::Counts { .. }
        | Item::Spot { .. }
        | Item::NextFile { .. }
        | Item::Removals { .. }
        | Item::NextId { .. } => false,
    }
}

/// Whether an item stands for the channel of this name, or for its end.
fn is_channel(item: &Item, channel: &[u8]) -> bool
    ensures { result ≡ is_under (channel_name channel.now) item.now }
{
    match item {
        Item::Channel { name, .. } => name.as_slice() == channel,
        Item::Ended { name } => name.as_slice() == channel,
        Item::Settings { .. }
        | Item::Run { .. }
        | Item::Moments { .. }
        | Item::Bucket { .. }
        | Item::Gone { .. }
        | Item::Ledger { .. }
        | Item::Counts { .. }
        | Item::Spot { .. }
        | Item::NextFile { .. }
        | Item::Removals { .. }
        | Item::NextId { .. } => false,
    }
}
