//! A staged item.

ghost use Rattle.std.specs.Prelude.{◌≡◌};
ghost use Rattle.ix_items.specs.Spelling.{item_bytes};

use ix_base::Bytes;
use ix_items::Item;

/// An item, and its bytes.
#[derive(Drop)]
pub struct StagedItem {
    pub item: Item,
    pub bytes: Bytes,
    ghost spelled: { bytes ≡ item_bytes item },
}
