//! What holds of the bytes of items.

ghost use Rattle.ix_items.specs.Spelling.{HaveOneItem, HaveOneList};

/// No item is a proper prefix of another, and no two items have the same bytes: bytes have at most
/// one item at their front.
pub fn one_item()
    ensures { HaveOneItem }
{}

/// Bytes are at most one list of items, one behind the other.
pub fn one_list()
    ensures { HaveOneList }
{}
