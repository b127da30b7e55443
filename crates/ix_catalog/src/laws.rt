//! Laws of dealing, as functions that do nothing. The store calls them where it needs what they
//! say.

ghost use Rattle.ix_catalog.specs.Numbers.{SmallHasRecord};

/// A law: the record of an event has fewer than 2^32 bytes wherever the event goes, where its
/// fields but the index have fewer than 2^31 bytes together, and its index and the
/// `lastChanceIndex` fewer than 2^30 each.
#[tactic(auto, using(crate::proofs::RecordSizes::small_has_record))]
pub fn small_has_record()
    ensures { SmallHasRecord }
{}
