//! What housekeeping does to the buckets of an index.

use ix_base::Sequence;
use ix_items::Rule;

/// The numbers of buckets of one index.
pub type IdList = Sequence<u64>;

/// The numbers of buckets of one index, each with the rule that freezes it.
pub type FreezeList = Sequence<(u64, Rule)>;

/// What housekeeping does to the buckets of an index, each list by the newest time and then by the
/// number.
#[derive(Drop)]
pub struct Moves {
    /// The hot and quarantine buckets that roll to warm.
    pub warmed: IdList,
    /// The warm buckets that move to cold, those that freeze in the same turn included.
    pub cooled: IdList,
    /// The buckets that freeze: first those of the rule age, then of the rule cold, then of the
    /// rule total, and of these the cold ones before the warm ones.
    pub frozen: FreezeList,
}
