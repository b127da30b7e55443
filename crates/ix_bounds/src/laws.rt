//! The law by which the bounds of a state are seen, without code: the contract of a function that
//! does nothing. `ix_apply` stands on it.

ghost use Rattle.ix_bounds.specs.Within.{BoundsAreSeen};

/// After every history, the state keeps the bounds of what a store can keep exactly where the parts
/// of it that are in memory are within theirs: without the events of its buckets and the streams of
/// its channels, and with the ledger in whatever order.
pub fn bounds_are_seen()
    ensures { BoundsAreSeen }
{}
