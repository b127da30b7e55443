//! A law of the names of indexes, without code: the contract of a function that does nothing.
//! Callers of `view_indexes` and `view_indexes_anew` stand on it.

ghost use Rattle.ix_bounds.specs.Names.{NamesAreNoVolumes};

/// After every history whose commands bring settings that were judged, no index that ever had a
/// bucket has the name of a volume.
pub fn names_are_no_volumes()
    ensures { NamesAreNoVolumes }
{}
