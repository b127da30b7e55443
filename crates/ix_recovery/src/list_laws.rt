//! Laws of the items that a state stands as, without code: each is the contract of a function that
//! does nothing. What keeps the state in memory, and what reads it back from a log, stand on them.

ghost use Rattle.ix_recovery.specs.ListLaws.{FitsWithLog, FitsWithin, HaveRoom, ItemsLead, ItemsPart, ListsTell, StatesAreListed};
ghost use Rattle.ix_recovery.specs.ListLaws.{WithinFits};

/// After every history, the items of its state, with a run and perhaps last removals, are what
/// stands in the log of its store: each stands there once, and nothing else does.
pub fn states_are_listed()
    ensures { StatesAreListed }
{}

/// The items of a state alone, one behind the other in whatever order, lead to what stands in its
/// log but for the run and last removals.
pub fn items_lead()
    ensures { ItemsLead }
{}

/// The items of a state are the same kind by kind, with all buckets before all entries, as they
/// stand in memory.
pub fn items_part()
    ensures { ItemsPart }
{}

/// The items of a state within the bounds have room in one body of a log, where no more is carried
/// of its channels than can be.
pub fn items_have_room()
    ensures { HaveRoom }
{}

/// After every history, where its state keeps the bounds of what a store can keep, the items of its
/// log do: with any run below 2^63 and with last removals, or without, whose files are done with.
/// And where the items of a log keep the bounds, the state does.
pub fn within_fits()
    ensures within { WithinFits }
    ensures fits { FitsWithin }
{}

/// Where the items of a log keep the bounds, they do with the one log before it as the last
/// removal, as behind a checkpoint.
pub fn fits_with_log()
    ensures { FitsWithLog }
{}

/// Whatever list of what stands in the log of a history's store is taken, whatever run wrote it, it
/// has the items of the open channels, the buckets, the entries, the spots, the numbers of next
/// buckets and the settings of the state, and none besides; and it says the moments, the counts and
/// the number of the next file, which are those of a store that has accepted nothing where it does
/// not.
pub fn lists_tell()
    ensures { ListsTell }
{}
