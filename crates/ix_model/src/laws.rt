//! Laws of the machine, without code: each is the contract of a function that does nothing.
//! `ix_store` and its readers stand on them.

ghost use Rattle.ix_model.specs.Laws.{Balances, BucketsAreFollowed, EventsAreDealt, FieldsAreSums, FilesAreApart, FilesAreNew};
ghost use Rattle.ix_model.specs.Laws.{LedgersAreWhole, LedgersGrow, LivesJoin, MomentsKeepRange, MomentsNeverFall, OutcomesAreSaid};
ghost use Rattle.ix_model.specs.Laws.{RollsAreWhole, StatesAreInOrder, TicksAloneFreeze, TicksAreCounted, TicksKeepOrder, ViewsBalance};

/// Nothing is lost or made: after every history each event that was settled is stored, frozen,
/// nulled or dropped, by what the buckets and the entries of the ledger say of their events. So it
/// is in what is seen of the state, where thawed buckets do not count.
pub fn balance()
    ensures state { Balances }
    ensures view { ViewsBalance }
{}

/// After every history the number of a bucket is its place among all that its index ever had, and
/// what a bucket or an entry of the ledger says of its events is so: how many there are, the bytes
/// of their records, and the latest and the earliest of their times. The file of a hot or
/// quarantine bucket is in the area Home, that of a cold one in Cold, and that of a thawed one in
/// Thawed.
pub fn fields_are_sums()
    ensures { FieldsAreSums }
{}

/// However the bytes of a channel came in blocks, and whatever other commands came between, what
/// its commands add from its Begin on is what is settled of its whole stream, and with its End or a
/// Configure what is settled of the closed stream. Its settings are those that were chosen for it
/// when it was begun, such as `Props::settings` gives.
pub fn lives_join()
    ensures { LivesJoin }
{
    ix_parse::settled_stays();
}

/// Each event that the commands of a history deal to an index lies in one of the buckets that it
/// ever had, once, whether this is live or frozen; and each bucket has its events in the order in
/// which they were dealt.
pub fn events_are_dealt()
    ensures { EventsAreDealt }
{}

/// After every history the files of buckets and archives have numbers of their own, from 1 on and
/// below the number of the next file; and whatever comes, the number of the next file does not
/// fall, and no number below it is used again.
pub fn files_are_new()
    ensures apart { FilesAreApart }
    ensures renew { FilesAreNew }
{}

/// Whatever comes, a bucket keeps its number in its index, its events only grow, and what is frozen
/// stays as it was frozen.
pub fn buckets_are_followed()
    ensures { BucketsAreFollowed }
{}

/// After every history the ledger has the entries of all frozen buckets, each bucket's once, and no
/// other. Whatever comes, its entries keep their places, and more come behind them alone: those of
/// a Tick index by index, and in an index in the order in which its turn of housekeeping freezes.
/// No other command adds to it.
pub fn ledger_is_what_froze()
    ensures whole { LedgersAreWhole }
    ensures grow { LedgersGrow }
    ensures order { TicksKeepOrder }
    ensures alone { TicksAloneFreeze }
{}

/// As many buckets as a Tick is said to freeze come into the ledger, and a Roll leaves no bucket of
/// its index that takes events.
pub fn moves_are_whole()
    ensures ticks { TicksAreCounted }
    ensures rolls { RollsAreWhole }
{}

/// After every history the moments of the last command and of the last Tick lie in the range of
/// moments, the latter not behind the former; and whatever comes, the moment of the last command
/// does not fall.
pub fn moments_never_fall()
    ensures range { MomentsKeepRange }
    ensures rise { MomentsNeverFall }
{}

/// After every history the open channels, the indexes and the spots stand by the bytes of their
/// names, each name once. So what a command adds is what it adds for its channel, or for each open
/// channel, of which `lives_join` speaks.
pub fn states_are_in_order()
    ensures order { StatesAreInOrder }
    ensures said { OutcomesAreSaid }
{}
