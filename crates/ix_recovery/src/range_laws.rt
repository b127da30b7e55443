//! A law of the ranges of events, without code: it is the contract of a function that does nothing.
//! What exports events stands on it.

ghost use Rattle.ix_recovery.specs.Ranges.{EventsHaveRecords};

/// Each event that a history of commands puts into an index has a record in the file of its bucket:
/// its time and its arrival have 64 bits, and its fields together have fewer than 2^32 bytes. So it
/// is after every history of commands that are taken, by whatever chooses the settings that the
/// kept ones give, as long as the times of events keep the bounds of a store.
pub fn events_have_records()
    ensures { EventsHaveRecords }
{
    ix_parse::events_keep_limits();
}
