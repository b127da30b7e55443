//! Laws of what histories leave on a disk, without code: each is the contract of a function that
//! does nothing. `ix_store` stands on them.

ghost use Rattle.ix_model.specs.Done.{DoneHasNone, DoneStays};
ghost use Rattle.ix_model.specs.OnDisk.{DealsAreFiled, DealsAreShelved, EarlierHaveNone, PrefixesAreFamily, RollsAreFiled, RollsAreShelved};
ghost use Rattle.ix_model.specs.OnDisk.{ThawsAreCopied, ThawsAreShelved, TurnsAreCopied, TurnsAreShelved};

/// After every history, what dealing does to the shelves in memory is what the machine does to
/// them, for limits that were loaded from the settings in force without a fault.
pub fn deals_are_shelved()
    ensures { DealsAreShelved }
{}

/// After every history, what a turn of housekeeping does to the shelves in memory is what the
/// machine does to them, and the entries that it makes are those that the machine puts behind the
/// ledger.
pub fn turns_are_shelved()
    ensures { TurnsAreShelved }
{}

/// After every history, what a Roll does to the shelves in memory is what the machine does to them.
pub fn rolls_are_shelved()
    ensures { RollsAreShelved }
{}

/// After every history, what the Thaw of a bucket that can be brought back does to the shelves in
/// memory is what the machine does to them.
pub fn thaws_are_shelved()
    ensures { ThawsAreShelved }
{}

/// After every history, a Roll leaves what the files of buckets and archives begin with.
pub fn rolls_are_filed()
    ensures { RollsAreFiled }
{}

/// Files that are still to come after a history have nothing in what its first commands left.
pub fn earlier_have_none()
    ensures { EarlierHaveNone }
{}

/// After every history, the bytes of the events that are dealt stand behind what their files have,
/// and lead to what the files of buckets and archives then begin with, for limits that were loaded
/// from the settings in force without a fault.
pub fn deals_are_filed()
    ensures { DealsAreFiled }
{}

/// After every history, the copy of an archive leads to what the files of buckets and archives
/// begin with once its bucket is thawed, where the snapshot that is committed had nothing in the
/// new file.
pub fn thaws_are_copied()
    ensures { ThawsAreCopied }
{}

/// After every history, the copies of a turn of housekeeping lead to what the files of buckets and
/// archives then begin with, where the snapshot that is committed had nothing in the new files. The
/// files that buckets leave are done with.
pub fn turns_are_copied()
    ensures { TurnsAreCopied }
{}

/// Of two prefixes of a history that leave the same books, but for the settings, the files begin
/// with the same. So a mount tells by the log what the files of buckets begin with.
pub fn prefixes_are_family()
    ensures { PrefixesAreFamily }
{}

/// A file that is done with begins with nothing, and is done with for good: so it can be removed at
/// any time.
pub fn done_is_done()
    ensures none { DoneHasNone }
    ensures stays { DoneStays }
{}
