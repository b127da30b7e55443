//! Laws of the log's book, without code: what the items of each command lead to. `ix_store` stands
//! on them.

ghost use Rattle.ix_model.specs.Said.{BooksLead, BooksLeadAlike, ChannelsAreSaid, MomentsAreSaid, RunsAreLeft, SaysJoin, SaysLead};
ghost use Rattle.ix_model.specs.Said.{SettingsAreSaid, ShelvesAreSaid, SpotsAreSaid};

/// Items that say all that changes under the names of their kinds lead from the one book to the
/// other, where under all other names nothing changes. Items of some kinds and items of others can
/// stand one behind the other.
pub fn says_lead()
    ensures lead { SaysLead }
    ensures join { SaysJoin }
{}

/// After every history, what a command changes on the shelves says all that it changes in the book
/// under the names of buckets, of entries in the ledger, of the counts, and of the numbers of next
/// buckets and of the next file.
pub fn shelves_are_said()
    ensures { ShelvesAreSaid }
{}

/// After every history, what a command says of channels is all that it changes of them in the book:
/// one that begins or goes on stands there with what is carried of it, one that ended does not, and
/// the others stay.
pub fn channels_are_said()
    ensures { ChannelsAreSaid }
{}

/// After every history, what a command says of spots, of settings and of its moment is all that it
/// changes of them in the book.
pub fn spots_are_said()
    ensures spots { SpotsAreSaid }
    ensures settings { SettingsAreSaid }
    ensures moments { MomentsAreSaid }
{}

/// After every history, the items of a command, all of them together, lead from what stood in the
/// log's book to what then stands there. A run and last removals that stand there besides are left
/// as they are.
pub fn books_lead()
    ensures lead { BooksLead }
    ensures alike { BooksLeadAlike }
    ensures runs { RunsAreLeft }
{}
