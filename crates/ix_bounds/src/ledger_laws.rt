//! Laws of ledgers with the same entries in another order, without code: each is the contract of a
//! function that does nothing. What works commands out in memory stands on them.

ghost use Rattle.ix_bounds.specs.LedgerLaws.{ChangesAreSame, DealsAreSame, MeasuresAreSame, NumbersAreSame};

/// The next number of an index is the same, in whatever order the entries stand.
pub fn numbers_are_same()
    ensures { NumbersAreSame }
{}

/// Events are placed the same way.
pub fn deals_are_same()
    ensures { DealsAreSame }
{}

/// What changed on the shelves is said by the same items, where the new entries of the ledger are
/// the same, in their order.
pub fn changes_are_same()
    ensures { ChangesAreSame }
{}

/// There is as much of everything: bytes, events, and the bytes of what shelves and ledger are
/// written as.
pub fn measures_are_same()
    ensures { MeasuresAreSame }
{}
