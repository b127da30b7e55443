//! What the definitions of reading come to.

ghost use Rattle.ix_dates.specs.Laws.{NumbersAreDecimal};

/// A law about the definitions, and no code: a number is read exactly where enough digits stand, of
/// as many as there are up to its most, and it is what they come to in the decimal system.
pub fn numbers_are_decimal()
    ensures { NumbersAreDecimal }
{}
