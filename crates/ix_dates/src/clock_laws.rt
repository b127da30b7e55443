//! What the definitions of instants come to, in the calendar library's own words.

ghost use Rattle.ix_dates.specs.ClockLaws.{IsCompatibleChoice};

/// A law about the definitions, and no code: the instant of a civil time in a zone is the one of
/// the calendar library's compatible choice.
pub fn compatible_choice()
    ensures { IsCompatibleChoice }
{}
