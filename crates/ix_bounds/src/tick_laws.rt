//! The law of a Tick that comes before a command, without code: the contract of a function that
//! does nothing. What works commands out in memory stands on it.

ghost use Rattle.ix_bounds.specs.Ticked.{TicksComeFirst};

/// After every history, a Tick leaves settings, channels and spots as they are, so that a command
/// that waits for it is judged behind it as before it; the command's moment stays the same; and the
/// state keeps the bounds of what a store can keep, as long as the number of the next file does.
pub fn ticks_come_first()
    ensures { TicksComeFirst }
{}
