//! Laws of what channels settle, without code: each is the contract of a function that does
//! nothing. Whoever stores events, or starts channels again, stands on them.

ghost use Rattle.ix_parse.specs.Limits.{ArrivalsAreMoments, EventsAreSmall, TimesAreNear};
ghost use Rattle.ix_parse.specs.Same.{CarryTheSame, SettleTheSame};

/// Settings that mean the same settle the same of every stream, open or closed, and carry the same
/// of it.
pub fn same_settings_settle_the_same()
    ensures settle { SettleTheSame }
    ensures carry { CarryTheSame }
{}

/// Whatever is settled of a stream: the fields of an event are small together, where the channel
/// keeps its limits; its time lies within 2^62 microseconds of the beginning of 1970, where the
/// settings can be used; and its arrival lies between the beginning of 1970 and that of 2100, where
/// the moments of the stream do.
pub fn events_keep_limits()
    ensures sizes { EventsAreSmall }
    ensures times { TimesAreNear }
    ensures arrivals { ArrivalsAreMoments }
{
    ix_merge::events_stay();
}
