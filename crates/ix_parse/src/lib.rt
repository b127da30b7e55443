//! A channel: a stream of bytes with its metadata, and the events that it settles, however it is
//! cut into blocks.
#![tactic(auto)]

mod carry;
mod carry_laws;
mod channel;
mod laws;
mod marks;
mod outcomes;
mod reading;
mod stages;
mod writing;

ghost use Rattle.ix_pattern.specs.Piece.{IsSound};
ghost use Rattle.ix_pattern.specs.Rows.{tree};
ghost use Rattle.ix_props.specs.Settings.{AreUsable};
ghost use Rattle.ix_props.specs.declared.settings.Settings.{Settings};
ghost use Rattle.ix_parse.specs.Carry.{CarryDecides};
ghost use Rattle.ix_parse.specs.Settled.{SettledStays};

pub use carry::{Carry, CarryRules, ResumeFault};
pub use carry_laws::one_carry;
pub use channel::Channel;
pub use ix_base::{Routed, RoutedList};
pub use laws::{events_keep_limits, same_settings_settle_the_same};
pub use reading::read_carry;

/// A law about the definitions, and no code: what is settled of an open stream stays settled,
/// whatever comes, under all settings that `Props::settings` may give.
pub fn settled_stays()
    ensures { (settings : Settings) → IsSound (tree settings.breaker.rows) → AreUsable settings → SettledStays settings }
{
    ix_lines::lines_stay();
    ix_merge::events_stay();
}

/// A law about the definitions, and no code: two streams of which the same is carried settle the
/// same from there on, under every continuation, open or closed.
pub fn outcomes_follow_carry()
    ensures { (settings : Settings) → IsSound (tree settings.breaker.rows) → AreUsable settings → CarryDecides settings }
{
    ix_lines::lines_follow_carry();
    ix_merge::events_follow_carry();
}
