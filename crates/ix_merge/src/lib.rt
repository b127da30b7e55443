//! How lines become events: which of them start one, and how many one may have.
#![tactic(auto)]

mod carry;
mod events;
mod merging;

ghost use Rattle.std.specs.Prelude.{ℕ, Bool};
ghost use Rattle.ix_merge.specs.Laws.{EventsStay, KeepsLines, CarryDecides};

pub use carry::MergeParts;
pub use events::{Marks, Whole};
pub use merging::Merge;

/// Laws about the definitions, and no code: the events that some lines have settled are the first
/// events of every list that begins with these lines, open or closed; and each line is in exactly
/// one event, in order.
pub fn events_stay()
    ensures stay { (on : Bool) (max : ℕ) → EventsStay on max }
    ensures lines { (max : ℕ) → KeepsLines max }
{}

/// A law about the definitions, and no code: what is carried of some lines decides what further
/// lines come to. Behind two lists of which the same is carried, the same lines settle the same
/// events, open or closed, and then the same is carried again.
pub fn events_follow_carry()
    ensures { (on : Bool) (max : ℕ) → CarryDecides on max }
{}
