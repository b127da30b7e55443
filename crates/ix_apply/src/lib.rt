//! What one command leads to, worked out beside the state in memory: the state that it leaves
//! there, what it adds to the disk, and the files that it is done with. The state machine joins it
//! with the Tick that may come before it.
#![tactic(auto)]

mod context;
mod copying;
mod effect;
mod listing;
mod making;
mod measuring;
mod next;
mod prepared;
mod settings;
mod spots;
mod state_machine;

pub use context::CommandContext;
pub use effect::{Effect, StepFault, refusal_of};
pub use next::Next;
pub use spots::SpotChange;
pub use state_machine::StateMachine;
