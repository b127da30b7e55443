//! The command `selftest`: a store that is made in memory is filled and listed. `top` calls
//! `run_selftest`.

ghost use Rattle.std.specs.Prelude.{◌≤◌};
ghost use Rattle.indexd_core.specs.Selftests.{Tests};
ghost use Rattle.indexd_core.specs.Sides.{side};

use crate::status::{Status, say};
use indexd_selftest::{SelftestFault, selftest};
use ix_apply::StateMachine;
use ix_base::Sink;
use std::alloc::Global;

/// Runs a selftest with so many events, and writes its summary, or the line of why it came to none.
/// It works over nothing but memory and the output.
pub fn run_selftest<W: Sink>(alloc: Global, seed: u64, count: u64, output: &mut W) -> Status
    ensures tests { Tests result seed count (side (W.faults output.old) (W.given output.old))
        (side (W.faults output.new) (W.given output.new)) }
    ensures later { W.faults output.old ≤ W.faults output.new }
{
    match selftest::<StateMachine>(alloc, seed, count) {
        Ok(text) => match output.put(text.as_slice()) {
            Ok(()) => Status::Done,
            Err(_) => Status::Output,
        },
        Err(SelftestFault::NoMemory) => {
            say(Status::Memory, output);
            Status::Memory
        }
        Err(SelftestFault::Full) => {
            say(Status::Full, output);
            Status::Full
        }
    }
}
