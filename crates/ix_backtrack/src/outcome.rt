//! The groups of the way that was found.

ghost use Rattle.std.specs.Prelude.{◌≡◌, IfOk, None, length, replicate, slice_get, Some, ◌<◌};
ghost use Rattle.ix_pikevm.specs.Code.{history, replay, best_ways};
ghost use Rattle.ix_pikevm.specs.Outcomes.{head_of};

use ix_base::NoMemory;
use ix_pikevm::cells::{Best, Cell, Event};
use ix_pikevm::groups::turns_of;
use ix_pikevm::run::Outcome;
use std::alloc::Global;

fn cell_at(cells: &[Cell], i: usize) -> Cell
    requires { i < length cells.now }
    ensures { slice_get cells.now i ≡ Some result }
{
    cells[i]
}

/// The events of a trail, the newest first. Room is made for those of a way that has come through
/// all the cells, as most have, or for some.
fn events_of(alloc: Global, cells: &[Cell], trail: usize) -> Result<Vec<Event>, NoMemory>
    ensures { IfOk result (λ events. events.items ≡ history cells.now trail) }
{
    let mut events = Vec::with_capacity(alloc, cells.len().min(16))?;
    let mut at = trail;
    while at > 0 && at <= cells.len() {
        let cell = cell_at(cells, at - 1);
        events.push(cell.event)?;
        at = if cell.earlier < at { cell.earlier } else { 0 };
    }
    Ok(events)
}

/// What stands for the head of a list of ways, with its groups.
pub fn outcome(alloc: Global, best: Best, cells: &[Cell], count: usize) -> Result<Outcome, NoMemory>
    ensures { IfOk result (λ o. slice_get (best_ways (replicate count None) cells.now best) 0 ≡ head_of o) }
{
    match best {
        Best::No => Ok(Outcome::No),
        Best::More => Ok(Outcome::More),
        Best::End { place, trail } => {
            let events = events_of(alloc, cells, trail)?;
            let turns = turns_of(alloc, &events, count)?;
            Ok(Outcome::End {
                place,
                groups: turns.groups,
            })
        }
    }
}
