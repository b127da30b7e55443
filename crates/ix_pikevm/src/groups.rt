//! The groups of a match.

ghost use Rattle.std.specs.Prelude.{◌≡◌, ℕ, ◌-◌, ◌<◌, Some, None, length, replicate, slice_get, slice_set, IfOk, OnOk};
ghost use Rattle.ix_pikevm.specs.Code.{history, replay};
ghost use Rattle.ix_pikevm.specs.Replays.{Applies, spans};

use crate::cells::{Cell, Event};
use ix_base::NoMemory;
use std::alloc::Global;

fn cell_at(cells: &[Cell], i: usize) -> Cell
    requires { i < length cells.now }
    ensures { slice_get cells.now i ≡ Some result }
{
    cells[i]
}

/// The events of a trail, the newest first.
pub fn events_of(alloc: Global, cells: &[Cell], trail: usize) -> Result<Vec<Event>, NoMemory>
    ensures { IfOk result (λ events. events.items ≡ history cells.now trail) }
{
    let mut events = Vec::new(alloc);
    let mut at = trail;
    while at > 0 && at <= cells.len() {
        let cell = cell_at(cells, at - 1);
        events.push(cell.event)?;
        at = if cell.earlier < at { cell.earlier } else { 0 };
    }
    Ok(events)
}

fn set_group(groups: &mut Vec<Option<(usize, usize)>>, number: usize, from: usize, place: usize)
    ensures { groups.new.items ≡ slice_set groups.old.items (number - 1) (Some (from, place)) }
{
    let at = number.saturating_sub(1);
    if at < groups.len() {
        groups[at] = Some((from, place));
    }
}

/// One event more.
fn apply(
    event: Event,
    began: &mut Vec<usize>,
    groups: &mut Vec<Option<(usize, usize)>>,
) -> Result<(), NoMemory>
    ensures { OnOk result (Applies event began.old.items groups.old.items began.new.items groups.new.items) }
{
    match event {
        Event::Began { place } => began.push(place)?,
        Event::Ended { number, place } => {
            if let Some(from) = began.pop() {
                set_group(groups, number, from, place);
            }
        }
    }
    Ok(())
}

/// The event with that number.
pub fn event_at(events: &[Event], i: usize) -> Event
    requires { i < length events.now }
    ensures { slice_get events.now i ≡ Some result }
{
    events[i]
}

/// What events come to: where the groups that are open began, the innermost last, and the groups
/// that have taken part.
#[derive(Drop)]
pub struct Turns {
    pub began: Vec<usize>,
    pub groups: Vec<Option<(usize, usize)>>,
}

/// What events come to, where there are so many groups and none has taken part before.
pub fn turns_of(alloc: Global, events: &[Event], count: usize) -> Result<Turns, NoMemory>
    ensures { IfOk result (λ t. spans t.began.items t.groups.items ≡ replay (replicate count None) events.now) }
{
    let mut groups = vec![in alloc; None; count]?;
    let mut began: Vec<usize> = Vec::new(alloc);
    let mut i = events.len();
    while i > 0 {
        i -= 1;
        apply(event_at(events, i), &mut began, &mut groups)?;
    }
    Ok(Turns { began, groups })
}

/// The groups that a trail comes to.
pub fn groups_of(
    alloc: Global,
    cells: &[Cell],
    trail: usize,
    count: usize,
) -> Result<Vec<Option<(usize, usize)>>, NoMemory>
    ensures { IfOk result (λ groups. groups.items ≡ (replay (replicate count None) (history cells.now trail)).groups) }
{
    let events = events_of(alloc, cells, trail)?;
    let turns = turns_of(alloc, &events, count)?;
    Ok(turns.groups)
}
