//! What the threads have come through, written anew in its shortest form. The search of a whole
//! text does that whenever it has become long, so that a longer text takes no more memory.

ghost use Rattle.std.specs.Prelude.{◌≡◌, ℕ, ◌+◌, ◌*◌, ◌<◌, ◌≤◌, max, List, [], ◌∷◌, ◌++◌, Some, IfOk, OnOk, length, reverse, slice_get};
ghost use Rattle.ix_pikevm.specs.Acts.{AllKnown};
ghost use Rattle.ix_pikevm.specs.Ran.{Grown};
ghost use Rattle.ix_pikevm.specs.Code.{Spans, history};
ghost use Rattle.ix_pikevm.specs.Replays.{replay_one};
ghost use Rattle.ix_pikevm.specs.Tidied.{Groups, AllFit, over, ComesTo, comes, AreAnew, IsBestAnew, IsNarrow, AllNarrow, IsBestNarrow};
ghost use Rattle.ix_pikevm.specs.Tidied.{room_for, Tidies};
ghost use Rattle.ix_pikevm.specs.declared.code.Instr.{Instr};

use crate::cells::{Best, Cell, Event, Thread};
use crate::groups::{Turns, event_at, events_of, turns_of};
use crate::step::thread_at;
use crate::thread_scratch::ThreadScratch;
use ix_base::NoMemory;
use std::alloc::Global;

/// So many cells may stand before they are written anew.
pub const FEW: usize = 4096;

/// The least number of groups that no group of the events is above.
fn groups_in(events: &[Event]) -> usize
    ensures fit { AllFit result events.now }
    ensures least { (n : ℕ) → AllFit n events.now → result ≤ n }
{
    let mut count = 0;
    let mut at = events.len();
    while at > 0 {
        at -= 1;
        match event_at(events, at) {
            Event::Began { .. } => {}
            Event::Ended { number, .. } => count = number.max(1).max(count),
        }
    }
    count
}

/// The trail with one event more.
fn add(event: Event, earlier: usize, cells: &mut Vec<Cell>) -> Result<usize, NoMemory>
    ensures trail { IfOk result (λ t. (spans : Groups → Spans) → ComesTo cells.old.items earlier spans →
        ComesTo cells.new.items t (λ before. replay_one event (spans before))) }
    ensures grown { OnOk result (Grown cells.old.items cells.new.items) }
    ensures short { OnOk result (length cells.new.items ≡ length cells.old.items + 1) }
{
    let trail = cells.len() + 1;
    cells.push(Cell { event, earlier })?;
    Ok(trail)
}

/// The trail with one group more, where it has taken part.
fn add_group(
    number: usize,
    group: Option<(usize, usize)>,
    earlier: usize,
    cells: &mut Vec<Cell>,
) -> Result<usize, NoMemory>
    ensures trail { IfOk result (λ t. (groups : Groups) → number ≡ length groups + 1 →
        ComesTo cells.old.items earlier (λ before. record { began = []; groups = over before groups }) →
        ComesTo cells.new.items t (λ before. record { began = []; groups = over before (groups ++ group ∷ []) })) }
    ensures grown { OnOk result (Grown cells.old.items cells.new.items) }
    ensures short { OnOk result (length cells.new.items ≤ length cells.old.items + 2) }
{
    match group {
        None => Ok(earlier),
        Some((from, place)) => {
            let began = add(Event::Began { place: from }, earlier, cells)?;
            add(Event::Ended { number, place }, began, cells)
        }
    }
}

fn group_at(groups: &[Option<(usize, usize)>], i: usize) -> Option<(usize, usize)>
    requires { i < length groups.now }
    ensures { slice_get groups.now i ≡ Some result }
{
    groups[i]
}

/// A trail of the groups that have taken part.
fn add_groups(groups: &[Option<(usize, usize)>], cells: &mut Vec<Cell>) -> Result<usize, NoMemory>
    ensures trail { IfOk result (λ t. ComesTo cells.new.items t (λ before. record { began = []; groups = over before groups.now })) }
    ensures grown { OnOk result (Grown cells.old.items cells.new.items) }
    ensures short { OnOk result (length cells.new.items ≤ length cells.old.items + 2 * length groups.now) }
{
    let mut trail = 0;
    for at in 0..groups.len() {
        trail = add_group(at + 1, group_at(groups, at), trail, cells)?;
    }
    Ok(trail)
}

/// The trail with the groups that are open, the outermost first.
fn add_open(began: &[usize], earlier: usize, cells: &mut Vec<Cell>) -> Result<usize, NoMemory>
    ensures trail { IfOk result (λ t. (groups : Groups → Groups) →
        ComesTo cells.old.items earlier (λ before. record { began = []; groups = groups before }) →
        ComesTo cells.new.items t (λ before. record { began = reverse began.now; groups = groups before })) }
    ensures grown { OnOk result (Grown cells.old.items cells.new.items) }
    ensures short { OnOk result (length cells.new.items ≤ length cells.old.items + length began.now) }
{
    let mut trail = earlier;
    for at in 0..began.len() {
        trail = add(Event::Began { place: began[at] }, trail, cells)?;
    }
    Ok(trail)
}

/// What a trail comes to: the last turn of each group that has taken part, and where those that are
/// open began.
fn turns_at(alloc: Global, cells: &[Cell], trail: usize) -> Result<Turns, NoMemory>
    ensures comes { IfOk result (λ t. (before : Groups) →
        record { began = reverse t.began.items; groups = over before t.groups.items } ≡ comes cells.now trail before) }
    ensures short { IfOk result (λ t. (groups nested : ℕ) → IsNarrow groups nested (history cells.now trail) →
        2 * length t.groups.items + length t.began.items ≤ 2 * groups + nested) }
{
    let events = events_of(alloc, cells, trail)?;
    let count = groups_in(&events);
    turns_of(alloc, &events, count)
}

/// A trail that comes to these turns: each group that has taken part by its last turn, and then
/// those that are open.
fn add_turns(turns: &Turns, cells: &mut Vec<Cell>) -> Result<usize, NoMemory>
    ensures trail { IfOk result (λ t. ComesTo cells.new.items t
        (λ before. record { began = reverse turns.now.began.items; groups = over before turns.now.groups.items })) }
    ensures grown { OnOk result (Grown cells.old.items cells.new.items) }
    ensures short { OnOk result (length cells.new.items ≤ length
        cells.old.items + (2 * length turns.now.groups.items + length turns.now.began.items)) }
{
    let closed = add_groups(&turns.groups, cells)?;
    add_open(&turns.began, closed, cells)
}

/// A trail in the new cells that comes to the same, in its shortest form.
fn trail_anew(
    alloc: Global,
    old: &[Cell],
    trail: usize,
    cells: &mut Vec<Cell>,
) -> Result<usize, NoMemory>
    ensures trail { IfOk result (λ t. ComesTo cells.new.items t (comes old.now trail)) }
    ensures grown { OnOk result (Grown cells.old.items cells.new.items) }
    ensures short { OnOk result ((groups nested : ℕ) → IsNarrow groups nested (history old.now trail) →
        length cells.new.items ≤ length cells.old.items + (2 * groups + nested)) }
{
    let turns = turns_at(alloc, old, trail)?;
    add_turns(&turns, cells)
}

/// The threads, by trails in the new cells.
fn threads_anew(
    alloc: Global,
    old: &[Cell],
    threads: &[Thread],
    cells: &mut Vec<Cell>,
) -> Result<Vec<Thread>, NoMemory>
    ensures threads { IfOk result (λ new. AreAnew old.now threads.now cells.new.items new.items) }
    ensures short { OnOk result ((groups nested : ℕ) → AllNarrow groups nested old.now threads.now →
        length cells.new.items ≤ length cells.old.items + length threads.now * (2 * groups + nested)) }
{
    let mut anew = Vec::new(alloc);
    for at in 0..threads.len() {
        let thread = thread_at(threads, at);
        let trail = trail_anew(alloc, old, thread.trail, cells)?;
        anew.push(Thread {
            pc: thread.pc,
            trail,
        })?;
    }
    Ok(anew)
}

/// The best, by a trail in the new cells.
fn best_anew(
    alloc: Global,
    old: &[Cell],
    best: Best,
    cells: &mut Vec<Cell>,
) -> Result<Best, NoMemory>
    ensures best { IfOk result (λ after. IsBestAnew old.now best cells.new.items after) }
    ensures grown { OnOk result (Grown cells.old.items cells.new.items) }
    ensures short { OnOk result ((groups nested : ℕ) → IsBestNarrow groups nested old.now best →
        length cells.new.items ≤ length cells.old.items + (2 * groups + nested)) }
{
    match best {
        Best::No => Ok(Best::No),
        Best::More => Ok(Best::More),
        Best::End { place, trail } => {
            let trail = trail_anew(alloc, old, trail, cells)?;
            Ok(Best::End { place, trail })
        }
    }
}

/// Writes what the threads on the stack and the best have come through anew, in place of all cells.
fn tidy(work: &mut ThreadScratch, best: Best) -> Result<Best, NoMemory>
    ensures tidies { IfOk result (λ after. (code : List Instr) →
        Tidies code work.old.cells.items work.old.stack.items best work.new.cells.items work.new.stack.items after) }
    ensures known { OnOk result ((n : ℕ) → AllKnown n (length work.old.cells.items) work.old.stack.items →
        AllKnown n (length work.new.cells.items) work.new.stack.items) }
    ensures short { OnOk result ((groups nested : ℕ) → AllNarrow groups nested work.old.cells.items work.old.stack.items →
        IsBestNarrow groups nested work.old.cells.items best →
        length work.new.cells.items ≤ room_for (length work.old.stack.items) groups nested) }
    ensures marks { work.new.marks ≡ work.old.marks }
    ensures stamp { work.new.stamp ≡ work.old.stamp }
{
    let alloc = *work.cells.allocator();
    let mut cells = Vec::new(alloc);
    let stack = threads_anew(alloc, &work.cells, &work.stack, &mut cells)?;
    let after = best_anew(alloc, &work.cells, best, &mut cells)?;
    work.stack = stack;
    work.cells = cells;
    Ok(after)
}

/// Writes it anew once there are more cells than the limit, which is then twice as many as are
/// left.
pub fn keep_short(work: &mut ThreadScratch, best: Best, limit: &mut usize) -> Result<Best, NoMemory>
    ensures tidies { IfOk result (λ after. (code : List Instr) →
        Tidies code work.old.cells.items work.old.stack.items best work.new.cells.items work.new.stack.items after) }
    ensures known { OnOk result ((n : ℕ) → AllKnown n (length work.old.cells.items) work.old.stack.items →
        AllKnown n (length work.new.cells.items) work.new.stack.items) }
    ensures short { OnOk result ((groups nested : ℕ) → AllNarrow groups nested work.old.cells.items work.old.stack.items →
        IsBestNarrow groups nested work.old.cells.items best →
        length work.new.cells.items ≤ max limit.old (room_for (length work.old.stack.items) groups nested)) }
    ensures limit { OnOk result (limit.new ≤ max limit.old (max 4096 (2 * length work.new.cells.items))) }
    ensures marks { work.new.marks ≡ work.old.marks }
    ensures stamp { work.new.stamp ≡ work.old.stamp }
{
    if work.cells.len() <= *limit {
        return Ok(best);
    }
    let after = tidy(work, best)?;
    *limit = work.cells.len().saturating_mul(2).max(FEW);
    Ok(after)
}
