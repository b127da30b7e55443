//! Whether a list of items has room in one body of a log. A state in memory that tells its items as
//! a list asks it before a checkpoint.

ghost use Rattle.std.specs.Prelude.{◌≡◌, ◌<◌, ◌-◌, ◌^◌, ◌↔◌, length, IfOk, IsTrue};
ghost use Rattle.std.specs.List.{AllByRecursion};
ghost use Rattle.ix_items.specs.Spelling.{HasSpelling, item_bytes, body_bytes};

use ix_base::{Bytes, NoMemory};
use ix_items::{Item, write_item};
use std::alloc::Global;

/// What the items of a state may come to in a body: a run and the removal of a file stand beside
/// them.
const ROOM: u64 = (1 << 32) - 64;

/// How many bytes an item is written with.
fn length_of(alloc: Global, item: &Item) -> Result<u64, NoMemory>
    requires { HasSpelling item.now }
    ensures { IfOk result (λ n. n ≡ length (item_bytes item.now)) }
{
    let mut bytes = Bytes::new(alloc);
    write_item(item, &mut bytes)?;
    Ok(bytes.len() as u64)
}

/// Whether the items have room in one body of a log, with a run and a file that is done with. One
/// item at a time is written in memory.
pub fn have_room(alloc: Global, items: &[Item]) -> Result<bool, NoMemory>
    requires { AllByRecursion HasSpelling items.now }
    ensures { IfOk result (λ room. IsTrue room ↔ length (body_bytes items.now) < 2 ^ 32 - 64) }
{
    let mut total = 0u64;
    for item in items {
        total = total.saturating_add(length_of(alloc, item)?);
    }
    Ok(total < ROOM)
}
