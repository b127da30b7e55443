//! How a command changes the spots in memory. It is worked out beside them; the state machine makes
//! the change once the command stands.

ghost use Rattle.std.specs.Prelude.{◌≡◌, ◌≤◌, ◌<◌, length, not, bytes_eq, IfOk, IfSome, Some, vec_len};
ghost use Rattle.std.specs.List.{position};
ghost use Rattle.ix_base.specs.declared.events.Spot.{Spot as SpotValue};
ghost use Rattle.ix_model.specs.Step.{with_spot};
ghost use Rattle.ix_catalog.specs.Lists.{update};
ghost use Rattle.ix_apply.specs.Spots as defs;
ghost use Rattle.ix_apply.specs.Spots.{HasRoom, placed, put_over};

use ix_base::{NoMemory, Spot};
use ix_channels::ReservedInsert;
use std::alloc::Global;
use std::cmp::Ordering;

/// A change of the spots.
#[derive(Drop)]
pub enum SpotChange {
    /// There is none.
    Same,
    /// One stands in place of that at this place.
    Put { at: usize, spot: Spot },
    /// There is one more.
    New(ReservedInsert<Spot>),
}

/// The place of the spot of this path.
fn place_of(spots: &[Spot], path: &[u8]) -> Option<usize>
    ensures value { result ≡ position (λ (s : SpotValue). bytes_eq s.path path.now) spots.now }
    ensures within { IfSome result (λ k. k < length spots.now) }
{
    spots.iter().position(|spot| spot.path.as_slice() == path)
}

/// Whether a spot stands before one of this path.
fn is_before(spot: &Spot, path: &[u8]) -> bool
    ensures { result ≡ defs.is_before path.now spot.now }
{
    match spot.path.as_slice().cmp(&path) {
        Ordering::Less => true,
        Ordering::Equal => false,
        Ordering::Greater => false,
    }
}

/// The first place at which a spot stands that does not stand before one of this path.
fn place_behind(spots: &[Spot], path: &[u8]) -> Option<usize>
    ensures value { result ≡ position (λ (s : SpotValue). not (defs.is_before path.now s)) spots.now }
    ensures within { IfSome result (λ k. k < length spots.now) }
{
    spots.iter().position(|spot| !is_before(spot, path))
}

/// The place at which a spot of this path is to stand.
fn place_for(spots: &[Spot], path: &[u8]) -> usize
    ensures value { result ≡ defs.place_for path.now spots.now }
    ensures within { result ≤ length spots.now }
{
    match place_behind(spots, path) {
        Some(at) => at,
        None => spots.len(),
    }
}

/// Puts a spot in place of another.
fn replace(spots: &mut Vec<Spot>, at: usize, spot: Spot)
    requires { at < vec_len spots.old }
    ensures { spots.new.items ≡ update at (put_over spot) spots.old.items }
{
    spots[at] = spot;
}

impl SpotChange {
    /// A spot that stands in place of the one of its path, or else among the others by its path.
    pub(crate) fn of(alloc: Global, spots: &Vec<Spot>, spot: Spot) -> Result<SpotChange, NoMemory>
        ensures placed { IfOk result (λ change. placed change spots.now.items ≡ with_spot spots.now.items (Some spot)) }
        ensures room { IfOk result (λ change. HasRoom change spots.now) }
    {
        match place_of(spots.as_slice(), spot.path.as_slice()) {
            Some(at) => Ok(SpotChange::Put { at, spot }),
            None => {
                let at = place_for(spots.as_slice(), spot.path.as_slice());
                Ok(SpotChange::New(ReservedInsert::make(alloc, spots, at, spot)?))
            }
        }
    }

    /// Makes the change. It takes no memory.
    pub(crate) fn install(self, spots: &mut Vec<Spot>)
        requires { HasRoom self spots.old }
        ensures { spots.new.items ≡ placed self spots.old.items }
    {
        match self {
            SpotChange::Same => {}
            SpotChange::Put { at, spot } => replace(spots, at, spot),
            SpotChange::New(room) => room.put(spots),
        }
    }
}
