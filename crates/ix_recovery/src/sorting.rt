//! Lists in the order of the bytes of their names. `recall` brings channels, spots and names of
//! indexes into it.

ghost use Rattle.std.specs.Prelude.{◌≡◌};
ghost use Rattle.ix_model.specs.State.{spot_path};
ghost use Rattle.ix_recovery.specs.Recalled.{AreSorted, carried_name, itself};

use crate::gathering::Carried;
use ix_base::{Bytes, Spot};

/// The channels by the bytes of their names.
pub fn channels_by_name(mut channels: Vec<Carried>) -> Vec<Carried>
    ensures { AreSorted carried_name channels.items result.items }
{
    channels.sort_unstable_by(|a, b| a.name.as_slice().cmp(b.name.as_slice()));
    channels
}

/// The spots by the bytes of their paths.
pub fn spots_by_path(mut spots: Vec<Spot>) -> Vec<Spot>
    ensures { AreSorted spot_path spots.items result.items }
{
    spots.sort_unstable_by(|a, b| a.path.as_slice().cmp(b.path.as_slice()));
    spots
}

/// Names by their bytes.
pub fn names_by_bytes(mut names: Vec<Bytes>) -> Vec<Bytes>
    ensures { AreSorted itself names.items result.items }
{
    names.sort_unstable_by(|a, b| a.as_slice().cmp(b.as_slice()));
    names
}
