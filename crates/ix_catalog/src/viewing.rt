//! Where an index stands among those of a store, and how it is changed there. Rolls and thaws call
//! it.

ghost use Rattle.std.specs.Prelude.{◌≡◌, ◌<◌, length, slice_get, slice_set, IfSome, IfNone, Some};
ghost use Rattle.ix_catalog.specs.Places.{IsPlaceOf, HasNone};
ghost use Rattle.ix_life.specs.declared.views.IndexView as views;

use ix_life::{IndexView, IndexViewList};

/// The place of the index of this name, or `None` where there is none.
pub fn place_of(name: &[u8], indexes: &[IndexView]) -> Option<usize>
    ensures some { IfSome result (λ at. IsPlaceOf name.now indexes.now at) }
    ensures none { IfNone result (HasNone name.now indexes.now) }
{
    for at in 0..indexes.len() {
        if indexes[at].name.as_slice() == name {
            return Some(at);
        }
    }
    None
}

/// Takes an index out. One without a name and without buckets stands in its place until another is
/// put there. It takes no memory.
pub fn take_out(at: usize, indexes: &mut IndexViewList) -> IndexView
    requires { at < length indexes.old }
    ensures there { slice_get indexes.old at ≡ Some result }
    ensures others { (v : views.IndexView) → slice_set indexes.new at v ≡ slice_set indexes.old at v }
    ensures count { length indexes.new ≡ length indexes.old }
{
    let view = &indexes.as_slice()[at];
    let blank = IndexView {
        name: view.name.empty(),
        limits: view.limits,
        buckets: view.buckets.empty(),
    };
    indexes.replace(at, blank)
}
