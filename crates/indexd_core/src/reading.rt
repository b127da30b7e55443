//! A law of what `feed` reads, without code: it is the contract of a function that does nothing.

ghost use Rattle.std.specs.Prelude.{◌≡◌, [], IfSome};
ghost use Rattle.indexd_core.specs.Around.{Around};
ghost use Rattle.indexd_core.specs.Feeds.{Feeds};

use crate::status::Status;
use ix_disk::Disk;

/// A `feed` that ends with status 0 has read the whole input, whatever the disk held.
pub fn a_feed_that_is_done_has_read_all<D: Disk>()
    ensures { (from to : Around D) → Feeds Status.Done D.Disk from to → IfSome to.input.told (λ bytes. bytes ≡ []) }
{}
