//! A law of runs over a store, without code: it is the contract of a function that does nothing.
//! What `top` says of all runs from a start says nothing where there is no start; this says that
//! there is one. `indexd_premises` calls it.

ghost use Rattle.indexd_core.specs.Starts.{IsBlank, IsStart};

use crate::chain::an_empty_disk_may_run;
use ix_disk::Disk;

/// A disk on which nothing was written, as a new disk in memory, meets all that the clauses of
/// `top` ask of a start: the history of no commands begins there, and there is a chooser of
/// settings.
pub fn blank_disks_are_starts<D: Disk>()
    ensures { (disk : D) → IsBlank D.Disk disk → IsStart D.Disk disk }
{
    ix_state::choosers_exist();
    an_empty_disk_may_run::<D>();
}
