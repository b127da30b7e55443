//! A law of passes. It has no code: whoever reasons about runs that watch files calls it.

ghost use Rattle.ix_pass.specs.Going.{PassesGoOn};

use ix_disk::Disk;
use ix_store::Listing;

/// A law of passes over a file that only grows: however a pass ends, every image since stands for a
/// prefix of a history that goes on with the file, and each prefix of it has read the first bytes
/// of the file, each once and in order, as many as is kept that were read. So may the next pass
/// begin.
pub fn passes_go_on<D: Disk, M: Listing>()
    ensures { PassesGoOn D.Disk M.is_chooser M.takes M.Book.fits M.holds }
{}
