//! A law of runs that monitor a file which only grows. It has no code: whoever reasons about
//! several runs calls it.

ghost use Rattle.indexd_monitor.specs.Growing.{RunsReadOn, StopsReadOn};

use ix_disk::Disk;
use ix_store::Listing;

/// A law of a file that only grows: however a run that monitors it ends, and wherever it is
/// stopped, each image that the disk may leave stands for a history of which the blocks of the
/// file's channel are together the first bytes of the file, each once and in order, as many as are
/// kept as read. What the run leaves is what the law asks for of the next one: so it holds over any
/// number of runs.
pub fn runs_read_on<D: Disk, M: Listing>()
    ensures done { RunsReadOn D.Disk M.takes M.Book.fits }
    ensures stopped { StopsReadOn D.Disk M.takes M.Book.fits }
{}
