//! Laws of runs that monitor files, without code: what each leaves of the store, and of a file that
//! only grows. So what `top` says of one run joins with what it says of the next.

ghost use Rattle.std.specs.Prelude.{◌≡◌, ◌⊎◌, Bool, false, List, ℕ, Some};
ghost use Rattle.ix_fs.specs.declared.trees.TreeFile.{TreeFile};
ghost use Rattle.ix_replay.specs.Fits.{fits};
ghost use Rattle.ix_watch.specs.Watching.{IsWatched};
ghost use Rattle.indexd_run.specs.Opened.{Past};
ghost use Rattle.indexd_monitor.specs.Growing.{Grows, HasReadNone, HasReadOn};
ghost use Rattle.indexd_core.specs.Around.{Around};
ghost use Rattle.indexd_core.specs.Chain.{MayRun, Leaves, EndsKept, may_lose};
ghost use Rattle.indexd_core.specs.Monitors.{Monitors};
ghost use Rattle.indexd_core.specs.declared.status.Status.{Status};

use ix_disk::Disk;

/// What a run that monitors files leaves, wherever it is stopped.
pub fn monitors_leave<D: Disk>()
    ensures { (past : Past) (status : Status) (close : Bool) (from to : Around D) → MayRun D.Disk past from.disk →
        Monitors status close D.Disk from to → Leaves D.Disk past from.disk to.disk }
{}

/// What it has committed: all that it has given, unless the disk has failed or a file is damaged,
/// also where it stops before it is done. From the disk behind the last commit on every image has
/// it.
pub fn monitors_keep<D: Disk>()
    ensures { (past : Past) (status : Status) (close : Bool) (from to : Around D) → MayRun D.Disk past from.disk →
        may_lose status ≡ false → Monitors status close D.Disk from to → EndsKept status D.Disk past from.disk to.disk }
{}

/// A file that only grows is read once and in order, over any number of runs, wherever each is
/// stopped. Let the history that the disk stands for go on with the file as it was, and let the
/// tree tell that it has become longer, or has stayed as it was. Then each image that the disk may
/// leave since stands for a history that goes on with the file: the blocks of its channel, over all
/// its lives, are the first bytes of the file, as many as is kept that were read. That is so of an
/// empty history, and of what a run leaves; so the next run may say the same.
pub fn watched_files_are_read_on<D: Disk>()
    ensures { (past : Past) (status : Status) (close : Bool) (from to : Around D) (files : List TreeFile) (path before file : List ℕ) →
        MayRun D.Disk past from.disk → from.files ≡ Some files → IsWatched before path past.history → Grows files path before file →
        Monitors status close D.Disk from to →
        HasReadNone D.Disk fits past file path from.disk to.disk ⊎ HasReadOn D.Disk fits past file path from.disk to.disk }
{}
