//! A run begins: the store is mounted, and the settings of the files are put in force. Each run
//! over a store calls it first.

ghost use Rattle.std.specs.Prelude.{◌≡◌, ◌≤◌, ℕ, ℤ, false, Some, Err, IfOk, IfErr, OnOk, IsErrOf};
ghost use Rattle.std.specs.List.{AllByRecursion};
ghost use Rattle.ix_base.specs.Faults.{Rose};
ghost use Rattle.ix_base.specs.Told.{Told};
ghost use Rattle.ix_base.specs.declared.files.File.{File};
ghost use Rattle.ix_disk.specs.Image.{Image};
ghost use Rattle.ix_commit.specs.Contents.{Anyhow};
ghost use Rattle.ix_commit.specs.Snapshot.{LogsAtEnd};
ghost use Rattle.ix_run.specs.Resting.{CheckpointReady};
ghost use Rattle.indexd_run.specs.Blamed.{HasMounted, Blames};
ghost use Rattle.indexd_run.specs.Opened.{Begins, configuring, HasOpened, HasShut, Past, course};
ghost use Rattle.indexd_run.specs.Shortened.{StopsShort};
ghost use Rattle.indexd_run.specs.Stops.{is_output, is_input};

use crate::finish::stop_run;
use crate::settings::same_kept;
use crate::single::run_last;
use crate::stop::{Stop, of_mount};
use ix_base::Clock;
use ix_disk::Disk;
use ix_model::{Command, Config};
use ix_store::{Listing, Store};
use std::alloc::Global;

/// Mounts the store that a disk keeps, or begins a new one, and puts these settings in force where
/// others are. A run that stops once the store is mounted has made its log short where it is long.
pub fn open<M: Listing + Drop, D: Disk, C: Clock>(
    alloc: Global,
    disk: &mut D,
    clock: &mut C,
    config: Config,
) -> Result<Store<M>, Stop>
    requires { (moment : ℤ) → M.takes (configuring config moment) }
    // Some prefix of what the images at the start stand for is there, with the settings; all is
    // committed, and no image has lost any of it.
    ensures opened { IfOk result (λ store. (past : Past) → M.is_chooser past.choose → AllByRecursion M.takes past.history →
        Begins D.Disk M.Book.fits past disk.old → (image : Image) → D.Disk.seen disk.old ≡ Some image →
        HasOpened D.Disk M.Book.fits M.holds past (course config (C.ahead clock.old) (C.ahead clock.new) disk.old disk.new) store) }
    // At a stop nothing of before is lost either, and it has its cause.
    ensures stopped { IfErr result (λ stop. (past : Past) → M.is_chooser past.choose → AllByRecursion M.takes past.history →
        Begins D.Disk M.Book.fits past disk.old → (image : Image) → D.Disk.seen disk.old ≡ Some image →
        HasShut stop D.Disk M.takes M.Book.fits past (course config (C.ahead clock.old) (C.ahead clock.new) disk.old disk.new)) }
    // A disk that keeps what was committed, and tells what it reads, is not damaged.
    ensures undamaged { (file : File) (at : ℕ) → result ≡ Err (Stop.Damaged file at) → (past : Past) → M.is_chooser past.choose →
        AllByRecursion M.takes past.history → Begins D.Disk M.Book.fits past disk.old → (image : Image) →
        D.Disk.seen disk.old ≡ Some image → ⊥ }
    // Whatever the disk held: an open store was mounted, and a stop blames what the mount or the
    // mounted store has met.
    ensures mounted { OnOk result (HasMounted D.Disk M.Book.fits disk.old) }
    ensures blamed { IfErr result (λ stop. Blames stop D.Disk M.Book.fits M.gives_none disk.old disk.new) }
    ensures over { IfOk result (λ store. LogsAtEnd D.Disk store.committer disk.new) }
    // What the end of a run asks for, and what it leaves at a stop.
    ensures rest { IfOk result (λ store. CheckpointReady D.Disk store.committer disk.new) }
    ensures short { IfErr result (λ stop. StopsShort D.Disk M.Book.fits stop disk.old disk.new) }
    // A disk that tells what it reads goes on telling.
    ensures told { Told Anyhow (D.Disk.seen disk.old) (D.Disk.seen disk.new) }
    ensures later { D.Disk.faults disk.old ≤ D.Disk.faults disk.new }
    ensures cause { IsErrOf result Stop.Disk → Rose (D.Disk.faults disk.old) (D.Disk.faults disk.new) }
    ensures quiet { IfErr result (λ stop. is_output stop ≡ false) }
    ensures unread { IfErr result (λ stop. is_input stop ≡ false) }
{
    let mut store = match Store::<M>::mount(alloc, disk) {
        Ok(store) => store,
        Err(fault) => return Err(of_mount(fault)),
    };
    if same_kept(store.kept().as_slice(), config.kept.as_slice()) {
        return Ok(store);
    }
    let moment = clock.now();
    match run_last(&mut store, disk, Command::Configure { config }, moment) {
        Ok(_) => Ok(store),
        Err(stop) => Err(stop_run(&mut store, disk, stop)),
    }
}
