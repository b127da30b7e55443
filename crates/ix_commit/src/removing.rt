//! Files that no bucket has any more are removed: by a commit, and again by a mount.

ghost use Rattle.std.specs.Prelude.{◌≡◌, List, Some, OnOk, All};
ghost use Rattle.ix_base.specs.Faults.{HasCause};
ghost use Rattle.ix_base.specs.declared.files.File.{File};
ghost use Rattle.ix_base.specs.Told.{Told};
ghost use Rattle.ix_disk.specs.Image.{Image};
ghost use Rattle.ix_disk.specs.Moments.{ImagesStep};
ghost use Rattle.ix_commit.specs.Contents.{Contents, Spares, IsFree, KeepsLogs, filling};
ghost use Rattle.ix_commit.specs.Reads.{Removing, IsGone, ReadsNone};

use ix_base::{Failed, File};
use ix_disk::Disk;
use ix_manifest::log_file;

/// Removes a file, but no log that counts.
fn remove_one<D: Disk>(disk: &mut D, file: File, current: File) -> Result<(), Failed>
    ensures images { (contents : Contents) → IsFree current contents file →
        ImagesStep D.Disk disk.old disk.new (Spares current (filling contents)) }
    ensures logs { ImagesStep D.Disk disk.old disk.new (KeepsLogs current) }
    ensures seen { Told Removing (D.Disk.seen disk.old) (D.Disk.seen disk.new) }
    ensures removed { OnOk result ((image : Image) → D.Disk.seen disk.new ≡ Some image → IsGone current image file) }
    ensures cause { HasCause (D.Disk.faults disk.old) (D.Disk.faults disk.new) result }
{
    if file == log_file(0) || file == current {
        return Ok(());
    }
    disk.remove(file)?;
    Ok(())
}

/// Removes files that may go.
pub fn remove_all<D: Disk>(disk: &mut D, files: &[File], current: File) -> Result<(), Failed>
    ensures images { (contents : Contents) → All (IsFree current contents) files.now →
        ImagesStep D.Disk disk.old disk.new (Spares current (filling contents)) }
    ensures logs { ImagesStep D.Disk disk.old disk.new (KeepsLogs current) }
    // As the disk reads, each file is as it was or gone, and after Ok these are gone.
    ensures seen { Told Removing (D.Disk.seen disk.old) (D.Disk.seen disk.new) }
    ensures removed { OnOk result (ReadsNone D.Disk disk.new current files.now) }
    ensures cause { HasCause (D.Disk.faults disk.old) (D.Disk.faults disk.new) result }
{
    for file in files {
        remove_one(disk, *file, current)?;
    }
    Ok(())
}
