//! A store in small: what its calls say of histories, by the committer's contracts alone. It shows the
//! form that a store above the committer takes.

ghost use Rattle.std.specs.Prelude.{◌≡◌, ◌≤◌, ◌⊎◌, ℕ, List, length, take, Some, OnOk, IfOk};
ghost use Rattle.ix_disk.specs.Image.{Image};
ghost use Rattle.ix_disk.specs.Moments.{Always};
ghost use Rattle.ix_manifest.specs.Book.{empty};

use ix_commit::{CommitFault, Committer, MountFault, commit, mount};
use ix_disk::Disk;
use ix_manifest::ManifestState;
use std::alloc::Global;

/// A store in small.
#[derive(Drop)]
pub struct Small {
    committer: Committer,
    run: u64,
}

impl Small {
    ghost use Rattle.ix_commit.specs.Snapshot.{Snapshot, LogsAtEnd};
    ghost use Rattle.ix_commit.specs.Mounting.{IsFamily, AllKeep};
    ghost use Rattle.tests_crash.specs.History.{Stands, StandsFrom, Holds, HoldsPrefix, leaves};

    /// Makes the accepted commands durable.
    pub fn commit<D: Disk, B: ManifestState>(&mut self, disk: &mut D) -> Result<(), CommitFault>
        requires { LogsAtEnd D.Disk self.old.committer disk.old }
        // Every image since the start stands for the first k commands or for all of them.
        ensures images { (snap : List ℕ → Snapshot) (h : List ℕ) (k : ℕ) → Holds D.Disk B.fits self.old disk.old snap h k →
            Always D.Disk disk.old disk.new (λ image. Stands B.fits snap self.old.run (take k h) image
            ⊎ Stands B.fits snap self.old.run h image) }
        // After Ok all stand for all of them, and these are committed.
        ensures done { (snap : List ℕ → Snapshot) (h : List ℕ) (k : ℕ) → Holds D.Disk B.fits self.old disk.old snap h k →
            OnOk result (Holds D.Disk B.fits self.new disk.new snap h (length h)) }
        ensures over { OnOk result (LogsAtEnd D.Disk self.new.committer disk.new) }
    {
        commit::<D, B>(&mut self.committer, disk)?;
        Ok(())
    }

    /// Mounts the store.
    pub fn mount<D: Disk, B: ManifestState>(
        alloc: Global,
        disk: &mut D,
        state: &mut B,
    ) -> Result<Small, MountFault>
        requires { B.stands state.old ≡ empty }
        // Where every image stands for a prefix with at least k commands, every image since does.
        ensures images { (snap : List ℕ → Snapshot) (h : List ℕ) (k : ℕ) → IsFamily (leaves snap h) k (length h) →
            AllKeep D.Disk disk.old B.fits 0 (leaves snap h) k (length h) → Always D.Disk disk.old disk.new (StandsFrom B.fits snap h k) }
        // At Ok store and disk hold such a prefix, all of it committed.
        ensures mounted { IfOk result (λ store. (snap : List ℕ → Snapshot) (h : List ℕ) (k : ℕ) → IsFamily (leaves snap h) k (length h) →
            AllKeep D.Disk disk.old B.fits 0 (leaves snap h) k (length h) →
            (image : Image) → D.Disk.seen disk.old ≡ Some image → HoldsPrefix D.Disk B.fits store disk.new snap h k) }
        ensures over { IfOk result (λ store. LogsAtEnd D.Disk store.committer disk.new) }
    {
        let committer = mount(alloc, disk, state)?;
        let run = state.run();
        Ok(Small { committer, run })
    }
}
