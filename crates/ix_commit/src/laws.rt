//! What the layer above may use of snapshots: laws, without code.

ghost use Rattle.std.specs.Prelude.{◌≡◌, ◌≢◌, ℕ, []};
ghost use Rattle.ix_base.specs.declared.files.File.{File};
ghost use Rattle.ix_items.specs.declared.items.Item.TheVariants as items;
ghost use Rattle.ix_disk.specs.Image.{Image, nothing};
ghost use Rattle.ix_manifest.specs.Book.{Name, NamedItems, empty, after_item};
ghost use Rattle.ix_commit.specs.Contents.{filling};
ghost use Rattle.ix_commit.specs.Snapshot.{Snapshot, Stages, Forgets};
ghost use Rattle.ix_commit.specs.Undo.{IsSame};
ghost use Rattle.ix_commit.specs.Shortening.{TellsLong};
ghost use Rattle.ix_commit.specs.Mounting.{KeepsOneOf, IsBadLog};
ghost use Rattle.ix_commit.specs.Reads.{LeadsTo, IsBegunFrom, HasNoRun};
ghost use Rattle.ix_commit.specs.declared.committer.Committer.{Committer};

use ix_disk::Disk;
use ix_manifest::ManifestState;

/// An empty disk keeps what stands for the first snapshot of a family that begins with no settings
/// set, nothing else and no bytes.
pub fn empty_disk_keeps<B: ManifestState>()
    ensures { (family : ℕ → Snapshot) (to : ℕ) → ((name : Name) → name.kind ≢ 2 → name.kind ≢ 12 →
        after_item (items.Settings []) empty name ≡ (family 0).book name) → ((file : File) → filling (family 0).contents file ≡ []) →
        KeepsOneOf B.fits 0 family 0 to nothing }
{}

/// What is staged leads as well to a snapshot that says less of the files: a file may be done with
/// at any time, also one with bytes that are staged.
pub fn forgets()
    ensures { (committer : Committer) (old new to : Snapshot) → Stages committer old new → to.book ≡ new.book →
        Forgets new.contents to.contents →
        Stages committer old to }
{}

/// What two committers with the same staged have staged is the same.
pub fn same_stages()
    ensures { (a b : Committer) (old new : Snapshot) → IsSame a b → Stages a old new → Stages b old new }
{}

/// Whether a checkpoint is wanted goes by the log as the disk reads it: behind a mount, a commit
/// and a checkpoint the committer knows how long that is.
pub fn wants_for_a_long_log<D: Disk>()
    ensures { TellsLong D.Disk }
{}

/// Logs with a bad gate lead to no book: so a mount that is Ok, or full, found none.
pub fn bad_logs_lead_nowhere<B: ManifestState>()
    ensures { (file : File) (at : ℕ) (image : Image) (book : NamedItems) → IsBadLog B.fits file at image → LeadsTo B.fits book image → ⊥ }
{}

/// An image leads to one book at the most.
pub fn leads_to_one_book<B: ManifestState>()
    ensures { (image : Image) (a b : NamedItems) → LeadsTo B.fits a image → LeadsTo B.fits b image → a ≡ b }
{}

/// Where a run was begun the logs left one to begin. So a mount is full exactly where, as the disk
/// reads, they leave none, unless it meets another fault or want of memory.
pub fn begun_has_run<B: ManifestState>()
    ensures { (image : Image) (now : NamedItems) → IsBegunFrom B.fits image now → HasNoRun B.fits image → ⊥ }
{}
