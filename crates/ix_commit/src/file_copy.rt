//! A copy that is staged.

ghost use Rattle.std.specs.Prelude.{◌≡◌};

use ix_base::{Area, File};

/// Where a copy goes.
#[derive(Clone, Copy, Debug, PartialEq, Eq)]
pub enum CopyTarget {
    /// To the cold buckets.
    Cold,
    /// To the archives.
    Frozen,
    /// To the buckets brought back from an archive.
    Thawed,
}

/// The first bytes of a file, which are to stand in another file too.
#[derive(Clone, Copy, Debug, PartialEq, Eq)]
pub struct FileCopy {
    pub from: File,
    pub place: CopyTarget,
    /// The number of the new file.
    pub number: u64,
    /// How many bytes.
    pub len: u64,
}

impl FileCopy {
    ghost use Rattle.ix_commit.specs.Copies.{target};

    /// The new file.
    pub fn target(self) -> File
        ensures { result ≡ target self }
    {
        let area = match self.place {
            CopyTarget::Cold => Area::Cold,
            CopyTarget::Frozen => Area::Frozen,
            CopyTarget::Thawed => Area::Thawed,
        };
        File {
            area,
            number: self.number,
        }
    }
}
