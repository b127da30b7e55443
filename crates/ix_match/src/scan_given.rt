//! What a scan was made for and what it was given, for its contracts alone.

ghost use Rattle.std.specs.Prelude.{◌≡◌, ℕ, List, []};
ghost use base.Fml.{ftrue};
ghost use Rattle.ix_pattern.specs.Rows.{Shape};

use ix_pattern::Pattern;
use std::marker::Model;

/// The pattern of a scan and the bytes of its text so far. It takes no memory, and no code reads
/// it.
#[derive(Drop)]
pub struct ScanGiven {
    pub ghost pattern: { Shape },
    pub ghost bytes: { List ℕ },
}

impl Model for ScanGiven {
    ghost also_owns = { λ _. ftrue };
}

impl ScanGiven {
    /// This pattern and these bytes.
    pub fn of(p: &Pattern, bytes: &[u8]) -> ScanGiven
        ensures { (result.pattern ≡ p.now) × (result.bytes ≡ bytes.now) }
    {
        let _ = p;
        let _ = bytes;
        ScanGiven {}
    }

    /// The same pattern, and no byte.
    pub fn emptied(&self) -> ScanGiven
        ensures { (result.pattern ≡ self.now.pattern) × (result.bytes ≡ []) }
    {
        let _ = self;
        ScanGiven {}
    }

    /// The same pattern and bytes.
    pub fn again(&self) -> ScanGiven
        ensures { (result.pattern ≡ self.now.pattern) × (result.bytes ≡ self.now.bytes) }
    {
        let _ = self;
        ScanGiven {}
    }
}
