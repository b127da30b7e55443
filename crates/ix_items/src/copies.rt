//! Copies of what owns memory: entries of the ledger, and settings. Each fails for want of memory
//! alone.

ghost use Rattle.std.specs.Prelude.{◌≡◌, IfOk};

use crate::items::{Entry, Kept, KeptList};
use ix_base::{NoMemory, Sequence};
use std::alloc::Global;

impl Entry {
    /// A copy of the entry.
    pub fn copy(&self) -> Result<Entry, NoMemory>
        ensures { IfOk result (λ copy. copy ≡ self.now) }
    {
        Ok(Entry {
            index: self.index.copy()?,
            id: self.id,
            rule: self.rule,
            moment: self.moment,
            count: self.count,
            newest: self.newest,
            oldest: self.oldest,
            bytes: self.bytes,
            archive: self.archive,
        })
    }
}

impl Kept {
    /// A copy of the setting.
    pub fn copy(&self) -> Result<Kept, NoMemory>
        ensures { IfOk result (λ copy. copy ≡ self.now) }
    {
        Ok(Kept {
            file: self.file,
            stanza: self.stanza.copy()?,
            key: self.key.copy()?,
            value: self.value.copy()?,
        })
    }
}

/// Copies of settings, in their order.
pub fn copy_settings(alloc: Global, kept: &[Kept]) -> Result<KeptList, NoMemory>
    ensures { IfOk result (λ copies. copies ≡ kept.now) }
{
    let mut copies = Sequence::new(alloc);
    for one in kept {
        copies.push(one.copy()?)?;
    }
    Ok(copies)
}
