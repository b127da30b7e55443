//! Whether settings are the same. A run compares those of the files with those that are in force.

ghost use Rattle.std.specs.Prelude.{◌≡◌};
ghost use Rattle.indexd_run.specs.Ends as defs;

use ix_items::Kept;

fn same_entry(a: &Kept, b: &Kept) -> bool
    ensures { result ≡ defs.same_entry a.now b.now }
{
    a.file == b.file
        && a.stanza.as_slice() == b.stanza.as_slice()
        && a.key.as_slice() == b.key.as_slice()
        && a.value.as_slice() == b.value.as_slice()
}

/// Whether two lists have the same settings in the same order.
pub fn same_kept(a: &[Kept], b: &[Kept]) -> bool
    ensures { result ≡ defs.same_kept a.now b.now }
{
    if a.len() != b.len() {
        return false;
    }
    for i in 0..a.len() {
        if !same_entry(&a[i], &b[i]) {
            return false;
        }
    }
    true
}
