//! Whether kept settings stand as settings are kept. `files` asks before it reads them.

ghost use Rattle.std.specs.Prelude.{◌≡◌, map, bytes_eq};
ghost use Rattle.std.specs.Option.{option_map};
ghost use Rattle.std.specs.List.{list_all};
ghost use Rattle.ix_conf.specs.Lent.{item_entry};
ghost use Rattle.ix_model.specs.Given.{entry};
ghost use Rattle.ix_state.specs.Checks as defs;

use ix_conf::{Item, Merged};
use ix_items::Kept;

/// The most bytes that the name of a stanza has.
const MAX_NAME: usize = 1_024;

fn has_name(kept: &Kept) -> bool
    ensures { result ≡ defs.has_name kept.now }
{
    kept.stanza.len() <= MAX_NAME
}

/// Whether the names of all stanzas are within the limit.
fn have_names(kept: &[Kept]) -> bool
    ensures { result ≡ list_all defs.has_name kept.now }
{
    kept.iter().all(|one| has_name(one))
}

/// Whether a setting of a file may stand behind those of another.
fn follows(file: u8, next: u8) -> bool
    ensures { result ≡ defs.follows file next }
{
    file <= next && next <= 4
}

/// Whether settings stand file by file.
fn stand_by_file(kept: &[Kept]) -> bool
    ensures { result ≡ defs.by_file 1 kept.now }
{
    let mut file = 1;
    for one in kept {
        if !follows(file, one.file) {
            return false;
        }
        file = one.file;
    }
    true
}

/// Whether the names of stanzas are within the limit, and settings stand file by file.
pub fn stands_well(kept: &[Kept]) -> bool
    ensures { result ≡ defs.stands_well kept.now }
{
    stand_by_file(kept) && have_names(kept)
}

fn is_text(text: &[u8], other: &[u8]) -> bool
    ensures { result ≡ bytes_eq text.now other.now }
{
    text == other
}

/// Whether a merged entry is what is kept, and of no named layer.
fn is_entry(item: &Item<'_>, kept: &Kept) -> bool
    ensures { result ≡ defs.same_entry (item_entry item.now) (entry kept.now) }
{
    is_text(item.stanza, kept.stanza.as_slice())
        && is_text(item.key, kept.key.as_slice())
        && is_text(item.value, kept.value.as_slice())
        && is_text(item.layer, b"")
}

fn is_there(item: Option<Item<'_>>, kept: &Kept) -> bool
    ensures { result ≡ defs.is_there (option_map (λ lent. item_entry lent) item.entry) (entry kept.now) }
{
    match item {
        Some(item) => is_entry(&item, kept),
        None => false,
    }
}

/// Whether merged entries are those that are kept.
pub fn are_kept(merged: &Merged, kept: &[Kept]) -> bool
    ensures { result ≡ defs.same_entries merged.now (map entry kept.now) }
{
    for at in 0..kept.len() {
        if !is_there(merged.item(at), &kept[at]) {
            return false;
        }
    }
    merged.item(kept.len()).is_none()
}
