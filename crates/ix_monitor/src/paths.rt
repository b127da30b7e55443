//! The stanzas of watched files and their paths.

ghost use Rattle.std.specs.Prelude.{◌≡◌, ◌==◌, codes};
ghost use Rattle.std.specs.Option.{option_copied};
ghost use Rattle.std.specs.List.{list_any};
ghost use Rattle.ix_monitor.specs.Paths as defs;

use ix_life::contains;

/// The path of a stanza of watched files.
pub fn path_of(stanza: &[u8]) -> Option<&[u8]>
    ensures { option_copied result ≡ defs.path_of stanza.now }
{
    if stanza.starts_with(b"monitor://") {
        Some(&stanza[10..])
    } else {
        None
    }
}

fn has_slash(path: &[u8]) -> bool
    ensures { result ≡ list_any (λ c. c == 47) path.now }
{
    path.iter().any(|byte| *byte == b'/')
}

/// Whether a `*` stands in another segment than the last.
fn has_star_before_slash(path: &[u8]) -> bool
    ensures { result ≡ defs.has_star_before_slash path.now }
{
    for at in 0..path.len() {
        if path[at] == b'*' && has_slash(&path[at + 1..]) {
            return true;
        }
    }
    false
}

/// Whether no files can be watched under a path.
pub fn is_bad_path(path: &[u8]) -> bool
    ensures { result ≡ defs.is_bad_path path.now }
{
    path.is_empty() || contains(path, b"...") || has_star_before_slash(path)
}
