//! Which stanzas of indexes.conf are indexes, and how indexes are named.

ghost use Rattle.std.specs.Prelude.{◌≡◌, bytes_eq};
ghost use Rattle.std.specs.List.{list_all};
ghost use Rattle.ix_life.specs.Stanzas as defs;

use crate::kinds::is_text;
use ix_conf::Merged;

/// The stanza whose values hold for every index.
pub const DEFAULT: &[u8] = b"default";

/// The index that is always there.
pub const MAIN: &[u8] = b"main";

pub fn is_default(stanza: &[u8]) -> bool
    ensures { result ≡ defs.is_default stanza.now }
{
    is_text(stanza, b"default")
}

/// Whether a stanza is of a volume, of which nothing is used.
pub fn is_volume(stanza: &[u8]) -> bool
    ensures { result ≡ defs.is_volume stanza.now }
{
    stanza.starts_with(b"volume:")
}

/// Whether a stanza of this name is an index.
pub fn is_index_stanza(stanza: &[u8]) -> bool
    ensures { result ≡ defs.is_index_stanza stanza.now }
{
    !is_default(stanza) && !is_volume(stanza)
}

/// Whether an index of this name is configured.
pub fn is_index(indexes: &Merged, name: &[u8]) -> bool
    ensures { result ≡ defs.is_index indexes.now name.now }
{
    is_text(name, b"main") || is_index_stanza(name) && indexes.has(name)
}

fn is_letter_or_digit(byte: u8) -> bool
    ensures { result ≡ defs.is_letter_or_digit byte }
{
    byte.is_ascii_lowercase() || byte.is_ascii_digit()
}

fn is_name_byte(byte: u8) -> bool
    ensures { result ≡ defs.is_name_byte byte }
{
    is_letter_or_digit(byte) || byte == b'_' || byte == b'-'
}

fn begins_name(name: &[u8]) -> bool
    ensures { result ≡ defs.begins_name name.now }
{
    match name {
        [] => false,
        [first, ..] => is_letter_or_digit(*first),
    }
}

fn has_name_bytes(name: &[u8]) -> bool
    ensures { result ≡ list_all defs.is_name_byte name.now }
{
    name.iter().all(|byte| is_name_byte(*byte))
}

/// Whether a word stands in a text.
pub fn contains(text: &[u8], word: &[u8]) -> bool
    ensures { result ≡ defs.contains word.now text.now }
{
    for at in 0..text.len() {
        if text[at..].starts_with(word) {
            return true;
        }
    }
    is_text(word, b"")
}

/// Whether an index may have this name: small letters, digits, `_` and `-`, of which the last two
/// do not begin it, and no `kvstore` in it.
pub fn is_index_name(name: &[u8]) -> bool
    ensures { result ≡ defs.is_index_name name.now }
{
    begins_name(name) && has_name_bytes(name) && !contains(name, b"kvstore")
}
