//! The value of a key.

ghost use Rattle.std.specs.Prelude.{◌≡◌};
ghost use Rattle.std.specs.Option.{option_copied};
ghost use Rattle.ix_conf_values.specs.Values.{own_value, value_of};

use ix_conf::Merged;

/// The stanza whose values hold where a stanza has none of its own.
const DEFAULT: &[u8] = b"default";

/// The value of a key in this stanza alone, which may be empty.
pub fn own_value<'a>(merged: &'a Merged, stanza: &[u8], key: &[u8]) -> Option<&'a [u8]>
    ensures { option_copied result ≡ own_value merged.now stanza.now key.now }
{
    let setting = merged.get(stanza, key)?;
    Some(setting.value)
}

/// The value of a key in this stanza, else in `default`. An empty value says as much as none, and
/// is not passed over.
pub fn value_of<'a>(merged: &'a Merged, stanza: &[u8], key: &[u8]) -> Option<&'a [u8]>
    ensures { option_copied result ≡ value_of merged.now stanza.now key.now }
{
    let found = match own_value(merged, stanza, key) {
        Some(value) => value,
        None => own_value(merged, DEFAULT, key)?,
    };
    if found.is_empty() { None } else { Some(found) }
}
