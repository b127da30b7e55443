//! What kind of value an entry of props.conf has.

ghost use Rattle.std.specs.Prelude.{◌≡◌, bytes_eq};
ghost use Rattle.std.specs.Option.{option_copied};
ghost use Rattle.ix_conf.specs.Lent.{item_entry};
ghost use Rattle.ix_props.specs.Kinds.{after, behind, begins_with, is_ignored, class_kind, time_kind, event_kind, key_kind, entry_kind};

use ix_conf::Item;

/// A kind of value.
#[derive(Clone, Copy)]
pub(crate) enum Kind {
    /// It is not read: the value is empty, or the stanza or the key is none that has an effect.
    Unread,
    /// The stanza's own entry. Its name may have a pattern.
    Stanza,
    /// A pattern for breaks.
    Breaker,
    Pattern,
    Boolean,
    /// A number in this range, none of which is negative.
    Count { least: u32, most: u32 },
    /// In how many bytes a time is looked for.
    Lookahead,
    /// The rank of a stanza.
    Priority,
    Format,
    Zone,
    /// A change of a raw text.
    Change,
    /// Names of transforms.
    Transforms,
    /// The name of a source type.
    Name,
}

/// What stands behind a byte in front.
fn after(text: &[u8], byte: u8) -> Option<&[u8]>
    ensures { option_copied result ≡ after byte text.now }
{
    match text {
        [first, rest @ ..] if *first == byte => Some(rest),
        _ => None,
    }
}

/// What stands behind a prefix of a text.
pub(crate) fn behind<'a>(prefix: &[u8], text: &'a [u8]) -> Option<&'a [u8]>
    ensures { option_copied result ≡ behind prefix.now text.now }
{
    let mut rest = text;
    for byte in prefix {
        let Some(others) = after(rest, *byte) else {
            return None;
        };
        rest = others;
    }
    Some(rest)
}

pub(crate) fn begins_with(text: &[u8], prefix: &[u8]) -> bool
    ensures { result ≡ begins_with prefix.now text.now }
{
    behind(prefix, text).is_some()
}

pub(crate) fn is_key(key: &[u8], name: &[u8]) -> bool
    ensures { result ≡ bytes_eq key.now name.now }
{
    key == name
}

pub(crate) fn is_ignored(stanza: &[u8]) -> bool
    ensures { result ≡ is_ignored stanza.now }
{
    begins_with(stanza, b"rule::") | begins_with(stanza, b"delayedrule::")
}

#[tactic(auto, unfolding(crate::specs::Kinds::class_kind))]
fn class_kind(key: &[u8]) -> Kind
    ensures { result ≡ class_kind key.now }
{
    if begins_with(key, b"SEDCMD-") {
        Kind::Change
    } else if begins_with(key, b"TRANSFORMS-") {
        Kind::Transforms
    } else if is_key(key, b"priority") {
        Kind::Priority
    } else if is_key(key, b"sourcetype") {
        Kind::Name
    } else {
        Kind::Unread
    }
}

#[tactic(auto, unfolding(crate::specs::Kinds::time_kind))]
fn time_kind(key: &[u8]) -> Kind
    ensures { result ≡ time_kind key.now }
{
    if is_key(key, b"TIME_PREFIX") {
        Kind::Pattern
    } else if is_key(key, b"TIME_FORMAT") {
        Kind::Format
    } else if is_key(key, b"MAX_TIMESTAMP_LOOKAHEAD") {
        Kind::Lookahead
    } else if is_key(key, b"TZ") {
        Kind::Zone
    } else if is_key(key, b"MAX_DAYS_AGO") {
        Kind::Count {
            least: 0,
            most: 10_951,
        }
    } else if is_key(key, b"MAX_DAYS_HENCE") {
        Kind::Count {
            least: 0,
            most: 10_950,
        }
    } else {
        class_kind(key)
    }
}

#[tactic(auto, unfolding(crate::specs::Kinds::event_kind))]
fn event_kind(key: &[u8]) -> Kind
    ensures { result ≡ event_kind key.now }
{
    if is_key(key, b"SHOULD_LINEMERGE") {
        Kind::Boolean
    } else if is_key(key, b"BREAK_ONLY_BEFORE_DATE") {
        Kind::Boolean
    } else if is_key(key, b"BREAK_ONLY_BEFORE") {
        Kind::Pattern
    } else if is_key(key, b"MUST_BREAK_AFTER") {
        Kind::Pattern
    } else if is_key(key, b"MUST_NOT_BREAK_AFTER") {
        Kind::Pattern
    } else if is_key(key, b"MUST_NOT_BREAK_BEFORE") {
        Kind::Pattern
    } else if is_key(key, b"MAX_EVENTS") {
        Kind::Count {
            least: 1,
            most: 1_000_000,
        }
    } else {
        time_kind(key)
    }
}

fn key_kind(key: &[u8]) -> Kind
    ensures { result ≡ key_kind key.now }
{
    if is_key(key, b"LINE_BREAKER") {
        Kind::Breaker
    } else if is_key(key, b"TRUNCATE") {
        Kind::Count {
            least: 0,
            most: u32::MAX,
        }
    } else {
        event_kind(key)
    }
}

/// The kind of an entry's value.
pub(crate) fn entry_kind(item: Item<'_>) -> Kind
    ensures { result ≡ entry_kind (item_entry item.entry) }
{
    if is_ignored(item.stanza) {
        Kind::Unread
    } else if item.key.is_empty() {
        Kind::Stanza
    } else if item.value.is_empty() {
        Kind::Unread
    } else {
        key_kind(item.key)
    }
}
