//! What the numbers of indexes.conf read as.

ghost use Rattle.std.specs.Prelude.{◌≡◌, bytes_eq};
ghost use Rattle.ix_life.specs.Kinds as defs;

use ix_conf_values::read_count;

/// A kind of number.
#[derive(Clone, Copy, Debug, PartialEq, Eq)]
pub enum Kind {
    /// Megabytes of a bucket: 1 to 1,048,576, or `auto`, or `auto_high_volume`.
    Size,
    /// How many buckets take events: 1 to 1,000, or `auto`.
    HotBuckets,
    /// Seconds of which there are at least 3,600: less counts as that.
    Span,
    /// From 1 on.
    FromOne,
    /// From 0 on.
    FromZero,
}

/// Whether a text is this one.
pub fn is_text(text: &[u8], other: &[u8]) -> bool
    ensures { result ≡ bytes_eq text.now other.now }
{
    text == other
}

/// A number of so many at least, and of 32 bits.
fn read_from(least: u32, text: &[u8]) -> Option<u64>
    ensures { result ≡ defs.from least text.now }
{
    let number = read_count(text, least, u32::MAX)?;
    Some(u64::from(number))
}

fn read_size(text: &[u8]) -> Option<u64>
    ensures { result ≡ defs.size text.now }
{
    if is_text(text, b"auto") {
        return Some(750);
    }
    if is_text(text, b"auto_high_volume") {
        return Some(10_240);
    }
    let number = read_count(text, 1, 1_048_576)?;
    Some(u64::from(number))
}

fn read_hot_buckets(text: &[u8]) -> Option<u64>
    ensures { result ≡ defs.hot_buckets text.now }
{
    if is_text(text, b"auto") {
        return Some(3);
    }
    let number = read_count(text, 1, 1_000)?;
    Some(u64::from(number))
}

fn read_span(text: &[u8]) -> Option<u64>
    ensures { result ≡ defs.span text.now }
{
    let secs = read_from(1, text)?;
    Some(secs.max(3_600))
}

/// The number that a text stands for; `None` exactly where it is none of its kind.
pub fn read(kind: Kind, text: &[u8]) -> Option<u64>
    ensures { result ≡ defs.read kind text.now }
{
    match kind {
        Kind::Size => read_size(text),
        Kind::HotBuckets => read_hot_buckets(text),
        Kind::Span => read_span(text),
        Kind::FromOne => read_from(1, text),
        Kind::FromZero => read_from(0, text),
    }
}

/// The kind of number that a setting of an index has; `None` for a key that is no such setting, or
/// has any text.
pub fn kind_of(key: &[u8]) -> Option<Kind>
    ensures { result ≡ defs.kind_of key.now }
{
    if is_text(key, b"maxDataSize") {
        Some(Kind::Size)
    } else if is_text(key, b"maxHotBuckets") {
        Some(Kind::HotBuckets)
    } else if is_text(key, b"maxHotSpanSecs") {
        Some(Kind::Span)
    } else if is_from_one(key) {
        Some(Kind::FromOne)
    } else if is_from_zero(key) {
        Some(Kind::FromZero)
    } else {
        None
    }
}

fn is_from_one(key: &[u8]) -> bool
    ensures { result ≡ defs.is_from_one key.now }
{
    is_text(key, b"frozenTimePeriodInSecs") | is_text(key, b"maxTotalDataSizeMB")
}

fn is_from_zero(key: &[u8]) -> bool
    ensures { result ≡ defs.is_from_zero key.now }
{
    is_text(key, b"maxHotIdleSecs")
        | is_text(key, b"maxWarmDBCount")
        | is_text(key, b"homePath.maxDataSizeMB")
        | is_text(key, b"coldPath.maxDataSizeMB")
        | is_text(key, b"quarantinePastSecs")
        | is_text(key, b"quarantineFutureSecs")
}
