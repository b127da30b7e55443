//! The query of a request for events.

ghost use Rattle.std.specs.Prelude.{◌≡◌, IfOk};
ghost use Rattle.std.specs.List.{list_all};
ghost use Rattle.std.specs.Char.{is_ascii_digit};
ghost use Rattle.ix_http.specs.Ranges.{digits_in, is_time, seconds_of, with_pair, range_of};

use ix_base::{NoMemory, Range};
use std::alloc::Global;

/// What stands behind a minus, or all of the bytes.
fn digits_in(bytes: &[u8]) -> &[u8]
    ensures { result.now ≡ digits_in bytes.now }
{
    if !bytes.is_empty() && bytes[0] == b'-' {
        &bytes[1..]
    } else {
        bytes
    }
}

fn all_digits(bytes: &[u8]) -> bool
    ensures { result ≡ list_all is_ascii_digit bytes.now }
{
    bytes.iter().all(|b| b.is_ascii_digit())
}

/// Whether the text is an optional minus and 1 to 11 digits.
#[tactic(auto, using(std::proofs::lemmas::Bool::Decides::nat_tests))]
fn is_time(text: &str) -> bool
    ensures { result ≡ is_time text.now }
{
    let digits = digits_in(text.as_bytes());
    1 <= digits.len() && digits.len() <= 11 && all_digits(digits)
}

/// The seconds that a value of the query writes.
#[tactic(auto, unfolding(crate::specs::Ranges::seconds_of))]
fn seconds(text: &str) -> Option<i64>
    ensures { result ≡ seconds_of text.now }
{
    if !is_time(text) {
        return None;
    }
    text.parse().ok()
}

/// The range with one more pair.
#[tactic(auto, unfolding(crate::specs::Ranges::with_pair))]
fn with_pair(range: Range, name: &str, value: &str) -> Option<Range>
    ensures { result ≡ with_pair range (name.now, value.now) }
{
    if name == "earliest" {
        if range.earliest.is_some() {
            return None;
        }
        let earliest = seconds(value)?;
        return Some(Range {
            earliest: Some(earliest),
            latest: range.latest,
        });
    }
    if name == "latest" {
        if range.latest.is_some() {
            return None;
        }
        let latest = seconds(value)?;
        return Some(Range {
            earliest: range.earliest,
            latest: Some(latest),
        });
    }
    None
}

/// The range that the query names, or `None` where it is refused.
pub(crate) fn read_range(alloc: Global, query: &[u8]) -> Result<Option<Range>, NoMemory>
    ensures { IfOk result (λ r. r ≡ range_of query.now) }
{
    let mut range = Range {
        earliest: None,
        latest: None,
    };
    let mut pairs = form_urlencoded::parse(alloc, query);
    while let Some(pair) = pairs.next() {
        let (name, value) = pair?;
        let Some(next) = with_pair(range, name.as_str(), value.as_str()) else {
            return Ok(None);
        };
        range = next;
    }
    Ok(Some(range))
}
