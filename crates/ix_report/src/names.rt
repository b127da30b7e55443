//! How numbers, times, buckets, states and rules are written.

ghost use Rattle.std.specs.Prelude.{◌≡◌, ◌++◌, decimal, OnOk, codes};
ghost use Rattle.ix_report.specs.Names as defs;

use itoa::Buffer;
use ix_base::{Bytes, NoMemory};
use ix_items::{Bucket, Rule, State};

pub fn add_number(text: &mut Bytes, number: u64) -> Result<(), NoMemory>
    ensures { OnOk result (text.new ≡ text.old ++ decimal number) }
{
    let mut buffer = Buffer::new();
    text.extend(buffer.format(number).as_bytes())
}

pub fn add_sum(text: &mut Bytes, number: u128) -> Result<(), NoMemory>
    ensures { OnOk result (text.new ≡ text.old ++ decimal number) }
{
    let mut buffer = Buffer::new();
    text.extend(buffer.format(number).as_bytes())
}

/// A word with a number behind it.
pub fn add_numbered(text: &mut Bytes, word: &[u8], number: u64) -> Result<(), NoMemory>
    ensures { OnOk result (text.new ≡ text.old ++ (word.now ++ decimal number)) }
{
    text.extend(word)?;
    add_number(text, number)
}

/// Whole seconds, rounded down, also before 1970.
fn seconds(micros: i64) -> i64
    ensures { result ≡ defs.seconds micros }
{
    micros.div_euclid(1_000_000)
}

pub fn add_seconds(text: &mut Bytes, micros: i64) -> Result<(), NoMemory>
    ensures { OnOk result (text.new ≡ text.old ++ defs.seconds_text micros) }
{
    let mut buffer = Buffer::new();
    text.extend(buffer.format(seconds(micros)).as_bytes())
}

/// The name of a bucket that takes no events.
pub fn add_closed_name(text: &mut Bytes, newest: i64, oldest: i64, id: u64) -> Result<(), NoMemory>
    ensures { OnOk result (text.new ≡ text.old ++ defs.closed_name newest oldest id) }
{
    text.extend(b"db_")?;
    add_seconds(text, newest)?;
    text.extend(b"_")?;
    add_seconds(text, oldest)?;
    text.extend(b"_")?;
    add_number(text, id)
}

pub fn add_bucket_name(text: &mut Bytes, bucket: &Bucket) -> Result<(), NoMemory>
    ensures { OnOk result (text.new ≡ text.old ++ defs.bucket_name bucket.now) }
{
    match bucket.state {
        State::Hot => add_numbered(text, b"hot_v1_", bucket.id),
        State::Quarantine => add_numbered(text, b"hot_quar_v1_", bucket.id),
        State::Warm | State::Cold | State::Thawed => {
            add_closed_name(text, bucket.newest, bucket.oldest, bucket.id)
        }
    }
}

pub fn state_text(state: State) -> &'static [u8]
    ensures { result.now ≡ defs.state_text state }
{
    match state {
        State::Hot => b"hot",
        State::Quarantine => b"quarantine",
        State::Warm => b"warm",
        State::Cold => b"cold",
        State::Thawed => b"thawed",
    }
}

pub fn rule_text(rule: Rule) -> &'static [u8]
    ensures { result.now ≡ defs.rule_text rule }
{
    match rule {
        Rule::Age => b"age",
        Rule::Cold => b"cold",
        Rule::Total => b"total",
    }
}

/// Whether the file of a frozen bucket is kept.
pub fn fate_text(archive: Option<u64>) -> &'static [u8]
    ensures { result.now ≡ defs.fate_text archive }
{
    match archive {
        Some(_) => b"archived",
        None => b"deleted",
    }
}
