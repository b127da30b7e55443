//! Records read from bytes.

ghost use Rattle.std.specs.Prelude.{◌≡◌, ◌≤◌, ◌++◌, ℕ, List, length, take, IfOk, OnErr, IsOkAnd};
ghost use Rattle.ix_base.specs.declared.events.Event.{Event};
ghost use Rattle.ix_base.specs.Lent.{lent_event};
ghost use Rattle.ix_coding.specs.Reading.{Gives};
ghost use Rattle.ix_coding.specs.Spelling.{IsSigned64};
ghost use Rattle.ix_bucket.specs.Record.{fields, event_bytes, IsInRange, IsRecordOf};
ghost use Rattle.ix_bucket.specs.Reading.{fields_at, record_at};

use ix_base::{BadRecord, EventRef};
use ix_coding::{BadField, read_i64, read_string};

#[tactic(auto, unfolding(crate::specs::Reading::fields_at))]
fn fields_at(bytes: &[u8]) -> Result<(EventRef<'_>, &[u8]), BadField>
    ensures gives { Gives (λ x. (lent_event x.0, x.1.now)) result (fields_at bytes.now) }
    ensures found { IfOk result (λ x. bytes.now ≡ fields (lent_event x.0) ++ x.1.now) }
    ensures ranged { IfOk result (λ x. IsSigned64 x.0.time × IsSigned64 x.0.arrival) }
{
    let (time, rest) = read_i64(bytes)?;
    let (arrival, rest) = read_i64(rest)?;
    let (index, rest) = read_string(rest)?;
    let (host, rest) = read_string(rest)?;
    let (source, rest) = read_string(rest)?;
    let (sourcetype, rest) = read_string(rest)?;
    let (meta, rest) = read_string(rest)?;
    let (raw, rest) = read_string(rest)?;
    Ok((
        EventRef {
            time,
            arrival,
            index,
            host,
            source,
            sourcetype,
            meta,
            raw,
        },
        rest,
    ))
}

#[tactic(auto, unfolding(crate::specs::Reading::record_at))]
fn record_at(bytes: &[u8]) -> Result<(EventRef<'_>, &[u8]), BadField>
    ensures gives { Gives (λ x. (lent_event x.0, x.1.now)) result (record_at bytes.now) }
    ensures found { IfOk result (λ x. bytes.now ≡ event_bytes (lent_event x.0) ++ x.1.now) }
    ensures ranged { IfOk result (λ x. IsInRange (lent_event x.0)) }
{
    let (fields, rest) = read_string(bytes)?;
    let (event, left) = fields_at(fields)?;
    if !left.is_empty() {
        return Err(BadField);
    }
    Ok((event, rest))
}

/// The event of the record at the front, with its fields lent from the bytes, and how many bytes
/// the record takes. Bytes may follow it. `BadRecord` comes where no first bytes are a record. It
/// takes no memory.
pub fn decode<'a>(bytes: &'a [u8]) -> Result<(EventRef<'a>, usize), BadRecord>
    ensures within { IfOk result (λ found. found.1 ≤ length bytes.now) }
    // The first bytes are the record of the event.
    ensures found { IfOk result (λ found. IsRecordOf (take found.1 bytes.now) (lent_event found.0)) }
    // No first bytes are a record.
    ensures bad { OnErr result ((event : Event) (n : ℕ) → IsRecordOf (take n bytes.now) event → ⊥) }
    // What begins with a record is read as that one, whatever follows.
    ensures only { (event : Event) (rest : List ℕ) → IsInRange event → bytes.now ≡ event_bytes event ++ rest →
        IsOkAnd result (λ found. (lent_event found.0 ≡ event) × (found.1 ≡ length (event_bytes event))) }
{
    match record_at(bytes) {
        Ok((event, rest)) => Ok((event, bytes.len() - rest.len())),
        Err(BadField) => Err(BadRecord),
    }
}

/// No record is the beginning of another, so bytes are read in one way.
pub fn unique_reading()
    ensures { (a b : Event) (x y : List ℕ) → IsInRange a → IsInRange b → event_bytes a ++ x ≡ event_bytes b ++ y → (a ≡ b) × (x ≡ y) }
{}
