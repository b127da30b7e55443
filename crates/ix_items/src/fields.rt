//! The parts of items at the front of bytes: each reader gives the value and the bytes after it.

ghost use Rattle.std.specs.Prelude.{◌≡◌, ◌≢◌, ◌≤◌, ◌++◌, IfOk, IfSome, Some};
ghost use Rattle.ix_coding.specs.Spelling.{byte, eight, signed, string, option, IsShort, IsShortOption, Is64, IsSigned64};
ghost use Rattle.ix_coding.specs.Reading.{string_at, option_at};
ghost use Rattle.ix_items.specs.Spelling.{area_byte, state_byte, rule_byte, archive_number, file_bytes, kept_bytes, meta_bytes};
ghost use Rattle.ix_items.specs.Spelling.{bucket_bytes, entry_bytes, spot_bytes, IsKept, IsMeta, BucketInRange, EntryInRange};
ghost use Rattle.ix_items.specs.Reading.{Gives, area_of, state_of, rule_of, archive_of, coded_at, file_at, file_number_at, kept_at};
ghost use Rattle.ix_items.specs.Reading.{meta_at, span_at, place_at, bucket_at, frozen_at, entry_at, spot_at};

use crate::items::{Bucket, Entry, ItemFault, Kept, Rule, State};
use ix_base::{Area, Bytes, ChannelMeta, File, Spot};
use ix_coding::{read_byte, read_i64, read_option, read_string, read_u64};
use std::alloc::Global;

/// Reads a string, and copies it.
pub fn copy_string(alloc: Global, bytes: &[u8]) -> Result<(Bytes, &[u8]), ItemFault>
    ensures gives { Gives (λ x. (x.0, x.1.now)) result (string_at bytes.now) }
    ensures found { IfOk result (λ x. (bytes.now ≡ string x.0 ++ x.1.now) × IsShort x.0) }
{
    let (text, rest) = read_string(bytes)?;
    Ok((Bytes::copy_of(alloc, text)?, rest))
}

/// Reads a string that may be missing, and copies it.
pub fn copy_option(alloc: Global, bytes: &[u8]) -> Result<(Option<Bytes>, &[u8]), ItemFault>
    ensures gives { Gives (λ x. (x.0, x.1.now)) result (option_at string_at bytes.now) }
    ensures found { IfOk result (λ x. (bytes.now ≡ option string x.0 ++ x.1.now) × IsShortOption x.0) }
{
    let (text, rest) = read_option(bytes)?;
    match text {
        None => Ok((None, rest)),
        Some(text) => Ok((Some(Bytes::copy_of(alloc, text)?), rest)),
    }
}

#[tactic(auto, unfolding(crate::specs::Reading::area_of))]
fn area_of_byte(byte: u8) -> Option<Area>
    ensures gives { result ≡ area_of byte }
    ensures found { IfSome result (λ area. byte ≡ area_byte area) }
{
    match byte {
        1 => Some(Area::Meta),
        2 => Some(Area::Home),
        3 => Some(Area::Cold),
        4 => Some(Area::Frozen),
        5 => Some(Area::Thawed),
        _ => None,
    }
}

#[tactic(auto, unfolding(crate::specs::Reading::state_of))]
fn state_of_byte(byte: u8) -> Option<State>
    ensures gives { result ≡ state_of byte }
    ensures found { IfSome result (λ state. byte ≡ state_byte state) }
{
    match byte {
        1 => Some(State::Hot),
        2 => Some(State::Quarantine),
        3 => Some(State::Warm),
        4 => Some(State::Cold),
        5 => Some(State::Thawed),
        _ => None,
    }
}

#[tactic(auto, unfolding(crate::specs::Reading::rule_of))]
fn rule_of_byte(byte: u8) -> Option<Rule>
    ensures gives { result ≡ rule_of byte }
    ensures found { IfSome result (λ rule. byte ≡ rule_byte rule) }
{
    match byte {
        1 => Some(Rule::Age),
        2 => Some(Rule::Cold),
        3 => Some(Rule::Total),
        _ => None,
    }
}

fn read_area(bytes: &[u8]) -> Result<(Area, &[u8]), ItemFault>
    ensures gives { Gives (λ x. (x.0, x.1.now)) result (coded_at area_of bytes.now) }
    ensures found { IfOk result (λ x. bytes.now ≡ byte (area_byte x.0) ++ x.1.now) }
{
    let (byte, rest) = read_byte(bytes)?;
    match area_of_byte(byte) {
        Some(area) => Ok((area, rest)),
        None => Err(ItemFault::BadItem),
    }
}

fn read_state(bytes: &[u8]) -> Result<(State, &[u8]), ItemFault>
    ensures gives { Gives (λ x. (x.0, x.1.now)) result (coded_at state_of bytes.now) }
    ensures found { IfOk result (λ x. bytes.now ≡ byte (state_byte x.0) ++ x.1.now) }
{
    let (byte, rest) = read_byte(bytes)?;
    match state_of_byte(byte) {
        Some(state) => Ok((state, rest)),
        None => Err(ItemFault::BadItem),
    }
}

fn read_rule(bytes: &[u8]) -> Result<(Rule, &[u8]), ItemFault>
    ensures gives { Gives (λ x. (x.0, x.1.now)) result (coded_at rule_of bytes.now) }
    ensures found { IfOk result (λ x. bytes.now ≡ byte (rule_byte x.0) ++ x.1.now) }
{
    let (byte, rest) = read_byte(bytes)?;
    match rule_of_byte(byte) {
        Some(rule) => Ok((rule, rest)),
        None => Err(ItemFault::BadItem),
    }
}

#[tactic(auto, unfolding(crate::specs::Reading::file_at))]
pub fn read_file(bytes: &[u8]) -> Result<(File, &[u8]), ItemFault>
    ensures gives { Gives (λ x. (x.0, x.1.now)) result (file_at bytes.now) }
    ensures found { IfOk result (λ x. bytes.now ≡ file_bytes x.0 ++ x.1.now) }
    ensures ranged { IfOk result (λ x. Is64 x.0.number) }
{
    let (area, rest) = read_area(bytes)?;
    let (number, rest) = read_u64(rest)?;
    Ok((File { area, number }, rest))
}

#[tactic(auto, unfolding(crate::specs::Reading::file_number_at))]
fn read_file_number(bytes: &[u8]) -> Result<(u8, &[u8]), ItemFault>
    ensures gives { Gives (λ x. (x.0, x.1.now)) result (file_number_at bytes.now) }
    ensures found { IfOk result (λ x. (bytes.now ≡ byte x.0 ++ x.1.now) × (1 ≤ x.0) × (x.0 ≤ 4)) }
{
    let (file, rest) = read_byte(bytes)?;
    if 1 <= file && file <= 4 {
        Ok((file, rest))
    } else {
        Err(ItemFault::BadItem)
    }
}

#[tactic(auto, unfolding(crate::specs::Reading::kept_at))]
pub fn read_kept(alloc: Global, bytes: &[u8]) -> Result<(Kept, &[u8]), ItemFault>
    ensures gives { Gives (λ x. (x.0, x.1.now)) result (kept_at bytes.now) }
    ensures found { IfOk result (λ x. (bytes.now ≡ kept_bytes x.0 ++ x.1.now) × IsKept x.0) }
{
    let (file, rest) = read_file_number(bytes)?;
    let (stanza, rest) = copy_string(alloc, rest)?;
    let (key, rest) = copy_string(alloc, rest)?;
    let (value, rest) = copy_string(alloc, rest)?;
    let kept = Kept {
        file,
        stanza,
        key,
        value,
    };
    Ok((kept, rest))
}

#[tactic(auto, unfolding(crate::specs::Reading::meta_at, crate::specs::Spelling::meta_bytes))]
pub fn read_meta(alloc: Global, bytes: &[u8]) -> Result<(ChannelMeta, &[u8]), ItemFault>
    ensures gives { Gives (λ x. (x.0, x.1.now)) result (meta_at bytes.now) }
    ensures found { IfOk result (λ x. (bytes.now ≡ meta_bytes x.0 ++ x.1.now) × IsMeta x.0) }
{
    let (host, rest) = copy_string(alloc, bytes)?;
    let (source, rest) = copy_string(alloc, rest)?;
    let (sourcetype, rest) = copy_option(alloc, rest)?;
    let (index, rest) = copy_option(alloc, rest)?;
    let meta = ChannelMeta {
        host,
        source,
        sourcetype,
        index,
    };
    Ok((meta, rest))
}

/// How many events there are, and the latest and the earliest time of one.
#[tactic(auto, unfolding(crate::specs::Reading::span_at))]
fn read_span(bytes: &[u8]) -> Result<((u64, i64, i64), &[u8]), ItemFault>
    ensures gives { Gives (λ x. (x.0, x.1.now)) result (span_at bytes.now) }
    ensures found { IfOk result (λ x. bytes.now ≡ eight x.0.0 ++ signed x.0.1 ++ signed x.0.2 ++ x.1.now) }
    ensures ranged { IfOk result (λ x. Is64 x.0.0 × IsSigned64 x.0.1 × IsSigned64 x.0.2) }
{
    let (count, rest) = read_u64(bytes)?;
    let (newest, rest) = read_i64(rest)?;
    let (oldest, rest) = read_i64(rest)?;
    Ok(((count, newest, oldest), rest))
}

/// A bucket's number, what it does, its file and how many bytes of it count.
#[tactic(auto, unfolding(crate::specs::Reading::place_at))]
fn read_place(bytes: &[u8]) -> Result<((u64, State, File, u64), &[u8]), ItemFault>
    ensures gives { Gives (λ x. (x.0, x.1.now)) result (place_at bytes.now) }
    ensures found { IfOk result (λ x. bytes.now ≡ eight x.0.0 ++ byte (state_byte x.0.1) ++ file_bytes x.0.2 ++ eight x.0.3 ++ x.1.now) }
    ensures ranged { IfOk result (λ x. Is64 x.0.0 × Is64 x.0.2.number × Is64 x.0.3) }
{
    let (id, rest) = read_u64(bytes)?;
    let (state, rest) = read_state(rest)?;
    let (file, rest) = read_file(rest)?;
    let (size, rest) = read_u64(rest)?;
    Ok(((id, state, file, size), rest))
}

#[tactic(auto, unfolding(crate::specs::Reading::bucket_at, crate::specs::Spelling::bucket_bytes))]
pub fn read_bucket(bytes: &[u8]) -> Result<(Bucket, &[u8]), ItemFault>
    ensures gives { Gives (λ x. (x.0, x.1.now)) result (bucket_at bytes.now) }
    ensures found { IfOk result (λ x. bytes.now ≡ bucket_bytes x.0 ++ x.1.now) }
    ensures ranged { IfOk result (λ x. BucketInRange x.0) }
{
    let ((id, state, file, size), rest) = read_place(bytes)?;
    let ((count, newest, oldest), rest) = read_span(rest)?;
    let (used, rest) = read_u64(rest)?;
    let (touched, rest) = read_i64(rest)?;
    let bucket = Bucket {
        id,
        state,
        file,
        bytes: size,
        count,
        newest,
        oldest,
        used,
        touched,
    };
    Ok((bucket, rest))
}

#[tactic(auto, unfolding(crate::specs::Reading::archive_of))]
fn archive_of_number(number: u64) -> Option<u64>
    ensures gives { result ≡ archive_of number }
    ensures found { archive_number result ≡ number }
    ensures some { result ≢ Some 0 }
{
    if number == 0 { None } else { Some(number) }
}

/// A bucket's number, why it was frozen, and when.
#[tactic(auto, unfolding(crate::specs::Reading::frozen_at))]
fn read_frozen(bytes: &[u8]) -> Result<((u64, Rule, i64), &[u8]), ItemFault>
    ensures gives { Gives (λ x. (x.0, x.1.now)) result (frozen_at bytes.now) }
    ensures found { IfOk result (λ x. bytes.now ≡ eight x.0.0 ++ byte (rule_byte x.0.1) ++ signed x.0.2 ++ x.1.now) }
    ensures ranged { IfOk result (λ x. Is64 x.0.0 × IsSigned64 x.0.2) }
{
    let (id, rest) = read_u64(bytes)?;
    let (rule, rest) = read_rule(rest)?;
    let (moment, rest) = read_i64(rest)?;
    Ok(((id, rule, moment), rest))
}

/// Reads an entry. Its string is copied last, behind all that may fail.
#[tactic(auto, unfolding(crate::specs::Reading::entry_at, crate::specs::Spelling::entry_bytes))]
pub fn read_entry(alloc: Global, bytes: &[u8]) -> Result<(Entry, &[u8]), ItemFault>
    ensures gives { Gives (λ x. (x.0, x.1.now)) result (entry_at bytes.now) }
    ensures found { IfOk result (λ x. (bytes.now ≡ entry_bytes x.0 ++ x.1.now) × IsShort x.0.index × (x.0.archive ≢ Some 0)) }
    ensures ranged { IfOk result (λ x. EntryInRange x.0) }
{
    let (name, rest) = read_string(bytes)?;
    let ((id, rule, moment), rest) = read_frozen(rest)?;
    let ((count, newest, oldest), rest) = read_span(rest)?;
    let (size, rest) = read_u64(rest)?;
    let (archive, rest) = read_u64(rest)?;
    let index = Bytes::copy_of(alloc, name)?;
    let entry = Entry {
        index,
        id,
        rule,
        moment,
        count,
        newest,
        oldest,
        bytes: size,
        archive: archive_of_number(archive),
    };
    Ok((entry, rest))
}

#[tactic(auto, unfolding(crate::specs::Reading::spot_at, crate::specs::Spelling::spot_bytes))]
pub fn read_spot(alloc: Global, bytes: &[u8]) -> Result<(Spot, &[u8]), ItemFault>
    ensures gives { Gives (λ x. (x.0, x.1.now)) result (spot_at bytes.now) }
    ensures found { IfOk result (λ x. (bytes.now ≡ spot_bytes x.0 ++ x.1.now) × IsShort x.0.path × IsShort x.0.head) }
    ensures ranged { IfOk result (λ x. Is64 x.0.offset) }
{
    let (path, rest) = copy_string(alloc, bytes)?;
    let (head, rest) = copy_string(alloc, rest)?;
    let (offset, rest) = read_u64(rest)?;
    let spot = Spot { path, head, offset };
    Ok((spot, rest))
}
