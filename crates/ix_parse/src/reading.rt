//! Reading a carry: each part at the front of the bytes is read with its form, and gives the value
//! and the bytes after it.

ghost use Rattle.std.specs.Prelude.{◌≡◌, ◌+◌, ◌++◌, length, None, IfOk, Err};
ghost use Rattle.std.specs.List.{flat_map, AllByRecursion};
ghost use Rattle.std.specs.Option.{ForSome};
ghost use Rattle.ix_coding.specs.Spelling.{byte, signed, option, IsShort};
ghost use Rattle.ix_coding.specs.Reading.{byte_at, option_at};
ghost use Rattle.ix_lines.specs.Lines.{effective};
ghost use Rattle.ix_merge.specs.Sizes.{IsSized, HasForm as HasMergeForm};
ghost use Rattle.ix_parse.specs.Spelling.{line_bytes, runs_bytes, event_bytes, line_parts_bytes, merge_parts_bytes, spell};
ghost use Rattle.ix_parse.specs.Form.{IsWithin, IsTime, IsRun, AreRuns, IsOpenLine, IsEvent, HasForm, IsCarryOf};
ghost use Rattle.ix_parse.specs.Reading.{Gives, within_at, time_at, run_at, run_list_at, fit, runs_at, open_line_at, line_parts_at};
ghost use Rattle.ix_parse.specs.Reading.{event_at, merge_parts_at, carry_at};
ghost use Rattle.ix_parse.specs.declared.carry.Carry.{Carry};

use crate::carry::{Carry, CarryRules, ResumeFault};
use ix_base::{Bytes, LATEST_MOMENT, Line, LineList};
use ix_coding::{read_byte, read_flag, read_i64, read_string, read_u32};
use ix_lines::LineParts;
use ix_merge::{MergeParts, Whole};
use std::alloc::Global;

/// How many bytes wait from the scan place on, at the most.
const MOST_PENDING: usize = 16_383;

/// How many bytes an open event has at the most.
const MOST_RAW: usize = 4_194_304;

/// The bounds of the times of events.
const EARLIEST_TIME: i64 = -4_611_686_018_427_387_904;

const LATEST_TIME: i64 = 4_611_686_018_427_387_904;

/// Reads a number from `low` to `high`.
#[tactic(auto, unfolding(crate::specs::Reading::within_at))]
fn read_within(low: i64, high: i64, bytes: &[u8]) -> Result<(i64, &[u8]), ResumeFault>
    ensures gives { Gives (λ x. (x.0, x.1.now)) result (within_at low high bytes.now) }
    ensures found { IfOk result (λ x. (bytes.now ≡ signed x.0 ++ x.1.now) × IsWithin low high x.0) }
{
    let (number, rest) = read_i64(bytes)?;
    if low <= number && number <= high {
        Ok((number, rest))
    } else {
        Err(ResumeFault::BadCarry)
    }
}

/// Reads a moment, and bytes that came then. They are not empty.
#[tactic(auto, unfolding(crate::specs::Reading::run_at, crate::specs::Spelling::line_bytes))]
fn read_run(alloc: Global, bytes: &[u8]) -> Result<(Line, &[u8]), ResumeFault>
    ensures gives { Gives (λ x. (x.0, x.1.now)) result (run_at bytes.now) }
    ensures found { IfOk result (λ x. (bytes.now ≡ line_bytes x.0 ++ x.1.now) × IsRun x.0) }
{
    let (moment, rest) = read_within(0, LATEST_MOMENT, bytes)?;
    let (text, rest) = read_string(rest)?;
    if text.is_empty() {
        return Err(ResumeFault::BadCarry);
    }
    let bytes = Bytes::copy_of(alloc, text)?;
    Ok((Line { bytes, moment }, rest))
}

fn read_run_list(alloc: Global, count: u32, bytes: &[u8]) -> Result<(LineList, &[u8]), ResumeFault>
    ensures gives { Gives (λ x. (x.0, x.1.now)) result (run_list_at count bytes.now) }
    ensures found { IfOk result (λ x. (bytes.now ≡ flat_map line_bytes x.0 ++ x.1.now) × (length x.0 ≡ count) × AllByRecursion IsRun x.0) }
{
    let mut list = LineList::new(alloc);
    let mut rest = bytes;
    for _ in 0..count {
        let (next, after) = read_run(alloc, rest)?;
        list.push(next)?;
        rest = after;
    }
    Ok((list, rest))
}

/// Whether neighbouring runs have different moments, and all of them no more bytes than may wait.
#[tactic(auto, unfolding(crate::specs::Reading::fit))]
fn fit(runs: &[Line]) -> bool
    ensures { result ≡ fit None 16383 runs.now }
{
    let mut before = None;
    let mut room = MOST_PENDING;
    for run in runs {
        if before == Some(run.moment) || room < run.bytes.len() {
            return false;
        }
        before = Some(run.moment);
        room -= run.bytes.len();
    }
    true
}

/// Reads the pending bytes.
#[tactic(auto, unfolding(crate::specs::Reading::runs_at, crate::specs::Spelling::runs_bytes))]
fn read_runs(alloc: Global, bytes: &[u8]) -> Result<(LineList, &[u8]), ResumeFault>
    ensures gives { Gives (λ x. (x.0, x.1.now)) result (runs_at bytes.now) }
    ensures found { IfOk result (λ x. (bytes.now ≡ runs_bytes x.0 ++ x.1.now) × AreRuns x.0) }
{
    let (count, rest) = read_u32(bytes)?;
    let (runs, rest) = read_run_list(alloc, count, rest)?;
    if fit(runs.as_slice()) {
        Ok((runs, rest))
    } else {
        Err(ResumeFault::BadCarry)
    }
}

/// Reads an open line of at most so many bytes.
#[tactic(auto, unfolding(crate::specs::Reading::open_line_at))]
fn read_line(alloc: Global, most: usize, bytes: &[u8]) -> Result<(Line, &[u8]), ResumeFault>
    ensures gives { Gives (λ x. (x.0, x.1.now)) result (open_line_at most bytes.now) }
    ensures found { IfOk result (λ x. (bytes.now ≡ line_bytes x.0 ++ x.1.now) × IsOpenLine most x.0) }
{
    let (line, rest) = read_run(alloc, bytes)?;
    if line.bytes.len() <= most {
        Ok((line, rest))
    } else {
        Err(ResumeFault::BadCarry)
    }
}

/// Reads an event that has at most `max_lines` lines.
#[tactic(auto, unfolding(crate::specs::Reading::event_at, crate::specs::Spelling::event_bytes))]
fn read_event(alloc: Global, max_lines: u32, bytes: &[u8]) -> Result<(Whole, &[u8]), ResumeFault>
    ensures gives { Gives (λ x. (x.0, x.1.now)) result (event_at max_lines bytes.now) }
    ensures found { IfOk result (λ x. (bytes.now ≡ event_bytes x.0 ++ x.1.now) × IsEvent x.0 × IsSized max_lines x.0) }
{
    let (moment, rest) = read_within(0, LATEST_MOMENT, bytes)?;
    let (lines, rest) = read_u32(rest)?;
    let (text, rest) = read_string(rest)?;
    if lines < 1 || max_lines < lines || MOST_RAW < text.len() {
        return Err(ResumeFault::BadCarry);
    }
    let raw = Bytes::copy_of(alloc, text)?;
    Ok((Whole { raw, moment, lines }, rest))
}

#[tactic(auto, unfolding(ix_coding::specs::Reading::option_at, ix_coding::specs::Spelling::option))]
fn read_before(bytes: &[u8]) -> Result<(Option<u8>, &[u8]), ResumeFault>
    ensures gives { Gives (λ x. (x.0, x.1.now)) result (option_at byte_at bytes.now) }
    ensures found { IfOk result (λ x. bytes.now ≡ option byte x.0 ++ x.1.now) }
{
    let (some, rest) = read_flag(bytes)?;
    if !some {
        return Ok((None, rest));
    }
    let (byte, rest) = read_byte(rest)?;
    Ok((Some(byte), rest))
}

#[tactic(auto, unfolding(ix_coding::specs::Reading::option_at, ix_coding::specs::Spelling::option))]
fn read_open_line(
    alloc: Global,
    most: usize,
    bytes: &[u8],
) -> Result<(Option<Line>, &[u8]), ResumeFault>
    ensures gives { Gives (λ x. (x.0, x.1.now)) result (option_at (open_line_at most) bytes.now) }
    ensures found { IfOk result (λ x. (bytes.now ≡ option line_bytes x.0 ++ x.1.now) × ForSome x.0 (λ line. IsOpenLine most line)) }
{
    let (some, rest) = read_flag(bytes)?;
    if !some {
        return Ok((None, rest));
    }
    let (line, rest) = read_line(alloc, most, rest)?;
    Ok((Some(line), rest))
}

#[tactic(auto, unfolding(ix_coding::specs::Reading::option_at, ix_coding::specs::Spelling::option))]
fn read_open_event(
    alloc: Global,
    max_lines: u32,
    bytes: &[u8],
) -> Result<(Option<Whole>, &[u8]), ResumeFault>
    ensures gives { Gives (λ x. (x.0, x.1.now)) result (option_at (event_at max_lines) bytes.now) }
    ensures found { IfOk result (λ x. bytes.now ≡ option event_bytes x.0 ++ x.1.now) }
    ensures sized { IfOk result (λ x. ForSome x.0 (λ event. IsEvent event) × ForSome x.0 (λ event. IsSized max_lines event)) }
{
    let (some, rest) = read_flag(bytes)?;
    if !some {
        return Ok((None, rest));
    }
    let (event, rest) = read_event(alloc, max_lines, rest)?;
    Ok((Some(event), rest))
}

#[tactic(auto, unfolding(ix_coding::specs::Reading::option_at, ix_coding::specs::Spelling::option))]
fn read_latest(bytes: &[u8]) -> Result<(Option<i64>, &[u8]), ResumeFault>
    ensures gives { Gives (λ x. (x.0, x.1.now)) result (option_at time_at bytes.now) }
    ensures found { IfOk result (λ x. (bytes.now ≡ option signed x.0 ++ x.1.now) × ForSome x.0 (λ time. IsTime time)) }
{
    let (some, rest) = read_flag(bytes)?;
    if !some {
        return Ok((None, rest));
    }
    let (time, rest) = read_within(EARLIEST_TIME, LATEST_TIME, rest)?;
    Ok((Some(time), rest))
}

/// Reads the byte before the scan place, the pending bytes and the open line.
#[tactic(auto, unfolding(crate::specs::Reading::line_parts_at, crate::specs::Spelling::line_parts_bytes))]
fn read_lines(alloc: Global, most: usize, bytes: &[u8]) -> Result<(LineParts, &[u8]), ResumeFault>
    ensures gives { Gives (λ x. (x.0, x.1.now)) result (line_parts_at most bytes.now) }
    ensures found { IfOk result (λ x. bytes.now ≡ line_parts_bytes x.0 ++ x.1.now) }
    ensures form { IfOk result (λ x. AreRuns x.0.pending × ForSome x.0.line (λ line. IsOpenLine most line)) }
{
    let (before, rest) = read_before(bytes)?;
    let (pending, rest) = read_runs(alloc, rest)?;
    let (line, rest) = read_open_line(alloc, most, rest)?;
    let parts = LineParts {
        before,
        pending,
        line,
    };
    Ok((parts, rest))
}

/// Reads the open event and the two marks.
#[tactic(auto, unfolding(crate::specs::Reading::merge_parts_at, crate::specs::Spelling::merge_parts_bytes))]
fn read_merge(
    alloc: Global,
    rules: CarryRules,
    bytes: &[u8],
) -> Result<(MergeParts, &[u8]), ResumeFault>
    ensures gives { Gives (λ x. (x.0, x.1.now)) result (merge_parts_at rules.merging rules.max_lines bytes.now) }
    ensures found { IfOk result (λ x. bytes.now ≡ merge_parts_bytes x.0 ++ x.1.now) }
    ensures form { IfOk result (λ x. HasMergeForm rules.merging rules.max_lines x.0 × ForSome x.0.event (λ event. IsEvent event)) }
{
    let (event, rest) = read_open_event(alloc, rules.max_lines, bytes)?;
    let (held, rest) = read_flag(rest)?;
    let (forced, rest) = read_flag(rest)?;
    if !rules.merging && (event.is_some() || held || forced) {
        return Err(ResumeFault::BadCarry);
    }
    let parts = MergeParts {
        event,
        held,
        forced,
    };
    Ok((parts, rest))
}

/// How many bytes an open line has at the most: one more than the length at which lines are cut.
fn longest_line(truncate: u32) -> usize
    ensures { result ≡ effective truncate + 1 }
{
    if truncate == 0 || truncate > 1_048_576 {
        1_048_577
    } else {
        truncate as usize + 1
    }
}

/// Reads all parts.
#[tactic(auto, unfolding(crate::specs::Reading::carry_at, crate::specs::Spelling::spell))]
fn read_front(alloc: Global, rules: CarryRules, bytes: &[u8]) -> Result<(Carry, &[u8]), ResumeFault>
    ensures gives { Gives (λ x. (x.0, x.1.now)) result (carry_at rules bytes.now) }
    ensures found { IfOk result (λ x. bytes.now ≡ spell x.0 ++ x.1.now) }
    ensures form { IfOk result (λ x. HasForm rules x.0) }
{
    let (lines, rest) = read_lines(alloc, longest_line(rules.truncate), bytes)?;
    let (merge, rest) = read_merge(alloc, rules, rest)?;
    let (latest, rest) = read_latest(rest)?;
    let carry = Carry {
        lines,
        merge,
        latest,
    };
    Ok((carry, rest))
}

/// Reads the carry that the bytes are, under the settings of its channel. Its parts have the sizes
/// and bounds of a carry; whether they could come of one stream is not judged. It fails with
/// `BadCarry` exactly where the bytes are no carry, and with `NoMemory` where there is no room for
/// the copies of its strings.
pub fn read_carry(alloc: Global, rules: CarryRules, bytes: &[u8]) -> Result<Carry, ResumeFault>
    // The bytes are this carry.
    ensures found { IfOk result (λ carry. IsCarryOf rules bytes.now carry) }
    // They are none.
    ensures bad { result ≡ Err ResumeFault.BadCarry → (carry : Carry) → IsCarryOf rules bytes.now carry → ⊥ }
    // The carry that they are is the one that is read.
    ensures again { (carry : Carry) → IsCarryOf rules bytes.now carry → IfOk result (λ read. read ≡ carry) }
{
    let (carry, rest) = read_front(alloc, rules, bytes)?;
    if !rest.is_empty() {
        return Err(ResumeFault::BadCarry);
    }
    Ok(carry)
}
