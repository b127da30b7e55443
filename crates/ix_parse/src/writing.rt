//! Writing a carry.

ghost use Rattle.std.specs.Prelude.{◌≡◌, ◌++◌, List, OnOk, IfOk};
ghost use Rattle.ix_coding.specs.Spelling.{byte, four, signed, string, option};
ghost use Rattle.ix_parse.specs.Spelling.{line_bytes, runs_bytes, event_bytes, line_parts_bytes, merge_parts_bytes, spell};

use crate::carry::Carry;
use ix_base::{Bytes, Line, LineList, NoMemory};
use ix_coding::{put_byte, put_flag, put_i64, put_u32};
use ix_lines::LineParts;
use ix_merge::{MergeParts, Whole};
use std::alloc::Global;

/// Puts the low four bytes of a length, the highest first.
#[tactic(auto, unfolding(ix_coding::specs::Spelling::four))]
fn put_length(len: usize, out: &mut Bytes) -> Result<(), NoMemory>
    ensures { OnOk result (out.new ≡ out.old ++ four len) }
{
    out.extend(&len.to_be_bytes()[4..])
}

/// Puts the length of a string, and its bytes.
#[tactic(auto, unfolding(ix_coding::specs::Spelling::string))]
fn put_text(text: &[u8], out: &mut Bytes) -> Result<(), NoMemory>
    ensures { OnOk result (out.new ≡ out.old ++ string text.now) }
{
    put_length(text.len(), out)?;
    out.extend(text)?;
    Ok(())
}

#[tactic(auto, unfolding(crate::specs::Spelling::line_bytes))]
fn put_line(line: &Line, out: &mut Bytes) -> Result<(), NoMemory>
    ensures { OnOk result (out.new ≡ out.old ++ line_bytes line.now) }
{
    put_i64(line.moment, out)?;
    put_text(line.bytes.as_slice(), out)?;
    Ok(())
}

#[tactic(auto, unfolding(crate::specs::Spelling::runs_bytes))]
fn put_runs(list: &LineList, out: &mut Bytes) -> Result<(), NoMemory>
    ensures { OnOk result (out.new ≡ out.old ++ runs_bytes list.now) }
{
    put_length(list.len(), out)?;
    let runs = list.as_slice();
    for run in runs {
        put_line(run, out)?;
    }
    Ok(())
}

#[tactic(auto, unfolding(crate::specs::Spelling::event_bytes))]
fn put_event(event: &Whole, out: &mut Bytes) -> Result<(), NoMemory>
    ensures { OnOk result (out.new ≡ out.old ++ event_bytes event.now) }
{
    put_i64(event.moment, out)?;
    put_u32(event.lines, out)?;
    put_text(event.raw.as_slice(), out)?;
    Ok(())
}

#[tactic(auto, unfolding(ix_coding::specs::Spelling::option))]
fn put_before(before: Option<u8>, out: &mut Bytes) -> Result<(), NoMemory>
    ensures { OnOk result (out.new ≡ out.old ++ option byte before) }
{
    put_flag(before.is_some(), out)?;
    if let Some(byte) = before {
        put_byte(byte, out)?;
    }
    Ok(())
}

#[tactic(auto, unfolding(ix_coding::specs::Spelling::option))]
fn put_open_line(line: &Option<Line>, out: &mut Bytes) -> Result<(), NoMemory>
    ensures { OnOk result (out.new ≡ out.old ++ option line_bytes line.now) }
{
    match line {
        None => put_flag(false, out),
        Some(line) => {
            put_flag(true, out)?;
            put_line(line, out)?;
            Ok(())
        }
    }
}

#[tactic(auto, unfolding(ix_coding::specs::Spelling::option))]
fn put_open_event(event: &Option<Whole>, out: &mut Bytes) -> Result<(), NoMemory>
    ensures { OnOk result (out.new ≡ out.old ++ option event_bytes event.now) }
{
    match event {
        None => put_flag(false, out),
        Some(event) => {
            put_flag(true, out)?;
            put_event(event, out)?;
            Ok(())
        }
    }
}

#[tactic(auto, unfolding(ix_coding::specs::Spelling::option))]
fn put_latest(latest: Option<i64>, out: &mut Bytes) -> Result<(), NoMemory>
    ensures { OnOk result (out.new ≡ out.old ++ option signed latest) }
{
    match latest {
        None => put_flag(false, out),
        Some(time) => {
            put_flag(true, out)?;
            put_i64(time, out)?;
            Ok(())
        }
    }
}

#[tactic(auto, unfolding(crate::specs::Spelling::line_parts_bytes))]
fn put_lines(parts: &LineParts, out: &mut Bytes) -> Result<(), NoMemory>
    ensures { OnOk result (out.new ≡ out.old ++ line_parts_bytes parts.now) }
{
    put_before(parts.before, out)?;
    put_runs(&parts.pending, out)?;
    put_open_line(&parts.line, out)?;
    Ok(())
}

#[tactic(auto, unfolding(crate::specs::Spelling::merge_parts_bytes))]
fn put_merge(parts: &MergeParts, out: &mut Bytes) -> Result<(), NoMemory>
    ensures { OnOk result (out.new ≡ out.old ++ merge_parts_bytes parts.now) }
{
    put_open_event(&parts.event, out)?;
    put_flag(parts.held, out)?;
    put_flag(parts.forced, out)?;
    Ok(())
}

impl Carry {
    /// The bytes of the carry. `NoMemory` comes where there is no room for them.
    ///
    /// Of a length of 2^32 or more the low four bytes are written. The parts of a channel have
    /// none: their strings have at most 4,194,304 bytes.
    #[tactic(auto, unfolding(crate::specs::Spelling::spell))]
    pub fn write(&self, alloc: Global) -> Result<Bytes, NoMemory>
        ensures { IfOk result (λ bytes. bytes ≡ spell self.now) }
    {
        let mut out = Bytes::new(alloc);
        put_lines(&self.lines, &mut out)?;
        put_merge(&self.merge, &mut out)?;
        put_latest(self.latest, &mut out)?;
        Ok(out)
    }
}
