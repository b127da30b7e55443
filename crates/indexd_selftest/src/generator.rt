//! What a selftest sends: lines, cut into blocks of lengths that a generator gives. `sending` sends
//! them.

ghost use Rattle.std.specs.Prelude.{◌≡◌, ◌≤◌, ◌<◌, ◌++◌, ◌⊎◌, [], length, take, drop, None, Ok, IfOk, IfSome, OnOk};
ghost use Rattle.indexd_selftest.specs.Lines as lines;
ghost use Rattle.indexd_selftest.specs.Blocks as blocks;

use ix_base::{Bytes, NoMemory};
use std::alloc::Global;

/// The digit of a number at the place of this worth.
pub(crate) fn digit(worth: u64, number: u64) -> u8
    requires { 0 < worth }
    ensures { result ≡ lines.digit worth number }
{
    b'0' + (number / worth % 10) as u8
}

/// Adds two digits.
fn add_two(text: &mut Bytes, number: u64) -> Result<(), NoMemory>
    ensures { OnOk result (text.new ≡ text.old ++ lines.two number) }
{
    text.extend(&[digit(10, number), digit(1, number)])
}

/// Adds seven digits.
fn add_seven(text: &mut Bytes, number: u64) -> Result<(), NoMemory>
    ensures { OnOk result (text.new ≡ text.old ++ lines.seven number) }
{
    text.extend(&[
        digit(1_000_000, number),
        digit(100_000, number),
        digit(10_000, number),
        digit(1_000, number),
        digit(100, number),
        digit(10, number),
        digit(1, number),
    ])
}

/// Adds a time of day.
fn add_clock(text: &mut Bytes, second: u64) -> Result<(), NoMemory>
    ensures { OnOk result (text.new ≡ text.old ++ lines.clock second) }
{
    add_two(text, second / 3600)?;
    text.extend(b":")?;
    add_two(text, second / 60 % 60)?;
    text.extend(b":")?;
    add_two(text, second % 60)
}

/// Adds the line with this number.
fn add_line(text: &mut Bytes, number: u64) -> Result<(), NoMemory>
    ensures { OnOk result (text.new ≡ text.old ++ lines.line number) }
{
    text.extend(b"2023-11-14 ")?;
    add_clock(text, number % 86_400)?;
    text.extend(b" n=")?;
    add_seven(text, number)?;
    text.extend(b"\n")?;
    Ok(())
}

/// The lines that are still to be sent, and what cuts them into blocks.
#[derive(Drop)]
pub(crate) struct Generator {
    /// The last number of the generator.
    x: u64,
    /// The number of the next line that is laid out, and of the one at which they end.
    next: u64,
    end: u64,
    /// What was laid out and not taken.
    ahead: Bytes,
}

impl Generator {
    /// So many lines, cut as this seed has it.
    pub(crate) fn new(alloc: Global, seed: u64, count: u64) -> Self
        ensures seed { result.x ≡ seed }
        ensures left { blocks.left result ≡ lines.stream count }
    {
        Generator {
            x: seed,
            next: 0,
            end: count,
            ahead: Bytes::new(alloc),
        }
    }

    /// Lays out lines, until so many bytes are there or no line is to come.
    fn lay_out(&mut self, wanted: usize) -> Result<(), NoMemory>
        ensures left { OnOk result (blocks.left self.new ≡ blocks.left self.old) }
        ensures enough { OnOk result ((wanted ≤ length self.new.ahead) ⊎ (self.new.end ≤ self.new.next)) }
        ensures x { self.new.x ≡ self.old.x }
    {
        while self.next < self.end {
            if self.ahead.len() >= wanted {
                return Ok(());
            }
            add_line(&mut self.ahead, self.next)?;
            self.next += 1;
        }
        Ok(())
    }

    /// The next number of the generator.
    fn number(&self) -> u64
        ensures { result ≡ blocks.next self.now.x }
    {
        self.x
            .wrapping_mul(6_364_136_223_846_793_005)
            .wrapping_add(1_442_695_040_888_963_407)
    }

    /// Takes so many bytes of what was laid out, or all of it.
    fn take(&mut self, alloc: Global, size: usize) -> Result<Bytes, NoMemory>
        ensures taken { IfOk result (λ block. block ≡ take size self.old.ahead) }
        ensures ahead { OnOk result (self.new.ahead ≡ drop size self.old.ahead) }
        ensures next { self.new.next ≡ self.old.next }
        ensures end { self.new.end ≡ self.old.end }
        ensures x { self.new.x ≡ self.old.x }
    {
        let ahead = self.ahead.as_slice();
        let size = size.min(ahead.len());
        let block = Bytes::copy_of(alloc, &ahead[..size])?;
        let rest = Bytes::copy_of(alloc, &ahead[size..])?;
        self.ahead = rest;
        Ok(block)
    }

    /// Cuts off the next block; `None` where nothing is left.
    pub(crate) fn next_block(&mut self, alloc: Global) -> Result<Option<Bytes>, NoMemory>
        ensures none { result ≡ Ok None → blocks.left self.old ≡ [] }
        ensures block { IfOk result (λ found. IfSome found (λ block. blocks.IsCutOff self.old self.new block)) }
    {
        let x = self.number();
        let size = 1 + ((x >> 33) % 4096) as usize;
        self.lay_out(size)?;
        if self.ahead.is_empty() {
            return Ok(None);
        }
        let block = self.take(alloc, size)?;
        self.x = x;
        Ok(Some(block))
    }
}
