//! The line that is open.

ghost use Rattle.std.specs.Prelude.{◌≡◌, ℕ, ◌+◌, ◌<◌, ◌≤◌, List, [], ◌∷◌, ◌++◌, ◌-◌, length, OnOk, OnErr, IfOk, None};
ghost use Rattle.std.specs.List.{All};
ghost use Rattle.ix_base.specs.Stream.{Dated};
ghost use Rattle.ix_lines.specs.Lines.{line_of, goes_on, step_back, cut, unless_empty, IsShort};
ghost use Rattle.ix_lines.specs.Kept.{Keeps, IsPart};
ghost use Rattle.ix_lines.specs.Carry.{open_line};

use crate::breaks::first_bytes;
use ix_base::{Bytes, Line, LineList, NoMemory};
use std::alloc::Global;

/// What is kept of the line that is open: as many of its first bytes as a cut needs.
#[derive(Drop)]
pub struct Kept {
    pub bytes: Bytes,
    /// The moment of its first byte, if there is one.
    pub moment: Option<i64>,
}

fn goes_on(b: u8) -> bool
    ensures { result ≡ goes_on b }
{
    b >= 0x80 && b <= 0xBF
}

/// How many bytes of a line that is too long are left.
fn cut_at(bytes: &[u8], truncate: usize) -> usize
    requires { truncate < length bytes.now }
    ensures { result ≡ truncate - step_back truncate bytes.now }
{
    if !goes_on(bytes[truncate]) {
        return truncate;
    }
    if truncate >= 1 && !goes_on(bytes[truncate - 1]) {
        return truncate - 1;
    }
    if truncate >= 2 && !goes_on(bytes[truncate - 2]) {
        return truncate - 2;
    }
    if truncate >= 3 && !goes_on(bytes[truncate - 3]) {
        return truncate - 3;
    }
    truncate
}

/// The bytes of a line, cut so that no character of UTF-8 is.
fn cut(bytes: &[u8], truncate: usize) -> &[u8]
    ensures is { result.now ≡ cut truncate bytes.now }
    ensures bound { length result.now ≤ truncate }
{
    if bytes.len() <= truncate {
        return bytes;
    }
    let n = cut_at(bytes, truncate);
    &bytes[..n]
}

/// Adds a line, unless nothing is left of it.
fn add_line(
    alloc: Global,
    truncate: usize,
    bytes: &[u8],
    moment: i64,
    out: &mut LineList,
) -> Result<(), NoMemory>
    requires { truncate ≤ 1048576 }
    ensures ok { OnOk result (out.new ≡ out.old ++ unless_empty (cut truncate bytes.now) moment) }
    ensures err { OnErr result (out.new ≡ out.old) }
    ensures short { All IsShort out.old → All IsShort out.new }
{
    let bytes = cut(bytes, truncate);
    if bytes.is_empty() {
        return Ok(());
    }
    let bytes = Bytes::copy_of(alloc, bytes)?;
    out.push(Line { bytes, moment })
}

impl Kept {
    /// Nothing is kept. It takes no memory.
    pub fn new(alloc: Global) -> Kept
        ensures bytes { result.bytes ≡ [] }
        ensures moment { result.moment ≡ None }
    {
        Kept {
            bytes: Bytes::new(alloc),
            moment: None,
        }
    }

    /// Keeps bytes that come next, the first of which has this moment.
    pub fn add(&mut self, truncate: usize, bytes: &[u8], moment: i64) -> Result<(), NoMemory>
        requires { truncate ≤ 1048576 }
        ensures { OnOk result ((stretch part : List Dated) → Keeps truncate stretch self.old → IsPart bytes.now moment part →
            Keeps truncate (stretch ++ part) self.new) }
    {
        if bytes.is_empty() {
            return Ok(());
        }
        self.moment = Some(self.moment.unwrap_or(moment));
        let room = (truncate + 1).saturating_sub(self.bytes.len());
        self.bytes.extend(first_bytes(bytes, room))
    }

    /// Adds the line, which ends with these bytes, and begins the next one.
    pub fn end_line(
        &mut self,
        alloc: Global,
        truncate: usize,
        bytes: &[u8],
        moment: i64,
        out: &mut LineList,
    ) -> Result<(), NoMemory>
        requires { truncate ≤ 1048576 }
        ensures ok { OnOk result ((stretch part : List Dated) → Keeps truncate stretch self.old → IsPart bytes.now moment part →
            Keeps truncate [] self.new × (out.new ≡ out.old ++ line_of truncate (stretch ++ part))) }
        ensures err { OnErr result (out.new ≡ out.old) }
        ensures short { All IsShort out.old → All IsShort out.new }
    {
        let Some(begun) = self.moment else {
            return add_line(alloc, truncate, bytes, moment, out);
        };
        self.add(truncate, bytes, moment)?;
        add_line(alloc, truncate, self.bytes.as_slice(), begun, out)?;
        self.bytes.clear();
        self.moment = None;
        Ok(())
    }

    /// What is kept, as a line; there is none where nothing is.
    pub fn line(&self) -> Result<Option<Line>, NoMemory>
        ensures { IfOk result (λ line. (t : ℕ) (stretch : List Dated) → Keeps t stretch self.now → line ≡ open_line t stretch) }
    {
        match self.moment {
            None => Ok(None),
            Some(moment) => {
                let bytes = self.bytes.copy()?;
                Ok(Some(Line { bytes, moment }))
            }
        }
    }

    /// The open line of which this is kept. It takes no memory.
    pub fn of_line(alloc: Global, line: Option<Line>) -> Kept
        ensures { (t : ℕ) (stretch : List Dated) → line ≡ open_line t stretch → Keeps t stretch result }
    {
        match line {
            None => Kept::new(alloc),
            Some(line) => Kept {
                bytes: line.bytes,
                moment: Some(line.moment),
            },
        }
    }

    /// A copy of it.
    pub fn copy(&self) -> Result<Kept, NoMemory>
        ensures { IfOk result (λ copy. copy ≡ self.now) }
    {
        Ok(Kept {
            bytes: self.bytes.copy()?,
            moment: self.moment,
        })
    }
}
