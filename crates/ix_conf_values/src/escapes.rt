//! Texts with escapes, and texts with the numbers of groups: what is written in place of a match.

ghost use Rattle.std.specs.Prelude.{◌≡◌, ◌+◌, ◌<◌, ◌∷◌, ◌++◌, [], List, ℕ, None, length, map, false, IfOk, OnOk};
ghost use Rattle.std.specs.Option.{option_map, option_and_then};
ghost use Rattle.ix_conf_values.specs.Escapes.{cut, escape, parts, plain_bytes, numbered};
ghost use Rattle.ix_conf_values.specs.declared.escapes.Part.TheVariants.{Byte as byte_part};

use ix_base::{Bytes, NoMemory, Sequence};
use std::alloc::Global;

/// One part of what is written in place of a match.
#[derive(Clone, Copy, Debug, PartialEq, Eq)]
pub enum Part {
    /// This byte.
    Byte(u8),
    /// What the group of this number took in. A group that took no part, or is not there, stands
    /// for nothing.
    Group(usize),
}

/// What is written in place of a match, part by part.
pub type PartList = Sequence<Part>;

/// What stands before the first `/` that no backslash escapes, and what stands behind it.
pub fn cut(text: &[u8]) -> Option<(&[u8], &[u8])>
    ensures { option_map (λ found. (found.0.now, found.1.now)) result ≡ cut false text.now }
{
    let mut escaped = false;
    for (at, byte) in text.iter().enumerate() {
        if !escaped & (*byte == b'/') {
            return Some((&text[..at], &text[at + 1..]));
        }
        escaped = !escaped & (*byte == b'\\');
    }
    None
}

/// What an escaped byte stands for.
fn escape(byte: u8) -> Option<Part>
    ensures { result ≡ escape byte }
{
    match byte {
        b'1'..=b'9' => Some(Part::Group((byte - b'0') as usize)),
        b'n' => Some(Part::Byte(b'\n')),
        b't' => Some(Part::Byte(b'\t')),
        _ if byte.is_ascii_alphanumeric() => None,
        _ => Some(Part::Byte(byte)),
    }
}

/// The parts of a text in which `\1` to `\9` stand for groups, `\n` for a newline, `\t` for a tab,
/// and a backslash and a byte that is no letter or digit for that byte. `None` where another escape
/// stands there.
pub fn read_parts(alloc: Global, text: &[u8]) -> Result<Option<PartList>, NoMemory>
    ensures { IfOk result (λ found. found ≡ parts false text.now) }
{
    let mut found = Sequence::new(alloc);
    let mut escaped = false;
    for byte in text {
        if escaped {
            let Some(part) = escape(*byte) else {
                return Ok(None);
            };
            found.push(part)?;
            escaped = false;
        } else if *byte == b'\\' {
            escaped = true;
        } else {
            found.push(Part::Byte(*byte))?;
        }
    }
    if escaped {
        return Ok(None);
    }
    Ok(Some(found))
}

/// The bytes of parts; `None` where there is a group among them.
pub fn plain_bytes(alloc: Global, parts: &[Part]) -> Result<Option<Bytes>, NoMemory>
    ensures { IfOk result (λ found. found ≡ plain_bytes parts.now) }
{
    let mut bytes = Bytes::new(alloc);
    for part in parts {
        match part {
            Part::Byte(byte) => bytes.push(*byte)?,
            Part::Group(_) => return Ok(None),
        }
    }
    Ok(Some(bytes))
}

/// The first part of a text with numbers of groups, and what stands behind it.
fn first_numbered(text: &[u8]) -> (Part, &[u8])
    requires { 0 < length text.now }
    ensures parts { numbered text.now ≡ result.0 ∷ numbered result.1.now }
    ensures progress { length result.1.now < length text.now }
{
    match text {
        [b'$', c, d, rest @ ..] if c.is_ascii_digit() && d.is_ascii_digit() => {
            let number = (*c - b'0') * 10 + (*d - b'0');
            (Part::Group(number as usize), rest)
        }
        [b'$', c, rest @ ..] if c.is_ascii_digit() => (Part::Group((*c - b'0') as usize), rest),
        _ => (Part::Byte(text[0]), &text[1..]),
    }
}

/// Adds the parts of a text in which `$` and one or two digits stand for a group, `$0` for group 0;
/// any other `$` stands for itself.
pub fn add_numbered(found: &mut PartList, text: &[u8]) -> Result<(), NoMemory>
    ensures { OnOk result (found.new ≡ found.old ++ numbered text.now) }
{
    let mut rest = text;
    while !rest.is_empty() {
        let (part, behind) = first_numbered(rest);
        found.push(part)?;
        rest = behind;
    }
    Ok(())
}

/// Adds each byte as a part.
pub fn add_bytes(found: &mut PartList, bytes: &[u8]) -> Result<(), NoMemory>
    ensures { OnOk result (found.new ≡ found.old ++ map (λ b. byte_part b) bytes.now) }
{
    for byte in bytes {
        found.push(Part::Byte(*byte))?;
    }
    Ok(())
}

/// A copy of parts.
pub fn copy_parts(alloc: Global, parts: &[Part]) -> Result<PartList, NoMemory>
    ensures { IfOk result (λ copy. copy ≡ parts.now) }
{
    let parts = parts.to_vec(alloc)?;
    Ok(Sequence::from_vec(parts))
}
