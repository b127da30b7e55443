//! Fields at the front of bytes: each reader gives the value and the bytes after it, and takes no
//! memory.

ghost use Rattle.std.specs.Prelude.{◌≡◌, ◌++◌, IfOk, option_map};
ghost use Rattle.std.specs.Option.{option_copied};
ghost use Rattle.ix_coding.specs.Spelling.{byte, four, eight, signed, flag, string, option, IsShort, IsShortOption};
ghost use Rattle.ix_coding.specs.Reading.{Gives, byte_at, four_at, eight_at, signed_at, flag_at, string_at, option_at};

use thiserror::Error;

/// No prefix of the bytes is a spelling of such a field.
#[derive(Clone, Copy, Debug, PartialEq, Eq, Error)]
#[error("the bytes are no such field")]
pub struct BadField;

/// Reads one byte. It fails where there is none.
#[tactic(auto, unfolding(crate::specs::Reading::byte_at, crate::specs::Spelling::byte))]
pub fn read_byte(bytes: &[u8]) -> Result<(u8, &[u8]), BadField>
    ensures gives { Gives (λ x. (x.0, x.1.now)) result (byte_at bytes.now) }
    ensures found { IfOk result (λ x. bytes.now ≡ byte x.0 ++ x.1.now) }
{
    match bytes {
        [] => Err(BadField),
        [byte, rest @ ..] => Ok((*byte, rest)),
    }
}

/// Reads a number of four bytes, the highest first. It fails where there are fewer.
#[tactic(auto, unfolding(crate::specs::Reading::four_at))]
pub fn read_u32(bytes: &[u8]) -> Result<(u32, &[u8]), BadField>
    ensures gives { Gives (λ x. (x.0, x.1.now)) result (four_at bytes.now) }
    ensures found { IfOk result (λ x. bytes.now ≡ four x.0 ++ x.1.now) }
{
    if bytes.len() < 4 {
        return Err(BadField);
    }
    let (front, rest) = bytes.split_at(4);
    let number = u32::from_be_bytes([front[0], front[1], front[2], front[3]]);
    Ok((number, rest))
}

/// Reads a number of eight bytes, the highest first. It fails where there are fewer.
#[tactic(auto, unfolding(crate::specs::Reading::eight_at))]
pub fn read_u64(bytes: &[u8]) -> Result<(u64, &[u8]), BadField>
    ensures gives { Gives (λ x. (x.0, x.1.now)) result (eight_at bytes.now) }
    ensures found { IfOk result (λ x. bytes.now ≡ eight x.0 ++ x.1.now) }
{
    if bytes.len() < 8 {
        return Err(BadField);
    }
    let (front, rest) = bytes.split_at(8);
    let number = u64::from_be_bytes([
        front[0], front[1], front[2], front[3], front[4], front[5], front[6], front[7],
    ]);
    Ok((number, rest))
}

/// Reads a signed number of eight bytes in two's complement, the highest first. It fails where
/// there are fewer.
#[tactic(auto, unfolding(crate::specs::Reading::signed_at, crate::specs::Reading::eight_at, crate::specs::Spelling::signed, crate::specs::Spelling::eight))]
pub fn read_i64(bytes: &[u8]) -> Result<(i64, &[u8]), BadField>
    ensures gives { Gives (λ x. (x.0, x.1.now)) result (signed_at bytes.now) }
    ensures found { IfOk result (λ x. bytes.now ≡ signed x.0 ++ x.1.now) }
{
    let (number, rest) = read_u64(bytes)?;
    Ok((number.cast_signed(), rest))
}

/// Reads a byte 0 or 1. It fails where another stands there, or none.
#[tactic(auto, unfolding(crate::specs::Reading::flag_at, crate::specs::Spelling::flag))]
pub fn read_flag(bytes: &[u8]) -> Result<(bool, &[u8]), BadField>
    ensures gives { Gives (λ x. (x.0, x.1.now)) result (flag_at bytes.now) }
    ensures found { IfOk result (λ x. bytes.now ≡ flag x.0 ++ x.1.now) }
{
    let (byte, rest) = read_byte(bytes)?;
    match byte {
        0 => Ok((false, rest)),
        1 => Ok((true, rest)),
        _ => Err(BadField),
    }
}

/// Reads a string behind its length in four bytes, lent. It fails where fewer bytes stand there
/// than the length says.
#[tactic(auto, unfolding(crate::specs::Reading::string_at, crate::specs::Spelling::string))]
pub fn read_string(bytes: &[u8]) -> Result<(&[u8], &[u8]), BadField>
    ensures gives { Gives (λ x. (x.0.now, x.1.now)) result (string_at bytes.now) }
    ensures found { IfOk result (λ x. (bytes.now ≡ string x.0.now ++ x.1.now) × IsShort x.0.now) }
{
    let (len, rest) = read_u32(bytes)?;
    let len = len as usize;
    if rest.len() < len {
        return Err(BadField);
    }
    Ok(rest.split_at(len))
}

/// Reads a string behind a byte 1, or none behind a byte 0. It fails where no such byte stands
/// there, or no string behind a 1.
#[tactic(auto, unfolding(crate::specs::Reading::option_at, crate::specs::Spelling::option))]
pub fn read_option(bytes: &[u8]) -> Result<(Option<&[u8]>, &[u8]), BadField>
    ensures gives { Gives (λ x. (option_map (λ text. text.now) x.0, x.1.now)) result (option_at string_at bytes.now) }
    ensures found { IfOk result (λ x. bytes.now ≡ option string (option_map (λ text. text.now) x.0) ++ x.1.now) }
    ensures short { IfOk result (λ x. IsShortOption (option_map (λ text. text.now) x.0)) }
{
    let (some, rest) = read_flag(bytes)?;
    if !some {
        return Ok((None, rest));
    }
    let (text, rest) = read_string(rest)?;
    Ok((Some(text), rest))
}
