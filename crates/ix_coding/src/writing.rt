//! Fields, put behind what stands in a list of bytes. Where there is no room, a part of the field
//! may stand there: who puts several fields takes all of them back by one `truncate`.

ghost use Rattle.std.specs.Prelude.{◌≡◌, ◌<◌, ◌^◌, ◌++◌, length, OnOk};
ghost use Rattle.ix_coding.specs.Spelling.{byte, four, eight, signed, flag, string, option, IsShort, IsShortOption};
ghost use Rattle.ix_coding.specs.Writing.{Extends};

use ix_base::{Bytes, NoMemory};

/// Puts one byte.
#[tactic(auto, unfolding(crate::specs::Spelling::byte), using(crate::proofs::Extending::extends_either))]
pub fn put_byte(number: u8, out: &mut Bytes) -> Result<(), NoMemory>
    ensures ok { OnOk result (out.new ≡ out.old ++ byte number) }
    ensures begun { Extends out.old out.new }
{
    out.push(number)
}

/// Puts a number of four bytes, the highest first.
#[tactic(auto, unfolding(crate::specs::Spelling::four), using(crate::proofs::Extending::extends_either))]
pub fn put_u32(number: u32, out: &mut Bytes) -> Result<(), NoMemory>
    ensures ok { OnOk result (out.new ≡ out.old ++ four number) }
    ensures begun { Extends out.old out.new }
{
    out.extend(&number.to_be_bytes())
}

/// Puts a number of eight bytes, the highest first.
#[tactic(auto, unfolding(crate::specs::Spelling::eight), using(crate::proofs::Extending::extends_either))]
pub fn put_u64(number: u64, out: &mut Bytes) -> Result<(), NoMemory>
    ensures ok { OnOk result (out.new ≡ out.old ++ eight number) }
    ensures begun { Extends out.old out.new }
{
    out.extend(&number.to_be_bytes())
}

/// Puts a signed number of eight bytes in two's complement, the highest first.
#[tactic(auto, unfolding(crate::specs::Spelling::signed), using(crate::proofs::Extending::extends_either))]
pub fn put_i64(number: i64, out: &mut Bytes) -> Result<(), NoMemory>
    ensures ok { OnOk result (out.new ≡ out.old ++ signed number) }
    ensures begun { Extends out.old out.new }
{
    out.extend(&number.to_be_bytes())
}

/// Puts a byte 1 where it is set, else a byte 0.
#[tactic(auto, unfolding(crate::specs::Spelling::flag))]
pub fn put_flag(set: bool, out: &mut Bytes) -> Result<(), NoMemory>
    ensures ok { OnOk result (out.new ≡ out.old ++ flag set) }
    ensures begun { Extends out.old out.new }
{
    put_byte(if set { 1 } else { 0 }, out)
}

/// Puts the length of a string in four bytes, and its bytes.
#[tactic(auto, unfolding(crate::specs::Spelling::string))]
pub fn put_string(text: &[u8], out: &mut Bytes) -> Result<(), NoMemory>
    requires { IsShort text.now }
    ensures ok { OnOk result (out.new ≡ out.old ++ string text.now) }
    ensures begun { Extends out.old out.new }
{
    put_u32(text.len() as u32, out)?;
    out.extend(text)?;
    Ok(())
}

/// Puts a byte 1 and the string, or a byte 0 where there is none.
#[tactic(auto, unfolding(crate::specs::Spelling::option))]
pub fn put_option(text: &Option<Bytes>, out: &mut Bytes) -> Result<(), NoMemory>
    requires { IsShortOption text.now }
    ensures ok { OnOk result (out.new ≡ out.old ++ option string text.now) }
    ensures begun { Extends out.old out.new }
{
    match text {
        None => put_flag(false, out),
        Some(text) => {
            put_flag(true, out)?;
            put_string(text.as_slice(), out)?;
            Ok(())
        }
    }
}
