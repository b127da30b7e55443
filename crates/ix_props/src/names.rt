//! Lists of names, as the values of `TRANSFORMS-` classes have them.

ghost use Rattle.std.specs.Prelude.{◌≡◌, ◌++◌, IfOk, OnOk};
ghost use Rattle.ix_props.specs.Names.{skip_spaces, trim_back, trimmed, name_in, names};

use ix_base::{Bytes, Names, NoMemory};
use std::alloc::Global;

/// Without the spaces in front.
fn skip_spaces(text: &[u8]) -> &[u8]
    ensures { result.now ≡ skip_spaces text.now }
{
    let mut rest = text;
    while !rest.is_empty() && rest[0] == b' ' {
        rest = &rest[1..];
    }
    rest
}

fn trim_back(text: &[u8]) -> &[u8]
    ensures { result.now ≡ trim_back text.now }
{
    let mut rest = text;
    while !rest.is_empty() && rest[rest.len() - 1] == b' ' {
        rest = &rest[..rest.len() - 1];
    }
    rest
}

/// Without the spaces at both ends.
fn trimmed(text: &[u8]) -> &[u8]
    ensures { result.now ≡ trimmed text.now }
{
    trim_back(skip_spaces(text))
}

/// Adds the name in a piece, where there is one.
fn add_name(alloc: Global, found: &mut Names, piece: &[u8]) -> Result<(), NoMemory>
    ensures { OnOk result (found.new ≡ found.old ++ name_in (trimmed piece.now)) }
{
    let name = trimmed(piece);
    if name.is_empty() {
        return Ok(());
    }
    found.push(Bytes::copy_of(alloc, name)?)
}

/// The names that stand between commas, without the spaces round them. Empty ones are passed over.
pub(crate) fn read_names(alloc: Global, text: &[u8]) -> Result<Names, NoMemory>
    ensures { IfOk result (λ found. found ≡ names text.now) }
{
    let mut found = Names::new(alloc);
    let mut piece = Bytes::new(alloc);
    for byte in text {
        if *byte == b',' {
            add_name(alloc, &mut found, piece.as_slice())?;
            piece.clear();
        } else {
            piece.push(*byte)?;
        }
    }
    add_name(alloc, &mut found, piece.as_slice())?;
    Ok(found)
}
