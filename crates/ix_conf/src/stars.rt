//! Names with `*`. `ix_files` holds the names in a folder against the path of an input.

ghost use Rattle.std.specs.Prelude.{◌≡◌, ◌+◌, List, length, IfOk};
ghost use Rattle.ix_conf.specs.Stars as defs;
ghost use Rattle.ix_conf.specs.Stars.{star_then};
ghost use Rattle.ix_conf.specs.Walk.{Ask, Marks, is_end};

use crate::names::{ask_byte, ask_bytes, no_marks};
use ix_base::NoMemory;
use std::alloc::Global;

/// Asks for what a byte of a pattern fits before what was asked at each place.
fn ask_one(marks: &mut [bool], name: &[u8], byte: u8)
    requires { length marks.old ≡ length name.now + 1 }
    ensures { (ask : Ask) → Marks name.now ask marks.old → Marks name.now (star_then byte ask) marks.new }
{
    if byte == b'*' {
        ask_bytes(marks, name, false);
    } else {
        ask_byte(marks, name, false, byte);
    }
}

/// At each place of a name whether it is the end.
fn end_marks(alloc: Global, name: &[u8]) -> Result<Vec<bool>, NoMemory>
    ensures { IfOk result (λ marks. Marks name.now is_end marks.items) }
{
    let mut marks = no_marks(alloc, name.len())?;
    marks.push(true)?;
    Ok(marks)
}

/// Asks for what a pattern fits.
fn ask_all(marks: &mut [bool], pattern: &[u8], name: &[u8])
    requires long { length marks.old ≡ length name.now + 1 }
    requires end { Marks name.now is_end marks.old }
    ensures { Marks name.now (defs.fits_stars pattern.now) marks.new }
{
    let mut at = pattern.len();
    while at > 0 {
        at -= 1;
        ask_one(marks, name, pattern[at]);
    }
}

/// Whether a name fits a pattern in which `*` fits any bytes but `/`, and every other byte itself.
pub fn fits_stars(alloc: Global, pattern: &[u8], name: &[u8]) -> Result<bool, NoMemory>
    ensures { IfOk result (λ fits. fits ≡ defs.fits_stars pattern.now name.now) }
{
    let mut marks = end_marks(alloc, name)?;
    ask_all(&mut marks, pattern, name);
    Ok(marks[0])
}
