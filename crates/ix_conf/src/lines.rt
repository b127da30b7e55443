//! Lines of a .conf text, as they stand there and joined.

ghost use Rattle.std.specs.Prelude.{◌≡◌, ◌+◌, ◌<◌, ◌≤◌, ◌^◌, ◌∷◌, ℕ, Bool, List, true, false, if◌then◌else◌, length, IfOk};
ghost use Rattle.std.specs.Option.{option_copied, unwrap_or};
ghost use Rattle.ix_conf.specs.Lines.{physical_lines, before_last, is_comment, joined, line_with, logical_lines, Line};
ghost use Rattle.ix_conf.specs.Grammar.{entries_of};
ghost use Rattle.ix_conf.specs.Reading.{lines_behind, size_behind};

use crate::cuts::{before_last, cut_at, is_comment};
use ix_base::{Bytes, NoMemory};

fn without_return(line: &[u8]) -> &[u8]
    ensures value { result.now ≡ unwrap_or (before_last 13 line.now) line.now }
    ensures len { length result.now ≤ length line.now }
{
    match before_last(line, b'\r') {
        Some(front) => front,
        None => line,
    }
}

/// The first line of a text without its end, and the text behind that end, where there is one.
fn first_line(text: &[u8]) -> (&[u8], Option<&[u8]>)
    ensures lines { physical_lines text.now ≡ result.0.now ∷ lines_behind (option_copied result.1) }
    ensures size { size_behind (option_copied result.1) ≤ length text.now }
{
    match cut_at(text, b'\n') {
        Some((line, rest)) => (without_return(line), Some(rest)),
        None => (text, None),
    }
}

/// Adds a physical line to the line that it goes on, and tells whether the next one goes on too.
fn add_piece(line: &mut Bytes, piece: &[u8]) -> Result<bool, NoMemory>
    ensures { IfOk result (λ on. (number at : ℕ) (others : Bool → List Line) →
        joined number line.old (line_with at piece.now others (before_last 92 piece.now))
        ≡ (if on then joined number line.new (others true) else record { number = number; text = line.new } ∷ others false)) }
{
    match before_last(piece, b'\\') {
        Some(front) => {
            line.extend(front)?;
            Ok(true)
        }
        None => {
            line.extend(piece)?;
            Ok(false)
        }
    }
}

/// Adds what goes on with a line at the front of a text. It tells how many physical lines that
/// took, and the text behind them.
fn join<'a>(line: &mut Bytes, text: &'a [u8]) -> Result<(u32, Option<&'a [u8]>), NoMemory>
    requires { length text.now < 2 ^ 31 }
    ensures joined { IfOk result (λ found. (number at : ℕ) →
        joined number line.old (logical_lines true at (physical_lines text.now))
        ≡ record { number = number; text = line.new } ∷ logical_lines false (at + found.0) (lines_behind (option_copied found.1))) }
    ensures size { IfOk result (λ found. size_behind (option_copied found.1) + found.0 ≤ length text.now + 1) }
    ensures progress { IfOk result (λ found. 0 < found.0) }
{
    let mut rest = text;
    let mut count = 0;
    loop {
        let (piece, behind) = first_line(rest);
        count += 1;
        let goes_on = add_piece(line, piece)?;
        match behind {
            Some(text) if goes_on => rest = text,
            _ => return Ok((count, behind)),
        }
    }
}

/// Reads the first line of a setting or stanza into `line`, which is left empty where a comment
/// stands there. It tells how many physical lines that took, and the text behind them.
pub fn read_line<'a>(line: &mut Bytes, text: &'a [u8]) -> Result<(u32, Option<&'a [u8]>), NoMemory>
    requires { length text.now < 2 ^ 31 }
    ensures entries { IfOk result (λ found. (stanza : List ℕ) (number : ℕ) →
        entries_of stanza (logical_lines false number (physical_lines text.now))
        ≡ entries_of stanza (record { number = number; text = line.new }
        ∷ logical_lines false (number + found.0) (lines_behind (option_copied found.1)))) }
    ensures size { IfOk result (λ found. size_behind (option_copied found.1) + found.0 ≤ length text.now + 1) }
    ensures progress { IfOk result (λ found. 0 < found.0) }
{
    line.clear();
    let (first, behind) = first_line(text);
    if is_comment(first) {
        return Ok((1, behind));
    }
    join(line, text)
}
