//! Reading a .conf text.

ghost use Rattle.std.specs.Prelude.{◌≡◌, ◌≤◌, ◌∷◌, List, false, length, IfOk, IfErr, codes};
ghost use Rattle.ix_conf.specs.Lines.{Line, physical_lines, logical_lines};
ghost use Rattle.ix_conf.specs.Grammar.{Gives, Refuses, pairs, behind, entries_of, said};

use crate::cuts::{before_last, cut_at, trimmed, without_mark};
use crate::entries::{ConfFault, ConfFile, Entry};
use crate::lines::read_line;
use ix_base::{Bytes, Sequence};
use std::alloc::Global;
use std::str;

/// The most bytes that a .conf text may have.
const MAX_TEXT: usize = 1_048_576;

/// The most bytes that a stanza's name may have.
const MAX_NAME: usize = 1_024;

/// What a line says.
#[derive(Clone, Copy)]
enum Meaning<'a> {
    Nothing,
    Opens(&'a [u8]),
    Sets(&'a [u8], &'a [u8]),
    BadStanza,
    NoEquals,
}

ghost use Rattle.ix_conf.specs.Reading.{meant};

fn meaning_of(line: &[u8]) -> Meaning<'_>
    ensures { meant result ≡ said line.now }
{
    let line = trimmed(line);
    if line.is_empty() {
        return Meaning::Nothing;
    }
    if line[0] == b'[' {
        return match before_last(&line[1..], b']') {
            Some(name) if !name.is_empty() && name.len() <= MAX_NAME => Meaning::Opens(name),
            _ => Meaning::BadStanza,
        };
    }
    match cut_at(line, b'=') {
        Some((key, value)) if !key.is_empty() => Meaning::Sets(trimmed(key), trimmed(value)),
        _ => Meaning::NoEquals,
    }
}

/// The entries so far, and the stanza that the next setting belongs to.
#[derive(Drop)]
struct Reader {
    entries: ConfFile,
    stanza: Bytes,
}

impl Reader {
    /// Adds what the line of this number says.
    fn add(&mut self, alloc: Global, number: u32, line: &[u8]) -> Result<(), ConfFault>
        ensures ok { IfOk result (λ _. (lines : List Line) →
            behind self.old.entries (entries_of self.old.stanza (record { number = number; text = line.now } ∷ lines))
            ≡ behind self.new.entries (entries_of self.new.stanza lines)) }
        ensures err { IfErr result (λ fault. (lines : List Line) →
            Refuses fault (behind self.old.entries (entries_of self.old.stanza (record { number = number; text = line.now } ∷ lines)))) }
    {
        match meaning_of(line) {
            Meaning::Nothing => Ok(()),
            Meaning::Opens(name) => {
                let entry = Entry::Stanza(Bytes::copy_of(alloc, name)?);
                self.stanza = Bytes::copy_of(alloc, name)?;
                self.entries.push(entry)?;
                Ok(())
            }
            Meaning::Sets(key, value) => {
                let key = Bytes::copy_of(alloc, key)?;
                let value = Bytes::copy_of(alloc, value)?;
                self.entries
                    .push(Entry::Pair(self.stanza.copy()?, key, value))?;
                Ok(())
            }
            Meaning::BadStanza => Err(ConfFault::BadStanza { line: number }),
            Meaning::NoEquals => Err(ConfFault::NoEquals { line: number }),
        }
    }
}

/// The entries of a text without a byte order mark.
fn read_text(alloc: Global, text: &[u8]) -> Result<ConfFile, ConfFault>
    requires { length text.now ≤ 1048576 }
    ensures { Gives result (entries_of (codes "default") (logical_lines false 1 (physical_lines text.now))) }
{
    let mut reader = Reader {
        entries: Sequence::new(alloc),
        stanza: Bytes::copy_of(alloc, b"default")?,
    };
    let mut line = Bytes::new(alloc);
    let mut number: u32 = 1;
    let mut ahead = Some(text);
    while let Some(text) = ahead {
        let (count, behind) = read_line(&mut line, text)?;
        reader.add(alloc, number, line.as_slice())?;
        number += count;
        ahead = behind;
    }
    let Reader { entries, stanza: _ } = reader;
    Ok(entries)
}

/// Reads a .conf text: the entries in the order in which they stand there.
///
/// The text is UTF-8, at most 1,048,576 bytes, with or without a byte order mark. Its lines are
/// `[name]`, which opens a stanza, and `key = value`; empty lines and lines that begin with `#` say
/// nothing; a line that ends with a backslash goes on in the next one. Settings before any stanza
/// belong to `default`.
///
/// `TooLong` comes exactly where the text has more bytes, then `NotUtf8` exactly where it is not
/// UTF-8, and then the fault of the first bad line. Want of memory may come at any time.
pub fn parse(alloc: Global, bytes: &[u8]) -> Result<ConfFile, ConfFault>
    ensures { Gives result (pairs bytes.now) }
{
    if bytes.len() > MAX_TEXT {
        return Err(ConfFault::TooLong);
    }
    match str::from_utf8(bytes) {
        Ok(_) => read_text(alloc, without_mark(bytes)),
        Err(fault) => Err(ConfFault::NotUtf8 {
            at: fault.valid_up_to() as u64,
        }),
    }
}
