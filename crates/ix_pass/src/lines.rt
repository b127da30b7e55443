//! The lines of a pass.

ghost use Rattle.std.specs.Prelude.{◌≡◌, ◌++◌, decimal, OnOk};
ghost use Rattle.ix_watch.specs.Visits as defs;

use itoa::Buffer;
use ix_base::{Bytes, NoMemory};
use ix_monitor::Watched;
use ix_watch::Visited;

/// Adds a number.
fn push_number(text: &mut Bytes, number: u64) -> Result<(), NoMemory>
    ensures { OnOk result (text.new ≡ text.old ++ decimal number) }
{
    let mut buffer = Buffer::new();
    text.extend(buffer.format(number).as_bytes())
}

/// Adds the line of a file that was read.
fn push_read(
    text: &mut Bytes,
    path: &[u8],
    words: &[u8],
    from: u64,
    to: u64,
) -> Result<(), NoMemory>
    ensures { OnOk result (text.new ≡ text.old ++ defs.read_line path.now words.now from to) }
{
    text.extend(path)?;
    text.extend(words)?;
    push_number(text, from)?;
    text.extend(b" to ")?;
    push_number(text, to)?;
    text.extend(b"\n")
}

/// Adds a path, and words behind it.
fn push_words(text: &mut Bytes, path: &[u8], words: &[u8]) -> Result<(), NoMemory>
    ensures { OnOk result (text.new ≡ text.old ++ (path.now ++ words.now)) }
{
    text.extend(path)?;
    text.extend(words)
}

/// Adds the line of a file that was visited. One that is missing has a line where an input names
/// it.
pub(crate) fn push_line(text: &mut Bytes, file: &Watched, visited: Visited) -> Result<(), NoMemory>
    ensures { OnOk result (text.new ≡ text.old ++ defs.line file.now visited) }
{
    let path = file.path.as_slice();
    match visited {
        Visited::Missing => {
            if file.named {
                push_words(text, path, b" missing\n")?;
            }
            Ok(())
        }
        Visited::Skipped => push_words(text, path, b" skip\n"),
        Visited::ReadOn { from, to } => push_read(text, path, b" from ", from, to),
        Visited::ReadAgain { to } => push_read(text, path, b" again from ", 0, to),
    }
}
