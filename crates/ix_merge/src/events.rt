//! What a line was found to match, and the events that lines make.

ghost use Rattle.std.specs.Prelude.{◌≡◌, ℕ, ◌+◌, ◌<◌, ◌^◌, ◌∷◌, [], OnOk, IfOk};
ghost use Rattle.ix_merge.specs.Events.{event_of};
ghost use Rattle.ix_merge.specs.Place.{fits, joined, placed};

use ix_base::{Bytes, Line, NoMemory};
use std::alloc::Global;

/// What a line was found to match.
#[derive(Clone, Copy, Debug, PartialEq, Eq)]
pub struct Marks {
    /// It is wanted as the first line of an event.
    pub wanted: bool,
    /// It is not to be the first line of an event, though it is wanted as one.
    pub vetoed: bool,
    /// The next line starts an event, whatever it is.
    pub forces: bool,
    /// No line behind it starts an event because it is wanted, until one forces a break.
    pub holds: bool,
}

/// An event as its lines make it.
#[derive(Drop)]
pub struct Whole {
    /// Its lines with a newline byte between each two, at most 4,194,304 bytes.
    pub raw: Bytes,
    /// The moment of its first line, in microseconds since 1970-01-01T00:00:00Z.
    pub moment: i64,
    /// How many lines it has, at least 1.
    pub lines: u32,
}

/// The most bytes that an event has.
const MOST_BYTES: usize = 4_194_304;

impl Whole {
    /// The event of one line, whose bytes it takes over.
    pub(crate) fn of_line(line: Line) -> Whole
        ensures { result ≡ event_of (line ∷ []) }
    {
        Whole {
            raw: line.bytes,
            moment: line.moment,
            lines: 1,
        }
    }

    /// Whether it may have this line too.
    fn has_room(&self, max_lines: u32, line: &Line) -> bool
        ensures { result ≡ fits max_lines self.now line.now }
    {
        self.lines < max_lines && line.bytes.len() < MOST_BYTES.saturating_sub(self.raw.len())
    }

    /// Adds a line behind the others.
    fn join(&mut self, line: &Line) -> Result<(), NoMemory>
        requires { self.old.lines + 1 < 2 ^ 32 }
        ensures { OnOk result (self.new ≡ joined self.old line.now) }
    {
        self.raw.push(b'\n')?;
        self.raw.extend(line.bytes.as_slice())?;
        self.lines += 1;
        Ok(())
    }

    /// A copy of it.
    pub(crate) fn copy(&self, alloc: Global) -> Result<Whole, NoMemory>
        ensures { IfOk result (λ copy. copy ≡ self.now) }
    {
        Ok(Whole {
            raw: Bytes::copy_of(alloc, self.raw.as_slice())?,
            moment: self.moment,
            lines: self.lines,
        })
    }
}

/// Adds the line to the open event, or begins the next event with it and answers the one that it
/// ends.
pub fn place(
    event: &mut Option<Whole>,
    begins: bool,
    max_lines: u32,
    line: Line,
) -> Result<Option<Whole>, NoMemory>
    ensures { IfOk result (λ ended. placed max_lines begins event.old line ≡ (event.new, ended)) }
{
    if let Some(open) = event
        && !begins
        && open.has_room(max_lines, &line)
    {
        open.join(&line)?;
        return Ok(None);
    }
    Ok(event.replace(Whole::of_line(line)))
}
