//! What is carried of a stream over a stop.

ghost use Rattle.std.specs.Prelude.{◌≡◌, ◌++◌, length, OnOk, IfOk};
ghost use Rattle.std.specs.List.{zip};
ghost use Rattle.ix_lines.specs.Carry.{runs_of};
ghost use Rattle.ix_lines.specs.Lines.{unless_empty};
ghost use Rattle.ix_lines.specs.Moments.{moments_of};

use crate::moments::Run;
use ix_base::{Bytes, Line, LineList, NoMemory};
use std::alloc::Global;

/// What is to be carried of a stream, to go on with it later.
#[derive(Drop)]
pub struct LineParts {
    /// The byte before the place from which on breaks are still to be found. There is none at the
    /// stream's start.
    pub before: Option<u8>,
    /// The bytes from there on, at most 16,383, as runs that have one moment each; neighbouring
    /// runs have different ones.
    pub pending: LineList,
    /// The first bytes of the line that is open there, one more than a line may have at the most,
    /// with the moment of the first one. There is none where the line has no byte.
    pub line: Option<Line>,
}

/// The bytes as the longest runs that have one moment. The moments may have neighbouring runs of
/// equal ones, and empty ones.
pub fn runs_of(alloc: Global, bytes: &[u8], moments: &[Run]) -> Result<LineList, NoMemory>
    requires { length bytes.now ≡ length (moments_of moments.now) }
    ensures { IfOk result (λ runs. runs ≡ runs_of (zip bytes.now (moments_of moments.now))) }
{
    let mut runs = LineList::new(alloc);
    let mut rest = bytes;
    let mut open = Run {
        count: 0,
        moment: 0,
    };
    for part in moments {
        if part.count > 0 && part.moment != open.moment {
            add_run(alloc, &rest[..open.count], open.moment, &mut runs)?;
            rest = &rest[open.count..];
            open = *part;
        } else {
            open.count += part.count;
        }
    }
    add_run(alloc, &rest[..open.count], open.moment, &mut runs)?;
    Ok(runs)
}

/// Adds bytes as a run, if there are any.
fn add_run(alloc: Global, bytes: &[u8], moment: i64, runs: &mut LineList) -> Result<(), NoMemory>
    ensures { OnOk result (runs.new ≡ runs.old ++ unless_empty bytes.now moment) }
{
    if bytes.is_empty() {
        return Ok(());
    }
    let bytes = Bytes::copy_of(alloc, bytes)?;
    runs.push(Line { bytes, moment })
}
