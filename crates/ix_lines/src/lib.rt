//! The lines of a stream of bytes, however it is cut into blocks.
#![tactic(auto)]

mod breaks;
mod byte_runs;
mod carry;
mod cutter;
mod kept;
mod moments;
mod newlines;
mod pending;
mod stream;

ghost use Rattle.std.specs.Prelude.{◌≡◌, ◌<◌};
ghost use Rattle.ix_pattern.specs.Piece.{IsSound, least_length};
ghost use Rattle.ix_pattern.specs.Rows.{Shape, tree};
ghost use Rattle.ix_lines.specs.Laws.{LinesStay, CarryDecides};
ghost use Rattle.ix_lines.specs.Breaks.{breaks_by};
ghost use Rattle.ix_lines.specs.Newlines.{newlines};

pub use carry::LineParts;
pub use ix_base::{Line, LineList};
pub use newlines::default_breaker;
pub use stream::Lines;

/// A law about the definitions, and no code: the lines that an open stream has settled are the
/// first lines of every stream that begins with it, open or closed; by a pattern whose matches take
/// a byte, and by runs of newlines.
pub fn lines_stay()
    ensures patterns { (p : Shape) → IsSound (tree p.rows) → 0 < least_length (tree p.rows) → LinesStay (breaks_by p) }
    ensures newlines { LinesStay newlines }
{}

/// A law about the definitions, and no code: what is carried of a stream decides what further bytes
/// come to. Behind two streams of which the same is carried, the same bytes settle the same lines,
/// open or closed, and then the same is carried again; by a pattern whose matches take a byte.
pub fn lines_follow_carry()
    ensures { (p : Shape) → IsSound (tree p.rows) → 0 < least_length (tree p.rows) → CarryDecides (breaks_by p) }
{}
