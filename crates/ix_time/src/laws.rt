//! What the definitions of reading come to.

ghost use Rattle.ix_time.specs.Laws.{FirstOffsetReads};
ghost use Rattle.ix_time.specs.Window.{FirstMatchEnds};

/// A law about the definitions, and no code: without a format, the first offset of a window counts
/// at which one of the four formats reads.
pub fn first_offset_reads()
    ensures { FirstOffsetReads }
{}

/// A law about the definitions, and no code: the place behind a prefix is where its first match
/// ends.
pub fn first_match_ends()
    ensures { FirstMatchEnds }
{}
