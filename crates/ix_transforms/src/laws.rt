//! A law of the definitions, for whoever reads or builds on them. No code calls it.

ghost use Rattle.ix_transforms.specs.Laws.{MatchesAreInTurn};

/// The list of the matches of a pattern, as substitutions and transforms take them, is what a
/// search finds: each match is the first one that begins where the search has come to, which is the
/// end of the match before it, or behind the byte at which an empty one stands; and from where the
/// search comes to behind the last one there is none.
pub fn matches_are_in_turn()
    ensures { MatchesAreInTurn }
{}
