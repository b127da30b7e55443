//! Laws of the meaning of patterns.

ghost use Rattle.ix_pattern.specs.Laws.{EdgesAreReplaced};
ghost use Rattle.ix_pattern.specs.Reads.{OneSyntax};

/// Where an open text is continued or closed, each end of a list of ways stays, and each edge is
/// replaced by a list of ways, which may be empty. It does nothing: the law is its contract.
pub fn edges_are_replaced()
    ensures { EdgesAreReplaced }
{}

/// No text has two syntaxes, so a pattern means one thing. It does nothing: the law is its
/// contract.
pub fn one_syntax()
    ensures { OneSyntax }
{}
