//! Levels of parentheses.

ghost use Rattle.std.specs.Prelude.{◌≡◌, ◌≤◌};

use crate::part::Part;
use crate::tokens::{Opening, Repeat, Times};

/// What has been read of one level of parentheses, from its end.
#[derive(Clone, Copy)]
pub struct Frame {
    /// A count whose piece is still to come.
    pub waiting: Option<Repeat>,
    /// The first alternative, unless it is empty.
    pub sequence: Option<Part>,
    /// The other alternatives.
    pub others: Option<Part>,
    /// It has neither a capturing group nor a lookahead.
    pub plain: bool,
    /// How deep the parentheses in it nest, or 65.
    pub depth: u32,
    /// A number of a count in it is above 1,000.
    pub high: bool,
    ghost shallow: { depth ≤ 65 },
}
