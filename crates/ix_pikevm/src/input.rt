//! What a search looks at.

ghost use Rattle.std.specs.Prelude.{◌≡◌, ◌+◌, ℕ};
ghost use Rattle.ix_pattern.specs.Ways.{byte_before, sight};
ghost use Rattle.ix_pikevm.specs.Leaf.{text_of};

/// How many bytes a lookahead sees.
pub const SIGHT: usize = 255;

/// A text, or what has come of it.
#[derive(Clone, Copy)]
pub struct Input<'a> {
    /// The byte before the first one. There is none at the start of the whole text.
    pub before: Option<u8>,
    pub bytes: &'a [u8],
    /// Whether more bytes may follow.
    pub unfinished: bool,
}

/// The byte before a place.
pub fn byte_before(input: Input<'_>, place: usize) -> Option<u8>
    ensures { result ≡ byte_before input.entry.before input.entry.bytes.now place }
{
    if place == 0 {
        input.before
    } else {
        input.bytes.get(place - 1).copied()
    }
}

/// What a lookahead sees at a place.
pub fn in_sight(input: Input<'_>, place: usize) -> Input<'_>
    ensures { text_of result ≡ sight (place + 255) (text_of input.entry) }
{
    let bytes = input.bytes;
    if bytes.len() >= SIGHT && place <= bytes.len() - SIGHT {
        Input {
            before: input.before,
            bytes: &bytes[..place + SIGHT],
            unfinished: false,
        }
    } else {
        input
    }
}
