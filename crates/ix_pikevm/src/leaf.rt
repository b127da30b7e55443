//! The tests that take no byte: `^`, `$` and `\b`. What a thread does at them is in `acts`.

ghost use Rattle.std.specs.Prelude.{◌≡◌, ℕ, ◌<◌, ◌≤◌, ◌+◌, List, [], ◌∷◌, length, Option, slice_get, if◌then◌else◌};
ghost use Rattle.ix_pattern.specs.Ways.{Reached, edge, here, is_start, is_word_byte, is_word, finish_ways, word_ways};
ghost use Rattle.ix_pikevm.specs.Leaf.{leaf_ways, text_of, at};

use crate::input::{Input, byte_before};

/// What a test comes to: an end here, nothing, or an edge.
#[derive(Clone, Copy)]
pub enum Leaf {
    Here,
    Never,
    Edge,
}

fn is_word_byte(b: u8) -> bool
    ensures { result ≡ is_word_byte b }
{
    b >= b'0' && b <= b'9' || b >= b'A' && b <= b'Z' || b >= b'a' && b <= b'z' || b == b'_'
}

fn is_word(b: Option<u8>) -> bool
    ensures { result ≡ is_word b }
{
    match b {
        None => false,
        Some(b) => is_word_byte(b),
    }
}

/// An end here, if the test holds.
fn here(test: bool) -> Leaf
    ensures { (r : Reached) → leaf_ways result r ≡ here test r }
{
    if test { Leaf::Here } else { Leaf::Never }
}

/// An edge, or what it is in a closed text.
fn at_end(unfinished: bool, closed: Leaf) -> Leaf
    ensures { (r : Reached) → leaf_ways result r ≡ (if unfinished then edge ∷ [] else leaf_ways closed r) }
{
    if unfinished { Leaf::Edge } else { closed }
}

/// `^`, by the byte before the place.
pub fn start(lines: bool, before: Option<u8>) -> Leaf
    ensures { (r : Reached) → leaf_ways result r ≡ here (is_start lines before) r }
{
    match before {
        None => Leaf::Here,
        Some(b) => here(lines && b == b'\n'),
    }
}

/// `$`.
pub fn finish(lines: bool, input: Input<'_>, place: usize) -> Leaf
    ensures { (groups : List (Option (ℕ × ℕ))) → leaf_ways result (at place groups)
        ≡ finish_ways lines (text_of input.entry) (at place groups) (slice_get input.entry.bytes.now place) }
{
    match input.bytes.get(place) {
        None => at_end(input.unfinished, Leaf::Here),
        Some(b) => {
            if lines {
                here(*b == b'\n')
            } else if *b == b'\n' && place + 1 == input.bytes.len() {
                at_end(input.unfinished, Leaf::Here)
            } else {
                Leaf::Never
            }
        }
    }
}

/// `\b`.
pub fn word(input: Input<'_>, place: usize) -> Leaf
    ensures { (groups : List (Option (ℕ × ℕ))) → leaf_ways result (at place groups)
        ≡ word_ways (text_of input.entry) (at place groups) (slice_get input.entry.bytes.now place) }
{
    let word_before = is_word(byte_before(input, place));
    match input.bytes.get(place) {
        None => at_end(input.unfinished, here(word_before)),
        Some(b) => here(word_before != is_word_byte(*b)),
    }
}
