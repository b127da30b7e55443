//! Pieces that are made of pieces.

ghost use Rattle.std.specs.Prelude.{◌≡◌, ◌+◌, ◌<◌, ◌≤◌, ◌*◌, ℕ, Option, length, IfOk, min, unwrap_or, Some, None};
ghost use Rattle.ix_pattern.specs.Piece.{Piece, nothing, seq, either, count, group, ahead};
ghost use Rattle.ix_pattern.specs.Syntax.{opened, joined, leaf_piece, is_none, least_of, most_of, repeated, paren_piece, times_weight};
ghost use Rattle.ix_pattern.specs.Syntax.{paren_weight, repeated_weight, alternatives, alternatives_weight};
ghost use Rattle.ix_pattern.specs.Parts.{IsPart, IsOptional, IsBelow, Grew, Adds, AddsBy};

use crate::part::Part;
use crate::pattern::Node;
use crate::sets::none;
use crate::tokens::{Leaf, Opening, Repeat, Times};
use crate::work::Work;
use ix_base::NoMemory;

/// Weights above the limit are not told apart.
const MOST_WEIGHT: u64 = 200_001;

/// The weight, or one above the limit.
fn limited(weight: u64) -> u64
    ensures { result ≡ min weight 200001 }
{
    weight.min(MOST_WEIGHT)
}

/// A piece that has none inside.
pub fn leaf(work: &mut Work, leaf: Leaf) -> Result<Part, NoMemory>
    ensures { IfOk result (λ part. AddsBy 1 work.old work.new part (leaf_piece leaf) 1) }
{
    let (node, set, takes) = match leaf {
        Leaf::Bytes(set) => (Node::Bytes, set, true),
        Leaf::Start { lines } => (Node::Start { lines }, none(), false),
        Leaf::Finish { lines } => (Node::Finish { lines }, none(), false),
        Leaf::Word => (Node::Word, none(), false),
    };
    let piece = work.push(node, set)?;
    Ok(Part {
        piece,
        weight: 1,
        takes,
        repeats_empty: false,
    })
}

/// An empty sequence.
fn nothing(work: &mut Work) -> Result<Part, NoMemory>
    ensures kept { IfOk result (λ x. Grew work.old work.new × (x.piece < length work.new.rows)) }
    ensures meaning { IfOk result (λ part. Adds work.old work.new part nothing 1) }
{
    let piece = work.push(Node::Nothing, none())?;
    Ok(Part {
        piece,
        weight: 1,
        takes: false,
        repeats_empty: false,
    })
}

/// One piece behind the other.
fn sequence(work: &mut Work, first: Part, rest: Part) -> Result<Part, NoMemory>
    requires first { first.piece < length work.old.rows }
    requires rest { rest.piece < length work.old.rows }
    ensures kept { IfOk result (λ x. Grew work.old work.new × (x.piece < length work.new.rows)) }
    ensures meaning { (p q : Piece) → (v w : ℕ) → IsPart work.old.rows first p v → IsPart work.old.rows rest q w →
        IfOk result (λ part. Adds work.old work.new part (seq p q) (v + w)) }
{
    let node = Node::Seq {
        first: first.piece,
        rest: rest.piece,
    };
    let piece = work.push(node, none())?;
    Ok(Part {
        piece,
        weight: limited(first.weight + rest.weight),
        takes: first.takes | rest.takes,
        repeats_empty: first.repeats_empty | rest.repeats_empty,
    })
}

/// One piece or the other. What it weighs beside their sum is given.
fn either(work: &mut Work, first: Part, other: Part, own_weight: u64) -> Result<Part, NoMemory>
    requires first { first.piece < length work.old.rows }
    requires other { other.piece < length work.old.rows }
    requires own_weight { own_weight ≤ 1 }
    ensures kept { IfOk result (λ x. Grew work.old work.new × (x.piece < length work.new.rows)) }
    ensures meaning { (p q : Piece) → (v w : ℕ) → IsPart work.old.rows first p v → IsPart work.old.rows other q w →
        IfOk result (λ part. Adds work.old work.new part (either p q) (v + w + own_weight)) }
{
    let node = Node::Either {
        first: first.piece,
        other: other.piece,
    };
    let piece = work.push(node, none())?;
    Ok(Part {
        piece,
        weight: limited(first.weight + other.weight + own_weight),
        takes: first.takes & other.takes,
        repeats_empty: first.repeats_empty | other.repeats_empty,
    })
}

fn least_of(times: Times) -> u32
    ensures { result ≡ least_of times }
{
    match times {
        Times::Maybe => 0,
        Times::Limited { least, .. } | Times::Unlimited { least } => least,
    }
}

fn most_of(times: Times) -> Option<u32>
    ensures { result ≡ most_of times }
{
    match times {
        Times::Maybe => Some(1),
        Times::Limited { most, .. } => Some(most),
        Times::Unlimited { .. } => None,
    }
}

fn is_unlimited(times: Times) -> bool
    ensures { result ≡ is_none (most_of times) }
{
    match times {
        Times::Maybe | Times::Limited { .. } => false,
        Times::Unlimited { .. } => true,
    }
}

/// The weight of a piece of this weight that comes so often.
fn times_weight(weight: u64, times: Times) -> u64
    requires { weight ≤ 200001 }
    ensures { result ≡ times_weight weight times }
{
    match times {
        Times::Maybe => weight + 1,
        Times::Limited { most, .. } => u64::from(most.max(1)) * (weight + 1) + 1,
        Times::Unlimited { least } => (u64::from(least) + 1) * (weight + 1),
    }
}

/// A piece with a count.
fn repeat(work: &mut Work, inside: Part, repeat: Repeat) -> Result<Part, NoMemory>
    requires { inside.piece < length work.old.rows }
    ensures kept { IfOk result (λ x. Grew work.old work.new × (x.piece < length work.new.rows)) }
    ensures meaning { (p : Piece) → (w : ℕ) → IsPart work.old.rows inside p w →
        IfOk result (λ part. Adds work.old work.new part (repeated p (Some repeat)) (repeated_weight w (Some repeat))) }
{
    let least = least_of(repeat.times);
    let most = most_of(repeat.times);
    let node = Node::Count {
        inside: inside.piece,
        least,
        most,
        lazy: repeat.lazy,
    };
    let piece = work.push(node, none())?;
    Ok(Part {
        piece,
        weight: limited(times_weight(inside.weight, repeat.times)),
        takes: (0 < least) & inside.takes,
        repeats_empty: inside.repeats_empty | is_unlimited(repeat.times) & !inside.takes,
    })
}

/// A capturing group.
fn group(work: &mut Work, number: usize, inside: Part) -> Result<Part, NoMemory>
    requires inside { inside.piece < length work.old.rows }
    requires counted { 0 < number }
    requires known { number ≤ work.old.groups }
    ensures kept { IfOk result (λ x. Grew work.old work.new × (x.piece < length work.new.rows)) }
    ensures meaning { (p : Piece) → (w : ℕ) → IsPart work.old.rows inside p w →
        IfOk result (λ part. Adds work.old work.new part (group number p) (w + 2)) }
{
    let node = Node::Group {
        number,
        inside: inside.piece,
    };
    let piece = work.push(node, none())?;
    Ok(Part {
        piece,
        weight: limited(inside.weight + 2),
        takes: inside.takes,
        repeats_empty: inside.repeats_empty,
    })
}

/// A lookahead.
fn ahead(work: &mut Work, wanted: bool, inside: Part) -> Result<Part, NoMemory>
    requires { inside.piece < length work.old.rows }
    ensures kept { IfOk result (λ x. Grew work.old work.new × (x.piece < length work.new.rows)) }
    ensures meaning { (p : Piece) → (w : ℕ) → IsPart work.old.rows inside p w →
        IfOk result (λ part. Adds work.old work.new part (ahead p wanted) (256 * w + 1)) }
{
    let node = Node::Ahead {
        inside: inside.piece,
        wanted,
    };
    let piece = work.push(node, none())?;
    Ok(Part {
        piece,
        weight: limited(256 * inside.weight + 1),
        takes: false,
        repeats_empty: inside.repeats_empty,
    })
}

/// The piece with its count, where it has one.
pub fn counted(work: &mut Work, part: Part, waiting: Option<Repeat>) -> Result<Part, NoMemory>
    requires { part.piece < length work.old.rows }
    ensures kept { IfOk result (λ x. Grew work.old work.new × (x.piece < length work.new.rows)) }
    ensures meaning { (p : Piece) → (w : ℕ) → IsPart work.old.rows part p w →
        IfOk result (λ x. Adds work.old work.new x (repeated p waiting) (repeated_weight w waiting)) }
{
    match waiting {
        None => Ok(part),
        Some(times) => repeat(work, part, times),
    }
}

/// The piece before the rest of its sequence.
pub fn joined(work: &mut Work, part: Part, rest: Option<Part>) -> Result<Part, NoMemory>
    requires part { part.piece < length work.old.rows }
    requires rest { IsBelow work.old.rows rest }
    ensures kept { IfOk result (λ x. Grew work.old work.new × (x.piece < length work.new.rows)) }
    ensures meaning { (p : Piece) → (w : ℕ) → (q : Option Piece) → (v : Option ℕ) → IsPart work.old.rows part p w →
        IsOptional work.old.rows rest q v →
        IfOk result (λ x. Adds work.old work.new x (joined p q) (w + unwrap_or v 0)) }
{
    match rest {
        None => Ok(part),
        Some(rest) => sequence(work, part, rest),
    }
}

/// The first alternative, which may be empty.
pub fn first_of(work: &mut Work, part: Option<Part>) -> Result<Part, NoMemory>
    requires { IsBelow work.old.rows part }
    ensures kept { IfOk result (λ x. Grew work.old work.new × (x.piece < length work.new.rows)) }
    ensures meaning { (q : Option Piece) → (v : Option ℕ) → IsOptional work.old.rows part q v →
        IfOk result (λ x. Adds work.old work.new x (unwrap_or q nothing) (unwrap_or v 1)) }
{
    match part {
        None => nothing(work),
        Some(part) => Ok(part),
    }
}

/// The alternative before the others. What they weigh beside their sum is given: alternatives have
/// one, however many they are.
pub fn alternatives(
    work: &mut Work,
    first: Part,
    others: Option<Part>,
    own_weight: u64,
) -> Result<Part, NoMemory>
    requires first { first.piece < length work.old.rows }
    requires others { IsBelow work.old.rows others }
    requires own_weight { own_weight ≤ 1 }
    ensures kept { IfOk result (λ x. Grew work.old work.new × (x.piece < length work.new.rows)) }
    ensures meaning { (p : Piece) → (w : ℕ) → (q : Option Piece) → (v : Option ℕ) → IsPart work.old.rows first p w →
        IsOptional work.old.rows others q v →
        IfOk result (λ x. Adds work.old work.new x (alternatives p q) (alternatives_weight w v own_weight)) }
{
    match others {
        None => Ok(first),
        Some(others) => either(work, first, others, own_weight),
    }
}

/// What is in parentheses. A capturing group has this number.
pub fn parenthesis(
    work: &mut Work,
    opening: Opening,
    number: usize,
    inside: Part,
) -> Result<Part, NoMemory>
    requires inside { inside.piece < length work.old.rows }
    requires number { opened opening ≤ number }
    requires known { number ≤ work.old.groups }
    ensures kept { IfOk result (λ x. Grew work.old work.new × (x.piece < length work.new.rows)) }
    ensures meaning { (p : Piece) → (w : ℕ) → IsPart work.old.rows inside p w →
        IfOk result (λ x. Adds work.old work.new x (paren_piece opening number p) (paren_weight opening w)) }
{
    match opening {
        Opening::Capture => group(work, number, inside),
        Opening::Plain => Ok(inside),
        Opening::Ahead { wanted } => ahead(work, wanted, inside),
    }
}
