//! The bytes with which every match begins.

ghost use Rattle.std.specs.Prelude.{◌≡◌, ℕ, ◌<◌, length, IfOk, OnOk, Some};
ghost use Rattle.ix_pattern.specs.Piece.{Piece, in_set};
ghost use Rattle.ix_pattern.specs.Rows.{piece_at, node_at, set_at};
ghost use Rattle.ix_match.specs.Leads.{EachBegins, Takes, Leads, LeadsTo};

use crate::few::{Few, few_of};
use crate::first_pieces::{Opening, opens_with};
use ix_base::{NoMemory, Steps};
use ix_pattern::{Node, Pattern};
use std::alloc::Global;
use std::sync::ledger::Ledger;

/// What a piece takes.
#[derive(Clone, Copy)]
pub enum Taken {
    /// This byte, and no other.
    One(u8),
    /// No byte.
    Nothing,
    /// More than that, or more than one may be.
    Other,
}

/// For each byte, whether the byte piece takes it.
fn set_of<L: Ledger>(p: &Pattern, piece: usize, steps: &mut Steps<L>) -> [bool; 256]
    requires { node_at p.now.rows piece ≡ Some Node.Bytes }
    ensures { (b : ℕ) → b < 256 → in_set result b ≡ in_set (set_at p.now.rows piece) b }
{
    let mut set = [false; 256];
    for byte in 0..=255u8 {
        set[byte as usize] = p.accepts(piece, byte, steps);
    }
    set
}

/// What the piece with this number takes.
fn taken_by<L: Ledger>(p: &Pattern, piece: usize, steps: &mut Steps<L>) -> Taken
    requires { piece < length p.now.rows }
    ensures { Takes (piece_at p.now.rows piece) result }
{
    match opens_with(p, piece) {
        Opening::Byte => match few_of(&set_of(p, piece, steps)) {
            Few::One(byte) => Taken::One(byte),
            Few::Two(..) | Few::Three(..) | Few::Other => Taken::Other,
        },
        Opening::Empty => Taken::Nothing,
        Opening::Inside { .. } | Opening::Sequence { .. } | Opening::Choice { .. } => Taken::Other,
    }
}

/// Adds the byte with which every match of the piece with this number begins, where it has one. The
/// answer is the piece that follows, where its bytes may be added too.
fn add_lead<L: Ledger>(
    p: &Pattern,
    at: usize,
    bytes: &mut Vec<u8>,
    steps: &mut Steps<L>,
) -> Result<Option<usize>, NoMemory>
    requires { at < length p.now.rows }
    ensures { IfOk result (λ next. (whole : Piece) → Leads whole (piece_at p.now.rows at) bytes.old.items →
        LeadsTo p.now.rows whole at next bytes.new.items) }
{
    match opens_with(p, at) {
        Opening::Sequence { first, rest } => match taken_by(p, first, steps) {
            Taken::One(byte) => {
                bytes.push(byte)?;
                Ok(Some(rest))
            }
            Taken::Nothing => Ok(Some(rest)),
            Taken::Other => Ok(None),
        },
        Opening::Byte => match taken_by(p, at, steps) {
            Taken::One(byte) => {
                bytes.push(byte)?;
                Ok(None)
            }
            Taken::Other | Taken::Nothing => Ok(None),
        },
        Opening::Empty | Opening::Inside { .. } | Opening::Choice { .. } => Ok(None),
    }
}

/// The bytes with which every match of the pattern begins, as far as they are seen at its front.
pub fn lead_of<L: Ledger>(
    alloc: Global,
    p: &Pattern,
    steps: &mut Steps<L>,
) -> Result<Vec<u8>, NoMemory>
    ensures { IfOk result (λ bytes. EachBegins p.now bytes.items) }
{
    let mut bytes = Vec::new(alloc);
    let mut at = p.root();
    while let Some(next) = add_lead(p, at, &mut bytes, steps)? {
        at = next;
    }
    Ok(bytes)
}
