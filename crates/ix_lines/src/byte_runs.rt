//! Breakers that are a group of one or more bytes of a set, as the default one. Their breaks are
//! counted byte by byte, and no search is made for them.

ghost use Rattle.std.specs.Prelude.{◌≡◌, ◌<◌, ◌&&◌, ◌==◌, nat_lt, Bool, List, None, length, take, true, false};
ghost use Rattle.ix_pattern.specs.Piece.{byte_in, count, in_set};
ghost use Rattle.ix_pattern.specs.Rows.{piece_at};
ghost use Rattle.ix_match.specs.Attempt.{reach};
ghost use Rattle.ix_lines.specs.ByteRuns.{run_length, runs_by, IsByteRun};
ghost use Rattle.ix_lines.specs.Seek.{look_of};

use crate::breaks::{BreakLook, first_bytes};
use ix_match::{REACH, Scan};
use ix_pattern::{Node, Pattern};

/// Whether the piece is one byte of a set.
fn is_byte(p: &Pattern, piece: usize) -> bool
    requires { piece < length p.now.rows }
    ensures { result ≡ true → (set : List Bool) × (piece_at p.now.rows piece ≡ byte_in set) }
{
    matches!(p.node(piece), Node::Bytes)
}

/// Whether the piece is one or more bytes of a set, as many as there are.
fn is_repeated_byte(p: &Pattern, piece: usize) -> bool
    requires { piece < length p.now.rows }
    ensures { result ≡ true → (set : List Bool) × (piece_at p.now.rows piece ≡ count (byte_in set) 1 None false) }
{
    match p.node(piece) {
        Node::Count {
            inside,
            least,
            most,
            lazy,
        } => least == 1 && most.is_none() && !lazy && is_byte(p, inside),
        _ => false,
    }
}

/// Whether the pattern is a group of one or more bytes of a set, and has no other group.
pub fn is_byte_run(p: &Pattern) -> bool
    ensures { result ≡ true → IsByteRun p.now }
{
    match p.node(p.root()) {
        Node::Group { number, inside } => {
            number == 1 && p.groups() == 1 && is_repeated_byte(p, inside)
        }
        _ => false,
    }
}

/// How many bytes with which a match may begin stand at the front of these bytes, as far as an
/// attempt sees.
fn run_length(scan: &Scan, bytes: &[u8]) -> usize
    ensures { result ≡ run_length (λ b. in_set scan.now.starts b) bytes.now }
{
    let seen = seen_bytes(bytes);
    seen.iter().take_while(|b| scan.may_begin(**b)).count()
}

/// What an attempt sees of these bytes.
#[tactic(auto, unfolding(ix_match::specs::Attempt::reach))]
fn seen_bytes(bytes: &[u8]) -> &[u8]
    ensures { result.now ≡ take reach bytes.now }
{
    first_bytes(bytes, REACH)
}

/// Whether a run of `n` bytes may go on with bytes that have not come, where `len` bytes have.
#[tactic(auto, unfolding(ix_match::specs::Attempt::reach))]
fn run_waits(n: usize, len: usize, unfinished: bool) -> bool
    ensures { result ≡ (unfinished && (n == len) && nat_lt n reach) }
{
    unfinished && n == len && n < REACH
}

/// The run of bytes with which a match may begin, at the front of these bytes.
pub fn run_at(scan: &Scan, bytes: &[u8], unfinished: bool) -> BreakLook
    ensures { look_of result ≡ runs_by (λ b. in_set scan.now.starts b) None bytes.now unfinished }
{
    let n = run_length(scan, bytes);
    if run_waits(n, bytes.len(), unfinished) {
        return BreakLook::More;
    }
    if n == 0 {
        return BreakLook::No;
    }
    BreakLook::Match {
        from: 0,
        to: n,
        end: n,
    }
}
