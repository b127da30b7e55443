//! What is written in place of a match, cut at a number of bytes. Substitutions and transforms call
//! it.

ghost use Rattle.std.specs.Prelude.{◌≡◌, ◌≤◌, ◌++◌, length, take, OnOk};
ghost use Rattle.ix_match.specs.Matches.{AllWithin};
ghost use Rattle.ix_transforms.specs.Writing.{span_at, group_text, written};

use ix_base::{Bytes, NoMemory};
use ix_conf_values::Part;

/// What the numbers of groups stand for.
#[derive(Clone, Copy)]
pub struct Groups<'a> {
    /// What group 0 stands for.
    pub zeroth: &'a [u8],
    /// The text in which the match was found.
    pub text: &'a [u8],
    /// The spans of the other groups in it, the first one that of group 1.
    pub spans: &'a [Option<(usize, usize)>],
}

/// The first bytes, as many as this at the most.
pub fn first_bytes(bytes: &[u8], most: usize) -> &[u8]
    ensures { result.now ≡ take most bytes.now }
{
    if bytes.len() < most {
        bytes
    } else {
        &bytes[..most]
    }
}

/// Adds bytes, as far as there are then at most `limit` of them.
pub fn add_within(out: &mut Bytes, bytes: &[u8], limit: usize) -> Result<(), NoMemory>
    requires { length out.old ≤ limit }
    ensures added { OnOk result (out.new ≡ take limit (out.old ++ bytes.now)) }
    ensures room { OnOk result (length out.new ≤ limit) }
{
    let room = limit - out.len();
    out.extend(first_bytes(bytes, room))?;
    Ok(())
}

/// The span of a group, by its place in the list; `None` where it took no part or is not there.
fn span_at(spans: &[Option<(usize, usize)>], at: usize) -> Option<(usize, usize)>
    ensures { result ≡ span_at spans.now at }
{
    match spans.get(at) {
        Some(span) => *span,
        None => None,
    }
}

/// What the number of a group stands for.
fn group_text<'a>(groups: &Groups<'a>, number: usize) -> &'a [u8]
    requires { AllWithin 0 (length groups.now.text.now) groups.now.spans.now }
    ensures { result.now ≡ group_text groups.now.zeroth.now groups.now.text.now groups.now.spans.now number }
{
    if number == 0 {
        return groups.zeroth;
    }
    match span_at(groups.spans, number - 1) {
        Some((from, to)) => &groups.text[from..to],
        None => &[],
    }
}

/// Adds what parts stand for, as far as there are then at most `limit` bytes.
pub fn add_parts(
    out: &mut Bytes,
    parts: &[Part],
    groups: &Groups<'_>,
    limit: usize,
) -> Result<(), NoMemory>
    requires room { length out.old ≤ limit }
    requires spans { AllWithin 0 (length groups.now.text.now) groups.now.spans.now }
    ensures room { OnOk result (length out.new ≤ limit) }
    ensures added { OnOk result (out.new ≡ take limit (out.old
        ++ written parts.now groups.now.zeroth.now groups.now.text.now groups.now.spans.now)) }
{
    for part in parts {
        match part {
            Part::Byte(byte) => add_within(out, &[*byte], limit)?,
            Part::Group(number) => add_within(out, group_text(groups, *number), limit)?,
        }
    }
    Ok(())
}
