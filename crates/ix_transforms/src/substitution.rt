//! Substitutions: matches of a pattern in a text, replaced. The changes by SEDCMD call it.

ghost use Rattle.std.specs.Prelude.{◌≡◌, ◌<◌, ◌≤◌, ◌++◌, [], ◌∷◌, length, take, unwrap_or, slice_range, IfOk, OnOk};
ghost use Rattle.ix_match.specs.Matches.{LiesIn};
ghost use Rattle.ix_conf_values.specs.Seds.{IsNumbered};
ghost use Rattle.ix_transforms.specs.Matches.{behind, matches};
ghost use Rattle.ix_transforms.specs.Writing.{written};
ghost use Rattle.ix_transforms.specs.Seds.{replaced, substituted, cut, raw_limit, number_of};

use crate::matches::{behind, next_match, nth_match};
use crate::writing::{Groups, add_parts, add_within};
use ix_base::{Bytes, NoMemory};
use ix_conf_values::{Part, Which};
use ix_match::{Found, Regex};
use std::alloc::Global;

/// A raw text has at most so many bytes.
pub const RAW_LIMIT: usize = 8_388_608;

/// A substitution in a text.
#[derive(Clone, Copy)]
pub struct Substitution<'a> {
    pub pattern: &'a Regex,
    /// What is written in place of a match.
    pub parts: &'a [Part],
    pub text: &'a [u8],
}

/// The number of the first match that is replaced.
fn number_of(which: Which) -> u32
    requires { IsNumbered which }
    ensures is { result ≡ number_of which }
    ensures positive { 0 < result }
{
    match which {
        Which::First | Which::All => 1,
        Which::Nth(number) => number,
    }
}

impl Substitution<'_> {
    /// Adds the text from a place up to a match, and what is written in place of the match.
    fn add(&self, out: &mut Bytes, from: usize, found: &Found) -> Result<(), NoMemory>
        requires room { length out.old ≤ raw_limit }
        requires lies { LiesIn self.now.text.now from self.now.pattern.now.groups found.now }
        ensures room { OnOk result (length out.new ≤ raw_limit) }
        ensures added { OnOk result (out.new ≡ cut (out.old
            ++ (slice_range self.now.text.now from found.now.start ++ written self.now.parts.now [] self.now.text.now found.now.groups))) }
    {
        add_within(out, &self.text[from..found.start], RAW_LIMIT)?;
        let groups = Groups {
            zeroth: &[],
            text: self.text,
            spans: found.groups.as_slice(),
        };
        add_parts(out, self.parts, &groups, RAW_LIMIT)?;
        Ok(())
    }

    /// The text with this one match replaced.
    fn replace_one(&self, alloc: Global, found: &Found) -> Result<Bytes, NoMemory>
        requires { LiesIn self.now.text.now 0 self.now.pattern.now.groups found.now }
        ensures { IfOk result (λ changed. changed ≡ cut (replaced self.now.parts.now self.now.text.now 0 (found.now ∷ []))) }
    {
        let mut out = Bytes::new(alloc);
        self.add(&mut out, 0, found)?;
        add_within(&mut out, &self.text[found.end..], RAW_LIMIT)?;
        Ok(out)
    }

    /// The text with this match and all behind it replaced.
    fn replace_all(&self, alloc: Global, first: Found) -> Result<Bytes, NoMemory>
        requires { LiesIn self.now.text.now 0 self.now.pattern.now.groups first }
        ensures { IfOk result (λ changed. changed ≡ cut
            (replaced self.now.parts.now self.now.text.now 0 (first ∷ matches self.now.pattern.now self.now.text.now (behind first)))) }
    {
        let mut out = Bytes::new(alloc);
        let mut copied = 0;
        let mut next = Some(first);
        while let Some(found) = next {
            self.add(&mut out, copied, &found)?;
            copied = found.end;
            next = next_match(alloc, self.pattern, self.text, behind(&found))?;
        }
        add_within(&mut out, &self.text[copied..], RAW_LIMIT)?;
        Ok(out)
    }

    /// The text with the chosen matches replaced; `None` where there is no such match, and the text
    /// stays as it is.
    pub fn changed(&self, alloc: Global, which: Which) -> Result<Option<Bytes>, NoMemory>
        requires { IsNumbered which }
        ensures { IfOk result (λ changed. cut (unwrap_or changed self.now.text.now) ≡ cut
            (substituted self.now.pattern.now self.now.parts.now which self.now.text.now)) }
    {
        let number = number_of(which);
        let Some(found) = nth_match(alloc, self.pattern, self.text, number)? else {
            return Ok(None);
        };
        match which {
            Which::All => Ok(Some(self.replace_all(alloc, found)?)),
            _ => Ok(Some(self.replace_one(alloc, &found)?)),
        }
    }
}
