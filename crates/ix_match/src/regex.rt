//! The first match in each of many texts.

ghost use Rattle.std.specs.Prelude.{◌≡◌, ◌≤◌, length, IfOk, IfSome};
ghost use Rattle.ix_match.specs.Matches.{IsFirst, LiesIn};

use crate::compiled::CompiledPattern;
use crate::first::Found;
use ix_base::NoMemory;
use ix_pattern::Pattern;
use std::alloc::Global;
use std::marker::Model;

/// A pattern that many texts are searched for. It is written out once, and what is known of the
/// front of its matches is worked out once. Contracts see the pattern.
pub struct Regex {
    alloc: Global,
    /// It stands in a place of its own, so that a search is handed on with few bytes.
    prepared: Box<CompiledPattern>,
}

/// It is written out, so that each place where one is let go is a call of it, which is proved once.
impl Drop for Regex {
    fn drop(self) {
        let Regex {
            alloc: _,
            prepared: _,
        } = self;
    }
}

impl Model for Regex {
    ghost use Rattle.ix_pattern.specs.Rows.{Shape};
    ghost use Rattle.ix_match.specs.Prepared.{IsPrepared};

    ghost Value = { Shape };

    ghost view = { λ f. f.prepared.value.pattern };

    ghost invariant = { λ f. IsPrepared f.prepared.value };
}

impl Regex {
    /// A search for this pattern.
    pub fn new(alloc: Global, pattern: Pattern) -> Result<Regex, NoMemory>
        ensures { IfOk result (λ finder. finder ≡ pattern) }
    {
        let prepared = CompiledPattern::of(alloc, pattern)?;
        let place = Box::new(alloc, prepared)?;
        Ok(Regex {
            alloc,
            prepared: place,
        })
    }

    /// The first match of the pattern in a whole text that begins at the place `from` or later; of
    /// those that begin at the same place, the one that the pattern prefers. There is none exactly
    /// where it matches at no place from `from` on, up to and with the text's end. It is what
    /// `find` finds for the pattern.
    pub fn find(&self, alloc: Global, text: &[u8], from: usize) -> Result<Option<Found>, NoMemory>
        requires { from ≤ length text.now }
        ensures first { IfOk result (λ found. IsFirst self.now text.now from found) }
        ensures lies { IfOk result (λ found. IfSome found (λ f. LiesIn text.now from self.now.groups f)) }
    {
        self.prepared.find(alloc, text, from)
    }

    /// The pattern.
    pub fn pattern(&self) -> &Pattern
        ensures { result.now ≡ self.now }
    {
        &self.prepared.pattern
    }

    /// A copy of it.
    pub fn copy(&self) -> Result<Regex, NoMemory>
        ensures { IfOk result (λ copy. copy ≡ self.now) }
    {
        let prepared = self.prepared.copy()?;
        let place = Box::new(self.alloc, prepared)?;
        Ok(Regex {
            alloc: self.alloc,
            prepared: place,
        })
    }
}
