//! What SEDCMD does to a raw text. The changes of events call it.

ghost use Rattle.std.specs.Prelude.{◌≡◌, All, IfOk};
ghost use Rattle.ix_conf_values.specs.Seds.{IsApplicable};
ghost use Rattle.ix_transforms.specs.Seds.{sed_text, cut, changed_text};

use crate::substitution::{RAW_LIMIT, Substitution};
use crate::swapping::swap_bytes;
use ix_base::{Bytes, NoMemory, Sequence};
use ix_conf_values::{Part, Sed, SedList, Which};
use ix_match::Regex;
use std::alloc::Global;
use std::marker::Model;

/// What a change is made with.
#[derive(Drop)]
pub enum SedForm<'a> {
    /// Matches of the pattern are replaced by the parts.
    Replace {
        pattern: Regex,
        parts: &'a [Part],
        which: Which,
    },
    /// Bytes of the one become those of the other.
    Swap {
        from: &'a [u8],
        to: &'a [u8],
    },
}

/// A change that is made to many texts. The pattern of a substitution is written out once.
/// Contracts see the change.
pub struct PreparedSed<'a> {
    form: SedForm<'a>,
}

/// Changes, the first one first.
pub type PreparedSeds<'a> = Sequence<PreparedSed<'a>>;

/// It is written out, so that each place where one is let go is a call of it, which is proved once.
impl Drop for PreparedSed<'_> {
    fn drop(self) {
        let PreparedSed { form: _ } = self;
    }
}

impl<'a> Model for PreparedSed<'a> {
    ghost use Rattle.ix_conf_values.specs.declared.seds.Sed.{Sed};

    ghost Value = { Sed };

    ghost use Rattle.ix_transforms.specs.Prepared.{sed_of};

    ghost view = { λ s. sed_of s.form };
}

/// The text, cut to what a raw text may have.
fn cut(text: Bytes) -> Bytes
    ensures { result ≡ cut text }
{
    let mut text = text;
    text.truncate(RAW_LIMIT);
    text
}

impl<'a> PreparedSed<'a> {
    /// What this change is made with.
    fn new(alloc: Global, sed: &'a Sed) -> Result<PreparedSed<'a>, NoMemory>
        ensures { IfOk result (λ prepared. prepared ≡ sed.entry.now) }
    {
        let form = match sed {
            Sed::Replace {
                pattern,
                parts,
                which,
            } => SedForm::Replace {
                pattern: Regex::new(alloc, pattern.copy()?)?,
                parts: parts.as_slice(),
                which: *which,
            },
            Sed::Swap { from, to } => SedForm::Swap {
                from: from.as_slice(),
                to: to.as_slice(),
            },
        };
        Ok(PreparedSed { form })
    }

    /// The text behind the change.
    fn change(&self, alloc: Global, text: Bytes) -> Result<Bytes, NoMemory>
        requires { IsApplicable self.now }
        ensures { IfOk result (λ changed. changed ≡ cut (sed_text self.now text)) }
    {
        match &self.form {
            SedForm::Replace {
                pattern,
                parts,
                which,
            } => {
                let substitution = Substitution {
                    pattern,
                    parts,
                    text: text.as_slice(),
                };
                match substitution.changed(alloc, *which)? {
                    Some(changed) => Ok(cut(changed)),
                    None => Ok(cut(text)),
                }
            }
            SedForm::Swap { from, to } => Ok(cut(swap_bytes(text, from, to))),
        }
    }
}

/// What these changes are made with.
pub fn prepare_seds<'a>(alloc: Global, seds: &'a SedList) -> Result<PreparedSeds<'a>, NoMemory>
    ensures { IfOk result (λ prepared. prepared ≡ seds.entry.now) }
{
    let mut prepared = Sequence::new(alloc);
    for sed in seds.as_slice() {
        prepared.push(PreparedSed::new(alloc, sed)?)?;
    }
    Ok(prepared)
}

/// The text behind all changes, the first one first. A text that none of them changes is not
/// copied.
pub fn change_all(alloc: Global, seds: &PreparedSeds<'_>, text: Bytes) -> Result<Bytes, NoMemory>
    requires { All (λ sed. IsApplicable sed) seds.now }
    ensures { IfOk result (λ changed. changed ≡ changed_text seds.now text) }
{
    let mut now = cut(text);
    for sed in seds.as_slice() {
        now = sed.change(alloc, now)?;
    }
    Ok(now)
}
