//! The breaks where no pattern of breaks is set.

ghost use Rattle.std.specs.Prelude.{◌≡◌, codes, IfOk};
ghost use Rattle.ix_pattern.specs.Syntax.{Syntax};
ghost use Rattle.ix_pattern.specs.Reads.{IsReadAs};
ghost use Rattle.ix_lines.specs.Breaks.{breaks_by};
ghost use Rattle.ix_lines.specs.Newlines.{newlines};
ghost use Rattle.ix_lines.specs.Parts.{IsBreaker};

use ix_base::NoMemory;
use ix_pattern::Pattern;
use std::alloc::Global;

/// The pattern of breaks where none is set, `([\r\n]+)`: a break is each longest run of the bytes
/// 0x0D and 0x0A, as far as an attempt of 16,384 bytes sees.
pub fn default_breaker(alloc: Global) -> Result<Pattern, NoMemory>
    ensures read { IfOk result (λ p. (s : Syntax) × IsReadAs (codes "([\\r\\n]+)") s p) }
    ensures breaker { IfOk result (λ p. IsBreaker p) }
    ensures newlines { IfOk result (λ p. breaks_by p ≡ newlines) }
{
    match Pattern::for_breaks(alloc, b"([\\r\\n]+)") {
        Ok(pattern) => Ok(pattern),
        Err(_) => Err(NoMemory),
    }
}
