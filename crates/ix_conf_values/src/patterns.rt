//! Patterns of settings.

ghost use Rattle.std.specs.Prelude.{IfOk, IfErr};
ghost use Rattle.ix_conf_values.specs.Patterns.{ReadsAs, Refuses};

use ix_pattern::{Pattern, PatternFault};
use std::alloc::Global;

/// Reads a pattern. Each fault comes exactly where the text has it, and `NoMemory` may come at any
/// time.
pub fn read_pattern(alloc: Global, text: &[u8]) -> Result<Pattern, PatternFault>
    ensures found { IfOk result (λ pattern. ReadsAs text.now pattern) }
    ensures fault { IfErr result (λ fault. Refuses text.now fault) }
{
    match Pattern::read(alloc, text) {
        Ok(pattern) => Ok(pattern),
        Err(PatternFault::Syntax) => Err(PatternFault::Syntax),
        Err(PatternFault::TooLarge) => Err(PatternFault::TooLarge),
        Err(PatternFault::EmptyRepeat) => Err(PatternFault::EmptyRepeat),
        Err(PatternFault::NoMemory) => Err(PatternFault::NoMemory),
    }
}
