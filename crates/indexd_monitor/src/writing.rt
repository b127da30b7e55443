//! The lines of a pass are written.

ghost use Rattle.std.specs.Prelude.{◌≡◌, ◌≤◌, OnOk, OnErr, IfErr};
ghost use Rattle.ix_base.specs.Faults.{Rose};
ghost use Rattle.ix_base.specs.Told.{HasWritten, HasBegun};

use indexd_run::Stop;
use ix_base::Sink;

/// Writes lines; where the output fails, a first part of them.
pub(crate) fn write_lines<W: Sink>(lines: &[u8], output: &mut W) -> Result<(), Stop>
    ensures written { OnOk result (HasWritten lines.now (W.given output.old) (W.given output.new)) }
    ensures begun { OnErr result (HasBegun lines.now (W.given output.old) (W.given output.new)) }
    ensures why { IfErr result (λ stop. stop ≡ Stop.Output) }
    ensures later { W.faults output.old ≤ W.faults output.new }
    ensures cause { OnErr result (Rose (W.faults output.old) (W.faults output.new)) }
{
    match output.put(lines) {
        Ok(()) => Ok(()),
        Err(_) => Err(Stop::Output),
    }
}
