//! Why a run that monitors files stops.

ghost use Rattle.std.specs.Prelude.{◌≡◌};
ghost use Rattle.indexd_monitor.specs.Monitored as defs;

use indexd_run::{Stop, of_give};
use ix_fs::TreeFault;
use ix_pass::PassFault;

/// Why the files of the inputs were not found. That one is missing is no such cause.
pub(crate) fn of_tree(fault: TreeFault) -> Stop
    ensures { result ≡ defs.of_tree fault }
{
    match fault {
        TreeFault::Failed | TreeFault::Missing => Stop::Input,
        TreeFault::NoMemory => Stop::Memory,
    }
}

/// Why a pass was stopped.
pub(crate) fn of_pass(fault: PassFault) -> Stop
    ensures { result ≡ defs.of_pass fault }
{
    match fault {
        PassFault::Given(fault) => of_give(fault),
        PassFault::Input => Stop::Input,
        PassFault::Memory => Stop::Memory,
    }
}
