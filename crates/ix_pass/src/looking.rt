//! What a pass finds of a file before it reads on.

ghost use Rattle.std.specs.Prelude.{◌≡◌, ◌≤◌, ◌<◌, ℕ, List, Option, Some, None, length, Err, IfOk, IfErr, IfSome, IsErrOf};
ghost use Rattle.std.specs.Option.{option_map};
ghost use Rattle.ix_base.specs.Faults.{Rose};
ghost use Rattle.ix_run.specs.declared.giving.GiveFault.{GiveFault};
ghost use Rattle.ix_fs.specs.Trees.{bytes_at};
ghost use Rattle.ix_watch.specs.Visits.{seen_of};

use crate::fault::PassFault;
use crate::reading::read_block;
use ix_base::Bytes;
use ix_fs::{Tree, TreeFault};
use ix_monitor::{Seen, Watched};
use std::alloc::Global;

/// How many of its first bytes a file is known by.
const HEAD: usize = 256;

/// Why the tree did not answer, where this is no matter of the file.
fn fault_of(fault: TreeFault) -> PassFault
    ensures input { result ≡ PassFault.Input → fault ≡ TreeFault.Failed }
    ensures not_given { (given : GiveFault) → result ≡ PassFault.Given given → ⊥ }
{
    match fault {
        TreeFault::Failed => PassFault::Input,
        TreeFault::Missing | TreeFault::NoMemory => PassFault::Memory,
    }
}

/// How many bytes a file has and its first ones; `None` where there is no such file.
fn look<T: Tree>(alloc: Global, tree: &mut T, path: &[u8]) -> Result<Option<Seen>, PassFault>
    ensures seen { IfOk result (λ seen. IfSome (T.files tree.old) (λ all. seen ≡ option_map seen_of (bytes_at all path.now))) }
    ensures short { IfOk result (λ seen. IfSome seen (λ file. length file.head ≤ 256)) }
    ensures not_given { IfErr result (λ fault. (given : GiveFault) → fault ≡ PassFault.Given given → ⊥) }
    ensures failed { IsErrOf result PassFault.Input → Rose (T.faults tree.old) (T.faults tree.new) }
    ensures same { T.files tree.new ≡ T.files tree.old }
    ensures later { T.faults tree.old ≤ T.faults tree.new }
    ensures later_missing { T.missing tree.old ≤ T.missing tree.new }
{
    let size = match tree.size(path) {
        Ok(size) => size,
        Err(TreeFault::Missing) => return Ok(None),
        Err(fault) => return Err(fault_of(fault)),
    };
    let mut head = [0u8; HEAD];
    let n = match read_block(tree, path, 0, &mut head) {
        Ok(n) => n,
        Err(TreeFault::Missing) => return Ok(None),
        Err(fault) => return Err(fault_of(fault)),
    };
    match Bytes::copy_of(alloc, &head[..n]) {
        Ok(head) => Ok(Some(Seen { size, head })),
        Err(_) => Err(PassFault::Memory),
    }
}

/// What is seen of a watched file; `None` where there is no such file.
pub(crate) fn look_at<T: Tree>(
    alloc: Global,
    tree: &mut T,
    file: &Watched,
) -> Result<Option<Seen>, PassFault>
    ensures seen { IfOk result (λ seen. IfSome (T.files tree.old) (λ all. seen ≡ option_map seen_of (bytes_at all file.now.path))) }
    ensures short { IfOk result (λ seen. IfSome seen (λ found. length found.head ≤ 256)) }
    ensures not_given { IfErr result (λ fault. (given : GiveFault) → fault ≡ PassFault.Given given → ⊥) }
    ensures failed { IsErrOf result PassFault.Input → Rose (T.faults tree.old) (T.faults tree.new) }
    ensures same { T.files tree.new ≡ T.files tree.old }
    ensures later { T.faults tree.old ≤ T.faults tree.new }
    ensures later_missing { T.missing tree.old ≤ T.missing tree.new }
{
    look(alloc, tree, file.path.as_slice())
}
