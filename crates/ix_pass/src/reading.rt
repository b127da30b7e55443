//! A file of a tree is read in pieces.

ghost use Rattle.std.specs.Prelude.{◌≡◌, ◌≤◌, ◌<◌, ◌+◌, ◌^◌, ℕ, List, Option, Some, None, length, IfOk, IfSome, IsErrOf, IfErr, min};
ghost use Rattle.ix_fs.specs.Trees.{bytes_at, HasTreeCause};
ghost use Rattle.ix_fs.specs.declared.trees.TreeFault.TheVariants.{Missing};
ghost use Rattle.ix_base.specs.Faults.{Rose};
ghost use Rattle.ix_run.specs.declared.giving.GiveFault.{GiveFault};
ghost use Rattle.ix_pass.specs.Blocks.{FillsAt, IsPiece};

use crate::fault::PassFault;
use ix_fs::{Tree, TreeFault};

/// Reads bytes of a file from a place on into the front of the buffer, until this is full or the
/// file ends, and answers how many. `Missing` where there is no such file.
pub(crate) fn read_block<T: Tree>(
    tree: &mut T,
    path: &[u8],
    at: u64,
    room: &mut [u8],
) -> Result<usize, TreeFault>
    requires some { 0 < length room.old }
    requires fits { at + length room.old < 2 ^ 64 }
    ensures count { IfOk result (λ n. n ≤ length room.old) }
    ensures bytes { IfOk result (λ n. IfSome (T.files tree.old) (λ all. FillsAt (bytes_at all path.now) at n room.new)) }
    ensures absent { IsErrOf result Missing → IfSome (T.files tree.old) (λ all. bytes_at all path.now ≡ None) }
    ensures same { T.files tree.new ≡ T.files tree.old }
    ensures cause { HasTreeCause (T.faults tree.old) (T.faults tree.new) (T.missing tree.old) (T.missing tree.new) result }
{
    let mut filled = 0;
    while filled < room.len() {
        let n = match tree.read(path, at + filled as u64, &mut room[filled..]) {
            Ok(n) => n,
            Err(fault) => return Err(fault),
        };
        if n == 0 {
            return Ok(filled);
        }
        filled += n;
    }
    Ok(filled)
}

/// Reads the next bytes of a watched file into the front of the buffer, and answers how many; 0
/// where it has no more, or is gone.
pub(crate) fn read_piece<T: Tree>(
    tree: &mut T,
    path: &[u8],
    at: u64,
    size: u64,
    room: &mut [u8],
) -> Result<usize, PassFault>
    requires some { 0 < length room.old }
    requires more { at < size }
    ensures room { IfOk result (λ n. n ≤ length room.new) }
    ensures within { IfOk result (λ n. at + n ≤ size) }
    ensures piece { IfOk result (λ n. IfSome (T.files tree.old)
        (λ all. IfSome (bytes_at all path.now) (λ bytes. IsPiece bytes at size n room.new))) }
    ensures not_given { IfErr result (λ fault. (given : GiveFault) → fault ≡ PassFault.Given given → ⊥) }
    ensures failed { IsErrOf result PassFault.Input → Rose (T.faults tree.old) (T.faults tree.new) }
    ensures same { T.files tree.new ≡ T.files tree.old }
    ensures later { T.faults tree.old ≤ T.faults tree.new }
    ensures later_missing { T.missing tree.old ≤ T.missing tree.new }
{
    let most = (size - at).min(room.len() as u64) as usize;
    match read_block(tree, path, at, &mut room[..most]) {
        Ok(n) => Ok(n),
        Err(TreeFault::Missing) => Ok(0),
        Err(TreeFault::Failed) => Err(PassFault::Input),
        Err(TreeFault::NoMemory) => Err(PassFault::Memory),
    }
}
