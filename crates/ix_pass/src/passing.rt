//! Watched files are visited one behind the other.

ghost use Rattle.std.specs.Prelude.{◌≡◌, ◌≤◌, ◌++◌, length, IfErr, IsErrOf, OnOk};
ghost use Rattle.std.specs.List.{AllByRecursion};
ghost use Rattle.ix_base.specs.Faults.{Rose};
ghost use Rattle.ix_commit.specs.Snapshot.{LogsAtEnd};
ghost use Rattle.ix_watch.specs.Visits.{line};
ghost use Rattle.ix_pass.specs.Passing.{HasVisited, MayVisit, VisitsAll};
ghost use Rattle.ix_pass.specs.Giving.{kind, change};

use crate::fault::PassFault;
use crate::lines::push_line;
use crate::visiting::Visitor;
use ix_base::{Bytes, Clock};
use ix_disk::Disk;
use ix_fs::Tree;
use ix_monitor::Watched;
use ix_store::{Listing, Store};
use ix_watch::Visited;
use std::alloc::Global;

/// Adds the line of a file that was visited.
fn tell(text: &mut Bytes, file: &Watched, visited: Visited) -> Result<(), PassFault>
    ensures told { OnOk result (text.new ≡ text.old ++ line file.now visited) }
    ensures memory { IfErr result (λ fault. fault ≡ PassFault.Memory) }
{
    match push_line(text, file, visited) {
        Ok(()) => Ok(()),
        Err(_) => Err(PassFault::Memory),
    }
}

/// How files are visited.
#[derive(Clone, Copy)]
pub(crate) struct Turn {
    pub(crate) alloc: Global,
    /// Whether the channels of those that are there are ended.
    pub(crate) close: bool,
}

impl Turn {
    /// Visits files, one behind the other, and answers their lines.
    pub(crate) fn visit_all<M: Listing + Drop, D: Disk, C: Clock, T: Tree>(
        self,
        store: &mut Store<M>,
        disk: &mut D,
        clock: &mut C,
        tree: &mut T,
        room: &mut [u8],
        files: &[Watched],
    ) -> Result<Bytes, PassFault>
        requires over { LogsAtEnd D.Disk store.old.committer disk.old }
        requires room { length room.old ≡ 1048576 }
        requires takes { AllByRecursion (MayVisit M.takes) files.now }
        ensures visited { VisitsAll result files.now (C.ahead clock.old) (C.ahead clock.new)
            (HasVisited D.Disk (kind M.is_chooser M.takes M.Book.fits M.holds) (T.files tree.old) self.close result
            (change store.old disk.old store.new disk.new)) }
        ensures failed { IsErrOf result PassFault.Input → Rose (T.faults tree.old) (T.faults tree.new) }
        ensures same { T.files tree.new ≡ T.files tree.old }
        ensures later { T.faults tree.old ≤ T.faults tree.new }
        ensures later_missing { T.missing tree.old ≤ T.missing tree.new }
    {
        let mut text = Bytes::new(self.alloc);
        for file in files {
            let visitor = Visitor {
                alloc: self.alloc,
                file,
                close: self.close,
            };
            let visited = match visitor.visit(store, disk, clock, tree, room) {
                Ok(visited) => visited,
                Err(fault) => return Err(fault),
            };
            match tell(&mut text, file, visited) {
                Ok(()) => {}
                Err(fault) => return Err(fault),
            }
        }
        Ok(text)
    }
}
