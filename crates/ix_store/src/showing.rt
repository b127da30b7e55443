//! What a store shows of its state. Whoever serves requests, or runs a command of the program, asks
//! for it.

ghost use Rattle.std.specs.Prelude.{◌≡◌, ℕ, List, is_some};
ghost use Rattle.std.specs.Option.{option_copied};
ghost use Rattle.ix_commit.specs.Snapshot.{Snapshot};
ghost use Rattle.ix_model.specs.Given.{Chooser};
ghost use Rattle.ix_model.specs.Shown.{view};
ghost use Rattle.ix_model.specs.State.{spot_path, life_in};
ghost use Rattle.ix_model.specs.Step.{state_after};
ghost use Rattle.ix_model.specs.declared.commands.TimedCommand.{TimedCommand};
ghost use Rattle.ix_catalog.specs.Lists.{find};
ghost use Rattle.ix_model.specs.Shelved.{IsSet};

use crate::memory::StoreMemory;
use crate::store::Store;
use ix_base::Spot;
use ix_items::KeptList;
use ix_life::{LimitSet, View};

impl<M: StoreMemory + Drop> Store<M> {
    ghost use Rattle.ix_store.specs.Holding.{RepresentsStaged};

    /// Its indexes, their buckets, the ledger and the counts of events.
    pub fn view(&self) -> &View
        ensures { (choose : Chooser) (history : List TimedCommand) (base k : ℕ) (old : Snapshot) →
            RepresentsStaged M.Book.fits M.holds choose history base k self.now old →
            result.now ≡ view (state_after choose history) }
    {
        self.memory.view()
    }

    /// How far the file of this path was read, where it is watched.
    pub fn spot(&self, path: &[u8]) -> Option<&Spot>
        ensures { (choose : Chooser) (history : List TimedCommand) (base k : ℕ) (old : Snapshot) →
            RepresentsStaged M.Book.fits M.holds choose history base k self.now old →
            option_copied result ≡ find spot_path path.now (state_after choose history).spots }
    {
        self.memory.spot(path)
    }

    /// Whether a channel of this name is open.
    pub fn has_channel(&self, channel: &[u8]) -> bool
        ensures { (choose : Chooser) (history : List TimedCommand) (base k : ℕ) (old : Snapshot) →
            RepresentsStaged M.Book.fits M.holds choose history base k self.now old →
            result ≡ is_some (life_in (state_after choose history) channel.now) }
    {
        self.memory.has_channel(channel)
    }

    /// The settings in force, as they are kept.
    pub fn kept(&self) -> &KeptList
        ensures { (choose : Chooser) (history : List TimedCommand) (base k : ℕ) (old : Snapshot) →
            RepresentsStaged M.Book.fits M.holds choose history base k self.now old →
            result.now ≡ (state_after choose history).force }
    {
        self.memory.kept()
    }

    /// The limits of indexes that these settings give.
    pub fn limits(&self) -> &LimitSet
        ensures { (choose : Chooser) (history : List TimedCommand) (base k : ℕ) (old : Snapshot) →
            RepresentsStaged M.Book.fits M.holds choose history base k self.now old →
            IsSet (state_after choose history).force result.now }
    {
        self.memory.limits()
    }
}
