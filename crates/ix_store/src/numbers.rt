//! The numbers of a run, and whether a commit is due. Whoever serves requests, or runs a command of
//! the program, asks for them.

ghost use Rattle.std.specs.Prelude.{◌≡◌, ◌==◌, ◌&&◌, ◌||◌, ℕ, List, Bool, length, take, drop, nat_lt, nat_le};
ghost use Rattle.ix_commit.specs.Snapshot.{Snapshot};
ghost use Rattle.ix_model.specs.Given.{Chooser};
ghost use Rattle.ix_model.specs.declared.commands.TimedCommand.{TimedCommand};
ghost use Rattle.ix_store.specs.Counting.{numbers, is_due};

use crate::memory::StoreMemory;
use crate::store::Store;

/// Whether so many numbers, so many bytes, or a Tick or a Configure make a commit due.
fn makes_due(numbered: u64, weight: u64, turned: bool) -> bool
    ensures { result ≡ (nat_le 64 numbered || (nat_le 1048576 weight || turned)) }
{
    numbered >= 64 || weight >= 1_048_576 || turned
}

impl<M: StoreMemory + Drop> Store<M> {
    ghost use Rattle.ix_store.specs.Holding.{RepresentsStaged};

    /// Whether the commands that are not committed are to be: they drew 64 numbers or brought
    /// 1,048,576 bytes or more, or one of them is a Tick or a Configure.
    pub fn due(&self) -> bool
        ensures { (choose : Chooser) (history : List TimedCommand) (base k : ℕ) (old : Snapshot) →
            RepresentsStaged M.Book.fits M.holds choose history base k self.now old →
            result ≡ is_due (drop k history) }
    {
        let numbered = self.drawn.saturating_sub(self.committed);
        makes_due(numbered, self.group.weight, self.group.turned)
    }

    /// Whether a command is not committed.
    pub fn staged(&self) -> bool
        ensures { (choose : Chooser) (history : List TimedCommand) (base k : ℕ) (old : Snapshot) →
            RepresentsStaged M.Book.fits M.holds choose history base k self.now old →
            result ≡ nat_lt k (length history) }
    {
        self.group.waiting
    }

    /// The number of the run.
    pub fn run(&self) -> u64
        ensures { result ≡ self.now.run }
    {
        self.run
    }

    /// How many numbers the run has drawn.
    pub fn drawn(&self) -> u64
        ensures { (choose : Chooser) (history : List TimedCommand) (base k : ℕ) (old : Snapshot) →
            RepresentsStaged M.Book.fits M.holds choose history base k self.now old →
            result ≡ numbers (drop base history) }
    {
        self.drawn
    }

    /// Whether the command that drew this number in this run is committed. Of another run none is.
    pub fn acked(&self, run: u64, number: u64) -> bool
        ensures { (choose : Chooser) (history : List TimedCommand) (base k : ℕ) (old : Snapshot) →
            RepresentsStaged M.Book.fits M.holds choose history base k self.now old →
            result ≡ ((run == self.now.run) && nat_lt number (numbers (drop base (take k history)))) }
    {
        run == self.run && number < self.committed
    }
}
