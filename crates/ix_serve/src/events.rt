//! The lines of an index, kept in memory up to a limit before they are replied with.

ghost use Rattle.std.specs.Prelude.{◌≡◌, ◌≤◌, ◌⊎◌, ℕ, List, [], Option, Some, Err, length, nat_le, if◌then◌else◌, true, IfOk, IfErr, OnOk};
ghost use Rattle.std.specs.Prelude.{OnErr, false};
ghost use Rattle.std.specs.List.{AllByRecursion};
ghost use Rattle.ix_base.specs.Faults.{HasCause, Rose};
ghost use Rattle.ix_base.specs.Told.{HasWritten, HasBegun};
ghost use Rattle.ix_disk.specs.Image.{Stays};
ghost use Rattle.ix_disk.specs.Moments.{Always, ImagesStep};
ghost use Rattle.ix_http.specs.declared.kinds.Ask.TheVariants as asks;
ghost use Rattle.ix_commit.specs.Snapshot.{KnowsLogLength, LogsAtEnd};
ghost use Rattle.ix_commit.specs.declared.fault.CommitFault.TheVariants as commits;
ghost use Rattle.ix_net.specs.Links.{LinkStep as GoesLink};
ghost use Rattle.ix_model.specs.Given.{Chooser};
ghost use Rattle.ix_model.specs.declared.commands.TimedCommand.{TimedCommand};
ghost use Rattle.ix_serve.specs.Answer.{MayBe};
ghost use Rattle.ix_serve.specs.Entries.{Entry, entry};
ghost use Rattle.ix_serve.specs.Kinds.{kind};
ghost use Rattle.ix_serve.specs.Exports.{reply_of, MayReply, IsNoDamage, IsPlacedBy};
ghost use Rattle.ix_serve.specs.Prefixes.{StandsIn};
ghost use Rattle.ix_serve.specs.Replies.{most_lines};
ghost use Rattle.ix_serve.specs.Serving.{Answers, Comes, Gave, IsClean, IsOpen, IsPlaced, IsReplied, IsTold, outcome, still_open};
ghost use Rattle.ix_store.specs.Holding.{Represents, is_closed};

use crate::replies::{decline, give, give_refusal, give_unread, give_up};
use crate::served::{ServeFault, Served};
use ix_base::{Bytes, Failed, Range, Sink};
use ix_commit::CommitFault;
use ix_disk::Disk;
use ix_http::{HttpFault, Kind};
use ix_model::Refusal;
use ix_net::Link;
use ix_store::{ExportFault, Store, StoreMemory};
use std::alloc::Global;

/// The most bytes of lines that a reply has.
const MOST: usize = 16_777_216;

/// Lines in memory. It fails where there are more than `MOST` bytes of them, and keeps one more
/// then.
#[derive(Drop)]
struct Lines {
    bytes: Bytes,
    faults: u64,
}

impl Lines {
    fn fail(&mut self) -> Failed
        ensures rose { Rose self.old.faults self.new.faults }
        ensures later { self.old.faults ≤ self.new.faults }
        ensures bytes { self.new.bytes ≡ self.old.bytes }
    {
        self.faults = self.faults.saturating_add(1);
        Failed
    }
}

impl Sink for Lines {
    ghost given = { λ s. Some s.bytes };

    ghost faults = { λ s. s.faults };

    fn put(&mut self, bytes: &[u8]) -> Result<(), Failed> {
        let room = (MOST + 1).saturating_sub(self.bytes.len());
        if bytes.len() >= room {
            let _ = self.bytes.extend(&bytes[..room]);
            return Err(self.fail());
        }
        if self.bytes.extend(bytes).is_err() {
            return Err(self.fail());
        }
        Ok(())
    }
}

/// What an export comes to.
#[derive(Drop)]
pub(crate) enum Exported {
    /// The lines.
    Lines { text: Bytes },
    /// There are too many.
    TooLong,
    /// The store refuses it, or there is no room in memory.
    Refused { refusal: Refusal },
}

/// What the lines come to, of which all are there, or so many that there are too many.
fn of_lines(lines: Lines) -> Exported
    ensures { result ≡ (if nat_le (length lines.bytes) most_lines then Exported.Lines lines.bytes else Exported.TooLong) }
{
    if lines.bytes.len() <= MOST {
        Exported::Lines { text: lines.bytes }
    } else {
        Exported::TooLong
    }
}

/// What the lines come to that could not all be kept.
fn of_rest(lines: &Lines) -> Exported
    ensures { result ≡ (if nat_le (length lines.now.bytes) most_lines then Exported.Refused Refusal.NoMemory else Exported.TooLong) }
{
    if lines.bytes.len() <= MOST {
        Exported::Refused {
            refusal: Refusal::NoMemory,
        }
    } else {
        Exported::TooLong
    }
}

/// The lines of an index, where nothing is staged.
fn export_lines<M: StoreMemory + Drop, D: Disk>(
    alloc: Global,
    store: &mut Store<M>,
    index: &[u8],
    range: &Range,
    disk: &mut D,
) -> Result<Exported, CommitFault>
    ensures reply { IfOk result (λ exported. (e : Entry) → M.is_chooser e.choose → AllByRecursion M.takes e.history →
        Represents D.Disk M.Book.fits M.holds e.choose e.history e.base (length e.history) store.old disk.old →
        MayReply (IsTold D.Disk disk.new) e index.now range.now (reply_of exported)) }
    ensures held { (choose : Chooser) (history : List TimedCommand) (base k : ℕ) →
        Represents D.Disk M.Book.fits M.holds choose history base k store.old disk.old →
        OnOk result (Represents D.Disk M.Book.fits M.holds choose history base k store.new disk.new) }
    ensures undamaged { IfErr result (λ cause. (choose : Chooser) (history : List TimedCommand) (base : ℕ) → M.is_chooser choose →
        AllByRecursion M.takes history →
        Represents D.Disk M.Book.fits M.holds choose history base (length history) store.old disk.old → IsNoDamage D.Disk disk.new cause) }
    ensures measured { KnowsLogLength D.Disk store.old.committer disk.old → KnowsLogLength D.Disk store.new.committer disk.new }
    ensures closed { OnErr result (is_closed store.new ≡ true) }
    ensures placed { IfErr result (λ cause. IsPlacedBy D.Disk (M.shown store.new.memory) disk.new cause) }
    ensures run { store.new.run ≡ store.old.run }
    ensures memory { store.new.memory ≡ store.old.memory }
    ensures same { D.Disk.seen disk.new ≡ D.Disk.seen disk.old }
    ensures over { LogsAtEnd D.Disk store.old.committer disk.old → LogsAtEnd D.Disk store.new.committer disk.new }
    ensures later { D.Disk.faults disk.old ≤ D.Disk.faults disk.new }
    ensures failed { IfErr result (λ cause. cause ≡ commits.Disk → Rose (D.Disk.faults disk.old) (D.Disk.faults disk.new)) }
    ensures images { ImagesStep D.Disk disk.old disk.new Stays }
{
    let mut lines = Lines {
        bytes: Bytes::new(alloc),
        faults: 0,
    };
    match store.export(disk, index, range, &mut lines) {
        Ok(_) => Ok(of_lines(lines)),
        Err(ExportFault::Output) => Ok(of_rest(&lines)),
        Err(ExportFault::NoMemory) => Ok(Exported::Refused {
            refusal: Refusal::NoMemory,
        }),
        Err(ExportFault::UnknownIndex) => Ok(Exported::Refused {
            refusal: Refusal::UnknownIndex,
        }),
        Err(ExportFault::Closed) => Ok(Exported::Refused {
            refusal: Refusal::Closed,
        }),
        Err(ExportFault::Disk) => Err(CommitFault::Disk),
        Err(ExportFault::Damaged { file, at }) => Err(CommitFault::Damaged { file, at }),
    }
}

/// Makes all durable, and then the lines of an index.
fn committed_lines<M: StoreMemory + Drop, D: Disk>(
    alloc: Global,
    store: &mut Store<M>,
    index: &[u8],
    range: &Range,
    disk: &mut D,
) -> Result<Exported, CommitFault>
    requires over { LogsAtEnd D.Disk store.old.committer disk.old }
    ensures reply { IfOk result (λ exported. (e : Entry) → M.is_chooser e.choose → AllByRecursion M.takes e.history →
        Represents D.Disk M.Book.fits M.holds e.choose e.history e.base e.kept store.old disk.old →
        MayReply (IsTold D.Disk disk.new) e index.now range.now (reply_of exported)) }
    ensures held { (choose : Chooser) (history : List TimedCommand) (base k : ℕ) →
        Represents D.Disk M.Book.fits M.holds choose history base k store.old disk.old →
        OnOk result (Represents D.Disk M.Book.fits M.holds choose history base (length history) store.new disk.new) }
    ensures undamaged { IfErr result (λ cause. (choose : Chooser) (history : List TimedCommand) (base k : ℕ) → M.is_chooser choose →
        AllByRecursion M.takes history →
        Represents D.Disk M.Book.fits M.holds choose history base k store.old disk.old → IsNoDamage D.Disk disk.new cause) }
    ensures measured { KnowsLogLength D.Disk store.old.committer disk.old →
        OnOk result (KnowsLogLength D.Disk store.new.committer disk.new) }
    ensures closed { OnErr result (is_closed store.new ≡ true) }
    ensures placed { IfErr result (λ cause. IsPlacedBy D.Disk (M.shown store.new.memory) disk.new cause) }
    ensures run { store.new.run ≡ store.old.run }
    ensures memory { store.new.memory ≡ store.old.memory }
    ensures told { IsTold D.Disk disk.old → IsTold D.Disk disk.new }
    ensures over { OnOk result (LogsAtEnd D.Disk store.new.committer disk.new) }
    ensures later { D.Disk.faults disk.old ≤ D.Disk.faults disk.new }
    ensures failed { IfErr result (λ cause. cause ≡ commits.Disk → Rose (D.Disk.faults disk.old) (D.Disk.faults disk.new)) }
    ensures images { (choose : Chooser) (history : List TimedCommand) (base k : ℕ) →
        Represents D.Disk M.Book.fits M.holds choose history base k store.old disk.old →
        Always D.Disk disk.old disk.new (StandsIn M.Book.fits store.old.run choose history k) }
{
    match store.commit(disk) {
        Ok(()) => export_lines(alloc, store, index, range, disk),
        Err(cause) => Err(cause),
    }
}

/// Writes what an export comes to.
fn give_exported<K: Link>(link: &mut K, exported: &Exported) -> Result<Served, ServeFault>
    ensures gave { Gave (Some (reply_of exported.now)) true
        (IsClean (K.faults link.old) (K.faults link.new) (K.standing link.old) (K.standing link.new)) result (K.given link.old)
        (K.given link.new) }
    ensures left { K.left link.new ≡ K.left link.old }
    ensures open { IsOpen result }
    ensures goes { GoesLink (K.standing link.old) (K.standing link.new) }
    ensures later { K.faults link.old ≤ K.faults link.new }
    ensures failed { result ≡ Err ServeFault.Link → Rose (K.faults link.old) (K.faults link.new) }
{
    match exported {
        Exported::Lines { text } => give(link, 200, Kind::Plain, text.as_slice(), true),
        Exported::TooLong => give_unread(link, HttpFault::TooLong, true),
        Exported::Refused { refusal } => give_refusal(link, *refusal),
    }
}

/// Makes all durable, and answers the lines of an index.
pub(crate) fn serve_events<K: Link, M: StoreMemory + Drop, D: Disk>(
    alloc: Global,
    store: &mut Store<M>,
    link: &mut K,
    index: &Bytes,
    range: Range,
    moment: i64,
    disk: &mut D,
) -> Result<Served, ServeFault>
    requires over { LogsAtEnd D.Disk store.old.committer disk.old }
    ensures answers { (choose : Chooser) (history : List TimedCommand) (base k : ℕ) → M.is_chooser choose → AllByRecursion M.takes history →
        Represents D.Disk M.Book.fits M.holds choose history base k store.old disk.old →
        Answers D.Disk (kind M.takes M.Book.fits M.holds) (entry choose history base k store.old.run moment)
        (MayBe (entry choose history base k store.old.run moment) (IsTold D.Disk disk.new) (asks.Events index.now range) result) true
        (outcome result (IsClean (K.faults link.old) (K.faults link.new) (K.standing link.old) (K.standing link.new)) (K.given link.old)
        (K.given link.new)) store.new disk.old disk.new }
    ensures left { K.left link.new ≡ K.left link.old }
    ensures over { IsOpen result → LogsAtEnd D.Disk store.new.committer disk.new }
    ensures measured { KnowsLogLength D.Disk store.old.committer disk.old → IsOpen result →
        KnowsLogLength D.Disk store.new.committer disk.new }
    ensures closed { still_open result ≡ false → is_closed store.new ≡ true }
    ensures placed { IsPlaced D.Disk (M.shown store.new.memory) disk.new result }
    ensures replied { IsReplied true result }
    ensures run { store.new.run ≡ store.old.run }
    ensures memory { store.new.memory ≡ store.old.memory }
    ensures told { IsTold D.Disk disk.old → IsTold D.Disk disk.new }
    ensures goes { GoesLink (K.standing link.old) (K.standing link.new) }
    ensures comes { Comes (K.faults link.old) (K.faults link.new) (D.Disk.faults disk.old) (D.Disk.faults disk.new) result }
{
    match committed_lines(alloc, store, index.as_slice(), &range, disk) {
        Ok(exported) => give_exported(link, &exported),
        Err(cause) => give_up(link, cause),
    }
}
