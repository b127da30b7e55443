//! A run that serves the requests of an input, whose replies go to an output. The program calls
//! `run_streams`.

ghost use Rattle.std.specs.Prelude.{◌≡◌, ◌≤◌, ℕ, ℤ, List, true, false, Some, Ok, Err, IfOk, IfErr, OnOk, OnErr, IsErrOf};
ghost use Rattle.std.specs.List.{AllByRecursion};
ghost use Rattle.ix_base.specs.Faults.{Rose};
ghost use Rattle.ix_base.specs.declared.files.File.{File};
ghost use Rattle.ix_disk.specs.Image.{Image};
ghost use Rattle.ix_sessions.specs.Reading.{ReadsTo};
ghost use Rattle.ix_run.specs.Resting.{ReadsShort};
ghost use Rattle.ix_serve.specs.Serving.{IsTold};
ghost use Rattle.ix_serve.specs.Taking.{TakesAsks};
ghost use Rattle.indexd_run.specs.Blamed.{HasMounted, Blames, ReadsBad};
ghost use Rattle.indexd_run.specs.Opened.{Begins, configuring, HasShut, Past, course};
ghost use Rattle.indexd_run.specs.Shortened.{StopsShort};
ghost use Rattle.indexd_run.specs.Stops.{is_output, is_input};
ghost use Rattle.indexd_serve.specs.Ends.{fed_of, is_short};
ghost use Rattle.indexd_serve.specs.Serving.{HasServed, Requests, exchange};
ghost use Rattle.indexd_serve.specs.Sides.{IsSound};

use crate::end::{End, end_of};
use crate::feed::run_feed;
use crate::streams::Streams;
use indexd_run::Stop;
use ix_base::{Clock, Sink, Source};
use ix_disk::Disk;
use ix_model::Config;
use ix_store::Listing;
use std::alloc::Global;

/// Opens the store of a disk with these settings, and serves the requests that come one behind the
/// other from the input; the replies go to the output. All that was accepted is committed at the
/// end, and the log is made short where it is long, unless the disk is at fault: where there is no
/// room in memory for that the end is `Memory` in place of any other, and where the disk fails at
/// it `Disk`. An error is what stops the run before the first request, and nothing is read or
/// written then.
pub fn run_streams<M: Listing + Drop, D: Disk, C: Clock, S: Source, W: Sink>(
    alloc: Global,
    disk: &mut D,
    clock: &mut C,
    config: Config,
    input: &mut S,
    output: &mut W,
) -> Result<End, Stop>
    requires settings { (moment : ℤ) → M.takes (configuring config moment) }
    requires asks { TakesAsks M.takes }
    // Requests are served over some prefix of what was there, with the settings in force, up to
    // this end. All replies are written, unless the count of the output has risen.
    ensures served { IfOk result (λ end. (past : Past) → M.is_chooser past.choose → AllByRecursion M.takes past.history →
        Begins D.Disk M.Book.fits past disk.old → (image : Image) → D.Disk.seen disk.old ≡ Some image →
        HasServed D.Disk M.takes M.Book.fits past (course config (C.ahead clock.old) (C.ahead clock.new) disk.old disk.new)
        (Requests D.Disk M.Book.fits (fed_of end) (IsSound (W.faults output.old) (W.faults output.new))
        (exchange (S.left input.old) (S.left input.new) (W.given output.old) (W.given output.new)))) }
    // Which requests were read, and where the run ended by them, goes by the bytes of the input,
    // whatever the disk holds.
    ensures reads { IfOk result (λ end. ReadsTo (fed_of end) (S.left input.old) (S.left input.new)) }
    // A run that stops before them has lost nothing, has its cause, and leaves the input and the
    // output alone.
    ensures shut { IfErr result (λ stop. (past : Past) → M.is_chooser past.choose → AllByRecursion M.takes past.history →
        Begins D.Disk M.Book.fits past disk.old → (image : Image) → D.Disk.seen disk.old ≡ Some image →
        HasShut stop D.Disk M.takes M.Book.fits past (course config (C.ahead clock.old) (C.ahead clock.new) disk.old disk.new)) }
    ensures unread { OnErr result (input.new ≡ input.old) }
    ensures unwritten { OnErr result (output.new ≡ output.old) }
    // Behind the run the current log is not long, as the disk reads; but for want of memory, where
    // the disk is at fault, or where nothing was mounted.
    ensures short { IfOk result (λ end. is_short (fed_of end) ≡ true → ReadsShort D.Disk disk.new) }
    ensures stopped_short { IfErr result (λ stop. StopsShort D.Disk M.Book.fits stop disk.old disk.new) }
    // Whatever the disk held: requests are served over a store that was mounted, and a stop before
    // them blames what the mount or the mounted store has met.
    ensures mounted { OnOk result (HasMounted D.Disk M.Book.fits disk.old) }
    ensures blamed { IfErr result (λ stop. Blames stop D.Disk M.Book.fits M.gives_none disk.old disk.new) }
    // Damage that ends the requests is named as the disk reads.
    ensures placed { (file : File) (at : ℕ) → result ≡ Ok (End.Damaged file at) → ReadsBad D.Disk disk.new file at }
    // What is on the disk is not damaged where it keeps what was committed and tells what it reads,
    ensures undamaged { (file : File) (at : ℕ) → result ≡ Err (Stop.Damaged file at) → (past : Past) → M.is_chooser past.choose →
        AllByRecursion M.takes past.history → Begins D.Disk M.Book.fits past disk.old → (image : Image) →
        D.Disk.seen disk.old ≡ Some image → ⊥ }
    ensures unbroken { (file : File) (at : ℕ) → result ≡ Ok (End.Damaged file at) → (past : Past) → M.is_chooser past.choose →
        AllByRecursion M.takes past.history → Begins D.Disk M.Book.fits past disk.old → (image : Image) →
        D.Disk.seen disk.old ≡ Some image → ⊥ }
    // and what is in memory contradicts nothing.
    ensures sound { IsErrOf result Stop.Inconsistent → (past : Past) → M.is_chooser past.choose → AllByRecursion M.takes past.history →
        Begins D.Disk M.Book.fits past disk.old → (image : Image) → D.Disk.seen disk.old ≡ Some image → ⊥ }
    ensures quiet { IfErr result (λ stop. is_output stop ≡ false) }
    ensures still { IfErr result (λ stop. is_input stop ≡ false) }
    // A disk that tells what it reads goes on telling, no count falls, and each fault has its
    // cause.
    ensures told { IsTold D.Disk disk.old → IsTold D.Disk disk.new }
    ensures read_later { S.faults input.old ≤ S.faults input.new }
    ensures written_later { W.faults output.old ≤ W.faults output.new }
    ensures later { D.Disk.faults disk.old ≤ D.Disk.faults disk.new }
    ensures cause { IsErrOf result Stop.Disk → Rose (D.Disk.faults disk.old) (D.Disk.faults disk.new) }
    ensures disk { result ≡ Ok End.Disk → Rose (D.Disk.faults disk.old) (D.Disk.faults disk.new) }
    ensures input { result ≡ Ok End.Input → Rose (S.faults input.old) (S.faults input.new) }
    ensures output { result ≡ Ok End.Output → Rose (W.faults output.old) (W.faults output.new) }
{
    let mut link = Streams::new(input, output);
    match run_feed::<M, D, C, Streams<S, W>>(alloc, disk, clock, config, &mut link) {
        Ok(fed) => Ok(end_of(fed, link.failed)),
        Err(stop) => Err(stop),
    }
}
