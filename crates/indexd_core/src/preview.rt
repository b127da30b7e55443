//! `preview`: the input as one closed stream, and a line for each event that it comes to. An event
//! may be of several lines of the input.

ghost use Rattle.std.specs.Prelude.{◌≡◌, ◌≢◌, ◌≤◌, ◌<◌, ℕ, ℤ, List, [], ◌++◌, length, take, true, false, IfOk, OnOk, IfErr, OnErr, Option};
ghost use Rattle.std.specs.Prelude.{Some, IfSome, IsSome, vec_len};
ghost use Rattle.indexd_core.specs.Stops.{stop_status};
ghost use Rattle.ix_base.specs.Faults.{Rose};
ghost use Rattle.ix_base.specs.Told.{Told, Took, HasWritten, HasBegun};
ghost use Rattle.ix_props.specs.Settings.{AreUsable};
ghost use Rattle.indexd_core.specs.Origins.{stated_of};
ghost use Rattle.indexd_core.specs.declared.prepare.PreparedPreview.{PreparedPreview as Ready};
ghost use Rattle.indexd_core.specs.Sides.{side, IsAtEnd};
ghost use Rattle.indexd_core.specs.Texts.{lines_of};
ghost use Rattle.indexd_core.specs.Runs.{Runs, RunsPrepared, Previews, text_of};
ghost use Rattle.indexd_core.specs.Around.{outside_of};

use crate::events::EventWriter;
use crate::prepare::{PreparedPreview, prepare, say_stop};
use crate::status::{Status, say};
use indexd_cli::Origin;
use ix_base::{Clock, NoMemory, Sink, Source, Steps};
use ix_fs::Tree;
use ix_parse::Channel;
use std::alloc::Global;
use std::marker::Brand;
use std::sync::ledger::{Blank, Ledger};
use thiserror::Error;

/// How many bytes of input are taken at the most.
const INPUT_LIMIT: u64 = 1 << 40;

/// How many bytes are read at once. The lines and events of so many are in memory together, and
/// should find room in the caches of a processor.
const BLOCK: usize = 1 << 16;

/// A run of `preview`.
#[derive(Drop)]
pub struct Preview {
    pub channel: Channel,
    /// The moment at which all its bytes arrive. An event without a date of its own has it too, or
    /// an earlier event's time.
    pub moment: i64,
    events: EventWriter,
}

/// Why a run stops before its end.
#[derive(Clone, Copy, Debug, PartialEq, Eq, Error)]
pub enum Stop {
    /// There was no room in memory.
    #[error("there was no room in memory")]
    Memory,
    /// Reading failed.
    #[error("reading failed")]
    Input,
    /// Writing failed.
    #[error("writing failed")]
    Output,
}

impl Stop {
    fn status(self) -> Status
        ensures { result ≡ stop_status self }
    {
        match self {
            Stop::Memory => Status::Memory,
            Stop::Input => Status::Input,
            Stop::Output => Status::Output,
        }
    }
}

/// Room for the bytes that are read at once.
fn make_block(alloc: Global) -> Result<Vec<u8>, NoMemory>
    ensures { IfOk result (λ block. 0 < vec_len block) }
{
    let block = vec![in alloc; 0u8; BLOCK]?;
    Ok(block)
}

impl Preview {
    ghost use Rattle.indexd_core.specs.Steps.{Holds, Advances, StepStops, ReadsAll, RunStops, EndsAll, EndStops};

    /// A run that has read nothing yet.
    fn start(alloc: Global, prepared: PreparedPreview, moment: i64) -> Result<Preview, NoMemory>
        requires meta { IsSome prepared.meta.index }
        requires usable { AreUsable prepared.settings }
        ensures holds { IfOk result (λ preview. Holds prepared [] preview) }
        ensures moment { IfOk result (λ preview. preview.moment ≡ moment) }
    {
        let channel = Channel::start(alloc, prepared.settings, prepared.meta)?;
        Ok(Preview {
            channel,
            moment,
            events: EventWriter::new(alloc, prepared.limits),
        })
    }

    /// Reads a block, takes it in and writes the lines of the events that it settles; 0 bytes at
    /// the end of the input.
    fn take_block<S: Source, W: Sink, L: Ledger>(
        &mut self,
        block: &mut [u8],
        input: &mut S,
        output: &mut W,
        steps: &mut Steps<L>,
    ) -> Result<usize, Stop>
        ensures taken { IfOk result (λ n. (n ≤ length block.old) × Advances (take n block.new) self.old self.new
            (side (S.faults input.old) (S.left input.old)) (side (S.faults input.new) (S.left input.new))
            (side (W.faults output.old) (W.given output.old)) (side (W.faults output.new) (W.given output.new))) }
        ensures end { IfOk result (λ n. n ≡ 0 → 0 < length block.old → IfSome (S.left input.new) (λ bytes. bytes ≡ [])) }
        ensures stopped { IfErr result (λ stop. StepStops stop self.old
            (side (S.faults input.old) (S.left input.old)) (side (S.faults input.new) (S.left input.new))
            (side (W.faults output.old) (W.given output.old)) (side (W.faults output.new) (W.given output.new))) }
        ensures read_later { S.faults input.old ≤ S.faults input.new }
        ensures written_later { W.faults output.old ≤ W.faults output.new }
    {
        let Ok(n) = input.read(block) else {
            return Err(Stop::Input);
        };
        if n == 0 {
            return Ok(0);
        }
        let Ok(fed) = self.channel.fed(&block[..n], self.moment, steps) else {
            return Err(Stop::Memory);
        };
        self.events.put(&fed.1, output)?;
        self.channel = fed.0;
        Ok(n)
    }

    /// Reads the input to its end, or up to the limit, and writes the lines of the events that it
    /// settles; whether it came to the end.
    fn read_all<S: Source, W: Sink, L: Ledger>(
        &mut self,
        block: &mut [u8],
        input: &mut S,
        output: &mut W,
        steps: &mut Steps<L>,
    ) -> Result<bool, Stop>
        requires { 0 < length block.old }
        ensures all { IfOk result (λ ended. (prepared : Ready) → Holds prepared [] self.old →
            ReadsAll ended prepared self.new
            (side (S.faults input.old) (S.left input.old)) (side (S.faults input.new) (S.left input.new))
            (side (W.faults output.old) (W.given output.old)) (side (W.faults output.new) (W.given output.new))) }
        ensures stopped { IfErr result (λ stop. (prepared : Ready) → Holds prepared [] self.old →
            RunStops stop (text_of prepared self.old.moment)
            (side (S.faults input.old) (S.left input.old)) (side (S.faults input.new) (S.left input.new))
            (side (W.faults output.old) (W.given output.old)) (side (W.faults output.new) (W.given output.new))) }
        ensures moment { OnOk result (self.new.moment ≡ self.old.moment) }
        ensures read_later { S.faults input.old ≤ S.faults input.new }
        ensures written_later { W.faults output.old ≤ W.faults output.new }
    {
        let mut taken: u64 = 0;
        while taken < INPUT_LIMIT {
            let room = (INPUT_LIMIT - taken).min(block.len() as u64) as usize;
            let n = self.take_block(&mut block[..room], input, output, steps)?;
            if n == 0 {
                return Ok(true);
            }
            taken += n as u64;
        }
        Ok(false)
    }

    /// Writes the lines of the events that the end of the input settles.
    fn finish<W: Sink>(&mut self, output: &mut W) -> Result<(), Stop>
        ensures all { OnOk result (EndsAll self.old
            (side (W.faults output.old) (W.given output.old)) (side (W.faults output.new) (W.given output.new))) }
        ensures stopped { IfErr result (λ stop. EndStops stop self.old
            (side (W.faults output.old) (W.given output.old)) (side (W.faults output.new) (W.given output.new))) }
        ensures later { W.faults output.old ≤ W.faults output.new }
    {
        let Ok(routed) = self.channel.ended() else {
            return Err(Stop::Memory);
        };
        self.events.put(&routed, output)?;
        Ok(())
    }

    /// Reads the input to its end and writes the lines of its events. Steps are counted in a ledger
    /// that the blank one opens.
    fn run<S: Source, W: Sink, L: Ledger>(
        &mut self,
        block: &mut [u8],
        input: &mut S,
        output: &mut W,
        blank: Blank,
    ) -> Status
        requires block { 0 < length block.old }
        requires name { blank.name ≡ L.name }
        requires parts { blank.parts ≡ L.parts }
        requires some { 0 < blank.parts }
        ensures run { (prepared : Ready) → Holds prepared [] self.old →
            Runs result (text_of prepared self.old.moment)
            (side (S.faults input.old) (S.left input.old)) (side (S.faults input.new) (S.left input.new))
            (side (W.faults output.old) (W.given output.old)) (side (W.faults output.new) (W.given output.new)) }
        ensures read_later { S.faults input.old ≤ S.faults input.new }
        ensures written_later { W.faults output.old ≤ W.faults output.new }
    {
        let mut steps = Steps::<L>::new(blank);
        match self.read_all(block, input, output, &mut steps) {
            Ok(true) => {}
            Ok(false) => return Status::Endless,
            Err(stop) => return stop.status(),
        }
        match self.finish(output) {
            Ok(()) => Status::Done,
            Err(stop) => stop.status(),
        }
    }
}

/// The lines of the input's events, all before the line of the status.
fn preview_lines<S: Source, W: Sink>(
    alloc: Global,
    prepared: PreparedPreview,
    moment: i64,
    input: &mut S,
    output: &mut W,
) -> Status
    requires meta { IsSome prepared.meta.index }
    requires usable { AreUsable prepared.settings }
    ensures runs { Runs result (text_of prepared moment)
        (side (S.faults input.old) (S.left input.old)) (side (S.faults input.new) (S.left input.new))
        (side (W.faults output.old) (W.given output.old)) (side (W.faults output.new) (W.given output.new)) }
    ensures read_later { S.faults input.old ≤ S.faults input.new }
    ensures written_later { W.faults output.old ≤ W.faults output.new }
{
    let Ok(mut block) = make_block(alloc) else {
        drop(prepared);
        return Status::Memory;
    };
    let Ok(mut preview) = Preview::start(alloc, prepared, moment) else {
        return Status::Memory;
    };
    preview.run::<S, W, Brand>(&mut block, input, output, Blank::new(1))
}

/// Reads the input as one closed stream, all of whose bytes arrive at the moment that the clock
/// shows first, and writes the lines of its events and the line of the status.
fn preview_input<S: Source, W: Sink, C: Clock>(
    alloc: Global,
    prepared: PreparedPreview,
    input: &mut S,
    output: &mut W,
    clock: &mut C,
) -> Status
    requires meta { IsSome prepared.meta.index }
    requires usable { AreUsable prepared.settings }
    ensures previews { RunsPrepared result prepared (C.ahead clock.old) (C.ahead clock.new)
        (side (S.faults input.old) (S.left input.old)) (side (S.faults input.new) (S.left input.new))
        (side (W.faults output.old) (W.given output.old)) (side (W.faults output.new) (W.given output.new)) }
    ensures read_later { S.faults input.old ≤ S.faults input.new }
    ensures written_later { W.faults output.old ≤ W.faults output.new }
{
    let moment = clock.now();
    let status = preview_lines(alloc, prepared, moment, input, output);
    say(status, output);
    status
}

/// Prepares a preview by the files of the tree, and runs it, or says why it was not prepared.
pub fn run_preview<S: Source, W: Sink, C: Clock, T: Tree>(
    alloc: Global,
    origin: Origin<'_>,
    input: &mut S,
    output: &mut W,
    clock: &mut C,
    tree: &mut T,
) -> Status
    ensures previews { Previews result (stated_of origin.entry)
        (outside_of S.Source W.Sink C.Clock T.Tree input.old output.old clock.old tree.old)
        (outside_of S.Source W.Sink C.Clock T.Tree input.new output.new clock.new tree.new) }
    ensures same { T.files tree.new ≡ T.files tree.old }
    ensures read_later { S.faults input.old ≤ S.faults input.new }
    ensures written_later { W.faults output.old ≤ W.faults output.new }
    ensures tree_later { T.faults tree.old ≤ T.faults tree.new }
    ensures missing_later { T.missing tree.old ≤ T.missing tree.new }
{
    match prepare(alloc, origin, tree) {
        Ok(prepared) => preview_input(alloc, prepared, input, output, clock),
        Err(stop) => {
            let status = say_stop(alloc, &stop, output);
            drop(stop);
            status
        }
    }
}
