//! A channel. Whoever has the bytes of a stream feeds them to it, block by block.

ghost use Rattle.std.specs.Prelude.{◌≡◌, ◌<◌, ◌≤◌, ◌+◌, ◌*◌, ℕ, List, [], ◌++◌, length, IfOk, IsSome, IsFalse, Err, false, true};
ghost use Rattle.std.specs.List.{All};
ghost use Rattle.ix_base.specs.Clocks.{clamped};
ghost use Rattle.ix_base.specs.Stream.{Dated, dated};
ghost use Rattle.ix_base.specs.declared.events.ChannelMeta.{ChannelMeta};
ghost use Rattle.ix_parse.specs.Form.{IsCarryOf};
ghost use Rattle.ix_parse.specs.Spelling.{spell};
ghost use Rattle.ix_parse.specs.declared.carry.Carry.{Carry as Carried};
ghost use Rattle.ix_lines.specs.Lines.{IsShort};
ghost use Rattle.ix_lines.specs.Parts.{moved};
ghost use Rattle.ix_props.specs.Settings.{AreUsable};
ghost use Rattle.ix_props.specs.declared.settings.Settings.{Settings as Chosen};
ghost use Rattle.ix_parse.specs.Carry.{rules_of, carry_of, HasMoments};
ghost use Rattle.ix_parse.specs.Limits.{KeepsLimits, IsSmall};
ghost use Rattle.ix_parse.specs.Settled.{channel_lines, settled};
ghost use Rattle.ix_parse.specs.Stage.{TakenIn};
ghost use Rattle.ix_parse.specs.Standing.{StandsFor};

use crate::carry::{Carry, CarryRules, ResumeFault};
use crate::outcomes::{Outcomes, Owner};
use crate::reading::read_carry;
use ix_base::{Bytes, ChannelMeta, LineList, NoMemory, RoutedList, Steps};
use ix_lines::Lines;
use ix_merge::Merge;
use ix_props::Settings;
use std::alloc::Global;
use std::marker::{Brand, Model};
use std::rc::Rc;
use std::sync::ledger::{Blank, Ledger};

/// What was chosen and stated for a channel. The channels that go on from one another share it.
struct Origin {
    settings: Settings,
    meta: ChannelMeta,
}

/// It is written out, so that each place where one is let go is a call of it, which is proved once.
impl Drop for Origin {
    fn drop(self) {
        let Origin {
            settings: _,
            meta: _,
        } = self;
    }
}

/// A stream of bytes with what is known of it. Its bytes are cut into lines, the lines are merged
/// into events, and each event is dated and changed, all by the settings that were chosen for it.
/// It holds back what later bytes may still change: the bytes at which a break may begin, the open
/// line, and the open event.
pub struct Channel {
    alloc: Global,
    origin: Rc<Origin>,
    /// They stand in a place of their own, so that a channel is handed on with few bytes.
    lines: Box<Lines>,
    merge: Merge,
    /// The latest time that was read of an event and accepted.
    latest: Option<i64>,
}

/// It is written out, so that each place where one is let go is a call of it, which is proved once.
impl Drop for Channel {
    fn drop(self) {
        let Channel {
            alloc: _,
            origin: _,
            lines: _,
            merge: _,
            latest: _,
        } = self;
    }
}

impl Model for Channel {
    ghost use Rattle.std.specs.Prelude.{IsFalse};
    ghost use Rattle.ix_props.specs.Settings.{AreUsable};
    ghost use Rattle.ix_parse.specs.Standing.{Kept};

    ghost Value = { Kept };

    ghost view = { λ c. record {
      settings = c.origin.value.settings;
      meta = c.origin.value.meta;
      lines = c.lines.value;
      merge = c.merge;
      latest = c.latest;
    } };

    ghost invariant = { λ c. IsFalse c.merge.broken × AreUsable c.origin.value.settings };
}

/// The settings that a carry is judged by.
fn rules_of(settings: &Settings) -> CarryRules
    ensures { result ≡ rules_of settings.now }
{
    CarryRules {
        truncate: settings.truncate,
        merging: settings.merge.on,
        max_lines: settings.merge.max_lines,
    }
}

/// The lines, the events and the latest accepted time with which a channel with these settings goes
/// on from a carry.
fn resumed(
    alloc: Global,
    settings: &Settings,
    carry: &[u8],
) -> Result<(Lines, Merge, Option<i64>), ResumeFault>
    requires { AreUsable settings.now }
    ensures stands { IfOk result (λ r. (meta : ChannelMeta) (stream : List Dated) →
        IsCarryOf (rules_of settings.now) carry.now (carry_of settings.now stream) →
        StandsFor settings.now meta stream (record { settings = settings.now; meta = meta; lines = r.0; merge = r.1; latest = r.2 })) }
    ensures whole { IfOk result (λ r. IsFalse r.1.broken) }
    ensures read { IfOk result (λ r. (said : Carried) × IsCarryOf (rules_of settings.now) carry.now said) }
    ensures bad { result ≡ Err ResumeFault.BadCarry → (said : Carried) → IsCarryOf (rules_of settings.now) carry.now said → ⊥ }
{
    let said = read_carry(alloc, rules_of(settings), carry)?;
    let breaker = settings.breaker.copy()?;
    let lines = Lines::resume(alloc, breaker, settings.truncate, said.lines)?;
    let merge = Merge::resume(
        alloc,
        settings.merge.on,
        settings.merge.max_lines,
        said.merge,
    );
    Ok((lines, merge, said.latest))
}

/// The channel of these parts.
fn channel_of(
    alloc: Global,
    origin: Origin,
    lines: Lines,
    merge: Merge,
    latest: Option<i64>,
) -> Result<Channel, NoMemory>
    requires whole { IsFalse merge.broken }
    requires usable { AreUsable origin.settings }
    ensures { IfOk result (λ channel. channel ≡ record {
      settings = origin.settings;
      meta = origin.meta;
      lines = lines;
      merge = merge;
      latest = latest;
    }) }
{
    let origin = Rc::new(alloc, origin)?;
    let lines = Box::new(alloc, lines)?;
    Ok(Channel {
        alloc,
        origin,
        lines,
        merge,
        latest,
    })
}

impl Channel {
    /// A channel that has no byte yet. The settings are such as `Props::settings` gives. The
    /// metadata name the index.
    pub fn start(alloc: Global, settings: Settings, meta: ChannelMeta) -> Result<Channel, NoMemory>
        requires meta { IsSome meta.index }
        requires usable { AreUsable settings }
        ensures { IfOk result (λ channel. StandsFor settings meta [] channel) }
    {
        let lines = Lines::new(alloc, settings.breaker.copy()?, settings.truncate)?;
        let merge = Merge::new(alloc, settings.merge.on, settings.merge.max_lines);
        let channel = channel_of(alloc, Origin { settings, meta }, lines, merge, None)?;
        Ok(channel)
    }

    /// Whose events those of this channel are.
    fn owner(&self) -> Owner<'_>
        ensures settings { result.settings.now ≡ self.now.settings }
        ensures meta { result.meta.now ≡ self.now.meta }
        ensures usable { AreUsable result.settings.now }
    {
        Owner {
            alloc: self.alloc,
            settings: &self.origin.settings,
            meta: &self.origin.meta,
        }
    }

    /// The latest accepted time, and no event yet.
    fn outcomes(&self) -> Outcomes
        ensures latest { result.latest ≡ self.now.latest }
        ensures routed { result.routed ≡ [] }
    {
        Outcomes {
            latest: self.latest,
            routed: RoutedList::new(self.alloc),
        }
    }

    /// The events once these lines have come behind those of this channel, and what they settle.
    fn taken(&self, lines: LineList) -> Result<(Merge, Outcomes), NoMemory>
        requires { All IsShort lines }
        ensures takes { IfOk result (λ taken. (settings : Chosen) (meta : ChannelMeta) (stream : List Dated) →
            StandsFor settings meta stream self.now → TakenIn settings meta stream lines taken.0 taken.1) }
        ensures small { IfOk result (λ taken. KeepsLimits self.now.settings self.now.meta → All IsSmall taken.1.routed) }
        ensures whole { IfOk result (λ taken. IsFalse taken.0.broken) }
    {
        let mut merge = self.merge.copy()?;
        let mut outcomes = self.outcomes();
        self.owner().take_lines(lines, &mut merge, &mut outcomes)?;
        Ok((merge, outcomes))
    }

    /// The channel that goes on from this one with these lines and events, and the outcomes.
    fn gone_on(
        &self,
        lines: Lines,
        merge: Merge,
        outcomes: Outcomes,
    ) -> Result<(Channel, RoutedList), NoMemory>
        requires { IsFalse merge.broken }
        ensures kept { IfOk result (λ next. next.0 ≡ record {
          settings = self.now.settings;
          meta = self.now.meta;
          lines = lines;
          merge = merge;
          latest = outcomes.latest;
        }) }
        ensures routed { IfOk result (λ next. next.1 ≡ outcomes.routed) }
    {
        let origin = self.origin.clone()?;
        let lines = Box::new(self.alloc, lines)?;
        let next = Channel {
            alloc: self.alloc,
            origin,
            lines,
            merge,
            latest: outcomes.latest,
        };
        Ok((next, outcomes.routed))
    }

    /// The channel once these bytes have come, all at one moment (microseconds since
    /// 1970-01-01T00:00:00Z; one before 1970 counts as 0, and one after the beginning of 2100 as
    /// that), and what they settle. This channel stays as it is. Each test of a byte by an attempt
    /// at the breaker counts as a step: there are at most 512 times the breaker's weight for each
    /// byte by which the place moved on at which a break is still sought, and as many again where
    /// no byte waited there. Where one did, the attempt goes on, and makes no test twice.
    pub fn fed<L: Ledger>(
        &self,
        bytes: &[u8],
        moment: i64,
        steps: &mut Steps<L>,
    ) -> Result<(Channel, RoutedList), NoMemory>
        ensures settles { IfOk result (λ fed. (settings : Chosen) (meta : ChannelMeta) (stream : List Dated) →
            StandsFor settings meta stream self.now →
            StandsFor settings meta (stream ++ dated bytes.now (clamped moment)) fed.0
            × (settled settings meta (stream ++ dated bytes.now (clamped moment)) false ≡ settled settings meta stream false ++ fed.1)) }
        ensures small { IfOk result (λ fed. (settings : Chosen) (meta : ChannelMeta) (stream : List Dated) →
            StandsFor settings meta stream self.now → KeepsLimits settings meta → All IsSmall fed.1) }
        ensures counted { IfOk result (λ fed. steps.new ≤ steps.old + self.now.lines.breaker.weight * 512 *
            (moved self.now.lines (length bytes.now) fed.0.lines + 1)) }
        ensures again { IfOk result (λ fed. 0 < length self.now.lines.parts.pending →
            steps.new ≤ steps.old + self.now.lines.breaker.weight * 512 * moved self.now.lines (length bytes.now) fed.0.lines) }
        ensures later { steps.old ≤ steps.new }
    {
        let mut settled = LineList::new(self.alloc);
        let mut lines = self.lines.copy()?;
        lines.feed(bytes, moment, &mut settled, steps)?;
        let (merge, outcomes) = self.taken(settled)?;
        self.gone_on(lines, merge, outcomes)
    }

    /// The lines that closing the stream settles. Tests are counted in the ledger that the blank
    /// one opens, which nobody reads.
    fn last_lines<L: Ledger>(&self, blank: Blank) -> Result<LineList, NoMemory>
        requires name { blank.name ≡ L.name }
        requires parts { blank.parts ≡ L.parts }
        requires some { 0 < blank.parts }
        ensures lines { IfOk result (λ last. (settings : Chosen) (meta : ChannelMeta) (stream : List Dated) →
            StandsFor settings meta stream self.now →
            channel_lines settings stream true ≡ channel_lines settings stream false ++ last) }
        ensures short { IfOk result (λ last. All IsShort last) }
    {
        let mut steps = Steps::<L>::new(blank);
        let mut last = LineList::new(self.alloc);
        self.lines.copy()?.close(&mut last, &mut steps)?;
        Ok(last)
    }

    /// What closing the stream settles. This channel stays as it is.
    pub fn ended(&self) -> Result<RoutedList, NoMemory>
        ensures settles { IfOk result (λ ended. (settings : Chosen) (meta : ChannelMeta) (stream : List Dated) →
            StandsFor settings meta stream self.now →
            settled settings meta stream true ≡ settled settings meta stream false ++ ended) }
        ensures small { IfOk result (λ ended. (settings : Chosen) (meta : ChannelMeta) (stream : List Dated) →
            StandsFor settings meta stream self.now → KeepsLimits settings meta → All IsSmall ended) }
    {
        let last = self.last_lines::<Brand>(Blank::new(1))?;
        let (merge, mut outcomes) = self.taken(last)?;
        self.owner().take_end(merge, &mut outcomes)?;
        Ok(outcomes.routed)
    }

    /// What is to be carried of this channel over a stop, as bytes: the byte before the place from
    /// which on breaks are still to be found, the bytes that wait there, and the open line; the
    /// open event and the two marks; and the latest accepted time. It is a function of the settings
    /// and of the stream. The moments of each stream that was fed lie between 1970 and 2100.
    pub fn carry(&self) -> Result<Bytes, NoMemory>
        ensures spelled { IfOk result (λ bytes. (settings : Chosen) (meta : ChannelMeta) (stream : List Dated) →
            StandsFor settings meta stream self.now → bytes ≡ spell (carry_of settings stream)) }
        ensures is_carry { IfOk result (λ bytes. (settings : Chosen) (meta : ChannelMeta) (stream : List Dated) →
            StandsFor settings meta stream self.now → HasMoments stream → IsCarryOf (rules_of settings) bytes (carry_of settings stream)) }
    {
        let lines = self.lines.parts()?;
        let merge = self.merge.parts()?;
        let latest = self.latest;
        let carry = Carry {
            lines,
            merge,
            latest,
        };
        ix_merge::events_stay();
        carry.write(self.alloc)
    }

    /// A channel that goes on from a carry: it stands for each stream of which the bytes are the
    /// carry under these settings. The settings are such as `Props::settings` gives. The metadata
    /// name the index. `BadCarry` comes exactly where the bytes are no carry under these settings.
    pub fn resume(
        alloc: Global,
        settings: Settings,
        meta: ChannelMeta,
        carry: &[u8],
    ) -> Result<Channel, ResumeFault>
        requires meta { IsSome meta.index }
        requires usable { AreUsable settings }
        ensures stands { IfOk result (λ channel. (stream : List Dated) →
            IsCarryOf (rules_of settings) carry.now (carry_of settings stream) →
            StandsFor settings meta stream channel) }
        ensures read { IfOk result (λ channel. (said : Carried) × IsCarryOf (rules_of settings) carry.now said) }
        ensures bad { result ≡ Err ResumeFault.BadCarry → (said : Carried) → IsCarryOf (rules_of settings) carry.now said → ⊥ }
    {
        let (lines, merge, latest) = resumed(alloc, &settings, carry)?;
        let channel = channel_of(alloc, Origin { settings, meta }, lines, merge, latest)?;
        Ok(channel)
    }
}
