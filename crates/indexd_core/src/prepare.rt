//! What a preview needs before it reads its input: the settings that hold for it, and the indexes.

ghost use Rattle.std.specs.Prelude.{◌≡◌, ◌≤◌, ℕ, List, IfOk, IfErr, OnErr, IfSome, IsSome, Option, None, Some, option_map};
ghost use Rattle.ix_life.specs.Limits.{limits_of};
ghost use Rattle.ix_props.specs.Settings.{AreSettings, AreUsable};
ghost use Rattle.indexd_settings.specs.Configuration.{IsConfiguration};
ghost use Rattle.indexd_settings.specs.Faults.{Stops};
ghost use Rattle.ix_fs.specs.declared.trees.TreeFile.{TreeFile};
ghost use Rattle.indexd_core.specs.Prepared.{Stated, preview_meta, index_or_default, IsPrepared, Unprepared, not_found_line};
ghost use Rattle.indexd_core.specs.Runs.{WroteUnprepared};
ghost use Rattle.indexd_core.specs.Sides.{side};
ghost use Rattle.indexd_core.specs.Texts.{Said, status_text};
ghost use Rattle.indexd_core.specs.Origins.{stated_of};
ghost use Rattle.indexd_core.specs.Stored.{stated_meta, WroteUnread};

use crate::status::{Status, say};
use indexd_cli::Origin;
use indexd_settings::{Configuration, ConfigurationFault, ConfigurationStop, read_configuration};
use ix_base::{Bytes, ChannelMeta, NoMemory, Sink};
use ix_fs::Tree;
use ix_life::LimitSet;
use ix_props::Settings;
use std::alloc::Global;
use thiserror::Error;

/// What a preview is prepared with.
#[derive(Drop)]
pub struct PreparedPreview {
    /// The indexes, which say where events are kept.
    pub limits: LimitSet,
    /// What is known of the bytes.
    pub meta: ChannelMeta,
    /// The settings that hold for them.
    pub settings: Settings,
}

/// Why a preview is not prepared.
#[derive(Debug, Drop, Error)]
pub enum PrepareStop {
    /// There was no room in memory.
    #[error("there was no room in memory")]
    Memory,
    /// The tree failed.
    #[error("the tree failed")]
    Input,
    /// The settings have a fault.
    #[error("{0}")]
    Refused(ConfigurationFault),
    /// The stated index, whose name this is, is not configured.
    #[error("the stated index is not configured")]
    NotFound(Bytes),
}

impl From<NoMemory> for PrepareStop {
    ghost use Rattle.indexd_core.specs.declared.prepare.PrepareStop.TheVariants.{Memory as memory};

    ghost from_gives = { λ _ stop. stop ≡ memory };

    fn from(_: NoMemory) -> PrepareStop {
        PrepareStop::Memory
    }
}

impl From<ConfigurationStop> for PrepareStop {
    ghost use Rattle.indexd_core.specs.Origins.{stop_of};

    ghost from_gives = { λ stop result. result ≡ stop_of stop };

    fn from(stop: ConfigurationStop) -> PrepareStop {
        match stop {
            ConfigurationStop::Memory => PrepareStop::Memory,
            ConfigurationStop::Input => PrepareStop::Input,
            ConfigurationStop::Refused(fault) => PrepareStop::Refused(fault),
        }
    }
}

fn copy_some(alloc: Global, text: Option<&str>) -> Result<Option<Bytes>, NoMemory>
    ensures { IfOk result (λ copy. copy ≡ option_map (λ s. s.now) text.entry) }
{
    match text {
        Some(text) => Ok(Some(Bytes::copy_of(alloc, text.as_bytes())?)),
        None => Ok(None),
    }
}

/// The index that is stated, or the default one.
pub fn index_of(alloc: Global, origin: Origin<'_>, limits: &LimitSet) -> Result<Bytes, NoMemory>
    ensures { IfOk result (λ index. index ≡ index_or_default (option_map (λ s. s.now) origin.entry.index) limits.now) }
{
    match origin.index {
        Some(index) => Bytes::copy_of(alloc, index.as_bytes()),
        None => limits.default_database.copy(),
    }
}

/// What the words state of bytes that are stored.
pub fn stated_meta(alloc: Global, origin: Origin<'_>) -> Result<ChannelMeta, NoMemory>
    ensures { IfOk result (λ meta. meta ≡ stated_meta (stated_of origin.entry)) }
{
    Ok(ChannelMeta {
        host: Bytes::copy_of(alloc, origin.host.as_bytes())?,
        source: Bytes::copy_of(alloc, origin.source.as_bytes())?,
        sourcetype: copy_some(alloc, origin.sourcetype)?,
        index: copy_some(alloc, origin.index)?,
    })
}

/// What is known of previewed bytes.
fn meta_of(alloc: Global, origin: Origin<'_>, limits: &LimitSet) -> Result<ChannelMeta, NoMemory>
    ensures { IfOk result (λ meta. meta ≡ preview_meta (stated_of origin.entry) limits.now) }
{
    Ok(ChannelMeta {
        host: Bytes::copy_of(alloc, origin.host.as_bytes())?,
        source: Bytes::copy_of(alloc, origin.source.as_bytes())?,
        sourcetype: copy_some(alloc, origin.sourcetype)?,
        index: Some(index_of(alloc, origin, limits)?),
    })
}

/// The name of the stated index, where it is not configured.
fn missing_index<'a>(index: Option<&'a str>, limits: &LimitSet) -> Option<&'a str>
    ensures none { result ≡ None → IfSome (option_map (λ s. s.now) index.entry) (λ index. IsSome (limits_of limits.now index)) }
    ensures some { IfSome (option_map (λ s. s.now) result) (λ missing. (option_map (λ s. s.now) index.entry ≡ Some missing)
        × (limits_of limits.now missing ≡ None)) }
{
    match index {
        Some(index) => match limits.limits(index.as_bytes()) {
            Some(_) => None,
            None => Some(index),
        },
        None => None,
    }
}

/// Chooses the settings of a preview.
fn choose(
    alloc: Global,
    origin: Origin<'_>,
    configuration: Configuration,
) -> Result<PreparedPreview, NoMemory>
    ensures usable { IfOk result (λ prepared. AreUsable prepared.settings) }
    ensures limits { IfOk result (λ prepared. prepared.limits ≡ configuration.limits) }
    ensures meta { IfOk result (λ prepared. prepared.meta ≡ preview_meta (stated_of origin.entry) configuration.limits) }
    ensures settings { IfOk result (λ prepared. AreSettings configuration.props prepared.meta prepared.settings) }
{
    let meta = meta_of(alloc, origin, &configuration.limits)?;
    let settings = configuration.props.settings(alloc, &meta)?;
    Ok(PreparedPreview {
        limits: configuration.limits,
        meta,
        settings,
    })
}

/// Reads the settings and chooses those of a preview. The files of the tree are judged first, and
/// then the index.
pub fn prepare<T: Tree>(
    alloc: Global,
    origin: Origin<'_>,
    tree: &mut T,
) -> Result<PreparedPreview, PrepareStop>
    ensures index { IfOk result (λ prepared. IsSome prepared.meta.index) }
    ensures usable { IfOk result (λ prepared. AreUsable prepared.settings) }
    ensures ok { IfOk result (λ prepared. IsPrepared (stated_of origin.entry) (T.files tree.old) prepared) }
    ensures stopped { IfErr result (λ stop. Unprepared stop (stated_of origin.entry) (T.faults tree.old) (T.faults tree.new)
        (T.files tree.old)) }
    ensures same { T.files tree.new ≡ T.files tree.old }
    ensures later { T.faults tree.old ≤ T.faults tree.new }
    ensures later_missing { T.missing tree.old ≤ T.missing tree.new }
{
    let configuration = read_configuration(alloc, tree)?;
    if let Some(index) = missing_index(origin.index, &configuration.limits) {
        drop(configuration);
        return Err(PrepareStop::NotFound(Bytes::copy_of(alloc, index.as_bytes())?));
    }
    let prepared = choose(alloc, origin, configuration)?;
    Ok(prepared)
}

/// The line that tells of an index that is not configured.
fn not_found_line(alloc: Global, index: &[u8]) -> Result<Bytes, NoMemory>
    ensures { IfOk result (λ line. line ≡ not_found_line index.now) }
{
    let mut line = Bytes::copy_of(alloc, b"indexd: not found: ")?;
    line.extend(index)?;
    line.extend(b"\n")?;
    Ok(line)
}

/// Writes the line of a status. Where there was no room for it, that is the status; where it cannot
/// be written, the status stays.
pub(crate) fn say_line<W: Sink>(
    line: Result<Bytes, NoMemory>,
    status: Status,
    output: &mut W,
) -> Status
    ensures line { IfOk line (λ text. (result ≡ status) × Said text
        (side (W.faults output.old) (W.given output.old)) (side (W.faults output.new) (W.given output.new))) }
    ensures no_line { OnErr line ((result ≡ Status.Memory) × Said (status_text Status.Memory)
        (side (W.faults output.old) (W.given output.old)) (side (W.faults output.new) (W.given output.new))) }
    ensures later { W.faults output.old ≤ W.faults output.new }
{
    match line {
        Ok(text) => {
            let _ = output.put(text.as_slice());
            status
        }
        Err(_) => {
            say(Status::Memory, output);
            Status::Memory
        }
    }
}

/// Says why a preview was not prepared.
pub fn say_stop<W: Sink>(alloc: Global, stop: &PrepareStop, output: &mut W) -> Status
    ensures said { (stated : Stated) (files : Option (List TreeFile)) (failed failed' : ℕ) →
        Unprepared stop.now stated failed failed' files →
        WroteUnprepared result stated files failed failed'
        (side (W.faults output.old) (W.given output.old)) (side (W.faults output.new) (W.given output.new)) }
    ensures later { W.faults output.old ≤ W.faults output.new }
{
    match stop {
        PrepareStop::Memory => {
            say(Status::Memory, output);
            Status::Memory
        }
        PrepareStop::Input => {
            say(Status::Input, output);
            Status::Input
        }
        PrepareStop::Refused(fault) => {
            let line = fault.line(alloc);
            say_line(line, Status::Configuration, output)
        }
        PrepareStop::NotFound(index) => {
            let line = not_found_line(alloc, index.as_slice());
            say_line(line, Status::NotFound, output)
        }
    }
}

/// Says why the settings of a run were not read.
pub fn say_unread<W: Sink>(alloc: Global, stop: ConfigurationStop, output: &mut W) -> Status
    ensures said { (files : Option (List TreeFile)) (failed failed' : ℕ) → Stops stop failed failed' files →
        WroteUnread result files failed failed'
        (side (W.faults output.old) (W.given output.old)) (side (W.faults output.new) (W.given output.new)) }
    ensures later { W.faults output.old ≤ W.faults output.new }
{
    let status = match &stop {
        ConfigurationStop::Memory => {
            say(Status::Memory, output);
            Status::Memory
        }
        ConfigurationStop::Input => {
            say(Status::Input, output);
            Status::Input
        }
        ConfigurationStop::Refused(fault) => {
            let line = fault.line(alloc);
            say_line(line, Status::Configuration, output)
        }
    };
    drop(stop);
    status
}
