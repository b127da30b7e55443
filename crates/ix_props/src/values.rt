//! The values of props.conf, each read of the text of its entry.

ghost use Rattle.std.specs.Prelude.{◌≡◌, ◌⊎◌, IfOk, IfErr, None, Some, false};
ghost use Rattle.std.specs.Option.{option_map};
ghost use Rattle.ix_conf.specs.Lent.{item_entry};
ghost use Rattle.ix_conf_values.specs.Formats.{format};
ghost use Rattle.ix_props.specs.Values.{IsBad, plain_value, IsNamePattern, source_pattern, host_pattern, IsStanza, IsNoStanza};
ghost use Rattle.ix_props.specs.Values.{RefusesStanza, IsPattern, RefusesPattern, IsBreakerShape, IsBreaker, HasBreakFault, RefusesBreaks};
ghost use Rattle.ix_props.specs.Values.{RefusesBreaker, IsChange, RefusesChange, IsZoneNamed, RefusesZoneName, name};
ghost use Rattle.ix_conf.specs.Names.{tokens, are_pattern};
ghost use Rattle.ix_props.specs.declared.faults.SettingFault.TheVariants as fault;
ghost use Rattle.ix_props.specs.declared.values.Value.TheVariants as value;

use crate::faults::SettingFault;
use crate::kinds::{Kind, behind};
use crate::zones::{Zone, ZoneFault, find_zone};
use ix_base::Bytes;
use ix_conf::{Item, Merged, NameFault, NamePattern};
use ix_conf_values::{
    FormatFault, Sed, SedFault, TimeFormat, TransformList, read_boolean, read_count, read_number,
    read_pattern,
};
use ix_pattern::{BreakFault, Pattern, PatternFault};
use std::alloc::Global;

/// The value of an entry of props.conf.
#[derive(Drop)]
pub enum Value {
    /// There is none: it is empty, or the stanza or key has no effect.
    Nothing,
    /// The pattern of a stanza for sources.
    Source(NamePattern),
    /// The pattern of a stanza for hosts. Letters fit in either case.
    Host(NamePattern),
    Pattern(Pattern),
    Boolean(bool),
    Count(u32),
    Number(i64),
    Format(TimeFormat),
    Zone(Zone),
    Change(Sed),
    Transforms(TransformList),
    Name(Bytes),
}

fn read_name_pattern(
    alloc: Global,
    item: Item<'_>,
    text: &[u8],
    fold: bool,
) -> Result<NamePattern, SettingFault>
    ensures ok { IfOk result (λ pattern. IsNamePattern text.now fold pattern) }
    ensures err { IfErr result (λ fault. RefusesStanza (item_entry item.entry) (are_pattern (tokens text.now) ≡ false) fault) }
{
    match NamePattern::read(alloc, text, fold) {
        Ok(pattern) => Ok(pattern),
        Err(NameFault::BadPattern) => Err(SettingFault::BadStanzaPattern {
            stanza: Bytes::copy_of(alloc, item.stanza)?,
        }),
        Err(NameFault::NoMemory) => Err(SettingFault::NoMemory),
    }
}

/// Reads the pattern in the name of a stanza, where it has one.
pub(crate) fn read_stanza(alloc: Global, item: Item<'_>) -> Result<Value, SettingFault>
    ensures ok { IfOk result (λ v. IsStanza (source_pattern (item_entry item.entry)) (host_pattern (item_entry item.entry)) v) }
    ensures err { IfErr result (λ fault. RefusesStanza (item_entry item.entry)
        (IsNoStanza (source_pattern (item_entry item.entry)) (host_pattern (item_entry item.entry))) fault) }
{
    if let Some(text) = behind(b"source::", item.stanza) {
        return Ok(Value::Source(read_name_pattern(alloc, item, text, false)?));
    }
    if let Some(text) = behind(b"host::", item.stanza) {
        return Ok(Value::Host(read_name_pattern(alloc, item, text, true)?));
    }
    Ok(Value::Nothing)
}

/// A value that is none of its kind.
fn bad_value(alloc: Global, stanza: &[u8], key: &[u8]) -> SettingFault
    ensures { (result ≡ fault.BadValue stanza.now key.now) ⊎ (result ≡ fault.NoMemory) }
{
    let Ok(stanza) = Bytes::copy_of(alloc, stanza) else {
        return SettingFault::NoMemory;
    };
    let Ok(key) = Bytes::copy_of(alloc, key) else {
        return SettingFault::NoMemory;
    };
    SettingFault::BadValue { stanza, key }
}

/// A value that is no pattern.
fn bad_pattern(alloc: Global, item: Item<'_>, why: BreakFault) -> SettingFault
    ensures { (result ≡ fault.BadPattern item.entry.stanza.now item.entry.key.now why) ⊎ (result ≡ fault.NoMemory) }
{
    let Ok(stanza) = Bytes::copy_of(alloc, item.stanza) else {
        return SettingFault::NoMemory;
    };
    let Ok(key) = Bytes::copy_of(alloc, item.key) else {
        return SettingFault::NoMemory;
    };
    SettingFault::BadPattern {
        stanza,
        key,
        fault: why,
    }
}

/// Reads a pattern.
pub(crate) fn read_plain(alloc: Global, item: Item<'_>) -> Result<Value, SettingFault>
    ensures ok { IfOk result (λ v. IsPattern (item_entry item.entry).value v) }
    ensures err { IfErr result (λ fault. RefusesPattern (item_entry item.entry) fault) }
{
    match read_pattern(alloc, item.value) {
        Ok(pattern) => Ok(Value::Pattern(pattern)),
        Err(PatternFault::NoMemory) => Err(SettingFault::NoMemory),
        Err(fault) => Err(SettingFault::BadPattern {
            stanza: Bytes::copy_of(alloc, item.stanza)?,
            key: Bytes::copy_of(alloc, item.key)?,
            fault: BreakFault::Pattern(fault),
        }),
    }
}

/// Reads the text of a pattern for breaks.
pub(crate) fn read_breaks(alloc: Global, text: &[u8]) -> Result<Pattern, BreakFault>
    ensures ok { IfOk result (λ pattern. IsBreakerShape text.now pattern) }
    ensures err { IfErr result (λ fault. RefusesBreaks text.now fault) }
{
    match Pattern::for_breaks(alloc, text) {
        Ok(pattern) => Ok(pattern),
        Err(BreakFault::NoGroup) => Err(BreakFault::NoGroup),
        Err(BreakFault::MatchesEmpty) => Err(BreakFault::MatchesEmpty),
        Err(BreakFault::Pattern(PatternFault::Syntax)) => {
            Err(BreakFault::Pattern(PatternFault::Syntax))
        }
        Err(BreakFault::Pattern(PatternFault::TooLarge)) => {
            Err(BreakFault::Pattern(PatternFault::TooLarge))
        }
        Err(BreakFault::Pattern(PatternFault::EmptyRepeat)) => {
            Err(BreakFault::Pattern(PatternFault::EmptyRepeat))
        }
        Err(BreakFault::Pattern(PatternFault::NoMemory)) => {
            Err(BreakFault::Pattern(PatternFault::NoMemory))
        }
    }
}

/// The fault of a pattern for breaks.
fn bad_breaker(alloc: Global, item: Item<'_>, why: BreakFault) -> SettingFault
    requires { HasBreakFault item.value.now why }
    ensures { RefusesBreaker (item_entry item.entry) result }
{
    bad_pattern(alloc, item, why)
}

/// Reads a pattern for breaks.
pub(crate) fn read_breaker(alloc: Global, item: Item<'_>) -> Result<Value, SettingFault>
    ensures ok { IfOk result (λ v. IsBreaker (item_entry item.entry).value v) }
    ensures err { IfErr result (λ fault. RefusesBreaker (item_entry item.entry) fault) }
{
    match read_breaks(alloc, item.value) {
        Ok(pattern) => Ok(Value::Pattern(pattern)),
        Err(BreakFault::NoGroup) => Err(bad_breaker(alloc, item, BreakFault::NoGroup)),
        Err(BreakFault::MatchesEmpty) => Err(bad_breaker(alloc, item, BreakFault::MatchesEmpty)),
        Err(BreakFault::Pattern(PatternFault::NoMemory)) => Err(SettingFault::NoMemory),
        Err(BreakFault::Pattern(PatternFault::Syntax)) => Err(bad_breaker(
            alloc,
            item,
            BreakFault::Pattern(PatternFault::Syntax),
        )),
        Err(BreakFault::Pattern(PatternFault::TooLarge)) => Err(bad_breaker(
            alloc,
            item,
            BreakFault::Pattern(PatternFault::TooLarge),
        )),
        Err(BreakFault::Pattern(PatternFault::EmptyRepeat)) => Err(bad_breaker(
            alloc,
            item,
            BreakFault::Pattern(PatternFault::EmptyRepeat),
        )),
    }
}

/// Reads a change of a raw text.
pub(crate) fn read_change(alloc: Global, item: Item<'_>) -> Result<Value, SettingFault>
    ensures ok { IfOk result (λ v. IsChange (item_entry item.entry).value v) }
    ensures err { IfErr result (λ fault. RefusesChange (item_entry item.entry) fault) }
{
    match Sed::read(alloc, item.value) {
        Ok(sed) => Ok(Value::Change(sed)),
        Err(SedFault::BadValue) => Err(bad_value(alloc, item.stanza, item.key)),
        Err(SedFault::BadPattern { fault }) => {
            Err(bad_pattern(alloc, item, BreakFault::Pattern(fault)))
        }
        Err(SedFault::NoMemory) => Err(SettingFault::NoMemory),
    }
}

/// Reads a format of times.
pub(crate) fn read_format(alloc: Global, item: Item<'_>) -> Result<Value, SettingFault>
    ensures ok { IfOk result (λ v. option_map value.Format (format (item_entry item.entry).value) ≡ Some v) }
    ensures err { IfErr result (λ fault. IsBad (item_entry item.entry) (format (item_entry item.entry).value ≡ None) fault) }
{
    match TimeFormat::read(alloc, item.value) {
        Ok(format) => Ok(Value::Format(format)),
        Err(FormatFault::BadValue) => Err(bad_value(alloc, item.stanza, item.key)),
        Err(FormatFault::NoMemory) => Err(SettingFault::NoMemory),
    }
}

/// A value that names no zone.
fn unknown_zone(alloc: Global, item: Item<'_>) -> SettingFault
    ensures { (result ≡ fault.UnknownZone item.entry.stanza.now item.entry.value.now) ⊎ (result ≡ fault.NoMemory) }
{
    let Ok(stanza) = Bytes::copy_of(alloc, item.stanza) else {
        return SettingFault::NoMemory;
    };
    let Ok(name) = Bytes::copy_of(alloc, item.value) else {
        return SettingFault::NoMemory;
    };
    SettingFault::UnknownZone { stanza, name }
}

/// Reads the name of a zone, and the rule of that zone.
pub(crate) fn read_zone(
    alloc: Global,
    item: Item<'_>,
    zones: &Merged,
) -> Result<Value, SettingFault>
    ensures ok { IfOk result (λ v. IsZoneNamed zones.now (item_entry item.entry).value v) }
    ensures err { IfErr result (λ fault. RefusesZoneName zones.now (item_entry item.entry) fault) }
{
    match find_zone(alloc, zones, item.value) {
        Ok(zone) => Ok(Value::Zone(zone)),
        Err(ZoneFault::Unknown) => Err(unknown_zone(alloc, item)),
        Err(ZoneFault::BadRule) => Err(bad_value(alloc, item.value, b"RULE")),
        Err(ZoneFault::NoMemory) => Err(SettingFault::NoMemory),
    }
}

/// Reads the name of a source type, of 1 to 1,024 bytes.
pub(crate) fn read_name(alloc: Global, item: Item<'_>) -> Result<Value, SettingFault>
    ensures ok { IfOk result (λ v. option_map value.Name (name (item_entry item.entry).value) ≡ Some v) }
    ensures err { IfErr result (λ fault. IsBad (item_entry item.entry) (name (item_entry item.entry).value ≡ None) fault) }
{
    if 1 <= item.value.len() && item.value.len() <= 1024 {
        Ok(Value::Name(Bytes::copy_of(alloc, item.value)?))
    } else {
        Err(SettingFault::BadValue {
            stanza: Bytes::copy_of(alloc, item.stanza)?,
            key: Bytes::copy_of(alloc, item.key)?,
        })
    }
}

/// A boolean or a number.
fn plain_value(kind: Kind, text: &[u8]) -> Option<Value>
    ensures { result ≡ plain_value kind text.now }
{
    match kind {
        Kind::Boolean => Some(Value::Boolean(read_boolean(text)?)),
        Kind::Count { least, most } => Some(Value::Count(read_count(text, least, most)?)),
        Kind::Lookahead => Some(Value::Number(read_number(text, -1, 1_048_576)?)),
        Kind::Priority => Some(Value::Number(read_number(text, -1_000_000, 1_000_000)?)),
        _ => None,
    }
}

/// Reads a boolean or a number.
pub(crate) fn read_small(alloc: Global, item: Item<'_>, kind: Kind) -> Result<Value, SettingFault>
    ensures ok { IfOk result (λ v. plain_value kind (item_entry item.entry).value ≡ Some v) }
    ensures err { IfErr result (λ fault. IsBad (item_entry item.entry) (plain_value kind (item_entry item.entry).value ≡ None) fault) }
{
    match plain_value(kind, item.value) {
        Some(value) => Ok(value),
        None => Err(bad_value(alloc, item.stanza, item.key)),
    }
}
