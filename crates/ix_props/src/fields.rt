//! Single settings of a channel, each read of the value that is chosen for it, or else its default.
//! `settling` calls them.

ghost use Rattle.std.specs.Prelude.{◌≡◌, IfOk, codes};
ghost use Rattle.std.specs.Option.{option_copied};
ghost use Rattle.ix_props.specs.Ranking.{lent, set_in, IsSmall};
ghost use Rattle.ix_props.specs.Settings.{boolean_or, count_or, name_or, zone_or, pattern_of, format_of, lookahead_of, IsBreakerOf};
ghost use Rattle.ix_props.specs.Settings.{AreMergeSettings, AreTimeSettings};

use crate::choosing::find;
use crate::props::PropsEntry;
use crate::settings::{MergeSettings, TimeSettings};
use crate::values::{Value, read_breaks};
use crate::zones::Zone;
use ix_base::{Bytes, NoMemory};
use ix_conf_values::TimeFormat;
use ix_pattern::Pattern;
use std::alloc::Global;

fn boolean_or(default: bool, value: Option<&Value>) -> bool
    ensures { result ≡ boolean_or default (option_copied value.entry) }
{
    match value {
        Some(Value::Boolean(set)) => *set,
        _ => default,
    }
}

/// A number that is never negative.
pub(crate) fn count_or(default: u32, value: Option<&Value>) -> u32
    ensures { result ≡ count_or default (option_copied value.entry) }
{
    match value {
        Some(Value::Count(count)) => *count,
        _ => default,
    }
}

/// The name of a source type.
pub(crate) fn copy_name(
    alloc: Global,
    default: &[u8],
    value: Option<&Value>,
) -> Result<Bytes, NoMemory>
    ensures { IfOk result (λ name. name ≡ name_or default.now (option_copied value.entry)) }
{
    match value {
        Some(Value::Name(name)) => name.copy(),
        _ => Bytes::copy_of(alloc, default),
    }
}

/// The pattern of breaks. Without one a break is a run of carriage returns and newlines.
pub(crate) fn copy_breaker(alloc: Global, value: Option<&Value>) -> Result<Pattern, NoMemory>
    ensures { IfOk result (λ breaker. IsBreakerOf (option_copied value.entry) breaker) }
{
    if let Some(Value::Pattern(pattern)) = value {
        return pattern.copy();
    }
    match read_breaks(alloc, b"([\\r\\n]+)") {
        Ok(pattern) => Ok(pattern),
        Err(_) => Err(NoMemory),
    }
}

fn pattern_in<'a>(value: Option<&'a Value>) -> Option<&'a Pattern>
    ensures { option_copied result ≡ pattern_of (option_copied value.entry) }
{
    match value {
        Some(Value::Pattern(pattern)) => Some(pattern),
        _ => None,
    }
}

fn format_in<'a>(value: Option<&'a Value>) -> Option<&'a TimeFormat>
    ensures { option_copied result ≡ format_of (option_copied value.entry) }
{
    match value {
        Some(Value::Format(format)) => Some(format),
        _ => None,
    }
}

fn copy_zone(alloc: Global, value: Option<&Value>) -> Result<Zone, NoMemory>
    ensures { IfOk result (λ zone. zone ≡ zone_or (codes "UTC0") (option_copied value.entry)) }
{
    match value {
        Some(Value::Zone(zone)) => zone.copy(),
        _ => Zone::utc(alloc),
    }
}

fn lookahead_of(value: Option<&Value>) -> Option<u32>
    requires { IsSmall (option_copied value) }
    ensures { result ≡ lookahead_of (option_copied value.entry) }
{
    match value {
        Some(Value::Number(bytes)) => {
            if *bytes <= 0 {
                None
            } else {
                Some(*bytes as u32)
            }
        }
        _ => Some(128),
    }
}

/// How lines are merged to events.
pub(crate) fn merge_settings(chosen: &[&PropsEntry]) -> Result<MergeSettings, NoMemory>
    ensures { IfOk result (λ merge. AreMergeSettings (set_in (lent chosen.now)) merge) }
{
    let mut merge = MergeSettings::plain(
        boolean_or(true, find(chosen, b"SHOULD_LINEMERGE")),
        boolean_or(true, find(chosen, b"BREAK_ONLY_BEFORE_DATE")),
        count_or(256, find(chosen, b"MAX_EVENTS")),
    );
    merge.put_patterns(
        pattern_in(find(chosen, b"BREAK_ONLY_BEFORE")),
        pattern_in(find(chosen, b"MUST_BREAK_AFTER")),
        pattern_in(find(chosen, b"MUST_NOT_BREAK_AFTER")),
        pattern_in(find(chosen, b"MUST_NOT_BREAK_BEFORE")),
    )?;
    Ok(merge)
}

/// How the time of an event is read.
pub(crate) fn time_settings(alloc: Global, chosen: &[&PropsEntry]) -> Result<TimeSettings, NoMemory>
    requires { IsSmall (set_in (lent chosen.now) (codes "MAX_TIMESTAMP_LOOKAHEAD")) }
    ensures { IfOk result (λ time. AreTimeSettings (set_in (lent chosen.now)) time) }
{
    let zone = copy_zone(alloc, find(chosen, b"TZ"))?;
    let mut time = TimeSettings {
        prefix: None,
        format: None,
        lookahead: lookahead_of(find(chosen, b"MAX_TIMESTAMP_LOOKAHEAD")),
        zone,
        days_ago: count_or(2000, find(chosen, b"MAX_DAYS_AGO")),
        days_hence: count_or(2, find(chosen, b"MAX_DAYS_HENCE")),
    };
    time.put_forms(
        pattern_in(find(chosen, b"TIME_PREFIX")),
        format_in(find(chosen, b"TIME_FORMAT")),
    )?;
    Ok(time)
}
