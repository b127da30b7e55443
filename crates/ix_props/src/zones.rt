//! Time zones, and how they are found in zones.conf.

ghost use Rattle.std.specs.Prelude.{◌≡◌, Some, None, IfOk, IfErr, IsSome, codes};
ghost use Rattle.jiff_tz.specs.PosixReader.{read_whole};
ghost use Rattle.jiff_tz.specs.PosixText.{tz_view};
ghost use Rattle.ix_props.specs.Zones.{rule_of, IsZone, RefusesRule, RefusesZone};

use ix_base::NoMemory;
use ix_conf::Merged;
use ix_conf_values::own_value;
use jiff_tz::posix;
use std::alloc::Global;
use std::marker::Model;
use thiserror::Error;

/// A time zone. Contracts see it as the bytes of its POSIX rule.
#[derive(Drop)]
pub struct Zone {
    rule: Vec<u8>,
    zone: posix::TimeZone,
}

impl Model for Zone {
    ghost use Rattle.std.specs.Prelude.{◌≡◌, List, ℕ, Some};
    ghost use Rattle.jiff_tz.specs.PosixReader.{read_whole};
    ghost use Rattle.jiff_tz.specs.PosixText.{tz_view};

    ghost Value = { List ℕ };

    ghost view = { λ z. z.rule.items };

    ghost invariant = { λ z. read_whole z.rule.items ≡ Some (tz_view z.zone) };
}

/// Why a text is no rule of a zone.
#[derive(Clone, Copy, Debug, PartialEq, Eq, Error)]
pub enum RuleFault {
    /// It is no POSIX rule.
    #[error("the text is no POSIX rule of a zone")]
    BadRule,
    /// There was no room in memory.
    #[error("there was no room in memory")]
    NoMemory,
}

/// Why a name gives no zone.
#[derive(Clone, Copy, Debug, PartialEq, Eq, Error)]
pub enum ZoneFault {
    /// There is no stanza of this name, or it has no rule of its own, or an empty one.
    #[error("no zone has this name")]
    Unknown,
    /// Its rule is no POSIX rule.
    #[error("the rule of the zone is no POSIX rule")]
    BadRule,
    /// There was no room in memory.
    #[error("there was no room in memory")]
    NoMemory,
}

impl Zone {
    /// Reads a POSIX rule, as `EST5EDT,M3.2.0,M11.1.0`. `BadRule` comes exactly where the text is
    /// none.
    pub fn read(alloc: Global, text: &[u8]) -> Result<Zone, RuleFault>
        ensures rule { IfOk result (λ zone. zone ≡ text.now) }
        ensures ok { IfOk result (λ zone. IsSome (read_whole text.now)) }
        ensures err { IfErr result (λ fault. RefusesRule text.now fault) }
    {
        let Ok(zone) = posix::TimeZone::parse(text) else {
            return Err(RuleFault::BadRule);
        };
        let Ok(rule) = Vec::from_slice(alloc, text) else {
            return Err(RuleFault::NoMemory);
        };
        Ok(Zone { rule, zone })
    }

    /// The zone of universal time, of the rule `UTC0`, which is a rule: so there is no other fault
    /// than want of memory.
    pub fn utc(alloc: Global) -> Result<Zone, NoMemory>
        ensures zone { IfOk result (λ zone. zone ≡ codes "UTC0") }
        ensures is_rule { IsSome (read_whole (codes "UTC0")) }
    {
        match Zone::read(alloc, b"UTC0") {
            Ok(zone) => Ok(zone),
            Err(_) => Err(NoMemory),
        }
    }

    /// The parsed rule.
    pub fn parsed(&self) -> posix::TimeZone
        ensures { read_whole self.now ≡ Some (tz_view result) }
    {
        self.zone
    }

    /// A copy of it.
    pub fn copy(&self) -> Result<Zone, NoMemory>
        ensures { IfOk result (λ copy. copy ≡ self.now) }
    {
        let rule = self.rule.to_vec(*self.rule.allocator())?;
        Ok(Zone {
            rule,
            zone: self.zone,
        })
    }
}

/// The zone of this name: a stanza of zones.conf that has a `RULE` of its own.
pub fn find_zone(alloc: Global, zones: &Merged, name: &[u8]) -> Result<Zone, ZoneFault>
    ensures ok { IfOk result (λ zone. IsZone (rule_of zones.now name.now) zone) }
    ensures err { IfErr result (λ fault. RefusesZone (rule_of zones.now name.now) fault) }
{
    let Some(rule) = own_value(zones, name, b"RULE") else {
        return Err(ZoneFault::Unknown);
    };
    if rule.is_empty() {
        return Err(ZoneFault::Unknown);
    }
    match Zone::read(alloc, rule) {
        Ok(zone) => Ok(zone),
        Err(RuleFault::BadRule) => Err(ZoneFault::BadRule),
        Err(RuleFault::NoMemory) => Err(ZoneFault::NoMemory),
    }
}
