//! The built-in layer of zones.

ghost use Rattle.std.specs.Prelude.{◌≡◌, ◌++◌, ◌∷◌, [], OnOk, IfOk, codes};
ghost use Rattle.ix_conf.specs.Zones.{zone_entries, zones};

use crate::entries::{ConfFile, Entry};
use ix_base::{Bytes, NoMemory, Sequence};
use std::alloc::Global;

fn add_zone(alloc: Global, file: &mut ConfFile, name: &[u8], rule: &[u8]) -> Result<(), NoMemory>
    ensures { OnOk result (file.new ≡ file.old ++ zone_entries ((name.now, rule.now) ∷ [])) }
{
    file.push(Entry::Stanza(Bytes::copy_of(alloc, name)?))?;
    let key = Bytes::copy_of(alloc, b"RULE")?;
    let stanza = Bytes::copy_of(alloc, name)?;
    let rule = Bytes::copy_of(alloc, rule)?;
    file.push(Entry::Pair(stanza, key, rule))
}

/// Adds the zones, each behind those before it.
fn add_zones(alloc: Global, file: &mut ConfFile) -> Result<(), NoMemory>
    requires { file.old ≡ [] }
    ensures { OnOk result (file.new ≡ zone_entries zones) }
{
    add_zone(alloc, file, b"UTC", b"UTC0")?;
    add_zone(alloc, file, b"GMT", b"GMT0")?;
    add_zone(alloc, file, b"US/Eastern", b"EST5EDT,M3.2.0,M11.1.0")?;
    add_zone(alloc, file, b"America/New_York", b"EST5EDT,M3.2.0,M11.1.0")?;
    add_zone(alloc, file, b"US/Central", b"CST6CDT,M3.2.0,M11.1.0")?;
    add_zone(alloc, file, b"America/Chicago", b"CST6CDT,M3.2.0,M11.1.0")?;
    add_zone(alloc, file, b"US/Mountain", b"MST7MDT,M3.2.0,M11.1.0")?;
    add_zone(alloc, file, b"America/Denver", b"MST7MDT,M3.2.0,M11.1.0")?;
    add_zone(alloc, file, b"US/Pacific", b"PST8PDT,M3.2.0,M11.1.0")?;
    add_zone(
        alloc,
        file,
        b"America/Los_Angeles",
        b"PST8PDT,M3.2.0,M11.1.0",
    )?;
    add_zone(alloc, file, b"Europe/London", b"GMT0BST,M3.5.0/1,M10.5.0")?;
    add_zone(alloc, file, b"Europe/Berlin", b"CET-1CEST,M3.5.0,M10.5.0/3")
}

/// The zones that are known without any file, as entries of a zones.conf: a stanza for each name,
/// with its POSIX rule as `RULE`. They are the lowest layer of zones.
pub fn built_in_zones(alloc: Global) -> Result<ConfFile, NoMemory>
    ensures { IfOk result (λ file. file ≡ zone_entries zones) }
{
    let mut file = Sequence::new(alloc);
    add_zones(alloc, &mut file)?;
    Ok(file)
}
