//! What may be wrong with the settings of channels.

ghost use Rattle.std.specs.Prelude.{◌≡◌};
ghost use Rattle.ix_props.specs.FaultNames.{name_of};

use ix_base::{Bytes, NoMemory};
use ix_pattern::BreakFault;
use std::fmt;
use thiserror::Error;

/// Why settings are refused. The first fault in the order of stanzas and keys is answered.
#[derive(Debug, Drop, Error)]
pub enum SettingFault {
    /// The value of this key is none of its kind, or is missing where it has to be there. The
    /// stanza is one of props.conf, or the transform or zone that a value names.
    BadValue {
        stanza: Bytes,
        key: Bytes,
    },
    /// The value of this key is no pattern. The fault is never want of memory.
    BadPattern {
        stanza: Bytes,
        key: Bytes,
        fault: BreakFault,
    },
    /// The value of this key names a transform that is no stanza of transforms.conf.
    UnknownTransform {
        stanza: Bytes,
        key: Bytes,
        name: Bytes,
    },
    /// The `TZ` of this stanza names no zone.
    UnknownZone {
        stanza: Bytes,
        name: Bytes,
    },
    /// What stands behind `source::` or `host::` in the name of this stanza is no pattern.
    BadStanzaPattern {
        stanza: Bytes,
    },
    /// There was no room in memory.
    NoMemory,
}

impl SettingFault {
    /// Its name, as the line of a fault in the settings tells it.
    pub fn name(&self) -> &'static str
        ensures { result.now ≡ name_of self.now }
    {
        match self {
            SettingFault::BadValue { .. } => "BadValue",
            SettingFault::BadPattern { .. } => "BadPattern",
            SettingFault::UnknownTransform { .. } => "UnknownTransform",
            SettingFault::UnknownZone { .. } => "UnknownZone",
            SettingFault::BadStanzaPattern { .. } => "BadStanzaPattern",
            SettingFault::NoMemory => "NoMemory",
        }
    }
}

/// Its name.
impl fmt::Display for SettingFault {
    ghost use Rattle.std.specs.Prelude.{Some};
    ghost use Rattle.ix_props.specs.FaultNames.{name_of};

    ghost output = { λ fault. Some (name_of fault) };

    fn fmt<W: fmt::Write>(&self, f: &mut fmt::Formatter<W>) -> fmt::Result {
        f.write_str(self.name())
    }
}

impl From<NoMemory> for SettingFault {
    ghost use Rattle.std.specs.Prelude.{◌≡◌};
    ghost use Rattle.ix_props.specs.declared.faults.SettingFault.TheVariants.{NoMemory as no_memory};

    ghost from_gives = { λ _ fault. fault ≡ no_memory };

    fn from(_: NoMemory) -> SettingFault {
        SettingFault::NoMemory
    }
}
