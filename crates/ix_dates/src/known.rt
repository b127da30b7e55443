//! The formats that are tried where none is set.

ghost use Rattle.std.specs.Prelude.{◌≡◌};
ghost use Rattle.ix_dates.specs.Front.{may_read};
ghost use Rattle.ix_dates.specs.Known.{read_known};
ghost use Rattle.ix_dates.specs.Text.{read_view};

use crate::directives::read_all;
use crate::fields::Fields;
use crate::front::{has_hyphen, has_month, has_slash};
use crate::iso::iso;
use ix_conf_values::Directive;

/// One of the formats that are tried where none is set.
#[derive(Clone, Copy, Debug, PartialEq, Eq)]
pub enum KnownFormat {
    /// `2023-11-14T22:13:20`, with a space for the `T` too, and then a fraction and a zone where
    /// they stand.
    Iso,
    /// `%b %e %H:%M:%S`, as syslog writes it.
    Syslog,
    /// `%d/%b/%Y:%H:%M:%S %z`, as web servers write it.
    Access,
    /// `%m/%d/%Y %H:%M:%S`.
    American,
}

/// `%b %e %H:%M:%S`
const SYSLOG: [Directive; 9] = [
    Directive::ShortMonthName,
    Directive::Space,
    Directive::PaddedDay,
    Directive::Space,
    Directive::Hour,
    Directive::Byte(b':'),
    Directive::Minute,
    Directive::Byte(b':'),
    Directive::Second,
];

/// `%d/%b/%Y:%H:%M:%S %z`
const ACCESS: [Directive; 13] = [
    Directive::Day,
    Directive::Byte(b'/'),
    Directive::ShortMonthName,
    Directive::Byte(b'/'),
    Directive::Year,
    Directive::Byte(b':'),
    Directive::Hour,
    Directive::Byte(b':'),
    Directive::Minute,
    Directive::Byte(b':'),
    Directive::Second,
    Directive::Space,
    Directive::Offset,
];

/// `%m/%d/%Y %H:%M:%S`
const AMERICAN: [Directive; 11] = [
    Directive::Month,
    Directive::Byte(b'/'),
    Directive::Day,
    Directive::Byte(b'/'),
    Directive::Year,
    Directive::Space,
    Directive::Hour,
    Directive::Byte(b':'),
    Directive::Minute,
    Directive::Byte(b':'),
    Directive::Second,
];

impl KnownFormat {
    /// Whether it may read at the front of a text, by a short test.
    #[inline(always)]
    fn may_read(self, s: &[u8]) -> bool
        ensures { result ≡ may_read self s.now }
    {
        match self {
            KnownFormat::Iso => has_hyphen(s),
            KnownFormat::Syslog => has_month(s),
            KnownFormat::Access | KnownFormat::American => has_slash(s),
        }
    }

    #[tactic(auto, unfolding(crate::specs::Known::read_known))]
    fn read_slowly(self, s: &[u8]) -> Option<(Fields, &[u8])>
        ensures { read_view result ≡ read_known self s.now }
    {
        match self {
            KnownFormat::Iso => iso(s),
            KnownFormat::Syslog => read_all(&SYSLOG, Fields::NONE, s),
            KnownFormat::Access => read_all(&ACCESS, Fields::NONE, s),
            KnownFormat::American => read_all(&AMERICAN, Fields::NONE, s),
        }
    }

    /// The fields that it reads at the front of a text, and the text behind them.
    #[tactic(auto, using(crate::proofs::FrontLemmas::other_front))]
    pub fn read(self, s: &[u8]) -> Option<(Fields, &[u8])>
        ensures { read_view result ≡ read_known self s.now }
    {
        if !self.may_read(s) {
            return None;
        }
        self.read_slowly(s)
    }
}
