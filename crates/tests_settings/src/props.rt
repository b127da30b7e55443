//! Tests of `ix_conf_values` and `ix_props`: values of each kind, and whole files, by examples worked by hand.

use crate::said::{bytes_of, compare, note, put, repeat, say, settings_of, shown};
use crate::tables::{Asked, check_rows};
use ix_base::{Bytes, ChannelMeta, NoMemory};
use ix_conf::Merged;
use ix_conf_values::{
    Directive, FormatFault, Key, Part, Sed, SedFault, TimeFormat, Transform, TransformFault, Which,
};
use ix_pattern::{BreakFault, Pattern, PatternFault};
use ix_props::{MergeSettings, Props, RuleFault, SettingFault, Settings, TimeSettings, Zone};
use std::alloc::Global;

/// Texts, and what they are as a boolean.
const BOOLEANS: &str = "\
    true¦Some(true)¶\
    T¦Some(true)¶\
    yEs¦Some(true)¶\
    y¦Some(true)¶\
    1¦Some(true)¶\
    FALSE¦Some(false)¶\
    f¦Some(false)¶\
    No¦Some(false)¶\
    N¦Some(false)¶\
    0¦Some(false)¶\
    ¦None¶\
    on¦None¶\
    truer¦None¶\
    01¦None";

#[test]
fn booleans_are_ten_words(rt: HostRuntime) {
    check_rows(&rt, rt.alloc(), Asked::Boolean, BOOLEANS);
}

/// Texts, and what they are as a number from -1 to 1,048,576.
const NUMBERS: &str = "\
    0¦Some(0)¶\
    -0¦Some(0)¶\
    -1¦Some(-1)¶\
    -2¦None¶\
    007¦Some(7)¶\
    1048576¦Some(1048576)¶\
    1048577¦None¶\
    0001048576¦Some(1048576)¶\
    00001048576¦None¶\
    9999999999¦None¶\
    ¦None¶\
    -¦None¶\
    --1¦None¶\
    +1¦None¶\
    1 ¦None¶\
    0x1¦None";

#[test]
fn numbers_have_a_sign_or_none_and_ten_digits(rt: HostRuntime) {
    check_rows(&rt, rt.alloc(), Asked::Number, NUMBERS);
}

fn put_digit(out: &mut String, digit: u32) {
    let _ = out.push((b'0' + (digit % 10) as u8) as char);
}

fn put_part(out: &mut String, part: Part) {
    match part {
        Part::Byte(byte) => put(out, &[byte]),
        Part::Group(group) => {
            let group = (group % 100) as u32;
            put(out, b"<");
            put_digit(out, group / 10);
            put_digit(out, group);
            put(out, b">");
        }
    }
}

/// Adds the bytes of parts, and `<12>` for group 12.
fn put_parts(out: &mut String, parts: &[Part]) {
    for part in parts {
        put_part(out, *part);
    }
}

fn put_which(out: &mut String, which: Which) {
    match which {
        Which::First => put(out, b"first"),
        Which::All => put(out, b"all"),
        Which::Nth(number) => {
            put_digit(out, number / 1000);
            put_digit(out, number / 100);
            put_digit(out, number / 10);
            put_digit(out, number);
        }
    }
}

fn pattern_fault(fault: PatternFault) -> &'static [u8] {
    match fault {
        PatternFault::Syntax => b"syntax",
        PatternFault::TooLarge => b"too large",
        PatternFault::EmptyRepeat => b"empty repeat",
        PatternFault::NoMemory => b"memory",
    }
}

/// Adds which matches are changed and what they become, or which bytes become which.
fn put_change(out: &mut String, change: &Sed) {
    match change {
        Sed::Replace { parts, which, .. } => {
            put_which(out, *which);
            put(out, b"|");
            put_parts(out, parts.as_slice());
        }
        Sed::Swap { from, to } => {
            put(out, from.as_slice());
            put(out, b"|");
            put(out, to.as_slice());
        }
    }
}

/// What a text changes, or its fault.
pub fn describe_change(alloc: Global, text: &[u8]) -> String {
    let mut found = String::new(alloc);
    match Sed::read(alloc, text) {
        Ok(change) => {
            put_change(&mut found, &change);
            drop(change);
        }
        Err(SedFault::BadValue) => put(&mut found, b"bad value"),
        Err(SedFault::BadPattern { fault }) => put(&mut found, pattern_fault(fault)),
        Err(SedFault::NoMemory) => put(&mut found, b"no memory"),
    }
    found
}

/// Texts of SEDCMD, and what they change, or their fault.
const CHANGES: &str = "\
    s/a/b/¦first|b¶\
    s/a/b/g¦all|b¶\
    s/a/b/7¦0007|b¶\
    s/a/b/0010¦0010|b¶\
    s/a/b/1000¦1000|b¶\
    s/a//¦first|¶\
    s/\\//&/¦first|&¶\
    s/(a)/<\\1\\9>/¦first|<<01><09>>¶\
    s/a/\\n\\t\\/\\\\/¦first|\n\t/\\¶\
    s/a/$1/¦first|$1¶\
    s/a/b/0¦bad value¶\
    s/a/b/1001¦bad value¶\
    s/a/b/00001¦bad value¶\
    s/a/b/G¦bad value¶\
    s/a/b¦bad value¶\
    s/a\\/b/¦bad value¶\
    s/a/\\0/¦bad value¶\
    s/a/\\x/¦bad value¶\
    s|a|b|¦bad value¶\
    ¦bad value¶\
    s/(/b/¦syntax¶\
    s/(/\\x/¦bad value¶\
    s/(a*)*/b/¦empty repeat¶\
    y/ab/cd/¦ab|cd¶\
    y/\\/\\n/\\t\\\\/¦/\n|\t\\¶\
    y/ab/c/¦bad value¶\
    y/a/\\1/¦bad value";

#[test]
fn changes_have_two_forms(rt: HostRuntime) {
    check_rows(&rt, rt.alloc(), Asked::Change, CHANGES);
}

/// A directive as a format spells it; `_` for white space, and the byte itself stands behind a `=`.
fn spelling(directive: Directive) -> &'static [u8] {
    match directive {
        Directive::Year => b"%Y",
        Directive::YearOfCentury => b"%y",
        Directive::Month => b"%m",
        Directive::Day => b"%d",
        Directive::PaddedDay => b"%e",
        Directive::Hour => b"%H",
        Directive::HalfDayHour => b"%I",
        Directive::Minute => b"%M",
        Directive::Second => b"%S",
        Directive::DayOfYear => b"%j",
        Directive::ShortMonthName => b"%b",
        Directive::MonthName => b"%B",
        Directive::ShortWeekdayName => b"%a",
        Directive::WeekdayName => b"%A",
        Directive::HalfDay => b"%p",
        Directive::Epoch => b"%s",
        Directive::Fraction => b"%N",
        Directive::Millis => b"%3",
        Directive::Micros => b"%6",
        Directive::Nanos => b"%9",
        Directive::Offset => b"%z",
        Directive::ZoneName => b"%Z",
        Directive::Space => b"__",
        Directive::Byte(_) => b"=",
    }
}

fn put_directive(out: &mut String, directive: Directive) {
    put(out, spelling(directive));
    if let Directive::Byte(byte) = directive {
        put(out, &[byte]);
    }
}

/// The directives of a format, or its fault.
pub fn describe_format(alloc: Global, text: &[u8]) -> String {
    let mut found = String::new(alloc);
    match TimeFormat::read(alloc, text) {
        Ok(format) => {
            for directive in format.as_slice() {
                put_directive(&mut found, *directive);
            }
            drop(format);
        }
        Err(FormatFault::BadValue) => put(&mut found, b"bad value"),
        Err(FormatFault::NoMemory) => put(&mut found, b"no memory"),
    }
    found
}

/// Formats, and their directives, or their fault.
const FORMATS: &str = "\
    %s¦%s¶\
    %j¦%j¶\
    %m%d¦%m%d¶\
    %e %b¦%e__%b¶\
    %B%d¦%B%d¶\
    %F¦%Y=-%m=-%d¶\
    %sT%T¦%s=T%H=:%M=:%S¶\
    %%%s¦=%%s¶\
    %s.%3N%6N%9N%N¦%s=.%3%6%9%N¶\
    %s \t\x0b\r\n%p¦%s__%p¶\
    %a%A%I%y%z%Z%j¦%a%A%I%y%z%Z%j¶\
    ¦bad value¶\
    %Y-%m¦bad value¶\
    %Y-%d¦bad value¶\
    %T¦bad value¶\
    %s%¦bad value¶\
    %s%Q¦bad value¶\
    %s%3¦bad value¶\
    %s%3S¦bad value¶\
    %s%1N¦bad value";

#[test]
fn formats_are_lists_of_directives(rt: HostRuntime) {
    check_rows(&rt, rt.alloc(), Asked::Format, FORMATS);
}

fn key_letter(key: Key) -> &'static [u8] {
    match key {
        Key::Raw => b"r",
        Key::Meta => b"m",
        Key::Queue => b"q",
        Key::Index => b"i",
        Key::Host => b"h",
        Key::Source => b"s",
        Key::Sourcetype => b"t",
    }
}

/// Adds source, destination, whether the indexed fields are written, format and default value.
fn put_transform(out: &mut String, transform: &Transform) {
    put(out, key_letter(transform.source));
    match transform.dest {
        Some(key) => put(out, key_letter(key)),
        None => put(out, b"-"),
    }
    put(out, if transform.write_meta { b"+" } else { b"-" });
    put_parts(out, transform.format.as_slice());
    if let Some(value) = &transform.default_value {
        put(out, b"|");
        put(out, value.as_slice());
    }
}

fn put_transform_fault(out: &mut String, fault: &TransformFault) {
    match fault {
        TransformFault::BadValue { key } => {
            put(out, b"bad ");
            put(out, key.as_slice());
        }
        TransformFault::BadPattern { key, fault } => {
            put(out, key.as_slice());
            put(out, b" ");
            put(out, pattern_fault(*fault));
        }
        TransformFault::NoMemory => put(out, b"no memory"),
    }
}

/// Adds what the stanza `t` is as a transform, where it is there.
fn put_stanza(out: &mut String, alloc: Global, transforms: &Merged) {
    if transforms.has(b"t") {
        match Transform::read(alloc, b"t", transforms) {
            Ok(transform) => {
                put_transform(out, &transform);
                drop(transform);
            }
            Err(fault) => {
                put_transform_fault(out, &fault);
                drop(fault);
            }
        }
    }
}

pub fn describe_transform(alloc: Global, text: &[u8]) -> String {
    let mut found = String::new(alloc);
    if let Ok(transforms) = settings_of(alloc, text) {
        put_stanza(&mut found, alloc, &transforms);
        drop(transforms);
    }
    found
}

/// Texts of transforms.conf, and what the stanza `t` is.
const TRANSFORMED: &str = "\
    [t]\nREGEX=(a)\nWRITE_META=1¦r-+t::<01>¶\
    [t]\nREGEX=a\nDEST_KEY=queue\nFORMAT=nullQueue¦rq-nullQueue¶\
    [t]\nREGEX=a\nDEST_KEY=_meta\nFORMAT=$0 $12$3x$ $$1¦rm-<00> <12><03>x$ $<01>¶\
    [t]\nREGEX=a\nSOURCE_KEY=MetaData:Host\nDEST_KEY=_MetaData:Index\nFORMAT=$123\nDEFAULT_VALUE=x y¦hi-<12>3|x y¶\
    DEST_KEY=_raw\nREGEX=a\nWRITE_META=y\n[t]\nFORMAT=¦rr+t::<01>¶\
    DEST_KEY=_raw\nREGEX=a\n[t]\nDEST_KEY=¦bad DEST_KEY¶\
    [t]\nREGEX=a\nSOURCE_KEY=MetaData:Sourcetype\nDEST_KEY=MetaData:Source\nFORMAT=$a¦ts-$a¶\
    [t]\nREGEX=a¦bad DEST_KEY¶\
    [t]\nREGEX=a\nWRITE_META=0¦bad DEST_KEY¶\
    [t]\nREGEX=a\nWRITE_META=2¦bad DEST_KEY¶\
    [t]\nREGEX=a\nWRITE_META=2\nDEST_KEY=_raw¦bad WRITE_META¶\
    [t]\nREGEX=a\nDEST_KEY=raw\nLOOKAHEAD=0¦bad DEST_KEY¶\
    [t]\nREGEX=(\nDEST_KEY=_raw\nLOOKAHEAD=0¦bad LOOKAHEAD¶\
    [t]\nREGEX=a\nDEST_KEY=_raw\nLOOKAHEAD=8388609¦bad LOOKAHEAD¶\
    [t]\nREGEX=(\nDEST_KEY=_raw\nSOURCE_KEY=x¦REGEX syntax¶\
    [t]\nREGEX=\nDEST_KEY=_raw\nSOURCE_KEY=x¦bad REGEX¶\
    [t]\nDEST_KEY=_raw¦bad REGEX¶\
    [t]\nREGEX=a\nDEST_KEY=_raw\nSOURCE_KEY=MetaData:Index\nWRITE_META=2¦bad SOURCE_KEY";

#[test]
fn transforms_are_stanzas(rt: HostRuntime) {
    check_rows(&rt, rt.alloc(), Asked::Transform, TRANSFORMED);
}

/// How many bytes of the source the stanza `t` looks at.
fn lookahead_of(alloc: Global, transforms: &Merged) -> Option<u32> {
    if !transforms.has(b"t") {
        return None;
    }
    match Transform::read(alloc, b"t", transforms) {
        Ok(transform) => {
            let lookahead = transform.lookahead;
            drop(transform);
            Some(lookahead)
        }
        Err(fault) => {
            drop(fault);
            None
        }
    }
}

/// Texts of transforms.conf, and how many bytes the stanza `t` looks at.
const LOOKAHEADS: &str = "\
    [t]\nREGEX=a\nDEST_KEY=_raw¦Some(4096)¶\
    [t]\nREGEX=a\nDEST_KEY=_raw\nLOOKAHEAD=8388608¦Some(8388608)¶\
    LOOKAHEAD=0\n[t]\nREGEX=a\nDEST_KEY=_raw\nLOOKAHEAD=1¦Some(1)";

/// How many bytes of the source the stanza `t` of a text looks at.
pub fn lookahead_in(alloc: Global, text: &[u8]) -> Option<u32> {
    match settings_of(alloc, text) {
        Ok(transforms) => {
            let lookahead = lookahead_of(alloc, &transforms);
            drop(transforms);
            lookahead
        }
        Err(NoMemory) => None,
    }
}

#[test]
fn transforms_look_ahead(rt: HostRuntime) {
    check_rows(&rt, rt.alloc(), Asked::Lookahead, LOOKAHEADS);
}

fn put_word(out: &mut String, word: &[u8]) {
    put(out, b"|");
    put(out, word);
}

fn break_fault(fault: BreakFault) -> &'static [u8] {
    match fault {
        BreakFault::Pattern(fault) => pattern_fault(fault),
        BreakFault::NoGroup => b"no group",
        BreakFault::MatchesEmpty => b"matches empty",
    }
}

/// Adds the name of a fault, and what it names.
fn put_fault(out: &mut String, fault: &SettingFault) {
    put(out, fault.name().as_bytes());
    match fault {
        SettingFault::BadValue { stanza, key } => {
            put_word(out, stanza.as_slice());
            put_word(out, key.as_slice());
        }
        SettingFault::BadPattern { stanza, key, fault } => {
            put_word(out, stanza.as_slice());
            put_word(out, key.as_slice());
            put_word(out, break_fault(*fault));
        }
        SettingFault::UnknownTransform { stanza, key, name } => {
            put_word(out, stanza.as_slice());
            put_word(out, key.as_slice());
            put_word(out, name.as_slice());
        }
        SettingFault::UnknownZone { stanza, name } => {
            put_word(out, stanza.as_slice());
            put_word(out, name.as_slice());
        }
        SettingFault::BadStanzaPattern { stanza } => put_word(out, stanza.as_slice()),
        SettingFault::NoMemory => {}
    }
}

const TRANSFORMS: &[u8] = b"[good]
REGEX=a
DEST_KEY=queue
[nowhere]
REGEX=a
[open]
REGEX=(
WRITE_META=1
[far]
REGEX=a
WRITE_META=1
LOOKAHEAD=0
";

const ZONES: &[u8] = b"RULE=UTC0
[here]
RULE=EST5EDT,M3.2.0,M11.1.0
[empty]
RULE=
[none]
[bad]
RULE=EST5EDT
";

fn load_beside(alloc: Global, props: &Merged, transforms: &Merged) -> Result<Props, SettingFault> {
    match settings_of(alloc, ZONES) {
        Ok(zones) => {
            let loaded = Props::load(alloc, props, transforms, &zones);
            drop(zones);
            loaded
        }
        Err(_) => Err(SettingFault::NoMemory),
    }
}

fn load_merged(alloc: Global, props: &Merged) -> Result<Props, SettingFault> {
    match settings_of(alloc, TRANSFORMS) {
        Ok(transforms) => {
            let loaded = load_beside(alloc, props, &transforms);
            drop(transforms);
            loaded
        }
        Err(_) => Err(SettingFault::NoMemory),
    }
}

/// The props.conf of a text, beside these transforms and zones.
fn load_props(alloc: Global, text: &[u8]) -> Result<Props, SettingFault> {
    match settings_of(alloc, text) {
        Ok(props) => {
            let loaded = load_merged(alloc, &props);
            drop(props);
            loaded
        }
        Err(_) => Err(SettingFault::NoMemory),
    }
}

/// The fault of a props.conf beside them, or `good`.
pub fn describe_props(alloc: Global, text: &[u8]) -> String {
    let mut found = String::new(alloc);
    match load_props(alloc, text) {
        Ok(props) => {
            put(&mut found, b"good");
            drop(props);
        }
        Err(fault) => {
            put_fault(&mut found, &fault);
            drop(fault);
        }
    }
    found
}

/// Texts of props.conf, and the fault of each.
const JUDGED: &str = "\
    ¦good¶\
    LINE_BREAKER=¦good¶\
    Other=(\n[rule::(]\nTRUNCATE=x\n[delayedrule::a]\nTZ=x¦good¶\
    LINE_BREAKER=a¦BadPattern|default|LINE_BREAKER|no group¶\
    LINE_BREAKER=(a*)¦BadPattern|default|LINE_BREAKER|matches empty¶\
    LINE_BREAKER=(¦BadPattern|default|LINE_BREAKER|syntax¶\
    [w]\nTRUNCATE=4294967295¦good¶\
    [w]\nTRUNCATE=4294967296¦BadValue|w|TRUNCATE¶\
    [w]\nTRUNCATE=-1¦BadValue|w|TRUNCATE¶\
    [w]\nSHOULD_LINEMERGE=on¦BadValue|w|SHOULD_LINEMERGE¶\
    [w]\nBREAK_ONLY_BEFORE_DATE=2¦BadValue|w|BREAK_ONLY_BEFORE_DATE¶\
    [w]\nBREAK_ONLY_BEFORE=(a*)*¦BadPattern|w|BREAK_ONLY_BEFORE|empty repeat¶\
    [w]\nMUST_BREAK_AFTER=)¦BadPattern|w|MUST_BREAK_AFTER|syntax¶\
    [w]\nMUST_NOT_BREAK_AFTER=[¦BadPattern|w|MUST_NOT_BREAK_AFTER|syntax¶\
    [w]\nMUST_NOT_BREAK_BEFORE=a{1001}¦BadPattern|w|MUST_NOT_BREAK_BEFORE|too large¶\
    [w]\nTIME_PREFIX=*¦BadPattern|w|TIME_PREFIX|syntax¶\
    [w]\nMAX_EVENTS=0¦BadValue|w|MAX_EVENTS¶\
    [w]\nMAX_EVENTS=1000001¦BadValue|w|MAX_EVENTS¶\
    [w]\nTIME_FORMAT=%Y-%m¦BadValue|w|TIME_FORMAT¶\
    [w]\nMAX_TIMESTAMP_LOOKAHEAD=-1¦good¶\
    [w]\nMAX_TIMESTAMP_LOOKAHEAD=-2¦BadValue|w|MAX_TIMESTAMP_LOOKAHEAD¶\
    [w]\nMAX_DAYS_AGO=10952¦BadValue|w|MAX_DAYS_AGO¶\
    [w]\nMAX_DAYS_HENCE=10951¦BadValue|w|MAX_DAYS_HENCE¶\
    [w]\npriority=-1000001¦BadValue|w|priority¶\
    [w]\nTZ=here¦good¶\
    [w]\nTZ=gone¦UnknownZone|w|gone¶\
    [w]\nTZ=none¦UnknownZone|w|none¶\
    [w]\nTZ=empty¦UnknownZone|w|empty¶\
    [w]\nTZ=bad¦BadValue|bad|RULE¶\
    [w]\nSEDCMD-=s/a/b/\nSEDCMD-x=s/a/b¦BadValue|w|SEDCMD-x¶\
    [w]\nSEDCMD-x=s/(/b/¦BadPattern|w|SEDCMD-x|syntax¶\
    [w]\nTRANSFORMS-x= good , ,good,¦good¶\
    [w]\nTRANSFORMS-x=good,gone¦UnknownTransform|w|TRANSFORMS-x|gone¶\
    [w]\nTRANSFORMS-x=good\t,gone¦UnknownTransform|w|TRANSFORMS-x|good\t¶\
    [w]\nTRANSFORMS-x=nowhere,gone¦BadValue|nowhere|DEST_KEY¶\
    [w]\nTRANSFORMS-x=open¦BadPattern|open|REGEX|syntax¶\
    [w]\nTRANSFORMS-x=far¦BadValue|far|LOOKAHEAD¶\
    [source::a(]\nTRUNCATE=x¦BadStanzaPattern|source::a(¶\
    [host::(?b)]\n[a]\nTRUNCATE=x\nTZ=gone¦BadValue|a|TRUNCATE¶\
    [host::a|b*]\n[source::...(/x|y)]\n[host::)]¦BadStanzaPattern|host::)";

#[test]
fn values_of_props_are_judged(rt: HostRuntime) {
    check_rows(&rt, rt.alloc(), Asked::Props, JUDGED);
}

/// Writes what is said of a stanza with a source type of so many bytes.
fn note_sourcetype(text: &mut String, alloc: Global, len: usize) {
    let mut props = bytes_of(alloc, b"[w]\nsourcetype=");
    repeat(&mut props, b"n", len);
    let found = describe_props(alloc, props.as_slice());
    drop(props);
    say(text, found.as_str());
    drop(found);
}

fn sourcetypes_said(alloc: Global) -> String {
    let mut text = String::new(alloc);
    note_sourcetype(&mut text, alloc, 1024);
    note_sourcetype(&mut text, alloc, 1025);
    text
}

#[test]
fn a_source_type_has_a_bounded_name(rt: HostRuntime) {
    compare(
        &rt,
        sourcetypes_said(rt.alloc()),
        "good BadValue|w|sourcetype",
    );
}

/// Whether a rule is one, and a copy of its zone too; nothing where memory is lacking.
pub fn is_rule(alloc: Global, text: &[u8]) -> Option<bool> {
    match Zone::read(alloc, text) {
        Ok(zone) => {
            let copy = zone.copy();
            drop(zone);
            let is_copied = copy.is_ok();
            drop(copy);
            Some(is_copied)
        }
        Err(RuleFault::BadRule) => Some(false),
        Err(RuleFault::NoMemory) => None,
    }
}

/// Texts, and whether they are the rule of a zone.
const RULES: &str = "\
    UTC0¦Some(true)¶\
    CET-1CEST,M3.5.0,M10.5.0/3¦Some(true)¶\
    <+03>-3¦Some(true)¶\
    ¦Some(false)¶\
    UTC¦Some(false)¶\
    EST5EDT¦Some(false)¶\
    UTC0 ¦Some(false)";

#[test]
fn zones_have_rules(rt: HostRuntime) {
    check_rows(&rt, rt.alloc(), Asked::Rule, RULES);
}

fn bytes_or_none(alloc: Global, text: &str) -> Option<Bytes> {
    if text.is_empty() {
        None
    } else {
        Some(bytes_of(alloc, text.as_bytes()))
    }
}

/// A channel by its host, its source and its source type, which is empty where it states none.
fn meta_of(alloc: Global, channel: &str) -> ChannelMeta {
    let mut fields = channel.split('¦');
    ChannelMeta {
        host: bytes_of(alloc, fields.next().unwrap_or("").as_bytes()),
        source: bytes_of(alloc, fields.next().unwrap_or("").as_bytes()),
        sourcetype: bytes_or_none(alloc, fields.next().unwrap_or("")),
        index: None,
    }
}

/// The weight of a pattern; 0 for none.
fn weight(pattern: &Option<Pattern>) -> u64 {
    match pattern {
        Some(pattern) => pattern.weight(),
        None => 0,
    }
}

fn note_merge(text: &mut String, merge: &MergeSettings) {
    note(text, merge.on);
    note(text, merge.before_date);
    note(text, merge.max_lines);
    note(text, weight(&merge.before));
    note(text, weight(&merge.break_after));
    note(text, weight(&merge.hold_after));
    note(text, weight(&merge.veto));
}

fn note_time(text: &mut String, time: &TimeSettings) {
    note(text, weight(&time.prefix));
    match &time.format {
        Some(format) => note(text, format.as_slice().len()),
        None => note(text, 0),
    }
    note(text, time.lookahead.unwrap_or(0));
    note(text, time.days_ago);
    note(text, time.days_hence);
}

fn note_changes(text: &mut String, changes: &[Sed]) {
    for change in changes {
        put(text, b" ");
        put_change(text, change);
    }
}

/// Writes source type, size of a line, weight of the breaker, merging, time, how many transforms, and changes.
fn note_settings(text: &mut String, settings: &Settings) {
    let _ = text.push_str(shown(settings.sourcetype.as_slice()));
    note(text, settings.truncate);
    note(text, settings.breaker.weight());
    note_merge(text, &settings.merge);
    note_time(text, &settings.time);
    note(text, settings.transforms.len());
    note_changes(text, settings.seds.as_slice());
}

fn note_copy(text: &mut String, alloc: Global, settings: &Settings) {
    if let Ok(copy) = settings.copy(alloc) {
        note_settings(text, &copy);
        drop(copy);
    }
}

fn note_channel(text: &mut String, alloc: Global, props: &Props, channel: &str) {
    let meta = meta_of(alloc, channel);
    let settings = props.settings(alloc, &meta);
    drop(meta);
    if let Ok(settings) = settings {
        note_copy(text, alloc, &settings);
        drop(settings);
    }
}

/// The settings of a channel: asked are the text of props.conf that they come from, and then the channel.
pub fn describe_channel(alloc: Global, asked: &str) -> String {
    let (props, channel) = asked.split_once('¦').unwrap_or((asked, ""));
    let mut text = String::new(alloc);
    match load_props(alloc, props.as_bytes()) {
        Ok(props) => {
            note_channel(&mut text, alloc, &props, channel);
            drop(props);
        }
        Err(fault) => drop(fault),
    }
    text
}

/// Which stanza's value holds: by what it stands for, then by its priority, then by its name.
const BY_STANZAS: &str = "\
    ¦web1¦/a/x¦¦unknown 10000 6 true true 256 0 0 0 0 0 0 128 2000 2 0¶\
    [host::WEB*]\nTRUNCATE=3\n[source::/a/...]\nTRUNCATE=4\n[source::/a/*]\nTRUNCATE=5¦web1¦/a/x¦¦unknown 5 6 true true 256 0 0 0 0 0 0 128 2000 2 0¶\
    [host::WEB*]\nTRUNCATE=3\n[source::/a/...]\nTRUNCATE=4¦web1¦/b¦¦unknown 3 6 true true 256 0 0 0 0 0 0 128 2000 2 0¶\
    [source::/a/...]\nTRUNCATE=4\npriority=1\n[source::/a/*]\nTRUNCATE=5¦web1¦/a/x¦¦unknown 4 6 true true 256 0 0 0 0 0 0 128 2000 2 0¶\
    [source::/a/x]\nTRUNCATE=6\n[source::/a/*]\nTRUNCATE=5\npriority=99¦web1¦/a/x¦¦unknown 6 6 true true 256 0 0 0 0 0 0 128 2000 2 0¶\
    [source::/a/x]\nTRUNCATE=6\n[source::/a/*]\nTRUNCATE=5\npriority=101¦web1¦/a/x¦¦unknown 5 6 true true 256 0 0 0 0 0 0 128 2000 2 0¶\
    [host::web1]\npriority=1000\nTRUNCATE=3\n[source::...]\nTRUNCATE=4¦web1¦/a/x¦¦unknown 4 6 true true 256 0 0 0 0 0 0 128 2000 2 0¶\
    [source::/A/*]\nTRUNCATE=4\n[host::WEB1]\nTRUNCATE=3¦web1¦/a/x¦¦unknown 3 6 true true 256 0 0 0 0 0 0 128 2000 2 0¶\
    TRUNCATE=8\n[st]\nTRUNCATE=7\n[host::x]\nTRUNCATE=3¦web1¦/a/x¦st¦st 7 6 true true 256 0 0 0 0 0 0 128 2000 2 0¶\
    [st]\nTRUNCATE=7\n[host::web1]\nTRUNCATE=3¦web1¦/a/x¦st¦st 3 6 true true 256 0 0 0 0 0 0 128 2000 2 0¶\
    TRUNCATE=8\n[host::web1]\nTRUNCATE=¦web1¦/a/x¦¦unknown 10000 6 true true 256 0 0 0 0 0 0 128 2000 2 0";

#[test]
fn the_nearest_stanza_holds(rt: HostRuntime) {
    check_rows(&rt, rt.alloc(), Asked::Settings, BY_STANZAS);
}

/// Source types, classes, and a value of each key.
const BY_VALUES: &str = "\
    [source::/a/*]\nsourcetype=app\n[app]\nTRUNCATE=9¦web1¦/a/x¦¦app 9 6 true true 256 0 0 0 0 0 0 128 2000 2 0¶\
    [source::/a/*]\nsourcetype=app\n[app]\nTRUNCATE=9¦web1¦/a/x¦st¦st 10000 6 true true 256 0 0 0 0 0 0 128 2000 2 0¶\
    sourcetype=all\n[host::web1]\nsourcetype=hosts\n[unknown]\nTRUNCATE=9¦web1¦/a/x¦¦unknown 9 6 true true 256 0 0 0 0 0 0 128 2000 2 0¶\
    [source::/a/*]\nsourcetype=\n[source::/a/...]\nsourcetype=b¦web1¦/a/x¦¦unknown 10000 6 true true 256 0 0 0 0 0 0 128 2000 2 0¶\
    TRUNCATE=8\n[source::/b]\nTRUNCATE=9¦web1¦/a/x¦source::/b¦source::/b 8 6 true true 256 0 0 0 0 0 0 128 2000 2 0¶\
    TRUNCATE=8\n[rule::x]\nTRUNCATE=9¦web1¦/a/x¦rule::x¦rule::x 8 6 true true 256 0 0 0 0 0 0 128 2000 2 0¶\
    SEDCMD-c=\nTRANSFORMS-b=good\nTRANSFORMS-a=good,good\n[source::/a/*]\nSEDCMD-b=s/a/1/\n[host::web1]\nSEDCMD-a=y/a/b/\nSEDCMD-b=s/a/2/¦web1¦/a/x¦¦unknown 10000 6 true true 256 0 0 0 0 0 0 128 2000 2 3 a|b first|1¶\
    LINE_BREAKER=(a)\nSHOULD_LINEMERGE=no\nBREAK_ONLY_BEFORE_DATE=0\nBREAK_ONLY_BEFORE=a\nMUST_BREAK_AFTER=ab\nMUST_NOT_BREAK_AFTER=abc\nMUST_NOT_BREAK_BEFORE=abcd\nMAX_EVENTS=9\nTIME_PREFIX=ab\nTIME_FORMAT=%s.\nMAX_TIMESTAMP_LOOKAHEAD=-1\nTZ=here\nMAX_DAYS_AGO=10951\nMAX_DAYS_HENCE=0\nTRUNCATE=0¦web1¦/a/x¦¦unknown 0 3 false false 9 1 2 3 4 2 2 0 10951 0 0¶\
    MAX_TIMESTAMP_LOOKAHEAD=1048576¦web1¦/a/x¦¦unknown 10000 6 true true 256 0 0 0 0 0 0 1048576 2000 2 0";

#[test]
fn each_key_has_its_value(rt: HostRuntime) {
    check_rows(&rt, rt.alloc(), Asked::Settings, BY_VALUES);
}
