//! Transforms: what routes or changes an event at index time.

ghost use Rattle.std.specs.Prelude.{◌≡◌, None, Some, IfOk, IfErr, OnErr, OnOk, IsSome, [], ◌++◌, false, bytes_eq};
ghost use Rattle.std.specs.Option.{option_copied};
ghost use Rattle.ix_conf.specs.Value.{entry_at};
ghost use Rattle.ix_conf_values.specs.Transforms.{key_of, read_or, values_of, source_of, write_meta_of, lookahead_of, dest_from};
ghost use Rattle.ix_conf_values.specs.Transforms.{format_from, RegexIs, RegexHasFault, IsTransformOf, HasDestination, RefusesTransform};
ghost use Rattle.ix_conf_values.specs.Transforms.{IsBadValue, RefusesValue, no_dest};
ghost use Rattle.ix_conf_values.specs.Lent.{lent_values};
ghost use Rattle.ix_conf_values.specs.Plain.{boolean, count_in};

use crate::escapes::{Part, PartList, add_bytes, add_numbered, copy_parts};
use crate::patterns::read_pattern;
use crate::plain::{read_boolean, read_count};
use crate::values::value_of;
use ix_base::{Bytes, NoMemory, Sequence};
use ix_conf::Merged;
use ix_pattern::{Pattern, PatternFault};
use std::alloc::Global;
use thiserror::Error;

/// A part of an event that a transform reads or writes.
#[derive(Clone, Copy, Debug, PartialEq, Eq)]
pub enum Key {
    /// `_raw`: the text.
    Raw,
    /// `_meta`: the indexed fields.
    Meta,
    /// `queue`: whether the event is kept.
    Queue,
    /// `_MetaData:Index`
    Index,
    /// `MetaData:Host`
    Host,
    /// `MetaData:Source`
    Source,
    /// `MetaData:Sourcetype`
    Sourcetype,
}

/// A transform, as a stanza of transforms.conf states it.
#[derive(Drop)]
pub struct Transform {
    /// `REGEX`: what the source is to match.
    pub regex: Pattern,
    /// `SOURCE_KEY`: the part that is read.
    pub source: Key,
    /// `DEST_KEY`: the part that is written. Without one the transform writes the indexed fields.
    pub dest: Option<Key>,
    /// `FORMAT`: what is written on a match.
    pub format: PartList,
    /// `DEFAULT_VALUE`: what is written without a match.
    pub default_value: Option<Bytes>,
    /// `WRITE_META`: the value is added to the indexed fields.
    pub write_meta: bool,
    /// `LOOKAHEAD`: how many bytes of the source are looked at, 1 to 8,388,608.
    pub lookahead: u32,
}

/// Transforms, the first one first.
pub type TransformList = Sequence<Transform>;

/// Why a stanza is no transform. The first fault in the order of the keys is answered.
#[derive(Debug, Drop, Error)]
pub enum TransformFault {
    /// The value of this key is none of its kind, or is missing where it has to be there.
    #[error("the transform has a bad value of {key:?}")]
    BadValue { key: Bytes },
    /// The value of this key is no pattern. The fault is never want of memory.
    #[error("the transform has no pattern in {key:?}: {fault}")]
    BadPattern { key: Bytes, fault: PatternFault },
    /// There was no room in memory.
    #[error("there was no room in memory")]
    NoMemory,
}

impl From<NoMemory> for TransformFault {
    ghost use Rattle.std.specs.Prelude.{◌≡◌};
    ghost use Rattle.ix_conf_values.specs.declared.transforms.TransformFault.TheVariants.{NoMemory as no_memory};

    ghost from_gives = { λ _ fault. fault ≡ no_memory };

    fn from(_: NoMemory) -> TransformFault {
        TransformFault::NoMemory
    }
}

/// The values that a stanza has, or `default`.
#[derive(Drop)]
struct Values<'a> {
    default_value: Option<&'a [u8]>,
    dest_key: Option<&'a [u8]>,
    format: Option<&'a [u8]>,
    lookahead: Option<&'a [u8]>,
    regex: Option<&'a [u8]>,
    source_key: Option<&'a [u8]>,
    write_meta: Option<&'a [u8]>,
}

fn values_of<'a>(transforms: &'a Merged, stanza: &[u8]) -> Values<'a>
    ensures { lent_values result ≡ values_of transforms.now stanza.now }
{
    Values {
        default_value: value_of(transforms, stanza, b"DEFAULT_VALUE"),
        dest_key: value_of(transforms, stanza, b"DEST_KEY"),
        format: value_of(transforms, stanza, b"FORMAT"),
        lookahead: value_of(transforms, stanza, b"LOOKAHEAD"),
        regex: value_of(transforms, stanza, b"REGEX"),
        source_key: value_of(transforms, stanza, b"SOURCE_KEY"),
        write_meta: value_of(transforms, stanza, b"WRITE_META"),
    }
}

fn is_name(name: &[u8], other: &[u8]) -> bool
    ensures { result ≡ bytes_eq name.now other.now }
{
    name == other
}

/// The part of an event that a name stands for.
fn key_of(name: &[u8]) -> Option<Key>
    ensures { result ≡ key_of name.now }
{
    if is_name(name, b"_raw") {
        Some(Key::Raw)
    } else if is_name(name, b"_meta") {
        Some(Key::Meta)
    } else if is_name(name, b"queue") {
        Some(Key::Queue)
    } else if is_name(name, b"_MetaData:Index") {
        Some(Key::Index)
    } else if is_name(name, b"MetaData:Host") {
        Some(Key::Host)
    } else if is_name(name, b"MetaData:Source") {
        Some(Key::Source)
    } else if is_name(name, b"MetaData:Sourcetype") {
        Some(Key::Sourcetype)
    } else {
        None
    }
}

fn bad_value(alloc: Global, key: &[u8]) -> TransformFault
    ensures { IsBadValue key.now result }
{
    match Bytes::copy_of(alloc, key) {
        Ok(key) => TransformFault::BadValue { key },
        Err(_) => TransformFault::NoMemory,
    }
}

fn source_of(value: Option<&[u8]>) -> Option<Key>
    ensures { result ≡ read_or key_of Key.Raw (option_copied value.entry) }
{
    match value {
        Some(text) => key_of(text),
        None => Some(Key::Raw),
    }
}

fn write_meta_of(value: Option<&[u8]>) -> Option<bool>
    ensures { result ≡ read_or boolean false (option_copied value.entry) }
{
    match value {
        Some(text) => read_boolean(text),
        None => Some(false),
    }
}

fn lookahead_of(value: Option<&[u8]>) -> Option<u32>
    ensures { result ≡ read_or (count_in 1 8_388_608) 4096 (option_copied value.entry) }
{
    match value {
        Some(text) => read_count(text, 1, 8_388_608),
        None => Some(4096),
    }
}

fn no_dest(write_meta: Option<bool>) -> Option<Option<Key>>
    ensures { result ≡ no_dest write_meta }
{
    match write_meta {
        Some(true) => Some(None),
        _ => None,
    }
}

/// Where the value goes; `None` where a name stands for nothing, and where there is neither a name
/// nor a true `WRITE_META`.
fn dest_of(value: Option<&[u8]>, write_meta: Option<bool>) -> Option<Option<Key>>
    ensures { result ≡ dest_from write_meta (option_copied value.entry) }
{
    match value {
        Some(text) => {
            let key = key_of(text)?;
            Some(Some(key))
        }
        None => no_dest(write_meta),
    }
}

/// Adds what is written on a match: the name of the stanza, two colons and the first group where
/// nothing else is said.
fn add_format(format: &mut PartList, stanza: &[u8], value: Option<&[u8]>) -> Result<(), NoMemory>
    ensures { OnOk result (format.new ≡ format.old ++ format_from stanza.now (option_copied value.entry)) }
{
    match value {
        Some(text) => add_numbered(format, text),
        None => {
            add_bytes(format, stanza)?;
            add_bytes(format, b"::")?;
            format.push(Part::Group(1))
        }
    }
}

fn format_of(alloc: Global, stanza: &[u8], value: Option<&[u8]>) -> Result<PartList, NoMemory>
    ensures { IfOk result (λ format. format ≡ format_from stanza.now (option_copied value.entry)) }
{
    let mut format = Sequence::new(alloc);
    add_format(&mut format, stanza, value)?;
    Ok(format)
}

fn regex_of(alloc: Global, value: Option<&[u8]>) -> Result<Pattern, TransformFault>
    ensures ok { IfOk result (λ pattern. RegexIs (option_copied value.entry) pattern) }
    ensures err { IfErr result (λ fault. RefusesValue (option_copied value.entry) fault) }
{
    let Some(text) = value else {
        return Err(bad_value(alloc, b"REGEX"));
    };
    match read_pattern(alloc, text) {
        Ok(pattern) => Ok(pattern),
        Err(PatternFault::NoMemory) => Err(TransformFault::NoMemory),
        Err(fault) => Err(TransformFault::BadPattern {
            key: Bytes::copy_of(alloc, b"REGEX")?,
            fault,
        }),
    }
}

fn copy_value(alloc: Global, value: Option<&[u8]>) -> Result<Option<Bytes>, NoMemory>
    ensures { IfOk result (λ copy. copy ≡ option_copied value.entry) }
{
    match value {
        Some(text) => Ok(Some(Bytes::copy_of(alloc, text)?)),
        None => Ok(None),
    }
}

/// What a transform writes on a match, and without one.
fn copies_of(
    alloc: Global,
    stanza: &[u8],
    values: &Values<'_>,
) -> Result<(PartList, Option<Bytes>), NoMemory>
    ensures format { IfOk result (λ copies. copies.0 ≡ format_from stanza.now (option_copied values.now.format)) }
    ensures default_value { IfOk result (λ copies. copies.1 ≡ option_copied values.now.default_value) }
{
    let format = format_of(alloc, stanza, values.format)?;
    let default_value = copy_value(alloc, values.default_value)?;
    Ok((format, default_value))
}

/// Reads a transform of the values of its stanza.
fn read_values(
    alloc: Global,
    stanza: &[u8],
    values: &Values<'_>,
) -> Result<Transform, TransformFault>
    ensures ok { IfOk result (λ transform. IsTransformOf stanza.now (lent_values values.now) transform) }
    ensures destination { IfOk result (λ transform. HasDestination transform) }
    ensures err { IfErr result (λ fault. RefusesTransform (lent_values values.now) fault) }
{
    let write_meta = write_meta_of(values.write_meta);
    let Some(dest) = dest_of(values.dest_key, write_meta) else {
        return Err(bad_value(alloc, b"DEST_KEY"));
    };
    let Some(lookahead) = lookahead_of(values.lookahead) else {
        return Err(bad_value(alloc, b"LOOKAHEAD"));
    };
    let regex = regex_of(alloc, values.regex)?;
    let Some(source) = source_of(values.source_key) else {
        drop(regex);
        return Err(bad_value(alloc, b"SOURCE_KEY"));
    };
    let Some(write_meta) = write_meta else {
        drop(regex);
        return Err(bad_value(alloc, b"WRITE_META"));
    };
    let Ok((format, default_value)) = copies_of(alloc, stanza, values) else {
        drop(regex);
        return Err(TransformFault::NoMemory);
    };
    Ok(Transform {
        regex,
        source,
        dest,
        format,
        default_value,
        write_meta,
        lookahead,
    })
}

impl Transform {
    /// Reads the transform of a stanza, which is there. A value that the stanza does not have is
    /// that of `default`.
    ///
    /// The keys are judged in the order `DEST_KEY`, `LOOKAHEAD`, `REGEX`, `SOURCE_KEY`,
    /// `WRITE_META`, and the first fault is answered. `DEST_KEY` and `REGEX` are judged also where
    /// they are absent: there has to be a pattern, and a destination or a true `WRITE_META`.
    pub fn read(
        alloc: Global,
        stanza: &[u8],
        transforms: &Merged,
    ) -> Result<Transform, TransformFault>
        requires { IsSome (entry_at stanza.now [] transforms.now) }
        ensures ok { IfOk result (λ transform. IsTransformOf stanza.now (values_of transforms.now stanza.now) transform) }
        ensures destination { IfOk result (λ transform. HasDestination transform) }
        ensures err { IfErr result (λ fault. RefusesTransform (values_of transforms.now stanza.now) fault) }
    {
        let values = values_of(transforms, stanza);
        read_values(alloc, stanza, &values)
    }

    /// A copy of it.
    pub fn copy(&self, alloc: Global) -> Result<Transform, NoMemory>
        ensures { IfOk result (λ copy. copy ≡ self.now) }
    {
        let default_value = match &self.default_value {
            Some(value) => Some(value.copy()?),
            None => None,
        };
        Ok(Transform {
            regex: self.regex.copy()?,
            source: self.source,
            dest: self.dest,
            format: copy_parts(alloc, self.format.as_slice())?,
            default_value,
            write_meta: self.write_meta,
            lookahead: self.lookahead,
        })
    }
}
