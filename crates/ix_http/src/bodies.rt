//! The JSON bodies of requests.

ghost use Rattle.std.specs.Prelude.{◌≡◌, ℕ, ◌++◌, ◌∷◌, [], List, IfOk, option_map, option_and_then, string_bytes};
ghost use Rattle.std.specs.List.{list_all};
ghost use Rattle.std.specs.BTreeMap.{keys};
ghost use Rattle.serde_json.specs.Find.{as_object};
ghost use Rattle.serde_json.specs.View.{view, items_view};
ghost use Rattle.ix_http.specs.Bodies.{json_of, short_text, wanted, is_meta_name, is_acks_name, is_object_of, meta_of, acks_of, acks_parts};
ghost use Rattle.ix_http.specs.Bodies.{IsJson, u64_of, numbers_in, numbers_of};
ghost use Rattle.ix_http.specs.Texts.{texts_meta};

use ix_base::{Bytes, ChannelMeta, NoMemory, NumberList};
use serde_json::{Map, Value};
use std::alloc::Global;

/// The texts of a channel's metadata, still those of the body.
#[derive(Clone, Copy)]
struct Texts<'a> {
    host: &'a str,
    source: &'a str,
    sourcetype: Option<&'a str>,
    index: Option<&'a str>,
}

/// The value of a body; `None` where it is no JSON.
fn json_of(alloc: Global, body: &[u8]) -> Result<Option<Value>, NoMemory>
    ensures { IfOk result (λ o. option_map (λ v. view v) o ≡ json_of body.now) }
{
    parsed(alloc, body)
}

fn parsed(alloc: Global, body: &[u8]) -> Result<Option<Value>, NoMemory>
    ensures { IfOk result (λ o. IsJson body.now (option_map (λ v. view v) o)) }
{
    match Value::from_slice(alloc, body) {
        Ok(value) => Ok(Some(value)),
        Err(error) => {
            if error.is_memory() {
                return Err(NoMemory);
            }
            Ok(None)
        }
    }
}

/// A text of 1 to 1,024 bytes.
fn short_text(value: &Value) -> Option<&str>
    ensures { option_map (λ s. s.now) result ≡ short_text (view value.now) }
{
    let text = value.as_str()?;
    if !text.is_empty() && text.len() <= 1024 {
        Some(text)
    } else {
        None
    }
}

/// A member that may be absent: `None` where it is no short text.
fn wanted(member: Option<&Value>) -> Option<Option<&str>>
    ensures { option_map (option_map (λ s. s.now)) result ≡ wanted (option_map (λ v. view v.now) member.entry) }
{
    match member {
        None => Some(None),
        Some(value) => Some(Some(short_text(value)?)),
    }
}

fn is_meta_name(name: &str) -> bool
    ensures { result ≡ is_meta_name name.now }
{
    name == "host" || name == "source" || name == "sourcetype" || name == "index"
}

fn has_meta_names(map: &Map<String, Value>) -> bool
    ensures { result ≡ list_all (λ k. is_meta_name (string_bytes k)) (keys map.now) }
{
    map.keys().all(|name| is_meta_name(name.as_str()))
}

/// Whether the value is an object whose members are those of metadata.
fn is_meta_object(value: &Value) -> bool
    ensures { result ≡ is_object_of is_meta_name (view value.now) }
{
    match value.as_object() {
        Some(map) => has_meta_names(map),
        None => false,
    }
}

/// The texts of a value of the form.
#[tactic(auto, unfolding(crate::specs::Bodies::meta_of))]
fn meta_texts(value: &Value) -> Option<Texts<'_>>
    ensures { option_map texts_meta result ≡ meta_of (view value.now) }
{
    if !is_meta_object(value) {
        return None;
    }
    let host = short_text(value.get("host")?)?;
    let source = short_text(value.get("source")?)?;
    let sourcetype = wanted(value.get("sourcetype"))?;
    let index = wanted(value.get("index"))?;
    Some(Texts {
        host,
        source,
        sourcetype,
        index,
    })
}

fn copied(alloc: Global, text: Option<&str>) -> Result<Option<Bytes>, NoMemory>
    ensures { IfOk result (λ o. o ≡ option_map (λ s. s.now) text.entry) }
{
    match text {
        Some(text) => Ok(Some(Bytes::copy_of(alloc, text.as_bytes())?)),
        None => Ok(None),
    }
}

fn owned(alloc: Global, texts: &Texts<'_>) -> Result<ChannelMeta, NoMemory>
    ensures { IfOk result (λ m. m ≡ texts_meta texts.now) }
{
    Ok(ChannelMeta {
        host: Bytes::copy_of(alloc, texts.host.as_bytes())?,
        source: Bytes::copy_of(alloc, texts.source.as_bytes())?,
        sourcetype: copied(alloc, texts.sourcetype)?,
        index: copied(alloc, texts.index)?,
    })
}

/// The metadata that a body names, or `None` where it is refused.
pub(crate) fn read_meta(alloc: Global, body: &[u8]) -> Result<Option<ChannelMeta>, NoMemory>
    ensures { IfOk result (λ o. o ≡ option_and_then meta_of (json_of body.now)) }
{
    let Some(value) = json_of(alloc, body)? else {
        return Ok(None);
    };
    match meta_texts(&value) {
        Some(texts) => Ok(Some(owned(alloc, &texts)?)),
        None => Ok(None),
    }
}

fn is_acks_name(name: &str) -> bool
    ensures { result ≡ is_acks_name name.now }
{
    name == "run" || name == "acks"
}

fn has_acks_names(map: &Map<String, Value>) -> bool
    ensures { result ≡ list_all (λ k. is_acks_name (string_bytes k)) (keys map.now) }
{
    map.keys().all(|name| is_acks_name(name.as_str()))
}

/// Whether the value is an object whose members are those of a query of acknowledgements.
fn is_acks_object(value: &Value) -> bool
    ensures { result ≡ is_object_of is_acks_name (view value.now) }
{
    match value.as_object() {
        Some(map) => has_acks_names(map),
        None => false,
    }
}

/// The numbers of a list, or `None` where an item is no `u64`.
fn numbers_in(alloc: Global, items: &[Value]) -> Result<Option<NumberList>, NoMemory>
    ensures { IfOk result (λ o. o ≡ numbers_in (items_view items.now)) }
{
    let mut found = NumberList::new(alloc);
    for item in items {
        match item.as_u64() {
            Some(number) => found.push(number)?,
            None => return Ok(None),
        }
    }
    Ok(Some(found))
}

fn numbers_of(alloc: Global, value: &Value) -> Result<Option<NumberList>, NoMemory>
    ensures { IfOk result (λ o. o ≡ numbers_of (view value.now)) }
{
    match value.as_array() {
        Some(items) => numbers_in(alloc, items),
        None => Ok(None),
    }
}

/// The run of a value of the form, and the value of its numbers.
#[tactic(auto, unfolding(crate::specs::Bodies::acks_parts))]
fn acks_parts(value: &Value) -> Option<(u64, &Value)>
    ensures { option_map (λ p. (p.0, view p.1.now)) result ≡ acks_parts (view value.now) }
{
    if !is_acks_object(value) {
        return None;
    }
    let run = value.get("run")?.as_u64()?;
    let numbers = value.get("acks")?;
    Some((run, numbers))
}

/// The run and the numbers of a value of the form.
#[tactic(auto, unfolding(crate::specs::Bodies::acks_of))]
fn acks_of(alloc: Global, value: &Value) -> Result<Option<(u64, NumberList)>, NoMemory>
    ensures { IfOk result (λ o. o ≡ acks_of (view value.now)) }
{
    let Some((run, numbers)) = acks_parts(value) else {
        return Ok(None);
    };
    match numbers_of(alloc, numbers)? {
        Some(numbers) => Ok(Some((run, numbers))),
        None => Ok(None),
    }
}

/// The run and the numbers that a body names, or `None` where it is refused.
pub(crate) fn read_acks(alloc: Global, body: &[u8]) -> Result<Option<(u64, NumberList)>, NoMemory>
    ensures { IfOk result (λ o. o ≡ option_and_then acks_of (json_of body.now)) }
{
    let Some(value) = json_of(alloc, body)? else {
        return Ok(None);
    };
    acks_of(alloc, &value)
}
